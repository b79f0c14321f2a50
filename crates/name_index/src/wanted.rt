// The products that a walk visits: near products, and which of them are wanted.
ghost use Rattle.std.specs.Prelude.{◌≡◌};
ghost use Rattle.name_index.specs.Wanted.{is_wanted_name};

use crate::products::Products;
use crate::walk::NearProducts;
use cpe_values::Value;

// Which products are wanted: all, or only those that the product `asked` covers.
#[derive(Clone, Copy)]
pub(crate) struct WantedProducts<'a> {
    pub all: &'a Products,
    pub asked: &'a Value,
    pub covered: bool,
}

impl WantedProducts<'_> {
    // Whether the product with this number is wanted.
    pub(crate) fn wants(&self, product: u32) -> bool
        ensures { result ≡ is_wanted_name self.now product }
    {
        !self.covered || self.all.is_covered(self.asked, product)
    }
}

// The products near a product, and which of them are wanted.
#[derive(Drop)]
pub(crate) struct ProductWalk<'a> {
    pub near: NearProducts<'a>,
    pub wanted: WantedProducts<'a>,
}
