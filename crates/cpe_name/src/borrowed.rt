// Borrowed names: they are to names as `&str` is to `String`.
ghost use Rattle.std.specs.Prelude.{◌≡◌};
ghost use Rattle.cpe_name.specs.Borrowed.{name_lent};

use crate::{Eleven, Wfn};
use cpe_values::ValueRef;

/// A name borrowed from a [`Wfn`] or from the text of a line. Allocates: no.
///
/// Any values are allowed, even values that make no name.
pub type NameRef<'a> = Eleven<ValueRef<'a>>;

impl Wfn {
    /// The same name, borrowed.
    pub fn as_ref(&self) -> NameRef<'_>
        ensures { name_lent result ≡ self.now }
    {
        NameRef {
            part: self.values.part.as_ref(),
            vendor: self.values.vendor.as_ref(),
            product: self.values.product.as_ref(),
            version: self.values.version.as_ref(),
            update: self.values.update.as_ref(),
            edition: self.values.edition.as_ref(),
            language: self.values.language.as_ref(),
            sw_edition: self.values.sw_edition.as_ref(),
            target_sw: self.values.target_sw.as_ref(),
            target_hw: self.values.target_hw.as_ref(),
            other: self.values.other.as_ref(),
        }
    }
}
