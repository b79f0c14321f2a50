// Copies of names, and the test whether a name has a special.
ghost use Rattle.std.specs.Prelude.{◌≡◌, IfOk};
ghost use Rattle.cpe_name.specs.Wildcards.{name_has_specials};

use crate::name::any_of_each;
use crate::{ATTRIBUTES, Values, Wfn};
use cpe_values::Memory;
use std::alloc::Global;

fn copy_values(alloc: Global, values: &Values) -> Result<Values, Memory>
    ensures { IfOk result (λ copied. copied ≡ values.now) }
{
    let mut copied = any_of_each();
    copied.part = values.part.copy(alloc)?;
    copied.vendor = values.vendor.copy(alloc)?;
    copied.product = values.product.copy(alloc)?;
    copied.version = values.version.copy(alloc)?;
    copied.update = values.update.copy(alloc)?;
    copied.edition = values.edition.copy(alloc)?;
    copied.language = values.language.copy(alloc)?;
    copied.sw_edition = values.sw_edition.copy(alloc)?;
    copied.target_sw = values.target_sw.copy(alloc)?;
    copied.target_hw = values.target_hw.copy(alloc)?;
    copied.other = values.other.copy(alloc)?;
    Ok(copied)
}

impl Wfn {
    /// Whether a value of the name has a special, `*` or `?`, before or after its body.
    pub fn has_wildcards(&self) -> bool
        ensures { result ≡ name_has_specials self.now }
    {
        ATTRIBUTES
            .iter()
            .any(|which| self.get(*which).has_wildcards())
    }

    /// A copy of the name.
    ///
    /// # Errors
    /// `Memory` if memory runs out; there is no other error.
    pub fn copy(&self, alloc: Global) -> Result<Wfn, Memory>
        ensures { IfOk result (λ w. w ≡ self.now) }
    {
        let values = copy_values(alloc, &self.values)?;
        Ok(Wfn { values })
    }
}
