// Names in lower case, and the comparison of names except for the case of letters.
ghost use Rattle.std.specs.Prelude.{◌≡◌, ◌↔◌, IsTrue, IfOk};
ghost use Rattle.cpe_values.specs.Lower.{lower_value};
ghost use Rattle.cpe_values.specs.Same.{same_value};
ghost use Rattle.cpe_name.specs.Equal.{same_name};
ghost use Rattle.cpe_name.specs.Lower.{lower_name, IsLower};

use crate::{ATTRIBUTES, Values, Wfn};
use cpe_values::{Memory, Value};
use std::alloc::Global;

fn make_lower_values(values: &mut Values)
    ensures { values.new ≡ lower_name values.old }
{
    values.part.make_lower();
    values.vendor.make_lower();
    values.product.make_lower();
    values.version.make_lower();
    values.update.make_lower();
    values.edition.make_lower();
    values.language.make_lower();
    values.sw_edition.make_lower();
    values.target_sw.make_lower();
    values.target_hw.make_lower();
    values.other.make_lower();
}

impl Wfn {
    /// A copy of the name with every letter in lower case.
    ///
    /// # Errors
    /// `Memory` if memory runs out; there is no other error.
    pub fn lower(&self, alloc: Global) -> Result<Wfn, Memory>
        ensures { IfOk result (λ w. w ≡ lower_name self.now) }
    {
        Ok(self.copy(alloc)?.into_lower())
    }

    /// The name with every letter in lower case, in the same memory. Allocates: no.
    pub fn into_lower(self) -> Wfn
        ensures { result ≡ lower_name self }
    {
        let Wfn { mut values } = self;
        make_lower_values(&mut values);
        Wfn { values }
    }

    /// Whether two names are equal except for the case of letters, as names are compared (NIST IR 7695, 5.3).
    /// Allocates: no.
    pub fn same(&self, other: &Wfn) -> bool
        ensures { IsTrue result ↔ (lower_name self.now ≡ lower_name other.now) }
    {
        is_same(self, other)
    }

    /// Whether the name has no letter in upper case. Allocates: no.
    pub fn is_lower(&self) -> bool
        ensures { IsTrue result ↔ IsLower self.now }
    {
        is_lower(self)
    }
}

fn is_same_value(value: &Value, other: &Value) -> bool
    ensures { result ≡ same_value (lower_value value.now) (lower_value other.now) }
{
    value.same(other)
}

fn is_same(name: &Wfn, other: &Wfn) -> bool
    ensures { result ≡ same_name (lower_name name.now) (lower_name other.now) }
{
    ATTRIBUTES
        .iter()
        .all(|which| is_same_value(name.get(*which), other.get(*which)))
}

fn is_lower_value(value: &Value) -> bool
    ensures { result ≡ same_value (lower_value value.now) value.now }
{
    value.is_lower()
}

fn is_lower(name: &Wfn) -> bool
    ensures { result ≡ same_name (lower_name name.now) name.now }
{
    ATTRIBUTES
        .iter()
        .all(|which| is_lower_value(name.get(*which)))
}
