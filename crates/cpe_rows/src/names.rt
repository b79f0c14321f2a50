// Tests of names.
ghost use Rattle.std.specs.Prelude.{◌≡◌};
ghost use Rattle.cpe_rows.specs.Names.{is_same, is_lower, is_text, is_identifier, has_wildcards};

use cpe_name::{Attribute, Wfn};
use cpe_values::Value;

/// Whether two names are equal. Rows have names in lower case only, so letter case makes no difference among them.
/// Allocates: no.
#[tactic(auto, unfolding(crate::specs::Names::is_same))]
pub fn is_same(name: &Wfn, other: &Wfn) -> bool
    ensures { result ≡ is_same name.now other.now }
{
    *name == *other
}

/// Whether a name has no upper-case letter. Allocates: no.
pub fn is_lower(name: &Wfn) -> bool
    ensures { result ≡ is_lower name.now }
{
    name.is_lower()
}

/// Whether some value of a name has a special. Allocates: no.
#[tactic(auto, unfolding(crate::specs::Names::has_wildcards))]
pub fn has_wildcards(name: &Wfn) -> bool
    ensures { result ≡ has_wildcards name.now }
{
    name.has_wildcards()
}

fn is_text(value: &Value) -> bool
    ensures { result ≡ is_text value.now }
{
    matches!(value, Value::Text(_))
}

/// Whether part, vendor and product are texts, as in the name of an entry. Allocates: no.
#[tactic(auto, unfolding(crate::specs::Names::is_identifier))]
pub fn is_identifier(name: &Wfn) -> bool
    ensures { result ≡ is_identifier name.now }
{
    is_text(name.get(Attribute::Part))
        && is_text(name.get(Attribute::Vendor))
        && is_text(name.get(Attribute::Product))
}
