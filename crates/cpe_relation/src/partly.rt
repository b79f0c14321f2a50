// Whether a name may cover a target that is known only in part.
ghost use Rattle.std.specs.Prelude.{◌≡◌, ◌&&◌};
ghost use Rattle.std.specs.List.{list_all};
ghost use Rattle.cpe_name.specs.Names.{attributes};
ghost use Rattle.cpe_name.specs.Wildcards.{name_has_specials};
ghost use Rattle.cpe_relation.specs.Table.{relation};
ghost use Rattle.cpe_relation.specs.Attributes.{may_be_above_at};
ghost use Rattle.cpe_relation.specs.Maybe.{may_be_above, maybe};

use crate::above::is_above;
use cpe_name::{ATTRIBUTES, Attribute, Wfn};
use cpe_values::Value;

// Whether the relation is SUPERSET, EQUAL or UNDEFINED. It is UNDEFINED if the target has a special.
fn may_be_above(source: &Value, target: &Value) -> bool
    ensures { result ≡ may_be_above (relation source.now target.now) }
{
    target.has_wildcards() || is_above(source, target)
}

#[tactic(auto, unfolding(crate::specs::Attributes::may_be_above_at))]
fn may_be_above_at(source: &Wfn, target: &Wfn, which: Attribute) -> bool
    ensures { result ≡ may_be_above_at source.now target.now which }
{
    may_be_above(source.get(which), target.get(which))
}

fn may_be_above_each(source: &Wfn, target: &Wfn) -> bool
    ensures { result ≡ list_all (may_be_above_at source.now target.now) attributes }
{
    ATTRIBUTES
        .iter()
        .all(|which| may_be_above_at(source, target, *which))
}

// A target without specials needs no comparison of attributes: no name may cover it.
fn may_cover(source: &Wfn, target: &Wfn) -> bool
    ensures { result ≡ (name_has_specials target.now && list_all (may_be_above_at source.now target.now) attributes) }
{
    target.has_wildcards() && may_be_above_each(source, target)
}

/// Whether the source may cover the target: each attribute is SUPERSET, EQUAL or UNDEFINED, and at least one is
/// UNDEFINED (NIST IR 7696, 6). An attribute is UNDEFINED exactly if the target has a special. So a source never both
/// may cover a target and [`covers`](crate::covers) it ([`maybe_laws`](crate::law::maybe_laws)). Allocates: no.
pub fn maybe(source: &Wfn, target: &Wfn) -> bool
    ensures { result ≡ maybe source.now target.now }
{
    may_cover(source, target)
}
