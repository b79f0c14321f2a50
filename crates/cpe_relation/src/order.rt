// Comparisons of one source with many targets, in an order of attributes that decides early.
ghost use Rattle.std.specs.Prelude.{◌≡◌, ◌&&◌, Bool, IfOk, OnOk};
ghost use Rattle.cpe_name.specs.declared.attribute.Attribute.{Attribute};
ghost use Rattle.std.specs.List.{list_all};
ghost use Rattle.cpe_relation.specs.NameRelation.{covers};
ghost use Rattle.cpe_relation.specs.Attributes.{above_at};
ghost use Rattle.cpe_relation.specs.Order.{IsOrder};

use crate::names::is_above_at;
use cpe_name::{ATTRIBUTES, Attribute, Wfn};
use cpe_values::{Memory, Value};
use std::alloc::Global;

/// The attributes in the order in which they decide earliest whether the source covers a target. Attributes with the
/// value ANY are last. Among the others the part is last, because most names share it.
///
/// # Errors
/// Only if memory runs out.
pub fn deciding_order(alloc: Global, source: &Wfn) -> Result<Vec<Attribute>, Memory>
    ensures { IfOk result (λ order. IsOrder order.items) }
{
    let mut order = Vec::with_capacity(alloc, ATTRIBUTES.len())?;
    for which in ATTRIBUTES.iter() {
        put(&mut order, *which, source.get(*which))?;
    }
    Ok(order)
}

// Adds an attribute to the order: at the end if its value is ANY, and otherwise at the beginning.
fn put(order: &mut Vec<Attribute>, which: Attribute, value: &Value) -> Result<(), Memory>
    ensures { OnOk result ((test : Attribute → Bool) → list_all test order.new.items ≡ (list_all test order.old.items && test which)) }
{
    match value {
        Value::Any => order.push(which)?,
        _ => order.insert(0, which)?,
    }
    Ok(())
}

/// Whether the source covers the target, as [`covers`](crate::covers) returns it. The attributes are compared in this
/// order, until one is neither SUPERSET nor EQUAL. Allocates: no.
#[tactic(auto, unfolding(crate::specs::Attributes::above_at, crate::specs::NameRelation::covers))]
pub fn covers_in_order(order: &[Attribute], source: &Wfn, target: &Wfn) -> bool
    requires { IsOrder order.now }
    ensures { result ≡ covers source.now target.now }
{
    is_above_each_in(order, source, target)
}

// Not inlined, because the attribute is not known at compile time.
#[inline(never)]
fn is_above_at_next(source: &Wfn, target: &Wfn, which: Attribute) -> bool
    ensures { result ≡ above_at source.now target.now which }
{
    is_above_at(source, target, which)
}

fn is_above_each_in(order: &[Attribute], source: &Wfn, target: &Wfn) -> bool
    ensures { result ≡ list_all (above_at source.now target.now) order.now }
{
    order
        .iter()
        .all(|which| is_above_at_next(source, target, *which))
}
