// The name without specials that covers another. It is found by its hash: at each attribute it has the same value, or
// ANY.
ghost use Rattle.std.specs.Prelude.{◌≡◌, ◌<◌, ◌||◌, ◌&&◌, not, false, true, IfOk, OnOk, length, if◌then◌else◌};
ghost use Rattle.std.specs.List.{list_all, list_any};
ghost use Rattle.cpe_rows.specs.Prelude.{has_wildcards, Values};
ghost use Rattle.names_in_order.specs.Places.{name_of_place};
ghost use Rattle.cover_lines.specs.Laws.{is_among};
ghost use Rattle.cover_lines.specs.Shapes.{any_at, AreShapes, finds_wider, is_as_wide, is_wider, same_shape, widened, widened_at};

use cpe_rows::{ATTRIBUTES, Attribute, Memory, Value, Wfn, has_wildcards};
use names_in_order::NamesInOrder;
use std::alloc::Global;

// ---- shapes

fn any_at(name: &Wfn, which: Attribute) -> bool
    ensures { result ≡ any_at name.now which }
{
    matches!(name.get(which), Value::Any)
}

fn agree(a: bool, b: bool) -> bool
    ensures { result ≡ if a then b else not b }
{
    if a { b } else { !b }
}

// Whether two names are ANY at the same attributes: whether they have the same shape.
fn same_shape(a: &Wfn, b: &Wfn) -> bool
    ensures { result ≡ same_shape a.now b.now }
{
    ATTRIBUTES
        .iter()
        .all(|which| agree(any_at(a, *which), any_at(b, *which)))
}

// Whether the first name is ANY at each attribute at which the second is.
fn is_as_wide(a: &Wfn, b: &Wfn) -> bool
    ensures { result ≡ is_as_wide a.now b.now }
{
    ATTRIBUTES
        .iter()
        .all(|which| any_at(a, *which) || !any_at(b, *which))
}

fn is_wider(a: &Wfn, b: &Wfn) -> bool
    ensures { result ≡ is_wider a.now b.now }
{
    is_as_wide(a, b) && !same_shape(a, b)
}

fn is_among_shapes(shapes: &[Wfn], name: &Wfn) -> bool
    ensures { result ≡ list_any (same_shape name.now) shapes.now }
{
    shapes.iter().any(|shape| same_shape(name, shape))
}

// Adds a copy of a name at the end, if the name has no special and its shape is new.
fn put_shape(alloc: Global, shapes: &mut Vec<Wfn>, name: &Wfn) -> Result<(), Memory>
    ensures new { OnOk result (has_wildcards name.now ≡ false → list_any (same_shape name.now) shapes.new.items ≡ true) }
    ensures kept { OnOk result ((m : Values) → list_any (same_shape m) shapes.old.items ≡ true → list_any (same_shape m) shapes.new.items ≡ true) }
{
    if has_wildcards(name) || is_among_shapes(shapes, name) {
        return Ok(());
    }
    let copied = name.copy(alloc)?;
    shapes.push(copied)?;
    Ok(())
}

// Adds a copy of the name at a place at the end, if the name has no special and its shape is new.
fn put_shape_at(
    alloc: Global,
    names: &NamesInOrder<'_>,
    place: usize,
    shapes: &mut Vec<Wfn>,
) -> Result<(), Memory>
    requires { place < length names.now }
    ensures new { OnOk result (has_wildcards (name_of_place names.now place) ≡ false → list_any (same_shape (name_of_place names.now place)) shapes.new.items ≡ true) }
    ensures kept { OnOk result ((m : Values) → list_any (same_shape m) shapes.old.items ≡ true → list_any (same_shape m) shapes.new.items ≡ true) }
{
    match names.name_at(place) {
        Some(name) => put_shape(alloc, shapes, name),
        None => unreachable!(),
    }
}

/// A name of each shape that names without specials have. Most lists have only a few shapes.
///
/// # Errors
/// Only that memory ran out.
pub(crate) fn find_shapes(alloc: Global, names: &NamesInOrder<'_>) -> Result<Vec<Wfn>, Memory>
    ensures { IfOk result (λ shapes. AreShapes names.now shapes.items) }
{
    let mut shapes = Vec::new(alloc);
    for place in 0..names.len() {
        put_shape_at(alloc, names, place, &mut shapes)?;
    }
    Ok(shapes)
}

// ---- names of wider shapes

// Sets an attribute of a name to ANY, if the shape is ANY there.
fn widen_at(shape: &Wfn, which: Attribute, name: &mut Wfn)
    ensures { name.new ≡ widened_at shape.now name.old which }
{
    if any_at(shape, which) {
        name.lawful();
        match name.set(which, Value::Any) {
            Ok(()) => {}
            Err(_) => unreachable!(),
        }
    }
}

// A copy of the name with ANY at each attribute at which the shape is.
#[tactic(auto, unfolding(crate::specs::Shapes::widened))]
fn widen(alloc: Global, shape: &Wfn, name: &Wfn) -> Result<Wfn, Memory>
    ensures { IfOk result (λ wide. wide ≡ widened shape.now name.now) }
{
    let mut wide = name.copy(alloc)?;
    for which in ATTRIBUTES.iter() {
        widen_at(shape, *which, &mut wide);
    }
    Ok(wide)
}

// Whether this name is one of the names. The name is dropped.
fn has(names: &NamesInOrder<'_>, name: Wfn) -> bool
    ensures { result ≡ is_among names.now name }
{
    let is_there = names.find(&name).is_some();
    drop(name);
    is_there
}

// Whether the shape is wider than the shape of the name, and the name widened by it is one of the names.
fn finds_wider(
    alloc: Global,
    names: &NamesInOrder<'_>,
    name: &Wfn,
    shape: &Wfn,
) -> Result<bool, Memory>
    ensures { IfOk result (λ found. found ≡ finds_wider names.now name.now shape.now) }
{
    if !is_wider(shape, name) {
        return Ok(false);
    }
    let wide = widen(alloc, shape, name)?;
    Ok(has(names, wide))
}

/// Whether one of these shapes is wider than the shape of the name, and the name widened by it is one of the names. It
/// looks at no name: names are found by hash.
///
/// # Errors
/// Only that memory ran out.
pub(crate) fn is_under(
    alloc: Global,
    names: &NamesInOrder<'_>,
    name: &Wfn,
    shapes: &[Wfn],
) -> Result<bool, Memory>
    ensures { IfOk result (λ found. found ≡ list_any (finds_wider names.now name.now) shapes.now) }
{
    for shape in shapes {
        if finds_wider(alloc, names, name, shape)? {
            return Ok(true);
        }
    }
    Ok(false)
}
