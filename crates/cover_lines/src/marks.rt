// Marks of the names that a name with a special covers.
ghost use Rattle.std.specs.Prelude.{◌≡◌, ◌<◌, ◌||◌, ℕ, nat_eq, IfOk, OnOk, length, if◌then◌else◌};
ghost use Rattle.std.specs.List.{AllByRecursion, list_any};
ghost use Rattle.cpe_rows.specs.Prelude.{has_wildcards, IsLower};
ghost use Rattle.name_index.specs.step_count.Within.{StepsWithin};
ghost use Rattle.names_in_order.specs.Places.{name_of_place};
ghost use Rattle.cover_lines.specs.Marks.{AreCoverMarks, is_name_marked, matches_name};
ghost use Rattle.cover_lines.specs.Names.{looks_of_patterns, pattern_looks};

use cpe_rows::{Memory, Wfn, has_wildcards};
use name_index::Steps;
use names_in_order::NamesInOrder;
use std::alloc::Global;
use std::sync::ledger::Ledger;

// Marks a place, if there is a mark for it.
fn mark_place(marks: &mut [bool], place: usize)
    ensures len { length marks.new ≡ length marks.old }
    ensures marked { (k : ℕ) → k < length marks.old → is_name_marked marks.new k ≡ (is_name_marked marks.old k || nat_eq k place) }
{
    if place < marks.len() {
        marks[place] = true;
    }
}

// Marks these places.
fn mark_places(marks: &mut [bool], places: &[usize])
    ensures len { length marks.new ≡ length marks.old }
    ensures marked { (k : ℕ) → k < length marks.old → is_name_marked marks.new k ≡ (is_name_marked marks.old k || list_any (nat_eq k) places.now) }
{
    for place in places {
        mark_place(marks, *place);
    }
}

// Marks the names that a name covers, if this name has a special.
fn mark_matched<L: Ledger>(
    alloc: Global,
    names: &NamesInOrder<'_>,
    name: &Wfn,
    marks: &mut [bool],
    steps: &mut Steps<L>,
) -> Result<(), Memory>
    requires lower { IsLower name.now }
    requires len { length marks.old ≡ length names.now }
    ensures len { length marks.new ≡ length marks.old }
    ensures marked { OnOk result ((k : ℕ) → k < length names.now → is_name_marked marks.new k ≡ (is_name_marked marks.old k || matches_name name.now (name_of_place names.now k))) }
    ensures steps { StepsWithin steps.old steps.new (pattern_looks names.now name.now) }
{
    if !has_wildcards(name) {
        return Ok(());
    }
    let places = names.covered_places(alloc, name, steps)?;
    mark_places(marks, &places);
    Ok(())
}

// Marks the names that the name at a place covers, if this name has a special.
fn mark_by_place<L: Ledger>(
    alloc: Global,
    names: &NamesInOrder<'_>,
    place: usize,
    marks: &mut [bool],
    steps: &mut Steps<L>,
) -> Result<(), Memory>
    requires lower { AllByRecursion IsLower names.now }
    requires place { place < length names.now }
    requires len { length marks.old ≡ length names.now }
    ensures len { length marks.new ≡ length marks.old }
    ensures marked { OnOk result ((k : ℕ) → k < length names.now → is_name_marked marks.new k ≡ (is_name_marked marks.old k || matches_name (name_of_place names.now place) (name_of_place names.now k))) }
    ensures steps { StepsWithin steps.old steps.new (pattern_looks names.now (name_of_place names.now place)) }
{
    match names.name_at(place) {
        Some(name) => mark_matched(alloc, names, name, marks, steps),
        None => unreachable!(),
    }
}

/// A mark for each name, by place: whether some name with a special covers it. A step is a look at a name. Only a name
/// with a special takes steps.
///
/// # Errors
/// Only that memory ran out. The bound on steps then holds too.
pub(crate) fn find_matched<L: Ledger>(
    alloc: Global,
    names: &NamesInOrder<'_>,
    steps: &mut Steps<L>,
) -> Result<Vec<bool>, Memory>
    requires lower { AllByRecursion IsLower names.now }
    ensures marks { IfOk result (λ marks. AreCoverMarks names.now names.now marks.items) }
    ensures steps { StepsWithin steps.old steps.new (looks_of_patterns names.now) }
{
    let mut marks = vec![in alloc; false; names.len()]?;
    for place in 0..names.len() {
        mark_by_place(alloc, names, place, &mut marks, steps)?;
    }
    Ok(marks)
}
