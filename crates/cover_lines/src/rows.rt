// The names of a cover, each with its formatted string. They are sorted by these strings.
ghost use Rattle.std.specs.Prelude.{◌≡◌, ◌<◌, ◌++◌, ◌∷◌, [], not, cond, filter, IfOk, OnOk, length, map};
ghost use Rattle.std.specs.List.{AllByRecursion, IsDistinct};
ghost use Rattle.cpe_rows.specs.cpe_name.Prelude.{IsLower, same_name};
ghost use Rattle.names_in_order.specs.Places.{name_of_place};
ghost use Rattle.cover_lines.specs.Cover.{fs_order, ordered, uncovered};
ghost use Rattle.cover_lines.specs.Laws.{AreWellFormed};
ghost use Rattle.cover_lines.specs.Marks.{AreCoverMarks, is_name_marked, stays};
ghost use Rattle.cover_lines.specs.Shapes.{AreShapes};

use crate::shapes::is_under;
use cpe_fs::{bind_fs, one_text};
use cpe_rows::{List, Memory, Wfn, has_wildcards};
use names_in_order::NamesInOrder;
use std::alloc::Global;
use std::cmp::Ordering;
use std::marker::Model;

/// A name and its formatted string. Contracts see it as the name.
#[derive(Drop)]
pub(crate) struct SpelledName {
    text: Vec<u8>,
    name: Wfn,
}

impl Model for SpelledName {
    ghost use Rattle.std.specs.Prelude.{◌≡◌};
    ghost use Rattle.cpe_rows.specs.cpe_name.Eleven.{Values};
    ghost use Rattle.cpe_fs.specs.Grammar.{fs_text};

    ghost Value = { Values };

    ghost view = { λ s. s.name };

    ghost invariant = { λ s. s.text.items ≡ fs_text s.name };
}

impl SpelledName {
    fn new(alloc: Global, name: &Wfn) -> Result<SpelledName, Memory>
        ensures { IfOk result (λ spelled. spelled ≡ name.now) }
    {
        let text = bind_fs(alloc, name)?;
        let name = name.copy(alloc)?;
        Ok(SpelledName { text, name })
    }

    #[tactic(auto, unfolding(crate::specs::Cover::fs_order))]
    fn compare(&self, other: &SpelledName) -> Ordering
        ensures { result ≡ fs_order self.now other.now }
    {
        self.text.as_slice().cmp(other.text.as_slice())
    }

    fn into_name(self) -> Wfn
        ensures { result ≡ self }
    {
        let SpelledName { text, name } = self;
        drop(text);
        name
    }
}

fn is_marked(marks: &[bool], place: usize) -> bool
    requires { place < length marks.now }
    ensures { result ≡ is_name_marked marks.now place }
{
    marks[place]
}

// Whether the name at this place is in the cover: it isn't marked, and if it has no special, no name of a wider shape
// covers it.
fn stays(
    alloc: Global,
    names: &NamesInOrder<'_>,
    shapes: &[Wfn],
    marks: &[bool],
    place: usize,
    name: &Wfn,
) -> Result<bool, Memory>
    requires place { place < length marks.now }
    requires name { name.now ≡ name_of_place names.now place }
    ensures { IfOk result (λ stays_there. stays_there ≡ stays names.now shapes.now marks.now place) }
{
    if is_marked(marks, place) {
        return Ok(false);
    }
    if has_wildcards(name) {
        return Ok(true);
    }
    Ok(!is_under(alloc, names, name, shapes)?)
}

fn put_spelled(alloc: Global, rows: &mut Vec<SpelledName>, name: &Wfn) -> Result<(), Memory>
    ensures { OnOk result (rows.new.items ≡ rows.old.items ++ name.now ∷ []) }
{
    let spelled = SpelledName::new(alloc, name)?;
    rows.push(spelled)?;
    Ok(())
}

// Adds the name at a place at the end, if it is in the cover.
fn put_staying(
    alloc: Global,
    names: &NamesInOrder<'_>,
    shapes: &[Wfn],
    marks: &[bool],
    place: usize,
    rows: &mut Vec<SpelledName>,
) -> Result<(), Memory>
    requires place { place < length names.now }
    requires len { length marks.now ≡ length names.now }
    ensures { OnOk result (rows.new.items ≡ cond (stays names.now shapes.now marks.now place) (rows.old.items ++ name_of_place names.now place ∷ []) rows.old.items) }
{
    let Some(name) = names.name_at(place) else {
        unreachable!();
    };
    if stays(alloc, names, shapes, marks, place, name)? {
        put_spelled(alloc, rows, name)?;
    }
    Ok(())
}

/// The names that no other of them covers, in the order of the list.
///
/// # Errors
/// Only that memory ran out.
pub(crate) fn find_uncovered(
    alloc: Global,
    names: &NamesInOrder<'_>,
    shapes: &[Wfn],
    marks: &[bool],
) -> Result<Vec<SpelledName>, Memory>
    requires lower { AllByRecursion IsLower names.now }
    requires shapes { AreShapes names.now shapes.now }
    requires marks { AreCoverMarks names.now names.now marks.now }
    ensures { IfOk result (λ rows. rows.items ≡ uncovered names.now) }
{
    let mut rows = Vec::new(alloc);
    for place in 0..names.len() {
        put_staying(alloc, names, shapes, marks, place, &mut rows)?;
    }
    Ok(rows)
}

/// Sorts different names by the bytes of their formatted strings.
pub(crate) fn sort(rows: &mut Vec<SpelledName>)
    requires names { AreWellFormed rows.old.items }
    requires different { IsDistinct same_name rows.old.items }
    ensures { rows.new.items ≡ ordered rows.old.items }
{
    one_text();
    rows.sort_unstable_by(|a, b| a.compare(b));
}

/// The names, without their formatted strings.
///
/// # Errors
/// Only that memory ran out.
pub(crate) fn into_names(alloc: Global, rows: Vec<SpelledName>) -> Result<List<Wfn>, Memory>
    ensures { IfOk result (λ names. names ≡ rows.items) }
{
    let mut names = List::with_room(alloc, rows.len())?;
    for row in rows {
        names.push(row.into_name())?;
    }
    Ok(names)
}
