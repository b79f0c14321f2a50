// The parts of an entry other than its name.
ghost use Rattle.std.specs.Prelude.{◌≡◌, ◌≤◌, ◌+◌, ◌++◌, [], IfOk, length};
ghost use Rattle.std.specs.List.{cons_option};
ghost use Rattle.std.specs.Option.{option_map_or};
ghost use Rattle.cpe_rows.specs.Prelude.{row_of, state_of};
ghost use Rattle.cpe_dictionary.specs.Listed.{entry_with, rewritten_details};
ghost use Rattle.cpe_rows.specs.declared.entry.Deprecation.{Deprecation};

use crate::note_room::NoteRoom;
use cpe_rows::{
    Deprecation, Entry, List, Memory, Note, Provenance, Row, State, Text, Wfn, copy_of_deprecation,
};
use std::alloc::Global;
use std::mem::replace;

/// The details of an entry: its parts other than its name.
#[derive(Debug, Drop)]
pub struct EntryDetails {
    pub(crate) title: Text,
    pub(crate) provenance: Provenance,
    pub(crate) deprecation: Option<Deprecation>,
}

/// A copy of the entry that has this name and these details.
pub(crate) fn entry_of(alloc: Global, name: &Wfn, details: &EntryDetails) -> Result<Entry, Memory>
    ensures { IfOk result (λ e. e ≡ entry_with (name.now, details.now)) }
{
    Ok(Entry {
        name: name.copy(alloc)?,
        title: details.title.copy(alloc)?,
        provenance: details.provenance.copy(alloc)?,
        deprecation: copy_of_deprecation(alloc, &details.deprecation)?,
    })
}

/// The state of an entry: active, or deprecated by a kind.
pub(crate) fn state_of(details: &EntryDetails) -> State
    ensures { result ≡ option_map_or (λ (d : Deprecation). State.Deprecated d.kind) details.now.deprecation State.Active }
{
    match &details.deprecation {
        Some(deprecation) => State::Deprecated(deprecation.kind),
        None => State::Active,
    }
}

/// The summary of the entry that has this name and these details.
pub(crate) fn row_of(alloc: Global, name: &Wfn, details: &EntryDetails) -> Result<Row, Memory>
    ensures { IfOk result (λ r. r ≡ row_of (entry_with (name.now, details.now))) }
{
    Ok(Row {
        name: name.copy(alloc)?,
        state: state_of(details),
    })
}

// Adds a note at the end, if one is given.
fn push_note(notes: &mut List<Note>, note: Option<Note>, room: NoteRoom)
    requires { length notes.old + 1 ≤ room }
    ensures { notes.new ≡ notes.old ++ cons_option note [] }
{
    match note {
        Some(note) => {
            let old = replace(notes, List::new(room.memory()));
            let all = room.push(old.into_vec(), note);
            drop(replace(notes, List::from_vec(all)));
        }
        None => drop(room),
    }
}

/// Gives an entry this deprecation, or makes it active if there is none. A note, if given, is added at the end of the
/// entry's notes. Allocates: no.
pub(crate) fn rewrite(
    details: &mut EntryDetails,
    deprecation: Option<Deprecation>,
    note: Option<Note>,
    room: NoteRoom,
)
    requires { length details.old.provenance.notes + 1 ≤ room }
    ensures { details.new ≡ rewritten_details deprecation note details.old }
{
    push_note(&mut details.provenance.notes, note, room);
    details.deprecation = deprecation;
}
