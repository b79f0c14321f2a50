// The provenance of an entry.
ghost use Rattle.std.specs.Prelude.{◌≡◌, option_map, map};
ghost use Rattle.serde_json.specs.View.{view};
ghost use Rattle.cpe_records.specs.Gives.{ReadsMember, all_from};
ghost use Rattle.cpe_records.specs.Provenance.{note_kind_in, note_in, provenance_in, provenance_or_empty};

use crate::form::{date_at, list_or_empty, text_in, text_or_empty};
use crate::words::note_kind_of;
use crate::{Member, RecordFault};
use cpe_rows::{List, Note, NoteKind, Provenance, Text};
use serde_json::Value;
use std::alloc::Global;

fn note_kind_in(json: &Value) -> Result<NoteKind, RecordFault>
    ensures { ReadsMember result (note_kind_in (view json.now)) }
{
    match text_in(json, "kind") {
        Some(text) => note_kind_of(text).ok_or(RecordFault::Member(Member::Provenance)),
        None => Err(RecordFault::Member(Member::Provenance)),
    }
}

#[tactic(auto, unfolding(crate::specs::Provenance::note_in))]
fn note_in(alloc: Global, json: &Value) -> Result<Note, RecordFault>
    ensures { ReadsMember result (note_in (view json.now)) }
{
    let kind = note_kind_in(json)?;
    let date = date_at(json, Member::Provenance)?;
    let comment = text_or_empty(alloc, json, Member::Provenance, "comment")?;
    Ok(Note {
        kind,
        date,
        comment,
    })
}

fn notes_in(alloc: Global, json_list: &[Value]) -> Result<List<Note>, RecordFault>
    ensures { ReadsMember result (all_from (λ n. note_in) 1 (map view json_list.now)) }
{
    let mut notes = List::with_room(alloc, json_list.len())?;
    for json in json_list {
        match note_in(alloc, json) {
            Ok(note) => notes.push(note)?,
            Err(fault) => return Err(fault),
        }
    }
    Ok(notes)
}

#[tactic(auto, unfolding(crate::specs::Provenance::provenance_in))]
fn provenance_in(alloc: Global, json: &Value) -> Result<Provenance, RecordFault>
    ensures { ReadsMember result (provenance_in (view json.now)) }
{
    if !json.is_object() {
        return Err(RecordFault::Member(Member::Provenance));
    }
    let submitter = text_or_empty(alloc, json, Member::Provenance, "submitter")?;
    let authority = text_or_empty(alloc, json, Member::Provenance, "authority")?;
    let changes = list_or_empty(json, Member::Provenance, "changes")?;
    let notes = notes_in(alloc, changes)?;
    Ok(Provenance {
        submitter,
        authority,
        notes,
    })
}

/// The provenance that a value is; empty if there is no value. The value is an object of the texts `submitter` and
/// `authority` and the array `changes` of notes. Each of the three may be absent, and is then empty. A note has a
/// `kind`, a `date`, and perhaps a `comment`.
///
/// # Errors
/// The fault of the member `provenance`, exactly if the value has another form. Otherwise that memory ran out.
pub(crate) fn provenance_or_empty(
    alloc: Global,
    json: Option<&Value>,
) -> Result<Provenance, RecordFault>
    ensures { ReadsMember result (provenance_or_empty (option_map (λ v. view v.now) json.entry)) }
{
    match json {
        Some(value) => provenance_in(alloc, value),
        None => Ok(Provenance {
            submitter: Text::new(alloc, "")?,
            authority: Text::new(alloc, "")?,
            notes: List::new(alloc),
        }),
    }
}
