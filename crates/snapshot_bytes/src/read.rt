// Reads rows from bytes.
ghost use Rattle.std.specs.Prelude.{◌≡◌, slice_get};
ghost use Rattle.snapshot_bytes.specs.Reading.{Took, Found, read_as, deprecation_kinds, note_kinds, modes, truths, byte_at, number_at, name_at, date_at, note_at, deprecation_at, provenance_at, details_at, entry_at, key_at, statement_at, result_at, successors_at};

use crate::cursor::Cursor;
use crate::fault::LoadFault;
use crate::parts::{Part, list, name, text};
use crate::rows::{KeptResult, PlacedDeprecation, PlacedEntry};
use cpe_rows::{CheckKey, Date, Kind, Note, NoteKind, Provenance, Text, Truth, Wfn};
use std::alloc::Global;

// ---- one byte for each kind

// The element of `all` at the place that the next byte gives.
pub(crate) fn one_of<T: Copy>(cursor: &mut Cursor<'_>, all: &[T]) -> Result<T, LoadFault>
    ensures { Found result cursor.new (read_as (slice_get all.now) byte_at cursor.old) }
{
    let place = cursor.byte()?;
    match all.get(usize::from(place)) {
        Some(kind) => Ok(*kind),
        None => Err(LoadFault::NotSnapshot),
    }
}

fn kind(cursor: &mut Cursor<'_>) -> Result<Option<Kind>, LoadFault>
    ensures { Found result cursor.new (read_as (slice_get deprecation_kinds) byte_at cursor.old) }
{
    one_of(
        cursor,
        &[
            None,
            Some(Kind::NameCorrection),
            Some(Kind::NameRemoval),
            Some(Kind::AdditionalInformation),
        ],
    )
}

fn note_kind(cursor: &mut Cursor<'_>) -> Result<NoteKind, LoadFault>
    ensures { Found result cursor.new (read_as (slice_get note_kinds) byte_at cursor.old) }
{
    one_of(
        cursor,
        &[
            NoteKind::OriginalRecord,
            NoteKind::AuthorityChange,
            NoteKind::Deprecation,
            NoteKind::DeprecationModification,
        ],
    )
}

fn truth(cursor: &mut Cursor<'_>) -> Result<Truth, LoadFault>
    ensures { Found result cursor.new (read_as (slice_get truths) byte_at cursor.old) }
{
    one_of(
        cursor,
        &[Truth::True, Truth::False, Truth::Error, Truth::Unknown],
    )
}

// ---- entries

#[tactic(auto, unfolding(crate::specs::Reading::date_at))]
fn date(cursor: &mut Cursor<'_>) -> Result<Date, LoadFault>
    ensures { Found result cursor.new (date_at cursor.old) }
{
    let bytes = cursor.bytes(10)?;
    match Date::new(bytes) {
        Some(date) => Ok(date),
        None => Err(LoadFault::NotSnapshot),
    }
}

impl Part for Note {
    ghost use Rattle.snapshot_bytes.specs.Reading.{note_at};

    ghost read = { note_at };

    #[tactic(auto, unfolding(crate::specs::Reading::note_at))]
    fn take(alloc: Global, cursor: &mut Cursor<'_>) -> Result<Note, LoadFault> {
        let kind = note_kind(cursor)?;
        let date = date(cursor)?;
        let comment = text(alloc, cursor)?;
        Ok(Note {
            kind,
            date,
            comment,
        })
    }
}

impl Part for u32 {
    ghost use Rattle.snapshot_bytes.specs.Reading.{number_at};

    ghost read = { number_at };

    fn take(_alloc: Global, cursor: &mut Cursor<'_>) -> Result<u32, LoadFault> {
        cursor.number()
    }
}

impl Part for Wfn {
    ghost use Rattle.snapshot_bytes.specs.Reading.{name_at};

    ghost read = { name_at };

    fn take(alloc: Global, cursor: &mut Cursor<'_>) -> Result<Wfn, LoadFault> {
        name(alloc, cursor)
    }
}

#[tactic(auto, unfolding(crate::specs::Reading::deprecation_at))]
fn deprecation(
    alloc: Global,
    cursor: &mut Cursor<'_>,
) -> Result<Option<PlacedDeprecation>, LoadFault>
    ensures { Took result cursor.new (deprecation_at cursor.old) }
{
    match kind(cursor)? {
        Some(kind) => Ok(Some(PlacedDeprecation {
            kind,
            successors: list::<u32>(alloc, cursor)?,
        })),
        None => Ok(None),
    }
}

#[tactic(auto, unfolding(crate::specs::Reading::provenance_at))]
fn provenance(alloc: Global, cursor: &mut Cursor<'_>) -> Result<Provenance, LoadFault>
    ensures { Took result cursor.new (provenance_at cursor.old) }
{
    let submitter = text(alloc, cursor)?;
    let authority = text(alloc, cursor)?;
    let notes = list::<Note>(alloc, cursor)?;
    Ok(Provenance {
        submitter,
        authority,
        notes,
    })
}

// The parts of an entry after its name.
#[derive(Drop)]
pub(crate) struct StoredDetails {
    title: Text,
    provenance: Provenance,
    deprecation: Option<PlacedDeprecation>,
}

#[tactic(auto, unfolding(crate::specs::Reading::details_at))]
fn after_name(alloc: Global, cursor: &mut Cursor<'_>) -> Result<StoredDetails, LoadFault>
    ensures { Took result cursor.new (details_at cursor.old) }
{
    let title = text(alloc, cursor)?;
    let provenance = provenance(alloc, cursor)?;
    let deprecation = deprecation(alloc, cursor)?;
    Ok(StoredDetails {
        title,
        provenance,
        deprecation,
    })
}

impl Part for PlacedEntry {
    ghost use Rattle.snapshot_bytes.specs.Reading.{entry_at};

    ghost read = { entry_at };

    #[tactic(auto, unfolding(crate::specs::Reading::entry_at))]
    fn take(alloc: Global, cursor: &mut Cursor<'_>) -> Result<PlacedEntry, LoadFault> {
        let name = name(alloc, cursor)?;
        match after_name(alloc, cursor) {
            Ok(details) => Ok(PlacedEntry {
                name,
                title: details.title,
                provenance: details.provenance,
                deprecation: details.deprecation,
            }),
            Err(fault) => {
                drop(name);
                Err(fault)
            }
        }
    }
}

// ---- results

#[tactic(auto, unfolding(crate::specs::Reading::key_at))]
pub(crate) fn key(alloc: Global, cursor: &mut Cursor<'_>) -> Result<CheckKey, LoadFault>
    ensures { Took result cursor.new (key_at cursor.old) }
{
    let system = text(alloc, cursor)?;
    let href = text(alloc, cursor)?;
    let id = text(alloc, cursor)?;
    Ok(CheckKey { system, href, id })
}

impl Part for KeptResult {
    ghost use Rattle.snapshot_bytes.specs.Reading.{result_at};

    ghost read = { result_at };

    #[tactic(auto, unfolding(crate::specs::Reading::result_at))]
    fn take(alloc: Global, cursor: &mut Cursor<'_>) -> Result<KeptResult, LoadFault> {
        let key = key(alloc, cursor)?;
        let result = truth(cursor)?;
        Ok(KeptResult { key, result })
    }
}
