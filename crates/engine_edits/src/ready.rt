// Edits for which all memory is taken.
use crate::numbered::EntryChange;
use check_results::ReadyResult;
use cpe_dictionary::{NoteRoom, Plan};
use cpe_rows::{Changed, CheckKey, Provenance, Room, Text, Truth};
use name_index::NameId;
use verdicts::{Addition, Lead, Removal};

/// An edit without a fault, for which all memory is taken. [`EngineParts::make`](crate::EngineParts::make) makes it. It
/// isn't `Drop`, so that it can't be discarded by mistake.
pub struct ReadyEdit {
    // The edit, with what was found and taken for it.
    pub(crate) edit: Ready,
    // The weight of all rows after the edit.
    pub(crate) weight: u64,
    // Empty places for the verdicts that the edit changes.
    pub(crate) room: Room<Changed>,
}

/// What an edit adds, removes or changes, with what was found and taken for it. The table holds its new names.
pub(crate) enum Ready {
    /// Adds an entry.
    Entry {
        id: NameId,
        title: Text,
        provenance: Provenance,
    },
    /// Adds an item with these ends.
    Item {
        id: NameId,
        ends: Vec<NameId>,
    },
    /// Removes an item with these ends.
    DropItem {
        id: NameId,
        ends: Vec<NameId>,
    },
    /// Changes the deprecation of an entry.
    Change(ReadyChange),
    /// Adds a statement. These are the numbers of its facts.
    PutStatement {
        addition: Addition,
        ids: Vec<NameId>,
    },
    /// Removes the statement of this id.
    DropStatement {
        id: Text,
        removal: Removal,
    },
    /// Sets the result of a check.
    SetCheck {
        key: ReadyResult,
        truth: Truth,
    },
    /// Removes the result of a check.
    DropCheck(CheckKey),
}

/// A change of a deprecation: its plan, what it does to items and facts, and the memory for its note.
pub(crate) struct ReadyChange {
    pub change: EntryChange,
    pub plan: Plan,
    pub lead: Lead,
    pub note: NoteRoom,
}
