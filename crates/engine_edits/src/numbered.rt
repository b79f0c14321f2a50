// Edits with numbers in place of names: the numbers of the names in the engine's table.
ghost use Rattle.std.specs.Prelude.{◌≡◌, option_copied};
ghost use Rattle.engine_edits.specs.Numbered.{coming, given, is_first, note_kind, note_of, numbers_held};

use cpe_rows::{CheckKey, Date, Deprecation, Note, NoteKind, Provenance, Statement, Text, Truth};
use name_index::NameId;

/// An edit with the numbers of the names of entries, items and facts. The table holds each new name for the edit.
#[derive(Drop)]
pub(crate) enum NumberedEdit {
    /// Adds an entry.
    Entry {
        id: NameId,
        title: Text,
        provenance: Provenance,
    },
    /// Adds an item.
    Item(NameId),
    /// Removes an item.
    DropItem(NameId),
    /// Changes the deprecation of an entry.
    Change(EntryChange),
    /// Adds a statement. These are the numbers of its facts, in the order of its test.
    PutStatement {
        statement: Statement,
        ids: Vec<NameId>,
    },
    /// Removes the statement of this id.
    DropStatement(Text),
    /// Sets the result of a check.
    SetCheck {
        key: CheckKey,
        result: Truth,
    },
    /// Removes the result of a check.
    DropCheck(CheckKey),
}

/// The numbers of the names that are held for an edit.
#[derive(Drop)]
pub(crate) enum Coming {
    /// No number.
    Nothing,
    /// The number of the name of an entry or an item.
    One(NameId),
    /// The numbers of the facts of a statement.
    Many(Vec<NameId>),
}

/// A change of the deprecation of an entry, with the date and the comment of its note.
#[derive(Drop)]
pub(crate) struct EntryChange {
    /// The number of the entry's name.
    pub id: NameId,
    /// How the deprecation changes.
    pub turn: Turn,
    /// The date of the note.
    pub date: Date,
    /// The comment of the note.
    pub comment: Text,
}

/// How a deprecation changes.
#[derive(Drop)]
pub(crate) enum Turn {
    /// An active entry gets this deprecation.
    Give(Deprecation),
    /// A deprecated entry gets this deprecation in place of its own.
    Replace(Deprecation),
    /// A deprecated entry loses its deprecation.
    TakeAway,
}

impl NumberedEdit {
    /// The numbers of the names that are held for the edit. The rest of the edit is dropped.
    pub(crate) fn into_coming(self) -> Coming
        ensures { numbers_held result ≡ coming self }
    {
        match self {
            NumberedEdit::Entry { id, .. } | NumberedEdit::Item(id) => Coming::One(id),
            NumberedEdit::PutStatement { ids, .. } => Coming::Many(ids),
            _ => Coming::Nothing,
        }
    }
}

impl Turn {
    /// The deprecation of the entry after the change, if it has one.
    pub(crate) fn deprecation(&self) -> Option<&Deprecation>
        ensures { option_copied result ≡ given self.now }
    {
        match self {
            Turn::Give(deprecation) | Turn::Replace(deprecation) => Some(deprecation),
            Turn::TakeAway => None,
        }
    }

    // The deprecation of the entry after the change, if it has one, and the kind of the note.
    fn into_parts(self) -> (Option<Deprecation>, NoteKind)
        ensures deprecation { result.0 ≡ given self }
        ensures kind { result.1 ≡ note_kind self }
    {
        match self {
            Turn::Give(deprecation) => (Some(deprecation), NoteKind::Deprecation),
            Turn::Replace(deprecation) => { (Some(deprecation), NoteKind::DeprecationModification) }
            Turn::TakeAway => (None, NoteKind::DeprecationModification),
        }
    }

    /// Whether the change needs an active entry.
    pub(crate) fn is_first(&self) -> bool
        ensures { result ≡ is_first self.now }
    {
        matches!(self, Turn::Give(_))
    }
}

impl EntryChange {
    /// The deprecation of the entry after the change, if it has one, and the note.
    pub(crate) fn into_parts(self) -> (Option<Deprecation>, Note)
        ensures deprecation { result.0 ≡ given self.turn }
        ensures note { result.1 ≡ note_of self.turn self.date self.comment }
    {
        let EntryChange {
            id: _,
            turn,
            date,
            comment,
        } = self;
        let (deprecation, kind) = turn.into_parts();
        let note = Note {
            kind,
            date,
            comment,
        };
        (deprecation, note)
    }
}
