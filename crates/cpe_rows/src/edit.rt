// Edits of the rows, and queries about them.
ghost use Rattle.std.specs.Prelude.{◌≡◌};
ghost use Rattle.std.specs.List.{list_all};
ghost use Rattle.cpe_rows.specs.Names.{is_lower};
ghost use Rattle.cpe_rows.specs.Valid.{is_valid_edit, is_valid_query, is_id, is_visible, is_statement_test};

use crate::date::Date;
use crate::entry::{Deprecation, Entry};
use crate::limits::{MOST_ID_BYTES, MOST_LEVELS};
use crate::names::is_lower;
use crate::statement::Statement;
use crate::test::{CheckKey, Test};
use crate::text::Text;
use crate::truth::Truth;
use cpe_name::Wfn;

/// A change of the rows.
#[derive(Debug, Drop)]
pub enum Edit {
    /// Adds an entry without a deprecation.
    Entry(Entry),
    /// Adds an item.
    Item(Wfn),
    /// Removes an item.
    DropItem(Wfn),
    /// Gives an active entry a deprecation. Adds a note with this date and comment.
    Deprecate {
        name: Wfn,
        deprecation: Deprecation,
        date: Date,
        comment: Text,
    },
    /// Replaces the deprecation of an entry. Adds a note with this date and comment.
    Amend {
        name: Wfn,
        deprecation: Deprecation,
        date: Date,
        comment: Text,
    },
    /// Removes the deprecation of an entry. Adds a note with this date and comment.
    Restore {
        name: Wfn,
        date: Date,
        comment: Text,
    },
    /// Adds a statement.
    PutStatement(Statement),
    /// Removes the statement of this id.
    DropStatement(Text),
    /// Keeps the result of a check. Replaces the result that is kept for this key, if there is one.
    SetCheck {
        key: CheckKey,
        result: Truth,
    },
    /// Removes the result that is kept for this key.
    DropCheck(CheckKey),
}

/// A question about the rows.
#[derive(Debug, Drop)]
pub enum Query {
    /// The state of the entry of this name, if there is one.
    Lookup(Wfn),
    /// The entries that the name covers, or only the active entries among them.
    Search { name: Wfn, active_only: bool },
    /// The items that the name covers, and the items that it may cover.
    Items(Wfn),
    /// The chain of this name, and its ends.
    Chain(Wfn),
    /// The whole entry of this name.
    Show(Wfn),
    /// The verdict of the statement of this id.
    Verdict(Text),
}

fn are_visible(bytes: &[u8]) -> bool
    ensures { result ≡ list_all is_visible bytes.now }
{
    bytes.iter().all(|b| 0x21 <= *b && *b <= 0x7e)
}

/// Whether a text may be the id of a statement: 1 to 256 bytes, each a visible ASCII character.
pub fn is_id(text: &str) -> bool
    ensures { result ≡ is_id text.now }
{
    let bytes = text.as_bytes();
    0 < bytes.len() && bytes.len() <= MOST_ID_BYTES && are_visible(bytes)
}

fn is_statement_test(test: &Test) -> bool
    ensures { result ≡ is_statement_test test.now }
{
    match test {
        Test::Logic { .. } => test.is_within(MOST_LEVELS) && test.is_sound(),
        _ => false,
    }
}

fn are_lower(names: &[Wfn]) -> bool
    ensures { result ≡ list_all is_lower names.now }
{
    names.iter().all(|name| is_lower(name))
}

impl Edit {
    /// Whether the edit is valid. Its names are in lower case, and a new entry has no deprecation. An id has 1 to 256
    /// visible ASCII characters. The test of a statement is logical and has at most 32 levels; each logical test in it
    /// has a child. Valid edits leave lawful rows lawful ([`rows_stay_lawful`](crate::rows_stay_lawful)). Allocates:
    /// no.
    pub fn valid(&self) -> bool
        ensures { result ≡ is_valid_edit self.now }
    {
        match self {
            Edit::Entry(entry) => is_lower(&entry.name) && entry.deprecation.is_none(),
            Edit::Item(name) | Edit::DropItem(name) | Edit::Restore { name, .. } => is_lower(name),
            Edit::Deprecate {
                name,
                deprecation,
                ..
            }
            | Edit::Amend {
                name,
                deprecation,
                ..
            } => is_lower(name) && are_lower(deprecation.successors.as_slice()),
            Edit::PutStatement(statement) => {
                is_id(statement.id.as_str()) && is_statement_test(&statement.test)
            }
            Edit::DropStatement(id) => is_id(id.as_str()),
            Edit::SetCheck { .. } | Edit::DropCheck(_) => true,
        }
    }
}

impl Query {
    /// Whether the query is valid: its name is in lower case, or its id has 1 to 256 visible ASCII characters.
    /// Allocates: no.
    pub fn valid(&self) -> bool
        ensures { result ≡ is_valid_query self.now }
    {
        match self {
            Query::Lookup(name)
            | Query::Search { name, .. }
            | Query::Items(name)
            | Query::Chain(name)
            | Query::Show(name) => is_lower(name),
            Query::Verdict(id) => is_id(id.as_str()),
        }
    }
}
