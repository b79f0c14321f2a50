// The answers to queries, and the changed verdicts of edits.
use crate::entry::{Entry, Kind};
use crate::list::List;
use crate::text::Text;
use crate::truth::Truth;
use cpe_name::Wfn;

/// Whether an entry is active.
#[derive(Debug, Clone, Copy, PartialEq, Eq)]
pub enum State {
    /// The entry has no deprecation.
    Active,
    /// The entry has a deprecation of this kind.
    Deprecated(Kind),
}

/// The summary of an entry: its name, and whether it is active.
#[derive(Debug, Drop)]
pub struct Row {
    /// The name of the entry.
    pub name: Wfn,
    /// Whether the entry is active.
    pub state: State,
}

/// The answer to a query, with the name or id of the query. The rows have the order of the dictionary or of the
/// inventory.
#[derive(Debug, Drop)]
pub enum Reply {
    /// The state of the entry, or `None` if no entry has this name.
    Lookup {
        name: Wfn,
        state: Option<State>,
    },
    /// The entries that the name covers.
    Search {
        name: Wfn,
        rows: List<Row>,
    },
    /// The items that the name covers, and the items that it may cover. The latter are known only in part.
    Items {
        name: Wfn,
        rows: List<Wfn>,
        maybe: List<Wfn>,
    },
    /// The entries of the name's chain, and the name's ends. If no entry has this name, the chain is empty, and the
    /// name is its own end.
    Chain {
        name: Wfn,
        links: List<Row>,
        ends: List<Wfn>,
    },
    /// The entry, or `None` if no entry has this name.
    Show {
        name: Wfn,
        entry: Option<Entry>,
    },
    /// The verdict of the statement, or `None` if no statement has this id.
    Verdict {
        id: Text,
        truth: Option<Truth>,
    },
}

/// A statement whose verdict an edit changed. Places count from 0.
#[derive(Debug, Clone, Copy, PartialEq, Eq)]
pub struct Changed {
    /// The statement's place after the edit. For a removed statement, its place before the edit.
    pub place: u32,
    /// The verdict before the edit, or `None` if the edit added the statement.
    pub before: Option<Truth>,
    /// The verdict after the edit, or `None` if the edit removed the statement.
    pub after: Option<Truth>,
}
