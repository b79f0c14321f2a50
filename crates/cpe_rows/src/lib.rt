//! The rows of a dictionary and of an inventory, and their meaning.
//!
//! A dictionary (NIST IR 7697) has entries with provenance and deprecations. An inventory has items. Statements (NIST
//! IR 7698) are tests over these items. The definitions fix the rows after an edit, the answer to a question, and the
//! verdict of a statement. They use the types [`Edit`], [`Query`], [`Reply`] and [`EditFault`]. An engine in a crate
//! above keeps the rows.
//!
//! An edit changes the verdicts of few statements. The laws in [`touching`] say which: if an edit touches no fact and
//! no check of a test, the test keeps its truth.
#![tactic(auto)]

mod boxed;
mod counts;
mod date;
mod edit;
mod entry;
mod entry_ref;
mod facts;
mod fault;
mod formed;
pub mod law;
mod limits;
mod list;
mod names;
mod reply;
mod room;
mod statement;
mod test;
mod text;
pub mod touching;
mod truth;

pub use boxed::BoxedName;
pub use counts::Counts;
pub use cpe_name::{ATTRIBUTES, Attribute, NameRef, Wfn};
pub use cpe_values::{Edge, Memory, Pattern, Value, ValueRef};
pub use date::Date;
pub use edit::{Edit, Query, is_id};
pub use entry::{Deprecation, Entry, Kind, Note, NoteKind, Provenance, copy_of_deprecation};
pub use entry_ref::EntryRef;
pub use facts::{Facts, FindFacts, evaluate, find_truth};
pub use fault::{EditFault, Which};
pub use limits::{
    MOST_CHECKS, MOST_ENDS, MOST_ENTRIES, MOST_FACTS, MOST_ID_BYTES, MOST_ITEMS, MOST_LEVELS,
    MOST_STATEMENTS, MOST_SUCCESSORS, MOST_WEIGHT,
};
pub use list::List;
pub use names::{has_wildcards, is_identifier, is_lower, is_same};
pub use reply::{Changed, Reply, Row, State};
pub use room::Room;
pub use statement::{Mode, Statement};
pub use test::{CheckKey, Operator, Test};
pub use text::Text;
pub use truth::{Truth, and_of, not_of, or_of};
