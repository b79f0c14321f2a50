//! A dictionary of products (NIST IR 7697): entries by their names, and their deprecations.
//!
//! A [`KeptDictionary`] keeps the numbers of its entries' names in a shared table of names. Together with the table it
//! is a [`Dictionary`] ([`KeptDictionary::with`]), which answers all questions.
//! [`GrowingEntries`](growing::GrowingEntries) keeps the entries in the order in which they were added, and finds them
//! by the hashes of their names. Adding, finding or showing an entry costs the same for any number of
//! entries. Only a new product costs more, as it has to be put into the order of products.
//!
//! A change of a deprecation is planned first. Planning decides whether the change is allowed, or finds its fault. It
//! changes nothing. [`Dictionary::ends_after`] finds the ends that an entry would have after a planned change. Then all
//! memory for the change is taken. The change itself can't fail. The cost of a plan grows with the number of entries
//! that lead to the changed entry, or to which it leads. The cost of a chain grows with the number of its entries. A
//! search looks only at entries whose product is near the product of the given name. Each look counts as one step.
//!
//! Deprecations are also stored as a graph: node k of the graph is entry k. By the law [`chains_by_number`] and the laws
//! beside it, the entries and the graph have the same paths, and an edit of an entry's deprecation is a change of its
//! node. They also say which changes the graph can check.
#![tactic(auto)]

mod adding;
mod at_numbers;
mod by_number;
mod dictionary;
mod ends;
mod entries;
mod entry_ref;
mod given;
mod growing;
mod kept;
pub mod law;
mod note_room;
mod plans;
mod search;
mod sources;
mod store;
mod successors;

pub use by_number::{
    answers_by_number, chains_by_number, changes_by_number, edits_are_changes, edits_by_number,
    entries_are_numbered, faults_by_number,
};
pub use deprecation_graph::FillFault;
pub use dictionary::Dictionary;
pub use note_room::NoteRoom;
pub use plans::Plan;
pub use sources::Sources;
pub use store::KeptDictionary;
