//! The lists of rows of an engine ([`EngineParts`]), and edits of them.
//!
//! The names of entries, items and facts are in one table, each once (`name_registry`). The verdict of each statement
//! is kept beside it (`verdicts`).
//!
//! An edit has two stages. The first ([`EngineParts::ready`]) leaves the rows unchanged. It holds the new names of the
//! edit, finds the first fault, and takes all memory that the edit needs. A refused edit releases its names. The second
//! ([`EngineParts::make`]) makes the edit and can't fail. Each name is found by its hash once.
//!
//! `applied` has the stages, and `edits` the numbers, faults and weights of all kinds of edits. `entries`, `items`,
//! `statements` and `checks` have what is special to the edits of one list.
#![tactic(auto)]

mod applied;
mod checked;
mod checks;
mod edits;
mod entries;
mod holds;
mod items;
mod numbered;
mod parts;
mod ready;
mod statements;

pub use check_results::ItemSlots;
pub use parts::EngineParts;
pub use ready::ReadyEdit;
