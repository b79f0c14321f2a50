//! The parts of an inventory without its statements: its items, and the results of checks.
//!
//! Each list keeps its rows in the order in which they were added, and finds them by their hashes. Adding and finding a
//! row costs the same for any number of rows, and so, on average, does removing one. Results have rising tickets, so no
//! result is renumbered if another is removed. Items are numbers of a shared table of names. [`ItemSlots`] is a view of
//! both, the numbers and the table.
//!
//! A result is set in two stages: [`Checks::reserve`] takes all memory, and [`Checks::set`] cannot fail.
#![tactic(auto)]

mod checks;
mod faults;
mod kept;
pub mod law;
mod ready_result;
mod slots;

pub use checks::Checks;
pub use faults::check_fault;
pub use ready_result::ReadyResult;
pub use slots::ItemSlots;
