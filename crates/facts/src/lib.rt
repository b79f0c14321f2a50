//! The facts of both modes (NIST IR 7698): the names for which they ask, the statements that use them, and their
//! truths.
//!
//! [`Facts`] has a board and a table of facts for each mode. The board counts what each name covers. A call is an edit
//! of the rows, or takes memory for an edit. After each call every used fact has the truth that the rows give its name,
//! and [`Facts::changed`] lists the facts whose truth the last edit replaced.
//!
//! A call that changes a truth takes no memory and has no error.
#![tactic(auto)]

mod facts;
pub mod law;
mod lead;
mod refresh;
mod room;
mod users;

pub use facts::Facts;
pub use lead::Led;
