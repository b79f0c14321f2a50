//! Records that are made by number, the same on any machine: a dictionary, an inventory, statements over both, and
//! questions. [`drill`] reads these records one after the other, and counts the results.
#![tactic(auto)]

mod drilled;
mod line;
mod record;
mod run;
mod summary;
mod tables;
mod tally;

pub use cpe_engine::Engine;
pub use drilled::Drilled;
pub use line::{MOST_LINES, generated};
pub use line_session::Steps;
pub use run::drill;
pub use summary::{NumberLine, push_number_lines};
pub use tables::GeneratedLines;
