//! Snapshots: the rows of a dictionary and of an inventory, written as bytes and read again.
#![tactic(auto)]

mod cursor;
mod fault;
pub mod law;
mod load;
mod names;
mod parts;
mod read;
mod rows;
mod test;
mod write;

pub use cursor::Cursor;
pub use fault::LoadFault;
pub use load::{Head, read_head, read_rows};
pub use names::names_at;
pub use parts::Part;
pub use rows::{KeptResult, PlacedDeprecation, PlacedEntry, PlacedRows};
pub use write::{push_entry, push_head, push_name, push_result, push_statement};
