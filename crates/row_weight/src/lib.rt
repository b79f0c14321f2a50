//! The weight of rows, which bounds their memory.
//!
//! A row weighs 32 plus the bytes of its texts. Some parts of a row weigh the same way: the notes and successors of an
//! entry, and the tests of a statement. The text of a name is its formatted string. The functions add the weight of a
//! row or part to a number. The laws say how an edit changes the weight of all rows. So the total weight can be updated
//! with each edit.
#![tactic(auto)]

pub mod law;
#[cfg(test)]
mod tests;
mod weigh;

pub use weigh::{
    with_active_entry, with_deprecation, with_key, with_name, with_note, with_statement,
};
