//! The snapshot of an engine, both ways: the rows of an engine as bytes, and an engine from these bytes.
//!
//! [`write_snapshot`] writes row by row, in time proportional to the length of the snapshot. [`read_snapshot`] reads
//! row by row too: it adds each row to the engine before it reads the next. So there is no second copy of the rows, and
//! the engine's rows are always lawful. Bytes that aren't the snapshot of lawful rows are refused.
#![tactic(auto)]

mod boxed;
mod edits;
pub mod law;
mod loops;
mod meant;
mod puts;
mod read;
mod runs;
mod texts;
mod write;

pub use cpe_engine::Engine;
pub use read::{MOST_BYTES, read_snapshot};
pub use write::write_snapshot;
