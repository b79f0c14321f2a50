//! The truths of facts (NIST IR 7698), kept by two boards, one for each mode of a statement.
//!
//! [`KeptFacts`] has as probes the names to which the facts of the rows lead, and as targets the names to which the
//! items lead (`fact_laws`). In mode `plain` a name leads to itself, in mode `follow` to its ends. Each edit of the
//! rows changes both boards by the numbers of a few names. The numbers are those of one table, which holds the names of
//! entries, items and facts. A fact is TRUE if one of its probes covers a target. It is UNKNOWN if none does and one
//! may cover a target, since items may be known in part ([`KeptFacts::truth`]). So each board keeps the level of each
//! probe.
//!
//! A fact has its probes on the board once, however many statements refer to it. The first such statement adds them,
//! and the removal of the last such statement removes them.
//!
//! Only [`KeptFacts::reserve`] allocates memory, before an edit. The changes of the boards allocate none, and can't
//! fail. [`KeptFacts::unask`] undoes the addition of a statement.
#![tactic(auto)]

mod kept;
pub mod law;
mod lists;
mod once;

pub use kept::{KeptFacts, WantedRoom};
pub use level_board::{Level, LevelBoard, Met};
pub use once::keep_each_once;
