//! What is proved of two runs of the program together, over all inputs. `load` accepts the rows that `save` wrote. The
//! certificates of `explain` hold. A certificate that holds has the verdict. Converted lines leave the same rows.
//!
//! The contract of `cpe_command::run` says what one run writes. The theorems about two runs are in `specs/Theorems`:
//! read that file first. Each theorem is a law: a function that does nothing, and whose clause is the theorem.
#![tactic(auto)]

pub mod law;
