//! Tests of the crates below `cpe_engine` through their public calls, of properties that neither a contract nor a run
//! of the program shows:
//!
//! - `names`: calls that the program doesn't make succeed if memory is ample; and which names can be lent;
//! - `index`: the number of a released name is used again; and how many looks a search of five names takes;
//! - `boards`: a fact no longer has its old ends; and how many looks a change of boards takes;
//! - `records`: copies of whole rows, an entry that is written alone, and tests that are evaluated over facts of
//!   another type;
//! - `versions`: the order of versions, on chains of each kind;
//! - `sessions`: a line is found before more is read; standard input and output are really read and written; steps take
//!   no bytes;
//! - `snapshots`: all rows of a snapshot are read at once.
//!
//! Some functions of `index` and `boards` are proved and not run: they show what a caller knows by the contracts.
//! Examples in `tests/vectors`, which are run on the built program, show what definitions mean. They include the
//! examples of NIST IR 7695 and the table of NIST IR 7696.
//!
//! The tests are not in the tested crates, because a crate with tests is proved twice. They are in one crate, because
//! each crate of tests reads all that is proved below it. The tested calls are made in functions without clauses,
//! because a test that knows many clauses takes long to prove.
#![tactic(auto)]

#[cfg(test)]
mod boards;
#[cfg(test)]
mod index;
#[cfg(test)]
mod names;
#[cfg(test)]
mod records;
#[cfg(test)]
mod sessions;
#[cfg(test)]
mod snapshots;
#[cfg(test)]
mod versions;
