//! Certificates as lines of JSON (RFC 8259): reading and writing them.
//!
//! The line of a certificate is `{"do":"proof","id":ID,"why":W}`. It has no spaces, and the members of each object are
//! sorted by their keys. W follows the test of a statement (NIST IR 7698) from the top down. It is an object with the
//! members of one of three cases:
//!
//! | Members | Case | |---|---| | `of`, `truth` | A logical test. `of` is an array with a W, or `null`, for each child.
//! | | `fact`, `item`, `truth` | A fact that is TRUE or UNKNOWN because of an item. `fact` and `item` are arrays of
//! names: in mode plain the name alone, in mode follow the path from the name to the end that is compared. | | `truth`
//! | A fact that is FALSE, or a check. |
//!
//! `truth` is `TRUE`, `FALSE`, `ERROR` or `UNKNOWN`. Names are URIs or formatted strings. They are put in lower case,
//! and written as formatted strings. A W nests at most 32 logical tests.
#![tactic(auto)]

mod fault;
mod formed;
pub mod law;
mod put;
mod read;
mod why;
mod write;

pub use fault::CertificateFault;
pub use read::read_certificate;
pub use write::write_certificate;
