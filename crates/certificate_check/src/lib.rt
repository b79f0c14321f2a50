//! Certificates: why a statement has its verdict (NIST IR 7698), in a form that is tested by the rows alone.
//!
//! A certificate follows the test of its statement, level by level. For a logical test that some children decide, it
//! has the certificates of these children. For a fact that is TRUE, it names an item that the fact covers, and the
//! deprecations that lead to the compared names. For a fact that is UNKNOWN, it names in the same way an item that the
//! fact may cover. For a fact that is FALSE, and for a check, it has only the truth, and the rows show whether this is
//! right. [`check_certificate`] tests a certificate over any [`PlainRows`]. By [`law::good_certificates_are_right`], the
//! truth of a good certificate is the verdict.
//!
//! `certificate_search` finds certificates. Nobody who tests a certificate has to trust that crate.
#![tactic(auto)]

mod certificate;
mod check;
pub mod law;
mod listed;
mod name_set;
mod references;
mod relates;
mod rows;
mod trace;

pub use certificate::{Certificate, Checked, Why};
pub use check::{check_certificate, deciding, is_truth, join_all, negate_if};
pub use name_set::NameSet;
pub use relates::Relates;
pub use rows::PlainRows;
