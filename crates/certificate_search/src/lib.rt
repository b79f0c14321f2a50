//! Finds certificates. For each statement it makes one that shows the verdict (NIST IR 7698), even if several are good.
//!
//! [`explain`] makes the certificate over any [`ExplainedRows`]. These are rows by which certificates are tested
//! (`certificate_check`). They can also find the first item of a fact and the ends of a name. Of the children of a
//! logical test, [`explain`] takes the first that decides, or all if no child decides. For a fact that is TRUE it takes
//! the first item that the fact covers. From this item and the fact it takes the first ends that fit together. By
//! [`law::certificates_are_good`], the certificate has the verdict, and in lawful rows it is good.
#![tactic(auto)]

mod certificate;
mod fits;
pub mod law;
mod paths;
mod rows;

pub use certificate::explain;
pub use certificate_check::{Certificate, Checked, PlainRows, Relates};
pub use rows::ExplainedRows;
