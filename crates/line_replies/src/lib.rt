//! Answers as lines: answers to questions, the verdicts that an edit changes, certificates and the results of their
//! tests, and the reasons of refusals.
#![tactic(auto)]

mod certificate;
mod chain;
mod change;
mod reason;
mod reply;
mod row;

pub use certificate::{push_certificate, push_checked};
pub use chain::push_chain_lent;
pub use change::push_change;
pub use line_session::{LONGEST, Page, Reason, Stateless};
pub use reason::{RecordReason, push_record_fault};
pub use reply::{push_reply, push_verdict};
