//! Verdicts (NIST IR 7698): statements, the results of checks, and the facts of both modes, kept from edit to edit.
//!
//! [`Verdicts`] has the facts ([`facts::Facts`]) and the statements with their verdicts
//! ([`statement_rows::StatementRows`]). Each call is an edit of the rows. It changes the facts, and then evaluates only
//! the statements that use a fact whose truth was replaced. After each call every verdict is that of the rows.
//!
//! Each edit that needs memory has two stages. The first stage takes all memory and changes no verdict
//! ([`Verdicts::reserve_item`], [`Verdicts::ready_statement`], [`Verdicts::ready_removal`], [`Verdicts::ready_lead`],
//! [`Verdicts::ready_result`]). The second stage cannot fail.
//!
//! The boards of facts have all items by product, and the ends of items. So they also find the items that a name covers
//! or may cover ([`Verdicts::items_met`], [`Verdicts::items_covered`]). The boards don't keep the order of the items; the
//! registry (`name_registry`) does.
#![tactic(auto)]

mod addition;
mod ends;
mod fresh;
mod items;
pub mod law;
mod lead;
mod refresh;
mod removal;
mod results;
mod truths;
mod verdicts;

pub use addition::Addition;
pub use cpe_dictionary::FillFault;
pub use lead::Lead;
pub use name_registry::Registry;
pub use removal::Removal;
pub use verdicts::Verdicts;
