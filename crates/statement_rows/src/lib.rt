//! Statements (NIST IR 7698) as rows, each with a ticket, its verdict and the verdict that callers know; and the
//! results of checks.
//!
//! A verdict is the truth of a statement's test. The caller gives the truths of facts ([`FactTruth`]), and the results
//! of checks are kept here. If truths of facts changed, the caller passes the tickets of the statements that use them,
//! and [`StatementRows::refresh`] evaluates only these statements. If a result changed, the statements that ask for its
//! check are evaluated. Rows and lists of tickets rise, so each ticket is found by a binary search.
//!
//! A statement is added in two stages: [`StatementRows::ready_statement`] takes all memory, and
//! [`StatementRows::add_statement`] cannot fail. So is a result set ([`StatementRows::ready_result`],
//! [`StatementRows::set_result`]).
#![tactic(auto)]

mod askers;
mod by_result;
mod changes;
mod count;
mod fact_use;
mod faults;
mod ids;
pub mod law;
mod new_row;
mod ready_statement;
mod row;
mod rows;
mod statements;
mod truths;

pub use check_results::ReadyResult;
pub use fact_use::FactUse;
pub use ready_statement::ReadyStatement;
pub use statements::StatementRows;
pub use truths::FactTruth;
