//! The facts of one mode. Each fact has its ends, its truth, and the tickets of the statements that use it. Each end
//! has the facts that lead to it.
//!
//! A fact is one row of [`FactRows`], by the number of its name. In mode plain a fact leads to itself. In mode follow a
//! fact leads to its ends; it may have no end. Its truth follows from the levels of the names to which it leads.
//! [`FactRows::refresh_facts`] and [`FactRows::refresh_ends`] compute the truth again. [`FactRows::changed`] lists each
//! fact whose truth was replaced, once, until [`FactRows::clear_changed`].
//!
//! Only [`FactRows::add_fact`], [`FactRows::reserve_user`] and [`FactRows::link`] take memory. A new fact has room for
//! its first user and for its place in the list of changes, so no later call can fail.
#![tactic(auto)]

mod ends;
mod facts;
pub mod law;
mod links;
mod refresh;
mod row;
mod rows;

pub use facts::FactRows;
