//! Laws about facts. The names to which facts lead are the *probes* (`asked`), and the names to which items lead are
//! the *targets* (`there`).
//!
//! In mode plain a name leads to itself, in mode follow to its ends. A fact is TRUE exactly if a probe to which it
//! leads covers a target. Otherwise it is UNKNOWN exactly if a probe to which it leads may cover a target
//! ([`law::facts_are_asked`]). Probes and targets are lists in any order. So a container of such names only has to know
//! how often each name is in its list. Each edit adds some names and removes some. A fact is in the list of its mode
//! once, however many statements use it.
//!
//! Code keeps the numbers of names, and how often each occurs. Contracts speak of the names themselves. The names that
//! a table holds are such a list too: each name is in it as often as it is held. The same is true of everything else
//! that keeps numbers of the table with their multiplicities ([`law::lists_are_shown`]).
#![tactic(auto)]

pub mod law;
