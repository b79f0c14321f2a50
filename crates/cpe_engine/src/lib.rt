//! An engine: it keeps the rows of a dictionary (NIST IR 7697) and of an inventory with its applicability statements
//! (NIST IR 7698), makes edits of them and answers queries.
//!
//! An engine keeps its rows as `engine_edits::EngineParts`: a registry of names, and the verdict of each statement. An
//! edit has two stages there. The first finds its fault, takes all memory that it needs, and leaves the rows unchanged.
//! The second makes the edit and can't fail. It returns the verdicts that changed. A query for a verdict evaluates
//! nothing.
//!
//! A certificate needs items that show a fact, and truths of facts. An engine finds them by its indexes: the registry
//! knows the names to which a name leads, and the verdicts know the items that lead to a name. Only a name with
//! upper-case letters is compared with each item; no statement has such a name.
#![tactic(auto)]

mod adopting;
mod engine;
mod explained;
mod leading;
mod slots;
mod truths;

pub use adopting::AdoptFault;
pub use engine::Engine;
pub use name_index::Steps;
