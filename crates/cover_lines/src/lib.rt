//! A list of names, reduced to the names that no other name of the list covers ([`Names`]), and the command for this
//! ([`cover`]). Each line of its input is a name. At the end of the input the command writes the names that no other
//! name covers.
#![tactic(auto)]

mod fault;
pub mod law;
mod limits;
mod marks;
mod names;
mod own;
mod reason;
mod rows;
mod run;
mod shapes;
mod speaker;
mod written;

pub use fault::{NamesFault, NamesWhich};
pub use limits::MOST_NAMES;
pub use names::Names;
pub use reason::CoverReason;
pub use run::cover;
pub use speaker::Cover;
