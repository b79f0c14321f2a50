//! The command `convert`: it writes each record in one form of the second format, line by line.
#![tactic(auto)]

mod convert;
pub mod law;
mod reason;

pub use convert::Convert;
pub use reason::ConvertReason;
