//! Sessions over lines. A [`Speaker`] answers the lines of a source one after another, and keeps a state.
//! [`answer_lines`] writes these answers to a sink. A [`Listener`] answers a whole input, at the end of the input
//! ([`answer_whole`]).
#![tactic(auto)]

mod folding;
mod given;
mod made;
mod page;
mod progress;
mod refusal;
mod session;
mod speaker;
mod stateless;
mod status;
mod table;
mod whole;
mod written;

pub use cpe_io::{LONGEST, Sink, SinkFault, Source};
pub use folding::{costs_are_summed, state_is_folded};
pub use given::{answer_given, end_given};
pub use made::answer_made;
pub use page::{Fill, Page};
pub use progress::Progress;
pub use refusal::TooLong;
pub use session::{answer_from, answer_lines};
pub use speaker::{NumberedLine, Reason, Speaker};
pub use stateless::{Each, Stateless, answer_each};
pub use status::Status;
pub use step_count::Steps;
pub use table::{Table, pour_table, pour_text};
pub use whole::{Listener, answer_whole};
pub use written::{write_table, write_text};
