//! Advisories and items: which items an advisory affects, and which advisories affect a name.
//!
//! An [`Advisory`] names a product and a range of its versions. [`Advisories`] keeps advisories and items from edit to
//! edit. Edits and questions are records, which are lines of JSON. The command [`advise`] answers them line by line.
#![tactic(auto)]

mod advised;
mod advisories;
mod advisory;
mod edit;
mod groups;
mod items;
pub mod law;
mod limits;
mod member;
mod range;
mod read;
mod reason;
mod record_kind;
mod reply;
mod run;
mod speaker;
mod view;

pub use advisories::Advisories;
pub use advisory::{Advisory, Bound};
pub use edit::{AdviceEdit, AdviceFault, AdviceQuery, AdviceReply, AdviceWhich};
pub use limits::MOST_ADVISORIES;
pub use member::{AdviceMember, AdviceReadFault};
pub use read::Advice;
pub use reason::AdviceReason;
pub use run::advise;
pub use speaker::Advise;
