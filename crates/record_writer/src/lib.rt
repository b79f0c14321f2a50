//! The written form of records, and entries of a dictionary as JSON (RFC 8259), a token at a time.
//!
//! Both forms have no spaces, and the members of each object are sorted by their keys. A record is written in the
//! second format ([`write_record`]), with every member of its kind. A missing member is written as its default. A name
//! is an object of its attributes that are not ANY. The written form of a valid record is read as the same record
//! ([`written_is_read`]). `cpe_records` says which lines are records, and what their members mean. An entry is written
//! as it is kept, with its deprecation ([`write_entry`]). The names of an entry are formatted strings.
#![tactic(auto)]

mod ascii;
mod form;
mod object;
mod test;
mod write;

pub use form::{write_record, written_is_read};
pub use write::{append_entry, put, put_names, write_entry};
