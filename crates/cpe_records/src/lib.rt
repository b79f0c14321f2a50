//! Records: lines of JSON that edit a dictionary and an inventory, or ask about them.
//!
//! A record is a JSON object. Its member `do` is its kind, and each kind has its own members. These are tested in a
//! fixed order; the first bad member is the fault. A member that the kind does not have is ignored. If a member is
//! there twice, the last one counts. A member that may be missing has a default. If it is there, it has the right form
//! or is refused, also if it is `null`. Names are URIs or formatted strings, and are put in lower case.
//!
//! A record whose member `v` is the text `2` has the second format, and a record without `v` the first. In the second
//! format a name may be an object too. Its members are attributes, each a component as in a formatted string; a missing
//! attribute is ANY. `v` is tested right after `do`.
//!
//! | `do` | Members in order |
//! |---|---|
//! | `entry` | `name`; `title`, else empty; `provenance`, else empty |
//! | `deprecate`, `amend` | `name`; `kind`; `successors`, else none; `date`; `comment`, else empty |
//! | `restore` | `name`; `date`; `comment`, else empty |
//! | `item`, `drop-item` | `name` |
//! | `statement` | `id`; `title`, else empty; `mode`, else `plain`; `test` |
//! | `drop-statement` | `id` |
//! | `check` | `system`; `href`; `id`; `result` |
//! | `drop-check` | `system`; `href`; `id` |
//! | `lookup`, `items`, `chain`, `show` | `name` |
//! | `search` | `name`; `active`, else `false` |
//! | `verdict` | `id` |
//!
//! The `id` of a statement has 1 to 256 visible characters of ASCII; `system`, `href` and `id` of a check are any
//! texts. `record_writer` describes the written form of a record.
//!
//! The test of a statement (NIST IR 7698) is an object. Its members show which kind of test it is. With `op` it is a
//! logical test. It joins the children in the array `of`, one or more, by `AND` or by `OR`. If `negate` is `true`, it
//! swaps TRUE and FALSE. Without `op`, an object with `fact` is a fact, with a name. Without either, an object with
//! `check` is a check, with the texts `system`, `href` and `id` in an object.
//!
//! Lines of other kinds, such as certificates, share some of these forms. For these lines, the crate has readers of
//! JSON values ([`value_of`], [`text_in`], [`flag_in`], [`array_in`]) and of names ([`unbound`], [`lowered`]). It also
//! has the words that records use, such as [`truth_word`].
//!
//! [`json_law`] has laws of the kit's JSON (RFC 8259). The strings of a value that was read from UTF-8 are UTF-8. The
//! printed form of such strings is UTF-8 too.
#![tactic(auto)]

mod draft;
mod form;
mod format;
pub mod json_law;
mod kinds;
pub mod law;
mod line;
mod member;
mod name;
mod object;
mod provenance;
mod read;
mod record_kind;
mod words;

pub use cpe_uri::UriFault;
pub use form::{array_in, flag_in, text_in};
pub use format::Format;
pub use line::value_of;
pub use member::{Member, NameSpot, RecordFault};
pub use name::{lowered, unbound};
pub use read::{Record, read_record};
pub use record_kind::RecordKind;
pub use words::{
    attribute_word, kind_word, mode_word, note_kind_word, operator_word, truth_of, truth_word,
};
