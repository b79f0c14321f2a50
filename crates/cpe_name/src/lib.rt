//! Well-formed names (NIST IR 7695, 5), and their text. A name has eleven values. The part and the language have values
//! of a special shape only.
#![tactic(auto)]

mod attribute;
mod borrowed;
mod copy;
mod eleven;
mod equal;
mod lower;
mod name;
mod put;
mod quoted;
mod read;
mod scan;
mod shape;
mod tag;
mod write;
mod written;

pub use attribute::{ATTRIBUTES, Attribute};
pub use borrowed::NameRef;
pub use eleven::Eleven;
pub use name::{NameFault, Values, Wfn};
pub use put::{PutValue, put_output};
pub use read::{WfnFault, read_wfn, wfn_texts};
pub use scan::scan_wfn;
pub use tag::{Hyphen, language_tags, scan_language_tag};
pub use write::write_wfn;
pub use written::{ReadValue, Written, read_name};
