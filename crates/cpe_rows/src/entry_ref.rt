// Entries whose parts are borrowed.
use crate::entry::{Deprecation, Provenance};
use crate::text::Text;
use cpe_name::Wfn;

/// References to the parts of an entry that is kept elsewhere.
#[derive(Clone, Copy)]
pub struct EntryRef<'e> {
    /// The name of the entry.
    pub name: &'e Wfn,
    /// A title for readers, perhaps empty.
    pub title: &'e Text,
    /// The origin of the entry.
    pub provenance: &'e Provenance,
    /// The deprecation, if the entry is deprecated.
    pub deprecation: Option<&'e Deprecation>,
}
