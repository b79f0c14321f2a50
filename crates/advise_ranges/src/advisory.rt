// Advisories.
use cpe_rows::{Text, Wfn};

/// A bound of a range of versions.
#[derive(Debug, Drop)]
pub struct Bound {
    /// The version at which the range begins or ends: 1 to 256 visible ASCII characters.
    pub version: Text,
    /// Whether this version itself is outside the range.
    pub excluded: bool,
}

/// An advisory: a name, and perhaps bounds of its versions.
#[derive(Debug, Drop)]
pub struct Advisory {
    /// The id: 1 to 256 visible ASCII characters.
    pub id: Text,
    /// The name of what the advisory is about. The version of this name is ANY.
    pub name: Wfn,
    /// The start of the range, if the range has one.
    pub start: Option<Bound>,
    /// The end of the range, if the range has one.
    pub end: Option<Bound>,
}
