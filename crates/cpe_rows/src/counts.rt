// The numbers of rows.

/// The number of rows of each kind, the number of facts, and the weight.
#[derive(Debug, Clone, Copy, PartialEq, Eq)]
pub struct Counts {
    /// How many entries there are.
    pub entries: u64,
    /// How many entries have a deprecation.
    pub deprecated: u64,
    /// How many items there are.
    pub items: u64,
    /// How many statements there are.
    pub statements: u64,
    /// How many facts the statements have. A fact that is repeated counts each time.
    pub facts: u64,
    /// How many results of checks are kept.
    pub checks: u64,
    /// The weight of all rows, which bounds their memory.
    pub weight: u64,
}
