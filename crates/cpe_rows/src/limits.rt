// Limits: how many rows there may be, their weight, and the size of their parts. Each limit is written only here.

/// The highest number of entries in a dictionary.
pub const MOST_ENTRIES: usize = 2_000_000;

/// The highest number of items in an inventory.
pub const MOST_ITEMS: usize = 1_000_000;

/// The highest number of statements.
pub const MOST_STATEMENTS: usize = 100_000;

/// The highest number of facts in all statements together. A fact that is repeated counts each time.
pub const MOST_FACTS: usize = 1_000_000;

/// The highest number of check results that are kept.
pub const MOST_CHECKS: usize = 100_000;

/// The highest weight of all rows together.
pub const MOST_WEIGHT: u64 = 536_870_912;

/// The highest depth of a statement's test, in levels of logical tests.
pub const MOST_LEVELS: u32 = 32;

/// The highest number of successors of a deprecation.
pub const MOST_SUCCESSORS: usize = 16;

/// The highest number of ends of an entry.
pub const MOST_ENDS: usize = 256;

/// The highest number of bytes in an id. An id has at least one byte.
pub const MOST_ID_BYTES: usize = 256;
