// The greatest number of names. Their weight has the same limit as the weight of rows.

/// The greatest number of names.
pub const MOST_NAMES: usize = 1_000_000;
