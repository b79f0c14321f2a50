// The greatest number of advisories. Items and weight have the limits of an inventory.

/// The greatest number of advisories.
pub const MOST_ADVISORIES: u64 = 100_000;
