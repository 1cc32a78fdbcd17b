//! The limits of which models speak. `limits` in `term`, where all others stand, has them from here.

/// How many nodes a world has at most.
pub const MOST_NODES: usize = 8;

/// How many bytes a text has at most.
pub const LONGEST_TEXT: usize = 64;

/// How many deliveries one `settle` of a script plays at most.
pub const SETTLE_LIMIT: u32 = 100_000;
