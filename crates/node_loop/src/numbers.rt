//! What a node's loop tells of itself in numbers.

/// How a node stands, in numbers.
#[derive(Clone, Copy, Debug, PartialEq, Eq)]
pub struct Numbers {
    /// How many names its table has.
    pub names: usize,
    /// How many grants its lock table has: one for each holder of a resource, however often that was granted to it.
    pub locks: usize,
    /// The number that its last numbered call was given; 0 before the first.
    pub calls: u32,
    /// The greatest serial that it has given a process; 0 before the first.
    pub serials: u32,
    /// In how many spans it keeps the serials of its dead.
    pub spans: usize,
    /// How many steps it has made.
    pub steps: u64,
}
