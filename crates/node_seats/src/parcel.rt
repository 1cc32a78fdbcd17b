//! What lies in inboxes.

use link::Sourced;

/// What lies in a node's inbox. Who sent it is known by the number of the line that it came by, and by that alone.
#[derive(Debug, Drop)]
pub struct Parcel<L> {
    /// The number of the sender at this inbox.
    pub number: u64,
    /// What was sent.
    pub item: L,
}

impl<L> Sourced for Parcel<L> {
    ghost source = { λ parcel. parcel.number };
}
