//! How a round ends.
use term::NodeSet;

/// How a round ends.
#[derive(Debug, PartialEq, Eq, Drop)]
pub enum Ending {
    /// The lock is held at the nodes that were asked.
    Held,
    /// It isn't, and these nodes get their grants back.
    GiveBack(NodeSet),
}
