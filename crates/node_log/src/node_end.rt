//! What a node's thread gives back.
use crate::log::Log;
use name_table::Names;

/// What the thread of a node gives back when it ends.
#[derive(Debug, Drop)]
pub struct NodeEnd<N: Names, L = Log> {
    /// The log of its steps, or another record of them. It says whose it is.
    pub log: L,
    /// The table of the node, as its last step left it.
    pub table: N,
    /// Whether the thread's last turn failed, and the node hadn't left.
    pub ended_alone: bool,
}
