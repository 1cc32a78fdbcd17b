//! What a world's history says.
use node_events::{Look, Reply};
use term::{Node, Pid};
use transaction::NameCall;

/// An entry of a world's history. They stand in the order in which operations took effect.
#[derive(Debug, PartialEq, Eq, Drop)]
pub enum HistoryEntry {
    /// A name call was decided: its node, its number there, the call and the reply.
    Name(Node, u32, NameCall, Reply),
    /// A dead process was granted the strike of its names.
    Strike(Pid),
    /// A join was decided: the joiner, the number of its call there, its contact and the reply.
    Join(Node, u32, Node, Reply),
    /// The operation of the node that was written is done.
    Done(Node),
    /// A process died.
    Exit(Pid),
    /// A node left.
    Left(Node),
    /// A node was told that another has left: itself, and the other.
    Told(Node, Node),
    /// A look-up was answered.
    Read(Node, Look, Reply),
    /// A name came back, and this node of it started: it was told of all nodes that had left until then.
    Restart(Node),
}
