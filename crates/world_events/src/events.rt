//! What may happen in a world.
ghost use Rattle.std.specs.Prelude.{◌≡◌};
ghost use Rattle.node_events.specs.Causes.{event_by};
ghost use Rattle.world_events.specs.Events.{node_event, is_leave, knows_contact};

use node_events::{Call, Cause};
use term::{Node, NodeName, NodeSet, Pid};

/// What may happen at a node, beside the delivery of a letter.
#[derive(Debug, PartialEq, Eq, Drop)]
pub enum LocalEvent {
    /// A client calls.
    Call(Call),
    /// The operation whose round was refused asks again, and so does each lock call whose round was.
    Retry,
    /// A process of the node dies: its locks are released at once, and its names are struck under the global lock.
    Exit(Pid),
    /// The node leaves the world: it says so to all others, and no event of its own comes any more.
    Leave,
}

impl LocalEvent {
    /// The event as the node's core takes it.
    pub fn cause(&self) -> Cause<'_>
        ensures { event_by result ≡ node_event self.now }
    {
        match self {
            LocalEvent::Call(call) => Cause::Call(call),
            LocalEvent::Retry => Cause::Retry,
            LocalEvent::Exit(process) => Cause::Exit(process),
            LocalEvent::Leave => Cause::Leave,
        }
    }

    /// Whether the node leaves.
    pub fn is_leave(&self) -> bool
        ensures { result ≡ is_leave self.now }
    {
        matches!(self, LocalEvent::Leave)
    }

    /// Whether the contact of the event is among these nodes or older than one of its name, if it has one.
    pub fn knows_contact(&self, nodes: &NodeSet) -> bool
        ensures { result ≡ knows_contact nodes.now self.now }
    {
        match self {
            LocalEvent::Call(Call::Join(contact)) => nodes.reaches(contact),
            _ => true,
        }
    }
}

/// What may happen in a world.
#[derive(Debug, PartialEq, Eq, Drop)]
pub enum WorldEvent {
    /// An event at a node.
    At(Node, LocalEvent),
    /// The oldest letter from the nodes of the first name to the present node of the second is delivered.
    Deliver(NodeName, NodeName),
    /// A name comes back: its next node starts, and is told of all nodes that have left.
    Restart(NodeName),
}
