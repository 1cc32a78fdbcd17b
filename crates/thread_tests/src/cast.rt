//! Whom scenes are about.
use node_threads::Seat;
use term::{LockId, Name, Node, Pid, Requester, Resource, parse_name, parse_node, parse_resource};

/// The names, the resource and the stranger of all scenes.
#[derive(Drop)]
pub(crate) struct Cast {
    pub(crate) x: Name,
    pub(crate) y: Name,
    resource: Resource,
    /// A node of no cluster.
    pub(crate) stranger: Node,
}

impl Cast {
    /// All of them.
    pub(crate) fn new() -> Option<Self> {
        match (
            parse_name("x"),
            parse_name("y"),
            parse_resource("r"),
            parse_node("z"),
        ) {
            (Ok(x), Ok(y), Ok(resource), Ok(stranger)) => Some(Cast {
                x,
                y,
                resource,
                stranger,
            }),
            _ => None,
        }
    }

    /// The lock on the resource in the name of a node.
    pub(crate) fn lock(&self, node: &Node) -> LockId {
        LockId {
            resource: self.resource.copy(),
            requester: Requester::of_node(node),
        }
    }
}

/// The process of a seat's node with this serial.
pub(crate) fn process_of(seat: &Seat, serial: u32) -> Pid {
    Pid {
        node: seat.node().copy(),
        serial,
    }
}
