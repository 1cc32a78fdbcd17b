//! Ids of locks.
ghost use Rattle.std.specs.Prelude.{◌≡◌};
ghost use Rattle.term.specs.LockIds.{global_text};

use crate::node::Node;
use crate::requester::Requester;
use crate::resource::Resource;

/// The id of a lock: what it is on, and in whose name it is held. Holders that give one requester share a lock on a
/// resource, and another requester is kept from it.
#[derive(Clone, Debug, PartialEq, Eq, Drop)]
pub struct LockId {
    /// What the lock is on.
    pub resource: Resource,
    /// In whose name it is held.
    pub requester: Requester,
}

impl LockId {
    /// The id under which the registrar of a node asks for the resource `global`. It takes no memory.
    pub fn global(node: &Node) -> Self
        ensures resource { result.resource ≡ global_text }
        ensures requester { result.requester ≡ node.now }
    {
        LockId {
            resource: Resource::global(),
            requester: Requester::of_node(node),
        }
    }

    /// The same id. It takes no memory.
    pub fn copy(&self) -> Self
        ensures { result ≡ self.now }
    {
        LockId {
            resource: self.resource.copy(),
            requester: self.requester.copy(),
        }
    }
}
