//! What a lock call asks for.
ghost use Rattle.std.specs.Prelude.{◌≡◌};
ghost use Rattle.lock_lines.specs.Requests.{are_rivals as rivals, asks_for as asked_for, is_for_more as for_more, meet as have_common};

use term::{LockId, NodeSet, Pid, Resource};

/// What a lock call asks for: that a process has a lock, at these nodes.
#[derive(Debug, PartialEq, Eq, Drop)]
pub struct Request {
    /// The process that is to have it.
    pub holder: Pid,
    /// What the lock is on, and in whose name it is asked for.
    pub id: LockId,
    /// The nodes that are asked.
    pub nodes: NodeSet,
}

/// Whether two sets have a node in common.
fn meet(some: &NodeSet, others: &NodeSet) -> bool
    ensures { result ≡ have_common some.now others.now }
{
    some.as_slice().iter().any(|node| others.contains(node))
}

impl Request {
    /// The same request. It takes no memory.
    pub fn copy(&self) -> Self
        ensures { result ≡ self.now }
    {
        Request {
            holder: self.holder.copy(),
            id: self.id.copy(),
            nodes: self.nodes.copy(),
        }
    }

    /// Whether it asks for this resource at one of these nodes.
    pub(crate) fn asks_for(&self, resource: &Resource, nodes: &NodeSet) -> bool
        ensures { result ≡ asked_for resource.now nodes.now self.now }
    {
        self.id.resource == *resource && meet(&self.nodes, nodes)
    }

    /// Whether both can't be granted at once: they ask for one resource at a common node, in the names of two requesters.
    pub(crate) fn is_rival_of(&self, other: &Request) -> bool
        ensures { result ≡ rivals self.now other.now }
    {
        self.id.resource == other.id.resource
            && self.id.requester != other.id.requester
            && meet(&self.nodes, &other.nodes)
    }

    /// Whether it asks for a lock of which the other is a part: they ask for one resource at a common node, in the name of one requester.
    pub(crate) fn is_for_more_of(&self, other: &Request) -> bool
        ensures { result ≡ for_more self.now other.now }
    {
        self.id.resource == other.id.resource
            && self.id.requester == other.id.requester
            && meet(&self.nodes, &other.nodes)
    }
}
