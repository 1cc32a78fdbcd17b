//! Who has which locks, as a server has seen it.
ghost use Rattle.std.specs.Prelude.{◌≡◌, ◌+◌, ◌-◌, ◌<◌, ◌^◌, not, [], filter, OnOk, OnErr};
ghost use Rattle.std.specs.List.{list_any};
ghost use Rattle.lock_lines.specs.Held.{holds, is_held_by, is_of, is_on, noted, taken, times_of};

use crate::request::Request;
use std::alloc::{AllocError, Global};
use std::collections::BTreeMap;
use term::{LockId, Node, NodeSet, Pid, Requester, Resource};

/// Whose grant it is, of what, and where.
#[derive(Clone, Debug, PartialEq, Eq, PartialOrd, Ord, Drop)]
pub struct Grant {
    /// The process that has the lock.
    pub holder: Pid,
    /// What it is on.
    pub resource: Resource,
    /// In whose name it is held.
    pub requester: Requester,
    /// Where.
    pub node: Node,
}

/// How often each process was granted which lock at which node, and may have it still: each grant that was given, and each that was asked
/// for and isn't answered, so that none is missed.
#[derive(Drop)]
pub struct Grants {
    pub(crate) times: BTreeMap<Grant, u64>,
}

impl Grant {
    /// The same. It takes no memory.
    fn copy(&self) -> Self
        ensures { result ≡ self.now }
    {
        Grant {
            holder: self.holder.copy(),
            resource: self.resource.copy(),
            requester: self.requester.copy(),
            node: self.node.copy(),
        }
    }

    /// Whether it is one of the resource, in the requester's name, at one of these nodes.
    fn is_of(&self, id: &LockId, nodes: &NodeSet) -> bool
        ensures { result ≡ is_of id.now nodes.now self.now }
    {
        self.resource == id.resource && self.requester == id.requester && nodes.contains(&self.node)
    }

    /// Whether it is one at a node, or a process's of the node.
    fn is_on(&self, node: &Node) -> bool
        ensures { result ≡ is_on node.now self.now }
    {
        self.node == *node || self.holder.node == *node
    }
}

impl Grants {
    /// Nobody has a lock. It takes no memory yet.
    pub fn new(alloc: Global) -> Self
        ensures { result.times.entries ≡ [] }
    {
        Grants {
            times: BTreeMap::new(alloc),
        }
    }

    /// How often this grant was given.
    fn times(&self, grant: &Grant) -> u64
        ensures { result ≡ times_of grant.now self.now.times }
    {
        match self.times.get(grant) {
            Some(times) => *times,
            None => 0,
        }
    }

    /// A grant is asked for, and counts once more. `AllocError`: there is no memory for the first one, or it counts 2^64 - 1 times, and
    /// nothing changes.
    pub fn note(&mut self, grant: Grant) -> Result<(), AllocError>
        ensures ok { OnOk result (self.new.times.entries ≡ noted grant self.old.times) }
        ensures refused { OnErr result (self.new.times.entries ≡ self.old.times.entries) }
    {
        let Some(times) = self.times(&grant).checked_add(1) else {
            return Err(AllocError);
        };
        self.times.insert(grant, times)?;
        Ok(())
    }

    /// A grant counts once less, if it counts.
    pub fn take(&mut self, grant: &Grant)
        ensures { self.new.times.entries ≡ taken grant.now self.old.times }
    {
        let times = self.times(grant);
        if times > 1 {
            // It takes no memory: the grant is there.
            let _counted = self.times.insert(grant.copy(), times - 1);
        } else {
            self.times.remove(grant);
        }
    }

    /// Whether somebody has the lock, in the requester's name, at one of these nodes.
    pub fn holds(&self, id: &LockId, nodes: &NodeSet) -> bool
        ensures { result ≡ holds id.now nodes.now self.now.times }
    {
        self.times.keys().any(|grant| grant.is_of(id, nodes))
    }

    /// A process is dead, and has none.
    pub fn drop_holder(&mut self, holder: &Pid)
        ensures { self.new.times.entries ≡ filter (λ entry. not (is_held_by holder.now entry.0)) self.old.times.entries }
    {
        self.times.retain(|grant, _times| grant.holder != *holder);
    }

    /// A node has left: its processes have none, and nobody has one there.
    pub fn drop_node(&mut self, node: &Node)
        ensures { self.new.times.entries ≡ filter (λ entry. not (is_on node.now entry.0)) self.old.times.entries }
    {
        self.times.retain(|grant, _times| !grant.is_on(node));
    }
}
