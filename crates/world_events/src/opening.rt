//! How a world opens.
ghost use Rattle.std.specs.Prelude.{◌≡◌, ◌+◌, ◌≤◌, ◌++◌, ◌||◌, ℕ, true, None, Some, length, if◌then◌else◌, OnOk, OnErr, IfOk, IfErr};
ghost use Rattle.std.specs.List.{All};
ghost use Rattle.term.specs.Nodes.{IsFirst};
ghost use Rattle.term.specs.NodeSets.{set_of};
ghost use Rattle.world_events.specs.Openings.{IsOpened, repeats, start_refused, start_fault_of, IsOpening};

use std::alloc::AllocError;
use std::fmt;
use std::marker::Model;
use term::{MOST_NODES, Node, NodeName, NodeSet};
use thiserror::Error;

/// Why a world isn't started, in the order in which the causes are looked for.
#[derive(Clone, Copy, Debug, PartialEq, Eq, Error)]
pub enum StartFault {
    /// The cluster has no node.
    NoNode,
    /// A node is named twice, among those of the cluster and the lone ones.
    SameNode,
    /// There are more nodes than a world may have, which is eight.
    TooManyNodes,
    /// Memory was refused.
    Memory,
}

impl StartFault {
    ghost use Rattle.world_events.specs.Words.{start_word};

    /// The word for it: lines tell of a refusal by it, and its own text is no other.
    pub fn word(&self) -> &'static str
        ensures { result.now ≡ start_word self.now }
    {
        match self {
            StartFault::NoNode => "no_node",
            StartFault::SameNode => "same_node",
            StartFault::TooManyNodes => "too_many_nodes",
            StartFault::Memory => "memory",
        }
    }
}

impl fmt::Display for StartFault {
    ghost use Rattle.world_events.specs.Words.{start_word};

    ghost output = { λ f. Some (start_word f) };

    fn fmt<W: fmt::Write>(&self, f: &mut fmt::Formatter<W>) -> fmt::Result {
        f.write_str(self.word())
    }
}

impl From<AllocError> for StartFault {
    ghost use Rattle.world_events.specs.declared.opening.StartFault.{StartFault};

    ghost from_gives = { λ _ fault. fault ≡ StartFault.Memory };

    fn from(_: AllocError) -> StartFault {
        StartFault::Memory
    }
}

/// The nodes of a world, and which of them are joined with each other at first; the others are lone.
#[derive(Debug, Drop)]
pub struct Opening {
    nodes: NodeSet,
    cluster: NodeSet,
}

impl Model for Opening {
    ghost use Rattle.world_events.specs.Openings.{Opened, IsOpened};

    ghost Value = { Opened };

    ghost view = { λ o. record { nodes = o.nodes; cluster = o.cluster } };

    ghost invariant = { λ o. IsOpened (record { nodes = o.nodes; cluster = o.cluster }) };
}

/// Whether one of these nodes stands twice, here or among the others.
fn repeats_in(nodes: &[NodeName], others: &[NodeName]) -> bool
    ensures { repeats (nodes.now ++ others.now) ≡ (if result then true else repeats others.now) }
{
    for (place, node) in nodes.iter().enumerate() {
        if nodes[place + 1..].contains(node) || others.contains(node) {
            return true;
        }
    }
    false
}

/// Why a world of these nodes isn't started, if it isn't.
fn start_fault(cluster: &[NodeName], lone: &[NodeName]) -> Option<StartFault>
    ensures { result ≡ start_refused cluster.now lone.now }
{
    if cluster.is_empty() {
        Some(StartFault::NoNode)
    } else if repeats_in(cluster, lone) || repeats_in(lone, &[]) {
        Some(StartFault::SameNode)
    } else if cluster.len() > MOST_NODES || lone.len() > MOST_NODES - cluster.len() {
        Some(StartFault::TooManyNodes)
    } else {
        None
    }
}

/// Puts the first nodes of these names into a set that has room for them.
fn gather(set: &mut NodeSet, nodes: &[NodeName]) -> Result<(), StartFault>
    requires { length set.old + length nodes.now ≤ MOST_NODES }
    ensures ok { OnOk result ((c : ℕ) → set_of set.new c ≡ (set_of set.old c || set_of nodes.now c)) }
    ensures first { OnOk result (All IsFirst set.old → All IsFirst set.new) }
    ensures room { OnOk result (length set.new ≤ length set.old + length nodes.now) }
    ensures all { OnErr result ⊥ }
{
    for node in nodes {
        if set.insert(Node::first(node.copy())).is_err() {
            return Err(StartFault::TooManyNodes);
        }
    }
    Ok(())
}

impl Opening {
    /// A world of the nodes of `cluster`, which are joined with each other, and of lone nodes, each of which stands for itself. A
    /// world without a joined node is refused as `NoNode`, then one that names a node twice as `SameNode`, then one of more than
    /// eight nodes as `TooManyNodes`. It takes no memory.
    pub fn of(cluster: &[NodeName], lone: &[NodeName]) -> Result<Self, StartFault>
        ensures ok { IfOk result (λ opening. IsOpening cluster.now lone.now opening) }
        ensures accepted { IfOk result (λ opening. start_refused cluster.now lone.now ≡ None) }
        ensures cause { IfErr result (λ fault. start_refused cluster.now lone.now ≡ Some fault) }
        ensures err { IfErr result (λ fault. start_refused cluster.now lone.now ≡ start_fault_of fault) }
    {
        if let Some(fault) = start_fault(cluster, lone) {
            return Err(fault);
        }
        let mut joined = NodeSet::empty();
        gather(&mut joined, cluster)?;
        let mut nodes = joined.copy();
        gather(&mut nodes, lone)?;
        Ok(Opening {
            nodes,
            cluster: joined,
        })
    }

    /// All its nodes.
    pub fn nodes(&self) -> &NodeSet
        ensures nodes { result.now ≡ self.now.nodes }
        ensures opened { IsOpened self.now }
    {
        &self.nodes
    }

    /// Those that are joined at first.
    pub fn cluster(&self) -> &NodeSet
        ensures { result.now ≡ self.now.cluster }
    {
        &self.cluster
    }
}
