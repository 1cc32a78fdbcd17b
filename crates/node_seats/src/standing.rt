//! How the thread of a node stands, as others read it.
ghost use Rattle.std.specs.Prelude.{◌≡◌, true};
ghost use Rattle.shared_table.specs.Coming.{IsLoopOf};
ghost use Rattle.node_seats.specs.Departures.{IsGone};

use crate::told::{NodeStatus, Told};
use crossbeam_utils::CachePadded;
use name_table::Names;
use shared_table::{NodeLoop, Record};
use std::alloc::Global;
use std::sync::OnceLock;
use std::sync::atomic::{AtomicBool, Ordering};
use term::{Node, NodeSet};

/// That a loop of a node has left.
#[derive(Drop)]
struct Departure {
    node: Node,
    ghost gone: { IsGone node },
}

/// What the thread of a node has told of itself.
#[derive(Drop)]
pub(crate) struct Standing {
    node: Node,
    left: OnceLock<Departure>,
    ended: AtomicBool,
    /// It is written behind each step. Callers that wait read what stands above, so it lies apart from that.
    told: CachePadded<Told>,
}

impl Standing {
    /// That of this node, which is yet to start.
    pub(crate) fn new(node: Node) -> Self
        ensures { result.node ≡ node }
    {
        Standing {
            node,
            left: OnceLock::new(),
            ended: AtomicBool::new(false),
            told: CachePadded::new(Told::new()),
        }
    }

    /// Tells how the node stands, one of a cluster of these nodes.
    pub(crate) fn tell<N: Names<Memory = Global>, L: Record>(
        &self,
        nodes: &NodeSet,
        node: &NodeLoop<N, L>,
    ) {
        self.told
            .tell_members(nodes, node.is_joined(), node.members());
        self.told.tell_numbers(&node.numbers());
    }

    /// How the node stands, one of a cluster of these nodes.
    pub(crate) fn status(&self, node: &Node, nodes: &NodeSet) -> NodeStatus
        ensures { result.node ≡ node.now }
    {
        self.told.status(node, nodes)
    }

    /// The node has left, as this loop of it says.
    pub(crate) fn leave<N: Names<Memory = Global>, L: Record>(&self, node: &NodeLoop<N, L>)
        requires came { IsLoopOf node.now.log.node node.now }
        requires left { node.now.left ≡ true }
    {
        let departure = Departure {
            node: node.node().copy(),
        };
        // Where it was told before, it stays so.
        let _ = self.left.try_set(departure);
    }

    /// The thread puts no reply any more.
    pub(crate) fn end(&self) {
        self.ended.store(true, Ordering::SeqCst);
    }

    /// Whether it was told that the node has left: only where a loop of it has.
    pub(crate) fn has_left(&self) -> bool
        ensures { result ≡ true → IsGone self.now.node }
    {
        match self.left.get() {
            Some(departure) => departure.node == self.node,
            None => false,
        }
    }

    /// Whether the thread puts no reply any more.
    pub(crate) fn has_ended(&self) -> bool {
        self.ended.load(Ordering::SeqCst)
    }
}
