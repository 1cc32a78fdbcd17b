//! How a node stands, as its thread tells others.
ghost use Rattle.std.specs.Prelude.{◌≡◌};

use shared_table::Numbers;
use std::sync::atomic::{AtomicBool, AtomicU32, AtomicU64, AtomicUsize, Ordering};
use term::{MOST_NODES, Node, NodeSet};

/// How a node stands: each of these as it was told behind one of the last turns of the node's thread.
#[derive(Debug, PartialEq, Eq, Drop)]
pub struct NodeStatus {
    /// Its name.
    pub node: Node,
    /// Whether it is joined with the cluster.
    pub joined: bool,
    /// Its members, itself among them.
    pub members: NodeSet,
    /// Its numbers.
    pub numbers: Numbers,
}

/// What the thread of a node has told of how the node stands. One thread writes it; those who read it wait for nobody. It is written
/// behind each step, and a store costs much more than a look: so only what has changed is stored.
#[derive(Drop)]
pub(crate) struct Told {
    joined: AtomicBool,
    /// How many members it has.
    many: AtomicUsize,
    /// Whether each node of the cluster is a member, by the place of that node.
    members: [AtomicBool; MOST_NODES],
    names: AtomicUsize,
    locks: AtomicUsize,
    calls: AtomicU32,
    serials: AtomicU32,
    spans: AtomicUsize,
    steps: AtomicU64,
}

/// From now on this flag is told.
fn set_flag(told: &AtomicBool, flag: bool) {
    if told.load(Ordering::SeqCst) != flag {
        told.store(flag, Ordering::SeqCst);
    }
}

/// From now on this size is told.
fn set_size(told: &AtomicUsize, size: usize) {
    if told.load(Ordering::SeqCst) != size {
        told.store(size, Ordering::SeqCst);
    }
}

/// From now on this number is told.
fn set_number(told: &AtomicU32, number: u32) {
    if told.load(Ordering::SeqCst) != number {
        told.store(number, Ordering::SeqCst);
    }
}

impl Told {
    /// Nothing yet.
    pub(crate) fn new() -> Self {
        Told {
            joined: AtomicBool::new(false),
            many: AtomicUsize::new(0),
            members: [
                AtomicBool::new(false),
                AtomicBool::new(false),
                AtomicBool::new(false),
                AtomicBool::new(false),
                AtomicBool::new(false),
                AtomicBool::new(false),
                AtomicBool::new(false),
                AtomicBool::new(false),
            ],
            names: AtomicUsize::new(0),
            locks: AtomicUsize::new(0),
            calls: AtomicU32::new(0),
            serials: AtomicU32::new(0),
            spans: AtomicUsize::new(0),
            steps: AtomicU64::new(0),
        }
    }

    /// Tells whether the node is joined, and who of the cluster's nodes are its members. It is told behind each step, and a step lets one
    /// node in, or has one go, or has the node itself join others: as long as they are as many as was told, they are the same.
    pub(crate) fn tell_members(&self, nodes: &NodeSet, joined: bool, members: &NodeSet) {
        set_flag(&self.joined, joined);
        let many = members.len();
        if self.many.load(Ordering::SeqCst) == many {
            return;
        }
        self.many.store(many, Ordering::SeqCst);
        for (told, node) in self.members.iter().zip(nodes.as_slice()) {
            set_flag(told, members.contains(node));
        }
    }

    /// Tells the node's numbers.
    pub(crate) fn tell_numbers(&self, numbers: &Numbers) {
        set_size(&self.names, numbers.names);
        set_size(&self.locks, numbers.locks);
        set_number(&self.calls, numbers.calls);
        set_number(&self.serials, numbers.serials);
        set_size(&self.spans, numbers.spans);
        self.steps.store(numbers.steps, Ordering::SeqCst);
    }

    /// Who of the cluster's nodes were told to be members.
    fn members(&self, nodes: &NodeSet) -> NodeSet {
        let mut members = NodeSet::empty();
        for (told, node) in self.members.iter().zip(nodes.as_slice()) {
            if told.load(Ordering::SeqCst) {
                // There is room for all nodes of a cluster.
                let _ = members.insert(node.copy());
            }
        }
        members
    }

    /// The numbers that were told.
    fn numbers(&self) -> Numbers {
        Numbers {
            names: self.names.load(Ordering::SeqCst),
            locks: self.locks.load(Ordering::SeqCst),
            calls: self.calls.load(Ordering::SeqCst),
            serials: self.serials.load(Ordering::SeqCst),
            spans: self.spans.load(Ordering::SeqCst),
            steps: self.steps.load(Ordering::SeqCst),
        }
    }

    /// How a node of this cluster stands, as it was told.
    pub(crate) fn status(&self, node: &Node, nodes: &NodeSet) -> NodeStatus
        ensures { result.node ≡ node.now }
    {
        NodeStatus {
            node: node.copy(),
            joined: self.joined.load(Ordering::SeqCst),
            members: self.members(nodes),
            numbers: self.numbers(),
        }
    }
}
