//! The registrar's queue and its current operation.
ghost use Rattle.std.specs.Prelude.{◌≡◌, IfOk};
ghost use Rattle.std.specs.Option.{option_map};
ghost use Rattle.transaction.specs.Ops.{op_of};

use crate::op::Op;
use crate::queue::Queue;
use std::alloc::{AllocError, Global};
use std::marker::Model;
use term::{Node, NodeSet, Pid};

/// The operations of one node: those that wait, the oldest first, the current one, and the nodes that haven't yet said that
/// they carried it out.
#[derive(Drop)]
pub struct Registrar {
    queue: Queue,
    current: Option<Op>,
    awaited: NodeSet,
}

impl Model for Registrar {
    ghost use Rattle.transaction.specs.Work.{Work};

    ghost Value = { Work };

    ghost view = { λ r. record { queue = r.queue; current = r.current; awaited = r.awaited } };
}

/// The same operation, where there is one.
fn copied(op: &Option<Op>) -> Result<Option<Op>, AllocError>
    ensures { IfOk result (λ copy. option_map op_of copy ≡ option_map op_of op.now) }
{
    Ok(match op {
        Some(op) => Some(op.copy()?),
        None => None,
    })
}

impl Registrar {
    ghost use Rattle.std.specs.Prelude.{false, is_some, length, None, IsTrue, [], OnOk, OnErr};
    ghost use Rattle.std.specs.List.{list_any};
    ghost use Rattle.std.specs.Option.{option_copied};
    ghost use Rattle.protocol_model.specs.Event.{is_join};
    ghost use Rattle.term.specs.NodeSets.{set_of, without_node};
    ghost use Rattle.transaction.specs.Work.{idle, enqueued, started, starts, is_nobody, begins_with_join, IsCopyOf};

    /// A registrar without operations. It takes no memory.
    pub fn new(alloc: Global) -> Self
        ensures { result ≡ idle }
    {
        Registrar {
            queue: Queue::new(alloc),
            current: None,
            awaited: NodeSet::empty(),
        }
    }

    /// The same work, in memory of its own.
    pub fn copy(&self) -> Result<Self, AllocError>
        ensures { IfOk result (IsCopyOf self.now) }
    {
        Ok(Registrar {
            queue: self.queue.copy()?,
            current: copied(&self.current)?,
            awaited: self.awaited.copy(),
        })
    }

    /// Puts an operation at the back of the queue. Where memory is refused the registrar stays as it was.
    pub fn enqueue(&mut self, op: Op) -> Result<(), AllocError>
        ensures ok { OnOk result (self.new ≡ enqueued op self.old) }
        ensures err { OnErr result (self.new ≡ self.old) }
    {
        self.queue.push(op)
    }

    /// The current operation, if there is one.
    pub fn current(&self) -> Option<&Op>
        ensures { option_copied result ≡ self.now.current }
    {
        self.current.as_ref()
    }

    /// How many operations wait.
    pub fn waiting(&self) -> usize
        ensures { result ≡ length self.now.queue }
    {
        self.queue.len()
    }

    /// Whether the operation at the front of the queue is a join.
    pub fn next_is_join(&self) -> bool
        ensures { result ≡ begins_with_join self.now.queue }
    {
        self.queue.begins_with_join()
    }

    /// Whether a join waits.
    pub fn has_join(&self) -> bool
        ensures { result ≡ list_any (λ op. is_join (op_of op)) self.now.queue }
    {
        self.queue.has_join()
    }

    /// Where no operation is current, the strike of this process becomes current, if one is owed, and else the front of the
    /// queue. Tells whether one became current.
    pub fn start(&mut self, owed: Option<Pid>) -> bool
        ensures state { self.new ≡ started owed self.old }
        ensures began { result ≡ starts owed self.old }
    {
        if self.current.is_some() {
            return false;
        }
        self.current = match owed {
            Some(process) => Some(Op::Strike(process)),
            None => self.queue.pop(),
        };
        self.current.is_some()
    }

    /// The current operation awaits each of these nodes.
    pub fn await_from(&mut self, nodes: &NodeSet)
        requires { IsTrue (is_some self.old.current) }
        ensures { self.new ≡ record self.old { awaited = nodes.now } }
    {
        self.awaited = nodes.copy();
    }

    /// A node has carried out the current operation, and is awaited no longer. Tells whether it was awaited; where it wasn't,
    /// nothing changes.
    pub fn applied(&mut self, node: &Node) -> bool
        ensures state { self.new ≡ record self.old { awaited = without_node self.old.awaited node.now } }
        ensures was { result ≡ set_of self.old.awaited node.now }
        ensures unchanged { set_of self.old.awaited node.now ≡ false → self.new ≡ self.old }
    {
        self.awaited.remove(node)
    }

    /// Whether no node is awaited.
    pub fn is_done(&self) -> bool
        ensures { result ≡ is_nobody self.now.awaited }
    {
        self.awaited.is_empty()
    }

    /// The current operation has ended: none is current, and nobody is awaited.
    pub fn finish(&mut self)
        requires { IsTrue (is_some self.old.current) }
        ensures { self.new ≡ record self.old { current = None; awaited = [] } }
    {
        self.current = None;
        self.awaited = NodeSet::empty();
    }
}
