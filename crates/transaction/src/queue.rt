//! The operations that wait.
ghost use Rattle.std.specs.Prelude.{◌≡◌, ◌++◌, ◌∷◌, [], length, map, IfOk, OnOk, OnErr};
ghost use Rattle.std.specs.List.{list_any};
ghost use Rattle.protocol_model.specs.Event.{is_join};
ghost use Rattle.transaction.specs.Ops.{op_of};
ghost use Rattle.transaction.specs.Work.{next_op, left_of, begins_with_join};

use crate::op::Op;
use std::alloc::{AllocError, Global};
use std::collections::VecDeque;
use std::marker::Model;

/// Operations that wait, the oldest first. Contracts see their list.
#[derive(Drop)]
pub(crate) struct Queue {
    ops: VecDeque<Op>,
    /// Whether a join is among them: asked at each call of a join, however many operations wait.
    has_join: bool,
}

impl Model for Queue {
    ghost use Rattle.std.specs.Prelude.{List, ◌≡◌};
    ghost use Rattle.std.specs.List.{list_any};
    ghost use Rattle.protocol_model.specs.Event.{is_join};
    ghost use Rattle.transaction.specs.declared.op.Op.{Op};
    ghost use Rattle.transaction.specs.Ops.{op_of};

    ghost Value = { List Op };

    ghost view = { λ q. q.ops.items };

    ghost invariant = { λ q. q.has_join ≡ list_any (λ op. is_join (op_of op)) q.ops.items };
}

/// Whether an operation is a join.
fn is_join(op: &Op) -> bool
    ensures { result ≡ is_join (op_of op.now) }
{
    matches!(op, Op::Join(..))
}

/// Whether one of these operations is a join.
fn any_join(ops: &VecDeque<Op>) -> bool
    ensures { result ≡ list_any (λ op. is_join (op_of op)) ops.now.items }
{
    ops.iter().any(|op| is_join(op))
}

impl Queue {
    ghost use Rattle.std.specs.Prelude.{None};

    /// No operations. It takes no memory.
    pub(crate) fn new(alloc: Global) -> Self
        ensures { result ≡ [] }
    {
        Queue {
            ops: VecDeque::new(alloc),
            has_join: false,
        }
    }

    /// Puts an operation at the back. Where memory is refused the queue stays as it was.
    pub(crate) fn push(&mut self, op: Op) -> Result<(), AllocError>
        ensures ok { OnOk result (self.new ≡ self.old ++ op ∷ []) }
        ensures err { OnErr result (self.new ≡ self.old) }
    {
        let has_join = self.has_join || is_join(&op);
        self.ops.push_back(op)?;
        self.has_join = has_join;
        Ok(())
    }

    /// Takes the operation at the front, if there is one. Only behind a join it looks for another.
    pub(crate) fn pop(&mut self) -> Option<Op>
        ensures front { result ≡ next_op None self.old }
        ensures rest { self.new ≡ left_of None self.old }
    {
        let op = self.ops.pop_front()?;
        if is_join(&op) {
            self.has_join = any_join(&self.ops);
        }
        Some(op)
    }

    /// The same operations, in memory of their own.
    pub(crate) fn copy(&self) -> Result<Self, AllocError>
        ensures { IfOk result (λ copy. map op_of copy ≡ map op_of self.now) }
    {
        Ok(Queue {
            ops: self.ops.clone()?,
            has_join: self.has_join,
        })
    }

    /// How many operations wait.
    pub(crate) fn len(&self) -> usize
        ensures { result ≡ length self.now }
    {
        self.ops.len()
    }

    /// Whether the operation at the front is a join.
    pub(crate) fn begins_with_join(&self) -> bool
        ensures { result ≡ begins_with_join self.now }
    {
        match self.ops.front() {
            Some(op) => is_join(op),
            None => false,
        }
    }

    /// Whether a join waits.
    pub(crate) fn has_join(&self) -> bool
        ensures { result ≡ list_any (λ op. is_join (op_of op)) self.now }
    {
        self.has_join
    }
}
