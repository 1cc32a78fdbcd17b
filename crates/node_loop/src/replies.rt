//! What a node replies to those who asked.
ghost use Rattle.std.specs.Prelude.{◌≡◌, [], ◌∷◌, ◌++◌, Some, OnOk, OnErr, MatchOption};
ghost use Rattle.node_loop.specs.Told.{tell, outcome_of, told_by};

use crate::item::Ticket;
use crate::tries::room_in_queue;
use node_log::{Answer, StepFault};
use std::alloc::{AllocError, Global};
use std::collections::VecDeque;
use std::fmt;
use std::marker::Model;
use thiserror::Error;

/// Why a task is refused.
#[derive(Debug, PartialEq, Eq, Error, Drop)]
pub enum TaskFault {
    /// The contact of its join isn't of the world.
    NoSuchNode,
    /// The node has left.
    NodeLeft,
    /// The node's core refuses it; or, as `NotLive`, the process of a lock call died before the answer.
    Step(StepFault),
}

impl TaskFault {
    ghost use Rattle.node_loop.specs.Words.{task_word};

    /// The word for it: lines tell of a refusal by it, and its own text is no other.
    pub fn word(&self) -> &'static str
        ensures { result.now ≡ task_word self.now }
    {
        match self {
            TaskFault::NoSuchNode => "no_such_node",
            TaskFault::NodeLeft => "node_left",
            TaskFault::Step(fault) => fault.word(),
        }
    }
}

impl fmt::Display for TaskFault {
    ghost use Rattle.node_loop.specs.Words.{task_word};

    ghost output = { λ f. Some (task_word f) };

    fn fmt<W: fmt::Write>(&self, f: &mut fmt::Formatter<W>) -> fmt::Result {
        f.write_str(self.word())
    }
}

/// What came of a task that was accepted.
#[derive(Debug, PartialEq, Eq, Drop)]
pub enum Effect {
    /// By the step of this stamp the call has this answer.
    Answered(u64, Answer),
    /// An exit or a retry was made. It has no answer.
    Made,
    /// The node has left.
    Left,
}

/// What comes of a task.
#[derive(Debug, PartialEq, Eq, Drop)]
pub struct TaskReply {
    /// Whose task it is.
    pub ticket: Ticket,
    /// What came of it, or why it is refused.
    pub outcome: Result<Effect, TaskFault>,
}

/// The replies that nobody has fetched yet, the oldest first.
#[derive(Drop)]
pub(crate) struct Replies {
    list: VecDeque<TaskReply>,
}

impl Model for Replies {
    ghost use Rattle.std.specs.Prelude.{List, map};
    ghost use Rattle.node_loop.specs.Told.{Told, told_by};

    ghost Value = { List Told };

    ghost view = { λ r. map told_by r.list.items };
}

impl Replies {
    /// No reply. It takes no memory.
    pub(crate) fn new(alloc: Global) -> Self
        ensures { result ≡ [] }
    {
        Replies {
            list: VecDeque::new(alloc),
        }
    }

    /// A reply more, if there is a ticket.
    pub(crate) fn tell(
        &mut self,
        ticket: Option<Ticket>,
        outcome: Result<Effect, TaskFault>,
    ) -> Result<(), AllocError>
        ensures ok { OnOk result (self.new ≡ self.old ++ tell ticket (outcome_of outcome)) }
        ensures unchanged { OnErr result (self.new ≡ self.old) }
    {
        let Some(ticket) = ticket else {
            return Ok(());
        };
        room_in_queue(&mut self.list)?;
        self.list.push_back_reserved(TaskReply { ticket, outcome });
        Ok(())
    }

    /// The oldest reply, which is taken off.
    pub(crate) fn next(&mut self) -> Option<TaskReply>
        ensures { MatchOption result ((self.old ≡ []) × (self.new ≡ [])) (λ reply. self.old ≡ told_by reply ∷ self.new) }
    {
        self.list.pop_front()
    }
}
