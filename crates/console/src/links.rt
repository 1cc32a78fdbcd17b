//! The processes that are linked to a console.
ghost use Rattle.std.specs.Prelude.{◌≡◌, ◌<◌, ◌≤◌, ◌++◌, [], true, length, string_bytes, IfOk, MatchBool, OnOk};
ghost use Rattle.std.specs.Option.{option_map};
ghost use Rattle.console.specs.Links.{has_room, linked_by, linked_in, may_wait, own_text, without};

use crate::orders::Order;
use command_lines::{Call, Reply};
use node_seats::SeatFault;
use std::alloc::{AllocError, Global};
use term::{MOST_LINKS, Pid};

/// The processes that are linked to a console, in the order in which they were. They exit when it ends.
#[derive(Drop)]
pub(crate) struct Links {
    processes: Vec<Pid>,
}

impl Links {
    /// None yet. It takes no memory.
    pub(crate) fn new(alloc: Global) -> Self
        ensures { linked_in result ≡ [] }
    {
        Links {
            processes: Vec::new(alloc),
        }
    }

    /// All of them.
    pub(crate) fn as_slice(&self) -> &[Pid]
        ensures { result.now ≡ linked_in self.now }
    {
        self.processes.as_slice()
    }

    /// The text of the one that was linked last, if there is one.
    pub(crate) fn own_text(&self, alloc: Global) -> Result<Option<String>, AllocError>
        ensures { IfOk result (λ text. option_map string_bytes text ≡ own_text (linked_in self.now)) }
    {
        match self.as_slice().last() {
            Some(process) => Ok(Some(format!(in alloc; "{process}")?)),
            None => Ok(None),
        }
    }

    /// Whether there are as many as there may be.
    pub(crate) fn is_full(&self) -> bool
        ensures { MatchBool result (MOST_LINKS ≤ length (linked_in self.now)) (length (linked_in self.now) < MOST_LINKS) }
    {
        self.processes.len() >= MOST_LINKS
    }

    /// Whether an order may wait, and goes with one of them: its lock call, or a wait, which keeps all of them from their exit.
    pub(crate) fn may_wait(&self, order: &Order) -> bool
        ensures { result ≡ may_wait order.now (linked_in self.now) }
    {
        match order {
            Order::Call(Call::SetLock(holder, ..)) => self.as_slice().contains(holder),
            Order::Wait(_) => !self.processes.is_empty(),
            _ => false,
        }
    }

    /// Makes room for one more. Where it can't nothing changes.
    pub(crate) fn reserve(&mut self) -> Result<(), AllocError>
        ensures same { linked_in self.new ≡ linked_in self.old }
        ensures room { OnOk result (has_room self.new ≡ true) }
    {
        self.processes.reserve(1)?;
        Ok(())
    }

    /// Links the process that this answer to a spawn gives. It takes no memory.
    pub(crate) fn link(&mut self, outcome: &Result<Reply, SeatFault>)
        requires { has_room self.old ≡ true }
        ensures { linked_in self.new ≡ linked_in self.old ++ linked_by outcome.now }
    {
        if let Ok(Reply::Pid(process)) = outcome {
            self.processes.push_reserved(process.copy());
        }
    }

    /// Unlinks a process, which has exited.
    pub(crate) fn unlink(&mut self, process: &Pid)
        ensures { linked_in self.new ≡ without process.now (linked_in self.old) }
    {
        self.processes.retain(|linked| *linked != *process);
    }
}
