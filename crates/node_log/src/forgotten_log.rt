//! A log of which no step is kept.
ghost use Rattle.std.specs.Prelude.{◌≡◌, ◌∷◌, ◌++◌, [], true};
ghost use Rattle.node_log.specs.Entries.{event_at};
ghost use Rattle.node_log.specs.Forgotten.{step_of};

use crate::entry::OwnEvent;
use crate::record::Record;
use past::Trace as History;
use std::alloc::{AllocError, Global};
use std::marker::Model;
use term::{Node, NodeSet};
use world_events::{Answer, WorldEvent};

/// The step that was put last, which may still be answered.
#[derive(Debug, Drop)]
pub(crate) struct LastStep {
    pub(crate) stamp: u64,
    pub(crate) seat: Option<u32>,
    pub(crate) event: OwnEvent,
    pub(crate) answers: Vec<Answer>,
}

/// A record of a node's steps that keeps the last one alone, and how many there were: so it takes no more memory the longer a node runs.
/// Contracts see all steps, as they do of a log.
#[derive(Drop)]
pub struct ForgottenLog {
    node: Node,
    alloc: Global,
    count: u64,
    last: Option<LastStep>,
    /// Those before the last.
    before: History<LastStep, ()>,
}

impl Model for ForgottenLog {
    ghost use Rattle.std.specs.Prelude.{◌≡◌, nat_lt, length};
    ghost use Rattle.node_log.specs.Entries.{Logged};
    ghost use Rattle.node_log.specs.Forgotten.{most_steps, steps_of};

    ghost Value = { Logged };

    ghost view = { λ l. record {
      node = l.node;
      entries = steps_of l.node l.before.items l.last;
      has_room = nat_lt l.count most_steps;
    } };

    ghost invariant = { λ l. l.count ≡ length (steps_of l.node l.before.items l.last) };
}

impl ForgottenLog {
    /// Puts a step at the end.
    #[tactic(auto, using(crate::proofs::Forgotten::pushed))]
    fn push(&mut self, step: LastStep)
        requires { self.old.has_room ≡ true }
        ensures node { self.new.node ≡ self.old.node }
        ensures entries { self.new.entries ≡ self.old.entries ++ step_of self.old.node step ∷ [] }
    {
        self.before = match &self.last {
            Some(last) => self.before.and(last, &()),
            None => History::new(),
        };
        self.count += 1;
        self.last = Some(step);
    }

    /// Puts a step at the end that has no answers yet.
    fn put_own(&mut self, stamp: u64, seat: Option<u32>, event: OwnEvent)
        requires { self.old.has_room ≡ true }
        ensures node { self.new.node ≡ self.old.node }
        ensures entries { self.new.entries ≡ self.old.entries ++ record { stamp = stamp; seat = seat; event = event_at self.old.node event; answers = [] } ∷ [] }
    {
        let answers = Vec::new(self.alloc);
        self.push(LastStep {
            stamp,
            seat,
            event,
            answers,
        });
    }
}

impl Record for ForgottenLog {
    ghost logged = { λ l. l };

    fn new(alloc: Global, node: Node, _world: &NodeSet) -> Self {
        ForgottenLog {
            node,
            alloc,
            count: 0,
            last: None,
            before: History::new(),
        }
    }

    fn node(&self) -> &Node {
        &self.node
    }

    fn count(&self) -> u64 {
        self.count
    }

    fn reserve(&mut self) -> Result<(), AllocError> {
        if self.count == u64::MAX {
            return Err(AllocError);
        }
        Ok(())
    }

    fn put(&mut self, stamp: u64, seat: Option<u32>, event: WorldEvent) {
        self.put_own(stamp, seat, OwnEvent::Other(event));
    }

    fn put_delivery(&mut self, stamp: u64, sender: &Node) {
        self.put_own(stamp, None, OwnEvent::Delivery(sender.copy()));
    }

    fn answer(&mut self, answers: Vec<Answer>) {
        if let Some(last) = &mut self.last {
            last.answers = answers;
        }
    }
}
