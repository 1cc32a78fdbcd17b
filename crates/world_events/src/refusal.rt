//! Why an event is refused.
ghost use Rattle.std.specs.Prelude.{◌≡◌, Some};
ghost use Rattle.world_events.specs.declared.refusal.Refusal.{Refusal};
ghost use Rattle.node_events.specs.Words.{word_for};
ghost use Rattle.world_events.specs.Refusals.{out_of_memory, refusal_of};

use node_events::StepFault;
use std::alloc::AllocError;
use std::fmt;
use term::Node;
use thiserror::Error;

/// Why an event is refused, in the order in which the causes are looked for.
#[derive(Clone, Debug, PartialEq, Eq, Error, Drop)]
pub enum Refusal {
    /// A node of the event isn't of this world.
    NoSuchNode,
    /// The node of the event, or the receiver of a delivery, has left.
    NodeLeft,
    /// Nothing is on the link.
    EmptyLink,
    /// The present node of the name that is to come back hasn't left.
    StillRunning,
    /// It has left, and a running node, of which this is the least, wasn't told so yet.
    NotToldYet(Node),
    /// It was the last node that this name can have.
    CreationsSpent,
    /// The node doesn't take the step; or memory was refused, there, on the links or for the history. Either way nothing has
    /// happened, and where memory was refused the event may be played again later.
    Step(StepFault),
}

impl Refusal {
    /// The word for it: lines tell of a refusal by it, and its own text is no other.
    pub fn word(&self) -> &'static str
        ensures { result.now ≡ word_for (refusal_of self.now) }
    {
        match self {
            Refusal::NoSuchNode => "no_such_node",
            Refusal::NodeLeft => "node_left",
            Refusal::EmptyLink => "empty_link",
            Refusal::StillRunning => "still_running",
            Refusal::NotToldYet(_) => "not_told_yet",
            Refusal::CreationsSpent => "creations_spent",
            Refusal::Step(fault) => fault.word(),
        }
    }
}

impl fmt::Display for Refusal {
    ghost output = { λ r. Some (word_for (refusal_of r)) };

    fn fmt<W: fmt::Write>(&self, f: &mut fmt::Formatter<W>) -> fmt::Result {
        f.write_str(self.word())
    }
}

impl From<AllocError> for Refusal {
    ghost from_gives = { λ _ refusal. refusal ≡ out_of_memory };

    fn from(_: AllocError) -> Refusal {
        Refusal::Step(StepFault::Memory)
    }
}

impl From<StepFault> for Refusal {
    ghost from_gives = { λ fault refusal. refusal ≡ Refusal.Step fault };

    fn from(fault: StepFault) -> Refusal {
        Refusal::Step(fault)
    }
}
