//! Why a seat isn't made, or what it asks isn't done.
ghost use Rattle.std.specs.Prelude.{◌≡◌, Some};
ghost use Rattle.node_seats.specs.Faults.{fault_by, seat_word};

use shared_table::{StepFault, TaskFault};
use std::alloc::AllocError;
use std::fmt;
use thiserror::Error;

/// Why a seat isn't made, or what it asks isn't done.
#[derive(Debug, PartialEq, Eq, Error, Drop)]
pub enum SeatFault {
    /// The node, or the contact of a join, isn't of this cluster.
    NoSuchNode,
    /// The node has left.
    NodeLeft,
    /// The node's thread ended without a leave, another's ended so and with it the cluster, the cluster was closed, the numbers of the
    /// seat's calls are spent, or whoever a call was made for went while it waited.
    Closed,
    /// The cluster has 64 seats that weren't given back, or no number for one more.
    SeatsSpent,
    /// The node refused the event.
    Step(StepFault),
    /// Memory was refused: before anything was asked, and nothing else stood against it, or for the copy of a reply that is a list of
    /// names or notices.
    Memory,
}

impl SeatFault {
    /// The word for it: lines tell of a refusal by it, and its own text is no other.
    pub fn word(&self) -> &'static str
        ensures { result.now ≡ seat_word self.now }
    {
        match self {
            SeatFault::NoSuchNode => "no_such_node",
            SeatFault::NodeLeft => "node_left",
            SeatFault::Closed => "closed",
            SeatFault::SeatsSpent => "seats_spent",
            SeatFault::Step(fault) => fault.word(),
            SeatFault::Memory => "memory",
        }
    }
}

impl fmt::Display for SeatFault {
    ghost output = { λ f. Some (seat_word f) };

    fn fmt<W: fmt::Write>(&self, f: &mut fmt::Formatter<W>) -> fmt::Result {
        f.write_str(self.word())
    }
}

impl From<TaskFault> for SeatFault {
    ghost from_gives = { λ cause fault. fault ≡ fault_by cause };

    fn from(fault: TaskFault) -> SeatFault {
        match fault {
            TaskFault::NoSuchNode => SeatFault::NoSuchNode,
            TaskFault::NodeLeft => SeatFault::NodeLeft,
            TaskFault::Step(fault) => SeatFault::Step(fault),
        }
    }
}

impl From<AllocError> for SeatFault {
    ghost use Rattle.node_seats.specs.declared.fault.SeatFault.{SeatFault};

    ghost from_gives = { λ _ fault. fault ≡ SeatFault.Memory };

    fn from(_: AllocError) -> SeatFault {
        SeatFault::Memory
    }
}
