//! What lies in a node's inbox.
ghost use Rattle.std.specs.Prelude.{◌≡◌};
ghost use Rattle.node_loop.specs.Items.{is_task};

use node_log::{Letter, LocalEvent};

/// A letter with the stamp of the step that sent it.
#[derive(Debug, PartialEq, Eq, Drop)]
pub struct Stamped {
    /// The stamp of the sender's step.
    pub stamp: u64,
    /// The letter.
    pub letter: Letter,
}

/// Names what a seat asked of its node.
#[derive(Clone, Copy, Debug, PartialEq, Eq)]
pub struct Ticket {
    /// The number of the seat.
    pub seat: u32,
    /// The number of the slot where replies to the seat are laid, as long as it isn't given back.
    pub slot: u32,
    /// The number of what it asked, at that seat.
    pub number: u64,
}

/// An event that a node is asked for: a call, an exit, a leave. A retry is taken as any other.
#[derive(Debug, PartialEq, Eq, Drop)]
pub struct Task {
    /// Who is replied to, if anybody is.
    pub ticket: Option<Ticket>,
    /// The event, at the node that takes it.
    pub event: LocalEvent,
}

/// One item of an inbox, which lies there under the number of its sender's line.
#[derive(Debug, PartialEq, Eq, Drop)]
pub enum Item {
    /// A letter from the sender's core.
    Letter(Stamped),
    /// An event for the node itself.
    Task(Task),
}

impl Item {
    /// Whether it is an event for the node itself.
    pub(crate) fn is_task(&self) -> bool
        ensures { result ≡ is_task self.now }
    {
        matches!(self, Item::Task(_))
    }
}
