//! What a node takes a step for.
ghost use Rattle.std.specs.Prelude.{◌≡◌};
ghost use Rattle.node_events.specs.Causes.{event_by};

use crate::events::{Call, Event, Letter};
use term::{Node, Pid};

/// What a node takes a step for. What may take memory to copy is lent.
#[derive(Clone, Copy, Debug)]
pub enum Cause<'a> {
    /// A client calls.
    Call(&'a Call),
    /// A letter from a node is read.
    FromPeer(&'a Node, &'a Letter),
    /// Refused rounds are tried again.
    Retry,
    /// A process of the node dies.
    Exit(&'a Pid),
    /// The node leaves.
    Leave,
}

impl<'a> Cause<'a> {
    /// An event, lent.
    pub fn of(event: &'a Event) -> Self
        ensures { event_by result ≡ event.now }
    {
        match event {
            Event::Call(call) => Cause::Call(call),
            Event::FromPeer(from, letter) => Cause::FromPeer(from, letter),
            Event::Retry => Cause::Retry,
            Event::Exit(process) => Cause::Exit(process),
            Event::Leave => Cause::Leave,
        }
    }
}
