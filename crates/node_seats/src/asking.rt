//! What a caller asks its node for: calls, exits and leaves.
ghost use Rattle.std.specs.Prelude.{◌≡◌, ◌++◌, ◌∷◌, [], false, IfOk, OnOk, IfErr, Ok, Err};
ghost use Rattle.shared_table.specs.Events.{knows_contact as knows};
ghost use Rattle.shared_table.specs.NodeEventsSeen.{answer_of};
ghost use Rattle.shared_table.specs.declared.LocalEvent.TheVariants.{Call as Calls, Exit, Leave};
ghost use Rattle.shared_table.specs.declared.Effect.TheVariants.{Answered, Made, Left};
ghost use Rattle.node_seats.specs.Callers.{name_of, inbox_of, place_of, nodes_of, asked_by, seen_of, ticket_of, task_for, Puts, Learns};
ghost use Rattle.node_seats.specs.declared.fault.SeatFault.TheVariants.{NoSuchNode};
ghost use Rattle.node_seats.specs.Faults.{IsAskRefused, MayAsk};
ghost use Rattle.node_seats.specs.Fences.{HasLogged};
ghost use Rattle.node_seats.specs.Replies.{IsToldTo, IsFaultTold, HasLeft};

use crate::caller::Caller;
use crate::fault::SeatFault;
use shared_table::{Answer, Call, Effect, LocalEvent};
use std::sync::Wait;
use std::time::Clock;
use term::Pid;

/// An answer to a call.
#[derive(Debug, Drop)]
pub(crate) struct Given {
    /// The stamp of the step that gave it.
    pub(crate) stamp: u64,
    pub(crate) answer: Answer,
}

impl Caller {
    /// Asks for a call, and gives its answer, which stands in the node's log. It is refused as `ask` is.
    pub(crate) fn call<R: Wait + Clock>(&mut self, rt: &R, call: Call) -> Result<Given, SeatFault>
        ensures place { place_of self.new ≡ place_of self.old }
        ensures node { name_of self.new ≡ name_of self.old }
        ensures inbox { inbox_of self.new ≡ inbox_of self.old }
        ensures nodes { nodes_of self.new ≡ nodes_of self.old }
        ensures stranger { knows (nodes_of self.old) (Calls call) ≡ false → result ≡ Err NoSuchNode }
        ensures known { IfErr result (λ fault. IsAskRefused fault (knows (nodes_of self.old) (Calls call))) }
        ensures asked { OnOk result (asked_by self.new ≡ asked_by self.old ++ Calls call ∷ []) }
        ensures unanswered { IfErr result (λ fault. MayAsk fault (Calls call) (asked_by self.old) (asked_by self.new)) }
        ensures told { IfOk result (λ given. IsToldTo (name_of self.old) (ticket_of self.old) (Ok (Answered given.stamp given.answer)) (seen_of self.new)) }
        ensures logged { IfOk result (λ given. HasLogged (name_of self.old) given.stamp (answer_of given.answer)) }
        ensures refused { IfErr result (λ fault. IsFaultTold (name_of self.old) (ticket_of self.old) fault (seen_of self.new)) }
        ensures learns { Learns (seen_of self.old) (seen_of self.new) }
    {
        match self.ask(rt, LocalEvent::Call(call))? {
            Effect::Answered(stamp, answer) => Ok(Given { stamp, answer }),
            // No call comes to anything else.
            _ => Err(SeatFault::Closed),
        }
    }

    /// Asks for the exit of a process, and waits until it was made. It is refused as `ask` is.
    pub(crate) fn exit<R: Wait + Clock>(&mut self, rt: &R, process: &Pid) -> Result<(), SeatFault>
        ensures place { place_of self.new ≡ place_of self.old }
        ensures node { name_of self.new ≡ name_of self.old }
        ensures inbox { inbox_of self.new ≡ inbox_of self.old }
        ensures nodes { nodes_of self.new ≡ nodes_of self.old }
        ensures asked { OnOk result (asked_by self.new ≡ asked_by self.old ++ Exit process.now ∷ []) }
        ensures unanswered { IfErr result (λ fault. MayAsk fault (Exit process.now) (asked_by self.old) (asked_by self.new)) }
        ensures told { OnOk result (IsToldTo (name_of self.old) (ticket_of self.old) (Ok Made) (seen_of self.new)) }
        ensures refused { IfErr result (λ fault. IsFaultTold (name_of self.old) (ticket_of self.old) fault (seen_of self.new)) }
        ensures learns { Learns (seen_of self.old) (seen_of self.new) }
    {
        match self.ask(rt, LocalEvent::Exit(process.copy()))? {
            Effect::Made => Ok(()),
            // No exit comes to anything else.
            _ => Err(SeatFault::Closed),
        }
    }

    /// Asks the node to leave, and waits until it has, as its log then says. It is refused as `ask` is.
    pub fn leave<R: Wait + Clock>(&mut self, rt: &R) -> Result<(), SeatFault>
        ensures place { place_of self.new ≡ place_of self.old }
        ensures node { name_of self.new ≡ name_of self.old }
        ensures inbox { inbox_of self.new ≡ inbox_of self.old }
        ensures nodes { nodes_of self.new ≡ nodes_of self.old }
        ensures put { OnOk result (Puts (task_for self.old Leave) self.old self.new) }
        ensures asked { OnOk result (asked_by self.new ≡ asked_by self.old ++ Leave ∷ []) }
        ensures unanswered { IfErr result (λ fault. MayAsk fault Leave (asked_by self.old) (asked_by self.new)) }
        ensures told { OnOk result (IsToldTo (name_of self.old) (ticket_of self.old) (Ok Left) (seen_of self.new)) }
        ensures left { OnOk result (HasLeft (name_of self.old)) }
        ensures refused { IfErr result (λ fault. IsFaultTold (name_of self.old) (ticket_of self.old) fault (seen_of self.new)) }
        ensures learns { Learns (seen_of self.old) (seen_of self.new) }
    {
        match self.ask(rt, LocalEvent::Leave)? {
            Effect::Left => Ok(()),
            // No leave comes to anything else.
            _ => Err(SeatFault::Closed),
        }
    }
}
