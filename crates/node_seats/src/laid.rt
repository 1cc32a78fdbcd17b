//! Replies on their way from a node's thread to a caller.
ghost use Rattle.std.specs.Prelude.{◌≡◌, [], IfSome, MatchOption};
ghost use Rattle.shared_table.specs.Coming.{IsLoopOf};
ghost use Rattle.shared_table.specs.Onward.{ComesFrom};
ghost use Rattle.shared_table.specs.Publishing.{IsAllShown};
ghost use Rattle.node_seats.specs.Replies.{AreHeld, IsHeld, is_late, later_of};

use name_table::Names;
use shared_table::{
    Booked, Effect, NodeLoop, Publisher, Record, TaskFault, TaskReply, Ticket, Token,
};
use std::alloc::Global;
use std::marker::Model;

/// A reply that the loop of a node told, behind what its readers were shown, and the moments of the node up to then. Contracts see all of it.
#[derive(Drop)]
pub(crate) struct Laid {
    ticket: Ticket,
    /// There is none in what a slot is opened with.
    outcome: Option<Result<Effect, TaskFault>>,
    seen: Token,
    /// How many moments these are.
    count: u64,
    /// The length of the node's log up to which its readers were shown all then.
    length: u64,
}

/// What the owner of a ticket is told, with the moments of the node up to then.
#[derive(Drop)]
pub(crate) struct Heard {
    pub(crate) outcome: Result<Effect, TaskFault>,
    pub(crate) seen: Token,
    pub(crate) count: u64,
    pub(crate) length: u64,
}

impl Model for Laid {
    ghost use Rattle.node_seats.specs.Replies.{Lying, IsLaid};

    ghost Value = { Lying };

    ghost view = { λ l. record { ticket = l.ticket; outcome = l.outcome; seen = l.seen; count = l.count; long = l.length } };

    ghost invariant = { λ l. IsLaid l.ticket l.outcome l.seen.log l.count l.length };
}

impl Booked for Laid {
    ghost token = { λ l. l.seen };
}

impl Laid {
    /// What a slot of the node with this book is opened with. It is to nobody.
    pub(crate) fn blank(origin: Token) -> Self
        ensures { result.seen ≡ origin }
    {
        Laid {
            ticket: Ticket {
                seat: 0,
                slot: 0,
                number: 0,
            },
            outcome: None,
            seen: origin,
            count: 0,
            length: 0,
        }
    }

    /// The oldest reply of a node's loop, which is taken off its list. This publisher has written down the moment at which the loop held it, and
    /// shown readers all that the node showed then.
    pub(crate) fn next<N: Names<Memory = Global>, L: Record>(
        node: &mut NodeLoop<N, L>,
        publisher: &Publisher,
    ) -> Option<Self>
        requires came { IsLoopOf node.old.log.node node.old }
        requires shown { IsAllShown publisher.now }
        requires held { AreHeld publisher.now.known.log node.old.desk.replies }
        ensures came { IsLoopOf node.old.log.node node.new }
        ensures comes { ComesFrom node.old node.new }
        ensures rest { node.new ≡ record node.old { desk = record node.old.desk { replies = node.new.desk.replies } } }
        ensures none { MatchOption result (node.new.desk.replies ≡ []) (λ _. Unit {0}) }
        ensures held { AreHeld publisher.now.known.log node.new.desk.replies }
        ensures book { IfSome result (λ laid. laid.seen.book ≡ publisher.now.known.book) }
    {
        let reply = node.next_reply()?;
        let TaskReply { ticket, outcome } = reply;
        Some(Laid {
            ticket,
            outcome: Some(outcome),
            seen: publisher.token(),
            count: publisher.count(),
            length: publisher.shown_length(),
        })
    }

    /// The number of the slot where it is to be laid.
    pub(crate) fn slot(&self) -> u32
        ensures { result ≡ self.now.ticket.slot }
    {
        self.ticket.slot
    }

    /// Whether it is to an earlier ticket than the reply that lies in their slot: that seat has been given back, and this reply comes too
    /// late.
    fn comes_late(&self, lying: &Laid) -> bool
        ensures { result ≡ is_late self.now lying.now }
    {
        let (own, other) = (&self.ticket, &lying.ticket);
        own.seat < other.seat || (own.seat == other.seat && own.number < other.number)
    }

    /// The one that is to stay of this reply and of what lay in its slot, if anything did: this one, unless it comes too late.
    pub(crate) fn or_later(self, lying: Option<Laid>) -> Self
        ensures { result ≡ later_of self lying }
    {
        let Some(lying) = lying else {
            return self;
        };
        if self.comes_late(&lying) { lying } else { self }
    }

    /// What it says to the owner of this ticket. Any other is one to an earlier owner of its slot, or to nobody.
    #[tactic(auto, using(crate::proofs::Telling::laid_to))]
    pub(crate) fn heard_by(self, ticket: Ticket) -> Option<Heard>
        ensures held { IfSome result (λ heard. IsHeld (record { ticket = ticket; outcome = heard.outcome }) heard.seen.log heard.count heard.length) }
        ensures seen { IfSome result (λ heard. heard.seen ≡ self.seen) }
    {
        let Laid {
            ticket: own,
            outcome,
            seen,
            count,
            length,
        } = self;
        let outcome = outcome?;
        if own != ticket {
            return None;
        }
        Some(Heard {
            outcome,
            seen,
            count,
            length,
        })
    }
}
