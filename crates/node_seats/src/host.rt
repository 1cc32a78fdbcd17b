//! What a node's thread has of the node's seats.
ghost use Rattle.std.specs.Prelude.{◌≡◌, []};
ghost use Rattle.shared_table.specs.Held.{written};
ghost use Rattle.shared_table.specs.Coming.{IsLoopOf};
ghost use Rattle.shared_table.specs.Sound.{LeavesSound};
ghost use Rattle.shared_table.specs.Onward.{ComesFrom};
ghost use Rattle.shared_table.specs.Publishing.{IsAllShown, IsWritten};
ghost use Rattle.node_seats.specs.Replies.{AreHeld};
ghost use Rattle.node_seats.specs.Stops.{is_alone, ends_alone};

use crate::bell::Rest;
use crate::hub::Hub;
use crate::laid::Laid;
use crate::slots::Slots;
use crate::standing::Standing;
use name_table::Names;
use shared_table::{NodeEnd, NodeLoop, Publisher, Record};
use std::alloc::Global;
use std::marker::Model;
use std::sync::{Arc, Wait};
use std::time::Clock;

/// Why the turns of a node's thread ended.
#[derive(Clone, Copy, Debug, PartialEq, Eq)]
pub enum Stop {
    /// All threads were asked to end, and none of its turns failed.
    Asked,
    /// Its last turn failed.
    Failed,
}

impl Stop {
    /// Whether nobody asked for it. A thread that stops so ends alone, unless its node has left.
    pub fn is_alone(self) -> bool
        ensures { result ≡ is_alone self }
    {
        match self {
            Stop::Asked => false,
            Stop::Failed => true,
        }
    }
}

/// By what a node's thread answers those who ask it, tells them how it stands, and sleeps. Contracts see how often it yields at
/// most before it sleeps, and the book of the node.
#[derive(Drop)]
pub struct Host {
    hub: Arc<Hub, Global>,
    standing: Arc<Standing, Global>,
    rest: Rest,
    slots: Slots,
}

impl Model for Host {
    ghost use Rattle.node_seats.specs.Hosts.{Hosting};

    ghost Value = { Hosting };

    ghost view = { λ h. record { yields = h.rest.yields; book = h.slots } };
}

/// Lays the replies of a node's loop down for their callers, and wakes these.
fn lay_all<N: Names<Memory = Global>, L: Record, R: Wait>(
    rt: &R,
    hub: &Hub,
    slots: &mut Slots,
    node: &mut NodeLoop<N, L>,
    publisher: &Publisher,
)
    requires came { IsLoopOf node.old.log.node node.old }
    requires shown { IsAllShown publisher.now }
    requires held { AreHeld publisher.now.known.log node.old.desk.replies }
    requires book { publisher.now.known.book ≡ slots.old }
    ensures same { slots.new ≡ slots.old }
    ensures came { IsLoopOf node.old.log.node node.new }
    ensures comes { ComesFrom node.old node.new }
    ensures all { node.new ≡ record node.old { desk = record node.old.desk { replies = [] } } }
{
    for _ in rt.forever() {
        let Some(reply) = Laid::next(node, publisher) else {
            break;
        };
        let slot = reply.slot();
        slots.lay(rt, reply);
        hub.wake(slot);
    }
}

impl Host {
    /// The host of a node that stands so, whose thread rests so, and replies in these slots.
    pub(crate) fn new(
        hub: Arc<Hub, Global>,
        standing: Arc<Standing, Global>,
        rest: Rest,
        slots: Slots,
    ) -> Self
        ensures { result ≡ record { yields = rest.yields; book = slots } }
    {
        Host {
            hub,
            standing,
            rest,
            slots,
        }
    }

    /// Whether all threads are asked to end. Once they are, they stay so.
    pub fn is_closing(&self) -> bool {
        self.hub.is_closing()
    }

    /// Call it before the first turn of the node, and behind each turn that did something: tells how it stands, and whether it has left.
    pub fn tell<N: Names<Memory = Global>, L: Record>(&self, node: &NodeLoop<N, L>)
        requires { IsLoopOf node.now.log.node node.now }
    {
        self.standing.tell(self.hub.nodes(), node);
        if node.has_left() {
            self.standing.leave(node);
        }
    }

    /// Call it behind each turn of the node, where its readers are shown all, and the moment at which it stands is written down: lays its replies
    /// down for their callers, each with the moments of the node up to then.
    pub fn hand_out<N: Names<Memory = Global>, L: Record, R: Wait>(
        &mut self,
        rt: &R,
        node: &mut NodeLoop<N, L>,
        publisher: &Publisher,
    )
        requires came { IsLoopOf node.old.log.node node.old }
        requires shown { IsAllShown publisher.now }
        requires written { IsWritten node.old publisher.now }
        requires book { publisher.now.known.book ≡ self.old.book }
        ensures same { self.new ≡ self.old }
        ensures came { IsLoopOf node.old.log.node node.new }
        ensures comes { ComesFrom node.old node.new }
        ensures all { node.new ≡ record node.old { desk = record node.old.desk { replies = [] } } }
    {
        lay_all(rt, &*self.hub, &mut self.slots, node, publisher);
    }

    /// Rests where the last turn of the node did nothing, shortly where it has something to try again, or readers weren't shown all. It
    /// may return for no reason.
    pub fn rest<N: Names<Memory = Global>, L: Record, R: Wait + Clock>(
        &mut self,
        rt: &R,
        node: &NodeLoop<N, L>,
        shown: bool,
    )
        ensures { self.new ≡ self.old }
    {
        if node.worked() {
            self.rest.worked();
        } else {
            self.rest.rest(rt, !shown || node.owes());
        }
    }

    /// Waits until the cluster is over, so that the node's table is read until then.
    pub fn stay<R: Wait + Clock>(&mut self, rt: &R)
        ensures { self.new ≡ self.old }
    {
        for _ in rt.forever() {
            if self.hub.is_over() {
                return;
            }
            self.rest.rest(rt, false);
        }
    }

    /// Call it behind the last turn: tells the callers that no reply comes any more, and gives what the thread gives back. It ended
    /// alone where its last turn failed and the node hadn't left, also if all threads were asked to end meanwhile. Where it did the
    /// cluster is over, and all are asked to end: what other nodes ask of this one is never answered.
    pub fn end<N: Names<Memory = Global>, L: Record>(
        &self,
        node: NodeLoop<N, L>,
        stop: Stop,
    ) -> NodeEnd<N, L>
        ensures log { written (L.logged result.log) ≡ node.log }
        ensures table { N.contents result.table ≡ node.core.table }
        ensures ended_alone { result.ended_alone ≡ ends_alone stop node.left }
        ensures sound { LeavesSound node (written (L.logged result.log)) (N.contents result.table) }
    {
        let ended_alone = stop.is_alone() && !node.has_left();
        self.standing.end();
        if ended_alone {
            self.hub.close();
        } else {
            self.hub.ring();
        }
        node.into_end(ended_alone)
    }
}
