//! How a thread asks a node's thread.
ghost use Rattle.std.specs.Prelude.{◌≡◌, ◌<◌, ◌≤◌, ◌+◌, ◌^◌, ◌++◌, ◌∷◌, ◌⊎◌, [], length, max, true, false, IfOk, OnOk, OnErr, IfErr, IfSome, IfNone, Ok, Err};
ghost use Rattle.shared_table.specs.Readers.{Finds, unseen};
ghost use Rattle.shared_table.specs.Events.{knows_contact as knows};
ghost use Rattle.shared_table.specs.declared.LocalEvent.TheVariants.{Call as Calls};
ghost use Rattle.node_seats.specs.Addresses.{inbox_at};
ghost use Rattle.node_seats.specs.Lines.{event_in, events_on};
ghost use Rattle.node_seats.specs.declared.fault.SeatFault.TheVariants.{NoSuchNode};
ghost use Rattle.node_seats.specs.Faults.{told_as, IsAskRefused, MayAsk, IsUnmade, unmade};
ghost use Rattle.node_seats.specs.Replies.{IsToldTo, IsFaultTold, HasShown};

use crate::address::Address;
use crate::bell::Rest;
use crate::fault::SeatFault;
use crate::hub::Hub;
use crate::inbox_line::InboxLine;
use crate::knowledge::Knowledge;
use crate::laid::Heard;
use crate::place::Place;
use crate::slots::Slot;
use crate::standing::Standing;
use crate::told::NodeStatus;
use shared_table::{
    Call, Effect, Item, LocalEvent, Lookup, TableReader, Task, TaskFault, Ticket, Token,
};
use std::alloc::{AllocError, Global};
use std::sync::{Arc, Wait};
use std::time::Clock;
use term::{Name, Node, NodeSet, Pid, SLOTS};

/// Asks the thread of one node, one event after another, and waits for each reply; and looks names up in the node's table. Contracts see
/// the node, its place among the seats, the nodes of the cluster, the events that it has put into the node's inbox, and the book of the node
/// with the moments of it that it knows: it read them, or a reply told of them.
#[derive(Drop)]
pub struct Caller {
    /// Which seat's it is, or which of the cluster's own, and the slot of its replies.
    place: Place,
    node: Node,
    line: InboxLine<Item>,
    /// The number of its next event: how many it has asked for.
    next: u64,
    hub: Arc<Hub, Global>,
    standing: Arc<Standing, Global>,
    /// It was told of a length only behind which the node had shown its table.
    reader: TableReader,
    /// Where it finds its replies.
    replies: Slot,
    rest: Rest,
    ghost shown: { HasShown node reader.seen.told },
    ghost own: { reader.node ≡ node },
    ghost same: { replies.book ≡ reader.seen.known.book },
    ghost counted: { next ≡ length (events_on line) },
}

/// What a caller is told of an event whose contact is of the cluster. Its node has the same nodes, and calls none of them a stranger.
fn known_outcome(outcome: Result<Effect, SeatFault>) -> Result<Effect, SeatFault>
    ensures told { result ≡ told_as outcome }
    ensures known { IfErr result (λ fault. IsAskRefused fault true) }
{
    match outcome {
        Err(SeatFault::NoSuchNode) => Err(SeatFault::Closed),
        told => told,
    }
}

/// Why nothing is asked for what there is no memory to make: what the caller has against it comes first.
fn unmade(cause: Option<SeatFault>) -> SeatFault
    ensures { result ≡ unmade cause }
{
    match cause {
        Some(cause) => cause,
        None => SeatFault::Memory,
    }
}

impl Caller {
    ghost use Rattle.node_seats.specs.Callers.{name_of, inbox_of, place_of, nodes_of, nodes_at, asked_by, seen_of, told_of, ticket_of, task_for, Numbers, Puts, PutsNothing, Offers, IsEnd, MayPut, Learns};
    ghost use Rattle.node_seats.specs.Seats.{Looked};

    /// One that asks the node of this address, which stands so, reads its table by this reader, and finds its replies in the slot of this
    /// place at that node.
    pub(crate) fn new(
        hub: &Arc<Hub, Global>,
        standing: &Arc<Standing, Global>,
        address: &mut Address<Item>,
        reader: TableReader,
        place: Place,
        yields: u32,
    ) -> Result<Self, AllocError>
        requires slot { place.slot < SLOTS }
        requires reader { reader ≡ record { node = address.old.node; seen = unseen address.old.book } }
        ensures place { IfOk result (λ caller. place_of caller ≡ place) }
        ensures node { IfOk result (λ caller. name_of caller ≡ address.old.node) }
        ensures nodes { IfOk result (λ caller. nodes_of caller ≡ nodes_at hub.now.value) }
        ensures unasked { IfOk result (λ caller. asked_by caller ≡ []) }
        ensures unread { IfOk result (λ caller. seen_of caller ≡ unseen address.old.book) }
        ensures address { OnOk result (address.new ≡ record address.old { lines = address.old.lines + 1 }) }
        ensures same { address.new.node ≡ address.old.node }
        ensures inbox { IfOk result (λ caller. inbox_of caller ≡ inbox_at address.old) }
        ensures room { address.new.room ≡ address.old.room }
        ensures book { address.new.book ≡ address.old.book }
    {
        let rest = hub.rest(place.slot, yields)?;
        let hub = Arc::try_clone(hub)?;
        let standing = Arc::try_clone(standing)?;
        let replies = address.slot(place.slot)?;
        let line = address.line()?;
        Ok(Caller {
            place,
            node: line.receiver().copy(),
            line,
            next: 0,
            hub,
            standing,
            reader,
            replies,
            rest,
        })
    }

    /// One more that asks the same node, at its address, and finds its replies in this place's slot of this hub. `AllocError`: memory was
    /// refused, or each reader of the node's table is lent.
    pub fn another(
        &mut self,
        hub: &Arc<Hub, Global>,
        address: &mut Address<Item>,
        place: Place,
        yields: u32,
    ) -> Result<Self, AllocError>
        requires slot { place.slot < SLOTS }
        requires own { inbox_of self.old ≡ inbox_at address.old }
        ensures own { inbox_of self.new ≡ inbox_of self.old }
        ensures place { IfOk result (λ caller. place_of caller ≡ place) }
        ensures node { IfOk result (λ caller. name_of caller ≡ address.old.node) }
        ensures nodes { IfOk result (λ caller. nodes_of caller ≡ nodes_at hub.now.value) }
        ensures unasked { IfOk result (λ caller. asked_by caller ≡ []) }
        ensures unread { IfOk result (λ caller. seen_of caller ≡ unseen address.old.book) }
        ensures address { OnOk result (address.new ≡ record address.old { lines = address.old.lines + 1 }) }
        ensures same { address.new.node ≡ address.old.node }
        ensures inbox { IfOk result (λ caller. inbox_of caller ≡ inbox_at address.old) }
        ensures room { address.new.room ≡ address.old.room }
        ensures book { address.new.book ≡ address.old.book }
    {
        let reader = self.reader.another()?;
        Caller::new(hub, &self.standing, address, reader, place, yields)
    }

    /// The node that it asks.
    pub(crate) fn node(&self) -> &Node
        ensures { result.now ≡ name_of self.now }
    {
        &self.node
    }

    /// The nodes of its cluster.
    pub(crate) fn nodes(&self) -> &NodeSet
        ensures { result.now ≡ nodes_of self.now }
    {
        self.hub.nodes()
    }

    /// Which seat's it is, and the slot of its replies.
    pub(crate) fn place(&self) -> Place
        ensures { result ≡ place_of self.now }
    {
        self.place
    }

    /// The moments of its node that it knows.
    pub(crate) fn token(&self) -> Token
        ensures book { result.book ≡ (seen_of self.now).known.book }
        ensures log { result.log ≡ (seen_of self.now).known.log }
    {
        self.reader.token()
    }

    /// How long the log of its node was when it was told of it last, or has read.
    pub(crate) fn told(&self) -> u64
        ensures told { result ≡ told_of self.now }
        ensures shown { HasShown (name_of self.now) (told_of self.now) }
    {
        self.reader.told()
    }

    /// It knows from now on how long a log of its node somebody else knows of.
    pub(crate) fn learn(&mut self, known: &Knowledge)
        requires { known.now.node ≡ name_of self.old }
        ensures place { place_of self.new ≡ place_of self.old }
        ensures node { name_of self.new ≡ name_of self.old }
        ensures nodes { nodes_of self.new ≡ nodes_of self.old }
        ensures line { self.new.line ≡ self.old.line }
        ensures seen { seen_of self.new ≡ record (seen_of self.old) { told = max (told_of self.old) known.now.told } }
    {
        self.reader.learn(known.told());
    }

    /// Asks for an event, once, waits until the node has taken it, or refused it, and gives what came of it. A contact that isn't of the
    /// cluster is refused at once, also where the node has left. What came of it, and what the node refuses, its loop told this caller for
    /// this event; where no reply comes any more the event may have been asked for. Its number is above those of all that the caller put
    /// before, since numbers never fall, and rise behind each event that is put.
    pub fn ask<R: Wait + Clock>(&mut self, rt: &R, event: LocalEvent) -> Result<Effect, SeatFault>
        ensures place { place_of self.new ≡ place_of self.old }
        ensures node { name_of self.new ≡ name_of self.old }
        ensures nodes { nodes_of self.new ≡ nodes_of self.old }
        ensures stranger { knows (nodes_of self.old) event ≡ false → result ≡ Err NoSuchNode }
        ensures known { IfErr result (λ fault. IsAskRefused fault (knows (nodes_of self.old) event)) }
        ensures asked { OnOk result (asked_by self.new ≡ asked_by self.old ++ event ∷ []) }
        ensures unanswered { IfErr result (λ fault. MayAsk fault event (asked_by self.old) (asked_by self.new)) }
        ensures put { OnOk result (Puts (task_for self.old event) self.old self.new) }
        ensures inbox { inbox_of self.new ≡ inbox_of self.old }
        ensures numbered { OnOk result (Numbers self.old self.new) }
        ensures kept { OnErr result ((self.new.line ≡ self.old.line) ⊎ Numbers self.old self.new) }
        ensures rises { self.old.next ≤ self.new.next }
        ensures told { IfOk result (λ effect. IsToldTo (name_of self.old) (ticket_of self.old) (Ok effect) (seen_of self.new)) }
        ensures refused { IfErr result (λ fault. IsFaultTold (name_of self.old) (ticket_of self.old) fault (seen_of self.new)) }
        ensures learns { Learns (seen_of self.old) (seen_of self.new) }
    {
        if !event.knows_contact(self.hub.nodes()) {
            return Err(SeatFault::NoSuchNode);
        }
        known_outcome(self.ask_node(rt, event))
    }

    /// Asks the node for an event, whose contact is of the cluster.
    fn ask_node<R: Wait + Clock>(&mut self, rt: &R, event: LocalEvent) -> Result<Effect, SeatFault>
        ensures place { place_of self.new ≡ place_of self.old }
        ensures node { name_of self.new ≡ name_of self.old }
        ensures nodes { nodes_of self.new ≡ nodes_of self.old }
        ensures asked { OnOk result (Puts (task_for self.old event) self.old self.new) }
        ensures unanswered { IfErr result (λ fault. MayPut fault (task_for self.old event) self.old self.new) }
        ensures inbox { inbox_of self.new ≡ inbox_of self.old }
        ensures numbered { OnOk result (Numbers self.old self.new) }
        ensures kept { OnErr result ((self.new.line ≡ self.old.line) ⊎ Numbers self.old self.new) }
        ensures rises { self.old.next ≤ self.new.next }
        ensures told { IfOk result (λ effect. IsToldTo (name_of self.old) (ticket_of self.old) (Ok effect) (seen_of self.new)) }
        ensures refused { IfErr result (λ fault. IsFaultTold (name_of self.old) (ticket_of self.old) fault (seen_of self.new)) }
        ensures learns { Learns (seen_of self.old) (seen_of self.new) }
    {
        let number = self.next;
        if number == u64::MAX {
            return Err(SeatFault::Closed);
        }
        let Place { seat, slot } = self.place;
        let ticket = Ticket { seat, slot, number };
        let task = Task {
            ticket: Some(ticket),
            event,
        };
        self.send(rt, Item::Task(task))?;
        self.outcome(rt, ticket)
    }

    /// Looks a name up in the table that the node's thread published last. It asks the node for nothing, and waits for nobody. `NodeLeft`:
    /// the node has left. `Closed`: the cluster was closed.
    pub(crate) fn look_up(&mut self, name: &Name) -> Result<Option<Pid>, SeatFault>
        ensures place { place_of self.new ≡ place_of self.old }
        ensures node { name_of self.new ≡ name_of self.old }
        ensures nodes { nodes_of self.new ≡ nodes_of self.old }
        ensures line { self.new.line ≡ self.old.line }
        ensures finds { Looked result (name_of self.old) name.now (seen_of self.old) (seen_of self.new) }
    {
        if self.hub.is_over() {
            return Err(SeatFault::Closed);
        }
        match self.read(name) {
            Lookup::Owner(owner) => Ok(owner),
            Lookup::Left => Err(SeatFault::NodeLeft),
            // No thread tells of what it hasn't published: so the table is never behind what was told.
            Lookup::Behind | Lookup::Gone => Err(SeatFault::Closed),
        }
    }

    /// Reads a name in the node's table.
    fn read(&mut self, name: &Name) -> Lookup
        ensures place { place_of self.new ≡ place_of self.old }
        ensures node { name_of self.new ≡ name_of self.old }
        ensures nodes { nodes_of self.new ≡ nodes_of self.old }
        ensures line { self.new.line ≡ self.old.line }
        ensures finds { Finds result (name_of self.old) name.now (seen_of self.old) (seen_of self.new) }
    {
        self.reader.whereis(name)
    }

    /// How the node stands, as its thread told last. It asks the node for nothing, and waits for nobody. `NodeLeft`: the node has left.
    /// `Closed`: its thread has ended, or the cluster was closed.
    pub fn status(&self) -> Result<NodeStatus, SeatFault>
        ensures node { IfOk result (λ status. status.node ≡ name_of self.now) }
        ensures ended { IfErr result IsEnd }
    {
        match self.refusal() {
            Some(fault) => Err(fault),
            None => Ok(self.standing.status(&self.node, self.hub.nodes())),
        }
    }

    /// Whether the contact of a call is of the cluster, if it has one.
    fn knows(&self, call: &Call) -> bool
        ensures { result ≡ knows (nodes_of self.now) (Calls call.now) }
    {
        match call {
            Call::Join(contact) => self.hub.nodes().reaches(contact),
            _ => true,
        }
    }

    /// Why an event isn't asked for that there was no memory to make, where its contact is of the cluster, if it has one: no reply comes
    /// any more, or else memory alone was refused.
    pub(crate) fn unmade(&self) -> SeatFault
        ensures { IsUnmade result true }
    {
        unmade(self.refusal())
    }

    /// The same of a call, whose contact may be a stranger.
    pub(crate) fn unmade_call(&self, call: &Call) -> SeatFault
        ensures { IsUnmade result (knows (nodes_of self.now) (Calls call.now)) }
    {
        if self.knows(call) {
            self.unmade()
        } else {
            SeatFault::NoSuchNode
        }
    }

    /// Asks all threads of the cluster to end, and wakes this node's and all callers. Nobody reads a table any more.
    pub fn stop(&self) {
        self.hub.end();
        self.line.ring();
    }

    /// Why the node is asked for nothing any more: it has left, also where its thread goes on, or no reply comes any more.
    fn refusal(&self) -> Option<SeatFault>
        ensures { IfSome result IsEnd }
    {
        if self.standing.has_left() {
            return Some(SeatFault::NodeLeft);
        }
        self.end()
    }

    /// Why no reply comes any more, if none does.
    fn end(&self) -> Option<SeatFault>
        ensures { IfSome result IsEnd }
    {
        if self.standing.has_ended() {
            Some(if self.standing.has_left() {
                SeatFault::NodeLeft
            } else {
                SeatFault::Closed
            })
        } else if self.hub.is_closing() {
            Some(SeatFault::Closed)
        } else {
            None
        }
    }

    /// Sends a task, under the next number, or hands it back where there is no room for it yet.
    fn offer<R: Wait>(&mut self, rt: &R, item: Item) -> Result<Option<Item>, SeatFault>
        requires task { length (event_in item) ≡ 1 }
        requires number { self.old.next + 1 < 2 ^ 64 }
        ensures place { place_of self.new ≡ place_of self.old }
        ensures node { name_of self.new ≡ name_of self.old }
        ensures nodes { nodes_of self.new ≡ nodes_of self.old }
        ensures inbox { inbox_of self.new ≡ inbox_of self.old }
        ensures offers { IfOk result (λ back. Offers item back self.old self.new) }
        ensures ended { IfErr result (λ fault. IsEnd fault × PutsNothing self.old self.new) }
        ensures seen { seen_of self.new ≡ seen_of self.old }
    {
        match self.line.send(rt, item) {
            Ok(()) => {
                self.next += 1;
                Ok(None)
            }
            Err(unsent) => match self.end() {
                Some(fault) => Err(fault),
                None => Ok(Some(unsent.letter)),
            },
        }
    }

    /// Sends a task, under the next number, as soon as there is room for it.
    fn send<R: Wait + Clock>(&mut self, rt: &R, item: Item) -> Result<(), SeatFault>
        requires task { length (event_in item) ≡ 1 }
        requires number { self.old.next + 1 < 2 ^ 64 }
        ensures place { place_of self.new ≡ place_of self.old }
        ensures node { name_of self.new ≡ name_of self.old }
        ensures nodes { nodes_of self.new ≡ nodes_of self.old }
        ensures inbox { inbox_of self.new ≡ inbox_of self.old }
        ensures put { OnOk result (Puts item self.old self.new) }
        ensures numbered { OnOk result (Numbers self.old self.new) }
        ensures ended { IfErr result (λ fault. IsEnd fault × PutsNothing self.old self.new) }
        ensures seen { seen_of self.new ≡ seen_of self.old }
    {
        self.rest.worked();
        let mut waiting = item;
        for _ in rt.forever() {
            match self.offer(rt, waiting)? {
                Some(item) => waiting = item,
                None => return Ok(()),
            }
            self.rest.rest(rt, true);
        }
        unreachable!()
    }

    /// Takes a reply up, if one lies there: what it says of a ticket. The caller knows of the moment then at which the node's loop held it, and
    /// the table is read from there on: the node's readers were shown all that it had shown then. A reply to another, which an earlier caller with
    /// its slot waited for last, is dropped.
    fn take_up<R: Wait>(&mut self, rt: &R, ticket: Ticket) -> Option<Result<Effect, TaskFault>>
        ensures place { place_of self.new ≡ place_of self.old }
        ensures node { name_of self.new ≡ name_of self.old }
        ensures nodes { nodes_of self.new ≡ nodes_of self.old }
        ensures line { self.new.line ≡ self.old.line }
        ensures next { self.new.next ≡ self.old.next }
        ensures told { IfSome result (λ outcome. IsToldTo (name_of self.old) ticket outcome (seen_of self.new)) }
        ensures untold { IfNone result (seen_of self.new ≡ seen_of self.old) }
        ensures book { (seen_of self.new).known.book ≡ (seen_of self.old).known.book }
        ensures learns { Learns (seen_of self.old) (seen_of self.new) }
    {
        let laid = self.replies.pop(rt)?;
        let heard = laid.heard_by(ticket)?;
        let Heard {
            outcome,
            seen,
            count,
            length,
        } = heard;
        self.reader.hear(seen, count, length);
        Some(outcome)
    }

    /// What came of a ticket, if that is known.
    fn find<R: Wait>(&mut self, rt: &R, ticket: Ticket) -> Result<Option<Effect>, SeatFault>
        ensures place { place_of self.new ≡ place_of self.old }
        ensures node { name_of self.new ≡ name_of self.old }
        ensures nodes { nodes_of self.new ≡ nodes_of self.old }
        ensures line { self.new.line ≡ self.old.line }
        ensures next { self.new.next ≡ self.old.next }
        ensures told { IfOk result (λ found. IfSome found (λ effect. IsToldTo (name_of self.old) ticket (Ok effect) (seen_of self.new))) }
        ensures refused { IfErr result (λ fault. IsFaultTold (name_of self.old) ticket fault (seen_of self.new)) }
        ensures untold { IfOk result (λ found. IfNone found (seen_of self.new ≡ seen_of self.old)) }
        ensures book { (seen_of self.new).known.book ≡ (seen_of self.old).known.book }
        ensures learns { Learns (seen_of self.old) (seen_of self.new) }
    {
        // This comes first: a reply that was laid down before the thread ended is then found.
        let end = self.end();
        let outcome = self.take_up(rt, ticket);
        match (outcome, end) {
            (Some(outcome), _) => Ok(Some(outcome?)),
            (None, Some(fault)) => Err(fault),
            (None, None) => Ok(None),
        }
    }

    /// Waits for what comes of a ticket.
    fn outcome<R: Wait + Clock>(&mut self, rt: &R, ticket: Ticket) -> Result<Effect, SeatFault>
        ensures place { place_of self.new ≡ place_of self.old }
        ensures node { name_of self.new ≡ name_of self.old }
        ensures nodes { nodes_of self.new ≡ nodes_of self.old }
        ensures line { self.new.line ≡ self.old.line }
        ensures next { self.new.next ≡ self.old.next }
        ensures told { IfOk result (λ effect. IsToldTo (name_of self.old) ticket (Ok effect) (seen_of self.new)) }
        ensures refused { IfErr result (λ fault. IsFaultTold (name_of self.old) ticket fault (seen_of self.new)) }
        ensures book { (seen_of self.new).known.book ≡ (seen_of self.old).known.book }
        ensures learns { Learns (seen_of self.old) (seen_of self.new) }
    {
        self.rest.worked();
        for _ in rt.forever() {
            if let Some(effect) = self.find(rt, ticket)? {
                return Ok(effect);
            }
            self.rest.rest(rt, false);
        }
        unreachable!()
    }
}
