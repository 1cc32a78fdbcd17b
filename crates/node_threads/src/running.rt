//! The thread of one node.
ghost use denote.Param.Send.{IsSend, IsSync};
ghost use Rattle.std.specs.Prelude.{◌≡◌, IfOk, OnOk};
ghost use Rattle.node_loop.specs.Coming.{IsLoopOf};
ghost use Rattle.node_seats.specs.Addresses.{inbox_at};
ghost use Rattle.node_loop.specs.Owing.{KeepsOwing};
ghost use Rattle.node_seats.specs.Onward.{ComesFrom};
ghost use Rattle.node_seats.specs.Publishing.{Publishes};
ghost use Rattle.node_threads.specs.Starts.{IsAtStart};
ghost use Rattle.node_threads.specs.Ends.{fixed};
ghost use Rattle.node_threads.specs.Soundness.{StaysSound, LastsSound, IsBesides};
ghost use Rattle.node_threads.specs.Ended.{IsOver};
ghost use Rattle.node_threads.specs.Stops.{CameTo, StopsSo};
ghost use Rattle.replay.specs.Ends.{end_by};

use crate::intake::Intake;
use crate::ruled_end::RuledEnd;
use link::Mailbox;
use name_table::Names;
use node_loop::{Gate, Item, NodeEnd, NodeLoop, Record, TurnFault};
use node_seats::{
    Address, Caller, Host, Hub, InboxLine, KeptPublisher, NodeStatus, Parcel, Past, Place,
    SeatFault, Stop, Token,
};
use std::alloc::{AllocError, Global};
use std::marker::Model;
use std::snapshot::Snapshot;
use std::sync::{Arc, Wait};
use std::thread;
use std::thread::{Promise, PromisedHandle, Threads};
use std::time::Clock;
use term::{Node, SLOTS};

/// What a thread gives back: what its node left behind, its lines, its end of its inbox, and the book of its node, sealed. There is none where
/// the node had more moments than a `u64` counts.
#[derive(Drop)]
pub(crate) struct Ended<N: Names, L: Record> {
    pub(crate) end: NodeEnd<N, L>,
    pub(crate) lines: Vec<InboxLine<Item>>,
    pub(crate) mailbox: Mailbox<Parcel<Item>>,
    pub(crate) past: Option<Past>,
}

/// That what a thread gives back came by turns from this loop, with these lines and this end of an inbox, and that the moments that it gives
/// back are those of this book.
#[derive(Drop)]
pub(crate) struct EndOf<N: Names, L: Record>(
    Snapshot<NodeLoop<N, L>>,
    Snapshot<Vec<InboxLine<Item>>>,
    Snapshot<Mailbox<Parcel<Item>>>,
    Snapshot<Token>,
);

impl<N: Names, L: Record> Promise<Ended<N, L>> for EndOf<N, L> {
    ghost use Rattle.node_threads.specs.Ended.{IsOver};
    ghost use Rattle.replay.specs.Ends.{end_by};

    ghost kept_by = { λ promise ended. IsOver promise.0.value promise.1.value.items promise.2.value promise.3.value.book
        (end_by N.contents L.logged ended.end) ended.lines.items ended.mailbox ended.past };
}

/// A node whose thread runs: where it is reached, how it stands, and the thread. Contracts see its inbox, the core with which it
/// opened, and its lines as they were then.
#[derive(Drop)]
pub(crate) struct Running<N: Names, L: Record> {
    address: Address<Item>,
    /// Asks it in the name of the cluster.
    caller: Caller,
    handle: PromisedHandle<Ended<N, L>, EndOf<N, L>>,
}

impl<N: Names, L: Record> Model for Running<N, L> {
    ghost use Rattle.std.specs.Prelude.{◌≡◌};
    ghost use Rattle.node_seats.specs.Callers.{inbox_of};
    ghost use Rattle.node_seats.specs.Addresses.{inbox_at};
    ghost use Rattle.node_threads.specs.Wires.{Wired};
    ghost use Rattle.node_threads.specs.Starts.{IsAtStart};

    ghost Value = { Wired };

    ghost view = { λ r. record {
      inbox = inbox_at r.address;
      core = r.handle.promise.0.value.core;
      lines = r.handle.promise.1.value.items;
    } };

    ghost invariant = { λ r. IsAtStart (inbox_at r.address) r.handle.promise.0.value r.handle.promise.1.value.items r.handle.promise.2.value
        × (inbox_of r.caller ≡ inbox_at r.address) × (r.handle.promise.3.value.book ≡ (inbox_at r.address).book) };
}

/// What a node's thread works with.
#[derive(Drop)]
pub(crate) struct Work<G: Gate + Drop, N: Names, L: Record, R: Wait + Drop> {
    pub(crate) node: NodeLoop<N, L>,
    pub(crate) lines: Vec<InboxLine<Item>>,
    pub(crate) mailbox: Mailbox<Parcel<Item>>,
    pub(crate) gate: Arc<G, Global>,
    pub(crate) host: Host,
    /// Of the node's table.
    pub(crate) publisher: KeptPublisher<R>,
}

/// What a node whose thread has ended left behind, its lines, its inbox, and its book, sealed.
#[derive(Drop)]
pub(crate) struct Returned<N: Names, L: Record> {
    pub(crate) end: NodeEnd<N, L>,
    pub(crate) lines: Vec<InboxLine<Item>>,
    pub(crate) intake: Intake,
    pub(crate) past: Option<Past>,
}

/// One turn of a node is its own, and it keeps its end.
fn turn<G: Gate, N: Names<Memory = Global>, L: Record, R: Wait + Drop>(
    node: &mut NodeLoop<N, L>,
    end: &mut RuledEnd<R>,
    gate: &G,
) -> Result<(), TurnFault>
    ensures node { node.new.log.node ≡ node.old.log.node }
    ensures came { IsLoopOf node.old.log.node node.old → IsLoopOf node.old.log.node node.new }
    ensures comes { ComesFrom node.old node.new }
    ensures came_to { CameTo result node.old node.new }
    ensures sound { StaysSound node.old end.old result node.new end.new }
    ensures owing { KeepsOwing node.old node.new }
    ensures same { fixed end.new ≡ fixed end.old }
{
    node.turn(end, gate)
}

/// Tells how the node stands, where its last turn did something.
fn tell<N: Names<Memory = Global>, L: Record>(node: &NodeLoop<N, L>, host: &Host)
    requires { IsLoopOf node.now.log.node node.now }
{
    if node.worked() {
        host.tell(node);
    }
}

/// Writes down how the node stands, shows its readers what its last turn did, and hands its replies out then: whether readers are shown all. As
/// long as they aren't, replies wait, so that nobody is told of more than is shown. There is nothing to do where they were shown all before, and
/// the last turn did nothing.
fn show<N: Names<Memory = Global>, L: Record, R: Wait + Drop>(
    rt: &R,
    node: &mut NodeLoop<N, L>,
    host: &mut Host,
    publisher: KeptPublisher<R>,
    all: bool,
) -> (KeptPublisher<R>, bool)
    requires came { IsLoopOf node.old.log.node node.old }
    requires publishes { Publishes node.old publisher.publisher }
    requires book { publisher.publisher.known.book ≡ host.old.book }
    ensures came { IsLoopOf node.old.log.node node.new }
    ensures publishes { Publishes node.new result.0.publisher }
    ensures book { result.0.publisher.known.book ≡ publisher.publisher.known.book }
    ensures kept { IsBesides node.old node.new }
    ensures host { host.new ≡ host.old }
{
    if all && !node.worked() {
        return (publisher, true);
    }
    let (publisher, shown) = publisher.show(node);
    if shown {
        host.hand_out(rt, node, &publisher.publisher);
    }
    (publisher, shown)
}

/// The node takes one turn after another, until it is asked to end or a turn fails, and gives back which. Behind each its readers are shown
/// what it did, and its replies are handed out; where one did nothing the thread rests.
fn turns<G: Gate, N: Names<Memory = Global>, L: Record, R: Wait + Clock + Drop>(
    rt: &R,
    node: &mut NodeLoop<N, L>,
    end: &mut RuledEnd<R>,
    gate: &G,
    host: &mut Host,
    publisher: KeptPublisher<R>,
) -> (KeptPublisher<R>, Stop)
    requires came { IsLoopOf node.old.log.node node.old }
    requires publishes { Publishes node.old publisher.publisher }
    requires book { publisher.publisher.known.book ≡ host.old.book }
    ensures node { node.new.log.node ≡ node.old.log.node }
    ensures came { IsLoopOf node.old.log.node node.new }
    ensures publishes { Publishes node.new result.0.publisher }
    ensures book { result.0.publisher.known.book ≡ publisher.publisher.known.book }
    ensures stops { StopsSo result.1 node.old node.new }
    ensures sound { LastsSound node.old end.old node.new end.new }
    ensures same { fixed end.new ≡ fixed end.old }
{
    let mut publisher = publisher;
    let mut shown = true;
    for _ in rt.forever() {
        if host.is_closing() {
            return (publisher, Stop::Asked);
        }
        let outcome = turn(node, end, gate);
        tell(node, host);
        let (next, all) = show(rt, node, host, publisher, shown);
        publisher = next;
        shown = all;
        if outcome.is_err() {
            return (publisher, Stop::Failed);
        }
        host.rest(rt, node, shown);
    }
    unreachable!()
}

/// A node's thread, from its first turn to its end. The table is read until the cluster is over, however the thread ended.
fn run<G: Gate + Drop, N: Names<Memory = Global>, L: Record, R: Wait + Clock + Drop + Copy>(
    rt: &R,
    work: Work<G, N, L, R>,
) -> Ended<N, L>
    requires came { IsLoopOf work.node.log.node work.node }
    requires publishes { Publishes work.node work.publisher.publisher }
    requires book { work.publisher.publisher.known.book ≡ work.host.book }
    ensures { IsOver work.node work.lines.items work.mailbox work.publisher.publisher.known.book (end_by N.contents L.logged result.end) result.lines.items result.mailbox result.past }
{
    let Work {
        mut node,
        lines,
        mailbox,
        gate,
        mut host,
        publisher,
    } = work;
    let alloc = *lines.allocator();
    let mut end = RuledEnd::new(*rt, alloc, node.node().copy(), lines, mailbox);
    let (publisher, stop) = turns(rt, &mut node, &mut end, &*gate, &mut host, publisher);
    let (lines, mailbox) = end.into_parts();
    let (table, past) = publisher.seal(&node);
    let end = host.end(node, stop);
    host.stay(rt);
    table.close(rt);
    Ended {
        end,
        lines,
        mailbox,
        past: past.ok(),
    }
}

/// Starts the thread of a node, which works with this.
fn spawn<G, N, L, R>(
    rt: &R,
    work: Work<G, N, L, R>,
) -> Result<PromisedHandle<Ended<N, L>, EndOf<N, L>>, AllocError>
where
    G: Gate + Drop + Send + Sync + 'static,
    N: Names<Memory = Global> + Send + 'static,
    L: Record + Send + 'static,
    R: Threads + Wait + Clock + Drop + Copy + Send + 'static,
    requires came { IsLoopOf work.node.log.node work.node }
    requires publishes { Publishes work.node work.publisher.publisher }
    requires book { work.publisher.publisher.known.book ≡ work.host.book }
    ensures node { IfOk result (λ handle. handle.promise.0.value ≡ work.node) }
    ensures lines { IfOk result (λ handle. handle.promise.1.value ≡ work.lines) }
    ensures mailbox { IfOk result (λ handle. handle.promise.2.value ≡ work.mailbox) }
    ensures book { IfOk result (λ handle. handle.promise.3.value.book ≡ work.publisher.publisher.known.book) }
{
    let promise = EndOf(
        Snapshot::of(&work.node),
        Snapshot::of(&work.lines),
        Snapshot::of(&work.mailbox),
        Snapshot::of(&work.publisher.publisher.token()),
    );
    let own = *rt;
    let handle = thread::spawn_with(
        rt,
        promise,
        move || -> Ended<N, L>
            requires sends { IsSend G.row × IsSend N.row × IsSend L.row × IsSend R.row × IsSync G.row }
            requires came { IsLoopOf work.node.log.node work.node }
            requires publishes { Publishes work.node work.publisher.publisher }
            requires book { work.publisher.publisher.known.book ≡ work.host.book }
            ensures { IsOver work.node work.lines.items work.mailbox work.publisher.publisher.known.book (end_by N.contents L.logged result.end) result.lines.items result.mailbox result.past }
        { run(&own, work) },
    )?;
    Ok(handle)
}

impl<N: Names<Memory = Global> + Send + 'static, L: Record + Send + 'static> Running<N, L> {
    ghost use Rattle.std.specs.Prelude.{◌<◌, [], IfErr, IfSome};
    ghost use Rattle.node_seats.specs.Callers.{inbox_of, place_of, nodes_of, nodes_at, asked_by, seen_of, IsEnd};
    ghost use Rattle.node_seats.specs.Readers.{unseen};
    ghost use Rattle.node_threads.specs.Wires.{name_of};
    ghost use Rattle.node_threads.specs.Ended.{Returns, IsPastOf};
    ghost use Rattle.node_threads.specs.Clusters.{LeftAsAsked};

    /// Starts the thread of a node. What it works with is the node's, which is at its start.
    pub(crate) fn start<G, R>(
        rt: &R,
        address: Address<Item>,
        caller: Caller,
        work: Work<G, N, L, R>,
    ) -> Result<Self, AllocError>
    where
        G: Gate + Drop + Send + Sync + 'static,
        R: Threads + Wait + Clock + Drop + Copy + Send + 'static,
        requires start { IsAtStart (inbox_at address) work.node work.lines.items work.mailbox }
        requires asks { inbox_of caller ≡ inbox_at address }
        requires book { work.publisher.publisher.known.book ≡ (inbox_at address).book }
        requires host { work.publisher.publisher.known.book ≡ work.host.book }
        requires publishes { Publishes work.node work.publisher.publisher }
        ensures { IfOk result (λ running. running ≡ record { inbox = inbox_at address; core = work.node.core; lines = work.lines.items }) }
    {
        // Whoever asks how the node stands before its first turn is told how it begins.
        work.host.tell(&work.node);
        let handle = spawn(rt, work)?;
        Ok(Running {
            address,
            caller,
            handle,
        })
    }

    /// Its node.
    pub(crate) fn node(&self) -> &Node
        ensures { result.now ≡ name_of self.now }
    {
        self.address.node()
    }

    /// A caller of it, which finds its replies in the slot of this place.
    pub(crate) fn caller(
        &mut self,
        hub: &Arc<Hub, Global>,
        place: Place,
        yields: u32,
    ) -> Result<Caller, AllocError>
        requires { place.slot < SLOTS }
        ensures place { IfOk result (λ caller. place_of caller ≡ place) }
        ensures asks { IfOk result (λ caller. inbox_of caller ≡ self.old.inbox) }
        ensures nodes { IfOk result (λ caller. nodes_of caller ≡ nodes_at hub.now.value) }
        ensures unasked { IfOk result (λ caller. asked_by caller ≡ []) }
        ensures unread { IfOk result (λ caller. seen_of caller ≡ unseen self.old.inbox.book) }
        ensures node { self.new ≡ self.old }
    {
        self.caller.another(hub, &mut self.address, place, yields)
    }

    /// Asks the node to leave, in the name of the cluster, and waits until it has, as its log then says.
    pub(crate) fn leave<R: Wait + Clock>(&mut self, rt: &R) -> Result<(), SeatFault>
        ensures node { self.new ≡ self.old }
        ensures left { OnOk result (LeftAsAsked self.old.inbox) }
    {
        self.caller.leave(rt)
    }

    /// How the node stands, as its thread told last; or why nobody can tell any more.
    pub(crate) fn status(&self) -> Result<NodeStatus, SeatFault>
        ensures node { IfOk result (λ status. status.node ≡ name_of self.now) }
        ensures ended { IfErr result IsEnd }
    {
        self.caller.status()
    }

    /// Asks the threads of the cluster to end, and wakes this one.
    pub(crate) fn stop(&self) {
        self.caller.stop();
    }

    /// Waits until its thread has ended, and gives what it gave back.
    pub(crate) fn join<R: Threads>(self, rt: &R) -> Returned<N, L>
        ensures end { Returns self (end_by N.contents L.logged result.end) result.lines.items result.intake }
        ensures past { IfSome result.past (IsPastOf (name_of self) self.inbox.book (end_by N.contents L.logged result.end)) }
    {
        let Running {
            address,
            handle,
            ..
        } = self;
        let Ended {
            end,
            lines,
            mailbox,
            past,
        } = handle.join(rt);
        Returned {
            end,
            lines,
            intake: Intake::new(address, mailbox),
            past,
        }
    }
}
