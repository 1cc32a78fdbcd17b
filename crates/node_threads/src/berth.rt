//! Nodes whose threads are yet to start.
ghost use Rattle.std.specs.Prelude.{◌≡◌, ◌∷◌, [], true, false, IfOk};
ghost use Rattle.term.specs.NodeSets.{set_of};
ghost use Rattle.node_loop.specs.Coming.{IsLoopOf};
ghost use Rattle.node_loop.specs.Editions.{opening};
ghost use Rattle.node_loop.specs.Owing.{shown_by};
ghost use Rattle.node_seats.specs.Moments.{moment};
ghost use Rattle.term.specs.declared.limits.TheConstants.{MOST_NODES};

use crate::running::{Running, Work};
use crate::shared::Shared;
use link::Mailbox;
use name_table::Names;
use node_loop::{Gate, Item, NodeCore, NodeLoop, Opening, Record};
use node_seats::{
    Address, Caller, Host, IdleReaders, InboxLine, KeptPublisher, Opened, Parcel, Publisher,
    open_node,
};
use std::alloc::{AllocError, Global};
use std::marker::Model;
use std::sync::{Arc, Wait};
use std::thread::Threads;
use std::time::Clock;
use term::{MOST_READERS, Node};

/// A node whose thread is yet to start: where it is reached, and what its thread is to work with. Contracts see its inbox, how many
/// lines lead there, the core that it opens with, and its own lines.
#[derive(Drop)]
pub(crate) struct Berth<G: Gate + Drop, N: Names, L: Record, R: Wait + Drop> {
    address: Address<Item>,
    /// Asks the node in the name of the cluster.
    caller: Caller,
    mailbox: Mailbox<Parcel<Item>>,
    host: Host,
    /// Of the node's table.
    publisher: KeptPublisher<R>,
    /// To all nodes.
    lines: Vec<InboxLine<Item>>,
    gate: Arc<G, Global>,
    node: NodeLoop<N, L>,
}

impl<G: Gate + Drop, N: Names, L: Record, R: Wait + Drop> Model for Berth<G, N, L, R> {
    ghost use Rattle.std.specs.Prelude.{◌≡◌};
    ghost use Rattle.node_seats.specs.Callers.{inbox_of};
    ghost use Rattle.node_seats.specs.Addresses.{inbox_at};
    ghost use Rattle.node_threads.specs.Berths.{Berthed};
    ghost use Rattle.node_seats.specs.Publishing.{Publishes};
    ghost use Rattle.node_threads.specs.Starts.{IsAtStart};

    ghost Value = { Berthed };

    ghost view = { λ b. record {
      wired = record { inbox = inbox_at b.address; core = b.node.core; lines = b.lines.items };
      made = b.address.lines;
    } };

    ghost invariant = { λ b. IsAtStart (inbox_at b.address) b.node b.lines.items b.mailbox × (inbox_of b.caller ≡ inbox_at b.address)
        × Publishes b.node b.publisher.publisher × (b.publisher.publisher.known.book ≡ (inbox_at b.address).book)
        × (b.publisher.publisher.known.book ≡ b.host.book) };
}

/// The publisher of the table of a node whose loop is at its start, and those by whom it is read.
fn publish<R: Wait + Drop + Copy, N: Names<Memory = Global>, L: Record>(
    rt: &R,
    alloc: Global,
    node: &NodeLoop<N, L>,
) -> Result<(KeptPublisher<R>, IdleReaders), AllocError>
    requires came { IsLoopOf node.now.log.node node.now }
    requires opens { shown_by node.now ≡ opening node.now.log.node }
    ensures log { IfOk result (λ made. made.0.publisher.known.log ≡ moment false node.now ∷ []) }
    ensures readers { IfOk result (λ made. made.1 ≡ made.0.publisher.known) }
{
    let publisher = Publisher::new(rt, alloc, node, MOST_READERS)?;
    let mut kept = KeptPublisher::new(*rt, publisher);
    let readers = kept.publisher.readers(MOST_READERS)?;
    Ok((kept, readers))
}

impl<G, N, L, R> Berth<G, N, L, R>
where
    G: Gate + Drop,
    N: Names<Memory = Global>,
    L: Record,
    R: Wait + Drop + Copy,
{
    ghost use Rattle.std.specs.Prelude.{◌≡◌, ◌<◌, true, map, IfOk, OnOk};
    ghost use Rattle.node_threads.specs.Wires.{name_of, unused};
    ghost use Rattle.node_threads.specs.Berths.{next_line, one_more, IsOpened};

    /// Opens a node, the one with this index among the cluster's, and makes what its thread is to work with, but for the
    /// lines.
    pub(crate) fn open(
        rt: &R,
        alloc: Global,
        shared: &Shared<G>,
        opening: &Opening,
        node: &Node,
        index: u32,
    ) -> Result<Self, AllocError>
        requires known { set_of opening.now.nodes node.now ≡ true }
        requires index { index < MOST_NODES }
        ensures name { IfOk result (λ berth. name_of berth.wired ≡ node.now) }
        ensures opened { IfOk result (IsOpened opening.now) }
    {
        let gate = Arc::try_clone(&shared.gate)?;
        let own = NodeLoop::new(alloc, NodeCore::open(alloc, opening, node), shared.stamp)?;
        let (publisher, readers) = publish(rt, alloc, &own)?;
        let Opened {
            address,
            caller,
            mailbox,
            host,
        } = open_node(
            alloc,
            &shared.hub,
            node.copy(),
            index,
            shared.yields,
            readers,
        )?;
        Ok(Berth {
            address,
            caller,
            mailbox,
            host,
            publisher,
            lines: Vec::new(alloc),
            gate,
            node: own,
        })
    }

    /// A line more into the node's inbox.
    pub(crate) fn line(&mut self) -> Result<InboxLine<Item>, AllocError>
        ensures more { OnOk result (self.new ≡ one_more self.old) }
        ensures line { IfOk result (λ line. line ≡ next_line self.old) }
    {
        self.address.line()
    }

    /// Gives the node its lines, on which nothing was put.
    pub(crate) fn connect(&mut self, lines: Vec<InboxLine<Item>>)
        requires { map unused lines.items ≡ lines.items }
        ensures { self.new ≡ record self.old { wired = record self.old.wired { lines = lines.items } } }
    {
        self.lines = lines;
    }

    /// Starts the thread.
    pub(crate) fn launch(self, rt: &R) -> Result<Running<N, L>, AllocError>
    where
        G: Send + Sync + 'static,
        N: Send + 'static,
        L: Send + 'static,
        R: Threads + Clock + Send + 'static,
        ensures { IfOk result (λ running. running ≡ self.wired) }
    {
        let Berth {
            address,
            caller,
            mailbox,
            host,
            publisher,
            lines,
            gate,
            node,
        } = self;
        let work = Work {
            node,
            lines,
            mailbox,
            gate,
            host,
            publisher,
        };
        Running::start(rt, address, caller, work)
    }
}
