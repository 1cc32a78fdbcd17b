//! The seats that a server lends to its consoles.
ghost use Rattle.std.specs.Prelude.{◌≡◌, ◌+◌, ◌<◌, ◌≤◌, ◌^◌, ◌++◌, ◌∷◌, [], None, length, nat_lt, option_to_list, IfErr, IfOk, OnOk};
ghost use Rattle.console.specs.Callers.{IsEnd};
ghost use Rattle.server.specs.Staying.{AreSeatsOf, GivesOut, share};

use crate::staying::desk::StayingCluster;
use node_threads::{ForgottenNotes, Seat, SeatFault};
use std::alloc::{AllocError, Global};
use std::sync::{Mutex, Wait};
use std::thread::Parker;
use std::time::Duration;
use term::{MOST_SEATS, Node, NodeName, NodeSet};

/// How long who waits for a seat sleeps at most, in milliseconds. A bell ends a sleep. Two may sleep by one bell for a moment, of whom one is
/// to have a seat already, and the other's ring may be lost then.
const NET: u64 = 10;

/// A seat that keeps no transcript.
pub(crate) type ForgetfulSeat = Seat<ForgottenNotes>;

/// The free seats of a node, and how far those have come who want one. Who asks gets a number, and all are served by their numbers. It lies
/// under a lock.
#[derive(Drop)]
struct Stock {
    free: Vec<ForgetfulSeat>,
    /// How many numbers were given.
    asked: u64,
    /// So many may have a seat: as many as there were at first, and one more for each that came back.
    served: u64,
}

/// The seats of a node, which are lent one by one.
#[derive(Drop)]
struct Lending {
    node: Node,
    stock: Mutex<Stock>,
    /// By which those sleep who wait: each by the one whose place its number leaves as a rest.
    bells: Vec<Parker>,
}

/// The seats of all nodes of a server.
#[derive(Drop)]
pub(crate) struct Seats {
    nodes: Vec<Lending>,
}

impl Stock {
    /// That of these seats, for which nobody has asked.
    fn new(free: Vec<ForgetfulSeat>) -> Self
        ensures free { result.free.items ≡ free.items }
        ensures asked { result.asked ≡ 0 }
        ensures served { result.served ≡ length free.items }
    {
        let served = free.len() as u64;
        Stock {
            free,
            asked: 0,
            served,
        }
    }

    /// The number of one more who wants a seat.
    fn draw(&mut self) -> u64
        ensures number { result ≡ self.old.asked }
        ensures asked { self.old.asked + 1 < 2 ^ 64 → self.new.asked ≡ self.old.asked + 1 }
        ensures served { self.new.served ≡ self.old.served }
        ensures free { self.new.free.items ≡ self.old.free.items }
    {
        let number = self.asked;
        self.asked = number.saturating_add(1);
        number
    }

    /// Whether who has this number may have a seat.
    fn serves(&self, number: u64) -> bool
        ensures { result ≡ nat_lt number self.now.served }
    {
        number < self.served
    }

    /// The seat of who has this number, once one is free, and those before have theirs. It isn't free any more.
    fn take(&mut self, number: u64) -> Option<ForgetfulSeat>
        ensures turn { self.old.served ≤ number → result ≡ None }
        ensures free { self.old.free.items ≡ self.new.free.items ++ option_to_list result }
        ensures asked { self.new.asked ≡ self.old.asked }
        ensures served { self.new.served ≡ self.old.served }
    {
        if self.serves(number) {
            self.free.pop()
        } else {
            None
        }
    }

    /// A seat is free again: the number of who may have one now. It is lost where there is no memory, which there is for one that was taken
    /// from here.
    fn put(&mut self, seat: ForgetfulSeat) -> Result<u64, AllocError>
        ensures number { IfOk result (λ number. number ≡ self.old.served) }
        ensures free { OnOk result (self.new.free.items ≡ self.old.free.items ++ seat ∷ []) }
        ensures asked { self.new.asked ≡ self.old.asked }
        ensures served { OnOk result (self.old.served + 1 < 2 ^ 64 → self.new.served ≡ self.old.served + 1) }
    {
        self.free.push(seat)?;
        let number = self.served;
        self.served = number.saturating_add(1);
        Ok(number)
    }
}

/// So many bells.
fn bells_for(alloc: Global, many: u32) -> Result<Vec<Parker>, AllocError> {
    let mut bells = Vec::new(alloc);
    for _ in 0..many {
        bells.push(Parker::new())?;
    }
    Ok(bells)
}

impl Lending {
    /// The bell of who has this number, if there are any.
    fn bell(&self, number: u64) -> Option<&Parker> {
        let place = number.checked_rem(self.bells.len() as u64)?;
        self.bells.get(place as usize)
    }

    /// Lends a seat, once one is free, and all that asked before have theirs.
    fn lend<R: Wait>(&self, rt: &R) -> ForgetfulSeat {
        let number = self.stock.lock(rt).draw();
        for _ in rt.forever() {
            if let Some(seat) = self.stock.lock(rt).take(number) {
                return seat;
            }
            if let Some(bell) = self.bell(number) {
                bell.park_timeout(rt, Duration::from_millis(NET));
            }
        }
        unreachable!()
    }

    /// Takes a seat back, and wakes who may have it.
    fn take_back<R: Wait>(&self, rt: &R, seat: ForgetfulSeat) {
        let Ok(number) = self.stock.lock(rt).put(seat) else {
            return;
        };
        if let Some(bell) = self.bell(number) {
            bell.unpark();
        }
    }
}

/// How many seats each of so many nodes has.
fn share(nodes: usize) -> usize
    ensures { result ≡ share nodes }
{
    if nodes == 0 {
        0
    } else {
        MOST_SEATS as usize / nodes
    }
}

/// So many seats of this node, which a cluster gives out.
fn seats_of(
    alloc: Global,
    cluster: &mut StayingCluster,
    node: &NodeName,
    many: usize,
) -> Result<Vec<ForgetfulSeat>, SeatFault>
    ensures given { GivesOut cluster.old cluster.new }
    ensures seats { IfOk result (λ seats. AreSeatsOf node.now many seats.items) }
{
    let mut seats = Vec::new(alloc);
    for _ in 0..many {
        seats.reserve(1)?;
        seats.push_reserved(cluster.forgetful_seat(node)?);
    }
    Ok(seats)
}

/// The seats of a node, so many, which a cluster gives out, and for which so many may wait at once.
fn lending_of(
    alloc: Global,
    cluster: &mut StayingCluster,
    node: &Node,
    many: usize,
    waiters: u32,
) -> Result<Lending, SeatFault>
    ensures { GivesOut cluster.old cluster.new }
{
    let bells = bells_for(alloc, waiters)?;
    let seats = seats_of(alloc, cluster, node.name(), many)?;
    Ok(Lending {
        node: node.copy(),
        stock: Mutex::new(Stock::new(seats)),
        bells,
    })
}

impl Seats {
    /// All seats that a cluster of these nodes gives out, as many for each node. So many may wait at once for one of a node.
    pub(crate) fn of(
        alloc: Global,
        cluster: &mut StayingCluster,
        nodes: &NodeSet,
        waiters: u32,
    ) -> Result<Self, SeatFault>
        ensures { GivesOut cluster.old cluster.new }
    {
        let many = share(nodes.len());
        let mut lendings = Vec::new(alloc);
        for node in nodes.as_slice() {
            lendings.reserve(1)?;
            lendings.push_reserved(lending_of(alloc, cluster, node, many, waiters)?);
        }
        Ok(Seats { nodes: lendings })
    }

    /// The seats of this node.
    fn at(&self, node: &Node) -> Option<&Lending> {
        self.nodes.iter().find(|lending| lending.node == *node)
    }

    /// Lends a seat of this node, once one is free: who asks first has one first. Of what lies under a lock no more is known than its type
    /// says, so it is looked at whether the seat is of that node; one of another, which never lies there, goes back. `Closed`: there are none
    /// of this node.
    pub(crate) fn lend<R: Wait>(&self, rt: &R, node: &Node) -> Result<ForgetfulSeat, SeatFault>
        ensures node { IfOk result (λ seat. seat.node ≡ node.now) }
        ensures none { IfErr result IsEnd }
    {
        let Some(lending) = self.at(node) else {
            return Err(SeatFault::Closed);
        };
        let seat = lending.lend(rt);
        if *seat.node() == *node {
            return Ok(seat);
        }
        lending.take_back(rt, seat);
        Err(SeatFault::Closed)
    }

    /// Takes back a seat that it has lent.
    pub(crate) fn take_back<R: Wait>(&self, rt: &R, seat: ForgetfulSeat) {
        if let Some(lending) = self.at(seat.node()) {
            lending.take_back(rt, seat);
        }
    }
}
