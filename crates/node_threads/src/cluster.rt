//! Clusters: the threads of all nodes, and the seats at them.
ghost use Rattle.std.specs.Prelude.{ℕ, ◌≡◌, ◌==◌, ◌++◌, [], map, true, false, Some, None, Ok, Err, IfOk, OnOk, IfErr, OnErr, MatchResult};
ghost use Rattle.std.specs.List.{position};
ghost use Rattle.term.specs.NodeSets.{set_of};
ghost use Rattle.node_loop.specs.Openings.{start_refused, start_fault_of, IsOpening};
ghost use Rattle.node_seats.specs.declared.fault.SeatFault.TheVariants.{NoSuchNode};
ghost use Rattle.node_seats.specs.Faults.{IsSeatRefused};
ghost use Rattle.node_seats.specs.Seats.{first_at, sitting};
ghost use Rattle.replay.specs.Consistent.{is_torn};
ghost use Rattle.replay.specs.Ends.{end_by};
ghost use Rattle.node_threads.specs.Closing.{CloseIs, CloseTells, GivesBack};
ghost use Rattle.node_threads.specs.Ended.{AllPast};
ghost use Rattle.node_threads.specs.Ending.{EndIs, EndTells};

use crate::berths::berths_of;
use crate::crew::{Gathered, end_all, free_seat_of, launch_all};
use crate::ending::{EndFault, EndedCluster, tell_of};
use crate::intake::compare_all;
use crate::running::Running;
use crate::seating::Seating;
use crate::shared::Shared;
use name_table::Names;
use node_loop::{Gate, Log, NodeEnd, Opening, Record, StartFault, Transcript};
use node_seats::{Caller, ForgottenNotes, FreeSeat, NodeStatus, Notes, Past, Seat, SeatFault};
use replay::{CloseFault, Closed, replay};
use std::alloc::{AllocError, Global};
use std::marker::Model;
use std::sync::Wait;
use std::thread::Threads;
use std::time::Clock;
use term::NodeName;

/// Owns the threads of all nodes. It can't be dropped: `close` ends it, or `end`. Contracts see its nodes, what their threads began with, and
/// its seats. Its nodes keep logs of their steps, unless it says that they write to another record.
pub struct Cluster<G: Gate + Drop, N: Names, L: Record = Log> {
    alloc: Global,
    shared: Shared<G>,
    cluster: Vec<NodeName>,
    lone: Vec<NodeName>,
    running: Vec<Running<N, L>>,
    seating: Seating,
}

/// What the threads of a cluster left behind, its lists of nodes, and the book of each.
#[derive(Drop)]
struct LeftBehind<N: Names, L: Record> {
    alloc: Global,
    cluster: Vec<NodeName>,
    lone: Vec<NodeName>,
    ends: Vec<NodeEnd<N, L>>,
    pasts: Vec<Past>,
}

impl<G: Gate + Drop, N: Names, L: Record> Model for Cluster<G, N, L> {
    ghost use Rattle.std.specs.Prelude.{ℕ, ◌≡◌, ◌++◌, None};
    ghost use Rattle.term.specs.NodeSets.{set_of};
    ghost use Rattle.node_seats.specs.Callers.{nodes_at};
    ghost use Rattle.node_loop.specs.Openings.{start_refused};
    ghost use Rattle.node_threads.specs.Clusters.{Crewed};
    ghost use Rattle.node_threads.specs.Wires.{IsCrew};

    ghost Value = { Crewed };

    ghost view = { λ c. record {
      cluster = c.cluster.items;
      lone = c.lone.items;
      world = nodes_at c.shared.hub.value;
      crew = c.running.items;
      seating = c.seating;
    } };

    ghost invariant = { λ c. (start_refused c.cluster.items c.lone.items ≡ None)
        × IsCrew c.cluster.items c.lone.items c.running.items
        × ((n : ℕ) → set_of (nodes_at c.shared.hub.value) n ≡ set_of (c.cluster.items ++ c.lone.items) n) };
}

/// The same names, in memory of their own.
fn copied(alloc: Global, nodes: &[NodeName]) -> Result<Vec<NodeName>, AllocError>
    ensures { IfOk result (λ copy. copy.items ≡ nodes.now) }
{
    nodes.iter().map(|node| node.copy()).collect(alloc)
}

/// The index of the node of this name among those that run.
fn index_of<N: Names<Memory = Global> + Send + 'static, L: Record + Send + 'static>(
    running: &[Running<N, L>],
    node: &NodeName,
) -> Option<usize>
    ensures { result ≡ position (λ one. one.inbox.node == node.now) running.now }
{
    running.iter().position(|one| one.node().is_first_of(node))
}

/// What was told, with the books of all nodes.
fn with_pasts<T: Drop, E: Drop>(told: Result<T, E>, pasts: Vec<Past>) -> Result<(T, Vec<Past>), E>
    ensures { MatchResult result (λ both. (told ≡ Ok both.0) × (both.1 ≡ pasts)) (λ fault. told ≡ Err fault) }
{
    match told {
        Ok(told) => Ok((told, pasts)),
        Err(fault) => Err(fault),
    }
}

/// What was told, without the books.
fn without_pasts<T: Drop, E: Drop>(told: Result<(T, Vec<Past>), E>) -> Result<T, E>
    ensures { MatchResult told (λ both. result ≡ Ok both.0) (λ fault. result ≡ Err fault) }
{
    match told {
        Ok((told, _pasts)) => Ok(told),
        Err(fault) => Err(fault),
    }
}

impl<G, N, L> Cluster<G, N, L>
where
    G: Gate + Drop + Send + Sync + 'static,
    N: Names<Memory = Global> + Send + 'static,
    L: Record + Send + 'static,
{
    ghost use Rattle.node_threads.specs.Clusters.{nodes_in, next_seats, seats_more, seats_fewer, LeftAt, IsUntold};
    ghost use Rattle.node_threads.specs.Seating.{no_seats, are_spent};
    ghost use Rattle.node_threads.specs.Wires.{IsCrew};

    /// Starts a thread for each node: those of `cluster` are joined with each other, and each of `lone` stands for itself. It is
    /// refused as `World::start` is, in the same order; `Memory` also where a thread can't be had. The gate is held before each
    /// turn of a node. A thread that finds nothing to do yields `yields` times at most, and for 200 microseconds or so, before it
    /// sleeps. The loops of all nodes begin with `stamp`. The clauses say of a loop that a thread leaves behind that the stamps of its
    /// steps are above the one that it began with, and not that this is the one.
    pub fn start<R>(
        rt: &R,
        alloc: Global,
        cluster: &[NodeName],
        lone: &[NodeName],
        gate: G,
        yields: u32,
        stamp: u64,
    ) -> Result<Self, StartFault>
    where
        R: Threads + Wait + Clock + Drop + Copy + Send + 'static,
        ensures cluster { IfOk result (λ made. made.cluster ≡ cluster.now) }
        ensures lone { IfOk result (λ made. made.lone ≡ lone.now) }
        ensures world { IfOk result (λ made. (n : ℕ) → set_of made.world n ≡ set_of (cluster.now ++ lone.now) n) }
        ensures crew { IfOk result (λ made. IsCrew cluster.now lone.now made.crew) }
        ensures seats { IfOk result (λ made. made.seating ≡ no_seats) }
        ensures ok { IfOk result (λ _. start_refused cluster.now lone.now ≡ None) }
        ensures err { IfErr result (λ fault. start_refused cluster.now lone.now ≡ start_fault_of fault) }
    {
        let opening = Opening::of(cluster, lone)?;
        Ok(Self::opened(rt, alloc, &opening, cluster, lone, gate, yields, stamp)?)
    }

    /// The cluster of a world that opens so.
    fn opened<R>(
        rt: &R,
        alloc: Global,
        opening: &Opening,
        cluster: &[NodeName],
        lone: &[NodeName],
        gate: G,
        yields: u32,
        stamp: u64,
    ) -> Result<Self, AllocError>
    where
        R: Threads + Wait + Clock + Drop + Copy + Send + 'static,
        requires lists { start_refused cluster.now lone.now ≡ None }
        requires opens { IsOpening cluster.now lone.now opening.now }
        ensures cluster { IfOk result (λ made. made.cluster ≡ cluster.now) }
        ensures lone { IfOk result (λ made. made.lone ≡ lone.now) }
        ensures world { IfOk result (λ made. (n : ℕ) → set_of made.world n ≡ set_of (cluster.now ++ lone.now) n) }
        ensures crew { IfOk result (λ made. IsCrew cluster.now lone.now made.crew) }
        ensures seats { IfOk result (λ made. made.seating ≡ no_seats) }
    {
        let shared = Shared::new(alloc, opening.nodes(), gate, yields, stamp)?;
        let joined = copied(alloc, cluster)?;
        let others = copied(alloc, lone)?;
        let berths = berths_of(rt, alloc, &shared, opening, cluster, lone)?;
        let running = launch_all(rt, alloc, berths)?;
        Ok(Cluster {
            alloc,
            shared,
            cluster: joined,
            lone: others,
            running,
            seating: Seating::new(),
        })
    }

    /// The caller of a new seat at the node of this name.
    fn caller_at(&mut self, node: &NodeName) -> Result<Caller, SeatFault>
        ensures ok { IfOk result (λ caller. first_at node.now (next_seats self.old) ≡ Some (sitting caller [])) }
        ensures made { OnOk result (self.new ≡ seats_more self.old) }
        ensures refused { IfErr result (λ fault. IsSeatRefused fault (set_of (nodes_in self.old) node.now) (are_spent self.old.seating)) }
        ensures unmade { OnErr result (self.new ≡ self.old) }
    {
        let Some(index) = index_of(self.running.as_slice(), node) else {
            return Err(SeatFault::NoSuchNode);
        };
        let Some(place) = self.seating.next() else {
            return Err(SeatFault::SeatsSpent);
        };
        let caller = self.running[index].caller(&self.shared.hub, place, self.shared.yields)?;
        self.seating.take(place);
        Ok(caller)
    }

    /// A new seat at the node of this name, also at one that has left. Seats are numbered from 0 on as they are made, and no number is
    /// used again. `NoSuchNode`: the node isn't of the cluster. `SeatsSpent`: 64 seats were made and not given back, or no number is left.
    pub fn seat(&mut self, node: &NodeName) -> Result<Seat, SeatFault>
        ensures ok { IfOk result (λ seat. first_at node.now (next_seats self.old) ≡ Some seat) }
        ensures made { OnOk result (self.new ≡ seats_more self.old) }
        ensures refused { IfErr result (λ fault. IsSeatRefused fault (set_of (nodes_in self.old) node.now) (are_spent self.old.seating)) }
        ensures unmade { OnErr result (self.new ≡ self.old) }
    {
        let caller = self.caller_at(node)?;
        Ok(Seat::new(self.alloc, caller))
    }

    /// A new seat at the node of this name that keeps no transcript. It is made, numbered and refused as `seat` says.
    pub fn forgetful_seat(&mut self, node: &NodeName) -> Result<Seat<ForgottenNotes>, SeatFault>
        ensures ok { IfOk result (λ seat. first_at node.now (next_seats self.old) ≡ Some seat) }
        ensures made { OnOk result (self.new ≡ seats_more self.old) }
        ensures refused { IfErr result (λ fault. IsSeatRefused fault (set_of (nodes_in self.old) node.now) (are_spent self.old.seating)) }
        ensures unmade { OnErr result (self.new ≡ self.old) }
    {
        let caller = self.caller_at(node)?;
        Ok(Seat::new(self.alloc, caller))
    }

    /// Takes a seat of this cluster back, so that another may be made in its stead. Nobody uses it any more, and so nothing more is told
    /// at its slot to its number.
    pub fn give_back<T: Notes>(&mut self, seat: Seat<T>)
        ensures { self.new ≡ seats_fewer seat.slot self.old }
    {
        self.seating.free(seat.slot());
    }

    /// A new seat whose node is yet to be chosen, by a line to each. It is numbered as others are. `SeatsSpent`: as for `seat`.
    pub fn free_seat(&mut self) -> Result<FreeSeat, SeatFault>
        ensures ok { IfOk result (λ free. free ≡ next_seats self.old) }
        ensures made { OnOk result (self.new ≡ seats_more self.old) }
        ensures refused { IfErr result (λ fault. IsSeatRefused fault true (are_spent self.old.seating)) }
        ensures unmade { OnErr result (self.new ≡ self.old) }
    {
        let Some(place) = self.seating.next() else {
            return Err(SeatFault::SeatsSpent);
        };
        let running = self.running.as_mut_slice();
        let free = free_seat_of(self.alloc, running, &self.shared, place)?;
        self.seating.take(place);
        Ok(free)
    }

    /// The node of this name leaves. It waits until that is so, and the node's log says it, behind the hold of the global lock where the
    /// node holds it. `NoSuchNode`: the node isn't of the cluster. `NodeLeft`: it has left before. `Closed`: its thread ended without a
    /// leave.
    pub fn leave<R: Wait + Clock>(&mut self, rt: &R, node: &NodeName) -> Result<(), SeatFault>
        ensures same { self.new ≡ self.old }
        ensures stranger { set_of (nodes_in self.old) node.now ≡ false → result ≡ Err NoSuchNode }
        ensures left { OnOk result (LeftAt self.old node.now) }
    {
        let Some(index) = index_of(self.running.as_slice(), node) else {
            return Err(SeatFault::NoSuchNode);
        };
        self.running[index].leave(rt)
    }

    /// How the node of this name stands, as its thread told last. It asks the node for nothing, and waits for nobody. `NoSuchNode`: the
    /// node isn't of the cluster. `NodeLeft`: it has left. `Closed`: its thread has ended.
    pub fn status(&self, node: &NodeName) -> Result<NodeStatus, SeatFault>
        ensures stranger { set_of (nodes_in self.now) node.now ≡ false → result ≡ Err NoSuchNode }
        ensures node { IfOk result (λ status. status.node ≡ node.now) }
        ensures untold { IfErr result (λ fault. IsUntold fault (set_of (nodes_in self.now) node.now)) }
    {
        match index_of(self.running.as_slice(), node) {
            Some(index) => self.running[index].status(),
            None => Err(SeatFault::NoSuchNode),
        }
    }

    /// Asks all threads to end, waits until they have, and holds what each took against what the others put: what they left behind.
    fn into_ends<R: Threads>(self, rt: &R) -> Result<LeftBehind<N, L>, AllocError>
        ensures cluster { IfOk result (λ left. left.cluster.items ≡ self.cluster) }
        ensures lone { IfOk result (λ left. left.lone.items ≡ self.lone) }
        ensures lists { start_refused self.cluster self.lone ≡ None }
        ensures back { IfOk result (λ left. GivesBack self.cluster self.lone self.crew (map (end_by N.contents L.logged) left.ends.items)) }
        ensures pasts { IfOk result (λ left. AllPast self.crew (map (end_by N.contents L.logged) left.ends.items) left.pasts.items) }
    {
        let Cluster {
            alloc,
            shared: _shared,
            cluster,
            lone,
            running,
            seating: _seating,
        } = self;
        let Some(
            Gathered {
                ends,
                rows,
                mut intakes,
                pasts,
            },
        ) = end_all(rt, alloc, running)
        else {
            return Err(AllocError);
        };
        compare_all(intakes.as_mut_slice(), rows);
        Ok(LeftBehind {
            alloc,
            cluster,
            lone,
            ends,
            pasts,
        })
    }

    /// Asks all threads to end, waits until they have, and tells of what they left behind without a replay, so that their steps needn't
    /// have been kept. Where it answers `Ok` the run of the threads was one of the world's: it has so many steps, and these tables behind
    /// them. `LeftInHold`: the last turn of the thread of that node, the first such, failed, and the node hadn't left. Calls that still
    /// wait at a seat are answered `Closed`. What seats were answered isn't compared, as `close` does it with their transcripts.
    pub fn end<R: Threads>(self, rt: &R) -> Result<EndedCluster<N>, EndFault>
        ensures { EndIs N.contents self.cluster self.lone self.crew result }
    {
        without_pasts(self.end_telling(rt))
    }

    /// Ends as `end` does, and gives the book of each node, too, in the order of the nodes. It covers the tokens of all seats at that node
    /// (`Past::covers`): what they looked up they found in what the node's own thread showed, behind a beginning of the log that it left, and
    /// what they were answered stands in that log (`what_is_told_lasts`).
    pub fn end_telling<R: Threads>(self, rt: &R) -> Result<(EndedCluster<N>, Vec<Past>), EndFault>
        ensures { EndTells N.contents self.cluster self.lone self.crew result }
    {
        let Ok(
            LeftBehind {
                alloc,
                ends,
                pasts,
                ..
            },
        ) = self.into_ends(rt)
        else {
            return Err(EndFault::Memory);
        };
        with_pasts(tell_of(alloc, ends), pasts)
    }
}

impl<G, N> Cluster<G, N>
where
    G: Gate + Drop + Send + Sync + 'static,
    N: Names<Memory = Global> + Send + 'static,
{
    /// Asks all threads to end, waits until they have, and replays what they left behind on a world, with these transcripts of
    /// seats. Where it answers `Ok` the run of the threads was one of the world's. It is never `Torn`: what the threads of a cluster leave
    /// behind is consistent. Calls that still wait at a seat are answered `Closed`.
    pub fn close<R: Threads>(
        self,
        rt: &R,
        transcripts: &[Transcript],
    ) -> Result<Closed<N>, CloseFault>
        ensures is { CloseIs self.cluster self.lone self.crew transcripts.now result }
        ensures whole { IfErr result (λ fault. is_torn fault ≡ false) }
    {
        without_pasts(self.close_telling(rt, transcripts))
    }

    /// Closes as `close` does, and gives the book of each node, too, in the order of the nodes. It covers the tokens of all seats at that node
    /// (`Past::covers`): what they looked up they found in what the node's own thread showed, behind a beginning of the log that it left, and
    /// what they were answered stands in that log (`what_is_told_lasts`).
    pub fn close_telling<R: Threads>(
        self,
        rt: &R,
        transcripts: &[Transcript],
    ) -> Result<(Closed<N>, Vec<Past>), CloseFault>
        ensures tells { CloseTells self.cluster self.lone self.crew transcripts.now result }
        ensures whole { IfErr result (λ fault. is_torn fault ≡ false) }
    {
        let Ok(
            LeftBehind {
                alloc,
                cluster,
                lone,
                ends,
                pasts,
            },
        ) = self.into_ends(rt)
        else {
            return Err(CloseFault::Memory);
        };
        let told = replay(
            alloc,
            cluster.as_slice(),
            lone.as_slice(),
            ends.as_slice(),
            transcripts,
        );
        with_pasts(told, pasts)
    }
}
