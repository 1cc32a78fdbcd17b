//! Serving a cluster, from its start to the line that tells how it closed.
ghost use Rattle.std.specs.Prelude.{◌≡◌, ◌+◌, ◌≤◌, ◌||◌, ℕ, None, All, IfOk, MatchResult, length};
ghost use Rattle.term.specs.NodeSets.{set_of};
ghost use Rattle.term.specs.declared.limits.TheConstants.{MOST_NODES};
ghost use Rattle.node_threads.specs.Openings.{start_refused};
ghost use Rattle.node_threads.specs.Wires.{IsCrew};
ghost use Rattle.server.specs.Served.{transcripts_in, witnesses_in};
ghost use Rattle.server.specs.Covering.{IsOfCrew};
ghost use Rattle.server.specs.Serving.{Ends, Tells, Fails, ServesCluster};

use crate::covering::cover_all;
use crate::ending::ending_line;
use crate::faults::{ServeFault, TakeFault};
use crate::served::{Left, Legacy, legacy_of};
use crate::taking::{Door, ServedCluster};
use name_table::IndexTable;
use node_threads::{CloseFault, Closed, Cluster, OpenGate};
use std::alloc::Global;
use std::io::Write;
use std::net::TcpListener;
use std::sync::Wait;
use std::thread::Threads;
use std::time::Clock;
use term::{Node, NodeName, NodeSet};
use text_lines::tell;

/// How often a node's thread, or a seat, that finds nothing to do yields at most before it sleeps. That mostly takes longer than a
/// registration, so a node is awake when its next letter comes.
pub(crate) const YIELDS: u32 = 500;

/// What closing a cluster comes to.
type Ending = Result<Closed<IndexTable<Global>>, CloseFault>;

/// Puts the first nodes of these names into a set. Where it has no room for all of them, some are left out.
fn put_all(set: &mut NodeSet, nodes: &[NodeName])
    ensures all { length set.old + length nodes.now ≤ MOST_NODES
        → (c : ℕ) → set_of set.new c ≡ (set_of set.old c || set_of nodes.now c) }
    ensures room { length set.new ≤ length set.old + length nodes.now }
{
    for node in nodes {
        let _ = set.insert(Node::first(node.copy()));
    }
}

/// The set of all these names, of which there are eight at most.
pub(crate) fn set_of_all(cluster: &[NodeName], lone: &[NodeName]) -> NodeSet
    ensures { length cluster.now + length lone.now ≤ MOST_NODES
        → (c : ℕ) → set_of result c ≡ (set_of cluster.now c || set_of lone.now c) }
{
    let mut set = NodeSet::empty();
    put_all(&mut set, cluster);
    put_all(&mut set, lone);
    set
}

/// Closes a cluster with what its consoles left of their seats, and holds what these knew against the books of their nodes.
fn close_over<R: Threads>(
    rt: &R,
    running: ServedCluster,
    cluster: &[NodeName],
    lone: &[NodeName],
    legacy: &Legacy,
) -> Ending
    requires crew { IsCrew cluster.now lone.now running.crew }
    requires books { All (IsOfCrew running.crew) legacy.now.witnesses.items }
    ensures { Ends running legacy.now.transcripts.items legacy.now.witnesses.items result }
{
    let (closed, pasts) = running.close_telling(rt, legacy.transcripts.as_slice())?;
    cover_all(pasts.as_slice(), cluster, lone, legacy.witnesses.as_slice());
    Ok(closed)
}

/// Closes a cluster so, and tells what it closed with.
fn close_with<R, W>(
    rt: &R,
    alloc: Global,
    running: ServedCluster,
    cluster: &[NodeName],
    lone: &[NodeName],
    legacy: &Legacy,
    writer: &mut W,
) -> Result<bool, ServeFault>
where
    R: Threads,
    W: Write,
    requires crew { IsCrew cluster.now lone.now running.crew }
    requires books { All (IsOfCrew running.crew) legacy.now.witnesses.items }
    ensures { Tells running legacy.now.transcripts.items legacy.now.witnesses.items (W.contents writer.old) (W.contents writer.new) result }
{
    let ending = close_over(rt, running, cluster, lone, legacy);
    let line = ending_line(alloc, &ending)?;
    tell(writer, line.as_bytes())?;
    Ok(ending.is_ok())
}

/// Closes a cluster of which nothing is told.
fn abandon<R: Threads>(rt: &R, running: ServedCluster) {
    let _ = running.close(rt, &[]);
}

/// Closes a cluster of these nodes with what its consoles left behind, and tells what it closed with. After a fault nothing is told.
fn close<R, W>(
    rt: &R,
    alloc: Global,
    running: ServedCluster,
    cluster: &[NodeName],
    lone: &[NodeName],
    served: Result<Vec<Left>, TakeFault>,
    writer: &mut W,
) -> Result<bool, ServeFault>
where
    R: Threads,
    W: Write,
    requires crew { IfOk served (λ _. IsCrew cluster.now lone.now running.crew) }
    requires books { IfOk served (λ lefts. All (IsOfCrew running.crew) (witnesses_in lefts.items)) }
    ensures { MatchResult served
        (λ lefts. Tells running (transcripts_in lefts.items) (witnesses_in lefts.items) (W.contents writer.old) (W.contents writer.new) result)
        (λ _. Fails (W.contents writer.old) (W.contents writer.new) result) }
{
    // A cluster that is let go must be closed, also after a fault: its threads end here.
    match served {
        Ok(lefts) => match legacy_of(alloc, lefts) {
            Ok(legacy) => close_with(rt, alloc, running, cluster, lone, &legacy, writer),
            Err(_) => {
                abandon(rt, running);
                Err(ServeFault::Memory)
            }
        },
        Err(fault) => {
            abandon(rt, running);
            Err(ServeFault::from(fault))
        }
    }
}

/// Runs a cluster of threads and serves consoles: those of `cluster` are joined with each other, and each of `lone` stands for
/// itself. It takes `consoles` connections, each served in a thread of its own, at a seat that the cluster gives it. When the last
/// console has ended the cluster is closed with the transcripts of all, and one line is written that tells what it closed with:
/// `closed` with the number of events, and then the result is true; or `error` with the fault, and then it is false. What a console
/// meets changes nothing for the others. What each looked up and was told its seat's own node showed and told, by the loop whose log is
/// replayed then.
///
/// After a fault no further console is taken and no line is written; the cluster is closed all the same, behind the consoles
/// that were taken.
pub fn run_serve<R, W>(
    rt: &R,
    alloc: Global,
    listener: TcpListener,
    cluster: &[NodeName],
    lone: &[NodeName],
    consoles: u32,
    writer: &mut W,
) -> Result<bool, ServeFault>
where
    R: Threads + Wait + Clock + Drop + Copy + Send + Sync + 'static,
    W: Write,
    requires { start_refused cluster.now lone.now ≡ None }
    ensures { ServesCluster cluster.now lone.now consoles (W.contents writer.old) (W.contents writer.new) result }
{
    let Ok(mut running) = Cluster::start(rt, alloc, cluster, lone, OpenGate, YIELDS, 0) else {
        return Err(ServeFault::Memory);
    };
    let door = Door {
        rt: *rt,
        alloc,
        listener,
        nodes: set_of_all(cluster, lone),
    };
    let served = door.serve(consoles, &mut running);
    close(rt, alloc, running, cluster, lone, served, writer)
}
