//! Serving a cluster until a console asks for its end.
ghost use Rattle.std.specs.Prelude.{◌≡◌, None, IfOk};
ghost use Rattle.node_threads.specs.Openings.{start_refused};
ghost use Rattle.server.specs.Staying.{AreAll, GivesOut, Serve, StaysCluster, StaysRunning, TellsEnd};

mod descriptors;
mod desk;
mod door;
mod first_line;
mod hall;
mod lookout;
mod memory;
mod moment;
mod notes;
mod office;
mod options;
mod seats;
mod staff;
pub(crate) mod stream;
mod worker;

use crate::ending::end_line;
use crate::faults::StayFault;
use crate::listener::Listener;
use crate::serving::{YIELDS, set_of_all};
use crate::staying::descriptors::shortage;
use crate::staying::desk::{StayingCluster, stay, tell_if};
pub use crate::staying::lookout::{Lookout, Spent};
use crate::staying::memory::resident;
use crate::staying::moment::microseconds;
pub use crate::staying::options::StayOptions;
use crate::staying::seats::Seats;
use crate::staying::staff::{Staff, workers_for};
use node_threads::{OpenGate, SeatFault};
use std::alloc::Global;
use std::fs::Files;
use std::io::Write;
use std::sync::Wait;
use std::thread::Threads;
use std::time::Clock;
use term::{NodeName, NodeSet};
use text_lines::tell;

/// Ends a cluster, waits for the threads of its server, and tells what it came to.
fn end<R, W, E>(
    rt: &R,
    alloc: Global,
    cluster: StayingCluster,
    staff: Staff,
    writer: &mut W,
    errors: &mut E,
) -> Result<bool, StayFault>
where
    R: Threads + Wait + Clock,
    W: Write,
    E: Write,
    ensures { TellsEnd cluster (W.contents writer.old) (W.contents writer.new) result }
{
    staff.close(rt);
    let ending = cluster.end(rt);
    // Calls that waited are answered now, so consoles end.
    staff.see_off(rt, alloc, errors);
    let line = end_line(alloc, &ending)?;
    tell(writer, line.as_bytes())?;
    Ok(ending.is_ok())
}

/// Ends a cluster of which nothing can be told, and waits for the threads of its server.
fn give_up<R, E>(rt: &R, alloc: Global, cluster: StayingCluster, staff: Staff, errors: &mut E)
where
    R: Threads + Wait + Clock,
    E: Write,
{
    staff.close(rt);
    let _ = cluster.end(rt);
    staff.see_off(rt, alloc, errors);
}

/// Tells by this line that consoles may come, and serves them until one asks for the end.
fn serve<R, W, E>(
    rt: &R,
    alloc: Global,
    cluster: StayingCluster,
    nodes: &NodeSet,
    staff: Staff,
    listening: &str,
    writer: &mut W,
    errors: &mut E,
) -> Result<bool, StayFault>
where
    R: Threads + Wait + Clock + Files,
    W: Write,
    E: Write,
    requires all { AreAll nodes.now cluster }
    requires served { Serve nodes.now staff.threads.items }
    ensures { StaysRunning cluster listening.now (W.contents writer.old) (W.contents writer.new) result }
{
    match tell(writer, listening.as_bytes()) {
        Ok(()) => {
            stay(rt, alloc, &cluster, nodes, &staff, errors);
            end(rt, alloc, cluster, staff, writer, errors)
        }
        Err(_) => {
            give_up(rt, alloc, cluster, staff, errors);
            Err(StayFault::Write)
        }
    }
}

/// The threads that serve the consoles of a cluster of these nodes, by all of its seats.
fn hire<R>(
    rt: &R,
    alloc: Global,
    listener: Listener,
    cluster: &mut StayingCluster,
    nodes: &NodeSet,
    options: StayOptions,
) -> Result<Staff, SeatFault>
where
    R: Threads + Wait + Clock + Files + Drop + Copy + Send + Sync + 'static,
    ensures seats { GivesOut cluster.old cluster.new }
    ensures served { IfOk result (λ staff. Serve nodes.now staff.threads.items) }
{
    let seats = Seats::of(alloc, cluster, nodes, workers_for(options.consoles))?;
    let staff = Staff::start(
        rt,
        alloc,
        listener,
        nodes.copy(),
        seats,
        options,
        resident(rt),
    )?;
    Ok(staff)
}

/// Runs a cluster of threads and serves consoles until one of them asks for the end by the line `shutdown`: those of `cluster` are
/// joined with each other, and each of `lone` stands for itself. As many consoles are attached at once as the options say, and others are
/// told `error too_many_consoles`; with none at all nobody can ask for the end. A connection counts for none of them before its first line
/// has let it in: sixteen more are served at once, each in a thread of its own. Behind a first line that shows the cookie, if there is one,
/// a console is lent one of the cluster's seats for each thing that it asks. The nodes keep none of their steps, whose stamps begin with the
/// microseconds of the system's clock at the start. A connection that couldn't be taken ends nothing. What happens is told on `errors`,
/// whose faults are passed over.
///
/// Once all its threads are there it is told for how many consoles the descriptors serve, if they are too few, and the line `listening` is
/// written. At the end connections are ended, calls that wait are answered `closed`,
/// and one line is written that tells what the cluster came to: `closed` with the number of events, and then the result is true; or
/// `error` with the fault, and then it is false. `Start`: memory was refused, or a thread couldn't be had, and no line is written.
/// `Write`: a part of the lines is. `Memory`: memory was refused for the last line, so the first one is written alone.
pub fn run_stay<R, W, E>(
    rt: &R,
    alloc: Global,
    listener: Listener,
    cluster: &[NodeName],
    lone: &[NodeName],
    options: StayOptions,
    listening: &str,
    writer: &mut W,
    errors: &mut E,
) -> Result<bool, StayFault>
where
    R: Threads + Wait + Clock + Files + Drop + Copy + Send + Sync + 'static,
    W: Write,
    E: Write,
    requires { start_refused cluster.now lone.now ≡ None }
    ensures { StaysCluster cluster.now lone.now listening.now (W.contents writer.old) (W.contents writer.new) result }
{
    let begin = microseconds(rt);
    let Ok(mut running) = StayingCluster::start(rt, alloc, cluster, lone, OpenGate, YIELDS, begin)
    else {
        return Err(StayFault::Start);
    };
    let nodes = set_of_all(cluster, lone);
    let short = shortage(listener.fd(), options.consoles);
    match hire(rt, alloc, listener, &mut running, &nodes, options) {
        Ok(staff) => {
            tell_if(alloc, errors, short);
            serve(rt, alloc, running, &nodes, staff, listening, writer, errors)
        }
        Err(_) => {
            // A cluster that is let go must be ended: its threads end here.
            let _ = running.end(rt);
            Err(StayFault::Start)
        }
    }
}
