//! Taking consoles from a listener, each into a thread of its own.
ghost use denote.Param.Send.{IsSend};
ghost use Rattle.std.specs.Prelude.{◌≡◌, IfOk, OnOk};
ghost use Rattle.server.specs.Attending.{Reaches};
ghost use Rattle.server.specs.Served.{LeavesBehind, AllLeave, IsServed};
ghost use Rattle.server.specs.Taking.{starts_of, ReachesAll, Takes};

use crate::attending::attend;
use crate::faults::TakeFault;
use crate::served::{Left, LeftBehind, Place, Start};
use name_table::IndexTable;
use node_threads::{Cluster, OpenGate};
use std::alloc::{AllocError, Global};
use std::io::{BufReader, ErrorKind};
use std::net::{TcpListener, TcpStream};
use std::snapshot::Snapshot;
use std::sync::Wait;
use std::thread;
use std::thread::{PromisedHandle, Threads};
use std::time::Clock;
use term::NodeSet;

/// A cluster that is served: its tables hash, and no turn of its nodes is held back.
pub(crate) type ServedCluster = Cluster<OpenGate, IndexTable<Global>>;

/// The thread of a console, which gives what the console leaves behind.
type ConsoleThread = PromisedHandle<Left, LeftBehind>;

/// Where consoles are taken from, and to which nodes they may be attached.
#[derive(Drop)]
pub(crate) struct Door<R: Drop> {
    pub(crate) rt: R,
    pub(crate) alloc: Global,
    pub(crate) listener: TcpListener,
    pub(crate) nodes: NodeSet,
}

/// Serves the console at the other end of a connection. Each answer is sent at once, also where lines were sent ahead and the answer
/// before isn't acknowledged yet; a connection that can't be told so is served all the same.
fn attend_stream<H: Wait + Clock>(rt: &H, alloc: Global, stream: TcpStream, start: Start) -> Left
    requires { Reaches start.nodes start.place }
    ensures { LeavesBehind start result }
{
    let Start { nodes, place } = start;
    let _ = stream.set_nodelay(true);
    match BufReader::new(alloc, &stream) {
        Ok(mut reader) => attend(rt, alloc, &mut reader, &mut &stream, &nodes, place),
        Err(_) => Left::Unserved(place),
    }
}

/// Takes a connection, unless the one that came was given up before.
fn accept(listener: &TcpListener) -> Result<Option<TcpStream>, TakeFault> {
    match listener.accept() {
        Ok((stream, _peer)) => Ok(Some(stream)),
        Err(fault) if fault.kind() == ErrorKind::ConnectionAborted => Ok(None),
        Err(_) => Err(TakeFault::Accept),
    }
}

/// Starts the thread of a console.
fn start_console<R>(
    rt: &R,
    alloc: Global,
    stream: TcpStream,
    start: Start,
) -> Result<ConsoleThread, AllocError>
where
    R: Threads + Wait + Clock + Drop + Copy + Send + 'static,
    requires { Reaches start.nodes start.place }
    ensures { IfOk result (λ thread. thread.promise.0.value ≡ start) }
{
    let promise = LeftBehind(Snapshot::of(&start));
    let own = *rt;
    let handle = thread::spawn_with(
        rt,
        promise,
        move || -> Left
            requires sends { IsSend R.row }
            requires reaches { Reaches start.nodes start.place }
            ensures { LeavesBehind start result }
        { attend_stream(&own, alloc, stream, start) },
    )?;
    Ok(handle)
}

impl<R: Threads + Wait + Clock + Drop + Copy + Send + 'static> Door<R> {
    /// Takes one console more, with a new seat of the cluster.
    fn take_one(
        &self,
        cluster: &mut ServedCluster,
        threads: &mut Vec<ConsoleThread>,
    ) -> Result<(), TakeFault>
        requires { ReachesAll self.now.nodes cluster.old }
        ensures { OnOk result (Takes self.now.nodes 1 cluster.old (starts_of threads.old.items) cluster.new (starts_of threads.new.items)) }
    {
        threads.reserve(1)?;
        if let Some(stream) = accept(&self.listener)? {
            let place = cluster.free_seat();
            let nodes = self.nodes.copy();
            threads.push_reserved(start_console(
                &self.rt,
                self.alloc,
                stream,
                Start { nodes, place },
            )?);
        }
        Ok(())
    }

    /// Takes so many consoles.
    fn take_all(
        &self,
        consoles: u32,
        cluster: &mut ServedCluster,
        threads: &mut Vec<ConsoleThread>,
    ) -> Result<(), TakeFault>
        requires { ReachesAll self.now.nodes cluster.old }
        ensures { OnOk result (Takes self.now.nodes consoles cluster.old (starts_of threads.old.items) cluster.new (starts_of threads.new.items)) }
    {
        for _ in 0..consoles {
            self.take_one(cluster, threads)?;
        }
        Ok(())
    }

    /// Takes so many consoles, or fewer after a fault, and waits until all have ended: what each left behind. The listener is let go before
    /// that, so whoever comes too late is told by the system, and waits for nothing.
    pub(crate) fn serve(
        self,
        consoles: u32,
        cluster: &mut ServedCluster,
    ) -> Result<Vec<Left>, TakeFault>
        requires { ReachesAll self.nodes cluster.old }
        ensures { IfOk result (λ lefts. IsServed self.nodes consoles cluster.old cluster.new lefts.items) }
    {
        let mut threads = Vec::new(self.alloc);
        let taken = self.take_all(consoles, cluster, &mut threads);
        let Door {
            rt,
            alloc,
            listener,
            ..
        } = self;
        drop(listener);
        let lefts = join_all(&rt, alloc, threads);
        taken?;
        Ok(lefts?)
    }
}

/// Waits until these consoles have ended: what each left behind, in their order.
fn join_all<R: Threads>(
    rt: &R,
    alloc: Global,
    threads: Vec<ConsoleThread>,
) -> Result<Vec<Left>, AllocError>
    ensures { IfOk result (λ lefts. AllLeave (starts_of threads.items) lefts.items) }
{
    let mut lefts = Vec::new(alloc);
    let mut whole = true;
    for thread in threads {
        let left = thread.join(rt);
        if lefts.push(left).is_err() {
            whole = false;
        }
    }
    if whole { Ok(lefts) } else { Err(AllocError) }
}
