//! The threads of a server that stays.
ghost use denote.Param.Send.{IsSend};
ghost use Rattle.std.specs.Prelude.{◌≡◌, ◌+◌, ℕ, List, length, IfOk, OnOk};
ghost use Rattle.server.specs.Staying.{Serve, Starts, workers_for};

use crate::listener::Listener;
use crate::staying::desk::{Message, dismiss};
use crate::staying::door::Door;
use crate::staying::hall::{Guest, Hall};
use crate::staying::office::Office;
use crate::staying::options::StayOptions;
use crate::staying::seats::Seats;
use crate::staying::worker::Worker;
use crossbeam_channel::{Receiver, RecvTimeoutError, Sender, bounded};
use descriptions::SharedDescriptions;
use lock_lines::LockLines;
use std::alloc::{AllocError, Global};
use std::io::Write;
use std::snapshot::Snapshot;
use std::sync::atomic::AtomicU64;
use std::sync::{Arc, Mutex, Wait};
use std::thread;
use std::thread::{Promise, PromisedHandle, Threads};
use std::time::{Clock, Duration};
use term::{ENTRANCES, NodeSet};

/// How many messages the desk leaves unread before those that say more wait.
const MESSAGES: usize = 256;

/// How long a console may go on without a word to the desk after the cluster has ended, in milliseconds.
const GRACE: u64 = 1_000;

/// The workers and the door of a server, and what they say to the desk.
#[derive(Drop)]
pub(crate) struct Staff {
    pub(crate) messages: Receiver<Message>,
    /// How many bytes of memory the process has, which the desk tells the workers.
    pub(crate) memory: Arc<AtomicU64, Global>,
    hall: Arc<Mutex<Hall>, Global>,
    threads: Vec<DutyThread>,
}

/// That a thread served these nodes, and gives them back as it ends.
#[derive(Drop)]
pub(crate) struct Posted(pub(crate) Snapshot<NodeSet>);

impl Promise<NodeSet> for Posted {
    ghost use Rattle.std.specs.Prelude.{◌≡◌};

    ghost kept_by = { λ promise nodes. nodes ≡ promise.0.value };
}

/// A thread of a server, which gives the nodes that it served.
type DutyThread = PromisedHandle<NodeSet, Posted>;

/// What a thread does until it ends.
pub(crate) trait Duty: Drop {
    /// For which nodes it does so.
    ghost served: { Self → List ℕ };

    /// For which nodes it does so.
    fn nodes(&self) -> &NodeSet
        ensures { result.now ≡ served self.now };

    /// Does so: for which nodes it was.
    fn run(self) -> NodeSet
        ensures { result ≡ served self };
}

/// Starts a thread.
fn start<R: Threads, D: Duty + Send + 'static>(rt: &R, duty: D) -> Result<DutyThread, AllocError>
    ensures { IfOk result (λ thread. thread.promise.0.value ≡ D.served duty) }
{
    let promise = Posted(Snapshot::of(duty.nodes()));
    let handle = thread::spawn_with(
        rt,
        promise,
        move || -> NodeSet
            requires sends { IsSend D.row }
            ensures { result ≡ D.served duty }
        { duty.run() },
    )?;
    Ok(handle)
}

/// Starts a thread, and puts it behind these.
fn post<R: Threads, D: Duty + Send + 'static>(
    rt: &R,
    duty: D,
    threads: &mut Vec<DutyThread>,
) -> Result<(), AllocError>
    ensures { OnOk result (Starts (D.served duty) 1 threads.old.items threads.new.items) }
{
    threads.reserve(1)?;
    threads.push_reserved(start(rt, duty)?);
    Ok(())
}

/// Starts so many workers.
fn start_workers<R>(
    office: &Office<R>,
    workers: u32,
    threads: &mut Vec<DutyThread>,
) -> Result<(), AllocError>
where
    R: Threads + Wait + Clock + Drop + Copy + Send + Sync + 'static,
    ensures { OnOk result (Starts office.now.nodes workers threads.old.items threads.new.items) }
{
    for place in 0..workers {
        let worker = Worker {
            office: office.copy()?,
            place: place as usize,
        };
        post(&office.rt, worker, threads)?;
    }
    Ok(())
}

/// Starts so many workers, and the door. The workers that were started end where the door isn't.
fn start_all<R>(
    office: Office<R>,
    listener: Listener,
    guests: Sender<Guest>,
    workers: u32,
    threads: &mut Vec<DutyThread>,
) -> Result<(), AllocError>
where
    R: Threads + Wait + Clock + Drop + Copy + Send + Sync + 'static,
    ensures { OnOk result (Starts office.nodes (workers + 1) threads.old.items threads.new.items) }
{
    start_workers(&office, workers, threads)?;
    let rt = office.rt;
    let door = Door {
        office,
        listener,
        workers: guests,
    };
    post(&rt, door, threads)
}

/// How many workers there are where so many consoles may be attached at once.
pub(crate) fn workers_for(consoles: u32) -> u32
    ensures { result ≡ workers_for consoles }
{
    consoles.saturating_add(ENTRANCES)
}

impl Staff {
    /// Starts the workers for so many consoles, each of which serves these nodes by these seats, and the door of this listener. So much memory
    /// the process has then. Where a thread can't be had, those that were started have ended.
    pub(crate) fn start<R>(
        rt: &R,
        alloc: Global,
        listener: Listener,
        nodes: NodeSet,
        seats: Seats,
        options: StayOptions,
        memory: u64,
    ) -> Result<Self, AllocError>
    where
        R: Threads + Wait + Clock + Drop + Copy + Send + Sync + 'static,
        ensures served { IfOk result (λ staff. Serve nodes staff.threads.items) }
        ensures many { IfOk result (λ staff. length staff.threads.items ≡ workers_for options.consoles + 1) }
    {
        let places = options.consoles;
        let workers = workers_for(places);
        // No message takes memory, so none is lost. No more connections wait than workers were engaged.
        let (desk, messages) = bounded(alloc, MESSAGES)?;
        let (to_workers, guests) = bounded(alloc, workers as usize)?;
        let hall = Arc::new(alloc, Mutex::new(Hall::new(alloc, workers, places)?))?;
        let memory = Arc::new(alloc, AtomicU64::new(memory))?;
        let office = Office {
            rt: *rt,
            alloc,
            nodes,
            options: Arc::new(alloc, options)?,
            hall: Arc::try_clone(&hall)?,
            memory: Arc::try_clone(&memory)?,
            lines: Arc::new(alloc, LockLines::new(alloc))?,
            descriptions: Arc::new(alloc, SharedDescriptions::new(alloc))?,
            seats: Arc::new(alloc, seats)?,
            guests,
            desk,
        };
        let mut threads = Vec::new(alloc);
        match start_all(office, listener, to_workers, workers, &mut threads) {
            Ok(()) => Ok(Staff {
                messages,
                memory,
                hall,
                threads,
            }),
            Err(fault) => {
                join_all(rt, threads);
                Err(fault)
            }
        }
    }

    /// No connection is taken any more, and those that are open have no further line.
    pub(crate) fn close<R: Wait>(&self, rt: &R) {
        self.hall.lock(rt).close();
    }

    /// Waits until all threads have ended, behind the end of the cluster. Connections that are still open when nothing was said for a
    /// while are ended.
    pub(crate) fn see_off<R, E>(self, rt: &R, alloc: Global, errors: &mut E)
    where
        R: Threads + Wait + Clock,
        E: Write,
    {
        for _ in rt.forever() {
            match self.messages.recv_timeout(rt, Duration::from_millis(GRACE)) {
                Ok(message) => dismiss(alloc, message, errors),
                Err(RecvTimeoutError::Timeout) => self.hall.lock(rt).cut(),
                Err(RecvTimeoutError::Disconnected) => break,
            }
        }
        join_all(rt, self.threads);
    }
}

/// Waits until these threads have ended.
fn join_all<R: Threads>(rt: &R, threads: Vec<DutyThread>) {
    for thread in threads {
        let _ = thread.join(rt);
    }
}
