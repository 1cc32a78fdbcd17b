//! The desk of a server that stays: it owns the cluster, and hears what consoles tell it.
ghost use Rattle.std.specs.Prelude.{◌≡◌, not};
ghost use Rattle.server.specs.Notes.{is_shutdown, shutdown_by};
ghost use Rattle.server.specs.Staying.{AreAll, Serve};
ghost use Rattle.server.specs.declared.staying.desk.Message.TheVariants.{Tell};
ghost use Rattle.server.specs.declared.staying.notes.Note.TheVariants.{Parted};

use crate::staying::lookout::Lookout;
use crate::staying::memory::resident;
use crate::staying::notes::{Note, Parting, spent_notes, tell_note};
use crate::staying::staff::Staff;
use crossbeam_channel::{Receiver, RecvTimeoutError};
use name_table::IndexTable;
use node_threads::{Cluster, ForgottenLog, OpenGate};
use std::alloc::Global;
use std::fs::Files;
use std::io::Write;
use std::sync::Wait;
use std::sync::atomic::Ordering;
use std::time::{Clock, Duration};
use term::{NodeName, NodeSet};

/// For how many seconds the desk waits for a message before it looks how things stand.
const PAUSE: u64 = 10;

/// A cluster that stays: its tables hash, no turn of its nodes is held back, and none of their steps is kept.
pub(crate) type StayingCluster = Cluster<OpenGate, IndexTable<Global>, ForgottenLog>;

/// What the other threads say to the desk.
#[derive(Drop)]
pub(crate) enum Message {
    /// What happened.
    Tell(Note),
    /// A console asks for the end of the server.
    Shutdown,
}

/// What the desk is told where a console has ended: how, and behind that, that it asked for the end of the server, if it did.
pub(crate) fn farewell(number: u64, node: NodeName, parting: Parting) -> (Message, Option<Message>)
    ensures told { result.0 ≡ Tell (Parted number node parting) }
    ensures asks { result.1 ≡ shutdown_by parting }
{
    let asks = parting.asks_for_the_end();
    let told = Message::Tell(Note::Parted(number, node, parting));
    if asks {
        (told, Some(Message::Shutdown))
    } else {
        (told, None)
    }
}

/// Does what a message asks for: whether the server stays.
fn heed<E: Write>(alloc: Global, message: Message, errors: &mut E) -> bool
    ensures { result ≡ not (is_shutdown message) }
{
    match message {
        Message::Tell(note) => {
            tell_note(alloc, errors, &note);
            true
        }
        Message::Shutdown => false,
    }
}

/// Waits for a message, for a while and no longer, and does what it asks for: whether the server stays.
fn attend<R: Wait + Clock, E: Write>(
    rt: &R,
    alloc: Global,
    messages: &Receiver<Message>,
    errors: &mut E,
) -> bool {
    match messages.recv_timeout(rt, Duration::from_secs(PAUSE)) {
        Ok(message) => heed(alloc, message, errors),
        Err(RecvTimeoutError::Timeout) => true,
        Err(RecvTimeoutError::Disconnected) => false,
    }
}

/// Tells what happened, if anything did.
pub(crate) fn tell_if<E: Write>(alloc: Global, errors: &mut E, note: Option<Note>) {
    if let Some(note) = note {
        tell_note(alloc, errors, &note);
    }
}

/// Tells of each node whose numbers are nearly spent, once.
fn look_round<E: Write>(
    alloc: Global,
    cluster: &StayingCluster,
    nodes: &NodeSet,
    lookout: &mut Lookout,
    errors: &mut E,
) {
    for node in nodes.as_slice() {
        let Ok(status) = cluster.status(node.name()) else {
            continue;
        };
        let spent = lookout.look(&status.node, &status.numbers);
        let (calls, serials) = spent_notes(&status.node, spent);
        tell_if(alloc, errors, calls);
        tell_if(alloc, errors, serials);
    }
}

/// Does what messages ask for, until one asks for the end. Behind each message, and where none comes for a while, it looks how much memory
/// the process has, and how far the numbers of these nodes have come, which are all of the cluster, and the ones that its staff serves.
pub(crate) fn stay<R: Wait + Clock + Files, E: Write>(
    rt: &R,
    alloc: Global,
    cluster: &StayingCluster,
    nodes: &NodeSet,
    staff: &Staff,
    errors: &mut E,
)
    requires all { AreAll nodes.now cluster.now }
    requires served { Serve nodes.now staff.now.threads.items }
{
    let mut lookout = Lookout::new();
    for _ in rt.forever() {
        if !attend(rt, alloc, &staff.messages, errors) {
            return;
        }
        staff.memory.store(resident(rt), Ordering::SeqCst);
        look_round(alloc, cluster, nodes, &mut lookout, errors);
    }
}

/// Tells what is said when the cluster has ended. An end was asked for before.
pub(crate) fn dismiss<E: Write>(alloc: Global, message: Message, errors: &mut E) {
    if let Message::Tell(note) = message {
        tell_note(alloc, errors, &note);
    }
}
