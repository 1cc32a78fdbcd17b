//! A cluster that is ended without a replay.
use crate::calls::register;
use crate::plays::names_of;
use crate::tables::Stubborn;
use name_table::Names;
use node_threads::{
    Call, Cluster, EndFault, EndedCluster, ForgottenLog, ForgottenNotes, OpenGate, Past, Reply,
    Seat,
};
use std::alloc::Global;
use std::sync::Wait;
use std::thread::Threads;
use std::time::Clock;
use term::{Name, NodeName, Pid, parse_name, parse_pid};

/// A cluster that keeps no step.
type Forgetful = Cluster<OpenGate, Stubborn, ForgottenLog>;

/// Spawns a process, which is to be this one, and registers a name for it. Whether both was done.
fn registers<R: Wait + Clock>(
    rt: &R,
    seat: &mut Seat<ForgottenNotes>,
    process: &Pid,
    name: &Name,
) -> bool {
    let is_owner = seat.call(rt, Call::Spawn) == Ok(Reply::Pid(process.copy()))
        && seat.call(rt, register(name, process)) == Ok(Reply::Yes)
        && seat.whereis(name) == Ok(Some(process.copy()));
    // What the seat knows of its node outlives it, and has no bytes.
    let _known = seat.token();
    is_owner
}

/// Does so from a seat at the process's node.
fn plays<R: Wait + Clock>(rt: &R, cluster: &mut Forgetful, process: &Pid, name: &Name) -> bool {
    match cluster.forgetful_seat(process.node.name()) {
        Ok(mut seat) => registers(rt, &mut seat, process, name),
        Err(_) => false,
    }
}

/// Whether each of two tables says that the process has the name, and the run had steps.
fn is_told(ended: &EndedCluster<Stubborn>, process: &Pid, name: &Name) -> bool {
    let mut all = ended.events >= 4 && ended.tables.len() == 2;
    for entry in &ended.tables {
        all = all && entry.1.owner(name) == Some(process.copy());
    }
    all
}

/// What a cluster's end tells, with the book of each node.
type Ended = Result<(EndedCluster<Stubborn>, Vec<Past>), EndFault>;

/// Whether a cluster's end came to that, and gave a book for each node.
fn is_met(ended: Ended, process: &Pid, name: &Name) -> bool {
    match ended {
        Ok((ended, pasts)) => pasts.len() == 2 && is_told(&ended, process, name),
        Err(EndFault::Memory | EndFault::LeftInHold(_)) => false,
    }
}

/// Registers a name at one of two nodes: what the cluster came to has it at both.
fn ends<R: Threads + Wait + Clock + Drop + Copy + Send + 'static>(
    rt: &R,
    alloc: Global,
    nodes: &[NodeName],
    process: &Pid,
    name: &Name,
) -> bool {
    match Forgetful::start(rt, alloc, nodes, &[], OpenGate, 500, 0) {
        Ok(mut cluster) => {
            let fine = plays(rt, &mut cluster, process, name);
            is_met(cluster.end_telling(rt), process, name) && fine
        }
        Err(_) => false,
    }
}

#[test]
fn tells_of_steps_and_tables(rt: HostRuntime) {
    match (parse_pid("a.1"), parse_name("x")) {
        (Ok(process), Ok(name)) => {
            let nodes = names_of("a,b");
            assert!(rt; ends(&rt, rt.alloc(), nodes.as_slice(), &process, &name));
        }
        _ => assert!(rt; false),
    }
}
