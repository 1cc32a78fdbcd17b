//! Work under the locks of a world's clients.
use crate::worlds::{Cluster, Scene, is_so, is_text};
use cluster_world::{LocalEvent, Refusal, StepFault, WorldEvent, WorldSeat, WorldSeatFault};
use name_table::ListTable;
use std::alloc::Global;
use term::{LockId, Pid, parse_pid, parse_requester, parse_resource};
use transaction::{LockSeat, Nodes, Outcome, Retries, TransFault, trans};

/// What work under a lock comes to.
type Worked = Result<Outcome<u32>, TransFault<u32, WorldSeatFault>>;

/// The lock of a requester on the resource `r`.
fn lock(requester: &str) -> Option<LockId> {
    match (parse_resource("r"), parse_requester(requester)) {
        (Ok(resource), Ok(requester)) => Some(LockId {
            resource,
            requester,
        }),
        _ => None,
    }
}

/// A process dies.
fn kill(world: &mut Cluster, process: &Pid) {
    let exit = LocalEvent::Exit(process.copy());
    let _ = world.play(&WorldEvent::At(process.node.copy(), exit));
}

/// What seven comes to that a holder answers under a lock, and dies meanwhile, where it is to.
fn seven(world: &mut Cluster, holder: &Pid, id: &LockId, retries: Retries, dies: bool) -> Worked {
    let mut seat = WorldSeat::new(world, holder.copy());
    trans(
        &mut seat,
        id,
        &Nodes::All,
        retries,
        |held: &mut WorldSeat<ListTable<Global>>| {
            if dies {
                kill(held.world, holder);
            }
            7
        },
    )
}

/// A word of what work came to.
fn word(worked: &Worked) -> &'static str {
    match worked {
        Ok(Outcome::Done(7)) => "seven",
        Ok(Outcome::Aborted) => "aborted",
        Err(TransFault::Set(WorldSeatFault::NoAnswer)) => "no_answer",
        Err(TransFault::Set(WorldSeatFault::Refused(Refusal::Step(StepFault::Busy(_))))) => "busy",
        Err(TransFault::Del(WorldSeatFault::Refused(Refusal::Step(StepFault::NotLive(_))), 7)) => {
            "not_live"
        }
        _ => "other",
    }
}

/// What such work comes to in the name of a requester.
fn works(
    world: &mut Cluster,
    holder: &str,
    requester: &str,
    retries: Retries,
    dies: bool,
) -> &'static str {
    match (parse_pid(holder), lock(requester)) {
        (Ok(holder), Some(id)) => word(&seven(world, &holder, &id, retries, dies)),
        _ => "no lock",
    }
}

/// Whether a holder is granted a lock at once.
fn is_granted(world: &mut Cluster, holder: Pid, id: &LockId) -> bool {
    let mut seat = WorldSeat::new(world, holder);
    let is_granted = matches!(seat.set_lock(id, &Nodes::All, Retries::Times(0)), Ok(true));
    is_granted && seat.replies().len() == 1
}

/// Whether a holder is granted the lock of a requester at once.
fn is_free(world: &mut Cluster, holder: &str, requester: &str) -> bool {
    match (parse_pid(holder), lock(requester)) {
        (Ok(holder), Some(id)) => is_granted(world, holder, &id),
        _ => false,
    }
}

/// Whether work is done under a lock that is free, and not while another has it; nor while a call of its holder waits.
pub(crate) fn works_while_free(world: &mut Cluster) -> bool {
    works(world, "a.1", "q", Retries::Times(0), false) == "seven"
        && is_free(world, "a.2", "z")
        && works(world, "a.1", "q", Retries::Times(0), false) == "aborted"
        && works(world, "a.1", "q", Retries::Endless, false) == "no_answer"
        && works(world, "a.1", "q", Retries::Endless, false) == "busy"
}

#[test]
fn works_under_a_lock(rt: HostRuntime) {
    assert!(rt; is_so(rt.alloc(), "a,b", "spawn a, spawn a", Scene::Work));
}

/// Whether a holder that dies at work loses the lock.
pub(crate) fn loses_when_dead(world: &mut Cluster) -> bool {
    works(world, "a.1", "q", Retries::Times(0), true) == "not_live" && is_free(world, "a.2", "z")
}

#[test]
fn loses_the_lock_with_its_holder(rt: HostRuntime) {
    assert!(rt; is_so(rt.alloc(), "a,b", "spawn a, spawn a", Scene::Death));
}

/// Whether a fault is shown so.
fn is_shown(alloc: Global, fault: &WorldSeatFault, wanted: &str) -> bool {
    is_text(format!(in alloc; "{fault}"), wanted)
}

#[test]
fn names_what_gets_no_reply(rt: HostRuntime) {
    let refused = WorldSeatFault::Refused(Refusal::Step(StepFault::Reserved));
    assert!(rt; is_shown(rt.alloc(), &refused, "reserved"));
    assert!(rt; is_shown(rt.alloc(), &WorldSeatFault::NoMemory, "no_memory"));
    assert!(rt; is_shown(rt.alloc(), &WorldSeatFault::NoAnswer, "no_answer"));
}
