//! Plays the logs of closed nodes on a world.
ghost use Rattle.std.specs.Prelude.{◌≡◌, ◌++◌, ◌<◌, ℕ, [], true, false, None, Some, length, map, IfOk, IfErr, OnOk, All, slice_get};
ghost use Rattle.term.specs.NodeSets.{set_of};
ghost use Rattle.cluster_world.specs.WorldState.{nodes_of};
ghost use Rattle.cluster_world.specs.Seen.{names_of, seen};
ghost use Rattle.node_log.specs.Openings.{repeats, start_refused};
ghost use Rattle.replay.specs.Consistent.{AreConsistent, is_torn};
ghost use Rattle.replay.specs.Ends.{end_of, logs_of, HasTableOf};
ghost use Rattle.replay.specs.Playing.{IsRun};
ghost use Rattle.replay.specs.Replaying.{RunsThrough, StopsLogs, AreAll, Differs, Replayed, IsFault};
ghost use Rattle.replay.specs.Transcripts.{Fits};

use crate::closed::Closed;
use crate::faults::CloseFault;
use crate::merge::{advance, next_place, open};
use crate::player::play_next;
use crate::tables::{least_alone, least_other_table};
use crate::transcripts::least_stranger;
use cluster_world::World;
use name_table::Names;
use node_log::{NodeEnd, Transcript};
use std::alloc::Global;
use term::NodeName;

/// Plays the logs, merged by stamp and then node, on a world that has just opened, and gives the number of their steps.
fn play_logs<N: Names<Memory = Global>>(
    alloc: Global,
    world: &mut World<N>,
    ends: &[NodeEnd<N>],
) -> Result<u64, CloseFault>
    requires once { repeats (map (λ e. e.log.node) ends.now) ≡ false }
    requires opens { IsRun [] world.old }
    ensures ok { IfOk result (λ events. RunsThrough (logs_of (map (end_of N.contents) ends.now)) events world.old world.new) }
    ensures stopped { IfErr result (λ fault. StopsLogs fault (logs_of (map (end_of N.contents) ends.now)) (names_of world.old)) }
{
    let mut readers = open(alloc, ends)?;
    for events in 0..u64::MAX {
        let Some(place) = next_place(readers.as_slice()) else {
            return Ok(events);
        };
        play_next(world, &readers[place])?;
        advance(&mut readers, place);
    }
    // No memory holds so many steps.
    Err(CloseFault::Memory)
}

/// Compares a world that has played the logs of these nodes with them: their last tables, and then what seats were answered.
fn compare<N: Names<Memory = Global>>(
    alloc: Global,
    world: &World<N>,
    ends: &[NodeEnd<N>],
    transcripts: &[Transcript],
) -> Result<(), CloseFault>
    requires once { repeats (map (λ e. e.log.node) ends.now) ≡ false }
    requires nodes { All (λ e. set_of (nodes_of world.now) e.log.node ≡ true) ends.now }
    ensures tables { OnOk result (AreAll (HasTableOf (seen world.now)) (map (end_of N.contents) ends.now)) }
    ensures transcripts { OnOk result (AreAll (Fits (logs_of (map (end_of N.contents) ends.now)) transcripts.now) transcripts.now) }
    ensures refused { IfErr result (λ fault. Differs (seen world.now) (map (end_of N.contents) ends.now) transcripts.now fault) }
{
    if let Some(place) = least_other_table(alloc, world, ends)? {
        let log = &ends[place].log;
        return Err(CloseFault::Torn {
            node: log.node().copy(),
            at: log.len(),
        });
    }
    match least_stranger(ends, transcripts) {
        Some(place) => Err(CloseFault::Stranger(transcripts[place].seat)),
        None => Ok(()),
    }
}

/// Plays the logs of a closed cluster's nodes, merged by stamp and then node, on a world that is started with the same lists, and
/// compares all answers, the nodes' last tables and what seats were answered. Where that succeeds, the run of the threads was one of
/// the world's. `CloseFault` says what is refused, and in which order. It is `Torn` for ends alone that aren't consistent: some node,
/// played by its own log and by the letters that the others' logs send it, doesn't do what its log says, or has another table then.
pub fn replay<N: Names<Memory = Global>>(
    alloc: Global,
    cluster: &[NodeName],
    lone: &[NodeName],
    ends: &[NodeEnd<N>],
    transcripts: &[Transcript],
) -> Result<Closed<N>, CloseFault>
    requires lists { start_refused cluster.now lone.now ≡ None }
    requires once { repeats (map (λ e. e.log.node) ends.now) ≡ false }
    requires each { (c : ℕ) → set_of (map (λ e. e.log.node) ends.now) c ≡ set_of (cluster.now ++ lone.now) c }
    ensures ok { IfOk result (λ closed. Replayed cluster.now lone.now (map (end_of N.contents) ends.now) transcripts.now closed.events closed.world) }
    ensures refused { IfErr result (λ fault. IsFault cluster.now lone.now (map (end_of N.contents) ends.now) transcripts.now fault) }
    ensures torn { IfErr result (λ fault. is_torn fault ≡ true → AreConsistent cluster.now lone.now (map (end_of N.contents) ends.now) → ⊥) }
{
    if let Some(place) = least_alone(ends) {
        return Err(CloseFault::LeftInHold(ends[place].log.node().copy()));
    }
    let Ok(mut world) = World::start(alloc, cluster, lone) else {
        return Err(CloseFault::Memory);
    };
    let events = play_logs(alloc, &mut world, ends)?;
    compare(alloc, &world, ends, transcripts)?;
    Ok(Closed { events, world })
}
