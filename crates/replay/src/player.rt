//! Steps that a world plays.
ghost use Rattle.std.specs.Prelude.{ℕ, ◌≡◌, ◌==◌, Some, IfOk, IfErr, OnOk, MatchBool, [], ◌∷◌};
ghost use Rattle.protocol_model.specs.World.{place};
ghost use Rattle.node_log.specs.Events.{event_of};
ghost use Rattle.cluster_world.specs.Agreeing.{Agrees};
ghost use Rattle.cluster_world.specs.Playing.{Keeps, Played, RefusedWith};
ghost use Rattle.node_log.specs.Logs.{event_of as logged_event, entry_of};
ghost use Rattle.replay.specs.Merging.{Rises};
ghost use Rattle.replay.specs.Moves.{Moves, LocksBehind, Refuses, StopsReader, MovesReader};
ghost use Rattle.replay.specs.Reading.{head_of};
ghost use Rattle.replay.specs.Steps.{is_restart};

use crate::equal::same_answers;
use crate::faults::CloseFault;
use crate::merge::Reader;
use cluster_world::{Refusal, StepFault, World};
use name_table::Names;
use node_log::{Answer, LoggedEntry, LoggedEvent, WorldEvent};
use std::alloc::{AllocError, Global};
use term::Node;

/// Whether an event is one of this node.
fn is_own(node: &Node, event: &WorldEvent) -> bool
    ensures { result ≡ (place (event_of event.now) == node.now) }
{
    match event {
        WorldEvent::At(place, _) => *place == *node,
        WorldEvent::Deliver(_, name) | WorldEvent::Restart(name) => node.is_first_of(name),
    }
}

/// Plays the event of a step.
fn play_logged<N: Names<Memory = Global>>(
    world: &mut World<N>,
    node: &Node,
    event: &LoggedEvent<'_>,
) -> Result<Vec<Answer>, Refusal>
    ensures kept { Keeps world.old world.new }
    ensures agrees { IfOk result (λ answers. Agrees (logged_event node.now event.now ∷ []) answers.items world.old world.new) }
    ensures locks { IfOk result (λ _. LocksBehind (logged_event node.now event.now) world.old world.new) }
    ensures ok { IfOk result (λ answers. Played (logged_event node.now event.now) world.old world.new [] answers.items) }
    ensures refused { IfErr result (λ refusal. RefusedWith refusal (logged_event node.now event.now) world.old) }
{
    match event {
        LoggedEvent::Delivery(sender) => {
            let (from, to) = (sender.name().copy(), node.name().copy());
            world.play(&WorldEvent::Deliver(from, to))
        }
        LoggedEvent::Other(event) => world.play(event),
    }
}

/// Whether an event in the log of a node is one of that node.
fn is_own_logged(node: &Node, event: &LoggedEvent<'_>) -> bool
    ensures { result ≡ (place (event_of (logged_event node.now event.now)) == node.now) }
{
    match event {
        LoggedEvent::Delivery(_) => true,
        LoggedEvent::Other(event) => is_own(node, event),
    }
}

/// Whether a name comes back by an event.
fn is_restart(event: &LoggedEvent<'_>) -> bool
    ensures { (node : ℕ) → result ≡ is_restart (logged_event node event.now) }
{
    matches!(event, LoggedEvent::Other(WorldEvent::Restart(_)))
}

/// Plays a step of a node, and tells whether it is one that the world takes. What the world is where it isn't, isn't said.
fn takes<N: Names<Memory = Global>>(
    world: &mut World<N>,
    node: &Node,
    entry: &LoggedEntry<'_>,
) -> Result<bool, AllocError>
    ensures { IfOk result (λ taken. MatchBool taken
        (Moves (record { node = node.now; entry = entry_of node.now entry.now }) world.old world.new)
        (Refuses (record { node = node.now; entry = entry_of node.now entry.now }) world.old)) }
{
    if !is_own_logged(node, &entry.event) || is_restart(&entry.event) {
        return Ok(false);
    }
    match play_logged(world, node, &entry.event) {
        Ok(answers) => Ok(same_answers(answers.as_slice(), entry.answers)),
        Err(Refusal::Step(StepFault::Memory)) => Err(AllocError),
        Err(_) => Ok(false),
    }
}

/// Whether the stamp of what is read next is above that of the entry before.
fn rises(reader: &Reader<'_>, entry: &LoggedEntry<'_>) -> bool
    requires { head_of reader.now ≡ Some (entry_of reader.now.log.now.node entry.now) }
    ensures { MatchBool result (Rises reader.now.log.now.entries reader.now.at) (Rises reader.now.log.now.entries reader.now.at → ⊥) }
{
    let Some(before) = reader.at.checked_sub(1) else {
        return true;
    };
    match reader.log.get(before) {
        Some(before) => before.stamp < entry.stamp,
        None => true,
    }
}

/// The world takes the step that is read next.
pub(crate) fn play_next<N: Names<Memory = Global>>(
    world: &mut World<N>,
    reader: &Reader<'_>,
) -> Result<(), CloseFault>
    ensures ok { OnOk result (MovesReader reader.now world.old world.new) }
    ensures stopped { IfErr result (λ fault. StopsReader fault reader.now world.old) }
{
    let Some(entry) = reader.head() else {
        return Ok(());
    };
    if rises(reader, &entry) && takes(world, reader.node(), &entry)? {
        return Ok(());
    }
    Err(CloseFault::Torn {
        node: reader.node().copy(),
        at: reader.at,
    })
}
