//! Seats of lock holders, over a world.
ghost use Rattle.std.specs.Prelude.{ℕ, ◌≡◌, ◌<◌, [], map, if◌then◌else◌, OnOk, IfOk, IfErr};
ghost use Rattle.std.specs.Vec.{vec_len, vec_capacity};
ghost use Rattle.node_core.specs.NodeEventsSeen.{answer_of};
ghost use Rattle.cluster_world.specs.declared.seat.WorldSeatFault.TheVariants.{Refused, NoAnswer};
ghost use Rattle.world_events.specs.Refusals.{is_memory, out_of_memory};
ghost use Rattle.cluster_world.specs.Playing.{Keeps, Played};
ghost use Rattle.cluster_world.specs.Steps.{IsAdmitted};
ghost use Rattle.cluster_world.specs.Seats.{verdict_to, verdict_in, unmade, IsUnplayed};

use crate::world::World;
use name_table::Names;
use std::alloc::{AllocError, Global};
use term::{LockId, MOST_EVENTS, Node, Pid};
use thiserror::Error;
use transaction::{LockReply, LockSeat, Nodes, Retries};
use world_events::{Answer, Call, LocalEvent, Refusal, Reply, StepFault, WorldEvent};

/// Why a call at a seat got no reply.
#[derive(Debug, PartialEq, Eq, Error, Drop)]
pub enum WorldSeatFault {
    /// The world refused the call, and nothing changed. `Memory` alone may also be refused while the call waits: then what was played
    /// until then stands, and the call goes on waiting in the world.
    #[error("{0}")]
    Refused(Refusal),
    /// There was no memory for the call itself, which names the nodes that it asks, and the world had nothing else against it.
    /// Nothing was played.
    #[error("no_memory")]
    NoMemory,
    /// No answer came. The call goes on waiting in the world.
    #[error("no_answer")]
    NoAnswer,
}

impl From<Refusal> for WorldSeatFault {
    ghost from_gives = { λ refusal fault. fault ≡ Refused refusal };

    fn from(refusal: Refusal) -> WorldSeatFault {
        WorldSeatFault::Refused(refusal)
    }
}

impl From<AllocError> for WorldSeatFault {
    ghost from_gives = { λ _ fault. fault ≡ Refused out_of_memory };

    fn from(_: AllocError) -> WorldSeatFault {
        WorldSeatFault::Refused(Refusal::from(AllocError))
    }
}

/// Whether call `number` of the node is granted, if this is the answer to it.
fn verdict(answer: &Answer, node: &Node, number: u64) -> Option<bool>
    ensures { result ≡ verdict_to node.now number (answer_of answer.now) }
{
    if answer.node != *node || u64::from(answer.call) != number {
        return None;
    }
    match answer.reply {
        Reply::True => Some(true),
        Reply::False => Some(false),
        _ => None,
    }
}

/// Whether call `number` of the node is granted, if one of these is the answer to it.
fn verdict_in(answers: &[Answer], node: &Node, number: u64) -> Option<bool>
    ensures { result ≡ verdict_in node.now number (map answer_of answers.now) }
{
    for answer in answers {
        if let Some(granted) = verdict(answer, node, number) {
            return Some(granted);
        }
    }
    None
}

/// Why a call isn't answered, where what it waits for is refused: all links are empty, and nothing is left to retry, unless
/// memory was refused.
fn no_answer(refusal: &Refusal) -> WorldSeatFault
    ensures { result ≡ (if is_memory refusal.now then Refused out_of_memory else NoAnswer) }
{
    match refusal {
        Refusal::Step(StepFault::Memory) => {
            WorldSeatFault::Refused(Refusal::Step(StepFault::Memory))
        }
        _ => WorldSeatFault::NoAnswer,
    }
}

/// Why a call isn't played that there was no memory to make: what the world has against it comes first.
fn unmade(refusal: Option<Refusal>) -> WorldSeatFault
    ensures { result ≡ unmade refusal }
{
    match refusal {
        Some(refusal) => WorldSeatFault::Refused(refusal),
        None => WorldSeatFault::NoMemory,
    }
}

impl<N: Names<Memory = Global>> World<N> {
    ghost use Rattle.std.specs.Prelude.{true, Some, OnErr};
    ghost use Rattle.transaction.specs.declared.nodes.Nodes.{Nodes as AnyNodes};
    ghost use Rattle.transaction.specs.declared.nodes.Retries.{Retries as AnyRetries};
    ghost use Rattle.term.specs.NodeSets.{set_of};
    ghost use Rattle.cluster_world.specs.WorldState.{nodes_of};
    ghost use Rattle.cluster_world.specs.Seats.{next_number, PlaysNext, RefusesNext, HasWaited, IsWhyRefused};
    ghost use Rattle.cluster_world.specs.Seen.{seen, named};

    /// Why a `set_lock` of a process is refused, if it is. It takes no memory.
    fn set_refusal(&self, holder: &Pid, id: &LockId, nodes: &Nodes) -> Option<Refusal>
        ensures { (retries : AnyRetries) → IsWhyRefused result (WorldEvent.At holder.now.node
            (LocalEvent.Call (Call.SetLock holder.now id.now nodes.now retries))) self.now }
    {
        match self.running(&holder.node) {
            Ok(place) => {
                let fault = self.cores[place].set_refusal(holder, id, nodes)?;
                Some(Refusal::Step(fault))
            }
            Err(refusal) => Some(refusal),
        }
    }

    /// Why a `del_lock` of a process is refused, if it is, whichever nodes it asks. It takes no memory.
    fn deletion_refusal(&self, holder: &Pid, id: &LockId) -> Option<Refusal>
        ensures { (nodes : AnyNodes) → IsWhyRefused result (WorldEvent.At holder.now.node
            (LocalEvent.Call (Call.DelLock holder.now id.now nodes))) self.now }
    {
        let call = Call::DelLock(holder.copy(), id.copy(), Nodes::All);
        let event = WorldEvent::At(holder.node.copy(), LocalEvent::Call(call));
        self.admit(&event).err()
    }

    /// The number of the next numbered call of a node at present.
    fn next_number(&self, node: &Node) -> u64
        ensures { set_of (nodes_of self.now) node.now ≡ true → result ≡ next_number node.now (seen self.now) }
    {
        let last = match self.core(node) {
            Some(core) => core.last_call(),
            None => 0,
        };
        u64::from(last) + 1
    }

    /// Plays what a call at the node waits for: the delivery that `settle` makes next, or else a retry.
    fn play_next(&mut self, node: &Node) -> Result<Vec<Answer>, Refusal>
        ensures kept { Keeps self.old self.new }
        ensures ok { IfOk result (λ answers. PlaysNext node.now self.old self.new answers.items) }
        ensures refused { IfErr result (λ refusal. RefusesNext node.now self.old refusal) }
        ensures as_before { OnErr result (named self.new ≡ named self.old) }
    {
        match self.deliver_next() {
            Ok(Some(answers)) => Ok(answers),
            Ok(None) => self.play(&WorldEvent::At(node.copy(), LocalEvent::Retry)),
            Err(refused) => Err(Refusal::from(refused)),
        }
    }

    /// Plays what call `number` of the node waits for, until it is answered.
    fn wait(&mut self, node: &Node, number: u64) -> Result<bool, WorldSeatFault>
        ensures kept { Keeps self.old self.new }
        ensures waited { HasWaited node.now number self.old self.new result }
    {
        for _ in 0..MOST_EVENTS {
            match self.play_next(node) {
                Ok(answers) => {
                    if let Some(granted) = verdict_in(answers.as_slice(), node, number) {
                        return Ok(granted);
                    }
                }
                Err(refusal) => return Err(no_answer(&refusal)),
            }
        }
        Err(WorldSeatFault::NoAnswer)
    }
}

/// Plays an event for a lock holder, for whom there is room for one reply more then. That is made behind all that the world has
/// against the event.
fn begin<N: Names<Memory = Global>>(
    world: &mut World<N>,
    replies: &mut Vec<LockReply>,
    event: &WorldEvent,
) -> Result<Vec<Answer>, WorldSeatFault>
    ensures replies { replies.new.items ≡ replies.old.items }
    ensures room { OnOk result (vec_len replies.new < vec_capacity replies.new) }
    ensures kept { Keeps world.old world.new }
    ensures admitted { OnOk result ((place : ℕ) × IsAdmitted place event.now world.old) }
    ensures played { IfOk result (λ answers. Played event.now world.old world.new [] answers.items) }
    ensures unplayed { IfErr result (λ fault. IsUnplayed event.now world.old world.new fault) }
{
    let admission = world.admit(event)?;
    replies.reserve(1)?;
    Ok(world.accept(admission)?)
}

/// The seat of one lock holder over a world. A call at it is played at the holder's node, and then the world goes on until the
/// call is answered: the next delivery, by the order of links, or where all links are empty a retry of that node. After 100,000
/// such events, or where there is nothing to retry, it has no answer. Answers to other calls that come meanwhile are dropped.
#[derive(Drop)]
pub struct WorldSeat<'a, N: Names> {
    /// The world, which may be played on between calls.
    pub world: &'a mut World<N>,
    holder: Pid,
    replies: Vec<LockReply>,
}

impl<'a, N: Names<Memory = Global>> WorldSeat<'a, N> {
    ghost use Rattle.cluster_world.specs.Seats.{holder_of, replies_of, SetsLock};

    /// The seat of this holder, without replies. Who it is isn't asked before a call is made.
    pub fn new(world: &'a mut World<N>, holder: Pid) -> Self
        ensures same_world { result.world.ghost_name ≡ world.entry.ghost_name }
        ensures world { result.world.now ≡ world.old }
        ensures holder { holder_of result ≡ holder }
        ensures replies { replies_of result ≡ [] }
    {
        let replies = Vec::new(*world.cores.allocator());
        WorldSeat {
            world,
            holder,
            replies,
        }
    }

    /// The replies to its calls, the oldest first.
    pub fn replies(&self) -> &[LockReply]
        ensures { result.now ≡ replies_of self.now }
    {
        self.replies.as_slice()
    }

    /// Plays a lock call of the holder, and waits for its answer. There is room for one reply more, then.
    fn call(&mut self, call: Call) -> Result<bool, WorldSeatFault>
        ensures same_world { self.new.world.ghost_name ≡ self.old.world.ghost_name }
        ensures holder { self.new.holder ≡ self.old.holder }
        ensures replies { self.new.replies.items ≡ self.old.replies.items }
        ensures room { OnOk result (vec_len self.new.replies < vec_capacity self.new.replies) }
        ensures kept { Keeps self.old.world.now self.new.world.now }
        ensures called { SetsLock self.old.holder.node call self.old.world.now self.new.world.now result }
    {
        let node = self.holder.node.copy();
        let number = self.world.next_number(&node);
        let event = WorldEvent::At(node.copy(), LocalEvent::Call(call));
        let answers = begin(self.world, &mut self.replies, &event)?;
        match verdict_in(answers.as_slice(), &node, number) {
            Some(granted) => Ok(granted),
            None => self.world.wait(&node, number),
        }
    }
}

impl<'a, N: Names<Memory = Global>> LockSeat for WorldSeat<'a, N> {
    ghost use Rattle.transaction.specs.Counts.{set_replies, deletion_replies};
    ghost use Rattle.node_core.specs.declared.Call.TheVariants.{SetLock, DelLock};
    ghost use Rattle.cluster_world.specs.Seats.{holder_of, replies_of, Grows, SetsLock, DeletesLock};

    type Fault = WorldSeatFault;

    ghost replies = { λ s. replies_of s };

    ghost sets = { λ s id nodes retries answer t. Grows s t (set_replies id answer) × Keeps s.world.now t.world.now
        × SetsLock (holder_of s).node (SetLock (holder_of s) id nodes retries) s.world.now t.world.now answer };

    ghost deletes = { λ s id nodes answer t. Grows s t (deletion_replies id answer) × Keeps s.world.now t.world.now
        × DeletesLock (holder_of s).node (DelLock (holder_of s) id nodes) s.world.now t.world.now answer };

    fn set_lock(
        &mut self,
        id: &LockId,
        nodes: &Nodes,
        retries: Retries,
    ) -> Result<bool, WorldSeatFault> {
        let Ok(nodes) = nodes.copy() else {
            return Err(unmade(self.world.set_refusal(&self.holder, id, nodes)));
        };
        let call = Call::SetLock(self.holder.copy(), id.copy(), nodes, retries);
        let granted = self.call(call)?;
        self.replies
            .push_reserved(LockReply::Set(id.copy(), granted));
        Ok(granted)
    }

    fn del_lock(&mut self, id: &LockId, nodes: &Nodes) -> Result<(), WorldSeatFault> {
        let Ok(nodes) = nodes.copy() else {
            return Err(unmade(self.world.deletion_refusal(&self.holder, id)));
        };
        let call = Call::DelLock(self.holder.copy(), id.copy(), nodes);
        self.call(call)?;
        self.replies.push_reserved(LockReply::Deleted(id.copy()));
        Ok(())
    }

    ghost set_is_replied = { λ s t id nodes retries answer given. given.0.replies };

    ghost deletion_is_replied = { λ s t id nodes answer given. given.0.replies };
}
