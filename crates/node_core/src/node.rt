//! One node.
ghost use Rattle.std.specs.Prelude.{◌≡◌};

mod calling;
mod copying;
mod joining;
mod leaving;
mod locking;
mod reading;
mod registrar;
mod rounds;
mod stepping;

use exchange::NoticeLists;
use exit_watch::Watch;
use lock_calls::LockCalls;
use lock_table::LockTable;
use locker::Round;
use name_table::Names;
use node_events::{Call, Cause, Letter, Reply, StepFault, Turn};
use std::alloc::{AllocError, Global};
use std::marker::Model;
use term::{MOST_NODES, Node, NodeSet, Pid};
use transaction::{Op, Registrar};
use world_events::Opening;

/// Where the current operation stands. Where there is none, this says nothing.
#[derive(Drop)]
pub(crate) enum Phase {
    /// Its round asks for the lock.
    Asking(Round),
    /// Its round was refused, and a retry is waited for.
    Waiting,
    /// It holds the lock at the nodes that were asked, and waits until the members have written it; the reply, if it
    /// has one, comes then.
    Writing(NodeSet, Option<Reply>),
    /// It is a join, under this number, that waits for its contact.
    Joining(u32, Node),
}

/// One node: its table, its locks, its processes and their lock calls, its registrar, and the numbers that it has given.
/// It takes steps, and knows nothing of links: each step says what is to be sent to whom.
#[derive(Drop)]
pub struct NodeCore<N: Names> {
    alloc: Global,
    node: Node,
    /// The nodes at present: the last one of each name that has started.
    world: NodeSet,
    members: NodeSet,
    /// Of each name the last node that it was told has left; it was told so of all older ones, too.
    told: NodeSet,
    joined: bool,
    table: N,
    /// What its processes were sent.
    notices: NoticeLists,
    locks: LockTable,
    watch: Watch,
    registrar: Registrar,
    phase: Phase,
    /// The lock calls of its processes that aren't answered.
    calls: LockCalls,
    /// The number that the last numbered call was given; 0 before the first.
    last_call: u32,
}

impl<N: Names> Model for NodeCore<N> {
    ghost use Rattle.node_core.specs.CoreState.{CoreState, IsWhole};

    ghost Value = { CoreState };

    ghost view = { λ c. record {
      name = c.node;
      world = c.world;
      members = c.members;
      told = c.told;
      joined = c.joined;
      table = N.contents c.table;
      notices = c.notices;
      locks = c.locks;
      watch = c.watch;
      registrar = c.registrar;
      phase = c.phase;
      calls = c.calls;
      last_call = c.last_call;
    } };

    ghost invariant = { λ c. IsWhole (record {
      name = c.node;
      world = c.world;
      members = c.members;
      told = c.told;
      joined = c.joined;
      table = N.contents c.table;
      notices = c.notices;
      locks = c.locks;
      watch = c.watch;
      registrar = c.registrar;
      phase = c.phase;
      calls = c.calls;
      last_call = c.last_call;
    }) };
}

impl<N: Names<Memory = Global>> NodeCore<N> {
    ghost use Rattle.std.specs.Prelude.{false, true, None, Some, is_some, ◌+◌, ◌-◌, ◌^◌, min, length, OnOk, OnErr, IfOk};
    ghost use Rattle.std.specs.Option.{option_copied};
    ghost use Rattle.protocol_model.specs.Node.{call_of, holds_global};
    ghost use Rattle.node_core.specs.CoreState.{IsWhole, spans_of};
    ghost use Rattle.node_core.specs.Seen.{node_of};
    ghost use Rattle.node_events.specs.declared.events.StepFault.TheVariants.{Memory};
    ghost use Rattle.node_core.specs.Rare.{is_admission, is_rare, most_entries, most_answers, Adds, IsFew};
    ghost use Rattle.node_core.specs.Steps.{Steps, Keeps, KeepsQueue, Takes, IsAsBefore, refusal_of, cause_of};
    ghost use Rattle.protocol_model.specs.Event.{can_retry, is_waiting};
    ghost use Rattle.node_core.specs.Joining.{join_number_of};
    ghost use Rattle.node_events.specs.Made.{HasRoom, IsNothing, nothing};
    ghost use Rattle.node_events.specs.Causes.{event_by};
    ghost use Rattle.node_core.specs.Steps.{Makes};
    ghost use Rattle.protocol_model.specs.Registrar.{retry_global};
    ghost use Rattle.protocol_model.specs.Client.{retry_locks};
    ghost use Rattle.registry_model.specs.Table.{is_rising};

    /// Takes the step of a cause that isn't refused (`refusal`), and gives what it makes: letters, each with the name of its receiver,
    /// entries of the history, and answers. The letters go to nodes that have started and say what their readers rely on, where what
    /// it reads does. Where memory is refused the node is as before, as the protocol sees it, and the cause may be given again. Of
    /// what no node says that has started (a departure of this node, or of one that hasn't; a join of such a one) no clause says what
    /// it does.
    ///
    /// Most steps make room first, and then change the node in place. A few want memory behind a change, such as those that move
    /// the names of a node: these are taken by a copy of the node, which then stands in its place.
    pub fn accept(&mut self, cause: Cause<'_>, spare: Turn) -> Result<Turn, AllocError>
        requires { refusal_of (event_by cause) self.old ≡ None }
        ensures name { self.new.name ≡ self.old.name }
        ensures world { self.new.world ≡ self.old.world }
        ensures ok { IfOk result (λ turn. Steps (event_by cause.entry) self.old self.new turn) }
        ensures few { IfOk result (IsFew self.old) }
        ensures unchanged { OnErr result (IsAsBefore self.old self.new) }
    {
        if self.is_rare(cause) {
            self.accept_on_copy(cause, spare)
        } else {
            self.accept_in_place(cause, spare)
        }
    }

    /// Takes the step of a cause that isn't refused. Where memory is refused and the step isn't a rare one, the node is as before,
    /// as the protocol sees it.
    fn accept_in_place(&mut self, cause: Cause<'_>, spare: Turn) -> Result<Turn, AllocError>
        requires { refusal_of (event_by cause) self.old ≡ None }
        ensures name { self.new.name ≡ self.old.name }
        ensures world { self.new.world ≡ self.old.world }
        ensures ok { IfOk result (λ turn. Steps (event_by cause.entry) self.old self.new turn) }
        ensures few { IfOk result (IsFew self.old) }
        ensures unchanged { OnErr result (is_rare (event_by cause.entry) self.old ≡ false → IsAsBefore self.old self.new) }
    {
        let mut turn = self.begin(spare);
        self.take(&mut turn, cause)?;
        Ok(turn)
    }

    /// A copy of the node behind the step of a cause that isn't refused, and what that makes.
    fn stepped(&self, cause: Cause<'_>, spare: Turn) -> Result<(Self, Turn), AllocError>
        requires { refusal_of (event_by cause) self.now ≡ None }
        ensures ok { IfOk result (λ stepped. Steps (event_by cause.entry) self.now stepped.0 stepped.1) }
        ensures few { IfOk result (λ stepped. IsFew self.now stepped.1) }
    {
        let mut copy = self.copy()?;
        let turn = copy.accept_in_place(cause, spare)?;
        Ok((copy, turn))
    }

    /// Takes the step of a cause that isn't refused, by a copy of the node, which then stands in its place.
    fn accept_on_copy(&mut self, cause: Cause<'_>, spare: Turn) -> Result<Turn, AllocError>
        requires { refusal_of (event_by cause) self.old ≡ None }
        ensures name { self.new.name ≡ self.old.name }
        ensures world { self.new.world ≡ self.old.world }
        ensures ok { IfOk result (λ turn. Steps (event_by cause.entry) self.old self.new turn) }
        ensures few { IfOk result (IsFew self.old) }
        ensures unchanged { OnErr result (self.new ≡ self.old) }
    {
        let (copy, turn) = self.stepped(cause, spare)?;
        *self = copy;
        Ok(turn)
    }

    /// Whether the current operation is an admission.
    pub(super) fn is_admitting(&self) -> bool
        ensures { result ≡ is_admission self.now.registrar.current }
    {
        matches!(self.current(), Some(Op::Admission(..)))
    }

    /// Whether the step of a cause may want memory behind a change of the node.
    fn is_rare(&self, cause: Cause<'_>) -> bool
        ensures { result ≡ is_rare (event_by cause.entry) self.now }
    {
        if self.registrar.next_is_join() {
            return true;
        }
        match cause {
            Cause::Call(call) => matches!(call, Call::Join(_)),
            Cause::FromPeer(_, Letter::Admit(_) | Letter::Welcome(_)) => true,
            Cause::FromPeer(_, Letter::Down) => self.is_admitting(),
            _ => false,
        }
    }

    /// How many entries of the history its next step makes at most.
    pub fn most_entries(&self) -> usize
        ensures { result ≡ min (2 ^ 64 - 1) (most_entries self.now) }
    {
        let joins = if self.registrar.next_is_join() {
            self.registrar.waiting()
        } else {
            0
        };
        joins.saturating_add(4)
    }

    /// How many answers its next step gives at most.
    pub fn most_answers(&self) -> usize
        ensures { result ≡ min (2 ^ 64 - 1) (most_answers self.now) }
    {
        self.most_entries().saturating_add(self.calls.len())
    }

    /// What a step makes goes into this: nothing is made yet, and it has no memory.
    pub fn new_turn(&self) -> Turn
        ensures { result ≡ nothing }
    {
        Turn::begin(self.alloc)
    }

    /// A step begins, and has made nothing yet. A welcome relies on the names of its sponsor's table rising.
    fn begin(&self, mut spare: Turn) -> Turn
        ensures nothing { IsNothing result }
        ensures rising { is_rising self.now.table ≡ true }
        ensures whole { IsWhole self.now }
    {
        self.table.rising();
        spare.clear();
        spare
    }

    /// Refused rounds begin anew, the registrar's first. There is room for a letter more behind that. Where memory is refused the
    /// node is as it was.
    fn retry(&mut self, turn: &mut Turn) -> Result<(), AllocError>
        ensures turn { OnOk result (Makes (λ n a u. retry_locks n a (retry_global n a u.node.current u)) self.old turn.old self.new turn.new) }
        ensures kept { KeepsQueue self.old self.new }
        ensures adds { OnOk result (Adds 0 (length self.old.calls.calls) turn.old turn.new) }
        ensures room { OnOk result (HasRoom 1 0 0 turn.new) }
        ensures unchanged { OnErr result (self.new ≡ self.old) }
    {
        let holders = self.calls.holders(self.alloc)?;
        let count = holders.len();
        let letters = count.checked_add(2).ok_or(AllocError)?;
        turn.reserve(letters, 0, count)?;
        self.retry_global(turn);
        self.retry_locks(turn, &holders);
        Ok(())
    }

    /// What a cause that isn't refused does. Where memory is refused and the step isn't a rare one, the node is as before, as the
    /// protocol sees it.
    fn take(&mut self, turn: &mut Turn, cause: Cause<'_>) -> Result<(), AllocError>
        requires { refusal_of (event_by cause) self.old ≡ None }
        ensures turn { OnOk result (Takes (event_by cause.entry) self.old turn.old self.new turn.new) }
        ensures kept { Keeps self.old self.new }
        ensures adds { OnOk result (Adds (most_entries self.old) (most_answers self.old) turn.old turn.new) }
        ensures unchanged { OnErr result (is_rare (event_by cause.entry) self.old ≡ false → IsAsBefore self.old self.new) }
    {
        match cause {
            Cause::Call(call) => self.call(turn, call)?,
            Cause::Retry => self.retry(turn)?,
            Cause::Exit(process) => self.exit(turn, process)?,
            Cause::Leave => {
                turn.reserve(MOST_NODES, 1, 0)?;
                self.leave(turn);
                return Ok(());
            }
            Cause::FromPeer(from, letter) => return self.receive(turn, from, letter),
        }
        self.start(turn)
    }

    /// Whether an operation is current.
    fn is_at_work(&self) -> bool
        ensures { result ≡ is_some self.now.registrar.current }
    {
        self.current().is_some()
    }

    /// Whether the registrar's round was refused, and waits for a retry.
    fn is_waiting(&self) -> bool
        ensures { result ≡ is_waiting (node_of self.now).current }
    {
        self.is_at_work() && matches!(self.phase, Phase::Waiting)
    }

    /// Whether some refused round waits for a retry.
    pub fn can_retry(&self) -> bool
        ensures { result ≡ can_retry (node_of self.now) }
    {
        self.is_waiting() || self.calls.has_waiting()
    }

    /// Why the step of a cause is refused, if it is. `Memory` is none of it.
    pub fn refusal(&self, cause: Cause<'_>) -> Option<StepFault>
        ensures cause { refusal_of (event_by cause.entry) self.now ≡ cause_of result }
        ensures never_memory { result ≡ Some Memory → ⊥ }
    {
        match cause {
            Cause::Call(call) => self.call_refusal(call),
            Cause::Retry if !self.can_retry() => Some(StepFault::NothingToRetry),
            Cause::Exit(process) => self.watch.exit_refusal(process).map(StepFault::from),
            Cause::Leave if self.holds_global() => Some(StepFault::HoldsLock),
            Cause::Retry | Cause::Leave | Cause::FromPeer(..) => None,
        }
    }

    /// Which node it is of.
    pub fn node(&self) -> &Node
        ensures name { result.now ≡ self.now.name }
        ensures whole { IsWhole self.now }
    {
        &self.node
    }

    /// The operation that its registrar is at, if there is one.
    pub fn current(&self) -> Option<&Op>
        ensures { option_copied result ≡ self.now.registrar.current }
    {
        self.registrar.current()
    }

    /// The number of its join that waits for the contact, if one does.
    pub fn join_number(&self) -> Option<u32>
        ensures { result ≡ join_number_of (node_of self.now).current }
    {
        match &self.phase {
            Phase::Joining(number, _) if self.is_at_work() => Some(*number),
            _ => None,
        }
    }

    /// The number that its last numbered call was given; 0 before the first.
    pub fn last_call(&self) -> u32
        ensures { result ≡ self.now.last_call }
    {
        self.last_call
    }

    /// How many names its table has.
    pub fn names(&self) -> usize
        ensures { result ≡ length self.now.table }
    {
        self.table.len()
    }

    /// How many grants its lock table has: one for each holder of a resource.
    pub fn grants(&self) -> usize
        ensures { result ≡ length self.now.locks }
    {
        self.locks.len()
    }

    /// The greatest serial that it has given a process; 0 before the first.
    pub fn last_serial(&self) -> u32
        ensures { result ≡ self.now.watch.watch.last_serial }
    {
        self.watch.last_serial()
    }

    /// In how many spans it keeps the serials of its dead.
    pub fn spans(&self) -> usize
        ensures { result ≡ spans_of self.now }
    {
        self.watch.spans()
    }

    /// Its table.
    pub fn table(&self) -> &N
        ensures { N.contents result.now ≡ self.now.table }
    {
        &self.table
    }

    /// The nodes of its world at present, one of each name.
    pub fn world(&self) -> &NodeSet
        ensures world { result.now ≡ self.now.world }
        ensures whole { IsWhole self.now }
    {
        &self.world
    }

    /// Its members, itself among them.
    pub fn members(&self) -> &NodeSet
        ensures members { result.now ≡ self.now.members }
        ensures whole { IsWhole self.now }
    {
        &self.members
    }

    /// Of each name the last node that it was told has left; it was told so of all older ones, too.
    pub fn told(&self) -> &NodeSet
        ensures told { result.now ≡ self.now.told }
        ensures whole { IsWhole self.now }
    {
        &self.told
    }

    /// Whether it is joined with the cluster.
    pub fn is_joined(&self) -> bool
        ensures { result ≡ self.now.joined }
    {
        self.joined
    }

    /// Whether it holds the global lock: from the grant of the last member until what it wrote is acknowledged by all.
    pub fn holds_global(&self) -> bool
        ensures { result ≡ holds_global (node_of self.now) }
    {
        self.is_at_work() && matches!(self.phase, Phase::Writing(..))
    }

    /// Whether a process has a lock call that isn't answered.
    pub fn has_lock_call(&self, holder: &Pid) -> bool
        ensures { result ≡ is_some (call_of holder.now (node_of self.now).calls) }
    {
        self.calls.get(holder).is_some()
    }

    /// Its table, where the node isn't used any more.
    pub fn into_table(self) -> N
        ensures { N.contents result ≡ self.table }
    {
        let NodeCore { table, .. } = self;
        table
    }
}

impl<N: Names<Memory = Global>> NodeCore<N> {
    ghost use Rattle.std.specs.Prelude.{ℕ, true, false, [], ◌∷◌};
    ghost use Rattle.std.specs.List.{All};
    ghost use Rattle.protocol_model.specs.Node.{opening_node};
    ghost use Rattle.term.specs.Nodes.{IsFirst};
    ghost use Rattle.term.specs.NodeSets.{set_of, with_older, succeeded};
    ghost use Rattle.node_core.specs.CoreState.{AreOf, IsNext, HaveLeft, fresh, fresh_behind, opening_core};
    ghost use Rattle.node_core.specs.Seen.{node_of};

    /// A node at its beginning, which was told of these departures: it has its members, and no names, processes and operations.
    fn opened(
        alloc: Global,
        node: Node,
        world: &NodeSet,
        members: &NodeSet,
        left: &NodeSet,
        joined: bool,
    ) -> Self
        requires own { set_of members.now node ≡ true }
        requires members { AreOf world.now members.now }
        requires left { HaveLeft world.now left.now }
        requires apart { (c : ℕ) → set_of members.now c ≡ true → with_older left.now c ≡ false }
        ensures { result ≡ fresh_behind node world.now members.now left.now joined }
    {
        let watch = Watch::new(alloc, node.copy());
        let calls = LockCalls::new(alloc, node.copy());
        NodeCore {
            alloc,
            node,
            world: world.copy(),
            members: members.copy(),
            told: left.copy(),
            joined,
            table: N::empty(alloc),
            notices: NoticeLists::new(alloc),
            locks: LockTable::new(alloc),
            watch,
            registrar: Registrar::new(alloc),
            phase: Phase::Waiting,
            calls,
            last_call: 0,
        }
    }

    /// A node at its beginning: one of the world's, which are the first ones of their names, with its members, and without names,
    /// processes and operations. It takes no memory.
    pub fn new(alloc: Global, node: Node, world: &NodeSet, members: &NodeSet, joined: bool) -> Self
        requires own { set_of members.now node ≡ true }
        requires members { AreOf world.now members.now }
        requires first { All IsFirst world.now }
        ensures fresh { result ≡ fresh node world.now members.now joined }
        ensures opening { joined ≡ true → node_of result ≡ opening_node (set_of members.now) node }
    {
        NodeCore::opened(alloc, node, world, members, &NodeSet::empty(), joined)
    }

    /// A node of a world that opens, at its beginning: one of the cluster has its nodes as members, and a lone node itself. It takes no
    /// memory.
    pub fn open(alloc: Global, opening: &Opening, node: &Node) -> Self
        requires { set_of opening.now.nodes node.now ≡ true }
        ensures opens { result ≡ opening_core opening.now.nodes opening.now.cluster node.now }
        ensures name { result.name ≡ node.now }
    {
        let world = opening.nodes();
        if opening.cluster().contains(node) {
            NodeCore::new(alloc, node.copy(), world, opening.cluster(), true)
        } else {
            NodeCore::new(alloc, node.copy(), world, &NodeSet::one(node.copy()), false)
        }
    }

    /// A node whose name has come back, at its beginning: it is lone, and was told of all that have left. It takes no memory.
    pub fn come_back(alloc: Global, node: Node, world: &NodeSet, left: &NodeSet) -> Self
        requires known { set_of world.now node ≡ true }
        requires left { HaveLeft world.now left.now }
        requires stays { with_older left.now node ≡ false }
        ensures { result ≡ fresh_behind node world.now (node ∷ []) left.now false }
    {
        let alone = NodeSet::one(node.copy());
        NodeCore::opened(alloc, node, world, &alone, left, false)
    }

    /// The name of another node, of which this one was told that it has left, has come back: the next node of that name takes its
    /// place in the world.
    pub fn replace(&mut self, older: &Node, next: &Node)
        requires next { IsNext older.now next.now }
        requires known { set_of self.old.world older.now ≡ true }
        requires told { with_older self.old.told older.now ≡ true }
        ensures { self.new ≡ record self.old { world = succeeded older.now next.now self.old.world } }
    {
        self.world = self.world.with_next(older, next);
    }
}
