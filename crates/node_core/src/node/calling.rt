//! What a node does with a call, and with the exit of a process.
use crate::node::{NodeCore, Phase};
use lock_calls::{CallPhase, LockCall};
use name_table::Names;
use node_events::{Call, Entry, Letter, Look, NameList, NoticeList, Reply, StepFault, Turn};
use std::alloc::{AllocError, Global};
use term::{LockId, MOST_NODES, Node, Pid, Resource};
use transaction::{NameCall, Nodes, Op, Retries};

impl<N: Names<Memory = Global>> NodeCore<N> {
    ghost use Rattle.std.specs.Prelude.{◌≡◌, ◌+◌, ◌-◌, ◌<◌, ◌≤◌, false, ◌==◌, true, None, Some, [], ◌∷◌, OnOk, OnErr, IfOk, IfErr};
    ghost use Rattle.registry_model.specs.Process.{Text};
    ghost use Rattle.registry_model.specs.Call.{NoticesOf, seen_in};
    ghost use Rattle.registry_model.specs.History.{Entry as AnyEntry};
    ghost use Rattle.protocol_model.specs.Node.{Op as AnyOp, Retries as AnyRetries};
    ghost use Rattle.protocol_model.specs.Event.{Call as AnyCall, last_u32, calls_spent, lock_causes, look_causes, call_causes, first_cause, names_members, has_joined};
    ghost use Rattle.protocol_model.specs.Watch.{next_serial};
    ghost use Rattle.protocol_model.specs.Turn.{count_call, enter as entering};
    ghost use Rattle.protocol_model.specs.Calling.{spawned, looked, queued, die, call as called};
    ghost use Rattle.lock_calls.specs.declared.call.CallPhase.TheVariants.{Waiting};
    ghost use Rattle.term.specs.NodeSets.{with_older};
    ghost use Rattle.transaction.specs.Ops.{name_call_of};
    ghost use Rattle.transaction.specs.Calls.{target_of};
    ghost use Rattle.node_events.specs.declared.events.Call.TheVariants.{Spawn, SetLock as SetsLock, DelLock as DeletesLock};
    ghost use Rattle.node_events.specs.declared.events.Event.TheVariants.{Call as Calls, Exit as Exits};
    ghost use Rattle.node_events.specs.declared.events.StepFault.TheVariants.{Memory};
    ghost use Rattle.node_events.specs.Made.{Made, HasRoom, Spends, IsSameMade};
    ghost use Rattle.transaction.specs.Work.{begins_with_join};
    ghost use Rattle.node_core.specs.Rare.{is_join_call, joins_in, Adds, HasRoomToCall};
    ghost use Rattle.node_core.specs.Seen.{node_of};
    ghost use Rattle.node_events.specs.Seen.{call_of, look_of, reply_of};
    ghost use Rattle.node_core.specs.Steps.{KeepsQueue, Keeps, Makes, IsAskedWithin, refusal_of, cause_of};

    /// Why a call is refused, if it is.
    pub(super) fn call_refusal(&self, call: &Call) -> Option<StepFault>
        ensures cause { refusal_of (Calls call.now) self.now ≡ cause_of result }
        ensures never_memory { result ≡ Some Memory → ⊥ }
    {
        match call {
            Call::Spawn => self.watch.is_spent().then_some(StepFault::SerialsSpent),
            Call::Whereis(_) | Call::RegisteredNames => None,
            Call::Notices(process) => self.notices_refusal(process),
            Call::Register(..) | Call::ReRegister(..) | Call::Unregister(_) => self.calls_spent(),
            Call::SetLock(holder, id, nodes, _) => self.set_refusal(holder, id, nodes),
            Call::DelLock(holder, id, _) => self.lock_refusal(holder, id).or(self.calls_spent()),
            Call::Join(_) if self.has_joined() => Some(StepFault::AlreadyJoined),
            Call::Join(_) => self.calls_spent(),
        }
    }

    /// Why a look at the notices of a process is refused, if it is: it is none of this node's, or wasn't spawned yet.
    fn notices_refusal(&self, process: &Pid) -> Option<StepFault>
        ensures cause { cause_of result ≡ first_cause (look_causes self.now.name (node_of self.now) (NoticesOf process.now)) }
        ensures never_memory { result ≡ Some Memory → ⊥ }
    {
        (!self.watch.is_issued(process)).then_some(StepFault::NoSuchProcess)
    }

    /// Whether the node is joined, or has a join that isn't answered.
    fn has_joined(&self) -> bool
        ensures { result ≡ has_joined (node_of self.now) }
    {
        self.joined
            || self.is_at_work() && matches!(self.phase, Phase::Joining(..))
            || self.registrar.has_join()
    }

    /// Where the node has given its last number, the next call is refused.
    fn calls_spent(&self) -> Option<StepFault>
        ensures cause { cause_of result ≡ first_cause (calls_spent (node_of self.now) ∷ []) }
        ensures never_memory { result ≡ Some Memory → ⊥ }
    {
        (self.last_call == u32::MAX).then_some(StepFault::CallsSpent)
    }

    /// Why each lock call of a process on such a lock is refused, if it is.
    fn lock_refusal(&self, holder: &Pid, id: &LockId) -> Option<StepFault>
        ensures cause { cause_of result ≡ first_cause (lock_causes self.now.name (node_of self.now) holder.now id.now.resource) }
        ensures never_memory { result ≡ Some Memory → ⊥ }
    {
        if !self.watch.is_live(holder) {
            return Some(StepFault::NotLive(holder.copy()));
        }
        if self.calls.get(holder).is_some() {
            return Some(StepFault::Busy(holder.copy()));
        }
        (id.resource == Resource::global()).then_some(StepFault::Reserved)
    }

    /// Whether each named node is a member.
    fn names_members(&self, nodes: &Nodes) -> bool
        ensures { result ≡ names_members (node_of self.now) (target_of nodes.now) }
    {
        match nodes {
            Nodes::All => true,
            Nodes::Named(named) => {
                let names = named.as_set().as_slice();
                names.iter().all(|name| self.members.has_name(name))
            }
        }
    }

    /// Why a `set_lock` is refused, if it is. It takes no memory: the call itself, which may, needn't be made before.
    pub fn set_refusal(&self, holder: &Pid, id: &LockId, nodes: &Nodes) -> Option<StepFault>
        ensures cause { (requester : Text) (retries : AnyRetries) → cause_of result
            ≡ first_cause (call_causes self.now.name (node_of self.now) (AnyCall.SetLock holder.now id.now.resource requester (target_of nodes.now) retries)) }
        ensures never_memory { result ≡ Some Memory → ⊥ }
    {
        if let Some(fault) = self.lock_refusal(holder, id) {
            return Some(fault);
        }
        if !self.names_members(nodes) {
            return Some(StepFault::UnknownNode);
        }
        self.calls_spent()
    }

    /// The number of the next call, which is given.
    fn next_call(&mut self) -> u32
        requires { (self.old.last_call == last_u32) ≡ false }
        ensures state { self.new ≡ record self.old { last_call = self.old.last_call + 1 } }
        ensures number { result ≡ self.old.last_call + 1 }
    {
        self.last_call += 1;
        self.last_call
    }

    /// A lock call under the next number.
    fn new_call(
        &mut self,
        holder: &Pid,
        id: &LockId,
        nodes: &Nodes,
        retries: Retries,
    ) -> Result<LockCall, AllocError>
        requires { (self.old.last_call == last_u32) ≡ false }
        ensures state { OnOk result (self.new ≡ record self.old { last_call = self.old.last_call + 1 }) }
        ensures call { IfOk result (λ call. call ≡ record {
          holder = holder.now;
          number = self.old.last_call + 1;
          id = id.now;
          nodes = nodes.now;
          retries = retries;
          phase = Waiting;
        }) }
        ensures unchanged { OnErr result (self.new ≡ self.old) }
    {
        let nodes = nodes.copy()?;
        Ok(LockCall {
            holder: holder.copy(),
            number: self.next_call(),
            id: id.copy(),
            nodes,
            retries,
            phase: CallPhase::Waiting,
        })
    }

    /// A number that was given for a call that couldn't be kept is free again.
    fn take_number_back(&mut self)
        requires { 0 < self.old.last_call }
        ensures { self.new ≡ record self.old { last_call = self.old.last_call - 1 } }
    {
        self.last_call -= 1;
    }

    /// A `set_lock` is numbered, and tried. Where memory is refused the node is as it was.
    fn set_lock_call(
        &mut self,
        turn: &mut Turn,
        holder: &Pid,
        id: &LockId,
        nodes: &Nodes,
        retries: Retries,
    ) -> Result<(), AllocError>
        requires accepted { refusal_of (Calls (SetsLock holder.now id.now nodes.now retries)) self.old ≡ None }
        requires room { HasRoom 1 0 1 turn.old }
        ensures turn { OnOk result (Makes (λ n a u. called n a (u.node.last_call + 1) (call_of (SetsLock holder.now id.now nodes.now retries)) u) self.old turn.old self.new turn.new) }
        ensures kept { KeepsQueue self.old self.new }
        ensures spends { Spends 1 0 1 turn.old turn.new }
        ensures unchanged { OnErr result (self.new ≡ self.old) }
    {
        let call = self.new_call(holder, id, nodes, retries)?;
        match self.try_lock(turn, call) {
            Ok(()) => Ok(()),
            Err(fault) => {
                self.take_number_back();
                Err(fault)
            }
        }
    }

    /// A `del_lock` is numbered, and sent. Where memory is refused the node is as it was.
    fn delete_lock_call(
        &mut self,
        turn: &mut Turn,
        holder: &Pid,
        id: &LockId,
        nodes: &Nodes,
    ) -> Result<(), AllocError>
        requires accepted { refusal_of (Calls (DeletesLock holder.now id.now nodes.now)) self.old ≡ None }
        requires room { HasRoom MOST_NODES 0 1 turn.old }
        ensures turn { OnOk result (Makes (λ n a u. called n a (u.node.last_call + 1) (call_of (DeletesLock holder.now id.now nodes.now)) u) self.old turn.old self.new turn.new) }
        ensures kept { KeepsQueue self.old self.new }
        ensures spends { Spends MOST_NODES 0 1 turn.old turn.new }
        ensures unchanged { OnErr result (self.new ≡ self.old) }
    {
        let call = self.new_call(holder, id, nodes, Retries::Times(0))?;
        match self.delete_lock(turn, call) {
            Ok(()) => Ok(()),
            Err(fault) => {
                self.take_number_back();
                Err(fault)
            }
        }
    }

    /// A new process. A serial is left for it.
    fn spawn(&mut self, turn: &mut Turn)
        requires accepted { refusal_of (Calls Spawn) self.old ≡ None }
        requires room { HasRoom 0 0 1 turn.old }
        ensures turn { Makes (λ n a u. spawned n a (next_serial u.node.watch) u) self.old turn.old self.new turn.new }
        ensures kept { KeepsQueue self.old self.new }
        ensures spends { Spends 0 0 1 turn.old turn.new }
    {
        match self.watch.spawn() {
            Ok(process) => turn.answer(self.answer(0, Reply::Pid(process))),
            // A serial is left, and a spawn takes no memory.
            Err(_) => {}
        }
    }

    /// What is seen in what the node keeps.
    fn seen(&self, look: &Look) -> Result<Reply, AllocError>
        ensures { IfOk result (λ reply. reply_of reply ≡ seen_in (node_of self.now).replica (look_of look.now)) }
    {
        Ok(match look {
            Look::Whereis(name) => match self.table.owner(name) {
                Some(owner) => Reply::Pid(owner),
                None => Reply::Undefined,
            },
            Look::RegisteredNames => Reply::Names(NameList::new(self.table.names(self.alloc)?)),
            Look::Notices(process) => {
                Reply::Notices(NoticeList::new(self.notices.of(process.serial)?))
            }
        })
    }

    /// A look into what the node keeps is entered, and answered. It doesn't change the node.
    fn look_up(&self, turn: &mut Turn, look: Look) -> Result<(), AllocError>
        requires { HasRoom 0 1 1 turn.old }
        ensures spends { Spends 0 1 1 turn.old turn.new }
        ensures turn { OnOk result (Makes (λ n a u. looked n a (look_of look) (seen_in u.node.replica (look_of look)) u) self.now turn.old self.now turn.new) }
    {
        let reply = self.seen(&look)?;
        let entry = Entry::Read(self.node.copy(), look, reply.copy()?);
        turn.enter(entry);
        turn.answer(self.answer(0, reply));
        Ok(())
    }

    /// A name call is numbered, and goes to the back of the queue. Where memory is refused the node is as it was.
    fn enqueue(&mut self, name_call: NameCall) -> Result<(), AllocError>
        requires { (self.old.last_call == last_u32) ≡ false }
        ensures turn { (made : Made) → OnOk result (Makes (λ n a u. queued n a (AnyOp.Name (u.node.last_call + 1) (name_call_of name_call)) (count_call u)) self.old made self.new made) }
        ensures kept { Keeps self.old self.new }
        ensures next { begins_with_join self.old.registrar.queue ≡ false → begins_with_join self.new.registrar.queue ≡ false }
        ensures joins { joins_in self.new.registrar.queue ≤ joins_in self.old.registrar.queue + 1 }
        ensures unchanged { OnErr result (self.new ≡ self.old) }
    {
        self.registrar
            .enqueue(Op::Name(self.last_call + 1, name_call))?;
        self.last_call += 1;
        Ok(())
    }

    /// A join is numbered, and goes to the back of the queue. One by a node that hasn't started is passed over. Where memory is
    /// refused the node is as it was.
    fn enqueue_join(&mut self, contact: &Node) -> Result<(), AllocError>
        requires { (self.old.last_call == last_u32) ≡ false }
        ensures turn { (made : Made) → with_older self.old.world contact.now ≡ true
            → OnOk result (Makes (λ n a u. queued n a (AnyOp.Join (u.node.last_call + 1) contact.now) (count_call u)) self.old made self.new made) }
        ensures kept { Keeps self.old self.new }
        ensures joins { joins_in self.new.registrar.queue ≤ joins_in self.old.registrar.queue + 1 }
        ensures unchanged { OnErr result (self.new ≡ self.old) }
    {
        if !self.world.reaches(contact) {
            return Ok(());
        }
        self.registrar
            .enqueue(Op::Join(self.last_call + 1, contact.copy()))?;
        self.last_call += 1;
        Ok(())
    }

    /// Makes room for what is made of a call, and for one letter more. A deletion goes to all members at most.
    fn make_room_to_call(turn: &mut Turn, call: &Call) -> Result<(), AllocError>
        ensures room { OnOk result (HasRoomToCall call.now turn.new) }
        ensures made { IsSameMade turn.old turn.new }
    {
        let (letters, entries, answers) = match call {
            Call::Spawn => (1, 0, 1),
            Call::Whereis(_) | Call::RegisteredNames | Call::Notices(_) => (1, 1, 1),
            Call::SetLock(..) => (2, 0, 1),
            Call::DelLock(..) => (MOST_NODES + 1, 0, 1),
            _ => (1, 0, 0),
        };
        turn.reserve(letters, entries, answers)
    }

    /// What a call does that isn't refused. There is room for a letter more behind it. Where memory is refused the node is as it was.
    pub(super) fn call(&mut self, turn: &mut Turn, call: &Call) -> Result<(), AllocError>
        requires { refusal_of (Calls call.now) self.old ≡ None }
        ensures turn { IsAskedWithin self.old.world call.now
            → OnOk result (Makes (λ n a u. called n a (u.node.last_call + 1) (call_of call.now) u) self.old turn.old self.new turn.new) }
        ensures kept { Keeps self.old self.new }
        ensures next { is_join_call call.now ≡ false → begins_with_join self.old.registrar.queue ≡ false
            → begins_with_join self.new.registrar.queue ≡ false }
        ensures joins { joins_in self.new.registrar.queue ≤ joins_in self.old.registrar.queue + 1 }
        ensures adds { OnOk result (Adds 1 1 turn.old turn.new) }
        ensures room { OnOk result (HasRoom 1 0 0 turn.new) }
        ensures unchanged { OnErr result (self.new ≡ self.old) }
    {
        Self::make_room_to_call(turn, call)?;
        match call {
            Call::Spawn => {
                self.spawn(turn);
                Ok(())
            }
            Call::Whereis(name) => self.look_up(turn, Look::Whereis(name.copy())),
            Call::RegisteredNames => self.look_up(turn, Look::RegisteredNames),
            Call::Notices(process) => self.look_up(turn, Look::Notices(process.copy())),
            Call::Register(pair) => self.enqueue(NameCall::Register(pair.copy())),
            Call::ReRegister(pair) => self.enqueue(NameCall::ReRegister(pair.copy())),
            Call::Unregister(name) => self.enqueue(NameCall::Unregister(name.copy())),
            Call::SetLock(holder, id, nodes, retries) => {
                self.set_lock_call(turn, holder, id, nodes, retries.copy())
            }
            Call::DelLock(holder, id, nodes) => self.delete_lock_call(turn, holder, id, nodes),
            Call::Join(contact) => self.enqueue_join(contact),
        }
    }

    /// A process dies: its call is dropped, and every member is to release its locks. There is room for a letter more behind it.
    /// Where memory is refused the node is as it was.
    pub(super) fn exit(&mut self, turn: &mut Turn, process: &Pid) -> Result<(), AllocError>
        requires { refusal_of (Exits process.now) self.old ≡ None }
        ensures turn { OnOk result (Makes (λ n a u. die n a process.now (entering (AnyEntry.Exit process.now) u)) self.old turn.old self.new turn.new) }
        ensures kept { KeepsQueue self.old self.new }
        ensures adds { OnOk result (Adds 1 0 turn.old turn.new) }
        ensures room { OnOk result (HasRoom 1 0 0 turn.new) }
        ensures unchanged { OnErr result (self.new ≡ self.old) }
    {
        turn.reserve(MOST_NODES + 1, 1, 0)?;
        // The process lives: so only memory may be refused.
        let Ok(()) = self.watch.exit(process) else {
            return Err(AllocError);
        };
        self.calls.take(process);
        turn.enter(Entry::Exit(process.copy()));
        turn.send_all(&self.members, &Letter::ReleaseOf(process.copy()));
        Ok(())
    }
}
