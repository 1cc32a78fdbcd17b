//! The rules of the registrar, which runs its operations one at a time, each under the global lock.
ghost use Rattle.term.specs.declared.limits.TheConstants.{MOST_NODES};

use crate::node::{NodeCore, Phase};
use exchange::settle;
use name_table::{Change, Names};
use node_events::{Answer, Entry, Letter, Reply, Turn};
use std::alloc::{AllocError, Global};
use std::mem;
use term::{LockId, Name, Node, NodeSet, Pid};
use transaction::{NameCall, Op};

impl<N: Names<Memory = Global>> NodeCore<N> {
    ghost use Rattle.std.specs.Prelude.{◌≡◌, ◌+◌, ◌||◌, ℕ, true, false, Some, OnOk, OnErr, is_some, IsTrue};
    ghost use Rattle.std.specs.Option.{option_map};
    ghost use Rattle.registry_model.specs.Call.{reply_to};
    ghost use Rattle.registry_model.specs.Table.{get, owns};
    ghost use Rattle.protocol_model.specs.Letter.{Global as GlobalId, Letter as AnyLetter};
    ghost use Rattle.protocol_model.specs.Registrar.{registrar, give_global, answer_op, finish, done, write, give_up, await_less};
    ghost use Rattle.protocol_model.specs.Deciding.{held};
    ghost use Rattle.term.specs.NodeSets.{set_of};
    ghost use Rattle.name_table.specs.Changes.{change_of};
    ghost use Rattle.transaction.specs.declared.op.Op.TheVariants.{Name as NameOp, Strike};
    ghost use Rattle.transaction.specs.Ops.{name_call_of, op_of};
    ghost use Rattle.node_core.specs.CoreState.{IsWithin};
    ghost use Rattle.node_events.specs.Letters.{letter_of, has_lists};
    ghost use Rattle.node_events.specs.Seen.{reply_of, is_list, unnumbered};
    ghost use Rattle.node_events.specs.Made.{HasRoom, Spends};
    ghost use Rattle.node_core.specs.Rare.{is_admission};
    ghost use Rattle.node_core.specs.Steps.{KeepsCalls, Makes, Works, EntersCall};

    /// The registrar, as the holder of its lock.
    pub(super) fn registrar_pid(&self) -> Pid
        ensures { result ≡ registrar self.now.name }
    {
        Pid {
            node: self.node.copy(),
            serial: 0,
        }
    }

    /// Asks for the global lock.
    pub(super) fn set_lock(&self) -> Letter
        ensures says { letter_of result ≡ AnyLetter.SetLock (GlobalId self.now.name) (registrar self.now.name) }
        ensures plain { has_lists result ≡ false }
    {
        Letter::SetLock(LockId::global(&self.node), self.registrar_pid())
    }

    /// Gives the global lock back.
    fn lock_back(&self) -> Letter
        ensures says { letter_of result ≡ AnyLetter.GiveBack (GlobalId self.now.name) (registrar self.now.name) false }
        ensures plain { has_lists result ≡ false }
    {
        Letter::GiveBack(LockId::global(&self.node), self.registrar_pid(), false)
    }

    /// These nodes get the global lock back.
    fn give_global(&self, turn: &mut Turn, nodes: &NodeSet)
        requires within { IsWithin self.now.world nodes.now }
        requires room { HasRoom MOST_NODES 0 0 turn.old }
        ensures turn { Makes (λ n a. give_global n a (set_of nodes.now)) self.now turn.old self.now turn.new }
        ensures spends { Spends MOST_NODES 0 0 turn.old turn.new }
    {
        turn.send_all(nodes, &self.lock_back());
    }

    /// The answer to a name call, or to another call where the number is 0.
    pub(super) fn answer(&self, call: u32, reply: Reply) -> Answer
        ensures { result ≡ record { node = self.now.name; call = call; reply = reply } }
    {
        Answer {
            node: self.node.copy(),
            call,
            reply,
        }
    }

    /// The current operation is answered, where it is a name call and has a reply here.
    fn answer_op(&self, turn: &mut Turn, reply: Option<Reply>)
        requires { HasRoom 0 0 1 turn.old }
        ensures turn { Works (λ op n a. answer_op n a op (option_map reply_of reply)) self.now turn.old self.now turn.new }
        ensures spends { Spends 0 0 1 turn.old turn.new }
    {
        if let (Some(Op::Name(call, _)), Some(reply)) = (self.registrar.current(), reply) {
            turn.answer(self.answer(*call, reply));
        }
    }

    /// The current operation is answered, who was asked and hasn't gone down gets the lock back, and the registrar is free.
    pub(super) fn finish(&mut self, turn: &mut Turn, asked: &NodeSet, reply: Option<Reply>)
        requires current { IsTrue (is_some self.old.registrar.current) }
        requires within { IsWithin self.old.world asked.now }
        requires room { HasRoom MOST_NODES 0 1 turn.old }
        ensures turn { Works (λ op n a. finish n a op (set_of asked.now) (option_map reply_of reply)) self.old turn.old self.new turn.new }
        ensures kept { KeepsCalls self.old self.new }
        ensures spends { Spends MOST_NODES 0 1 turn.old turn.new }
    {
        self.answer_op(turn, reply);
        self.give_global(turn, &asked.beyond(&self.told));
        self.registrar.finish();
    }

    /// The current operation was carried out everywhere, and is done.
    fn done(&mut self, turn: &mut Turn, asked: &NodeSet, reply: Option<Reply>)
        requires current { IsTrue (is_some self.old.registrar.current) }
        requires within { IsWithin self.old.world asked.now }
        requires room { HasRoom MOST_NODES 1 1 turn.old }
        ensures turn { Works (λ op n a. done n a op (set_of asked.now) (option_map reply_of reply)) self.old turn.old self.new turn.new }
        ensures kept { KeepsCalls self.old self.new }
        ensures spends { Spends MOST_NODES 1 1 turn.old turn.new }
    {
        turn.enter(Entry::Done(self.node.copy()));
        self.finish(turn, asked, reply);
    }

    /// The change goes to every member, and each is to say that it was written.
    fn write(&mut self, turn: &mut Turn, asked: NodeSet, reply: Option<Reply>, change: Change)
        requires current { IsTrue (is_some self.old.registrar.current) }
        requires within { IsWithin self.old.world asked }
        requires room { HasRoom MOST_NODES 0 0 turn.old }
        ensures turn { Works (λ op n a. write n a op (set_of asked) (option_map reply_of reply) (change_of change)) self.old turn.old self.new turn.new }
        ensures kept { KeepsCalls self.old self.new }
        ensures spends { Spends MOST_NODES 0 0 turn.old turn.new }
    {
        self.registrar.await_from(&self.members);
        self.phase = Phase::Writing(asked, reply);
        turn.send_all(&self.members, &Letter::Apply(change));
    }

    /// Whether the name has an owner, or the process a name.
    fn is_taken(&self, name: &Name, owner: &Pid) -> bool
        ensures { result ≡ (is_some (get name.now self.now.table) || owns owner.now self.now.table) }
    {
        self.table.owner(name).is_some() || self.table.owned_by(owner).is_some()
    }

    /// The reply to a name call, by the members and the table as they are.
    fn reply_to(&self, call: &NameCall) -> Reply
        ensures plain { is_list result ≡ false }
        ensures reply { reply_of result ≡ reply_to (set_of self.now.members) self.now.table (name_call_of call.now) }
    {
        match call {
            NameCall::Register(pair) | NameCall::ReRegister(pair)
                if !self.members.contains(&pair.owner.node) => { Reply::UnknownNode }
            NameCall::Register(pair) if self.is_taken(&pair.name, &pair.owner) => Reply::No,
            NameCall::Register(..) | NameCall::ReRegister(..) => Reply::Yes,
            NameCall::Unregister(_) => Reply::Ok,
        }
    }

    /// A name call enters the history, with its reply.
    fn enter_call(&self, turn: &mut Turn, call: u32, name_call: NameCall, reply: &Reply)
        requires plain { is_list reply.now ≡ false }
        requires room { HasRoom 0 1 0 turn.old }
        ensures entered { EntersCall self.now.name call name_call reply.now turn.old turn.new }
        ensures spends { Spends 0 1 0 turn.old turn.new }
    {
        let Ok(reply) = reply.copy() else {
            return;
        };
        turn.enter(Entry::Name(self.node.copy(), call, name_call, reply));
    }

    /// The lock is held: the current name call is decided, and enters the history. It is written where it is granted, and else
    /// ends at once.
    fn decide(&mut self, turn: &mut Turn, asked: NodeSet, call: u32, name_call: NameCall)
        requires current { self.old.registrar.current ≡ Some (NameOp call name_call) }
        requires within { IsWithin self.old.world asked }
        requires room { HasRoom MOST_NODES 1 1 turn.old }
        ensures turn { Works (λ op n a. held n a unnumbered op (set_of asked)) self.old turn.old self.new turn.new }
        ensures kept { KeepsCalls self.old self.new }
        ensures spends { Spends MOST_NODES 1 1 turn.old turn.new }
    {
        let reply = self.reply_to(&name_call);
        let change = name_call.change();
        self.enter_call(turn, call, name_call, &reply);
        match reply {
            Reply::Yes | Reply::Ok => self.write(turn, asked, Some(reply), change),
            _ => self.finish(turn, &asked, Some(reply)),
        }
    }

    /// The lock is held: a dead process loses all its names.
    fn strike(&mut self, turn: &mut Turn, asked: NodeSet, process: Pid)
        requires current { self.old.registrar.current ≡ Some (Strike process) }
        requires within { IsWithin self.old.world asked }
        requires room { HasRoom MOST_NODES 1 0 turn.old }
        ensures turn { Works (λ op n a. held n a unnumbered op (set_of asked)) self.old turn.old self.new turn.new }
        ensures kept { KeepsCalls self.old self.new }
        ensures spends { Spends MOST_NODES 1 0 turn.old turn.new }
    {
        turn.enter(Entry::Strike(process.copy()));
        self.write(turn, asked, None, Change::StrikeOwner(process));
    }

    /// The lock is held: the current operation is decided. Memory is refused only for an admission, and then the node is as it was.
    pub(super) fn held(&mut self, turn: &mut Turn, asked: NodeSet) -> Result<(), AllocError>
        requires within { IsWithin self.old.world asked }
        requires room { HasRoom (MOST_NODES + 1) 1 1 turn.old }
        ensures turn { OnOk result (Works (λ op n a. held n a unnumbered op (set_of asked)) self.old turn.old self.new turn.new) }
        ensures kept { KeepsCalls self.old self.new }
        ensures spends { Spends (MOST_NODES + 1) 1 1 turn.old turn.new }
        ensures refused { OnErr result (is_admission self.old.registrar.current ≡ true) }
        ensures unchanged { OnErr result (self.new ≡ self.old) }
    {
        match self.registrar.current() {
            Some(Op::Name(call, name_call)) => {
                let (call, name_call) = (*call, name_call.copy());
                self.decide(turn, asked, call, name_call);
                Ok(())
            }
            Some(Op::Strike(process)) => {
                let process = process.copy();
                self.strike(turn, asked, process);
                Ok(())
            }
            Some(Op::Admission(joiner, pairs)) => {
                let joiner = joiner.copy();
                let alloc = self.alloc;
                let settled = settle(alloc, &self.table, pairs.as_slice())?;
                self.decide_admission(turn, asked, joiner, &settled)
            }
            // A join has no round.
            Some(Op::Join(..)) | None => Ok(()),
        }
    }

    /// The round failed: who granted gets the lock back, and the operation waits for a retry.
    pub(super) fn give_up(&mut self, turn: &mut Turn, granted: &NodeSet)
        requires within { IsWithin self.old.world granted.now }
        requires room { HasRoom MOST_NODES 0 0 turn.old }
        ensures turn { Works (λ op n a. give_up n a op (set_of granted.now)) self.old turn.old self.new turn.new }
        ensures kept { KeepsCalls self.old self.new }
        ensures spends { Spends MOST_NODES 0 0 turn.old turn.new }
    {
        self.phase = Phase::Waiting;
        self.give_global(turn, granted);
    }

    /// A node has written the change, or has gone down: one less is awaited, and where none is left the operation is done.
    pub(super) fn await_less(&mut self, turn: &mut Turn, from: &Node)
        requires { HasRoom MOST_NODES 1 1 turn.old }
        ensures turn { Makes (λ n a u. await_less n a from.now u.node.current u) self.old turn.old self.new turn.new }
        ensures kept { KeepsCalls self.old self.new }
        ensures spends { Spends MOST_NODES 1 1 turn.old turn.new }
    {
        if !self.is_at_work() {
            return;
        }
        if !matches!(self.phase, Phase::Writing(..)) || !self.registrar.applied(from) {
            return;
        }
        if !self.registrar.is_done() {
            return;
        }
        if let Phase::Writing(asked, reply) = mem::replace(&mut self.phase, Phase::Waiting) {
            self.done(turn, &asked, reply);
        }
    }
}
