//! The rules of clients' lock calls: each call of a process of this node has rounds of its own.
ghost use Rattle.term.specs.declared.limits.TheConstants.{MOST_NODES};

use crate::node::NodeCore;
use boss_order::boss;
use lock_calls::{CallPhase, LockCall};
use locker::{Ending, Round};
use name_table::Names;
use node_events::{Letter, Reply, Turn};
use std::alloc::{AllocError, Global};
use term::{Node, NodeSet, Pid};
use transaction::Nodes;

impl<N: Names<Memory = Global>> NodeCore<N> {
    ghost use Rattle.std.specs.Prelude.{◌≡◌, ◌*◌, ℕ, ◌<◌, false, Some, length, map, OnOk, OnErr};
    ghost use Rattle.protocol_model.specs.Node.{LockCall as AnyCall, targets, call_of, drop_call};
    ghost use Rattle.protocol_model.specs.Client.{close_call, ask_lock, try_lock, give_lock, refuse_lock, hear_lock, delete_lock, owe_less, retry_locks};
    ghost use Rattle.protocol_model.specs.Letter.{Letter as AnyLetter};
    ghost use Rattle.term.specs.NodeSets.{set_of};
    ghost use Rattle.lock_table.specs.Ids.{id_of};
    ghost use Rattle.lock_calls.specs.Calls.{as_call};
    ghost use Rattle.lock_calls.specs.LockCallsState.{AreOrdered, seen as calls_seen};
    ghost use Rattle.transaction.specs.Calls.{target_of};
    ghost use Rattle.node_core.specs.CoreState.{IsWithin, IsOwnCall};
    ghost use Rattle.node_core.specs.Locking.{retry_of, end_of, deleted_of};
    ghost use Rattle.node_events.specs.Letters.{letter_of, has_lists};
    ghost use Rattle.node_events.specs.Made.{HasRoom, Spends};
    ghost use Rattle.node_core.specs.Steps.{KeepsQueue, Makes};

    /// The nodes that a lock call asks, as the members are now.
    fn targets(&self, nodes: &Nodes) -> NodeSet
        ensures asked { (c : ℕ) → set_of result c ≡ targets (set_of self.now.members) (target_of nodes.now) c }
        ensures within { IsWithin self.now.world result }
    {
        match nodes {
            Nodes::All => self.members.copy(),
            Nodes::Named(named) => self.members.named(named.as_set()),
        }
    }

    /// Asks for one grant to a lock call.
    fn lock_letter(call: &LockCall) -> Letter
        ensures says { letter_of result ≡ AnyLetter.SetLock (id_of call.now.id) call.now.holder }
        ensures plain { has_lists result ≡ false }
    {
        Letter::SetLock(call.id.copy(), call.holder.copy())
    }

    /// The process has no call any more.
    fn end_call(&mut self, holder: &Pid)
        ensures calls { calls_seen self.new.calls ≡ drop_call holder.now (calls_seen self.old.calls) }
        ensures others { self.new ≡ record self.old { calls = self.new.calls } }
        ensures ordered { AreOrdered self.old.calls.node (calls_seen self.old.calls) }
    {
        self.calls.take(holder);
    }

    /// The call ends with this answer.
    fn close_call(&mut self, turn: &mut Turn, call: &LockCall, granted: bool)
        requires { HasRoom 0 0 1 turn.old }
        ensures turn { Makes (λ n a. close_call n a (as_call call.now) granted) self.old turn.old self.new turn.new }
        ensures kept { KeepsQueue self.old self.new }
        ensures spends { Spends 0 0 1 turn.old turn.new }
        ensures ordered { AreOrdered self.old.calls.node (calls_seen self.old.calls) }
    {
        self.end_call(&call.holder);
        let reply = if granted { Reply::True } else { Reply::False };
        turn.answer(self.answer(call.number, reply));
    }

    /// The call of a process, if it has one, ends with this answer.
    fn close_of(&mut self, turn: &mut Turn, holder: &Pid, granted: bool)
        requires { HasRoom 0 0 1 turn.old }
        ensures turn { (c : AnyCall) → call_of holder.now (calls_seen self.old.calls) ≡ Some c
            → Makes (λ n a. close_call n a c granted) self.old turn.old self.new turn.new }
        ensures kept { KeepsQueue self.old self.new }
        ensures spends { Spends 0 0 1 turn.old turn.new }
    {
        if let Some(call) = self.calls.take(holder) {
            self.close_call(turn, &call, granted);
        }
    }

    /// A round of the call begins over these nodes: the boss is asked. Where memory is refused the node is as it was.
    fn ask_lock(
        &mut self,
        turn: &mut Turn,
        mut call: LockCall,
        nodes: &NodeSet,
    ) -> Result<(), AllocError>
        requires some { 0 < length nodes.now }
        requires within { IsWithin self.old.world nodes.now }
        requires own { IsOwnCall self.old call }
        requires room { HasRoom 1 0 0 turn.old }
        ensures turn { OnOk result (Makes (λ n a. ask_lock n a (as_call call) (set_of nodes.now)) self.old turn.old self.new turn.new) }
        ensures kept { KeepsQueue self.old self.new }
        ensures spends { Spends 1 0 0 turn.old turn.new }
        ensures unchanged { OnErr result (self.new ≡ self.old) }
    {
        turn.send(boss(nodes), Self::lock_letter(&call));
        call.phase = CallPhase::Asking(Round::begin(nodes));
        self.calls.put(call)
    }

    /// A `set_lock` is tried over the members of now; where there is nobody to ask it is answered `false`. Where memory is refused
    /// the node is as it was.
    pub(super) fn try_lock(&mut self, turn: &mut Turn, call: LockCall) -> Result<(), AllocError>
        requires own { IsOwnCall self.old call }
        requires room { HasRoom 1 0 1 turn.old }
        ensures turn { OnOk result (Makes (λ n a. try_lock n a (as_call call)) self.old turn.old self.new turn.new) }
        ensures kept { KeepsQueue self.old self.new }
        ensures spends { Spends 1 0 1 turn.old turn.new }
        ensures unchanged { OnErr result (self.new ≡ self.old) }
    {
        let nodes = self.targets(&call.nodes);
        if nodes.is_empty() {
            self.close_call(turn, &call, false);
            return Ok(());
        }
        self.ask_lock(turn, call, &nodes)
    }

    /// These nodes get their grant of the call back.
    fn give_lock(&self, turn: &mut Turn, call: &LockCall, granted: &NodeSet)
        requires within { IsWithin self.now.world granted.now }
        requires room { HasRoom MOST_NODES 0 0 turn.old }
        ensures turn { Makes (λ n a. give_lock n a (as_call call.now) (set_of granted.now)) self.now turn.old self.now turn.new }
        ensures spends { Spends MOST_NODES 0 0 turn.old turn.new }
    {
        let letter = Letter::GiveBack(call.id.copy(), call.holder.copy(), false);
        turn.send_all(granted, &letter);
    }

    /// The round of a process's call failed: the call ends where no retry is left, and else waits for one.
    fn refuse_lock(&mut self, turn: &mut Turn, holder: &Pid)
        requires { HasRoom 0 0 1 turn.old }
        ensures turn { (c : AnyCall) → call_of holder.now (calls_seen self.old.calls) ≡ Some c
            → Makes (λ n a. refuse_lock n a c) self.old turn.old self.new turn.new }
        ensures kept { KeepsQueue self.old self.new }
        ensures spends { Spends 0 0 1 turn.old turn.new }
    {
        let Some(call) = self.calls.get(holder) else {
            return;
        };
        if call.retries.is_spent() {
            return self.close_of(turn, holder, false);
        }
        self.calls.wait(holder);
    }

    /// A node answers the round of a process's call, if there is one: the rest are asked where it is the boss's grant,
    /// and the round may be over.
    pub(super) fn hear_lock(&mut self, turn: &mut Turn, from: &Node, holder: &Pid, granted: bool)
        requires { HasRoom (2 * MOST_NODES) 0 1 turn.old }
        ensures turn { Makes (λ n a u. hear_lock n a from.now granted (call_of holder.now u.node.calls) u) self.old turn.old self.new turn.new }
        ensures kept { KeepsQueue self.old self.new }
        ensures spends { Spends (2 * MOST_NODES) 0 1 turn.old turn.new }
    {
        let Some(call) = self.calls.get(holder) else {
            return;
        };
        let CallPhase::Asking(round) = &call.phase else {
            return;
        };
        if !round.owes(from) {
            return;
        }
        self.ask_rest(turn, round, from, granted, &Self::lock_letter(call));
        self.calls.answer(holder, from, granted);
        self.end_lock(turn, holder);
    }

    /// The round of a process's call ends, where it is over.
    pub(super) fn end_lock(&mut self, turn: &mut Turn, holder: &Pid)
        requires { HasRoom MOST_NODES 0 1 turn.old }
        ensures turn { Makes (λ n a u. end_of n a (call_of holder.now u.node.calls) u) self.old turn.old self.new turn.new }
        ensures kept { KeepsQueue self.old self.new }
        ensures spends { Spends MOST_NODES 0 1 turn.old turn.new }
    {
        let Some(call) = self.calls.get(holder) else {
            return;
        };
        let CallPhase::Asking(round) = &call.phase else {
            return;
        };
        if !round.is_over() {
            return;
        }
        match round.finish(&round.asked()) {
            Ending::Held => self.close_of(turn, holder, true),
            Ending::GiveBack(granted) => {
                self.give_lock(turn, call, &granted);
                self.refuse_lock(turn, holder);
            }
        }
    }

    /// A `del_lock` goes to the members, or to those named nodes that are members; where there are none it is answered
    /// at once. Where memory is refused the node is as it was.
    pub(super) fn delete_lock(
        &mut self,
        turn: &mut Turn,
        mut call: LockCall,
    ) -> Result<(), AllocError>
        requires own { IsOwnCall self.old call }
        requires room { HasRoom MOST_NODES 0 1 turn.old }
        ensures turn { OnOk result (Makes (λ n a. delete_lock n a (as_call call)) self.old turn.old self.new turn.new) }
        ensures kept { KeepsQueue self.old self.new }
        ensures spends { Spends MOST_NODES 0 1 turn.old turn.new }
        ensures unchanged { OnErr result (self.new ≡ self.old) }
    {
        let nodes = self.targets(&call.nodes);
        if nodes.is_empty() {
            self.close_call(turn, &call, true);
            return Ok(());
        }
        let letter = Letter::GiveBack(call.id.copy(), call.holder.copy(), true);
        turn.send_all(&nodes, &letter);
        call.phase = CallPhase::Deleting(nodes);
        self.calls.put(call)
    }

    /// A node has given a lock of a process up: its deletion has one node less to wait for, and at none it is answered.
    pub(super) fn owe_less(&mut self, turn: &mut Turn, from: &Node, holder: &Pid)
        requires { HasRoom 0 0 1 turn.old }
        ensures turn { Makes (λ n a u. owe_less n a from.now (call_of holder.now u.node.calls) u) self.old turn.old self.new turn.new }
        ensures kept { KeepsQueue self.old self.new }
        ensures spends { Spends 0 0 1 turn.old turn.new }
    {
        let Some(call) = self.calls.get(holder) else {
            return;
        };
        let CallPhase::Deleting(owing) = &call.phase else {
            return;
        };
        if !owing.contains(from) {
            return;
        }
        self.calls.give_up(holder, from);
        self.end_deletion(turn, holder);
    }

    /// A process's call is answered, where it is a deletion that waits for nobody.
    fn end_deletion(&mut self, turn: &mut Turn, holder: &Pid)
        requires { HasRoom 0 0 1 turn.old }
        ensures turn { Makes (λ n a u. deleted_of n a (call_of holder.now u.node.calls) u) self.old turn.old self.new turn.new }
        ensures kept { KeepsQueue self.old self.new }
        ensures spends { Spends 0 0 1 turn.old turn.new }
    {
        let Some(call) = self.calls.get(holder) else {
            return;
        };
        let CallPhase::Deleting(owing) = &call.phase else {
            return;
        };
        if !owing.is_empty() {
            return;
        }
        self.close_of(turn, holder, true);
    }

    /// The refused call of a process, if it has one, uses one retry and is tried again.
    fn retry_lock(&mut self, turn: &mut Turn, holder: &Pid)
        requires { HasRoom 1 0 1 turn.old }
        ensures turn { Makes (λ n a u. retry_of n a (call_of holder.now u.node.calls) u) self.old turn.old self.new turn.new }
        ensures kept { KeepsQueue self.old self.new }
        ensures spends { Spends 1 0 1 turn.old turn.new }
    {
        let Some(call) = self.calls.get(holder) else {
            return;
        };
        if !call.phase.is_waiting() {
            return;
        }
        let nodes = self.targets(&call.nodes);
        if nodes.is_empty() {
            return self.close_of(turn, holder, false);
        }
        turn.send(boss(&nodes), Self::lock_letter(call));
        self.calls.ask_again(holder, Round::begin(&nodes));
    }

    /// All refused calls are tried again, by serial: these are the processes that have one.
    pub(super) fn retry_locks(&mut self, turn: &mut Turn, holders: &[Pid])
        requires holders { holders.now ≡ map (λ c. c.holder) self.old.calls.calls }
        requires ordered { AreOrdered self.old.calls.node (calls_seen self.old.calls) }
        requires room { HasRoom (length holders.now) 0 (length holders.now) turn.old }
        ensures turn { Makes (λ n a. retry_locks n a) self.old turn.old self.new turn.new }
        ensures kept { KeepsQueue self.old self.new }
        ensures spends { Spends (length holders.now) 0 (length holders.now) turn.old turn.new }
    {
        // Its calls are in order: the proof has this from a field.
        let _ = &self.alloc;
        for holder in holders {
            self.retry_lock(turn, holder);
        }
    }
}
