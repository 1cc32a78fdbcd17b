//! The rules of departures: this node leaves, or is told that another has left.
ghost use Rattle.std.specs.Prelude.{◌≡◌, OnOk};
ghost use Rattle.term.specs.NodeSets.{set_of};
ghost use Rattle.term.specs.declared.limits.TheConstants.{MOST_NODES};

use crate::node::{NodeCore, Phase};
use lock_calls::CallPhase;
use name_table::Names;
use node_events::{Entry, Letter, Turn};
use std::alloc::{AllocError, Global};
use term::{Node, NodeSet, Pid};

impl<N: Names<Memory = Global>> NodeCore<N> {
    ghost use Rattle.std.specs.Prelude.{true, ◌+◌, ◌*◌, length, map, OnErr};
    ghost use Rattle.protocol_model.specs.Event.{Leave as Leaves};
    ghost use Rattle.protocol_model.specs.Calling.{event};
    ghost use Rattle.protocol_model.specs.Client.{lose_node};
    ghost use Rattle.protocol_model.specs.Node.{call_of};
    ghost use Rattle.protocol_model.specs.Reading.{told_of, lose_current, bereave};
    ghost use Rattle.node_core.specs.Locking.{loss_of};
    ghost use Rattle.node_events.specs.Seen.{unnumbered};
    ghost use Rattle.node_events.specs.Made.{entered, HasRoom, Spends};
    ghost use Rattle.node_events.specs.declared.events.Entry.TheVariants.{Told};
    ghost use Rattle.lock_calls.specs.LockCallsState.{AreOrdered, seen as calls_seen};
    ghost use Rattle.node_core.specs.Rare.{is_admission};
    ghost use Rattle.node_core.specs.Steps.{IsOther, KeepsQueue, KeepsCalls, Makes};

    /// The node leaves: it says so to every other node at present.
    pub(super) fn leave(&mut self, turn: &mut Turn)
        requires { HasRoom MOST_NODES 1 0 turn.old }
        ensures turn { Makes (λ n a. event n a (set_of self.old.world) Leaves) self.old turn.old self.new turn.new }
        ensures kept { KeepsQueue self.old self.new }
        ensures spends { Spends MOST_NODES 1 0 turn.old turn.new }
    {
        turn.enter(Entry::Left(self.node.copy()));
        let mut others = self.world.copy();
        others.remove(&self.node);
        turn.send_all(&others, &Letter::Down);
    }

    /// The departure of another node enters the history.
    fn enter_told(&self, turn: &mut Turn, gone: &Node)
        requires { HasRoom 0 1 0 turn.old }
        ensures entered { turn.new ≡ entered (Told self.now.name gone.now) turn.old }
        ensures spends { Spends 0 1 0 turn.old turn.new }
    {
        turn.enter(Entry::Told(self.node.copy(), gone.copy()));
    }

    /// The departure of another node is entered, and taken in: that node is no member any more, and its names and locks go.
    fn take_in(&mut self, turn: &mut Turn, gone: &Node)
        requires other { IsOther self.old.world self.old.name gone.now }
        requires room { HasRoom 0 1 0 turn.old }
        ensures turn { Makes (λ n a. told_of n a unnumbered gone.now) self.old turn.old self.new turn.new }
        ensures work { self.new.registrar ≡ self.old.registrar }
        ensures calls { self.new.calls ≡ self.old.calls }
        ensures spends { Spends 0 1 0 turn.old turn.new }
    {
        self.enter_told(turn, gone);
        let gone_alone = NodeSet::one(gone.copy());
        self.told = self.told.last_within(&gone_alone, &self.world);
        self.members.remove(gone);
        self.table.drop_node(gone);
        self.locks.drop_node(gone);
    }

    /// A node has gone down: the round of the registrar is told, or what it writes is awaited of one node less. Memory is refused
    /// only where a round asks for an admission.
    fn lose_current(&mut self, turn: &mut Turn, gone: &Node) -> Result<(), AllocError>
        requires { HasRoom (MOST_NODES + 1) 1 1 turn.old }
        ensures turn { OnOk result (Makes (λ n a. lose_current n a unnumbered gone.now) self.old turn.old self.new turn.new) }
        ensures kept { KeepsCalls self.old self.new }
        ensures spends { Spends (MOST_NODES + 1) 1 1 turn.old turn.new }
        ensures refused { OnErr result (is_admission self.old.registrar.current ≡ true) }
    {
        if !self.is_at_work() {
            return Ok(());
        }
        let Phase::Asking(round) = &mut self.phase else {
            self.await_less(turn, gone);
            return Ok(());
        };
        round.down(gone);
        self.end_round(turn)
    }

    /// A node has gone down: a round or a wait of a process's call, if it has one, is told.
    fn lose_lock(&mut self, turn: &mut Turn, gone: &Node, holder: &Pid)
        requires { HasRoom MOST_NODES 0 1 turn.old }
        ensures turn { Makes (λ n a u. loss_of n a gone.now (call_of holder.now u.node.calls) u) self.old turn.old self.new turn.new }
        ensures kept { KeepsQueue self.old self.new }
        ensures spends { Spends MOST_NODES 0 1 turn.old turn.new }
    {
        let Some(call) = self.calls.get(holder) else {
            return;
        };
        let CallPhase::Asking(_) = &call.phase else {
            return self.owe_less(turn, gone, holder);
        };
        self.calls.lose(holder, gone);
        self.end_lock(turn, holder);
    }

    /// A node has gone down: all lock calls are told, by serial. These are the processes that have one.
    fn lose_node(&mut self, turn: &mut Turn, gone: &Node, holders: &[Pid])
        requires holders { holders.now ≡ map (λ c. c.holder) self.old.calls.calls }
        requires ordered { AreOrdered self.old.calls.node (calls_seen self.old.calls) }
        requires room { HasRoom (MOST_NODES * length holders.now) 0 (length holders.now) turn.old }
        ensures turn { Makes (λ n a. lose_node n a gone.now) self.old turn.old self.new turn.new }
        ensures kept { KeepsQueue self.old self.new }
        ensures spends { Spends (MOST_NODES * length holders.now) 0 (length holders.now) turn.old turn.new }
    {
        // Its calls are in order: the proof has this from a field.
        let _ = &self.alloc;
        for holder in holders {
            self.lose_lock(turn, gone, holder);
        }
    }

    /// Another node has gone down: this one is told, a join by that node ends, and the registrar and then the lock calls are told.
    /// Word that this node itself has left, or one that hasn't started, is passed over: a node is always one of its own members.
    /// These are the processes that have a lock call. Memory is refused only where a round asks for an admission.
    pub(super) fn bereave(
        &mut self,
        turn: &mut Turn,
        gone: &Node,
        holders: &[Pid],
    ) -> Result<(), AllocError>
        requires holders { holders.now ≡ map (λ c. c.holder) self.old.calls.calls }
        requires ordered { AreOrdered self.old.calls.node (calls_seen self.old.calls) }
        requires room { HasRoom (MOST_NODES + 1 + MOST_NODES * length holders.now) 3 (2 + length holders.now) turn.old }
        ensures turn { IsOther self.old.world self.old.name gone.now
            → OnOk result (Makes (λ n a. bereave n a unnumbered gone.now) self.old turn.old self.new turn.new) }
        ensures kept { KeepsQueue self.old self.new }
        ensures spends { Spends (MOST_NODES + 1 + MOST_NODES * length holders.now) 3 (2 + length holders.now) turn.old turn.new }
        ensures refused { OnErr result (is_admission self.old.registrar.current ≡ true) }
    {
        if !self.world.reaches(gone) || *gone == self.node {
            return Ok(());
        }
        self.take_in(turn, gone);
        self.lose_contact(turn, gone);
        self.lose_current(turn, gone)?;
        self.lose_node(turn, gone, holders);
        Ok(())
    }
}
