//! What a node does with a letter.
ghost use Rattle.std.specs.Prelude.{◌≡◌, OnOk};
ghost use Rattle.registry_model.specs.Table.{Table, changed};
ghost use Rattle.name_table.specs.Changes.{change_of};
ghost use Rattle.exit_watch.specs.WatchState.{AreSuspected, KeepsSuspects};
ghost use Rattle.node_core.specs.Seen.{is_granted};

use crate::node::NodeCore;
use exit_watch::Watch;
use lock_table::Verdict;
use name_table::{Change, Names};
use node_events::{Letter, Turn};
use std::alloc::{AllocError, Global};
use term::{LockId, MOST_NODES, Node, Pid};

/// Whether the lock table grants.
fn is_grant(verdict: &Verdict) -> bool
    ensures { result ≡ is_granted verdict.now }
{
    matches!(verdict, Verdict::Grant)
}

/// The watch is told of a change that is about to be written: only a put concerns it.
fn note_change(watch: &mut Watch, change: &Change) -> Result<(), AllocError>
    ensures node { watch.new.node ≡ watch.old.node }
    ensures watch { watch.new.watch ≡ watch.old.watch }
    ensures ok { OnOk result ((t : Table) → AreSuspected watch.old t → AreSuspected watch.new (changed (change_of change.now) t)) }
    ensures suspected { KeepsSuspects watch.old watch.new }
{
    if let Change::Put(pair) = change {
        watch.note_owner(&pair.owner)?;
    }
    Ok(())
}

impl<N: Names<Memory = Global>> NodeCore<N> {
    ghost use Rattle.std.specs.Prelude.{ℕ, true, false, ◌+◌, ◌*◌, ◌≤◌, length, OnErr};
    ghost use Rattle.protocol_model.specs.LockTable.{is_free_for};
    ghost use Rattle.protocol_model.specs.Letter.{Letter as AnyLetter};
    ghost use Rattle.protocol_model.specs.Node.{unless_told, wrote};
    ghost use Rattle.protocol_model.specs.Turn.{send, with_replica};
    ghost use Rattle.protocol_model.specs.Reading.{judge, hear, take_back, bereave, read, receive};
    ghost use Rattle.lock_table.specs.Ids.{id_of};
    ghost use Rattle.term.specs.NodeSets.{with_older};
    ghost use Rattle.node_events.specs.Letters.{letter_of};
    ghost use Rattle.node_events.specs.Made.{Made, HasRoom, Spends, IsSameMade};
    ghost use Rattle.node_events.specs.Seen.{unnumbered};
    ghost use Rattle.transaction.specs.Work.{begins_with_join};
    ghost use Rattle.node_core.specs.Rare.{is_admission, moves_names, joins_in, most_entries, most_answers, Adds, HasRoomToRead};
    ghost use Rattle.node_core.specs.Steps.{IsOther, IsSaidBy, IsAsBefore, Keeps, KeepsQueue, Makes};

    /// The lock table answers a node that asks for a grant. Where memory is refused the node is as it was.
    fn judge(
        &mut self,
        turn: &mut Turn,
        from: &Node,
        id: &LockId,
        holder: &Pid,
    ) -> Result<(), AllocError>
        requires { HasRoom 1 0 0 turn.old }
        ensures turn { OnOk result
            (Makes (λ n a u. judge n a unnumbered from.now (id_of id.now) holder.now (is_free_for (id_of id.now) holder.now u.node.locks) u) self.old turn.old self.new turn.new) }
        ensures kept { KeepsQueue self.old self.new }
        ensures spends { Spends 1 0 0 turn.old turn.new }
        ensures unchanged { OnErr result (self.new ≡ self.old) }
    {
        let verdict = self.locks.ask(id.copy(), holder.copy())?;
        let granted = is_grant(&verdict);
        turn.send(
            from.copy(),
            Letter::LockAnswer(id.copy(), holder.copy(), granted),
        );
        Ok(())
    }

    /// An answer goes to the round of its holder: this node's registrar, or a process that has a call. Where memory is refused the node
    /// is as it was.
    fn hear(
        &mut self,
        turn: &mut Turn,
        from: &Node,
        holder: &Pid,
        granted: bool,
    ) -> Result<(), AllocError>
        requires { HasRoom (2 * MOST_NODES + 1) 1 1 turn.old }
        ensures turn { OnOk result (Makes (λ n a. hear n a unnumbered from.now holder.now granted) self.old turn.old self.new turn.new) }
        ensures kept { KeepsQueue self.old self.new }
        ensures spends { Spends (2 * MOST_NODES + 1) 1 1 turn.old turn.new }
        ensures unchanged { OnErr result (self.new ≡ self.old) }
    {
        if *holder != self.registrar_pid() {
            self.hear_lock(turn, from, holder, granted);
            return Ok(());
        }
        self.hear_answer(turn, from, granted)
    }

    /// One grant of a lock is taken back, which is answered where the letter says so.
    fn take_back(&mut self, turn: &mut Turn, from: &Node, id: &LockId, holder: &Pid, ack: bool)
        requires { HasRoom 1 0 0 turn.old }
        ensures turn { Makes (λ n a. take_back n a unnumbered from.now (id_of id.now) holder.now ack) self.old turn.old self.new turn.new }
        ensures kept { KeepsQueue self.old self.new }
        ensures spends { Spends 1 0 0 turn.old turn.new }
    {
        self.locks.give_back(id, holder);
        if ack {
            turn.send(from.copy(), Letter::GivenBack(holder.copy()));
        }
    }

    /// A put whose owner's node is told to have left removes the name instead; all else is written as it stands.
    fn unless_told(&self, change: &Change) -> Change
        ensures { change_of result ≡ unless_told (with_older self.now.told) (change_of change.now) }
    {
        match change {
            Change::Put(pair) if self.told.reaches(&pair.owner.node) => {
                Change::Remove(pair.name.copy())
            }
            _ => change.copy(),
        }
    }

    /// A change is written. Where memory is refused the node is as before, as the protocol sees it.
    pub(super) fn write_change(&mut self, change: &Change) -> Result<(), AllocError>
        ensures turn { (made : Made) → OnOk result (Makes (λ n a. with_replica (wrote (change_of change.now))) self.old made self.new made) }
        ensures kept { KeepsQueue self.old self.new }
        ensures unchanged { OnErr result (IsAsBefore self.old self.new) }
    {
        let change = self.unless_told(change);
        note_change(&mut self.watch, &change)?;
        self.table.write(change)
    }

    /// A change is written, and acknowledged. Where memory is refused the node is as before, as the protocol sees it.
    fn apply(&mut self, turn: &mut Turn, from: &Node, change: &Change) -> Result<(), AllocError>
        requires { HasRoom 1 0 0 turn.old }
        ensures turn { OnOk result (Makes (λ n a u. send from.now AnyLetter.Applied (with_replica (wrote (change_of change.now)) u)) self.old turn.old self.new turn.new) }
        ensures kept { KeepsQueue self.old self.new }
        ensures spends { Spends 1 0 0 turn.old turn.new }
        ensures unchanged { OnErr result (IsAsBefore self.old self.new) }
    {
        self.write_change(change)?;
        turn.send(from.copy(), Letter::Applied);
        Ok(())
    }

    /// Another node has left, as this one is told. There is room for a letter more behind it. Where memory is refused, and no round
    /// asks for an admission, the node is as it was.
    fn hear_of_departure(&mut self, turn: &mut Turn, gone: &Node) -> Result<(), AllocError>
        ensures turn { IsOther self.old.world self.old.name gone.now
            → OnOk result (Makes (λ n a. bereave n a unnumbered gone.now) self.old turn.old self.new turn.new) }
        ensures kept { KeepsQueue self.old self.new }
        ensures adds { OnOk result (Adds 3 (2 + length self.old.calls.calls) turn.old turn.new) }
        ensures room { OnOk result (HasRoom 1 0 0 turn.new) }
        ensures unchanged { OnErr result (is_admission self.old.registrar.current ≡ false → self.new ≡ self.old) }
    {
        let holders = self.calls.holders(self.alloc)?;
        // A call of each of these processes may give its lock back to all nodes, and the registrar's operation gives its own back, too, and may
        // start what is next; a letter more is left.
        let room = holders.len().checked_mul(MOST_NODES).ok_or(AllocError)?;
        let room = room.checked_add(MOST_NODES + 2).ok_or(AllocError)?;
        turn.reserve(room, 3, room)?;
        self.bereave(turn, gone, &holders)
    }

    /// Makes room for what is made of a letter, and for one letter more, by which the registrar may start what is next. An answer may
    /// ask the rest of the members and then be told to all of them, and what is applied frees them all. The room for `Admit`,
    /// `Welcome` and `Down` is made where they are read.
    fn make_room(turn: &mut Turn, letter: &Letter) -> Result<(), AllocError>
        ensures room { OnOk result (HasRoomToRead letter.now turn.new) }
        ensures made { IsSameMade turn.old turn.new }
    {
        let (letters, entries, answers) = match letter {
            Letter::LockAnswer(..) => (2 * MOST_NODES + 2, 1, 1),
            Letter::Applied => (MOST_NODES + 1, 1, 1),
            Letter::GivenBack(_) | Letter::JoinRefused => (1, 0, 1),
            Letter::JoinAsk(_) => (2, 1, 0),
            _ => (2, 0, 0),
        };
        turn.reserve(letters, entries, answers)
    }

    /// What the node does with a letter. There is room for a letter more behind it. Where memory is refused and the letter moves no
    /// names, the node is as before, as the protocol sees it.
    fn read(&mut self, turn: &mut Turn, from: &Node, letter: &Letter) -> Result<(), AllocError>
        requires { HasRoomToRead letter.now turn.old }
        ensures turn { IsSaidBy self.old.world self.old.name from.now letter.now
            → OnOk result (Makes (λ n a. read n a unnumbered from.now (letter_of letter.now)) self.old turn.old self.new turn.new) }
        ensures kept { Keeps self.old self.new }
        ensures next { begins_with_join self.old.registrar.queue ≡ false → begins_with_join self.new.registrar.queue ≡ false }
        ensures joins { joins_in self.new.registrar.queue ≤ joins_in self.old.registrar.queue + 1 }
        ensures adds { OnOk result (Adds 3 (2 + length self.old.calls.calls) turn.old turn.new) }
        ensures room { OnOk result (HasRoom 1 0 0 turn.new) }
        ensures unchanged { OnErr result (moves_names (is_admission self.old.registrar.current) letter.now ≡ false → IsAsBefore self.old self.new) }
    {
        match letter {
            Letter::SetLock(id, holder) => self.judge(turn, from, id, holder),
            Letter::LockAnswer(_, holder, granted) => self.hear(turn, from, holder, *granted),
            Letter::GiveBack(id, holder, ack) => {
                self.take_back(turn, from, id, holder, *ack);
                Ok(())
            }
            Letter::GivenBack(holder) => {
                self.owe_less(turn, from, holder);
                Ok(())
            }
            Letter::ReleaseOf(holder) => {
                self.locks.drop_holder(holder);
                Ok(())
            }
            Letter::Apply(change) => self.apply(turn, from, change),
            Letter::Applied => {
                self.await_less(turn, from);
                Ok(())
            }
            Letter::JoinAsk(pairs) => self.asked_to_admit(turn, from, pairs),
            Letter::JoinRefused => {
                self.refused_join(turn, from);
                Ok(())
            }
            Letter::Admit(admission) => self.admit_joiner(turn, from, admission),
            Letter::Welcome(welcome) => self.welcome(turn, from, welcome.as_ref()),
            Letter::Down => self.hear_of_departure(turn, from),
        }
    }

    /// A letter is read, and then the registrar starts what is next. One from a node that is told to have left is dropped
    /// unread, but for `Down`.
    pub(super) fn receive(
        &mut self,
        turn: &mut Turn,
        from: &Node,
        letter: &Letter,
    ) -> Result<(), AllocError>
        ensures turn { IsSaidBy self.old.world self.old.name from.now letter.now
            → OnOk result (Makes (λ n a. receive n a unnumbered from.now (letter_of letter.now)) self.old turn.old self.new turn.new) }
        ensures kept { Keeps self.old self.new }
        ensures adds { OnOk result (Adds (most_entries self.old) (most_answers self.old) turn.old turn.new) }
        ensures unchanged { OnErr result (moves_names (is_admission self.old.registrar.current) letter.now ≡ false
            → begins_with_join self.old.registrar.queue ≡ false → IsAsBefore self.old self.new) }
    {
        Self::make_room(turn, letter)?;
        if !self.told.reaches(from) || matches!(letter, Letter::Down) {
            self.read(turn, from, letter)?;
        }
        self.start(turn)
    }
}
