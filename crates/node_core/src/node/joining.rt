//! The rules of joins: a lone node asks a contact, which lets it in under the global lock.
ghost use Rattle.std.specs.Prelude.{◌≡◌, ℕ, true, false, ◌&&◌, ◌||◌, OnOk, IfOk};
ghost use Rattle.registry_model.specs.Table.{is_rising, without};
ghost use Rattle.term.specs.NodeSets.{set_of, with_older};
ghost use Rattle.exit_watch.specs.WatchState.{AreSuspected, KeepsSuspects};

use crate::node::{NodeCore, Phase};
use exchange::{Admission, Noted, Settled, Welcome, admit_of, welcome_of};
use exit_watch::Watch;
use name_table::{Change, Names, Pair};
use node_events::{Entry, Letter, Reply, Turn, copied_pairs};
use std::alloc::{AllocError, Global};
use term::{MOST_NODES, Name, Node, NodeSet, Pid};
use transaction::Op;

/// A table of those of these pairs whose owners' nodes haven't gone. The watch is told of each owner.
fn table_of<N: Names<Memory = Global>>(
    alloc: Global,
    watch: &mut Watch,
    pairs: &[Pair],
    gone: &NodeSet,
) -> Result<N, AllocError>
    ensures table { is_rising pairs.now ≡ true → IfOk result (λ table. N.contents table ≡ without (with_older gone.now) pairs.now) }
    ensures node { watch.new.node ≡ watch.old.node }
    ensures watch { watch.new.watch ≡ watch.old.watch }
    ensures ok { IfOk result (λ table. AreSuspected watch.new (N.contents table)) }
    ensures suspected { KeepsSuspects watch.old watch.new }
{
    let mut table = N::empty(alloc);
    for pair in pairs {
        if !gone.reaches(&pair.owner.node) {
            watch.note_owner(&pair.owner)?;
            table.write(Change::Put(pair.copy()))?;
        }
    }
    Ok(table)
}

impl<N: Names<Memory = Global>> NodeCore<N> {
    ghost use Rattle.std.specs.Prelude.{◌+◌, ◌≤◌, None, Some, is_some, IsTrue, IfSome, fold, OnErr};
    ghost use Rattle.registry_model.specs.Process.{Process};
    ghost use Rattle.registry_model.specs.Table.{Table};
    ghost use Rattle.registry_model.specs.Settlement.{Fate, settle};
    ghost use Rattle.registry_model.specs.Call.{NotMember as IsNoMember};
    ghost use Rattle.protocol_model.specs.Node.{Op as AnyOp};
    ghost use Rattle.protocol_model.specs.Letter.{Letter as AnyLetter};
    ghost use Rattle.protocol_model.specs.Watch.{is_live};
    ghost use Rattle.protocol_model.specs.Turn.{send, with_replica};
    ghost use Rattle.protocol_model.specs.Registrar.{ask_join, contact_left, lose_contact};
    ghost use Rattle.protocol_model.specs.Deciding.{admit, held};
    ghost use Rattle.protocol_model.specs.Reading.{admitted, noted, joined_with, asked_to_admit, refused_join, welcome, with_member};
    ghost use Rattle.protocol_model.specs.Calling.{kill};
    ghost use Rattle.node_events.specs.Made.{Made, entered, HasRoom, Spends};
    ghost use Rattle.node_events.specs.declared.events.Entry.TheVariants.{Joined as HasJoined};
    ghost use Rattle.term.specs.NodeSets.{IsNodeSet};
    ghost use Rattle.node_core.specs.CoreState.{IsWithin};
    ghost use Rattle.exchange.specs.Bodies.{settled_in, fate_in};
    ghost use Rattle.node_core.specs.Joining.{join_by, kill_one, put_names, remove_names, IsAdmitting, IsWelcomeTo, TellsToAdmit, Welcomes};
    ghost use Rattle.node_core.specs.Seen.{node_of};
    ghost use Rattle.node_events.specs.Seen.{unnumbered};
    ghost use Rattle.transaction.specs.Work.{begins_with_join};
    ghost use Rattle.node_core.specs.Rare.{Adds, is_admission, joins_in};
    ghost use Rattle.node_core.specs.Steps.{Keeps, KeepsQueue, KeepsCalls, Makes};

    /// The number of the join that waits for a contact, if one does.
    fn join_by(&self, contact: &Node) -> Option<u32>
        ensures number { result ≡ join_by contact.now (node_of self.now).current }
        ensures busy { IfSome result (λ _. IsTrue (is_some self.now.registrar.current)) }
    {
        match &self.phase {
            Phase::Joining(number, node) if self.is_at_work() && node == contact => Some(*number),
            _ => None,
        }
    }

    /// The current operation is a join: its contact is asked, and gets the whole table. There is room for one letter.
    pub(super) fn ask_join(
        &mut self,
        turn: &mut Turn,
        number: u32,
        contact: Node,
    ) -> Result<(), AllocError>
        requires current { IsTrue (is_some self.old.registrar.current) }
        requires within { with_older self.old.world contact ≡ true }
        requires room { HasRoom 1 0 0 turn.old }
        ensures turn { OnOk result (Makes (λ n a. ask_join n a number contact) self.old turn.old self.new turn.new) }
        ensures kept { Keeps self.old self.new }
        ensures spends { Spends 1 0 0 turn.old turn.new }
    {
        let pairs = self.table.pairs(self.alloc)?;
        turn.send(contact.copy(), Letter::JoinAsk(pairs));
        self.phase = Phase::Joining(number, contact);
        Ok(())
    }

    /// A join of this node ends, since its contact has left.
    pub(super) fn contact_left(&self, turn: &mut Turn, number: u32, contact: Node)
        requires { HasRoom 0 1 1 turn.old }
        ensures turn { Makes (λ n a. contact_left n a number contact) self.now turn.old self.now turn.new }
        ensures spends { Spends 0 1 1 turn.old turn.new }
    {
        turn.enter(Entry::ContactLeft(self.node.copy(), number, contact));
        turn.answer(self.answer(number, Reply::ContactLeft));
    }

    /// A node has gone down: a join by it ends.
    pub(super) fn lose_contact(&mut self, turn: &mut Turn, gone: &Node)
        requires { HasRoom 0 1 1 turn.old }
        ensures turn { Makes (λ n a u. lose_contact n a gone.now u.node.current u) self.old turn.old self.new turn.new }
        ensures kept { KeepsCalls self.old self.new }
        ensures spends { Spends 0 1 1 turn.old turn.new }
        ensures admission { is_admission self.new.registrar.current ≡ true → is_admission self.old.registrar.current ≡ true }
    {
        if let Some(number) = self.join_by(gone) {
            self.registrar.finish();
            self.contact_left(turn, number, gone.copy());
        }
    }

    /// A lone node asks to join: its admission goes to the back of the queue, or is refused by a lone node. One that hasn't started
    /// is passed over. Where memory is refused the node is as it was.
    pub(super) fn asked_to_admit(
        &mut self,
        turn: &mut Turn,
        from: &Node,
        pairs: &Vec<Pair>,
    ) -> Result<(), AllocError>
        requires { HasRoom 1 1 0 turn.old }
        ensures spends { Spends 1 1 0 turn.old turn.new }
        ensures next { begins_with_join self.old.registrar.queue ≡ false → begins_with_join self.new.registrar.queue ≡ false }
        ensures joins { joins_in self.new.registrar.queue ≤ joins_in self.old.registrar.queue + 1 }
        ensures unchanged { OnErr result (self.new ≡ self.old) }
        ensures turn { with_older self.old.world from.now ≡ true
            → OnOk result (Makes (λ n a. asked_to_admit n a unnumbered from.now pairs.now.items) self.old turn.old self.new turn.new) }
        ensures kept { Keeps self.old self.new }
    {
        if !self.world.reaches(from) {
            return Ok(());
        }
        if !self.joined {
            turn.enter(Entry::NotMember(from.copy(), self.node.copy()));
            turn.send(from.copy(), Letter::JoinRefused);
            return Ok(());
        }
        self.registrar
            .enqueue(Op::Admission(from.copy(), copied_pairs(pairs)?))
    }

    /// A join by the node that says so is refused.
    pub(super) fn refused_join(&mut self, turn: &mut Turn, from: &Node)
        requires { HasRoom 0 0 1 turn.old }
        ensures turn { Makes (λ n a u. refused_join n a unnumbered from.now u.node.current u) self.old turn.old self.new turn.new }
        ensures kept { KeepsQueue self.old self.new }
        ensures spends { Spends 0 0 1 turn.old turn.new }
    {
        if let Some(number) = self.join_by(from) {
            self.registrar.finish();
            turn.answer(self.answer(number, Reply::NotMember));
        }
    }

    /// The join of a lone node enters the history.
    fn enter_joined(&self, turn: &mut Turn, joiner: &Node)
        requires { HasRoom 0 1 0 turn.old }
        ensures entered { turn.new ≡ entered (HasJoined joiner.now self.now.name) turn.old }
        ensures spends { Spends 0 1 0 turn.old turn.new }
    {
        turn.enter(Entry::Joined(joiner.copy(), self.node.copy()));
    }

    /// The members are told to admit a lone node.
    fn tell_to_admit(
        &self,
        turn: &mut Turn,
        joiner: &Node,
        settled: &Settled,
    ) -> Result<(), AllocError>
        requires { HasRoom MOST_NODES 0 0 turn.old }
        ensures told { OnOk result (TellsToAdmit self.now joiner.now settled.now turn.old turn.new) }
        ensures set { OnOk result (IsNodeSet self.now.members) }
        ensures spends { Spends MOST_NODES 0 0 turn.old turn.new }
    {
        let admission = admit_of(self.alloc, joiner, settled)?;
        turn.send_copies(&self.members, &Letter::Admit(admission))
    }

    /// A lone node is sent all that this node has, and what is settled.
    fn send_welcome(
        &self,
        turn: &mut Turn,
        joiner: &Node,
        settled: &Settled,
    ) -> Result<(), AllocError>
        requires joiner { set_of self.now.world joiner.now ≡ true }
        requires members { IsNodeSet self.now.members }
        requires room { HasRoom 1 0 0 turn.old }
        ensures welcomed { OnOk result (Welcomes self.now joiner.now settled.now turn.old turn.new) }
        ensures spends { Spends 1 0 0 turn.old turn.new }
    {
        let alloc = self.alloc;
        // The members and the joiner are of the world, so there is room for all of them.
        let fits = self.world.len() <= MOST_NODES;
        prove!(fits);
        let (table, members, told) = (&self.table, &self.members, &self.told);
        let welcome = welcome_of(alloc, joiner, table, members, told, settled)?;
        turn.send(joiner.copy(), Letter::Welcome(Box::new(alloc, welcome)?));
        Ok(())
    }

    /// The lock is held: a lone node is let in. The members are to admit it, and it is welcomed with all that this node has. Where
    /// memory is refused the node is as it was.
    pub(super) fn let_in(
        &mut self,
        turn: &mut Turn,
        asked: NodeSet,
        joiner: Node,
        settled: &Settled,
    ) -> Result<(), AllocError>
        requires current { IsTrue (is_some self.old.registrar.current) }
        requires joiner { set_of self.old.world joiner ≡ true }
        requires within { IsWithin self.old.world asked }
        requires room { HasRoom (MOST_NODES + 1) 1 1 turn.old }
        ensures spends { Spends (MOST_NODES + 1) 1 1 turn.old turn.new }
        ensures turn { (pairs : Table) → IsAdmitting self.old joiner pairs
            → OnOk result (Makes (λ n a. admit n a unnumbered joiner pairs (set_of asked) settled.now) self.old turn.old self.new turn.new) }
        ensures kept { KeepsCalls self.old self.new }
        ensures unchanged { OnErr result (self.new ≡ self.old) }
    {
        self.enter_joined(turn, &joiner);
        self.tell_to_admit(turn, &joiner, settled)?;
        self.send_welcome(turn, &joiner, settled)?;
        self.registrar
            .await_from(&self.members.with_within(&joiner, &self.world));
        self.phase = Phase::Writing(asked, None);
        Ok(())
    }

    /// The lock is held: the current admission is decided. A joiner that has left isn't let in. Where memory is refused the node is as
    /// it was.
    pub(super) fn decide_admission(
        &mut self,
        turn: &mut Turn,
        asked: NodeSet,
        joiner: Node,
        settled: &Settled,
    ) -> Result<(), AllocError>
        requires current { IsTrue (is_some self.old.registrar.current) }
        requires joiner { with_older self.old.world joiner ≡ true }
        requires within { IsWithin self.old.world asked }
        requires room { HasRoom (MOST_NODES + 1) 1 1 turn.old }
        ensures spends { Spends (MOST_NODES + 1) 1 1 turn.old turn.new }
        ensures turn { (pairs : Table) → IsAdmitting self.old joiner pairs → settled.now ≡ settle self.old.table pairs
            → OnOk result (Makes (λ n a. held n a unnumbered (AnyOp.Admission joiner pairs) (set_of asked)) self.old turn.old self.new turn.new) }
        ensures kept { KeepsCalls self.old self.new }
        ensures unchanged { OnErr result (self.new ≡ self.old) }
    {
        if self.told.reaches(&joiner) {
            self.finish(turn, &asked, None);
            return Ok(());
        }
        self.let_in(turn, asked, joiner, settled)
    }

    /// A process dies, if it lives here: its call is dropped, and every member is to release its locks.
    fn kill_one(&mut self, turn: &mut Turn, process: &Pid) -> Result<(), AllocError>
        ensures turn { OnOk result (Makes (λ n a. kill_one n a process.now) self.old turn.old self.new turn.new) }
        ensures kept { KeepsQueue self.old self.new }
        ensures adds { Adds 0 0 turn.old turn.new }
    {
        if !self.watch.kill(process)? {
            return Ok(());
        }
        self.calls.take(process);
        turn.reserve(MOST_NODES, 0, 0)?;
        turn.send_all(&self.members, &Letter::ReleaseOf(process.copy()));
        Ok(())
    }

    /// Those of these processes that live here die, in order.
    fn kill(&mut self, turn: &mut Turn, processes: &[Pid]) -> Result<(), AllocError>
        ensures turn { OnOk result (Makes (λ n a. kill n a processes.now) self.old turn.old self.new turn.new) }
        ensures kept { KeepsQueue self.old self.new }
        ensures adds { Adds 0 0 turn.old turn.new }
    {
        for process in processes {
            self.kill_one(turn, process)?;
        }
        Ok(())
    }

    /// A node is a member, unless it has left.
    fn add_member(&mut self, joiner: &Node)
        ensures turn { (made : Made) → with_older self.old.world joiner.now ≡ true
            → Makes (λ n a. with_replica (with_member joiner.now)) self.old made self.new made }
        ensures kept { KeepsQueue self.old self.new }
    {
        if !self.told.reaches(joiner) {
            self.members = self.members.with_within(joiner, &self.world);
        }
    }

    /// The names are put, in order.
    fn put_names(&mut self, pairs: &[Pair]) -> Result<(), AllocError>
        ensures turn { (made : Made) → OnOk result (Makes (λ n a. with_replica (put_names pairs.now)) self.old made self.new made) }
        ensures kept { KeepsQueue self.old self.new }
    {
        for pair in pairs {
            self.write_change(&Change::Put(pair.copy()))?;
        }
        Ok(())
    }

    /// Nobody has these names from now on.
    fn remove_names(&mut self, names: &[Name]) -> Result<(), AllocError>
        ensures turn { (made : Made) → OnOk result (Makes (λ n a. with_replica (remove_names names.now)) self.old made self.new made) }
        ensures kept { KeepsQueue self.old self.new }
    {
        for name in names {
            self.write_change(&Change::Remove(name.copy()))?;
        }
        Ok(())
    }

    /// The processes of this node are sent what of these notices is for them.
    fn note(&mut self, notices: &[Noted]) -> Result<(), AllocError>
        ensures turn { (made : Made) (fate : Fate) → fate.notices ≡ notices.now
            → OnOk result (Makes (λ n a. with_replica (noted a fate)) self.old made self.new made) }
        ensures kept { KeepsQueue self.old self.new }
    {
        self.notices.add(&self.node, notices)
    }

    /// A joiner is admitted: it is a member, what was settled is written, and of those whose names clash with its names some are sent
    /// notices, and some die.
    pub(super) fn admit_joiner(
        &mut self,
        turn: &mut Turn,
        from: &Node,
        admission: &Admission,
    ) -> Result<(), AllocError>
        ensures turn { with_older self.old.world admission.now.joiner ≡ true → OnOk result
            (Makes (λ n a u. send from.now AnyLetter.Applied (kill n a (settled_in admission.now).fate.kills
            (with_replica (admitted a admission.now.joiner (settled_in admission.now)) u))) self.old turn.old self.new turn.new) }
        ensures kept { KeepsQueue self.old self.new }
        ensures adds { Adds 0 0 turn.old turn.new }
        ensures room { OnOk result (HasRoom 1 0 0 turn.new) }
    {
        self.add_member(&admission.joiner);
        self.put_names(admission.puts.as_slice())?;
        self.remove_names(admission.removes.as_slice())?;
        self.note(admission.notices.as_slice())?;
        self.kill(turn, admission.kills.as_slice())?;
        turn.reserve(2, 0, 0)?;
        turn.send(from.copy(), Letter::Applied);
        Ok(())
    }

    /// This node is joined: it has the members and the names of its sponsor, less those that either was told have left. No welcome
    /// to it says that it has left itself: of one that did it would take in no departure.
    fn move_in(&mut self, welcome: &Welcome) -> Result<(), AllocError>
        ensures turn { (made : Made) → IsWelcomeTo self.old.world self.old.name welcome.now → OnOk result
            (Makes (λ n a. with_replica (joined_with (set_of welcome.now.members) welcome.now.pairs.items
            (λ d. with_older self.old.told d || with_older welcome.now.told d))) self.old made self.new made) }
        ensures kept { KeepsQueue self.old self.new }
    {
        let alloc = self.alloc;
        let mut told = self.told.last_within(&welcome.told, &self.world);
        if told.reaches(&self.node) {
            told = self.told.copy();
        }
        self.table = table_of(alloc, &mut self.watch, welcome.pairs.as_slice(), &told)?;
        self.members = welcome
            .members
            .beyond(&told)
            .with_within(&self.node, &self.world);
        self.told = told;
        self.joined = true;
        Ok(())
    }

    /// A join by the node that says so is granted.
    pub(super) fn welcome(
        &mut self,
        turn: &mut Turn,
        from: &Node,
        body: &Welcome,
    ) -> Result<(), AllocError>
        requires { HasRoom 1 0 0 turn.old }
        ensures turn { IsWelcomeTo self.old.world self.old.name body.now → OnOk result
            (Makes (λ n a u. welcome n a unnumbered from.now (set_of body.now.members) body.now.pairs.items
            (with_older body.now.told) (fate_in body.now) u.node.current u) self.old turn.old self.new turn.new) }
        ensures kept { KeepsQueue self.old self.new }
        ensures adds { Adds 0 1 turn.old turn.new }
        ensures room { OnOk result (HasRoom 1 0 0 turn.new) }
    {
        let Some(number) = self.join_by(from) else {
            return Ok(());
        };
        self.registrar.finish();
        self.move_in(body)?;
        self.note(body.notices.as_slice())?;
        self.kill(turn, body.kills.as_slice())?;
        turn.reserve(2, 0, 1)?;
        turn.answer(self.answer(number, Reply::Joined));
        turn.send(from.copy(), Letter::Applied);
        Ok(())
    }
}
