//! The rounds of the registrar: the lock is asked for, first of the boss and then of the rest.
ghost use Rattle.term.specs.declared.limits.TheConstants.{MOST_NODES};

use crate::node::{NodeCore, Phase};
use boss_order::boss;
use locker::{Ending, Round};
use name_table::Names;
use node_events::{Letter, Turn};
use std::alloc::{AllocError, Global};
use term::Node;
use transaction::Op;

impl<N: Names<Memory = Global>> NodeCore<N> {
    ghost use Rattle.std.specs.Prelude.{◌≡◌, ◌+◌, ◌*◌, ◌≤◌, ℕ, true, false, None, Some, OnOk, OnErr, length};
    ghost use Rattle.protocol_model.specs.Letter.{Global as GlobalId, Letter as AnyLetter};
    ghost use Rattle.protocol_model.specs.Registrar.{registrar, ask_global, ask_rest, start_queue, start, retry_global};
    ghost use Rattle.protocol_model.specs.Deciding.{end_round, hear_answer};
    ghost use Rattle.locker.specs.RoundState.{RoundState, seen};
    ghost use Rattle.node_core.specs.declared.node.Phase.TheVariants.{Asking};
    ghost use Rattle.node_core.specs.CoreState.{IsWithin};
    ghost use Rattle.transaction.specs.Work.{begins_with_join};
    ghost use Rattle.node_events.specs.Letters.{letter_of, has_lists};
    ghost use Rattle.node_events.specs.Made.{HasRoom, Spends};
    ghost use Rattle.node_events.specs.Seen.{unnumbered};
    ghost use Rattle.node_core.specs.Rare.{is_admission, joins_in, Adds};
    ghost use Rattle.node_core.specs.Steps.{Keeps, KeepsCalls, Makes, Works};

    /// A round over the members begins: the boss is asked.
    fn ask_global(&mut self, turn: &mut Turn)
        requires { HasRoom 1 0 0 turn.old }
        ensures turn { Works (λ op n a. ask_global n a op) self.old turn.old self.new turn.new }
        ensures kept { KeepsCalls self.old self.new }
        ensures spends { Spends 1 0 0 turn.old turn.new }
    {
        turn.send(boss(&self.members), self.set_lock());
        self.phase = Phase::Asking(Round::begin(&self.members));
    }

    /// A free registrar begins the next operation: an owed strike comes before all that waits. Memory is refused only where the
    /// queue begins with a join.
    pub(super) fn start(&mut self, turn: &mut Turn) -> Result<(), AllocError>
        requires { HasRoom 1 0 0 turn.old }
        ensures turn { OnOk result (Makes start self.old turn.old self.new turn.new) }
        ensures kept { Keeps self.old self.new }
        ensures adds { Adds (joins_in self.old.registrar.queue) (joins_in self.old.registrar.queue) turn.old turn.new }
        ensures refused { OnErr result (begins_with_join self.old.registrar.queue ≡ true) }
    {
        if self.is_at_work() {
            return Ok(());
        }
        let owed = self.watch.owes(&self.table);
        if owed.is_none() {
            return self.start_queue(turn);
        }
        self.registrar.start(owed);
        self.ask_global(turn);
        Ok(())
    }

    /// The front of the queue becomes current. A join whose contact has left is answered at once, and the next one's turn comes.
    fn start_queue(&mut self, turn: &mut Turn) -> Result<(), AllocError>
        requires free { self.old.registrar.current ≡ None }
        requires room { HasRoom 1 0 0 turn.old }
        ensures turn { OnOk result (Makes (λ n a u. start_queue n a u.node.queue u) self.old turn.old self.new turn.new) }
        ensures kept { Keeps self.old self.new }
        ensures adds { Adds (joins_in self.old.registrar.queue) (joins_in self.old.registrar.queue) turn.old turn.new }
        ensures refused { OnErr result (begins_with_join self.old.registrar.queue ≡ true) }
    {
        while self.registrar.start(None) {
            let Some(Op::Join(number, contact)) = self.registrar.current() else {
                self.ask_global(turn);
                return Ok(());
            };
            let (number, contact) = (*number, contact.copy());
            if !self.told.reaches(&contact) {
                return self.ask_join(turn, number, contact);
            }
            self.registrar.finish();
            turn.reserve(0, 1, 1)?;
            self.contact_left(turn, number, contact);
        }
        Ok(())
    }

    /// A refused round begins anew.
    pub(super) fn retry_global(&mut self, turn: &mut Turn)
        requires { HasRoom 1 0 0 turn.old }
        ensures turn { Makes (λ n a u. retry_global n a u.node.current u) self.old turn.old self.new turn.new }
        ensures kept { KeepsCalls self.old self.new }
        ensures spends { Spends 1 0 0 turn.old turn.new }
    {
        if self.is_waiting() {
            self.ask_global(turn);
        }
    }

    /// The boss's grant sends the same request to the rest, but for those that have gone down.
    pub(super) fn ask_rest(
        &self,
        turn: &mut Turn,
        round: &Round,
        from: &Node,
        granted: bool,
        request: &Letter,
    )
        requires within { IsWithin self.now.world round.now.nodes }
        requires plain { has_lists request.now ≡ false }
        requires room { HasRoom MOST_NODES 0 0 turn.old }
        ensures turn { Makes (λ n a. ask_rest n a from.now granted (letter_of request.now) (seen round.now)) self.now turn.old self.now turn.new }
        ensures spends { Spends MOST_NODES 0 0 turn.old turn.new }
    {
        if !round.opens(from, granted) {
            return;
        }
        turn.send_all(&round.rest().beyond(&self.told), request);
    }

    /// The round ends, where it is over. Memory is refused only where it asks for an admission.
    pub(super) fn end_round(&mut self, turn: &mut Turn) -> Result<(), AllocError>
        requires { HasRoom (MOST_NODES + 1) 1 1 turn.old }
        ensures spends { Spends (MOST_NODES + 1) 1 1 turn.old turn.new }
        ensures refused { OnErr result (is_admission self.old.registrar.current ≡ true) }
        ensures unchanged { OnErr result (self.new ≡ self.old) }
        ensures turn { (round : RoundState) → self.old.phase ≡ Asking round
            → OnOk result (Works (λ op n a. end_round n a unnumbered op (seen round)) self.old turn.old self.new turn.new) }
        ensures kept { KeepsCalls self.old self.new }
    {
        let Phase::Asking(round) = &self.phase else {
            return Ok(());
        };
        if !round.is_over() {
            return Ok(());
        }
        let asked = round.asked();
        match round.finish(&self.members) {
            Ending::Held => self.held(turn, asked),
            Ending::GiveBack(granted) => {
                self.give_up(turn, &granted);
                Ok(())
            }
        }
    }

    /// The registrar's round stands as this one.
    fn put_back(&mut self, round: Round)
        requires { IsWithin self.old.world round.nodes }
        ensures { self.new ≡ record self.old { phase = Asking round } }
    {
        self.phase = Phase::Asking(round);
    }

    /// A node answers the registrar's round: the rest are asked where it is the boss's grant, and the round may be over. Where memory
    /// is refused the node is as it was.
    pub(super) fn hear_answer(
        &mut self,
        turn: &mut Turn,
        from: &Node,
        granted: bool,
    ) -> Result<(), AllocError>
        requires { HasRoom (2 * MOST_NODES + 1) 1 1 turn.old }
        ensures spends { Spends (2 * MOST_NODES + 1) 1 1 turn.old turn.new }
        ensures unchanged { OnErr result (self.new ≡ self.old) }
        ensures turn { OnOk result (Makes (λ n a u. hear_answer n a unnumbered from.now granted u.node.current u) self.old turn.old self.new turn.new) }
        ensures kept { KeepsCalls self.old self.new }
    {
        if !self.is_at_work() {
            return Ok(());
        }
        let Phase::Asking(round) = &self.phase else {
            return Ok(());
        };
        if !round.owes(from) {
            return Ok(());
        }
        self.ask_rest(turn, round, from, granted, &self.set_lock());
        let before = self.is_admitting().then(|| round.copy());
        let Phase::Asking(round) = &mut self.phase else {
            return Ok(());
        };
        round.answer(from, granted);
        match self.end_round(turn) {
            Ok(()) => Ok(()),
            Err(fault) => {
                if let Some(before) = before {
                    self.put_back(before);
                }
                Err(fault)
            }
        }
    }
}
