//! Lock calls of consoles that are lent their seats: who waits for a lock tries for it again and again, and has no seat in between.
ghost use Rattle.std.specs.Prelude.{◌≡◌, true, IfErr, IfOk, MatchOption};
ghost use Rattle.node_seats.specs.Callers.{IsEnd};
ghost use Rattle.node_seats.specs.Faults.{IsUnmade};
ghost use Rattle.console.specs.Locking.{sets_lock as any_sets_lock};
ghost use Rattle.console.specs.Lent.{EndsTry, LentAnswers, LentGives, LentTries, Tries, TriesInVain};
ghost use Rattle.console.specs.Tries.{IsFewer, is_for_now as any_for_now, retries_in, try_for};
ghost use Rattle.console.specs.declared.orders.Order.TheVariants.{Call as Calls};
ghost use Rattle.node_seats.specs.declared.Retries.TheVariants.{Times};

use crate::client::Client;
use crate::lending::Borrower;
use crate::locking::{is_granted, request_of, sets_lock, waits_in_line};
use crate::orders::Order;
use crate::status::House;
use command_lines::{Call, Reply};
use lock_lines::{LinePlace, Request};
use node_seats::{Retries, SeatFault, StepFault};
use std::alloc::AllocError;
use std::sync::Wait;
use std::thread;
use std::time::{Clock, Duration};

/// After how long a lock is tried for again, at first and where it was given back, in milliseconds.
const FIRST_PAUSE: u64 = 1;

/// After how long it is at most, where the house doesn't tell that it was given back: each try is a call of the node, which has so many and no more.
const LONGEST_PAUSE: u64 = 10_000;

/// How often it is looked whether anybody waits still, in milliseconds.
const LOOK: u64 = 100;

/// How often a call is retried that asks for a lock.
fn retries_in(call: &Call) -> Retries
    ensures { result ≡ retries_in call.now }
{
    match call {
        Call::SetLock(_, _, _, retries) => retries.copy(),
        // No other call is retried.
        _ => Retries::Times(0),
    }
}

/// The call that tries for a lock, without a retry. Only one that names its nodes takes memory.
fn try_for(call: &Call) -> Result<Call, AllocError>
    requires { any_sets_lock call.now ≡ true }
    ensures { IfOk result (λ one. one ≡ try_for call.now) }
{
    match call {
        Call::SetLock(holder, id, nodes, _) => {
            let nodes = nodes.copy()?;
            let once = Retries::Times(0);
            Ok(Call::SetLock(holder.copy(), id.copy(), nodes, once))
        }
        _ => unreachable!(),
    }
}

/// Whether a try didn't get the lock, but a later one may.
fn is_for_now(outcome: &Result<Reply, SeatFault>) -> bool
    ensures { result ≡ any_for_now outcome.now }
{
    matches!(
        outcome,
        Ok(Reply::False) | Err(SeatFault::Step(StepFault::Busy(_)))
    )
}

/// What is left where a retry is made; nothing where there is none.
fn fewer(left: &Retries) -> Option<Retries>
    ensures { MatchOption result (left.now ≡ Times 0) (IsFewer left.now) }
{
    match left {
        Retries::Times(left) => match left.checked_sub(1) {
            Some(left) => Some(Retries::Times(left)),
            None => None,
        },
        Retries::Endless => Some(Retries::Endless),
    }
}

/// Sleeps for so many milliseconds at most: where there is a turn, until the lock may be free.
fn sleep<H: Wait + Clock>(rt: &H, turn: Option<&LinePlace>, millis: u64) {
    match turn {
        Some(turn) => turn.rest_for(rt, millis),
        None => thread::sleep(rt, Duration::from_millis(millis)),
    }
}

/// Whether the lock may have become free, as far as who has a turn is told.
fn was_freed(turn: Option<&LinePlace>) -> bool {
    match turn {
        Some(turn) => turn.was_freed(),
        None => false,
    }
}

/// After how long it is tried again, behind a pause of so long.
fn longer(pause: u64) -> u64 {
    (pause.min(LONGEST_PAUSE) * 2).min(LONGEST_PAUSE)
}

impl<'a, C: Client + Drop, B> Borrower<'a, C, B> {
    /// Calls the node.
    #[tactic(auto, using(crate::proofs::Asking::tries_answer, crate::proofs::Asking::calls_answer))]
    pub(crate) fn call<H: Wait + Clock>(
        &mut self,
        rt: &H,
        call: Call,
        linked: bool,
    ) -> Result<Reply, SeatFault>
    where
        B: House<H>,
        ensures { LentAnswers self.old.known (Calls call) linked result self.new.known }
    {
        if sets_lock(&call) {
            return self.set_lock(rt, &call, linked);
        }
        if matches!(call, Call::DelLock(..)) {
            return self.delete_lock(rt, call);
        }
        if matches!(call, Call::Join(_)) {
            return self.join(rt, call);
        }
        self.ask_at_seat(rt, Order::Call(call))
    }

    /// Asks for a lock: in its turn where it is retried without end, and else at once.
    #[tactic(auto, using(crate::proofs::Retrying::none_tried))]
    fn set_lock<H: Wait + Clock>(
        &mut self,
        rt: &H,
        call: &Call,
        linked: bool,
    ) -> Result<Reply, SeatFault>
    where
        B: House<H>,
        requires { any_sets_lock call.now ≡ true }
        ensures { LentTries call.now self.old.known result self.new.known }
    {
        let members = self.node_status(rt)?.members;
        let in_line = waits_in_line(call, &members);
        match request_of(call, &members) {
            Some(request) if in_line => self.set_in_turn(rt, call, &request, linked),
            Some(request) => self.set_and_tell(rt, call, &request, None, linked),
            // A call for a lock asks for one.
            None => Err(SeatFault::Closed),
        }
    }

    /// Asks for a lock once its turn has come. It leaves its line when it is answered or given up.
    #[tactic(auto, using(crate::proofs::Retrying::unasked))]
    fn set_in_turn<H: Wait + Clock>(
        &mut self,
        rt: &H,
        call: &Call,
        request: &Request,
        linked: bool,
    ) -> Result<Reply, SeatFault>
    where
        B: House<H>,
        requires { any_sets_lock call.now ≡ true }
        ensures { LentTries call.now self.old.known result self.new.known }
    {
        let turn = self.await_turn(rt, request, linked)?;
        self.house.lines().let_pass(rt, request);
        let outcome = self.set_and_tell(rt, call, request, Some(&turn), linked);
        self.house.lines().leave(rt, turn);
        outcome
    }

    /// Waits in the line of a lock until the turn of a call has come, or until nobody waits for the call any more.
    #[tactic(auto, using(crate::proofs::Unasked::ended))]
    fn await_turn<H: Wait + Clock>(
        &self,
        rt: &H,
        request: &Request,
        linked: bool,
    ) -> Result<LinePlace, SeatFault>
    where
        B: House<H>,
        ensures { IfErr result (λ fault. IsUnmade fault true) }
    {
        let lines = self.house.lines();
        let turn = lines.enter(rt, request)?;
        for _ in rt.forever() {
            if lines.has_come(rt, &turn) {
                return Ok(turn);
            }
            turn.rest(rt);
            if let Some(fault) = self.why_give_up(rt, linked) {
                lines.leave(rt, turn);
                return Err(fault);
            }
        }
        unreachable!()
    }

    /// Asks for a lock, and tells the house what the process has by it, and may have meanwhile.
    #[tactic(auto, using(crate::proofs::Retrying::unasked))]
    fn set_and_tell<H: Wait + Clock>(
        &mut self,
        rt: &H,
        call: &Call,
        request: &Request,
        turn: Option<&LinePlace>,
        linked: bool,
    ) -> Result<Reply, SeatFault>
    where
        B: House<H>,
        requires { any_sets_lock call.now ≡ true }
        ensures { LentTries call.now self.old.known result self.new.known }
    {
        self.house.lines().ask(rt, request)?;
        let outcome = self.try_on(rt, call, turn, linked);
        if is_granted(&outcome) {
            self.house.lines().let_pass(rt, request);
        } else {
            self.house.lines().take_back(rt, request);
        }
        outcome
    }

    /// Tries for a lock until it is granted, or no retry is left, or nobody waits for it any more.
    #[tactic(auto, using(crate::proofs::Retrying::tries_begin, crate::proofs::Retrying::tries_on, crate::proofs::Retrying::tries_end, crate::proofs::Retrying::tries_given_up))]
    fn try_on<H: Wait + Clock>(
        &mut self,
        rt: &H,
        call: &Call,
        turn: Option<&LinePlace>,
        linked: bool,
    ) -> Result<Reply, SeatFault>
    where
        B: House<H>,
        requires { any_sets_lock call.now ≡ true }
        ensures { LentTries call.now self.old.known result self.new.known }
    {
        let mut left = retries_in(call);
        let mut pause = FIRST_PAUSE;
        for _ in rt.forever() {
            if let Some(outcome) = self.try_next(rt, call, &mut left) {
                return outcome;
            }
            match self.rest_before_a_try(rt, turn, pause, linked) {
                Ok(next) => pause = next,
                Err(fault) => return Err(fault),
            }
        }
        unreachable!()
    }

    /// Tries for a lock, once: what is answered, unless it is to be tried again. A retry is left for that then, and counts.
    #[tactic(auto, using(crate::proofs::Retrying::try_ended, crate::proofs::Retrying::last_try, crate::proofs::Retrying::in_vain))]
    fn try_next<H: Wait + Clock>(
        &mut self,
        rt: &H,
        call: &Call,
        left: &mut Retries,
    ) -> Option<Result<Reply, SeatFault>>
    where
        B: House<H>,
        requires { any_sets_lock call.now ≡ true }
        ensures { MatchOption result
            (TriesInVain call.now self.old.known self.new.known × IsFewer left.old left.new)
            (λ outcome. EndsTry call.now left.old self.old.known outcome self.new.known) }
    {
        let outcome = self.try_once(rt, call);
        if !is_for_now(&outcome) {
            return Some(outcome);
        }
        match fewer(left) {
            Some(fewer) => {
                *left = fewer;
                None
            }
            None => Some(outcome),
        }
    }

    /// Tries for a lock, once.
    #[tactic(auto, using(crate::proofs::Retrying::tried, crate::proofs::Retrying::not_tried))]
    fn try_once<H: Wait + Clock>(&mut self, rt: &H, call: &Call) -> Result<Reply, SeatFault>
    where
        B: House<H>,
        requires { any_sets_lock call.now ≡ true }
        ensures { Tries call.now self.old.known result self.new.known }
    {
        let one = try_for(call)?;
        self.ask_at_seat(rt, Order::Call(one))
    }

    /// Rests before a lock is tried for again, until it is time for that, or it may be free: how long the next rest is to be. Or why nobody waits
    /// any more.
    fn rest_before_a_try<H: Wait + Clock>(
        &self,
        rt: &H,
        turn: Option<&LinePlace>,
        pause: u64,
        linked: bool,
    ) -> Result<u64, SeatFault>
    where
        B: House<H>,
        ensures { IfErr result IsEnd }
    {
        let mut left = pause;
        for _ in 0..pause.div_ceil(LOOK) {
            sleep(rt, turn, left.min(LOOK));
            if let Some(fault) = self.why_give_up(rt, linked) {
                return Err(fault);
            }
            if was_freed(turn) {
                return Ok(FIRST_PAUSE);
            }
            left = left.saturating_sub(LOOK);
        }
        Ok(longer(pause))
    }

    /// Gives a lock back, and tells the house so.
    #[tactic(auto, using(crate::proofs::Borrowing::not_given))]
    fn delete_lock<H: Wait + Clock>(&mut self, rt: &H, call: Call) -> Result<Reply, SeatFault>
    where
        B: House<H>,
        ensures { LentGives self.old.known (Calls call) result self.new.known }
    {
        let members = self.node_status(rt)?.members;
        let request = request_of(&call, &members);
        let outcome = self.ask_at_seat(rt, Order::Call(call));
        if outcome.is_ok() {
            if let Some(request) = &request {
                self.house.lines().give_back(rt, request);
            }
        }
        outcome
    }

    /// Joins the node with others. Processes may exit by that which have locks, and nobody is told.
    fn join<H: Wait + Clock>(&mut self, rt: &H, call: Call) -> Result<Reply, SeatFault>
    where
        B: House<H>,
        ensures { LentGives self.old.known (Calls call) result self.new.known }
    {
        let outcome = self.ask_at_seat(rt, Order::Call(call));
        if outcome.is_ok() {
            self.house.lines().look_again(rt);
        }
        outcome
    }
}
