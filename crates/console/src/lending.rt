//! Consoles that are lent a seat for each thing that they ask.
ghost use Rattle.std.specs.Prelude.{◌≡◌, IfErr, IfOk, IfSome};
ghost use Rattle.node_seats.specs.Callers.{IsEnd};
ghost use Rattle.node_seats.specs.Knowing.{known_at};
ghost use Rattle.console.specs.Lent.{IsFence, IsLent, LentGives};

use crate::attendant::Attendant;
use crate::client::{Client, is_given_up};
use crate::orders::Order;
use crate::status::House;
use command_lines::Reply;
use node_seats::{ForgottenNotes, Knowledge, NodeStatus, Seat, SeatFault};
use std::sync::Wait;
use std::time::Clock;

/// A console of a house, which lends it a seat of its node for each thing that it asks, and for no longer than that takes. What it knows of its node
/// stays its own.
#[derive(Drop)]
pub(crate) struct Borrower<'a, C: Client + Drop, B> {
    pub(crate) known: Knowledge,
    pub(crate) client: C,
    pub(crate) house: &'a B,
}

impl<'a, C: Client + Drop, B> Borrower<'a, C, B> {
    /// A seat of the node that knows of it what the console knows. `Closed`: it is lent none.
    #[tactic(auto, using(crate::proofs::Borrowing::lent_to))]
    pub(crate) fn lend<H>(&self, rt: &H) -> Result<Seat<ForgottenNotes>, SeatFault>
    where
        B: House<H>,
        ensures lent { IfOk result (λ seat. IsLent self.now.known seat) }
        ensures none { IfErr result IsEnd }
    {
        let mut seat = self.house.lend(rt, self.known.node())?;
        seat.learn(&self.known);
        Ok(seat)
    }

    /// Gives a seat back. The console knows from now on what that knows.
    pub(crate) fn give_back<H>(&mut self, rt: &H, seat: Seat<ForgottenNotes>)
    where
        B: House<H>,
        ensures { self.new.known ≡ known_at seat }
    {
        self.known = seat.knowledge();
        self.house.take_back(rt, seat);
    }

    /// Has an order carried out at a seat that is lent for it. Nobody waits there for what comes some day.
    #[tactic(auto, using(crate::proofs::Borrowing::given, crate::proofs::Borrowing::not_given))]
    pub(crate) fn ask_at_seat<H: Wait + Clock>(
        &mut self,
        rt: &H,
        order: Order,
    ) -> Result<Reply, SeatFault>
    where
        B: House<H>,
        ensures { LentGives self.old.known order result self.new.known }
    {
        let mut seat = self.lend(rt)?;
        let outcome = seat.ask(rt, order, false);
        self.give_back(rt, seat);
        outcome
    }

    /// How the node stands.
    #[tactic(auto, using(crate::proofs::Borrowing::told_of_it))]
    pub(crate) fn node_status<H>(&self, rt: &H) -> Result<NodeStatus, SeatFault>
    where
        B: House<H>,
        ensures node { IfOk result (λ status. status.node ≡ self.now.known.node) }
        ensures ended { IfErr result IsEnd }
    {
        let seat = self.lend(rt)?;
        let status = seat.status();
        self.house.take_back(rt, seat);
        status
    }

    /// How the node stands, and by which step the console was granted a lock last.
    #[tactic(auto, using(crate::proofs::Borrowing::fence_told, crate::proofs::Borrowing::told_of_it))]
    pub(crate) fn told_at_seat<H>(&self, rt: &H) -> Result<(NodeStatus, Option<u128>), SeatFault>
    where
        B: House<H>,
        ensures node { IfOk result (λ told. told.0.node ≡ self.now.known.node) }
        ensures fence { IfOk result (λ told. IsFence self.now.known told.1) }
        ensures ended { IfErr result IsEnd }
    {
        let seat = self.lend(rt)?;
        let status = seat.status();
        let fence = seat.fence();
        self.house.take_back(rt, seat);
        Ok((status?, fence))
    }

    /// Why nothing is waited for any more, if there is a cause: the client has gone, or the node answers nobody.
    pub(crate) fn why_give_up<H>(&self, rt: &H, linked: bool) -> Option<SeatFault>
    where
        B: House<H>,
        ensures { IfSome result IsEnd }
    {
        if is_given_up(self.client.peer(), linked) {
            return Some(SeatFault::Closed);
        }
        self.node_status(rt).err()
    }
}
