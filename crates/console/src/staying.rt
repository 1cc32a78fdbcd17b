//! Consoles of servers that stay.
ghost use Rattle.std.specs.Prelude.{◌≡◌, true, IfErr, IfNone, IfOk, IfSome, MatchOption, MatchResult};
ghost use Rattle.std.specs.Io.Buffered.{reader_remaining};
ghost use Rattle.node_seats.specs.Callers.{IsEnd};
ghost use Rattle.node_seats.specs.Knowing.{Known, nothing_known};
ghost use Rattle.console.specs.Consoles.{EndsBy, Stops};
ghost use Rattle.console.specs.Describing.{Says};
ghost use Rattle.console.specs.Lent.{EndsLooking, IsFence, LentAnswers, LentGives, LentStands, LentWaits, LooksPastIt};
ghost use Rattle.console.specs.Seats.{EndsWait, LooksPast, MayNotSay};
ghost use Rattle.console.specs.declared.orders.Order.TheVariants.{Exit, Leave};

use crate::answering::answer_lines;
use crate::attendant::Attendant;
use crate::client::Client;
use crate::describing::DescribeFault;
use crate::ends::ConsoleEnd;
use crate::lending::Borrower;
use crate::orders::{Awaited, Order};
use crate::status::{House, Status};
use command_lines::Reply;
use descriptions::{Description, DescriptionFault};
use node_seats::{Knowledge, Notes, Seat, SeatFault, StepFault};
use std::alloc::Global;
use std::io::{BufReader, Read, Write};
use std::sync::Wait;
use std::thread;
use std::time::{Clock, Duration};
use term::{Node, Pid, STAYING_LINES};
use text_lines::StreamFault;

/// After how long a name is looked up again that is waited for, at first, in milliseconds.
const FIRST_PAUSE: u64 = 1;

/// After how long it is at most.
const LONGEST_PAUSE: u64 = 20;

/// After how long it is looked again, behind a pause of so long.
fn longer(pause: u64) -> u64 {
    (pause.min(LONGEST_PAUSE) * 2).min(LONGEST_PAUSE)
}

/// Looks a name up from a seat: what who waits is answered, unless it is to be looked up again.
fn look_for<T: Notes>(seat: &mut Seat<T>, awaited: &Awaited) -> Option<Result<Reply, SeatFault>>
    ensures { MatchOption result (LooksPast awaited.now seat.old seat.new)
        (λ outcome. EndsWait awaited.now seat.old outcome seat.new) }
{
    match seat.whereis(awaited.name()) {
        Ok(owner) => match awaited.met_by(owner) {
            Some(answer) => Some(Ok(answer)),
            None => None,
        },
        Err(fault) => Some(Err(fault)),
    }
}

impl<'a, C: Client + Drop, B> Borrower<'a, C, B> {
    /// Has a process exit, and tells the house that it is dead.
    fn exit<H: Wait + Clock>(&mut self, rt: &H, process: &Pid) -> Result<Reply, SeatFault>
    where
        B: House<H>,
        ensures { LentGives self.old.known (Exit process.now) result self.new.known }
    {
        let outcome = self.ask_at_seat(rt, Order::Exit(process.copy()));
        if outcome.is_ok() {
            self.house.lines().bury(rt, process);
            self.house.descriptions().bury(rt, process);
        }
        outcome
    }

    /// Has the node leave, and tells the house so.
    fn leave<H: Wait + Clock>(&mut self, rt: &H) -> Result<Reply, SeatFault>
    where
        B: House<H>,
        ensures { LentGives self.old.known Leave result self.new.known }
    {
        let outcome = self.ask_at_seat(rt, Order::Leave);
        if outcome.is_ok() {
            self.house.lines().forget(rt, self.known.node());
            self.house.descriptions().forget(rt, self.known.node());
        }
        outcome
    }

    /// Looks a name up at a seat that is lent for it: what who waits is answered, unless it is to be looked up again.
    #[tactic(auto, using(crate::proofs::Borrowing::not_looked))]
    fn look_once<H>(&mut self, rt: &H, awaited: &Awaited) -> Option<Result<Reply, SeatFault>>
    where
        B: House<H>,
        ensures { MatchOption result (LooksPastIt awaited.now self.old.known self.new.known)
            (λ outcome. EndsLooking awaited.now self.old.known outcome self.new.known) }
    {
        let mut seat = match self.lend(rt) {
            Ok(seat) => seat,
            Err(fault) => return Some(Err(fault)),
        };
        let found = look_for(&mut seat, awaited);
        self.give_back(rt, seat);
        found
    }

    /// Looks a name up again and again, until it finds what is waited for, or nobody waits any more.
    #[tactic(auto, using(crate::proofs::Looking::waits_begin, crate::proofs::Looking::waits_on, crate::proofs::Looking::wait_ended, crate::proofs::Looking::given_up))]
    fn wait<H: Wait + Clock>(
        &mut self,
        rt: &H,
        awaited: &Awaited,
        linked: bool,
    ) -> Result<Reply, SeatFault>
    where
        B: House<H>,
        ensures { LentWaits awaited.now self.old.known result self.new.known }
    {
        let mut pause = FIRST_PAUSE;
        for _ in rt.forever() {
            if let Some(outcome) = self.look_once(rt, awaited) {
                return outcome;
            }
            if let Some(fault) = self.why_give_up(rt, linked) {
                return Err(fault);
            }
            thread::sleep(rt, Duration::from_millis(pause));
            pause = longer(pause);
        }
        unreachable!()
    }

    /// Why nothing may be said of a process from here, if there is a cause: the node answers nobody, or the process is none that it gave.
    fn why_not_say<H>(&self, rt: &H, process: &Pid) -> Option<SeatFault>
    where
        B: House<H>,
        ensures unsaid { IfSome result MayNotSay }
        ensures here { IfNone result (process.now.node ≡ self.now.known.node) }
    {
        let status = match self.node_status(rt) {
            Ok(status) => status,
            Err(fault) => return Some(fault),
        };
        if process.node == *self.known.node() && process.serial <= status.numbers.serials {
            None
        } else {
            Some(SeatFault::Step(StepFault::NoSuchProcess))
        }
    }

    /// Tells the house what is said of a process of the node.
    fn say<H: Wait>(&self, rt: &H, process: &Pid, text: &Description) -> Result<(), DescribeFault>
    where
        B: House<H>,
        ensures { LentStands self.now.known (Says process.now text.now result) }
    {
        if let Some(fault) = self.why_not_say(rt, process) {
            return Err(DescribeFault::Seat(fault));
        }
        match self
            .house
            .descriptions()
            .set(rt, process.copy(), text.copy())
        {
            Ok(()) => Ok(()),
            Err(DescriptionFault::TooMany) => Err(DescribeFault::TooMany),
            Err(DescriptionFault::Memory) => Err(DescribeFault::Seat(SeatFault::Memory)),
        }
    }

    /// How the node stands, what the house bears, and by which step the console was granted a lock last.
    fn standing<H>(&self, rt: &H) -> Result<Status, SeatFault>
    where
        B: House<H>,
        ensures node { IfOk result (λ status. status.node.node ≡ self.now.known.node) }
        ensures load { IfOk result (λ status. B.bears self.now.house.now status.load) }
        ensures fence { IfOk result (λ status. IsFence self.now.known status.fence) }
        ensures ended { IfErr result IsEnd }
    {
        let (node, fence) = self.told_at_seat(rt)?;
        let load = self.house.load(rt);
        Ok(Status { node, load, fence })
    }
}

impl<'a, H, C, B> Attendant<H> for Borrower<'a, C, B>
where
    H: Wait + Clock,
    C: Client + Drop,
    B: House<H>,
{
    ghost use Rattle.console.specs.Lent.{LentAnswers, LentStands};

    type State = Knowledge;

    ghost state = { λ s. s.known };

    ghost answers = { LentAnswers };

    ghost stands = { LentStands };

    fn node(&self) -> &Node {
        self.known.node()
    }

    fn ask(&mut self, rt: &H, order: Order, linked: bool) -> Result<Reply, SeatFault> {
        match order {
            Order::Call(call) => self.call(rt, call, linked),
            Order::Whereis(name) => self.ask_at_seat(rt, Order::Whereis(name)),
            Order::Exit(process) => self.exit(rt, &process),
            Order::Leave => self.leave(rt),
            Order::Wait(awaited) => self.wait(rt, &awaited, linked),
        }
    }

    fn status(&self, rt: &H) -> Result<Status, SeatFault> {
        self.standing(rt)
    }

    fn describe(&self, rt: &H, process: &Pid, text: &Description) -> Result<(), DescribeFault> {
        self.say(rt, process, text)
    }

    fn description(&self, rt: &H, process: &Pid) -> Option<Description> {
        self.house.descriptions().get(rt, process)
    }
}

/// Serves a console of a server that stays, at this node: as `serve` does, but that a seat is lent for each thing that it asks, and that the line
/// `shutdown` is answered `ok` and ends it, too, and that no number of lines does. Only a line that counts for more than a reader's lines
/// may is too many. The line `status` is answered by what the node and the house tell of themselves. How it ended is told; what the server
/// does then is for the caller. No look-up is answered from an older table than one before.
///
/// A lock is tried for until it is granted or no retry is left, in its turn where there is no end to them, and without a seat in between. It is given
/// up, and answered `error closed`, where the client is gone; and, where it is for a linked process, also where the console's input has
/// ended, as that process exits then. So is a wait for a name, where any process is linked.
pub fn serve_staying<R, W, H, C, B>(
    rt: &H,
    alloc: Global,
    reader: &mut BufReader<R, Global>,
    writer: &mut W,
    node: Node,
    client: C,
    house: &B,
) -> Result<ConsoleEnd, StreamFault>
where
    R: Read,
    W: Write,
    H: Wait + Clock,
    C: Client + Drop,
    B: House<H>,
    ensures { MatchResult result
        (λ how. (t : Known) × EndsBy LentAnswers LentStands true STAYING_LINES (reader_remaining R.remaining reader.old)
        (reader_remaining R.remaining reader.new) (W.contents writer.old) (W.contents writer.new) (nothing_known node) t how)
        (λ fault. (t : Known) × Stops LentAnswers LentStands true STAYING_LINES (reader_remaining R.remaining reader.old)
        (reader_remaining R.remaining reader.new) (W.contents writer.old) (W.contents writer.new) (nothing_known node) t fault) }
{
    let known = Knowledge::new(node);
    let mut attendant = Borrower {
        known,
        client,
        house,
    };
    answer_lines(
        rt,
        alloc,
        reader,
        writer,
        &mut attendant,
        true,
        STAYING_LINES,
    )
}
