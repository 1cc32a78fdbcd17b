//! Consoles at seats.
ghost use Rattle.std.specs.Prelude.{false, MatchResult};
ghost use Rattle.std.specs.Io.Buffered.{reader_remaining};
ghost use Rattle.console.specs.Consoles.{Serves, Stops};
ghost use Rattle.console.specs.Seats.{GoesOn, SeatAnswers, SeatGives, SeatStands, IsTranscript};
ghost use Rattle.node_seats.specs.Seats.{Sitting};
ghost use Rattle.console.specs.declared.orders.Order.TheVariants.{Whereis, Exit, Leave};

use crate::answering::answer_lines;
use crate::attendant::Attendant;
use crate::describing::DescribeFault;
use crate::orders::Order;
use crate::status::{Load, Status};
use command_lines::Reply;
use descriptions::Description;
use node_seats::{Notes, Seat, SeatFault, Transcript};
use std::alloc::Global;
use std::io::{BufReader, Read, Write};
use std::sync::Wait;
use std::time::Clock;
use term::{MOST_LINES, Name, Node, Pid};
use text_lines::StreamFault;

/// Looks a name up from a seat.
fn look_up<T: Notes>(seat: &mut Seat<T>, name: &Name) -> Result<Reply, SeatFault>
    ensures { SeatGives seat.old (Whereis name.now) result seat.new }
{
    match seat.whereis(name)? {
        Some(owner) => Ok(Reply::Pid(owner)),
        None => Ok(Reply::Undefined),
    }
}

/// Has a process exit from a seat.
fn exit<H: Wait + Clock, T: Notes>(
    rt: &H,
    seat: &mut Seat<T>,
    process: &Pid,
) -> Result<Reply, SeatFault>
    ensures { SeatGives seat.old (Exit process.now) result seat.new }
{
    seat.exit(rt, process)?;
    Ok(Reply::Ok)
}

/// Has the node of a seat leave.
fn leave<H: Wait + Clock, T: Notes>(rt: &H, seat: &mut Seat<T>) -> Result<Reply, SeatFault>
    ensures { SeatGives seat.old Leave result seat.new }
{
    seat.leave(rt)?;
    Ok(Reply::Ok)
}

impl<H: Wait + Clock, T: Notes> Attendant<H> for Seat<T> {
    ghost use Rattle.console.specs.Seats.{SeatAnswers, SeatStands};

    type State = Seat<T>;

    ghost state = { λ s. s };

    ghost answers = { SeatAnswers };

    ghost stands = { SeatStands };

    fn node(&self) -> &Node {
        Seat::<T>::node(self)
    }

    fn ask(&mut self, rt: &H, order: Order, _linked: bool) -> Result<Reply, SeatFault> {
        match order {
            Order::Call(call) => self.call(rt, call),
            Order::Whereis(name) => look_up(self, &name),
            Order::Exit(process) => exit(rt, self, &process),
            Order::Leave => leave(rt, self),
            // A seat alone knows of nobody who would wait.
            Order::Wait(_) => Err(SeatFault::Closed),
        }
    }

    // A seat alone knows of no server.
    fn status(&self, _rt: &H) -> Result<Status, SeatFault> {
        let node = Seat::<T>::status(self)?;
        Ok(Status {
            node,
            load: Load {
                consoles: 0,
                memory: 0,
            },
            fence: self.fence(),
        })
    }

    fn describe(&self, _rt: &H, _process: &Pid, _text: &Description) -> Result<(), DescribeFault> {
        Err(DescribeFault::Seat(SeatFault::Closed))
    }

    fn description(&self, _rt: &H, _process: &Pid) -> Option<Description> {
        None
    }
}

/// Serves a console from a seat, as `serve` does. The seat is its caller's again behind that: its transcript has an entry for each order
/// that was carried out, and what it knows of its node begins with what it knew before.
pub fn serve_from<R: Read, W: Write, H: Wait + Clock>(
    rt: &H,
    alloc: Global,
    reader: &mut BufReader<R, Global>,
    writer: &mut W,
    seat: &mut Seat,
) -> Result<(), StreamFault>
    ensures served { MatchResult result
        (λ _. Serves SeatAnswers SeatStands false MOST_LINES (reader_remaining R.remaining reader.old) (reader_remaining R.remaining reader.new)
        (W.contents writer.old) (W.contents writer.new) seat.old seat.new)
        (Stops SeatAnswers SeatStands false MOST_LINES (reader_remaining R.remaining reader.old) (reader_remaining R.remaining reader.new)
        (W.contents writer.old) (W.contents writer.new) seat.old seat.new) }
    ensures own { GoesOn seat.old seat.new }
{
    let most = u64::from(MOST_LINES);
    answer_lines(rt, alloc, reader, writer, seat, false, most)?;
    Ok(())
}

/// Serves a console from a seat: each line that is read is answered, as `answer_lines` says, until `quit` or the end of the
/// input; then all that it left linked exits. The transcript is the seat's, also after a fault: what it had, and an entry for each
/// order that was carried out, the exits at the end among them.
pub fn serve<R: Read, W: Write, H: Wait + Clock>(
    rt: &H,
    alloc: Global,
    reader: &mut BufReader<R, Global>,
    writer: &mut W,
    mut seat: Seat,
) -> Result<Transcript, (StreamFault, Transcript)>
    ensures { MatchResult result
        (λ transcript. (t : Sitting) × IsTranscript t transcript
        × Serves SeatAnswers SeatStands false MOST_LINES (reader_remaining R.remaining reader.old) (reader_remaining R.remaining reader.new)
        (W.contents writer.old) (W.contents writer.new) seat t)
        (λ ended. (t : Sitting) × IsTranscript t ended.1
        × Stops SeatAnswers SeatStands false MOST_LINES (reader_remaining R.remaining reader.old) (reader_remaining R.remaining reader.new)
        (W.contents writer.old) (W.contents writer.new) seat t ended.0) }
{
    let ended = serve_from(rt, alloc, reader, writer, &mut seat);
    let transcript = seat.into_transcript();
    match ended {
        Ok(()) => Ok(transcript),
        Err(fault) => Err((fault, transcript)),
    }
}
