//! One console: its greeting, its seat and its lines.
ghost use Rattle.std.specs.Prelude.{◌≡◌, true, is_some, IfOk};
ghost use Rattle.std.specs.Io.Buffered.{reader_remaining};
ghost use Rattle.server.specs.Attending.{Attends, LeavesSeat, Reaches, Sits};
ghost use Rattle.node_threads.specs.Seats.{first_at};

use crate::served::{Left, Place, Witness};
use console::{greet, refuse_seat, serve_from};
use node_threads::Seat;
use std::alloc::Global;
use std::io::{BufReader, Read, Write};
use std::sync::Wait;
use std::time::Clock;
use term::{NodeName, NodeSet};

/// Serves a console at its seat, and keeps the seat's transcript and what it knew of its node, also after a fault.
fn serve_at<H: Wait + Clock, R: Read, W: Write>(
    rt: &H,
    alloc: Global,
    reader: &mut BufReader<R, Global>,
    writer: &mut W,
    mut seat: Seat,
) -> Left
    ensures { LeavesSeat (reader_remaining R.remaining reader.old) (reader_remaining R.remaining reader.new)
        (W.contents writer.old) (W.contents writer.new) seat result }
{
    // The console has ended, however it did.
    let _ = serve_from(rt, alloc, reader, writer, &mut seat);
    let witness = Witness {
        node: seat.node().copy(),
        token: seat.token(),
    };
    Left::Served(seat.into_transcript(), witness)
}

/// Serves a console at the node that it named, or tells it why it gets no seat there.
fn attend_at<H: Wait + Clock, R: Read, W: Write>(
    rt: &H,
    alloc: Global,
    reader: &mut BufReader<R, Global>,
    writer: &mut W,
    node: &NodeName,
    place: Place,
) -> Left
    requires { IfOk place (λ free. is_some (first_at node.now free) ≡ true) }
    ensures { Sits node.now (reader_remaining R.remaining reader.old) (reader_remaining R.remaining reader.new)
        (W.contents writer.old) (W.contents writer.new) place result }
{
    match place {
        Ok(free) => match free.at(alloc, node) {
            Ok(seat) => serve_at(rt, alloc, reader, writer, seat),
            Err(free) => Left::Unserved(Ok(free)),
        },
        Err(fault) => {
            // The console ends, whether it hears this or not.
            let _ = refuse_seat(writer, &fault);
            Left::Unserved(Err(fault))
        }
    }
}

/// Greets a console, and serves it at the node that it names: what is left of it. Its seat can be at each of these nodes.
pub(crate) fn attend<H: Wait + Clock, R: Read, W: Write>(
    rt: &H,
    alloc: Global,
    reader: &mut BufReader<R, Global>,
    writer: &mut W,
    nodes: &NodeSet,
    place: Place,
) -> Left
    requires { Reaches nodes.now place }
    ensures { Attends nodes.now (reader_remaining R.remaining reader.old) (reader_remaining R.remaining reader.new)
        (W.contents writer.old) (W.contents writer.new) place result }
{
    match greet(rt, alloc, reader, writer, nodes, None) {
        Ok(Some(node)) => attend_at(rt, alloc, reader, writer, &node, place),
        Ok(None) => Left::Unserved(place),
        Err(_) => Left::Unserved(place),
    }
}
