//! Steps that are refused memory.
use crate::calls::{is_refused, is_told, register, spawns};
use crate::cast::process_of;
use node_threads::{Reply, Seat, SeatFault};
use std::sync::Wait;
use std::time::Clock;
use term::parse_name;

/// A name is registered by a step that is refused memory twice: it is answered, and the name is read.
pub(super) fn twice<R: Wait + Clock>(rt: &R, seat: &mut Seat) -> bool {
    match parse_name("twice") {
        Ok(name) => {
            let process = process_of(seat, 1);
            spawns(rt, seat)
                && is_told(rt, seat, register(&name, &process), &Reply::Yes)
                && seat.whereis(&name) == Ok(Some(process))
        }
        Err(_) => false,
    }
}

/// The step is refused memory three times: the node's thread ends, and the last table is read behind that.
pub(super) fn thrice<R: Wait + Clock>(rt: &R, seat: &mut Seat) -> bool {
    match parse_name("thrice") {
        Ok(name) => {
            let process = process_of(seat, 1);
            spawns(rt, seat)
                && is_refused(rt, seat, register(&name, &process), SeatFault::Closed)
                && seat.whereis(&name) == Ok(None)
        }
        Err(_) => false,
    }
}
