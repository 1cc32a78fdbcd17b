//! How threads that sleep are woken.
use crate::calls::is_told;
use crate::cast::Cast;
use node_threads::{Call, Reply, Seat};
use std::sync::Wait;
use std::time::{Clock, Duration, Instant};
use term::Name;

/// How often a name is looked up.
const LOOK_UPS: u64 = 200;

/// How many seconds that may take at most. A sleep that no ring ends lasts for a tenth of one, so where one side rings no bell it takes
/// twenty.
const MOST_SECONDS: u64 = 5;

/// How long the caller lingers between two calls, in microseconds, so that the node falls asleep.
const LINGER: u64 = 300;

/// Lingers, and doesn't sleep.
fn linger<R: Clock>(rt: &R) {
    let Ok(start) = Instant::now(rt) else {
        return;
    };
    for _ in 0..1_000_000u32 {
        match start.elapsed(rt) {
            Ok(taken) if taken < Duration::from_micros(LINGER) => {}
            _ => return,
        }
    }
}

/// Asks the node for a name again and again. It sleeps before each call, and the seat before each reply. Whether nobody has the name.
fn finds_nobody<R: Wait + Clock>(rt: &R, seat: &mut Seat, name: &Name) -> bool {
    for _ in 0..LOOK_UPS {
        linger(rt);
        if !is_told(rt, seat, Call::Whereis(name.copy()), &Reply::Undefined) {
            return false;
        }
    }
    true
}

/// Looks a name up that nobody has, in time.
pub(super) fn look_ups<R: Wait + Clock>(rt: &R, seat: &mut Seat, cast: &Cast) -> bool {
    let Ok(start) = Instant::now(rt) else {
        return false;
    };
    let found = finds_nobody(rt, seat, &cast.x);
    match start.elapsed(rt) {
        Ok(taken) => found && taken < Duration::from_secs(MOST_SECONDS),
        Err(_) => false,
    }
}
