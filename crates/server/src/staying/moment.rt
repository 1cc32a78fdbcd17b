//! When a server starts.
ghost use Rattle.std.specs.Prelude.{◌≡◌, ◌/◌, ◌^◌, nat_lt, if◌then◌else◌};
ghost use Rattle.std.specs.Time.{system_time_nanos};

use std::time::{Clock, SystemTime, UNIX_EPOCH};

/// The microseconds that had passed since 1970 by then, rounded down; 0 where they are 2^64 or more.
fn since_1970(time: SystemTime) -> u64
    ensures { result ≡ (if nat_lt (system_time_nanos time / 1_000) (2 ^ 64) then system_time_nanos time / 1_000 else 0) }
{
    match time.duration_since(UNIX_EPOCH) {
        Ok(passed) => u64::try_from(passed.as_micros()).unwrap_or(0),
        Err(_) => 0,
    }
}

/// The microseconds that have passed since 1970, as the system's clock has it; 0 where it tells no time after that. What a clock tells, no
/// clause can say.
pub(crate) fn microseconds<R: Clock>(rt: &R) -> u64 {
    match SystemTime::now(rt) {
        Ok(now) => since_1970(now),
        Err(_) => 0,
    }
}
