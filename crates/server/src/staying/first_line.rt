//! The input of a connection, whose first line must come in time.
ghost use Rattle.std.specs.Prelude.{IfOk};
ghost use Rattle.std.specs.Counts.{IsPrefixLen};

use crate::staying::stream::Stream;
use std::io;
use std::io::Read;
use std::sync::atomic::{AtomicBool, Ordering};
use std::time::{Clock, Duration, Instant};

/// For how many seconds a console may wait with its first line, all parts of it together.
const PATIENCE: u64 = 10;

/// The input of a connection. Until its console is attached all reads together wait for ten seconds, so that one that sends a byte now and
/// then keeps nobody out for longer than one that says nothing.
#[derive(Drop)]
pub(crate) struct FirstLine<'a, R: Clock + Copy> {
    rt: R,
    stream: &'a Stream,
    /// When the first line has to be there; unknown where there is no clock.
    until: Option<Instant>,
    is_attached: &'a AtomicBool,
}

impl<'a, R: Clock + Copy> FirstLine<'a, R> {
    /// That of a connection which was taken just now, and isn't attached.
    pub(crate) fn of(rt: R, stream: &'a Stream, is_attached: &'a AtomicBool) -> Self {
        let until = match Instant::now(&rt) {
            Ok(now) => now.checked_add(Duration::from_secs(PATIENCE)),
            Err(_) => None,
        };
        FirstLine {
            rt,
            stream,
            until,
            is_attached,
        }
    }

    /// How long the next read may wait.
    fn left(&self) -> Duration {
        match (self.until, Instant::now(&self.rt)) {
            (Some(until), Ok(now)) => until.saturating_duration_since(now),
            _ => Duration::from_secs(PATIENCE),
        }
    }

    /// Reads what has come, or waits for it. No time at all is no time-out that the system takes, so the read fails then.
    fn receive(&self, buf: &mut [u8]) -> io::Result<usize>
        ensures { IfOk result (λ count. IsPrefixLen count buf.new) }
    {
        if !self.is_attached.load(Ordering::SeqCst) {
            self.stream.set_read_timeout(Some(self.left()))?;
        }
        self.stream.receive(buf)
    }
}

impl<'a, R: Clock + Copy> Read for FirstLine<'a, R> {
    fn read(&mut self, buf: &mut [u8]) -> io::Result<usize> {
        self.receive(buf)
    }
}
