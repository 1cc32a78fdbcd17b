//! Lines for standard error that nobody may read.
ghost use Rattle.std.specs.Prelude.{IfOk, ◌≤◌, length};

use libc::net::{POLLOUT, poll};
use libc::types::pollfd;
use std::io;
use std::io::Write;

/// The number of standard error in the system.
const STANDARD_ERROR: i32 = 2;

/// Whether standard error takes a short line at once: a pipe that nobody reads doesn't when it is full.
fn takes_a_line() -> bool {
    let mut asked = [pollfd {
        fd: STANDARD_ERROR,
        events: POLLOUT,
        revents: 0,
    }];
    poll(&mut asked, 0) != 0
}

/// Standard error, as a server that stays tells there what happens. It waits for nobody: a line that can't be written at once is
/// dropped, and before the next one that can it is told how many were. Each line is written in one piece.
#[derive(Drop)]
pub(crate) struct Journal<'a, E: Write> {
    errors: &'a mut E,
    /// How many lines were dropped since the last one that was written.
    dropped: u64,
}

impl<'a, E: Write> Journal<'a, E> {
    /// One that has dropped nothing yet.
    pub(crate) fn new(errors: &'a mut E) -> Self {
        Journal { errors, dropped: 0 }
    }

    /// Tells how many lines were dropped, if any were.
    fn tell_dropped(&mut self) -> io::Result<()> {
        if self.dropped > 0 {
            let dropped = self.dropped;
            self.dropped = 0;
            writeln!(self.errors, "told {dropped} lines less")?;
        }
        Ok(())
    }

    /// Writes a line, or drops it.
    fn put(&mut self, line: &[u8]) -> io::Result<usize>
        ensures { IfOk result (λ count. count ≤ length line.now) }
    {
        if !takes_a_line() {
            self.dropped = self.dropped.saturating_add(1);
            return Ok(line.len());
        }
        self.tell_dropped()?;
        self.errors.write(line)
    }
}

impl<'a, E: Write> Write for Journal<'a, E> {
    fn write(&mut self, buf: &[u8]) -> io::Result<usize> {
        self.put(buf)
    }

    fn flush(&mut self) -> io::Result<()> {
        self.errors.flush()
    }
}
