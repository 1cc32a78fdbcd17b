//! A reader that never ends.
use std::io::{self, Read};

/// A reader that gives a line without an end.
#[derive(Drop)]
pub(crate) struct Endless;

impl Read for Endless {
    fn read(&mut self, buf: &mut [u8]) -> io::Result<usize> {
        buf.fill(b'x');
        Ok(buf.len())
    }
}
