//! One link between a node and another.
ghost use Rattle.std.specs.Prelude.{◌≡◌, false, true};
ghost use Rattle.letter_lines.specs.Gathered.{nothing};
ghost use Rattle.wire_end.specs.Links.{HearsPart, is_next};
ghost use Rattle.wire_end.specs.Starting.{opened_anew};

use crate::faults::HearFault;
use letter_lines::{Gathering, Letter, Part};
use std::alloc::Global;
use term::Node;

/// The link between a node and another: how many lines of it were read, and how many written, each with its number from 1 on, and the
/// parts that were read of a letter that isn't whole yet.
#[derive(Drop)]
pub(crate) struct Wire {
    node: Node,
    read: u64,
    written: u64,
    parts: Gathering,
    /// Whether the other node has left, as far as this end was told: then no line of it is the next.
    is_down: bool,
}

impl Wire {
    /// A link with this node, on which nothing came or went.
    pub(crate) fn new(alloc: Global, node: Node) -> Self
        ensures { result ≡ record { node = node; read = 0; written = 0; parts = nothing; is_down = false } }
    {
        Wire {
            node,
            read: 0,
            written: 0,
            parts: Gathering::new(alloc),
            is_down: false,
        }
    }

    /// The other node.
    pub(crate) fn node(&self) -> &Node
        ensures { result.now ≡ self.now.node }
    {
        &self.node
    }

    /// The items that were read of a letter that isn't whole yet.
    pub(crate) fn parts(&self) -> &Gathering
        ensures { result.now ≡ self.now.parts }
    {
        &self.parts
    }

    /// How many lines were written.
    pub(crate) fn written(&self) -> u64
        ensures { result ≡ self.now.written }
    {
        self.written
    }

    /// So many lines have been written now.
    pub(crate) fn set_written(&mut self, written: u64)
        ensures { self.new ≡ record self.old { written = written } }
    {
        self.written = written;
    }

    /// Whether the other node has left.
    pub(crate) fn is_down(&self) -> bool
        ensures { result ≡ self.now.is_down }
    {
        self.is_down
    }

    /// Whether a line with this number is the next that may come.
    fn is_next(&self, number: u64) -> bool
        ensures { result ≡ is_next self.now number }
    {
        match self.read.checked_add(1) {
            Some(next) => !self.is_down && number == next,
            None => false,
        }
    }

    /// A line was read that has this number and says this part of a letter: the letter, where that is whole now.
    pub(crate) fn hear(&mut self, number: u64, part: Part) -> Result<Option<Letter>, HearFault>
        ensures { HearsPart number part self.old self.new result }
    {
        if !self.is_next(number) {
            return Err(HearFault::Gap);
        }
        let letter = self.parts.take(part)?;
        self.read = number;
        if let Some(Letter::Down) = &letter {
            self.is_down = true;
        }
        Ok(letter)
    }

    /// The other node is gone without a word. Parts that came of a letter are forgotten.
    pub(crate) fn close(&mut self)
        ensures { self.new ≡ record self.old { parts = nothing; is_down = true } }
    {
        self.parts.clear();
        self.is_down = true;
    }

    /// Where it is the link with the first of these nodes, it is one with the second now, on which nothing came or went.
    pub(crate) fn open_anew(&mut self, older: &Node, next: &Node)
        ensures { self.new ≡ opened_anew older.now next.now self.old }
    {
        if self.node != *older {
            return;
        }
        self.node = next.copy();
        self.read = 0;
        self.written = 0;
        self.close();
        self.is_down = false;
    }
}
