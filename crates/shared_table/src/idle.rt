//! Readers that wait for a seat.
ghost use Rattle.std.specs.Prelude.{◌≡◌};

use crate::chute::{Booked, Chute};
use crate::rule::{Mark, OneBook};
use crate::shown::Shown;
use left_right::reader::Reader;
use node_books::Token;
use std::marker::Model;

/// A reader that keeps the rule of the table.
pub(crate) type RuledReader = Reader<Shown, Mark, OneBook>;

/// A reader that nobody has. Contracts see the first token of the book of its table.
#[derive(Drop)]
pub struct Idle {
    pub(crate) reader: RuledReader,
    pub(crate) origin: Token,
}

impl Model for Idle {
    ghost use Rattle.std.specs.Prelude.{◌≡◌, []};
    ghost use Rattle.shared_table.specs.Rule.{IsOf, mark_at, Token as AnyToken};

    ghost Value = { AnyToken };

    ghost view = { λ i. i.origin };

    ghost invariant = { λ i. IsOf i.origin.book (mark_at i.reader.place) × (i.origin.log ≡ []) };
}

/// The readers of a node's table that nobody has. They are lent, and go back where they are dropped.
pub type IdleReaders = Chute<Idle>;

impl Booked for Idle {
    ghost token = { λ i. i };
}
