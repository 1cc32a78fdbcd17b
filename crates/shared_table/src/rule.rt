//! The rule of the shared table.

use crate::shown::Shown;
use atomic_table::{Join, Split};
use crossbeam_utils::rule::{Outcome, Protocol};
use node_books::Token;

/// Of which book the table is, as the publisher or a reader knows it, if it does. No value of it is made.
pub type Mark = Option<Token>;

/// The rule that the publisher and all readers keep: what is shown is what the last of its moments shows, and who knows of a book knows that
/// one.
pub struct OneBook;

impl Protocol<Shown, Mark> for OneBook {
    ghost use Rattle.std.specs.Prelude.{None};
    ghost use Rattle.shared_table.specs.Rule.{Keeps};

    ghost holds = { Keeps };

    ghost first = { None };
}

/// A reader enters.
pub(crate) struct Enters;

impl Outcome<Shown, Mark> for Enters {
    ghost use Rattle.shared_table.specs.Rule.{Sees};

    ghost then = { Sees };
}

/// Something is published.
pub(crate) struct Publishes;

impl Outcome<Shown, Mark> for Publishes {
    ghost use Rattle.shared_table.specs.Rule.{Marks};

    ghost then = { Marks };
}

/// A note of the book is cut off, for a new reader.
pub(crate) struct Notes;

impl Split<Mark> for Notes {
    ghost left = { λ v. v };

    ghost right = { λ v. v };
}

impl Join<Mark> for Notes {
    ghost use Rattle.std.specs.Prelude.{None};

    ghost both = { λ v w. w };

    ghost spent = { None };
}
