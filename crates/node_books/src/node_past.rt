//! The book of a node whose loop is at its end.
ghost use Rattle.std.specs.Prelude.{◌≡◌};
ghost use mathlib.Core.List.{IsPrefix};
ghost use Rattle.node_loop.specs.Held.{Looping};
ghost use Rattle.node_books.specs.Moments.{EndsAt, ArePast};

use crate::rule::Token;
use std::marker::Model;

/// All moments of one node, up to the end of its loop. It has no bytes. Contracts see which book it is, and the moments.
#[derive(Drop)]
pub struct Past {
    pub(crate) seen: Token,
}

impl Model for Past {
    ghost use Rattle.std.specs.Prelude.{◌≡◌};
    ghost use Rattle.node_books.specs.Books.{Known};
    ghost use Rattle.node_books.specs.Moments.{AreMoments, HasEnded};

    ghost Value = { Known };

    ghost view = { λ p. record { book = p.seen.book; log = p.seen.log } };

    ghost invariant = { λ p. AreMoments p.seen.log × HasEnded p.seen.log };
}

impl Past {
    /// Whoever knows of moments of this book knows a beginning of it: the loop that ended came to its end from each of them, and its log goes
    /// on from the log of each. Nothing is done at run time.
    pub fn covers(&self, token: &Token)
        requires { token.now.book ≡ self.now.book }
        ensures begins { IsPrefix token.now.log self.now.log }
        ensures past { (end : Looping) → EndsAt self.now.log end → ArePast token.now.log end }
    {
        let mut all = self.seen.again();
        all.learn(token);
    }
}
