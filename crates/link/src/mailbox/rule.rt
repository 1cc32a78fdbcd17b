//! The rule of an inbox: for each sender, its items in what was taken and then in the queue are what it put.
ghost use Rattle.std.specs.Prelude.{ℕ, ◌≡◌, ◌+◌, [], ◌∷◌, ◌++◌, true, false};

use crossbeam_channel::protocol::{Join, Lesson, Outcome, Protocol, Split};
use std::collections::LinkedList;

/// An item that names its sender, by its number at the inbox.
pub trait Sourced {
    ghost source: { Self → ℕ };
}

/// What a pass may do and what it has done. No value of it is made.
pub(crate) struct Hand<T> {
    makes: bool,
    made: u64,
    sends: bool,
    from: u64,
    put: LinkedList<T>,
    gets: bool,
    taken: LinkedList<T>,
}

/// The rule.
pub(crate) struct InOrder;

impl<T: Sourced> Protocol<T, Hand<T>> for InOrder {
    ghost use Rattle.link.specs.Rule.{Kept, opening};

    ghost holds = { Kept T.source };

    ghost first = { opening };
}

/// A sender puts an item.
pub(crate) struct Puts;

impl<T> Outcome<T, Hand<T>> for Puts {
    ghost then = { λ v x w. w ≡ record v { put = v.put ++ x ∷ [] } };
}

impl<T> Lesson<T, Hand<T>> for Puts {
    ghost fact = { λ v items. Unit {0} };
}

/// The receiver takes an item.
pub(crate) struct Gets;

impl<T> Outcome<T, Hand<T>> for Gets {
    ghost then = { λ v x w. w ≡ record v { taken = v.taken ++ x ∷ [] } };
}

impl<T> Lesson<T, Hand<T>> for Gets {
    ghost fact = { λ v items. Unit {0} };
}

/// A new sender's pass is cut from the maker's.
pub(crate) struct Makes;

impl<T> Split<Hand<T>> for Makes {
    ghost use Rattle.link.specs.Rule.{newcomer};

    ghost left = { λ v. record v { made = v.made + 1 } };

    ghost right = { λ v. newcomer v.made };
}

/// The receiver's pass is cut from the first one.
pub(crate) struct Parts;

impl<T> Split<Hand<T>> for Parts {
    ghost use Rattle.link.specs.Rule.{receiver};

    ghost left = { λ v. record v { gets = false; taken = [] } };

    ghost right = { λ v. receiver v.taken };
}

/// A sender's pass is laid beside the receiver's.
pub(crate) struct Beside;

impl<T> Join<Hand<T>> for Beside {
    ghost use Rattle.link.specs.Rule.{idle};

    ghost both = { λ v w. record v { sends = w.sends; from = w.from; put = w.put } };

    ghost spent = { idle };
}

/// What was taken of the sender is a beginning of what it put.
pub(crate) struct Compares;

impl<T: Sourced> Lesson<T, Hand<T>> for Compares {
    ghost use Rattle.link.specs.Rule.{Hears};

    ghost fact = { Hears T.source };
}
