//! A history that only proofs read.
ghost use Rattle.std.specs.Prelude.{◌≡◌, List, [], ◌∷◌, ◌++◌};
ghost use Rattle.std.specs.Borrow.{ftrue};

use std::marker::{Model, PhantomData};

/// Pairs of what has been, the oldest first: a clause reads them as `items`. It takes no memory, and its methods do nothing at run time.
#[derive(Drop)]
pub struct Trace<A, B> {
    of: PhantomData<(A, B)>,
    pub ghost items: { List (A × B) },
}

impl<A, B> Model for Trace<A, B> {
    ghost also_owns = { λ _. ftrue };
}

// It owns nothing.
unsafe impl<A: Send, B: Send> Send for Trace<A, B> {}

impl<A, B> Trace<A, B> {
    /// Nothing has been.
    pub fn new() -> Trace<A, B>
        ensures { result.items ≡ [] }
    {
        Trace { of: PhantomData }
    }

    /// What has been, and these two behind it.
    pub fn and(&self, first: &A, second: &B) -> Trace<A, B>
        ensures { result.items ≡ self.now.items ++ (first.now, second.now) ∷ [] }
    {
        Trace { of: PhantomData }
    }

    /// The same once more.
    pub fn again(&self) -> Trace<A, B>
        ensures { result.items ≡ self.now.items }
    {
        Trace { of: PhantomData }
    }
}
