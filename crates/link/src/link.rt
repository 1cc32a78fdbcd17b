//! One link.
ghost use Rattle.std.specs.Prelude.{◌≡◌, ◌∷◌, ◌++◌, [], drop, OnOk, OnErr, IfErr};
ghost use Rattle.std.specs.List.{slice_get};
ghost use Rattle.std.specs.Option.{option_copied};
ghost use Rattle.protocol_model.specs.Links.{is_nil};
ghost use Rattle.link.specs.declared.faults.LinkFault.TheVariants.{Memory};

use crate::faults::{LinkFault, Unsent};
use std::alloc::Global;
use std::collections::VecDeque;
use std::marker::Model;

/// What is on its way from one node to another, the oldest first.
#[derive(Drop)]
pub(crate) struct Link<L> {
    letters: VecDeque<L>,
}

impl<L> Model for Link<L> {
    ghost use Rattle.std.specs.Prelude.{List};

    ghost Value = { List L };

    ghost view = { λ l. l.letters.items };
}

impl<L> Link<L> {
    /// A link with no letter. It takes no memory.
    pub(crate) fn new(alloc: Global) -> Self
        ensures { result ≡ [] }
    {
        Link {
            letters: VecDeque::new(alloc),
        }
    }

    /// A letter more, at the back.
    pub(crate) fn push(&mut self, letter: L) -> Result<(), Unsent<L>>
        ensures ok { OnOk result (self.new ≡ self.old ++ letter ∷ []) }
        ensures unchanged { OnErr result (self.new ≡ self.old) }
        ensures err { IfErr result (λ unsent. unsent ≡ record { fault = Memory; letter = letter }) }
    {
        match self.letters.push_back(letter) {
            Ok(()) => Ok(()),
            Err(refused) => Err(Unsent {
                fault: LinkFault::Memory,
                letter: refused.value,
            }),
        }
    }

    /// The oldest letter is taken.
    pub(crate) fn pop(&mut self) -> Option<L>
        ensures oldest { result ≡ slice_get self.old 0 }
        ensures rest { self.new ≡ drop 1 self.old }
    {
        self.letters.pop_front()
    }

    /// The oldest letter.
    pub(crate) fn front(&self) -> Option<&L>
        ensures { option_copied result ≡ slice_get self.now 0 }
    {
        self.letters.front()
    }

    /// Whether there is none.
    pub(crate) fn is_empty(&self) -> bool
        ensures { result ≡ is_nil self.now }
    {
        self.letters.is_empty()
    }
}

impl<L: Drop> Link<L> {
    /// All letters vanish.
    pub(crate) fn clear(&mut self)
        ensures { self.new ≡ [] }
    {
        self.letters.clear();
    }
}
