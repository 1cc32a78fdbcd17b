//! What waits for one receiver.
ghost use Rattle.std.specs.Prelude.{◌≡◌, [], ◌∷◌, ◌++◌, OnOk, OnErr, IfErr};
ghost use Rattle.protocol_model.specs.Links.{is_nil};
ghost use Rattle.link.specs.declared.faults.LinkFault.TheVariants.{Memory};
ghost use Rattle.tray.specs.Draining.{Drained};
ghost use Rattle.tray.specs.Held.{renewed_where};

use link::{LinkFault, Post, Unsent};
use std::alloc::Global;
use std::collections::VecDeque;
use std::marker::Model;
use term::Node;

/// The letters for one receiver, the oldest first.
#[derive(Drop)]
pub(crate) struct Slot<L> {
    receiver: Node,
    letters: VecDeque<L>,
}

impl<L> Model for Slot<L> {
    ghost use Rattle.tray.specs.Held.{Waiting};

    ghost Value = { Waiting L };

    ghost view = { λ s. record { receiver = s.receiver; letters = s.letters.items } };
}

impl<L> Slot<L> {
    /// No letter for this receiver. It takes no memory.
    pub(crate) fn new(alloc: Global, receiver: Node) -> Self
        ensures { result ≡ record { receiver = receiver; letters = [] } }
    {
        Slot {
            receiver,
            letters: VecDeque::new(alloc),
        }
    }

    /// Whose letters they are.
    pub(crate) fn receiver(&self) -> &Node
        ensures { result.now ≡ self.now.receiver }
    {
        &self.receiver
    }

    /// Whether none waits.
    pub(crate) fn is_empty(&self) -> bool
        ensures { result ≡ is_nil self.now.letters }
    {
        self.letters.is_empty()
    }

    /// A letter more, behind the others.
    pub(crate) fn push(&mut self, letter: L) -> Result<(), Unsent<L>>
        ensures ok { OnOk result (self.new ≡ record self.old { letters = self.old.letters ++ letter ∷ [] }) }
        ensures unchanged { OnErr result (self.new ≡ self.old) }
        ensures err { IfErr result (λ unsent. unsent ≡ record { fault = Memory; letter = letter }) }
    {
        match self.letters.push_back(letter) {
            Ok(()) => Ok(()),
            Err(refused) => Err(Unsent {
                fault: LinkFault::Memory,
                letter: refused.value,
            }),
        }
    }
}

impl<L: Drop> Slot<L> {
    /// Where the letters are for the first of these nodes, they are dropped, and those for the second wait here from now on.
    pub(crate) fn renew(&mut self, alloc: Global, older: &Node, next: &Node)
        ensures { self.new ≡ renewed_where older.now next.now self.old }
    {
        if self.receiver == *older {
            *self = Slot::new(alloc, next.copy());
        }
    }

    /// Sends the letters, the oldest first, until one is handed back. Where none waits, as mostly, it costs next to nothing.
    pub(crate) fn drain<E: Post<L>>(&mut self, post: &mut E)
        ensures receiver { self.new.receiver ≡ self.old.receiver }
        ensures drained { Drained E.posts E.refuses self.old.receiver self.old.letters (E.state post.old) self.new.letters (E.state post.new) }
    {
        if !self.is_empty() {
            self.send_all(post);
        }
    }

    /// Sends them, as `drain` does. A letter is large, and so is what this takes on the stack and clears.
    fn send_all<E: Post<L>>(&mut self, post: &mut E)
        ensures receiver { self.new.receiver ≡ self.old.receiver }
        ensures drained { Drained E.posts E.refuses self.old.receiver self.old.letters (E.state post.old) self.new.letters (E.state post.new) }
    {
        for _ in 0..self.letters.len() {
            let Some(letter) = self.letters.pop_front() else {
                break;
            };
            let Err(unsent) = post.send(&self.receiver, letter) else {
                continue;
            };
            self.letters.push_front_reserved(unsent.letter);
            return;
        }
    }
}
