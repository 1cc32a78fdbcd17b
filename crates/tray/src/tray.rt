//! The tray of a node.
ghost use Rattle.std.specs.Prelude.{◌≡◌, [], map, IfOk, OnOk, OnErr, IfErr};
ghost use Rattle.std.specs.List.{list_all};
ghost use Rattle.protocol_model.specs.Links.{is_nil};
ghost use Rattle.tray.specs.Held.{none_for, place, has, with_letter, renewed};
ghost use Rattle.tray.specs.Faults.{IsUnsent};
ghost use Rattle.tray.specs.Draining.{DrainedAll};

use crate::slot::Slot;
use link::{LinkFault, Post, Unsent};
use std::alloc::{AllocError, Global};
use std::marker::Model;
use term::{Node, NodeSet};

/// The letters that a node has to send: for each receiver a list, the oldest first. What its links hand back stays there, and is
/// tried again.
#[derive(Drop)]
pub struct Tray<L> {
    slots: Vec<Slot<L>>,
}

impl<L> Model for Tray<L> {
    ghost use Rattle.std.specs.Prelude.{List};
    ghost use Rattle.tray.specs.Held.{Waiting};

    ghost Value = { List (Waiting L) };

    ghost view = { λ t. t.slots.items };
}

/// The place of the slot of a receiver.
fn place_of<L>(slots: &[Slot<L>], receiver: &Node) -> Option<usize>
    ensures { result ≡ place receiver.now slots.now }
{
    slots.iter().position(|slot| slot.receiver() == receiver)
}

impl<L: Drop> Tray<L> {
    /// A tray without letters, for these receivers.
    pub fn new(alloc: Global, receivers: &NodeSet) -> Result<Self, AllocError>
        ensures { IfOk result (λ tray. tray ≡ map none_for receivers.now) }
    {
        let mut slots = Vec::new(alloc);
        for receiver in receivers.as_slice() {
            slots.push(Slot::new(alloc, receiver.copy()))?;
        }
        Ok(Tray { slots })
    }

    /// Puts a letter behind those that wait for its receiver. It comes back where that is none of the tray's, as `NoSuchNode`,
    /// or where memory is refused.
    pub fn put(&mut self, to: &Node, letter: L) -> Result<(), Unsent<L>>
        ensures ok { OnOk result (self.new ≡ with_letter to.now letter self.old) }
        ensures unchanged { OnErr result (self.new ≡ self.old) }
        ensures returned { IfErr result (λ unsent. unsent.letter ≡ letter) }
        ensures err { IfErr result (λ unsent. IsUnsent unsent.fault (has to.now self.old)) }
    {
        let Some(place) = place_of(self.slots.as_slice(), to) else {
            return Err(Unsent {
                fault: LinkFault::NoSuchNode,
                letter,
            });
        };
        self.slots[place].push(letter)
    }

    /// The second of these nodes is a receiver in the place of the first from now on. What waited for that is dropped.
    pub fn renew(&mut self, older: &Node, next: &Node)
        ensures { self.new ≡ renewed older.now next.now self.old }
    {
        let alloc: Global = *self.slots.allocator();
        for slot in self.slots.iter_mut() {
            slot.renew(alloc, older, next);
        }
    }

    /// Whether no letter waits.
    pub fn is_empty(&self) -> bool
        ensures { result ≡ list_all (λ w. is_nil w.letters) self.now }
    {
        self.slots.iter().all(|slot| slot.is_empty())
    }

    /// Sends what waits, to one receiver after another, and to each the oldest first until one letter is handed back.
    pub fn drain<E: Post<L>>(&mut self, post: &mut E)
        ensures { DrainedAll E.posts E.refuses self.old (E.state post.old) self.new (E.state post.new) }
    {
        for place in 0..self.slots.len() {
            self.slots[place].drain(post);
        }
    }
}
