//! The slots of a node's callers, where its thread lays their replies.
ghost use Rattle.std.specs.Prelude.{◌≡◌, IfOk};

use crate::laid::Laid;
use shared_table::{Chute, Token};
use std::alloc::{AllocError, Global};
use std::marker::Model;
use std::sync::Wait;
use term::MOST_SEATS;

/// How many slots a node has: one for each seat that there is at once, which may be at any node, and one for its cluster's own calls.
const NODE_SLOTS: u32 = MOST_SEATS + 1;

/// Where the replies to one caller are laid. A caller has one call at a time, so one reply has room; and to lay one takes no memory, so none is
/// ever lost. Seats have a slot one after another, and the number of each is above those before it. Contracts see the book of the node.
pub(crate) type Slot = Chute<Laid>;

/// Ways to all slots of one node. Contracts see the book of the node.
#[derive(Drop)]
pub(crate) struct Slots {
    ways: Vec<Slot>,
    origin: Token,
}

impl Model for Slots {
    ghost use Rattle.std.specs.Prelude.{◌≡◌, All};
    ghost use Rattle.shared_table.specs.Pages.{Book};

    ghost Value = { Book };

    ghost view = { λ s. s.origin.book };

    ghost invariant = { λ s. All (λ way. way.book ≡ s.origin.book) s.ways.items };
}

/// Two ways to a new slot of the node with this book. There lies a blank one, which says of which book the slot is; whoever looks there first takes
/// it out.
fn open_slot(alloc: Global, origin: &Token) -> Result<(Slot, Slot), AllocError>
    ensures one { IfOk result (λ ways. ways.0.book ≡ origin.now.book) }
    ensures other { IfOk result (λ ways. ways.1.book ≡ origin.now.book) }
{
    let mut slot = Chute::open(alloc, 1, Laid::blank(origin.again()), origin.again())?;
    let other = slot.another()?;
    Ok((slot, other))
}

/// The slots of the node with this book: ways for its thread, and ways from which its callers get theirs.
pub(crate) fn open_slots(alloc: Global, origin: Token) -> Result<(Slots, Slots), AllocError>
    ensures thread { IfOk result (λ slots. slots.0 ≡ origin.book) }
    ensures callers { IfOk result (λ slots. slots.1 ≡ origin.book) }
{
    let mut theirs = Vec::new(alloc);
    let mut ours = Vec::new(alloc);
    for _ in 0..NODE_SLOTS {
        let (one, other) = open_slot(alloc, &origin)?;
        theirs.push(one)?;
        ours.push(other)?;
    }
    let thread = Slots {
        ways: theirs,
        origin: origin.again(),
    };
    let callers = Slots { ways: ours, origin };
    Ok((thread, callers))
}

/// Lays a reply down in this slot. One that lies there still is one that an earlier caller waits for no more, unless it is to a later ticket: then
/// this one comes too late, and is dropped.
#[tactic(auto, using(crate::proofs::Telling::later_book))]
fn lay<R: Wait>(rt: &R, slot: &mut Slot, reply: Laid)
    requires { reply.seen.book ≡ slot.old.book }
    ensures { slot.new ≡ slot.old }
{
    if let Err(reply) = slot.push(rt, reply) {
        let later = reply.or_later(slot.pop(rt));
        // There is room for it: nobody else lays a reply there.
        let _ = slot.push(rt, later);
    }
}

impl Slots {
    /// One more way to the slot of this number. The cluster's own callers have numbers above those of all seats, one at each node.
    pub(crate) fn way(&mut self, number: u32) -> Result<Slot, AllocError>
        ensures same { self.new ≡ self.old }
        ensures way { IfOk result (λ way. way.book ≡ self.old) }
    {
        let place = number.min(MOST_SEATS) as usize;
        if place >= self.ways.len() {
            return Err(AllocError);
        }
        self.ways[place].another()
    }

    /// Lays a reply down for its caller.
    pub(crate) fn lay<R: Wait>(&mut self, rt: &R, reply: Laid)
        requires { reply.seen.book ≡ self.old }
        ensures { self.new ≡ self.old }
    {
        let place = reply.slot().min(MOST_SEATS) as usize;
        if place < self.ways.len() {
            lay(rt, &mut self.ways[place], reply);
        }
    }
}
