//! Where the inbox of a node is reached.
ghost use Rattle.std.specs.Prelude.{◌≡◌, ◌+◌, [], IfOk, OnOk, OnErr};
ghost use Rattle.link.specs.Rule.{Begins, of};
ghost use Rattle.link.specs.Mailboxes.{made_of, taken, root_room, mailbox_room};

use crate::bell::{Bell, Rest};
use crate::inbox_line::InboxLine;
use crate::parcel::Parcel;
use crate::slots::{Slot, Slots};
use link::{Mailbox, Root, compare, open};
use std::alloc::{AllocError, Global};
use std::marker::Model;
use term::{INBOX_ROOM, Node};

/// Where a node's inbox is reached: what makes the lines to it, and the ways to the slots where it replies. Contracts see whose it is, how many
/// lines were made, the inbox, and the book of the node.
#[derive(Drop)]
pub struct Address<L: Drop> {
    node: Node,
    root: Root<Parcel<L>>,
    bell: Bell,
    slots: Slots,
}

/// An inbox that was opened: its address, its receiver's end, and the rest of the thread that is to take from it.
#[derive(Drop)]
pub(crate) struct Entrance<L: Drop> {
    pub(crate) address: Address<L>,
    pub(crate) mailbox: Mailbox<Parcel<L>>,
    pub(crate) rest: Rest,
}

impl<L: Drop> Model for Address<L> {
    ghost use Rattle.link.specs.Mailboxes.{made_of, root_room};
    ghost use Rattle.node_seats.specs.Addresses.{Reached};

    ghost Value = { Reached L };

    ghost view = { λ a. record { node = a.node; lines = made_of a.root; room = root_room a.root; book = a.slots } };
}

/// Opens the inbox of a node, which replies in these slots, and whose thread yields so often at most before it sleeps.
pub(crate) fn open_inbox<L: Drop>(
    alloc: Global,
    node: Node,
    slots: Slots,
    yields: u32,
) -> Result<Entrance<L>, AllocError>
    ensures address { IfOk result (λ opened. opened.address ≡ record { node = node; lines = 0; room = mailbox_room opened.mailbox; book = slots }) }
    ensures empty { IfOk result (λ opened. taken opened.mailbox ≡ []) }
    ensures rest { IfOk result (λ opened. opened.rest.yields ≡ yields) }
{
    let bell = Bell::new(alloc)?;
    let rest = bell.rest(yields)?;
    let (root, mailbox) = open::<Parcel<L>>(alloc, INBOX_ROOM)?;
    let address = Address {
        node,
        root,
        bell,
        slots,
    };
    Ok(Entrance {
        address,
        mailbox,
        rest,
    })
}

impl<L: Drop> Address<L> {
    /// Whose inbox it is.
    pub fn node(&self) -> &Node
        ensures { result.now ≡ self.now.node }
    {
        &self.node
    }

    /// A line more into the inbox, on which nothing was put. Its sender's number is how many were made before.
    pub fn line(&mut self) -> Result<InboxLine<L>, AllocError>
        ensures ok { IfOk result (λ line. line ≡ record { receiver = self.old.node; number = self.old.lines; room = self.old.room; parcels = [] }) }
        ensures more { OnOk result (self.new ≡ record self.old { lines = self.old.lines + 1 }) }
        ensures err { OnErr result (self.new ≡ self.old) }
    {
        // So many are never made.
        if self.root.made() == u64::MAX {
            return Err(AllocError);
        }
        let bell = self.bell.another()?;
        let port = self.root.port()?;
        Ok(InboxLine::new(self.node.copy(), port, bell))
    }

    /// A way to the slot of this number.
    pub(crate) fn slot(&mut self, number: u32) -> Result<Slot, AllocError>
        ensures same { self.new ≡ self.old }
        ensures slot { IfOk result (λ slot. slot.book ≡ self.old.book) }
    {
        self.slots.way(number)
    }

    /// Holds what was taken from the inbox against what was put on a line into it: of what came under the line's number, a beginning of
    /// that was taken.
    pub fn compare(&self, mailbox: &mut Mailbox<Parcel<L>>, line: InboxLine<L>)
        requires mailbox { mailbox_room mailbox.old ≡ self.now.room }
        requires line { line.room ≡ self.now.room }
        ensures begins { Begins (of (λ parcel. parcel.number) line.number (taken mailbox.old)) line.parcels }
        ensures taken { taken mailbox.new ≡ taken mailbox.old }
        ensures room { mailbox_room mailbox.new ≡ mailbox_room mailbox.old }
    {
        compare(&self.root, mailbox, line.into_port());
    }
}
