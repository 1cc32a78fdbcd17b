//! What came into the inboxes of nodes, once their threads have ended.
ghost use Rattle.std.specs.Prelude.{◌≡◌, ◌<◌, map, All};
ghost use Rattle.link.specs.Mailboxes.{taken, mailbox_room};
ghost use Rattle.node_seats.specs.Addresses.{inbox_at};
ghost use Rattle.node_threads.specs.Drawing.{Compares, CompareAll, AllCompared};

use link::Mailbox;
use node_loop::Item;
use node_seats::{Address, InboxLine, Parcel};
use std::marker::Model;

/// A node's inbox, once its thread has ended. Contracts see the inbox, and what was taken from it.
#[derive(Drop)]
pub(crate) struct Intake {
    address: Address<Item>,
    mailbox: Mailbox<Parcel<Item>>,
}

impl Model for Intake {
    ghost use Rattle.std.specs.Prelude.{◌≡◌};
    ghost use Rattle.link.specs.Mailboxes.{taken, mailbox_room};
    ghost use Rattle.node_seats.specs.Addresses.{inbox_at};
    ghost use Rattle.node_threads.specs.Drawing.{Drawn};

    ghost Value = { Drawn };

    ghost view = { λ i. record { inbox = inbox_at i.address; taken = taken i.mailbox } };

    ghost invariant = { λ i. mailbox_room i.mailbox ≡ i.address.room };
}

impl Intake {
    /// The inbox that is reached there.
    pub(crate) fn new(address: Address<Item>, mailbox: Mailbox<Parcel<Item>>) -> Self
        requires { mailbox_room mailbox ≡ address.room }
        ensures { result ≡ record { inbox = inbox_at address; taken = taken mailbox } }
    {
        Intake { address, mailbox }
    }

    /// Holds what was taken against what was put on a line into the inbox.
    pub(crate) fn compare(&mut self, line: InboxLine<Item>)
        requires { line.room ≡ self.old.inbox.room }
        ensures same { self.new ≡ self.old }
        ensures compared { Compares line self.old }
    {
        self.address.compare(&mut self.mailbox, line);
    }
}

/// Holds what was taken from these inboxes against what one node put on its lines into them.
fn compare_row(intakes: &mut [Intake], row: Vec<InboxLine<Item>>)
    requires { map (λ line. line.room) row.items ≡ map (λ d. d.inbox.room) intakes.old }
    ensures same { intakes.new ≡ intakes.old }
    ensures compared { CompareAll row.items intakes.old }
{
    let mut place = 0;
    for line in row {
        intakes[place].compare(line);
        place += 1;
    }
}

/// Holds what was taken from these inboxes against what each node put on its lines into them.
pub(crate) fn compare_all(intakes: &mut [Intake], rows: Vec<Vec<InboxLine<Item>>>)
    requires { All (λ row. map (λ line. line.room) row.items ≡ map (λ d. d.inbox.room) intakes.old) rows.items }
    ensures same { intakes.new ≡ intakes.old }
    ensures compared { AllCompared (map (λ row. row.items) rows.items) intakes.old }
{
    for row in rows {
        compare_row(intakes, row);
    }
}
