//! Ways into the inbox of a node.
ghost use Rattle.std.specs.Prelude.{◌≡◌, OnOk, OnErr, IfErr};
ghost use Rattle.link.specs.declared.faults.LinkFault.TheVariants.{Full};
ghost use Rattle.link.specs.Mailboxes.{put, number_of, port_room};
ghost use Rattle.node_seats.specs.Lines.{with_parcel};

use crate::bell::Bell;
use crate::parcel::Parcel;
use link::{LinkFault, Port, Unsent};
use std::marker::Model;
use std::sync::Wait;
use term::Node;

/// One sender's way into the inbox of a node, with a bell of that node's thread.
#[derive(Drop)]
pub struct InboxLine<L: Drop> {
    receiver: Node,
    port: Port<Parcel<L>>,
    bell: Bell,
}

impl<L: Drop> Model for InboxLine<L> {
    ghost use Rattle.link.specs.Mailboxes.{put, number_of, port_room};
    ghost use Rattle.node_seats.specs.Lines.{Sent};

    ghost Value = { Sent L };

    ghost view = { λ l. record { receiver = l.receiver; number = number_of l.port; room = port_room l.port; parcels = put l.port } };
}

impl<L: Drop> InboxLine<L> {
    /// A line to this node, by a port of its inbox.
    pub(crate) fn new(receiver: Node, port: Port<Parcel<L>>, bell: Bell) -> Self
        ensures { result ≡ record { receiver = receiver; number = number_of port; room = port_room port; parcels = put port } }
    {
        InboxLine {
            receiver,
            port,
            bell,
        }
    }

    /// The node that it leads to.
    pub fn receiver(&self) -> &Node
        ensures { result.now ≡ self.now.receiver }
    {
        &self.receiver
    }

    /// Wakes the receiver.
    pub(crate) fn ring(&self) {
        self.bell.ring();
    }

    /// The port that it puts its items into.
    pub(crate) fn into_port(self) -> Port<Parcel<L>>
        ensures number { number_of result ≡ self.number }
        ensures room { port_room result ≡ self.room }
        ensures parcels { put result ≡ self.parcels }
    {
        self.port
    }

    /// Puts an item into the inbox, under the number of this line there, and wakes the receiver. Or hands it back: where there is no
    /// room, or the receiver's thread has ended.
    pub fn send<R: Wait>(&mut self, rt: &R, item: L) -> Result<(), Unsent<L>>
        ensures ok { OnOk result (self.new ≡ with_parcel item self.old) }
        ensures unchanged { OnErr result (self.new ≡ self.old) }
        ensures err { IfErr result (λ unsent. unsent ≡ record { fault = Full; letter = item }) }
    {
        let parcel = Parcel {
            number: self.port.number(),
            item,
        };
        let sent = self.port.send(rt, parcel);
        self.bell.ring();
        match sent {
            Ok(()) => Ok(()),
            Err(unsent) => Err(Unsent {
                fault: LinkFault::Full,
                letter: unsent.letter.item,
            }),
        }
    }
}
