//! Clients at the other end of a console, and a house for it.
ghost use Rattle.std.specs.Prelude.{◌≡◌, IfErr, IfOk};
ghost use Rattle.console.specs.Callers.{IsEnd};

use console::{Client, House, Load, Peer};
use descriptions::SharedDescriptions;
use lock_lines::LockLines;
use node_threads::{ForgottenNotes, Seat, SeatFault};
use std::alloc::Global;
use std::sync::atomic::{AtomicU32, Ordering};
use std::sync::{Arc, Mutex, Wait};
use term::Node;

/// A client that listens.
#[derive(Drop)]
pub(super) struct Listener;

impl Client for Listener {
    fn peer(&self) -> Peer {
        Peer::Listens
    }
}

/// A seat that keeps no transcript.
pub(super) type ForgetfulSeat = Seat<ForgottenNotes>;

/// A server of five consoles, which lends one seat.
#[derive(Drop)]
pub(super) struct Home {
    lines: LockLines,
    descriptions: SharedDescriptions,
    seat: Mutex<Option<ForgetfulSeat>>,
}

impl Home {
    /// One that lends this seat.
    pub(super) fn new(alloc: Global, seat: ForgetfulSeat) -> Self {
        Home {
            lines: LockLines::new(alloc),
            descriptions: SharedDescriptions::new(alloc),
            seat: Mutex::new(Some(seat)),
        }
    }

    /// The seat, unless it is lent.
    pub(super) fn take_seat<H: Wait>(&self, rt: &H) -> Option<ForgetfulSeat> {
        self.seat.lock(rt).take()
    }

    /// The seat, if it is one of this node.
    fn seat_of<H: Wait>(&self, rt: &H, node: &Node) -> Result<ForgetfulSeat, SeatFault>
        ensures node { IfOk result (λ seat. seat.node ≡ node.now) }
        ensures none { IfErr result IsEnd }
    {
        match self.take_seat(rt) {
            Some(seat) if *seat.node() == *node => Ok(seat),
            _ => Err(SeatFault::Closed),
        }
    }
}

impl<H: Wait> House<H> for Home {
    ghost use Rattle.std.specs.Prelude.{⊤};

    ghost bears = { λ _ _. ⊤ };

    fn load(&self, _rt: &H) -> Load {
        Load {
            consoles: 5,
            memory: 14_680_064,
        }
    }

    fn lines(&self) -> &LockLines {
        &self.lines
    }

    fn descriptions(&self) -> &SharedDescriptions {
        &self.descriptions
    }

    fn lend(&self, rt: &H, node: &Node) -> Result<ForgetfulSeat, SeatFault> {
        self.seat_of(rt, node)
    }

    fn take_back(&self, rt: &H, seat: ForgetfulSeat) {
        *self.seat.lock(rt) = Some(seat);
    }
}

/// A client that has ended its input, and goes. It counts how often somebody looks how it stands.
#[derive(Drop)]
pub(super) struct Leaver {
    pub(super) looks: Arc<AtomicU32, Global>,
    /// How often it is found to be there, before it is gone.
    pub(super) stays: u32,
}

impl Client for Leaver {
    fn peer(&self) -> Peer {
        let look = self.looks.fetch_add(1, Ordering::SeqCst);
        if look < self.stays {
            Peer::InputEnded
        } else {
            Peer::Gone
        }
    }
}
