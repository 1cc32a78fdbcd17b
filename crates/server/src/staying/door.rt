//! The thread that takes connections.
ghost use Rattle.std.specs.Prelude.{◌≡◌, true, None};

use crate::listener::Listener;
use crate::staying::hall::Guest;
use crate::staying::notes::Note;
use crate::staying::office::Office;
use crate::staying::staff::Duty;
use crate::staying::stream::Stream;
use console::GreetFault;
use crossbeam_channel::Sender;
use libc::net::{POLLIN, poll};
use libc::types::pollfd;
use std::io::{ErrorKind, Read};
use std::net::Shutdown;
use std::sync::{Arc, Wait};
use std::thread;
use std::time::{Clock, Duration, Instant};
use term::NodeSet;
use text_lines::write_line;

/// How long it waits for a connection before it looks whether the server ends, in milliseconds.
const WAIT: i32 = 100;

/// How long a client that is turned away is listened to, in milliseconds.
const FAREWELL: u64 = 20;

/// How many seconds lie between two lines that tell that no connection could be taken.
const SILENCE: u64 = 60;

/// Takes connections, and hands each to a worker.
#[derive(Drop)]
pub(crate) struct Door<R: Wait + Clock + Drop + Copy> {
    pub(crate) office: Office<R>,
    pub(crate) listener: Listener,
    /// Where the workers take connections from.
    pub(crate) workers: Sender<Guest>,
}

/// Waits for a connection, for a while.
fn wait_at<R: Clock>(rt: &R, listener: &Listener) {
    let mut asked = [pollfd {
        fd: listener.fd(),
        events: POLLIN,
        revents: 0,
    }];
    if poll(&mut asked, WAIT) < 0 {
        rest(rt);
    }
}

/// Waits a while, where the system refuses what would be asked again at once.
fn rest<R: Clock>(rt: &R) {
    thread::sleep(rt, Duration::from_millis(100));
}

/// Tells a client that there is no place for it, and ends its connection, whether it hears this or not. What it has sent is read before: with
/// a connection that ends unread the system may take the answer back.
fn turn_away(stream: Stream) {
    let _ = write_line(&mut &stream, "error ", GreetFault::TooManyConsoles.word());
    let _ = stream.shutdown(Shutdown::Write);
    let _ = stream.set_read_timeout(Some(Duration::from_millis(FAREWELL)));
    let mut unread = [0u8; 1024];
    let _ = (&stream).read(&mut unread);
}

/// Whether no connection was there after all.
fn is_nothing(kind: ErrorKind) -> bool {
    matches!(
        kind,
        ErrorKind::WouldBlock | ErrorKind::ConnectionAborted | ErrorKind::Interrupted
    )
}

/// Whether it is time for the next line, if the last one was told then.
fn is_due<R: Clock>(rt: &R, told: &Option<Instant>) -> bool
    ensures { told.now ≡ None → result ≡ true }
{
    match (told, Instant::now(rt)) {
        (Some(last), Ok(now)) => now.saturating_duration_since(*last).as_secs() >= SILENCE,
        _ => true,
    }
}

impl<R: Wait + Clock + Drop + Copy> Duty for Door<R> {
    ghost served = { λ door. door.office.nodes };

    fn nodes(&self) -> &NodeSet {
        &self.office.nodes
    }

    /// Takes connections until the server ends. The listener is let go then, so whoever comes too late is told by the system.
    fn run(self) -> NodeSet {
        // Where this fails, a client that gives up too early may hold the door up until the next one comes.
        let _ = self.listener.take_at_once();
        let mut number = 0u64;
        let mut told = None;
        for _ in self.office.rt.forever() {
            if self.is_closing() {
                break;
            }
            wait_at(&self.office.rt, &self.listener);
            match self.listener.accept() {
                Ok(stream) => {
                    number = number.saturating_add(1);
                    self.let_in(number, stream);
                }
                Err(fault) if is_nothing(fault.kind()) => {}
                Err(_) => told = self.complain(told),
            }
        }
        self.office.nodes.copy()
    }
}

impl<R: Wait + Clock + Drop + Copy> Door<R> {
    /// Whether the server ends.
    fn is_closing(&self) -> bool {
        self.office.hall.lock(&self.office.rt).is_closing()
    }

    /// Hands a connection to a worker, or turns it away where none is free, or no further console may be attached.
    fn let_in(&self, number: u64, stream: Stream) {
        if self.office.hall.lock(&self.office.rt).engage() {
            self.hand_over(number, stream);
        } else {
            self.office.note(Note::TooMany);
            turn_away(stream);
        }
    }

    /// Hands a connection to the worker that is engaged for it. The worker is free again where that can't be.
    fn hand_over(&self, number: u64, stream: Stream) {
        let Ok(stream) = Arc::new(self.office.alloc, stream) else {
            self.office.hall.lock(&self.office.rt).release();
            self.office.note(Note::NotAttached(number));
            return;
        };
        let guest = Guest { number, stream };
        if self.workers.send(&self.office.rt, guest).is_err() {
            self.office.hall.lock(&self.office.rt).release();
        }
    }

    /// Tells that no connection could be taken, if it is time for that, and waits a while: when it told so last.
    fn complain(&self, told: Option<Instant>) -> Option<Instant> {
        let due = is_due(&self.office.rt, &told);
        if due {
            self.office.note(Note::AcceptFailed);
        }
        rest(&self.office.rt);
        if due {
            Instant::now(&self.office.rt).ok()
        } else {
            told
        }
    }
}
