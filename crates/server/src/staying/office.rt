//! What the threads of a server that stays work with.
use crate::staying::desk::Message;
use crate::staying::hall::{Guest, Hall};
use crate::staying::notes::Note;
use crate::staying::options::StayOptions;
use crate::staying::seats::{ForgetfulSeat, Seats};
use console::{House, Load};
use crossbeam_channel::{Receiver, Sender};
use descriptions::SharedDescriptions;
use lock_lines::LockLines;
use node_threads::SeatFault;
use std::alloc::{AllocError, Global};
use std::sync::atomic::{AtomicU64, Ordering};
use std::sync::{Arc, Mutex, Wait};
use term::{Node, NodeSet};

/// What each thread of a server works with.
#[derive(Drop)]
pub(crate) struct Office<R: Wait + Drop + Copy> {
    pub(crate) rt: R,
    pub(crate) alloc: Global,
    /// The names of the nodes to which consoles may be attached.
    pub(crate) nodes: NodeSet,
    pub(crate) options: Arc<StayOptions, Global>,
    pub(crate) hall: Arc<Mutex<Hall>, Global>,
    /// How many bytes of memory the process has, as the desk has seen last.
    pub(crate) memory: Arc<AtomicU64, Global>,
    /// The lines in which lock calls wait, over all nodes.
    pub(crate) lines: Arc<LockLines, Global>,
    /// What is said of processes, over all nodes.
    pub(crate) descriptions: Arc<SharedDescriptions, Global>,
    /// The seats that are lent to consoles.
    pub(crate) seats: Arc<Seats, Global>,
    /// Connections that wait for the worker that was engaged for them.
    pub(crate) guests: Receiver<Guest>,
    pub(crate) desk: Sender<Message>,
}

impl<R: Wait + Drop + Copy> Office<R> {
    ghost use Rattle.std.specs.Prelude.{◌≡◌, IfOk};

    /// The same, for another thread.
    pub(crate) fn copy(&self) -> Result<Self, AllocError>
        ensures { IfOk result (λ copy. (copy.nodes ≡ self.now.nodes) × (copy.options.value ≡ self.now.options.value)) }
    {
        let options = Arc::try_clone(&self.options)?;
        let hall = Arc::try_clone(&self.hall)?;
        let memory = Arc::try_clone(&self.memory)?;
        let lines = Arc::try_clone(&self.lines)?;
        let descriptions = Arc::try_clone(&self.descriptions)?;
        let seats = Arc::try_clone(&self.seats)?;
        let guests = self.guests.clone()?;
        let desk = self.desk.clone()?;
        Ok(Office {
            rt: self.rt,
            alloc: self.alloc,
            nodes: self.nodes.copy(),
            options,
            hall,
            memory,
            lines,
            descriptions,
            seats,
            guests,
            desk,
        })
    }

    /// Says this to the desk, which listens for as long as there are threads. It waits while many messages are unread.
    pub(crate) fn say(&self, message: Message) {
        let _ = self.desk.send(&self.rt, message);
    }

    /// Whether a console that was greeted is attached: not where as many are as may be.
    pub(crate) fn attach(&self) -> bool {
        self.hall.lock(&self.rt).attach()
    }

    /// A console that was attached has ended.
    pub(crate) fn detach(&self) {
        self.hall.lock(&self.rt).detach();
    }

    /// Tells the desk what happened.
    pub(crate) fn note(&self, note: Note) {
        self.say(Message::Tell(note));
    }
}

impl<R: Wait + Drop + Copy> House<R> for Office<R> {
    ghost use Rattle.std.specs.Prelude.{⊤};

    // No clause says what lies under a lock, nor what an atomic number is.
    ghost bears = { λ _ _. ⊤ };

    fn load(&self, rt: &R) -> Load {
        let memory = self.memory.load(Ordering::SeqCst);
        self.hall.lock(rt).load(memory)
    }

    fn lines(&self) -> &LockLines {
        &self.lines
    }

    fn descriptions(&self) -> &SharedDescriptions {
        &self.descriptions
    }

    fn lend(&self, rt: &R, node: &Node) -> Result<ForgetfulSeat, SeatFault> {
        self.seats.lend(rt, node)
    }

    fn take_back(&self, rt: &R, seat: ForgetfulSeat) {
        self.seats.take_back(rt, seat);
    }
}
