//! What wakes who waits for a lock.
use std::sync::Wait;
use std::sync::atomic::{AtomicBool, Ordering};
use std::thread::Parker;
use std::time::Duration;

/// Wakes who waits for a lock: until the turn of the call has come, since that may be so, and from then on, since the lock may be free.
#[derive(Drop)]
pub struct Bell {
    parker: Parker,
    /// The turn of the call has come.
    is_called: AtomicBool,
    /// The lock may have become free.
    is_freed: AtomicBool,
}

impl Bell {
    /// That of a call whose turn hasn't come.
    pub fn new() -> Self {
        Bell {
            parker: Parker::new(),
            is_called: AtomicBool::new(false),
            is_freed: AtomicBool::new(false),
        }
    }

    /// The turn of the call has come, as who waits has seen.
    pub(crate) fn call(&self) {
        self.is_called.store(true, Ordering::SeqCst);
    }

    /// Wakes who waits for a turn. Who has seen that it has come sleeps on.
    pub(crate) fn ring(&self) {
        if !self.is_called.load(Ordering::SeqCst) {
            self.parker.unpark();
        }
    }

    /// Wakes who waits for the lock, since it may be free. Whose turn hasn't come sleeps on: it looks for itself when that has come.
    pub(crate) fn tell_free(&self) {
        if self.is_called.load(Ordering::SeqCst) {
            self.is_freed.store(true, Ordering::SeqCst);
            self.parker.unpark();
        }
    }

    /// Whether the lock may have become free since this was asked last.
    pub(crate) fn was_freed(&self) -> bool {
        self.is_freed.swap(false, Ordering::SeqCst)
    }

    /// Sleeps for so many milliseconds at most, until it is woken. One thread at a time may sleep on it.
    pub(crate) fn sleep<R: Wait>(&self, rt: &R, millis: u64) {
        self.parker.park_timeout(rt, Duration::from_millis(millis));
    }
}
