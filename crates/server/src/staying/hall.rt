//! What the door, the workers and the desk of a server have in common.
ghost use Rattle.std.specs.Prelude.{◌≡◌, ◌+◌, ◌-◌, ◌<◌, ◌≤◌, ◌^◌, ◌⊎◌, true, false, not, None, Some, set, replicate, if◌then◌else◌, IfOk, MatchBool};
ghost use Rattle.server.specs.Notes.{load_of};

use crate::staying::stream::Stream;
use console::Load;
use std::alloc::{AllocError, Global};
use std::net::Shutdown;
use std::sync::Arc;

/// A connection that its worker and the hall have in common, so that it takes one descriptor.
pub(crate) type Connection = Arc<Stream, Global>;

/// A connection that was taken, and its number among all that were.
#[derive(Drop)]
pub(crate) struct Guest {
    pub(crate) number: u64,
    pub(crate) stream: Connection,
}

/// How many workers are free, how many consoles are attached, and the connections of the workers that aren't free. It lies under a lock.
#[derive(Drop)]
pub(crate) struct Hall {
    /// The server ends.
    closing: bool,
    /// How many workers are free.
    free: u32,
    /// How many consoles may be attached at once.
    places: u32,
    /// How many are.
    attached: u32,
    /// The connection that each worker serves.
    handles: Vec<Option<Connection>>,
}

/// No handles, of so many workers.
fn no_handles(alloc: Global, workers: u32) -> Result<Vec<Option<Connection>>, AllocError>
    ensures { IfOk result (λ handles. handles.items ≡ replicate workers None) }
{
    let mut handles = Vec::new(alloc);
    for _ in 0..workers {
        handles.push(None)?;
    }
    Ok(handles)
}

/// A place has this handle, or none. Where there is no such place nothing is changed.
fn put(handles: &mut Vec<Option<Connection>>, worker: usize, handle: Option<Connection>)
    ensures { handles.new.items ≡ set handles.old.items worker handle }
{
    if worker < handles.len() {
        handles[worker] = handle;
    }
}

impl Hall {
    /// That of so many workers, which are free, and so many places for consoles that are attached.
    pub(crate) fn new(alloc: Global, workers: u32, places: u32) -> Result<Self, AllocError>
        ensures workers { IfOk result (λ hall. (hall.free ≡ workers) × (hall.closing ≡ false) × (hall.handles.items ≡ replicate workers None)) }
        ensures places { IfOk result (λ hall. (hall.places ≡ places) × (hall.attached ≡ 0)) }
    {
        let handles = no_handles(alloc, workers)?;
        Ok(Hall {
            closing: false,
            free: workers,
            places,
            attached: 0,
            handles,
        })
    }

    /// A worker is to take a connection, if one is free, and as long as one more console may be attached.
    pub(crate) fn engage(&mut self) -> bool
        ensures closing { self.new.closing ≡ self.old.closing }
        ensures free { MatchBool result ((self.old.free ≡ self.new.free + 1) × (self.old.attached < self.old.places))
            ((self.new.free ≡ self.old.free) × ((self.old.free ≡ 0) ⊎ (self.old.places ≤ self.old.attached))) }
        ensures attached { (self.new.places ≡ self.old.places) × (self.new.attached ≡ self.old.attached) }
        ensures handles { self.new.handles.items ≡ self.old.handles.items }
    {
        if self.is_full() {
            return false;
        }
        match self.free.checked_sub(1) {
            Some(free) => {
                self.free = free;
                true
            }
            None => false,
        }
    }

    /// Whether as many consoles are attached as may be.
    fn is_full(&self) -> bool
        ensures { MatchBool result (self.now.places ≤ self.now.attached) (self.now.attached < self.now.places) }
    {
        self.attached >= self.places
    }

    /// A console that a worker has greeted is attached, if one more may be.
    pub(crate) fn attach(&mut self) -> bool
        ensures closing { self.new.closing ≡ self.old.closing }
        ensures free { self.new.free ≡ self.old.free }
        ensures places { self.new.places ≡ self.old.places }
        ensures attached { MatchBool result ((self.old.attached < self.old.places) × (self.new.attached ≡ self.old.attached + 1))
            ((self.old.places ≤ self.old.attached) × (self.new.attached ≡ self.old.attached)) }
        ensures handles { self.new.handles.items ≡ self.old.handles.items }
    {
        if self.is_full() {
            return false;
        }
        self.attached += 1;
        true
    }

    /// A console that was attached has ended.
    pub(crate) fn detach(&mut self)
        ensures closing { self.new.closing ≡ self.old.closing }
        ensures free { self.new.free ≡ self.old.free }
        ensures attached { (self.new.places ≡ self.old.places) × (self.new.attached ≡ self.old.attached - 1) }
        ensures handles { self.new.handles.items ≡ self.old.handles.items }
    {
        self.attached = self.attached.saturating_sub(1);
    }

    /// What the server bears, whose process has so much memory.
    pub(crate) fn load(&self, memory: u64) -> Load
        ensures { result ≡ load_of self.now.attached memory }
    {
        Load {
            consoles: u64::from(self.attached),
            memory,
        }
    }

    /// The worker that was to take a connection is free again.
    pub(crate) fn release(&mut self)
        ensures closing { self.new.closing ≡ self.old.closing }
        ensures free { self.old.free + 1 < 2 ^ 32 → self.new.free ≡ self.old.free + 1 }
        ensures attached { (self.new.places ≡ self.old.places) × (self.new.attached ≡ self.old.attached) }
        ensures handles { self.new.handles.items ≡ self.old.handles.items }
    {
        self.free = self.free.saturating_add(1);
    }

    /// A worker begins to serve the connection of this handle. Not where the server ends.
    pub(crate) fn enter(&mut self, worker: usize, handle: Connection) -> bool
        ensures closing { self.new.closing ≡ self.old.closing }
        ensures free { self.new.free ≡ self.old.free }
        ensures entered { result ≡ not self.old.closing }
        ensures attached { (self.new.places ≡ self.old.places) × (self.new.attached ≡ self.old.attached) }
        ensures handles { self.new.handles.items ≡ if result then set self.old.handles.items worker (Some handle) else self.old.handles.items }
    {
        if self.closing {
            return false;
        }
        put(&mut self.handles, worker, Some(handle));
        true
    }

    /// A worker is free again.
    pub(crate) fn leave(&mut self, worker: usize)
        ensures closing { self.new.closing ≡ self.old.closing }
        ensures free { self.old.free + 1 < 2 ^ 32 → self.new.free ≡ self.old.free + 1 }
        ensures attached { (self.new.places ≡ self.old.places) × (self.new.attached ≡ self.old.attached) }
        ensures handles { self.new.handles.items ≡ set self.old.handles.items worker None }
    {
        put(&mut self.handles, worker, None);
        self.release();
    }

    /// Whether the server ends.
    pub(crate) fn is_closing(&self) -> bool
        ensures { result ≡ self.now.closing }
    {
        self.closing
    }

    /// The server ends: no connection is served any more, and those that are open have no further line.
    pub(crate) fn close(&mut self)
        ensures closing { self.new.closing ≡ true }
        ensures free { self.new.free ≡ self.old.free }
        ensures attached { (self.new.places ≡ self.old.places) × (self.new.attached ≡ self.old.attached) }
        ensures handles { self.new.handles.items ≡ self.old.handles.items }
    {
        self.closing = true;
        shut_all(self.handles.as_slice(), Shutdown::Read);
    }

    /// Ends the connections that are open still.
    pub(crate) fn cut(&self) {
        shut_all(self.handles.as_slice(), Shutdown::Both);
    }
}

/// Ends these connections in one or both directions. One that can't be ended so has ended already.
fn shut_all(handles: &[Option<Connection>], how: Shutdown) {
    for place in handles {
        if let Some(handle) = place {
            let _ = handle.shutdown(how);
        }
    }
}
