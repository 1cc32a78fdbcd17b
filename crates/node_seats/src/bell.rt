//! How a thread sleeps while it finds nothing to do, and how others wake it.
ghost use Rattle.std.specs.Prelude.{◌≡◌, IfOk};

use std::alloc::{AllocError, Global};
use std::sync::{Arc, Wait};
use std::thread;
use std::thread::Parker;
use std::time::{Clock, Duration, Instant};

/// How long the yields of a thread take together, in microseconds, before it sleeps: longer than a registration does where no
/// other waits, and shorter than one that waits for rivals. Those want the cores.
const LONGEST_WATCH: u64 = 200;

/// How long a thread sleeps at most, in microseconds. A ring ends a sleep; this is the net below it.
const NET: u64 = 100_000;

/// How long a thread sleeps, in microseconds, that is to try something again: nobody rings when an inbox gets room.
const NAP: u64 = 50;

/// How many such naps it takes, one after another, until they get longer.
const NAPS: u32 = 128;

/// How long it sleeps then, in microseconds: what it is to try may not be had for long, and what frees it mostly rings.
const LONG_NAP: u64 = 1_000;

/// A yield that takes longer, in microseconds, gave the core to somebody else than the threads of a cluster.
const LONG_YIELD: u64 = 200;

/// For so many sleeps a thread yields no more after a long yield, if it had none lately.
const FEWEST_WARY_SLEEPS: u32 = 16;

/// For so many at most, where one long yield follows another.
const MOST_WARY_SLEEPS: u32 = 8_192;

/// Wakes one thread. Who sends to it has a bell of it.
#[derive(Drop)]
pub(crate) struct Bell {
    parker: Arc<Parker, Global>,
}

/// The other side of bells, which the thread itself has.
#[derive(Drop)]
pub(crate) struct Rest {
    parker: Arc<Parker, Global>,
    /// How often the thread yields at most before it sleeps, where one turn after another finds nothing.
    yields: u32,
    /// How often it has since the last turn that found something.
    yielded: u32,
    /// How long these yields took.
    watched: Duration,
    /// How often it has slept since then.
    slept: u32,
    /// For how many sleeps it yields no more, since a yield took long.
    wary: u32,
    /// For how many it won't after the next long yield.
    caution: u32,
}

impl Bell {
    /// A bell of a thread that is yet to start.
    pub(crate) fn new(alloc: Global) -> Result<Bell, AllocError> {
        Ok(Bell {
            parker: Arc::new(alloc, Parker::new())?,
        })
    }

    /// Wakes the thread. Call it after an item is put or a flag is set.
    pub(crate) fn ring(&self) {
        self.parker.unpark();
    }

    /// The rest that it ends, of a thread that yields so often before it sleeps. One thread at a time may rest on it.
    pub(crate) fn rest(&self, yields: u32) -> Result<Rest, AllocError>
        ensures { IfOk result (λ rest. rest.yields ≡ yields) }
    {
        Ok(Rest {
            parker: Arc::try_clone(&self.parker)?,
            yields,
            yielded: 0,
            watched: Duration::ZERO,
            slept: 0,
            wary: 0,
            caution: FEWEST_WARY_SLEEPS,
        })
    }

    /// One more bell of the same thread.
    pub(crate) fn another(&self) -> Result<Bell, AllocError> {
        Ok(Bell {
            parker: Arc::try_clone(&self.parker)?,
        })
    }
}

impl Rest {
    /// Call it after a turn that found something.
    pub(crate) fn worked(&mut self)
        ensures { self.new.yields ≡ self.old.yields }
    {
        self.yielded = 0;
        self.watched = Duration::ZERO;
        self.slept = 0;
    }

    /// A yield took long: none is made for a while, and for four times as long after the next one.
    fn grow_wary(&mut self)
        ensures { self.new.yields ≡ self.old.yields }
    {
        self.wary = self.caution;
        self.caution = self.caution.saturating_mul(4).min(MOST_WARY_SLEEPS);
    }

    /// A yield took no time: what a long one taught is forgotten little by little.
    fn calm_down(&mut self)
        ensures { self.new.yields ≡ self.old.yields }
    {
        self.caution = self.caution.saturating_sub(1).max(FEWEST_WARY_SLEEPS);
    }

    /// Yields the core. Where others than the cluster's threads want the cores, a yield gives one away for milliseconds, while a
    /// thread that sleeps is woken at once: so a long one is the last for a while.
    fn pause<C: Clock>(&mut self, clock: &C)
        ensures { self.new.yields ≡ self.old.yields }
    {
        self.yielded = self.yielded.saturating_add(1);
        let start = Instant::now(clock);
        thread::yield_now();
        let Ok(start) = start else {
            return;
        };
        let Ok(taken) = start.elapsed(clock) else {
            return;
        };
        self.watched = self.watched.saturating_add(taken);
        if taken > Duration::from_micros(LONG_YIELD) {
            self.grow_wary();
        } else {
            self.calm_down();
        }
    }

    /// Whether the thread yields once more and doesn't sleep yet.
    fn is_watching(&self) -> bool {
        let longest = Duration::from_micros(LONGEST_WATCH);
        self.wary == 0 && self.yielded < self.yields && self.watched <= longest
    }

    /// How long a thread naps, in microseconds, that is to try something again.
    fn nap(&self) -> u64 {
        if self.slept <= NAPS { NAP } else { LONG_NAP }
    }

    /// Call it after a turn that found nothing, and then look at everything again, since it may return for no reason. `owes`
    /// says that something is to be tried again.
    pub(crate) fn rest<R: Wait + Clock>(&mut self, rt: &R, owes: bool)
        ensures { self.new.yields ≡ self.old.yields }
    {
        if self.is_watching() {
            return self.pause(rt);
        }
        self.wary = self.wary.saturating_sub(1);
        self.slept = self.slept.saturating_add(1);
        let micros = if owes { self.nap() } else { NET };
        self.parker.park_timeout(rt, Duration::from_micros(micros));
    }
}
