//! The watch of one node over its processes: who was spawned, who is dead, and whose names are owed a strike. It keeps the
//! dead as spans of serials, so they take memory for the gaps among them alone. A step costs no more for the processes that
//! died before it than a few look-ups of a span, but that a spawn passes over those ahead that a clash killed before they
//! were spawned.
#![tactic(auto)]

mod dead;
mod faults;
mod laws;
mod spans;
mod watch;

pub use dead::Dead;
pub use faults::WatchFault;
pub use laws::only_puts_are_noted;
pub use watch::Watch;
