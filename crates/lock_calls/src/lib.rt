//! The unanswered lock calls of one node: whom each of them asks, how often it may begin anew, and where it stands. A
//! process has one at most. Finding, putting or taking the call of a process costs no more for the others' calls than a
//! look-up.
#![tactic(auto)]

mod call;
mod calls;
mod kept;

pub use call::{CallPhase, LockCall};
pub use calls::LockCalls;
