//! Lines for locks: in which order lock calls that wait are put to their nodes.
#![tactic(auto)]

mod bell;
mod grants;
mod lines;
mod request;
mod waiting_calls;

pub use bell::Bell;
pub use grants::{Grant, Grants};
pub use lines::{LinePlace, LockLines};
pub use request::Request;
pub use waiting_calls::WaitingCalls;
