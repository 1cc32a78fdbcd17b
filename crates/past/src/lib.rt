//! What has been, for proofs alone: a list in a type without bytes. No body could set it by itself, so its methods are proved by hand.
#![tactic(auto)]

mod trace;

pub use trace::Trace;
