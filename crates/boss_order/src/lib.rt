//! The boss of a set of nodes: the greatest, which is asked first; and the rest.
#![tactic(auto)]

mod order;

pub use order::{boss, rest};
