//! The protocol of the nodes and of their world as rules, and what is claimed of it.
//! The definitions stand in `specs/`.
#![tactic(auto)]

pub mod rows;
pub mod shared;
