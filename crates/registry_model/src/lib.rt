//! One sequential registry of names: its entries, what each does, and which histories are legal.
//! The definitions stand in `specs/`; `histories` and `shared` have the laws that hold of them, and `limits` what they say of limits.
#![tactic(auto)]

pub mod histories;
pub mod limits;
pub mod shared;
