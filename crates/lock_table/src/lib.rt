//! The lock table of one node. Each resource is under one requester, whose holders are counted.
#![tactic(auto)]

mod grant;
mod grants;
mod laws;
mod others;
mod sharers;
mod slots;
mod table;
mod verdict;

pub use laws::sound_tables_tell_who_holds;
pub use table::LockTable;
pub use verdict::Verdict;
