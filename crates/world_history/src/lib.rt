//! The history of a world, kept in little memory.
#![tactic(auto)]

mod entered;
mod entry;
mod history;
mod keeper;
mod kept;
mod kept_name;
mod kept_names;

pub use entry::HistoryEntry;
pub use history::History;
pub use kept::KeptEntry;
