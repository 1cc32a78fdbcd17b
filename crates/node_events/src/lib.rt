//! What may happen at a node, what it says to other nodes, what it answers, and what it enters into the history.
#![tactic(auto)]

mod cause;
mod events;
mod name_list;
mod notice_list;
mod turn;

pub use cause::Cause;
pub use events::{Answer, Call, Entry, Event, Letter, Look, Reply, StepFault};
pub use exchange::Notice;
pub use name_list::NameList;
pub use name_table::copied_pairs;
pub use notice_list::NoticeList;
pub use turn::Turn;
