//! What a node's thread leaves behind: the log of its steps, and what its seats were answered.
#![tactic(auto)]

mod entry;
mod forgotten_log;
mod log;
mod node_end;
mod record;
mod transcript;

pub use entry::{LoggedEntry, LoggedEvent};
pub use forgotten_log::ForgottenLog;
pub use log::Log;
pub use node_end::NodeEnd;
pub use record::Record;
pub use transcript::{SeatEntry, Transcript};
pub use world_events::{
    Answer, Call, Cause, Letter, LocalEvent, NameList, Nodes, Notice, NoticeList, Opening, Reply,
    Retries, StartFault, StepFault, Turn, WorldEvent,
};
