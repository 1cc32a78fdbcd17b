//! Plays the logs of closed nodes on a world: a run of threads that is played to its end was one of the world's.
#![tactic(auto)]

mod closed;
mod equal;
mod faults;
mod merge;
mod player;
mod run;
mod tables;
mod transcripts;

pub use closed::Closed;
pub use cluster_world::{HistoryEntry, KeptEntry, World};
pub use faults::CloseFault;
pub use node_log::{
    Answer, Call, LocalEvent, Log, NodeEnd, Reply, SeatEntry, Transcript, WorldEvent,
};
pub use run::replay;
