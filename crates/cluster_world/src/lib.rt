//! The world: up to eight nodes with their links, which plays events one by one, in every order of deliveries.
#![tactic(auto)]

mod admission;
mod history;
pub mod laws;
mod mail;
mod run_end;
mod seat;
mod settle;
mod start;
mod turns;
mod world;

pub use node_core::NodeCore;
pub use run_end::RunEnd;
pub use seat::{WorldSeat, WorldSeatFault};
pub use settle::Interrupted;
pub use world::World;
pub use world_events::{
    Answer, Call, Letter, LocalEvent, Look, NameCall, NameList, Nodes, Notice, NoticeList, Opening,
    Refusal, Reply, Retries, StartFault, StepFault, WorldEvent,
};
pub use world_history::{HistoryEntry, KeptEntry};
