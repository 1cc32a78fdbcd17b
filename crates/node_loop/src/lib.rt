//! One node's loop, without its thread: each turn sends what waits, takes one item from the inbox, and makes its step.
#![tactic(auto)]

mod courtesy;
mod desk;
mod edit;
mod fault;
mod gate;
mod item;
mod laws;
mod leaving;
mod node_loop;
mod numbers;
mod outgoing;
mod replies;
mod ring;
mod stepping;
mod tries;
mod waiting;

pub use edit::{Edit, Edition, Update};
pub use fault::TurnFault;
pub use gate::{Gate, OpenGate};
pub use item::{Item, Stamped, Task, Ticket};
pub use laws::{
    starts_keep_sound, threads_are_consistent, told_answers_are_logged, told_leaves_are_logged,
};
pub use node_core::NodeCore;
pub use node_log::{
    Answer, Call, ForgottenLog, LocalEvent, Log, NameList, NodeEnd, Nodes, Notice, NoticeList,
    Opening, Record, Reply, Retries, SeatEntry, StartFault, StepFault, Transcript, WorldEvent,
};
pub use node_loop::NodeLoop;
pub use numbers::Numbers;
pub use replies::{Effect, TaskFault, TaskReply};
