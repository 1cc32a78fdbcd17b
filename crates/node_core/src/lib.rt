//! One node of a cluster: what it holds, and the step that it takes with each letter, call, exit, retry and leave.
#![tactic(auto)]

mod node;

pub use node::NodeCore;
pub use node_events::{
    Answer, Call, Cause, Entry, Event, Letter, Look, NameList, Notice, NoticeList, Reply,
    StepFault, Turn,
};
pub use transaction::{NameCall, Nodes, Op, Retries};
