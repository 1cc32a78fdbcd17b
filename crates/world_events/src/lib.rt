//! What may happen in a world, why it is refused, and how a world opens.
#![tactic(auto)]

mod events;
mod opening;
mod refusal;

pub use events::{LocalEvent, WorldEvent};
pub use node_events::{
    Answer, Call, Cause, Entry, Letter, Look, NameList, Notice, NoticeList, Reply, StepFault, Turn,
};
pub use opening::{Opening, StartFault};
pub use refusal::Refusal;
pub use transaction::{NameCall, Nodes, Retries};
