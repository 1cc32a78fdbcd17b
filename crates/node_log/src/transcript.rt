//! What a seat was answered.
use term::Node;
use world_events::{Answer, WorldEvent};

/// One event of a seat that was accepted, and the answer to it, if it is a call.
#[derive(Debug, Drop)]
pub struct SeatEntry {
    /// The event, at the seat's node.
    pub event: WorldEvent,
    /// The answer to a call. An exit and a leave have none.
    pub answer: Option<Answer>,
}

/// What a seat was answered, the oldest first.
#[derive(Debug, Drop)]
pub struct Transcript {
    /// The number of the seat; seats are numbered from 0 on as they are made.
    pub seat: u32,
    /// The node of the seat.
    pub node: Node,
    /// The events that were answered.
    pub entries: Vec<SeatEntry>,
}
