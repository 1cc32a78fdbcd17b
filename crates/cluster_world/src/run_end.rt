//! What a run of events came to.
use world_events::{Answer, Refusal};

/// How far a list of events was played.
#[derive(Debug, Drop)]
pub struct RunEnd {
    /// How many events were played, from the first on.
    pub played: usize,
    /// All answers, in order.
    pub answers: Vec<Answer>,
    /// Why the next event was refused, if not all were played.
    pub refusal: Option<Refusal>,
}
