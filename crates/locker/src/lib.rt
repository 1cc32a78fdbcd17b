//! A lock round: one node asks a set of nodes for a grant, the boss of the set first, and then the rest at once.
#![tactic(auto)]

mod ending;
mod laws;
mod mark;
mod round;

pub use ending::Ending;
pub use laws::held_is_granted;
pub use round::Round;
