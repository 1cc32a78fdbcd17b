//! A node's end of lines: its letters come in as numbered lines, and go out as such.
#![tactic(auto)]

mod faults;
mod laws;
mod line;
mod orders;
mod saying;
mod sending;
#[cfg(test)]
mod tests;
mod wire;
mod wire_end;

pub use faults::HearFault;
pub use laws::{
    ends_deal, ends_deal_among, ends_have_a_run, ends_keep_their_own, ends_stay_among,
    ends_stay_in_order, lines_are_printed, named_ends_have_a_run,
};
pub use letter_lines::{Letter, LetterFault, Part};
pub use line::LinkLine;
pub use link::{Inbox, Post};
pub use node_loop::{Item, LocalEvent, Stamped, Task};
pub use wire_end::{WireEnd, Wiring};
