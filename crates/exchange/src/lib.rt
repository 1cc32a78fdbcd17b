//! The joins of lone nodes: whose names stand in the cluster afterwards, who dies and who is sent what (`settle`), and what the
//! sponsor says of that to the members (`Admission`) and to the joiner (`Welcome`). Beside them what the processes of a
//! node were sent so far (`NoticeLists`).
#![tactic(auto)]

mod bodies;
mod lists;
mod notices;
mod settled;

pub use bodies::{Admission, Welcome, admit_of, welcome_of};
pub use lists::NoticeLists;
pub use notices::{Noted, Notice, copied_notices};
pub use settled::{Settled, settle};
