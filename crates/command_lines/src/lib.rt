//! The lines of scripts and consoles: what their words ask for, and what is printed for them.
#![tactic(auto)]

mod commands;
mod faults;
mod grammar;
mod lock_texts;
mod printing;
mod refusing;
mod short_lines;

pub use commands::{ran_out, read_command, text_of};
pub use faults::LineFault;
pub use grammar::{LineCommand, read_words};
pub use lock_texts::{parse_retries, parse_target};
pub use name_table::Pair;
pub use printing::{answer_line, members_line, started_line, table_line};
pub use refusing::{refusal_line, write_refusal};
pub use short_lines::{ShortLine, put_answer};
pub use world_events::{
    Answer, Call, LocalEvent, Notice, NoticeList, Refusal, Reply, StartFault, StepFault, WorldEvent,
};
