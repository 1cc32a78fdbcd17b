//! What is told of processes that are described.
ghost use Rattle.std.specs.Prelude.{◌≡◌, ◌++◌, IfOk, OnOk, Some, string_bytes};
ghost use Rattle.console.specs.Describing.{behind_process, describe_text, describe_word, description_text, found_in as process_found_in, found_text, look_up_text};

use crate::outcomes::outcome_line;
use command_lines::{Reply, refusal_line};
use descriptions::Description;
use node_seats::SeatFault;
use std::alloc::{AllocError, Global};
use std::fmt::Write as _;
use term::{Node, Pid};

/// Why nothing is said of a process.
#[derive(Debug, PartialEq, Eq, Drop)]
pub enum DescribeFault {
    /// It isn't a process of the console's node, or that answers nobody, or there is no memory.
    Seat(SeatFault),
    /// As many others are described as may be.
    TooMany,
}

impl DescribeFault {
    /// The word for it.
    fn word(&self) -> &'static str
        ensures { result.now ≡ describe_word self.now }
    {
        match self {
            DescribeFault::Seat(fault) => fault.word(),
            DescribeFault::TooMany => "too_many_descriptions",
        }
    }
}

/// The line that tells whether something is said of a process.
pub(crate) fn describe_line(
    alloc: Global,
    outcome: &Result<(), DescribeFault>,
) -> Result<String, AllocError>
    ensures { IfOk result (λ line. string_bytes line ≡ describe_text outcome.now) }
{
    match outcome {
        Ok(()) => String::from_str(alloc, "ok\n"),
        Err(fault) => refusal_line(alloc, fault.word()),
    }
}

/// The line that tells what was said.
fn said_line(alloc: Global, said: &Description) -> Result<String, AllocError>
    ensures { IfOk result (λ line. string_bytes line ≡ description_text (Some said.now)) }
{
    let text = said.as_str();
    format!(in alloc; "description {text}\n")
}

/// The line that tells what was said, if anything was.
pub(crate) fn description_line(
    alloc: Global,
    said: Option<Description>,
) -> Result<String, AllocError>
    ensures { IfOk result (λ line. string_bytes line ≡ description_text said) }
{
    match said {
        Some(said) => said_line(alloc, &said),
        None => String::from_str(alloc, "undefined\n"),
    }
}

/// Puts behind a process what was said of it, if anything was.
fn push_said(text: &mut String, said: &Option<Description>) -> Result<(), AllocError>
    ensures { OnOk result (string_bytes text.new ≡ string_bytes text.old ++ behind_process said.now) }
{
    if let Some(said) = said {
        text.push(' ')?;
        text.push_str(said.as_str())?;
    }
    Ok(())
}

/// The line of a process that was found, and of what was said of it.
fn found_line(alloc: Global, process: &Pid, said: Option<Description>) -> Result<String, AllocError>
    ensures { IfOk result (λ line. string_bytes line ≡ found_text process.now said) }
{
    let mut line = String::new(alloc);
    write!(line, "{process}")?;
    push_said(&mut line, &said)?;
    line.push('\n')?;
    Ok(line)
}

/// The process that a look-up found, if it found one.
fn found_in(outcome: &Result<Reply, SeatFault>) -> Option<Pid>
    ensures { result ≡ process_found_in outcome.now }
{
    match outcome {
        Ok(Reply::Pid(process)) => Some(process.copy()),
        _ => None,
    }
}

/// The line of what a look-up came to, and of what was said of the process that it found.
pub(crate) fn look_up_line(
    alloc: Global,
    node: &Node,
    outcome: Result<Reply, SeatFault>,
    said: Option<Description>,
) -> Result<String, AllocError>
    ensures { IfOk result (λ line. string_bytes line ≡ look_up_text outcome said) }
{
    match found_in(&outcome) {
        Some(process) => found_line(alloc, &process, said),
        None => outcome_line(alloc, node, outcome),
    }
}
