//! By which step a console was granted a lock last.
ghost use Rattle.std.specs.Prelude.{◌≡◌, IfOk, string_bytes};
ghost use Rattle.console.specs.Fences.{fence_outcome, fence_text};

use crate::status::Status;
use command_lines::refusal_line;
use node_seats::SeatFault;
use std::alloc::{AllocError, Global};

/// The line of a number, or of there being none.
fn number_line(alloc: Global, fence: Option<u128>) -> Result<String, AllocError>
    ensures { IfOk result (λ line. string_bytes line ≡ fence_text fence) }
{
    match fence {
        Some(number) => format!(in alloc; "fence {number}\n"),
        None => String::from_str(alloc, "error no_grant\n"),
    }
}

/// The line of the number that is told with how things stand, or of a refusal.
pub(crate) fn fence_line(
    alloc: Global,
    outcome: Result<Status, SeatFault>,
) -> Result<String, AllocError>
    ensures { IfOk result (λ line. string_bytes line ≡ fence_outcome outcome) }
{
    match outcome {
        Ok(status) => number_line(alloc, status.fence),
        Err(fault) => refusal_line(alloc, fault.word()),
    }
}
