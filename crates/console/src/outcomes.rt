//! What an answer is printed as.
ghost use Rattle.std.specs.Prelude.{◌≡◌, IfOk, string_bytes};
ghost use Rattle.console.specs.Outcomes.{outcome_text};

use command_lines::{Answer, Reply, answer_line, refusal_line};
use node_seats::SeatFault;
use std::alloc::{AllocError, Global};
use term::Node;

/// The line of a reply by this node, or of a refusal. A reply has no number here: who asks has one call at a time.
pub(crate) fn outcome_line(
    alloc: Global,
    node: &Node,
    outcome: Result<Reply, SeatFault>,
) -> Result<String, AllocError>
    ensures { IfOk result (λ line. string_bytes line ≡ outcome_text outcome) }
{
    match outcome {
        Ok(reply) => {
            let node = node.copy();
            answer_line(
                alloc,
                &Answer {
                    node,
                    call: 0,
                    reply,
                },
            )
        }
        Err(fault) => refusal_line(alloc, fault.word()),
    }
}
