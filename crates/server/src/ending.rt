//! The line that tells how a cluster closed, or ended.
ghost use Rattle.std.specs.Prelude.{◌≡◌, IfOk, string_bytes};
ghost use Rattle.console.specs.Printing.{error_line};
ghost use Rattle.server.specs.Ending.{closed_line as closed_line_of, ending_line as line_of, fault_text};
ghost use Rattle.server.specs.Staying.{end_line as end_line_of, end_text};

use name_table::Names;
use node_threads::{CloseFault, Closed, EndFault, EndedCluster};
use std::alloc::{AllocError, Global};

/// The line of so many events.
fn closed_line(alloc: Global, events: u64) -> Result<String, AllocError>
    ensures { IfOk result (λ line. string_bytes line ≡ closed_line_of events) }
{
    format!(in alloc; "closed {events}\n")
}

/// The line of a fault with these words.
fn fault_line(alloc: Global, words: &str) -> Result<String, AllocError>
    ensures { IfOk result (λ line. string_bytes line ≡ error_line words.now) }
{
    format!(in alloc; "error {words}\n")
}

/// The words for which a run isn't one of the world's.
fn fault_words(alloc: Global, fault: &CloseFault) -> Result<String, AllocError>
    ensures { IfOk result (λ words. string_bytes words ≡ fault_text fault.now) }
{
    match fault {
        CloseFault::Torn { node, at } => format!(in alloc; "torn {node} {at}"),
        CloseFault::LeftInHold(node) => format!(in alloc; "left_in_hold {node}"),
        CloseFault::Stranger(seat) => format!(in alloc; "stranger {seat}"),
        CloseFault::Memory => String::from_str(alloc, "memory"),
    }
}

/// The line that tells what closing a cluster came to.
pub(crate) fn ending_line<N: Names>(
    alloc: Global,
    ending: &Result<Closed<N>, CloseFault>,
) -> Result<String, AllocError>
    ensures { IfOk result (λ line. string_bytes line ≡ line_of ending.now) }
{
    match ending {
        Ok(closed) => closed_line(alloc, closed.events),
        Err(fault) => fault_line(alloc, fault_words(alloc, fault)?.as_str()),
    }
}

/// The words for which it isn't told what a cluster came to.
fn end_words(alloc: Global, fault: &EndFault) -> Result<String, AllocError>
    ensures { IfOk result (λ words. string_bytes words ≡ end_text fault.now) }
{
    match fault {
        EndFault::LeftInHold(node) => format!(in alloc; "left_in_hold {node}"),
        EndFault::Memory => String::from_str(alloc, "memory"),
    }
}

/// The line that tells what ending a cluster came to.
pub(crate) fn end_line<N: Names>(
    alloc: Global,
    ending: &Result<EndedCluster<N>, EndFault>,
) -> Result<String, AllocError>
    ensures { IfOk result (λ line. string_bytes line ≡ end_line_of ending.now) }
{
    match ending {
        Ok(ended) => closed_line(alloc, ended.events),
        Err(fault) => fault_line(alloc, end_words(alloc, fault)?.as_str()),
    }
}
