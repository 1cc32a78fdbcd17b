//! The words for faults that no console meets at a running cluster.
use crate::clerks::{Clerk, is_answered};
use console::ConsoleEnd;
use server::{SeatFault, StepFault};
use std::alloc::Global;

/// Whether a line that is refused for the fault is answered so, and the console goes on.
fn is_told(alloc: Global, fault: SeatFault, text: &[u8]) -> bool {
    match Clerk::new(alloc) {
        Some(mut clerk) => {
            clerk.fault = Some(fault);
            let lines = b"spawn\nspawn\n".as_slice();
            is_answered(alloc, &mut clerk, false, lines, text, ConsoleEnd::Input)
        }
        None => false,
    }
}

/// Whether it is so for what a node refuses.
fn is_told_of_node(alloc: Global, fault: StepFault, text: &[u8]) -> bool {
    is_told(alloc, SeatFault::Step(fault), text)
}

#[test]
fn faults_are_told(rt: HostRuntime) {
    let alloc = rt.alloc();
    assert!(rt; is_told(alloc, SeatFault::Closed, b"error closed\na.1\n"));
    assert!(rt; is_told(alloc, SeatFault::SeatsSpent, b"error seats_spent\na.1\n"));
    assert!(rt; is_told(alloc, SeatFault::Memory, b"error memory\na.1\n"));
    assert!(rt;
        is_told_of_node(
            alloc,
            StepFault::SerialsSpent,
            b"error serials_spent\na.1\n"
        )
    );
    assert!(rt; is_told_of_node(alloc, StepFault::CallsSpent, b"error calls_spent\na.1\n"));
    assert!(rt;
        is_told_of_node(
            alloc,
            StepFault::NothingToRetry,
            b"error nothing_to_retry\na.1\n"
        )
    );
    assert!(rt; is_told_of_node(alloc, StepFault::HoldsLock, b"error holds_lock\na.1\n"));
    assert!(rt; is_told_of_node(alloc, StepFault::Memory, b"error memory\na.1\n"));
}
