//! What is printed where a name can't come back. That it was the last node of its name is reached by no script.
use command_lines::{Refusal, refusal_line};
use std::alloc::Global;
use std::fmt::Write;
use std::test::Fail;
use term::{Node, parse_node_name};

/// Whether this line is printed for a refusal, whose word stands in it.
fn prints(alloc: Global, refusal: &Refusal, line: &str) -> bool {
    let mut text = String::new(alloc);
    let written = write!(text, "error {refusal}\n");
    let Ok(printed) = refusal_line(alloc, refusal.word()) else {
        return false;
    };
    written.is_ok() & (printed.as_str() == line) & (text.as_str() == line)
}

#[test]
fn refusals_of_a_restart_are_told(rt: HostRuntime) -> Result<(), Fail> {
    let untold = Refusal::NotToldYet(Node::first(parse_node_name("b")?));
    assert!(rt; prints(rt.alloc(), &untold, "error not_told_yet\n"));
    assert!(rt; prints(rt.alloc(), &Refusal::StillRunning, "error still_running\n"));
    assert!(rt;
        prints(
            rt.alloc(),
            &Refusal::CreationsSpent,
            "error creations_spent\n"
        )
    );
    Ok(())
}
