//! What is said of processes, as a server keeps it.
use descriptions::{Description, Descriptions};
use term::{Pid, parse_pid};

/// Whether this can be said of a process.
fn says(said: &mut Descriptions, process: &Pid, text: &str) -> bool {
    match Description::parse(text) {
        Ok(text) => said.set(process.copy(), text).is_ok(),
        Err(_) => false,
    }
}

/// Whether this was said of a process; an empty text where nothing was.
fn tells(said: &Descriptions, process: &Pid, text: &str) -> bool {
    match said.get(process) {
        Some(found) => found.as_str() == text,
        None => text.is_empty(),
    }
}

/// Whether what was said of two processes is told, until one of them is dead and the node of the other has left.
fn is_told(said: &mut Descriptions, one: &Pid, other: &Pid) -> bool {
    let before = tells(said, one, "") && says(said, one, "x") && says(said, other, "y");
    let after = says(said, one, " an address ") && tells(said, one, " an address ");
    said.drop_process(one);
    let dead = tells(said, one, "") && tells(said, other, "y");
    said.drop_node(&one.node);
    let beside = tells(said, other, "y");
    said.drop_node(&other.node);
    before && after && dead && beside && tells(said, other, "")
}

#[test]
fn what_was_said_is_told(rt: HostRuntime) {
    let mut said = Descriptions::new(rt.alloc());
    match (parse_pid("a.1"), parse_pid("b.1")) {
        (Ok(one), Ok(other)) => assert!(rt; is_told(&mut said, &one, &other)),
        _ => assert!(rt; false),
    }
}
