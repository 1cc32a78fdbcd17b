//! The watch of a node, row by row.
use exit_watch::{Watch, WatchFault};
use std::alloc::Global;
use term::{Node, Pid, parse_node, parse_pid};

/// The process of a text, where `a.0` is the registrar of the node a.
fn process_of(text: &str) -> Option<Pid> {
    if text != "a.0" {
        return parse_pid(text).ok();
    }
    match parse_node("a") {
        Ok(node) => Some(Pid { node, serial: 0 }),
        Err(_) => None,
    }
}

/// Whether a fault is shown so.
fn is_shown(alloc: Global, fault: WatchFault, wanted: &str) -> bool {
    match format!(in alloc; "{fault}") {
        Ok(text) => text.as_str() == wanted,
        Err(_) => false,
    }
}

/// Whether a process is that of a text.
fn is_process(process: &Pid, text: &str) -> bool {
    match parse_pid(text) {
        Ok(wanted) => wanted == *process,
        Err(_) => false,
    }
}

/// Whether a spawn gave this process, or failed so.
fn is_spawned(alloc: Global, spawned: Result<Pid, WatchFault>, wanted: &str) -> bool {
    match spawned {
        Ok(process) => is_process(&process, wanted),
        Err(fault) => is_shown(alloc, fault, wanted),
    }
}

/// Whether an exit is taken, as `ok` tells, or refused so.
fn is_exited(alloc: Global, exited: Result<(), WatchFault>, wanted: &str) -> bool {
    match exited {
        Ok(()) => wanted == "ok",
        Err(fault) => is_shown(alloc, fault, wanted),
    }
}

/// Whether a copy of a watch spawns this process.
fn is_copied(alloc: Global, watch: &Watch, wanted: &str) -> bool {
    match watch.copy() {
        Ok(mut copy) => is_spawned(alloc, copy.spawn(), wanted),
        Err(_) => false,
    }
}

/// Whether `true` or `false` was told.
fn is_told(told: bool, wanted: &str) -> bool {
    wanted == if told { "true" } else { "false" }
}

/// Whether this comes of `exit`, `kill` or `live` of a process.
fn comes_of(alloc: Global, watch: &mut Watch, word: &str, process: &Pid, wanted: &str) -> bool {
    match word {
        "exit" => is_exited(alloc, watch.exit(process), wanted),
        "kill" => match watch.kill(process) {
            Ok(lived) => is_told(lived, wanted),
            Err(_) => false,
        },
        _ => word == "live" && is_told(watch.is_live(process), wanted),
    }
}

/// Whether this comes of what is asked of the process of a text.
fn answers(alloc: Global, watch: &mut Watch, word: &str, process: &str, wanted: &str) -> bool {
    match process_of(process) {
        Some(process) => comes_of(alloc, watch, word, &process, wanted),
        None => false,
    }
}

/// Whether a watch does as a row says: it spawns, a copy of it does, or it is asked something of a process.
fn takes(alloc: Global, watch: &mut Watch, row: &str) -> bool {
    let Some((asked, wanted)) = row.split_once(": ") else {
        return false;
    };
    match asked.split_once(' ') {
        Some((word, process)) => answers(alloc, watch, word, process, wanted),
        None if asked == "copied" => is_copied(alloc, watch, wanted),
        None => asked == "spawn" && is_spawned(alloc, watch.spawn(), wanted),
    }
}

/// Whether a watch does as each row says.
fn plays(alloc: Global, watch: &mut Watch, script: &str) -> bool {
    script.lines().all(|row| takes(alloc, watch, row))
}

/// The last serial is given, and none behind it.
const LAST: &str = "\
spawn: a.4294967295
spawn: serials_spent
exit a.7: ok
";

/// The registrar, a process of another node and one that wasn't spawned don't exit. A copy gives the serial that the watch gives.
const LIVING: &str = "\
exit a.0: no_such_process
exit b.1: no_such_process
exit a.3: no_such_process
live a.0: false
live b.1: false
live a.3: true
live a.2: true
exit a.2: ok
live a.3: true
live a.2: false
exit a.2: already_exited
copied: a.3
spawn: a.3
live a.2: false
";

/// Who is killed before its serial was given is passed over.
const KILLED: &str = "\
spawn: a.1
kill a.1: true
kill a.1: false
kill b.1: false
kill a.2: true
spawn: a.3
exit a.2: already_exited
";

/// Whether the watch of a node that has given this serial last does as each row says.
fn plays_behind(alloc: Global, node: &Node, last: u32, script: &str) -> bool {
    plays(alloc, &mut Watch::resume(alloc, node.copy(), last), script)
}

#[test]
fn gives_serials_and_tells_the_dead(rt: HostRuntime) {
    match parse_node("a") {
        Ok(node) => {
            assert!(rt; plays_behind(rt.alloc(), &node, 4_294_967_294, LAST));
            assert!(rt; plays_behind(rt.alloc(), &node, 2, LIVING));
            assert!(rt; plays(rt.alloc(), &mut Watch::new(rt.alloc(), node), KILLED));
        }
        Err(_) => assert!(rt; false),
    }
}
