//! Whose strikes a watch owes, row by row.
ghost use Rattle.exit_watch.specs.WatchState.{AreSuspected};

use exit_watch::Watch;
use name_table::{Change, ListTable, Names, Pair};
use std::alloc::Global;
use term::{Name, Node, Pid, Rule, parse_name, parse_node, parse_pid};

type Table = ListTable<Global>;

/// A name is put for a process, as a node does it.
fn put(watch: &mut Watch, table: &mut Table, name: Name, owner: Pid) -> bool
    requires { AreSuspected watch.old table.old }
    ensures { AreSuspected watch.new table.new }
{
    let pair = Pair {
        name,
        owner,
        rule: Rule::Exit,
    };
    match watch.note_owner(&pair.owner) {
        Ok(()) => table.write(Change::Put(pair)).is_ok(),
        Err(_) => false,
    }
}

/// A process dies.
fn exit(watch: &mut Watch, table: &Table, process: &Pid) -> bool
    requires { AreSuspected watch.old table.now }
    ensures { AreSuspected watch.new table.now }
{
    watch.exit(process).is_ok()
}

/// Whether this strike is owed next, or none where the text is no process.
fn is_owed(watch: &mut Watch, table: &Table, wanted: &str) -> bool
    requires { AreSuspected watch.old table.now }
    ensures { AreSuspected watch.new table.now }
{
    watch.owes(table) == parse_pid(wanted).ok()
}

/// Whether a row holds: `put NAME PID`, `exit PID`, or `owes PID`.
fn takes(watch: &mut Watch, table: &mut Table, row: &str) -> bool
    requires { AreSuspected watch.old table.old }
    ensures { AreSuspected watch.new table.new }
{
    let Some((word, rest)) = row.split_once(' ') else {
        return false;
    };
    match (word, rest.split_once(' ')) {
        ("owes", None) => is_owed(watch, table, rest),
        ("exit", None) => match parse_pid(rest) {
            Ok(process) => exit(watch, table, &process),
            Err(_) => false,
        },
        ("put", Some((name, owner))) => match (parse_name(name), parse_pid(owner)) {
            (Ok(name), Ok(owner)) => put(watch, table, name, owner),
            _ => false,
        },
        _ => false,
    }
}

/// Strikes come by serial, as long as a dead process owns a name, which it may lose to another.
const ROWS: &str = "\
put x a.5
put y a.3
put z b.1
put v a.2
owes nobody
exit a.5
exit a.4
exit a.3
owes a.3
owes a.3
put y b.1
owes a.5
put x a.2
owes nobody
put x a.4
owes a.4
";

/// Whether each row holds.
fn plays(watch: &mut Watch, table: &mut Table) -> bool
    requires { AreSuspected watch.old table.old }
    ensures { AreSuspected watch.new table.new }
{
    for row in ROWS.lines() {
        if !takes(watch, table, row) {
            return false;
        }
    }
    true
}

/// Whether a copy of the watch owes the same strike.
fn is_copied(watch: &Watch, table: &Table, wanted: &str) -> bool
    requires { AreSuspected watch.now table.now }
{
    match watch.copy() {
        Ok(mut copy) => is_owed(&mut copy, table, wanted),
        Err(_) => false,
    }
}

/// Whether strikes are owed so by the watch of a node that has given serial 9 last.
fn owes(alloc: Global, node: Node) -> bool {
    let mut watch = Watch::resume(alloc, node, 9);
    let mut table: Table = Names::empty(alloc);
    plays(&mut watch, &mut table) && is_copied(&watch, &table, "a.4")
}

#[test]
fn owes_strikes_of_the_dead(rt: HostRuntime) {
    match parse_node("a") {
        Ok(node) => assert!(rt; owes(rt.alloc(), node)),
        Err(_) => assert!(rt; false),
    }
}
