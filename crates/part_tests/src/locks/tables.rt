//! Lock tables, row by row.
use lock_table::{LockTable, Verdict};
use std::alloc::Global;
use term::{LockId, Pid, parse_node, parse_pid, parse_requester, parse_resource};

/// What is done to a table, and what it answers. A lock is a resource and a requester.
#[derive(Clone, Copy)]
struct Row<'a> {
    word: &'a str,
    holder: &'a str,
    resource: &'a str,
    requester: &'a str,
    wanted: &'a str,
}

/// The row of a text such as `ask a.1 db r1 grant`. What isn't said has no byte.
fn row_of(text: &str) -> Option<Row<'_>> {
    let mut words = text.split(' ');
    Some(Row {
        word: words.next()?,
        holder: words.next()?,
        resource: words.next().unwrap_or(""),
        requester: words.next().unwrap_or(""),
        wanted: words.next().unwrap_or(""),
    })
}

/// The id of a lock.
fn lock_of(row: Row<'_>) -> Option<LockId> {
    match (parse_resource(row.resource), parse_requester(row.requester)) {
        (Ok(resource), Ok(requester)) => Some(LockId {
            resource,
            requester,
        }),
        _ => None,
    }
}

/// Whether a lock is granted to a holder, or refused for the requester that is wanted.
fn is_answered(table: &mut LockTable, id: LockId, holder: Pid, wanted: &str) -> bool {
    match table.ask(id, holder) {
        Ok(Verdict::Grant) => wanted == "grant",
        Ok(Verdict::Refuse(requester)) => parse_requester(wanted) == Ok(requester),
        Err(_) => false,
    }
}

/// Whether a table does with a lock of a holder what a row says: it is asked for, given back, or its counts are told.
fn serves(table: &mut LockTable, holder: Pid, row: Row<'_>) -> bool {
    match (lock_of(row), row.word) {
        (Some(id), "ask") => is_answered(table, id, holder, row.wanted),
        (Some(id), "back") => {
            table.give_back(&id, &holder);
            true
        }
        (Some(id), "count") => row.wanted.parse() == Ok(table.count(&id, &holder)),
        (None, "exit") => {
            table.drop_holder(&holder);
            true
        }
        _ => false,
    }
}

/// Whether a row holds: a node is dropped, or something is done for a holder.
fn holds(table: &mut LockTable, row: Row<'_>) -> bool {
    match (parse_pid(row.holder), parse_node(row.holder)) {
        (Ok(holder), _) => serves(table, holder, row),
        (Err(_), Ok(node)) => {
            table.drop_node(&node);
            row.word == "down"
        }
        _ => false,
    }
}

/// Whether a row of a text holds.
fn holds_text(table: &mut LockTable, text: &str) -> bool {
    match row_of(text) {
        Some(row) => holds(table, row),
        None => false,
    }
}

/// The first row that doesn't hold in a table.
fn first_wrong<'a>(table: &mut LockTable, script: &'a str) -> Option<&'a str> {
    script.lines().find(|text| !holds_text(table, text))
}

/// Whether a copy of a table keeps a lock that the table drops.
fn copy_keeps(alloc: Global) -> bool {
    let mut table = LockTable::new(alloc);
    if !holds_text(&mut table, "ask a.1 db r1 grant") {
        return false;
    }
    match table.copy() {
        Ok(mut copy) => {
            holds_text(&mut table, "exit a.1")
                && holds_text(&mut copy, "count a.1 db r1 1")
                && holds_text(&mut copy, "ask b.1 db r2 r1")
                && holds_text(&mut table, "ask b.1 db r2 grant")
        }
        Err(_) => false,
    }
}

/// A resource is shared in the name of one requester.
const SHARED: &str = "\
ask a.1 db r1 grant
ask b.1 db r1 grant
ask a.1 db r1 grant
ask b.1 db r2 r1
count a.1 db r1 2
count b.1 db r1 1
count b.1 db r2 0
back a.1 db r1
back b.1 db r1
back b.1 db r1
ask b.1 db r2 r1
back a.1 db r1
count a.1 db r1 0
ask b.1 db r2 grant
ask b.1 db r1 r2
";

/// Holders and nodes lose all that they have.
const DROPPED: &str = "\
ask a.1 global a grant
ask a.2 global a grant
ask b.1 global a grant
exit a.1
count a.1 global a 0
count a.2 global a 1
down b
count b.1 global a 0
count a.2 global a 1
ask b.1 global b a
down a
ask b.1 global b grant
";

/// The resource `global` has two holders, and each goes before the other.
const GLOBAL: &str = "\
ask a.1 global a grant
ask a.2 global a grant
ask a.1 global a grant
ask a.2 db r1 grant
count a.1 global a 2
count a.2 global a 1
back a.1 global a
back a.1 global a
back a.1 global a
count a.1 global a 0
count a.2 global a 1
ask b.1 global b a
ask a.1 global a grant
back a.2 global a
ask b.1 global b a
count a.1 global a 1
back a.1 global b
count a.1 global a 1
back a.1 global a
count a.1 global a 0
ask b.1 global b grant
back b.1 global b
ask a.2 global a grant
ask a.1 global a grant
ask a.1 global a grant
exit a.2
count a.2 global a 0
count a.2 db r1 0
count a.1 global a 2
down a
ask b.1 global b grant
";

/// What is given back stands between others.
const MIDDLE: &str = "\
ask m.3 c r3 grant
ask m.3 b r2 grant
ask m.3 a r1 grant
ask m.1 c r3 grant
ask m.1 b r2 grant
ask m.1 a r1 grant
ask m.2 b r2 grant
back m.1 b r4
ask m.2 b r4 r2
count m.2 b r2 1
back m.2 b r2
count m.2 b r2 0
back m.3 b r2
ask m.2 b r4 r2
count m.1 b r2 1
back m.1 b r2
count m.1 a r1 1
count m.3 c r3 1
ask m.2 b r4 grant
ask m.1 b r2 r4
";

/// A holder loses all locks, and others keep theirs.
const HOLDERS: &str = "\
ask n.1 c r1 grant
ask n.1 a r1 grant
ask n.1 b r1 grant
ask m.1 c r1 grant
ask m.1 a r1 grant
ask m.1 b r1 grant
ask m.2 a r1 grant
back m.1 a r1
exit m.1
count m.1 a r1 0
count m.1 b r1 0
count m.1 c r1 0
count m.2 a r1 1
count n.1 b r1 1
ask m.1 b r1 grant
down m
count m.1 b r1 0
count m.2 a r1 0
count n.1 a r1 1
";

/// A shared resource is kept until the last holder gives it back.
const LAST: &str = "\
ask m.1 a r1 grant
ask m.2 a r1 grant
ask n.1 a r1 grant
back m.2 a r1
ask m.2 a r1 grant
ask m.1 a r2 r1
back m.1 a r1
back n.1 a r1
ask m.1 a r2 r1
back m.2 a r1
ask m.1 a r2 grant
ask m.2 a r1 r2
";

#[test]
fn shares_by_requester(rt: HostRuntime) {
    for script in [SHARED, DROPPED, GLOBAL, MIDDLE, HOLDERS, LAST] {
        assert_eq!(rt; first_wrong(&mut LockTable::new(rt.alloc()), script), None);
    }
    assert!(rt; copy_keeps(rt.alloc()));
}
