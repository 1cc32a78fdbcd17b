//! Worked joins, row by row.
use crate::tables::reading::{names_of, notices_of, pairs_of, processes_of};
use exchange::{Admission, Settled, Welcome, admit_of, settle, welcome_of};
use name_table::{Change, IndexTable, ListTable, Names, Pair};
use std::alloc::Global;
use term::{MOST_NODES, Node, NodeNames, NodeSet, parse_node, parse_nodes};

/// A join to b and c, which e has left, and what is told of it.
#[derive(Clone, Copy)]
struct Join<'a> {
    joiner: &'a str,
    /// The joiner's names, and the cluster's.
    lone: &'a str,
    cluster: &'a str,
    /// What each member puts, and the names that it removes.
    puts: &'a str,
    removes: &'a str,
    /// Who dies, and who is sent what.
    kills: &'a str,
    notices: &'a str,
    /// The members with the joiner, and the names that it is told.
    members: &'a str,
    table: &'a str,
}

/// The join of a row, whose parts stand in the order of the fields. A part that isn't there has no byte.
fn join_of(row: &str) -> Join<'_> {
    let mut parts = row.split(" | ");
    Join {
        joiner: parts.next().unwrap_or(""),
        lone: parts.next().unwrap_or(""),
        cluster: parts.next().unwrap_or(""),
        puts: parts.next().unwrap_or(""),
        removes: parts.next().unwrap_or(""),
        kills: parts.next().unwrap_or(""),
        notices: parts.next().unwrap_or(""),
        members: parts.next().unwrap_or(""),
        table: parts.next().unwrap_or(""),
    }
}

/// Puts each of these names.
fn put_all<N: Names>(table: &mut N, pairs: &[Pair]) -> bool {
    for pair in pairs {
        if table.write(Change::Put(pair.copy())).is_err() {
            return false;
        }
    }
    true
}

/// Whether an admission is that of a join, and its copy too.
fn is_admission(alloc: Global, told: &Admission, join: Join<'_>) -> bool {
    let is_copied = match told.copy() {
        Ok(copy) => copy == *told,
        Err(_) => false,
    };
    is_copied
        && told.joiner.name().as_str() == join.joiner
        && told.puts == pairs_of(alloc, join.puts)
        && told.removes == names_of(alloc, join.removes)
        && told.kills == processes_of(alloc, join.kills)
        && told.notices == notices_of(alloc, join.notices)
}

/// Whether a welcome is that of a join, and its copy too.
fn is_welcome(alloc: Global, told: &Welcome, join: Join<'_>) -> bool {
    let is_copied = match told.copy() {
        Ok(copy) => copy == *told,
        Err(_) => false,
    };
    is_copied
        && parse_nodes(join.members).is_ok_and(|members| members == NodeNames::of(&told.members))
        && parse_nodes("e").is_ok_and(|left| left == NodeNames::of(&told.told))
        && told.pairs == pairs_of(alloc, join.table)
        && told.kills == processes_of(alloc, join.kills)
        && told.notices == notices_of(alloc, join.notices)
}

/// Whether the members are told what the join says.
fn admits(alloc: Global, joiner: &Node, settled: &Settled, join: Join<'_>) -> bool {
    match admit_of(alloc, joiner, settled) {
        Ok(told) => is_admission(alloc, &told, join),
        Err(_) => false,
    }
}

/// Whether the joiner is told what the join says.
#[tactic(auto, using(crate::proofs::Members::one_more_at_most))]
fn welcomes<N: Names<Memory = Global>>(
    alloc: Global,
    joiner: &Node,
    table: &N,
    members: &NodeSet,
    left: &NodeSet,
    settled: &Settled,
    join: Join<'_>,
) -> bool {
    if members.len() >= MOST_NODES {
        return false;
    }
    match welcome_of(alloc, joiner, table, members, left, settled) {
        Ok(told) => is_welcome(alloc, &told, join),
        Err(_) => false,
    }
}

/// Whether both are told what the join says.
fn tells<N: Names<Memory = Global>>(
    alloc: Global,
    table: &N,
    settled: &Settled,
    join: Join<'_>,
) -> bool {
    match (
        parse_node(join.joiner),
        parse_nodes("b,c"),
        parse_nodes("e"),
    ) {
        (Ok(joiner), Ok(members), Ok(left)) => {
            let (members, left) = (NodeSet::first_of(&members), NodeSet::first_of(&left));
            admits(alloc, &joiner, settled, join)
                && welcomes(alloc, &joiner, table, &members, &left, settled, join)
        }
        _ => false,
    }
}

/// Whether a join is settled as it says, where the cluster's names are put into this table.
fn settles<N: Names<Memory = Global>>(alloc: Global, mut table: N, join: Join<'_>) -> bool {
    let lone = pairs_of(alloc, join.lone);
    put_all(&mut table, pairs_of(alloc, join.cluster).as_slice())
        && match settle(alloc, &table, lone.as_slice()) {
            Ok(settled) => tells(alloc, &table, &settled, join),
            Err(_) => false,
        }
}

/// In turn: the cluster's process wins, the joiner's does, one dies for two names and another has its name in both, two die
/// for two names, two have a name on one node, and nobody has any.
const DEATHS: &str = "\
d | x=d.1 z=d.2 | x=b.1 | z=d.2 | - | d.1 | - | b,c,d | x=b.1 z=d.2
a | x=a.1 | x=b.1 y=b.1 | x=a.1 | - | b.1 | - | a,b,c | x=a.1 y=b.1
d | w=d.1 x=d.1 y=b.1 z=d.2 | w=b.1 x=c.1 y=b.1 | z=d.2 | - | d.1 | - | b,c,d | w=b.1 x=c.1 y=b.1 z=d.2
a | x=a.1 y=a.2 | x=c.1 y=b.1 | x=a.1 y=a.2 | - | c.1 b.1 | - | a,b,c | x=a.1 y=a.2
d | x=d.1 | x=d.2 | - | - | d.1 | - | b,c,d | x=d.2
d | - | - | - | - | - | - | b,c,d | -
";

/// The cluster's rule decides. In turn: under `notify` the cluster's process wins, then the joiner's, and a name stays with its process
/// under the cluster's rule; under `notify_all` nobody wins; and there is a name under each rule. One that wins keeps its own rule.
const RULES: &str = "\
d | x=d.1:notify_all z=d.1:notify | x=b.1:notify | z=d.1:notify | - | - | x:d.1 | b,c,d | x=b.1:notify z=d.1:notify
a | x=a.1:notify_all | x=b.1:notify | x=a.1:notify_all | - | - | x:b.1 | a,b,c | x=a.1:notify_all
d | x=b.1:notify_all y=d.1:notify | x=b.1 y=b.1 | - | - | d.1 | - | b,c,d | x=b.1 y=b.1
d | x=d.1 y=d.2 | w=c.1 x=b.1:notify_all y=d.1:notify_all | - | x y | - | x:b.1:d.1 x:d.1:b.1 y:d.1:d.2 y:d.2:d.1 | b,c,d | w=c.1
a | w=a.1 x=a.1 y=a.2 | w=b.1 x=b.1:notify y=c.1:notify_all | w=a.1 x=a.1 | y | b.1 | x:b.1 y:c.1:a.2 y:a.2:c.1 | a,b,c | w=a.1 x=a.1
";

/// Whether the join of a row is settled so in a list.
fn settles_in_list(alloc: Global, row: &str) -> bool {
    settles::<ListTable<Global>>(alloc, Names::empty(alloc), join_of(row))
}

#[test]
fn settles_joins(rt: HostRuntime) {
    for row in DEATHS.lines() {
        assert!(rt; settles_in_list(rt.alloc(), row), "{row}");
    }
}

/// Whether the join of a row is settled so in both tables.
fn settles_in_both(alloc: Global, row: &str) -> bool {
    settles_in_list(alloc, row)
        && settles::<IndexTable<Global>>(alloc, Names::empty(alloc), join_of(row))
}

#[test]
fn settles_by_rules(rt: HostRuntime) {
    for row in RULES.lines() {
        assert!(rt; settles_in_both(rt.alloc(), row), "{row}");
    }
}
