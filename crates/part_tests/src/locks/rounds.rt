//! Rounds over a few nodes, row by row, and the boss of a set.
use boss_order::{boss, rest};
use locker::{Ending, Round};
use term::{Node, NodeNames, NodeSet, parse_node, parse_nodes};

/// The nodes of a list, or none where it is no list.
fn nodes_of(list: &str) -> NodeSet {
    NodeSet::first_of(&parse_nodes(list).unwrap_or(NodeNames::empty()))
}

/// Whether `true` or `false` was told.
fn is_told(told: bool, wanted: &str) -> bool {
    wanted == if told { "true" } else { "false" }
}

/// Whether a round ends so for these members: `held`, or given back to the nodes of a list.
fn ends(round: &Round, members: &str, wanted: &str) -> bool {
    match round.finish(&nodes_of(members)) {
        Ending::Held => wanted == "held",
        Ending::GiveBack(nodes) => wanted != "held" && nodes == nodes_of(wanted),
    }
}

/// Whether a round takes what happens to a node, or tells of it what a row says.
fn node_holds(round: &mut Round, word: &str, node: &Node, wanted: &str) -> bool {
    match word {
        "grants" => round.answer(node, true),
        "refuses" => round.answer(node, false),
        "leaves" => round.down(node),
        "owes" => return is_told(round.owes(node), wanted),
        "opens" => return is_told(round.opens(node, true), wanted),
        _ => return false,
    }
    true
}

/// Whether a round tells of itself what a row says.
fn round_holds(round: &Round, word: &str, wanted: &str) -> bool {
    match word {
        "asked" => round.asked() == nodes_of(wanted),
        "rest" => round.rest() == nodes_of(wanted),
        "now" => round.asked_now() == nodes_of(wanted),
        _ => word == "over" && is_told(round.is_over(), wanted),
    }
}

/// Whether a row holds, such as `grants c`, `owes a=true` or `finish a,b=held`.
fn holds(round: &mut Round, row: &str) -> bool {
    let (asked, wanted) = row.split_once('=').unwrap_or((row, ""));
    let Some((word, of)) = asked.split_once(' ') else {
        return round_holds(round, asked, wanted);
    };
    if word == "finish" {
        return ends(round, of, wanted);
    }
    match parse_node(of) {
        Ok(node) => node_holds(round, word, &node, wanted),
        Err(_) => false,
    }
}

/// The first row that doesn't hold in a round over these nodes.
fn first_wrong<'a>(list: &str, script: &'a str) -> Option<&'a str> {
    let nodes = nodes_of(list);
    if nodes.is_empty() {
        return Some("no node");
    }
    let mut round = Round::begin(&nodes).copy();
    script.lines().find(|row| !holds(&mut round, row))
}

/// The boss is asked first, and what another says before it counts for nothing.
const BOSS: &str = "\
asked=a,b,c
rest=a,b
grants a
now=c
owes c=true
owes a=false
opens c=true
opens a=false
grants c
now=a,b
owes a=true
over=false
grants a
grants b
over=true
finish a,b,c=held
";

/// Where one refuses, those that granted get their grants back.
const REFUSED: &str = "\
grants c
refuses a
grants b
over=true
finish a,b,c=b,c
";

/// Where the members grew, too.
const GROWN: &str = "\
grants b
grants a
over=true
finish a,b=held
finish a,b,c=a,b
";

/// A node that leaves owes nothing, and gets nothing back.
const LEFT: &str = "\
grants b
leaves a
over=true
finish a,b=held
leaves b
finish a,b=
";

#[test]
fn ends_by_the_answers(rt: HostRuntime) {
    assert_eq!(rt; first_wrong("b,c,a", BOSS), None);
    assert_eq!(rt; first_wrong("a,b,c", REFUSED), None);
    assert_eq!(rt; first_wrong("a,b", GROWN), None);
    assert_eq!(rt; first_wrong("a,b", LEFT), None);
}

/// Whether this is the boss of the nodes of a list, and these are the rest.
fn has_boss(list: &str, wanted: &str, others: &str) -> bool {
    let nodes = nodes_of(list);
    !nodes.is_empty() && boss(&nodes).name().as_str() == wanted && rest(&nodes) == nodes_of(others)
}

/// Whether the nodes of two lists have these in common.
fn have_in_common(first: &str, second: &str, wanted: &str) -> bool {
    nodes_of(first).intersection(&nodes_of(second)) == nodes_of(wanted)
}

#[test]
fn greatest_is_boss(rt: HostRuntime) {
    assert!(rt; has_boss("b,c,a", "c", "a,b") && has_boss("a", "a", ""));
    assert!(rt; rest(&NodeSet::empty()).is_empty());
    assert!(rt; have_in_common("a,b,c", "d,b,a", "a,b") && have_in_common("a,b,c", "", ""));
}
