//! What is told of numbers that are nearly spent.
use server::{Lookout, Numbers};
use term::{Node, parse_node};

/// Whether it is told of a node whose last numbers these were that calls are nearly spent, and serials.
fn tells(lookout: &mut Lookout, node: &Node, calls: (u32, bool), serials: (u32, bool)) -> bool {
    let numbers = Numbers {
        names: 0,
        locks: 0,
        calls: calls.0,
        serials: serials.0,
        spans: 0,
        steps: 0,
    };
    let spent = lookout.look(node, &numbers);
    spent.calls == calls.1 && spent.serials == serials.1
}

/// Whether each is told once of each node, from nine tenths on.
fn tells_once(lookout: &mut Lookout, node: &Node, other: &Node) -> bool {
    let (below, most) = (3_865_470_565, 4_294_967_295);
    tells(lookout, node, (0, false), (0, false))
        && tells(lookout, node, (below, false), (below, false))
        && tells(lookout, node, (3_865_470_566, true), (below, false))
        && tells(lookout, node, (3_865_470_567, false), (most, true))
        && tells(lookout, node, (most, false), (most, false))
        && tells(lookout, other, (most, true), (0, false))
}

#[test]
fn nine_tenths_are_told_once(rt: HostRuntime) {
    match (parse_node("a"), parse_node("b")) {
        (Ok(node), Ok(other)) => {
            assert!(rt; tells_once(&mut Lookout::new(), &node, &other));
        }
        _ => assert!(rt; false),
    }
}
