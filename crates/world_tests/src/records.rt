//! The same steps in a log and in a record that keeps none.
use node_log::{Call, ForgottenLog, LocalEvent, Log, Record, WorldEvent};
use std::alloc::Global;
use term::{Node, NodeSet, parse_node, parse_nodes};

/// Whether a new record of the first node takes a spawn and the delivery of a letter from the second, and counts both.
fn counts_both<L: Record>(alloc: Global, world: &NodeSet, a: &Node, b: &Node) -> bool {
    let mut record = L::new(alloc, a.copy(), world);
    if record.count() != 0 || record.reserve().is_err() {
        return false;
    }
    record.put(
        1,
        None,
        WorldEvent::At(a.copy(), LocalEvent::Call(Call::Spawn)),
    );
    record.answer(Vec::new(alloc));
    if record.count() != 1 || record.reserve().is_err() {
        return false;
    }
    record.put_delivery(2, b);
    record.count() == 2 && *record.node() == *a
}

#[test]
fn are_counted_alike(rt: HostRuntime) {
    match (parse_nodes("a,b"), parse_node("a"), parse_node("b")) {
        (Ok(world), Ok(a), Ok(b)) => {
            let world = NodeSet::first_of(&world);
            assert!(rt; counts_both::<Log>(rt.alloc(), &world, &a, &b));
            assert!(rt; counts_both::<ForgottenLog>(rt.alloc(), &world, &a, &b));
        }
        _ => assert!(rt; false),
    }
}
