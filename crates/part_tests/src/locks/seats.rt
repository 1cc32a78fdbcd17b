//! Transactions at a seat that keeps its replies.
ghost use Rattle.std.specs.Prelude.{◌≡◌, ◌++◌};
ghost use Rattle.transaction.specs.Counts.{set_replies, deletion_replies};

use std::alloc::Global;
use std::test::Fail;
use term::{LockId, NodeNames, parse_node, parse_node_name, parse_nodes};
use transaction::{LockReply, LockSeat, Nodes, Outcome, Retries, TransFault, trans};

/// A seat that is told beforehand what its calls come to.
#[derive(Drop)]
struct Told {
    replies: Vec<LockReply>,
    grants: bool,
    sets: bool,
    deletes: bool,
}

/// The call got no reply.
#[derive(Debug, PartialEq, Eq, Drop)]
struct NoReply;

impl LockSeat for Told {
    type Fault = NoReply;

    ghost replies = { λ s. s.replies.items };

    ghost sets = { λ s id nodes retries answer t. t.replies.items ≡ s.replies.items ++ set_replies id answer };

    ghost deletes = { λ s id nodes answer t. t.replies.items ≡ s.replies.items ++ deletion_replies id answer };

    fn set_lock(
        &mut self,
        id: &LockId,
        _nodes: &Nodes,
        _retries: Retries,
    ) -> Result<bool, NoReply> {
        if !self.sets
            || self
                .replies
                .push(LockReply::Set(id.copy(), self.grants))
                .is_err()
        {
            return Err(NoReply);
        }
        Ok(self.grants)
    }

    fn del_lock(&mut self, id: &LockId, _nodes: &Nodes) -> Result<(), NoReply> {
        if !self.deletes || self.replies.push(LockReply::Deleted(id.copy())).is_err() {
            return Err(NoReply);
        }
        Ok(())
    }

    ghost set_is_replied = { λ s t id nodes retries answer given. given };

    ghost deletion_is_replied = { λ s t id nodes answer given. given };
}

/// A seat without replies.
fn seat_where(alloc: Global, grants: bool, sets: bool, deletes: bool) -> Told {
    Told {
        replies: Vec::new(alloc),
        grants,
        sets,
        deletes,
    }
}

/// What comes of work that gives how many replies there are, and from then on refuses deletions or not.
fn work(
    seat: &mut Told,
    id: &LockId,
    deletes: bool,
) -> Result<Outcome<usize>, TransFault<usize, NoReply>> {
    trans(seat, id, &Nodes::All, Retries::Endless, |held: &mut Told| {
        held.deletes = deletes;
        held.replies.len()
    })
}

/// Whether the function works between the grant and the deletion.
fn works(alloc: Global, id: &LockId) -> bool {
    let mut seat = seat_where(alloc, true, true, true);
    let replies = [
        LockReply::Set(id.copy(), true),
        LockReply::Deleted(id.copy()),
    ];
    work(&mut seat, id, true) == Ok(Outcome::Done(1))
        && seat.replies.as_slice() == replies.as_slice()
}

/// Whether it isn't called where the lock is refused.
fn aborts(alloc: Global, id: &LockId) -> bool {
    let mut seat = seat_where(alloc, false, true, true);
    work(&mut seat, id, false) == Ok(Outcome::Aborted) && seat.deletes && seat.replies.len() == 1
}

/// Whether it isn't called where the call for the lock has no reply.
fn fails(alloc: Global, id: &LockId) -> bool {
    let mut seat = seat_where(alloc, true, false, true);
    work(&mut seat, id, false) == Err(TransFault::Set(NoReply))
        && seat.deletes
        && seat.replies.is_empty()
}

/// Whether what it gave is told where the deletion has no reply.
fn stays(alloc: Global, id: &LockId) -> bool {
    let mut seat = seat_where(alloc, true, true, true);
    work(&mut seat, id, false) == Err(TransFault::Del(NoReply, 1)) && seat.replies.len() == 1
}

/// Whether work under the lock may work under it again.
fn nests(alloc: Global, id: &LockId) -> bool {
    let mut seat = seat_where(alloc, true, true, true);
    let given = trans(
        &mut seat,
        id,
        &Nodes::All,
        Retries::Times(0),
        |held: &mut Told| work(held, id, true) == Ok(Outcome::Done(2)) && held.replies.len() == 3,
    );
    given == Ok(Outcome::Done(true)) && seat.replies.len() == 4
}

#[test]
fn works_under_the_lock(rt: HostRuntime) -> Result<(), Fail> {
    let id = LockId::global(&parse_node("a")?);
    assert!(rt; works(rt.alloc(), &id));
    assert!(rt; aborts(rt.alloc(), &id));
    assert!(rt; fails(rt.alloc(), &id));
    assert!(rt; stays(rt.alloc(), &id));
    assert!(rt; nests(rt.alloc(), &id));
    Ok(())
}

/// Whether nodes of a set of one are that one, and so are their copy.
fn names_one(alloc: Global, text: &str) -> bool {
    let (Ok(node), Ok(names)) = (parse_node_name(text), parse_nodes(text)) else {
        return false;
    };
    match Nodes::named(alloc, names) {
        Ok(Some(Nodes::Named(nodes))) => {
            nodes.as_set().contains(&node)
                && match nodes.copy() {
                    Ok(copy) => copy == nodes,
                    Err(_) => false,
                }
        }
        _ => false,
    }
}

#[test]
fn names_at_least_one_node(rt: HostRuntime) {
    assert!(rt; matches!(Nodes::named(rt.alloc(), NodeNames::empty()), Ok(None)));
    assert!(rt; names_one(rt.alloc(), "a"));
    assert!(rt; Retries::Times(3).copy() == Retries::Times(3));
}
