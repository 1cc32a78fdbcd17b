//! Inboxes in one thread, and between three.
ghost use Rattle.std.specs.Prelude.{◌<◌};

use link::{LinkFault, Mailbox, Port, Sourced, compare, open};
use std::alloc::Global;
use std::sync::Wait;
use std::thread::{Threads, join};
use term::INBOX_ROOM;

/// A number, and which sender put it.
#[derive(Clone, Copy, Debug, PartialEq, Eq)]
pub(crate) struct Stamped {
    sender: u64,
    stamp: u64,
}

impl Sourced for Stamped {
    ghost source = { λ item. item.sender };
}

/// Whether an item of this stamp has room.
fn puts<R: Wait>(rt: &R, port: &mut Port<Stamped>, stamp: u64) -> bool {
    let sender = port.number();
    port.send(rt, Stamped { sender, stamp }).is_ok()
}

/// Whether an item of this stamp comes back, since there is no room.
fn has_no_room<R: Wait>(rt: &R, port: &mut Port<Stamped>, stamp: u64) -> bool {
    let sender = port.number();
    let item = Stamped { sender, stamp };
    match port.send(rt, item) {
        Ok(()) => false,
        Err(unsent) => unsent.fault == LinkFault::Full && unsent.letter == item,
    }
}

/// Whether this item is taken.
fn takes<R: Wait>(rt: &R, mailbox: &mut Mailbox<Stamped>, sender: u64, stamp: u64) -> bool {
    mailbox.take(rt) == Some(Stamped { sender, stamp })
}

/// Whether an inbox with room for three gives the items of two senders, numbered 0 and 1, in the order of their puts.
fn is_in_order<R: Wait>(
    rt: &R,
    one: &mut Port<Stamped>,
    two: &mut Port<Stamped>,
    mailbox: &mut Mailbox<Stamped>,
) -> bool {
    mailbox.take(rt).is_none()
        && puts(rt, one, 7)
        && puts(rt, two, 9)
        && puts(rt, one, 8)
        && has_no_room(rt, two, 10)
        && takes(rt, mailbox, 0, 7)
        && puts(rt, two, 10)
        && takes(rt, mailbox, 1, 9)
        && takes(rt, mailbox, 0, 8)
        && takes(rt, mailbox, 1, 10)
        && mailbox.take(rt).is_none()
}

/// Whether a new inbox does so.
fn keeps_order<R: Wait>(rt: &R, alloc: Global) -> bool {
    match open::<Stamped>(alloc, 3) {
        Ok((mut root, mut mailbox)) => match (root.port(), root.port()) {
            (Ok(mut one), Ok(mut two)) => {
                root.made() == 2 && is_in_order(rt, &mut one, &mut two, &mut mailbox)
            }
            _ => false,
        },
        Err(_) => false,
    }
}

/// Whether two senders are compared with the receiver that took of one of them.
fn compares<R: Wait>(rt: &R, alloc: Global) -> bool {
    match open::<Stamped>(alloc, 2) {
        Ok((mut root, mut mailbox)) => match (root.port(), root.port()) {
            (Ok(one), Ok(mut two)) => {
                let item = Stamped {
                    sender: two.number(),
                    stamp: 5,
                };
                let is_sent = two.send(rt, item).is_ok();
                let taken = mailbox.take(rt);
                compare(&root, &mut mailbox, one);
                compare(&root, &mut mailbox, two);
                is_sent && taken == Some(item)
            }
            _ => false,
        },
        Err(_) => false,
    }
}

/// Whether an inbox without its receiver is full.
fn is_full_without_receiver<R: Wait>(rt: &R, alloc: Global) -> bool {
    match open::<Stamped>(alloc, 3) {
        Ok((mut root, mailbox)) => {
            drop(mailbox);
            match root.port() {
                Ok(mut port) => has_no_room(rt, &mut port, 1),
                Err(_) => false,
            }
        }
        Err(_) => false,
    }
}

#[test]
fn keeps_the_order_of_each_sender(rt: HostRuntime) {
    assert!(rt; keeps_order(&rt, rt.alloc()));
    assert!(rt; compares(&rt, rt.alloc()));
    assert!(rt; is_full_without_receiver(&rt, rt.alloc()));
}

/// Puts items with rising stamps, and tells how many had room.
fn put_all<R: Wait>(rt: &R, mut port: Port<Stamped>, count: u64) -> u64 {
    let mut put = 0_u64;
    for stamp in 0..count {
        if puts(rt, &mut port, stamp) {
            put = put.saturating_add(1);
        }
    }
    put
}

/// What a receiver took: how many items, the last stamp of each sender, and whether the stamps of both rose.
#[derive(Clone, Copy)]
struct Taken {
    count: u64,
    first: Option<u64>,
    second: Option<u64>,
    rises: bool,
}

impl Taken {
    /// Nothing was taken yet.
    const NOTHING: Taken = Taken {
        count: 0,
        first: None,
        second: None,
        rises: true,
    };

    /// With one item more.
    fn with(self, item: Stamped) -> Self {
        let stamp = Some(item.stamp);
        let count = self.count.saturating_add(1);
        if item.sender == 0 {
            let rises = self.rises && self.first < stamp;
            Taken {
                count,
                first: stamp,
                rises,
                ..self
            }
        } else {
            let rises = self.rises && self.second < stamp;
            Taken {
                count,
                second: stamp,
                rises,
                ..self
            }
        }
    }
}

/// Tries so many times to take an item: what was taken, with what was before.
fn take_all<R: Wait>(rt: &R, mailbox: &mut Mailbox<Stamped>, before: Taken, tries: u64) -> Taken {
    let mut taken = before;
    for _ in 0..tries {
        if let Some(item) = mailbox.take(rt) {
            taken = taken.with(item);
        }
    }
    taken
}

/// Whether, of what two threads put while a third takes, all is taken in the end, in the order of each sender.
fn passes_on<R: Threads + Wait + Sync>(rt: &R, alloc: Global, capacity: usize) -> bool
    requires { 0 < capacity }
{
    match open::<Stamped>(alloc, capacity) {
        Ok((mut root, mut mailbox)) => match (root.port(), root.port()) {
            (Ok(one), Ok(two)) => {
                let (first, (second, taken)) = join(
                    rt,
                    move || put_all(rt, one, 300),
                    || {
                        join(
                            rt,
                            move || put_all(rt, two, 300),
                            || take_all(rt, &mut mailbox, Taken::NOTHING, 900),
                        )
                    },
                );
                // Nobody puts any more, so what is left is found.
                let all = take_all(rt, &mut mailbox, taken, 601);
                all.rises && all.count > 0 && all.count == first.saturating_add(second)
            }
            _ => false,
        },
        Err(_) => false,
    }
}

#[test]
fn threads_put_and_take(rt: HostRuntime) {
    assert!(rt; passes_on(&rt, rt.alloc(), 1));
    assert!(rt; passes_on(&rt, rt.alloc(), INBOX_ROOM));
}
