//! An inbox as a whole: opened, and held against what its senders put.
ghost use Rattle.std.specs.Prelude.{◌≡◌, ◌<◌, [], IfOk};
ghost use Rattle.link.specs.Rule.{Begins, of};
ghost use Rattle.link.specs.Mailboxes.{put, taken, number_of, made_of, root_room, port_room, mailbox_room};

use super::rule::{Beside, Compares, Hand, InOrder, Parts, Sourced};
use super::{Mailbox, Port, Root};
use crossbeam_channel::bounded_with;
use std::alloc::{AllocError, Global};

/// An empty inbox with room for so many items.
pub fn open<T: Sourced + Drop>(
    alloc: Global,
    capacity: usize,
) -> Result<(Root<T>, Mailbox<T>), AllocError>
    requires { 0 < capacity }
    ensures empty { IfOk result (λ ends. taken ends.1 ≡ []) }
    ensures made { IfOk result (λ ends. made_of ends.0 ≡ 0) }
    ensures room { IfOk result (λ ends. mailbox_room ends.1 ≡ root_room ends.0) }
{
    let (sender, receiver, mut first) = bounded_with::<T, Hand<T>, InOrder, Global>(
        alloc, capacity,
    )?;
    let takes = sender.another::<Parts>(&mut first);
    let root = Root {
        end: sender,
        pass: first,
        made: 0,
    };
    let mailbox = Mailbox {
        end: receiver,
        pass: takes,
    };
    Ok((root, mailbox))
}

/// What was taken of a sender is a beginning of what it put.
pub fn compare<T: Sourced + Drop>(root: &Root<T>, mailbox: &mut Mailbox<T>, port: Port<T>)
    requires mailbox { mailbox_room mailbox.old ≡ root_room root.now }
    requires port { port_room port ≡ root_room root.now }
    ensures begins { Begins (of T.source (number_of port) (taken mailbox.old)) (put port) }
    ensures taken { taken mailbox.new ≡ taken mailbox.old }
    ensures room { mailbox_room mailbox.new ≡ mailbox_room mailbox.old }
{
    let Mailbox { pass, .. } = mailbox;
    root.end.absorb::<Beside>(pass, port.pass);
    root.end.learn_as::<Compares>(pass);
}
