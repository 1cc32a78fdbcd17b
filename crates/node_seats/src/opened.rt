//! Nodes that were opened: what their seats and their threads are made from.
ghost use Rattle.std.specs.Prelude.{◌≡◌, ◌<◌, ◌+◌, [], IfOk, length};
ghost use Rattle.link.specs.Mailboxes.{taken, mailbox_room};
ghost use Rattle.shared_table.specs.Moments.{shown_at};
ghost use Rattle.node_seats.specs.Addresses.{inbox_at};
ghost use Rattle.node_seats.specs.Callers.{name_of, inbox_of, place_of, own_place, nodes_of, nodes_at, asked_by};
ghost use Rattle.term.specs.declared.limits.TheConstants.{MOST_NODES};

use crate::address::{Address, Entrance, open_inbox};
use crate::caller::Caller;
use crate::host::Host;
use crate::hub::Hub;
use crate::parcel::Parcel;
use crate::place::Place;
use crate::slots::open_slots;
use crate::standing::Standing;
use link::Mailbox;
use shared_table::{IdleReaders, Item, TableReader};
use std::alloc::{AllocError, Global};
use std::sync::Arc;
use term::Node;

/// A node whose thread is yet to start.
#[derive(Drop)]
pub struct Opened {
    /// Where it is reached.
    pub address: Address<Item>,
    /// Asks it in the name of its cluster.
    pub caller: Caller,
    /// Its inbox.
    pub mailbox: Mailbox<Parcel<Item>>,
    /// Its thread's side.
    pub host: Host,
}

/// Opens a node, the one with this index among its cluster's, whose table is read by these, of which its cluster's caller takes one. Its
/// thread, and that caller, yield so often at most before they sleep.
pub fn open_node(
    alloc: Global,
    hub: &Arc<Hub, Global>,
    node: Node,
    index: u32,
    yields: u32,
    readers: IdleReaders,
) -> Result<Opened, AllocError>
    requires index { index < MOST_NODES }
    requires known { 0 < length readers.log }
    requires own { (shown_at readers.log).node ≡ node }
    ensures address { IfOk result (λ opened. opened.address ≡ record { node = node; lines = 1; room = mailbox_room opened.mailbox; book = readers.book }) }
    ensures place { IfOk result (λ opened. place_of opened.caller ≡ own_place index) }
    ensures node { IfOk result (λ opened. name_of opened.caller ≡ node) }
    ensures inbox { IfOk result (λ opened. inbox_of opened.caller ≡ inbox_at opened.address) }
    ensures nodes { IfOk result (λ opened. nodes_of opened.caller ≡ nodes_at hub.now.value) }
    ensures unasked { IfOk result (λ opened. asked_by opened.caller ≡ []) }
    ensures empty { IfOk result (λ opened. taken opened.mailbox ≡ []) }
    ensures host { IfOk result (λ opened. opened.host ≡ record { yields = yields; book = readers.book }) }
{
    // What is large comes last: the check follows each way out with all that was made before it.
    let standing = Arc::new(alloc, Standing::new(node.copy()))?;
    let own = Arc::try_clone(hub)?;
    let (thread, callers) = open_slots(alloc, readers.token())?;
    let reader = TableReader::lent(readers)?;
    let Entrance {
        mut address,
        mailbox,
        rest,
    } = open_inbox(alloc, node, callers, yields)?;
    let caller = Caller::new(
        hub,
        &standing,
        &mut address,
        reader,
        Place::own(index),
        yields,
    )?;
    let host = Host::new(own, standing, rest, thread);
    Ok(Opened {
        address,
        caller,
        mailbox,
        host,
    })
}
