//! Where the grants of each holder stand.
ghost use Rattle.std.specs.Prelude.{IfNone, IfSome, None, Some, OnOk, OnErr};
ghost use Rattle.lock_table.specs.Index.{place_at, IsFirstFrom, IsNoneFrom, SetsAt, StandsAs};

use crate::grant::Key;
use indexmap::IndexMap;
use std::alloc::AllocError;
use std::collections::BTreeMap;
use term::{Node, Pid, Resource};

/// Where a grant stands among those of its node's processes. The grants of one process stand together, as their numbers
/// rise.
#[derive(Clone, Debug, PartialEq, Eq, PartialOrd, Ord, Drop)]
pub(crate) struct Slot {
    pub(crate) serial: u32,
    pub(crate) number: u64,
}

/// The resource of each grant of one node's processes.
type Slots = BTreeMap<Slot, Resource>;

/// The resource of each grant, by its holder's node. So a search compares numbers alone, and no nodes.
pub(crate) type Places = IndexMap<Node, Slots>;

/// Puts a grant of this number in its place. A refusal leaves each place as it was.
pub(crate) fn put(
    places: &mut Places,
    holder: &Pid,
    number: u64,
    resource: &Resource,
) -> Result<(), AllocError>
    ensures ok { OnOk result (SetsAt (place_at holder.now number) (Some resource.now) places.old.entries places.new.entries) }
    ensures err { OnErr result (StandsAs places.old.entries places.new.entries) }
{
    let slot = Slot {
        serial: holder.serial,
        number,
    };
    if let Some(slots) = places.get_mut(&holder.node) {
        slots.insert(slot, resource.copy())?;
        return Ok(());
    }
    places.reserve(1)?;
    let mut slots = BTreeMap::new(*places.allocator());
    slots.insert(slot, resource.copy())?;
    let _none = places.insert(holder.node.copy(), slots).unwrap();
    Ok(())
}

/// Takes the holder's grant of this number out of its place, and forgets the node with its last.
pub(crate) fn take(places: &mut Places, holder: &Pid, number: u64)
    ensures { SetsAt (place_at holder.now number) None places.old.entries places.new.entries }
{
    let slot = Slot {
        serial: holder.serial,
        number,
    };
    if let Some(slots) = places.get_mut(&holder.node) {
        slots.remove(&slot);
        if slots.is_empty() {
            places.swap_remove(&holder.node);
        }
    }
}

/// What the first grant at a node is filed under that stands at a slot or behind it.
pub(crate) fn first_from(places: &Places, node: &Node, from: &Slot) -> Option<Key>
    ensures some { IfSome result (IsFirstFrom places.now.entries node.now from.now) }
    ensures none { IfNone result (IsNoneFrom places.now.entries node.now from.now) }
{
    let (slot, resource) = places.get(node)?.range(from..).next()?;
    Some(Key {
        resource: resource.copy(),
        holder: Pid {
            node: node.copy(),
            serial: slot.serial,
        },
    })
}
