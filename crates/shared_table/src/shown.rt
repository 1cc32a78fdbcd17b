//! What readers are shown.
ghost use Rattle.std.specs.Prelude.{◌≡◌, [], IfOk, MatchResult};
ghost use Rattle.registry_model.specs.Table.{put_all};
ghost use Rattle.node_books.specs.Editions.{opening};
ghost use Rattle.shared_table.specs.Editions.{edition_of, front_of, stamped};

use left_right::Absorb;
use name_table::{Change, IndexTable, Names, Pair};
use node_books::{Edit, Edition, Token, Update};
use std::alloc::{AllocError, Global};
use term::Node;

/// A copy of a node's table, the length of the node's log then, whether the node had left, and the moments of the node up to then.
#[derive(Drop)]
pub struct Shown {
    pub(crate) node: Node,
    pub(crate) table: IndexTable<Global>,
    pub(crate) alloc: Global,
    pub(crate) length: u64,
    pub(crate) left: bool,
    pub(crate) seen: Token,
    /// How many moments these are.
    pub(crate) count: u64,
}

/// What contracts see of that. No value of it is made.
pub struct Front {
    /// The edition.
    pub edition: Edition,
    /// The moments.
    pub seen: Token,
    /// How many there are.
    pub count: u64,
}

/// An update, and the moments of the node up to then.
#[derive(Drop)]
pub struct Stamp {
    /// The update.
    pub update: Update,
    /// The moments.
    pub seen: Token,
    /// How many there are.
    pub count: u64,
}

/// The table of these pairs, put one behind the other.
fn table_of(alloc: Global, pairs: &[Pair]) -> Result<IndexTable<Global>, AllocError>
    ensures { IfOk result (λ table. table ≡ put_all pairs.now []) }
{
    let mut table = IndexTable::empty(alloc);
    for pair in pairs {
        table.write(Change::Put(pair.copy()))?;
    }
    Ok(table)
}

impl Shown {
    /// What a node shows before its first step, as so many moments say. It takes no memory.
    pub(crate) fn new(alloc: Global, node: &Node, seen: Token, count: u64) -> Self
        ensures { front_of result ≡ record { edition = opening node.now; seen = seen; count = count } }
    {
        Shown {
            node: node.copy(),
            table: IndexTable::empty(alloc),
            alloc,
            length: 0,
            left: false,
            seen,
            count,
        }
    }

    /// Makes an update. Where memory is refused nothing changes.
    fn take_in(&mut self, stamp: &Stamp) -> Result<(), AllocError>
        ensures { MatchResult result (λ _. front_of self.new ≡ stamped (front_of self.old) stamp.now) (λ _. self.new ≡ self.old) }
    {
        match &stamp.update.edit {
            Edit::Write(change) => self.table.write(change.copy())?,
            Edit::Departure(node) => self.table.drop_node(node),
            Edit::Whole(pairs, left) => {
                self.table = table_of(self.alloc, pairs.as_slice())?;
                self.left = *left;
            }
            Edit::Leave => self.left = true,
        }
        self.length = stamp.update.length;
        self.seen = stamp.seen.again();
        self.count = stamp.count;
        Ok(())
    }
}

impl Absorb<Stamp> for Shown {
    type State = Front;

    ghost state = { front_of };

    ghost applied = { stamped };

    fn absorb_first(&mut self, stamp: &Stamp, _other: &Self) -> Result<(), AllocError> {
        self.take_in(stamp)
    }

    fn absorb_second(&mut self, stamp: Stamp, _other: &Self) -> Result<(), Stamp> {
        match self.take_in(&stamp) {
            Ok(()) => Ok(()),
            Err(_) => Err(stamp),
        }
    }
}
