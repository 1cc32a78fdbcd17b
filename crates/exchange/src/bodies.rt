//! The letters of an admission.
ghost use Rattle.std.specs.Prelude.{◌≡◌, ◌≤◌, true, length, IfOk, OnOk};
ghost use Rattle.registry_model.specs.Process.{with_node};
ghost use Rattle.registry_model.specs.Table.{put_all, remove_all, is_rising};
ghost use Rattle.registry_model.specs.Settlement.{with_settled};
ghost use Rattle.protocol_model.specs.Letter.{Letter};
ghost use Rattle.term.specs.NodeSets.{set_of, with_node as and_node, with_older};
ghost use Rattle.term.specs.declared.limits.TheConstants.{MOST_NODES};
ghost use Rattle.exchange.specs.Bodies.{admit_letter, welcome_letter};

use crate::notices::Noted;
use crate::settled::Settled;
use name_table::{Change, Names, Pair, copied_pairs};
use std::alloc::{AllocError, Global};
use term::{Name, Node, NodeSet, Pid};

/// What each member is told of a join: the body of `Admit`.
#[derive(Debug, PartialEq, Eq, Drop)]
pub struct Admission {
    /// The node that joins.
    pub joiner: Node,
    /// The names of the joiner that are put, rising.
    pub puts: Vec<Pair>,
    /// The names that nobody has from then on, rising.
    pub removes: Vec<Name>,
    /// The processes that die, each once.
    pub kills: Vec<Pid>,
    /// The notices that are sent, rising by name.
    pub notices: Vec<Noted>,
}

/// What the joiner is told: the body of `Welcome`.
#[derive(Debug, PartialEq, Eq, Drop)]
pub struct Welcome {
    /// The members, with the joiner.
    pub members: NodeSet,
    /// The cluster's table as it is when all that was settled is written, rising.
    pub pairs: Vec<Pair>,
    /// Of each name the last node that the sponsor was told has left; it was told so of all older ones, too.
    pub told: NodeSet,
    /// The processes that die, each once.
    pub kills: Vec<Pid>,
    /// The notices that are sent, rising by name.
    pub notices: Vec<Noted>,
}

/// The same processes.
fn copied(alloc: Global, processes: &[Pid]) -> Result<Vec<Pid>, AllocError>
    ensures { IfOk result (λ copy. copy.items ≡ processes.now) }
{
    processes.iter().map(|pid| pid.copy()).collect(alloc)
}

/// The same names.
fn copied_names(alloc: Global, names: &[Name]) -> Result<Vec<Name>, AllocError>
    ensures { IfOk result (λ copy. copy.items ≡ names.now) }
{
    names.iter().map(|name| name.copy()).collect(alloc)
}

/// The same notices, each with who is sent it.
fn copied_noted(alloc: Global, notices: &[Noted]) -> Result<Vec<Noted>, AllocError>
    ensures { IfOk result (λ copy. copy.items ≡ notices.now) }
{
    notices.iter().map(|noted| noted.copy()).collect(alloc)
}

/// These are put, in order.
fn put_each<N: Names>(table: &mut N, pairs: &[Pair]) -> Result<(), AllocError>
    ensures { OnOk result (N.contents table.new ≡ put_all pairs.now (N.contents table.old)) }
{
    for pair in pairs {
        table.write(Change::Put(pair.copy()))?;
    }
    Ok(())
}

/// Nobody has these names from now on.
fn remove_each<N: Names>(table: &mut N, names: &[Name]) -> Result<(), AllocError>
    ensures { OnOk result (N.contents table.new ≡ remove_all names.now (N.contents table.old)) }
{
    for name in names {
        table.write(Change::Remove(name.copy()))?;
    }
    Ok(())
}

impl Admission {
    /// The same admission, in memory of its own.
    pub fn copy(&self) -> Result<Self, AllocError>
        ensures { IfOk result (λ copy. admit_letter copy ≡ admit_letter self.now) }
    {
        let alloc: Global = *self.puts.allocator();
        Ok(Admission {
            joiner: self.joiner.copy(),
            puts: copied_pairs(&self.puts)?,
            removes: copied_names(alloc, self.removes.as_slice())?,
            kills: copied(alloc, self.kills.as_slice())?,
            notices: copied_noted(alloc, self.notices.as_slice())?,
        })
    }
}

impl Welcome {
    /// The same welcome, in memory of its own.
    pub fn copy(&self) -> Result<Self, AllocError>
        ensures { IfOk result (λ copy. welcome_letter copy ≡ welcome_letter self.now) }
    {
        let alloc: Global = *self.pairs.allocator();
        Ok(Welcome {
            members: self.members.copy(),
            pairs: copied_pairs(&self.pairs)?,
            told: self.told.copy(),
            kills: copied(alloc, self.kills.as_slice())?,
            notices: copied_noted(alloc, self.notices.as_slice())?,
        })
    }
}

/// What each member is told of a join that was settled so.
pub fn admit_of(alloc: Global, joiner: &Node, settled: &Settled) -> Result<Admission, AllocError>
    ensures { IfOk result (λ body. admit_letter body
        ≡ Letter.Admit joiner.now settled.now) }
{
    Ok(Admission {
        joiner: joiner.copy(),
        puts: copied_pairs(&settled.puts)?,
        removes: copied_names(alloc, settled.removes.as_slice())?,
        kills: copied(alloc, settled.kills.as_slice())?,
        notices: copied_noted(alloc, settled.notices.as_slice())?,
    })
}

/// What the joiner is told of a join that was settled so: of the sponsor's members and table as they are before it, and
/// of the nodes that the sponsor was told have left. There must be room for the joiner among the members.
pub fn welcome_of<N: Names<Memory = Global>>(
    alloc: Global,
    joiner: &Node,
    table: &N,
    members: &NodeSet,
    told: &NodeSet,
    settled: &Settled,
) -> Result<Welcome, AllocError>
    requires { length (and_node members.now joiner.now) ≤ MOST_NODES }
    ensures letter { IfOk result (λ body. welcome_letter body
        ≡ Letter.Welcome (with_node joiner.now (set_of members.now))
        (with_settled settled.now (N.contents table.now)) (with_older told.now) settled.now.fate) }
    ensures rising { IfOk result (λ body. is_rising body.pairs.items ≡ true) }
{
    let mut after = table.copy(alloc)?;
    put_each(&mut after, settled.puts.as_slice())?;
    remove_each(&mut after, settled.removes.as_slice())?;
    Ok(Welcome {
        members: members.with(joiner),
        pairs: after.pairs(alloc)?,
        told: told.copy(),
        kills: copied(alloc, settled.kills.as_slice())?,
        notices: copied_noted(alloc, settled.notices.as_slice())?,
    })
}
