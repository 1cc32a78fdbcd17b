//! A copy of a node.
ghost use Rattle.std.specs.Prelude.{◌≡◌, IfOk};
ghost use Rattle.transaction.specs.Work.{IsCopyOf};
ghost use Rattle.node_core.specs.Copies.{IsSamePhase, IsAsBounded};
ghost use Rattle.node_core.specs.Steps.{IsAsBefore};

use crate::node::{NodeCore, Phase};
use exchange::NoticeLists;
use exit_watch::Watch;
use lock_calls::LockCalls;
use lock_table::LockTable;
use name_table::Names;
use std::alloc::{AllocError, Global};
use transaction::Registrar;

impl Phase {
    /// The same phase. Memory is refused only for a list of names, which no operation is answered.
    fn copy(&self) -> Result<Self, AllocError>
        ensures { IfOk result (IsSamePhase self.now) }
    {
        Ok(match self {
            Phase::Asking(round) => Phase::Asking(round.copy()),
            Phase::Waiting => Phase::Waiting,
            Phase::Writing(asked, None) => Phase::Writing(asked.copy(), None),
            Phase::Writing(asked, Some(reply)) => {
                Phase::Writing(asked.copy(), Some(reply.copy()?))
            }
            Phase::Joining(number, contact) => Phase::Joining(*number, contact.copy()),
        })
    }
}

/// What a node has of names and locks, in memory of its own: its table, what its processes were sent, and its locks.
fn copied_tables<N: Names<Memory = Global>>(
    alloc: Global,
    table: &N,
    notices: &NoticeLists,
    locks: &LockTable,
) -> Result<(N, NoticeLists, LockTable), AllocError>
    ensures table { IfOk result (λ copies. N.contents copies.0 ≡ N.contents table.now) }
    ensures notices { IfOk result (λ copies. copies.1 ≡ notices.now) }
    ensures locks { IfOk result (λ copies. copies.2 ≡ locks.now) }
{
    let table = table.copy(alloc)?;
    let notices = notices.copy()?;
    Ok((table, notices, locks.copy()?))
}

/// What a node has of its processes, in memory of its own: whose exits it watches, and their lock calls.
fn copied_clients(watch: &Watch, calls: &LockCalls) -> Result<(Watch, LockCalls), AllocError>
    ensures watch { IfOk result (λ copies. copies.0 ≡ watch.now) }
    ensures calls { IfOk result (λ copies. copies.1 ≡ calls.now) }
{
    let watch = watch.copy()?;
    Ok((watch, calls.copy()?))
}

/// The operations of a node, in memory of their own, and where the current one stands.
fn copied_work(registrar: &Registrar, phase: &Phase) -> Result<(Registrar, Phase), AllocError>
    ensures registrar { IfOk result (λ copies. IsCopyOf registrar.now copies.0) }
    ensures phase { IfOk result (λ copies. IsSamePhase phase.now copies.1) }
{
    let registrar = registrar.copy()?;
    Ok((registrar, phase.copy()?))
}

impl<N: Names<Memory = Global>> NodeCore<N> {
    /// The same node, in memory of its own, as the protocol sees it.
    pub(super) fn copy(&self) -> Result<Self, AllocError>
        ensures copy { IfOk result (IsAsBefore self.now) }
        ensures bounds { IfOk result (IsAsBounded self.now) }
    {
        let (registrar, phase) = copied_work(&self.registrar, &self.phase)?;
        let (watch, calls) = copied_clients(&self.watch, &self.calls)?;
        let (table, notices, locks) = copied_tables(
            self.alloc,
            &self.table,
            &self.notices,
            &self.locks,
        )?;
        Ok(NodeCore {
            alloc: self.alloc,
            node: self.node.copy(),
            world: self.world.copy(),
            members: self.members.copy(),
            told: self.told.copy(),
            joined: self.joined,
            table,
            notices,
            locks,
            watch,
            registrar,
            phase,
            calls,
            last_call: self.last_call,
        })
    }
}
