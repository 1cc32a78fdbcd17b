//! Lock tables.
ghost use Rattle.std.specs.Prelude.{◌≡◌, ◌==◌, ◌++◌, ◌∷◌, false, not, [], filter, length, All, IfOk, IfNone, IfSome, OnOk, OnErr};
ghost use Rattle.registry_model.specs.Process.{is_process};
ghost use Rattle.protocol_model.specs.LockTable.{count, refused_for, give_back, drop_holder, drop_node, is_in_the_way};
ghost use Rattle.lock_table.specs.Ids.{id_of};
ghost use Rattle.lock_table.specs.Filed.{first_grant};
ghost use Rattle.lock_table.specs.Index.{IsListedUnder, is_under};
ghost use Rattle.lock_table.specs.Sound.{IsSound};
ghost use Rattle.lock_table.specs.Verdicts.{verdict_of, asked, IsFirstGrant};

use crate::grant::Key;
use crate::grants::AllGrants;
use crate::verdict::Verdict;
use std::alloc::{AllocError, Global};
use std::marker::Model;
use term::{LockId, Node, Pid, Requester};

/// Who has which locks at one node, and how often. Holders that ask in the name of one requester share a resource;
/// another requester is kept from it until they have given back all that they had.
///
/// Asking, counting and giving back cost no more for the other grants than a look-up, and so does each grant of a
/// holder that is dropped, or of a node.
#[derive(Debug, Drop)]
pub struct LockTable {
    grants: AllGrants,
    /// The number of the next first grant: the grants are listed as their numbers rise.
    next: u64,
}

impl Model for LockTable {
    ghost use Rattle.protocol_model.specs.LockTable.{Locks};
    ghost use Rattle.lock_table.specs.Filed.{listed, IsFiled};

    ghost Value = { Locks };

    ghost view = { λ t. listed t.next t.grants };

    ghost invariant = { λ t. IsFiled t.next t.grants };
}

impl LockTable {
    /// A table where nobody has a lock. It takes no memory yet.
    pub fn new(alloc: Global) -> LockTable
        ensures { result ≡ [] }
    {
        LockTable {
            grants: AllGrants::new(alloc),
            next: 0,
        }
    }

    /// The same table, in memory of its own.
    pub fn copy(&self) -> Result<Self, AllocError>
        ensures { IfOk result (λ copy. copy ≡ self.now) }
    {
        Ok(LockTable {
            grants: self.grants.copy()?,
            next: self.next,
        })
    }

    /// How many grants it has: one for each holder of a resource, however often that was granted to it.
    #[tactic(auto, using(crate::proofs::Counting::counted))]
    pub fn len(&self) -> usize
        ensures { result ≡ length self.now }
    {
        self.grants.len()
    }

    /// How often a holder has a lock, 0 where it has it not.
    pub fn count(&self, id: &LockId, holder: &Pid) -> u32
        ensures count { result ≡ count (id_of id.now) holder.now self.now }
        ensures sound { IsSound self.now }
    {
        match self.grants.get(&Key::of(id, holder)) {
            Some(held) if held.requester == id.requester => held.count,
            _ => 0,
        }
    }

    /// Asks for a lock. The holder has it once more, unless another requester has the resource or the holder's count is
    /// the greatest there is; then nothing changes. `AllocError`: there is no memory for the first grant of this id to
    /// this holder, or no number is left for it after 2^64 - 1 first grants, and nothing changes.
    pub fn ask(&mut self, id: LockId, holder: Pid) -> Result<Verdict, AllocError>
        ensures verdict { IfOk result (λ verdict. verdict ≡ verdict_of (refused_for (id_of id) holder self.old)) }
        ensures table { OnOk result (self.new ≡ asked (id_of id) holder self.old) }
        ensures unchanged { OnErr result (self.new ≡ self.old) }
        ensures err { OnErr result (IsFirstGrant (id_of id) holder self.old) }
    {
        if let Some(other) = self.grants.other_requester(&id.resource, &id.requester) {
            return Ok(Verdict::Refuse(other));
        }
        let key = Key::of(&id, &holder);
        match self.grants.get(&key) {
            Some(held) => {
                let count = held.count;
                if count == u32::MAX {
                    return Ok(Verdict::Refuse(id.requester));
                }
                self.grants.set_count(&key, count + 1);
            }
            None => self.file(key, id.requester)?,
        }
        Ok(Verdict::Grant)
    }

    /// Files the first grant of a key, whose resource no other requester has. A refusal changes nothing.
    fn file(&mut self, key: Key, requester: Requester) -> Result<(), AllocError>
        requires absent { All (λ g. is_under key g ≡ false) self.old }
        requires free { All (λ g. is_in_the_way (first_grant key requester).id g ≡ false) self.old }
        ensures ok { OnOk result (self.new ≡ self.old ++ first_grant key requester ∷ []) }
        ensures err { OnErr result (self.new ≡ self.old) }
    {
        let Some(next) = self.next.checked_add(1) else {
            return Err(AllocError);
        };
        self.grants.file(key, requester, self.next)?;
        self.next = next;
        Ok(())
    }

    /// Takes one count of a holder away, where there is one.
    pub fn give_back(&mut self, id: &LockId, holder: &Pid)
        ensures { self.new ≡ give_back (id_of id.now) holder.now self.old }
    {
        let key = Key::of(id, holder);
        let Some(held) = self.grants.get(&key) else {
            return;
        };
        if held.requester != id.requester {
            return;
        }
        let count = held.count;
        if count > 1 {
            self.grants.set_count(&key, count - 1);
        } else {
            self.remove(&key);
        }
    }

    /// Takes the grant that is filed under a key away, where there is one.
    fn remove(&mut self, key: &Key)
        ensures { self.new ≡ filter (λ g. not (is_under key.now g)) self.old }
    {
        self.grants.remove(key);
    }

    /// What one of a holder's grants is filed under, if the holder has any.
    fn first_of(&self, holder: &Pid) -> Option<Key>
        ensures some { IfSome result (λ key. IsListedUnder key self.now × (key.holder ≡ holder.now)) }
        ensures none { IfNone result (All (λ g. is_process g.holder holder.now ≡ false) self.now) }
    {
        self.grants.first_of(holder)
    }

    /// What one of the grants of a node's processes is filed under, if any of them has one.
    fn first_on(&self, node: &Node) -> Option<Key>
        ensures some { IfSome result (λ key. IsListedUnder key self.now × (key.holder.node ≡ node.now)) }
        ensures none { IfNone result (All (λ g. (g.holder.node == node.now) ≡ false) self.now) }
    {
        self.grants.first_on(node)
    }

    /// Takes all locks of a holder away.
    pub fn drop_holder(&mut self, holder: &Pid)
        ensures { self.new ≡ drop_holder holder.now self.old }
    {
        while let Some(first) = self.first_of(holder) {
            self.remove(&first);
        }
    }

    /// Takes all locks of a node's processes away.
    pub fn drop_node(&mut self, node: &Node)
        ensures { self.new ≡ drop_node node.now self.old }
    {
        while let Some(first) = self.first_on(node) {
            self.remove(&first);
        }
    }
}
