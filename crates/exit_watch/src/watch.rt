//! The watch of one node.
ghost use Rattle.std.specs.Prelude.{◌≡◌, true, false, nat_eq, nat_lt, Some, OnOk, OnErr, IfOk, IfErr};
ghost use Rattle.std.specs.Option.{option_map};
ghost use Rattle.std.specs.Set.{distinct_count};
ghost use Rattle.exit_watch.specs.Spans.{ends};
ghost use Rattle.registry_model.specs.Table.{Pair, Table, put};
ghost use Rattle.protocol_model.specs.Watch.{is_live, is_dead, is_issued, next_serial, with_spawned, with_dead, owed};
ghost use Rattle.protocol_model.specs.Event.{Calling, Exiting, Spawn, last_u32};
ghost use Rattle.exit_watch.specs.Faults.{Refuses, refusal_of, cause_of};
ghost use Rattle.exit_watch.specs.WatchState.{watch_from, process_of, serial_left, with_killed, is_unnoted, AreSuspected, KeepsSuspects};
ghost use Rattle.exit_watch.specs.declared.faults.WatchFault.TheVariants.{SerialsSpent, Memory};

use crate::dead::Dead;
use crate::faults::WatchFault;
use name_table::Names;
use std::alloc::{AllocError, Global};
use std::collections::BTreeSet;
use std::marker::Model;
use term::{Node, Pid};

/// The watch of one node over its processes.
#[derive(Drop)]
pub struct Watch {
    node: Node,
    /// The greatest serial given; 0 before the first.
    last_serial: u32,
    /// The serials of the dead, in the order of their deaths. One may be dead before it is given.
    dead: Dead,
    /// The dead that may own a name. Whoever isn't among them owns none, so nobody else is looked at.
    suspects: BTreeSet<u32>,
}

impl Model for Watch {
    ghost use Rattle.exit_watch.specs.WatchState.{WatchState, AreDead};

    ghost Value = { WatchState };

    ghost view = { λ w. record {
      node = w.node;
      watch = record { last_serial = w.last_serial; dead = w.dead };
      suspects = w.suspects.keys;
    } };

    ghost invariant = { λ w. AreDead (record {
      node = w.node;
      watch = record { last_serial = w.last_serial; dead = w.dead };
      suspects = w.suspects.keys;
    }) };
}

impl Watch {
    /// The watch of a node whose processes are all to come. It takes no memory.
    pub fn new(alloc: Global, node: Node) -> Self
        ensures { result ≡ watch_from node 0 }
    {
        Watch::resume(alloc, node, 0)
    }

    /// The watch of a node that has given the serials up to the last; their processes count as live. It takes no
    /// memory.
    pub fn resume(alloc: Global, node: Node, last_serial: u32) -> Self
        ensures { result ≡ watch_from node last_serial }
    {
        Watch {
            node,
            last_serial,
            dead: Dead::new(alloc),
            suspects: BTreeSet::new(alloc),
        }
    }

    /// The greatest serial that it has given; 0 before the first.
    pub fn last_serial(&self) -> u32
        ensures { result ≡ self.now.watch.last_serial }
    {
        self.last_serial
    }

    /// In how many spans it keeps the serials of the dead: as many as there are dead behind whom the next serial isn't dead.
    pub fn spans(&self) -> usize
        ensures { result ≡ distinct_count nat_eq (ends self.now.watch.dead) }
    {
        self.dead.spans()
    }

    /// The process of this node that has this serial.
    fn process(&self, serial: u32) -> Pid
        ensures { result ≡ process_of self.now serial }
    {
        Pid {
            node: self.node.copy(),
            serial,
        }
    }

    /// Whether the process of this serial is dead.
    fn is_dead(&self, serial: u32) -> bool
        ensures { result ≡ is_dead self.now.watch serial }
    {
        self.dead.contains(serial)
    }

    /// Whether the process lives here. A serial that wasn't given yet counts as live, unless it is dead already.
    pub fn is_live(&self, process: &Pid) -> bool
        ensures { result ≡ is_live self.now.node self.now.watch process.now }
    {
        process.node == self.node && process.serial != 0 && !self.is_dead(process.serial)
    }

    /// Whether it is a process of this node that was given its serial, or whose serial was passed over.
    pub fn is_issued(&self, process: &Pid) -> bool
        ensures { result ≡ is_issued self.now.node self.now.watch process.now }
    {
        process.node == self.node && process.serial != 0 && process.serial <= self.last_serial
    }

    /// The least serial above all given ones that isn't dead, if there is one.
    fn next_serial(&self) -> Option<u32>
        ensures { result ≡ serial_left self.now.watch }
    {
        let first = self.last_serial.checked_add(1)?;
        for serial in first..=u32::MAX {
            if !self.is_dead(serial) {
                return Some(serial);
            }
        }
        None
    }

    /// Whether no serial is left for a further process.
    pub fn is_spent(&self) -> bool
        ensures { result ≡ nat_lt last_u32 (next_serial self.now.watch) }
    {
        self.next_serial().is_none()
    }

    /// Why an exit of this process would be refused, if it would: it needs memory beside.
    pub fn exit_refusal(&self, process: &Pid) -> Option<WatchFault>
        ensures cause { Refuses (Exiting process.now) self.now (cause_of result) }
        ensures never_memory { result ≡ Some Memory → ⊥ }
    {
        if !self.is_issued(process) {
            return Some(WatchFault::NoSuchProcess);
        }
        if self.is_dead(process.serial) {
            return Some(WatchFault::AlreadyExited);
        }
        None
    }

    /// A new process, of the least serial above all given ones that isn't dead. It takes no memory.
    pub fn spawn(&mut self) -> Result<Pid, WatchFault>
        ensures refusal { Refuses (Calling Spawn) self.old (refusal_of result) }
        ensures process { IfOk result (λ process. process ≡ process_of self.old (next_serial self.old.watch)) }
        ensures ok { OnOk result (self.new
            ≡ record self.old { watch = with_spawned (next_serial self.old.watch) self.old.watch }) }
        ensures err { IfErr result (λ fault. fault ≡ SerialsSpent) }
        ensures suspected { KeepsSuspects self.old self.new }
        ensures unchanged { OnErr result (self.new ≡ self.old) }
    {
        let serial = self.next_serial().ok_or(WatchFault::SerialsSpent)?;
        self.last_serial = serial;
        Ok(self.process(serial))
    }

    /// The process dies, and is suspected to own a name.
    pub fn exit(&mut self, process: &Pid) -> Result<(), WatchFault>
        ensures refusal { Refuses (Exiting process.now) self.old (refusal_of result) }
        ensures node { self.new.node ≡ self.old.node }
        ensures ok { OnOk result (self.new.watch ≡ with_dead process.now.serial self.old.watch) }
        ensures suspected { KeepsSuspects self.old self.new }
        ensures unchanged { OnErr result (self.new ≡ self.old) }
    {
        match self.exit_refusal(process) {
            Some(fault) => Err(fault),
            None => self.bury(process.serial).map_err(|_| WatchFault::Memory),
        }
    }

    /// The process is dead from now on where it lives here, whether its serial was given or not; any other is passed
    /// over. Tells whether it lived here. Memory is refused only where it did.
    pub fn kill(&mut self, process: &Pid) -> Result<bool, AllocError>
        ensures lived { IfOk result (λ lived. lived ≡ is_live self.old.node self.old.watch process.now) }
        ensures node { self.new.node ≡ self.old.node }
        ensures ok { OnOk result (self.new.watch ≡ with_killed self.old.node process.now self.old.watch) }
        ensures suspected { KeepsSuspects self.old self.new }
        ensures unchanged { OnErr result (self.new ≡ self.old) }
        ensures refused { OnErr result (is_live self.old.node self.old.watch process.now ≡ true) }
    {
        let lived = self.is_live(process);
        if lived {
            self.bury(process.serial)?;
        }
        Ok(lived)
    }

    /// The process of this serial is dead from now on.
    fn bury(&mut self, serial: u32) -> Result<(), AllocError>
        requires { is_dead self.old.watch serial ≡ false }
        ensures node { self.new.node ≡ self.old.node }
        ensures ok { OnOk result (self.new.watch ≡ with_dead serial self.old.watch) }
        ensures suspected { KeepsSuspects self.old self.new }
        ensures unchanged { OnErr result (self.new ≡ self.old) }
    {
        self.suspects.insert(serial)?;
        // It was no suspect before, so where its death can't be noted it is none again.
        if let Err(refused) = self.dead.insert(serial) {
            self.suspects.remove(&serial);
            return Err(refused);
        }
        Ok(())
    }

    /// Notes that a name is about to be put for a process: the watch is to be told of each put. Memory is refused only for
    /// a dead process of its own that it hasn't noted yet.
    pub fn note_owner(&mut self, owner: &Pid) -> Result<(), AllocError>
        ensures node { self.new.node ≡ self.old.node }
        ensures watch { self.new.watch ≡ self.old.watch }
        ensures ok { OnOk result ((e : Pair) (t : Table) → e.owner ≡ owner.now → AreSuspected self.old t
            → AreSuspected self.new (put e t)) }
        ensures suspected { KeepsSuspects self.old self.new }
        ensures unchanged { OnErr result (self.new ≡ self.old) }
        ensures refused { OnErr result (is_unnoted self.old owner.now ≡ true) }
    {
        if owner.node == self.node && self.is_dead(owner.serial) {
            self.suspects.insert(owner.serial)?;
        }
        Ok(())
    }

    /// The process of the least dead serial that owns a name in the table, if there is one: its strike is owed.
    /// Suspects that own none are so no more. It takes no memory.
    pub fn owes<N: Names>(&mut self, names: &N) -> Option<Pid>
        requires { AreSuspected self.old (N.contents names.now) }
        ensures owed { result
            ≡ option_map (process_of self.old) (owed self.old.node (N.contents names.now) self.old.watch) }
        ensures node { self.new.node ≡ self.old.node }
        ensures watch { self.new.watch ≡ self.old.watch }
        ensures suspected { AreSuspected self.new (N.contents names.now) }
    {
        while let Some(serial) = self.suspects.first() {
            let process = self.process(*serial);
            if names.owned_by(&process).is_some() {
                return Some(process);
            }
            self.suspects.pop_first();
        }
        None
    }

    /// The same watch, in memory of its own.
    pub fn copy(&self) -> Result<Self, AllocError>
        ensures { IfOk result (λ copy. copy ≡ self.now) }
    {
        Ok(Watch {
            node: self.node.copy(),
            last_serial: self.last_serial,
            dead: self.dead.copy()?,
            suspects: self.suspects.clone()?,
        })
    }
}
