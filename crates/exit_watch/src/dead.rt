//! The dead of a node.
ghost use Rattle.std.specs.Prelude.{◌≡◌, ◌==◌, ◌+◌, ◌∷◌, ◌++◌, [], false, nat_eq, OnOk, OnErr, IfOk};
ghost use Rattle.std.specs.List.{list_any};
ghost use Rattle.std.specs.Set.{distinct_count};
ghost use Rattle.exit_watch.specs.Spans.{ends};

use crate::spans::{add, has};
use past::Trace;
use std::alloc::{AllocError, Global};
use std::collections::BTreeMap;
use std::marker::Model;

/// The serials of the dead. Contracts see them in the order of their deaths; memory has as many spans as there are gaps
/// among them, and each call costs a few look-ups of a span.
#[derive(Drop)]
pub struct Dead {
    /// Where each span begins, under where it ends.
    spans: BTreeMap<u32, u32>,
    order: Trace<u32, ()>,
}

impl Model for Dead {
    ghost use Rattle.std.specs.Prelude.{List, ℕ, map};
    ghost use Rattle.exit_watch.specs.Spans.{AreApart, AreSpanned};

    ghost Value = { List ℕ };

    ghost view = { λ d. map (λ e. e.0) d.order.items };

    ghost invariant = { λ d. AreApart d.spans.entries × AreSpanned d.spans.entries (map (λ e. e.0) d.order.items) };
}

impl Dead {
    /// Nobody. It takes no memory.
    pub fn new(alloc: Global) -> Self
        ensures { result ≡ [] }
    {
        Dead {
            spans: BTreeMap::new(alloc),
            order: Trace::new(),
        }
    }

    /// Whether this serial is dead.
    pub fn contains(&self, serial: u32) -> bool
        ensures { result ≡ list_any (λ d. d == serial) self.now }
    {
        has(&self.spans, serial)
    }

    /// How many spans there are: as many as there are dead behind whom the next serial isn't dead.
    #[tactic(auto, using(crate::proofs::Counting::counted))]
    pub fn spans(&self) -> usize
        ensures { result ≡ distinct_count nat_eq (ends self.now) }
    {
        self.spans.len()
    }

    /// This serial is dead from now on. Where memory is refused nothing changes: then it isn't dead, nor is the next.
    pub fn insert(&mut self, serial: u32) -> Result<(), AllocError>
        ensures ok { OnOk result (self.new ≡ self.old ++ serial ∷ []) }
        ensures err { OnErr result (self.new ≡ self.old) }
        ensures refused { OnErr result (list_any (λ d. d == serial) self.old ≡ false) }
        ensures refused_next { OnErr result (list_any (λ d. d == serial + 1) self.old ≡ false) }
    {
        add(&mut self.spans, serial)?;
        self.order = self.order.and(&serial, &());
        Ok(())
    }

    /// The same dead, in memory of their own.
    pub fn copy(&self) -> Result<Self, AllocError>
        ensures { IfOk result (λ copy. copy ≡ self.now) }
    {
        Ok(Dead {
            spans: self.spans.clone()?,
            order: self.order.again(),
        })
    }
}
