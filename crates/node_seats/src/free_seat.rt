//! Seats whose nodes are yet to be chosen.
ghost use Rattle.std.specs.Prelude.{◌≡◌, ◌==◌, ◌++◌, ◌∷◌, [], Some, None, IfOk, OnOk, IfErr, OnErr};
ghost use Rattle.std.specs.List.{position};
ghost use Rattle.node_seats.specs.Callers.{name_of};
ghost use Rattle.node_seats.specs.Seats.{sitting, first_at};

use crate::caller::Caller;
use crate::seat::Seat;
use std::alloc::{AllocError, Global};
use std::marker::Model;
use term::NodeName;

/// A seat whose node is yet to be chosen. It may go to another thread. Contracts see the seats that it may become, at which nothing
/// was asked: one for each caller that it was given.
#[derive(Drop)]
pub struct FreeSeat {
    callers: Vec<Caller>,
}

impl Model for FreeSeat {
    ghost use Rattle.std.specs.Prelude.{List, [], map};
    ghost use Rattle.node_seats.specs.Seats.{Sitting, sitting};

    ghost Value = { List Sitting };

    ghost view = { λ f. map (λ caller. sitting caller []) f.callers.items };
}

/// The place of the first of these callers that asks the node of this name.
fn place_of(callers: &[Caller], node: &NodeName) -> Option<usize>
    ensures { result ≡ position (λ caller. name_of caller == node.now) callers.now }
{
    callers
        .iter()
        .position(|caller| caller.node().is_first_of(node))
}

impl FreeSeat {
    /// One that can't be at any node yet. It takes no memory.
    pub fn new(alloc: Global) -> Self
        ensures { result ≡ [] }
    {
        FreeSeat {
            callers: Vec::new(alloc),
        }
    }

    /// By this caller it may be at one node more.
    pub fn add(&mut self, caller: Caller) -> Result<(), AllocError>
        ensures ok { OnOk result (self.new ≡ self.old ++ sitting caller [] ∷ []) }
        ensures err { OnErr result (self.new ≡ self.old) }
    {
        self.callers.push(caller)?;
        Ok(())
    }

    /// The seat at the node of this name. Where it can't be there, it is given back.
    pub fn at(self, alloc: Global, node: &NodeName) -> Result<Seat, Self>
        ensures ok { IfOk result (λ seat. first_at node.now self ≡ Some seat) }
        ensures err { IfErr result (λ free. (free ≡ self) × (first_at node.now self ≡ None)) }
    {
        let FreeSeat { mut callers } = self;
        match place_of(callers.as_slice(), node) {
            Some(place) => Ok(Seat::new(alloc, callers.swap_remove(place))),
            None => Err(FreeSeat { callers }),
        }
    }
}
