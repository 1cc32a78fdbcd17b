//! The threads of all nodes of a cluster: started, and ended.
ghost use Rattle.std.specs.Prelude.{◌≡◌, ◌<◌, ◌++◌, ◌∷◌, [], true, map, IfOk, OnOk, IfSome, MatchOption};
ghost use Rattle.node_seats.specs.Callers.{nodes_at};
ghost use Rattle.node_seats.specs.Seats.{new_seat};
ghost use Rattle.node_threads.specs.Wires.{inboxes};
ghost use Rattle.node_threads.specs.Berths.{wired_of};
ghost use Rattle.replay.specs.Ends.{end_by};
ghost use Rattle.node_threads.specs.Ended.{AllReturn, AllPast};

use crate::berth::Berth;
use crate::intake::Intake;
use crate::running::{Returned, Running};
use crate::shared::Shared;
use name_table::Names;
use node_loop::{Gate, Item, NodeEnd, Record};
use node_seats::{FreeSeat, InboxLine, Past, Place};
use std::alloc::{AllocError, Global};
use std::sync::Wait;
use std::thread::Threads;
use std::time::Clock;
use term::SLOTS;

/// What all threads gave back, in the order of their nodes.
#[derive(Drop)]
pub(crate) struct Gathered<N: Names, L: Record> {
    pub(crate) ends: Vec<NodeEnd<N, L>>,
    /// The lines of each node.
    pub(crate) rows: Vec<Vec<InboxLine<Item>>>,
    pub(crate) intakes: Vec<Intake>,
    /// The book of each node.
    pub(crate) pasts: Vec<Past>,
}

/// One past more, if there is one, and memory for it.
fn put(pasts: &mut Vec<Past>, past: Option<Past>) -> bool
    ensures { result ≡ true → MatchOption past ⊥ (λ p. pasts.new.items ≡ pasts.old.items ++ p ∷ []) }
{
    match past {
        Some(past) => pasts.push(past).is_ok(),
        None => false,
    }
}

impl<N: Names<Memory = Global>, L: Record> Gathered<N, L> {
    /// Nothing was given back yet. It takes no memory.
    fn new(alloc: Global) -> Self
        ensures ends { result.ends.items ≡ [] }
        ensures rows { result.rows.items ≡ [] }
        ensures intakes { result.intakes.items ≡ [] }
        ensures pasts { result.pasts.items ≡ [] }
    {
        Gathered {
            ends: Vec::new(alloc),
            rows: Vec::new(alloc),
            intakes: Vec::new(alloc),
            pasts: Vec::new(alloc),
        }
    }

    /// One thread more gave this back. Whether its book was sealed, and there was memory for it: it isn't kept where one of the lists couldn't
    /// grow.
    fn add(&mut self, returned: Returned<N, L>) -> bool
        ensures ends { result ≡ true → self.new.ends.items ≡ self.old.ends.items ++ returned.end ∷ [] }
        ensures rows { result ≡ true → self.new.rows.items ≡ self.old.rows.items ++ returned.lines ∷ [] }
        ensures intakes { result ≡ true → self.new.intakes.items ≡ self.old.intakes.items ++ returned.intake ∷ [] }
        ensures pasts { result ≡ true → MatchOption returned.past ⊥ (λ past. self.new.pasts.items ≡ self.old.pasts.items ++ past ∷ []) }
    {
        let Returned {
            end,
            lines,
            intake,
            past,
        } = returned;
        // No way out in the midst: each that is given back is either kept or dropped here.
        let has_end = self.ends.push(end).is_ok();
        let has_row = self.rows.push(lines).is_ok();
        let has_intake = self.intakes.push(intake).is_ok();
        let has_past = put(&mut self.pasts, past);
        has_end && has_row && has_intake && has_past
    }
}

/// Starts the threads of these nodes, one after another, up to the first that can't be started.
fn launch_each<G, N, L, R>(
    rt: &R,
    berths: Vec<Berth<G, N, L, R>>,
    running: &mut Vec<Running<N, L>>,
) -> Result<(), AllocError>
where
    G: Gate + Drop + Send + Sync + 'static,
    N: Names<Memory = Global> + Send + 'static,
    L: Record + Send + 'static,
    R: Threads + Wait + Clock + Drop + Copy + Send + 'static,
    ensures { OnOk result (running.new.items ≡ running.old.items ++ wired_of berths.items) }
{
    running.reserve(berths.len())?;
    for berth in berths {
        running.push_reserved(berth.launch(rt)?);
    }
    Ok(())
}

/// Starts the threads of these nodes. Where one can't be started, those that were are ended again.
pub(crate) fn launch_all<G, N, L, R>(
    rt: &R,
    alloc: Global,
    berths: Vec<Berth<G, N, L, R>>,
) -> Result<Vec<Running<N, L>>, AllocError>
where
    G: Gate + Drop + Send + Sync + 'static,
    N: Names<Memory = Global> + Send + 'static,
    L: Record + Send + 'static,
    R: Threads + Wait + Clock + Drop + Copy + Send + 'static,
    ensures { IfOk result (λ running. running.items ≡ wired_of berths.items) }
{
    let mut running = Vec::new(alloc);
    match launch_each(rt, berths, &mut running) {
        Ok(()) => Ok(running),
        Err(fault) => {
            end_all(rt, alloc, running);
            Err(fault)
        }
    }
}

/// A seat of this place that may become one at each of these nodes.
pub(crate) fn free_seat_of<G, N, L>(
    alloc: Global,
    running: &mut [Running<N, L>],
    shared: &Shared<G>,
    place: Place,
) -> Result<FreeSeat, AllocError>
where
    G: Gate + Drop + Send + Sync + 'static,
    N: Names<Memory = Global> + Send + 'static,
    L: Record + Send + 'static,
    requires { place.slot < SLOTS }
    ensures same { running.new ≡ running.old }
    ensures seats { IfOk result (λ free. free ≡ map (new_seat place (nodes_at shared.now.hub.value)) (inboxes running.old)) }
{
    let mut free = FreeSeat::new(alloc);
    for one in running.iter_mut() {
        free.add(one.caller(&shared.hub, place, shared.yields)?)?;
    }
    Ok(free)
}

/// Asks these threads to end, and waits until all have. Gives what they gave back, where there is memory for it, and each book was sealed.
pub(crate) fn end_all<N, L, R>(
    rt: &R,
    alloc: Global,
    running: Vec<Running<N, L>>,
) -> Option<Gathered<N, L>>
where
    N: Names<Memory = Global> + Send + 'static,
    L: Record + Send + 'static,
    R: Threads,
    ensures back { IfSome result (λ all. AllReturn running.items (map (end_by N.contents L.logged) all.ends.items) (map (λ row. row.items) all.rows.items) all.intakes.items) }
    ensures pasts { IfSome result (λ all. AllPast running.items (map (end_by N.contents L.logged) all.ends.items) all.pasts.items) }
{
    for one in &running {
        one.stop();
    }
    let mut gathered = Gathered::new(alloc);
    let mut whole = true;
    for one in running {
        let returned = one.join(rt);
        if !gathered.add(returned) {
            whole = false;
        }
    }
    if whole { Some(gathered) } else { None }
}
