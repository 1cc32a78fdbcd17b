//! All nodes of a cluster before their threads start.
ghost use Rattle.std.specs.Prelude.{◌≡◌, ◌+◌, ◌≤◌, ◌++◌, true, None, map, length, All, IfOk, OnOk};
ghost use Rattle.std.specs.Vec.{vec_len};
ghost use Rattle.term.specs.Nodes.{IsFirst};
ghost use Rattle.term.specs.NodeSets.{set_of};
ghost use Rattle.node_loop.specs.Openings.{start_refused, IsOpening};
ghost use Rattle.node_threads.specs.Wires.{name_of, AreWired, IsCrew};
ghost use Rattle.node_threads.specs.Berths.{wired_of, next_line, one_more, opened_of, IsOpened};
ghost use Rattle.term.specs.declared.limits.TheConstants.{MOST_NODES};

use crate::berth::Berth;
use crate::shared::Shared;
use name_table::Names;
use node_loop::{Gate, Item, Opening, Record};
use node_seats::InboxLine;
use std::alloc::{AllocError, Global};
use std::sync::Wait;
use term::{Node, NodeName};

/// Opens the inboxes of the first nodes of these names, behind those that were opened before.
fn open_all<G, N, L, R>(
    rt: &R,
    alloc: Global,
    shared: &Shared<G>,
    opening: &Opening,
    nodes: &[NodeName],
    berths: &mut Vec<Berth<G, N, L, R>>,
) -> Result<(), AllocError>
where
    G: Gate + Drop,
    N: Names<Memory = Global>,
    L: Record,
    R: Wait + Drop + Copy,
    requires known { All (λ c. set_of opening.now.nodes c ≡ true) nodes.now }
    requires few { vec_len berths.old + length nodes.now ≤ MOST_NODES }
    requires opened { All (IsOpened opening.now) berths.old.items }
    ensures names { OnOk result (map name_of (wired_of berths.new.items) ≡ map name_of (wired_of berths.old.items) ++ nodes.now) }
    ensures opened { OnOk result (All (IsOpened opening.now) berths.new.items) }
{
    for node in nodes {
        let place = berths.len() as u32;
        let own = Node::first(node.copy());
        berths.push(Berth::open(rt, alloc, shared, opening, &own, place)?)?;
    }
    Ok(())
}

/// A line to each of these nodes.
fn lines_to<G, N, L, R>(
    alloc: Global,
    berths: &mut [Berth<G, N, L, R>],
) -> Result<Vec<InboxLine<Item>>, AllocError>
where
    G: Gate + Drop,
    N: Names<Memory = Global>,
    L: Record,
    R: Wait + Drop + Copy,
    ensures more { OnOk result (berths.new ≡ map one_more berths.old) }
    ensures lines { IfOk result (λ lines. lines.items ≡ map next_line berths.old) }
{
    let mut lines = Vec::new(alloc);
    for berth in berths.iter_mut() {
        lines.push(berth.line()?)?;
    }
    Ok(lines)
}

/// Connects all these nodes with one another, and each with itself. The lines of each have the number of its place.
fn connect<G, N, L, R>(alloc: Global, berths: &mut [Berth<G, N, L, R>]) -> Result<(), AllocError>
where
    G: Gate + Drop,
    N: Names<Memory = Global>,
    L: Record,
    R: Wait + Drop + Copy,
    requires { All (λ b. b.made ≡ 1) berths.old }
    ensures wired { OnOk result (AreWired (wired_of berths.new)) }
    ensures opened { OnOk result (map opened_of berths.new ≡ map opened_of berths.old) }
{
    for place in 0..berths.len() {
        let lines = lines_to(alloc, berths)?;
        berths[place].connect(lines);
    }
    Ok(())
}

/// The berths of all nodes of a world that opens so, connected with one another.
pub(crate) fn berths_of<G, N, L, R>(
    rt: &R,
    alloc: Global,
    shared: &Shared<G>,
    opening: &Opening,
    cluster: &[NodeName],
    lone: &[NodeName],
) -> Result<Vec<Berth<G, N, L, R>>, AllocError>
where
    G: Gate + Drop,
    N: Names<Memory = Global>,
    L: Record,
    R: Wait + Drop + Copy,
    requires lists { start_refused cluster.now lone.now ≡ None }
    requires opens { IsOpening cluster.now lone.now opening.now }
    requires first { All IsFirst opening.now.nodes }
    ensures { IfOk result (λ berths. IsCrew cluster.now lone.now (wired_of berths.items)) }
{
    let mut berths = Vec::new(alloc);
    open_all(rt, alloc, shared, opening, cluster, &mut berths)?;
    open_all(rt, alloc, shared, opening, lone, &mut berths)?;
    connect(alloc, berths.as_mut_slice())?;
    Ok(berths)
}
