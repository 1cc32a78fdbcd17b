//! The links between the nodes of a cluster.
ghost use Rattle.std.specs.Prelude.{ℕ, ◌≡◌, ◌==◌, ◌↔◌, ◌<◌, ◌+◌, ◌*◌, [], length, slice_index_or, if◌then◌else◌, All, IfOk, IsTrue};
ghost use Rattle.std.specs.List.Sorted.{IsStrictlyIncreasing};
ghost use Rattle.link.specs.MeshState.{place};

use crate::faults::{LinkFault, Unsent};
use crate::link::Link;
use crate::link_place::LinkPlace;
use std::alloc::{AllocError, Global};
use std::marker::Model;
use term::{MOST_NODES, Node};

/// One link for each ordered pair of nodes.
#[derive(Drop)]
pub struct Mesh<L> {
    nodes: Vec<Node>,
    links: Vec<Link<L>>,
    closed: [bool; MOST_NODES],
}

impl<L> Model for Mesh<L> {
    ghost use Rattle.link.specs.MeshState.{MeshState, IsWhole};

    ghost Value = { MeshState L };

    ghost view = { λ m. record { nodes = m.nodes.items; links = m.links.items; closed = m.closed } };

    ghost invariant = { λ m. IsWhole (record { nodes = m.nodes.items; links = m.links.items; closed = m.closed }) };
}

/// Whether each node is less than the next.
pub fn are_rising(nodes: &[Node]) -> bool
    ensures { IsTrue result ↔ IsStrictlyIncreasing nodes.now }
{
    for place in 1..nodes.len() {
        if nodes[place - 1] >= nodes[place] {
            return false;
        }
    }
    true
}

/// A list of the same nodes.
fn copied(alloc: Global, nodes: &[Node]) -> Result<Vec<Node>, AllocError>
    ensures { IfOk result (λ copy. copy.items ≡ nodes.now) }
{
    let mut copy = Vec::new(alloc);
    for node in nodes {
        copy.push(node.copy())?;
    }
    Ok(copy)
}

/// Links without letters, for as many nodes as there may be.
fn new_links<L: Drop>(alloc: Global) -> Result<Vec<Link<L>>, AllocError>
    ensures count { IfOk result (λ links. length links.items ≡ MOST_NODES * MOST_NODES) }
    ensures empty { IfOk result (λ links. All (λ link. link ≡ []) links.items) }
{
    let mut links = Vec::new(alloc);
    for _ in 0..MOST_NODES * MOST_NODES {
        links.push(Link::new(alloc))?;
    }
    Ok(links)
}

/// The place of a node among these.
fn place_of(nodes: &[Node], node: &Node) -> Option<usize>
    ensures { result ≡ place node.now nodes.now }
{
    nodes.iter().position(|own| *own == *node)
}

/// Empties all links towards a receiver.
fn clear_towards<L: Drop>(links: &mut [Link<L>], receiver: usize)
    requires links { length links.old ≡ MOST_NODES * MOST_NODES }
    requires receiver { receiver < MOST_NODES }
    ensures count { length links.new ≡ MOST_NODES * MOST_NODES }
    ensures cleared { (i j : ℕ) → i < MOST_NODES → j < MOST_NODES → slice_index_or links.new (i * MOST_NODES + j) []
        ≡ (if j == receiver then [] else slice_index_or links.old (i * MOST_NODES + j) []) }
{
    for sender in 0..MOST_NODES {
        links[sender * MOST_NODES + receiver].clear();
    }
}

impl<L: Drop> Mesh<L> {
    ghost use Rattle.std.specs.Prelude.{◌≡◌, ◌≤◌, ◌<◌, ◌∷◌, [], true, Some, None, length, IfOk, OnOk, OnErr, IfErr};
    ghost use Rattle.std.specs.List.{slice_get};
    ghost use Rattle.std.specs.Option.{option_copied};
    ghost use Rattle.std.specs.List.Sorted.{IsStrictlyIncreasing};
    ghost use Rattle.protocol_model.specs.Links.{no_letters, posted, taken, closed_out, is_nil};
    ghost use Rattle.link.specs.MeshState.{place, has, seen, only_to, node_at, from_of, to_of, IsWithin, WaitsFrom, WaitsFirst, WaitsFirstOn, WaitsTowards};
    ghost use Rattle.link.specs.Faults.{joins, IsLinkOf, IsUnsent, IsUndelivered, IsStranger};
    ghost use Rattle.link.specs.Reopening.{reopened};

    /// Links without letters between these nodes, which rise.
    pub fn new(alloc: Global, nodes: &[Node]) -> Result<Mesh<L>, AllocError>
        requires rising { IsStrictlyIncreasing nodes.now }
        requires few { length nodes.now ≤ MOST_NODES }
        ensures nodes { IfOk result (λ mesh. mesh.nodes ≡ nodes.now) }
        ensures empty { IfOk result (λ mesh. seen mesh ≡ no_letters) }
    {
        Ok(Mesh {
            nodes: copied(alloc, nodes)?,
            links: new_links(alloc)?,
            closed: [false; MOST_NODES],
        })
    }

    /// The place of a node.
    pub fn place(&self, node: &Node) -> Option<usize>
        ensures { result ≡ place node.now self.now.nodes }
    {
        place_of(self.nodes.as_slice(), node)
    }

    /// The link from one node to another, if both are of the mesh.
    pub fn link(&self, from: &Node, to: &Node) -> Option<LinkPlace>
        ensures { IsLinkOf result from.now to.now self.now }
    {
        let sender = self.place(from)?;
        let receiver = self.place(to)?;
        Some(LinkPlace { sender, receiver })
    }

    /// The nodes that a link is from and to.
    pub fn ends(&self, link: LinkPlace) -> (Node, Node)
        requires { IsWithin link self.now }
        ensures { result ≡ (from_of link self.now, to_of link self.now) }
    {
        (
            self.nodes[link.sender].copy(),
            self.nodes[link.receiver].copy(),
        )
    }

    /// Puts a letter at the back of a link. What goes to a node that was closed out vanishes.
    pub fn send(&mut self, from: &Node, to: &Node, letter: L) -> Result<(), Unsent<L>>
        ensures nodes { self.new.nodes ≡ self.old.nodes }
        ensures known { OnOk result (joins from.now to.now self.old ≡ true) }
        ensures ok { OnOk result (seen self.new ≡ posted from.now (only_to to.now letter) (seen self.old)) }
        ensures unchanged { OnErr result (self.new ≡ self.old) }
        ensures returned { IfErr result (λ unsent. unsent.letter ≡ letter) }
        ensures err { IfErr result (λ unsent. IsUnsent unsent.fault from.now to.now self.old) }
    {
        match self.place(from) {
            Some(sender) => self.send_from(sender, to, letter),
            None => Err(Unsent {
                fault: LinkFault::NoSuchNode,
                letter,
            }),
        }
    }

    /// Puts a letter at the back of the link from the node at this place, as `send` does.
    pub fn send_from(&mut self, sender: usize, to: &Node, letter: L) -> Result<(), Unsent<L>>
        requires { sender < length self.old.nodes }
        ensures nodes { self.new.nodes ≡ self.old.nodes }
        ensures known { OnOk result (has to.now self.old ≡ true) }
        ensures ok { OnOk result (seen self.new ≡ posted (node_at sender self.old) (only_to to.now letter) (seen self.old)) }
        ensures unchanged { OnErr result (self.new ≡ self.old) }
        ensures returned { IfErr result (λ unsent. unsent.letter ≡ letter) }
        ensures err { IfErr result (λ unsent. IsUnsent unsent.fault (node_at sender self.old) to.now self.old) }
    {
        let Some(receiver) = self.place(to) else {
            return Err(Unsent {
                fault: LinkFault::NoSuchNode,
                letter,
            });
        };
        if self.closed[receiver] {
            return Ok(());
        }
        self.links[LinkPlace { sender, receiver }.index()].push(letter)
    }

    /// The oldest letter on a link.
    pub fn front(&self, from: &Node, to: &Node) -> Option<&L>
        ensures { option_copied result ≡ slice_get ((seen self.now).queue from.now to.now) 0 }
    {
        self.front_at(self.link(from, to)?)
    }

    /// The oldest letter on the link at this place.
    pub fn front_at(&self, link: LinkPlace) -> Option<&L>
        requires { IsWithin link self.now }
        ensures { option_copied result ≡ slice_get ((seen self.now).queue (from_of link self.now) (to_of link self.now)) 0 }
    {
        self.links[link.index()].front()
    }

    /// Whether nothing is on a link.
    pub fn is_empty(&self, from: &Node, to: &Node) -> bool
        ensures { result ≡ is_nil ((seen self.now).queue from.now to.now) }
    {
        match self.link(from, to) {
            Some(link) => self.is_empty_at(link),
            None => true,
        }
    }

    /// Whether nothing is on the link at this place.
    pub fn is_empty_at(&self, link: LinkPlace) -> bool
        requires { IsWithin link self.now }
        ensures { result ≡ is_nil ((seen self.now).queue (from_of link self.now) (to_of link self.now)) }
    {
        self.links[link.index()].is_empty()
    }

    /// Takes the oldest letter off a link.
    pub fn deliver(&mut self, from: &Node, to: &Node) -> Result<L, LinkFault>
        ensures nodes { self.new.nodes ≡ self.old.nodes }
        ensures known { OnOk result (joins from.now to.now self.old ≡ true) }
        ensures oldest { IfOk result (λ letter. slice_get ((seen self.old).queue from.now to.now) 0 ≡ Some letter) }
        ensures ok { OnOk result (seen self.new ≡ taken from.now to.now (seen self.old)) }
        ensures unchanged { OnErr result (self.new ≡ self.old) }
        ensures err { IfErr result (λ fault. IsUndelivered fault from.now to.now self.old) }
    {
        let Some(link) = self.link(from, to) else {
            return Err(LinkFault::NoSuchNode);
        };
        match self.take_at(link) {
            Some(letter) => Ok(letter),
            None => Err(LinkFault::EmptyLink),
        }
    }

    /// Takes the oldest letter off the link at this place, if there is one.
    pub fn take_at(&mut self, link: LinkPlace) -> Option<L>
        requires { IsWithin link self.old }
        ensures nodes { self.new.nodes ≡ self.old.nodes }
        ensures oldest { result ≡ slice_get ((seen self.old).queue (from_of link self.old) (to_of link self.old)) 0 }
        ensures taken { seen self.new ≡ taken (from_of link self.old) (to_of link self.old) (seen self.old) }
        ensures unchanged { result ≡ None → self.new ≡ self.old }
    {
        self.links[link.index()].pop()
    }

    /// Empties all links towards a node: what is sent to it vanishes, until it is reopened.
    pub fn close_out(&mut self, node: &Node) -> Result<(), LinkFault>
        ensures nodes { self.new.nodes ≡ self.old.nodes }
        ensures known { OnOk result (has node.now self.old ≡ true) }
        ensures ok { OnOk result (seen self.new ≡ closed_out node.now (seen self.old)) }
        ensures unchanged { OnErr result (self.new ≡ self.old) }
        ensures err { IfErr result (λ fault. IsStranger fault node.now self.old) }
    {
        let Some(receiver) = self.place(node) else {
            return Err(LinkFault::NoSuchNode);
        };
        clear_towards(self.links.as_mut_slice(), receiver);
        self.closed[receiver] = true;
        Ok(())
    }

    /// Opens a node that was closed out: what is sent to it from now on is put on its links again. All links stay as they are.
    pub fn reopen(&mut self, node: &Node) -> Result<(), LinkFault>
        ensures nodes { self.new.nodes ≡ self.old.nodes }
        ensures known { OnOk result (has node.now self.old ≡ true) }
        ensures ok { OnOk result (seen self.new ≡ reopened node.now (seen self.old)) }
        ensures unchanged { OnErr result (self.new ≡ self.old) }
        ensures err { IfErr result (λ fault. IsStranger fault node.now self.old) }
    {
        let Some(place) = self.place(node) else {
            return Err(LinkFault::NoSuchNode);
        };
        self.closed[place] = false;
        Ok(())
    }

    /// The receiver of the first link from this sender on which a letter waits.
    fn first_receiver(&self, sender: usize) -> Option<usize>
        requires { sender < length self.now.nodes }
        ensures { WaitsFrom sender result self.now }
    {
        for receiver in 0..self.nodes.len() {
            if !self.links[sender * MOST_NODES + receiver].is_empty() {
                return Some(receiver);
            }
        }
        None
    }

    /// The least node from which a letter waits for this one.
    pub(crate) fn first_sender(&self, to: &Node) -> Option<Node>
        ensures { WaitsTowards to.now result self.now }
    {
        for place in 0..self.nodes.len() {
            let from = &self.nodes[place];
            if !self.is_empty(from, to) {
                return Some(from.copy());
            }
        }
        None
    }

    /// Whether a node was closed out.
    pub fn is_closed(&self, node: &Node) -> bool
        ensures { result ≡ (seen self.now).closed node.now }
    {
        match self.place(node) {
            Some(place) => self.closed[place],
            None => false,
        }
    }

    /// The first link, by sender and then receiver, on which a letter waits.
    pub fn first_waiting(&self) -> Option<(Node, Node)>
        ensures { WaitsFirst result self.now }
    {
        Some(self.ends(self.first_link()?))
    }

    /// The place of the first link, by sender and then receiver, on which a letter waits.
    pub fn first_link(&self) -> Option<LinkPlace>
        ensures { WaitsFirstOn result self.now }
    {
        for sender in 0..self.nodes.len() {
            if let Some(receiver) = self.first_receiver(sender) {
                return Some(LinkPlace { sender, receiver });
            }
        }
        None
    }
}
