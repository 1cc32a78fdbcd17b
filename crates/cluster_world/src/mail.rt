//! What is on the links of a world, and what was sent and isn't there yet.
ghost use Rattle.std.specs.Prelude.{◌≡◌, true, false, not, is_none, None, Some, [], OnOk, IfOk, IfSome, MatchOption, option_map};
ghost use Rattle.std.specs.List.{All, slice_get};
ghost use Rattle.std.specs.Option.{option_copied};
ghost use Rattle.protocol_model.specs.Links.{no_letters, is_nil, posted, taken, closed_out};
ghost use Rattle.term.specs.Nodes.{IsFirst, name_of};
ghost use Rattle.term.specs.NodeSets.{set_of, names_in, with_older, succeeded};
ghost use Rattle.cluster_world.specs.NodeCoreState.{HaveLeft, IsNext};
ghost use Rattle.cluster_world.specs.Links.{letters_to, rest_as, lesser, earlier, IsBetween, IsFirstSender, IsLeastOpen, WaitsFirst};
ghost use Rattle.cluster_world.specs.Mail.{on_links, links_of};
ghost use Rattle.link.specs.MeshState.{place as place_in};

use crate::admission::Delivery;
use link::{LinkPlace, Mesh};
use std::alloc::{AllocError, Global};
use std::collections::VecDeque;
use std::marker::Model;
use std::mem;
use term::{Node, NodeName, NodeSet};
use world_events::Letter;

/// A letter on the link between two names, and which node of the first name has sent it.
#[derive(Drop)]
pub(crate) struct Sent {
    sender: Node,
    letter: Letter,
}

impl Model for Sent {
    ghost use Rattle.cluster_world.specs.Links.{SentLetter};

    ghost Value = { SentLetter };

    ghost view = { λ s. record { sender = s.sender; letter = s.letter } };
}

/// Letters that a node has sent and that memory on their links was refused for, in their order, with their receivers.
#[derive(Drop)]
pub(crate) struct Outbox {
    /// The place of the sender among the nodes at present.
    place: usize,
    sender: Node,
    letters: Vec<(Node, Letter)>,
}

impl Model for Outbox {
    ghost use Rattle.cluster_world.specs.Links.{Unsent};

    ghost Value = { Unsent };

    ghost view = { λ o. record { place = o.place; sender = o.sender; letters = o.letters.items } };
}

/// The links between the nodes of a world: a mesh of their names, and what the last step sent that isn't on it yet. Whoever looks at a
/// link sees both. On the link from one name to another stands what the nodes of the first have sent to the present node of the second.
#[derive(Drop)]
pub(crate) struct Mail {
    /// The nodes at present, one of each name.
    nodes: NodeSet,
    /// Of each name the last node that has left; all older ones have, too.
    departed: NodeSet,
    /// The links between the names, each of which stands there as its first node.
    mesh: Mesh<Sent>,
    unsent: Option<Outbox>,
}

impl Model for Mail {
    ghost use Rattle.cluster_world.specs.Mail.{Mailed, IsSound};

    ghost Value = { Mailed };

    ghost view = { λ m. record { nodes = m.nodes; departed = m.departed; mesh = m.mesh; unsent = m.unsent } };

    ghost invariant = { λ m. IsSound (record { nodes = m.nodes; departed = m.departed; mesh = m.mesh; unsent = m.unsent }) };
}

/// The node that stands for a node's name on the mesh.
fn on_mesh(node: &Node) -> Node
    ensures { result ≡ name_of node.now }
{
    Node::first(node.name().copy())
}

/// Takes what is left of the letters of the node at this place, if anything is.
fn rest_of(place: usize, sender: &Node, letters: &mut VecDeque<(Node, Letter)>) -> Option<Outbox>
    ensures { result ≡ rest_as place sender.now letters.old.items }
{
    if letters.is_empty() {
        return None;
    }
    let alloc: Global = *letters.allocator();
    let rest = mem::replace(letters, VecDeque::new(alloc));
    Some(Outbox {
        place,
        sender: sender.copy(),
        letters: Vec::from(rest),
    })
}

impl Outbox {
    /// Whether a letter to this node waits here.
    fn has_for(&self, receiver: &Node) -> bool
        ensures { is_nil (letters_to receiver.now self.now.letters) ≡ not result }
    {
        for (to, _) in &self.letters {
            if to == receiver {
                return true;
            }
        }
        false
    }

    /// The least node, of those that haven't left, that a letter waits for here.
    fn first_receiver(&self, departed: &NodeSet) -> Option<Node>
        ensures { IsLeastOpen (with_older departed.now) self.now.letters result }
    {
        let mut first = None;
        for (to, _) in &self.letters {
            if departed.reaches(to) {
                continue;
            }
            first = Some(lesser(first, to));
        }
        first
    }
}

/// The lesser of two nodes, of which the first may be missing.
fn lesser(first: Option<Node>, node: &Node) -> Node
    ensures { result ≡ lesser first node.now }
{
    match first {
        Some(first) if first <= *node => first,
        _ => node.copy(),
    }
}

/// The ends of the link of a delivery, if there is one.
fn ends_of(delivery: Option<Delivery>) -> Option<(Node, Node)>
    ensures { result ≡ option_map (λ d. (d.sender, d.receiver)) delivery }
{
    let delivery = delivery?;
    Some((delivery.sender, delivery.receiver))
}

/// The earlier of two links, by the names of sender and then receiver, of which there may be none.
fn earlier(
    first: Option<(Node, Node)>,
    sender: &Node,
    receiver: Option<Node>,
) -> Option<(Node, Node)>
    ensures { result ≡ earlier first sender.now receiver }
{
    let Some(receiver) = receiver else {
        return first;
    };
    match first {
        Some((from, to))
            if from.name() < sender.name()
                || (from.name() == sender.name() && to.name() <= receiver.name()) => {
            Some((from, to))
        }
        _ => Some((sender.copy(), receiver)),
    }
}

impl Mail {
    /// No letters between these nodes, the first ones of their names, of which none has left.
    pub(crate) fn new(alloc: Global, nodes: &NodeSet) -> Result<Self, AllocError>
        requires first { All IsFirst nodes.now }
        ensures nodes { IfOk result (λ mail. mail.nodes ≡ nodes.now) }
        ensures departed { IfOk result (λ mail. mail.departed ≡ []) }
        ensures links { IfOk result (λ mail. links_of mail ≡ no_letters) }
        ensures all { IfOk result (λ mail. mail.unsent ≡ None) }
    {
        Ok(Mail {
            nodes: nodes.copy(),
            departed: NodeSet::empty(),
            mesh: Mesh::new(alloc, nodes.as_slice())?,
            unsent: None,
        })
    }

    /// The nodes at present, one of each name.
    pub(crate) fn nodes(&self) -> &NodeSet
        ensures nodes { result.now ≡ self.now.nodes }
        ensures left { HaveLeft self.now.nodes self.now.departed }
    {
        &self.nodes
    }

    /// Of each name the last node that has left; all older ones have, too.
    pub(crate) fn departed(&self) -> &NodeSet
        ensures departed { result.now ≡ self.now.departed }
        ensures left { HaveLeft self.now.nodes self.now.departed }
    {
        &self.departed
    }

    /// The node at present that has this name.
    pub(crate) fn present(&self, name: &NodeName) -> Option<&Node>
        ensures { MatchOption result (names_in self.now.nodes name.now ≡ false)
            (λ node. (set_of self.now.nodes node.now ≡ true) × (name_of node.now ≡ name.now)) }
    {
        for node in self.nodes.as_slice() {
            if node.name() == name {
                return Some(node);
            }
        }
        None
    }

    /// Whether a node has left.
    pub(crate) fn has_left(&self, node: &Node) -> bool
        ensures { result ≡ (links_of self.now).closed node.now }
    {
        self.departed.reaches(node)
    }

    /// Which node of this name has sent the oldest letter that waits for a node at present, if one does, where that is their link.
    pub(crate) fn first_sender(
        &self,
        link: LinkPlace,
        name: &NodeName,
        receiver: &Node,
    ) -> Option<Node>
        requires { IsBetween link name.now receiver.now self.now.nodes }
        ensures first { IsFirstSender name.now receiver.now result (links_of self.now) }
        ensures left { HaveLeft self.now.nodes self.now.departed }
    {
        if let Some(oldest) = self.mesh.front_at(link) {
            return Some(oldest.sender.copy());
        }
        let Some(outbox) = &self.unsent else {
            return None;
        };
        if outbox.sender.name() == name && !self.has_left(receiver) && outbox.has_for(receiver) {
            return Some(outbox.sender.copy());
        }
        None
    }

    /// The first link on which a letter waits, by the name of its sender and then of its receiver: the node that sent the oldest letter
    /// on it, and the one that is to read it.
    pub(crate) fn first_waiting(&self) -> Option<(Node, Node)>
        ensures { WaitsFirst result (links_of self.now) }
    {
        let Some(outbox) = &self.unsent else {
            return ends_of(self.first_on_mesh());
        };
        earlier(
            ends_of(self.first_on_mesh()),
            &outbox.sender,
            outbox.first_receiver(&self.departed),
        )
    }

    /// Whether all letters are on their links.
    pub(crate) fn is_drained(&self) -> bool
        ensures { result ≡ is_none self.now.unsent }
    {
        self.unsent.is_none()
    }

    /// The delivery of the first of the letters that are on their links, by the names of their senders and then of their receivers.
    pub(crate) fn first_on_mesh(&self) -> Option<Delivery>
        ensures first { WaitsFirst (option_map (λ d. (d.sender, d.receiver)) result) (on_links self.now) }
        ensures link { IfSome result (λ d. IsBetween d.link (name_of d.sender) d.receiver self.now.nodes) }
    {
        let link = self.mesh.first_link()?;
        let sender = self.mesh.front_at(link)?.sender.copy();
        let receiver = self.nodes.as_slice()[link.receiver].copy();
        Some(Delivery {
            link,
            sender,
            receiver,
        })
    }

    /// The letter that a delivery takes; all letters are on their links.
    pub(crate) fn front(&self, delivery: &Delivery) -> Option<&Letter>
        requires all { self.now.unsent ≡ None }
        requires link { IsBetween delivery.now.link (name_of delivery.now.sender) delivery.now.receiver self.now.nodes }
        requires first { IsFirstSender (name_of delivery.now.sender) delivery.now.receiver (Some delivery.now.sender) (links_of self.now) }
        ensures { option_copied result ≡ slice_get ((links_of self.now).queue delivery.now.sender delivery.now.receiver) 0 }
    {
        let oldest = self.mesh.front_at(delivery.link)?;
        Some(&oldest.letter)
    }

    /// Puts what isn't on its link yet there. Where memory is refused the rest waits on, and no letter is lost.
    pub(crate) fn drain(&mut self) -> Result<(), AllocError>
        ensures nodes { self.new.nodes ≡ self.old.nodes }
        ensures departed { self.new.departed ≡ self.old.departed }
        ensures links { links_of self.new ≡ links_of self.old }
        ensures left { HaveLeft self.old.nodes self.old.departed }
        ensures all { OnOk result (self.new.unsent ≡ None) }
    {
        if self.unsent.is_none() {
            return Ok(());
        }
        let Some(mut outbox) = self.unsent.take() else {
            return Ok(());
        };
        self.post(outbox.place, &outbox.sender, &mut outbox.letters);
        match &self.unsent {
            Some(_) => Err(AllocError),
            None => Ok(()),
        }
    }

    /// Takes the letter of a delivery off its link. It takes no memory.
    pub(crate) fn take(&mut self, delivery: &Delivery)
        requires all { self.old.unsent ≡ None }
        requires link { IsBetween delivery.now.link (name_of delivery.now.sender) delivery.now.receiver self.old.nodes }
        requires first { IsFirstSender (name_of delivery.now.sender) delivery.now.receiver (Some delivery.now.sender) (links_of self.old) }
        ensures nodes { self.new.nodes ≡ self.old.nodes }
        ensures departed { self.new.departed ≡ self.old.departed }
        ensures links { links_of self.new ≡ taken delivery.now.sender delivery.now.receiver (links_of self.old) }
        ensures all { self.new.unsent ≡ None }
    {
        let _ = self.mesh.take_at(delivery.link);
    }

    /// Puts letters of the node at this place at the back of the links to their receivers, in order, and takes them out of the list.
    /// Those that memory is refused for stay there; what goes to one that has left vanishes.
    fn send_all(&mut self, place: usize, sender: &Node, letters: &mut VecDeque<(Node, Letter)>)
        requires sender { place_in sender.now self.old.nodes ≡ Some place }
        requires within { All (λ s. with_older self.old.nodes s.0 ≡ true) letters.old.items }
        ensures nodes { self.new.nodes ≡ self.old.nodes }
        ensures departed { self.new.departed ≡ self.old.departed }
        ensures unsent { self.new.unsent ≡ self.old.unsent }
        ensures left { All (λ s. with_older self.old.nodes s.0 ≡ true) letters.new.items }
        ensures links { posted sender.now (λ t. letters_to t letters.new.items) (on_links self.new)
            ≡ posted sender.now (λ t. letters_to t letters.old.items) (on_links self.old) }
    {
        while let Some((receiver, letter)) = letters.pop_front() {
            if self.departed.reaches(&receiver) {
                continue;
            }
            let sent = Sent {
                sender: sender.copy(),
                letter,
            };
            if let Err(unsent) = self.mesh.send_from(place, &on_mesh(&receiver), sent) {
                letters.push_front_reserved((receiver, unsent.letter.letter));
                return;
            }
        }
    }

    /// Puts each of these letters of the node at this place at the back of the link to its receiver. Those that memory is refused for
    /// are kept until there is some: nothing is refused, and no letter is lost. The memory of the list stays its own where it can.
    pub(crate) fn post(&mut self, place: usize, sender: &Node, letters: &mut Vec<(Node, Letter)>)
        requires all { self.old.unsent ≡ None }
        requires sender { place_in sender.now self.old.nodes ≡ Some place }
        requires within { All (λ s. with_older self.old.nodes s.0 ≡ true) letters.old.items }
        ensures nodes { self.new.nodes ≡ self.old.nodes }
        ensures departed { self.new.departed ≡ self.old.departed }
        ensures links { links_of self.new ≡ posted sender.now (λ t. letters_to t letters.old.items) (links_of self.old) }
    {
        if letters.is_empty() {
            return;
        }
        let alloc: Global = *letters.allocator();
        let mut waiting = VecDeque::from(mem::replace(letters, Vec::new(alloc)));
        self.send_all(place, sender, &mut waiting);
        self.unsent = rest_of(place, sender, &mut waiting);
        *letters = Vec::from(waiting);
    }

    /// A node at present has left: all links towards it are empty, until its name comes back. It takes no memory.
    pub(crate) fn close_out(&mut self, node: &Node)
        requires present { set_of self.old.nodes node.now ≡ true }
        ensures nodes { self.new.nodes ≡ self.old.nodes }
        ensures links { links_of self.new ≡ closed_out node.now (links_of self.old) }
    {
        let _ = self.mesh.close_out(&on_mesh(node));
        let alone = NodeSet::one(node.copy());
        self.departed = self.departed.last_within(&alone, &self.nodes);
    }

    /// The name of a node that has left has come back: the next node of it is at present, and nothing waits for that. It takes no memory.
    pub(crate) fn reopen(&mut self, older: &Node, next: &Node)
        requires all { self.old.unsent ≡ None }
        requires next { IsNext older.now next.now }
        requires present { set_of self.old.nodes older.now ≡ true }
        requires left { with_older self.old.departed older.now ≡ true }
        ensures nodes { self.new.nodes ≡ succeeded older.now next.now self.old.nodes }
        ensures departed { self.new.departed ≡ self.old.departed }
        ensures links { links_of self.new ≡ links_of self.old }
        ensures all { self.new.unsent ≡ None }
    {
        let _ = self.mesh.reopen(&on_mesh(older));
        self.nodes = self.nodes.with_next(older, next);
    }
}
