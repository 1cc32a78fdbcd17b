//! A node's end of lines.
ghost use Rattle.std.specs.Prelude.{◌≡◌, ◌==◌, ◌||◌, [], not, map, filter, IfOk};
ghost use Rattle.std.specs.List.{list_all};
ghost use Rattle.term.specs.Nodes.{name_of};
ghost use Rattle.wire_end.specs.Wirings.{place, new_wire};

use crate::faults::HearFault;
use crate::line::LinkLine;
use crate::orders::push_orders;
use crate::saying::Present;
use crate::sending::send_lines;
use crate::wire::Wire;
use letter_lines::{Letter, Part};
use link::{Inbox, LinkFault, Post, Station, Unsent};
use node_loop::{Item, Stamped, Task};
use past::Trace as History;
use std::alloc::{AllocError, Global};
use std::collections::{LinkedList, VecDeque};
use std::marker::Model;
use std::mem;
use term::{Node, NodeSet};

/// A node's end of the lines between it and the other nodes of its world. Letters that were read wait in it until they are taken, and
/// what the node sends waits as lines until they are printed. A node's letters to itself stay inside, and are taken first; then those of
/// others, and then tasks. Contracts see its wiring.
#[derive(Drop)]
pub struct WireEnd {
    alloc: Global,
    node: Node,
    wires: Vec<Wire>,
    own: VecDeque<Stamped>,
    heard: VecDeque<(Node, Stamped)>,
    tasks: VecDeque<Task>,
    /// The lines of letters that are to be printed.
    lines: String,
    /// The lines that are to be printed of what letters order for the node's processes.
    orders: String,
    sent: History<Node, Stamped>,
    taken: History<Node, Stamped>,
    read: History<Node, LinkLine>,
}

impl Model for WireEnd {
    ghost use Rattle.std.specs.Prelude.{string_bytes};
    ghost use Rattle.wire_end.specs.declared.wire_end.Wiring.{Wiring};

    ghost Value = { Wiring };

    ghost view = { λ e. record {
      node = e.node;
      wires = e.wires.items;
      own = e.own.items;
      heard = e.heard.items;
      tasks = e.tasks.items;
      lines = string_bytes e.lines;
      orders = string_bytes e.orders;
      sent = e.sent.items;
      taken = e.taken.items;
      read = e.read.items;
    } };
}

/// What the sends and takings of an end change. No value of it is made.
pub struct Wiring {
    node: Node,
    /// The links with the other nodes.
    wires: LinkedList<Wire>,
    /// The node's letters to itself that wait, the oldest first.
    own: LinkedList<Stamped>,
    /// The letters of others that wait, each with its sender.
    heard: LinkedList<(Node, Stamped)>,
    tasks: LinkedList<Task>,
    /// What is to be printed.
    lines: LinkedList<u8>,
    orders: LinkedList<u8>,
    /// All letters that were ever sent, each with its receiver, the oldest first.
    sent: LinkedList<(Node, Stamped)>,
    /// And all that were taken, each with its sender.
    taken: LinkedList<(Node, Stamped)>,
    /// All lines that were ever read, each with its sender.
    read: LinkedList<(Node, LinkLine)>,
}

/// The place of the link with this node.
fn place_of(wires: &[Wire], node: &Node) -> Option<usize>
    ensures { result ≡ place node.now wires.now }
{
    wires.iter().position(|wire| wire.node() == node)
}

/// Whether no link is with another node of this one's name.
fn is_only(wires: &[Wire], node: &Node) -> bool
    ensures { result ≡ list_all (λ w. not (name_of w.node == name_of node.now) || (w.node == node.now)) wires.now }
{
    wires.iter().all(|wire| wire.node().name() != node.name() || wire.node() == node)
}

/// The links of a node with all others of its world.
fn new_wires(alloc: Global, node: &Node, world: &NodeSet) -> Result<Vec<Wire>, AllocError>
    ensures { IfOk result (λ wires. wires.items ≡ map new_wire (filter (λ n. not (n == node.now)) world.now)) }
{
    let mut wires = Vec::new(alloc);
    for other in world.as_slice() {
        if other != node {
            wires.push(Wire::new(alloc, other.copy()))?;
        }
    }
    Ok(wires)
}

impl WireEnd {
    ghost use Rattle.std.specs.Prelude.{◌≡◌, ◌<◌, ◌∷◌, ◌++◌, [], true, Ok, Err, is_some, length, slice_set, string_bytes, IfOk, OnOk, OnErr, IfErr, MatchResult, MatchOption};
    ghost use Rattle.letter_lines.specs.Laws.{IsLetter};
    ghost use Rattle.link.specs.declared.faults.LinkFault.TheVariants.{Memory};
    ghost use Rattle.node_loop.specs.declared.item.Item.TheVariants.{Letter as LetterItem};
    ghost use Rattle.wire_end.specs.declared.wire.Wire.{Wire as AWire};
    ghost use Rattle.wire_end.specs.Saying.{present, is_said};
    ghost use Rattle.wire_end.specs.Starting.{is_alone, with_started};
    ghost use Rattle.wire_end.specs.Wirings.{begun, kept, printed, wire_at, Posts, Refuses, Unsent as IsUnsent};
    ghost use Rattle.wire_end.specs.Links.{HearsPart};
    ghost use Rattle.wire_end.specs.Hearing.{Hears, Loses, laid, read_at, fits_at};
    ghost use Rattle.wire_end.specs.Orders.{orders_of};

    /// The end of this node of a world: nothing came or went.
    pub fn new(alloc: Global, node: Node, world: &NodeSet) -> Result<Self, AllocError>
        ensures { IfOk result (λ end. end ≡ begun node world.now) }
    {
        let wires = new_wires(alloc, &node, world)?;
        Ok(WireEnd {
            alloc,
            node,
            wires,
            own: VecDeque::new(alloc),
            heard: VecDeque::new(alloc),
            tasks: VecDeque::new(alloc),
            lines: String::new(alloc),
            orders: String::new(alloc),
            sent: History::new(),
            taken: History::new(),
            read: History::new(),
        })
    }

    /// The nodes at present, as far as this end knows.
    fn present(&self) -> Present<'_>
        ensures node { result.node.now ≡ self.now.node }
        ensures wires { result.wires.now ≡ self.now.wires }
    {
        Present {
            node: &self.node,
            wires: self.wires.as_slice(),
        }
    }

    /// Whether it has a link with this node, and with no other of its name, which isn't its own either.
    pub fn is_linked_with(&self, node: &Node) -> bool
        ensures { result ≡ is_alone node.now self.now }
    {
        let wires = self.wires.as_slice();
        let Some(_place) = place_of(wires, node) else {
            return false;
        };
        is_only(wires, node) && self.node.name() != node.name()
    }

    /// Whether the letter that this part ends on the link at this place, if it ends one, is such as the node relies on.
    fn fits(&self, place: usize, part: &Part) -> bool
        requires { place < length self.now.wires }
        ensures { result ≡ fits_at place part.now self.now }
    {
        self.present().says_by(part, self.wires[place].parts())
    }

    /// What is to be printed of what letters order, with this one behind the others. Most letters order nothing.
    fn orders_with(&self, letter: &Letter) -> Result<String, AllocError>
        ensures { IfOk result (λ text. string_bytes text ≡ self.now.orders ++ orders_of self.now.node letter.now) }
    {
        let mut text = String::from_str(self.alloc, self.orders.as_str())?;
        push_orders(&mut text, &self.node, letter)?;
        Ok(text)
    }

    /// A letter of another node is whole, and waits behind the others.
    fn lay(&mut self, from: &Node, stamped: Stamped) -> Result<(), AllocError>
        ensures ok { OnOk result (self.new ≡ laid from.now stamped self.old) }
        ensures err { OnErr result (self.new ≡ self.old) }
    {
        let orders = self.orders_with(&stamped.letter)?;
        if self.heard.push_back((from.copy(), stamped)).is_err() {
            return Err(AllocError);
        }
        self.orders = orders;
        Ok(())
    }

    /// The next line of the link at this place was read: the letter that is whole now, if one is.
    fn hear_at(
        &mut self,
        place: usize,
        from: &Node,
        line: LinkLine,
    ) -> Result<Option<Letter>, HearFault>
        requires { place < length self.old.wires }
        ensures ok { IfOk result (λ letter. (wire : AWire) × HearsPart line.number line.part (wire_at place self.old.wires) wire (Ok letter)
            × (self.new ≡ read_at place wire from.now line self.old)) }
        ensures err { IfErr result (λ fault. HearsPart line.number line.part (wire_at place self.old.wires) (wire_at place self.old.wires) (Err fault)
            × (self.new ≡ self.old)) }
    {
        let read = self.read.and(from, &line);
        let LinkLine { number, part, .. } = line;
        let letter = self.wires[place].hear(number, part)?;
        self.read = read;
        Ok(letter)
    }

    /// The next line of the link with this node was read. A letter that is whole now waits to be taken, with the stamp of its last line.
    /// A line that ends a letter which no node says, as far as this end knows, isn't taken: so what is taken names no node that hasn't started.
    /// A line that isn't taken changed nothing, but where memory was refused for the letter that it ends: then the line is read and the
    /// letter is lost, so the end isn't to be used any more.
    pub fn hear(&mut self, from: &Node, line: LinkLine) -> Result<(), HearFault>
        ensures { Hears from.now line result self.old self.new }
    {
        let Some(place) = place_of(self.wires.as_slice(), from) else {
            return Err(HearFault::NoSuchNode);
        };
        if !self.fits(place, &line.part) {
            return Err(HearFault::Stray);
        }
        let stamp = line.stamp;
        if let Some(letter) = self.hear_at(place, from, line)? {
            self.lay(from, Stamped { stamp, letter })?;
        }
        Ok(())
    }

    /// Another node is gone without a word: that is read as its letter that it has left, behind all that came of it, unless that came.
    /// Where there is no such node, or memory is refused, nothing changed.
    pub fn lose(&mut self, node: &Node) -> Result<(), HearFault>
        ensures { Loses node.now result self.old self.new }
    {
        let Some(place) = place_of(self.wires.as_slice(), node) else {
            return Err(HearFault::NoSuchNode);
        };
        if self.wires[place].is_down() {
            return Ok(());
        }
        let letter = Letter::Down;
        self.lay(node, Stamped { stamp: 0, letter })?;
        self.wires[place].close();
        Ok(())
    }

    /// The next node of another one's name has started: the link with the one before it is one with that now, on which nothing came or went.
    /// What came of the one before waits to be taken still.
    pub fn started(&mut self, older: &Node, next: &Node)
        ensures state { self.new ≡ with_started older.now next.now self.old }
    {
        for wire in self.wires.iter_mut() {
            wire.open_anew(older, next);
        }
    }

    /// A task waits to be taken, behind the others.
    pub fn ask(&mut self, task: Task) -> Result<(), AllocError>
        ensures ok { OnOk result (self.new ≡ record self.old { tasks = self.old.tasks ++ task ∷ [] }) }
        ensures unchanged { OnErr result (self.new ≡ self.old) }
    {
        if self.tasks.push_back(task).is_err() {
            return Err(AllocError);
        }
        Ok(())
    }

    /// The lines of letters that are to be printed, which aren't any more then.
    pub fn take_lines(&mut self) -> String
        ensures lines { string_bytes result ≡ self.old.lines }
        ensures rest { self.new ≡ record self.old { lines = [] } }
    {
        mem::replace(&mut self.lines, String::new(self.alloc))
    }

    /// The lines of what letters ordered for the node's processes, which aren't to be printed any more then.
    pub fn take_orders(&mut self) -> String
        ensures orders { string_bytes result ≡ self.old.orders }
        ensures rest { self.new ≡ record self.old { orders = [] } }
    {
        mem::replace(&mut self.orders, String::new(self.alloc))
    }

    /// A letter of the node to itself waits behind the others, unless it isn't one that the node relies on.
    fn keep(&mut self, stamped: Stamped) -> Result<(), Unsent<Stamped>>
        ensures ok { OnOk result ((self.new ≡ kept stamped self.old)
            × (is_said (present self.old) self.old.node self.old.node stamped.letter ≡ true)) }
        ensures err { IfErr result (λ unsent. (unsent.letter ≡ stamped) × (self.new ≡ self.old)
            × IsUnsent unsent.fault (is_said (present self.old) self.old.node self.old.node stamped.letter)) }
    {
        if !self.present().says(&self.node, &stamped.letter) {
            return Err(unsent(LinkFault::NoSuchNode, stamped));
        }
        let Ok(orders) = self.orders_with(&stamped.letter) else {
            return Err(unsent(LinkFault::Memory, stamped));
        };
        let sent = self.sent.and(&self.node, &stamped);
        if let Err(refused) = self.own.push_back(stamped) {
            return Err(unsent(LinkFault::Memory, refused.value));
        }
        self.orders = orders;
        self.sent = sent;
        Ok(())
    }

    /// The lines of a letter to another node are to be printed, behind the others, as the next of the link with it.
    fn print(&mut self, to: &Node, stamped: &Stamped) -> Result<(), LinkFault>
        ensures { MatchResult result
            (λ _. (is_some (place to.now self.old.wires) ≡ true) × (self.new ≡ printed to.now stamped.now self.old) × IsLetter stamped.now.letter)
            (λ fault. IsUnsent fault (is_some (place to.now self.old.wires)) × (self.new ≡ self.old)) }
    {
        let Some(place) = place_of(self.wires.as_slice(), to) else {
            return Err(LinkFault::NoSuchNode);
        };
        let written = self.wires[place].written();
        let Ok((text, written)) = send_lines(self.alloc, to, written, stamped) else {
            return Err(LinkFault::Memory);
        };
        if self.lines.push_str(text.as_str()).is_err() {
            return Err(LinkFault::Memory);
        }
        self.sent = self.sent.and(to, stamped);
        self.wires[place].set_written(written);
        Ok(())
    }

    /// A letter goes on its way, or comes back.
    fn post(&mut self, to: &Node, stamped: Stamped) -> Result<(), Unsent<Stamped>>
        ensures { MatchResult result
            (λ _. Posts self.old to.now (LetterItem stamped) self.new)
            (λ unsent. (unsent.letter ≡ stamped) × (self.new ≡ self.old) × Refuses self.old to.now (LetterItem stamped) unsent.fault) }
    {
        if *to == self.node {
            return self.keep(stamped);
        }
        match self.print(to, &stamped) {
            Ok(()) => Ok(()),
            Err(fault) => Err(unsent(fault, stamped)),
        }
    }

    /// The oldest letter of the node to itself is taken.
    fn next_own(&mut self) -> Option<Stamped>
        ensures { MatchOption result ((self.new ≡ self.old) × (self.old.own ≡ []))
            (λ l. (self.old.own ≡ l ∷ self.new.own)
            × (self.new ≡ record self.old { own = self.new.own; taken = self.old.taken ++ (self.old.node, l) ∷ [] })) }
    {
        let stamped = self.own.pop_front()?;
        self.taken = self.taken.and(&self.node, &stamped);
        Some(stamped)
    }

    /// The oldest letter of another node is taken, with its sender.
    fn next_heard(&mut self) -> Option<(Node, Stamped)>
        ensures { MatchOption result ((self.new ≡ self.old) × (self.old.heard ≡ []))
            (λ x. (self.old.heard ≡ x ∷ self.new.heard)
            × (self.new ≡ record self.old { heard = self.new.heard; taken = self.old.taken ++ x ∷ [] })) }
    {
        let (from, stamped) = self.heard.pop_front()?;
        self.taken = self.taken.and(&from, &stamped);
        Some((from, stamped))
    }
}

/// A letter that comes back for this fault.
fn unsent(fault: LinkFault, letter: Stamped) -> Unsent<Stamped>
    ensures { result ≡ record { fault = fault; letter = letter } }
{
    Unsent { fault, letter }
}

impl Station for WireEnd {
    type State = Wiring;

    ghost state = { λ e. e };
}

impl Post<Item> for WireEnd {
    ghost use Rattle.wire_end.specs.Wirings.{Posts, Refuses};

    ghost posts = { Posts };

    ghost refuses = { Refuses };

    /// A letter goes on its way. A task is the node's own, and goes on no line.
    fn send(&mut self, to: &Node, letter: Item) -> Result<(), Unsent<Item>> {
        match letter {
            Item::Letter(stamped) => match self.post(to, stamped) {
                Ok(()) => Ok(()),
                Err(Unsent { fault, letter }) => Err(Unsent {
                    fault,
                    letter: Item::Letter(letter),
                }),
            },
            Item::Task(task) => Err(Unsent {
                fault: LinkFault::NoSuchNode,
                letter: Item::Task(task),
            }),
        }
    }
}

impl Inbox<Item> for WireEnd {
    ghost use Rattle.wire_end.specs.Wirings.{Takes, Misses, Fails};

    ghost takes = { Takes };

    ghost misses = { Misses };

    ghost fails = { Fails };

    /// The node's letters to itself come first, then those of others, and then tasks.
    fn take(&mut self) -> Result<Option<(Node, Item)>, LinkFault> {
        if let Some(stamped) = self.next_own() {
            return Ok(Some((self.node.copy(), Item::Letter(stamped))));
        }
        if let Some((from, stamped)) = self.next_heard() {
            return Ok(Some((from, Item::Letter(stamped))));
        }
        match self.tasks.pop_front() {
            Some(task) => Ok(Some((self.node.copy(), Item::Task(task)))),
            None => Ok(None),
        }
    }
}
