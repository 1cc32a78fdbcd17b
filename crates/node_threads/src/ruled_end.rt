//! A node's end of the lines between threads.
ghost use Rattle.std.specs.Prelude.{◌≡◌};
ghost use Rattle.std.specs.List.{position};
ghost use Rattle.node_seats.specs.Lines.{place};
ghost use Rattle.node_threads.specs.Givers.{receivers, node_under};
ghost use Rattle.node_threads.specs.Traffics.{asks_nodes};

use link::{Inbox, LinkFault, Mailbox, Post, Station, Unsent};
use node_loop::{Call, Item, LocalEvent, Stamped, Task};
use node_seats::{InboxLine, Parcel};
use std::alloc::Global;
use std::collections::{LinkedList, VecDeque};
use std::marker::Model;
use std::snapshot::Snapshot;
use std::sync::Wait;
use term::{INBOX_ROOM, MOST_LETTERS, Node};

/// A node's own inbox, and its lines into the inboxes of all nodes. Of each node there is one, in the order of the numbers that the
/// lines of the nodes have at an inbox: from 1 on. Letters come before tasks, up to a number of them, and tasks for which nodes are asked
/// before others, every other time: so the rounds of a node begin and go on however many ask it for something. Contracts see its traffic.
#[derive(Drop)]
pub struct RuledEnd<R: Wait + Drop> {
    rt: R,
    node: Node,
    lines: Vec<InboxLine<Item>>,
    mailbox: Mailbox<Parcel<Item>>,
    /// The tasks that stood before a letter, the oldest first.
    waiting: VecDeque<Task>,
    /// How many letters were taken since the last task was, counted up to `MOST_LETTERS`.
    in_a_row: u32,
    /// Whether the last task was taken before one that waited longer.
    has_passed: bool,
    /// How many looks the last taking made into the inbox.
    looks: usize,
    /// Whether the last look found nothing.
    in_vain: bool,
    /// The inbox as it was at first.
    first: Snapshot<Mailbox<Parcel<Item>>>,
}

impl<R: Wait + Drop> Model for RuledEnd<R> {
    ghost use Rattle.std.specs.Prelude.{◌≡◌};
    ghost use Rattle.link.specs.Mailboxes.{taken, mailbox_room};
    ghost use Rattle.node_threads.specs.Givers.{receivers, letters_of, tasks_of};
    ghost use Rattle.node_threads.specs.declared.ruled_end.Traffic.{Traffic};

    ghost Value = { Traffic };

    ghost view = { λ e. record {
      node = e.node;
      first = e.first.value;
      lines = e.lines.items;
      letters = letters_of (receivers e.lines.items) (taken e.mailbox);
      tasks = tasks_of (taken e.mailbox);
      waiting = e.waiting.items;
      in_a_row = e.in_a_row;
      has_passed = e.has_passed;
      looks = e.looks;
      in_vain = e.in_vain;
    } };

    ghost invariant = { λ e. mailbox_room e.mailbox ≡ mailbox_room e.first.value };
}

/// What the sends and takings of an end change: its lines, what came off its inbox, which of the tasks among that wait, and by what letters
/// and tasks take turns. No value of it is made.
pub struct Traffic {
    node: Node,
    first: Mailbox<Parcel<Item>>,
    lines: LinkedList<InboxLine<Item>>,
    /// The letters of nodes, each with its sender.
    letters: LinkedList<(Node, Item)>,
    tasks: LinkedList<Task>,
    waiting: LinkedList<Task>,
    /// How many letters were taken since the last task was, counted up to as many as may be taken in a row.
    in_a_row: u32,
    /// Whether the last task was taken before one that waited longer.
    has_passed: bool,
    /// How many looks the last taking made into the inbox.
    looks: usize,
    /// Whether the last look found nothing.
    in_vain: bool,
}

/// What one look into an inbox finds.
#[derive(Drop)]
enum Found {
    /// A letter from this node.
    Heard(Node, Stamped),
    /// A task, which waits now, or a letter under a number that no node has.
    Other,
    /// Nothing, or there is no memory for a task to wait.
    Nothing,
}

/// The place of the line to this node.
fn place_of(lines: &[InboxLine<Item>], receiver: &Node) -> Option<usize>
    ensures { result ≡ place receiver.now lines.now }
{
    lines.iter().position(|line| line.receiver() == receiver)
}

/// The node whose line into an inbox has this number there. The cluster asks under number 0, and seats behind the nodes.
fn node_under(lines: &[InboxLine<Item>], number: u64) -> Option<Node>
    ensures { result ≡ node_under number (receivers lines.now) }
{
    if number == 0 {
        return None;
    }
    let line = lines.get((number - 1) as usize)?;
    Some(line.receiver().copy())
}

/// Whether it is a call for which other nodes are asked, and so takes longer than what a node does alone.
fn asks_nodes(task: &Task) -> bool
    ensures { result ≡ asks_nodes task.now }
{
    match &task.event {
        LocalEvent::Call(
            Call::Spawn | Call::Whereis(_) | Call::RegisteredNames | Call::Notices(_),
        ) => false,
        LocalEvent::Call(_) => true,
        LocalEvent::Retry | LocalEvent::Exit(_) | LocalEvent::Leave => false,
    }
}

/// The place of the one that waits longest of those for which other nodes are asked.
fn first_asking(waiting: &VecDeque<Task>) -> Option<usize>
    ensures { result ≡ position asks_nodes waiting.now.items }
{
    waiting.iter().position(|task| asks_nodes(task))
}

impl<R: Wait + Drop> RuledEnd<R> {
    ghost use Rattle.std.specs.Prelude.{◌<◌, ◌+◌, [], false, length, MatchOption, List};
    ghost use Rattle.link.specs.Mailboxes.{taken, mailbox_room};
    ghost use Rattle.node_loop.specs.declared.item.Task.{Task as AnyTask};
    ghost use Rattle.node_threads.specs.Givers.{letters_of};
    ghost use Rattle.node_threads.specs.Traffics.{begun, with_tasks, lasting, is_nothing, is_tasks_turn, counted, next_place, Hears, Serves, Finds, FindsNext, HasSearched};

    /// The end of this node.
    pub(crate) fn new(
        rt: R,
        alloc: Global,
        node: Node,
        lines: Vec<InboxLine<Item>>,
        mailbox: Mailbox<Parcel<Item>>,
    ) -> Self
        ensures { result ≡ begun node lines.items mailbox }
    {
        let first = Snapshot::of(&mailbox);
        RuledEnd {
            rt,
            node,
            lines,
            mailbox,
            waiting: VecDeque::new(alloc),
            in_a_row: 0,
            has_passed: false,
            looks: 0,
            in_vain: false,
            first,
        }
    }

    /// Its lines and its inbox. Tasks that wait are dropped.
    pub(crate) fn into_parts(self) -> (Vec<InboxLine<Item>>, Mailbox<Parcel<Item>>)
        ensures lines { result.0.items ≡ self.lines }
        ensures letters { letters_of (receivers self.lines) (taken result.1) ≡ self.letters }
        ensures room { mailbox_room result.1 ≡ mailbox_room self.first }
    {
        let RuledEnd { lines, mailbox, .. } = self;
        (lines, mailbox)
    }

    /// What is next in the inbox. There is room for a task to wait before it is taken off.
    fn find(&mut self) -> Found
        ensures { Finds result self.old self.new }
    {
        if self.waiting.reserve(1).is_err() {
            return Found::Nothing;
        }
        let Some(Parcel { number, item }) = self.mailbox.take(&self.rt) else {
            return Found::Nothing;
        };
        match item {
            Item::Task(task) => {
                self.waiting.push_back_reserved(task);
                Found::Other
            }
            // A letter is a node's alone, so a seat sends none in the name of a node.
            Item::Letter(stamped) => match node_under(self.lines.as_slice(), number) {
                Some(from) => Found::Heard(from, stamped),
                None => Found::Other,
            },
        }
    }

    /// Looks what is next in the inbox.
    fn look(&mut self) -> Found
        requires { self.old.looks < INBOX_ROOM }
        ensures finds { Finds result (lasting self.old) (lasting self.new) }
        ensures looks { self.new.looks ≡ self.old.looks + 1 }
        ensures vain { self.new.in_vain ≡ is_nothing result }
    {
        let found = self.find();
        self.looks += 1;
        self.in_vain = matches!(found, Found::Nothing);
        found
    }

    /// Searches the inbox for a letter: up to the first, or until it finds nothing, and no further than an inbox has room for. Tasks before
    /// it wait.
    fn search(&mut self) -> Option<(Node, Stamped)>
        ensures { (more : List AnyTask) × MatchOption result
            ((lasting self.new ≡ with_tasks more (lasting self.old)) × HasSearched self.new)
            (λ x. Hears x.0 x.1 (with_tasks more (lasting self.old)) (lasting self.new)) }
    {
        self.looks = 0;
        while self.looks < INBOX_ROOM {
            match self.look() {
                Found::Heard(from, stamped) => return Some((from, stamped)),
                Found::Other => {}
                Found::Nothing => return None,
            }
        }
        None
    }

    /// Whether it is a task's turn: one waits, and so many letters were taken since the last.
    fn is_tasks_turn(&self) -> bool
        ensures { result ≡ is_tasks_turn self.now }
    {
        !self.waiting.is_empty() && self.in_a_row >= MOST_LETTERS
    }

    /// A letter more was taken in a row.
    fn count(&mut self)
        ensures { self.new ≡ counted self.old }
    {
        if self.in_a_row < MOST_LETTERS {
            self.in_a_row += 1;
        }
    }

    /// The oldest letter that is found, unless it is a task's turn.
    fn next_letter(&mut self) -> Option<(Node, Stamped)>
        ensures { FindsNext result self.old self.new }
    {
        if self.is_tasks_turn() {
            return None;
        }
        let letter = self.search()?;
        self.count();
        Some(letter)
    }

    /// The place of the task that comes next, if one waits.
    fn next_place(&self) -> usize
        ensures next { result ≡ next_place self.now }
        ensures bound { 0 < length self.now.waiting → result < length self.now.waiting }
    {
        if self.has_passed {
            return 0;
        }
        first_asking(&self.waiting).unwrap_or(0)
    }

    /// The task that comes next.
    fn next_task(&mut self) -> Option<Task>
        ensures { MatchOption result ((self.new ≡ self.old) × (self.old.waiting ≡ [])) (λ task. Serves task self.old self.new) }
    {
        let place = self.next_place();
        let task = self.waiting.remove(place)?;
        self.has_passed = place > 0;
        self.in_a_row = 0;
        Some(task)
    }
}

impl<R: Wait + Drop> Station for RuledEnd<R> {
    ghost use Rattle.node_threads.specs.Traffics.{lasting};

    type State = Traffic;

    ghost state = { lasting };
}

impl<R: Wait + Drop> Post<Item> for RuledEnd<R> {
    ghost use Rattle.node_threads.specs.Traffics.{Posts, Refuses};

    ghost posts = { Posts };

    ghost refuses = { Refuses };

    fn send(&mut self, to: &Node, letter: Item) -> Result<(), Unsent<Item>> {
        let Some(place) = place_of(self.lines.as_slice(), to) else {
            return Err(Unsent {
                fault: LinkFault::NoSuchNode,
                letter,
            });
        };
        self.lines[place].send(&self.rt, letter)
    }
}

impl<R: Wait + Drop> Inbox<Item> for RuledEnd<R> {
    ghost use Rattle.node_threads.specs.Traffics.{Takes, Misses, Fails, Gives, SearchesFirst};

    ghost takes = { Takes };

    ghost misses = { Misses };

    ghost fails = { Fails };

    fn take(&mut self) -> Result<Option<(Node, Item)>, LinkFault>
        ensures taking { Gives result self.old self.new }
        ensures searched { SearchesFirst result self.old self.new }
    {
        if let Some((from, stamped)) = self.next_letter() {
            return Ok(Some((from, Item::Letter(stamped))));
        }
        match self.next_task() {
            Some(task) => Ok(Some((self.node.copy(), Item::Task(task)))),
            None => Ok(None),
        }
    }
}
