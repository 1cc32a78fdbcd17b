//! Consoles of an attendant that notes what it is asked, and what they write for what they read.
use console::{
    Attendant, ConsoleEnd, ConsoleFault, DescribeFault, Load, Order, Status, answer_lines,
};
use descriptions::Description;
use server::{Call, NodeStatus, Numbers, Reply, SeatFault, StepFault};
use std::alloc::Global;
use std::io::{BufReader, Cursor, Read, Write};
use term::{Node, NodeSet, Pid, parse_node_name};

/// What was said of a process.
const SAID: &str = " tcp://10.0.0.5:80  v2 ";

/// As many lines as a console of a server that doesn't stay may have.
pub(crate) const MOST_LINES: u64 = 1_000_000;

/// What its numbers of locks begin above: more than 64 bits have.
const FIRST_FENCE: u128 = 100_000_000_000_000_000_000;

/// An attendant at the node `a` that gives a new process for each spawn, answers `true` to all else but exits, and notes what it was asked.
/// Look-ups may find `a.1`, of which something was said; of `a.7` nothing can be.
#[derive(Drop)]
pub(crate) struct Clerk {
    node: Node,
    /// What it answers once, before that.
    pub(crate) fault: Option<SeatFault>,
    /// Whether look-ups find its first process.
    pub(crate) finds: bool,
    /// Whether it refuses exits.
    pub(crate) refuses: bool,
    spawned: u32,
    /// For how many locks it was asked, each of which it grants.
    granted: u32,
    /// The serials of the processes whose exit was asked for, in order.
    pub(crate) exits: Vec<u32>,
    /// How much it was asked.
    pub(crate) asked: u32,
    /// How much of that was for a process that exits with the console.
    pub(crate) linked: u32,
}

impl Clerk {
    /// An attendant that wasn't asked for anything.
    pub(crate) fn new(alloc: Global) -> Option<Self> {
        match parse_node_name("a") {
            Ok(name) => Some(Clerk {
                node: Node::first(name),
                fault: None,
                finds: false,
                refuses: false,
                spawned: 0,
                granted: 0,
                exits: Vec::new(alloc),
                asked: 0,
                linked: 0,
            }),
            Err(_) => None,
        }
    }

    /// Its first process.
    fn first(&self) -> Pid {
        Pid {
            node: self.node.copy(),
            serial: 1,
        }
    }

    /// A new process.
    fn spawn(&mut self) -> Reply {
        self.spawned = self.spawned.saturating_add(1);
        Reply::Pid(Pid {
            node: self.node.copy(),
            serial: self.spawned,
        })
    }

    /// A lock more is granted.
    fn grant(&mut self) -> Reply {
        self.granted = self.granted.saturating_add(1);
        Reply::True
    }

    /// A number for the last one.
    fn fence(&self) -> Option<u128> {
        if self.granted == 0 {
            return None;
        }
        Some(FIRST_FENCE + u128::from(self.granted))
    }

    /// The exit of a process.
    fn exit(&mut self, process: &Pid) -> Result<Reply, SeatFault> {
        if self.exits.push(process.serial).is_err() {
            return Err(SeatFault::Memory);
        }
        if self.refuses {
            Err(SeatFault::Step(StepFault::AlreadyExited))
        } else {
            Ok(Reply::Ok)
        }
    }
}

impl<H> Attendant<H> for Clerk {
    ghost use Rattle.std.specs.Prelude.{⊤};

    type State = usize;

    ghost state = { λ _. 0 };

    ghost answers = { λ _ _ _ _ _. ⊤ };

    ghost stands = { λ _ _. ⊤ };

    fn node(&self) -> &Node {
        &self.node
    }

    fn ask(&mut self, _rt: &H, order: Order, linked: bool) -> Result<Reply, SeatFault> {
        self.asked = self.asked.saturating_add(1);
        if linked {
            self.linked = self.linked.saturating_add(1);
        }
        if let Some(fault) = self.fault.take() {
            return Err(fault);
        }
        match order {
            Order::Call(Call::Spawn) => Ok(self.spawn()),
            Order::Call(Call::SetLock(..)) => Ok(self.grant()),
            Order::Exit(process) => self.exit(&process),
            Order::Whereis(_) if self.finds => Ok(Reply::Pid(self.first())),
            _ => Ok(Reply::True),
        }
    }

    fn status(&self, _rt: &H) -> Result<Status, SeatFault> {
        Ok(status_of(&self.node, self.fence()))
    }

    fn describe(&self, _rt: &H, process: &Pid, text: &Description) -> Result<(), DescribeFault> {
        if process.serial == 7 {
            Err(DescribeFault::TooMany)
        } else if process.node == self.node && text.as_str() == SAID {
            Ok(())
        } else {
            Err(DescribeFault::Seat(SeatFault::Step(StepFault::NoSuchProcess)))
        }
    }

    fn description(&self, _rt: &H, process: &Pid) -> Option<Description> {
        if process.serial == 1 {
            Description::parse(SAID).ok()
        } else {
            None
        }
    }
}

/// How a lone node stands that has been in service for a while, and its server.
fn status_of(node: &Node, fence: Option<u128>) -> Status {
    Status {
        node: NodeStatus {
            node: node.copy(),
            joined: false,
            members: NodeSet::one(node.copy()),
            numbers: Numbers {
                names: 3,
                locks: 2,
                calls: 1_204,
                serials: 17,
                spans: 1,
                steps: 9_120,
            },
        },
        load: Load {
            consoles: 5,
            memory: 14_680_064,
        },
        fence,
    }
}

/// Has a console answer what a reader gives: so many lines at most.
pub(crate) fn hold<R: Read + Drop, W: Write>(
    alloc: Global,
    clerk: &mut Clerk,
    reader: R,
    writer: &mut W,
    stays: bool,
    most: u64,
) -> Result<ConsoleEnd, ConsoleFault> {
    match BufReader::new(alloc, reader) {
        Ok(mut reader) => answer_lines(&(), alloc, &mut reader, writer, clerk, stays, most),
        Err(_) => Err(ConsoleFault::Memory),
    }
}

/// Whether a console ended so.
fn is_end(found: Result<ConsoleEnd, ConsoleFault>, wanted: ConsoleEnd) -> bool {
    match found {
        Ok(end) => end == wanted,
        Err(_) => false,
    }
}

/// Whether an attendant's console answers lines with this text, and ends so.
pub(crate) fn is_answered(
    alloc: Global,
    clerk: &mut Clerk,
    stays: bool,
    lines: &[u8],
    text: &[u8],
    wanted: ConsoleEnd,
) -> bool {
    let mut written = Vec::new(alloc);
    let result = hold(
        alloc,
        clerk,
        Cursor::new(lines),
        &mut written,
        stays,
        MOST_LINES,
    );
    is_end(result, wanted) && written.as_slice() == text
}

/// Whether what stands behind a line that ends a console isn't read.
fn is_left(
    alloc: Global,
    clerk: &mut Clerk,
    stays: bool,
    lines: &[u8],
    wanted: ConsoleEnd,
    rest: &[u8],
) -> bool {
    let mut written = Vec::new(alloc);
    match BufReader::new(alloc, Cursor::new(lines)) {
        Ok(mut reader) => {
            let result = answer_lines(
                &(),
                alloc,
                &mut reader,
                &mut written,
                clerk,
                stays,
                MOST_LINES,
            );
            is_end(result, wanted) && reader.buffer() == rest
        }
        Err(_) => false,
    }
}

/// Whether a new attendant's console doesn't read what stands behind a line that ends it, and the attendant was asked once.
pub(crate) fn leaves(
    alloc: Global,
    stays: bool,
    lines: &[u8],
    wanted: ConsoleEnd,
    rest: &[u8],
) -> bool {
    match Clerk::new(alloc) {
        Some(mut clerk) => {
            is_left(alloc, &mut clerk, stays, lines, wanted, rest) && clerk.asked == 1
        }
        None => false,
    }
}

/// Whether a new attendant's console answers lines with this text, and ends so.
pub(crate) fn answers(
    alloc: Global,
    stays: bool,
    lines: &[u8],
    text: &[u8],
    wanted: ConsoleEnd,
) -> bool {
    match Clerk::new(alloc) {
        Some(mut clerk) => is_answered(alloc, &mut clerk, stays, lines, text, wanted),
        None => false,
    }
}
