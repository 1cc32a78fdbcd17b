//! How a node stands, and the server that serves its consoles.
ghost use Rattle.std.specs.Prelude.{◌≡◌, ◌++◌, IfErr, IfOk, OnOk, string_bytes};
ghost use Rattle.node_seats.specs.Callers.{IsEnd};
ghost use Rattle.console.specs.declared.status.Load.{Load as AnyLoad};
ghost use Rattle.console.specs.Statuses.{load_text, node_text, numbers_text, status_line as any_line, status_outcome, standing_word};

use command_lines::refusal_line;
use descriptions::SharedDescriptions;
use lock_lines::LockLines;
use node_seats::{ForgottenNotes, NodeStatus, Numbers, Seat, SeatFault};
use std::alloc::{AllocError, Global};
use std::fmt::Write as _;
use term::Node;

/// What a server bears.
#[derive(Clone, Copy, Debug, PartialEq, Eq)]
pub struct Load {
    /// How many consoles it serves.
    pub consoles: u64,
    /// How many bytes of memory it had when it last looked; 0 where the system doesn't tell.
    pub memory: u64,
}

/// How a node stands, what its server bears, and by which step a console at the node was granted a lock last.
#[derive(Debug, PartialEq, Eq, Drop)]
pub struct Status {
    /// Of the node.
    pub node: NodeStatus,
    /// Of the server.
    pub load: Load,
    /// The number of that step, if there was one.
    pub fence: Option<u128>,
}

/// A server that serves consoles until one asks for its end, as it tells of itself. It is given what it waits with, of the type `H`.
pub trait House<H> {
    /// It may bear so much.
    ghost bears: { Self → AnyLoad → Type 0 };

    /// What it bears: the consoles of this moment, and the memory of its last look.
    fn load(&self, rt: &H) -> Load
        ensures { bears self.now result };

    /// The lines in which the lock calls of its consoles wait.
    fn lines(&self) -> &LockLines;

    /// What is said of the processes of its nodes.
    fn descriptions(&self) -> &SharedDescriptions;

    /// Lends a seat of this node, which keeps no transcript, once one is free: those that ask first have one first. It must come back before the
    /// same console asks for another. `Closed`: it lends none of this node.
    fn lend(&self, rt: &H, node: &Node) -> Result<Seat<ForgottenNotes>, SeatFault>
        ensures node { IfOk result (λ seat. seat.node ≡ node.now) }
        ensures none { IfErr result IsEnd };

    /// Takes a seat back that it has lent.
    fn take_back(&self, rt: &H, seat: Seat<ForgottenNotes>);
}

/// The word for whether a node is joined.
fn word_of(joined: bool) -> &'static str
    ensures { result.now ≡ standing_word joined }
{
    if joined { "joined" } else { "lone" }
}

/// Puts behind a text how a node stands, but for its numbers.
fn push_node(text: &mut String, status: &NodeStatus) -> Result<(), AllocError>
    ensures { OnOk result (string_bytes text.new ≡ string_bytes text.old ++ node_text status.now) }
{
    let word = word_of(status.joined);
    write!(
        text,
        "status {} {word} members {}",
        status.node, status.members
    )
}

/// Puts the numbers of a node behind a text, but for how many steps it has made.
fn push_numbers(text: &mut String, numbers: &Numbers) -> Result<(), AllocError>
    ensures { OnOk result (string_bytes text.new ≡ string_bytes text.old ++ numbers_text numbers.now) }
{
    write!(text, " names {} locks {}", numbers.names, numbers.locks)?;
    write!(text, " calls {} serials {}", numbers.calls, numbers.serials)?;
    write!(text, " spans {}", numbers.spans)
}

/// Puts behind a text what a server bears, and how many steps the node has made.
fn push_load(text: &mut String, load: &Load, steps: u64) -> Result<(), AllocError>
    ensures { OnOk result (string_bytes text.new ≡ string_bytes text.old ++ load_text load.now steps) }
{
    let Load { consoles, memory } = load;
    write!(text, " consoles {consoles} steps {steps} memory {memory}")
}

/// The line of a status.
fn told_line(alloc: Global, status: &Status) -> Result<String, AllocError>
    ensures { IfOk result (λ line. string_bytes line ≡ any_line status.now) }
{
    let mut line = String::new(alloc);
    push_node(&mut line, &status.node)?;
    push_numbers(&mut line, &status.node.numbers)?;
    push_load(&mut line, &status.load, status.node.numbers.steps)?;
    line.push('\n')?;
    Ok(line)
}

/// The line of a status, or of a refusal.
pub(crate) fn status_line(
    alloc: Global,
    outcome: Result<Status, SeatFault>,
) -> Result<String, AllocError>
    ensures { IfOk result (λ line. string_bytes line ≡ status_outcome outcome) }
{
    match outcome {
        Ok(status) => told_line(alloc, &status),
        Err(fault) => refusal_line(alloc, fault.word()),
    }
}
