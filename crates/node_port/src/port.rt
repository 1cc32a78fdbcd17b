//! A node and its end of lines.
ghost use Rattle.std.specs.Prelude.{◌≡◌, ◌==◌, ◌||◌, ◌≤◌, ◌+◌, ◌^◌, ◌∷◌, [], not, true, find, option_copied, Some, IfOk, MatchOption, if◌then◌else◌};
ghost use Rattle.std.specs.List.{All, list_all};
ghost use Rattle.term.specs.NodeSets.{set_of, with_older};
ghost use Rattle.term.specs.Nodes.{IsFirst, name_of};
ghost use Rattle.node_loop.specs.Coming.{begun};
ghost use Rattle.node_port.specs.Asking.{last_process as last_process_of};
ghost use Rattle.node_port.specs.Playing.{asked};
ghost use Rattle.node_port.specs.Beginnings.{core_behind, before as any_before, fits as any_fits, is_one_of_each as any_is_one_of_each, present_of as any_present_of, world_of as any_world_of};
ghost use Rattle.wire_end.specs.Returning.{count_left};
ghost use Rattle.wire_end.specs.Wirings.{begun as begun_end};
ghost use Rattle.term.specs.NodeSets.{IsNodeSet};
ghost use Rattle.node_port.specs.Ran.{Founds, core_of, opened_so};
ghost use Rattle.node_port.specs.Working.{stands_behind, stand_of, IsEmpty};

use crate::commands::{Command, Refused, line_fault};
use crate::output::Output;
use crate::printing::{
    push_edit, push_gap, push_no_such_node, push_refusal, push_reply, push_spent, push_state,
    push_steps, push_stray, push_untold, push_wait,
};
use name_table::IndexTable;
use node_loop::{ForgottenLog, LocalEvent, NodeCore, NodeLoop, OpenGate, Task, Ticket, TurnFault};
use std::alloc::{AllocError, Global};
use std::io::Write;
use term::{Node, NodeName, NodeSet, Pid};
use text_lines::WriteFault;
use wire_end::{HearFault, LetterFault, LinkLine, WireEnd};

/// So many turns are made for a tick: as many as a refused round waits for one rival.
const TURNS_OF_A_TICK: u32 = 16;

/// The loop of the node. Of its steps none is kept, and its names are found by hashing.
type PortLoop = NodeLoop<IndexTable<Global>, ForgottenLog>;

/// How a node stands behind a line.
#[derive(Clone, Copy, Debug, PartialEq, Eq)]
pub(crate) enum Standing {
    /// It goes on.
    Runs,
    /// It has left.
    HasLeft,
    /// A line wasn't the next of its link.
    Broken,
    /// No stamp is left for a step.
    Spent,
}

/// A node, its end of lines, and what is to be printed.
#[derive(Drop)]
pub(crate) struct Port {
    alloc: Global,
    node: PortLoop,
    end: WireEnd,
    output: Output,
    /// What was printed last of whether the node is joined, and with whom.
    joined: bool,
    members: NodeSet,
}

/// The last node of a name that has left, if one has.
fn last_of<'a>(left: &'a NodeSet, name: &Node) -> Option<&'a Node>
    ensures { option_copied result ≡ find (λ d. name_of d == name_of name.now) left.now }
{
    left.as_slice()
        .iter()
        .find(|gone| gone.name() == name.name())
}

/// The node of a name at present where these have left: the node that opens, or the last one of the name that has left, or the first one.
fn present_of(node: &Node, left: &NodeSet, name: &Node) -> Node
    requires { IsFirst name.now }
    ensures { result ≡ any_present_of node.now left.now name.now }
{
    if node.name() == name.name() {
        return node.copy();
    }
    match last_of(left, name) {
        Some(gone) => gone.copy(),
        None => name.copy(),
    }
}

/// The nodes of a world at present, where these have left and this one opens.
fn world_of(node: &Node, names: &NodeSet, left: &NodeSet) -> NodeSet
    requires known { set_of names.now (name_of node.now) ≡ true }
    requires first { All IsFirst names.now }
    ensures { result ≡ any_world_of node.now names.now left.now }
{
    let mut world = NodeSet::empty();
    for name in names.as_slice() {
        // There are no more nodes than names.
        let _inserted = world.insert(present_of(node, left, name));
    }
    world
}

/// The loop of a first node that founds its cluster: it is joined, with itself.
fn found_loop(alloc: Global, node: &Node, world: &NodeSet) -> Result<PortLoop, AllocError>
    requires known { set_of world.now node.now ≡ true }
    requires first { All IsFirst world.now }
    ensures { IfOk result (λ new. new ≡ begun 0 (core_of node.now world.now Founds)) }
{
    let members = NodeSet::one(node.copy());
    NodeLoop::new(
        alloc,
        NodeCore::new(alloc, node.copy(), world, &members, true),
        0,
    )
}

/// The loop of a node that is lone, and was told that these have left, of each name the last node: its steps have stamps above this one.
fn open_loop(
    alloc: Global,
    node: &Node,
    names: &NodeSet,
    stamp: u64,
    left: &NodeSet,
) -> Result<PortLoop, AllocError>
    requires known { set_of names.now (name_of node.now) ≡ true }
    requires first { All IsFirst names.now }
    requires fit { any_fits node.now names.now left.now ≡ true }
    ensures { IfOk result (λ new. new ≡ begun stamp (core_behind node.now names.now left.now)) }
{
    let world = world_of(node, names, left);
    NodeLoop::new(
        alloc,
        NodeCore::come_back(alloc, node.copy(), &world, left),
        stamp,
    )
}

/// The end of lines of a loop that hasn't made a step.
fn end_of(alloc: Global, node: &PortLoop) -> Result<WireEnd, AllocError>
    ensures { IfOk result (λ end. end ≡ begun_end node.now.log.node node.now.core.world) }
{
    WireEnd::new(alloc, node.node().copy(), node.world())
}

/// Gives a loop up. It is dropped here alone, so that whoever has to give one up needs no proof of all that it owns.
fn discard(_node: PortLoop) {}

/// Who has left where nothing else is said: the node before this one, if there was one.
pub(crate) fn before(node: &Node) -> NodeSet
    ensures { result ≡ any_before node.now }
{
    match node.before() {
        Some(older) => NodeSet::one(older),
        None => NodeSet::empty(),
    }
}

/// Whether a node that has left is of another name than this one, or the one before it.
fn fits_own(gone: &Node, node: &Node) -> bool
    ensures { result ≡ (not (name_of gone.now == name_of node.now) || (gone.now + 1 == node.now)) }
{
    if gone.name() != node.name() {
        return true;
    }
    match node.before() {
        Some(older) => older == *gone,
        None => false,
    }
}

/// Whether a node that has left is of one of these names.
fn has_its_name(names: &NodeSet, gone: &Node) -> bool
    ensures { result ≡ set_of names.now (name_of gone.now) }
{
    names.contains(&Node::first(gone.name().copy()))
}

/// Whether these can have left where a node of a world with these names opens: they have such names, each another, and of its own name the one
/// before it is among them, and no other.
pub(crate) fn fits(node: &Node, names: &NodeSet, left: &NodeSet) -> bool
    ensures { result ≡ any_fits node.now names.now left.now }
{
    let nodes = left.as_slice();
    have_names(names, nodes)
        && is_one_of_each(nodes)
        && fit_own(nodes, node)
        && has_one_before(left, node)
}

/// Whether nodes that have left are of these names.
fn have_names(names: &NodeSet, gone: &[Node]) -> bool
    ensures { result ≡ list_all (λ d. set_of names.now (name_of d)) gone.now }
{
    gone.iter().all(|gone| has_its_name(names, gone))
}

/// Whether each is of another name than this one, or the one before it.
fn fit_own(gone: &[Node], node: &Node) -> bool
    ensures { result ≡ list_all (λ d. not (name_of d == name_of node.now) || (d + 1 == node.now)) gone.now }
{
    gone.iter().all(|gone| fits_own(gone, node))
}

/// Whether the node before this one has left, if there was one.
fn has_one_before(left: &NodeSet, node: &Node) -> bool
    ensures { result ≡ list_all (λ d. set_of left.now d) (any_before node.now) }
{
    before(node)
        .as_slice()
        .iter()
        .all(|gone| left.contains(gone))
}

/// Whether no two of these nodes have one name. They rise, so such would stand side by side.
fn is_one_of_each(nodes: &[Node]) -> bool
    ensures { IsNodeSet nodes.now → result ≡ any_is_one_of_each nodes.now }
{
    for place in 1..nodes.len() {
        if nodes[place - 1].name() == nodes[place].name() {
            return false;
        }
    }
    true
}

/// How many nodes have left, where these are the last ones of their names, and this stamp behind as many: none where there is no such.
pub(crate) fn stamp_behind(stamp: u64, left: &NodeSet) -> Option<u64>
    ensures { MatchOption result (2 ^ 64 ≤ stamp + count_left left.now) (λ s. s ≡ stamp + count_left left.now) }
{
    let mut behind = stamp;
    for gone in left.as_slice() {
        behind = behind.checked_add(u64::from(gone.creation()))?;
    }
    Some(behind)
}

/// Whether the node has left, or goes on.
fn standing_of(has_left: bool) -> Standing
    ensures { result ≡ stands_behind has_left }
{
    if has_left {
        Standing::HasLeft
    } else {
        Standing::Runs
    }
}

/// What is asked under a tag.
fn task_of(tag: u64, event: LocalEvent) -> Task
    ensures { result ≡ asked tag event }
{
    let ticket = Ticket {
        seat: 0,
        slot: 0,
        number: tag,
    };
    Task {
        ticket: Some(ticket),
        event,
    }
}

impl Port {
    ghost use Rattle.std.specs.Prelude.{◌≡◌, ◌&&◌, ◌∷◌, ◌++◌, [], true, false, not, ℕ, List, None, OnOk, IfOk, MatchOption, string_bytes, if◌then◌else◌};
    ghost use Rattle.text_lines.specs.Writing.{Writes};
    ghost use Rattle.node_loop.specs.declared.edit.Note.TheVariants.{Nothing};
    ghost use Rattle.wire_end.specs.declared.faults.HearFault.{HearFault};
    ghost use Rattle.wire_end.specs.declared.faults.HearFault.TheVariants.{Part};
    ghost use Rattle.node_port.specs.Commands.{Taken, Follows, Refused as RefusedSo, TakenAs};
    ghost use Rattle.node_port.specs.Deeds.{Does, Turn};
    ghost use Rattle.node_port.specs.Edits.{Stood};
    ghost use Rattle.node_port.specs.Playing.{spent, is_waiting, waiting, GivesStart, HasNoPlace};
    ghost use Rattle.node_loop.specs.NodeCoreState.{IsNext};
    ghost use Rattle.node_loop.specs.Returning.{MayStart};
    ghost use Rattle.wire_end.specs.Starting.{is_alone};
    ghost use Rattle.node_port.specs.Working.{stand_of, Grows, IsEmpty, ShowsAll, GoesOn, ComesTo, Concludes, Settles, RefusesFor, PlaysAt, ShowsStill};
    ghost use Rattle.node_port.specs.declared.commands.Command.TheVariants.{Ask, Steps, Letter, Down, Started, Tick};
    ghost use Rattle.node_port.specs.declared.port.Standing.{Standing};
    ghost use Rattle.node_port.specs.declared.port.Standing.TheVariants.{Runs};

    /// A loop with its end of lines, of which nothing is to be printed.
    fn with_end(alloc: Global, node: PortLoop, end: WireEnd) -> Self
        ensures stand { stand_of result ≡ record { loop = node; end = end } }
        ensures empty { IsEmpty result.output }
    {
        let joined = node.is_joined();
        let members = node.members().copy();
        Port {
            alloc,
            node,
            end,
            output: Output::new(alloc),
            joined,
            members,
        }
    }

    /// A loop that hasn't made a step, with its end of lines.
    fn with_loop(alloc: Global, node: PortLoop) -> Result<Self, AllocError>
        ensures stand { IfOk result (λ port. stand_of port ≡ record { loop = node; end = begun_end node.log.node node.core.world }) }
        ensures empty { IfOk result (λ port. IsEmpty port.output) }
    {
        match end_of(alloc, &node) {
            Ok(end) => Ok(Port::with_end(alloc, node, end)),
            Err(fault) => {
                discard(node);
                Err(fault)
            }
        }
    }

    /// Gives a node up. It is dropped here alone, as a loop is.
    pub(crate) fn discard(self) {
        discard(self.node);
    }

    /// This first node of a world, which founds its cluster, before its first step.
    pub(crate) fn found(alloc: Global, node: &Node, world: &NodeSet) -> Result<Self, AllocError>
        requires known { set_of world.now node.now ≡ true }
        requires first { All IsFirst world.now }
        ensures opened { IfOk result (λ port. stand_of port ≡ opened_so node.now world.now Founds) }
        ensures empty { IfOk result (λ port. IsEmpty port.output) }
    {
        Port::with_loop(alloc, found_loop(alloc, node, world)?)
    }

    /// This node of a world with these names, which is lone, before its first step: its steps have stamps above this one, and these have left, of
    /// each name the last node.
    pub(crate) fn open(
        alloc: Global,
        node: &Node,
        names: &NodeSet,
        stamp: u64,
        left: &NodeSet,
    ) -> Result<Self, AllocError>
        requires known { set_of names.now (name_of node.now) ≡ true }
        requires first { All IsFirst names.now }
        requires fit { any_fits node.now names.now left.now ≡ true }
        ensures opened { IfOk result (λ port. stand_of port ≡ record {
          loop = begun stamp (core_behind node.now names.now left.now);
          end = begun_end node.now (any_world_of node.now names.now left.now);
        }) }
        ensures empty { IfOk result (λ port. IsEmpty port.output) }
    {
        Port::with_loop(alloc, open_loop(alloc, node, names, stamp, left)?)
    }

    /// The name of the node.
    pub(crate) fn name(&self) -> NodeName
        ensures { result ≡ name_of self.now.node.log.node }
    {
        self.node.node().name().copy()
    }

    /// The process that was spawned last, if one was.
    pub(crate) fn last_process(&self) -> Option<Pid>
        ensures { result ≡ last_process_of self.now.node.log.node self.now.node.core.watch.watch.last_serial }
    {
        let serial = self.node.numbers().serials;
        if serial == 0 {
            return None;
        }
        Some(Pid {
            node: self.node.node().copy(),
            serial,
        })
    }

    /// Prints whether the node is joined, and with whom.
    pub(crate) fn show_state(&mut self) -> Result<(), AllocError>
        ensures stand { stand_of self.new ≡ stand_of self.old }
        ensures shown { OnOk result (Grows (Stood self.old.node.core.joined self.old.node.core.members ∷ []) [] self.old.output self.new.output) }
    {
        self.joined = self.node.is_joined();
        self.members = self.node.members().copy();
        push_state(&mut self.output.changes, self.joined, &self.members)
    }

    /// Prints whether the node is joined, and with whom, where that isn't what was printed last.
    fn show_new_state(&mut self) -> Result<(), AllocError>
        ensures still { OnOk result (ShowsStill self.old self.new) }
        ensures node { self.new.node ≡ self.old.node }
    {
        if self.joined != self.node.is_joined() || self.members != *self.node.members() {
            return self.show_state();
        }
        Ok(())
    }

    /// Prints what the last turn did to the table.
    fn show_update(&mut self) -> Result<(), AllocError>
        ensures still { OnOk result (ShowsStill self.old self.new) }
        ensures all { OnOk result (self.new.node.owed.note ≡ Nothing) }
    {
        match self.node.next_update(self.alloc)? {
            Some(update) => push_edit(&mut self.output.changes, &update.edit),
            None => Ok(()),
        }
    }

    /// Prints what the last turn replied.
    fn show_replies(&mut self) -> Result<(), AllocError>
        ensures still { OnOk result (ShowsStill self.old self.new) }
        ensures all { OnOk result (self.new.node.desk.replies ≡ []) }
        ensures owed { self.new.node.owed ≡ self.old.node.owed }
    {
        while let Some(reply) = self.node.next_reply() {
            push_reply(&mut self.output.answers, self.alloc, reply)?;
        }
        Ok(())
    }

    /// Prints what the last turn did and replied.
    fn show(&mut self) -> Result<(), AllocError>
        ensures { OnOk result (ShowsAll self.old self.new) }
    {
        self.show_update()?;
        self.show_new_state()?;
        self.show_replies()
    }

    /// One turn, of which nothing is printed yet.
    fn make_turn(&mut self) -> Result<(), TurnFault>
        ensures turned { Does (Turn result) (stand_of self.old) (stand_of self.new) }
        ensures output { self.new.output ≡ self.old.output }
    {
        self.node.turn(&mut self.end, &OpenGate)
    }

    /// One turn, and what it prints: why the loop can't go on, where it can't.
    fn turn(&mut self) -> Result<(), TurnFault>
        ensures { ComesTo result self.old self.new }
    {
        let outcome = self.make_turn();
        self.show()?;
        outcome
    }

    /// Turns until one finds nothing to do.
    fn settle(&mut self) -> Result<(), TurnFault>
        ensures { ComesTo result self.old self.new }
    {
        for _ in 0..u64::MAX {
            self.turn()?;
            if !self.node.worked() {
                break;
            }
        }
        Ok(())
    }

    /// The turns of a tick.
    fn turn_for_a_tick(&mut self) -> Result<(), TurnFault>
        ensures { ComesTo result self.old self.new }
    {
        for _ in 0..TURNS_OF_A_TICK {
            self.turn()?;
        }
        Ok(())
    }

    /// Time went by.
    fn pass_time(&mut self) -> Result<(), TurnFault>
        ensures { ComesTo result self.old self.new }
    {
        self.turn_for_a_tick()?;
        self.settle()
    }

    /// How the node stands behind turns; where no stamp is left for a step, that is printed.
    fn conclude(&mut self, outcome: Result<(), TurnFault>) -> Result<Standing, AllocError>
        ensures { IfOk result (λ standing. Concludes outcome standing self.old self.new) }
    {
        match outcome {
            Ok(()) => Ok(standing_of(self.node.has_left())),
            Err(TurnFault::StampsSpent) => {
                push_spent(&mut self.output.answers)?;
                Ok(Standing::Spent)
            }
            Err(TurnFault::Memory) => Err(AllocError),
        }
    }

    /// Turns until one finds nothing to do: how the node stands then.
    fn settled(&mut self) -> Result<Standing, AllocError>
        ensures { IfOk result (λ standing. Settles standing self.old self.new) }
    {
        let outcome = self.settle();
        self.conclude(outcome)
    }

    /// The node is asked for an event.
    fn ask(&mut self, tag: u64, event: LocalEvent) -> Result<Standing, AllocError>
        ensures { IfOk result (λ standing. PlaysAt (Follows (Ask tag event)) standing (spent standing) self.old self.new) }
    {
        self.end.ask(task_of(tag, event))?;
        self.settled()
    }

    /// Time went by.
    fn tick(&mut self) -> Result<Standing, AllocError>
        ensures { IfOk result (λ standing. PlaysAt (Follows Tick) standing (spent standing) self.old self.new) }
    {
        let outcome = self.pass_time();
        self.conclude(outcome)
    }

    /// Prints why a line of a link isn't taken that says no part of the letter that the lines before it began.
    fn refuse_part(&mut self, fault: LetterFault) -> Result<Standing, AllocError>
        ensures stand { stand_of self.new ≡ stand_of self.old }
        ensures refused { (from number : ℕ) → IfOk result (λ standing. RefusesFor (Part fault) from number standing self.old self.new) }
    {
        match fault {
            LetterFault::Memory => Err(AllocError),
            _ => {
                push_refusal(&mut self.output.answers, None, &line_fault(fault))?;
                Ok(Standing::Runs)
            }
        }
    }

    /// Prints why a line of a link, or the word that a node is gone, isn't taken.
    fn refuse_heard(
        &mut self,
        from: &Node,
        number: u64,
        fault: HearFault,
    ) -> Result<Standing, AllocError>
        ensures stand { stand_of self.new ≡ stand_of self.old }
        ensures refused { IfOk result (λ standing. RefusesFor fault from.now number standing self.old self.new) }
    {
        match fault {
            HearFault::Gap => {
                push_gap(&mut self.output.answers, from, number)?;
                Ok(Standing::Broken)
            }
            HearFault::Stray => {
                push_stray(&mut self.output.answers)?;
                Ok(Standing::Runs)
            }
            HearFault::NoSuchNode => {
                push_no_such_node(&mut self.output.answers)?;
                Ok(Standing::Runs)
            }
            HearFault::Part(fault) => self.refuse_part(fault),
        }
    }

    /// A line of a link came.
    fn hear(&mut self, from: &Node, line: LinkLine) -> Result<Standing, AllocError>
        ensures { IfOk result (λ standing. (taken : Taken) × TakenAs (Letter from.now line) taken × PlaysAt taken standing (spent standing) self.old self.new) }
    {
        let number = line.number;
        match self.end.hear(from, line) {
            Ok(()) => self.settled(),
            Err(fault) => self.refuse_heard(from, number, fault),
        }
    }

    /// Another node is gone without a word.
    fn lose(&mut self, node: &Node) -> Result<Standing, AllocError>
        ensures { IfOk result (λ standing. (taken : Taken) × TakenAs (Down node.now) taken × PlaysAt taken standing (spent standing) self.old self.new) }
    {
        match self.end.lose(node) {
            Ok(()) => self.settled(),
            Err(fault) => self.refuse_heard(node, 0, fault),
        }
    }

    /// Whether this one runs, and that is another node of the world at present, alone of its name.
    fn may_be_followed(&self, older: &Node) -> bool
        ensures follows { result ≡ (not self.now.node.left && (is_alone older.now self.now.end && set_of self.now.node.core.world older.now)) }
        ensures last { result ≡ true → (next : ℕ) → IsNext older.now next → with_older self.now.node.core.world next ≡ false }
    {
        !self.node.has_left() && self.end.is_linked_with(older) && self.node.is_present(older)
    }

    /// The node before this one, where that is another node of the world at present, and this one runs.
    fn place_for(&self, next: &Node) -> Option<Node>
        ensures { MatchOption result (HasNoPlace next.now (stand_of self.now)) (λ older. IsNext older next.now
            × (is_alone older self.now.end ≡ true) × (set_of self.now.node.core.world older ≡ true)
            × (with_older self.now.node.core.world next.now ≡ false) × (self.now.node.left ≡ false)) }
    {
        let older = next.before()?;
        if self.may_be_followed(&older) {
            Some(older)
        } else {
            None
        }
    }

    /// A node takes the place of the one before it, of which this one was told that it has left.
    fn replace(&mut self, older: &Node, next: &Node)
        requires may { MayStart older.now next.now self.old.node }
        requires alone { is_alone older.now self.old.end ≡ true }
        ensures start { GivesStart next.now (stand_of self.old) (stand_of self.new) }
        ensures output { self.new.output ≡ self.old.output }
    {
        self.node.replace(older, next);
        self.end.started(older, next);
    }

    /// The next node of another one's name has started. It is no step of this one.
    fn start(&mut self, next: &Node) -> Result<Standing, AllocError>
        ensures { IfOk result (λ standing. (taken : Taken) × TakenAs (Started next.now) taken × PlaysAt taken standing (spent standing) self.old self.new) }
    {
        let Some(older) = self.place_for(next) else {
            push_no_such_node(&mut self.output.answers)?;
            return Ok(Standing::Runs);
        };
        if !self.node.was_told(&older) {
            push_untold(&mut self.output.answers)?;
            return Ok(Standing::Runs);
        }
        self.replace(&older, next);
        Ok(Standing::Runs)
    }

    /// Prints how many steps the node has made.
    fn count(&mut self, tag: u64) -> Result<Standing, AllocError>
        ensures { IfOk result (λ standing. PlaysAt (Follows (Steps tag)) standing (spent standing) self.old self.new) }
    {
        let steps = self.node.numbers().steps;
        push_steps(&mut self.output.answers, tag, steps)?;
        Ok(Standing::Runs)
    }

    /// Does what a line says, and gives how the node stands behind it.
    pub(crate) fn play(&mut self, command: Command) -> Result<Standing, AllocError>
        ensures { IfOk result (λ standing. (taken : Taken) × TakenAs command taken × PlaysAt taken standing (spent standing) self.old self.new) }
    {
        match command {
            Command::Ask(tag, event) => self.ask(tag, event),
            Command::Tick => self.tick(),
            Command::Letter(from, line) => self.hear(&from, line),
            Command::Down(node) => self.lose(&node),
            Command::Started(node) => self.start(&node),
            Command::Steps(tag) => self.count(tag),
        }
    }

    /// Prints why a line is refused. Nothing else changes.
    pub(crate) fn refuse(&mut self, refused: &Refused) -> Result<(), AllocError>
        ensures { OnOk result (PlaysAt (RefusedSo refused.now.tag refused.now.fault) Runs [] self.old self.new) }
    {
        let Refused { tag, fault } = refused;
        push_refusal(&mut self.output.answers, *tag, fault)
    }

    /// Whether the node runs, and something waits to be tried again.
    fn waits(&self, standing: Standing) -> bool
        ensures { result ≡ is_waiting standing self.now.node }
    {
        match standing {
            Standing::Runs => self.node.owes(),
            Standing::HasLeft | Standing::Broken | Standing::Spent => false,
        }
    }

    /// Says that something waits to be tried again, where it does, and the node runs.
    pub(crate) fn show_waiting(&mut self, standing: Standing) -> Result<(), AllocError>
        ensures stand { stand_of self.new ≡ stand_of self.old }
        ensures shown { OnOk result (Grows [] (waiting standing self.old.node) self.old.output self.new.output) }
    {
        if !self.waits(standing) {
            return Ok(());
        }
        push_wait(&mut self.output.answers)
    }

    /// Writes what is to be printed, which isn't any more then.
    pub(crate) fn write<W: Write>(&mut self, writer: &mut W) -> Result<(), WriteFault>
        ensures written { Writes (W.contents writer.old) (W.contents writer.new) result
            (string_bytes self.old.output.changes ++ (self.old.end.orders ++ (self.old.end.lines ++ string_bytes self.old.output.answers))) }
        ensures node { self.new.node ≡ self.old.node }
        ensures end { self.new.end ≡ record self.old.end { lines = []; orders = [] } }
        ensures empty { OnOk result (IsEmpty self.new.output) }
    {
        let orders = self.end.take_orders();
        let lines = self.end.take_lines();
        self.output
            .write_out(orders.as_str(), lines.as_str(), writer)
    }
}
