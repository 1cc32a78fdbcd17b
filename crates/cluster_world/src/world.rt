//! A world of up to eight names of nodes.
ghost use Rattle.std.specs.Prelude.{◌≡◌, ◌<◌, ◌≤◌, ◌-◌, ◌^◌, [], ◌∷◌, ◌++◌, length, slice_set, slice_index_or, min, map, None, OnOk, OnErr};
ghost use Rattle.std.specs.List.{All};
ghost use Rattle.term.specs.NodeSets.{with_older, succeeded};
ghost use Rattle.cluster_world.specs.NodeCoreState.{HaveLeft, IsNext};
ghost use Rattle.node_core.specs.Rare.{most_entries};
ghost use Rattle.world_history.specs.declared.entry.HistoryEntry.{HistoryEntry};
ghost use Rattle.cluster_world.specs.Mail.{links_of};
ghost use Rattle.cluster_world.specs.Restarting.{CanReplace, replaced_in};
ghost use Rattle.cluster_world.specs.Seen.{is_holding};

use crate::admission::{Admission, Comeback, Delivery};
use crate::history::join_of;
use crate::mail::Mail;
use crate::run_end::RunEnd;
use crate::turns::take_in;
use link::LinkPlace;
use name_table::Names;
use node_core::NodeCore;
use past::Trace;
use std::alloc::{AllocError, Global};
use std::marker::Model;
use std::mem;
use term::{Node, NodeName, NodeSet};
use world_events::{Answer, Cause, LocalEvent, Refusal, Turn, WorldEvent};
use world_history::{History, KeptEntry};

/// A world: its nodes, the links between them, and the history. A name whose node has left may come back: then its next node starts.
/// Contracts see what it holds as the protocol's world of named nodes.
#[derive(Drop)]
pub struct World<N: Names> {
    /// The nodes that were joined at first.
    pub(crate) cluster: NodeSet,
    /// The core of each node at present, in the order of the nodes.
    pub(crate) cores: Vec<NodeCore<N>>,
    /// The cores of nodes that were replaced, for proofs alone.
    pub(crate) past: Trace<NodeCore<N>, ()>,
    pub(crate) links: Mail,
    pub(crate) history: History,
    /// The memory of an earlier step, for what the next one makes.
    pub(crate) spare: Turn,
}

impl<N: Names> Model for World<N> {
    ghost use Rattle.std.specs.Prelude.{map};
    ghost use Rattle.cluster_world.specs.WorldState.{WorldState};
    ghost use Rattle.cluster_world.specs.Whole.{IsWhole};

    ghost Value = { WorldState };

    ghost view = { λ w. record {
      cluster = w.cluster;
      cores = w.cores.items;
      past = map (λ p. p.0) w.past.items;
      links = w.links;
      history = w.history.entries;
    } };

    ghost invariant = { λ w. IsWhole (record {
      cluster = w.cluster;
      cores = w.cores.items;
      past = map (λ p. p.0) w.past.items;
      links = w.links;
      history = w.history.entries;
    }) };
}

/// Whether the core, where these nodes have left, is that of a running joined node that holds the global lock.
fn is_holder<N: Names<Memory = Global>>(departed: &NodeSet, core: &NodeCore<N>) -> bool
    ensures { result ≡ is_holding departed.now core.now }
{
    core.is_joined() && core.holds_global() && !departed.reaches(core.node())
}

/// Makes room for the next step of a core: all that was sent is on its links, and the history has room for the step's entries. What
/// the world holds stays, memory refused or not.
fn make_room<N: Names<Memory = Global>>(
    core: &NodeCore<N>,
    links: &mut Mail,
    history: &mut History,
) -> Result<(), AllocError>
    ensures nodes { links.new.nodes ≡ links.old.nodes }
    ensures departed { links.new.departed ≡ links.old.departed }
    ensures links { links_of links.new ≡ links_of links.old }
    ensures left { HaveLeft links.old.nodes links.old.departed }
    ensures entries { history.new.entries ≡ history.old.entries }
    ensures all { OnOk result (links.new.unsent ≡ None) }
    ensures room { OnOk result (min (2 ^ 64 - 1) (most_entries core.now) ≤ history.new.room) }
{
    links.drain()?;
    history.reserve(core.most_entries(), core.node())
}

/// Enters that the name of a node comes back, whose next node this is: all that was sent is on its links then. Where memory is
/// refused nothing is entered, and what the world holds stays.
fn enter_restart(
    links: &mut Mail,
    history: &mut History,
    older: &Node,
    next: &Node,
) -> Result<(), AllocError>
    ensures nodes { links.new.nodes ≡ links.old.nodes }
    ensures departed { links.new.departed ≡ links.old.departed }
    ensures links { links_of links.new ≡ links_of links.old }
    ensures left { HaveLeft links.old.nodes links.old.departed }
    ensures all { OnOk result (links.new.unsent ≡ None) }
    ensures entered { OnOk result (history.new.entries ≡ history.old.entries ++ HistoryEntry.Restart next.now ∷ []) }
    ensures unchanged { OnErr result (history.new.entries ≡ history.old.entries) }
{
    links.drain()?;
    history.enter_restart(older, next)
}

/// A core takes the next node of a name in place of the one before it, unless its own node has left.
fn replace_one<N: Names<Memory = Global>>(
    core: &mut NodeCore<N>,
    departed: &NodeSet,
    older: &Node,
    next: &Node,
)
    requires next { IsNext older.now next.now }
    requires told { CanReplace departed.now older.now core.old }
    ensures { core.new ≡ replaced_in departed.now older.now next.now core.old }
{
    if !departed.reaches(core.node()) {
        core.replace(older, next);
    }
}

/// The running nodes take the next node of a name in place of the one before it, of which all of them were told that it has left.
fn replace_in<N: Names<Memory = Global>>(
    cores: &mut [NodeCore<N>],
    departed: &NodeSet,
    older: &Node,
    next: &Node,
)
    requires next { IsNext older.now next.now }
    requires told { All (CanReplace departed.now older.now) cores.old }
    ensures { cores.new ≡ map (replaced_in departed.now older.now next.now) cores.old }
{
    for core in cores.iter_mut() {
        replace_one(core, departed, older, next);
    }
}

/// Puts a core at a place, and keeps the one that stood there, for proofs alone.
fn put_core<N: Names<Memory = Global>>(
    cores: &mut [NodeCore<N>],
    past: &mut Trace<NodeCore<N>, ()>,
    place: usize,
    core: NodeCore<N>,
)
    requires { place < length cores.old }
    ensures cores { cores.new ≡ slice_set cores.old place core }
    ensures past { map (λ p. p.0) past.new.items ≡ map (λ p. p.0) past.old.items ++ slice_index_or cores.old place core ∷ [] }
{
    let gone = mem::replace(&mut cores[place], core);
    *past = past.and(&gone, &());
}

impl<N: Names<Memory = Global>> World<N> {
    ghost use Rattle.std.specs.Prelude.{ℕ, true, false, [], ◌∷◌, Some, None, take, is_some, IfOk, IfErr, IfSome, MatchOption};
    ghost use Rattle.std.specs.Option.{option_copied};
    ghost use Rattle.protocol_model.specs.World.{holder, left};
    ghost use Rattle.getting_through.specs.NamedWorld.{present_node};
    ghost use Rattle.cluster_world.specs.NodeCoreState.{AreOf, HaveLeft};
    ghost use Rattle.term.specs.Nodes.{IsFirst, name_of, text_in};
    ghost use Rattle.term.specs.NodeSets.{set_of, names_in};
    ghost use Rattle.link.specs.MeshState.{place as place_in};
    ghost use Rattle.cluster_world.specs.WorldState.{nodes_of};
    ghost use Rattle.cluster_world.specs.Whole.{IsWhole};
    ghost use Rattle.cluster_world.specs.Cores.{core_of};
    ghost use Rattle.cluster_world.specs.Admissions.{delivered_by, event_by, place_by, IsFound, IsReady, MayStart};
    ghost use Rattle.cluster_world.specs.Seen.{names_of, opening_of, seen, named};
    ghost use Rattle.world_events.specs.declared.events.LocalEvent.{LocalEvent as NodeEvent};
    ghost use Rattle.world_events.specs.Events.{knows_contact};
    ghost use Rattle.world_events.specs.Refusals.{is_memory};
    ghost use Rattle.cluster_world.specs.Steps.{IsAdmitted, AreFew};
    ghost use Rattle.cluster_world.specs.Playing.{Keeps, Played, RefusedWith, Ran, WaitsOn};
    ghost use Rattle.cluster_world.specs.Agreeing.{Agrees};
    ghost use Rattle.cluster_world.specs.Locks.{LocksBehind};
    ghost use Rattle.cluster_world.specs.Leftovers.{LeavesNothing};
    ghost use Rattle.cluster_world.specs.Restarting.{IsFirstUntold, EntersRestart};
    ghost use Rattle.cluster_world.specs.Settling.{IsNextLetter, HasNext, DeliversNext};

    /// The place of a node that runs, or why its events are refused: those whose contact, if they have one, has started. It takes
    /// no memory.
    pub(crate) fn running(&self, node: &Node) -> Result<usize, Refusal>
        ensures ok { IfOk result (λ place. (place_in node.now (nodes_of self.now) ≡ Some place)
            × (with_older self.now.links.departed node.now ≡ false)) }
        ensures refused { IfErr result (λ refusal. (event : NodeEvent) → knows_contact (nodes_of self.now) event ≡ true
            → RefusedWith refusal (WorldEvent.At node.now event) self.now) }
        ensures left { HaveLeft (nodes_of self.now) self.now.links.departed }
    {
        let nodes = self.links.nodes();
        if !nodes.reaches(node) {
            return Err(Refusal::NoSuchNode);
        }
        // An older node than the one at present has left.
        let Some(place) = nodes.position(node) else {
            return Err(Refusal::NodeLeft);
        };
        if self.links.has_left(node) {
            return Err(Refusal::NodeLeft);
        }
        Ok(place)
    }

    /// The place of the node that an event of a node is played at, or why the event is refused. It takes no memory.
    fn admit_own(&self, node: &Node, event: &LocalEvent) -> Result<usize, Refusal>
        ensures ok { IfOk result (λ place. IsAdmitted place (WorldEvent.At node.now event.now) self.now) }
        ensures refused { IfErr result (λ refusal. RefusedWith refusal (WorldEvent.At node.now event.now) self.now) }
    {
        if !event.knows_contact(self.links.nodes()) {
            return Err(Refusal::NoSuchNode);
        }
        let place = self.running(node)?;
        match self.cores[place].refusal(event.cause()) {
            Some(fault) => Err(Refusal::Step(fault)),
            None => Ok(place),
        }
    }

    /// The delivery of the oldest letter of the link from name to name, or why it is refused. It takes no memory.
    fn admit_delivery(&self, sender: &NodeName, receiver: &NodeName) -> Result<Delivery, Refusal>
        ensures ok { IfOk result (λ delivery. IsReady delivery self.now) }
        ensures event { IfOk result (λ delivery. delivered_by delivery ≡ WorldEvent.Deliver sender.now receiver.now) }
        ensures refused { IfErr result (λ refusal. RefusedWith refusal (WorldEvent.Deliver sender.now receiver.now) self.now) }
    {
        // What holds of any world is known from here on.
        let _ = &self.cluster;
        let (Some(from), Some(to)) = (self.place_of(sender), self.place_of(receiver)) else {
            return Err(Refusal::NoSuchNode);
        };
        let link = LinkPlace {
            sender: from,
            receiver: to,
        };
        let node = self.cores[to].node();
        // Letters wait for no node that has left.
        match self.links.first_sender(link, sender, node) {
            Some(sender) => Ok(Delivery {
                link,
                sender,
                receiver: node.copy(),
            }),
            None if self.links.has_left(node) => Err(Refusal::NodeLeft),
            None => Err(Refusal::EmptyLink),
        }
    }

    /// The first of the running nodes that wasn't told that a node has left.
    fn first_untold(&self, gone: &Node) -> Option<&Node>
        ensures { IsFirstUntold gone.now self.now (option_copied result) }
    {
        for core in &self.cores {
            if !self.links.has_left(core.node()) && !core.told().reaches(gone) {
                return Some(core.node());
            }
        }
        None
    }

    /// What a name comes back as, or why that is refused. It takes no memory.
    fn admit_restart(&self, name: &NodeName) -> Result<Comeback, Refusal>
        ensures ok { IfOk result (λ comeback. MayStart comeback self.now) }
        ensures event { IfOk result (λ comeback. name_of comeback.older ≡ name.now) }
        ensures refused { IfErr result (λ refusal. RefusedWith refusal (WorldEvent.Restart name.now) self.now) }
    {
        let Some(place) = self.place_of(name) else {
            return Err(Refusal::NoSuchNode);
        };
        let node = self.cores[place].node();
        if !self.links.has_left(node) {
            return Err(Refusal::StillRunning);
        }
        if let Some(untold) = self.first_untold(node) {
            return Err(Refusal::NotToldYet(untold.copy()));
        }
        match node.next() {
            Some(next) => Ok(Comeback {
                place,
                older: node.copy(),
                next,
            }),
            None => Err(Refusal::CreationsSpent),
        }
    }

    /// The place of the node of a name that is at present.
    fn place_of(&self, name: &NodeName) -> Option<usize>
        ensures place { MatchOption result (names_in (nodes_of self.now) name.now ≡ false)
            (λ k. (node : ℕ) × (place_in node (nodes_of self.now) ≡ Some k) × (name_of node ≡ name.now)) }
        ensures first { IsFirst name.now }
        ensures left { HaveLeft (nodes_of self.now) self.now.links.departed }
    {
        let nodes = self.links.nodes();
        // A name stands where its first node does.
        let _text = name.as_str();
        let node = self.links.present(name)?;
        nodes.position(node)
    }

    /// What an event is played as, or why it is refused. It takes no memory.
    pub(crate) fn admit<'a>(&self, event: &'a WorldEvent) -> Result<Admission<'a>, Refusal>
        ensures ok { IfOk result (λ admission. IsFound admission self.now) }
        ensures event { IfOk result (λ admission. event_by admission ≡ event.now) }
        ensures refused { IfErr result (λ refusal. RefusedWith refusal event.now self.now) }
    {
        match event {
            WorldEvent::At(node, event) => {
                Ok(Admission::Own(self.admit_own(node, event)?, node, event))
            }
            WorldEvent::Deliver(sender, receiver) => {
                Ok(Admission::Deliver(self.admit_delivery(sender, receiver)?))
            }
            WorldEvent::Restart(name) => Ok(Admission::Restart(self.admit_restart(name)?)),
        }
    }

    /// The node at this place takes the step of its own event: its letters go onto their links, and its entries into the history. All
    /// links towards one that leaves are closed. Where memory is refused, nothing has happened.
    fn happen(
        &mut self,
        place: usize,
        node: &Node,
        event: &LocalEvent,
    ) -> Result<Vec<Answer>, AllocError>
        requires { IsAdmitted place (WorldEvent.At node.now event.now) self.old }
        ensures kept { Keeps self.old self.new }
        ensures ok { IfOk result (λ answers. Played (WorldEvent.At node.now event.now) self.old self.new [] answers.items) }
        ensures few { IfOk result (λ answers. AreFew place self.old answers.items) }
        ensures as_before { OnErr result (named self.new ≡ named self.old) }
    {
        make_room(&self.cores[place], &mut self.links, &mut self.history)?;
        let alloc: Global = *self.cores.allocator();
        let spare = mem::replace(&mut self.spare, Turn::begin(alloc));
        let core = &mut self.cores[place];
        let own = join_of(core);
        let turn = core.accept(event.cause(), spare)?;
        let (answers, spare) = take_in(
            turn,
            place,
            node,
            own,
            &self.cores,
            &mut self.links,
            &mut self.history,
        );
        self.spare = spare;
        if event.is_leave() {
            self.links.close_out(node);
        }
        Ok(answers)
    }

    /// Makes a delivery: its receiver reads the letter, which is taken off its link. Where memory is refused, nothing has happened.
    pub(crate) fn read(&mut self, delivery: &Delivery) -> Result<Vec<Answer>, AllocError>
        requires { IsReady delivery.now self.old }
        ensures kept { Keeps self.old self.new }
        ensures ok { IfOk result (λ answers. Played (delivered_by delivery.now) self.old self.new [] answers.items) }
        ensures few { IfOk result (λ answers. AreFew delivery.now.link.receiver self.old answers.items) }
        ensures as_before { OnErr result (named self.new ≡ named self.old) }
    {
        let place = delivery.link.receiver;
        make_room(&self.cores[place], &mut self.links, &mut self.history)?;
        let Some(letter) = self.links.front(delivery) else {
            unreachable!()
        };
        let alloc: Global = *self.cores.allocator();
        let spare = mem::replace(&mut self.spare, Turn::begin(alloc));
        let core = &mut self.cores[place];
        let own = join_of(core);
        let turn = core.accept(Cause::FromPeer(&delivery.sender, letter), spare)?;
        self.links.take(delivery);
        let (answers, spare) = take_in(
            turn,
            place,
            &delivery.receiver,
            own,
            &self.cores,
            &mut self.links,
            &mut self.history,
        );
        self.spare = spare;
        Ok(answers)
    }

    /// A name comes back: its next node starts at its place, alone and without anything, and is told of all nodes that have left. Where
    /// memory is refused, nothing has happened.
    fn restart(&mut self, comeback: Comeback) -> Result<(), AllocError>
        requires { MayStart comeback self.old }
        ensures kept { Keeps self.old self.new }
        ensures ok { OnOk result (Played (WorldEvent.Restart (name_of comeback.older)) self.old self.new [] []) }
        ensures entered { OnOk result (EntersRestart (WorldEvent.Restart (name_of comeback.older)) self.old self.new) }
        ensures as_before { OnErr result (named self.new ≡ named self.old) }
    {
        let alloc: Global = *self.cores.allocator();
        let Comeback { place, older, next } = comeback;
        enter_restart(&mut self.links, &mut self.history, &older, &next)?;
        self.links.reopen(&older, &next);
        replace_in(
            self.cores.as_mut_slice(),
            self.links.departed(),
            &older,
            &next,
        );
        let core = NodeCore::come_back(alloc, next, self.links.nodes(), self.links.departed());
        put_core(self.cores.as_mut_slice(), &mut self.past, place, core);
        Ok(())
    }

    /// Plays an event that was admitted, and gives what its step answers. Where memory is refused, nothing has happened.
    pub(crate) fn accept(&mut self, admission: Admission<'_>) -> Result<Vec<Answer>, AllocError>
        requires { IsFound admission self.old }
        ensures kept { Keeps self.old self.new }
        ensures ok { IfOk result (λ answers. Played (event_by admission.entry) self.old self.new [] answers.items) }
        ensures entered { OnOk result (EntersRestart (event_by admission.entry) self.old self.new) }
        ensures few { IfOk result (λ answers. AreFew (place_by admission.entry) self.old answers.items) }
        ensures as_before { OnErr result (named self.new ≡ named self.old) }
    {
        match admission {
            Admission::Own(place, node, event) => self.happen(place, node, event),
            Admission::Deliver(delivery) => self.read(&delivery),
            Admission::Restart(comeback) => {
                self.restart(comeback)?;
                Ok(Vec::new(*self.cores.allocator()))
            }
        }
    }

    /// Plays one event, and gives what its step answers. A refused event changes nothing. So it is where `Memory` is refused, too: the
    /// event may be played again later, and nothing is lost. Where a name comes back the history says so by one entry.
    ///
    /// Whatever was played on a world since it opened, the headline holds behind that and this event: the answers to name
    /// calls and joins are those of one sequential registry that takes the granted operations in lock order, and whenever the
    /// lock is free, the tables are that registry's, less the names on nodes that a node was told have left, and each node keeps
    /// for its processes what the registry has sent them. So do the laws of clients' locks: at a running node no resource is held
    /// under two requesters, and each lock call is answered as these laws say (`LockAnswers`). And nothing is left over: once no
    /// letter waits, running nodes have the clients' locks that were granted and not given back, and no others.
    pub fn play(&mut self, event: &WorldEvent) -> Result<Vec<Answer>, Refusal>
        ensures kept { Keeps self.old self.new }
        ensures agrees { IfOk result (λ answers. Agrees (event.now ∷ []) answers.items self.old self.new) }
        ensures locks { IfOk result (λ _. LocksBehind (event.now ∷ []) self.old self.new) }
        ensures leaves_nothing { IfOk result (λ _. LeavesNothing (event.now ∷ []) self.old self.new) }
        ensures still_agrees { OnErr result (Agrees [] [] self.old self.new) }
        ensures still_locks { OnErr result (LocksBehind [] self.old self.new) }
        ensures still_leaves_nothing { OnErr result (LeavesNothing [] self.old self.new) }
        ensures ok { IfOk result (λ answers. Played event.now self.old self.new [] answers.items) }
        ensures entered { OnOk result (EntersRestart event.now self.old self.new) }
        ensures refused { IfErr result (λ refusal. RefusedWith refusal event.now self.old) }
        ensures unchanged { IfErr result (λ refusal. is_memory refusal ≡ false → self.new ≡ self.old) }
        ensures as_before { OnErr result (named self.new ≡ named self.old) }
    {
        let admission = self.admit(event)?;
        Ok(self.accept(admission)?)
    }

    /// The delivery that is made next, of the oldest letter on the first link on which one waits.
    pub(crate) fn next_letter(&self) -> Option<Delivery>
        ensures { MatchOption result (WaitsOn None self.now) (λ delivery. IsNextLetter delivery self.now) }
    {
        let nodes = self.links.nodes();
        if self.links.is_drained() {
            return self.links.first_on_mesh();
        }
        let (sender, receiver) = self.links.first_waiting()?;
        let link = LinkPlace {
            sender: self.place_of(sender.name())?,
            receiver: nodes.position(&receiver)?,
        };
        Some(Delivery {
            link,
            sender,
            receiver,
        })
    }

    /// Makes the delivery that `settle` makes next, the oldest letter of the first link on which one waits, and gives its answers; or
    /// gives none, where no letter waits. Where memory is refused, nothing has happened, and the letter waits on. What holds behind an
    /// event that is played holds behind this one.
    pub fn deliver_next(&mut self) -> Result<Option<Vec<Answer>>, AllocError>
        ensures kept { Keeps self.old self.new }
        ensures next { IfOk result (λ delivered. MatchOption delivered (WaitsOn None self.old × (self.new ≡ self.old))
            (λ answers. DeliversNext self.old self.new answers.items)) }
        ensures waits { OnErr result (HasNext self.old) }
        ensures as_before { OnErr result (named self.new ≡ named self.old) }
    {
        let Some(delivery) = self.next_letter() else {
            return Ok(None);
        };
        Ok(Some(self.read(&delivery)?))
    }

    /// Plays one event, and puts its answers behind those given before. Room for them is had before the event is played.
    pub(crate) fn play_into(
        &mut self,
        event: &WorldEvent,
        answers: &mut Vec<Answer>,
    ) -> Result<(), Refusal>
        ensures kept { Keeps self.old self.new }
        ensures ok { OnOk result (Played event.now self.old self.new answers.old.items answers.new.items) }
        ensures refused { IfErr result (λ refusal. RefusedWith refusal event.now self.old) }
        ensures as_before { OnErr result (named self.new ≡ named self.old) }
        ensures unanswered { OnErr result (answers.new.items ≡ answers.old.items) }
    {
        let admitted = self.admit(event)?;
        answers.reserve(self.cores[admitted.place()].most_answers())?;
        let mut given = self.accept(admitted)?;
        let _ = answers.append(&mut given);
        Ok(())
    }

    /// Plays events in order, up to the first that is refused. That one changes nothing, `Memory` or not, and those behind it aren't
    /// looked at: what it counts as played was played, with these answers, and the others may be played later. The headline, the
    /// laws of clients' locks and that nothing is left over hold behind what was played, as they do behind one event.
    pub fn run(&mut self, events: &[WorldEvent]) -> RunEnd
        ensures ran { Ran events.now self.old self.new result.played result.answers.items result.refusal }
        ensures agrees { Agrees (take result.played events.now) result.answers.items self.old self.new }
        ensures locks { LocksBehind (take result.played events.now) self.old self.new }
        ensures leaves_nothing { LeavesNothing (take result.played events.now) self.old self.new }
    {
        self.play_all(events)
    }

    /// Plays events in order, up to the first that is refused.
    fn play_all(&mut self, events: &[WorldEvent]) -> RunEnd
        ensures { Ran events.now self.old self.new result.played result.answers.items result.refusal }
    {
        let mut answers = Vec::new(*self.cores.allocator());
        for (played, event) in events.iter().enumerate() {
            if let Err(refusal) = self.play_into(event, &mut answers) {
                return RunEnd {
                    played,
                    answers,
                    refusal: Some(refusal),
                };
            }
        }
        RunEnd {
            played: events.len(),
            answers,
            refusal: None,
        }
    }

    /// The history: all entries, the oldest first.
    pub fn history(&self) -> &[KeptEntry]
        ensures { result.now ≡ self.now.history }
    {
        self.history.as_slice()
    }

    /// The nodes at present, one of each name of the world.
    pub fn nodes(&self) -> &NodeSet
        ensures { result.now ≡ nodes_of self.now }
    {
        self.links.nodes()
    }

    /// The node of a name that is at present: the first one, or the last one that the name came back as. None where the name isn't one of
    /// this world.
    pub fn present(&self, name: &NodeName) -> Option<&Node>
        ensures here { is_some result ≡ names_in (nodes_of self.now) name.now }
        ensures node { IfSome result (λ node. (set_of (nodes_of self.now) node.now ≡ true)
            × (node.now ≡ present_node (names_of self.now) (named self.now) (text_in name.now))) }
    {
        // One node of each name is at present.
        let _nodes = self.links.nodes();
        self.links.present(name)
    }

    /// The core of a node at present.
    pub(crate) fn core(&self, node: &Node) -> Option<&NodeCore<N>>
        ensures here { is_some result ≡ set_of (nodes_of self.now) node.now }
        ensures core { option_copied result ≡ core_of node.now self.now.cores }
        ensures whole { IsWhole self.now }
    {
        let place = self.links.nodes().position(node)?;
        Some(&self.cores[place])
    }

    /// Whether a node has left this world.
    pub fn has_left(&self, node: &Node) -> bool
        ensures { result ≡ left (seen self.now) node.now }
    {
        self.links.has_left(node)
    }

    /// The table of a node at present, or `None` of any other. That of one that has left is as it was then.
    pub fn table(&self, node: &Node) -> Option<&N>
        ensures here { is_some result ≡ set_of (nodes_of self.now) node.now }
        ensures table { IfSome result (λ table. N.contents table.now ≡ ((seen self.now).node node.now).replica.table) }
    {
        Some(self.core(node)?.table())
    }

    /// The members of a node at present, itself among them, or `None` of any other. While it runs they are nodes at present; those of one
    /// that has left are as they were then.
    pub fn members(&self, node: &Node) -> Option<&NodeSet>
        ensures here { is_some result ≡ set_of (nodes_of self.now) node.now }
        ensures members { IfSome result (λ members. set_of members.now ≡ ((seen self.now).node node.now).replica.members) }
        ensures within { IfSome result (λ members. left (seen self.now) node.now ≡ false → AreOf (nodes_of self.now) members.now) }
    {
        Some(self.core(node)?.members())
    }

    /// Of each name the last node that a node at present was told has left, or `None` of any other node; it was told so of all older ones,
    /// too.
    pub fn told(&self, node: &Node) -> Option<&NodeSet>
        ensures here { is_some result ≡ set_of (nodes_of self.now) node.now }
        ensures told { IfSome result (λ told. with_older told.now ≡ ((seen self.now).node node.now).replica.told) }
    {
        Some(self.core(node)?.told())
    }

    /// The running joined node that holds the global lock, if one does: from the grant of the last member until what it wrote is
    /// acknowledged by all.
    pub fn holder(&self) -> Option<Node>
        ensures { result ≡ holder (opening_of self.now) (seen self.now) }
    {
        let departed = self.links.departed();
        for core in &self.cores {
            if is_holder(departed, core) {
                return Some(core.node().copy());
            }
        }
        None
    }

    /// The first link on which a letter waits, by the names of its sender and its receiver; links go by sender and then receiver.
    pub fn waiting(&self) -> Option<(NodeName, NodeName)>
        ensures { WaitsOn result self.now }
    {
        let delivery = self.next_letter()?;
        Some((
            delivery.sender.name().copy(),
            delivery.receiver.name().copy(),
        ))
    }
}
