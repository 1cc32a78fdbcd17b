//! Letters that are gathered of parts.
ghost use Rattle.std.specs.Prelude.{◌≡◌, true, false, None, MatchResult};
ghost use Rattle.node_events.specs.Letters.{letter_of};
ghost use Rattle.term.specs.NodeSets.{with_node};
ghost use Rattle.term.specs.declared.faults.TextFault.TheVariants.{TooManyNodes};
ghost use Rattle.letter_lines.specs.declared.part.Part.TheVariants as part;
ghost use Rattle.letter_lines.specs.Gathered.{nothing, taken, kept, has_room as there_is_room, is_nothing, is_of_pairs, is_for_members, is_for_joiner, has_no_fate, Took, Ends, Takes};

use crate::faults::LetterFault;
use crate::part::Part;
use exchange::{Admission, Noted, Welcome};
use name_table::Pair;
use node_events::Letter;
use std::alloc::{AllocError, Global};
use std::marker::Model;
use std::mem;
use term::{MOST_NODES, Name, Node, NodeSet, Pid, TextFault};

/// What was read of the next letter of a link: its items, until the letter itself comes.
#[derive(Drop)]
pub struct Gathering {
    members: NodeSet,
    pairs: Vec<Pair>,
    told: NodeSet,
    puts: Vec<Pair>,
    removes: Vec<Name>,
    kills: Vec<Pid>,
    notices: Vec<Noted>,
}

impl Model for Gathering {
    ghost use Rattle.letter_lines.specs.Gathered.{Gathered};

    ghost Value = { Gathered };

    ghost view = { λ g. record {
      members = g.members;
      pairs = g.pairs.items;
      told = g.told;
      puts = g.puts.items;
      removes = g.removes.items;
      kills = g.kills.items;
      notices = g.notices.items;
    } };
}

/// Whether a set has room for a node, or has it.
fn has_room(nodes: &NodeSet, node: &Node) -> bool
    ensures { result ≡ there_is_room nodes.now node.now }
{
    nodes.len() < MOST_NODES || nodes.contains(node)
}

/// Puts a node into a set, if there is room.
fn put_in(nodes: &mut NodeSet, node: Node) -> Result<(), TextFault>
    ensures { MatchResult result
        (λ _. (there_is_room nodes.old node ≡ true) × (nodes.new ≡ with_node nodes.old node))
        (λ f. (f ≡ TooManyNodes) × (there_is_room nodes.old node ≡ false) × (nodes.new ≡ nodes.old)) }
{
    if !has_room(nodes, &node) {
        return Err(TextFault::TooManyNodes);
    }
    nodes.insert(node)?;
    Ok(())
}

impl Gathering {
    /// Nothing was read. It takes no memory.
    pub fn new(alloc: Global) -> Self
        ensures { result ≡ nothing }
    {
        Gathering {
            members: NodeSet::empty(),
            pairs: Vec::new(alloc),
            told: NodeSet::empty(),
            puts: Vec::new(alloc),
            removes: Vec::new(alloc),
            kills: Vec::new(alloc),
            notices: Vec::new(alloc),
        }
    }

    /// The members that were read.
    pub fn members(&self) -> &NodeSet
        ensures { result.now ≡ self.now.members }
    {
        &self.members
    }

    /// The nodes that were read of those that have left.
    pub fn told(&self) -> &NodeSet
        ensures { result.now ≡ self.now.told }
    {
        &self.told
    }

    /// The names that were read with their owners.
    pub fn pairs(&self) -> &[Pair]
        ensures { result.now ≡ self.now.pairs }
    {
        self.pairs.as_slice()
    }

    /// Whether no process dies and none is sent anything.
    fn has_no_fate(&self) -> bool
        ensures { result ≡ has_no_fate self.now }
    {
        self.kills.is_empty() && self.notices.is_empty()
    }

    /// Whether no item is one of a welcome alone.
    fn is_for_members(&self) -> bool
        ensures { result ≡ is_for_members self.now }
    {
        self.members.is_empty() && self.pairs.is_empty() && self.told.is_empty()
    }

    /// Whether no item is one of an admission alone.
    fn is_for_joiner(&self) -> bool
        ensures { result ≡ is_for_joiner self.now }
    {
        self.puts.is_empty() && self.removes.is_empty()
    }

    /// Whether no item is anything but a pair.
    fn is_of_pairs(&self) -> bool
        ensures { result ≡ is_of_pairs self.now }
    {
        self.members.is_empty()
            && self.told.is_empty()
            && self.is_for_joiner()
            && self.has_no_fate()
    }

    /// Whether no item was read.
    pub fn is_empty(&self) -> bool
        ensures { result ≡ is_nothing self.now }
    {
        self.pairs.is_empty() && self.is_of_pairs()
    }

    /// All that was read, of which nothing is left.
    fn take_all(&mut self) -> Self
        ensures taken { result ≡ self.old }
        ensures left { self.new ≡ nothing }
    {
        let alloc: Global = *self.pairs.allocator();
        mem::replace(self, Gathering::new(alloc))
    }

    /// The items are forgotten, since their letter won't come.
    pub fn clear(&mut self)
        ensures { self.new ≡ nothing }
    {
        let _forgotten = self.take_all();
    }

    /// A pair more.
    fn keep_pair(&mut self, pair: Pair) -> Result<(), AllocError>
        ensures { Took (taken (part.Pair pair) self.old) self.old self.new result }
    {
        self.pairs.push(pair)?;
        Ok(())
    }

    /// A put more.
    fn keep_put(&mut self, pair: Pair) -> Result<(), AllocError>
        ensures { Took (taken (part.Put pair) self.old) self.old self.new result }
    {
        self.puts.push(pair)?;
        Ok(())
    }

    /// A name more that nobody has.
    fn keep_remove(&mut self, name: Name) -> Result<(), AllocError>
        ensures { Took (taken (part.Remove name) self.old) self.old self.new result }
    {
        self.removes.push(name)?;
        Ok(())
    }

    /// A process more that dies.
    fn keep_kill(&mut self, process: Pid) -> Result<(), AllocError>
        ensures { Took (taken (part.Kill process) self.old) self.old self.new result }
    {
        self.kills.push(process)?;
        Ok(())
    }

    /// A notice more.
    fn keep_notice(&mut self, noted: Noted) -> Result<(), AllocError>
        ensures { Took (taken (part.Notice noted) self.old) self.old self.new result }
    {
        self.notices.push(noted)?;
        Ok(())
    }

    /// A member more.
    fn keep_member(&mut self, node: Node) -> Result<(), TextFault>
        ensures { MatchResult result (λ _. taken (part.Member node) self.old ≡ kept self.new)
            (λ f. (f ≡ TooManyNodes) × (taken (part.Member node) self.old ≡ None) × (self.new ≡ self.old)) }
    {
        put_in(&mut self.members, node)
    }

    /// A node more that is told to have left.
    fn keep_told(&mut self, node: Node) -> Result<(), TextFault>
        ensures { MatchResult result (λ _. taken (part.Told node) self.old ≡ kept self.new)
            (λ f. (f ≡ TooManyNodes) × (taken (part.Told node) self.old ≡ None) × (self.new ≡ self.old)) }
    {
        put_in(&mut self.told, node)
    }

    /// A letter without items, where there are none.
    fn plain(&mut self, letter: Letter) -> Result<Option<Letter>, LetterFault>
        ensures { Ends (is_nothing self.old) (letter_of letter) self.old self.new result }
    {
        if self.is_empty() {
            self.clear();
            Ok(Some(letter))
        } else {
            Err(LetterFault::BadLine)
        }
    }

    /// The letter of a lone node that asks to join.
    fn join_ask(&mut self) -> Result<Option<Letter>, LetterFault>
        ensures { Takes part.JoinAsk self.old self.new result }
    {
        if !self.is_of_pairs() {
            return Err(LetterFault::BadLine);
        }
        let gathered = self.take_all();
        Ok(Some(Letter::JoinAsk(gathered.pairs)))
    }

    /// The letter to a member about this joiner.
    fn admit(&mut self, joiner: Node) -> Result<Option<Letter>, LetterFault>
        ensures { Takes (part.Admit joiner) self.old self.new result }
    {
        if !self.is_for_members() {
            return Err(LetterFault::BadLine);
        }
        let gathered = self.take_all();
        Ok(Some(Letter::Admit(Admission {
            joiner,
            puts: gathered.puts,
            removes: gathered.removes,
            kills: gathered.kills,
            notices: gathered.notices,
        })))
    }

    /// A welcome that says nothing.
    fn blank(alloc: Global) -> Result<Box<Welcome>, AllocError> {
        let body = Welcome {
            members: NodeSet::empty(),
            pairs: Vec::new(alloc),
            told: NodeSet::empty(),
            kills: Vec::new(alloc),
            notices: Vec::new(alloc),
        };
        Ok(Box::new(alloc, body)?)
    }

    /// The letter to a joiner. Its memory is had before anything is taken.
    fn welcome(&mut self) -> Result<Option<Letter>, LetterFault>
        ensures { Takes part.Welcome self.old self.new result }
    {
        if !self.is_for_joiner() {
            return Err(LetterFault::BadLine);
        }
        let alloc: Global = *self.pairs.allocator();
        let mut body = Gathering::blank(alloc)?;
        let gathered = self.take_all();
        body.members = gathered.members;
        body.pairs = gathered.pairs;
        body.told = gathered.told;
        body.kills = gathered.kills;
        body.notices = gathered.notices;
        Ok(Some(Letter::Welcome(body)))
    }

    /// Takes the next part: none where it is an item, and the letter where it is one, of which the items before it are. Nothing
    /// is left then. `BadLine`: an item before it is none of this letter; `TooManyNodes`: of members, or of told nodes, there are
    /// eight others; `Memory`: memory was refused for an item or a welcome. What was read before stays then.
    pub fn take(&mut self, part: Part) -> Result<Option<Letter>, LetterFault>
        ensures { Takes part self.old self.new result }
    {
        match part {
            Part::Pair(pair) => {
                self.keep_pair(pair)?;
                Ok(None)
            }
            Part::Put(pair) => {
                self.keep_put(pair)?;
                Ok(None)
            }
            Part::Remove(name) => {
                self.keep_remove(name)?;
                Ok(None)
            }
            Part::Kill(process) => {
                self.keep_kill(process)?;
                Ok(None)
            }
            Part::Notice(noted) => {
                self.keep_notice(noted)?;
                Ok(None)
            }
            Part::Member(node) => {
                self.keep_member(node)?;
                Ok(None)
            }
            Part::Told(node) => {
                self.keep_told(node)?;
                Ok(None)
            }
            Part::SetLock(id, holder) => self.plain(Letter::SetLock(id, holder)),
            Part::LockAnswer(id, holder, granted) => {
                self.plain(Letter::LockAnswer(id, holder, granted))
            }
            Part::GiveBack(id, holder, ack) => self.plain(Letter::GiveBack(id, holder, ack)),
            Part::GivenBack(holder) => self.plain(Letter::GivenBack(holder)),
            Part::ReleaseOf(holder) => self.plain(Letter::ReleaseOf(holder)),
            Part::Apply(change) => self.plain(Letter::Apply(change)),
            Part::Applied => self.plain(Letter::Applied),
            Part::JoinAsk => self.join_ask(),
            Part::JoinRefused => self.plain(Letter::JoinRefused),
            Part::Admit(joiner) => self.admit(joiner),
            Part::Welcome => self.welcome(),
            Part::Down => self.plain(Letter::Down),
        }
    }
}
