//! Laws of the texts, each the contract of a function that does nothing.
ghost use Rattle.std.specs.Prelude.{◌≡◌, ◌==◌, ℕ, List};
ghost use Rattle.std.specs.Ordering.{nat_cmp, ordering_then};
ghost use Rattle.registry_model.specs.Process.{Process, is_process};
ghost use Rattle.term.specs.Laws.{IsExact, IsDecided, KeepsByteOrder, NodeNamesKeepByteOrder};
ghost use Rattle.term.specs.NodeLists.{SpellsNodes, RefusesNodes, list_of};
ghost use Rattle.term.specs.Nodes.{name_of, creation_of};
ghost use Rattle.term.specs.Rules.{SpellsRule, RefusesRule};
ghost use Rattle.term.specs.Spelling.{SpellsText, RefusesText, SpellsNodeName, SpellsNode, RefusesNode, SpellsPid, RefusesPid, bytes_of, name_bytes};

use crate::name::Name;
use crate::node::Node;
use crate::node_name::NodeName;
use crate::pid::Pid;

/// Each text spells one name or is refused for one fault, and a name has one text.
pub fn names_are_exact()
    ensures { IsExact SpellsText RefusesText }
{}

/// Each text spells one name of a node or is refused for one fault, and such a name has one text.
pub fn node_names_are_exact()
    ensures { IsExact SpellsNodeName RefusesText }
{}

/// Each text spells one node or is refused for one fault, and a node has one text.
pub fn nodes_are_exact()
    ensures { IsExact SpellsNode RefusesNode }
{}

/// Each text spells one rule or is refused for one fault, and a rule has one text.
pub fn rules_are_exact()
    ensures { IsExact SpellsRule RefusesRule }
{}

/// Each text spells one process or is refused for one fault, and a process has one text.
pub fn pids_are_exact()
    ensures { IsExact SpellsPid RefusesPid }
{}

/// Each text spells one set of nodes or is refused for one fault, and a set that some text spells is spelled by the
/// text that it is printed as. The names of a set may stand in any order, so a set has many texts.
pub fn node_lists_are_decided()
    ensures decided { IsDecided SpellsNodes RefusesNodes }
    ensures printed { (bytes nodes : List ℕ) → SpellsNodes bytes nodes → SpellsNodes (list_of nodes) nodes }
{}

/// Names are ordered as the bytes of their texts are, and names of nodes too.
pub fn names_keep_byte_order()
    ensures names { KeepsByteOrder }
    ensures node_names { NodeNamesKeepByteOrder }
{}

/// The bytes of a name are its text, and those of the name of a node.
pub fn names_keep_their_bytes()
    ensures names { (bytes : List ℕ) (v : ℕ) → SpellsText bytes v → bytes_of v ≡ bytes }
    ensures node_names { (bytes : List ℕ) (v : ℕ) → SpellsNodeName bytes v → name_bytes v ≡ bytes }
{}

/// Nodes are ordered by name, and then by creation.
pub fn nodes_are_ordered_by_name()
    ensures { (m n : ℕ) → nat_cmp m n
        ≡ ordering_then (nat_cmp (name_of m) (name_of n)) (nat_cmp (creation_of m) (creation_of n)) }
{}

/// Names are compared by their numbers, and processes by node and then by serial.
pub fn comparisons_are_by_number()
    ensures same_name { (v w : ℕ) → ⟦<Name as PartialEq>⟧.eq v w ≡ (v == w) }
    ensures same_node { (v w : ℕ) → ⟦<Node as PartialEq>⟧.eq v w ≡ (v == w) }
    ensures same_node_name { (v w : ℕ) → ⟦<NodeName as PartialEq>⟧.eq v w ≡ (v == w) }
    ensures same_process { (p q : Process) → ⟦<Pid as PartialEq>⟧.eq p q ≡ is_process p q }
    ensures names { (v w : ℕ) → ⟦<Name as Ord>⟧.cmp v w ≡ nat_cmp v w }
    ensures nodes { (v w : ℕ) → ⟦<Node as Ord>⟧.cmp v w ≡ nat_cmp v w }
    ensures node_names { (v w : ℕ) → ⟦<NodeName as Ord>⟧.cmp v w ≡ nat_cmp v w }
    ensures processes { (p q : Process) → ⟦<Pid as Ord>⟧.cmp p q
        ≡ ordering_then (nat_cmp p.node q.node) (nat_cmp p.serial q.serial) }
{}
