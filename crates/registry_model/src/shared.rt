//! What the functions that registry and protocol share mean.
ghost use Rattle.std.specs.Prelude.{ℕ, ◌≡◌, ◌↔◌, IsTrue, if◌then◌else◌};
ghost use Rattle.registry_model.specs.Process.{Nodes, nodes_of};
ghost use Rattle.registry_model.specs.Table.{Table, Change, is_rising, changed, without, put_all};
ghost use Rattle.registry_model.specs.Call.{NameCall, Look, Reply, is_grant, change_of, reply_to, seen_in};
ghost use Rattle.registry_model.specs.Settlement.{settle};
ghost use Rattle.registry_model.specs.Registry.{Replica};
ghost use Rattle.registry_model.specs.SharedLaws.{AreNodesBelow, IsReplyTo, IsSeenIn, IsChanged, IsCarriedOut, IsWithout, IsWrittenOver, IsTheTable, Settles};

/// The nodes of a set as a list.
pub fn nodes()
    ensures { (n : ℕ) (s : Nodes) → AreNodesBelow n s (nodes_of n s) }
{}

/// Each name call has one reply.
pub fn reply()
    ensures { (members : Nodes) (table : Table) (call : NameCall) (r : Reply) →
        IsReplyTo members table call r ↔ (r ≡ reply_to members table call) }
{}

/// Each look-up at a node has one reply, by what the node shows.
pub fn look_up()
    ensures { (shown : Replica) (look : Look) (r : Reply) → IsTrue (is_rising shown.table) →
        IsSeenIn shown look r ↔ (r ≡ seen_in shown look) }
{}

/// Each change of a table.
pub fn change()
    ensures { (c : Change) (table : Table) → IsTrue (is_rising table) →
        IsTheTable (IsChanged c table) (changed c table) }
{}

/// What each name call makes of a table, by the reply that it was given.
pub fn outcome()
    ensures { (members : Nodes) (view table : Table) (call : NameCall) (r : Reply) → IsTrue (is_rising table) →
        IsReplyTo members view call r →
        IsTheTable (λ after. IsCarriedOut table after call r) (if is_grant r then changed (change_of call) table else table) }
{}

/// The table without the names on some nodes.
pub fn departed()
    ensures { (gone : Nodes) (table : Table) → IsTrue (is_rising table) →
        IsTheTable (IsWithout gone table) (without gone table) }
{}

/// Pairs written over a table.
pub fn written()
    ensures { (pairs table : Table) → IsTrue (is_rising pairs) → IsTrue (is_rising table) →
        IsTheTable (IsWrittenOver pairs table) (put_all pairs table) }
{}

/// The settlement of a join.
pub fn settlement()
    ensures { (table pairs : Table) → IsTrue (is_rising table) → IsTrue (is_rising pairs) →
        Settles table pairs (settle table pairs) }
{}
