//! What the functions mean that the rules and the statements share, and how a world opens.
ghost use Rattle.std.specs.Prelude.{◌≡◌, ◌-◌, ◌^◌, codes};
ghost use Rattle.registry_model.specs.Process.{text_of};
ghost use Rattle.protocol_model.specs.Delivering.{DeliversTheFirst};
ghost use Rattle.protocol_model.specs.Idle.{RefusesTheIdle};
ghost use Rattle.protocol_model.specs.Quiet.{WaitsBehindARound};
ghost use Rattle.protocol_model.specs.LockTable.{last_count};
ghost use Rattle.protocol_model.specs.Event.{last_u32, global_resource};
ghost use Rattle.protocol_model.specs.SharedLaws.{ComparesIds, AsksMembers, GrantsTheFree, TellsTheEmpty, TellsItsPlaces, TellsItsNodes, OpensEmpty};
ghost use Rattle.protocol_model.specs.World.{Opening, World, opening_world};

/// When two ids of locks are one, or of one resource.
pub fn ids()
    ensures { ComparesIds }
{}

/// Whom a lock call asks.
pub fn targets()
    ensures { AsksMembers }
{}

/// When a lock table grants a lock.
pub fn free_locks()
    ensures { GrantsTheFree }
{}

/// When a set of nodes is empty.
pub fn empty_sets()
    ensures { TellsTheEmpty }
{}

/// How many serials, numbers of calls and grants to one holder there are, and which resource is reserved.
pub fn limits()
    ensures numbers { last_u32 ≡ 2 ^ 32 - 1 }
    ensures counts { last_count ≡ 2 ^ 32 - 1 }
    ensures reserved { global_resource ≡ text_of (codes "global") }
{}

/// Where an event happens, and which nodes it names.
pub fn places()
    ensures { TellsItsPlaces }
{}

/// Which nodes are of a world, and which of its cluster.
pub fn worlds()
    ensures { (o : Opening) → TellsItsNodes o }
{}

/// How a world opens.
pub fn opening()
    ensures { (o : Opening) → OpensEmpty o (opening_world o) }
{}

/// What waits for a retry.
pub fn retries()
    ensures { WaitsBehindARound }
{}

/// What is delivered next, and when a world is settled.
pub fn deliveries()
    ensures { (o : Opening) (w : World) → DeliversTheFirst o w }
{}

/// What is refused since nothing waits.
pub fn idle()
    ensures { (o : Opening) (w : World) → RefusesTheIdle o w }
{}
