//! What the answers to clients' lock calls say: who is answered, when a try may fail, how often it is tried, and what a
//! deletion leaves. Each law is the contract of a function with an empty body.
#![tactic(auto)]

ghost use Rattle.protocol_model.specs.LockAnswers.{AtEachStep, AnswersTheLiving, UsesAllRetries, UsesNoMore, FailsForAReason, IsHeldSomewhere, IsGivenBack};
ghost use Rattle.lock_answers.specs.ClientLocks.{ReadsTheSeen, ClientLocks};
ghost use Rattle.leftovers.specs.Worlds.{OfNodes};
ghost use Rattle.lock_answers.specs.QuietCalls.{QuietCallsAreTold, QuietCallsAreAnswered};

/// Clients' locks exclude each other behind every list of events, they are counted by what is seen, and what comes next is answered
/// as the laws below say.
pub fn client_locks()
    ensures { OfNodes ClientLocks }
{}

/// Who is refused and who is gone is as it is seen. A refused process isn't dead, and its last `set_lock` isn't answered, failed
/// for a reason and may be tried again; in a quiet world each last `set_lock` that isn't answered is refused, unless its process
/// is gone. And a process is gone where its node has left, or shows that it is dead.
pub fn reads_the_seen()
    ensures { OfNodes ReadsTheSeen }
{}

/// No lock call is answered of a process that is dead or whose node has left, before the step or behind it.
pub fn answers_the_living()
    ensures { AtEachStep AnswersTheLiving }
{}

/// A `set_lock` is answered `false` once all its retries are used up, or where there is nobody to ask.
pub fn uses_all_retries()
    ensures { AtEachStep UsesAllRetries }
{}

/// And it is answered `true` within its retries.
pub fn uses_no_more()
    ensures { AtEachStep UsesNoMore }
{}

/// It is answered `false` where a node that its last try had to ask had left, or since that try began took the caller's request
/// while it couldn't grant the lock; or where there is nobody to ask.
pub fn fails_for_a_reason()
    ensures { AtEachStep FailsForAReason }
{}

/// Where `true` is answered to the last try of a process, some node that it had to ask isn't told of as departed.
pub fn is_held_somewhere()
    ensures { AtEachStep IsHeldSomewhere }
{}

/// Where a `del_lock` is answered, each running node it went to has the lock as often as the process holds it there.
pub fn deletions_are_done()
    ensures { AtEachStep IsGivenBack }
{}

/// A `set_lock` with no retries that is called while no letter waits is answered `true` where the lock is free at all nodes that it
/// asks, and else `false`, whichever letters are delivered behind it.
pub fn quiet_calls_are_told()
    ensures { OfNodes QuietCallsAreTold }
{}

/// And once no letter waits again it has been answered.
pub fn quiet_calls_are_answered()
    ensures { OfNodes QuietCallsAreAnswered }
{}
