//! Laws of the loops of a world's nodes. Each is the contract of a function with an empty body.
ghost use Rattle.node_loop.specs.Answers.{AnswersAreLogged, AnswersAreLoggedFrom};
ghost use Rattle.node_loop.specs.Left.{LeavesAreLogged, LeavesAreLoggedFrom};
ghost use Rattle.node_loop.specs.Telling.{ThreadsAreConsistent};
ghost use Rattle.node_loop.specs.Returning.{StartsKeepSound};

/// What the loops of a world's nodes leave behind is consistent, if each was sound and took a beginning of what each other one sent it.
pub fn threads_are_consistent()
    ensures { ThreadsAreConsistent }
{}

/// A loop tells a leave's owner that the node has left only where its log has a leave of the node; and so where nodes come back.
pub fn told_leaves_are_logged()
    ensures opened { LeavesAreLogged }
    ensures begun { LeavesAreLoggedFrom }
{}

/// A loop tells somebody an answer only where its log has a step that gives it, with the stamp that is told; and so where nodes come back.
pub fn told_answers_are_logged()
    ensures opened { AnswersAreLogged }
    ensures begun { AnswersAreLoggedFrom }
{}

/// That the next node of another one's name has started is no step of a node: where its loop takes it in the place of the one before it, and the
/// two were told apart, it stays sound.
pub fn starts_keep_sound()
    ensures { StartsKeepSound }
{}
