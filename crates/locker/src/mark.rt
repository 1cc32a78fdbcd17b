//! What a round knows of a node.
ghost use Rattle.std.specs.Prelude.{◌≡◌, if◌then◌else◌};
ghost use Rattle.protocol_model.specs.Round as protocol;
ghost use Rattle.protocol_model.specs.Round.{asked_too, mark_down, has_granted};
ghost use Rattle.locker.specs.RoundState.{as_mark};

/// What a round knows of a node that it asks.
#[derive(Clone, Copy)]
pub(crate) enum Mark {
    /// Is asked once the boss has granted.
    Later,
    /// Was asked and owes an answer.
    Owes,
    /// Has granted.
    Granted,
    /// Has refused.
    Refused,
    /// Has granted, and gone down since.
    Lost,
    /// Has gone down before it answered.
    Gone,
}

impl Mark {
    /// The mark of this answer.
    pub(crate) fn of_answer(granted: bool) -> Mark
        ensures { as_mark result ≡ (if granted then protocol.Granted else protocol.Refused) }
    {
        if granted {
            Mark::Granted
        } else {
            Mark::Refused
        }
    }

    /// The mark once the boss has granted.
    pub(crate) fn asked_too(self) -> Mark
        ensures { as_mark result ≡ asked_too (as_mark self) }
    {
        match self {
            Mark::Later => Mark::Owes,
            mark => mark,
        }
    }

    /// The mark once its node has gone down.
    pub(crate) fn down(self) -> Mark
        ensures { as_mark result ≡ mark_down (as_mark self) }
    {
        match self {
            Mark::Later | Mark::Owes => Mark::Gone,
            Mark::Granted => Mark::Lost,
            mark => mark,
        }
    }

    /// Whether its node has granted, even if it has gone down since.
    pub(crate) fn has_granted(self) -> bool
        ensures { result ≡ has_granted (as_mark self) }
    {
        matches!(self, Mark::Granted | Mark::Lost)
    }
}
