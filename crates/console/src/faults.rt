//! Why the first line of a console is refused.
ghost use Rattle.std.specs.Prelude.{◌≡◌};
ghost use Rattle.console.specs.Faults.{greet_word};
ghost use Rattle.console.specs.declared.faults.GreetFault.TheVariants.{Line};

use command_lines::LineFault;
use term::TextFault;

/// Why the first line of a console attaches it to no node.
#[derive(Debug, Drop)]
pub enum GreetFault {
    /// It can't be read, or its text is no node's name.
    Line(LineFault),
    /// It doesn't show the cookie that is asked for.
    NotAllowed,
    /// It isn't `attach` with one text.
    NotAttached,
    /// There is no such node.
    NoSuchNode,
    /// There is no place for one more console.
    TooManyConsoles,
}

impl From<TextFault> for GreetFault {
    ghost use Rattle.command_lines.specs.declared.faults.LineFault.TheVariants.{Text};

    ghost from_gives = { λ f e. e ≡ Line (Text f) };

    fn from(fault: TextFault) -> Self {
        GreetFault::Line(LineFault::Text(fault))
    }
}

impl From<LineFault> for GreetFault {
    ghost from_gives = { λ f e. e ≡ Line f };

    fn from(fault: LineFault) -> Self {
        GreetFault::Line(fault)
    }
}

impl GreetFault {
    /// The word for it.
    pub fn word(&self) -> &'static str
        ensures { result.now ≡ greet_word self.now }
    {
        match self {
            GreetFault::Line(fault) => fault.word(),
            GreetFault::NotAllowed => "not_allowed",
            GreetFault::NotAttached => "not_attached",
            GreetFault::NoSuchNode => "no_such_node",
            GreetFault::TooManyConsoles => "too_many_consoles",
        }
    }
}
