//! Why words are not taken.
ghost use Rattle.std.specs.Prelude.{◌≡◌, option_map, codes};
ghost use Rattle.clap.specs.Values.{kind_of};
ghost use Rattle.clap.specs.declared.error.Error.{Error};
ghost use Rattle.clap.specs.declared.error.kind.ErrorKind.TheVariants.{OutOfMemory};
ghost use Rattle.arguments.specs.Faults.{option_text, word_of};
ghost use Rattle.arguments.specs.declared.faults.ArgFault.TheVariants.{Words, Text};

use std::alloc::AllocError;
use std::fmt;
use term::TextFault;
use thiserror::Error;

/// Why words are not taken.
#[derive(Debug, Drop, Error)]
pub enum ArgFault {
    /// They don't stand as the command line wants them, or ask for help or the version, or memory was refused: what is
    /// shown tells more.
    #[error(transparent)]
    Words(clap::Error),
    /// A list spells no set of nodes. That of `--nodes` is looked at first.
    #[error("{0}")]
    Text(TextFault),
    /// Both lists name a node.
    #[error("same_node")]
    SameNode,
    /// The lists name more than eight nodes together, and share none.
    #[error("too_many_nodes")]
    TooManyNodes,
    /// The node that is to run isn't one of the list.
    #[error("no_such_node")]
    NoSuchNode,
    /// The lists are fine, and an option doesn't go with the others.
    #[error("{0}")]
    Options(OptionFault),
}

/// Why an option doesn't go with the others. Where there are several reasons the first is told.
#[derive(Clone, Copy, Debug)]
pub enum OptionFault {
    /// A cookie file is for a server that stays.
    CookieFile,
    /// A limit of silence is for a server that stays.
    Idle,
    /// A socket is for a server that stays.
    Socket,
    /// So many consoles are for a server that stays.
    Consoles,
    /// A server that stays, and listens at an address of the network, needs a cookie file.
    NoCookieFile,
}

impl From<clap::Error> for ArgFault {
    ghost from_gives = { λ e fault. fault ≡ Words e };

    fn from(error: clap::Error) -> Self {
        ArgFault::Words(error)
    }
}

impl From<AllocError> for ArgFault {
    ghost from_gives = { λ _ fault. (e : Error) × (fault ≡ Words e) × (kind_of e ≡ OutOfMemory) };

    fn from(error: AllocError) -> Self {
        ArgFault::Words(clap::Error::from(error))
    }
}

impl From<TextFault> for ArgFault {
    ghost from_gives = { λ f fault. fault ≡ Text f };

    fn from(fault: TextFault) -> Self {
        ArgFault::Text(fault)
    }
}

impl fmt::Display for OptionFault {
    fn fmt<W: fmt::Write>(&self, f: &mut fmt::Formatter<W>) -> fmt::Result {
        f.write_str(self.text())
    }
}

impl OptionFault {
    /// The text that is printed for it.
    pub fn text(self) -> &'static str
        ensures { result.now ≡ option_text self }
    {
        match self {
            OptionFault::CookieFile => "--cookie-file: goes with --stay alone",
            OptionFault::Idle => "--idle: goes with --stay alone",
            OptionFault::Socket => "--listen unix:PATH: goes with --stay alone",
            OptionFault::Consoles => "--consoles: more than 64 go with --stay alone",
            OptionFault::NoCookieFile =>
                "--cookie-file: wanted with --stay over TCP; a socket is --listen unix:PATH",
        }
    }
}

impl ArgFault {
    /// The word that is printed for the nodes, or none where other words are at fault.
    pub fn word(&self) -> Option<&'static str>
        ensures { option_map (λ word. word.now) result ≡ word_of self.now }
    {
        match self {
            ArgFault::Words(_) | ArgFault::Options(_) => None,
            ArgFault::Text(TextFault::Empty) => Some("empty"),
            ArgFault::Text(TextFault::TooLong) => Some("too_long"),
            ArgFault::Text(TextFault::BadByte(_)) => Some("bad_byte"),
            ArgFault::Text(TextFault::BadCreation) => Some("bad_creation"),
            ArgFault::Text(TextFault::BadSerial) => Some("bad_serial"),
            ArgFault::Text(TextFault::BadRule) => Some("bad_rule"),
            ArgFault::Text(TextFault::TooManyNodes) => Some("too_many_nodes"),
            ArgFault::SameNode => Some("same_node"),
            ArgFault::TooManyNodes => Some("too_many_nodes"),
            ArgFault::NoSuchNode => Some("no_such_node"),
        }
    }
}
