//! What the lines of a console say.
ghost use Rattle.std.specs.Prelude.{◌≡◌};
ghost use Rattle.console.specs.Waits.{awaited_name, met_by};

use command_lines::{Call, Reply};
use descriptions::Description;
use term::{Name, Pid};

/// What is waited for.
#[derive(Debug, PartialEq, Eq, Drop)]
pub enum Awaited {
    /// That some process has the name.
    Taken(Name),
    /// That this process doesn't have the name.
    Lost(Name, Pid),
}

impl Awaited {
    /// The name that is looked up.
    pub(crate) fn name(&self) -> &Name
        ensures { result.now ≡ awaited_name self.now }
    {
        match self {
            Awaited::Taken(name) | Awaited::Lost(name, _) => name,
        }
    }

    /// What is answered where a look-up found this owner; `None` where it is to be waited on.
    pub(crate) fn met_by(&self, owner: Option<Pid>) -> Option<Reply>
        ensures { result ≡ met_by self.now owner }
    {
        match self {
            Awaited::Taken(_) => match owner {
                Some(owner) => Some(Reply::Pid(owner)),
                None => None,
            },
            Awaited::Lost(_, process) => match owner {
                Some(owner) if owner == *process => None,
                _ => Some(Reply::Ok),
            },
        }
    }
}

/// What a line asks of the console's node.
#[derive(Debug, PartialEq, Eq, Drop)]
pub enum Order {
    /// A call, other than a look-up of one name.
    Call(Call),
    /// A look-up of a name.
    Whereis(Name),
    /// A process dies.
    Exit(Pid),
    /// The node leaves.
    Leave,
    /// Look-ups of a name, until one finds what is waited for.
    Wait(Awaited),
}

/// What a line says of processes and names that a server looks after which stays.
#[derive(Drop)]
pub(crate) enum Inquiry {
    /// This is said of the process from now on.
    Describe(Pid, Description),
    /// It asks what was said of the process.
    Description(Pid),
    /// It asks who has the name, and what was said of that process.
    Find(Name),
    /// It waits.
    Wait(Awaited),
}

/// What a line says.
#[derive(Drop)]
pub(crate) enum Command {
    /// It asks something of the node.
    Ask(Order),
    /// It asks for a process that is linked to the console.
    SpawnLink,
    /// It ends the console.
    Quit,
    /// It ends the console, and the server is to end.
    Shutdown,
    /// It asks how the node stands, and the server.
    Status,
    /// It asks by which step the console was granted a lock last.
    Fence,
    /// It asks which lines there are.
    Help,
    /// It asks for the names that begin with this one.
    NamesFrom(Name),
    /// It asks what the server knows, or tells it.
    Inquire(Inquiry),
}
