//! What the program is asked for.
ghost use Rattle.std.specs.Prelude.{option_map, string_bytes};
ghost use Rattle.arguments.specs.Together.{Clashes, NamesSocket};

use crate::faults::OptionFault;
use term::{MOST_CONSOLES, Node, NodeNames};

/// What the address begins with where it is the path of a socket.
const SOCKET: &str = "unix:";

/// What the program is asked for.
#[derive(Debug, Drop)]
pub enum Mode {
    /// A script from standard input is played.
    Script,
    /// Nodes are run, and consoles are served over the network.
    Serve(ServeOptions),
    /// One node is run by the lines of standard input.
    Node(NodeOptions),
}

/// What `node` is told.
#[derive(Debug, Drop)]
pub struct NodeOptions {
    /// The node, whose name is one of the world's. It may be a later one of that name.
    pub node: Node,
    /// All names of the world.
    pub world: NodeNames,
}

/// What `serve` is told.
#[derive(Debug, Drop)]
pub struct ServeOptions {
    /// The address to listen on, as it was written: one of the network, or `unix:` and the path of a socket.
    pub listen: String,
    /// The nodes that are joined from the start.
    pub cluster: NodeNames,
    /// The nodes that stand alone at the start. None is one of the others, and all are eight at most.
    pub lone: NodeNames,
    /// How many consoles are taken before the cluster closes, from 1 to 64; or, where it stays, how many are served at once, from 1 to 1,024.
    pub consoles: u16,
    /// Whether it stays until it is told to shut down, however many consoles come.
    pub stay: bool,
    /// The file whose first line a client must show.
    pub cookie_file: Option<String>,
    /// After how many seconds without a line a console ends, from 1 to 31,536,000; never without them.
    pub idle: Option<u32>,
}

impl ServeOptions {
    /// The path of the socket to listen at, or none where the address is one of the network.
    pub fn socket(&self) -> Option<&str>
        ensures { NamesSocket (string_bytes self.now.listen) (option_map (λ path. path.now) result) }
    {
        self.listen.strip_prefix(SOCKET)
    }

    /// Which option doesn't go with the others, if one doesn't.
    pub(crate) fn fault(&self) -> Option<OptionFault>
        ensures { Clashes self.now result }
    {
        let over_socket = self.socket().is_some();
        let with_cookie = self.cookie_file.is_some();
        if self.stay && (over_socket || with_cookie) {
            None
        } else if self.stay {
            Some(OptionFault::NoCookieFile)
        } else if with_cookie {
            Some(OptionFault::CookieFile)
        } else if self.idle.is_some() {
            Some(OptionFault::Idle)
        } else if over_socket {
            Some(OptionFault::Socket)
        } else if self.consoles > MOST_CONSOLES {
            Some(OptionFault::Consoles)
        } else {
            None
        }
    }
}
