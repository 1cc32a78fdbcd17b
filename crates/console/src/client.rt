//! The client at the other end of a console.
ghost use Rattle.std.specs.Prelude.{◌≡◌};
ghost use Rattle.console.specs.Clients.{is_given_up};

/// How the client at the other end of a console stands.
#[derive(Clone, Copy, Debug, PartialEq, Eq)]
pub enum Peer {
    /// It may send more.
    Listens,
    /// It sends nothing more; it may read what it is answered, or be gone.
    InputEnded,
    /// It is gone in both directions.
    Gone,
}

/// The client at the other end of a console.
pub trait Client {
    /// How it stands. It answers at once, and what the client has sent stays unread.
    fn peer(&self) -> Peer;
}

/// Whether what waits is given up, as the client stands for whom it is asked; by whether it is linked.
pub(crate) fn is_given_up(peer: Peer, linked: bool) -> bool
    ensures { result ≡ is_given_up peer linked }
{
    match peer {
        Peer::Listens => false,
        Peer::InputEnded => linked,
        Peer::Gone => true,
    }
}
