//! What a server that stays is told.
ghost use Rattle.std.specs.Prelude.{◌≡◌, ◌*◌, max, option_map};
ghost use Rattle.std.specs.Duration.{as_nanos};

use console::Cookie;
use std::time::Duration;

/// What a server that stays is told.
#[derive(Drop)]
pub struct StayOptions {
    /// How many consoles may be attached at once.
    pub consoles: u32,
    /// After how many seconds without a line a console ends, one at least; never without one.
    pub idle: Option<u32>,
    /// What a client must show; nothing without one.
    pub cookie: Option<Cookie>,
}

impl StayOptions {
    /// For how long a console that is attached may say nothing.
    pub(crate) fn silence(&self) -> Option<Duration>
        ensures { option_map as_nanos result ≡ option_map (λ seconds. max seconds 1 * 1_000_000_000) self.now.idle }
    {
        match self.idle {
            Some(seconds) => Some(Duration::from_secs(u64::from(seconds).max(1))),
            None => None,
        }
    }
}
