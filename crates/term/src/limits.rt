//! Limits: how much of anything there may be. Specifications cite them from here, and what follows from another is derived from it. Those of
//! which models speak are declared by them, and taken from there. How long anything takes or waits stands where it is used, and so does what
//! only one place needs.

/// How many nodes a world and a cluster have, and how many a set of nodes holds, at most.
pub const MOST_NODES: usize = registry_model::limits::MOST_NODES;

/// How many bytes a text has at most.
pub const LONGEST_TEXT: usize = registry_model::limits::LONGEST_TEXT;

/// How many bytes a line has at most, without its end.
pub const LONGEST_LINE: usize = 1024;

/// How many lines are read of one reader at most, where an overlong one counts for several.
pub const MOST_LINES: u32 = 1_000_000;

/// How many lines a console of a server that stays may have: more than come.
pub const STAYING_LINES: u64 = u64::MAX;

/// How many words of a line are looked at: one more than any has that asks for something.
pub const MOST_WORDS: usize = 7;

/// How many deliveries one `settle` of a script plays at most.
pub const SETTLE_LIMIT: u32 = registry_model::limits::SETTLE_LIMIT;

/// How many events a seat of a world plays at most while its call waits.
pub const MOST_EVENTS: u32 = 100_000;

/// How many items a node's inbox has room for.
pub const INBOX_ROOM: usize = 4096;

/// How many letters are taken from an inbox in a row at most while a task waits there.
pub const MOST_LETTERS: u32 = 64;

/// For how many empty turns a refused round gives way to others at most.
pub const MOST_TURNS: u32 = 1_024;

/// How many seats a cluster has at once.
pub const MOST_SEATS: u32 = 64;

/// How many seats a cluster makes in all. So many numbers are theirs, and all above are those of its own callers, of which there is one at each
/// node.
pub const SEAT_NUMBERS: u32 = u32::MAX - (MOST_NODES as u32 - 1);

/// How many numbers of slots a cluster's callers have, and bells by which they are woken: one for each seat that there is at once, and behind
/// those one for its own caller at each node.
pub const SLOTS: u32 = MOST_SEATS + MOST_NODES as u32;

/// How many readers a node's table has: one for each seat that there is at once, since all may be at one node, and one for the cluster's own
/// caller.
pub const MOST_READERS: usize = MOST_SEATS as usize + 1;

/// How many consoles a server takes that doesn't stay, where nothing is said.
pub const CONSOLES: u16 = 8;

/// How many consoles a server takes at most that doesn't stay: each has a seat for as long as it lasts.
pub const MOST_CONSOLES: u16 = MOST_SEATS as u16;

/// How many consoles a server that stays serves at once, where nothing is said.
pub const CONSOLES_AT_ONCE: u16 = 64;

/// How many consoles a server that stays serves at once at most: they are lent their seats.
pub const MOST_CONSOLES_AT_ONCE: u16 = 1_024;

/// For how many seconds a console may be silent at most before it is ended, where that is said: for a year.
pub const LONGEST_SILENCE: u32 = 31_536_000;

/// How many connections a server that stays serves beside those of the consoles that may be attached: so many at least may be silent, or show
/// no cookie, before they keep anybody out.
pub const ENTRANCES: u32 = 16;

/// How many bytes a cookie has at least.
pub const SHORTEST_COOKIE: usize = 16;

/// How many bytes a cookie has at most.
pub const LONGEST_COOKIE: usize = 255;

/// How many processes are linked to a console at most.
pub const MOST_LINKS: usize = 1024;

/// How many processes are described at once at most.
pub const MOST_DESCRIPTIONS: usize = 65_536;

/// How many bytes are said of a process at most.
pub const LONGEST_DESCRIPTION: usize = 256;

/// How many bytes the path of a socket has at most: the system takes 107, of which some are for the folder where it is made.
pub const LONGEST_PATH: usize = 100;
