//! How many descriptors the process may have, and for how many consoles they serve.
ghost use Rattle.std.specs.Prelude.{◌≡◌};
ghost use Rattle.server.specs.Notes.{note_if_short, served_by as served_by_all};

use crate::staying::notes::Note;
use libc::types::rlimit;
use libc::{RLIMIT_NOFILE, getrlimit};

/// How many descriptors are needed beside those of consoles: for the file that tells how much memory the process has, and for a connection
/// that is turned away.
const OTHERS: u64 = 2;

/// How many descriptors the process may have open, if the system tells.
fn most_open() -> Option<u64> {
    let mut limit = rlimit {
        rlim_cur: 0,
        rlim_max: 0,
    };
    if getrlimit(RLIMIT_NOFILE, &mut limit) == 0 {
        Some(limit.rlim_cur)
    } else {
        None
    }
}

/// For how many consoles the descriptors serve, of which so many may be open and so many are.
fn served_by(most: u64, in_use: u64) -> u64
    ensures { result ≡ served_by_all most in_use }
{
    most.saturating_sub(in_use).saturating_sub(OTHERS)
}

/// What is told where the descriptors serve for so many consoles, and so many are to be served.
fn note_of(served: u64, wanted: u32) -> Option<Note>
    ensures { result ≡ note_if_short served wanted }
{
    if served < u64::from(wanted) {
        Some(Note::FewDescriptors(served, wanted))
    } else {
        None
    }
}

/// What is told where the descriptors that are left don't serve for so many consoles, of a server that listens at this one. The system gave
/// the least number that wasn't in use, and no other stays open behind it.
pub(crate) fn shortage(listener: i32, wanted: u32) -> Option<Note> {
    let in_use = u64::try_from(listener).ok()?.saturating_add(1);
    note_of(served_by(most_open()?, in_use), wanted)
}
