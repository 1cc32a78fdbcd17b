//! The cookie that a file has.
ghost use Rattle.std.specs.Prelude.{◌≡◌, IfOk, IfSome, MatchOption, MatchResult, string_bytes};
ghost use Rattle.std.specs.Io.Buffered.{reader_remaining};
ghost use Rattle.server.specs.Cookies.{IsCookie};
ghost use Rattle.cluster_main.specs.Cookies.{Guards, HasCookie, HasNoCookie, cookie_words, fault_of_reading};
ghost use Rattle.cluster_main.specs.declared.cookies.CookieFault.TheVariants.{System};

use server::Cookie;
use std::alloc::{AllocError, Global};
use std::fs::{Files, Metadata, OpenFile};
use std::io::{BufReader, Read};
use std::os::unix::fs::MetadataExt;
use std::{fs, io, str};
use text_lines::{Line, StreamFault, read_line};

/// Why a file gives no cookie.
#[derive(Debug, Drop)]
pub enum CookieFault {
    /// It is no regular file.
    NotAFile,
    /// Others than its owner may read it, or write or run it.
    OthersMayRead,
    /// Its first line is no cookie.
    NoCookie,
    /// Its first line can't be read, or memory was refused for it.
    Unread,
    /// It can't be opened, for this reason.
    System(io::Error),
}

impl From<io::Error> for CookieFault {
    ghost from_gives = { λ e fault. fault ≡ System e };

    fn from(error: io::Error) -> Self {
        CookieFault::System(error)
    }
}

impl From<StreamFault> for CookieFault {
    ghost from_gives = { λ stop fault. fault ≡ fault_of_reading stop };

    fn from(stop: StreamFault) -> Self {
        match stop {
            StreamFault::TooManyLines => CookieFault::NoCookie,
            _ => CookieFault::Unread,
        }
    }
}

impl CookieFault {
    /// What is told of it.
    pub(crate) fn words(&self, alloc: Global) -> Result<String, AllocError>
        ensures { IfOk result (λ words. IfSome (cookie_words self.now) (λ text. string_bytes words ≡ text)) }
    {
        match self {
            CookieFault::NotAFile => String::from_str(alloc, "not a file"),
            CookieFault::OthersMayRead => String::from_str(alloc, "others may read it"),
            CookieFault::NoCookie => String::from_str(alloc, "no cookie in its first line"),
            CookieFault::Unread => String::from_str(alloc, "can't be read"),
            CookieFault::System(error) => format!(in alloc; "{error}"),
        }
    }
}

/// Why an open file may have no cookie, if it mayn't.
fn fault_of(metadata: &Metadata) -> Option<CookieFault>
    ensures { Guards metadata.now result }
{
    if !metadata.is_file() {
        Some(CookieFault::NotAFile)
    } else if metadata.mode() & 0o077 != 0 {
        Some(CookieFault::OthersMayRead)
    } else {
        None
    }
}

/// Opens a file that is its owner's alone. What isn't a file isn't opened, since that might wait.
fn open<R: Files>(rt: &R, name: &str) -> Result<R::File, CookieFault> {
    if !fs::metadata(rt, name)?.is_file() {
        return Err(CookieFault::NotAFile);
    }
    let file = fs::open(rt, name)?;
    match fault_of(&file.metadata()?) {
        Some(fault) => Err(fault),
        None => Ok(file),
    }
}

/// The cookie that these bytes are, if they are one.
fn cookie_of(bytes: &[u8]) -> Option<Cookie>
    ensures { MatchOption result (IsCookie bytes.now → ⊥) (λ cookie. IsCookie bytes.now × (cookie ≡ bytes.now)) }
{
    match str::from_utf8(bytes) {
        Ok(text) => Cookie::new(text),
        Err(_) => None,
    }
}

/// The cookie in the first line of a reader.
fn first_cookie<R: Read>(
    alloc: Global,
    reader: &mut BufReader<R, Global>,
) -> Result<Cookie, CookieFault>
    ensures { MatchResult result (HasCookie (reader_remaining R.remaining reader.old))
        (HasNoCookie (reader_remaining R.remaining reader.old)) }
{
    let mut left = 1;
    match read_line(Vec::new(alloc), reader, &mut io::sink(), &mut left)? {
        Some(Line::Text(bytes)) => cookie_of(bytes.as_slice()).ok_or(CookieFault::NoCookie),
        Some(Line::TooLong) => Err(CookieFault::NoCookie),
        None => Err(CookieFault::NoCookie),
    }
}

/// The cookie in the first line of a file, which only its owner may read.
pub(crate) fn read_cookie<R: Files>(
    rt: &R,
    alloc: Global,
    name: &str,
) -> Result<Cookie, CookieFault> {
    let mut reader = BufReader::new(alloc, open(rt, name)?)?;
    first_cookie(alloc, &mut reader)
}
