//! Sockets of the file system that only their owner may connect to.
ghost use Rattle.std.specs.Prelude.{◌≡◌, ◌≤◌, IfErr, IfOk, IfSome, MatchResult, None, false, length, nat_lt, string_bytes};
ghost use Rattle.cluster_main.specs.Listening.{is_too_long, listen_words};
ghost use Rattle.cluster_main.specs.declared.sockets.ListenFault.TheVariants.{System};

use std::alloc::{AllocError, Global};
use std::fs::{DirBuilder, Files, Permissions};
use std::io::ErrorKind;
use std::net::Net;
use std::os::unix::fs::{DirBuilderExt, FileTypeExt, MetadataExt, PermissionsExt};
use std::os::unix::net::{UnixListener, UnixStream};
use std::{fs, io};
use term::LONGEST_PATH;

/// Why nothing listens at an address.
#[derive(Debug, Drop)]
pub enum ListenFault {
    /// Somebody listens at the socket.
    InUse,
    /// What stands at the path is no socket.
    NotASocket,
    /// The path of the socket is too long.
    TooLong,
    /// What is wanted to make the socket in stands there already.
    InTheWay,
    /// Nothing can listen there, for this reason.
    System(io::Error),
}

impl From<io::Error> for ListenFault {
    ghost from_gives = { λ e fault. fault ≡ System e };

    fn from(error: io::Error) -> Self {
        ListenFault::System(error)
    }
}

impl From<AllocError> for ListenFault {
    ghost from_gives = { λ _ fault. listen_words fault ≡ None };

    fn from(error: AllocError) -> Self {
        ListenFault::System(io::Error::from(error))
    }
}

impl ListenFault {
    /// What is told of it.
    pub(crate) fn words(&self, alloc: Global) -> Result<String, AllocError>
        ensures { IfOk result (λ words. IfSome (listen_words self.now) (λ text. string_bytes words ≡ text)) }
    {
        match self {
            ListenFault::InUse => String::from_str(alloc, "in use"),
            ListenFault::NotASocket => String::from_str(alloc, "not a socket"),
            ListenFault::TooLong => String::from_str(alloc, "too long"),
            ListenFault::InTheWay => String::from_str(alloc, "PATH.new is in the way"),
            ListenFault::System(error) => format!(in alloc; "{error}"),
        }
    }
}

/// Whether nothing stands at a path. Where something does that is no socket, it is refused.
fn is_free<R: Files>(rt: &R, path: &str) -> Result<bool, ListenFault>
    ensures { IfErr result (λ fault. is_too_long fault ≡ false) }
{
    match fs::symlink_metadata(rt, path) {
        Ok(found) if found.file_type().is_socket() => Ok(false),
        Ok(_) => Err(ListenFault::NotASocket),
        Err(error) if error.kind() == ErrorKind::NotFound => Ok(true),
        Err(error) => Err(ListenFault::System(error)),
    }
}

/// Sees that nobody listens at a path, and that nothing stands there but a socket that was left.
fn see_unused<R: Files + Net>(rt: &R, path: &str) -> Result<(), ListenFault>
    ensures { IfErr result (λ fault. is_too_long fault ≡ false) }
{
    if is_free(rt, path)? {
        return Ok(());
    }
    match UnixStream::connect(rt, path) {
        Ok(_) => Err(ListenFault::InUse),
        Err(error) if error.kind() == ErrorKind::ConnectionRefused => Ok(()),
        Err(error) => Err(ListenFault::System(error)),
    }
}

/// Lets the owner alone connect to a socket, and moves it.
fn settle<R: Files>(rt: &R, from: &str, path: &str) -> io::Result<()> {
    fs::set_permissions(rt, from, Permissions::from_mode(0o600))?;
    fs::rename(rt, from, path)
}

/// Listens at a path, and moves the socket to another.
fn bind_and_move<R: Files + Net>(rt: &R, from: &str, path: &str) -> io::Result<UnixListener> {
    let listener = UnixListener::bind(rt, from)?;
    settle(rt, from, path)?;
    Ok(listener)
}

/// Makes the folder that a socket is made in, which only its owner may enter.
fn make_folder<R: Files>(rt: &R, folder: &str) -> Result<(), ListenFault>
    ensures { IfErr result (λ fault. is_too_long fault ≡ false) }
{
    match DirBuilder::new().mode(0o700).create(rt, folder) {
        Ok(()) => Ok(()),
        Err(error) if error.kind() == ErrorKind::AlreadyExists => Err(ListenFault::InTheWay),
        Err(error) => Err(ListenFault::System(error)),
    }
}

/// Listens at a socket that is made in a new folder and then moved. The folder and what is left in it go in any case.
fn bind_in<R: Files + Net>(
    rt: &R,
    folder: &str,
    socket: &str,
    path: &str,
) -> Result<UnixListener, ListenFault>
    ensures { IfErr result (λ fault. is_too_long fault ≡ false) }
{
    see_unused(rt, socket)?;
    clear(rt, folder, socket);
    make_folder(rt, folder)?;
    let bound = bind_and_move(rt, socket, path);
    clear(rt, folder, socket);
    Ok(bound?)
}

/// Listens at a path, in place of a socket that nobody listens at any more. At no time may another user connect: the socket is made in
/// a folder that only its owner may enter, gets its mode there, and is moved then. A folder that was left there is used up first.
pub(crate) fn bind_private<R: Files + Net>(
    rt: &R,
    alloc: Global,
    path: &str,
) -> Result<UnixListener, ListenFault>
    ensures { MatchResult result (λ _. length path.now ≤ LONGEST_PATH) (λ fault. is_too_long fault ≡ nat_lt LONGEST_PATH (length path.now)) }
{
    if path.len() > LONGEST_PATH {
        return Err(ListenFault::TooLong);
    }
    see_unused(rt, path)?;
    let folder = format!(in alloc; "{path}.new")?;
    // Of 107 bytes at most, as the system wants it.
    let socket = format!(in alloc; "{path}.new/s")?;
    bind_in(rt, folder.as_str(), socket.as_str(), path)
}

/// Removes a socket and the folder that it stood in, if they are there.
fn clear<R: Files>(rt: &R, folder: &str, socket: &str) {
    let _ = fs::remove_file(rt, socket);
    let _ = fs::remove_dir(rt, folder);
}

/// By what the system knows a file.
#[derive(Clone, Copy, PartialEq, Eq)]
struct FileNumber {
    device: u64,
    number: u64,
}

/// The number of what stands at a path, if something does.
fn number_at<R: Files>(rt: &R, path: &str) -> Option<FileNumber> {
    let found = fs::symlink_metadata(rt, path).ok()?;
    Some(FileNumber {
        device: found.dev(),
        number: found.ino(),
    })
}

/// A socket that is to be removed.
#[derive(Clone, Copy)]
pub(crate) struct Standing<'a> {
    path: &'a str,
    number: Option<FileNumber>,
}

impl<'a> Standing<'a> {
    /// The socket that stands at a path.
    pub(crate) fn at<R: Files>(rt: &R, path: &'a str) -> Standing<'a> {
        Standing {
            path,
            number: number_at(rt, path),
        }
    }

    /// Removes it, unless another stands in its place by now.
    pub(crate) fn remove<R: Files>(self, rt: &R) {
        if number_at(rt, self.path) == self.number {
            let _ = fs::remove_file(rt, self.path);
        }
    }
}
