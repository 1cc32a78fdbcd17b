//! What the program does where it is to serve consoles.
ghost use Rattle.std.specs.Prelude.{◌≡◌, codes, false, is_some, string_bytes, true};
ghost use Rattle.std.specs.Io.KnownBytes.{Keeps};
ghost use Rattle.cluster_main.specs.Cookies.{cookie_words};
ghost use Rattle.cluster_main.specs.Listening.{EntersAt, IsListeningLine, RefusesAddress};
ghost use Rattle.cluster_main.specs.Refusing.{RefusesValue};
ghost use Rattle.server.specs.Staying.{StaysCluster};
ghost use Rattle.cluster_main.specs.Serving.{IsReady, Listened, Serves, StaysSo, TellsWhy, served_status};
ghost use Rattle.cluster_main.specs.declared.serving.Served.TheVariants.{NoCookie, NotListening};

use crate::cookies::{CookieFault, read_cookie};
use crate::journal::Journal;
use crate::listening::{listen, listening_line};
use crate::refusing::refuse_value;
use crate::sockets::{ListenFault, Standing};
use arguments::ServeOptions;
use server::{Cookie, Listener, ServeFault, StayFault, StayOptions, run_serve, run_stay};
use std::alloc::Global;
use std::fs::Files;
use std::io::Write;
use std::net::{Net, TcpListener, TcpStream};
use std::sync::Wait;
use std::thread::Threads;
use std::time::Clock;
use text_lines::tell;

/// What it came to that consoles were to be served.
#[derive(Debug, Drop)]
pub enum Served {
    /// There is no cookie that clients could be asked for.
    NoCookie(CookieFault),
    /// Nothing listens at the address.
    NotListening(ListenFault),
    /// It listened, and that couldn't be printed.
    NotAnnounced,
    /// It listened, that was printed, and a cluster was served to its end, or to a fault.
    Ran(Result<bool, ServeFault>),
    /// It listened, and a cluster that stays was served to its end, or to a fault.
    Stayed(Result<bool, StayFault>),
}

impl Served {
    /// The status: 0 where the cluster was served to its end and its run was one of the world's, and else 1.
    pub(crate) fn status(&self) -> u8
        ensures { result ≡ served_status self.now }
    {
        match self {
            Served::Ran(Ok(true)) | Served::Stayed(Ok(true)) => 0,
            _ => 1,
        }
    }
}

/// What a server that stays is told, with this cookie.
fn stay_options(options: &ServeOptions, cookie: Option<Cookie>) -> StayOptions
    ensures { StaysSo options.now cookie result }
{
    StayOptions {
        consoles: u32::from(options.consoles),
        idle: options.idle,
        cookie,
    }
}

/// Runs a cluster that stays, and serves the consoles that come until one of them shuts it down. That it listens is printed once all is
/// there to serve with; where that can't be had, it is told on standard error.
fn stay<H, W, E>(
    rt: &H,
    alloc: Global,
    entry: Listener,
    options: &ServeOptions,
    cookie: Option<Cookie>,
    listening: &str,
    writer: &mut W,
    errors: &mut E,
) -> Result<bool, StayFault>
where
    H: Threads + Wait + Clock + Files + Drop + Copy + Send + Sync + 'static,
    W: Write,
    E: Write,
    requires { IsReady options.now }
    ensures { StaysCluster options.now.cluster options.now.lone listening.now (W.contents writer.old) (W.contents writer.new) result }
{
    let cluster = options.cluster.as_slice();
    let lone = options.lone.as_slice();
    let told = stay_options(options, cookie);
    let mut journal = Journal::new(errors);
    let stayed = run_stay(
        rt,
        alloc,
        entry,
        cluster,
        lone,
        told,
        listening,
        writer,
        &mut journal,
    );
    if matches!(stayed, Err(StayFault::Start)) {
        let _ = journal.write_all(
            b"error: no memory or no threads for so many nodes and consoles\n",
        );
    }
    stayed
}

/// Prints that it listens, and serves consoles until the last of so many has ended.
fn serve_so_many<H, W>(
    rt: &H,
    alloc: Global,
    listener: TcpListener,
    options: &ServeOptions,
    listening: &str,
    writer: &mut W,
) -> Served
where
    H: Threads + Wait + Clock + Drop + Copy + Send + Sync + 'static,
    W: Write,
    requires ready { IsReady options.now }
    requires line { IsListeningLine (string_bytes options.now.listen) listening.now }
    requires leaves { options.now.stay ≡ false }
    ensures serves { Serves options.now (W.contents writer.old) (W.contents writer.new) result }
    ensures listened { Listened result }
{
    match tell(writer, listening.as_bytes()) {
        Ok(()) => {
            let cluster = options.cluster.as_slice();
            let lone = options.lone.as_slice();
            let consoles = u32::from(options.consoles);
            Served::Ran(run_serve(rt, alloc, listener, cluster, lone, consoles, writer))
        }
        Err(_) => Served::NotAnnounced,
    }
}

/// Serves the consoles that come: until one of them shuts the server down where it is to stay, and else until the last of so many has
/// ended.
fn serve_telling<H, W, E>(
    rt: &H,
    alloc: Global,
    entry: Listener,
    options: &ServeOptions,
    cookie: Option<Cookie>,
    listening: &str,
    writer: &mut W,
    errors: &mut E,
) -> Served
where
    H: Threads + Wait + Clock + Files + Drop + Copy + Send + Sync + 'static,
    W: Write,
    E: Write,
    requires ready { IsReady options.now }
    requires entry { EntersAt (string_bytes options.now.listen) entry }
    requires guarded { is_some cookie ≡ is_some options.now.cookie_file }
    requires line { IsListeningLine (string_bytes options.now.listen) listening.now }
    ensures serves { Serves options.now (W.contents writer.old) (W.contents writer.new) result }
    ensures why { TellsWhy options.now (E.contents errors.old) (E.contents errors.new) result }
{
    if options.stay {
        let stayed = stay(rt, alloc, entry, options, cookie, listening, writer, errors);
        return Served::Stayed(stayed);
    }
    match entry {
        Listener::Tcp(listener) => serve_so_many(rt, alloc, listener, options, listening, writer),
        Listener::Unix(_) => unreachable!(),
    }
}

/// Serves the consoles that come, and prints where it listens.
fn serve_at<H, W, E>(
    rt: &H,
    alloc: Global,
    entry: Listener,
    options: &ServeOptions,
    cookie: Option<Cookie>,
    writer: &mut W,
    errors: &mut E,
) -> Served
where
    H: Threads + Wait + Clock + Files + Drop + Copy + Send + Sync + 'static,
    W: Write,
    E: Write,
    requires ready { IsReady options.now }
    requires entry { EntersAt (string_bytes options.now.listen) entry }
    requires guarded { is_some cookie ≡ is_some options.now.cookie_file }
    ensures serves { Serves options.now (W.contents writer.old) (W.contents writer.new) result }
    ensures why { TellsWhy options.now (E.contents errors.old) (E.contents errors.new) result }
{
    match listening_line(alloc, &entry, options.listen.as_str()) {
        Ok(line) => serve_telling(
            rt,
            alloc,
            entry,
            options,
            cookie,
            line.as_str(),
            writer,
            errors,
        ),
        Err(_) => Served::NotAnnounced,
    }
}

/// Tells why nothing listens at the address.
fn not_listening<E: Write>(
    alloc: Global,
    options: &ServeOptions,
    fault: ListenFault,
    errors: &mut E,
) -> Served
    requires { RefusesAddress (string_bytes options.now.listen) fault }
    ensures is { result ≡ NotListening fault }
    ensures why { TellsWhy options.now (E.contents errors.old) (E.contents errors.new) result }
{
    let words = fault.words(alloc);
    refuse_value(alloc, "--listen", options.listen.as_str(), words, errors);
    Served::NotListening(fault)
}

/// Listens at the address, and serves the consoles that come. A socket is removed at the end.
fn serve_guarded<H, W, E>(
    rt: &H,
    alloc: Global,
    options: &ServeOptions,
    cookie: Option<Cookie>,
    writer: &mut W,
    errors: &mut E,
) -> Served
where
    H: Threads + Wait + Clock + Files + Net<Listener = TcpListener, Stream = TcpStream>,
    H: Drop + Copy + Send + Sync + 'static,
    W: Write,
    E: Write,
    requires ready { IsReady options.now }
    requires guarded { is_some cookie ≡ is_some options.now.cookie_file }
    ensures serves { Serves options.now (W.contents writer.old) (W.contents writer.new) result }
    ensures why { TellsWhy options.now (E.contents errors.old) (E.contents errors.new) result }
{
    let entry = match listen(rt, alloc, options) {
        Ok(entry) => entry,
        Err(fault) => return not_listening(alloc, options, fault, errors),
    };
    let socket = options.socket().map(|path| Standing::at(rt, path));
    let served = serve_at(rt, alloc, entry, options, cookie, writer, errors);
    if let Some(socket) = socket {
        socket.remove(rt);
    }
    served
}

/// Tells why there is no cookie in the file that is named for it.
fn no_cookie<E: Write>(alloc: Global, file: &str, fault: CookieFault, errors: &mut E) -> Served
    ensures is { result ≡ NoCookie fault }
    ensures why { RefusesValue (codes "--cookie-file") file.now (cookie_words fault) (E.contents errors.old) (E.contents errors.new) }
{
    let words = fault.words(alloc);
    refuse_value(alloc, "--cookie-file", file, words, errors);
    Served::NoCookie(fault)
}

/// Reads the cookie where a file is named for it, listens at the address, and serves the consoles that come. Where there is no cookie in
/// the file, or nothing can listen at the address, it tells why on standard error; else only a server that stays tells something there.
pub(crate) fn serve<H, W, E>(
    rt: &H,
    alloc: Global,
    options: &ServeOptions,
    writer: &mut W,
    errors: &mut E,
) -> Served
where
    H: Threads + Wait + Clock + Files + Net<Listener = TcpListener, Stream = TcpStream>,
    H: Drop + Copy + Send + Sync + 'static,
    W: Write,
    E: Write,
    requires { IsReady options.now }
    ensures serves { Serves options.now (W.contents writer.old) (W.contents writer.new) result }
    ensures why { TellsWhy options.now (E.contents errors.old) (E.contents errors.new) result }
{
    let Some(file) = &options.cookie_file else {
        return serve_guarded(rt, alloc, options, None, writer, errors);
    };
    match read_cookie(rt, alloc, file.as_str()) {
        Ok(cookie) => serve_guarded(rt, alloc, options, Some(cookie), writer, errors),
        Err(fault) => no_cookie(alloc, file.as_str(), fault, errors),
    }
}
