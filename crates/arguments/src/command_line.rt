//! The command line of the program, as clap reads it.
ghost use Rattle.std.specs.Prelude.{◌≡◌, false, None, IfOk, [], ◌∷◌};
ghost use Rattle.clap.specs.Words.{app_of, rule_of};
ghost use Rattle.clap.specs.declared.builder.command.Command.TheViews.{out-Command as fields_of};
ghost use Rattle.arguments.specs.CommandLine.{program, consoles_rule, idle_rule, node_shape, one_valued, placed, serve_shape, stay_rule, valued_serve_shape, wanted, worlds_program};

use clap::{Arg, ArgAction, Command};
use std::alloc::{AllocError, Global};
use term::{LONGEST_SILENCE, MOST_CONSOLES_AT_ONCE};

/// An option that takes one value, which help calls by this name.
fn option<'a>(alloc: Global, id: &'a str, value: &'a str, help: &'a str) -> Arg<'a>
    ensures rule { rule_of result ≡ one_valued id.entry.now }
    ensures local { result.global ≡ false }
    ensures parser { result.value_parser ≡ None }
{
    Arg::new(alloc, id)
        .long(id)
        .action(ArgAction::Set)
        .value_name(value)
        .help(help)
}

/// An option that can't be left out, and takes one value, which help calls by this name.
fn wanted_option<'a>(alloc: Global, id: &'a str, value: &'a str, help: &'a str) -> Arg<'a>
    ensures rule { rule_of result ≡ wanted id.entry.now }
    ensures local { result.global ≡ false }
{
    option(alloc, id, value, help).required(true)
}

/// The option for the number of consoles.
fn consoles_option<'a>(alloc: Global) -> Arg<'a>
    ensures rule { rule_of result ≡ consoles_rule }
    ensures local { result.global ≡ false }
{
    option(
        alloc,
        "consoles",
        "N",
        "How many consoles are taken before the cluster closes, 1 to 64, as 16; 8 without this option. With --stay, how many are served at once, 1 to 1024; 64 without this option",
    )
    .value_parser(clap::value_parser!(u16).range(1..=i64::from(MOST_CONSOLES_AT_ONCE)))
}

/// The flag of a server that stays.
fn stay_flag<'a>(alloc: Global) -> Arg<'a>
    ensures rule { rule_of result ≡ stay_rule }
    ensures local { result.global ≡ false }
{
    Arg::new(alloc, "stay")
        .long("stay")
        .action(ArgAction::SetTrue)
        .help("Stays until a console says shutdown, however many consoles come")
}

/// The option for the seconds that a console may be silent.
fn idle_option<'a>(alloc: Global) -> Arg<'a>
    ensures rule { rule_of result ≡ idle_rule }
    ensures local { result.global ≡ false }
{
    option(
        alloc,
        "idle",
        "SECONDS",
        "With --stay: after how many seconds without a line a console ends, 1 to 31536000; never without this option",
    )
    .value_parser(clap::value_parser!(u32).range(1..=i64::from(LONGEST_SILENCE)))
}

/// The subcommand `serve` with the options of each server.
fn valued_serve_command<'a>(alloc: Global) -> Result<Command<'a>, AllocError>
    ensures shape { IfOk result (λ command. app_of command ≡ record { top = valued_serve_shape; subs = [] }) }
    ensures local { IfOk result (λ command. (fields_of command).has_globals ≡ false) }
{
    Command::new(alloc, "serve")
        .about("Runs nodes and serves consoles over the network")
        .arg(wanted_option(
            alloc,
            "listen",
            "ADDR",
            "The address to listen on, as 127.0.0.1:4370, or with --stay a socket, as unix:/run/yaltzumin/socket",
        ))?
        .arg(wanted_option(
            alloc,
            "nodes",
            "LIST",
            "The nodes that are joined from the start, parted by commas, as a,b,c",
        ))?
        .arg(option(
            alloc,
            "lone",
            "LIST",
            "The nodes that stand alone at the start, parted by commas, as d,e; none without this option",
        ))?
        .arg(consoles_option(alloc))
}

/// The subcommand `serve` with its options.
fn serve_command<'a>(alloc: Global) -> Result<Command<'a>, AllocError>
    ensures shape { IfOk result (λ command. app_of command ≡ record { top = serve_shape; subs = [] }) }
    ensures local { IfOk result (λ command. (fields_of command).has_globals ≡ false) }
{
    valued_serve_command(alloc)?
        .arg(stay_flag(alloc))?
        .arg(option(
            alloc,
            "cookie-file",
            "FILE",
            "With --stay: the file whose first line each console must show, which only its owner may read; wanted where ADDR is no socket",
        ))?
        .arg(idle_option(alloc))
}

/// An argument that stands at this place, counted from 1, which help calls by this name.
fn argument<'a>(alloc: Global, place: usize, id: &'a str, value: &'a str, help: &'a str) -> Arg<'a>
    ensures rule { rule_of result ≡ placed place id.entry.now }
    ensures local { result.global ≡ false }
{
    Arg::new(alloc, id)
        .index(place)
        .action(ArgAction::Set)
        .required(true)
        .value_name(value)
        .help(help)
}

/// The subcommand `node` with its arguments.
fn node_command<'a>(alloc: Global) -> Result<Command<'a>, AllocError>
    ensures shape { IfOk result (λ command. app_of command ≡ record { top = node_shape; subs = [] }) }
    ensures local { IfOk result (λ command. (fields_of command).has_globals ≡ false) }
{
    let node = argument(
        alloc,
        1,
        "node",
        "NODE",
        "The node, which is one of the list",
    );
    let nodes = argument(
        alloc,
        2,
        "nodes",
        "LIST",
        "All nodes of its world, parted by commas, as a,b,c: the same at the program of each of them",
    );
    Command::new(alloc, "node")
        .about("Runs one node by the lines of standard input, and prints what it sends and answers")
        .arg(node)?
        .arg(nodes)
}

/// The command line with the subcommands of whole worlds, `script` and `serve`.
fn worlds_command<'a>(alloc: Global) -> Result<Command<'a>, AllocError>
    ensures { IfOk result (λ command. app_of command ≡ worlds_program) }
{
    let script = Command::new(alloc, "script").about(
        "Plays a script from standard input and prints its answers",
    );
    Command::new(alloc, "cluster_main")
        .about("A verified global name server")
        .version("0.1.0")
        .subcommand_required(true)
        .subcommand(script)?
        .subcommand(serve_command(alloc)?)
}

/// The command line of the program.
pub(crate) fn command<'a>(alloc: Global) -> Result<Command<'a>, AllocError>
    ensures { IfOk result (λ command. app_of command ≡ program) }
{
    worlds_command(alloc)?.subcommand(node_command(alloc)?)
}
