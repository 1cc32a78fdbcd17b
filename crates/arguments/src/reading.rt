//! What the words ask for.
ghost use Rattle.std.specs.Prelude.{◌≡◌, None, IfOk, MatchResult, codes, map, option_map, string_bytes};
ghost use Rattle.clap.specs.Words.{first_of, found_of, rows_of, subcommand_rows_of};
ghost use Rattle.arguments.specs.CommandLine.{KnownWords};
ghost use Rattle.arguments.specs.Reading.{Asks, AsksIn, CountsConsoles, CountsSeconds, HasArguments, HasOptions, IsLooked, Refuses, RefusesIn, RefusesNode, RefusesTold, RefusesValues, Tells, TellsFine, TellsNode};

use crate::command_line::command;
use crate::faults::ArgFault;
use crate::mode::{Mode, NodeOptions, ServeOptions};
use crate::nodes::{read_nodes, read_own};
use clap::ArgMatches;
use std::alloc::{AllocError, Global};
use term::{CONSOLES, CONSOLES_AT_ONCE};

/// How many consoles are taken, or served at once where it stays, where the words don't tell.
fn untold_consoles(stay: bool) -> u16
    ensures { CountsConsoles stay None result }
{
    if stay { CONSOLES_AT_ONCE } else { CONSOLES }
}

/// Reads the number of consoles, which clap has looked at before: it is 1 or more, and not too many, where it is given.
fn read_consoles(matches: &ArgMatches<'_>, stay: bool) -> u16
    requires { HasOptions (rows_of (found_of matches.now)) }
    ensures { CountsConsoles stay (first_of (codes "consoles") (rows_of (found_of matches.now))) result }
{
    matches
        .get_one::<u16>("consoles")
        .unwrap_or(untold_consoles(stay))
}

/// Reads for how many seconds a console may be silent, which clap has looked at before.
fn read_idle(matches: &ArgMatches<'_>) -> Option<u32>
    requires { HasOptions (rows_of (found_of matches.now)) }
    ensures { CountsSeconds (first_of (codes "idle") (rows_of (found_of matches.now))) result }
{
    matches.get_one::<u32>("idle")
}

/// A text of its own, where there is one.
fn copied(alloc: Global, text: Option<&str>) -> Result<Option<String>, AllocError>
    ensures { IfOk result (λ copy. option_map string_bytes copy ≡ option_map (λ text. text.now) text.entry) }
{
    match text {
        Some(text) => Ok(Some(String::from_str(alloc, text)?)),
        None => Ok(None),
    }
}

/// Reads what the options of `serve` tell, which clap has looked at before: those that are wanted are there, and the numbers
/// are in their ranges where they are given.
fn read_told(alloc: Global, matches: &ArgMatches<'_>) -> Result<ServeOptions, ArgFault>
    requires { HasOptions (rows_of (found_of matches.now)) }
    ensures { MatchResult result (Tells (λ id. first_of id (rows_of (found_of matches.now))))
        (RefusesTold (λ id. first_of id (rows_of (found_of matches.now)))) }
{
    let listen = matches.get_str("listen").unwrap();
    let nodes = matches.get_str("nodes").unwrap();
    let (cluster, lone) = read_nodes(nodes, matches.get_str("lone"))?;
    let cookie_file = copied(alloc, matches.get_str("cookie-file"))?;
    let listen = String::from_str(alloc, listen)?;
    let stay = matches.get_flag("stay");
    let consoles = read_consoles(matches, stay);
    Ok(ServeOptions {
        listen,
        cluster,
        lone,
        consoles,
        stay,
        cookie_file,
        idle: read_idle(matches),
    })
}

/// Reads the options of `serve`, which clap has looked at before, and sees that they go together.
fn read_options(alloc: Global, matches: &ArgMatches<'_>) -> Result<ServeOptions, ArgFault>
    requires { HasOptions (rows_of (found_of matches.now)) }
    ensures { MatchResult result (TellsFine (λ id. first_of id (rows_of (found_of matches.now))))
        (RefusesValues (λ id. first_of id (rows_of (found_of matches.now)))) }
{
    let options = read_told(alloc, matches)?;
    match options.fault() {
        Some(fault) => Err(ArgFault::Options(fault)),
        None => Ok(options),
    }
}

/// Reads the arguments of `node`, which clap has looked at before.
fn read_node(matches: &ArgMatches<'_>) -> Result<NodeOptions, ArgFault>
    requires { HasArguments (rows_of (found_of matches.now)) }
    ensures { MatchResult result (TellsNode (λ id. first_of id (rows_of (found_of matches.now))))
        (RefusesNode (λ id. first_of id (rows_of (found_of matches.now)))) }
{
    let node = matches.get_str("node").unwrap();
    let nodes = matches.get_str("nodes").unwrap();
    let (node, world) = read_own(node, nodes)?;
    Ok(NodeOptions { node, world })
}

/// Reads what clap found, which has looked at it before.
fn read_matches(alloc: Global, matches: &ArgMatches<'_>) -> Result<Mode, ArgFault>
    requires { IsLooked (subcommand_rows_of matches.now) }
    ensures { MatchResult result (AsksIn (subcommand_rows_of matches.now)) (RefusesIn (subcommand_rows_of matches.now)) }
{
    match matches.subcommand() {
        Some(("serve", options)) => Ok(Mode::Serve(read_options(alloc, options)?)),
        Some(("node", arguments)) => Ok(Mode::Node(read_node(arguments)?)),
        _ => Ok(Mode::Script),
    }
}

/// Reads the words, the first of which is the program's name: what they ask for, or why they are not taken.
#[tactic(auto, using(crate::proofs::Words::known_words))]
pub fn read_args(alloc: Global, words: &[String]) -> Result<Mode, ArgFault>
    ensures mode { MatchResult result (Asks (map string_bytes words.now)) (Refuses (map string_bytes words.now)) }
    ensures known { KnownWords }
{
    let matches = command(alloc)?.try_get_matches_from(words)?;
    read_matches(alloc, &matches)
}
