//! `serve`.

ghost use Rattle.std.specs.Prelude.{◌≡◌, ◌≤◌, IfOk, false, option_map};
ghost use Rattle.held_pictures.specs.Bounded.{most_capacity};
ghost use Rattle.clap.specs.Words.{app_of, found_of, rows_of, rule_of};
ghost use Rattle.cli.specs.CommandLine.{journal_rule, serve, serve_app, serve_in, wanted_of};

use crate::invocation::{Invocation, MOST_WORKERS, Serving, Workers};
use crate::parsing::{cache_option, number_option, read_cache, read_workers, several};
use clap::{Arg, ArgMatches, Command, value_parser};
use std::alloc::{AllocError, Global};

/// What the matches of `serve` ask for.
pub(crate) fn read_serve<'a>(serve: &ArgMatches<'a>) -> Option<Invocation<'a>>
    ensures { option_map wanted_of result ≡ serve_in (rows_of (found_of serve.now)) }
{
    let count = read_workers(serve, 0)?;
    let cache = read_cache(serve)?;
    Some(serving(several(count), cache, serve.get_str("journal")))
}

/// A server with these workers, so much room and this journal, if there is one.
fn serving<'a>(workers: Option<Workers>, cache: u16, journal: Option<&'a str>) -> Invocation<'a>
    requires { (1 ≤ cache) × (cache ≤ most_capacity) }
    ensures { wanted_of result ≡ serve (option_map (λ workers. workers.count) workers) cache
        (option_map (λ name. name.now) journal.entry) }
{
    Invocation::Serve(Serving {
        workers,
        cache,
        journal,
    })
}

/// The subcommand `serve`.
pub(crate) fn serve_command<'a>(alloc: Global) -> Result<Command<'a>, AllocError>
    ensures { IfOk result (λ command. app_of command ≡ serve_app) }
{
    let few = value_parser!(u16).range(0..=MOST_WORKERS as i64);
    let help = "How many threads decode, 0 to 64; with 0 jobs are taken by calls";
    let workers = number_option(alloc, "workers", few, "1", help);
    let cache = cache_option(alloc);
    let journal = journal_option(alloc);
    Command::new(alloc, "serve")
        .about("Keeps a stream for an editor, which sends requests as lines of JSON-RPC 2.0")
        .arg(workers)?
        .arg(cache)?
        .arg(journal)
}

/// `--journal FILE`.
fn journal_option<'a>(alloc: Global) -> Arg<'a>
    ensures rule { rule_of result ≡ journal_rule }
    ensures local { result.global ≡ false }
{
    Arg::new(alloc, "journal")
        .long("journal")
        .value_name("FILE")
        .help("A file in which each edit is recorded before it is answered")
}
