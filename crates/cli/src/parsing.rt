//! What the words of a command line ask for.

ghost use Rattle.std.specs.Prelude.{◌≡◌, ◌≤◌, IfOk, IfSome, Some, codes, false, map, option_map};
ghost use Rattle.clap.specs.Words.{FailsBy, app_of, found_of, rows_of, rule_of, subcommand_rows_of};
ghost use Rattle.held_pictures.specs.Bounded.{most_capacity};
ghost use Rattle.cli.specs.Bounds.{most_id, most_workers};
ghost use Rattle.cli.specs.CommandLine.{audit_app, audit_in, cache_in, cache_rule, draw_app, draw_in, drawing, edits_rule, faults_of, flag_rule, from_in, from_rule, has_flag, needed_rule};
ghost use Rattle.cli.specs.CommandLine.{number_of, option_rule, preview_app, run_app, run_in, several};
ghost use Rattle.cli.specs.CommandLine.{units_in, units_rule, wanted_from, wanted_in, wanted_of, workers_in};

use crate::invocation::{Invocation, MOST_WORKERS, Workers};
use crate::planning_args::{
    check_command, mend_command, plan_command, read_check, read_mend, read_plan,
};
use crate::serving_args::{read_serve, serve_command};
use clap::builder::ValueParser;
use clap::error::ErrorKind;
use clap::{Arg, ArgAction, ArgMatches, Command, Error, value_parser};
use draw_run::{Choice, EditedChoice, MOST_DRAWN};
use script_run::{MOST_CAPACITY, Options};
use std::alloc::{AllocError, Global};
use std::convert::AsStr;
use std::{env, io};

/// What `--version` prints after the program's name.
const VERSION: &str = "0.3.0";

/// The greatest id of a unit.
const MOST_ID: i64 = 4_294_967_295;

/// What is said of words that ask for nothing, though each of them is taken.
const ALONE: &str = "--frames is for JSON, and --json isn't given";

/// The process's words, the program's name first. Words that aren't UTF-8 are InvalidData.
pub fn words(rt: &HostRuntime) -> io::Result<Vec<String>> {
    let words = env::args(rt)?.collect(rt.alloc())?;
    Ok(words)
}

/// What the words ask for, or clap's answer to them.
pub fn parse<'a, S: AsStr>(alloc: Global, words: &'a [S]) -> Result<Invocation<'a>, Error>
    ensures ok { IfOk result (λ asked. wanted_in (map S.text words.entry.now)
        ≡ Some (wanted_of asked)) }
    ensures faults { FailsBy (faults_of (map S.text words.entry.now)) result }
{
    let mut preview = preview_command(alloc)?;
    let matches = preview.try_get_matches_from_mut(words)?;
    match read_matches(&matches) {
        Some(asked) => Ok(asked),
        None => Err(preview.error(ErrorKind::MissingRequiredArgument, ALONE)?),
    }
}

/// What the matches ask for.
fn read_matches<'a>(matches: &ArgMatches<'a>) -> Option<Invocation<'a>>
    ensures { option_map wanted_of result ≡ wanted_from (subcommand_rows_of matches.now) }
{
    match matches.subcommand() {
        Some(("plan", plan)) => read_plan(plan),
        Some(("mend", mend)) => read_mend(mend),
        Some(("check", check)) => read_check(check),
        Some(("draw", draw)) => read_draw(draw),
        Some(("run", run)) => read_run(run),
        Some(("audit", audit)) => read_audit(audit),
        Some(("serve", serve)) => read_serve(serve),
        _ => None,
    }
}

/// What the matches of `draw` ask for.
fn read_draw<'a>(draw: &ArgMatches<'a>) -> Option<Invocation<'a>>
    ensures { option_map wanted_of result ≡ draw_in (rows_of (found_of draw.now)) }
{
    let file = draw.get_str("FILE")?;
    let from = read_from(draw)?;
    let units = read_units(draw)?;
    Some(drawing(file, draw.get_str("edits"), from, units))
}

/// A drawing of so many units, from an id on if one is given, after the edits of a script if one
/// is.
fn drawing<'a>(
    file: &'a str,
    script: Option<&'a str>,
    from: Option<u32>,
    units: usize,
) -> Invocation<'a>
    requires { units ≤ 1000 }
    ensures { wanted_of result ≡ drawing file.entry.now
        (option_map (λ name. name.now) script.entry) from units }
{
    match script {
        Some(script) => Invocation::DrawEdited {
            file,
            script,
            choice: EditedChoice { from, units },
        },
        None => Invocation::Draw {
            file,
            choice: Choice {
                from: from.unwrap_or(1),
                units,
            },
        },
    }
}

/// The id of the first unit that is to be drawn, if one is given.
fn read_from(matches: &ArgMatches<'_>) -> Option<Option<u32>>
    ensures { result ≡ from_in (rows_of (found_of matches.now)) }
{
    match matches.get_str("from") {
        Some(_) => Some(Some(read_id(matches)?)),
        None => Some(None),
    }
}

/// The id that is given by `--from`.
fn read_id(matches: &ArgMatches<'_>) -> Option<u32>
    ensures { result ≡ number_of (codes "from") 0 most_id (rows_of (found_of matches.now)) }
{
    let id = matches.get_one::<u32>("from")?;
    Some(id)
}

/// How many units are to be drawn.
fn read_units(matches: &ArgMatches<'_>) -> Option<usize>
    ensures number { result ≡ units_in (rows_of (found_of matches.now)) }
    ensures range { IfSome result (λ units. units ≤ 1000) }
{
    let units = usize::from(matches.get_one::<u16>("units")?);
    if units == 0 || units > MOST_DRAWN {
        return None;
    }
    Some(units)
}

/// What the matches of `run` ask for.
fn read_run<'a>(run: &ArgMatches<'a>) -> Option<Invocation<'a>>
    ensures { option_map wanted_of result ≡ run_in (rows_of (found_of run.now)) }
{
    let name = run.get_str("SCRIPT")?;
    let count = read_workers(run, 0)?;
    let cache = read_cache(run)?;
    let hex = has_flag(run, "hex");
    let options = Options { name, cache, hex };
    Some(Invocation::Run {
        options,
        workers: several(count),
    })
}

/// What the matches of `audit` ask for.
fn read_audit<'a>(audit: &ArgMatches<'a>) -> Option<Invocation<'a>>
    ensures { option_map wanted_of result ≡ audit_in (rows_of (found_of audit.now)) }
{
    let name = audit.get_str("SCRIPT")?;
    let count = read_workers(audit, 1)?;
    let cache = read_cache(audit)?;
    let hex = false;
    let options = Options { name, cache, hex };
    Some(Invocation::Audit {
        options,
        workers: Workers { count },
    })
}

/// How many workers are asked for, of which there are so many at least.
pub(crate) fn read_workers(matches: &ArgMatches<'_>, least: usize) -> Option<usize>
    ensures number { result ≡ workers_in least (rows_of (found_of matches.now)) }
    ensures range { IfSome result (λ count. (least ≤ count) × (count ≤ most_workers)) }
{
    let count = usize::from(matches.get_one::<u16>("workers")?);
    if count < least || count > MOST_WORKERS {
        return None;
    }
    Some(count)
}

/// For how many pictures room is asked for.
pub(crate) fn read_cache(matches: &ArgMatches<'_>) -> Option<u16>
    ensures number { result ≡ cache_in (rows_of (found_of matches.now)) }
    ensures range { IfSome result (λ capacity. (1 ≤ capacity) × (capacity ≤ most_capacity)) }
{
    let cache = matches.get_one::<u16>("cache")?;
    if cache == 0 || cache > MOST_CAPACITY {
        return None;
    }
    Some(cache)
}

/// So many workers, which are none for 0.
pub(crate) fn several(count: usize) -> Option<Workers>
    requires { count ≤ most_workers }
    ensures { option_map (λ workers. workers.count) result ≡ several count }
{
    if count == 0 {
        return None;
    }
    Some(Workers { count })
}

/// Whether the flag of this name was given.
pub(crate) fn has_flag(matches: &ArgMatches<'_>, name: &str) -> bool
    ensures { result ≡ has_flag name.now (rows_of (found_of matches.now)) }
{
    match matches.get_str(name) {
        Some(text) => text == "true",
        None => false,
    }
}

/// The command `preview`.
fn preview_command<'a>(alloc: Global) -> Result<Command<'a>, AllocError>
    ensures { IfOk result (λ command. app_of command ≡ preview_app) }
{
    Command::new(alloc, "preview")
        .about("Plans H.264 streams for stateless decoders, and keeps their plans under edits")
        .version(VERSION)
        .bin_name("preview")?
        .subcommand_required(true)
        .subcommand(plan_command(alloc)?)?
        .subcommand(mend_command(alloc)?)?
        .subcommand(check_command(alloc)?)?
        .subcommand(draw_command(alloc)?)?
        .subcommand(run_command(alloc)?)?
        .subcommand(audit_command(alloc)?)?
        .subcommand(serve_command(alloc)?)
}

/// The subcommand `draw`.
fn draw_command<'a>(alloc: Global) -> Result<Command<'a>, AllocError>
    ensures { IfOk result (λ command. app_of command ≡ draw_app) }
{
    let file = needed(
        alloc,
        "FILE",
        "An H.264 byte stream; - is the standard input",
    );
    let from = from_option(alloc);
    let units = units_option(alloc);
    let edits = edits_option(alloc);
    Command::new(alloc, "draw")
        .about("Draws a stream as SVG: references, output order, periods and faults")
        .arg(file)?
        .arg(from)?
        .arg(units)?
        .arg(edits)
}

/// The subcommand `run`.
fn run_command<'a>(alloc: Global) -> Result<Command<'a>, AllocError>
    ensures { IfOk result (λ command. app_of command ≡ run_app) }
{
    let script = needed(alloc, "SCRIPT", "A command a line; - is the standard input");
    let few = value_parser!(u16).range(0..=MOST_WORKERS as i64);
    let help =
        "How many threads decode while the script runs, 0 to 64; with 0 it is all one thread";
    let workers = number_option(alloc, "workers", few, "0", help);
    let cache = cache_option(alloc);
    let hex = flag(alloc, "hex", "Shows the hash of each picture that is ready");
    Command::new(alloc, "run")
        .about("Runs a script that edits a stream, and prints what it answers")
        .arg(script)?
        .arg(workers)?
        .arg(cache)?
        .arg(hex)
}

/// The subcommand `audit`.
fn audit_command<'a>(alloc: Global) -> Result<Command<'a>, AllocError>
    ensures { IfOk result (λ command. app_of command ≡ audit_app) }
{
    let script = needed(alloc, "SCRIPT", "A command a line; - is the standard input");
    let few = value_parser!(u16).range(1..=MOST_WORKERS as i64);
    let help = "How many threads decode while the script runs, 1 to 64";
    let workers = number_option(alloc, "workers", few, "2", help);
    let cache = cache_option(alloc);
    Command::new(alloc, "audit")
        .about("Runs a script beside workers, and says whether its book agrees with the journal")
        .arg(script)?
        .arg(workers)?
        .arg(cache)
}

/// `--from`.
fn from_option<'a>(alloc: Global) -> Arg<'a>
    ensures rule { rule_of result ≡ from_rule }
    ensures local { result.global ≡ false }
{
    let ids = value_parser!(u32).range(0..=MOST_ID);
    Arg::new(alloc, "from")
        .long("from")
        .value_name("N")
        .value_parser(ids)
        .help("The id of the first unit that is drawn; without it the stream's first")
}

/// `--edits`.
fn edits_option<'a>(alloc: Global) -> Arg<'a>
    ensures rule { rule_of result ≡ edits_rule }
    ensures local { result.global ≡ false }
{
    Arg::new(alloc, "edits")
        .long("edits")
        .value_name("SCRIPT")
        .help(
            "Draws the stream after this script's edits, and what they changed; - is the standard input",
        )
}

/// `--units`.
fn units_option<'a>(alloc: Global) -> Arg<'a>
    ensures rule { rule_of result ≡ units_rule }
    ensures local { result.global ≡ false }
{
    let few = value_parser!(u16).range(1..=MOST_DRAWN as i64);
    number_option(
        alloc,
        "units",
        few,
        "60",
        "How many units are drawn, 1 to 1000",
    )
}

/// `--cache`.
pub(crate) fn cache_option<'a>(alloc: Global) -> Arg<'a>
    ensures rule { rule_of result ≡ cache_rule }
    ensures local { result.global ≡ false }
{
    let capacity = value_parser!(u16).range(1..=MOST_CAPACITY as i64);
    let help = "For how many pictures that no unit has there is room, 1 to 4096";
    number_option(alloc, "cache", capacity, "64", help)
}

/// An argument that has to be there.
pub(crate) fn needed<'a>(alloc: Global, name: &'a str, help: &'a str) -> Arg<'a>
    ensures rule { rule_of result ≡ needed_rule name.entry.now }
    ensures local { result.global ≡ false }
{
    Arg::new(alloc, name).required(true).help(help)
}

/// A flag `--name`.
pub(crate) fn flag<'a>(alloc: Global, name: &'a str, help: &'a str) -> Arg<'a>
    ensures rule { rule_of result ≡ flag_rule name.entry.now }
    ensures local { result.global ≡ false }
{
    Arg::new(alloc, name)
        .long(name)
        .action(ArgAction::SetTrue)
        .help(help)
}

/// A number by `--name`, which is `usual` where it isn't given.
pub(crate) fn number_option<'a>(
    alloc: Global,
    name: &'a str,
    parser: ValueParser<'a>,
    usual: &'a str,
    help: &'a str,
) -> Arg<'a>
    ensures rule { rule_of result ≡ option_rule name.entry.now parser.entry usual.entry.now }
    ensures local { result.global ≡ false }
{
    Arg::new(alloc, name)
        .long(name)
        .value_name("N")
        .value_parser(parser)
        .default_value(usual)
        .help(help)
}
