//! `plan`, `mend` and `check`.

ghost use Rattle.std.specs.Prelude.{◌≡◌, IfOk, codes, false, option_map};
ghost use Rattle.clap.specs.Words.{app_of, found_of, rows_of, rule_of};
ghost use Rattle.cli.specs.CommandLine.{check_app, check_in, form_in, mend_app, mend_in, needed_rule, plan_app, plan_in, wanted_of};

use crate::invocation::Invocation;
use crate::parsing::{flag, has_flag, needed};
use clap::{Arg, ArgMatches, Command};
use std::alloc::{AllocError, Global};
use unit_printing::json::DecodeMode;

/// What the matches of `plan` ask for.
pub(crate) fn read_plan<'a>(plan: &ArgMatches<'a>) -> Option<Invocation<'a>>
    ensures { option_map wanted_of result ≡ plan_in (rows_of (found_of plan.now)) }
{
    let file = plan.get_str("FILE")?;
    let json = read_form(plan)?;
    Some(Invocation::Plan { file, json })
}

/// How a plan is printed: as JSON for a decoder of a mode, or in lines of text.
fn read_form(plan: &ArgMatches<'_>) -> Option<Option<DecodeMode>>
    ensures { result ≡ form_in (rows_of (found_of plan.now)) }
{
    match (has_flag(plan, "json"), has_flag(plan, "frames")) {
        (false, false) => Some(None),
        (true, false) => Some(Some(DecodeMode::SliceBased)),
        (true, true) => Some(Some(DecodeMode::FrameBased)),
        (false, true) => None,
    }
}

/// What the matches of `mend` ask for.
pub(crate) fn read_mend<'a>(mend: &ArgMatches<'a>) -> Option<Invocation<'a>>
    ensures { option_map wanted_of result ≡ mend_in (rows_of (found_of mend.now)) }
{
    let file = mend.get_str("FILE")?;
    Some(Invocation::Mend { file })
}

/// What the matches of `check` ask for.
pub(crate) fn read_check<'a>(check: &ArgMatches<'a>) -> Option<Invocation<'a>>
    ensures { option_map wanted_of result ≡ check_in (rows_of (found_of check.now)) }
{
    let file = check.get_str("FILE")?;
    let json = has_flag(check, "json");
    Some(Invocation::Check { file, json })
}

/// The subcommand `plan`.
pub(crate) fn plan_command<'a>(alloc: Global) -> Result<Command<'a>, AllocError>
    ensures { IfOk result (λ command. app_of command ≡ plan_app) }
{
    let file = stream(alloc);
    let json = flag(
        alloc,
        "json",
        "Prints a JSON object a unit, with all controls",
    );
    let frames = flag(
        alloc,
        "frames",
        "With --json: one request a picture, for decoders that take whole pictures",
    );
    Command::new(alloc, "plan")
        .about("Prints what a stateless decoder is asked for, unit by unit")
        .arg(file)?
        .arg(json)?
        .arg(frames)
}

/// The subcommand `mend`.
pub(crate) fn mend_command<'a>(alloc: Global) -> Result<Command<'a>, AllocError>
    ensures { IfOk result (λ command. app_of command ≡ mend_app) }
{
    let file = stream(alloc);
    Command::new(alloc, "mend")
        .about("Writes a stream without what no command reads, and tells what was left out")
        .arg(file)
}

/// The subcommand `check`.
pub(crate) fn check_command<'a>(alloc: Global) -> Result<Command<'a>, AllocError>
    ensures { IfOk result (λ command. app_of command ≡ check_app) }
{
    let file = needed(alloc, "FILE", "A file of any kind; - is the standard input");
    let json = flag(alloc, "json", "Prints one JSON object");
    Command::new(alloc, "check")
        .about("Says what a file is, what its stream has, and what is the matter with it")
        .arg(file)?
        .arg(json)
}

/// `FILE`.
fn stream<'a>(alloc: Global) -> Arg<'a>
    ensures rule { rule_of result ≡ needed_rule (codes "FILE") }
    ensures local { result.global ≡ false }
{
    needed(
        alloc,
        "FILE",
        "An H.264 byte stream; - is the standard input",
    )
}
