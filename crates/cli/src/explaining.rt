//! What standard error says in words behind a failure.

ghost use Rattle.std.specs.Prelude.{◌≡◌, List, ℕ, IfOk, map, option_map};
ghost use Rattle.console_io.specs.Messages.{Tells};
ghost use Rattle.cli.specs.CommandLine.{wanted_of};
ghost use Rattle.cli.specs.Reasons.{kind_beside, AreReasons, MayHaveReasons};

use crate::{Invocation, Workers, parse};
use console_io::{PrintFault, Sink, write_bytes};
use failure_reasons::{Again, ScriptKind, edited_lines, script_lines, stream_lines};
use std::alloc::{AllocError, Global};
use std::convert::AsStr;

/// Says why the files and the script that the words name weren't taken, where they ask for a command
/// that failed. What the directory has is read once more for that; nothing is said where it is taken
/// now, where it can't be read twice, and where there is no memory.
pub fn explain<T: AsStr, D: Again, E: Sink>(
    alloc: Global,
    words: &[T],
    directory: &D,
    errors: &mut E,
) -> Result<(), PrintFault>
    ensures { (lines : List ℕ)
        × MayHaveReasons (D.bytes directory.now) (map T.text words.now) lines
        × Tells result (E.refuses errors.new) (E.contents errors.old) (E.contents errors.new) lines }
{
    let lines = reasons(alloc, words, directory);
    write_bytes(errors, lines.as_slice())
}

/// The lines that say so.
fn reasons<T: AsStr, D: Again>(alloc: Global, words: &[T], directory: &D) -> Vec<u8>
    ensures { MayHaveReasons (D.bytes directory.now) (map T.text words.now) result.items }
{
    match parse(alloc, words) {
        Ok(asked) => match asked_reasons(alloc, asked, directory) {
            Ok(lines) => lines,
            Err(_) => Vec::new(alloc),
        },
        Err(_) => Vec::new(alloc),
    }
}

/// The lines for what is asked for.
fn asked_reasons<D: Again>(
    alloc: Global,
    asked: Invocation<'_>,
    directory: &D,
) -> Result<Vec<u8>, AllocError>
    ensures { IfOk result (λ lines.
        AreReasons (D.bytes directory.now) (wanted_of asked.entry) lines.items) }
{
    match asked {
        Invocation::Plan { file, .. } => stream_lines(alloc, directory, file),
        Invocation::Draw { file, .. } => stream_lines(alloc, directory, file),
        Invocation::DrawEdited { file, script, .. } => edited_lines(alloc, directory, file, script),
        Invocation::Run { options, workers } => {
            script_lines(alloc, kind_beside(workers), directory, options.name)
        }
        Invocation::Audit { options, .. } => {
            script_lines(alloc, ScriptKind::Seat, directory, options.name)
        }
        Invocation::Mend { .. } | Invocation::Check { .. } | Invocation::Serve(_) => Ok(Vec::new(
            alloc,
        )),
    }
}

/// What a script is for that is run beside these workers.
fn kind_beside(workers: Option<Workers>) -> ScriptKind
    ensures { result ≡ kind_beside (option_map (λ workers. workers.count) workers) }
{
    match workers {
        None => ScriptKind::Session,
        Some(_) => ScriptKind::Seat,
    }
}
