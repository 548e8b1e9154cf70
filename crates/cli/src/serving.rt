//! A server on the standard input.

ghost use Rattle.std.specs.Prelude.{◌≡◌, ◌≢◌, option_map};
ghost use Rattle.std.specs.Io.KnownBytes.{Keeps};
ghost use Rattle.console_io.specs.Messages.{Tells};
ghost use Rattle.cli.specs.CommandLine.{serve};
ghost use Rattle.cli.specs.Programs.{Ends};
ghost use Rattle.serve_run.specs.Ends.{end_text};

use crate::{Serving, Workers};
use console_io::file_saving::Saving;
use console_io::{Console, Directory, Ended, Files, Inputs, Sink, Status};
use failure_reasons::Explain;
use serve_run::{ServeEnd, Service, say_end, say_journal_fault, serve_alone, serve_with_workers};
use session_journal::{Journals, RecordedStep};
use std::alloc::Global;
use std::io::Read;
use std::sync::Wait;
use std::thread::Threads;

/// Serves the messages of the standard input, in one thread or beside so many workers. The
/// directory has the files that are loaded, says why one isn't taken, and has the journal in which
/// edits are recorded, if they are.
pub(crate) fn serve_on<D, I: Read + Drop, W: Sink + Send, E: Sink>(
    threads: &(impl Threads + Wait + Sync),
    alloc: Global,
    serving: Serving<'_>,
    inputs: Inputs<'_, D, I>,
    console: &mut Console<W, E>,
) -> Ended
where
    D: Directory + Explain + Saving + Journals,
    ensures { Ends (D.bytes inputs.entry.directory.now) (I.remaining inputs.entry.standard)
        (serve (option_map (λ workers. workers.count) serving.entry.workers)
        serving.entry.cache (option_map (λ name. name.now) serving.entry.journal)) result
        (W.refuses console.new.output)
        (W.contents console.old.output) (W.contents console.new.output)
        (E.refuses console.new.errors)
        (E.contents console.old.errors) (E.contents console.new.errors) }
{
    let Some(name) = serving.journal else {
        let end = serve_from(threads, alloc, serving, None, inputs, &mut console.output);
        return ended_by(end, &mut console.errors);
    };
    match inputs.directory.open_journal(alloc, name) {
        Ok(opened) => {
            let journal = Some(opened);
            let end = serve_from(
                threads,
                alloc,
                serving,
                journal,
                inputs,
                &mut console.output,
            );
            ended_by(end, &mut console.errors)
        }
        Err(fault) => Ended::failed(say_journal_fault(fault, name, &mut console.errors)),
    }
}

/// Serves the messages of the standard input over this journal, if there is one.
fn serve_from<D: Directory + Explain + Saving + Journals, I: Read + Drop, W: Sink + Send>(
    threads: &(impl Threads + Wait + Sync),
    alloc: Global,
    serving: Serving<'_>,
    journal: Option<(D::Journal, Vec<RecordedStep>)>,
    inputs: Inputs<'_, D, I>,
    output: &mut W,
) -> ServeEnd {
    let service = Service {
        cache: serving.cache,
        journal,
        input: inputs.standard,
        files: Files {
            directory: inputs.directory,
        },
    };
    match serving.workers {
        None => serve_alone(threads, alloc, service, output),
        Some(Workers { count }) => serve_with_workers(threads, alloc, count, service, output),
    }
}

/// How the program ends where a server ends so.
fn ended_by<E: Sink>(end: ServeEnd, errors: &mut E) -> Ended
    ensures right { result.status ≡ Status.Success
        → Keeps (E.contents errors.old) (E.contents errors.new) }
    ensures fails { result.status ≡ Status.Failure
        → Tells result.told (E.refuses errors.new) (E.contents errors.old)
        (E.contents errors.new) (end_text end) }
    ensures usage { result.status ≢ Status.Usage }
{
    match end {
        ServeEnd::Done => Ended::done(),
        _ => Ended::failed(say_end(end, errors)),
    }
}
