//! What the program does with a command line, on files, a standard input and two outputs.

ghost use Rattle.std.specs.Prelude.{◌≡◌, ◌≢◌, ◌⊎◌, ℕ, List, IfErr, IsOkAnd, MatchResult, false, map, option_map, string_bytes, true};
ghost use Rattle.std.specs.IoError.{error_kind};
ghost use Rattle.std.specs.declared.io.ErrorKind.TheVariants.{OutOfMemory};
ghost use Rattle.std.specs.Io.KnownBytes.{Appends, Keeps};
ghost use Rattle.clap.specs.Words.{kind_of};
ghost use Rattle.console_io.specs.Messages.{Tells, not_text};
ghost use Rattle.cli.specs.CommandLine.{AreMistaken, IsMistake, IsRequest, audit, draw, draw_edited, run as run_of};
ghost use Rattle.cli.specs.Programs.{Ends, Fails, Succeeds, WantsMemory, WritesPart};

use crate::named_texts::{Names, named_texts};
use crate::planning::{check_named, mend_named, plan_as};
use crate::serving::serve_on;
use crate::{Invocation, Workers, parse};
use clap::Error;
use clap::error::ErrorKind;
use console_io::file_saving::Saving;
use console_io::{
    Console, Directory, Ended, Files, Inputs, Sink, Status, say_input_fault, say_not_text,
    say_out_of_memory, write_bytes,
};
use draw_run::{Choice, EditedChoice, draw_edited, draw_on};
use failure_reasons::Explain;
use script_run::shared::{audit_with_workers, script_with_workers};
use script_run::{Options, Script, script_on};
use session_journal::Journals;
use std::alloc::Global;
use std::convert::AsStr;
use std::io;
use std::io::Read;
use std::sync::Wait;
use std::thread::Threads;
use unit_printing::json::Json;

/// Does what the process's words ask for; words that can't be read are a wrong command line.
pub fn run<D: Directory + Explain + Saving + Journals, I: Read + Drop, W: Sink + Send, E: Sink>(
    threads: &(impl Threads + Wait + Sync),
    alloc: Global,
    words: io::Result<Vec<String>>,
    inputs: Inputs<'_, D, I>,
    console: &mut Console<W, E>,
) -> Ended
    // At success what the words ask for was done, and nothing was told but of refused edits.
    ensures right { result.status ≡ Status.Success → IsOkAnd words (λ words.
        Succeeds (D.bytes inputs.entry.directory.now) (I.remaining inputs.entry.standard)
        (map string_bytes words.items) result.told
        (W.contents console.old.output) (W.contents console.new.output)
        (E.refuses console.new.errors)
        (E.contents console.old.errors) (E.contents console.new.errors)) }
    ensures fails { result.status ≡ Status.Failure → MatchResult words (λ words.
        Fails (D.bytes inputs.entry.directory.now) (I.remaining inputs.entry.standard)
        (map string_bytes words.items) result.told
        (W.refuses console.new.output)
        (W.contents console.old.output) (W.contents console.new.output)
        (E.refuses console.new.errors)
        (E.contents console.old.errors) (E.contents console.new.errors))
        (λ error. (error_kind error ≡ OutOfMemory) × WantsMemory result.told
        (W.contents console.old.output) (W.contents console.new.output)
        (E.refuses console.new.errors)
        (E.contents console.old.errors) (E.contents console.new.errors)) }
    ensures usage { result.status ≡ Status.Usage
        → Keeps (W.contents console.old.output) (W.contents console.new.output) }
    ensures wrong { result.status ≡ Status.Usage → MatchResult words
        (λ words. AreMistaken (map string_bytes words.items))
        (λ error. error_kind error ≢ OutOfMemory) }
    ensures told { result.status ≡ Status.Usage → IfErr words (λ _.
        Tells result.told (E.refuses console.new.errors) (E.contents console.old.errors)
        (E.contents console.new.errors) not_text) }
{
    match words {
        Ok(words) => run_on(threads, alloc, words.as_slice(), inputs, console),
        Err(error) if error.kind() == io::ErrorKind::OutOfMemory => {
            Ended::failed(say_out_of_memory(&mut console.errors))
        }
        Err(_) => Ended::mistaken(say_not_text(&mut console.errors)),
    }
}

/// Does what the words ask for, of which the first is the program's name.
pub fn run_on<
    T: AsStr,
    D: Directory + Explain + Saving + Journals,
    I: Read + Drop,
    W: Sink + Send,
    E: Sink,
>(
    threads: &(impl Threads + Wait + Sync),
    alloc: Global,
    words: &[T],
    inputs: Inputs<'_, D, I>,
    console: &mut Console<W, E>,
) -> Ended
    ensures right { result.status ≡ Status.Success
        → Succeeds (D.bytes inputs.entry.directory.now) (I.remaining inputs.entry.standard)
        (map T.text words.now) result.told
        (W.contents console.old.output) (W.contents console.new.output)
        (E.refuses console.new.errors)
        (E.contents console.old.errors) (E.contents console.new.errors) }
    ensures fails { result.status ≡ Status.Failure
        → Fails (D.bytes inputs.entry.directory.now) (I.remaining inputs.entry.standard)
        (map T.text words.now) result.told
        (W.refuses console.new.output)
        (W.contents console.old.output) (W.contents console.new.output)
        (E.refuses console.new.errors)
        (E.contents console.old.errors) (E.contents console.new.errors) }
    ensures usage { result.status ≡ Status.Usage
        → Keeps (W.contents console.old.output) (W.contents console.new.output) }
    ensures wrong { result.status ≡ Status.Usage → AreMistaken (map T.text words.now) }
    ensures told { result.status ≡ Status.Usage → (text : List ℕ)
        × Tells result.told (E.refuses console.new.errors) (E.contents console.old.errors)
        (E.contents console.new.errors) text }
{
    match parse(alloc, words) {
        Ok(Invocation::Plan { file, json }) => plan_as(threads, alloc, file, json, inputs, console),
        Ok(Invocation::Mend { file }) => mend_named(alloc, file, inputs, console),
        Ok(Invocation::Check { file, json }) => check_named(
            threads, alloc, file, json, inputs, console,
        ),
        Ok(Invocation::Draw { file, choice }) => draw_named(alloc, file, choice, inputs, console),
        Ok(
            Invocation::DrawEdited {
                file: stream,
                script,
                choice,
            },
        ) => {
            let names = Names { stream, script };
            draw_edited_named(threads, alloc, names, choice, inputs, console)
        }
        Ok(Invocation::Run { options, workers }) => run_named(
            threads, alloc, options, workers, inputs, console,
        ),
        Ok(Invocation::Audit { options, workers }) => audit_named(
            threads, alloc, options, workers, inputs, console,
        ),
        Ok(Invocation::Serve(serving)) => serve_on(threads, alloc, serving, inputs, console),
        Err(error) => answer(alloc, &error, console),
    }
}

/// Draws the chosen units of the stream that the name stands for.
fn draw_named<D: Directory, I: Read + Drop, W: Sink, E: Sink>(
    alloc: Global,
    name: &str,
    choice: Choice,
    inputs: Inputs<'_, D, I>,
    console: &mut Console<W, E>,
) -> Ended
    ensures { Ends (D.bytes inputs.entry.directory.now) (I.remaining inputs.entry.standard)
        (draw name.now choice.from choice.units) result
        (W.refuses console.new.output)
        (W.contents console.old.output) (W.contents console.new.output)
        (E.refuses console.new.errors)
        (E.contents console.old.errors) (E.contents console.new.errors) }
{
    match inputs.open(name) {
        Ok(mut input) => draw_on(alloc, name, choice, &mut input, console),
        Err(fault) => Ended::failed(say_input_fault(fault, name, &mut console.errors)),
    }
}

/// Draws the chosen units of the stream that the one name stands for, after the edits of the script
/// that the other one does.
fn draw_edited_named<D: Directory, I: Read + Drop, W: Sink, E: Sink>(
    threads: &(impl Threads + Sync),
    alloc: Global,
    names: Names<'_>,
    choice: EditedChoice,
    inputs: Inputs<'_, D, I>,
    console: &mut Console<W, E>,
) -> Ended
    ensures { Ends (D.bytes inputs.entry.directory.now) (I.remaining inputs.entry.standard)
        (draw_edited names.entry.stream.now names.entry.script.now choice.from choice.units)
        result
        (W.refuses console.new.output)
        (W.contents console.old.output) (W.contents console.new.output)
        (E.refuses console.new.errors)
        (E.contents console.old.errors) (E.contents console.new.errors) }
{
    match named_texts(alloc, inputs, names) {
        Ok((text, edits)) => {
            let edits = edits.as_slice();
            draw_edited(threads, alloc, choice, &text, edits, console)
        }
        Err(unread) => Ended::failed(say_input_fault(
            unread.fault,
            unread.name,
            &mut console.errors,
        )),
    }
}

/// Runs the script that the options name, whose files the directory has: in one thread, or beside
/// so many workers.
fn run_named<D: Directory, I: Read + Drop, W: Sink, E: Sink>(
    threads: &(impl Threads + Wait + Sync),
    alloc: Global,
    options: Options<'_>,
    workers: Option<Workers>,
    inputs: Inputs<'_, D, I>,
    console: &mut Console<W, E>,
) -> Ended
    ensures { Ends (D.bytes inputs.entry.directory.now) (I.remaining inputs.entry.standard)
        (run_of options.entry.name.now (option_map (λ workers. workers.count) workers)
        options.entry.cache options.entry.hex) result
        (W.refuses console.new.output)
        (W.contents console.old.output) (W.contents console.new.output)
        (E.refuses console.new.errors)
        (E.contents console.old.errors) (E.contents console.new.errors) }
{
    let files = Files {
        directory: inputs.directory,
    };
    let script = match inputs.open(options.name) {
        Ok(text) => Script { text, files },
        Err(fault) => {
            return Ended::failed(say_input_fault(fault, options.name, &mut console.errors));
        }
    };
    match workers {
        None => script_on(threads, alloc, &Json, options, script, console),
        Some(Workers { count }) => script_with_workers(
            threads, alloc, options, count, script, console,
        ),
    }
}

/// Audits the script that the options name, whose files the directory has, beside so many workers.
fn audit_named<D: Directory, I: Read + Drop, W: Sink, E: Sink>(
    threads: &(impl Threads + Wait + Sync),
    alloc: Global,
    options: Options<'_>,
    workers: Workers,
    inputs: Inputs<'_, D, I>,
    console: &mut Console<W, E>,
) -> Ended
    ensures { Ends (D.bytes inputs.entry.directory.now) (I.remaining inputs.entry.standard)
        (audit options.entry.name.now workers.count options.entry.cache) result
        (W.refuses console.new.output)
        (W.contents console.old.output) (W.contents console.new.output)
        (E.refuses console.new.errors)
        (E.contents console.old.errors) (E.contents console.new.errors) }
{
    let files = Files {
        directory: inputs.directory,
    };
    match inputs.open(options.name) {
        Ok(text) => audit_with_workers(
            threads,
            alloc,
            options,
            workers.count,
            Script { text, files },
            console,
        ),
        Err(fault) => Ended::failed(say_input_fault(fault, options.name, &mut console.errors)),
    }
}

/// Prints clap's answer: help and the version on the output, a mistake on `errors`.
fn answer<W: Sink, E: Sink>(alloc: Global, error: &Error, console: &mut Console<W, E>) -> Ended
    ensures memory { kind_of error.now ≡ ErrorKind.OutOfMemory → result.status ≡ Status.Failure }
    ensures done { result.status ≡ Status.Success → IsRequest (kind_of error.now)
        × Keeps (E.contents console.old.errors) (E.contents console.new.errors)
        × ((text : List ℕ)
        × Appends (W.contents console.old.output) (W.contents console.new.output) text) }
    ensures wrong { result.status ≡ Status.Usage → IsMistake (kind_of error.now)
        × Keeps (W.contents console.old.output) (W.contents console.new.output)
        × ((text : List ℕ)
        × Tells result.told (E.refuses console.new.errors) (E.contents console.old.errors)
        (E.contents console.new.errors) text) }
    ensures fails { result.status ≡ Status.Failure → WantsMemory result.told
        (W.contents console.old.output) (W.contents console.new.output)
        (E.refuses console.new.errors)
        (E.contents console.old.errors) (E.contents console.new.errors)
        ⊎ (IsRequest (kind_of error.now) × WritesPart (W.refuses console.new.output)
        (W.contents console.old.output) (W.contents console.new.output)
        (E.contents console.old.errors) (E.contents console.new.errors)) }
{
    if error.kind() == ErrorKind::OutOfMemory {
        return Ended::failed(say_out_of_memory(&mut console.errors));
    }
    match error.to_string(alloc) {
        Ok(text) if error.use_stderr() => {
            Ended::mistaken(write_bytes(&mut console.errors, text.as_bytes()))
        }
        Ok(text) => match write_bytes(&mut console.output, text.as_bytes()) {
            Ok(()) => Ended::done(),
            Err(_) => Ended::failed(Ok(())),
        },
        Err(_) => Ended::failed(say_out_of_memory(&mut console.errors)),
    }
}
