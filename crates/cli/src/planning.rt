//! Plans of a stream, streams that are mended, and checks.

ghost use Rattle.std.specs.Prelude.{None, Some};
ghost use Rattle.cli.specs.CommandLine.{check, mend, plan};
ghost use Rattle.cli.specs.Programs.{Ends};

use check_report::{Form, check_on};
use console_io::{Console, Directory, Ended, Inputs, Sink, say_input_fault};
use mend_run::mend_on;
use plan_stream::plan_on;
use std::alloc::Global;
use std::io::Read;
use std::thread::Threads;
use unit_printing::json::{DecodeMode, Json, JsonForm, plan_json_for};

/// Prints the plan of the stream that the name stands for, as JSON or in lines of text.
pub(crate) fn plan_as<D: Directory, I: Read + Drop, W: Sink, E: Sink>(
    threads: &(impl Threads + Sync),
    alloc: Global,
    name: &str,
    json: Option<DecodeMode>,
    inputs: Inputs<'_, D, I>,
    console: &mut Console<W, E>,
) -> Ended
    ensures { Ends (D.bytes inputs.entry.directory.now) (I.remaining inputs.entry.standard)
        (plan name.now json) result
        (W.refuses console.new.output)
        (W.contents console.old.output) (W.contents console.new.output)
        (E.refuses console.new.errors)
        (E.contents console.old.errors) (E.contents console.new.errors) }
{
    match json {
        Some(mode) => plan_json_named(threads, alloc, name, mode, inputs, console),
        None => plan_named(alloc, name, inputs, console),
    }
}

/// Prints the plan of the stream that the name stands for, as JSON.
fn plan_json_named<D: Directory, I: Read + Drop, W: Sink, E: Sink>(
    threads: &(impl Threads + Sync),
    alloc: Global,
    name: &str,
    mode: DecodeMode,
    inputs: Inputs<'_, D, I>,
    console: &mut Console<W, E>,
) -> Ended
    ensures { Ends (D.bytes inputs.entry.directory.now) (I.remaining inputs.entry.standard)
        (plan name.now (Some mode)) result
        (W.refuses console.new.output)
        (W.contents console.old.output) (W.contents console.new.output)
        (E.refuses console.new.errors)
        (E.contents console.old.errors) (E.contents console.new.errors) }
{
    let form = JsonForm {
        encoder: &Json,
        mode,
    };
    match inputs.open(name) {
        Ok(mut input) => plan_json_for(threads, alloc, form, name, &mut input, console),
        Err(fault) => Ended::failed(say_input_fault(fault, name, &mut console.errors)),
    }
}

/// Prints the plan of the stream that the name stands for, in lines of text.
fn plan_named<D: Directory, I: Read + Drop, W: Sink, E: Sink>(
    alloc: Global,
    name: &str,
    inputs: Inputs<'_, D, I>,
    console: &mut Console<W, E>,
) -> Ended
    ensures { Ends (D.bytes inputs.entry.directory.now) (I.remaining inputs.entry.standard)
        (plan name.now None) result
        (W.refuses console.new.output)
        (W.contents console.old.output) (W.contents console.new.output)
        (E.refuses console.new.errors)
        (E.contents console.old.errors) (E.contents console.new.errors) }
{
    match inputs.open(name) {
        Ok(mut input) => plan_on(alloc, name, &mut input, console),
        Err(fault) => Ended::failed(say_input_fault(fault, name, &mut console.errors)),
    }
}

/// Writes the stream that the name stands for, mended.
pub(crate) fn mend_named<D: Directory, I: Read + Drop, W: Sink, E: Sink>(
    alloc: Global,
    name: &str,
    inputs: Inputs<'_, D, I>,
    console: &mut Console<W, E>,
) -> Ended
    ensures { Ends (D.bytes inputs.entry.directory.now) (I.remaining inputs.entry.standard)
        (mend name.now) result
        (W.refuses console.new.output)
        (W.contents console.old.output) (W.contents console.new.output)
        (E.refuses console.new.errors)
        (E.contents console.old.errors) (E.contents console.new.errors) }
{
    match inputs.open(name) {
        Ok(mut input) => mend_on(alloc, name, &mut input, console),
        Err(fault) => Ended::failed(say_input_fault(fault, name, &mut console.errors)),
    }
}

/// Says what is the matter with the file that the name stands for, as JSON or in lines of text.
pub(crate) fn check_named<D: Directory, I: Read + Drop, W: Sink, E: Sink>(
    threads: &(impl Threads + Sync),
    alloc: Global,
    name: &str,
    json: bool,
    inputs: Inputs<'_, D, I>,
    console: &mut Console<W, E>,
) -> Ended
    ensures { Ends (D.bytes inputs.entry.directory.now) (I.remaining inputs.entry.standard)
        (check name.now json) result
        (W.refuses console.new.output)
        (W.contents console.old.output) (W.contents console.new.output)
        (E.refuses console.new.errors)
        (E.contents console.old.errors) (E.contents console.new.errors) }
{
    let form = if json { Form::Json } else { Form::Text };
    match inputs.open(name) {
        Ok(mut input) => check_on(threads, alloc, form, name, &mut input, console),
        Err(fault) => Ended::failed(say_input_fault(fault, name, &mut console.errors)),
    }
}
