//! `preview plan --json`: a stream read, planned and printed.

ghost use Rattle.std.specs.Prelude.{◌≡◌, ◌≢◌, [], IfSome};
ghost use Rattle.std.specs.Io.KnownBytes.{Keeps};
ghost use Rattle.console_io.specs.Messages.{Tells};
ghost use Rattle.unit_printing.specs.Ends.{FailsJson, FailsText, WritesJsonFor};

use crate::json::printing::{print_line, print_stream};
use crate::json::{Encoder, JsonForm, JsonLine};
use access_unit::{MOST_UNITS, ReadFault, read_units};
use bytes::Bytes;
use console_io::{
    Console, Ended, PrintFault, Sink, Status, say_input_fault, say_print_fault, whole_input,
    write_bytes,
};
use std::alloc::Global;
use std::io::Read;
use std::thread::Threads;

/// Prints the units of the stream that the reader gives, a line each in this form, or the line of its
/// refusal, as the console's output. Where the reader fails or memory runs out, its errors are told;
/// the reader has this name there.
pub fn plan_json_for<J: Encoder, R: Read, W: Sink, E: Sink>(
    threads: &(impl Threads + Sync),
    alloc: Global,
    form: JsonForm<'_, J>,
    name: &str,
    reader: &mut R,
    console: &mut Console<W, E>,
) -> Ended
    ensures done { result.status ≡ Status.Success
        → Keeps (E.contents console.old.errors) (E.contents console.new.errors) }
    // What is written at success says the plain fold of the stream that was read.
    ensures planned { result.status ≡ Status.Success → IfSome (R.remaining reader.old) (λ text.
        WritesJsonFor J.says form.entry.mode text (W.contents console.old.output)
        (W.contents console.new.output)) }
    ensures ends { result.status ≡ Status.Failure
        → FailsJson J.says (R.remaining reader.old) name.now result.told
        (W.refuses console.new.output) (W.contents console.old.output)
        (W.contents console.new.output) (E.refuses console.new.errors)
        (E.contents console.old.errors) (E.contents console.new.errors) }
    ensures usage { result.status ≢ Status.Usage }
{
    match whole_input(alloc, reader) {
        Ok(text) => plan_text(threads, alloc, form, text, console),
        Err(fault) => Ended::failed(say_input_fault(fault, name, &mut console.errors)),
    }
}

/// Prints the units of the stream of this text, or the line of its refusal.
fn plan_text<J: Encoder, W: Sink, E: Sink>(
    threads: &(impl Threads + Sync),
    alloc: Global,
    form: JsonForm<'_, J>,
    text: Vec<u8>,
    console: &mut Console<W, E>,
) -> Ended
    ensures done { result.status ≡ Status.Success
        → Keeps (E.contents console.old.errors) (E.contents console.new.errors) }
    ensures planned { result.status ≡ Status.Success
        → WritesJsonFor J.says form.entry.mode text.items (W.contents console.old.output)
        (W.contents console.new.output) }
    ensures ends { result.status ≡ Status.Failure
        → FailsText J.says text.items result.told (W.refuses console.new.output)
        (W.contents console.old.output) (W.contents console.new.output)
        (E.refuses console.new.errors) (E.contents console.old.errors)
        (E.contents console.new.errors) }
    ensures usage { result.status ≢ Status.Usage }
{
    match Bytes::from_vec(text) {
        Ok(text) => plan_shared(threads, alloc, form, &text, console),
        Err(_) => Ended::failed(say_print_fault(PrintFault::Memory, &mut console.errors)),
    }
}

/// The same of a text that the units share.
fn plan_shared<J: Encoder, W: Sink, E: Sink>(
    threads: &(impl Threads + Sync),
    alloc: Global,
    form: JsonForm<'_, J>,
    text: &Bytes,
    console: &mut Console<W, E>,
) -> Ended
    ensures done { result.status ≡ Status.Success
        → Keeps (E.contents console.old.errors) (E.contents console.new.errors) }
    ensures planned { result.status ≡ Status.Success
        → WritesJsonFor J.says form.entry.mode text.now (W.contents console.old.output)
        (W.contents console.new.output) }
    ensures ends { result.status ≡ Status.Failure
        → FailsText J.says text.now result.told (W.refuses console.new.output)
        (W.contents console.old.output) (W.contents console.new.output)
        (E.refuses console.new.errors) (E.contents console.old.errors)
        (E.contents console.new.errors) }
    ensures usage { result.status ≢ Status.Usage }
{
    match read_units(threads, alloc, text, MOST_UNITS) {
        Ok(units) => match print_stream(alloc, form, &units, &mut console.output) {
            Ok(()) => Ended::done(),
            Err(fault) => Ended::failed(say_print_fault(fault, &mut console.errors)),
        },
        Err(ReadFault::Refused(refusal)) => {
            let line = JsonLine::of_refusal(refusal);
            match print_line(alloc, form.encoder, &line, &mut console.output) {
                Ok(()) => Ended::failed(say_nothing(&mut console.errors)),
                Err(fault) => Ended::failed(say_print_fault(fault, &mut console.errors)),
            }
        }
        Err(ReadFault::Memory) => Ended::failed(say_print_fault(
            PrintFault::Memory,
            &mut console.errors,
        )),
    }
}

/// Says nothing of a stream that is refused, as its refusal is printed.
fn say_nothing<E: Sink>(errors: &mut E) -> Result<(), PrintFault>
    ensures { Tells result (E.refuses errors.new) (E.contents errors.old)
        (E.contents errors.new) [] }
{
    write_bytes(errors, b"")
}
