//! `preview check`: a file read, checked, and told of.

ghost use Rattle.std.specs.Prelude.{◌≡◌, ◌≢◌, [], ℕ, List, IfErr, IfSome};
ghost use Rattle.std.specs.Io.KnownBytes.{Keeps};
ghost use Rattle.console_io.specs.Messages.{Tells};
ghost use Rattle.stream_check.specs.CheckResult.{IsFine};
ghost use Rattle.check_report.specs.Ends.{FailsCheck, FailsText};

use crate::json::json_of;
use crate::report::Report;
use bytes::Bytes;
use console_io::{
    Console, Ended, PrintFault, Sink, Status, say_input_fault, say_print_fault, whole_input,
    write_bytes,
};
use std::alloc::Global;
use std::io::Read;
use std::thread::Threads;
use stream_check::{CheckResult, check};

/// How a check is printed.
#[derive(Clone, Copy)]
pub enum Form {
    /// In lines of text.
    Text,
    /// As one object.
    Json,
}

/// Prints what is found of the file that the reader gives, as the console's output; or tells its
/// errors why it isn't checked. It succeeds where there is nothing to complain of. Else there is
/// something, the file wasn't read, memory ran out, or the output takes no more.
pub fn check_on<R: Read, W: Sink, E: Sink>(
    threads: &(impl Threads + Sync),
    alloc: Global,
    form: Form,
    name: &str,
    reader: &mut R,
    console: &mut Console<W, E>,
) -> Ended
    ensures fine { result.status ≡ Status.Success → IfSome (R.remaining reader.old) IsFine }
    ensures quiet { result.status ≡ Status.Success
        → Keeps (E.contents console.old.errors) (E.contents console.new.errors) }
    ensures told { result.status ≡ Status.Failure → (message : List ℕ)
        × Tells result.told (E.refuses console.new.errors) (E.contents console.old.errors)
        (E.contents console.new.errors) message }
    ensures ends { result.status ≡ Status.Failure
        → FailsCheck (R.remaining reader.old) name.now result.told (W.refuses console.new.output)
        (E.refuses console.new.errors) (E.contents console.old.errors)
        (E.contents console.new.errors) }
    ensures usage { result.status ≢ Status.Usage }
{
    match whole_input(alloc, reader) {
        Ok(text) => match Bytes::from_vec(text) {
            Ok(text) => check_text(threads, alloc, form, name, &text, console),
            Err(_) => Ended::failed(say_print_fault(PrintFault::Memory, &mut console.errors)),
        },
        Err(fault) => Ended::failed(say_input_fault(fault, name, &mut console.errors)),
    }
}

/// The same of the text of a file.
fn check_text<W: Sink, E: Sink>(
    threads: &(impl Threads + Sync),
    alloc: Global,
    form: Form,
    name: &str,
    text: &Bytes,
    console: &mut Console<W, E>,
) -> Ended
    ensures fine { result.status ≡ Status.Success → IsFine text.now }
    ensures quiet { result.status ≡ Status.Success
        → Keeps (E.contents console.old.errors) (E.contents console.new.errors) }
    ensures ends { result.status ≡ Status.Failure
        → FailsText text.now result.told (W.refuses console.new.output)
        (E.refuses console.new.errors) (E.contents console.old.errors)
        (E.contents console.new.errors) }
    ensures usage { result.status ≢ Status.Usage }
{
    match check(threads, alloc, text) {
        Ok(found) => match print(alloc, form, name, &found, &mut console.output) {
            Ok(()) if found.is_fine() => Ended::done(),
            Ok(()) => Ended::failed(say_nothing(&mut console.errors)),
            Err(fault) => Ended::failed(say_print_fault(fault, &mut console.errors)),
        },
        Err(_) => Ended::failed(say_print_fault(PrintFault::Memory, &mut console.errors)),
    }
}

/// Says nothing of what was printed.
fn say_nothing<E: Sink>(errors: &mut E) -> Result<(), PrintFault>
    ensures { Tells result (E.refuses errors.new) (E.contents errors.old)
        (E.contents errors.new) [] }
{
    write_bytes(errors, b"")
}

/// Prints what was found of the file of this name.
fn print<W: Sink>(
    alloc: Global,
    form: Form,
    name: &str,
    found: &CheckResult,
    writer: &mut W,
) -> Result<(), PrintFault>
    ensures { IfErr result (λ fault. fault ≡ PrintFault.Unwritten → W.refuses writer.new) }
{
    let text = match form {
        Form::Text => Report { name, found }.to_string(alloc)?,
        Form::Json => json_of(alloc, found)?,
    };
    write_bytes(writer, text.as_bytes())
}
