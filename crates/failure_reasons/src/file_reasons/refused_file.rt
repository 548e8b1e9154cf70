//! The line that says why a file isn't read as a stream.

ghost use Rattle.std.specs.Prelude.{Some};
ghost use Rattle.failure_reasons.specs.Files.{refused_file};
ghost use Rattle.failure_reasons.specs.Telling.{Explains, MayTell};

use crate::file_reasons::file_reason::{FileReason, find_reason};
use console_io::{PrintFault, Sink, write_bytes};
use std::alloc::Global;
use std::fmt;
use std::fmt::{Display, Formatter, Write};
use std::io::Read;

/// Why the file of this name isn't read as a stream.
#[derive(Clone, Copy, Debug)]
pub struct RefusedFile<'a> {
    pub name: &'a str,
    pub reason: FileReason,
}

impl<'a> Display for RefusedFile<'a> {
    ghost output = { λ file. Some (refused_file file.name.now file.reason) };

    fn fmt<W: Write>(&self, f: &mut Formatter<W>) -> fmt::Result {
        let (name, reason) = (self.name, self.reason);
        writeln!(f, "{name}: {reason}; see: preview check {name}")
    }
}

/// Says why the file of this name, which the reader gives, isn't read as a stream. Nothing is said
/// of a stream that is read, nor where the reader fails or memory runs out.
pub fn explain_file<R: Read, E: Sink>(
    alloc: Global,
    name: &str,
    reader: &mut R,
    errors: &mut E,
) -> Result<(), PrintFault>
    ensures { Explains result (E.refuses errors.new) (E.contents errors.old) (E.contents errors.new)
        name.now (R.remaining reader.old) }
{
    match find_reason(alloc, reader) {
        Ok(Some(reason)) => say_refused_file(alloc, RefusedFile { name, reason }, errors),
        Ok(None) | Err(_) => write_bytes(errors, b""),
    }
}

/// Says why the file of this name isn't read as a stream.
fn say_refused_file<E: Sink>(
    alloc: Global,
    file: RefusedFile<'_>,
    errors: &mut E,
) -> Result<(), PrintFault>
    ensures { MayTell result (E.refuses errors.new) (E.contents errors.old) (E.contents errors.new)
        (refused_file file.entry.name.now file.entry.reason) }
{
    match file.to_string(alloc) {
        Ok(text) => write_bytes(errors, text.as_bytes()),
        Err(_) => write_bytes(errors, b""),
    }
}
