//! Why files aren't taken as streams, in lines.

ghost use Rattle.std.specs.Prelude.{◌≡◌, ◌⊎◌, [], codes, true, IfOk};
ghost use Rattle.std.specs.Str.{bytes_eq};
ghost use Rattle.failure_reasons.specs.FailureReasonsLines.{IsRefusedLine, IsSaidOf, MayHaveFile};

use crate::explain::Again;
use crate::file_reasons::explain_file;
use crate::noted::Noted;
use crate::unread::unread_file_line;
use std::alloc::{AllocError, Global};
use std::io::{Error, Read};

/// What is said of a file.
#[derive(Drop)]
pub(crate) enum FileLine {
    /// It can be read: a line that says why it isn't taken, or nothing.
    Read(Vec<u8>),
    /// It can't be.
    Unread(Error),
}

/// Why the file of this name isn't taken as a stream, in a line, if it isn't and can be read twice.
/// The standard input can't: for `-` there is no line.
pub fn stream_lines<D: Again>(
    alloc: Global,
    directory: &D,
    name: &str,
) -> Result<Vec<u8>, AllocError>
    ensures line { IfOk result (λ line.
        MayHaveFile (D.bytes directory.now name.now) name.now line.items) }
    ensures standard { bytes_eq name.now (codes "-") ≡ true
        → IfOk result (λ line. line.items ≡ []) }
{
    if name == "-" {
        return Ok(Vec::new(alloc));
    }
    match file_line(alloc, directory, name)? {
        FileLine::Read(line) => Ok(line),
        FileLine::Unread(error) => unread_file_line(alloc, name, &error),
    }
}

/// Why the file of this name isn't taken as a stream, in a line, if it isn't and can be read twice;
/// or why it can't be read.
pub(crate) fn file_line<D: Again>(
    alloc: Global,
    directory: &D,
    name: &str,
) -> Result<FileLine, AllocError>
    ensures { IfOk result (IsSaidOf (D.bytes directory.now name.now) name.now) }
{
    match directory.open_again(name) {
        Ok(Some(file)) => opened_line(alloc, name, file),
        Ok(None) => Ok(FileLine::Read(Vec::new(alloc))),
        Err(error) => Ok(FileLine::Unread(error)),
    }
}

/// The same of a file that was opened.
fn opened_line<R: Read + Drop>(alloc: Global, name: &str, reader: R) -> Result<FileLine, AllocError>
    ensures { IfOk result (IsSaidOf (R.remaining reader) name.now) }
{
    let error = None;
    let mut file = Noted { reader, error };
    let line = reason_line(alloc, name, &mut file)?;
    match file.error {
        Some(error) => Ok(FileLine::Unread(error)),
        None => Ok(FileLine::Read(line)),
    }
}

/// Why the file that the reader gives isn't taken as a stream, in a line, if that is known.
fn reason_line<R: Read>(alloc: Global, name: &str, reader: &mut R) -> Result<Vec<u8>, AllocError>
    ensures { IfOk result (λ line. (line.items ≡ [])
        ⊎ IsRefusedLine (R.remaining reader.old) name.now line.items) }
{
    let mut line = Vec::new(alloc);
    match explain_file(alloc, name, reader, &mut line) {
        Ok(()) => Ok(line),
        Err(_) => Err(AllocError),
    }
}
