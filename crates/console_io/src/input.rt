//! What a stream or a script is read from.

ghost use Rattle.std.specs.Prelude.{◌≡◌, ◌<◌, ◌≤◌, IfOk, IfSome, IsErr, OnErr, codes, false, length, take};
ghost use Rattle.std.specs.Io.KnownBytes.{Consumes, IsAtEnd, Keeps};
ghost use Rattle.std.specs.Str.{bytes_eq};
ghost use Rattle.console_io.specs.declared.input.InputFault.TheVariants.{Memory};
ghost use Rattle.console_io.specs.Inputs.{input_fault, is_standard, remaining_of, text_named};

use std::alloc::{AllocError, Global};
use std::io;
use std::io::{ErrorKind, Read};

/// What a name stands for: a standard input or a file of these types.
#[derive(Drop)]
pub enum NamedInput<S, F> {
    StandardInput(S),
    File(F),
}

impl<S: Read, F: Read> Read for NamedInput<S, F> {
    ghost remaining = { remaining_of S.remaining F.remaining };

    fn read(&mut self, buf: &mut [u8]) -> io::Result<usize> {
        match self {
            NamedInput::StandardInput(stdin) => stdin.read(buf),
            NamedInput::File(file) => file.read(buf),
        }
    }
}

/// Why an input isn't read.
#[derive(Clone, Copy, Debug, PartialEq, Eq)]
pub enum InputFault {
    /// It can't be read.
    Unread,
    /// A growth was refused.
    Memory,
}

impl From<ErrorKind> for InputFault {
    ghost from_gives = { λ kind fault. fault ≡ input_fault kind };

    fn from(kind: ErrorKind) -> InputFault {
        match kind {
            ErrorKind::OutOfMemory => InputFault::Memory,
            _ => InputFault::Unread,
        }
    }
}

impl From<AllocError> for InputFault {
    ghost from_gives = { λ _ fault. fault ≡ Memory };

    fn from(_error: AllocError) -> InputFault {
        InputFault::Memory
    }
}

/// All bytes that the reader gives.
pub fn whole_input<R: Read>(alloc: Global, reader: &mut R) -> Result<Vec<u8>, InputFault>
    ensures { IfOk result (λ text. IfSome (R.remaining reader.old) (λ bytes. text.items ≡ bytes)) }
{
    let mut text = Vec::new(alloc);
    match reader.read_to_end(&mut text) {
        Ok(_) => Ok(text),
        Err(error) => Err(InputFault::from(error.kind())),
    }
}

/// Reads once, and says how many bytes came: none at the end alone, where there is room for any. An
/// interrupted read is made again; one that is interrupted 2^64 - 1 times is `Unread`.
pub fn read_some<R: Read>(reader: &mut R, buffer: &mut [u8]) -> Result<usize, InputFault>
    ensures within { IfOk result (λ count. count ≤ length buffer.new) }
    ensures len { length buffer.new ≡ length buffer.old }
    ensures some { IfOk result (λ count.
        Consumes (R.remaining reader.old) (R.remaining reader.new) (take count buffer.new)) }
    ensures end { 0 < length buffer.old
        → IfOk result (λ count. count ≡ 0 → IsAtEnd (R.remaining reader.new)) }
    ensures err { OnErr result (Keeps (R.remaining reader.old) (R.remaining reader.new)) }
{
    'tries: for turn in 0..u64::MAX {
        match reader.read(buffer) {
            Ok(count) => return Ok(count),
            Err(error) => {
                if error.kind() != ErrorKind::Interrupted {
                    return Err(InputFault::from(error.kind()));
                }
            }
        }
    }
    Err(InputFault::Unread)
}
