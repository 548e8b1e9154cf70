//! The first bytes of an input, by which its kind is known before it is read.

ghost use Rattle.std.specs.Prelude.{◌≡◌, ◌<◌, ◌++◌, ℕ, List, Ok, IfOk, false, length, true};
ghost use Rattle.std.specs.Io.KnownBytes.{Consumes, IsAtEnd};
ghost use Rattle.failure_reasons.specs.Fronts.{IsFront};

use console_io::{InputFault, read_some};
use std::alloc::Global;
use std::io::Read;
use stream_reasons::file_kinds::FIRST_BYTES;

/// How many bytes are read at once.
const CHUNK: usize = 8192;

/// The first bytes of what the reader gives: those that tell its kind, or all. The reader gives the
/// rest then.
pub(crate) fn first_bytes<R: Read>(alloc: Global, reader: &mut R) -> Result<Vec<u8>, InputFault>
    ensures { IfOk result (λ front. IsFront (R.remaining reader.old) (R.remaining reader.new)
        front.items) }
{
    let mut front = Vec::new(alloc);
    while front.len() < FIRST_BYTES {
        if !read_once(reader, &mut front)? {
            return Ok(front);
        }
    }
    Ok(front)
}

/// Reads once and adds what was read; says whether there may be more.
fn read_once<R: Read>(reader: &mut R, front: &mut Vec<u8>) -> Result<bool, InputFault>
    ensures read { IfOk result (λ more. (bytes : List ℕ)
        × (front.new.items ≡ front.old.items ++ bytes)
        × Consumes (R.remaining reader.old) (R.remaining reader.new) bytes) }
    ensures longer { IfOk result (λ more. more ≡ true
        → length front.old.items < length front.new.items) }
    ensures end { result ≡ Ok false → IsAtEnd (R.remaining reader.new) }
{
    let mut chunk = [0; CHUNK];
    let count = read_some(reader, chunk.as_mut_slice())?;
    front.extend_from_slice(&chunk[..count])?;
    Ok(count > 0)
}
