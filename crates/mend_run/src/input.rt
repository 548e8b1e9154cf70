//! What is read of a stream, by chunks.

ghost use Rattle.std.specs.Prelude.{◌≡◌, ◌+◌, ◌<◌, ◌^◌, ℕ, List, false, true, length, IfOk};
ghost use Rattle.std.specs.Io.KnownBytes.{IsAtEnd};
ghost use Rattle.mend_run.specs.Runs.{AreLeft};

use console_io::{InputFault, read_some};
use std::alloc::{AllocError, Global};
use std::io::Read;

/// How many bytes are read at once at most, and as how many more at least.
const SIZE: usize = 256 * 1024;

/// What reads a stream.
#[derive(Drop)]
pub(crate) struct MendInput {
    chunk: Vec<u8>,
    /// How many bytes were read.
    count: u64,
    ghost room: { 0 < length chunk.items },
}

impl MendInput {
    /// Before the first byte.
    pub(crate) fn new(alloc: Global) -> Result<MendInput, AllocError> {
        Ok(MendInput {
            chunk: vec![in alloc; 0; SIZE]?,
            count: 0,
        })
    }

    /// Reads as many bytes more as are held, and `SIZE` at least, so that what is held is looked
    /// through twice at most. Whether there may be more.
    pub(crate) fn read_more<R: Read>(
        &mut self,
        reader: &mut R,
        held: &mut Vec<u8>,
    ) -> Result<bool, InputFault>
        ensures left { (left : List ℕ) → AreLeft held.old.items (R.remaining reader.old) left
            → IfOk result (λ _. AreLeft held.new.items (R.remaining reader.new) left) }
        ensures end { IfOk result (λ is_more. is_more ≡ false
            → IsAtEnd (R.remaining reader.new)) }
        ensures count { IfOk result (λ is_more. is_more ≡ true
            → (self.old.count < self.new.count) × (self.new.count < 2 ^ 64)) }
    {
        let due = held.len().max(SIZE);
        let mut more = 0;
        while more < due {
            let count = read_some(reader, &mut self.chunk)?;
            if count == 0 {
                return Ok(false);
            }
            held.extend_from_slice(&self.chunk[..count])?;
            more = more.saturating_add(count);
        }
        self.count = sum(self.count, more as u64)?;
        Ok(true)
    }
}

/// The sum. No stream has 2^64 bytes: its places couldn't be told.
fn sum(first: u64, second: u64) -> Result<u64, AllocError>
    ensures { IfOk result (λ sum. sum ≡ first + second) }
{
    first.checked_add(second).ok_or(AllocError)
}
