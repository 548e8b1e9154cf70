//! How a call tells what it was asked.

ghost use Rattle.c_calls.specs.Telling.{Tells};
ghost use Rattle.c_calls.specs.Filling.{Fills};

use crate::statuses::{DONE, TOO_SMALL};

/// Writes what is told; or answers the status that says why there is nothing, and leaves what was
/// there.
pub(crate) fn tell<T: Copy>(answer: Result<T, u32>, out: &mut T) -> u32
    ensures { Tells answer result out.old out.new }
{
    match answer {
        Ok(value) => {
            *out = value;
            DONE
        }
        Err(why) => why,
    }
}

/// Writes the bytes at the start of the buffer, and tells how many there are; where the buffer has
/// too little room, that alone is told.
pub(crate) fn fill(bytes: &[u8], buffer: &mut [u8], needed: &mut usize) -> u32
    ensures { Fills bytes.now result buffer.old buffer.new needed.new }
{
    *needed = bytes.len();
    if bytes.len() > buffer.len() {
        return TOO_SMALL;
    }
    buffer[..bytes.len()].copy_from_slice(bytes);
    DONE
}
