//! A text that is mended.

ghost use Rattle.c_calls.specs.Mending.{MendsTo};

use c_calls::LeftOutBytes;
use std::alloc::Global;

/// Writes what stays of the text, and tells what is left out.
#[unsafe(no_mangle)]
pub extern "C" fn cupdaisy_mend(
    alloc: Global,
    text: &[u8],
    bytes: &mut [u8],
    needed: &mut usize,
    left_out: &mut [LeftOutBytes],
    count: &mut usize,
) -> u32
    ensures { MendsTo text.now result bytes.old bytes.new needed.old needed.new left_out.old
        left_out.new count.old count.new }
{
    c_calls::mend(alloc, text, bytes, needed, left_out, count)
}
