//! A text that is mended, for which no session is needed.

ghost use Rattle.std.specs.Prelude.{◌≡◌, ◌≤◌, length, map};
ghost use Rattle.c_calls.specs.Grouping.{filled};
ghost use Rattle.c_calls.specs.Mending.{MendsTo, number_of_why, as_left_out_bytes, type_of_why};

use crate::statuses::MEMORY;
use crate::telling::fill;
use std::alloc::Global;
use stream_mending::{LeftOut, Why};

/// The bytes stand before the first start code.
pub const WHY_NOT_NAL_UNIT: u32 = 1;
/// No byte follows the start code.
pub const WHY_EMPTY: u32 = 2;
/// The NAL unit holds a sequence that none may hold.
pub const WHY_FORBIDDEN_BYTES: u32 = 3;
/// forbidden_zero_bit is 1.
pub const WHY_FORBIDDEN_BIT: u32 = 4;
/// The NAL unit is of a type that isn't read.
pub const WHY_UNIT_TYPE: u32 = 5;
/// A sequence parameter set that can't be read.
pub const WHY_UNREAD_SPS: u32 = 6;
/// A picture parameter set that can't be read.
pub const WHY_UNREAD_PPS: u32 = 7;
/// A slice of type SP or SI.
pub const WHY_SWITCHING: u32 = 8;
/// A P or B slice of an IDR picture.
pub const WHY_IDR_NOT_INTRA: u32 = 9;
/// A slice of an IDR picture whose nal_ref_idc is 0.
pub const WHY_IDR_NOT_REFERENCE: u32 = 10;
/// The access unit has more than 4,194,304 bytes or 256 slices.
pub const WHY_TOO_LARGE: u32 = 11;

/// Bytes that are left out of a text: the place of the first, how many they are, and why; of a NAL unit
/// of a type that isn't read that type, else 0.
#[repr(C)]
#[derive(Clone, Copy, Debug, PartialEq, Eq)]
pub struct LeftOutBytes {
    pub byte: u64,
    pub bytes: u64,
    pub why: u32,
    pub unit_type: u32,
}

/// Writes what stays of the text, and tells how many bytes that is. Tells what is left out, as much as
/// there is room for, and how often that is.
pub fn mend(
    alloc: Global,
    text: &[u8],
    bytes: &mut [u8],
    needed: &mut usize,
    left_out: &mut [LeftOutBytes],
    count: &mut usize,
) -> u32
    ensures { MendsTo text.now result bytes.old bytes.new needed.old needed.new left_out.old
        left_out.new count.old count.new }
{
    match stream_mending::mend(alloc, text) {
        Ok(done) => {
            let capacity = done.left_out.len().min(left_out.len());
            fill_left_out(&done.left_out[..capacity], left_out);
            *count = done.left_out.len();
            fill(&done.bytes, bytes, needed)
        }
        Err(_) => MEMORY,
    }
}

/// Writes what is left out at the start of what is there.
fn fill_left_out(from: &[LeftOut], left_out: &mut [LeftOutBytes])
    requires { length from.now ≤ length left_out.old }
    ensures { left_out.new ≡ filled (map as_left_out_bytes from.now) left_out.old }
{
    for index in 0..from.len() {
        left_out[index] = as_left_out_bytes(from[index]);
    }
}

/// What is left out, as it is told.
fn as_left_out_bytes(left_out: LeftOut) -> LeftOutBytes
    ensures { result ≡ as_left_out_bytes left_out }
{
    LeftOutBytes {
        byte: left_out.byte as u64,
        bytes: left_out.bytes as u64,
        why: number_of_why(left_out.why),
        unit_type: type_of_why(left_out.why),
    }
}

/// The number of a reason.
fn number_of_why(why: Why) -> u32
    ensures { result ≡ number_of_why why }
{
    match why {
        Why::NotNalUnit => WHY_NOT_NAL_UNIT,
        Why::Empty => WHY_EMPTY,
        Why::ForbiddenBytes => WHY_FORBIDDEN_BYTES,
        Why::ForbiddenBit => WHY_FORBIDDEN_BIT,
        Why::UnitType(_) => WHY_UNIT_TYPE,
        Why::UnreadSps => WHY_UNREAD_SPS,
        Why::UnreadPps => WHY_UNREAD_PPS,
        Why::Switching => WHY_SWITCHING,
        Why::IdrNotIntra => WHY_IDR_NOT_INTRA,
        Why::IdrNotReference => WHY_IDR_NOT_REFERENCE,
        Why::TooLarge => WHY_TOO_LARGE,
    }
}

/// The type of a NAL unit that is left out for it; else 0.
fn type_of_why(why: Why) -> u32
    ensures { result ≡ type_of_why why }
{
    match why {
        Why::UnitType(unit_type) => u32::from(unit_type),
        _ => 0,
    }
}
