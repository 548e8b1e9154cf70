//! What is left out of a stream, and why (docs/OUTPUT.md).

ghost use Rattle.std.specs.Prelude.{Some};
ghost use Rattle.stream_mending.specs.Told.{left_out_text, why_text};

use std::fmt;
use std::fmt::{Display, Formatter, Write};

/// Why bytes are left out.
#[derive(Clone, Copy, Debug, PartialEq, Eq)]
pub enum Why {
    /// They stand before the first start code.
    NotNalUnit,
    /// No byte follows the start code.
    Empty,
    /// The NAL unit holds a sequence that none may hold (7.4.1).
    ForbiddenBytes,
    /// forbidden_zero_bit is 1, which marks the NAL unit as damaged.
    ForbiddenBit,
    /// The NAL unit is of a type that isn't read, from 0 to 31 (table 7-1).
    UnitType(u8),
    /// A sequence parameter set that can't be read.
    UnreadSps,
    /// A picture parameter set that can't be read.
    UnreadPps,
    /// A slice of type SP or SI.
    Switching,
    /// A P or B slice of nal_unit_type 5.
    IdrNotIntra,
    /// A slice of nal_unit_type 5 whose nal_ref_idc is 0.
    IdrNotReference,
    /// The access unit has more than 4,194,304 bytes or 256 slices.
    TooLarge,
}

/// Bytes that are left out of a stream.
#[derive(Clone, Copy, Debug, PartialEq, Eq)]
pub struct LeftOut {
    /// The place of the first, from 0.
    pub byte: usize,
    /// How many they are. Of an access unit they are those of its NAL units, with their start
    /// codes of three bytes.
    pub bytes: usize,
    pub why: Why,
}

impl Display for Why {
    ghost output = { λ why. Some (why_text why) };

    fn fmt<W: Write>(&self, f: &mut Formatter<W>) -> fmt::Result {
        match self {
            Why::NotNalUnit => write!(f, "not a NAL unit"),
            Why::Empty => write!(f, "empty"),
            Why::ForbiddenBytes => write!(f, "forbidden bytes"),
            Why::ForbiddenBit => write!(f, "forbidden bit"),
            Why::UnitType(number) => write!(f, "type {number}"),
            Why::UnreadSps => write!(f, "unread SPS"),
            Why::UnreadPps => write!(f, "unread PPS"),
            Why::Switching => write!(f, "switching"),
            Why::IdrNotIntra => write!(f, "IDR slice that isn't intra"),
            Why::IdrNotReference => write!(f, "IDR slice that isn't a reference"),
            Why::TooLarge => write!(f, "too large"),
        }
    }
}

impl Display for LeftOut {
    ghost output = { λ left_out. Some (left_out_text left_out) };

    fn fmt<W: Write>(&self, f: &mut Formatter<W>) -> fmt::Result {
        let (byte, bytes, why) = (self.byte, self.bytes, self.why);
        write!(f, "byte {byte}: left out {bytes} bytes: {why}")
    }
}
