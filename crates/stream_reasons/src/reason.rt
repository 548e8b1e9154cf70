//! Reasons.

ghost use Rattle.std.specs.Prelude.{Some};
ghost use Rattle.stream_reasons.specs.Reasons.{reason_text};

use crate::sentences::{fault_sentence, field_text, refused_sentence, set_sentence};
use access_unit::Refused;
use param_sets::{SetFault, SetField};
use std::fmt;
use std::fmt::{Display, Formatter, Write};
use unit_outcomes::ValidityFault;

/// Why something isn't what it should be. Printed, it is a sentence without its full stop.
#[derive(Clone, Copy, Debug, PartialEq, Eq)]
pub enum Reason {
    /// An access unit is refused.
    Refused(Refused),
    /// There are more access units than there is room for.
    StreamFull,
    /// A field of a parameter set is out of its range.
    Field(SetField),
    /// A parameter set can't be read.
    Set(SetFault),
    /// A unit has no valid picture.
    Fault(ValidityFault),
    /// frame_num of a unit is neither that of the last reference picture nor the next number
    /// (7.4.3).
    FrameNumGap {
        frame_num: u16,
        last: u16,
        next: u16,
    },
}

impl Display for Reason {
    ghost output = { λ reason. Some (reason_text reason) };

    fn fmt<W: Write>(&self, f: &mut Formatter<W>) -> fmt::Result {
        match *self {
            Reason::Refused(refused) => f.write_str(refused_sentence(refused)),
            Reason::StreamFull => f.write_str("there are more than 65,536 access units"),
            Reason::Field(field) => {
                let name = field_text(field);
                write!(f, "{name} is out of its range (7.4.2)")
            }
            Reason::Set(fault) => f.write_str(set_sentence(fault)),
            Reason::Fault(fault) => f.write_str(fault_sentence(fault)),
            Reason::FrameNumGap {
                frame_num,
                last,
                next,
            } => write!(
                f,
                "frame_num is {frame_num} and {last} or {next} was expected: pictures are missing (7.4.3)"
            ),
        }
    }
}
