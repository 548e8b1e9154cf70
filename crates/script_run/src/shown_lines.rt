//! The lines of what is shown of a unit (docs/OUTPUT.md).

ghost use Rattle.std.specs.Prelude.{◌≡◌, IfOk, Some, string_bytes};
ghost use Rattle.hex.specs.Hex.{encode_lower};
ghost use Rattle.script_run.specs.ShownLines.{digits_line, fault_line, shown_line, word_line};

use stand_in_session::{Picture, Shown};
use std::alloc::{AllocError, Global};
use std::fmt;
use std::fmt::{Display, Formatter, Write};
use unit_outcomes::ValidityFault;

/// The line of what is shown of the unit of this number, a picture with its digits where `hex` asks
/// for them.
pub fn shown_line(alloc: Global, number: u64, shown: Shown, hex: bool) -> Result<String, AllocError>
    ensures { IfOk result (λ line. string_bytes line ≡ shown_line hex number shown) }
{
    match shown {
        Shown::Ready(picture) if hex => picture_line(alloc, number, picture),
        Shown::Ready(_) => WordLine(number, "ready").to_string(alloc),
        Shown::Pending => WordLine(number, "pending").to_string(alloc),
        Shown::Fault(fault) => FaultLine(number, fault).to_string(alloc),
        Shown::Empty => WordLine(number, "empty").to_string(alloc),
        Shown::NoSuchUnit => WordLine(number, "none").to_string(alloc),
    }
}

/// The line of a picture with its digits.
fn picture_line(alloc: Global, number: u64, picture: Picture) -> Result<String, AllocError>
    ensures { IfOk result (λ line. string_bytes line ≡ digits_line number
        (encode_lower picture.digest)) }
{
    let digits = hex::encode(alloc, picture.digest.as_slice())?;
    PictureLine(number, digits.as_str()).to_string(alloc)
}

/// The line of a unit of which a word is shown.
#[derive(Drop)]
struct WordLine(u64, &'static str);

impl Display for WordLine {
    ghost output = { λ line. Some (word_line line.0 line.1.now) };

    fn fmt<W: Write>(&self, f: &mut Formatter<W>) -> fmt::Result {
        let (number, word) = (self.0, self.1);
        writeln!(f, "show {number} {word}")
    }
}

/// The line of a unit whose picture is shown by its digits.
#[derive(Drop)]
struct PictureLine<'a>(u64, &'a str);

impl<'a> Display for PictureLine<'a> {
    ghost output = { λ line. Some (digits_line line.0 line.1.now) };

    fn fmt<W: Write>(&self, f: &mut Formatter<W>) -> fmt::Result {
        let (number, digits) = (self.0, self.1);
        writeln!(f, "show {number} ready {digits}")
    }
}

/// The line of a unit whose fault is shown.
#[derive(Drop)]
struct FaultLine(u64, ValidityFault);

impl Display for FaultLine {
    ghost output = { λ line. Some (fault_line line.0 line.1) };

    fn fmt<W: Write>(&self, f: &mut Formatter<W>) -> fmt::Result {
        let (number, fault, name) = (self.0, self.1.number(), self.1.name());
        writeln!(f, "show {number} fault {fault} {name}")
    }
}
