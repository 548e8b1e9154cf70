//! The line that says why a line of a script is no command.

ghost use Rattle.std.specs.Prelude.{◌≡◌, Some, option_map};
ghost use Rattle.failure_reasons.specs.Lines.{line_at, line_text, reason_text, wrong_line};
ghost use Rattle.failure_reasons.specs.ScriptReasonsTelling.{MayTell};

use crate::script_reasons::reason::{LineReason, line_reason};
use console_io::{PrintFault, Sink, write_bytes};
use std::alloc::Global;
use std::fmt;
use std::fmt::{Display, Formatter, Write};

/// That the line of this number is no command, and why.
#[derive(Clone, Copy, Debug)]
pub struct WrongLine<'a> {
    pub number: usize,
    pub reason: LineReason<'a>,
}

impl<'a> Display for WrongLine<'a> {
    ghost output = { λ line. Some (line_text line.number (reason_text line.reason)) };

    fn fmt<W: Write>(&self, f: &mut Formatter<W>) -> fmt::Result {
        let (number, reason) = (self.number, self.reason);
        writeln!(f, "line {number}: {reason}")
    }
}

/// Says why the line of this number, from 1, isn't a command of the script of this text.
pub fn say_wrong_line<E: Sink>(
    alloc: Global,
    text: &[u8],
    number: usize,
    errors: &mut E,
) -> Result<(), PrintFault>
    ensures { MayTell result (E.refuses errors.new) (E.contents errors.old) (E.contents errors.new)
        (wrong_line text.now number) }
{
    let line = line_at(text, number).unwrap_or(b"");
    let reason = line_reason(line);
    match (WrongLine { number, reason }).to_string(alloc) {
        Ok(text) => write_bytes(errors, text.as_bytes()),
        Err(_) => write_bytes(errors, b""),
    }
}

/// The line of this number, from 1.
fn line_at<'a>(text: &'a [u8], number: usize) -> Option<&'a [u8]>
    ensures { option_map (λ line. line.now) result ≡ line_at text.now number }
{
    text.split(|byte| *byte == b'\n')
        .nth(number.saturating_sub(1))
}
