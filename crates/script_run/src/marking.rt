//! The mark of a script's stream, and the line of a unit since (docs/OUTPUT.md).

ghost use Rattle.std.specs.Prelude.{◌≡◌, IfOk, Some, string_bytes};
ghost use Rattle.script_run.specs.Marking.{altered_line, altered_word, Marks, SaysAltered};

use edit_script::id_of_number;
use stand_in_session::{Runner, Session};
use std::alloc::{AllocError, Global};
use std::fmt;
use std::fmt::{Display, Formatter, Write};

/// Marks the session's stream as it is, and gives the line that says so.
pub(crate) fn mark(alloc: Global, runner: &mut Runner) -> Result<String, AllocError>
    ensures { IfOk result (λ line. Marks runner.old (string_bytes line) runner.new) }
{
    runner.mark()?;
    String::from_str(alloc, "marked\n")
}

/// The line of whether the unit of this number is altered since the mark.
pub(crate) fn say_altered(
    alloc: Global,
    session: &Session,
    number: u64,
) -> Result<String, AllocError>
    ensures { IfOk result (λ line. SaysAltered session.now number (string_bytes line)) }
{
    AlteredLine(number, session.is_altered(id_of_number(number))).to_string(alloc)
}

/// The line of whether the unit of a number is altered, if it is there.
#[derive(Drop)]
struct AlteredLine(u64, Option<bool>);

impl Display for AlteredLine {
    ghost output = { λ line. Some (altered_line line.0 line.1) };

    fn fmt<W: Write>(&self, f: &mut Formatter<W>) -> fmt::Result {
        let (number, word) = (self.0, altered_word(self.1));
        writeln!(f, "altered {number} {word}")
    }
}

/// Whether a unit is altered, in a word, or that it isn't there.
fn altered_word(altered: Option<bool>) -> &'static str
    ensures { result.now ≡ altered_word altered }
{
    match altered {
        Some(true) => "yes",
        Some(false) => "no",
        None => "none",
    }
}
