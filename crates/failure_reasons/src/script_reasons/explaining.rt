//! Why a script isn't run, by its text.

ghost use Rattle.std.specs.Prelude.{IfSome};
ghost use Rattle.failure_reasons.specs.ScriptReasonsTelling.{Explains, HasFirstWrong};

use crate::script_reasons::wrong_line::say_wrong_line;
use console_io::{PrintFault, Sink, write_bytes};
use edit_script::{ScriptFault, read_edit_script, read_seat_script, read_session_script};
use std::alloc::Global;

/// What a script is for, by which it has its commands.
#[derive(Clone, Copy, Debug, PartialEq, Eq)]
pub enum ScriptKind {
    /// A run without workers.
    Session,
    /// A run beside workers, or an audit.
    Seat,
    /// A drawing, which has edits alone.
    Edits,
}

/// Says why the first wrong line of the script of this text is no command for it. Nothing is said of
/// a script without one, nor where memory runs out.
pub fn explain_script<E: Sink>(
    alloc: Global,
    kind: ScriptKind,
    text: &[u8],
    errors: &mut E,
) -> Result<(), PrintFault>
    ensures { Explains result (E.refuses errors.new) (E.contents errors.old) (E.contents errors.new)
        kind text.now }
{
    match first_wrong(alloc, kind, text) {
        Some(number) => say_wrong_line(alloc, text, number, errors),
        None => write_bytes(errors, b""),
    }
}

/// The number of the first wrong line of the script of this text, if it has one and there is memory.
pub fn first_wrong(alloc: Global, kind: ScriptKind, text: &[u8]) -> Option<usize>
    ensures { IfSome result (HasFirstWrong kind text.now) }
{
    match kind {
        ScriptKind::Session => match read_session_script(alloc, text) {
            Err(ScriptFault::Line(number)) => Some(number),
            _ => None,
        },
        ScriptKind::Seat => match read_seat_script(alloc, text) {
            Err(ScriptFault::Line(number)) => Some(number),
            _ => None,
        },
        ScriptKind::Edits => match read_edit_script(alloc, text) {
            Err(ScriptFault::Line(number)) => Some(number),
            _ => None,
        },
    }
}
