//! Why a stream isn't drawn after edits.

ghost use Rattle.std.specs.Prelude.{◌≡◌};
ghost use Rattle.console_io.specs.Messages.{Tells};
ghost use Rattle.draw_run.specs.EditedDrawings.{edits_fault_text, fault_of_script};
ghost use Rattle.draw_run.specs.declared.fault.EditsFault.TheVariants.{Memory};

use access_unit::Refusal;
use console_io::{PrintFault, Sink};
use edit_script::ScriptFault;
use script_run::{RunFault, say_run_fault};
use stand_in_session::TakeRefused;
use std::alloc::AllocError;

/// Why a stream isn't drawn after edits.
#[derive(Clone, Copy, Debug, PartialEq, Eq)]
pub enum EditsFault {
    /// The line of this number, from 1, is the first of the script that is no edit.
    Script(usize),
    /// The stream is refused, and the line that says why is printed.
    Refused(Refusal),
    /// A growth was refused.
    Memory,
    /// The writer takes no more.
    Unwritten,
}

impl From<AllocError> for EditsFault {
    ghost from_gives = { λ _ fault. fault ≡ Memory };

    fn from(_error: AllocError) -> EditsFault {
        EditsFault::Memory
    }
}

// A stream has far fewer units than jobs have numbers, so that memory ran out.
impl From<TakeRefused> for EditsFault {
    ghost from_gives = { λ _ fault. fault ≡ Memory };

    fn from(_refused: TakeRefused) -> EditsFault {
        EditsFault::Memory
    }
}

impl From<ScriptFault> for EditsFault {
    ghost from_gives = { λ script fault. fault ≡ fault_of_script script };

    fn from(fault: ScriptFault) -> EditsFault {
        match fault {
            ScriptFault::Line(number) => EditsFault::Script(number),
            ScriptFault::Memory => EditsFault::Memory,
        }
    }
}

/// Says why a stream isn't drawn after edits. A refusal is printed where the drawing would be, and
/// a writer that takes no more is known to who reads it.
pub(crate) fn say_edits_fault<E: Sink>(fault: EditsFault, errors: &mut E) -> Result<(), PrintFault>
    ensures { Tells result (E.refuses errors.new) (E.contents errors.old) (E.contents errors.new)
        (edits_fault_text fault) }
{
    match fault {
        EditsFault::Script(number) => say_run_fault(RunFault::Script(number), errors),
        EditsFault::Memory => say_run_fault(RunFault::Memory, errors),
        EditsFault::Refused(_) | EditsFault::Unwritten => say_run_fault(
            RunFault::Unwritten,
            errors,
        ),
    }
}
