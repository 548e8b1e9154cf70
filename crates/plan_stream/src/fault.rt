//! Why a plan isn't printed whole.

ghost use Rattle.std.specs.Prelude.{◌≡◌};
ghost use Rattle.console_io.specs.Messages.{Tells};
ghost use Rattle.plan_stream.specs.Faults.{fault_of_input, fault_of_print, plan_fault_text};
ghost use Rattle.plan_stream.specs.declared.fault.PlanFault.TheVariants.{Memory};

use access_unit::Refusal;
use console_io::{InputFault, PrintFault, Sink, say_out_of_memory, say_unread, write_bytes};
use std::alloc::AllocError;

/// Why a plan isn't printed whole.
#[derive(Clone, Copy, Debug, PartialEq, Eq)]
pub enum PlanFault {
    /// The stream can't be read.
    Unread,
    /// The stream is refused, and the line that says why is printed.
    Refused(Refusal),
    /// A growth was refused.
    Memory,
    /// The writer takes no more.
    Unwritten,
}

impl From<AllocError> for PlanFault {
    ghost from_gives = { λ _ fault. fault ≡ Memory };

    fn from(_error: AllocError) -> PlanFault {
        PlanFault::Memory
    }
}

impl From<InputFault> for PlanFault {
    ghost from_gives = { λ input fault. fault ≡ fault_of_input input };

    fn from(fault: InputFault) -> PlanFault {
        match fault {
            InputFault::Unread => PlanFault::Unread,
            InputFault::Memory => PlanFault::Memory,
        }
    }
}

impl From<PrintFault> for PlanFault {
    ghost from_gives = { λ print fault. fault ≡ fault_of_print print };

    fn from(fault: PrintFault) -> PlanFault {
        match fault {
            PrintFault::Memory => PlanFault::Memory,
            PrintFault::Unwritten => PlanFault::Unwritten,
        }
    }
}

/// Says why the plan of the stream of this name isn't printed whole. A refusal is printed where the
/// plan would be, and a writer that takes no more is known to who reads it.
pub fn say_plan_fault<E: Sink>(
    fault: PlanFault,
    name: &str,
    errors: &mut E,
) -> Result<(), PrintFault>
    ensures { Tells result (E.refuses errors.new) (E.contents errors.old) (E.contents errors.new)
        (plan_fault_text name.now fault) }
{
    match fault {
        PlanFault::Unread => say_unread(name, errors),
        PlanFault::Memory => say_out_of_memory(errors),
        PlanFault::Refused(_) | PlanFault::Unwritten => write_bytes(errors, b""),
    }
}
