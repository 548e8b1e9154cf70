//! Why a script isn't run to its end.

ghost use Rattle.std.specs.Prelude.{◌≡◌};
ghost use Rattle.script_run.specs.RunFaults.{fault_of_input, fault_of_print, fault_of_script};
ghost use Rattle.script_run.specs.declared.run_fault.RunFault.TheVariants.{Memory};
ghost use Rattle.console_io.specs.Messages.{Tells};
ghost use Rattle.script_run.specs.Messages.{run_fault_text, script_fault_text};

use console_io::{
    InputFault, PrintFault, Sink, say_line, say_out_of_memory, say_unread, write_bytes,
};
use edit_script::ScriptFault;
use itoa::Buffer;
use std::alloc::{AllocError, AllocFailed};

/// Why a script isn't run to its end.
#[derive(Clone, Copy, Debug)]
pub enum RunFault<'a> {
    /// The input of this name can't be read.
    Unread(&'a str),
    /// The line of this number, from 1, is the first that is no command. Nothing was run.
    Script(usize),
    /// A growth was refused.
    Memory,
    /// The writer takes no more.
    Unwritten,
}

impl<'a> RunFault<'a> {
    /// What it means for the run that the input of this name isn't read.
    pub fn of_input(fault: InputFault, name: &'a str) -> RunFault<'a>
        ensures { result ≡ fault_of_input name.entry fault }
    {
        match fault {
            InputFault::Unread => RunFault::Unread(name),
            InputFault::Memory => RunFault::Memory,
        }
    }
}

impl<'a> From<AllocError> for RunFault<'a> {
    ghost from_gives = { λ _ fault. fault ≡ Memory };

    fn from(_error: AllocError) -> RunFault<'a> {
        RunFault::Memory
    }
}

impl<'a, T: Drop> From<AllocFailed<T>> for RunFault<'a> {
    ghost from_gives = { λ _ fault. fault ≡ Memory };

    fn from(_error: AllocFailed<T>) -> RunFault<'a> {
        RunFault::Memory
    }
}

impl<'a> From<PrintFault> for RunFault<'a> {
    ghost from_gives = { λ print fault. fault ≡ fault_of_print print };

    fn from(fault: PrintFault) -> RunFault<'a> {
        match fault {
            PrintFault::Memory => RunFault::Memory,
            PrintFault::Unwritten => RunFault::Unwritten,
        }
    }
}

impl<'a> From<ScriptFault> for RunFault<'a> {
    ghost from_gives = { λ script fault. fault ≡ fault_of_script script };

    fn from(fault: ScriptFault) -> RunFault<'a> {
        match fault {
            ScriptFault::Line(number) => RunFault::Script(number),
            ScriptFault::Memory => RunFault::Memory,
        }
    }
}

/// Says why a script isn't run to its end. A writer that takes no more is known to who reads it.
pub fn say_run_fault<E: Sink>(fault: RunFault<'_>, errors: &mut E) -> Result<(), PrintFault>
    ensures { Tells result (E.refuses errors.new) (E.contents errors.old) (E.contents errors.new)
        (run_fault_text fault.entry) }
{
    match fault {
        RunFault::Unread(name) => say_unread(name, errors),
        RunFault::Script(number) => say_script_fault(number, errors),
        RunFault::Memory => say_out_of_memory(errors),
        RunFault::Unwritten => write_bytes(errors, b""),
    }
}

/// Says that the line of this number is no command.
fn say_script_fault<E: Sink>(number: usize, errors: &mut E) -> Result<(), PrintFault>
    ensures { Tells result (E.refuses errors.new) (E.contents errors.old) (E.contents errors.new)
        (script_fault_text number) }
{
    let mut digits = Buffer::new();
    say_line(
        b"script fault at line ",
        digits.format(number).as_bytes(),
        errors,
    )
}
