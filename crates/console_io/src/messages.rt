//! What is said on standard error. It takes no memory, and where it can't be written nothing more
//! is said.

ghost use Rattle.std.specs.Prelude.{codes};
ghost use Rattle.console_io.specs.Messages.{Tells, input_fault_text, line_text, not_text, out_of_memory, print_fault_text, unread_text};

use crate::chunks::{PrintFault, write_bytes};
use crate::input::InputFault;
use crate::sink::Sink;

/// Says that memory ran out.
pub fn say_out_of_memory<E: Sink>(errors: &mut E) -> Result<(), PrintFault>
    ensures { Tells result (E.refuses errors.new) (E.contents errors.old) (E.contents errors.new)
        out_of_memory }
{
    write_bytes(errors, b"out of memory\n")
}

/// Says why the input of this name isn't read.
pub fn say_input_fault<E: Sink>(
    fault: InputFault,
    name: &str,
    errors: &mut E,
) -> Result<(), PrintFault>
    ensures { Tells result (E.refuses errors.new) (E.contents errors.old) (E.contents errors.new)
        (input_fault_text name.now fault) }
{
    match fault {
        InputFault::Unread => say_unread(name, errors),
        InputFault::Memory => say_out_of_memory(errors),
    }
}

/// Says why a text isn't printed. A writer that takes no more is known to who reads it.
pub fn say_print_fault<E: Sink>(fault: PrintFault, errors: &mut E) -> Result<(), PrintFault>
    ensures { Tells result (E.refuses errors.new) (E.contents errors.old) (E.contents errors.new)
        (print_fault_text fault) }
{
    match fault {
        PrintFault::Memory => say_out_of_memory(errors),
        PrintFault::Unwritten => write_bytes(errors, b""),
    }
}

/// Says that the input of this name can't be read.
pub fn say_unread<E: Sink>(name: &str, errors: &mut E) -> Result<(), PrintFault>
    ensures { Tells result (E.refuses errors.new) (E.contents errors.old) (E.contents errors.new)
        (unread_text name.now) }
{
    say_line(b"cannot read ", name.as_bytes(), errors)
}

/// Says a line that ends with this word.
pub fn say_line<E: Sink>(front: &[u8], word: &[u8], errors: &mut E) -> Result<(), PrintFault>
    ensures { Tells result (E.refuses errors.new) (E.contents errors.old) (E.contents errors.new)
        (line_text front.now word.now) }
{
    write_bytes(errors, front)?;
    write_bytes(errors, word)?;
    write_bytes(errors, b"\n")
}

/// Says that a word of the command line isn't UTF-8.
pub fn say_not_text<E: Sink>(errors: &mut E) -> Result<(), PrintFault>
    ensures { Tells result (E.refuses errors.new) (E.contents errors.old) (E.contents errors.new)
        not_text }
{
    write_bytes(
        errors,
        b"error: invalid UTF-8 was detected in one or more arguments\n",
    )
}
