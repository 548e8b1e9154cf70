//! How a server ends.

ghost use Rattle.std.specs.Prelude.{◌≡◌};
ghost use Rattle.console_io.specs.Messages.{Tells};
ghost use Rattle.serve_run.specs.Ends.{end_text, fault_front, journal_fault_text};

use console_io::{PrintFault, Sink, say_line, say_out_of_memory, say_unread, write_bytes};
use session_journal::JournalFault;

/// How a server ends.
#[derive(Clone, Copy, Debug, PartialEq, Eq)]
pub enum ServeEnd {
    /// At the end of its input, or after `shutdown`.
    Done,
    /// Its input can't be read.
    Unread,
    /// Its output can't be written.
    Unwritten,
    /// There is no memory to begin with or to answer with, or a thread can't be started.
    Memory,
    /// The stream refuses what its journal has.
    Unreplayed,
}

/// Says why a server ended. A writer that takes no more is known to who reads it.
pub fn say_end<E: Sink>(end: ServeEnd, errors: &mut E) -> Result<(), PrintFault>
    ensures { Tells result (E.refuses errors.new) (E.contents errors.old) (E.contents errors.new)
        (end_text end) }
{
    match end {
        ServeEnd::Unread => say_unread("-", errors),
        ServeEnd::Memory => say_out_of_memory(errors),
        ServeEnd::Unreplayed => {
            say_line(b"the stream refuses a record of the ", b"journal", errors)
        }
        ServeEnd::Done | ServeEnd::Unwritten => write_bytes(errors, b""),
    }
}

/// Says why the journal of this name isn't opened.
pub fn say_journal_fault<E: Sink>(
    fault: JournalFault,
    name: &str,
    errors: &mut E,
) -> Result<(), PrintFault>
    ensures { Tells result (E.refuses errors.new) (E.contents errors.old) (E.contents errors.new)
        (journal_fault_text name.now fault) }
{
    match fault {
        JournalFault::Memory => say_out_of_memory(errors),
        _ => say_line(fault_front(fault), name.as_bytes(), errors),
    }
}

/// What is said of a journal's fault before the name of the file.
fn fault_front(fault: JournalFault) -> &'static [u8]
    ensures { result.now ≡ fault_front fault }
{
    match fault {
        JournalFault::NotAJournal => b"not a journal: ",
        JournalFault::Locked => b"another process has the journal open: ",
        JournalFault::Damaged => b"the journal is damaged: ",
        JournalFault::Full => b"the disk has no room for the journal: ",
        JournalFault::Memory => b"no memory for the journal: ",
        JournalFault::Failed | JournalFault::Shut | JournalFault::TooLarge => {
            b"cannot read or write the journal: "
        }
    }
}
