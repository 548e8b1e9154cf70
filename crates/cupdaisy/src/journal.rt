//! The journal.

ghost use Rattle.std.specs.Prelude.{◌≡◌, length};
ghost use Rattle.c_calls.specs.Journals.{FillsText, edit_in, edits_at, as_journal_edit};
ghost use Rattle.c_calls.specs.Requests.{laid_out};
ghost use Rattle.c_calls.specs.Statuses.{done};
ghost use Rattle.c_calls.specs.Telling.{Tells};
ghost use Rattle.cupdaisy.specs.Calls.{Asks, AsksTwo};

use crate::Handle;
use c_calls::{JournalEdit, NO_SESSION};
use std::alloc::Global;

/// How many entries the journal has.
#[unsafe(no_mangle)]
pub extern "C" fn cupdaisy_journal(alloc: Global, session: &mut Handle, entries: &mut usize) -> u32
    ensures { Asks session.old.held.state result entries.old entries.new session.new.held.state
        (λ machine. (result ≡ done) × (entries.new ≡ length machine.journal)) }
{
    let Some(inner) = session.take(alloc) else {
        return NO_SESSION;
    };
    let status = c_calls::journal(&inner, entries);
    session.put(inner);
    status
}

/// How many edits an entry of the journal has.
#[unsafe(no_mangle)]
pub extern "C" fn cupdaisy_journal_entry(
    alloc: Global,
    session: &mut Handle,
    entry: usize,
    edits: &mut usize,
) -> u32
    ensures { Asks session.old.held.state result edits.old edits.new session.new.held.state
        (λ machine. Tells (edits_at machine entry) result edits.old edits.new) }
{
    let Some(inner) = session.take(alloc) else {
        return NO_SESSION;
    };
    let status = c_calls::journal_entry(&inner, entry, edits);
    session.put(inner);
    status
}

/// An edit of an entry of the journal.
#[unsafe(no_mangle)]
pub extern "C" fn cupdaisy_journal_edit_at(
    alloc: Global,
    session: &mut Handle,
    entry: usize,
    index: usize,
    edit: &mut JournalEdit,
) -> u32
    ensures { Asks session.old.held.state result edit.old edit.new session.new.held.state
        (λ machine. Tells (laid_out as_journal_edit (edit_in machine entry index)) result edit.old
        edit.new) }
{
    let Some(inner) = session.take(alloc) else {
        return NO_SESSION;
    };
    let status = c_calls::journal_edit(&inner, entry, index, edit);
    session.put(inner);
    status
}

/// The text of an edit of an entry of the journal.
#[unsafe(no_mangle)]
pub extern "C" fn cupdaisy_journal_text(
    alloc: Global,
    session: &mut Handle,
    entry: usize,
    index: usize,
    text: &mut [u8],
    needed: &mut usize,
) -> u32
    ensures { AsksTwo session.old.held.state result text.old text.new needed.old needed.new
        session.new.held.state
        (λ machine. FillsText (edit_in machine entry index) result text.old text.new needed.old
        needed.new) }
{
    let Some(inner) = session.take(alloc) else {
        return NO_SESSION;
    };
    let status = c_calls::journal_text(&inner, entry, index, text, needed);
    session.put(inner);
    status
}
