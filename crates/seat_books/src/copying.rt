//! Copies of edits and of a journal's entries.

ghost use Rattle.std.specs.Prelude.{◌≡◌, IfOk};

use stand_in_session::{Edit, JournalEntry};
use std::alloc::{AllocError, Global};

/// The edits once more; they share their bytes.
pub fn copy_of_edits(alloc: Global, edits: &[Edit]) -> Result<Vec<Edit>, AllocError>
    ensures { IfOk result (λ copy. copy.items ≡ edits.now) }
{
    let mut copy = Vec::with_capacity(alloc, edits.len())?;
    for edit in edits {
        copy.push(edit.copy()?)?;
    }
    Ok(copy)
}

/// The entry once more; it shares the bytes of its edits.
pub fn copy_of_entry(alloc: Global, entry: &JournalEntry) -> Result<JournalEntry, AllocError>
    ensures { IfOk result (λ copy. copy ≡ entry.now) }
{
    let edits = entry.edits();
    if edits.len() == 1 {
        return Ok(JournalEntry::of_edit(edits[0].copy()?));
    }
    Ok(JournalEntry::of_group(copy_of_edits(alloc, edits)?))
}
