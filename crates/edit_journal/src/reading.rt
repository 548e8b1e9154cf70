//! The lines of a store are read.

ghost use Rattle.std.specs.Prelude.{◌≡◌, IfOk, IsSome, OnOk};
ghost use Rattle.sqlite_trees.specs.View.{IsClean, IsQuiet};
ghost use Rattle.edit_journal.specs.Lines.{Keeps};
ghost use Rattle.edit_journal.specs.Journals.{Takes, OnlySeeks, edit_cursor};

use crate::fault::JournalFault;
use crate::line::Line;
use crate::rows::line_of;
use crate::table::EDITS;
use sqlite_trees::store::{Alter, Direction};
use sqlite_value::row::Row;
use std::alloc::Global;

/// The cursor that reads.
const CURSOR: u16 = 0;

/// The line at the cursor, in the row of this number, or `None` at the end. It moves on.
fn next_line<S: Alter>(
    alloc: Global,
    store: &mut S,
    row: &mut Row,
    number: u32,
) -> Result<Option<Line>, JournalFault>
    requires { IsSome ((S.Store.view store.old).cursors edit_cursor) }
    ensures takes { IsClean (S.Store.view store.new) → IfOk result (Takes (S.Store.view store.old) (S.Store.view store.new) number) }
    ensures live { OnOk result (IsSome ((S.Store.view store.new).cursors edit_cursor)) }
    ensures quiet { IsQuiet S.Store.view S.Store.faults S.Store.recovers S.Store.is_shielded store.old store.new }
{
    if !store.next(CURSOR, row)? {
        return Ok(None);
    }
    match line_of(alloc, row, number)? {
        Some(line) => Ok(Some(line)),
        None => Err(JournalFault::NotAJournal),
    }
}

/// The lines that the store keeps, in order.
pub(crate) fn read_lines<S: Alter>(alloc: Global, store: &mut S) -> Result<Vec<Line>, JournalFault>
    ensures read { IsClean (S.Store.view store.new) → IfOk result (λ lines. Keeps (S.Store.view store.old).trees lines.items) }
    ensures seeks { OnOk result (IsClean (S.Store.view store.new) → OnlySeeks (S.Store.view store.old) (S.Store.view store.new)) }
    ensures quiet { IsQuiet S.Store.view S.Store.faults S.Store.recovers S.Store.is_shielded store.old store.new }
{
    store.seek(CURSOR, EDITS, &Row::new(alloc), Direction::Forward)?;
    let mut lines = Vec::new(alloc);
    let mut row = Row::new(alloc);
    for number in 1..u32::MAX {
        let Some(line) = next_line(alloc, store, &mut row, number)? else {
            return Ok(lines);
        };
        lines.push(line)?;
    }
    Err(JournalFault::TooLarge)
}
