//! Rows are written, and committed.

ghost use Rattle.std.specs.Prelude.{◌≡◌, ◌+◌, ◌≤◌, List, ◌++◌, length, take, IfErr, IfOk, OnErr, OnOk};
ghost use Rattle.sqlite_trees.specs.View.{IsClean, IsQuiet, IsStorableRow, KeepsSchema, OnlyWrites};
ghost use Rattle.edit_journal.specs.declared.line.Line.{Line};
ghost use Rattle.edit_journal.specs.Lines.{Keeps, edit_tree, lines_of, row_of};
ghost use Rattle.edit_journal.specs.Journals.{Fails, Fits, KeepsCommit, Lasts, PutsRow, Shows, Survives};

use crate::fault::JournalFault;
use crate::line::RowStep;
use crate::rows::write_row;
use crate::table::EDITS;
use sqlite_trees::store::{Alter, Shape};
use sqlite_value::row::Row;
use std::alloc::Global;

/// Writes the row of a step under this number.
fn put_step<S: Alter>(
    store: &mut S,
    row: &mut Row,
    number: u32,
    entry: u32,
    place: u32,
    step: &RowStep,
) -> Result<(), JournalFault>
    requires { IsClean (S.Store.view store.old) → (S.Store.view store.old).shape edit_tree ≡ Shape.Table }
    ensures puts { OnOk result (IsClean (S.Store.view store.new) → PutsRow (S.Store.view store.old) (S.Store.view store.new)
        (row_of number (record { entry = entry; place = place; step = step.now }))) }
    ensures keeps { OnErr result (KeepsCommit (S.Store.view store.old) (S.Store.view store.new)) }
    ensures fails { IsClean (S.Store.view store.new) → IfErr result (Fails S.Store store.old store.new
        (¬ IsStorableRow ((S.Store.view store.old).reals edit_tree) (row_of number (record { entry = entry; place = place; step = step.now })))) }
    ensures schema { KeepsSchema (S.Store.view store.old) (S.Store.view store.new) }
    ensures quiet { IsQuiet S.Store.view S.Store.faults S.Store.recovers S.Store.is_shielded store.old store.new }
{
    write_row(row, number, entry, place, step)?;
    store.put(EDITS, row)?;
    Ok(())
}

/// Writes the rows of a record behind so many rows, and answers how many there are then.
fn put_steps<S: Alter>(
    alloc: Global,
    store: &mut S,
    rows: u32,
    entry: u32,
    steps: &[RowStep],
) -> Result<u32, JournalFault>
    requires { IsClean (S.Store.view store.old) → (S.Store.view store.old).shape edit_tree ≡ Shape.Table }
    ensures puts { IsClean (S.Store.view store.new) → OnOk result ((lines : List Line) → Keeps (S.Store.view store.old).trees lines
        → rows ≡ length lines → Keeps (S.Store.view store.new).trees (lines ++ lines_of entry steps.now)) }
    ensures count { IfOk result (λ after. after ≡ rows + length steps.now) }
    ensures writes { IsClean (S.Store.view store.new) → OnOk result (OnlyWrites (S.Store.view store.old) (S.Store.view store.new)) }
    ensures keeps { IsClean (S.Store.view store.new) → OnErr result (KeepsCommit (S.Store.view store.old) (S.Store.view store.new)) }
    ensures fails { IsClean (S.Store.view store.new) → IfErr result (Fails S.Store store.old store.new
        (¬ Fits ((S.Store.view store.old).reals edit_tree) rows entry steps.now)) }
    ensures quiet { IsQuiet S.Store.view S.Store.faults S.Store.recovers S.Store.is_shielded store.old store.new }
{
    let mut row = Row::new(alloc);
    let mut after = rows;
    for step in steps {
        let place = after - rows;
        let Some(number) = after.checked_add(1) else {
            return Err(JournalFault::TooLarge);
        };
        put_step(store, &mut row, number, entry, place, step)?;
        after = number;
    }
    Ok(after)
}

/// Deletes the rows behind the first `left` of so many, which are all that there are.
fn delete_rows<S: Alter>(store: &mut S, rows: u32, left: u32) -> Result<(), JournalFault>
    requires { IsClean (S.Store.view store.old) → (S.Store.view store.old).shape edit_tree ≡ Shape.Table }
    ensures deletes { IsClean (S.Store.view store.new) → OnOk result ((lines : List Line) → Keeps (S.Store.view store.old).trees lines
        → rows ≡ length lines → Keeps (S.Store.view store.new).trees (take left lines)) }
    ensures writes { IsClean (S.Store.view store.new) → OnOk result (OnlyWrites (S.Store.view store.old) (S.Store.view store.new)) }
    ensures keeps { IsClean (S.Store.view store.new) → OnErr result (KeepsCommit (S.Store.view store.old) (S.Store.view store.new)) }
    ensures fails { IsClean (S.Store.view store.new) → IfErr result (Fails S.Store store.old store.new ⊥) }
    ensures schema { KeepsSchema (S.Store.view store.old) (S.Store.view store.new) }
    ensures quiet { IsQuiet S.Store.view S.Store.faults S.Store.recovers S.Store.is_shielded store.old store.new }
{
    for deleted in left..rows {
        store.delete(EDITS, i64::from(deleted + 1))?;
    }
    Ok(())
}

/// Adds a record behind so many rows, and answers how many there are then.
pub(crate) fn commit_record<S: Alter>(
    alloc: Global,
    store: &mut S,
    rows: u32,
    entry: u32,
    steps: &[RowStep],
) -> Result<u32, JournalFault>
    ensures adds { IsClean (S.Store.view store.new) → IfOk result (λ after. (lines : List Line)
        → Shows (S.Store.view store.old) rows lines → Lasts S.Store store.new after (lines ++ lines_of entry steps.now)) }
    ensures count { IfOk result (λ after. after ≡ rows + length steps.now) }
    ensures keeps { IsClean (S.Store.view store.new) → OnErr result (KeepsCommit (S.Store.view store.old) (S.Store.view store.new)) }
    ensures fails { IsClean (S.Store.view store.new) → IfErr result (Fails S.Store store.old store.new
        (¬ Fits ((S.Store.view store.old).reals edit_tree) rows entry steps.now)) }
    ensures survives { Survives S.Store store.old store.new (λ db. (lines : List Line) → Shows (S.Store.view store.old) rows lines
        → Keeps db (lines ++ lines_of entry steps.now)) }
{
    let Shape::Table = store.shape(EDITS) else {
        return Err(JournalFault::NotAJournal);
    };
    let after = put_steps(alloc, store, rows, entry, steps)?;
    store.commit()?;
    Ok(after)
}

/// Puts the record in the place of the rows behind the first `left` of so many, which are all that there are, and answers
/// how many there are then.
pub(crate) fn replace_records<S: Alter>(
    alloc: Global,
    store: &mut S,
    rows: u32,
    left: u32,
    entry: u32,
    steps: &[RowStep],
) -> Result<u32, JournalFault>
    ensures replaces { IsClean (S.Store.view store.new) → IfOk result (λ after. (lines : List Line) → left ≤ rows
        → Shows (S.Store.view store.old) rows lines → Lasts S.Store store.new after (take left lines ++ lines_of entry steps.now)) }
    ensures count { IfOk result (λ after. after ≡ left + length steps.now) }
    ensures keeps { IsClean (S.Store.view store.new) → OnErr result (KeepsCommit (S.Store.view store.old) (S.Store.view store.new)) }
    ensures fails { IsClean (S.Store.view store.new) → IfErr result (Fails S.Store store.old store.new
        (¬ Fits ((S.Store.view store.old).reals edit_tree) left entry steps.now)) }
    ensures survives { Survives S.Store store.old store.new (λ db. (lines : List Line) → left ≤ rows
        → Shows (S.Store.view store.old) rows lines → Keeps db (take left lines ++ lines_of entry steps.now)) }
{
    let Shape::Table = store.shape(EDITS) else {
        return Err(JournalFault::NotAJournal);
    };
    delete_rows(store, rows, left)?;
    commit_record(alloc, store, left, entry, steps)
}
