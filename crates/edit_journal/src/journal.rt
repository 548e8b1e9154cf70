//! A journal over a store.

ghost use Rattle.std.specs.Prelude.{◌≡◌, ℕ, ◌+◌, ◌-◌, ◌<◌, ◌≤◌, ◌++◌, List, length, take, min, IfErr, IfOk, IsTrue, OnErr, OnOk};
ghost use Rattle.sqlite_trees.specs.View.{IsClean, doubt};
ghost use Rattle.edit_journal.specs.declared.line.Line.{Line as LineValue};
ghost use Rattle.edit_journal.specs.declared.line.RowStep.{RowStep as StepValue};
ghost use Rattle.edit_journal.specs.Journals.{Fails, Fits, Lasts, Shows, Stands, Survives};
ghost use Rattle.edit_journal.specs.Lines.{Keeps, edit_tree, lines_of};
ghost use Rattle.edit_journal.specs.Tables.{IsJournal};

use crate::fault::JournalFault;
use crate::line::{Line, RowStep};
use crate::reading::read_lines;
use crate::table::find_table;
use crate::writing::{commit_record, replace_records};
use sqlite_trees::store::Alter;
use std::alloc::Global;

/// How many records the steps are: a record without steps is none.
fn records_in(steps: &[RowStep]) -> u32
    ensures { result ≡ min 1 (length steps.now) }
{
    u32::from(!steps.is_empty())
}

/// How many records fewer there are if one of `count` steps keeps the first `kept`.
fn records_lost(count: u32, kept: u32) -> u32
    ensures { result ≡ min 1 count - min 1 kept }
{
    u32::from(kept == 0 && count > 0)
}

/// A journal, open.
pub struct Journal<S: Alter> {
    pub(crate) store: S,
    pub(crate) alloc: Global,
    /// How many rows there are.
    pub(crate) rows: u32,
    /// The number of the last record.
    pub(crate) entries: u32,
}

// By hand, so that whoever drops one is proved over one call.
impl<S: Alter + Drop> Drop for Journal<S> {
    fn drop(self) {
        let Journal {
            store: _,
            alloc: _,
            rows: _,
            entries: _,
        } = self;
    }
}

impl<S: Alter> Journal<S> {
    /// Whether an earlier failure of the disk has shut the journal, so that nothing more is written.
    pub fn is_shut(&self) -> bool
        ensures { IsClean (S.Store.view self.now.store) → result ≡ (S.Store.view self.now.store).is_broken }
    {
        self.store.is_broken()
    }

    /// The number of the last record, or 0 where there is none.
    pub fn records(&self) -> u32
        ensures { result ≡ self.now.entries }
    {
        self.entries
    }

    /// Adds a record of these steps behind those that are there. On an error nothing of it stands.
    pub fn append(&mut self, steps: &[RowStep]) -> Result<(), JournalFault>
        ensures added { IsClean (S.Store.view self.new.store) → OnOk result ((lines : List LineValue)
            → Stands (S.Store.view self.old.store) self.old.rows lines
            → Lasts S.Store self.new.store self.new.rows (lines ++ lines_of (self.old.entries + 1) steps.now)) }
        ensures entries { OnOk result (self.new.entries ≡ self.old.entries + min 1 (length steps.now)) }
        ensures stays { IsClean (S.Store.view self.new.store) → OnErr result ((lines : List LineValue)
            → Stands (S.Store.view self.old.store) self.old.rows lines → IsTrue (S.Store.view self.new.store).is_open
            → Lasts S.Store self.new.store self.new.rows lines) }
        ensures number { OnErr result (self.new.entries ≡ self.old.entries) }
        ensures fails { IsClean (S.Store.view self.new.store) → IfErr result (Fails S.Store self.old.store self.new.store
            (¬ Fits ((S.Store.view self.old.store).reals edit_tree) self.old.rows (self.old.entries + 1) steps.now)) }
        ensures survives { Survives S.Store self.old.store self.new.store (λ db. (lines : List LineValue)
            → Stands (S.Store.view self.old.store) self.old.rows lines
            → Keeps db (lines ++ lines_of (self.old.entries + 1) steps.now)) }
    {
        let Some(entry) = self.entries.checked_add(1) else {
            return Err(JournalFault::TooLarge);
        };
        match commit_record(self.alloc, &mut self.store, self.rows, entry, steps) {
            Ok(rows) => {
                self.rows = rows;
                self.entries += records_in(steps);
                Ok(())
            }
            Err(fault) => {
                self.store.rollback();
                Err(fault)
            }
        }
    }

    /// Puts one record of these steps in the place of all that are there, or none where there are no steps. On an error
    /// those that are there stand.
    pub fn rewrite(&mut self, steps: &[RowStep]) -> Result<(), JournalFault>
        ensures replaced { IsClean (S.Store.view self.new.store) → OnOk result ((lines : List LineValue)
            → Stands (S.Store.view self.old.store) self.old.rows lines
            → Lasts S.Store self.new.store self.new.rows (lines_of 1 steps.now)) }
        ensures entries { OnOk result (self.new.entries ≡ min 1 (length steps.now)) }
        ensures stays { IsClean (S.Store.view self.new.store) → OnErr result ((lines : List LineValue)
            → Stands (S.Store.view self.old.store) self.old.rows lines → IsTrue (S.Store.view self.new.store).is_open
            → Lasts S.Store self.new.store self.new.rows lines) }
        ensures number { OnErr result (self.new.entries ≡ self.old.entries) }
        ensures fails { IsClean (S.Store.view self.new.store) → IfErr result (Fails S.Store self.old.store self.new.store
            (¬ Fits ((S.Store.view self.old.store).reals edit_tree) 0 1 steps.now)) }
        ensures survives { Survives S.Store self.old.store self.new.store (λ db. (lines : List LineValue)
            → Stands (S.Store.view self.old.store) self.old.rows lines → Keeps db (lines_of 1 steps.now)) }
    {
        match replace_records(self.alloc, &mut self.store, self.rows, 0, 1, steps) {
            Ok(rows) => {
                self.rows = rows;
                self.entries = records_in(steps);
                Ok(())
            }
            Err(fault) => {
                self.store.rollback();
                Err(fault)
            }
        }
    }

    /// Leaves the first `kept` of the last record's steps, of which there are `count`. If none are kept, there is no such
    /// record any more, and the next one has its number. If that takes more rows off than there are, it is `TooLarge`. On
    /// an error all stand.
    pub fn shorten(&mut self, count: u32, kept: u32) -> Result<(), JournalFault>
        ensures shortened { IsClean (S.Store.view self.new.store) → OnOk result ((lines : List LineValue) (entry : ℕ) (steps : List StepValue)
            → Stands (S.Store.view self.old.store) self.old.rows (lines ++ lines_of entry steps) → count ≡ length steps
            → Lasts S.Store self.new.store self.new.rows (lines ++ lines_of entry (take kept steps))) }
        ensures entries { OnOk result (self.new.entries ≡ self.old.entries - (min 1 count - min 1 kept)) }
        ensures rows { OnOk result (self.new.rows + (count - kept) ≡ self.old.rows) }
        ensures stays { IsClean (S.Store.view self.new.store) → OnErr result ((lines : List LineValue)
            → Stands (S.Store.view self.old.store) self.old.rows lines → IsTrue (S.Store.view self.new.store).is_open
            → Lasts S.Store self.new.store self.new.rows lines) }
        ensures number { OnErr result (self.new.entries ≡ self.old.entries) }
        ensures fails { IsClean (S.Store.view self.new.store) → IfErr result (Fails S.Store self.old.store self.new.store
            (self.old.rows < count - kept)) }
        ensures survives { Survives S.Store self.old.store self.new.store (λ db. (lines : List LineValue) (entry : ℕ) (steps : List StepValue)
            → Stands (S.Store.view self.old.store) self.old.rows (lines ++ lines_of entry steps) → count ≡ length steps
            → Keeps db (lines ++ lines_of entry (take kept steps))) }
    {
        let Some(left) = self.rows.checked_sub(count.saturating_sub(kept)) else {
            return Err(JournalFault::TooLarge);
        };
        match replace_records(
            self.alloc,
            &mut self.store,
            self.rows,
            left,
            self.entries,
            &[],
        ) {
            Ok(rows) => {
                self.rows = rows;
                self.entries = self.entries.saturating_sub(records_lost(count, kept));
                Ok(())
            }
            Err(fault) => {
                self.store.rollback();
                Err(fault)
            }
        }
    }
}

impl<S: Alter + Drop> Journal<S> {
    /// The journal that the store has, and its lines, or a journal without lines in a store without tables.
    pub fn over(alloc: Global, store: S) -> Result<(Journal<S>, Vec<Line>), JournalFault>
        requires { IsClean (S.Store.view store) → IsTrue (S.Store.view store).is_numbered }
        ensures read { IfOk result (λ made. IsClean (S.Store.view made.0.store) → Stands (S.Store.view made.0.store) made.0.rows made.1.items) }
        ensures found { IfOk result (λ made. IsClean (S.Store.view made.0.store) → (lines : List LineValue)
            → IsJournal (S.Store.view store).committed lines → made.1.items ≡ lines) }
        ensures open { IfOk result (λ made. IsClean (S.Store.view made.0.store) → IsTrue (S.Store.view store).is_open) }
        ensures clean { IfOk result (λ made. doubt (S.Store.view store).is_clean ≤ doubt (S.Store.view made.0.store).is_clean) }
    {
        let mut store = store;
        store.rollback();
        find_table(alloc, &mut store)?;
        let lines = read_lines(alloc, &mut store)?;
        let Ok(rows) = u32::try_from(lines.len()) else {
            return Err(JournalFault::TooLarge);
        };
        let entries = lines.last().map_or(0, |line| line.entry);
        let journal = Journal {
            store,
            alloc,
            rows,
            entries,
        };
        Ok((journal, lines))
    }
}
