//! The steps of a session in a journal.

ghost use Rattle.std.specs.Prelude.{◌≡◌, ◌<◌, List, false, IsTrue, OnErr, OnOk};
ghost use Rattle.sqlite_trees.specs.View.{IsClean};
ghost use Rattle.session_journal.specs.declared.steps.step.RecordedStep.{RecordedStep as StepValue};
ghost use Rattle.session_journal.specs.RecordRows.{given_by_step, rows_of_step};
ghost use Rattle.session_journal.specs.SessionJournalKept.{EndsWith, LeavesOr, LeavesOrOnly, Stays};
ghost use Rattle.session_journal.specs.Standing.{AreRecordOf, CrashLeaves, IsEnd, LeavesNone, LeavesSome, Standing, load_of};

use crate::last_step::LastStep;
use crate::records::Records;
use crate::steps::{EditList, Snapshot, keep_group, keep_load, keep_snapshot};
use crate::unkept::Unkept;
use edit_journal::{Journal, RowStep};
use sqlite_trees::store::Alter;
use std::alloc::Global;
use std::slice;
use stream_edits::Edit;

/// The steps of a session in a journal.
pub struct SessionJournal<S: Alter> {
    pub(crate) journal: Journal<S>,
    pub(crate) alloc: Global,
    /// How many ids were given by all steps.
    pub(crate) given: u32,
    /// The last step that was recorded.
    pub(crate) last: LastStep,
    /// Whether a step stands in the journal that wasn't made: then nothing more is recorded.
    pub(crate) is_shut: bool,
}

// By hand, so that whoever drops one is proved over one call.
impl<S: Alter + Drop> Drop for SessionJournal<S> {
    fn drop(self) {
        let SessionJournal {
            journal: _,
            alloc: _,
            given: _,
            last: _,
            is_shut: _,
        } = self;
    }
}

impl<S: Alter> SessionJournal<S> {
    /// Whether nothing more is recorded.
    fn is_shut(&self) -> bool
        ensures last { result ≡ false → self.now.is_shut ≡ false }
        ensures open { IsClean (S.Store.view self.now.journal.store) → result ≡ false
            → IsTrue (S.Store.view self.now.journal.store).is_open }
    {
        self.is_shut || self.journal.is_shut()
    }

    /// Records what is kept of a step, after which so many ids were given.
    fn keep(&mut self, rows: &[RowStep], after: u32, load: Option<EditList>) -> Result<(), Unkept>
        ensures kept { OnOk result ((step : StepValue) → rows.now ≡ rows_of_step self.old.given step
            → after ≡ given_by_step self.old.given step → load ≡ load_of step
            → EndsWith (Standing S.Store self.old) step (IsEnd S.Store self.new)) }
        ensures stays { OnErr result (Stays (Standing S.Store self.old)
            (Standing S.Store self.new)) }
        ensures leaves { (step : StepValue) → rows.now ≡ rows_of_step self.old.given step
            → LeavesOr (CrashLeaves S.Store self.old.journal) (Standing S.Store self.old) step
            (CrashLeaves S.Store self.new.journal) }
    {
        let Ok(count) = u32::try_from(rows.len()) else {
            return Err(Unkept::Unwritten);
        };
        if count == 0 || self.is_shut() {
            return Err(Unkept::Unwritten);
        }
        self.journal.append(rows)?;
        self.last = LastStep {
            rows: count,
            before: self.given,
            load,
        };
        self.given = after;
        Ok(())
    }

    /// Puts one record of these rows in the place of all steps, after which so many ids were given, or
    /// none where there are no rows. Nothing of it can be taken off.
    fn rewrite(&mut self, rows: &[RowStep], given: u32) -> Result<(), Unkept>
        ensures replaced { (steps : List StepValue) → AreRecordOf rows.now given steps
            → OnOk result ((before : List StepValue) → Standing S.Store self.old before
            → Standing S.Store self.new steps) }
        ensures stays { OnErr result (Stays (Standing S.Store self.old)
            (Standing S.Store self.new)) }
        ensures leaves { (steps : List StepValue) → AreRecordOf rows.now given steps
            → LeavesOrOnly (CrashLeaves S.Store self.old.journal) (Standing S.Store self.old) steps
            (CrashLeaves S.Store self.new.journal) }
    {
        if self.is_shut() {
            return Err(Unkept::Unwritten);
        }
        self.journal.rewrite(rows)?;
        self.last = LastStep::none(given);
        self.given = given;
        Ok(())
    }

    /// Leaves the first `left` of the last step's rows. Where that fails nothing more is recorded.
    fn leave(&mut self, rows: u32, left: u32)
        ensures none { left ≡ 0 → LeavesNone S.Store self.old rows self.new }
        ensures some { 0 < left → LeavesSome S.Store self.old rows left self.new }
    {
        if rows <= left {
            return;
        }
        if self.is_shut() {
            self.is_shut = true;
            return;
        }
        match self.journal.shorten(rows, left) {
            Ok(()) => {}
            Err(_) => self.is_shut = true,
        }
    }
}

impl<S: Alter> Records for SessionJournal<S> {
    ghost stands = { λ it steps. Standing S.Store it steps };

    ghost ends = { λ it front step. IsEnd S.Store it front step };

    ghost leaves = { λ it steps. CrashLeaves S.Store it.journal steps };

    fn ids_given(&self) -> u32 {
        self.given
    }

    fn keep_edit(&mut self, edit: &Edit) -> Result<(), Unkept> {
        self.keep_group(slice::from_ref(edit))
    }

    fn keep_group(&mut self, edits: &[Edit]) -> Result<(), Unkept> {
        match keep_group(self.alloc, self.given, edits)? {
            Some((rows, after)) => self.keep(&rows, after, None),
            None => Err(Unkept::Unwritten),
        }
    }

    fn keep_load(&mut self, edits: Vec<Edit>) -> Result<(), Unkept> {
        match keep_load(self.alloc, self.given, &edits)? {
            Some((rows, after)) => self.keep(&rows, after, Some(EditList::new(edits))),
            None => Err(Unkept::Unwritten),
        }
    }

    fn shorten(&mut self, made: usize) {
        let left = self.last.rows_left(made);
        let given = self.last.given_left(made, self.given);
        self.leave(self.last.rows, left);
        self.last = LastStep::none(given);
        self.given = given;
    }

    fn clear(&mut self) -> Result<(), Unkept> {
        self.rewrite(&[], 0)
    }

    fn compact(&mut self, snapshot: &Snapshot) -> Result<(), Unkept> {
        let rows = keep_snapshot(self.alloc, snapshot)?;
        self.rewrite(&rows, snapshot.ids_given())
    }
}
