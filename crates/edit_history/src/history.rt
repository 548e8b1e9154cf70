//! What can be undone and redone.

ghost use Rattle.std.specs.Prelude.{◌≡◌, ◌≢◌, ℕ, ◌+◌, ◌-◌, ◌<◌, List, [], ◌∷◌, ◌++◌, Some, length, slice_get, take, min, IfErr, IfOk, OnErr, OnOk};
ghost use Rattle.edit_history.specs.Changes.{ChangesAll};
ghost use Rattle.edit_history.specs.declared.refusals.NotUndone.TheVariants.{Unfit};
ghost use Rattle.edit_history.specs.Groups.{TakesTo};
ghost use Rattle.edit_history.specs.Histories.{HasCapacity, IsHistory};
ghost use Rattle.edit_history.specs.Refusals.{IsNotUndone};
ghost use Rattle.edit_history.specs.Texts.{IsStream, Texts};
ghost use Rattle.stream_edits.specs.Edits.{Register};

use crate::changes::UnitChange;
use crate::groups::{StepGroup, copies_of, group_of, inverse_of};
use crate::refusals::NotUndone;
use h264_types::pictures::AuId;
use std::alloc::{AllocError, Global};

/// What one edit, group or load changed.
#[derive(Debug)]
pub(crate) struct HistoryStep {
    pub(crate) changes: Vec<UnitChange>,
}

// By hand, so that whoever drops one is proved over one call.
impl Drop for HistoryStep {
    fn drop(self) {
        let HistoryStep { changes: _ } = self;
    }
}

/// What can be undone and redone of a stream.
#[derive(Debug)]
pub struct History {
    /// The steps that are done, and behind them those that can be redone, the next one first.
    pub(crate) steps: Vec<HistoryStep>,
    /// How many are done.
    pub(crate) done: usize,
}

// By hand, so that whoever drops one is proved over one call.
impl Drop for History {
    fn drop(self) {
        let History { steps: _, done: _ } = self;
    }
}

impl History {
    /// Nothing can be undone or redone of the stream as it is, whatever it is.
    pub fn new(alloc: Global) -> History
        ensures { (texts : Texts) → IsHistory result (texts ∷ []) texts }
    {
        History {
            steps: Vec::new(alloc),
            done: 0,
        }
    }

    /// How many steps can be undone.
    pub fn to_undo(&self) -> usize
        ensures { result ≡ self.now.done }
    {
        self.done
    }

    /// How many steps can be redone.
    pub fn to_redo(&self) -> usize
        ensures { result ≡ length self.now.steps.items - self.now.done }
    {
        self.steps.len().saturating_sub(self.done)
    }

    /// Makes room for one step more, so that a change that is accepted can be taken in without
    /// memory. What can be undone and redone stays.
    pub fn reserve(&mut self) -> Result<(), AllocError>
        ensures ok { OnOk result (HasCapacity self.new) }
        ensures done { self.new.done ≡ self.old.done }
        ensures steps { self.new.steps.items ≡ self.old.steps.items }
    {
        self.steps.reserve(1)
    }

    /// Takes in what an edit, a group or a load changed, in the order of its edits. What could be
    /// redone is forgotten. It takes no memory: `reserve` made the room.
    pub fn changed(&mut self, changes: Vec<UnitChange>)
        requires capacity { HasCapacity self.old }
        ensures fits { (states : List Texts) (before : Texts) (after : Texts)
            → IsHistory self.old states before → ChangesAll before changes.items after
            → IsHistory self.new (take (self.old.done + 1) states ++ after ∷ []) after }
        ensures done { self.new.done ≡ length self.new.steps.items }
    {
        self.steps.truncate(self.done);
        self.steps.push_reserved(HistoryStep { changes });
        self.done = self.steps.len();
    }

    /// The group of edits that takes back the last step that is done, of the stream with these ids
    /// and with so many ids given: for its edits, the last one first, a deletion for an insertion,
    /// an insertion behind the unit that stood before it for a deletion, and the text that was there
    /// for a replacement.
    pub fn undo(&self, alloc: Global, ids: &[AuId], ids_given: u32) -> Result<StepGroup, NotUndone>
        ensures ok { IfOk result (λ group. (states : List Texts) (texts : Texts) (old : Register)
            → IsHistory self.now states texts → IsStream old texts ids.now ids_given
            → (at : ℕ) (before : Texts) → self.now.done ≡ at + 1
            → slice_get states at ≡ Some before → TakesTo old texts group before) }
        ensures some { IfOk result (λ _. 0 < self.now.done) }
        ensures err { IfErr result (IsNotUndone self.now.done) }
        ensures fit { IfErr result (λ refused. (states : List Texts) (texts : Texts) (old : Register)
            → IsHistory self.now states texts → IsStream old texts ids.now ids_given
            → (at : ℕ) (before : Texts) → self.now.done ≡ at + 1
            → slice_get states at ≡ Some before → refused ≢ Unfit) }
    {
        let Some(last) = self.done.checked_sub(1) else {
            return Err(NotUndone::Nothing);
        };
        let Some(step) = self.steps.get(last) else {
            return Err(NotUndone::Unfit);
        };
        let inverse = inverse_of(alloc, &step.changes)?;
        group_of(alloc, ids, ids_given, inverse)
    }

    /// Takes in that the group of `undo` was made.
    pub fn undone(&mut self)
        ensures fits { (states : List Texts) (texts : Texts) (at : ℕ) (before : Texts)
            → IsHistory self.old states texts → self.old.done ≡ at + 1
            → slice_get states at ≡ Some before → IsHistory self.new states before }
        ensures done { self.new.done ≡ self.old.done - 1 }
        ensures steps { self.new.steps.items ≡ self.old.steps.items }
    {
        self.done = self.done.saturating_sub(1);
    }

    /// The group of edits that makes the next step again that was taken back, of the stream with
    /// these ids and with so many ids given: its edits as they were.
    pub fn redo(&self, alloc: Global, ids: &[AuId], ids_given: u32) -> Result<StepGroup, NotUndone>
        ensures ok { IfOk result (λ group. (states : List Texts) (texts : Texts) (old : Register)
            → IsHistory self.now states texts → IsStream old texts ids.now ids_given
            → (after : Texts) → slice_get states (self.now.done + 1) ≡ Some after
            → TakesTo old texts group after) }
        ensures some { IfOk result (λ _. self.now.done < length self.now.steps.items) }
        ensures err { IfErr result (IsNotUndone (length self.now.steps.items - self.now.done)) }
        ensures fit { IfErr result (λ refused. (states : List Texts) (texts : Texts) (old : Register)
            → IsHistory self.now states texts → IsStream old texts ids.now ids_given
            → (after : Texts) → slice_get states (self.now.done + 1) ≡ Some after
            → refused ≢ Unfit) }
    {
        let Some(step) = self.steps.get(self.done) else {
            return Err(NotUndone::Nothing);
        };
        let changes = copies_of(alloc, &step.changes)?;
        group_of(alloc, ids, ids_given, changes)
    }

    /// Takes in that the group of `redo` was made.
    pub fn redone(&mut self)
        ensures fits { (states : List Texts) (texts : Texts) (after : Texts)
            → IsHistory self.old states texts
            → slice_get states (self.old.done + 1) ≡ Some after → IsHistory self.new states after }
        ensures done { self.new.done ≡ min (self.old.done + 1) (length self.old.steps.items) }
        ensures steps { self.new.steps.items ≡ self.old.steps.items }
    {
        self.done = self.done.saturating_add(1).min(self.steps.len());
    }
}
