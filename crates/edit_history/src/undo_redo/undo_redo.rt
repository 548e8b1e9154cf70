//! What can be undone and redone of a stream, beside the texts of its units.

ghost use Rattle.std.specs.Prelude.{◌≡◌, ℕ, ◌+◌, ◌-◌, ◌<◌, ◌≤◌, [], ◌∷◌, ◌++◌, length, take, List, None, Some, min, option_copied, slice_get, vec_len, zip, IfErr, IfOk, IfSome, OnOk};
ghost use Rattle.std.specs.Vec.{vec_capacity};
ghost use Rattle.picture_keys.specs.Units.{AreDifferent};
ghost use Rattle.edit_history.specs.declared.refusals.NotUndone.TheVariants.{Unfit};
ghost use Rattle.edit_history.specs.Histories.{HasCapacity as HasStepCapacity, IsHistory};
ghost use Rattle.edit_history.specs.Refusals.{IsNotUndone};
ghost use Rattle.edit_history.specs.Texts.{Texts};
ghost use Rattle.stream_edits.specs.declared.edits.Edit.{Edit as EditValue};
ghost use Rattle.stream_edits.specs.Edits.{Makes, Register, no_units};
ghost use Rattle.stream_edits.specs.Groups.{MakesAll};
ghost use Rattle.stream_edits.specs.Snapshots.{IsOf};
ghost use Rattle.edit_history.specs.Following.{AreRefusedOf, Follows, FollowsAll, HasCapacity, IsRefusedOf};
ghost use Rattle.edit_history.specs.KeptTexts.{IsKept};
ghost use Rattle.edit_history.specs.Snapshots.{AreOf, IsTextOf, text_under, texts_in};
ghost use Rattle.edit_history.specs.States.{IsAsBefore, IsUnderWay, IsUndoRedo, TakesTo};

use crate::undo_redo::prepared::{OpenStep, PreparedEdit, PreparedGroup};
use crate::undo_redo::unit_texts::UnitTexts;
use crate::{History, NotUndone, StepGroup};
use bytes::Bytes;
use h264_types::pictures::AuId;
use std::alloc::{AllocError, Global};
use stream_edits::Edit;
use stream_edits::snapshots::Snapshot;

/// What can be undone and redone of a stream, beside the texts of its units.
#[derive(Debug)]
pub struct UndoRedo {
    pub(crate) history: History,
    pub(crate) units: UnitTexts,
}

// By hand, so that whoever drops one is proved over one call.
impl Drop for UndoRedo {
    fn drop(self) {
        let UndoRedo {
            history: _,
            units: _,
        } = self;
    }
}

impl UndoRedo {
    /// Of a stream without units, of which no id was given: nothing can be undone or redone.
    pub fn new(alloc: Global) -> UndoRedo
        ensures { IsUndoRedo result ([] ∷ []) no_units }
    {
        UndoRedo {
            history: History::new(alloc),
            units: UnitTexts::none(alloc),
        }
    }

    /// Of the stream of a snapshot: nothing can be undone or redone. The bytes of the texts are
    /// shared.
    pub fn of(alloc: Global, snapshot: &Snapshot) -> Result<UndoRedo, AllocError>
        ensures begins { IfOk result (λ it. (register : Register) → IsOf snapshot.now register
            → IsUndoRedo it (texts_in snapshot.now ∷ []) register) }
        ensures units { IfOk result (λ it. AreOf snapshot.now it.units) }
        ensures history { IfOk result (λ it.
            IsHistory it.history (texts_in snapshot.now ∷ []) (texts_in snapshot.now)) }
    {
        Ok(UndoRedo {
            history: History::new(alloc),
            units: UnitTexts::of(alloc, snapshot)?,
        })
    }

    /// The snapshot of the stream as it is. The bytes of the texts are shared.
    pub fn snapshot(&self, alloc: Global) -> Result<Snapshot, AllocError>
        ensures is_of { IfOk result (λ snapshot. (register : Register)
            → IsKept self.now.units register → IsOf snapshot register) }
        ensures units { IfOk result (λ snapshot.
            snapshot.units ≡ zip self.now.units.ids.items self.now.units.texts.items) }
        ensures given { IfOk result (λ snapshot.
            snapshot.ids_given ≡ self.now.units.ids_given) }
    {
        self.units.snapshot(alloc)
    }

    /// The text of the unit of this id, or nothing where no unit has it.
    pub fn text(&self, id: AuId) -> Option<&Bytes>
        ensures is_of { (register : Register) → IsKept self.now.units register
            → IsTextOf register id (option_copied result) }
        ensures value { AreDifferent self.now.units.ids.items
            → option_copied result ≡ text_under self.now.units id }
    {
        self.units.text(id)
    }

    /// The texts of the stream's units, in decoding order.
    pub fn texts(&self) -> &[Bytes]
        ensures { result.now ≡ self.now.units.texts.items }
    {
        self.units.texts.as_slice()
    }

    /// How many steps can be undone.
    pub fn to_undo(&self) -> usize
        ensures { result ≡ self.now.history.done }
    {
        self.history.to_undo()
    }

    /// How many steps can be redone.
    pub fn to_redo(&self) -> usize
        ensures { result ≡ length self.now.history.steps.items - self.now.history.done }
    {
        self.history.to_redo()
    }

    /// Forgets what can be undone and redone.
    pub fn forget(&mut self, alloc: Global)
        ensures { (states : List Texts) (register : Register) → IsUndoRedo self.old states register
            → IsUndoRedo self.new (self.old.units.texts.items ∷ []) register }
    {
        self.history = History::new(alloc);
    }

    /// Begins a step of so many edits at most, for which it makes room.
    pub fn begin(&mut self, alloc: Global, edits: usize) -> Result<OpenStep, AllocError>
        ensures same { IsAsBefore self.old self.new }
        ensures empty { IfOk result (λ step. step.changes.items ≡ []) }
        ensures edits { IfOk result (λ step. edits ≤ vec_capacity step.changes) }
        ensures capacity { OnOk result (HasStepCapacity self.new.history) }
        ensures begun { IfOk result (λ step. (states : List Texts) (register : Register)
            → IsUndoRedo self.old states register
            → IsUnderWay self.new step states self.old.units.texts.items register) }
    {
        let changes = Vec::with_capacity(alloc, edits)?;
        self.history.reserve()?;
        Ok(OpenStep { changes })
    }

    /// What the edit changes, to be taken in once it is accepted. Nothing where the stream refuses
    /// it.
    pub fn prepare(
        &mut self,
        alloc: Global,
        edit: &Edit,
    ) -> Result<Option<PreparedEdit>, AllocError>
        ensures same { IsAsBefore self.old self.new }
        ensures follows { IfOk result (λ prepared.
            IfSome prepared (Follows self.new.units edit.now)) }
        ensures capacity { IfOk result (λ prepared. IfSome prepared (HasCapacity self.new.units)) }
        ensures history { self.new.history ≡ self.old.history }
        ensures none { IfOk result (λ prepared. prepared ≡ None
            → IsRefusedOf self.new.units edit.now) }
    {
        self.units.prepare(alloc, edit)
    }

    /// Takes in that the edit was accepted for which this was prepared. It takes no memory.
    pub fn made(&mut self, step: &mut OpenStep, prepared: PreparedEdit)
        requires capacity { HasCapacity self.old.units prepared }
        requires edits { vec_len step.old.changes < vec_capacity step.old.changes }
        ensures follows { (edit : EditValue) (states : List Texts) (before : Texts)
            (old : Register) (id : ℕ) (new : Register) → Follows self.old.units edit prepared
            → IsUnderWay self.old step.old states before old → Makes old edit id new
            → IsUnderWay self.new step.new states before new }
        ensures history { self.new.history ≡ self.old.history }
        ensures more { length step.new.changes.items ≡ length step.old.changes.items + 1 }
        ensures capacity { vec_capacity step.new.changes ≡ vec_capacity step.old.changes }
    {
        step.changes.push_reserved(self.units.make(prepared));
    }

    /// Ends a step, which can be undone then, unless no edit of it was made. What could be redone is
    /// forgotten. It takes no memory.
    pub fn end(&mut self, step: OpenStep)
        requires capacity { HasStepCapacity self.old.history }
        ensures ends { 0 < length step.changes.items → (states : List Texts) (before : Texts)
            (register : Register) → IsUnderWay self.old step states before register
            → IsUndoRedo self.new
            (take (self.old.history.done + 1) states ++ self.old.units.texts.items ∷ [])
            register }
        ensures done { 0 < length step.changes.items
            → self.new.history.done ≡ length self.new.history.steps.items }
        ensures nothing { step.changes.items ≡ [] → self.new ≡ self.old }
    {
        let OpenStep { changes } = step;
        if !changes.is_empty() {
            self.history.changed(changes);
        }
    }

    /// What edits that are made together change, to be taken in as one step once they are accepted.
    /// Nothing where the stream refuses them.
    pub fn prepare_group(
        &mut self,
        alloc: Global,
        edits: &[Edit],
    ) -> Result<Option<PreparedGroup>, AllocError>
        ensures same { IsAsBefore self.old self.new }
        ensures follows { IfOk result (λ prepared.
            IfSome prepared (FollowsAll self.new.units edits.now)) }
        ensures capacity { OnOk result (HasStepCapacity self.new.history) }
        ensures none { IfOk result (λ prepared. prepared ≡ None
            → AreRefusedOf self.new.units edits.now) }
    {
        self.history.reserve()?;
        let mut units = self.units.copy(alloc)?;
        match units.make_all(alloc, edits)? {
            Some(changes) => Ok(Some(PreparedGroup { units, changes })),
            None => Ok(None),
        }
    }

    /// Takes in that the edits were accepted for which this was prepared. It takes no memory. What
    /// could be redone is forgotten.
    pub fn grouped(&mut self, prepared: PreparedGroup)
        requires capacity { HasStepCapacity self.old.history }
        ensures follows { (edits : List EditValue) (states : List Texts) (old : Register)
            (ids : List ℕ) (new : Register) → FollowsAll self.old.units edits prepared
            → IsUndoRedo self.old states old → MakesAll old edits ids new
            → IsUndoRedo self.new
            (take (self.old.history.done + 1) states ++ prepared.units.texts.items ∷ []) new }
        ensures done { self.new.history.done ≡ length self.new.history.steps.items }
    {
        let PreparedGroup { units, changes } = prepared;
        self.units = units;
        self.history.changed(changes);
    }

    /// The group of edits that takes the last step back that is done, and the texts after it.
    pub fn undo(&self, alloc: Global) -> Result<(Vec<Edit>, UnitTexts), NotUndone>
        ensures ok { IfOk result (λ group. (states : List Texts) (old : Register)
            → IsUndoRedo self.now states old → (at : ℕ) (before : Texts)
            → self.now.history.done ≡ at + 1 → slice_get states at ≡ Some before
            → TakesTo old group.0.items before group.1) }
        ensures some { IfOk result (λ _. 0 < self.now.history.done) }
        ensures err { IfErr result (IsNotUndone self.now.history.done) }
    {
        let units = &self.units;
        let group = self.history.undo(alloc, &units.ids, units.ids_given)?;
        Ok(units.after(alloc, group)?)
    }

    /// Takes in that the group of `undo` was accepted. It takes no memory.
    pub fn undone(&mut self, units: UnitTexts)
        ensures follows { (states : List Texts) (old : Register) (at : ℕ) (before : Texts)
            (edits : List EditValue) (ids : List ℕ) (new : Register)
            → IsUndoRedo self.old states old → self.old.history.done ≡ at + 1
            → slice_get states at ≡ Some before → TakesTo old edits before units
            → MakesAll old edits ids new → IsUndoRedo self.new states new }
        ensures done { self.new.history.done ≡ self.old.history.done - 1 }
        ensures steps { self.new.history.steps.items ≡ self.old.history.steps.items }
    {
        self.units = units;
        self.history.undone();
    }

    /// The group of edits that makes the next step again that was taken back, and the texts after it.
    pub fn redo(&self, alloc: Global) -> Result<(Vec<Edit>, UnitTexts), NotUndone>
        ensures ok { IfOk result (λ group. (states : List Texts) (old : Register)
            → IsUndoRedo self.now states old → (after : Texts)
            → slice_get states (self.now.history.done + 1) ≡ Some after
            → TakesTo old group.0.items after group.1) }
        ensures some { IfOk result (λ _.
            self.now.history.done < length self.now.history.steps.items) }
        ensures err { IfErr result (IsNotUndone
            (length self.now.history.steps.items - self.now.history.done)) }
    {
        let units = &self.units;
        let group = self.history.redo(alloc, &units.ids, units.ids_given)?;
        Ok(units.after(alloc, group)?)
    }

    /// Takes in that the group of `redo` was accepted. It takes no memory.
    pub fn redone(&mut self, units: UnitTexts)
        ensures follows { (states : List Texts) (old : Register) (after : Texts)
            (edits : List EditValue) (ids : List ℕ) (new : Register)
            → IsUndoRedo self.old states old
            → slice_get states (self.old.history.done + 1) ≡ Some after
            → TakesTo old edits after units → MakesAll old edits ids new
            → IsUndoRedo self.new states new }
        ensures done { self.new.history.done
            ≡ min (self.old.history.done + 1) (length self.old.history.steps.items) }
        ensures steps { self.new.history.steps.items ≡ self.old.history.steps.items }
    {
        self.units = units;
        self.history.redone();
    }
}
