//! One who records the edits of a session, so that they stand after a crash.

ghost use Rattle.std.specs.Prelude.{◌≡◌, ◌∷◌, List, [], OnErr, OnOk};
ghost use Rattle.session_journal.specs.declared.steps.step.RecordedStep.{RecordedStep as StepValue};
ghost use Rattle.session_journal.specs.declared.steps.step.RecordedStep.TheVariants.{Edits, Load, Snapshot as SnapshotStep};
ghost use Rattle.session_journal.specs.Records.{given_by_steps};
ghost use Rattle.session_journal.specs.SessionJournalKept.{AddsOne, EndsWith, LeavesOr, LeavesOrOnly, Stays, with_left};

use crate::steps::Snapshot;
use crate::unkept::Unkept;
use stream_edits::Edit;

/// One who records the edits of a session, each before it is made: what was answered as recorded
/// stands after a crash.
pub trait Records {
    // These steps are recorded, in their order; by default nothing is known of that.
    ghost stands: { Self → List StepValue → Type 0 } = { λ _ _. Unit {0} };

    // Behind these steps the last one that is recorded is this one, and it can be taken off; by
    // default nothing is known of that.
    ghost ends: { Self → List StepValue → StepValue → Type 0 } = { λ _ _ _. Unit {0} };

    // After a crash these steps may be found; by default nothing is known of that.
    ghost leaves: { Self → List StepValue → Type 0 } = { λ _ _. Unit {0} };

    /// How many ids were given by the edits that are recorded.
    fn ids_given(&self) -> u32
        ensures { (steps : List StepValue) → stands self.now steps
            → result ≡ given_by_steps 0 steps };

    /// Records an edit by itself.
    fn keep_edit(&mut self, edit: &Edit) -> Result<(), Unkept>
        ensures kept { OnOk result
            (AddsOne (stands self.old) (Edits (edit.now ∷ [])) (stands self.new)) }
        ensures ends { OnOk result
            (EndsWith (stands self.old) (Edits (edit.now ∷ [])) (ends self.new)) }
        ensures stays { OnErr result (Stays (stands self.old) (stands self.new)) }
        ensures leaves { LeavesOr (leaves self.old) (stands self.old) (Edits (edit.now ∷ []))
            (leaves self.new) };

    /// Records edits that are to be made together. Without edits there is nothing to record, which is
    /// `Unwritten`.
    fn keep_group(&mut self, edits: &[Edit]) -> Result<(), Unkept>
        ensures kept { OnOk result (AddsOne (stands self.old) (Edits edits.now) (stands self.new)) }
        ensures ends { OnOk result (EndsWith (stands self.old) (Edits edits.now) (ends self.new)) }
        ensures stays { OnErr result (Stays (stands self.old) (stands self.new)) }
        ensures leaves { LeavesOr (leaves self.old) (stands self.old) (Edits edits.now)
            (leaves self.new) };

    /// Records the edits of a load.
    fn keep_load(&mut self, edits: Vec<Edit>) -> Result<(), Unkept>
        ensures kept { OnOk result (AddsOne (stands self.old) (Load edits.items)
            (stands self.new)) }
        ensures ends { OnOk result (EndsWith (stands self.old) (Load edits.items)
            (ends self.new)) }
        ensures stays { OnErr result (Stays (stands self.old) (stands self.new)) }
        ensures leaves { LeavesOr (leaves self.old) (stands self.old) (Load edits.items)
            (leaves self.new) };

    /// Takes off the last step that was recorded what isn't made of it: all where nothing is, and of
    /// a load what is behind so many edits. Where that fails nothing more is recorded.
    fn shorten(&mut self, made: usize)
        ensures { (steps : List StepValue) (step : StepValue) → ends self.old steps step
            → stands self.new (with_left steps step made) };

    /// Takes off all steps.
    fn clear(&mut self) -> Result<(), Unkept>
        ensures cleared { OnOk result ((steps : List StepValue) → stands self.old steps
            → stands self.new []) }
        ensures stays { OnErr result (Stays (stands self.old) (stands self.new)) }
        ensures leaves { LeavesOrOnly (leaves self.old) (stands self.old) [] (leaves self.new) };

    /// Puts the snapshot in the place of all steps. It can't be taken off.
    fn compact(&mut self, snapshot: &Snapshot) -> Result<(), Unkept>
        ensures compacted { OnOk result ((steps : List StepValue) → stands self.old steps
            → stands self.new (SnapshotStep snapshot.now ∷ [])) }
        ensures stays { OnErr result (Stays (stands self.old) (stands self.new)) }
        ensures leaves { LeavesOrOnly (leaves self.old) (stands self.old)
            (SnapshotStep snapshot.now ∷ []) (leaves self.new) };
}
