//! Recorded steps are made again.

ghost use Rattle.std.specs.Prelude.{◌≡◌, ◌+◌, ◌≤◌, ◌<◌, [], ◌∷◌, Err, IfOk, IfSome, IsErr, IsOk, OnOk, vec_len};
ghost use Rattle.std.specs.Vec.{vec_capacity};
ghost use Rattle.session_journal.specs.declared.steps.step.RecordedStep.TheVariants.{Edits, Load};
ghost use Rattle.serve_calls.specs.declared.replaying.Unreplayed.TheVariants.{Memory};
ghost use Rattle.serve_calls.specs.Replaying.{BeginsFrom, MakesEach, MakesOneIn, RefusesEdits, RefusesOne, ReplaysAll, ReplaysEdits, ReplaysOne};
ghost use Rattle.serve_calls.specs.Resuming.{ReplaysOnto, ReplaysSteps, Resumes};
ghost use Rattle.serve_calls.specs.Unreplayed.{replayed_edit, replayed_group, unreplayed_edit, unreplayed_group, unreplayed_snapshot};

use crate::backend::Backend;
use crate::journaled::Journaled;
use crate::server::Server;
use crate::unmade::{EditFault, GroupFault};
use edit_history::undo_redo::{OpenStep, UndoRedo};
use session_journal::Records;
use session_journal::steps::RecordedStep;
use stand_in_session::{EditRefused, GroupReceipt, GroupRefused, ReadGroup, Receipt};
use std::alloc::AllocError;
use stream_edits::Edit;
use stream_edits::snapshots::{Snapshot, SnapshotRefused};

/// Why a recorded step isn't made again.
#[derive(Clone, Copy, Debug, PartialEq, Eq)]
pub enum Unreplayed {
    /// The stream refuses it, and nothing of it is made.
    Refused,
    /// The stream refuses a part of it, or it is a snapshot of no stream.
    InPart,
    /// A growth was refused.
    Memory,
}

impl From<AllocError> for Unreplayed {
    ghost from_gives = { λ _ why. why ≡ Memory };

    fn from(_e: AllocError) -> Unreplayed {
        Unreplayed::Memory
    }
}

impl From<SnapshotRefused> for Unreplayed {
    ghost from_gives = { λ refused why. why ≡ unreplayed_snapshot refused };

    fn from(refused: SnapshotRefused) -> Unreplayed {
        match refused {
            SnapshotRefused::Memory => Unreplayed::Memory,
            SnapshotRefused::NoStream => Unreplayed::InPart,
        }
    }
}

impl<B: Backend, K: Records + Drop, S> Server<Journaled<B, K>, S> {
    /// Makes recorded steps again, of which nothing can be undone, and records edits in this journal
    /// from then on. A last step that the stream refuses was never answered as made: it is taken off
    /// the journal.
    pub fn resume(&mut self, journal: K, steps: Vec<RecordedStep>) -> Result<(), Unreplayed>
        ensures { OnOk result (Resumes B.is_session K.stands K.ends self.old journal steps.items
            self.new) }
    {
        let kept = self.replay_steps(journal, steps)?;
        self.history.forget(self.alloc);
        self.backend.journal = Some(kept);
        Ok(())
    }

    /// Makes recorded steps again. A last one that the stream refuses is taken off this journal, which
    /// is given back.
    fn replay_steps(&mut self, journal: K, steps: Vec<RecordedStep>) -> Result<K, Unreplayed>
        ensures { IfOk result (λ kept. ReplaysSteps B.is_session K.stands K.ends self.old journal
            steps.items kept self.new) }
    {
        let mut steps = steps;
        match steps.pop() {
            Some(last) => self.replay_onto(journal, steps, last),
            None => Ok(journal),
        }
    }

    /// Makes recorded steps again, and behind them a last one, which is taken off this journal where
    /// the stream refuses it. The journal is given back.
    fn replay_onto(
        &mut self,
        journal: K,
        steps: Vec<RecordedStep>,
        last: RecordedStep,
    ) -> Result<K, Unreplayed>
        ensures { IfOk result (λ kept. ReplaysOnto B.is_session K.stands K.ends self.old journal
            steps.items last kept self.new) }
    {
        let mut journal = journal;
        self.replay_all(steps)?;
        match self.replay(last) {
            Ok(()) => Ok(journal),
            Err(Unreplayed::Refused) => {
                journal.shorten(0);
                Ok(journal)
            }
            Err(why) => Err(why),
        }
    }
}

impl<B: Backend, S> Server<B, S> {
    /// Makes recorded steps again, one after the other.
    fn replay_all(&mut self, steps: Vec<RecordedStep>) -> Result<(), Unreplayed>
        ensures { OnOk result (ReplaysAll B.is_session self.old steps.items self.new) }
    {
        for step in steps {
            self.replay(step)?;
        }
        Ok(())
    }

    /// Makes a recorded step again.
    fn replay(&mut self, step: RecordedStep) -> Result<(), Unreplayed>
        ensures made { OnOk result (ReplaysOne B.is_session self.old step self.new) }
        ensures refused { result ≡ Err Unreplayed.Refused
            → RefusesOne B.is_session self.old step self.new }
    {
        match step {
            RecordedStep::Edits(edits) => self.replay_edits(edits.into_edits()),
            RecordedStep::Load(edits) => self.replay_load(edits.into_edits()),
            RecordedStep::Snapshot(snapshot) => self.begin_from(&snapshot),
        }
    }

    /// Begins anew from a recorded snapshot.
    fn begin_from(&mut self, snapshot: &Snapshot) -> Result<(), Unreplayed>
        ensures made { OnOk result (BeginsFrom B.is_session self.old snapshot.now self.new) }
        ensures refused { result ≡ Err Unreplayed.Refused → ⊥ }
    {
        let read = snapshot.read(self.alloc)?;
        let history = UndoRedo::of(self.alloc, snapshot)?;
        let session = self.backend.begun(self.alloc, read)?;
        self.backend.begin_anew(session);
        self.history = history;
        Ok(())
    }

    /// Makes recorded edits again, together or a single one by itself.
    fn replay_edits(&mut self, edits: Vec<Edit>) -> Result<(), Unreplayed>
        ensures made { OnOk result (ReplaysEdits B.is_session self.old edits.items self.new) }
        ensures refused { result ≡ Err Unreplayed.Refused
            → RefusesEdits B.is_session self.old edits.items self.new }
    {
        match only(edits.as_slice()) {
            Some(edit) => self.replay_edit(edit),
            None => self.replay_group(edits),
        }
    }

    /// Makes a recorded edit again.
    fn replay_edit(&mut self, edit: &Edit) -> Result<(), Unreplayed>
        ensures made { OnOk result (ReplaysEdits B.is_session self.old (edit.now ∷ []) self.new) }
        ensures refused { result ≡ Err Unreplayed.Refused
            → RefusesEdits B.is_session self.old (edit.now ∷ []) self.new }
    {
        match edit.copy()?.read(self.alloc) {
            Ok(read) => why_unmade(self.edit_read(read)),
            Err(refused) => Err(why_refused(refused)),
        }
    }

    /// Makes recorded edits again together.
    fn replay_group(&mut self, edits: Vec<Edit>) -> Result<(), Unreplayed>
        ensures made { OnOk result (ReplaysEdits B.is_session self.old edits.items self.new) }
        ensures refused { result ≡ Err Unreplayed.Refused
            → RefusesEdits B.is_session self.old edits.items self.new }
    {
        match ReadGroup::of_step(self.alloc, edits) {
            Ok(group) => why_group_unmade(self.edit_group_read(group)),
            Err(refused) => Err(why_group_refused(refused)),
        }
    }

    /// Makes the recorded edits of a load again, as one step.
    fn replay_load(&mut self, edits: Vec<Edit>) -> Result<(), Unreplayed>
        ensures made { OnOk result (ReplaysOne B.is_session self.old (Load edits.items)
            self.new) }
        ensures refused { result ≡ Err Unreplayed.Refused → ⊥ }
    {
        let mut step = self.history.begin(self.alloc, edits.len())?;
        self.replay_each(&mut step, edits)?;
        self.history.end(step);
        Ok(())
    }

    /// Makes recorded edits again, each by itself, in a step that is under way.
    fn replay_each(&mut self, step: &mut OpenStep, edits: Vec<Edit>) -> Result<(), Unreplayed>
        requires { vec_len step.old.changes + vec_len edits ≤ vec_capacity step.old.changes }
        ensures made { OnOk result (MakesEach B.is_session self.old step.old edits.items self.new
            step.new) }
        ensures history { self.new.history.history ≡ self.old.history.history }
        ensures refused { result ≡ Err Unreplayed.Refused → ⊥ }
    {
        for edit in edits {
            self.replay_in(step, edit)?;
        }
        Ok(())
    }

    /// Makes a recorded edit again in a step that is under way.
    fn replay_in(&mut self, step: &mut OpenStep, edit: Edit) -> Result<(), Unreplayed>
        requires { vec_len step.old.changes < vec_capacity step.old.changes }
        ensures made { OnOk result (MakesOneIn B.is_session self.old step.old edit self.new
            step.new) }
        ensures history { self.new.history.history ≡ self.old.history.history }
        ensures capacity { vec_capacity step.new.changes ≡ vec_capacity step.old.changes }
        ensures more { vec_len step.new.changes ≤ vec_len step.old.changes + 1 }
        ensures refused { result ≡ Err Unreplayed.Refused → ⊥ }
    {
        match edit.read(self.alloc) {
            Ok(read) => match self.edit_in(step, read) {
                Ok(_) => Ok(()),
                Err(EditFault::Refused(EditRefused::Memory)) => Err(Unreplayed::Memory),
                Err(_) => Err(Unreplayed::InPart),
            },
            Err(EditRefused::Memory) => Err(Unreplayed::Memory),
            Err(_) => Err(Unreplayed::InPart),
        }
    }
}

/// The only one of edits, if there is no other.
fn only(edits: &[Edit]) -> Option<&Edit>
    ensures { IfSome result (λ edit. edits.now ≡ edit.now ∷ []) }
{
    match edits {
        [edit] => Some(edit),
        _ => None,
    }
}

/// Why a recorded edit isn't made again that is answered so.
fn why_unmade(answer: Result<Receipt, EditFault>) -> Result<(), Unreplayed>
    ensures value { result ≡ replayed_edit answer }
    ensures ok { IsOk result → IsOk answer }
    ensures err { IsErr result → IsErr answer }
{
    match answer {
        Ok(_) => Ok(()),
        Err(EditFault::Refused(refused)) => Err(why_refused(refused)),
        Err(EditFault::Unkept(_)) => Err(Unreplayed::Memory),
    }
}

/// Why recorded edits aren't made again together that are answered so.
fn why_group_unmade(answer: Result<GroupReceipt, GroupFault>) -> Result<(), Unreplayed>
    ensures value { result ≡ replayed_group answer }
    ensures ok { IsOk result → IsOk answer }
    ensures err { IsErr result → IsErr answer }
{
    match answer {
        Ok(_) => Ok(()),
        Err(GroupFault::Refused(refused)) => Err(why_group_refused(refused)),
        Err(GroupFault::Unkept(_)) => Err(Unreplayed::Memory),
    }
}

/// Why a recorded edit isn't made again that is refused so.
fn why_refused(refused: EditRefused) -> Unreplayed
    ensures { result ≡ unreplayed_edit refused }
{
    match refused {
        EditRefused::Memory => Unreplayed::Memory,
        _ => Unreplayed::Refused,
    }
}

/// Why recorded edits aren't made again together that are refused so.
fn why_group_refused(refused: GroupRefused) -> Unreplayed
    ensures { result ≡ unreplayed_group refused }
{
    match refused {
        GroupRefused::Memory => Unreplayed::Memory,
        _ => Unreplayed::Refused,
    }
}
