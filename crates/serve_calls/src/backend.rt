//! What keeps the session that calls are about.

ghost use Rattle.std.specs.Prelude.{◌≡◌, ◌∷◌, ◌≤◌, ℕ, List, [], true, false, Err, IfOk, length};
ghost use Rattle.std.specs.Fn.{FnOnceReturnsAt};
ghost use Rattle.stand_in_session.specs.Machines.{Machine};
ghost use Rattle.stream_edits.specs.declared.edits.Edit.{Edit as EditValue};
ghost use Rattle.session_journal.specs.declared.steps.step.RecordedStep.{RecordedStep as StepValue};
ghost use Rattle.session_journal.specs.declared.steps.step.RecordedStep.TheVariants.{Edits, Snapshot as SnapshotStep};
ghost use Rattle.stream_session.specs.Machines.{IsBegun, IsEmpty};
ghost use Rattle.stand_in_session.specs.Needing.{AnswersDrop};
ghost use Rattle.serve_calls.specs.Offering.{Offered};
ghost use Rattle.serve_calls.specs.Jobs.{GivesBackAs, LandsAs, TakesAs};
ghost use Rattle.serve_calls.specs.Recording.{BeginsLoad, CountsOn, EndsLoad, KeepsRecords, RecordsIf, RecordsOnly};
ghost use Rattle.serve_calls.specs.Sessions.{Asks, Clears, Marks, Stays, Steps};
ghost use Rattle.serve_calls.specs.Unmade.{MakesTogether, MakesOne};

use crate::unmade::{EditFault, GroupFault};
use h264_types::pictures::AuId;
use picture_keys::HashedUnit;
use serve_answers::Answer;
use serve_requests::Failure;
use session_journal::Unkept;
use stand_in_session::{Dropping, GroupReceipt, ReadEdit, ReadGroup, Receipt, Session};
use std::alloc::{AllocError, Global};
use stream_edits::snapshots::{ReadSnapshot, Snapshot};

/// One who lends a session to be asked.
pub trait LendsSession {
    // Whether a session may be the one that is lent.
    ghost is_session: { Self → Machine → Type 0 };

    /// Lends the session to be asked.
    fn look<T, F: FnOnce(&Session) -> T>(&self, ask: F) -> T
        requires { F.IsAlwaysCallable ask }
        ensures { Asks (is_session self.now)
            (λ session. FnOnceReturnsAt F.FnOnce ask session result) };
}

/// One who keeps a session for a server.
pub trait Backend: LendsSession {
    // Whether there are calls about jobs, and whether there is a journal.
    ghost offers: { Self → Offered };

    // These steps are recorded, and no load is under way; by default none are.
    ghost records: { Self → List StepValue → Type 0 } = { λ _ _. ⊥ };

    // Behind these steps a load of these edits is recorded, of which so many were made; by default
    // none is.
    ghost loads: { Self → List StepValue → List EditValue → ℕ → Type 0 } = { λ _ _ _ _. ⊥ };

    /// Edits the stream by an edit whose text is read.
    fn edit(&mut self, read: ReadEdit) -> Result<Receipt, EditFault>
        ensures steps { Steps (Self.is_session self.old)
            (λ before after. MakesOne before read result after) (Self.is_session self.new) }
        ensures recorded { RecordsIf (records self.old) (Edits (read ∷ [])) result
            (records self.new) }
        ensures loading { CountsOn (loads self.old) result (loads self.new) };

    /// Makes the edits of a group whose texts are read, as one step.
    fn edit_group(&mut self, group: ReadGroup) -> Result<GroupReceipt, GroupFault>
        ensures steps { Steps (Self.is_session self.old)
            (λ before after. MakesTogether before group result after) (Self.is_session self.new) }
        ensures recorded { RecordsIf (records self.old) (Edits group) result (records self.new) };

    /// Begins a load of these units, which are then inserted one after the other behind the last
    /// one.
    fn begin_load(&mut self, alloc: Global, units: &[HashedUnit]) -> Result<(), Unkept>
        ensures stays { Stays (Self.is_session self.old) (Self.is_session self.new) }
        ensures recorded { BeginsLoad (Self.is_session self.old) (records self.old) units.now
            result (records self.new) (loads self.new) };

    /// Ends a load, of which those units stay that were inserted.
    fn end_load(&mut self)
        ensures stays { Stays (Self.is_session self.old) (Self.is_session self.new) }
        ensures recorded { EndsLoad (loads self.old) (records self.new) };

    /// Drops the picture of the unit that has the id.
    fn drop_picture(&mut self, id: AuId) -> Dropping
        ensures steps { Steps (Self.is_session self.old)
            (λ before after. AnswersDrop before id result after) (Self.is_session self.new) }
        ensures recorded { KeepsRecords (records self.old) (records self.new) };

    /// Drops the pictures that are cached.
    fn clear_cache(&mut self)
        ensures clears { Clears (Self.is_session self.old) (Self.is_session self.new) }
        ensures recorded { KeepsRecords (records self.old) (records self.new) };

    /// Marks the stream as it is, by which units are altered from then on.
    fn mark(&mut self) -> Result<(), AllocError>
        ensures marks { Marks (Self.is_session self.old) result (Self.is_session self.new) }
        ensures recorded { KeepsRecords (records self.old) (records self.new) };

    /// A session to begin anew with.
    fn fresh(&self, alloc: Global) -> Result<Session, AllocError>
        ensures { IfOk result IsEmpty };

    /// Takes all records of edits off, before the session begins anew.
    fn clear_records(&mut self) -> Result<(), Unkept>
        ensures stays { Stays (Self.is_session self.old) (Self.is_session self.new) }
        ensures recorded { RecordsOnly (records self.old) [] result (records self.new) };

    /// A session to begin anew with, from a snapshot.
    fn begun(&self, alloc: Global, snapshot: ReadSnapshot) -> Result<Session, AllocError>
        ensures { IfOk result (λ session. (capacity : ℕ) × IsBegun capacity snapshot session) };

    /// Writes the journal's file anew, with the snapshot of the stream as its only record. Without a
    /// journal it does nothing.
    fn compact(&mut self, snapshot: &Snapshot) -> Result<(), Unkept>
        ensures stays { Stays (Self.is_session self.old) (Self.is_session self.new) }
        ensures offers { offers self.new ≡ offers self.old }
        ensures recorded { RecordsOnly (records self.old) (SnapshotStep snapshot.now ∷ []) result
            (records self.new) };

    /// Begins anew with this session, of which no job is out.
    fn begin_anew(&mut self, session: Session)
        requires { session.jobs_out ≡ [] }
        ensures anew { Self.is_session self.new session }
        ensures recorded { KeepsRecords (records self.old) (records self.new) };

    /// Has the pictures of these units made first, of which there are 64 at most, and those of all
    /// others too or not.
    fn want(&mut self, ids: &[AuId], rest: bool)
        requires { length ids.now ≤ 64 }
        ensures stays { Stays (Self.is_session self.old) (Self.is_session self.new) }
        ensures recorded { KeepsRecords (records self.old) (records self.new) };

    /// Whether there are calls about jobs.
    fn has_jobs(&self) -> bool
        ensures { result ≡ (offers self.now).jobs };

    /// Whether there is a journal.
    fn has_journal(&self) -> bool
        ensures { result ≡ (offers self.now).journal };

    /// Takes a job, or with an id one that the unit needs.
    fn take(&mut self, alloc: Global, id: Option<AuId>) -> Result<Answer, Failure>
        ensures takes { (offers self.old).jobs ≡ true → Steps (Self.is_session self.old)
            (λ before after. TakesAs id before result after) (Self.is_session self.new) }
        ensures none { (offers self.old).jobs ≡ false
            → (result ≡ Err Failure.NoMethod) × (self.new ≡ self.old) }
        ensures recorded { KeepsRecords (records self.old) (records self.new) };

    /// Lands the result of the job of this number.
    fn land(&mut self, number: u64) -> Result<Answer, Failure>
        ensures lands { (offers self.old).jobs ≡ true → Steps (Self.is_session self.old)
            (λ before after. LandsAs number before result after) (Self.is_session self.new) }
        ensures none { (offers self.old).jobs ≡ false
            → (result ≡ Err Failure.NoMethod) × (self.new ≡ self.old) }
        ensures recorded { KeepsRecords (records self.old) (records self.new) };

    /// Gives the job of this number back.
    fn give_back(&mut self, number: u64) -> Result<Answer, Failure>
        ensures gives { (offers self.old).jobs ≡ true → Steps (Self.is_session self.old)
            (λ before after. GivesBackAs number before result after) (Self.is_session self.new) }
        ensures none { (offers self.old).jobs ≡ false
            → (result ≡ Err Failure.NoMethod) × (self.new ≡ self.old) }
        ensures recorded { KeepsRecords (records self.old) (records self.new) };
}
