//! A replay of which every picture is made.

ghost use Rattle.std.specs.Prelude.{◌≡◌, ◌+◌, ◌≤◌, ℕ, List, Ok, Some, false, true, IfOk, IsErrOf, OnOk};
ghost use Rattle.stand_in_device.specs.Jobs.{JobValue};
ghost use Rattle.picture_store.specs.Jobs.{IsAnyDue, most_jobs};
ghost use Rattle.picture_store.specs.declared.answers.TakeRefused.TheVariants.{JobsSpent};
ghost use Rattle.stream_edits.specs.declared.edits.Edit.{Edit as EditValue};
ghost use Rattle.stand_in_session.specs.Jobs.{AnswersTakeWithUnit};
ghost use Rattle.stand_in_session.specs.Machines.{Machine};
ghost use Rattle.stream_session.specs.Machines.{store_of};
ghost use Rattle.seat_books.specs.declared.book.SeatBook.{SeatBook as Book};
ghost use Rattle.seat_books.specs.declared.receipts.SeatReceipt.{SeatReceipt as Receipt};
ghost use Rattle.seat_books.specs.Following.{IsReplayed, Stays};

use crate::replay::Replay;
use h264_types::pictures::AuId;
use stand_in_device::{Job, Undone};
use stand_in_session::TakeRefused;
use std::alloc::AllocError;

impl Replay {
    /// Makes every picture that is due. A journal has far fewer units than jobs have numbers, so that
    /// memory runs out before these do.
    pub(crate) fn settle(&mut self) -> Result<(), AllocError>
        ensures stays { OnOk result (Stays self.old.session self.new.session) }
        ensures follows { OnOk result ((journal : List (List EditValue)) (books : List Book)
            (seat : ℕ)
            (earlier : List Receipt) → IsReplayed journal books seat earlier self.old
            → IsReplayed journal books seat earlier self.new) }
        ensures due { OnOk result (IsAnyDue (store_of self.new.session) → ⊥) }
    {
        match self.decode_all() {
            Ok(()) => Ok(()),
            Err(_) => Err(AllocError),
        }
    }

    /// Takes jobs, decodes them and lands their results until none is due; or why none is given
    /// though one is, or that there was no memory to decode one.
    fn decode_all(&mut self) -> Result<(), TakeRefused>
        ensures stays { OnOk result (Stays self.old.session self.new.session) }
        ensures follows { OnOk result ((journal : List (List EditValue)) (books : List Book)
            (seat : ℕ)
            (earlier : List Receipt) → IsReplayed journal books seat earlier self.old
            → IsReplayed journal books seat earlier self.new) }
        ensures due { OnOk result (IsAnyDue (store_of self.new.session) → ⊥) }
        ensures spent { IsErrOf result JobsSpent → most_jobs ≤ self.new.session.jobs }
    {
        for _ in 0..u64::MAX {
            if !self.decode_next()? {
                return Ok(());
            }
        }
        // As many jobs were given as there are numbers.
        Err(TakeRefused::JobsSpent)
    }

    /// Takes a job, decodes it and lands its result; whether one was due.
    fn decode_next(&mut self) -> Result<bool, TakeRefused>
        ensures stays { IfOk result (λ _. Stays self.old.session self.new.session) }
        ensures follows { IfOk result (λ _. (journal : List (List EditValue)) (books : List Book)
            (seat : ℕ)
            (earlier : List Receipt) → IsReplayed journal books seat earlier self.old
            → IsReplayed journal books seat earlier self.new) }
        ensures due { IfOk result (λ was_due. was_due ≡ false
            → IsAnyDue (store_of self.new.session) → ⊥) }
        ensures given { IfOk result (λ was_due. was_due ≡ true
            → self.new.session.jobs ≡ self.old.session.jobs + 1) }
        ensures spent { IsErrOf result JobsSpent → self.new.session.jobs ≡ most_jobs }
    {
        match self.session.take_with_unit() {
            Ok(Some((id, job))) => self.decode(id, job),
            Ok(None) => Ok(false),
            Err(refused) => Err(refused),
        }
    }

    /// Decodes a job that was taken, which is told with its unit, and lands its result. What was
    /// ready of its key was so before the key went out of use, as its picture wasn't held.
    fn decode(&mut self, id: AuId, job: Job) -> Result<bool, TakeRefused>
        ensures stays { IfOk result (λ _. (before : Machine)
            → AnswersTakeWithUnit before (Ok (Some (id, job))) self.old.session
            → Stays before self.new.session) }
        ensures follows { IfOk result (λ _. (before : Machine) (journal : List (List EditValue))
            (books : List Book) (seat : ℕ) (earlier : List Receipt)
            → AnswersTakeWithUnit before (Ok (Some (id, job))) self.old.session
            → IsReplayed journal books seat earlier (record self.old { session = before })
            → IsReplayed journal books seat earlier self.new) }
        ensures due { IfOk result (λ was_due. was_due ≡ true) }
        ensures given { OnOk result (self.new.session.jobs ≡ self.old.session.jobs) }
        ensures memory { IsErrOf result JobsSpent → ⊥ }
    {
        self.forget(id);
        match self.device.decode(self.alloc, job) {
            Ok(finished) => {
                let _ = self.session.land(finished);
                Ok(true)
            }
            Err(undone) => {
                let Undone { job, cause: _ } = undone;
                let _ = self.session.give_back(job);
                Err(TakeRefused::Memory)
            }
        }
    }
}
