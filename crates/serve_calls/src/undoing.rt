//! `undo` and `redo`.

ghost use Rattle.std.specs.Prelude.{◌≡◌, ◌+◌, ◌-◌, ◌<◌, length, min};
ghost use Rattle.session_journal.specs.declared.steps.step.RecordedStep.TheVariants.{Edits};
ghost use Rattle.serve_calls.specs.Recording.{RecordsIf, RecordsSome};
ghost use Rattle.serve_calls.specs.RecordingCalls.{AreRedoing, AreUndoing};
ghost use Rattle.serve_calls.specs.Undoing.{GoesBy, Redoes, RedoesAs, Undoes, UndoesAs, undo_failure};

use crate::backend::Backend;
use crate::server::Server;
use crate::unmade::{GroupFault, of_group_made};
use edit_history::undo_redo::{NotUndone, UnitTexts};
use serve_answers::Answer;
use serve_requests::{CallRefusal, Failure};
use stand_in_session::{GroupReceipt, ReadGroup};
use stream_edits::{Edit, EditRefused};

impl<B: Backend, S> Server<B, S> {
    /// Takes the last step back that is done.
    pub(crate) fn undo(&mut self) -> Result<Answer, Failure>
        ensures answers { UndoesAs B.is_session self.old result self.new }
        ensures recorded { RecordsSome (B.records self.old.backend) (AreUndoing self.old.history) result
            (B.records self.new.backend) }
    {
        match self.history.undo(self.alloc) {
            Ok((edits, units)) => of_group_made(self.take_back(edits, units)),
            Err(why) => Err(undo_failure(CallRefusal::NothingToUndo, why)),
        }
    }

    /// Makes the edits together that take the last step back, after which the units have these
    /// texts.
    fn take_back(&mut self, edits: Vec<Edit>, units: UnitTexts) -> Result<GroupReceipt, GroupFault>
        requires some { 0 < self.old.history.history.done }
        requires undoes { Undoes self.old.history edits.items units }
        ensures goes { GoesBy B.is_session (self.old.history.history.done - 1) self.old edits.items
            result self.new }
        ensures recorded { RecordsIf (B.records self.old.backend) (Edits edits.items) result
            (B.records self.new.backend) }
    {
        let group = ReadGroup::of_step(self.alloc, edits)?;
        let receipt = self.edit_together(group)?;
        self.history.undone(units);
        Ok(receipt)
    }

    /// Makes the next step again that was taken back.
    pub(crate) fn redo(&mut self) -> Result<Answer, Failure>
        ensures answers { RedoesAs B.is_session self.old result self.new }
        ensures recorded { RecordsSome (B.records self.old.backend) (AreRedoing self.old.history) result
            (B.records self.new.backend) }
    {
        match self.history.redo(self.alloc) {
            Ok((edits, units)) => of_group_made(self.make_again(edits, units)),
            Err(why) => Err(undo_failure(CallRefusal::NothingToRedo, why)),
        }
    }

    /// Makes the edits together that make the next step again, after which the units have these
    /// texts.
    fn make_again(&mut self, edits: Vec<Edit>, units: UnitTexts) -> Result<GroupReceipt, GroupFault>
        requires some { self.old.history.history.done
            < length self.old.history.history.steps.items }
        requires redoes { Redoes self.old.history edits.items units }
        ensures goes { GoesBy B.is_session (min (self.old.history.history.done + 1)
            (length self.old.history.history.steps.items)) self.old edits.items result self.new }
        ensures recorded { RecordsIf (B.records self.old.backend) (Edits edits.items) result
            (B.records self.new.backend) }
    {
        let group = ReadGroup::of_step(self.alloc, edits)?;
        let receipt = self.edit_together(group)?;
        self.history.redone(units);
        Ok(receipt)
    }
}

/// Why nothing is undone or redone, where nothing is there.
fn undo_failure(none: CallRefusal, why: NotUndone) -> Failure
    ensures { result ≡ undo_failure none why }
{
    let refusal = match why {
        NotUndone::Nothing => none,
        NotUndone::IdsSpent => CallRefusal::Edit(EditRefused::IdsSpent),
        NotUndone::Unfit => CallRefusal::NoSuchUnit,
        NotUndone::Memory => CallRefusal::Memory,
    };
    Failure::Refused(refusal)
}
