//! A server's state, and its edits.

ghost use Rattle.std.specs.Prelude.{◌≡◌, ◌+◌, ◌<◌, ◌≤◌, [], ◌∷◌, IfSome, None, vec_len};
ghost use Rattle.std.specs.Vec.{vec_capacity};
ghost use Rattle.session_journal.specs.declared.steps.step.RecordedStep.TheVariants.{Edits};
ghost use Rattle.stream_edits.specs.Edits.{no_units};
ghost use Rattle.edit_history.specs.Following.{Follows, HasCapacity, IsRefusedOf};
ghost use Rattle.edit_history.specs.States.{IsUndoRedo};
ghost use Rattle.serve_calls.specs.Editing.{DropsAs, EditsAs, GroupsAs, MakesEdit, MakesEditIn, MakesGroup, MakesStep, MarksAs, mark_answer};
ghost use Rattle.serve_calls.specs.Recording.{CountsOn, KeepsRecords, RecordsIf, RecordsOnly};
ghost use Rattle.serve_calls.specs.Resetting.{ResetsAs};
ghost use Rattle.serve_calls.specs.Sums.{no_sums};

use crate::backend::Backend;
use crate::remembering::{take_in, take_in_group};
use crate::sums::{Sums, bytes_of, bytes_of_edit};
use crate::unmade::{EditFault, GroupFault, OUT_OF_MEMORY, of_group_made, of_made, unkept_failure};
use crate::wanted_units::WantedUnit;
use edit_history::undo_redo::{OpenStep, PreparedEdit, UndoRedo};
use edit_script::id_of_number;
use serve_answers::{Answer, Word, of_drop, of_edit, of_group};
use serve_requests::{Failure, Listed};
use stand_in_session::{EditRefused, GroupReceipt, GroupRefused, ReadEdit, ReadGroup, Receipt};
use std::alloc::{AllocError, Global};
use stream_edits::Edit;

/// A server: what keeps its session, the files that are loaded, what it adds up, and what can be
/// undone and redone.
#[derive(Drop)]
pub struct Server<B, S> {
    pub alloc: Global,
    pub backend: B,
    pub source: S,
    pub sums: Sums,
    pub history: UndoRedo,
}

impl<B: Backend, S> Server<B, S> {
    /// A server before its first message.
    pub fn new(alloc: Global, backend: B, source: S) -> Server<B, S>
        ensures backend { result.backend ≡ backend }
        ensures source { result.source ≡ source }
        ensures sums { result.sums ≡ no_sums }
        ensures history { IsUndoRedo result.history ([] ∷ []) no_units }
    {
        Server {
            alloc,
            backend,
            source,
            sums: Sums::none(),
            history: UndoRedo::new(alloc),
        }
    }

    /// Edits the stream.
    pub(crate) fn edit(&mut self, edit: Edit) -> Result<Answer, Failure>
        ensures answers { EditsAs B.is_session self.old edit result self.new }
        ensures recorded { RecordsIf (B.records self.old.backend) (Edits (edit ∷ [])) result
            (B.records self.new.backend) }
    {
        match edit.read(self.alloc) {
            Ok(read) => of_made(self.edit_read(read)),
            Err(refused) => of_edit(Err(refused)),
        }
    }

    /// Edits the stream by an edit whose text is read, as one step.
    pub(crate) fn edit_read(&mut self, read: ReadEdit) -> Result<Receipt, EditFault>
        ensures makes { MakesEdit B.is_session self.old read result self.new }
        ensures recorded { RecordsIf (B.records self.old.backend) (Edits (read ∷ [])) result
            (B.records self.new.backend) }
    {
        match self.history.begin(self.alloc, 1) {
            Ok(mut step) => {
                let answer = self.edit_in(&mut step, read);
                self.history.end(step);
                answer
            }
            Err(_) => Err(EditFault::Refused(EditRefused::Memory)),
        }
    }

    /// Edits the stream by an edit whose text is read, in a step that is under way.
    pub(crate) fn edit_in(
        &mut self,
        step: &mut OpenStep,
        read: ReadEdit,
    ) -> Result<Receipt, EditFault>
        requires { vec_len step.old.changes < vec_capacity step.old.changes }
        ensures makes { MakesEditIn B.is_session self.old step.old read result self.new step.new }
        ensures recorded { RecordsIf (B.records self.old.backend) (Edits (read ∷ [])) result
            (B.records self.new.backend) }
        ensures loading { CountsOn (B.loads self.old.backend) result (B.loads self.new.backend) }
        ensures history { self.new.history.history ≡ self.old.history.history }
        ensures capacity { vec_capacity step.new.changes ≡ vec_capacity step.old.changes }
        ensures more { vec_len step.new.changes ≤ vec_len step.old.changes + 1 }
    {
        match self.history.prepare(self.alloc, read.edit()) {
            Ok(prepared) => self.edit_prepared(step, prepared, read),
            Err(_) => Err(EditFault::Refused(EditRefused::Memory)),
        }
    }

    /// Edits the stream by an edit whose text is read and for which this was prepared, if the stream
    /// may accept it.
    fn edit_prepared(
        &mut self,
        step: &mut OpenStep,
        prepared: Option<PreparedEdit>,
        read: ReadEdit,
    ) -> Result<Receipt, EditFault>
        requires begun { vec_len step.old.changes < vec_capacity step.old.changes }
        requires capacity { IfSome prepared (HasCapacity self.old.history.units) }
        requires follows { IfSome prepared (Follows self.old.history.units read) }
        requires none { prepared ≡ None → IsRefusedOf self.old.history.units read }
        ensures makes { MakesEditIn B.is_session self.old step.old read result self.new step.new }
        ensures recorded { RecordsIf (B.records self.old.backend) (Edits (read ∷ [])) result
            (B.records self.new.backend) }
        ensures loading { CountsOn (B.loads self.old.backend) result (B.loads self.new.backend) }
        ensures history { self.new.history.history ≡ self.old.history.history }
        ensures capacity { vec_capacity step.new.changes ≡ vec_capacity step.old.changes }
        ensures more { vec_len step.new.changes ≤ vec_len step.old.changes + 1 }
    {
        let bytes = bytes_of_edit(read.edit());
        let receipt = self.backend.edit(read)?;
        take_in(&mut self.history, step, prepared);
        self.sums = self.sums.with_edit(receipt.steps, bytes);
        Ok(receipt)
    }

    /// Makes edits together.
    pub(crate) fn group(&mut self, edits: Listed<Edit>) -> Result<Answer, Failure>
        ensures answers { GroupsAs B.is_session self.old edits result self.new }
        ensures recorded { RecordsIf (B.records self.old.backend) (Edits edits) result
            (B.records self.new.backend) }
    {
        self.edit_group(edits.into_items())
    }

    /// Makes these edits together, as one step.
    fn edit_group(&mut self, edits: Vec<Edit>) -> Result<Answer, Failure>
        ensures answers { GroupsAs B.is_session self.old edits.items result self.new }
        ensures recorded { RecordsIf (B.records self.old.backend) (Edits edits.items) result
            (B.records self.new.backend) }
    {
        match ReadGroup::read(self.alloc, edits) {
            Ok(group) => of_group_made(self.edit_group_read(group)),
            Err(refused) => of_group(Err(refused)),
        }
    }

    /// Makes edits together, those of a group whose texts are read, as one step.
    pub(crate) fn edit_group_read(&mut self, group: ReadGroup) -> Result<GroupReceipt, GroupFault>
        ensures makes { MakesStep B.is_session self.old group result self.new }
        ensures recorded { RecordsIf (B.records self.old.backend) (Edits group) result
            (B.records self.new.backend) }
    {
        match self.history.prepare_group(self.alloc, group.edits()) {
            Ok(prepared) => {
                let receipt = self.edit_together(group)?;
                take_in_group(&mut self.history, prepared);
                Ok(receipt)
            }
            Err(_) => Err(GroupFault::Refused(GroupRefused::Memory)),
        }
    }

    /// Makes edits together, those of a group whose texts are read.
    pub(crate) fn edit_together(&mut self, group: ReadGroup) -> Result<GroupReceipt, GroupFault>
        ensures makes { MakesGroup B.is_session self.old group result self.new }
        ensures recorded { RecordsIf (B.records self.old.backend) (Edits group) result
            (B.records self.new.backend) }
    {
        let bytes = bytes_of(group.edits());
        let receipt = self.backend.edit_group(group)?;
        self.sums = self.sums.with_edit(receipt.steps, bytes);
        Ok(receipt)
    }

    /// Marks the stream as it is.
    pub(crate) fn mark(&mut self) -> Result<Answer, Failure>
        ensures answers { MarksAs B.is_session self.old result self.new }
        ensures recorded { KeepsRecords (B.records self.old.backend) (B.records self.new.backend) }
    {
        of_mark(self.backend.mark())
    }

    /// Begins anew.
    pub(crate) fn reset(&mut self, wanted: &mut Vec<WantedUnit>) -> Result<Answer, Failure>
        ensures answers { ResetsAs B.is_session self.old wanted.old.items result self.new
            wanted.new.items }
        ensures recorded { RecordsOnly (B.records self.old.backend) [] result
            (B.records self.new.backend) }
    {
        let Ok(session) = self.backend.fresh(self.alloc) else {
            return Err(OUT_OF_MEMORY);
        };
        match self.backend.clear_records() {
            Ok(()) => {
                self.backend.begin_anew(session);
                self.sums = Sums::none();
                self.history = UndoRedo::new(self.alloc);
                *wanted = Vec::new(self.alloc);
                Ok(Answer::Word(Word::Reset))
            }
            Err(why) => Err(unkept_failure(why)),
        }
    }

    /// Drops the picture of the unit of this number, or without a number those that are cached.
    pub(crate) fn drop_picture(&mut self, number: Option<u64>) -> Result<Answer, Failure>
        ensures answers { DropsAs B.is_session self.old number result self.new }
        ensures recorded { KeepsRecords (B.records self.old.backend) (B.records self.new.backend) }
    {
        match number {
            Some(number) => of_drop(self.backend.drop_picture(id_of_number(number))),
            None => {
                self.backend.clear_cache();
                Ok(Answer::Word(Word::Cleared))
            }
        }
    }
}

/// The result of a mark.
fn of_mark(answer: Result<(), AllocError>) -> Result<Answer, Failure>
    ensures { result ≡ mark_answer answer }
{
    match answer {
        Ok(()) => Ok(Answer::Word(Word::Marked)),
        Err(_) => Err(OUT_OF_MEMORY),
    }
}
