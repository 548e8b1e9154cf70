//! What seats do with the session of a desk.

ghost use Rattle.std.specs.Prelude.{◌≡◌, length, IfOk};
ghost use Rattle.stream_edits.specs.Groups.{IsSized};
ghost use Rattle.stream_session.specs.Grouping.{AnswersGroup};
ghost use Rattle.stand_in_session.specs.Showing.{Shows};
ghost use Rattle.decode_pool.specs.Appends.{AppendsOn, AppendsOne};
ghost use Rattle.decode_pool.specs.Seats.{AnswersDropIn, AnswersEditIn, IsReached, NotesDrop, NotesEdit, NotesGroup, NotesShow};

use super::DeskState;
use crate::appending::Appended;
use crate::group_note::GroupNote;
use crate::seat::Seat;
use h264_types::pictures::AuId;
use picture_keys::HashedUnit;
use stand_in_session::{
    Dropping, EditRefused, GroupReceipt, GroupRefused, Picture, ReadEdit, ReadGroup, Receipt, Shown,
};
use std::alloc::AllocError;

impl DeskState<Picture> {
    /// A seat edits the session by an edit whose text is read.
    pub(crate) fn edit_read(
        &mut self,
        seat: &mut Seat,
        read: ReadEdit,
    ) -> Result<Receipt, EditRefused>
        ensures reached { IsReached self.old.session }
        ensures session { AnswersEditIn self.old.session read result self.new.session }
        ensures book { NotesEdit seat.old read result (length self.new.session.journal) seat.new }
        ensures status { self.new.status ≡ self.old.status }
    {
        self.session.reached();
        seat.edit_read_in(&mut self.session, read)
    }

    /// A seat edits the session by a group whose texts are read.
    pub(crate) fn edit_group(
        &mut self,
        seat: &mut Seat,
        group: ReadGroup,
        note: GroupNote,
    ) -> Result<GroupReceipt, GroupRefused>
        requires sized { IsSized group }
        requires noted { note.edits.items ≡ group }
        ensures reached { IsReached self.old.session }
        ensures session { AnswersGroup self.old.session group result self.new.session }
        ensures book { NotesGroup seat.old group result (length self.new.session.journal) seat.new }
        ensures status { self.new.status ≡ self.old.status }
    {
        self.session.reached();
        seat.edit_noted_group_in(&mut self.session, group, note)
    }

    /// A seat is shown a unit.
    pub(crate) fn show(&self, seat: &mut Seat, id: AuId) -> Result<Shown, AllocError>
        ensures reached { IsReached self.now.session }
        ensures session { IfOk result (λ shown. Shows self.now.session id shown) }
        ensures book { NotesShow seat.old id result (length self.now.session.journal) seat.new }
    {
        self.session.reached();
        seat.show_in(&self.session, id)
    }

    /// A seat drops the picture of a unit.
    pub(crate) fn drop_picture(&mut self, seat: &mut Seat, id: AuId) -> Result<Dropping, AllocError>
        ensures reached { IsReached self.old.session }
        ensures session { AnswersDropIn self.old.session id result self.new.session }
        ensures book { NotesDrop seat.old id result (length self.new.session.journal) seat.new }
        ensures status { self.new.status ≡ self.old.status }
    {
        self.session.reached();
        seat.drop_picture_in(&mut self.session, id)
    }

    /// A seat inserts units after the last one, in their order, up to the first that is refused.
    pub(crate) fn append_read(&mut self, seat: &mut Seat, units: Vec<HashedUnit>) -> Appended
        ensures reached { IsReached self.old.session }
        ensures appended { AppendsOn 0 self.old.session seat.old units.items result self.new.session
            seat.new }
        ensures status { self.new.status ≡ self.old.status }
    {
        self.session.reached();
        let mut inserted = 0;
        for unit in units {
            if let Err(refused) = self.append_one(seat, unit) {
                return Appended {
                    inserted,
                    refused: Some(refused),
                };
            }
            inserted += 1;
        }
        Appended {
            inserted,
            refused: None,
        }
    }

    /// A seat inserts a unit after the last one.
    fn append_one(&mut self, seat: &mut Seat, unit: HashedUnit) -> Result<Receipt, EditRefused>
        ensures reached { IsReached self.old.session }
        ensures appended { AppendsOne self.old.session seat.old unit result self.new.session
            seat.new }
        ensures status { self.new.status ≡ self.old.status }
    {
        let place = self.last().end();
        let read = ReadEdit::insertion(seat.alloc, place, unit)?;
        self.edit_read(seat, read)
    }
}
