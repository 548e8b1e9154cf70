//! A seat: one user of a desk, and its book.

ghost use Rattle.std.specs.Prelude.{◌≡◌, ◌≤◌, [], length, IfOk};
ghost use Rattle.stream_edits.specs.Groups.{IsSized, most_edits};
ghost use Rattle.stream_edits.specs.Streams.{last_of};
ghost use Rattle.stream_session.specs.Grouping.{AnswersGroup};
ghost use Rattle.stand_in_session.specs.Showing.{Shows};
ghost use Rattle.decode_pool.specs.Seats.{AnswersDropIn, AnswersEditIn, DropsOne, EditsGroupOne, EditsOne, IsLastOfOne, NotesDrop, NotesEdit, NotesGroup, NotesShow, ShowsOne, WaitsForOne};

use crate::group_note::GroupNote;
use crate::stand_in::Desk;
use crate::state::Settled;
use h264_types::pictures::AuId;
use seat_books::{SeatBook, SeatReceipt};
use stand_in_session::{
    Dropping, Edit, EditRefused, GroupReceipt, GroupRefused, Last, ReadEdit, ReadGroup, Receipt,
    Session, Shown, drop_picture,
};
use std::alloc::{AllocError, Global};
use std::sync::Wait;

/// One user of a desk, with the book of what it did and was shown.
#[derive(Debug, Drop)]
pub struct Seat {
    pub(crate) alloc: Global,
    pub(crate) number: usize,
    pub(crate) book: SeatBook,
}

impl Seat {
    /// The seat of this number, whose book is empty.
    pub(crate) fn new(alloc: Global, number: usize) -> Seat
        ensures number { result.number ≡ number }
        ensures book { result.book.receipts.items ≡ [] }
    {
        Seat {
            alloc,
            number,
            book: SeatBook::new(alloc),
        }
    }

    /// The seat's book.
    pub fn book(&self) -> &SeatBook
        ensures { result.now ≡ self.now.book }
    {
        &self.book
    }

    /// Edits a session that is lent, and notes the edit where it is accepted. What the book needs
    /// is made first: where memory for that is refused, the session isn't asked.
    pub fn edit_in(&mut self, session: &mut Session, edit: Edit) -> Result<Receipt, EditRefused>
        ensures session { AnswersEditIn session.old edit result session.new }
        ensures book { NotesEdit self.old edit result (length session.new.journal) self.new }
    {
        let read = edit.read(self.alloc)?;
        self.edit_read_in(session, read)
    }

    /// Edits a session that is lent as `edit_in` does, by an edit whose text is read.
    pub fn edit_read_in(
        &mut self,
        session: &mut Session,
        read: ReadEdit,
    ) -> Result<Receipt, EditRefused>
        ensures session { AnswersEditIn session.old read result session.new }
        ensures book { NotesEdit self.old read result (length session.new.journal) self.new }
    {
        self.book.receipts.reserve(1)?;
        let noted = read.edit().copy()?;
        let receipt = session.edit_read(read)?;
        self.book.receipts.push_reserved(SeatReceipt::Edit {
            edit: noted,
            id: receipt.id,
            length: receipt.number,
        });
        Ok(receipt)
    }

    /// Makes edits together on a session that is lent, as one step, and notes them as one receipt
    /// where they are accepted. What the book needs is made first, as in `edit_in`.
    pub fn edit_group_in(
        &mut self,
        session: &mut Session,
        edits: Vec<Edit>,
    ) -> Result<GroupReceipt, GroupRefused>
        ensures session { AnswersGroup session.old edits.items result session.new }
        ensures book { NotesGroup self.old edits.items result (length session.new.journal)
            self.new }
        ensures few { IfOk result (λ _. length edits.items ≤ most_edits) }
    {
        let group = ReadGroup::read(self.alloc, edits)?;
        self.edit_group_read_in(session, group)
    }

    /// Makes edits together on a session that is lent as `edit_group_in` does, those of a group
    /// whose texts are read.
    pub fn edit_group_read_in(
        &mut self,
        session: &mut Session,
        group: ReadGroup,
    ) -> Result<GroupReceipt, GroupRefused>
        ensures session { AnswersGroup session.old group result session.new }
        ensures book { NotesGroup self.old group result (length session.new.journal) self.new }
    {
        let note = GroupNote::of(self.alloc, group.edits())?;
        self.edit_noted_group_in(session, group, note)
    }

    /// Makes edits together on a session that is lent, those of a group whose texts are read, of
    /// which this is noted.
    pub(crate) fn edit_noted_group_in(
        &mut self,
        session: &mut Session,
        group: ReadGroup,
        note: GroupNote,
    ) -> Result<GroupReceipt, GroupRefused>
        requires sized { IsSized group }
        requires noted { note.edits.items ≡ group }
        ensures session { AnswersGroup session.old group result session.new }
        ensures book { NotesGroup self.old group result (length session.new.journal) self.new }
    {
        self.book.receipts.reserve(1)?;
        let receipt = session.edit_group_read(group)?;
        let (group, length) = (note.with_ids(&receipt.ids), receipt.number);
        self.book
            .receipts
            .push_reserved(SeatReceipt::Group { group, length });
        Ok(receipt)
    }

    /// What a session that is lent shows of the unit that has the id, which is noted.
    pub fn show_in(&mut self, session: &Session, id: AuId) -> Result<Shown, AllocError>
        ensures session { IfOk result (λ shown. Shows session.now id shown) }
        ensures book { NotesShow self.old id result (length session.now.journal) self.new }
    {
        self.book.receipts.reserve(1)?;
        let shown = session.show(id);
        self.book.receipts.push_reserved(SeatReceipt::Show {
            id,
            shown,
            length: session.journal().len() as u64,
        });
        Ok(shown)
    }

    /// Drops the picture of the unit that has the id, of a session that is lent, and notes what
    /// comes of that. The place in the book is made first: where memory for it is refused, the
    /// session isn't asked.
    pub fn drop_picture_in(
        &mut self,
        session: &mut Session,
        id: AuId,
    ) -> Result<Dropping, AllocError>
        ensures session { AnswersDropIn session.old id result session.new }
        ensures book { NotesDrop self.old id result (length session.new.journal) self.new }
    {
        self.book.receipts.reserve(1)?;
        let answer = drop_picture(session, id);
        let length = session.journal().len() as u64;
        let receipt = SeatReceipt::Drop { id, answer, length };
        self.book.receipts.push_reserved(receipt);
        Ok(answer)
    }

    /// Edits the desk's session as `edit_in` does, while no one else does. The edit's text is read
    /// before that, so that others don't wait for it; an edit that is refused for its text asks no
    /// session.
    pub fn edit<R: Wait>(&mut self, rt: &R, desk: &Desk, edit: Edit) -> Result<Receipt, EditRefused>
        ensures { EditsOne self.old edit result self.new }
    {
        let read = edit.read(self.alloc)?;
        self.edit_read(rt, desk, read)
    }

    /// Edits the desk's session as `edit` does, by an edit whose text is read.
    pub fn edit_read<R: Wait>(
        &mut self,
        rt: &R,
        desk: &Desk,
        read: ReadEdit,
    ) -> Result<Receipt, EditRefused>
        ensures { EditsOne self.old read result self.new }
    {
        let mut state = desk.state.lock(rt);
        let answer = state.edit_read(self, read);
        desk.wake(state);
        answer
    }

    /// Makes edits together on the desk's session as `edit_group_in` does, while no one else edits
    /// it or asks. Their texts are read and they are copied for the book before that, so that
    /// others don't wait for it; a group that is refused for its size asks no session.
    pub fn edit_group<R: Wait>(
        &mut self,
        rt: &R,
        desk: &Desk,
        edits: Vec<Edit>,
    ) -> Result<GroupReceipt, GroupRefused>
        ensures edits { EditsGroupOne self.old edits.items result self.new }
        ensures few { IfOk result (λ _. length edits.items ≤ most_edits) }
    {
        let group = ReadGroup::read(self.alloc, edits)?;
        self.edit_group_read(rt, desk, group)
    }

    /// Makes edits together on the desk's session as `edit_group` does, those of a group whose
    /// texts are read.
    pub fn edit_group_read<R: Wait>(
        &mut self,
        rt: &R,
        desk: &Desk,
        group: ReadGroup,
    ) -> Result<GroupReceipt, GroupRefused>
        ensures { EditsGroupOne self.old group result self.new }
    {
        let note = GroupNote::of(self.alloc, group.edits())?;
        let mut state = desk.state.lock(rt);
        let answer = state.edit_group(self, group, note);
        desk.wake(state);
        answer
    }

    /// What the desk's session shows of the unit that has the id, as `show_in` does.
    pub fn show<R: Wait>(&mut self, rt: &R, desk: &Desk, id: AuId) -> Result<Shown, AllocError>
        ensures { ShowsOne self.old id result self.new }
    {
        desk.state.lock(rt).show(self, id)
    }

    /// Drops the picture of the unit that has the id, of the desk's session, as `drop_picture_in`
    /// does. A job for it may be due again then.
    pub fn drop_picture<R: Wait>(
        &mut self,
        rt: &R,
        desk: &Desk,
        id: AuId,
    ) -> Result<Dropping, AllocError>
        ensures { DropsOne self.old id result self.new }
    {
        let mut state = desk.state.lock(rt);
        let answer = state.drop_picture(self, id);
        desk.wake(state);
        answer
    }

    /// Drops the pictures that the desk's session caches. It takes no memory, and isn't noted.
    pub fn clear_cache<R: Wait>(&self, rt: &R, desk: &Desk) {
        desk.state.lock(rt).clear_cache();
    }

    /// How many units the desk's stream has, and the id of the last one.
    pub fn last<R: Wait>(&self, rt: &R, desk: &Desk) -> Last
        ensures { IsLastOfOne result }
    {
        desk.state.lock(rt).last()
    }

    /// Waits until no unit of the desk's stream is pending; or one is, but the rest isn't wanted,
    /// no wanted unit is pending and no job is out; or until no worker is left though one is
    /// pending: as many have ended as the desk was opened for.
    pub fn settle<R: Wait>(&self, rt: &R, desk: &Desk) -> Settled
        ensures { WaitsForOne result }
    {
        desk.settle(rt)
    }
}
