//! What one who keeps no book does with a session.

ghost use Rattle.std.specs.Prelude.{◌≡◌, true};
ghost use Rattle.stream_session.specs.Grouping.{AnswersGroup};
ghost use Rattle.stream_session.specs.Machines.{AnswersEdit, KeepsPictures};
ghost use Rattle.stream_session.specs.Needing.{AnswersDrop};
ghost use Rattle.stream_session.specs.Showing.{Shows};
ghost use Rattle.decode_pool.specs.Waits.{IsReached};

use super::DeskState;
use decode_jobs::Decoded;
use h264_types::pictures::AuId;
use stream_edits::{EditRefused, GroupReceipt, GroupRefused, ReadEdit, ReadGroup, Receipt};
use stream_session::{Dropped, Session, Shown};

impl<P: Decoded> DeskState<P> {
    /// The session, to be asked.
    pub(crate) fn visited(&self) -> &Session<P>
        ensures reached { IsReached self.now.session }
        ensures session { result.now ≡ self.now.session }
    {
        self.session.reached();
        &self.session
    }

    /// Edits the session by an edit whose text is read.
    pub(crate) fn visit_edit(&mut self, read: ReadEdit) -> Result<Receipt, EditRefused>
        ensures reached { IsReached self.old.session }
        ensures session { AnswersEdit self.old.session read result self.new.session }
        ensures pictures { P.GoesBack ≡ true → KeepsPictures self.old.session self.new.session }
        ensures status { self.new.status ≡ self.old.status }
    {
        self.session.reached();
        self.session.edit_read(read)
    }

    /// Edits the session by a group whose texts are read.
    pub(crate) fn visit_group(&mut self, group: ReadGroup) -> Result<GroupReceipt, GroupRefused>
        ensures reached { IsReached self.old.session }
        ensures session { AnswersGroup self.old.session group result self.new.session }
        ensures pictures { P.GoesBack ≡ true → KeepsPictures self.old.session self.new.session }
        ensures status { self.new.status ≡ self.old.status }
    {
        self.session.reached();
        self.session.edit_group_read(group)
    }

    /// What is shown of the unit that has the id.
    pub(crate) fn visit_show(&self, id: AuId) -> Shown<P>
        ensures reached { IsReached self.now.session }
        ensures session { Shows P.IsOf self.now.session id result }
    {
        self.session.reached();
        self.session.show(id)
    }

    /// Gives back the picture of the unit that has the id.
    pub(crate) fn visit_drop(&mut self, id: AuId) -> Dropped<P>
        ensures reached { IsReached self.old.session }
        ensures session { AnswersDrop P.IsOf self.old.session id result self.new.session }
        ensures status { self.new.status ≡ self.old.status }
    {
        self.session.reached();
        self.session.drop_picture(id)
    }
}
