//! The pictures that are dropped, as a journal is replayed.

ghost use Rattle.std.specs.Bool.{Decides};
ghost use Rattle.std.specs.Prelude.{◌≡◌, ◌&&◌, ℕ, List, OnOk, not};
ghost use Rattle.stream_edits.specs.declared.edits.Edit.{Edit as EditValue};
ghost use Rattle.decode_jobs.specs.Keys.{Key};
ghost use Rattle.stream_session.specs.Showing.{HasKey};
ghost use Rattle.seat_books.specs.declared.book.SeatBook.{SeatBook as Book};
ghost use Rattle.seat_books.specs.declared.receipts.SeatReceipt.{SeatReceipt as Receipt};
ghost use Rattle.seat_books.specs.Books.{HasNoKey};
ghost use Rattle.seat_books.specs.Drops.{AreLost, LosesOne, drops_at};
ghost use Rattle.seat_books.specs.Following.{IsReplayed, Loses, reach};
ghost use Rattle.seat_books.specs.Sets.{has};

use crate::drop_table::DropTable;
use crate::number_set::NumberSet;
use crate::replay::{Replay, is_absent};
use h264_types::pictures::AuId;
use stand_in_session::{Dropping, Session};
use std::alloc::AllocError;

impl Replay {
    /// Passes the pictures that other seats dropped after as many entries as were made now.
    pub(crate) fn pass_drops(&mut self, drops: &DropTable) -> Result<(), AllocError>
        ensures own { self.new.seat ≡ self.old.seat }
        ensures session { self.new.session ≡ self.old.session }
        ensures gone { OnOk result
            (AreLost self.old.session self.old.seat (drops_at drops.now (reach self.old))
            self.new.gone) }
        ensures ready { OnOk result ((number : ℕ) → has self.new.ready number
            ≡ (has self.old.ready number && not (has self.new.gone number))) }
    {
        self.gone = NumberSet::new(self.alloc);
        for dropped in drops.at(self.reach() as usize) {
            if dropped.seat != self.seat {
                self.lose(dropped.id)?;
            }
        }
        Ok(())
    }

    /// Another seat drops the picture of the unit that has the id.
    fn lose(&mut self, id: AuId) -> Result<(), AllocError>
        ensures own { self.new.seat ≡ self.old.seat }
        ensures session { self.new.session ≡ self.old.session }
        ensures lost { OnOk result (LosesOne self.old id self.new) }
    {
        match self.session.key(id) {
            Ok(Some(key)) => {
                self.gone.add(key.number())?;
                self.ready.remove(key.number());
                Ok(())
            }
            Ok(None) => Ok(()),
            Err(_) => Ok(()),
        }
    }

    /// Whether this may be answered to the seat that drops a picture now. Where it may and the
    /// picture was dropped, the unit's key isn't ready any more.
    pub(crate) fn loses(&mut self, id: AuId, answer: Dropping) -> bool
        ensures { (journal : List (List EditValue)) (books : List Book) (seat : ℕ)
            (earlier : List Receipt)
            → IsReplayed journal books seat earlier self.old
            → Loses journal books seat earlier self.old id answer result self.new }
    {
        match answer {
            Dropping::Dropped => {
                let is_valid = has_key(&self.session, id);
                self.forget(id);
                is_valid
            }
            Dropping::NotHeld => has_no_key(&self.session, id) || self.may_wait(id),
            Dropping::NoSuchUnit => is_absent(&self.session, id),
        }
    }
}

/// Whether the unit that has the id is valid.
fn has_key(session: &Session, id: AuId) -> bool
    ensures { Decides result ((key : Key) × HasKey session.now.register.stream id key) }
{
    match session.key(id) {
        Ok(Some(_)) => true,
        Ok(None) | Err(_) => false,
    }
}

/// Whether the unit that has the id is there and isn't valid.
fn has_no_key(session: &Session, id: AuId) -> bool
    ensures { Decides result (HasNoKey session.now.register.stream id) }
{
    match session.key(id) {
        Ok(None) => true,
        Ok(Some(_)) | Err(_) => false,
    }
}
