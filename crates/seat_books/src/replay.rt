//! A journal replayed beside a book.

ghost use Rattle.std.specs.Bool.{Decides};
ghost use Rattle.std.specs.Prelude.{◌≡◌, ◌⊎◌, ◌<◌, ◌≤◌, ◌==◌, [], ℕ, List, None, Some, IfOk, MatchBool, IsTrue, OnOk, length, slice_get, take, Contains, true, false, if◌then◌else◌};
ghost use Rattle.stream_edits.specs.declared.edits.Edit.{Edit as EditValue};
ghost use Rattle.stream_edits.specs.Streams.{place_of};
ghost use Rattle.decode_jobs.specs.Keys.{Key};
ghost use Rattle.picture_store.specs.Stores.{AreOneToOne, IsNumberOf};
ghost use Rattle.stream_session.specs.Machines.{store_of};
ghost use Rattle.stream_session.specs.Showing.{HasKey};
ghost use Rattle.stream_session.specs.Streams.{outcome_in};
ghost use Rattle.stream_session.specs.declared.showing.Shown.TheVariants.{Ready, Pending};
ghost use Rattle.unit_outcomes.specs.declared.outcome.Outcome.TheVariants as outcomes;
ghost use Rattle.seat_books.specs.declared.book.SeatBook.{SeatBook as Book};
ghost use Rattle.seat_books.specs.declared.receipts.SeatReceipt.{SeatReceipt as Receipt};
ghost use Rattle.seat_books.specs.declared.receipts.SeatReceipt.TheVariants.{Show as ShowNoted, Drop as DropNoted};
ghost use Rattle.seat_books.specs.Drops.{AreDrops};
ghost use Rattle.seat_books.specs.Following.{IsChecked, IsOf, IsReplayed, IsUpTo, MakesEntry, Sees, reach};
ghost use Rattle.seat_books.specs.Noting.{AreNoted};
ghost use Rattle.seat_books.specs.Sets.{has};

use crate::comparing::same_edits;
use crate::drop_table::DropTable;
use crate::making::make_entry;
use crate::number_set::NumberSet;
use crate::receipts::SeatReceipt;
use h264_types::pictures::AuId;
use stand_in_device::{Device, Picture};
use stand_in_session::{Config, Dropping, Edit, JournalEntry, Session, Shown};
use std::alloc::{AllocError, Global};
use std::slice;
use unit_outcomes::{Outcome, ValidityFault};

/// A journal replayed so far beside the book of a seat, counted from 0. Its session caches no
/// picture, so that a picture which is held has been wanted ever since it was decoded. Of the keys
/// whose pictures are held, `ready` has the numbers of those that the book shows as ready since
/// then and nobody has dropped. Of the keys in use, `gone` has the numbers of those that other
/// seats have dropped at just this length.
pub(crate) struct Replay {
    pub(crate) alloc: Global,
    pub(crate) seat: usize,
    pub(crate) session: Session,
    pub(crate) device: Device,
    pub(crate) ready: NumberSet,
    pub(crate) gone: NumberSet,
}

// By hand, so that whoever drops one is proved over one call.
impl Drop for Replay {
    fn drop(self) {
        let Replay {
            alloc: _,
            seat: _,
            session: _,
            device: _,
            ready: _,
            gone: _,
        } = self;
    }
}

impl Replay {
    /// Before the first edit and the first receipt.
    pub(crate) fn new(alloc: Global, seat: usize) -> Result<Replay, AllocError>
        ensures { IfOk result (λ replay. (journal : List (List EditValue)) (books : List Book)
            → IsUpTo journal books seat [] replay) }
    {
        let Ok(session) = Session::new(alloc, Config { cache: 1 }) else {
            return Err(AllocError);
        };
        Ok(Replay {
            alloc,
            seat,
            session,
            device: Device::new(alloc),
            ready: NumberSet::new(alloc),
            gone: NumberSet::new(alloc),
        })
    }

    /// Whether the next receipt of the book agrees. The books of lower seats have noted edits at
    /// these lengths, and those of all seats these drops.
    pub(crate) fn agrees(
        &mut self,
        journal: &[JournalEntry],
        noted: &NumberSet,
        drops: &DropTable,
        receipt: &SeatReceipt,
    ) -> Result<bool, AllocError>
        ensures { IfOk result (λ agrees. (books : List Book) (seat : ℕ) (earlier : List Receipt)
            → AreNoted (take seat books) noted.now → AreDrops journal.now books drops.now
            → IsUpTo journal.now books seat earlier self.old
            → IsChecked journal.now books seat earlier receipt.now agrees self.new) }
    {
        match receipt {
            SeatReceipt::Edit { edit, id, length } => {
                let (edits, ids) = (slice::from_ref(edit), slice::from_ref(id));
                self.agrees_edit(journal, noted, drops, edits, ids, *length)
            }
            SeatReceipt::Group { group, length } => {
                self.agrees_edit(journal, noted, drops, group.edits(), group.ids(), *length)
            }
            SeatReceipt::Show { id, shown, length } => {
                self.agrees_show(journal, drops, *id, *shown, *length)
            }
            SeatReceipt::Drop { id, answer, length } => {
                self.agrees_drop(journal, drops, *id, *answer, *length)
            }
        }
    }

    /// Whether the receipt of an edit or a group agrees.
    fn agrees_edit(
        &mut self,
        journal: &[JournalEntry],
        noted: &NumberSet,
        drops: &DropTable,
        edits: &[Edit],
        ids: &[AuId],
        length: u64,
    ) -> Result<bool, AllocError>
        ensures { IfOk result (λ agrees. (books : List Book) (seat : ℕ) (earlier : List Receipt)
            (receipt : Receipt)
            → AreNoted (take seat books) noted.now → AreDrops journal.now books drops.now
            → IsOf receipt edits.now ids.now length
            → IsUpTo journal.now books seat earlier self.old
            → IsChecked journal.now books seat earlier receipt agrees self.new) }
    {
        if length <= self.reach() || length > journal.len() as u64 || noted.has(length) {
            return Ok(false);
        }
        let at = (length - 1) as usize;
        if !same_edits(edits, journal[at].edits()) {
            return Ok(false);
        }
        self.go_on(journal, drops, at)?;
        let given = self.make(drops, edits)?;
        Ok(given.as_slice() == ids)
    }

    /// Whether the receipt of a show agrees.
    fn agrees_show(
        &mut self,
        journal: &[JournalEntry],
        drops: &DropTable,
        id: AuId,
        shown: Shown,
        length: u64,
    ) -> Result<bool, AllocError>
        ensures { IfOk result (λ agrees. (books : List Book) (seat : ℕ) (earlier : List Receipt)
            → AreDrops journal.now books drops.now → IsUpTo journal.now books seat earlier self.old
            → IsChecked journal.now books seat earlier (ShowNoted id shown length) agrees
            self.new) }
    {
        if !self.comes_to(journal, drops, length)? {
            return Ok(false);
        }
        self.sees(id, shown)
    }

    /// Whether the receipt of a drop agrees.
    fn agrees_drop(
        &mut self,
        journal: &[JournalEntry],
        drops: &DropTable,
        id: AuId,
        answer: Dropping,
        length: u64,
    ) -> Result<bool, AllocError>
        ensures { IfOk result (λ agrees. (books : List Book) (seat : ℕ) (earlier : List Receipt)
            → AreDrops journal.now books drops.now → IsUpTo journal.now books seat earlier self.old
            → IsChecked journal.now books seat earlier (DropNoted id answer length) agrees
            self.new) }
    {
        if !self.comes_to(journal, drops, length)? {
            return Ok(false);
        }
        Ok(self.loses(id, answer))
    }

    /// Whether the receipt of a show or a drop may have the length. Where it may, the entries up to
    /// that are made.
    fn comes_to(
        &mut self,
        journal: &[JournalEntry],
        drops: &DropTable,
        to: u64,
    ) -> Result<bool, AllocError>
        ensures { IfOk result (λ may. (books : List Book) (seat : ℕ) (earlier : List Receipt)
            → AreDrops journal.now books drops.now → IsReplayed journal.now books seat earlier
            self.old
            → MatchBool may
            (IsReplayed journal.now books seat earlier self.new × (reach self.new ≡ to))
            ((to < reach self.old) ⊎ (length journal.now < to))) }
    {
        if to < self.reach() || to > journal.len() as u64 {
            return Ok(false);
        }
        self.go_on(journal, drops, to as usize)?;
        Ok(true)
    }

    /// How many edits and groups were made.
    pub(crate) fn reach(&self) -> u64
        ensures { result ≡ reach self.now }
    {
        self.session.journal().len() as u64
    }

    /// Makes the entries of the journal up to so many.
    fn go_on(
        &mut self,
        journal: &[JournalEntry],
        drops: &DropTable,
        to: usize,
    ) -> Result<(), AllocError>
        requires { to ≤ length journal.now }
        ensures { OnOk result ((books : List Book) (seat : ℕ) (earlier : List Receipt)
            → AreDrops journal.now books drops.now → IsReplayed journal.now books seat earlier
            self.old
            → reach self.old ≤ to → IsReplayed journal.now books seat earlier self.new
            × (reach self.new ≡ to)) }
    {
        for at in self.session.journal().len()..to {
            let _ = self.make(drops, journal[at].edits())?;
        }
        Ok(())
    }

    /// Makes one entry more, and answers the ids that its edits are given.
    fn make(&mut self, drops: &DropTable, edits: &[Edit]) -> Result<Vec<AuId>, AllocError>
        ensures makes { IfOk result (λ ids. MakesEntry self.old.session edits.now ids.items
            self.new.session) }
        ensures follows { OnOk result ((journal : List (List EditValue)) (books : List Book)
            (seat : ℕ)
            (earlier : List Receipt) → AreDrops journal books drops.now
            → IsReplayed journal books seat earlier self.old
            → slice_get journal (reach self.old) ≡ Some edits.now
            → IsReplayed journal books seat earlier self.new) }
    {
        let _ = self.session.numbers();
        let ids = make_entry(self.alloc, &mut self.session, edits)?;
        self.session.clear_cache();
        self.pass_drops(drops)?;
        Ok(ids)
    }

    /// Whether this may be shown now.
    fn sees(&mut self, id: AuId, shown: Shown) -> Result<bool, AllocError>
        ensures { IfOk result (λ possible. (journal : List (List EditValue)) (books : List Book)
            (seat : ℕ)
            (earlier : List Receipt) → IsReplayed journal books seat earlier self.old
            → Sees journal books seat earlier self.old id shown possible self.new) }
    {
        match shown {
            Shown::Ready(picture) => self.shows(id, picture),
            Shown::Pending => Ok(self.may_wait(id)),
            Shown::Fault(fault) => Ok(has_fault(&self.session, id, fault)),
            Shown::Empty => Ok(is_empty(&self.session, id)),
            Shown::NoSuchUnit => Ok(is_absent(&self.session, id)),
        }
    }

    /// Whether this is the picture of the unit's key, which is ready then. Once what is due is
    /// decoded, the session holds the picture of each valid unit.
    fn shows(&mut self, id: AuId, picture: Picture) -> Result<bool, AllocError>
        ensures { IfOk result (λ possible. (journal : List (List EditValue)) (books : List Book)
            (seat : ℕ)
            (earlier : List Receipt) → IsReplayed journal books seat earlier self.old
            → Sees journal books seat earlier self.old id (Ready picture) possible self.new) }
    {
        let Ok(Some(key)) = self.session.key(id) else {
            return Ok(false);
        };
        self.settle()?;
        let Shown::Ready(made) = self.session.show(id) else {
            return Err(AllocError);
        };
        if !same_picture(made, picture) {
            return Ok(false);
        }
        self.add_ready(key.number())?;
        Ok(true)
    }

    /// A key is ready by its number, unless another seat has dropped its picture at this length.
    fn add_ready(&mut self, number: u64) -> Result<(), AllocError>
        ensures own { self.new.seat ≡ self.old.seat }
        ensures session { self.new.session ≡ self.old.session }
        ensures gone { self.new.gone ≡ self.old.gone }
        ensures ready { OnOk result ((other : ℕ) → has self.new.ready other
            ≡ (if has self.old.gone number then has self.old.ready other else
            (if number == other then true else has self.old.ready other))) }
    {
        if !self.gone.has(number) {
            self.ready.add(number)?;
        }
        Ok(())
    }

    /// Whether the unit is valid, and its key isn't ready.
    pub(crate) fn may_wait(&self, id: AuId) -> bool
        ensures { (journal : List (List EditValue)) (books : List Book) (seat : ℕ)
            (earlier : List Receipt)
            → IsReplayed journal books seat earlier self.now
            → Sees journal books seat earlier self.now id Pending result self.now }
    {
        match self.session.key(id) {
            Ok(Some(key)) => !(self.is_held(id) && self.ready.has(key.number())),
            Ok(None) | Err(_) => false,
        }
    }

    /// Whether the picture of the unit that has the id is held.
    fn is_held(&self, id: AuId) -> bool
        ensures { (key : Key) → HasKey self.now.session.register.stream id key
            → Decides result (Contains self.now.session.held key) }
    {
        match self.session.show(id) {
            Shown::Ready(_) => true,
            Shown::Pending => false,
            Shown::Fault(_) => false,
            Shown::Empty => false,
            Shown::NoSuchUnit => false,
        }
    }

    /// The key of the unit that has the id, if it has one, isn't ready any more.
    pub(crate) fn forget(&mut self, id: AuId)
        ensures own { self.new.seat ≡ self.old.seat }
        ensures session { self.new.session ≡ self.old.session }
        ensures gone { self.new.gone ≡ self.old.gone }
        ensures ready { (key : Key) → HasKey self.old.session.register.stream id key
            → (number : ℕ) × IsNumberOf (store_of self.old.session) key number
            × AreOneToOne (store_of self.old.session) (store_of self.old.session)
            × ((other : ℕ) → has self.new.ready other
            ≡ (if number == other then false else has self.old.ready other)) }
    {
        if let Ok(Some(key)) = self.session.key(id) {
            self.ready.remove(key.number());
        }
    }
}

/// Whether no unit has the id.
pub(crate) fn is_absent(session: &Session, id: AuId) -> bool
    ensures { Decides result (place_of session.now.register.stream id ≡ None) }
{
    match session.place(id) {
        Some(_) => false,
        None => true,
    }
}

/// Whether the unit that has the id has this fault.
fn has_fault(session: &Session, id: AuId, fault: ValidityFault) -> bool
    ensures { Decides result
        (outcome_in session.now.register.stream id ≡ Some (outcomes.Fault fault)) }
{
    match session.outcome(id) {
        Ok(Outcome::Fault(other)) => *other == fault,
        Ok(Outcome::Plan(_) | Outcome::Empty) | Err(_) => false,
    }
}

/// Whether the unit that has the id has no picture.
fn is_empty(session: &Session, id: AuId) -> bool
    ensures { Decides result (outcome_in session.now.register.stream id ≡ Some outcomes.Empty) }
{
    match session.outcome(id) {
        Ok(Outcome::Empty) => true,
        Ok(Outcome::Plan(_) | Outcome::Fault(_)) | Err(_) => false,
    }
}

/// Whether both are the same picture.
fn same_picture(picture: Picture, other: Picture) -> bool
    ensures { Decides result (picture ≡ other) }
{
    picture.digest == other.digest
}
