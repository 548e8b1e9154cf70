//! A session whose edits are recorded before they are made.

ghost use Rattle.std.specs.Prelude.{◌≡◌, ◌+◌, ◌-◌, ◌^◌, ◌∷◌, ℕ, [], None, Some, IfOk, IsOk, is_some, min};
ghost use Rattle.session_journal.specs.declared.steps.step.RecordedStep.TheVariants.{Edits};
ghost use Rattle.stream_edits.specs.Streams.{last_of, place_after};
ghost use Rattle.serve_calls.specs.Journaled.{IsLoadKeptAt, IsRecorded, IsTakenOff, insertions_from};
ghost use Rattle.serve_calls.specs.Offering.{offering};
ghost use Rattle.serve_calls.specs.Recording.{Stands, StandsLoad};
ghost use Rattle.serve_calls.specs.Sessions.{Asks};

use crate::backend::{Backend, LendsSession};
use crate::unmade::{EditFault, GroupFault};
use h264_types::pictures::AuId;
use picture_keys::HashedUnit;
use serve_answers::Answer;
use serve_requests::Failure;
use session_journal::{Records, Unkept};
use stand_in_session::{Dropping, GroupReceipt, ReadEdit, ReadGroup, Receipt, Session};
use std::alloc::{AllocError, Global};
use stream_edits::snapshots::{ReadSnapshot, Snapshot};
use stream_edits::{Edit, InsertionPoint};

/// A session with a journal, or without one.
#[derive(Drop)]
pub struct Journaled<B, K> {
    pub backend: B,
    /// By whom edits are recorded, if they are.
    pub journal: Option<K>,
    /// How many units of a load were inserted, while one is under way: it is recorded as a whole.
    pub(crate) loaded: Option<usize>,
}

impl<B, K> Journaled<B, K> {
    /// A session whose edits aren't recorded so far.
    pub fn new(backend: B) -> Journaled<B, K>
        ensures backend { result.backend ≡ backend }
        ensures journal { result.journal ≡ None }
        ensures loaded { result.loaded ≡ None }
    {
        Journaled {
            backend,
            journal: None,
            loaded: None,
        }
    }
}

impl<B, K: Records> Journaled<B, K> {
    /// Records an edit by itself, unless it is one of a load.
    fn record_edit(&mut self, edit: &Edit) -> Result<(), Unkept>
        ensures backend { self.new.backend ≡ self.old.backend }
        ensures loaded { self.new.loaded ≡ self.old.loaded }
        ensures kept { self.old.loaded ≡ None → IsRecorded K.stands K.ends self.old.journal
            (Edits (edit.now ∷ [])) result self.new.journal }
        ensures loading { (count : ℕ) → self.old.loaded ≡ Some count
            → IsOk result × (self.new.journal ≡ self.old.journal) }
    {
        if self.loaded.is_some() {
            return Ok(());
        }
        match &mut self.journal {
            Some(journal) => match journal.keep_edit(edit) {
                Ok(()) => Ok(()),
                Err(why) => Err(why),
            },
            None => Ok(()),
        }
    }

    /// Records edits that are to be made together.
    fn record_group(&mut self, edits: &[Edit]) -> Result<(), Unkept>
        ensures backend { self.new.backend ≡ self.old.backend }
        ensures loaded { self.new.loaded ≡ self.old.loaded }
        ensures kept { IsRecorded K.stands K.ends self.old.journal (Edits edits.now) result
            self.new.journal }
    {
        match &mut self.journal {
            Some(journal) => match journal.keep_group(edits) {
                Ok(()) => Ok(()),
                Err(why) => Err(why),
            },
            None => Ok(()),
        }
    }

    /// Records the insertions of these units one after the other, the first of them at a place.
    fn record_load(
        &mut self,
        alloc: Global,
        place: InsertionPoint,
        units: &[HashedUnit],
    ) -> Result<(), Unkept>
        ensures backend { self.new.backend ≡ self.old.backend }
        ensures loaded { self.new.loaded ≡ self.old.loaded }
        ensures kept { IsLoadKeptAt K.stands K.ends place self.old.journal units.now result
            self.new.journal }
    {
        let Some(journal) = &mut self.journal else {
            return Ok(());
        };
        let given = journal.ids_given();
        match insertions(alloc, place, given, units) {
            Ok(edits) => match journal.keep_load(edits) {
                Ok(()) => Ok(()),
                Err(why) => Err(why),
            },
            Err(why) => Err(why),
        }
    }

    /// Takes the last record off again, whose edits aren't made, unless it is that of a load.
    fn take_off(&mut self)
        ensures backend { self.new.backend ≡ self.old.backend }
        ensures loaded { self.new.loaded ≡ self.old.loaded }
        ensures taken { self.old.loaded ≡ None
            → IsTakenOff K.stands K.ends self.old.journal self.new.journal }
        ensures loading { (count : ℕ) → self.old.loaded ≡ Some count
            → self.new.journal ≡ self.old.journal }
    {
        if self.loaded.is_some() {
            return;
        }
        if let Some(journal) = &mut self.journal {
            journal.shorten(0);
        }
    }

    /// Counts a unit that was inserted, if it is one of a load.
    fn count(&mut self)
        ensures backend { self.new.backend ≡ self.old.backend }
        ensures journal { self.new.journal ≡ self.old.journal }
        ensures alone { self.old.loaded ≡ None → self.new.loaded ≡ None }
        ensures counted { (count : ℕ) → self.old.loaded ≡ Some count
            → self.new.loaded ≡ Some (min (count + 1) (2 ^ 64 - 1)) }
    {
        if let Some(count) = self.loaded {
            self.loaded = Some(count.saturating_add(1));
        }
    }
}

impl<B: LendsSession, K> Journaled<B, K> {
    /// The end of the stream.
    fn end(&self) -> InsertionPoint
        ensures { Asks (B.is_session self.now.backend)
            (λ machine. result ≡ place_after (last_of machine.register.stream).id) }
    {
        self.backend.look(|session| session.last().end())
    }
}

impl<B: LendsSession, K> LendsSession for Journaled<B, K> {
    ghost is_session = { λ it machine. B.is_session it.backend machine };

    fn look<T, F: FnOnce(&Session) -> T>(&self, ask: F) -> T {
        self.backend.look(ask)
    }
}

impl<B: Backend, K: Records> Backend for Journaled<B, K> {
    ghost offers = { λ it. offering (B.offers it.backend).jobs (is_some it.journal) };

    ghost records = { λ it steps. Stands K.stands it.journal it.loaded steps };

    ghost loads = { λ it steps edits count.
        StandsLoad K.ends it.journal it.loaded steps edits count };

    fn edit(&mut self, read: ReadEdit) -> Result<Receipt, EditFault> {
        let _units = self.backend.look(|session| session.last().units);
        self.record_edit(read.edit())?;
        match self.backend.edit(read) {
            Ok(receipt) => {
                self.count();
                Ok(receipt)
            }
            Err(fault) => {
                self.take_off();
                Err(fault)
            }
        }
    }

    fn edit_group(&mut self, group: ReadGroup) -> Result<GroupReceipt, GroupFault> {
        let _units = self.backend.look(|session| session.last().units);
        self.record_group(group.edits())?;
        match self.backend.edit_group(group) {
            Ok(receipt) => Ok(receipt),
            Err(fault) => {
                self.take_off();
                Err(fault)
            }
        }
    }

    fn begin_load(&mut self, alloc: Global, units: &[HashedUnit]) -> Result<(), Unkept> {
        let place = self.end();
        self.record_load(alloc, place, units)?;
        self.loaded = Some(0);
        Ok(())
    }

    fn end_load(&mut self) {
        let count = self.loaded.unwrap_or(0);
        if let Some(journal) = &mut self.journal {
            journal.shorten(count);
        }
        self.loaded = None;
    }

    fn drop_picture(&mut self, id: AuId) -> Dropping {
        self.backend.drop_picture(id)
    }

    fn clear_cache(&mut self) {
        self.backend.clear_cache();
    }

    fn mark(&mut self) -> Result<(), AllocError> {
        self.backend.mark()
    }

    fn fresh(&self, alloc: Global) -> Result<Session, AllocError> {
        self.backend.fresh(alloc)
    }

    fn clear_records(&mut self) -> Result<(), Unkept> {
        match &mut self.journal {
            Some(journal) => match journal.clear() {
                Ok(()) => Ok(()),
                Err(why) => Err(why),
            },
            None => Ok(()),
        }
    }

    fn begun(&self, alloc: Global, snapshot: ReadSnapshot) -> Result<Session, AllocError> {
        self.backend.begun(alloc, snapshot)
    }

    fn compact(&mut self, snapshot: &Snapshot) -> Result<(), Unkept> {
        match &mut self.journal {
            Some(journal) => match journal.compact(snapshot) {
                Ok(()) => Ok(()),
                Err(why) => Err(why),
            },
            None => Ok(()),
        }
    }

    fn begin_anew(&mut self, session: Session) {
        self.backend.begin_anew(session);
    }

    fn want(&mut self, ids: &[AuId], rest: bool) {
        self.backend.want(ids, rest);
    }

    fn has_jobs(&self) -> bool {
        self.backend.has_jobs()
    }

    fn has_journal(&self) -> bool {
        self.journal.is_some()
    }

    fn take(&mut self, alloc: Global, id: Option<AuId>) -> Result<Answer, Failure> {
        self.backend.take(alloc, id)
    }

    fn land(&mut self, number: u64) -> Result<Answer, Failure> {
        self.backend.land(number)
    }

    fn give_back(&mut self, number: u64) -> Result<Answer, Failure> {
        self.backend.give_back(number)
    }
}

/// The insertions of these units one after the other, the first of them at a place, where so many
/// ids were given before.
fn insertions(
    alloc: Global,
    place: InsertionPoint,
    given: u32,
    units: &[HashedUnit],
) -> Result<Vec<Edit>, Unkept>
    ensures { IfOk result (λ edits. edits.items ≡ insertions_from place given units.now) }
{
    let mut edits = Vec::with_capacity(alloc, units.len())?;
    let (mut next, mut last) = (place, given);
    for unit in units {
        edits.push(Edit::Insert(next, unit.unit().text(alloc)?))?;
        let Some(number) = last.checked_add(1) else {
            return Err(Unkept::Unwritten);
        };
        next = InsertionPoint::After(AuId::new(number));
        last = number;
    }
    Ok(edits)
}
