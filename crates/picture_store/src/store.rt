//! The store: pictures that are held or cached, and jobs that are out.

ghost use Rattle.std.specs.Prelude.{◌≡◌, ℕ, ◌≤◌, ◌<◌, ◌↔◌, true, false, [], length, Contains, IsPermutation, None, Some, IsTrue, IfOk, OnOk, OnErr, slice_get};
ghost use Rattle.std.specs.List.{zip};
ghost use Rattle.held_pictures.specs.Bounded.{most_capacity};
ghost use Rattle.picture_keys.specs.Ranges.{IsLeast};
ghost use Rattle.picture_keys.specs.Units.{AreDifferent};
ghost use Rattle.picture_keys.specs.Decodable.{AllCanDecode};
ghost use Rattle.picture_store.specs.Pictures.{all_of};
ghost use Rattle.picture_store.specs.Stores.{compared_in, empty, AreNumbered, AreOneToOne, IsNumberInUse};
ghost use Rattle.picture_store.specs.Changes.{RefitsLosing};
ghost use Rattle.picture_store.specs.Jobs.{AnswersTakeWithUnit};
ghost use Rattle.picture_store.specs.Showing.{IsNumberAt, IsPictureAt};
ghost use Rattle.picture_store.specs.Needs.{TellNeeds};
ghost use Rattle.picture_store.specs.Pending.{IsAnyOutBy, IsDueAt, IsPending};
ghost use Rattle.picture_store.specs.TakingFor.{TellsGiven, AnswersTakeWithUnitFor};
ghost use Rattle.picture_store.specs.Splices.{IsSplice, ids_with, outcomes_with};

mod counts;
mod landing;
mod marking;
mod releasing;
mod returning;

use crate::answers::{JobAt, SpliceTaken, TakeRefused};
use crate::changing::{UnitSplice, changed_by};
use crate::due::{first_due, first_to_do};
use crate::inputs::input_of;
use crate::job_out::{JobOut, lower_all};
use crate::mark::Mark;
use crate::recounting::{forget_released, make_ready, recount};
use crate::refitting::{keys_from, put_splice, reserve, sweep_at};
use crate::schedule::{Schedule, earliest_due, schedule_for};
use checkpoints::Checkpoints;
use decode_jobs::dep_keys::{KeyId, Keys, Sha256Fingerprint};
use decode_jobs::{Decoded, Job};
use h264_types::base::{Shared, replace_range};
use h264_types::pictures::AuId;
use held_pictures::key_slots::{KeySlots, Units};
use held_pictures::picture_cache::PictureCache;
use picture_keys::{HashedOutcome, RequestBodies};
use request_core::State;
use std::alloc::{AllocError, Global};
use std::marker::Model;

/// The pictures of a stream's units. Clauses see the units, each with its id and its outcome; the
/// keys whose pictures are held, and those whose pictures are cached after they went out of use;
/// the pictures themselves, and those that are released; the jobs that are out; and the keys that
/// the last mark remembers.
#[derive(Debug)]
pub struct PictureStore<P: Decoded> {
    alloc: Global,
    keys: Keys<RequestBodies, Sha256Fingerprint>,
    ids: Vec<AuId>,
    outcomes: Vec<Shared<HashedOutcome>>,
    numbers: Vec<Option<KeyId>>,
    // How many keys there are where it is time to forget those that aren't needed.
    sweep_threshold: usize,
    key_slots: KeySlots<P>,
    cache: PictureCache<KeyId, P>,
    jobs_out: Vec<JobOut<P>>,
    jobs_given: u64,
    // How many units, from the first on, are known to need no job.
    units_settled: usize,
    // How many units, from the first on, are known not to be due.
    units_not_due: usize,
    // That of the last `take_for`, where only jobs were given and results landed since.
    schedule: Option<Schedule>,
    // Pictures that were let go and haven't gone back.
    released: Vec<P>,
    mark: Option<Mark>,
}

// By hand, so that whoever drops one is proved over one call.
impl<P: Decoded> Drop for PictureStore<P> {
    fn drop(self) {
        let PictureStore {
            alloc: _,
            keys: _,
            ids: _,
            outcomes: _,
            numbers: _,
            sweep_threshold: _,
            key_slots: _,
            cache: _,
            jobs_out: _,
            jobs_given: _,
            units_settled: _,
            units_not_due: _,
            schedule: _,
            released: _,
            mark: _,
        } = self;
    }
}

impl<P: Decoded> Model for PictureStore<P> {
    ghost use Rattle.std.specs.Coded.{codes};
    ghost use Rattle.std.specs.Map.{keys_of as numbers_of, values_of};
    ghost use Rattle.decode_jobs.specs.Trees.{tree_code};
    ghost use Rattle.picture_keys.specs.contracts.request_bodies.RequestBodies as bodies;
    ghost use Rattle.picture_store.specs.Stores.{StoreValue};

    ghost Value = { StoreValue P };

    ghost coded = { Prim.hlevel (codes, tree_code bodies.the_row.coded, P.code) };

    ghost use Rattle.held_pictures.specs.KeySlots.{numbers_held, pictures_held};
    ghost use Rattle.picture_store.specs.Stored.{keys_for, jobs_for};
    ghost use Rattle.picture_store.specs.Marks.{marked_for};
    ghost use Rattle.picture_store.specs.Settled.{IsStored};

    ghost view = { λ s. record {
      ids = s.ids.items;
      outcomes = s.outcomes.items;
      numbers = s.numbers.items;
      capacity = s.cache.capacity;
      held = keys_for s.keys (numbers_held s.key_slots);
      cached = keys_for s.keys (numbers_of s.cache.pairs);
      pictures = record {
        held = pictures_held s.key_slots;
        cached = values_of s.cache.pairs;
        released = s.released.items;
      };
      jobs_out = jobs_for s.keys s.jobs_out.items;
      jobs_given = s.jobs_given;
      marked = marked_for s.keys s.mark;
    } };

    ghost invariant = { λ s. IsStored P.IsDecoded P.IsOf s.keys s.ids.items s.outcomes.items
        s.numbers.items s.key_slots s.cache.pairs s.jobs_out.items s.units_settled s.units_not_due
        s.schedule s.mark };
}

impl<P: Decoded> PictureStore<P> {
    /// A store for an empty stream, which caches so many pictures at most, 1 to `MOST_ROOM`.
    pub fn new(alloc: Global, capacity: u16) -> Result<PictureStore<P>, AllocError>
        requires least { 1 ≤ capacity }
        requires most { capacity ≤ most_capacity }
        ensures { IfOk result (λ store. store ≡ empty capacity) }
    {
        Ok(PictureStore {
            alloc,
            keys: Keys::new(alloc),
            ids: Vec::new(alloc),
            outcomes: Vec::new(alloc),
            numbers: Vec::new(alloc),
            sweep_threshold: 0,
            key_slots: KeySlots::new(alloc),
            cache: PictureCache::new(alloc, capacity)?,
            jobs_out: Vec::new(alloc),
            jobs_given: 0,
            units_settled: 0,
            units_not_due: 0,
            schedule: None,
            released: Vec::new(alloc),
            mark: None,
        })
    }

    /// The number of each unit's key, in the order of the stream; nothing for a unit that isn't
    /// valid.
    pub fn numbers(&self) -> &[Option<KeyId>]
        ensures value { result.now ≡ self.now.numbers }
        ensures numbered { AreNumbered self.now }
    {
        self.numbers.as_slice()
    }

    /// Puts the units of a splice in the place of others. A picture whose key stays in use stays
    /// held, and one that is cached is held again where its key comes into use. Where memory runs
    /// out, nothing changes; but a picture whose key goes out of use is cached only where memory is
    /// found for it, and `refit` answers how many were lost so. Those, and what goes out of the
    /// cache, are released, or forgotten where the host has no picture back. It answers too which
    /// units changed.
    ///
    /// The keys of the units in front of the splice stay as they are; those of its units and of
    /// the units after it are found anew, as pictures refer to earlier ones, up to the first place
    /// at which a state of the stream as it was is stored and the keys of all frames that it marks
    /// are what they were: from there on they stay too.
    pub fn refit(
        &mut self,
        splice: UnitSplice,
        states: &Checkpoints<State>,
    ) -> Result<SpliceTaken, AllocError>
        requires splice { IsSplice splice self.old.ids }
        requires different { AreDifferent self.old.ids }
        requires apart { AreDifferent (ids_with splice self.old.ids) }
        requires decodable { AllCanDecode []
            (zip (ids_with splice self.old.ids) (outcomes_with splice self.old.outcomes)) }
        requires told { TellNeeds states.now.states self.old.ids self.old.outcomes }
        ensures ok { IfOk result (λ taken. RefitsLosing self.old
            (ids_with splice self.old.ids) (outcomes_with splice self.old.outcomes)
            taken.lost self.new) }
        ensures changed { IfOk result (λ taken. IsLeast (compared_in self.old)
            (compared_in self.new) taken.changed) }
        ensures err { OnErr result (self.new ≡ self.old) }
        ensures pictures { IfOk result (λ _. P.GoesBack ≡ true
            → IsPermutation (all_of self.old.pictures) (all_of self.new.pictures)) }
        ensures forgotten { IfOk result (λ _. P.GoesBack ≡ false
            → self.new.pictures.released ≡ []) }
    {
        self.sweep()?;
        self.schedule = None;
        reserve(&mut self.ids, &mut self.outcomes, splice.ids.len())?;
        let (past, later) = keys_from(
            self.alloc,
            &mut self.keys,
            &self.ids,
            &self.outcomes,
            &self.numbers,
            states,
            &splice,
        )?;
        let leaving = make_ready(
            self.alloc,
            &mut self.numbers,
            &mut self.key_slots,
            &mut self.released,
            splice.from,
            past,
            &later,
        )?;
        let lost = recount(
            &mut self.key_slots,
            &mut self.cache,
            &later,
            &leaving,
            &mut self.released,
        );
        forget_released(&mut self.released);
        let changed = changed_by(
            &self.ids,
            &self.outcomes,
            &self.numbers,
            &splice,
            past,
            &later,
        );
        let from = splice.from;
        put_splice(&mut self.ids, &mut self.outcomes, splice);
        replace_range(&mut self.numbers, from, past, later);
        self.units_settled = self.units_settled.min(from);
        self.units_not_due = self.units_not_due.min(from);
        lower_all(&mut self.jobs_out, from);
        Ok(SpliceTaken { lost, changed })
    }

    /// Forgets the keys that are neither stored, nor marked, nor below one that is, where there may
    /// be as many of them as of others.
    fn sweep(&mut self) -> Result<(), AllocError>
        ensures { self.new ≡ self.old }
    {
        self.schedule = None;
        let sweep_threshold = sweep_at(
            self.alloc,
            self.sweep_threshold,
            &mut self.keys,
            &self.numbers,
            &self.mark,
            &self.cache,
            &self.jobs_out,
        )?;
        self.sweep_threshold = sweep_threshold;
        Ok(())
    }

    /// The picture of the unit at a place of the stream, where it is held.
    pub fn picture(&self, at: usize) -> Option<P>
        requires { at < length self.now.ids }
        ensures { IsPictureAt P.IsOf self.now at result }
    {
        self.key_slots.get(self.numbers[at]?)?
    }

    /// The number of the key of the unit at a place of the stream; nothing where it isn't valid.
    /// While a key stays in use, its number stays.
    pub fn key_at(&self, at: usize) -> Option<KeyId>
        requires { at < length self.now.ids }
        ensures value { IsNumberAt self.now at result }
        ensures one { AreOneToOne self.now self.now }
    {
        self.numbers[at]
    }

    /// Whether a number is that of a key in use: of one that some unit of the stream has.
    pub fn in_use(&self, key: KeyId) -> bool
        ensures value { IsTrue result ↔ IsNumberInUse self.now key }
        ensures listed { IsTrue result ↔ Contains self.now.numbers (Some key) }
        ensures one { AreOneToOne self.now self.now }
    {
        self.key_slots.get(key).is_some()
    }

    /// Gives the earliest picture that is due to be decoded, under the next number.
    pub fn take(&mut self) -> Result<Option<JobAt<P>>, TakeRefused>
        ensures tells { AnswersTakeWithUnit P.IsOf self.old result self.new }
        // A pending unit stays so only as long as a job is out.
        ensures waits { IfOk result (λ told. told ≡ None
            → (at : ℕ) → IsPending self.old at → IsAnyOutBy self.old at) }
    {
        let settled = first_to_do(
            &self.key_slots,
            &self.jobs_out,
            &self.numbers,
            self.units_settled,
        );
        self.units_settled = settled;
        let from = settled.max(self.units_not_due);
        let due = first_due(
            &self.keys,
            &self.key_slots,
            &self.jobs_out,
            &self.numbers,
            from,
        );
        let Some(at) = due else {
            self.units_not_due = self.numbers.len();
            return Ok(None);
        };
        self.units_not_due = at;
        let Some(key) = self.numbers[at] else {
            return Ok(None);
        };
        Ok(Some(self.give(at, key)?))
    }

    /// Gives the earliest picture that is due of those that the picture of the unit at a place
    /// needs, under the next number. Its unit needn't be the first of the stream that has its key.
    /// What is needed is found once for calls for one place that follow one another, where only
    /// jobs are given and results land between them.
    pub fn take_for(&mut self, at: usize) -> Result<Option<JobAt<P>>, TakeRefused>
        requires { at < length self.old.ids }
        ensures tells { AnswersTakeWithUnitFor P.IsOf self.old at result self.new }
        // A pending unit stays so only as long as the job of a unit that it needs is out.
        ensures waits { IfOk result (λ told. told ≡ None
            → IsPending self.old at → IsAnyOutBy self.old at) }
    {
        let units = Units {
            keys: &self.keys,
            key_slots: &self.key_slots,
            ids: &self.ids,
            outcomes: &self.outcomes,
            numbers: &self.numbers,
        };
        let kept = self.schedule.take();
        let mut schedule = schedule_for(self.alloc, &units, &self.jobs_out, kept, at)?;
        let queue = &mut schedule.queue;
        let due = earliest_due(
            &self.keys,
            &self.key_slots,
            &self.jobs_out,
            &self.numbers,
            queue,
        );
        self.schedule = Some(schedule);
        let Some((place, key)) = due else {
            return Ok(None);
        };
        Ok(Some(self.give(place, key)?))
    }

    /// Gives the job of the unit at a place, whose key is due, under the next number.
    fn give(&mut self, at: usize, key: KeyId) -> Result<JobAt<P>, TakeRefused>
        requires number { slice_get self.old.numbers at ≡ Some (Some key) }
        requires due { IsDueAt self.old at }
        ensures { TellsGiven P.IsOf self.old at result self.new }
    {
        let Some(number) = self.jobs_given.checked_add(1) else {
            return Err(TakeRefused::JobsSpent);
        };
        let outcome = &self.outcomes[at];
        let input = input_of(self.alloc, &self.keys, &self.key_slots, outcome, key)?;
        self.jobs_out.reserve(1)?;
        let copy = input.copy(self.alloc)?;
        self.jobs_out.push_reserved(JobOut {
            number,
            key,
            input: copy,
            first_place: self.units_not_due,
        });
        self.jobs_given = number;
        let job = Job::new(number, input);
        Ok(JobAt { at, job })
    }
}
