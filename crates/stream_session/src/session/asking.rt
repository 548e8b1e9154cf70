//! What is asked of a session.

ghost use Rattle.std.specs.Prelude.{◌≡◌, ◌≢◌, ◌+◌, ◌<◌, ◌≤◌, ◌↔◌, ℕ, length, slice_get, AllPairs, Contains, Some, None, true, IsTrue, IfOk, IfSome, MatchOption, MatchResult};
ghost use Rattle.request_core.specs.Fold.{outcomes_of};
ghost use Rattle.picture_store.specs.Stores.{AreNumbered, AreOneToOne, IsNumberInUse};
ghost use Rattle.stream_edits.specs.Edits.{Replays, no_units};
ghost use Rattle.stream_edits.specs.Journals.{edits_of};
ghost use Rattle.stream_edits.specs.Streams.{end_of, ids_of, last_of, place_of, start_of};
ghost use Rattle.stream_edits.specs.Snapshots.{IsAnyOf};
ghost use Rattle.stream_session.specs.Streams.{outcome_in, position_in};
ghost use Rattle.stream_session.specs.Machines.{store_of};
ghost use Rattle.stream_session.specs.Showing.{HasNumber, Shows};
ghost use Rattle.stream_session.specs.Taken.{input_of};
ghost use Rattle.unit_outcomes.specs.InDoubt.{AreDoubts};
ghost use Rattle.stream_session.specs.Doubting.{seen_in};
ghost use Rattle.decode_jobs.specs.Inputs.{is_whole};

use super::Session;
use crate::doubting::doubts_of;
use crate::showing::{NoSuchUnit, Shown};
use decode_jobs::dep_keys::KeyId;
use decode_jobs::{Decoded, Input};
use h264_types::base::Shared;
use h264_types::pictures::AuId;
use output_order::Comparisons;
use picture_keys::HashedOutcome;
use std::alloc::AllocError;
use stream_edits::{InsertionPoint, JournalEntry, Last};
use unit_outcomes::Outcome;
use unit_outcomes::doubts::Doubt;

impl<P: Decoded> Session<P> {
    /// The place after all units, at which a unit is appended.
    pub fn end(&self) -> InsertionPoint
        ensures value { result ≡ end_of self.now.register.stream }
        ensures stands { start_of self.now.register.stream result
            ≡ Some (length self.now.register.stream) }
    {
        // Its ids differ, since edits led to the stream.
        self.reached();
        self.last().end()
    }

    /// What is shown of the unit that has the id. It takes no memory.
    pub fn show(&self, id: AuId) -> Shown<P>
        ensures { Shows P.IsOf self.now id result }
    {
        match self.find(id) {
            Some(place) => self.show_at(place),
            None => Shown::NoSuchUnit,
        }
    }

    /// What is shown of the unit at a place of the stream. It takes no memory.
    pub fn show_at(&self, at: usize) -> Shown<P>
        requires { at < length self.now.register.stream }
        ensures { (id : ℕ) → slice_get (ids_of self.now.register.stream) at ≡ Some id
            → Shows P.IsOf self.now id result }
    {
        let outcome: &Outcome = &self.store.outcomes()[at];
        match outcome {
            Outcome::Fault(fault) => Shown::Fault(*fault),
            Outcome::Empty => Shown::Empty,
            Outcome::Plan(_) => match self.store.picture(at) {
                Some(picture) => Shown::Ready(picture),
                None => Shown::Pending,
            },
        }
    }

    /// The outcome of the unit that has the id.
    pub fn outcome(&self, id: AuId) -> Result<&Outcome, NoSuchUnit>
        ensures { MatchResult result
            (λ outcome. outcome_in self.now.register.stream id ≡ Some outcome.now)
            (λ _. place_of self.now.register.stream id ≡ None) }
    {
        match self.find(id) {
            Some(place) => {
                let outcome: &Outcome = &self.store.outcomes()[place];
                Ok(outcome)
            }
            None => Err(NoSuchUnit),
        }
    }

    /// The position in output order of the unit that has the id: how many valid units are shown
    /// before it. `None` where it isn't valid.
    pub fn position(&self, id: AuId) -> Result<Option<usize>, NoSuchUnit>
        ensures { MatchResult result
            (λ position. position_in self.now.register.stream id ≡ Some position)
            (λ _. place_of self.now.register.stream id ≡ None) }
    {
        match self.find(id) {
            Some(place) => {
                let mut comparisons = Comparisons::new();
                Ok(self.ordered.position_in(place, &mut comparisons))
            }
            None => Err(NoSuchUnit),
        }
    }

    /// The number of the key of the unit that has the id: of what its picture is made of. `None`
    /// where it isn't valid. Units have equal numbers exactly where they have equal keys, and while
    /// a key stays in use, its number stays. It takes no memory.
    pub fn key(&self, id: AuId) -> Result<Option<KeyId>, NoSuchUnit>
        ensures value { MatchResult result
            (λ number. HasNumber self.now id number)
            (λ _. place_of self.now.register.stream id ≡ None) }
        ensures one { IfOk result (λ _. AreOneToOne (store_of self.now) (store_of self.now)) }
    {
        match self.find(id) {
            Some(place) => Ok(self.store.key_at(place)),
            None => Err(NoSuchUnit),
        }
    }

    /// Whether a number is that of a key in use: of one that some unit of the stream has. It takes
    /// no memory.
    pub fn in_use(&self, key: KeyId) -> bool
        ensures value { IsTrue result ↔ IsNumberInUse (store_of self.now) key }
        ensures listed { IsTrue result ↔ Contains self.now.numbers (Some key) }
        ensures one { AreOneToOne (store_of self.now) (store_of self.now) }
    {
        self.store.in_use(key)
    }

    /// Of so many units from a place of the stream on, the break that each follows, and whether its
    /// picture is in doubt: whether it may be made of other frames than its encoder meant. It takes
    /// a time that grows with the units from the last valid IDR picture before the range on, up
    /// to the range's end.
    pub fn doubts(&self, from: usize, count: usize) -> Result<Vec<Doubt>, AllocError>
        requires { from + count ≤ length self.now.register.stream }
        ensures { IfOk result (λ doubts.
            AreDoubts (seen_in self.now.register.stream) from count doubts.items) }
    {
        let (units, outcomes) = (self.ordered.units(), self.store.outcomes());
        doubts_of(self.alloc, units, outcomes, from, count)
    }

    /// How many jobs are out. It takes no memory.
    pub fn jobs_out(&self) -> usize
        ensures { result ≡ length self.now.jobs_out }
    {
        self.store.jobs_out()
    }

    /// How many keys there are whose pictures are held. It takes no memory.
    pub fn held_keys(&self) -> usize
        ensures count { result ≡ length self.now.held }
        ensures once { AllPairs ◌≢◌ self.now.held }
    {
        self.store.held_keys()
    }

    /// How many keys there are whose pictures are cached after they went out of use. It takes no
    /// memory.
    pub fn cached_keys(&self) -> usize
        ensures { result ≡ length self.now.cached }
    {
        self.store.cached_keys()
    }

    /// What the job of this number is made of, if it is out. It takes no memory.
    pub fn job_input(&self, number: u64) -> Option<&Input<P>>
        ensures value { MatchOption result
            (input_of self.now number ≡ None)
            (λ input. input_of self.now number ≡ Some input.now) }
        ensures whole { IfSome result (λ input. IsTrue (is_whole input.now)) }
    {
        self.store.job_input(number)
    }

    /// The number of each unit's key, in decoding order; nothing for a unit that isn't valid.
    pub fn numbers(&self) -> &[Option<KeyId>]
        ensures value { result.now ≡ self.now.numbers }
        ensures numbered { AreNumbered (store_of self.now) }
    {
        self.store.numbers()
    }

    /// The ids of all units, in decoding order.
    pub fn ids(&self) -> &[AuId]
        ensures { result.now ≡ ids_of self.now.register.stream }
    {
        self.store.ids()
    }

    /// Each unit's outcome, in decoding order.
    pub fn outcomes(&self) -> &[Shared<HashedOutcome>]
        ensures { result.now ≡ outcomes_of self.now.register.stream }
    {
        self.store.outcomes()
    }

    /// How many units the stream has, and the id of the last one.
    pub fn last(&self) -> Last
        ensures { result ≡ last_of self.now.register.stream }
    {
        Last {
            units: self.ordered.units().len(),
            id: self.ordered.units().last().map(|unit| unit.0),
        }
    }

    /// A law of the session: its accepted edits lead to its stream, each accepted after those before
    /// it, from what it began from. It does nothing.
    pub fn reached(&self)
        ensures replayed { Replays self.now.origin (edits_of self.now.journal) self.now.register }
        ensures based { IsAnyOf self.now.origin }
    {
        // The invariant says so.
        let _ = &self.journal;
    }

    /// Whether the session began with an empty stream, of which no id was given.
    pub fn began_without_units(&self) -> bool
        ensures { (result ≡ true) ↔ (self.now.origin ≡ no_units) }
    {
        self.origin.is_none()
    }

    /// The accepted edits, in order, those of a group as one entry, since the session began.
    pub fn journal(&self) -> &[JournalEntry]
        ensures value { result.now ≡ self.now.journal }
        // Each accepted after those before it, they lead to the stream from what it began from.
        ensures replayed { Replays self.now.origin (edits_of self.now.journal) self.now.register }
    {
        self.journal.as_slice()
    }
}
