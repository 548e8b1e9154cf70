//! A stream, with the states of the fold along it.

ghost use Rattle.std.specs.Prelude.{◌≡◌, ◌↔◌, ◌+◌, ◌-◌, ◌^◌, ◌<◌, ◌≤◌, [], ◌∷◌, take, drop, length, ℕ, IfOk, IsTrue, OnOk};
ghost use Rattle.request_core.specs.Fold.{outcomes_of};
ghost use Rattle.checkpoints.specs.Stored.{IsStoredAt};
ghost use Rattle.stream_edits.specs.Changes.{IsInside, at_of, rest_from, stream_after, units_of};
ghost use Rattle.stream_fold.specs.StoredStates.{AreNear, ArePast, AreSparse, IsResumePoint};
ghost use Rattle.stream_fold.specs.Streams.{state_past};
ghost use Rattle.stream_fold.specs.Meeting.{IsCounted, IsMeeting};

use crate::refold::{Refold, ResumePoint, if_between};
use crate::storing::{keep_end, length_change, store_anew, thin};
use checkpoints::Checkpoints;
use h264_types::base::Shared;
use h264_types::pictures::AuId;
use picture_keys::{HashedOutcome, HashedUnit};
use request_core::State;
use std::alloc::{AllocError, Global};
use std::marker::Model;
use stream_edits::Change;

/// A stream of access units under their ids, and the states of the fold past some of its places.
#[derive(Debug)]
pub struct Folded {
    units: Vec<(AuId, Shared<HashedUnit>)>,
    stored: Checkpoints<State>,
    end: State,
    // That of the last change, if it was within the stream: an edit near it begins there.
    resume_point: Option<ResumePoint>,
}

// By hand, so that whoever drops one is proved over one call.
impl Drop for Folded {
    fn drop(self) {
        let Folded {
            units: _,
            stored: _,
            end: _,
            resume_point: _,
        } = self;
    }
}

impl Model for Folded {
    ghost use Rattle.std.specs.Prelude.{◌-◌, length, vec_len};
    ghost use Rattle.std.specs.Vec.{vec_capacity};
    ghost use Rattle.stream_fold.specs.StoredStates.{FoldedValue, IsFolded, IsResumePoint};

    ghost Value = { FoldedValue };

    ghost view = { λ f. record {
      stream = f.units.items;
      stored = f.stored;
      units_spare = vec_capacity f.units - vec_len f.units;
    } };

    ghost invariant = { λ f. IsFolded f.units.items f.stored.states f.end
        × IsResumePoint f.units.items (length f.units.items) f.resume_point };
}

/// A change that is prepared: the outcomes of the units of one range, made anew. Those of all
/// others stay.
#[derive(Debug, Drop)]
pub struct PreparedFold {
    change: Change,
    fold: Refold,
    /// The place of the stream as it was at which the fold came to a stored state, if it did.
    met: Option<usize>,
    /// The place of the change with the state past it, if it is within the stream.
    resume_point: Option<ResumePoint>,
}

impl PreparedFold {
    ghost use Rattle.stream_fold.specs.Prepared.{begin_in, change_in, end_in, outcomes_in, steps_in};

    /// The change.
    pub fn change(&self) -> &Change
        ensures { result.now ≡ change_in self.now }
    {
        &self.change
    }

    /// How many steps of the fold were made.
    pub fn steps(&self) -> u64
        ensures { result ≡ steps_in self.now }
    {
        self.fold.steps.count()
    }

    /// The first place of the range, before the change and after it.
    pub fn begin(&self) -> usize
        ensures { result ≡ begin_in self.now }
    {
        self.fold.from
    }

    /// The place past the range in the stream as it was, which this is: that of the stored state
    /// to which the fold came, or the end.
    pub fn end(&self, folded: &Folded) -> usize
        ensures { result ≡ end_in self.now folded.now.stream }
    {
        self.met.unwrap_or(folded.units().len())
    }

    /// The outcomes of the units of the range after the change.
    pub fn outcomes(&self) -> &[Shared<HashedOutcome>]
        ensures { result.now ≡ outcomes_in self.now }
    {
        self.fold.outcomes.as_slice()
    }
}

impl Folded {
    ghost use Rattle.stream_fold.specs.Refolding.{HasCaughtUp, IsStart, IsMadeAnew, GoesOn};
    ghost use Rattle.stream_fold.specs.Prepared.{IsAnew, IsPrepared, change_in, steps_in};

    /// A stream of no units.
    pub fn new(alloc: Global) -> Result<Folded, AllocError>
        ensures { IfOk result (λ folded. folded.stream ≡ []) }
    {
        Ok(Folded {
            units: Vec::new(alloc),
            stored: Checkpoints::new(alloc, State::new(alloc)?)?,
            end: State::new(alloc)?,
            resume_point: None,
        })
    }

    /// The units in decoding order, each with its id.
    pub fn units(&self) -> &[(AuId, Shared<HashedUnit>)]
        ensures { result.now ≡ self.now.stream }
    {
        self.units.as_slice()
    }

    /// The states of the fold that are stored, each past its place: one for each 32 units or less,
    /// and of three in a row the last is more than 32 units past the first.
    pub fn states(&self) -> &Checkpoints<State>
        ensures value { result.now ≡ self.now.stored }
        ensures past { ArePast self.now.stream result.now.states }
        ensures near { AreNear self.now.stream result.now.states }
        ensures sparse { AreSparse result.now.states }
    {
        &self.stored
    }

    /// Prepares a change: folds anew what it changes, and makes room. All answers stay as they
    /// were. The outcomes of the stream as it stands are those of the caller, who keeps them; those
    /// of the range come with the prepared change.
    pub fn prepare(
        &mut self,
        alloc: Global,
        change: Change,
        outcomes: &[Shared<HashedOutcome>],
    ) -> Result<PreparedFold, AllocError>
        requires inside { IsInside change self.old.stream }
        requires short { length self.old.stream + length (units_of change) < 2 ^ 64 }
        requires outcomes { outcomes.now ≡ outcomes_of self.old.stream }
        ensures kept { self.new.stream ≡ self.old.stream }
        ensures ready { IfOk result (λ prepared. IsPrepared self.new prepared) }
        ensures change { IfOk result (λ prepared. change_in prepared ≡ change) }
        ensures anew { IfOk result (λ prepared. IsAnew prepared self.old.stream) }
        ensures few { IfOk result (λ prepared. (count : ℕ)
            → IsMeeting change self.old.stream count
            → steps_in prepared ≤ length (units_of change) + count + 63) }
        ensures counted { IfOk result
            (λ prepared. IsCounted change self.old.stream (steps_in prepared)) }
    {
        let (fold, met, resume_point) = self.refold(alloc, &change, outcomes)?;
        self.units.reserve(change.units().len())?;
        self.stored.reserve(fold.states.len())?;
        Ok(PreparedFold {
            change,
            fold,
            met,
            resume_point,
        })
    }

    /// Makes a prepared change. Takes no memory.
    pub fn commit(&mut self, prepared: PreparedFold)
        requires { IsPrepared self.old prepared }
        ensures { self.new.stream ≡ stream_after (change_in prepared) self.old.stream }
    {
        let PreparedFold {
            change,
            fold,
            met,
            resume_point,
        } = prepared;
        let end = self.units.len();
        store_anew(
            &mut self.stored,
            fold.kept,
            met.unwrap_or(end + 1),
            length_change(&change),
            fold.states,
        );
        thin(&mut self.stored, fold.kept);
        thin(&mut self.stored, fold.place);
        keep_end(&mut self.end, met, fold.state);
        self.resume_point = resume_point;
        change.make(&mut self.units);
    }

    /// The fold over what a change changes, and the place at which it came to a stored state, if it
    /// did; and the place of the change within the stream, if it is one, with the state past it.
    /// It shares the outcomes of the units in front of the change.
    #[tactic(auto, using(crate::proofs::Changed::at_inside, crate::proofs::Changed::rest_inside, crate::proofs::Changed::at_rest))]
    fn refold(
        &self,
        alloc: Global,
        change: &Change,
        outcomes: &[Shared<HashedOutcome>],
    ) -> Result<(Refold, Option<usize>, Option<ResumePoint>), AllocError>
        requires inside { IsInside change.now self.now.stream }
        requires short { length self.now.stream + length (units_of change.now) < 2 ^ 64 }
        requires outcomes { outcomes.now ≡ outcomes_of self.now.stream }
        ensures made { IfOk result (λ made.
            IsMadeAnew change.now self.now.stream self.now.stored.states made.0 made.1) }
        ensures resume_point { IfOk result (λ made.
            IsResumePoint self.now.stream (at_of change.now) made.2) }
    {
        let at = change.at();
        let mut fold = self.start(alloc, at)?;
        let from = fold.from;
        fold.go_over(alloc, &self.units[from..at])?;
        fold.share(alloc, &outcomes[from..at])?;
        let resume_point = self.resume_point_at(at, &fold.state)?;
        fold.go_over(alloc, change.units())?;
        let met = self.catch_up(alloc, change.rest_from(), &mut fold)?;
        Ok((fold, met, resume_point))
    }

    /// The place with the state past it, where it is one in front of some unit.
    fn resume_point_at(&self, at: usize, state: &State) -> Result<Option<ResumePoint>, AllocError>
        requires { state.now ≡ state_past self.now.stream at }
        ensures { IfOk result (IsResumePoint self.now.stream at) }
    {
        if at == self.units.len() {
            return Ok(None);
        }
        Ok(Some(ResumePoint {
            place: at,
            state: state.copy()?,
        }))
    }

    /// A fold from the last place up to this one whose state is there: a stored one, the one where
    /// the last change was prepared, or the end of the stream.
    fn start(&self, alloc: Global, at: usize) -> Result<Refold, AllocError>
        requires { at ≤ length self.now.stream }
        ensures { IfOk result (IsStart at self.now.stream self.now.stored.states) }
    {
        if at == self.units.len() {
            Refold::new(alloc, at, self.stored.last().place, &self.end)
        } else {
            self.start_before(alloc, at)
        }
    }

    /// A fold from the last place up to that of a unit whose state is there.
    fn start_before(&self, alloc: Global, at: usize) -> Result<Refold, AllocError>
        requires { at < length self.now.stream }
        ensures { IfOk result (IsStart at self.now.stream self.now.stored.states) }
    {
        let before = self.stored.before(at);
        match if_between(&self.resume_point, before.place, at) {
            Some(resume_point) => Refold::new(
                alloc,
                resume_point.place,
                before.place,
                &resume_point.state,
            ),
            None => Refold::new(alloc, before.place, before.place, before.state),
        }
    }

    /// Goes on over the units from a place on, until the fold has come to a stored state: at which
    /// place, if it has.
    fn catch_up(
        &self,
        alloc: Global,
        from: usize,
        fold: &mut Refold,
    ) -> Result<Option<usize>, AllocError>
        requires inside { from ≤ length self.now.stream }
        requires short { fold.old.place + (length self.now.stream - from) < 2 ^ 64 }
        ensures { IfOk result (λ met.
            HasCaughtUp self.now.stream self.now.stored.states from fold.old met fold.new) }
    {
        for at in from..self.units.len() {
            if self.go_on_at(alloc, at, fold)? {
                return Ok(Some(at + 1));
            }
        }
        Ok(None)
    }

    /// Goes on over the unit at a place, and says whether the fold has come to the state that is
    /// stored past it.
    fn go_on_at(&self, alloc: Global, at: usize, fold: &mut Refold) -> Result<bool, AllocError>
        requires inside { at < length self.now.stream }
        requires short { fold.old.place + 1 < 2 ^ 64 }
        ensures on { OnOk result (GoesOn fold.old (take 1 (drop at self.now.stream)) fold.new) }
        ensures met { IfOk result (λ met.
            IsTrue met ↔ IsStoredAt self.now.stored.states (at + 1) fold.new.state) }
    {
        let unit = &self.units[at];
        fold.go_on(alloc, unit.0, &unit.1)?;
        Ok(self.has_at(at + 1, &fold.state))
    }

    /// Whether the state is stored at the place.
    fn has_at(&self, place: usize, state: &State) -> bool
        ensures { IsTrue result ↔ IsStoredAt self.now.stored.states place state.now }
    {
        match self.stored.get(place) {
            Some(stored) => stored.is_same(state),
            None => false,
        }
    }
}
