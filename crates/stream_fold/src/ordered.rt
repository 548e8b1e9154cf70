//! A stream, and where each of its units is shown.

ghost use Rattle.std.specs.Prelude.{◌≡◌, ℕ, ◌+◌, ◌^◌, ◌<◌, ◌≤◌, [], length, slice_get, Some, IfOk, IfNone, IfSome, map};
ghost use Rattle.request_core.specs.Fold.{outcomes_of};
ghost use Rattle.output_order.specs.OutputOrder.{positions_of};
ghost use Rattle.output_order.specs.Bounds.{IsSearched, period_size};
ghost use Rattle.stream_edits.specs.Changes.{IsInside, stream_after, units_of};
ghost use Rattle.stream_fold.specs.StoredStates.{ArePast};
ghost use Rattle.stream_fold.specs.Meeting.{IsCounted, IsMeeting};
ghost use Rattle.stream_fold.specs.Prepared.{IsAnew, change_in, end_in, steps_in};
ghost use Rattle.stream_fold.specs.OrderedChange.{IsPrepared};
ghost use Rattle.output_order.specs.Shown.{shown_of};

use crate::{Change, Folded, PreparedFold};
use checkpoints::Checkpoints;
use h264_types::base::Shared;
use h264_types::pictures::AuId;
use output_order::{Comparisons, Periods, Shown, Splice};
use picture_keys::{HashedOutcome, HashedUnit};
use request_core::State;
use std::alloc::{AllocError, Global};
use std::marker::Model;

/// A change that is prepared, with what it changes in the periods.
#[derive(Debug, Drop)]
pub struct PreparedChange {
    pub(crate) refolded: PreparedFold,
    pub(crate) splice: Splice,
}

impl PreparedChange {
    /// The change of the fold: its steps, and the range of outcomes that it makes anew.
    pub fn refolded(&self) -> &PreparedFold
        ensures { result.now ≡ self.now.refolded }
    {
        &self.refolded
    }
}

/// A stream of access units under their ids, with the position of each in output order.
#[derive(Debug)]
pub struct OrderedFold {
    folded: Folded,
    periods: Periods,
}

// By hand, so that whoever drops one is proved over one call.
impl Drop for OrderedFold {
    fn drop(self) {
        let OrderedFold {
            folded: _,
            periods: _,
        } = self;
    }
}

impl Model for OrderedFold {
    ghost use Rattle.stream_fold.specs.Ordered.{OrderedValue, AreOrdered};

    ghost Value = { OrderedValue };

    ghost view = { λ f. record { folded = f.folded; order = f.periods } };

    ghost invariant = { λ f. AreOrdered f.folded.stream f.periods.periods };
}

impl OrderedFold {
    /// A stream of no units.
    pub fn new(alloc: Global) -> Result<OrderedFold, AllocError>
        ensures { IfOk result (λ ordered. ordered.folded.stream ≡ []) }
    {
        Ok(OrderedFold {
            folded: Folded::new(alloc)?,
            periods: Periods::new(alloc),
        })
    }

    /// The units in decoding order, each with its id.
    pub fn units(&self) -> &[(AuId, Shared<HashedUnit>)]
        ensures { result.now ≡ self.now.folded.stream }
    {
        self.folded.units()
    }

    /// The states of the fold that are stored, each past its place.
    pub fn states(&self) -> &Checkpoints<State>
        ensures value { result.now ≡ self.now.folded.stored }
        ensures past { ArePast self.now.folded.stream result.now.states }
    {
        self.folded.states()
    }

    /// The position in output order of the unit at a place: how many valid units are shown before
    /// it. `None` where it isn't valid. Each pair of units that is compared is counted. Takes no
    /// memory.
    pub fn position_in(&self, place: usize, comparisons: &mut Comparisons) -> Option<usize>
        requires within { place < length self.now.folded.stream }
        requires spare { comparisons.old + length self.now.folded.stream < 2 ^ 64 }
        ensures position { slice_get (positions_of (outcomes_of self.now.folded.stream)) place
            ≡ Some result }
        ensures few { comparisons.new
            ≤ comparisons.old + period_size (outcomes_of self.now.folded.stream) place }
        ensures searched { IfSome result
            (λ _. IsSearched (period_size (outcomes_of self.now.folded.stream) place)
            comparisons.old comparisons.new) }
        ensures none { IfNone result (comparisons.new ≡ comparisons.old) }
    {
        self.periods.position_in(place, comparisons)
    }

    /// The place past the range that a prepared change makes anew: from there on outcomes stay.
    pub fn end_of(&self, prepared: &PreparedChange) -> usize
        ensures { result ≡ end_in prepared.now.refolded self.now.folded.stream }
    {
        prepared.refolded.end(&self.folded)
    }

    /// Prepares a change: folds anew what it changes, prepares what this changes in the periods,
    /// and makes room. All answers stay as they were. The outcomes of the stream as it stands are
    /// those of the caller, who keeps them; those of the range come with the prepared change.
    pub fn prepare(
        &mut self,
        alloc: Global,
        change: Change,
        outcomes: &[Shared<HashedOutcome>],
    ) -> Result<PreparedChange, AllocError>
        requires inside { IsInside change self.old.folded.stream }
        requires short { length self.old.folded.stream + length (units_of change) < 2 ^ 64 }
        requires outcomes { outcomes.now ≡ outcomes_of self.old.folded.stream }
        ensures kept { self.new.folded.stream ≡ self.old.folded.stream }
        ensures ready { IfOk result (λ prepared. IsPrepared self.new prepared) }
        ensures change { IfOk result (λ prepared. change_in prepared.refolded ≡ change) }
        ensures anew { IfOk result
            (λ prepared. IsAnew prepared.refolded self.old.folded.stream) }
        ensures few { IfOk result (λ prepared. (count : ℕ)
            → IsMeeting change self.old.folded.stream count
            → steps_in prepared.refolded ≤ length (units_of change) + count + 63) }
        ensures counted { IfOk result
            (λ prepared. IsCounted change self.old.folded.stream (steps_in prepared.refolded)) }
    {
        let refolded = self.folded.prepare(alloc, change, outcomes)?;
        let shown = shown_of_each(alloc, refolded.outcomes())?;
        let end = refolded.end(&self.folded);
        let splice = self
            .periods
            .prepare_splice(alloc, refolded.begin(), end, &shown)?;
        self.periods.reserve(splice.len())?;
        Ok(PreparedChange { refolded, splice })
    }

    /// Makes a prepared change. Takes no memory.
    pub fn commit(&mut self, prepared: PreparedChange)
        requires { IsPrepared self.old prepared }
        ensures { self.new.folded.stream
            ≡ stream_after (change_in prepared.refolded) self.old.folded.stream }
    {
        let PreparedChange { refolded, splice } = prepared;
        self.folded.commit(refolded);
        self.periods.commit(splice);
    }
}

/// What is shown of units with these outcomes.
pub(crate) fn shown_of_each(
    alloc: Global,
    outcomes: &[Shared<HashedOutcome>],
) -> Result<Vec<Option<Shown>>, AllocError>
    ensures { IfOk result (λ shown. shown.items ≡ map shown_of outcomes.now) }
{
    let mut shown = Vec::with_capacity(alloc, outcomes.len())?;
    for outcome in outcomes {
        shown.push(Shown::of(outcome))?;
    }
    Ok(shown)
}
