//! A stream under changes, kept with the outcomes of its units.

ghost use Rattle.std.specs.Prelude.{◌≡◌, ◌+◌, ◌^◌, ◌<◌, length, OnErr, OnOk};
ghost use Rattle.request_core.specs.Fold.{outcomes_of};
ghost use Rattle.stream_edits.specs.Changes.{IsInside, stream_after, units_of};
ghost use Rattle.stream_fold.specs.Prepared.{IsAnew, change_in};

use h264_types::base::{Shared, replace_range};
use picture_keys::HashedOutcome;
use std::alloc::{AllocError, Global};
use std::marker::Model;
use stream_fold::{Change, OrderedFold, PreparedChange, shares_of};

/// A stream in output order, with the outcome of each unit.
#[derive(Drop)]
pub(super) struct StreamWithOutcomes {
    ordered: OrderedFold,
    outcomes: Vec<Shared<HashedOutcome>>,
}

impl Model for StreamWithOutcomes {
    ghost use Rattle.std.specs.Prelude.{◌≡◌};
    ghost use Rattle.request_core.specs.Fold.{outcomes_of};
    ghost use Rattle.stream_fold.specs.Ordered.{OrderedValue};

    ghost Value = { OrderedValue };

    ghost view = { λ f. f.ordered };

    ghost invariant = { λ f. f.outcomes.items ≡ outcomes_of f.ordered.folded.stream };
}

impl StreamWithOutcomes {
    /// A stream of no units.
    pub(super) fn new(alloc: Global) -> Result<StreamWithOutcomes, AllocError> {
        Ok(StreamWithOutcomes {
            ordered: OrderedFold::new(alloc)?,
            outcomes: Vec::new(alloc),
        })
    }

    /// The stream in output order.
    pub(super) fn ordered(&self) -> &OrderedFold
        ensures { result.now ≡ self.now }
    {
        &self.ordered
    }

    /// Each unit's outcome, in decoding order.
    pub(super) fn outcomes(&self) -> &[Shared<HashedOutcome>] {
        self.outcomes.as_slice()
    }

    /// Makes a change, and says how many steps of the fold it took.
    pub(super) fn make(&mut self, alloc: Global, change: Change) -> Result<u64, AllocError>
        requires inside { IsInside change self.old.folded.stream }
        requires short { length self.old.folded.stream + length (units_of change) < 2 ^ 64 }
    {
        let prepared = self.ordered.prepare(alloc, change, &self.outcomes)?;
        keep_anew(alloc, &mut self.outcomes, &self.ordered, &prepared)?;
        let steps = prepared.refolded().steps();
        self.ordered.commit(prepared);
        Ok(steps)
    }
}

/// Puts the outcomes that a prepared change makes anew in the place of those of its range.
fn keep_anew(
    alloc: Global,
    outcomes: &mut Vec<Shared<HashedOutcome>>,
    ordered: &OrderedFold,
    prepared: &PreparedChange,
) -> Result<(), AllocError>
    requires anew { IsAnew prepared.now.refolded ordered.now.folded.stream }
    requires outcomes { outcomes.old.items ≡ outcomes_of ordered.now.folded.stream }
    ensures done { OnOk result (outcomes.new.items
        ≡ outcomes_of (stream_after (change_in prepared.now.refolded) ordered.now.folded.stream)) }
    ensures kept { OnErr result (outcomes.new.items ≡ outcomes.old.items) }
{
    let refolded = prepared.refolded();
    let made = shares_of(alloc, refolded.outcomes())?;
    outcomes.reserve(made.len())?;
    replace_range(outcomes, refolded.begin(), ordered.end_of(prepared), made);
    Ok(())
}
