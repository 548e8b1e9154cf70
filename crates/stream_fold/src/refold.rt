//! A fold over a stream as it will be, from a stored state on.

ghost use Rattle.std.specs.Prelude.{◌≡◌, ◌+◌, ◌-◌, ◌^◌, ◌<◌, ◌≤◌, ◌∷◌, ◌++◌, [], length, IfOk, OnOk, OnErr, Some, IfSome};
ghost use Rattle.request_core.specs.Agreement.{Stream};
ghost use Rattle.request_core.specs.Fold.{fold_step};

use crate::storing::shares_of;
use h264_types::base::Shared;
use h264_types::pictures::AuId;
use picture_keys::{HashedOutcome, HashedUnit};
use request_core::{State, Steps, step};
use std::alloc::{AllocError, Global};

/// A place, and the state of the fold past the units in front of it.
#[derive(Debug, Drop)]
pub(crate) struct ResumePoint {
    pub(crate) place: usize,
    pub(crate) state: State,
}

/// How far stored states stand apart at most, in units.
pub(crate) const SPACING: usize = 32;

/// A fold under way: its state, and what it found since it began.
#[derive(Debug, Drop)]
pub(crate) struct Refold {
    /// The place at which it began.
    pub(crate) from: usize,
    /// The last place up to there at which a state is stored, and stays so.
    pub(crate) kept: usize,
    /// The place to which it has come.
    pub(crate) place: usize,
    /// How many units it is since the last place at which a state is stored or to be stored.
    pub(crate) since: usize,
    pub(crate) state: State,
    /// The states to be stored, with their places.
    pub(crate) states: Vec<(usize, State)>,
    /// The outcomes of the units from where it began.
    pub(crate) outcomes: Vec<Shared<HashedOutcome>>,
    pub(crate) steps: Steps,
    ghost near: { since ≤ 32 },
    ghost counted: { steps ≤ place },
}

impl Refold {
    ghost use Rattle.stream_fold.specs.Refolding.{Begins, GoesOn};

    /// A fold that goes on from the state at a place; `kept` is the last stored place up to there.
    pub(crate) fn new(
        alloc: Global,
        from: usize,
        kept: usize,
        state: &State,
    ) -> Result<Refold, AllocError>
        requires below { kept ≤ from }
        requires near { from ≤ kept + 32 }
        ensures { IfOk result (Begins from kept state.now) }
    {
        Ok(Refold {
            from,
            kept,
            place: from,
            since: from - kept,
            state: state.copy()?,
            states: Vec::new(alloc),
            outcomes: Vec::new(alloc),
            steps: Steps::new(),
        })
    }

    /// Goes on over units more, in order.
    pub(crate) fn go_over(
        &mut self,
        alloc: Global,
        units: &[(AuId, Shared<HashedUnit>)],
    ) -> Result<(), AllocError>
        requires { self.old.place + length units.now < 2 ^ 64 }
        ensures { OnOk result (GoesOn self.old units.now self.new) }
    {
        for unit in units {
            self.go_on(alloc, unit.0, &unit.1)?;
        }
        Ok(())
    }

    /// Goes on over one unit more.
    pub(crate) fn go_on(
        &mut self,
        alloc: Global,
        id: AuId,
        unit: &HashedUnit,
    ) -> Result<(), AllocError>
        requires { self.old.place + 1 < 2 ^ 64 }
        ensures { OnOk result (GoesOn self.old ((id, unit.now) ∷ []) self.new) }
    {
        self.store()?;
        self.make_step(alloc, id, unit)
    }

    /// Shares these outcomes, in place of its own, which are the same.
    pub(crate) fn share(
        &mut self,
        alloc: Global,
        outcomes: &[Shared<HashedOutcome>],
    ) -> Result<(), AllocError>
        requires { outcomes.now ≡ self.old.outcomes.items }
        ensures { OnOk result (GoesOn self.old [] self.new) }
    {
        self.outcomes = shares_of(alloc, outcomes)?;
        Ok(())
    }

    /// Sets the state aside to be stored, where it is time to.
    fn store(&mut self) -> Result<(), AllocError>
        ensures on { OnOk result (GoesOn self.old [] self.new) }
        ensures roomy { OnOk result (self.new.since < 32) }
    {
        if self.since == SPACING {
            self.states.push((self.place, self.state.copy()?))?;
            self.since = 0;
        }
        Ok(())
    }

    /// Makes the step of one unit.
    fn make_step(&mut self, alloc: Global, id: AuId, unit: &HashedUnit) -> Result<(), AllocError>
        requires near { self.old.since < 32 }
        requires short { self.old.place + 1 < 2 ^ 64 }
        ensures { OnOk result (GoesOn self.old ((id, unit.now) ∷ []) self.new) }
    {
        let (state, outcome) = hashed_step(alloc, &self.state, id, unit, &mut self.steps)?;
        self.state = state;
        self.place += 1;
        self.since += 1;
        self.outcomes.push(Shared::new(alloc, outcome)?)?;
        Ok(())
    }
}

/// One step of the fold, as `request_core::step` makes it: the unit's outcome keeps the digest of
/// the unit's slices.
pub(crate) fn hashed_step(
    alloc: Global,
    state: &State,
    id: AuId,
    unit: &HashedUnit,
    steps: &mut Steps,
) -> Result<(State, HashedOutcome), AllocError>
    requires { steps.old + 1 < 2 ^ 64 }
    ensures value { IfOk result (λ answer. answer ≡ fold_step state.now id unit.now) }
    ensures counted { OnOk result (steps.new ≡ steps.old + 1) }
    ensures kept { OnErr result (steps.new ≡ steps.old) }
{
    let (state, outcome) = step(alloc, state, id, unit.unit(), steps)?;
    Ok((state, HashedOutcome::new(outcome, unit.digest())))
}

/// The place and its state, where it is one of those from `low` on up to `high`.
pub(crate) fn if_between(
    resume_point: &Option<ResumePoint>,
    low: usize,
    high: usize,
) -> Option<&ResumePoint>
    ensures { IfSome result (λ found.
        (resume_point.now ≡ Some found.now) × (low ≤ found.now.place) × (found.now.place ≤ high)) }
{
    match resume_point {
        Some(found) => {
            if low <= found.place && found.place <= high {
                Some(found)
            } else {
                None
            }
        }
        None => None,
    }
}
