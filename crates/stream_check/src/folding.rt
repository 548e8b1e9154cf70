//! The fold over a stream's units.

ghost use Rattle.std.specs.Prelude.{◌≡◌, ◌≤◌, length, IfOk};
ghost use Rattle.access_unit.specs.StreamUnits.{most_units};
ghost use Rattle.request_core.specs.Fold.{outcomes_of};
ghost use Rattle.request_core.specs.States.{no_units};
ghost use Rattle.stream_check.specs.Problems.{problems_from};
ghost use Rattle.unit_printing.specs.StreamLines.{numbered_from};

use crate::problems::{Problem, Problems};
use access_unit::Unit;
use h264_types::pictures::AuId;
use request_core::{State, Steps, step};
use std::alloc::{AllocError, Global};
use unit_outcomes::Outcome;

/// What the units of a stream lead to.
#[derive(Drop)]
pub(crate) struct FoldedStream {
    pub(crate) outcomes: Vec<Outcome>,
    /// The units with a fault, in order.
    pub(crate) problems: Vec<Problem>,
}

/// Each unit's outcome, and each unit with a fault, of a stream whose ids are 1, 2, 3 and so on.
pub(crate) fn fold(alloc: Global, units: &[Unit]) -> Result<FoldedStream, AllocError>
    requires { length units.now ≤ most_units }
    ensures outcomes { IfOk result (λ folded.
        folded.outcomes.items ≡ outcomes_of (numbered_from 1 units.now)) }
    ensures problems { IfOk result (λ folded.
        folded.problems.items ≡ problems_from no_units 1 units.now) }
{
    let mut state = State::new(alloc)?;
    let mut steps = Steps::new();
    let mut outcomes = Vec::with_capacity(alloc, units.len())?;
    let mut problems = Problems::new(alloc)?;
    for (place, unit) in units.iter().enumerate() {
        let id = AuId::new(place as u32 + 1);
        let (after, outcome) = step(alloc, &state, id, unit, &mut steps)?;
        state = after;
        problems.add(alloc, id, unit, &outcome)?;
        outcomes.push(outcome)?;
    }
    Ok(FoldedStream {
        outcomes,
        problems: problems.found,
    })
}
