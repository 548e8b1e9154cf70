//! The fold over a stream's units.

ghost use Rattle.std.specs.Prelude.{◌≡◌, ◌≤◌, length, IfOk};
ghost use Rattle.access_unit.specs.StreamUnits.{most_units};
ghost use Rattle.request_core.specs.Fold.{outcomes_of};
ghost use Rattle.unit_printing.specs.StreamLines.{numbered_from};

use access_unit::Unit;
use h264_types::pictures::AuId;
use request_core::{State, Steps, step};
use std::alloc::{AllocError, Global};
use unit_outcomes::Outcome;

/// Each unit's outcome of a stream, whose ids are 1, 2, 3 and so on.
pub(crate) fn fold(alloc: Global, units: &[Unit]) -> Result<Vec<Outcome>, AllocError>
    requires { length units.now ≤ most_units }
    ensures { IfOk result (λ outcomes. outcomes.items ≡ outcomes_of (numbered_from 1 units.now)) }
{
    let mut state = State::new(alloc)?;
    let mut steps = Steps::new();
    let mut outcomes = Vec::with_capacity(alloc, units.len())?;
    for (place, unit) in units.iter().enumerate() {
        let id = AuId::new(place as u32 + 1);
        let (after, outcome) = step(alloc, &state, id, unit, &mut steps)?;
        state = after;
        outcomes.push(outcome)?;
    }
    Ok(outcomes)
}
