//! A session's answers held against the plain fold over its units.

use access_unit::Unit;
use h264_types::pictures::AuId;
use output_order::positions;
use request_core::scratch;
use stand_in_session::Session;
use std::alloc::{AllocError, Global};
use unit_outcomes::Outcome;

/// The session says this of the unit.
fn tells(
    alloc: Global,
    session: &Session,
    id: AuId,
    outcome: &Outcome,
    position: Option<usize>,
) -> Result<bool, AllocError> {
    let Ok(kept) = session.outcome(id) else {
        return Ok(false);
    };
    let (kept, plain) = (
        format!(in alloc; "{kept:?}")?,
        format!(in alloc; "{outcome:?}")?,
    );
    Ok(kept.as_str() == plain.as_str() && session.position(id) == Ok(position))
}

/// Whether the session says of each of the units what `scratch` and `positions` say of their list.
pub fn tells_each(
    alloc: Global,
    session: &Session,
    units: &[(AuId, Unit)],
) -> Result<bool, AllocError> {
    let outcomes = scratch(alloc, units)?;
    let places = positions(alloc, &outcomes)?;
    for (at, unit) in units.iter().enumerate() {
        let (Some(outcome), Some(place)) = (outcomes.get(at), places.get(at)) else {
            return Ok(false);
        };
        if !tells(alloc, session, unit.0, outcome, *place)? {
            return Ok(false);
        }
    }
    Ok(true)
}
