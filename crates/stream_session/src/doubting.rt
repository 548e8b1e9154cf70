//! Which units of a stream are in doubt, and which break each follows.

ghost use Rattle.std.specs.Prelude.{◌≡◌, ◌⊎◌, ℕ, ◌+◌, ◌<◌, ◌≤◌, length, true, IfOk, slice_get};
ghost use Rattle.unit_outcomes.specs.References.{is_of_reference};
ghost use Rattle.unit_outcomes.specs.SeenUnits.{is_break, tells_idr};
ghost use Rattle.unit_outcomes.specs.InDoubt.{AreDoubts, IdsDiffer, IsDoubt};
ghost use Rattle.unit_outcomes.specs.Walks.{IsBefore};
ghost use Rattle.stream_session.specs.Doubting.{seen_with};

use access_unit::Unit;
use h264_types::base::Shared;
use h264_types::pictures::AuId;
use picture_keys::{HashedOutcome, HashedUnit};
use std::alloc::{AllocError, Global};
use unit_outcomes::Outcome;
use unit_outcomes::doubts::{Doubt, DoubtWalk, is_break, is_idr_picture};

/// What is told of so many units from a place on.
pub(crate) fn doubts_of(
    alloc: Global,
    units: &[(AuId, Shared<HashedUnit>)],
    outcomes: &[Shared<HashedOutcome>],
    from: usize,
    count: usize,
) -> Result<Vec<Doubt>, AllocError>
    requires same { length outcomes.now ≡ length units.now }
    requires splice { from + count ≤ length units.now }
    requires differ { IdsDiffer (seen_with units.now outcomes.now) }
    ensures { IfOk result (λ doubts.
        AreDoubts (seen_with units.now outcomes.now) from count doubts.items) }
{
    let mut walk = walk_up(alloc, units, outcomes, from)?;
    let mut doubts = Vec::with_capacity(alloc, count)?;
    for at in from..from + count {
        let (next, doubt) = pass(alloc, walk, units, outcomes, at)?;
        walk = next;
        doubts.push(doubt)?;
    }
    Ok(doubts)
}

/// The walk over the units before a place, from the last valid IDR picture on.
fn walk_up(
    alloc: Global,
    units: &[(AuId, Shared<HashedUnit>)],
    outcomes: &[Shared<HashedOutcome>],
    from: usize,
) -> Result<DoubtWalk, AllocError>
    requires same { length outcomes.now ≡ length units.now }
    requires place { from ≤ length units.now }
    requires differ { IdsDiffer (seen_with units.now outcomes.now) }
    ensures { IfOk result (IsBefore (seen_with units.now outcomes.now) from) }
{
    let mut walk = DoubtWalk::new(alloc);
    for at in walk_start(outcomes, from)..from {
        let (next, _) = pass(alloc, walk, units, outcomes, at)?;
        walk = next;
    }
    Ok(walk)
}

/// The place of the last valid IDR picture up to a place, itself included; 0 where there is none.
fn walk_start(outcomes: &[Shared<HashedOutcome>], from: usize) -> usize
    ensures within { result ≤ from }
    ensures begins { (result ≡ 0) ⊎ (tells_idr (slice_get outcomes.now result) ≡ true) }
{
    let mut at = from;
    while at > 0 && !is_idr_at(outcomes, at) {
        at -= 1;
    }
    at
}

/// Whether a valid IDR picture stands at a place.
fn is_idr_at(outcomes: &[Shared<HashedOutcome>], at: usize) -> bool
    ensures { result ≡ tells_idr (slice_get outcomes.now at) }
{
    match outcomes.get(at) {
        Some(outcome) => is_idr_picture(outcome),
        None => false,
    }
}

/// Walks over the unit at a place.
fn pass(
    alloc: Global,
    walk: DoubtWalk,
    units: &[(AuId, Shared<HashedUnit>)],
    outcomes: &[Shared<HashedOutcome>],
    at: usize,
) -> Result<(DoubtWalk, Doubt), AllocError>
    requires same { length outcomes.now ≡ length units.now }
    requires within { at < length units.now }
    requires differ { IdsDiffer (seen_with units.now outcomes.now) }
    requires before { IsBefore (seen_with units.now outcomes.now) at walk }
    ensures { IfOk result (λ passed. IsDoubt (seen_with units.now outcomes.now) at passed.1
        × IsBefore (seen_with units.now outcomes.now) (at + 1) passed.0) }
{
    let (id, unit) = &units[at];
    let outcome: &Outcome = &outcomes[at];
    let (next, doubt) = walk.pass_by(alloc, *id, breaks(unit, outcome), outcome)?;
    Ok((next, doubt))
}

/// Whether a unit is a break. The slices of a valid one aren't looked at.
fn breaks(unit: &HashedUnit, outcome: &Outcome) -> bool
    ensures { result ≡ is_break (is_of_reference unit.now) outcome.now }
{
    match outcome {
        Outcome::Plan(_) => false,
        Outcome::Fault(_) => is_break(is_reference(unit.unit()), outcome),
        Outcome::Empty => false,
    }
}

/// Whether nal_ref_idc of a unit's first slice isn't 0.
fn is_reference(unit: &Unit) -> bool
    ensures { result ≡ is_of_reference unit.now }
{
    match unit.slices() {
        [] => false,
        [slice, ..] => slice.nal().nal_ref_idc() != 0,
    }
}
