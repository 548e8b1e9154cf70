//! What is told of a range of units.

ghost use Rattle.std.specs.Prelude.{◌≡◌, ◌⊎◌, ℕ, ◌+◌, ◌<◌, ◌≤◌, length, true, IfOk, slice_get};
ghost use Rattle.unit_outcomes.specs.SeenUnits.{seen_units, tells_idr};
ghost use Rattle.unit_outcomes.specs.InDoubt.{AreDoubts, IdsDiffer};
ghost use Rattle.unit_outcomes.specs.Walks.{IsBefore};

use crate::Outcome;
use crate::doubts::breaks::is_idr_picture;
use crate::doubts::walk::{Doubt, DoubtWalk};
use h264_types::pictures::AuId;
use std::alloc::{AllocError, Global};

/// What is told of so many units from a place on, of a stream with these ids and outcomes, and of
/// each unit whether nal_ref_idc of its first slice isn't 0. It takes a time that grows with the
/// units from the last valid IDR picture before the range on, up to the range's end.
pub fn doubts(
    alloc: Global,
    ids: &[AuId],
    references: &[bool],
    outcomes: &[Outcome],
    from: usize,
    count: usize,
) -> Result<Vec<Doubt>, AllocError>
    requires references { length references.now ≡ length ids.now }
    requires outcomes { length outcomes.now ≡ length ids.now }
    requires range { from + count ≤ length ids.now }
    ensures { IfOk result (λ doubts.
        IdsDiffer (seen_units ids.now references.now outcomes.now)
        → AreDoubts (seen_units ids.now references.now outcomes.now) from count doubts.items) }
{
    let mut walk = walk_up(alloc, ids, references, outcomes, from)?;
    let mut doubts = Vec::with_capacity(alloc, count)?;
    for at in from..from + count {
        let (next, doubt) = walk.pass(alloc, ids[at], references[at], &outcomes[at])?;
        walk = next;
        doubts.push(doubt)?;
    }
    Ok(doubts)
}

/// The walk over the units before a place, from the last valid IDR picture on.
fn walk_up(
    alloc: Global,
    ids: &[AuId],
    references: &[bool],
    outcomes: &[Outcome],
    from: usize,
) -> Result<DoubtWalk, AllocError>
    requires references { length references.now ≡ length ids.now }
    requires outcomes { length outcomes.now ≡ length ids.now }
    requires place { from ≤ length ids.now }
    ensures { IfOk result (λ walk.
        IdsDiffer (seen_units ids.now references.now outcomes.now)
        → IsBefore (seen_units ids.now references.now outcomes.now) from walk) }
{
    let mut walk = DoubtWalk::new(alloc);
    for at in walk_start(outcomes, from)..from {
        let (next, _) = walk.pass(alloc, ids[at], references[at], &outcomes[at])?;
        walk = next;
    }
    Ok(walk)
}

/// The place of the last valid IDR picture up to a place, itself included: where a walk may begin
/// that is to tell of the unit there. 0 where there is none.
pub fn walk_start(outcomes: &[Outcome], from: usize) -> usize
    ensures within { result ≤ from }
    ensures begins { (result ≡ 0) ⊎ (tells_idr (slice_get outcomes.now result) ≡ true) }
    ensures last { (place : ℕ) → result < place → place ≤ from
        → tells_idr (slice_get outcomes.now place) ≡ true → ⊥ }
{
    let mut at = from;
    while at > 0 && !is_idr_at(outcomes, at) {
        at -= 1;
    }
    at
}

/// Whether a valid IDR picture stands at a place.
fn is_idr_at(outcomes: &[Outcome], at: usize) -> bool
    ensures { result ≡ tells_idr (slice_get outcomes.now at) }
{
    match outcomes.get(at) {
        Some(outcome) => is_idr_picture(outcome),
        None => false,
    }
}
