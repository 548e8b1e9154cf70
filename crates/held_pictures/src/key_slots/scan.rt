//! The places of the units that a picture needs, found from the last one down.

ghost use Rattle.std.specs.Prelude.{◌≡◌, ℕ, [], ◌∷◌, ◌++◌, ◌+◌, ◌<◌, ◌⊎◌, ◌↔◌, ◌==◌, length, not, Contains, IfOk, MatchOption, OnOk, Some, slice_get};
ghost use Rattle.std.specs.List.{zip};
ghost use Rattle.held_pictures.specs.Columns.{AreColumns};
ghost use Rattle.held_pictures.specs.Held.{IsHeld, IsWaiting};
ghost use Rattle.held_pictures.specs.Needed.{AreNeeded, Lists, Names};
ghost use Rattle.held_pictures.specs.Scanned.{IsScanned};

use crate::key_slots::naming::{Units, is_among, is_held, want_named};
use decode_jobs::dep_keys::{Fingerprint, KeyId};
use h264_types::pictures::AuId;
use picture_keys::RequestBodies;
use std::alloc::{AllocError, Global};

/// What was found so far: the places of needed units, the last one first, and the ids of those that
/// these name and that weren't met yet. Those are of frames that are marked at the place where the
/// scan is, so that there are at most 16 of them.
#[derive(Debug, Drop)]
pub(crate) struct Scan {
    pub(crate) wanted: Vec<AuId>,
    pub(crate) needed: Vec<usize>,
}

/// The places of the units that the picture of the unit at a place needs, the last one first: none
/// where that unit isn't valid, or its picture is held. Each place from there down to the earliest
/// of them is gone over once.
pub fn needed_places<F: Fingerprint<RequestBodies>, P: Copy + Drop>(
    alloc: Global,
    units: &Units<'_, F, P>,
    target: usize,
) -> Result<Vec<usize>, AllocError>
    requires columns { AreColumns units.now.keys.now units.now.ids.now units.now.outcomes.now
        units.now.numbers.now }
    requires within { target < length units.now.ids.now }
    ensures { IfOk result (λ key_slots. AreNeeded (zip units.now.ids.now units.now.outcomes.now)
        (IsWaiting units.now.numbers.now units.now.key_slots.now) target key_slots.items) }
{
    let Some(key) = waiting_key(units, target) else {
        return Ok(Vec::new(alloc));
    };
    let mut scan = Scan {
        wanted: Vec::new(alloc),
        needed: Vec::new(alloc),
    };
    find(alloc, units, target, key, &mut scan)?;
    go_down(alloc, units, target, &mut scan)?;
    Ok(scan.needed)
}

/// The key of the unit at a place, where its picture isn't held.
fn waiting_key<F: Fingerprint<RequestBodies>, P: Copy + Drop>(
    units: &Units<'_, F, P>,
    at: usize,
) -> Option<KeyId>
    requires { at < length units.now.numbers.now }
    ensures { MatchOption result
        (IsWaiting units.now.numbers.now units.now.key_slots.now at → ⊥)
        (λ key. (slice_get units.now.numbers.now at ≡ Some (Some key))
        × (IsHeld units.now.key_slots.now key → ⊥)) }
{
    let key = units.numbers[at]?;
    if is_held(units.key_slots, key) {
        return None;
    }
    Some(key)
}

/// Goes over the places below one, down to where no unit is wanted any more: within the period, as
/// no lists name a unit before it.
fn go_down<F: Fingerprint<RequestBodies>, P: Copy + Drop>(
    alloc: Global,
    units: &Units<'_, F, P>,
    from: usize,
    scan: &mut Scan,
) -> Result<(), AllocError>
    requires columns { AreColumns units.now.keys.now units.now.ids.now units.now.outcomes.now
        units.now.numbers.now }
    requires within { from < length units.now.ids.now }
    ensures { OnOk result ((target : ℕ)
        → IsScanned (zip units.now.ids.now units.now.outcomes.now)
        (IsWaiting units.now.numbers.now units.now.key_slots.now) target from
        scan.old.wanted.items scan.old.needed.items
        → AreNeeded (zip units.now.ids.now units.now.outcomes.now)
        (IsWaiting units.now.numbers.now units.now.key_slots.now) target
        scan.new.needed.items) }
{
    let mut at = from;
    while at > 0 && !scan.wanted.is_empty() {
        at -= 1;
        meet(alloc, units, at, scan)?;
    }
    Ok(())
}

/// Goes over the unit at a place, below which no place was gone over.
fn meet<F: Fingerprint<RequestBodies>, P: Copy + Drop>(
    alloc: Global,
    units: &Units<'_, F, P>,
    at: usize,
    scan: &mut Scan,
) -> Result<(), AllocError>
    requires columns { AreColumns units.now.keys.now units.now.ids.now units.now.outcomes.now
        units.now.numbers.now }
    requires within { at < length units.now.ids.now }
    ensures { OnOk result ((target : ℕ)
        → IsScanned (zip units.now.ids.now units.now.outcomes.now)
        (IsWaiting units.now.numbers.now units.now.key_slots.now) target (at + 1)
        scan.old.wanted.items scan.old.needed.items
        → IsScanned (zip units.now.ids.now units.now.outcomes.now)
        (IsWaiting units.now.numbers.now units.now.key_slots.now) target at
        scan.new.wanted.items scan.new.needed.items) }
{
    let id = units.ids[at];
    if units.numbers[at].is_none() || !is_among(&scan.wanted, id) {
        return Ok(());
    }
    forget(&mut scan.wanted, id);
    match waiting_key(units, at) {
        Some(key) => find(alloc, units, at, key, scan),
        None => Ok(()),
    }
}

/// Adds the place of a needed unit, and wants the waiting units that its lists name.
fn find<F: Fingerprint<RequestBodies>, P: Copy + Drop>(
    alloc: Global,
    units: &Units<'_, F, P>,
    at: usize,
    key: KeyId,
    scan: &mut Scan,
) -> Result<(), AllocError>
    requires columns { AreColumns units.now.keys.now units.now.ids.now units.now.outcomes.now
        units.now.numbers.now }
    requires within { at < length units.now.ids.now }
    requires key { slice_get units.now.numbers.now at ≡ Some (Some key) }
    ensures found { OnOk result (scan.new.needed.items ≡ scan.old.needed.items ++ at ∷ []) }
    ensures stay { OnOk result ((id : ℕ) → Contains scan.old.wanted.items id
        → Contains scan.new.wanted.items id) }
    ensures only { OnOk result ((id : ℕ) → Contains scan.new.wanted.items id
        → Contains scan.old.wanted.items id
        ⊎ Lists (zip units.now.ids.now units.now.outcomes.now) at id) }
    ensures all { OnOk result ((other : ℕ)
        → (names : Names (zip units.now.ids.now units.now.outcomes.now) at other)
        → IsWaiting units.now.numbers.now units.now.key_slots.now other
        → Contains scan.new.wanted.items names.id) }
{
    scan.needed.push(at)?;
    let outcome = &units.outcomes[at];
    want_named(
        alloc,
        units.keys,
        units.key_slots,
        outcome,
        key,
        &mut scan.wanted,
    )
}

/// Takes an id out of those that are wanted.
fn forget(wanted: &mut Vec<AuId>, id: AuId)
    ensures { (other : ℕ) → Contains wanted.new.items other
        ↔ (Contains wanted.old.items other × (other ≡ id → ⊥)) }
{
    wanted.retain(
        |other| -> bool
            ensures { result ≡ not (other.now == id) }
        { *other != id },
    );
}
