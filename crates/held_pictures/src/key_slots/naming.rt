//! The units that a unit's lists name and whose pictures aren't held.

ghost use Rattle.std.specs.Prelude.{◌≡◌, ℕ, ◌==◌, ◌⊎◌, ◌↔◌, Contains, IsTrue, OnOk, Some};
ghost use Rattle.decode_jobs.specs.KeyMaps.{tree_at};
ghost use Rattle.unit_outcomes.specs.declared.outcome.Outcome.TheVariants as becomes;
ghost use Rattle.unit_outcomes.specs.declared.outcome.Plan.{Plan};
ghost use Rattle.decode_jobs.specs.Keys.{Key, named_by_all};
ghost use Rattle.picture_keys.specs.Known.{Known, key_at, key_of_outcome};
ghost use Rattle.held_pictures.specs.Held.{AreWanted, IsHeld};

use crate::key_slots::KeySlots;
use decode_jobs::dep_keys::{Fingerprint, KeyId, Keys};
use h264_types::base::Shared;
use h264_types::pictures::AuId;
use picture_keys::{HashedOutcome, RequestBodies, units_named};
use std::alloc::{AllocError, Global};
use unit_outcomes::Outcome;

/// The units of a stream column by column: their ids, their outcomes and the numbers of their keys;
/// and beside them the keys, and the pictures that are held.
#[derive(Drop)]
pub struct Units<'a, F: Fingerprint<RequestBodies>, P> {
    pub keys: &'a Keys<RequestBodies, F>,
    pub key_slots: &'a KeySlots<P>,
    pub ids: &'a [AuId],
    pub outcomes: &'a [Shared<HashedOutcome>],
    pub numbers: &'a [Option<KeyId>],
}

/// Whether the picture of a key is held.
pub fn is_held<P: Copy + Drop>(key_slots: &KeySlots<P>, key: KeyId) -> bool
    ensures { IsTrue result ↔ IsHeld key_slots.now key }
{
    key_slots.is_held(key)
}

/// Adds the ids that the lists of a unit with this key have, of units whose pictures aren't held.
pub(crate) fn want_named<F: Fingerprint<RequestBodies>, P: Copy + Drop>(
    alloc: Global,
    keys: &Keys<RequestBodies, F>,
    key_slots: &KeySlots<P>,
    outcome: &Outcome,
    key: KeyId,
    wanted: &mut Vec<AuId>,
) -> Result<(), AllocError>
    ensures stay { OnOk result ((id : ℕ) → Contains wanted.old.items id
        → Contains wanted.new.items id) }
    ensures only { OnOk result ((id : ℕ) → Contains wanted.new.items id
        → Contains wanted.old.items id ⊎ ((plan : Plan) × (outcome.now ≡ becomes.Plan plan)
        × Contains (named_by_all plan.requests) (Some id))) }
    ensures all { OnOk result ((known : Known) (plan : Plan) (id : ℕ) (own : Key)
        → tree_at keys.now key ≡ key_of_outcome known outcome.now
        → outcome.now ≡ becomes.Plan plan → Contains (named_by_all plan.requests) (Some id)
        → key_at known id ≡ Some own
        → ((number : ℕ) → tree_at keys.now number ≡ Some own → IsHeld key_slots.now number → ⊥)
        → Contains wanted.new.items id) }
{
    // The key of a valid unit is live.
    let (Outcome::Plan(plan), Some(node)) = (outcome, keys.node(key)) else {
        return Ok(());
    };
    let units = units_named(alloc, plan.requests.as_slice())?;
    want_all(key_slots, &units, node.entries(), wanted)
}

/// Adds the ids at whose entries stand keys whose pictures aren't held.
fn want_all<P: Copy + Drop>(
    key_slots: &KeySlots<P>,
    units: &[Option<AuId>],
    entries: &[Option<KeyId>],
    wanted: &mut Vec<AuId>,
) -> Result<(), AllocError>
    ensures stay { OnOk result ((id : ℕ) → Contains wanted.old.items id
        → Contains wanted.new.items id) }
    ensures only { OnOk result ((id : ℕ) → Contains wanted.new.items id
        → Contains wanted.old.items id ⊎ Contains units.now (Some id)) }
    ensures all { OnOk result (AreWanted key_slots.now units.now entries.now wanted.new.items) }
{
    for at in 0..units.len().min(entries.len()) {
        want_entry(key_slots, units[at], entries[at], wanted)?;
    }
    Ok(())
}

/// Adds the id at an entry, where a key stands there whose picture isn't held.
fn want_entry<P: Copy + Drop>(
    key_slots: &KeySlots<P>,
    unit: Option<AuId>,
    entry: Option<KeyId>,
    wanted: &mut Vec<AuId>,
) -> Result<(), AllocError>
    ensures stay { OnOk result ((other : ℕ) → Contains wanted.old.items other
        → Contains wanted.new.items other) }
    ensures only { OnOk result ((other : ℕ) → Contains wanted.new.items other
        → Contains wanted.old.items other ⊎ (unit ≡ Some other)) }
    ensures all { OnOk result ((id number : ℕ) → unit ≡ Some id → entry ≡ Some number
        → (IsHeld key_slots.now number → ⊥) → Contains wanted.new.items id) }
{
    match (unit, entry) {
        (Some(id), Some(key)) => want(key_slots, id, key, wanted),
        _ => Ok(()),
    }
}

/// Adds the id of a unit with this key, where its picture isn't held.
fn want<P: Copy + Drop>(
    key_slots: &KeySlots<P>,
    id: AuId,
    key: KeyId,
    wanted: &mut Vec<AuId>,
) -> Result<(), AllocError>
    ensures stay { OnOk result ((other : ℕ) → Contains wanted.old.items other
        → Contains wanted.new.items other) }
    ensures only { OnOk result ((other : ℕ) → Contains wanted.new.items other
        → Contains wanted.old.items other ⊎ (other ≡ id)) }
    ensures all { OnOk result ((IsHeld key_slots.now key → ⊥) → Contains wanted.new.items id) }
{
    if is_held(key_slots, key) || is_among(wanted, id) {
        return Ok(());
    }
    wanted.push(id)?;
    Ok(())
}

/// Whether the id is among these.
pub(crate) fn is_among(ids: &[AuId], id: AuId) -> bool
    ensures { IsTrue result ↔ Contains ids.now id }
{
    ids.iter().any(
        |other| -> bool
            ensures { result ≡ (other.now == id) }
        { *other == id },
    )
}
