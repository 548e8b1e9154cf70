//! The needed units of a unit, scheduled once for calls that follow one another.
//!
//! This is Kahn's algorithm with a priority queue. A needed unit comes into the queue when the last
//! picture to which it refers is held, and the earliest place is on top. So each needed unit is
//! looked at once, and again where a picture lands to which it refers: all calls for one unit take
//! n log n together, where n is how many units it needs.

ghost use Rattle.std.specs.Prelude.{◌≡◌, ◌<◌, ◌⊎◌, ℕ, length, Contains, IfOk, IfSome, MatchOption, OnOk, Some};
ghost use Rattle.std.specs.BinaryHeap.{heap_items};
ghost use Rattle.std.specs.List.{zip};
ghost use Rattle.held_pictures.specs.Columns.{AreColumns};
ghost use Rattle.held_pictures.specs.Held.{IsHeld};
ghost use Rattle.picture_store.specs.Due.{IsDueThere};
ghost use Rattle.picture_store.specs.Schedules.{AddsDue, AreByEntry, AreScheduled, IsEarliestDue, IsQueue, IsQueued, RefersTo, WaitsFor};
ghost use Rattle.picture_store.specs.Stored.{AreRight};

use crate::due::{due_key, key_at};
use crate::job_out::JobOut;
use decode_jobs::Decoded;
use decode_jobs::dep_keys::{Fingerprint, KeyId, Keys};
use held_pictures::key_slots::{KeySlots, Units, is_held, needed_places};
use picture_keys::RequestBodies;
use std::alloc::{AllocError, Global};
use std::cmp::Reverse;
use std::collections::BinaryHeap;

/// The needed units of the unit at a place, as long as only jobs are given and results land.
#[derive(Debug, Drop)]
pub(crate) struct Schedule {
    pub(crate) target: usize,
    // In the order of the keys that they wait for.
    pub(crate) dependents: Vec<Dependent>,
    // The places of needed units that may be due, the earliest on top.
    pub(crate) queue: BinaryHeap<Reverse<usize>>,
}

/// A needed unit that waits for a picture: its place, and the key of that picture.
#[derive(Clone, Copy, Debug, Drop)]
pub(crate) struct Dependent {
    pub(crate) entry: KeyId,
    pub(crate) at: usize,
}

/// The schedule for a target: the one that was kept, if it is the target's, or else a new one.
pub(crate) fn schedule_for<F: Fingerprint<RequestBodies>, P: Decoded>(
    alloc: Global,
    units: &Units<'_, F, P>,
    out: &[JobOut<P>],
    kept: Option<Schedule>,
    target: usize,
) -> Result<Schedule, AllocError>
    requires columns { AreColumns units.now.keys.now units.now.ids.now units.now.outcomes.now
        units.now.numbers.now }
    requires right { AreRight P.IsDecoded P.IsOf units.now.keys.now units.now.key_slots.now }
    requires within { target < length units.now.ids.now }
    requires kept { IfSome kept (λ s. AreScheduled units.now.keys.now
        (zip units.now.ids.now units.now.outcomes.now) units.now.numbers.now units.now.key_slots.now
        out.now s.target s.dependents.items (heap_items s.queue)) }
    ensures { IfOk result (λ s. (s.target ≡ target) × AreScheduled units.now.keys.now
        (zip units.now.ids.now units.now.outcomes.now) units.now.numbers.now units.now.key_slots.now
        out.now target s.dependents.items (heap_items s.queue)) }
{
    match kept {
        Some(schedule) if schedule.target == target => Ok(schedule),
        _ => new_schedule(alloc, units, out, target),
    }
}

/// Finds what the unit at a place needs, and schedules it.
fn new_schedule<F: Fingerprint<RequestBodies>, P: Decoded>(
    alloc: Global,
    units: &Units<'_, F, P>,
    out: &[JobOut<P>],
    target: usize,
) -> Result<Schedule, AllocError>
    requires columns { AreColumns units.now.keys.now units.now.ids.now units.now.outcomes.now
        units.now.numbers.now }
    requires right { AreRight P.IsDecoded P.IsOf units.now.keys.now units.now.key_slots.now }
    requires within { target < length units.now.ids.now }
    ensures { IfOk result (λ s. (s.target ≡ target) × AreScheduled units.now.keys.now
        (zip units.now.ids.now units.now.outcomes.now) units.now.numbers.now units.now.key_slots.now
        out.now target s.dependents.items (heap_items s.queue)) }
{
    let needed = needed_places(alloc, units, target)?;
    let dependents = dependents_of(alloc, units, &needed)?;
    let queue = queue_of(alloc, units, out, &needed, dependents.len())?;
    Ok(Schedule {
        target,
        dependents,
        queue,
    })
}

/// The units at these places, each with the keys that it waits for.
fn dependents_of<F: Fingerprint<RequestBodies>, P: Decoded>(
    alloc: Global,
    units: &Units<'_, F, P>,
    needed: &[usize],
) -> Result<Vec<Dependent>, AllocError>
    requires { AreRight P.IsDecoded P.IsOf units.now.keys.now units.now.key_slots.now }
    ensures by_entry { IfOk result (λ dependents. AreByEntry dependents.items) }
    ensures listed { IfOk result (λ dependents. (at entry : ℕ) → Contains needed.now at
        → RefersTo units.now.keys.now units.now.numbers.now at entry
        → (IsHeld units.now.key_slots.now entry → ⊥) → WaitsFor dependents.items at entry) }
    ensures those { IfOk result (λ dependents. (at entry : ℕ)
        → WaitsFor dependents.items at entry → Contains needed.now at) }
{
    let mut dependents = Vec::new(alloc);
    for at in needed {
        add_unit(units, *at, &mut dependents)?;
    }
    dependents.sort_unstable_by_key(|dependent| dependent.entry);
    Ok(dependents)
}

/// Adds the unit at a place with each key that it waits for.
fn add_unit<F: Fingerprint<RequestBodies>, P: Decoded>(
    units: &Units<'_, F, P>,
    at: usize,
    dependents: &mut Vec<Dependent>,
) -> Result<(), AllocError>
    requires { AreRight P.IsDecoded P.IsOf units.now.keys.now units.now.key_slots.now }
    ensures stay { OnOk result ((place entry : ℕ) → WaitsFor dependents.old.items place entry
        → WaitsFor dependents.new.items place entry) }
    ensures only { OnOk result ((place entry : ℕ) → WaitsFor dependents.new.items place entry
        → WaitsFor dependents.old.items place entry ⊎ (at ≡ place)) }
    ensures all { OnOk result ((entry : ℕ)
        → RefersTo units.now.keys.now units.now.numbers.now at entry
        → (IsHeld units.now.key_slots.now entry → ⊥) → WaitsFor dependents.new.items at entry) }
{
    let Some(key) = key_at(units.numbers, at) else {
        return Ok(());
    };
    match units.keys.node(key) {
        Some(node) => add_entries(units.key_slots, node.entries(), at, dependents),
        None => Ok(()),
    }
}

/// Adds the unit at a place with each of the keys at its entries whose picture isn't held.
fn add_entries<P: Decoded>(
    key_slots: &KeySlots<P>,
    entries: &[Option<KeyId>],
    at: usize,
    dependents: &mut Vec<Dependent>,
) -> Result<(), AllocError>
    ensures stay { OnOk result ((place entry : ℕ) → WaitsFor dependents.old.items place entry
        → WaitsFor dependents.new.items place entry) }
    ensures only { OnOk result ((place entry : ℕ) → WaitsFor dependents.new.items place entry
        → WaitsFor dependents.old.items place entry ⊎ (at ≡ place)) }
    ensures all { OnOk result ((entry : ℕ) → Contains entries.now (Some entry)
        → (IsHeld key_slots.now entry → ⊥) → WaitsFor dependents.new.items at entry) }
{
    for entry in entries {
        add_entry(key_slots, *entry, at, dependents)?;
    }
    Ok(())
}

/// Adds the unit at a place with the key at an entry, if there is one and its picture isn't held.
fn add_entry<P: Decoded>(
    key_slots: &KeySlots<P>,
    entry: Option<KeyId>,
    at: usize,
    dependents: &mut Vec<Dependent>,
) -> Result<(), AllocError>
    ensures stay { OnOk result ((place other : ℕ) → WaitsFor dependents.old.items place other
        → WaitsFor dependents.new.items place other) }
    ensures only { OnOk result ((place other : ℕ) → WaitsFor dependents.new.items place other
        → WaitsFor dependents.old.items place other ⊎ (at ≡ place)) }
    ensures all { OnOk result (IfSome entry (λ number. (IsHeld key_slots.now number → ⊥)
        → WaitsFor dependents.new.items at number)) }
{
    match entry {
        Some(entry) if !is_held(key_slots, entry) => {
            dependents.push(Dependent { entry, at })?;
            Ok(())
        }
        _ => Ok(()),
    }
}

/// A queue of those of these places whose units are due, with room for so many more.
fn queue_of<F: Fingerprint<RequestBodies>, P: Decoded>(
    alloc: Global,
    units: &Units<'_, F, P>,
    out: &[JobOut<P>],
    needed: &[usize],
    more: usize,
) -> Result<BinaryHeap<Reverse<usize>>, AllocError>
    requires { AreRight P.IsDecoded P.IsOf units.now.keys.now units.now.key_slots.now }
    ensures ordered { IfOk result (λ queue. IsQueue (heap_items queue)) }
    ensures due { IfOk result (λ queue. (at : ℕ) → Contains needed.now at
        → IsDueThere units.now.keys.now units.now.key_slots.now out.now units.now.numbers.now at
        → IsQueued (heap_items queue) at) }
    ensures those { IfOk result (λ queue. (at : ℕ) → IsQueued (heap_items queue) at
        → Contains needed.now at) }
{
    let mut queue = BinaryHeap::with_capacity(alloc, needed.len().saturating_add(more))?;
    for at in needed {
        enqueue_due(
            units.keys,
            units.key_slots,
            out,
            units.numbers,
            *at,
            &mut queue,
        )?;
    }
    Ok(queue)
}

/// Puts a place into a queue if its unit is due.
pub(crate) fn enqueue_due<F: Fingerprint<RequestBodies>, P: Decoded>(
    keys: &Keys<RequestBodies, F>,
    key_slots: &KeySlots<P>,
    out: &[JobOut<P>],
    numbers: &[Option<KeyId>],
    at: usize,
    queue: &mut BinaryHeap<Reverse<usize>>,
) -> Result<(), AllocError>
    requires { AreRight P.IsDecoded P.IsOf keys.now key_slots.now }
    ensures { OnOk result (AddsDue keys.now key_slots.now out.now numbers.now (λ place. at ≡ place)
        (heap_items queue.old) (heap_items queue.new)) }
{
    if due_key(keys, key_slots, out, key_at(numbers, at)).is_some() {
        queue.push(Reverse(at))?;
    }
    Ok(())
}

/// The earliest place in a queue whose unit is due, and its key. Earlier places leave the queue.
pub(crate) fn earliest_due<F: Fingerprint<RequestBodies>, P: Decoded>(
    keys: &Keys<RequestBodies, F>,
    key_slots: &KeySlots<P>,
    out: &[JobOut<P>],
    numbers: &[Option<KeyId>],
    queue: &mut BinaryHeap<Reverse<usize>>,
) -> Option<(usize, KeyId)>
    requires right { AreRight P.IsDecoded P.IsOf keys.now key_slots.now }
    requires ordered { IsQueue (heap_items queue.old) }
    ensures ordered { IsQueue (heap_items queue.new) }
    ensures stay { (at : ℕ) → IsQueued (heap_items queue.old) at
        → IsDueThere keys.now key_slots.now out.now numbers.now at
        → IsQueued (heap_items queue.new) at }
    ensures only { (at : ℕ) → IsQueued (heap_items queue.new) at
        → IsQueued (heap_items queue.old) at }
    ensures due { MatchOption result
        ((at : ℕ) → IsQueued (heap_items queue.old) at
        → IsDueThere keys.now key_slots.now out.now numbers.now at → ⊥)
        (λ due. IsEarliestDue keys.now key_slots.now out.now numbers.now (heap_items queue.old)
        due.0 due.1) }
{
    while let Some(top) = queue.peek() {
        let at = top.0;
        if let Some(key) = due_key(keys, key_slots, out, key_at(numbers, at)) {
            return Some((at, key));
        }
        queue.pop();
    }
    None
}
