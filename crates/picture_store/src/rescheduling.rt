//! What stays of a schedule where a result lands.

ghost use Rattle.std.specs.Prelude.{◌≡◌, ◌↔◌, ℕ, Contains, IfSome, OnOk, Some};
ghost use Rattle.std.specs.BinaryHeap.{heap_items};
ghost use Rattle.picture_store.specs.Due.{IsReadyNumber};
ghost use Rattle.picture_store.specs.Stored.{AreRight};
ghost use Rattle.picture_store.specs.Schedules.{AddsDue, AreByEntry, FollowsLanding, GoesOn, WaitsFor};
ghost use Rattle.picture_store.specs.declared.schedule.Dependent.{Dependent as Waiting};

use crate::answers::Landing;
use crate::due::is_ready;
use crate::job_out::JobOut;
use crate::schedule::{Dependent, Schedule, enqueue_due};
use decode_jobs::Decoded;
use decode_jobs::dep_keys::{Fingerprint, KeyId, Keys};
use held_pictures::key_slots::KeySlots;
use picture_keys::RequestBodies;
use std::alloc::AllocError;
use std::cmp::Reverse;
use std::collections::BinaryHeap;

/// The schedule, if the pictures to which a key itself refers are held. If they aren't, it may be
/// that they are needed for this key alone, and so not any more when its own picture is held.
pub(crate) fn if_ready<F: Fingerprint<RequestBodies>, P: Decoded>(
    keys: &Keys<RequestBodies, F>,
    key_slots: &KeySlots<P>,
    key: KeyId,
    schedule: Option<Schedule>,
) -> Option<Schedule>
    requires { AreRight P.IsDecoded P.IsOf keys.now key_slots.now }
    ensures { IfSome result (λ s. (schedule ≡ Some s) × IsReadyNumber keys.now key_slots.now key) }
{
    if is_ready(keys, key_slots, key) {
        schedule
    } else {
        None
    }
}

/// What stays of a schedule where a result of a key has landed. If its picture is held now, those
/// units come into the queue that waited for it and are due. It takes no memory.
pub(crate) fn after_landing<F: Fingerprint<RequestBodies>, P: Decoded>(
    keys: &Keys<RequestBodies, F>,
    key_slots: &KeySlots<P>,
    out: &[JobOut<P>],
    numbers: &[Option<KeyId>],
    schedule: Option<Schedule>,
    key: KeyId,
    landing: Landing,
) -> Option<Schedule>
    requires right { AreRight P.IsDecoded P.IsOf keys.now key_slots.now }
    requires by_entry { IfSome schedule (λ s. AreByEntry s.dependents.items) }
    ensures { FollowsLanding keys.now key_slots.now out.now numbers.now key landing schedule result }
{
    match landing {
        Landing::Taken => with_held(keys, key_slots, out, numbers, schedule, key),
        Landing::Stale | Landing::Foreign => schedule,
    }
}

/// The schedule with those units in its queue that waited for a key and are due. The queue was made
/// with room for them; nothing stays of a schedule without that room.
fn with_held<F: Fingerprint<RequestBodies>, P: Decoded>(
    keys: &Keys<RequestBodies, F>,
    key_slots: &KeySlots<P>,
    out: &[JobOut<P>],
    numbers: &[Option<KeyId>],
    schedule: Option<Schedule>,
    key: KeyId,
) -> Option<Schedule>
    requires right { AreRight P.IsDecoded P.IsOf keys.now key_slots.now }
    requires by_entry { IfSome schedule (λ s. AreByEntry s.dependents.items) }
    ensures { GoesOn keys.now key_slots.now out.now numbers.now key schedule result }
{
    let Schedule {
        target,
        dependents,
        mut queue,
    } = schedule?;
    let freed = dependents_on(&dependents, key);
    if queue.capacity() < queue.len().saturating_add(freed.len()) {
        return None;
    }
    enqueue_all_due(keys, key_slots, out, numbers, freed, &mut queue).ok()?;
    Some(Schedule {
        target,
        dependents,
        queue,
    })
}

/// Those of the dependents that wait for a key.
fn dependents_on(dependents: &[Dependent], key: KeyId) -> &[Dependent]
    requires { AreByEntry dependents.now }
    ensures { (waiting : Waiting) → Contains result.now waiting
        ↔ (Contains dependents.now waiting × (waiting.entry ≡ key)) }
{
    let from = dependents.partition_point(|dependent| dependent.entry < key);
    let to = dependents.partition_point(|dependent| dependent.entry <= key);
    &dependents[from..to]
}

/// Puts the places of these dependents into a queue, each if its unit is due.
fn enqueue_all_due<F: Fingerprint<RequestBodies>, P: Decoded>(
    keys: &Keys<RequestBodies, F>,
    key_slots: &KeySlots<P>,
    out: &[JobOut<P>],
    numbers: &[Option<KeyId>],
    freed: &[Dependent],
    queue: &mut BinaryHeap<Reverse<usize>>,
) -> Result<(), AllocError>
    requires { AreRight P.IsDecoded P.IsOf keys.now key_slots.now }
    ensures { OnOk result (AddsDue keys.now key_slots.now out.now numbers.now
        (λ at. (entry : ℕ) × WaitsFor freed.now at entry)
        (heap_items queue.old) (heap_items queue.new)) }
{
    for dependent in freed {
        enqueue_due(keys, key_slots, out, numbers, dependent.at, queue)?;
    }
    Ok(())
}
