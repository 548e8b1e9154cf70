//! Which key is due: its picture is wanted, no job makes it, and the pictures that it refers to are
//! held.

ghost use Rattle.std.specs.Prelude.{◌≡◌, ◌<◌, ◌↔◌, ℕ, Option, Some, None, length, take, All, Contains, IfSome, IsSome, IsTrue, MatchOption, slice_get, slice_index_or};
ghost use Rattle.picture_store.specs.Stored.{AreRight};
ghost use Rattle.held_pictures.specs.KeySlots.{place_at};
ghost use Rattle.picture_store.specs.Due.{AreHeld, IsDueNumber, IsNotDue, IsReadyNumber};
ghost use Rattle.picture_store.specs.Looked.{AreNotDue};
ghost use Rattle.picture_store.specs.Settled.{AreSettled, NeedsNone};
ghost use Rattle.picture_store.specs.Stores.{StoreValue};
ghost use Rattle.picture_store.specs.Pending.{IsStuck};

use crate::job_out::{JobOut, is_out};
use decode_jobs::Decoded;
use decode_jobs::dep_keys::{Fingerprint, KeyId, Keys};
use held_pictures::key_slots::{KeySlots, is_held};
use picture_keys::RequestBodies;

/// The first unit, from one on before which all are known to need no job, that needs one.
pub(crate) fn first_to_do<P: Decoded>(
    key_slots: &KeySlots<P>,
    out: &[JobOut<P>],
    numbers: &[Option<KeyId>],
    settled: usize,
) -> usize
    requires { AreSettled key_slots.now out.now numbers.now settled }
    ensures { AreSettled key_slots.now out.now numbers.now result }
{
    for at in settled..numbers.len() {
        if !needs_none(key_slots, out, numbers[at]) {
            return at;
        }
    }
    numbers.len()
}

/// Whether a unit has no key, or one whose picture is held or that of a job that is out.
fn needs_none<P: Decoded>(key_slots: &KeySlots<P>, out: &[JobOut<P>], key: Option<KeyId>) -> bool
    ensures { IsTrue result ↔ NeedsNone key_slots.now out.now key }
{
    match key {
        Some(key) => is_held(key_slots, key) || is_out(out, key),
        None => true,
    }
}

/// The place of the first unit whose key is due, from one on before which none is known to be.
pub(crate) fn first_due<F: Fingerprint<RequestBodies>, P: Decoded>(
    keys: &Keys<RequestBodies, F>,
    key_slots: &KeySlots<P>,
    out: &[JobOut<P>],
    numbers: &[Option<KeyId>],
    from: usize,
) -> Option<usize>
    requires right { AreRight P.IsDecoded P.IsOf keys.now key_slots.now }
    requires before { AreNotDue keys.now key_slots.now out.now numbers.now from }
    ensures { MatchOption result (All (IsNotDue keys.now key_slots.now out.now) numbers.now)
        (λ at. (at < length numbers.now)
        × ((other : Option ℕ)
        → IfSome (slice_index_or numbers.now at other) (IsDueNumber keys.now key_slots.now out.now))
        × All (IsNotDue keys.now key_slots.now out.now) (take at numbers.now)
        × ((other : Option ℕ) → IsSome (slice_index_or numbers.now at other))) }
{
    for at in from..numbers.len() {
        if has_due(keys, key_slots, out, numbers[at]) {
            return Some(at);
        }
    }
    None
}

/// The key of the unit at a place.
pub(crate) fn key_at(numbers: &[Option<KeyId>], at: usize) -> Option<KeyId>
    ensures { (number : ℕ) → result ≡ Some number
        ↔ (slice_get numbers.now at ≡ Some (Some number)) }
{
    match numbers.get(at) {
        Some(key) => *key,
        None => None,
    }
}

/// The key of a unit, where it has one that is due.
pub(crate) fn due_key<F: Fingerprint<RequestBodies>, P: Decoded>(
    keys: &Keys<RequestBodies, F>,
    key_slots: &KeySlots<P>,
    out: &[JobOut<P>],
    key: Option<KeyId>,
) -> Option<KeyId>
    requires { AreRight P.IsDecoded P.IsOf keys.now key_slots.now }
    ensures { MatchOption result (IsNotDue keys.now key_slots.now out.now key)
        (λ due. (key ≡ Some due) × IsDueNumber keys.now key_slots.now out.now due) }
{
    match key {
        Some(key) if is_due(keys, key_slots, out, key) => Some(key),
        _ => None,
    }
}

/// Whether a unit has a key that is due.
fn has_due<F: Fingerprint<RequestBodies>, P: Decoded>(
    keys: &Keys<RequestBodies, F>,
    key_slots: &KeySlots<P>,
    out: &[JobOut<P>],
    key: Option<KeyId>,
) -> bool
    requires { AreRight P.IsDecoded P.IsOf keys.now key_slots.now }
    ensures due { IsTrue result → IfSome key (IsDueNumber keys.now key_slots.now out.now) }
    ensures some { IsTrue result → IsSome key }
    ensures other { (IsTrue result → ⊥) → IsNotDue keys.now key_slots.now out.now key }
{
    match key {
        Some(key) => is_due(keys, key_slots, out, key),
        None => false,
    }
}

/// Whether the key is due.
fn is_due<F: Fingerprint<RequestBodies>, P: Decoded>(
    keys: &Keys<RequestBodies, F>,
    key_slots: &KeySlots<P>,
    out: &[JobOut<P>],
    key: KeyId,
) -> bool
    requires { AreRight P.IsDecoded P.IsOf keys.now key_slots.now }
    ensures { IsTrue result ↔ IsDueNumber keys.now key_slots.now out.now key }
{
    is_awaited(key_slots, key) && is_ready(keys, key_slots, key) && !is_out(out, key)
}

/// Whether the pictures to which a key refers are held.
pub(crate) fn is_ready<F: Fingerprint<RequestBodies>, P: Decoded>(
    keys: &Keys<RequestBodies, F>,
    key_slots: &KeySlots<P>,
    key: KeyId,
) -> bool
    requires { AreRight P.IsDecoded P.IsOf keys.now key_slots.now }
    ensures { IsTrue result ↔ IsReadyNumber keys.now key_slots.now key }
{
    match keys.node(key) {
        Some(node) => are_held(key_slots, node.entries()),
        None => false,
    }
}

/// Whether the key has a place without a picture.
pub(crate) fn is_awaited<P: Decoded>(key_slots: &KeySlots<P>, key: KeyId) -> bool
    ensures { IsTrue result ↔ (place_at key_slots.now key ≡ Some None) }
{
    key_slots.is_awaited(key)
}

/// Whether the pictures of the keys at these entries are held.
fn are_held<P: Decoded>(key_slots: &KeySlots<P>, entries: &[Option<KeyId>]) -> bool
    ensures { IsTrue result ↔ AreHeld key_slots.now entries.now }
{
    for entry in entries {
        if let Some(key) = entry
            && !is_held(key_slots, *key)
        {
            return false;
        }
    }
    true
}

/// Something is due: where the unit at a place is pending and no needed unit's key is out, a needed
/// unit is due. So no unit is ever stuck.
pub fn something_is_due<P: Decoded>()
    ensures { (store : StoreValue P) (at : ℕ) → IsStuck store at → ⊥ }
{}
