//! Units that come and go, counted by their keys.

ghost use Rattle.std.specs.Prelude.{◌≡◌, ◌+◌, ◌^◌, ◌==◌, ◌<◌, ◌≤◌, ℕ, List, ◌⊎◌, Contains, IsPermutation, IsSome, None, Some, OnOk, length, vec_len};
ghost use Rattle.std.specs.List.Sorted.{IsNonDecreasing};
ghost use Rattle.std.specs.Map.{keys_of, lookup};
ghost use Rattle.std.specs.Vec.{vec_capacity};
ghost use Rattle.held_pictures.specs.Left.{ArePut, IsLeft};
ghost use Rattle.held_pictures.specs.Accounts.{AreApart, pictures_kept, pictures_of};
ghost use Rattle.held_pictures.specs.Counting.{once_at, once_if, times, times_in};
ghost use Rattle.held_pictures.specs.KeySlots.{AreSame, IsTakenUp, numbers_held, place_at, uses_at};
ghost use Rattle.held_pictures.specs.Going.{Goes, IsHeldBefore};

use crate::key_slots::caching::{put_in, take_one};
use crate::key_slots::slots::KeySlots;
use crate::picture_cache::PictureCache;
use decode_jobs::dep_keys::KeyId;
use std::alloc::AllocError;

/// Makes room for the keys of units.
pub fn reserve_slots<P: Copy + Drop>(
    key_slots: &mut KeySlots<P>,
    keys: &[Option<KeyId>],
) -> Result<(), AllocError>
    ensures same { AreSame key_slots.old key_slots.new }
    ensures capacity { OnOk result ((number : ℕ) → Contains keys.now (Some number)
        → number < length key_slots.new) }
{
    for key in keys {
        reserve_slot(key_slots, *key)?;
    }
    Ok(())
}

/// Makes room for a key, where there is one.
fn reserve_slot<P: Copy + Drop>(
    key_slots: &mut KeySlots<P>,
    key: Option<KeyId>,
) -> Result<(), AllocError>
    ensures same { AreSame key_slots.old key_slots.new }
    ensures longer { length key_slots.old ≤ length key_slots.new }
    ensures capacity { OnOk result ((number : ℕ) → key ≡ Some number → number < length key_slots.new) }
{
    match key {
        Some(key) => key_slots.reserve(key),
        None => Ok(()),
    }
}

/// Counts the units that come, by their keys, for which there is room. A key that comes into use
/// has the picture that is cached, and leaves the cache.
pub fn take_up_all<P: Copy + Drop>(
    key_slots: &mut KeySlots<P>,
    cache: &mut PictureCache<KeyId, P>,
    keys: &[Option<KeyId>],
)
    requires capacity { (number : ℕ) → Contains keys.now (Some number) → number < length key_slots.old }
    requires fits { (number : ℕ) → uses_at key_slots.old number + length keys.now < 2 ^ 64 }
    ensures up { (number : ℕ)
        → IsTakenUp key_slots.old cache.old.pairs (times number keys.now) key_slots.new number }
    ensures left { IsLeft (λ number. Contains keys.now (Some number))
        (keys_of cache.old.pairs) (keys_of cache.new.pairs) }
    ensures capacity { cache.new.capacity ≡ cache.old.capacity }
    ensures those { (number : ℕ) (picture : P) → Contains cache.new.pairs (number, picture)
        → Contains cache.old.pairs (number, picture) }
    ensures accounts { AreApart key_slots.old cache.old.pairs → IsPermutation
        (pictures_kept key_slots.old cache.old.pairs) (pictures_kept key_slots.new cache.new.pairs) }
{
    for key in keys {
        take_up(key_slots, cache, *key);
    }
}

/// Counts a unit that comes, by its key, if it has one.
fn take_up<P: Copy + Drop>(
    key_slots: &mut KeySlots<P>,
    cache: &mut PictureCache<KeyId, P>,
    key: Option<KeyId>,
)
    requires capacity { (number : ℕ) → key ≡ Some number → number < length key_slots.old }
    requires fits { (number : ℕ) → uses_at key_slots.old number + 1 < 2 ^ 64 }
    ensures up { (number : ℕ)
        → IsTakenUp key_slots.old cache.old.pairs (once_at number key) key_slots.new number }
    ensures long { length key_slots.new ≡ length key_slots.old }
    ensures left { IsLeft (λ number. key
        ≡ Some number) (keys_of cache.old.pairs) (keys_of cache.new.pairs) }
    ensures capacity { cache.new.capacity ≡ cache.old.capacity }
    ensures those { (number : ℕ) (picture : P) → Contains cache.new.pairs (number, picture)
        → Contains cache.old.pairs (number, picture) }
    ensures others { (number : ℕ) → (key ≡ Some number → ⊥)
        → lookup (λ other. number == other) cache.new.pairs
        ≡ lookup (λ other. number == other) cache.old.pairs }
    ensures accounts { AreApart key_slots.old cache.old.pairs → IsPermutation
        (pictures_kept key_slots.old cache.old.pairs) (pictures_kept key_slots.new cache.new.pairs) }
{
    if let Some(key) = key {
        take_up_one(key_slots, cache, key);
    }
}

/// Counts a unit that comes, by its key.
fn take_up_one<P: Copy + Drop>(
    key_slots: &mut KeySlots<P>,
    cache: &mut PictureCache<KeyId, P>,
    key: KeyId,
)
    requires capacity { key < length key_slots.old }
    requires fits { uses_at key_slots.old key + 1 < 2 ^ 64 }
    ensures up { (number : ℕ)
        → IsTakenUp key_slots.old cache.old.pairs (once_if number key) key_slots.new number }
    ensures long { length key_slots.new ≡ length key_slots.old }
    ensures left { IsLeft (λ number. number
        ≡ key) (keys_of cache.old.pairs) (keys_of cache.new.pairs) }
    ensures capacity { cache.new.capacity ≡ cache.old.capacity }
    ensures those { (number : ℕ) (picture : P) → Contains cache.new.pairs (number, picture)
        → Contains cache.old.pairs (number, picture) }
    ensures others { (number : ℕ) → (number ≡ key → ⊥)
        → lookup (λ other. number == other) cache.new.pairs
        ≡ lookup (λ other. number == other) cache.old.pairs }
    ensures accounts { AreApart key_slots.old cache.old.pairs → IsPermutation
        (pictures_kept key_slots.old cache.old.pairs) (pictures_kept key_slots.new cache.new.pairs) }
{
    let cached = take_one(cache, key);
    key_slots.take_up(key, cached);
}

/// Counts the units that go, by their keys in rising order. The picture of a key that goes out of
/// use is put into the cache. What goes out of the cache is released, and what isn't put, as memory
/// ran out: says how many those are.
pub fn let_go_all<P: Copy + Drop>(
    key_slots: &mut KeySlots<P>,
    cache: &mut PictureCache<KeyId, P>,
    leaving: &[KeyId],
    released: &mut Vec<P>,
) -> usize
    requires enough { (number : ℕ) → times_in number leaving.now ≤ uses_at key_slots.old number }
    requires rising { IsNonDecreasing leaving.now }
    requires spare { vec_len released.old + length leaving.now ≤ vec_capacity released.old }
    ensures uses { (number : ℕ)
        → uses_at key_slots.new number + times_in number leaving.now ≡ uses_at key_slots.old number }
    ensures stay { (number : ℕ) → 0 < uses_at key_slots.new number
        → place_at key_slots.new number ≡ place_at key_slots.old number }
    ensures gone { (held : List ℕ) → IsHeldBefore held leaving.now key_slots.old
        → (gone : List ℕ) × IsLeft (λ number. IsSome (place_at key_slots.new number)) held gone
        × ArePut cache.old.capacity gone (keys_of cache.old.pairs)
        (keys_of cache.new.pairs) result }
    ensures capacity { cache.new.capacity ≡ cache.old.capacity }
    ensures those { (number : ℕ) (picture : P) → Contains cache.new.pairs (number, picture)
        → Contains cache.old.pairs (number, picture)
        ⊎ ((place_at key_slots.old number ≡ Some (Some picture)) × (uses_at key_slots.new number ≡ 0)) }
    ensures accounts { IsPermutation
        (pictures_of key_slots.old cache.old.pairs released.old.items)
        (pictures_of key_slots.new cache.new.pairs released.new.items) }
    ensures few { vec_len released.new ≤ vec_len released.old + length leaving.now }
    ensures spare { vec_capacity released.new ≡ vec_capacity released.old }
{
    let mut lost = 0;
    for key in leaving {
        lost += let_go(key_slots, cache, *key, released);
    }
    lost
}

/// Counts a unit that goes, by its key, and says how many pictures aren't put.
fn let_go<P: Copy + Drop>(
    key_slots: &mut KeySlots<P>,
    cache: &mut PictureCache<KeyId, P>,
    key: KeyId,
    released: &mut Vec<P>,
) -> usize
    requires used { 0 < uses_at key_slots.old key }
    requires spare { vec_len released.old < vec_capacity released.old }
    ensures goes { Goes key_slots.old key (keys_of cache.old.pairs) cache.old.capacity
        key_slots.new (keys_of cache.new.pairs) result }
    ensures capacity { cache.new.capacity ≡ cache.old.capacity }
    ensures those { (number : ℕ) (picture : P) → Contains cache.new.pairs (number, picture)
        → Contains cache.old.pairs (number, picture)
        ⊎ ((number ≡ key) × (place_at key_slots.old key ≡ Some (Some picture))
        × (uses_at key_slots.new key ≡ 0)) }
    ensures accounts { IsPermutation
        (pictures_of key_slots.old cache.old.pairs released.old.items)
        (pictures_of key_slots.new cache.new.pairs released.new.items) }
    ensures few { vec_len released.new ≤ vec_len released.old + 1 }
    ensures spare { vec_capacity released.new ≡ vec_capacity released.old }
{
    match key_slots.let_go(key) {
        Some(picture) => put_in(cache, key, picture, released),
        None => 0,
    }
}
