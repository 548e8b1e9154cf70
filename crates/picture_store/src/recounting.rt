//! The keys in use, counted anew where a range of a stream changed.

ghost use Rattle.std.specs.Prelude.{◌≡◌, ◌+◌, ◌-◌, ◌^◌, ◌<◌, ◌≤◌, ◌++◌, [], true, false, ℕ, List, Option, Contains, IsPermutation, Some, IfOk, OnOk, drop, length, take, vec_len};
ghost use Rattle.std.specs.Vec.{vec_capacity};
ghost use Rattle.std.specs.List.Sorted.{IsNonDecreasing};
ghost use Rattle.held_pictures.specs.Accounts.{AreApart, pictures_of};
ghost use Rattle.held_pictures.specs.Counting.{times, times_in};
ghost use Rattle.held_pictures.specs.KeySlots.{AreSame, uses_at};
ghost use Rattle.picture_store.specs.Recounts.{IsCountable, IsRecounted};

use crate::refitting::add_numbers;
use decode_jobs::Decoded;
use decode_jobs::dep_keys::KeyId;
use held_pictures::key_slots::{KeySlots, let_go_all, reserve_slots, take_up_all};
use held_pictures::picture_cache::PictureCache;
use std::alloc::{AllocError, Global};

/// The keys of units, in rising order of their numbers.
fn leaving(alloc: Global, numbers: &[Option<KeyId>]) -> Result<Vec<KeyId>, AllocError>
    ensures counted { IfOk result (λ keys. (number : ℕ)
        → times_in number keys.items ≡ times number numbers.now) }
    ensures rising { IfOk result (λ keys. IsNonDecreasing keys.items) }
{
    let mut keys = Vec::new(alloc);
    add_numbers(&mut keys, numbers)?;
    keys.sort_unstable();
    Ok(keys)
}

/// Makes room for the numbers and the keys of units that come in the place of those between two
/// places, and for a released picture of each of these, and gives their keys. The places stay.
pub(crate) fn make_ready<P: Decoded>(
    alloc: Global,
    numbers: &mut Vec<Option<KeyId>>,
    key_slots: &mut KeySlots<P>,
    released: &mut Vec<P>,
    from: usize,
    to: usize,
    later: &[Option<KeyId>],
) -> Result<Vec<KeyId>, AllocError>
    requires ordered { from ≤ to }
    requires inside { to ≤ length numbers.old.items }
    ensures numbers { numbers.new.items ≡ numbers.old.items }
    ensures same { AreSame key_slots.old key_slots.new }
    ensures released { released.new.items ≡ released.old.items }
    ensures found_capacity { OnOk result
        (vec_len numbers.new + length later.now ≤ vec_capacity numbers.new) }
    ensures capacity { OnOk result ((number : ℕ) → Contains later.now (Some number)
        → number < length key_slots.new) }
    ensures spare { IfOk result (λ keys. vec_len released.new + length keys.items
        ≤ vec_capacity released.new) }
    ensures counted { IfOk result (λ keys. (number : ℕ) → times_in number keys.items
        ≡ times number (take (to - from) (drop from numbers.old.items))) }
    ensures rising { IfOk result (λ keys. IsNonDecreasing keys.items) }
{
    let leaving = leaving(alloc, &numbers[from..to])?;
    numbers.reserve(later.len())?;
    released.reserve(leaving.len())?;
    reserve_slots(key_slots, later)?;
    Ok(leaving)
}

/// Counts the keys of the units that come, for which there is room, and then those of units that
/// go. What goes out of the cache is released, and so is what isn't put into it where memory runs
/// out, for the cache alone: says how many pictures aren't put.
pub(crate) fn recount<P: Decoded>(
    key_slots: &mut KeySlots<P>,
    cache: &mut PictureCache<KeyId, P>,
    later: &[Option<KeyId>],
    leaving: &[KeyId],
    released: &mut Vec<P>,
) -> usize
    requires capacity { (number : ℕ) → Contains later.now (Some number)
        → number < length key_slots.old }
    requires fits { (number : ℕ) → uses_at key_slots.old number + length later.now < 2 ^ 64 }
    requires enough { (number : ℕ) → times_in number leaving.now ≤ uses_at key_slots.old number }
    requires rising { IsNonDecreasing leaving.now }
    requires spare { vec_len released.old + length leaving.now ≤ vec_capacity released.old }
    requires apart { AreApart key_slots.old cache.old.pairs }
    ensures recounted { (front goes back : List (Option ℕ))
        → IsCountable key_slots.old cache.old.pairs front goes back leaving.now
        → IsRecounted key_slots.old cache.old.pairs cache.old.capacity (front ++ later.now ++ back)
        key_slots.new cache.new.pairs result }
    ensures capacity { cache.new.capacity ≡ cache.old.capacity }
    ensures accounts { IsPermutation
        (pictures_of key_slots.old cache.old.pairs released.old.items)
        (pictures_of key_slots.new cache.new.pairs released.new.items) }
{
    take_up_all(key_slots, cache, later);
    let_go_all(key_slots, cache, leaving, released)
}

/// Forgets the pictures that are released, where the host has no picture back.
pub(crate) fn forget_released<P: Decoded>(released: &mut Vec<P>)
    ensures stay { P.GoesBack ≡ true → released.new.items ≡ released.old.items }
    ensures forgotten { P.GoesBack ≡ false → released.new.items ≡ [] }
{
    if !P::goes_back() {
        released.clear();
    }
}
