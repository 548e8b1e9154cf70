//! What changes where a result lands.

ghost use Rattle.std.specs.Prelude.{◌≡◌, ℕ, ◌≤◌};
ghost use Rattle.held_pictures.specs.KeySlots.{uses_at};
ghost use Rattle.picture_store.specs.Filling.{IsFilled};
ghost use Rattle.picture_store.specs.declared.answers.Landing.TheVariants.{Taken};

use crate::answers::Landing;
use crate::due::is_awaited;
use decode_jobs::Decoded;
use decode_jobs::dep_keys::KeyId;
use held_pictures::key_slots::KeySlots;

/// Puts the picture of a result into the place of its key, where that waits for one.
pub(crate) fn fill<P: Decoded>(key_slots: &mut KeySlots<P>, key: KeyId, picture: P) -> Landing
    ensures filled { IsFilled key_slots.old key picture result key_slots.new }
    ensures uses { (number : ℕ) → uses_at key_slots.new number ≡ uses_at key_slots.old number }
{
    if !is_awaited(key_slots, key) {
        return Landing::Stale;
    }
    key_slots.fill(key, picture);
    Landing::Taken
}

/// How many units, from the first on, are known not to be due where a result has landed: as many as
/// before, but for those that may refer to its key where its picture is held now. These stand after
/// the first unit that has the key, which is at a place or after it.
pub(crate) fn searched_after(searched: usize, landing: Landing, from: usize) -> usize
    ensures before { result ≤ searched }
    ensures front { landing ≡ Taken → result ≤ from }
{
    match landing {
        Landing::Taken => searched.min(from),
        Landing::Stale | Landing::Foreign => searched,
    }
}
