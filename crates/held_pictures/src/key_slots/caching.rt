//! Pictures of keys that are put into a cache and taken out of it.

ghost use Rattle.std.specs.Prelude.{◌≡◌, ◌+◌, ◌<◌, ◌≤◌, ◌==◌, ℕ, ◌∷◌, ◌++◌, ◌⊎◌, Contains, IsPermutation, Some, vec_len};
ghost use Rattle.std.specs.Option.{option_to_list};
ghost use Rattle.std.specs.Map.{keys_of, lookup, values_of};
ghost use Rattle.std.specs.Vec.{vec_capacity};
ghost use Rattle.held_pictures.specs.Left.{IsLeft, IsPut};

use crate::picture_cache::PictureCache;
use decode_jobs::dep_keys::KeyId;

/// Puts a picture into a cache, and says how many aren't put: this one, where no memory is found.
/// It, or the one that goes out in its place, is released.
pub(crate) fn put_in<P: Copy + Drop>(
    cache: &mut PictureCache<KeyId, P>,
    key: KeyId,
    picture: P,
    released: &mut Vec<P>,
) -> usize
    requires spare { vec_len released.old < vec_capacity released.old }
    ensures puts { (IsPut cache.old.capacity key (keys_of cache.old.pairs) (keys_of cache.new.pairs)
        × (result ≡ 0))
        ⊎ ((keys_of cache.new.pairs ≡ keys_of cache.old.pairs) × (result ≡ 1)) }
    ensures capacity { cache.new.capacity ≡ cache.old.capacity }
    ensures those { (number : ℕ) (other : P) → Contains cache.new.pairs (number, other)
        → Contains cache.old.pairs (number, other) ⊎ ((number ≡ key) × (other ≡ picture)) }
    ensures accounts { IsPermutation
        (picture ∷ (values_of cache.old.pairs ++ released.old.items))
        (values_of cache.new.pairs ++ released.new.items) }
    ensures few { vec_len released.new ≤ vec_len released.old + 1 }
    ensures spare { vec_capacity released.new ≡ vec_capacity released.old }
{
    // no key stands twice, as `len` says
    let _ = cache.len();
    match cache.put(key, picture) {
        Ok(out) => {
            release(released, out);
            0
        }
        Err(back) => {
            released.push_reserved(back);
            1
        }
    }
}

/// Releases a picture, where there is one.
fn release<P: Copy + Drop>(released: &mut Vec<P>, picture: Option<P>)
    requires spare { vec_len released.old < vec_capacity released.old }
    ensures items { released.new.items ≡ released.old.items ++ option_to_list picture }
    ensures few { vec_len released.new ≤ vec_len released.old + 1 }
    ensures spare { vec_capacity released.new ≡ vec_capacity released.old }
{
    if let Some(picture) = picture {
        released.push_reserved(picture);
    }
}

/// Takes the picture of a key, where it is cached, out of the cache.
pub(crate) fn take_one<P: Copy + Drop>(cache: &mut PictureCache<KeyId, P>, key: KeyId) -> Option<P>
    ensures value { result ≡ lookup (λ other. key == other) cache.old.pairs }
    ensures left { IsLeft (λ number. number
        ≡ key) (keys_of cache.old.pairs) (keys_of cache.new.pairs) }
    ensures capacity { cache.new.capacity ≡ cache.old.capacity }
    ensures those { (number : ℕ) (picture : P) → Contains cache.new.pairs (number, picture)
        → Contains cache.old.pairs (number, picture) }
    ensures others { (number : ℕ) → (number ≡ key → ⊥)
        → lookup (λ other. number == other) cache.new.pairs
        ≡ lookup (λ other. number == other) cache.old.pairs }
    ensures accounts { IsPermutation (values_of cache.old.pairs)
        (values_of cache.new.pairs ++ option_to_list result) }
{
    // no key stands twice, as `len` says
    let _ = cache.len();
    cache.take(key)
}
