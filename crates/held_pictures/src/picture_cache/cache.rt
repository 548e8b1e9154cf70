//! A list of pairs of a key and a picture, of which there is a greatest number.

ghost use Rattle.std.specs.Prelude.{◌≡◌, ◌≤◌, ◌==◌, [], ◌∷◌, ◌++◌, length, is_some, option_copied, option_map, IfErr, IfOk, IsOk, IsPermutation, IsSome, MatchOption, ◌<◌, Some, None, false};
ghost use Rattle.std.specs.Option.{option_to_list};
ghost use Rattle.std.specs.Map.{lookup, keys_of, values_of};
ghost use Rattle.held_pictures.specs.Bounded.{IsStructural, IsBounded, most_capacity, pushed_out, with_first, without, Bounded};

use lru::LruCache;
use std::alloc::{AllocError, Global};
use std::hash::Hash;
use std::marker::Model;
use std::num::NonZeroUsize;

/// For how many pairs a cache has room at most.
pub const MOST_CAPACITY: u16 = 4_096;

/// A list of pairs of a key and a picture, the pair put last first, of at most `capacity` pairs.
///
/// It takes expected constant time to put and to take. The hasher's seed is fixed, so the keys
/// should be none that an attacker picks.
#[derive(Debug, Drop)]
pub struct PictureCache<K: Eq + Hash, P> {
    cache: LruCache<K, P>,
}

impl<K: Eq + Hash, P> Model for PictureCache<K, P> {
    ghost use Rattle.held_pictures.specs.Bounded.{Bounded, bounded_code, IsBounded, IsStructural};

    ghost Value = { Bounded K P };

    ghost coded = { bounded_code K.code P.code };

    ghost view = { λ c. record { pairs = c.cache.entries; capacity = c.cache.cap } };

    ghost invariant = { λ c. IsStructural K.eq
        × IsBounded K.eq (record { pairs = c.cache.entries; capacity = c.cache.cap }) };
}

impl<K: Eq + Hash + Drop, P: Drop> PictureCache<K, P> {
    /// An empty cache of at most `capacity` pairs, 1 to `MOST_ROOM`.
    pub fn new(alloc: Global, capacity: u16) -> Result<Self, AllocError>
        requires structural { IsStructural K.eq }
        requires least { 1 ≤ capacity }
        requires most { capacity ≤ most_capacity }
        ensures { IfOk result (λ cache. cache ≡ record { pairs = []; capacity = capacity }) }
    {
        let most = NonZeroUsize::new(usize::from(capacity)).unwrap();
        let cache = LruCache::new(alloc, most)?;
        Ok(PictureCache { cache })
    }

    /// Puts a pair first. One that had its key goes, and where there are too many, the last one:
    /// the picture of the one that goes. For lack of memory the new picture is given back; where
    /// the key is there, none is wanted.
    pub fn put(&mut self, key: K, picture: P) -> Result<Option<P>, P>
        ensures ok { IfOk result (λ out. (self.new ≡ with_first K.eq self.old key picture)
            × (out ≡ pushed_out K.eq self.old key)) }
        ensures err { IfErr result (λ back. (back ≡ picture) × (self.new ≡ self.old)) }
        ensures accounts { IfOk result (λ out. IsPermutation (picture ∷ values_of self.old.pairs)
            (values_of self.new.pairs ++ option_to_list out)) }
        ensures there { IsSome (lookup (K.eq key) self.old.pairs) → IsOk result }
        ensures bounded { IsBounded K.eq self.new }
    {
        match self.cache.push(key, picture) {
            Ok(out) => Ok(second(out)),
            Err(failed) => {
                let (_, back) = failed.value;
                Err(back)
            }
        }
    }

    /// Takes the picture out that was put under the key, if it is there. Takes no memory.
    pub fn take(&mut self, key: K) -> Option<P>
        ensures value { result ≡ lookup (K.eq key) self.old.pairs }
        ensures after { self.new ≡ without K.eq self.old key }
        ensures accounts { IsPermutation (values_of self.old.pairs)
            (values_of self.new.pairs ++ option_to_list result) }
        ensures bounded { IsBounded K.eq self.new }
    {
        self.cache.pop(&key)
    }

    /// Takes the picture out that was put first of those that are there, the last one. Takes no
    /// memory.
    pub fn take_oldest(&mut self) -> Option<P>
        ensures oldest { MatchOption result ((self.old.pairs ≡ []) × (self.new ≡ self.old))
            (λ picture. (key : K) × (self.old.pairs ≡ self.new.pairs ++ (key, picture) ∷ [])
            × (self.new.capacity ≡ self.old.capacity)) }
        ensures bounded { IsBounded K.eq self.new }
    {
        second(self.cache.pop_lru())
    }

    /// Takes all pairs out. Takes no memory.
    pub fn clear(&mut self)
        ensures { self.new ≡ record { pairs = []; capacity = self.old.capacity } }
    {
        self.cache.clear();
    }

    /// The picture that was put under the key, if it is there. The order of the pairs stays.
    pub fn picture(&self, key: &K) -> Option<&P>
        ensures { option_copied result ≡ lookup (K.eq key.now) self.now.pairs }
    {
        self.cache.peek(key)
    }

    /// The keys of the pairs, in their order.
    pub fn keys(&self, alloc: Global) -> Result<Vec<K>, AllocError>
    where
        K: Copy,
        ensures { IfOk result (λ keys. keys.items ≡ keys_of self.now.pairs) }
    {
        self.cache.iter().map(|pair| *pair.0).collect(alloc)
    }

    /// Whether the key has a picture.
    pub fn contains(&self, key: &K) -> bool
        ensures { result ≡ is_some (lookup (K.eq key.now) self.now.pairs) }
    {
        self.cache.contains(key)
    }

    /// How many pairs there are.
    pub fn len(&self) -> usize
        ensures len { result ≡ length self.now.pairs }
        ensures bounded { IsBounded K.eq self.now }
    {
        self.cache.len()
    }

    /// Whether there is no pair.
    pub fn is_empty(&self) -> bool
        ensures { result ≡ (length self.now.pairs == 0) }
    {
        self.cache.is_empty()
    }

    /// How many pairs there may be.
    pub fn capacity(&self) -> usize
        ensures { result ≡ self.now.capacity }
    {
        self.cache.cap().get()
    }
}

/// The picture of a pair, if there is one.
fn second<K: Drop, P>(pair: Option<(K, P)>) -> Option<P>
    ensures { result ≡ option_map (λ pair. pair.1) pair }
{
    match pair {
        Some((_, picture)) => Some(picture),
        None => None,
    }
}

/// A put picture is found under its key.
pub fn put_is_found<K: Eq + Hash, P>()
    ensures { (cache : Bounded K P) (key : K) (picture : P) → IsBounded K.eq cache
        → lookup (K.eq key) (with_first K.eq cache key picture).pairs ≡ Some picture }
{}

/// A put pushes no other pair out where there is room for one more.
pub fn put_keeps_the_others<K: Eq + Hash, P>()
    ensures { (cache : Bounded K P) (key other : K) (picture : P) → IsBounded K.eq cache
        → length cache.pairs < cache.capacity → K.eq key other ≡ false
        → lookup (K.eq other) (with_first K.eq cache key picture).pairs
        ≡ lookup (K.eq other) cache.pairs }
{}

/// A picture that was taken is out, and the others stay.
pub fn take_keeps_the_others<K: Eq + Hash, P>()
    ensures out { (cache : Bounded K P) (key : K) → IsBounded K.eq cache
        → lookup (K.eq key) (without K.eq cache key).pairs ≡ None }
    ensures others { (cache : Bounded K P) (key other : K) → IsBounded K.eq cache
        → K.eq key other ≡ false
        → lookup (K.eq other) (without K.eq cache key).pairs ≡ lookup (K.eq other) cache.pairs }
{}
