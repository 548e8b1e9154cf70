//! The bounded cache of pictures.

ghost use Rattle.std.specs.Prelude.{◌≤◌};
ghost use Rattle.held_pictures.specs.Bounded.{most_capacity};

use held_pictures::picture_cache::{MOST_CAPACITY, PictureCache};
use std::alloc::{AllocError, Global};
use std::test::Fail;

/// A key as the crates above have it: a number of its own type.
#[derive(Clone, Copy, Debug, PartialEq, Eq, Hash)]
struct KeyId(u64);

/// A cache of three pairs with the keys 1, 2 and 3, put in this order, and the pictures 10, 20 and
/// 30.
fn three_pairs(alloc: Global, capacity: u16) -> Result<PictureCache<KeyId, u8>, AllocError>
    requires least { 1 ≤ capacity }
    requires most { capacity ≤ most_capacity }
{
    let mut cache = PictureCache::new(alloc, capacity)?;
    for (key, picture) in [(1, 10), (2, 20), (3, 30)] {
        put(&mut cache, KeyId(key), picture)?;
    }
    Ok(cache)
}

/// Puts a picture. The picture that goes out, if one does.
fn put(
    cache: &mut PictureCache<KeyId, u8>,
    key: KeyId,
    picture: u8,
) -> Result<Option<u8>, AllocError> {
    cache.put(key, picture).map_err(|_| AllocError)
}

/// Whether a cache has just these keys, the one put last first.
fn has_keys(
    alloc: Global,
    cache: &PictureCache<KeyId, u8>,
    wanted: &[u64],
) -> Result<bool, AllocError> {
    let keys: Vec<u64> = cache.keys(alloc)?.iter().map(|key| key.0).collect(alloc)?;
    Ok(keys.as_slice() == wanted)
}

#[test]
fn the_pair_put_last_is_first(rt: HostRuntime) -> Result<(), Fail> {
    let cache = three_pairs(rt.alloc(), MOST_CAPACITY)?;
    assert!(rt; has_keys(rt.alloc(), &cache, &[3, 2, 1])?);
    assert!(rt; cache.len() == 3);
    assert!(rt; cache.capacity() == 4096);
    assert!(rt; !cache.is_empty());
    Ok(())
}

#[test]
fn a_full_cache_drops_the_pair_put_first(rt: HostRuntime) -> Result<(), Fail> {
    let mut cache = three_pairs(rt.alloc(), 2)?;
    assert!(rt; has_keys(rt.alloc(), &cache, &[3, 2])?);
    assert!(rt; put(&mut cache, KeyId(4), 40)? == Some(20));
    assert!(rt; has_keys(rt.alloc(), &cache, &[4, 3])?);
    assert!(rt; cache.take(KeyId(2)) == None);
    assert!(rt; cache.take(KeyId(3)) == Some(30));
    Ok(())
}

#[test]
fn a_key_that_is_there_goes_first_with_its_new_picture(rt: HostRuntime) -> Result<(), Fail> {
    let mut cache = three_pairs(rt.alloc(), 3)?;
    assert!(rt; put(&mut cache, KeyId(1), 11)? == Some(10));
    assert!(rt; has_keys(rt.alloc(), &cache, &[1, 3, 2])?);
    assert!(rt; put(&mut cache, KeyId(4), 40)? == Some(20));
    assert!(rt; has_keys(rt.alloc(), &cache, &[4, 1, 3])?);
    assert!(rt; cache.take(KeyId(1)) == Some(11));
    Ok(())
}

#[test]
fn what_is_taken_is_out(rt: HostRuntime) -> Result<(), Fail> {
    let mut cache = three_pairs(rt.alloc(), 3)?;
    assert!(rt; cache.contains(&KeyId(2)));
    assert!(rt; cache.take(KeyId(2)) == Some(20));
    assert!(rt; cache.take(KeyId(2)) == None);
    assert!(rt; !cache.contains(&KeyId(2)));
    assert!(rt; has_keys(rt.alloc(), &cache, &[3, 1])?);
    assert!(rt; put(&mut cache, KeyId(2), 21)? == None);
    assert!(rt; has_keys(rt.alloc(), &cache, &[2, 3, 1])?);
    Ok(())
}

#[test]
fn the_pair_put_first_is_the_oldest(rt: HostRuntime) -> Result<(), Fail> {
    let mut cache = three_pairs(rt.alloc(), 3)?;
    assert!(rt; put(&mut cache, KeyId(1), 11)? == Some(10));
    assert!(rt; cache.take_oldest() == Some(20));
    assert!(rt; cache.take_oldest() == Some(30));
    assert!(rt; cache.take_oldest() == Some(11));
    assert!(rt; cache.take_oldest() == None);
    Ok(())
}

#[test]
fn one_pair_at_most(rt: HostRuntime) -> Result<(), Fail> {
    let mut cache = three_pairs(rt.alloc(), 1)?;
    assert!(rt; has_keys(rt.alloc(), &cache, &[3])?);
    assert!(rt; cache.take(KeyId(3)) == Some(30));
    assert!(rt; cache.is_empty());
    Ok(())
}

#[test]
fn refused_put_leaves_the_pairs(rt: HostRuntime) {
    let Ok(mut cache) = PictureCache::<u64, u8>::new(rt.alloc(), 2) else {
        return;
    };
    let put = [
        cache.put(1, 10).is_ok(),
        cache.put(2, 20).is_ok(),
        cache.put(3, 30).is_ok(),
    ];
    assert!(rt; cache.contains(&3) == put[2]);
    assert!(rt; cache.contains(&2) == put[1]);
    assert!(rt; cache.contains(&1) == (put[0] && !(put[1] && put[2])));
    // A key that is there wants no memory.
    if put[2] {
        assert!(rt; cache.put(3, 31).is_ok());
        assert!(rt; cache.take(3) == Some(31));
    }
    if let Ok(keys) = cache.keys(rt.alloc()) {
        assert!(rt; keys.len() == cache.len());
    }
}
