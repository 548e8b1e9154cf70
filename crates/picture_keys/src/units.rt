//! Units hashed in threads.

ghost use Rattle.std.specs.Prelude.{◌≡◌, ◌++◌, drop, length, take, IfOk};
ghost use Rattle.std.specs.List.{AllZip};
ghost use Rattle.picture_keys.specs.Digests.{IsHashed};

use crate::hashed_unit::{HashedUnit, UnitHash};
use access_unit::Unit;
use rayon::prelude::*;
use std::alloc::{AllocError, Global};
use std::thread::Threads;

/// These units, whose slices' bytes are hashed in several threads, and in this one where none can
/// be started.
pub fn hash_units(
    rt: &(impl Threads + Sync),
    alloc: Global,
    units: Vec<Unit>,
) -> Result<Vec<HashedUnit>, AllocError>
    ensures { IfOk result (λ hashed. hashed.items ≡ units.items) }
{
    let hashes = hashes_of(rt, alloc, &units)?;
    pair(alloc, units, hashes)
}

/// The digests of the slices of units, each with how many bytes were hashed.
fn hashes_of(
    rt: &(impl Threads + Sync),
    alloc: Global,
    units: &[Unit],
) -> Result<Vec<UnitHash>, AllocError>
    ensures { IfOk result (λ hashes.
        AllZip (λ unit hash. IsHashed unit hash.digest.bytes hash.hashed)
        units.now hashes.items) }
{
    units
        .par_iter()
        .with_min_len(1)
        .map(
            |unit: &Unit| -> UnitHash
                ensures { IsHashed unit.now result.digest.bytes result.hashed }
            { UnitHash::of(unit) },
        )
        .collect(rt, alloc)
}

/// The units with their digests, one by one.
fn pair(
    alloc: Global,
    units: Vec<Unit>,
    hashes: Vec<UnitHash>,
) -> Result<Vec<HashedUnit>, AllocError>
    requires { AllZip (λ unit hash. IsHashed unit hash.digest.bytes hash.hashed)
        units.items hashes.items }
    ensures { IfOk result (λ hashed. hashed.items ≡ units.items) }
{
    let mut hashed = Vec::with_capacity(alloc, units.len())?;
    for unit in units {
        let hash = hashes[hashed.len()];
        hashed.push(HashedUnit::with(unit, hash))?;
    }
    Ok(hashed)
}
