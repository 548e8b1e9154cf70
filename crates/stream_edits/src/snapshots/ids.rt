//! The ids of a snapshot's units.

ghost use Rattle.std.specs.Prelude.{◌≡◌, ◌↔◌, IsTrue, IfOk};
ghost use Rattle.std.specs.List.Sorted.{IsNonDecreasing};
ghost use Rattle.stream_edits.specs.SnapshotsIds.{AreIds, ids_of};

use bytes::Bytes;
use h264_types::pictures::AuId;
use std::alloc::{AllocError, Global};

/// Whether a stream of which so many ids were given may have units under these ids.
pub(crate) fn are_ids(
    alloc: Global,
    units: &[(AuId, Bytes)],
    ids_given: u32,
) -> Result<bool, AllocError>
    ensures { IfOk result (λ are. IsTrue are ↔ AreIds (ids_of units.now) ids_given) }
{
    let mut numbers = numbers_of(alloc, units)?;
    numbers.sort_unstable();
    Ok(rise(&numbers, ids_given))
}

/// The numbers of the units' ids.
fn numbers_of(alloc: Global, units: &[(AuId, Bytes)]) -> Result<Vec<u32>, AllocError>
    ensures { IfOk result (λ numbers. numbers.items ≡ ids_of units.now) }
{
    let mut numbers = Vec::with_capacity(alloc, units.len())?;
    for unit in units {
        numbers.push(unit.0.number())?;
    }
    Ok(numbers)
}

/// Whether sorted numbers rise, from 1 at least to the count of ids at most.
fn rise(numbers: &[u32], ids_given: u32) -> bool
    requires { IsNonDecreasing numbers.now }
    ensures { IsTrue result ↔ AreIds numbers.now ids_given }
{
    let mut last = 0;
    for number in numbers {
        if *number <= last {
            return false;
        }
        last = *number;
    }
    last <= ids_given
}
