//! Units cut into access units (7.4.1.2.3).
ghost use Rattle.std.specs.Prelude.{◌≡◌, ◌&&◌, ℕ, ◌<◌, ◌≤◌, List, length, All, IfOk};
ghost use Rattle.annexb.specs.AccessUnits.{IsCut, AreConsecutive, parts_at, begins_access_unit};

use crate::headers::begins_access_unit;
use crate::nal_unit::Nal;
use std::alloc::{AllocError, Global};
use std::ops::Range;

/// The access units of the units, each as the range of its places.
pub fn cut_units(alloc: Global, nals: &[Nal<'_>]) -> Result<Vec<Range<usize>>, AllocError>
    ensures cut { IfOk result (λ ranges. IsCut nals.now (parts_at nals.now ranges.items)) }
    // No other parts are a cut of the units.
    ensures only { (parts : List (List (List ℕ))) → IsCut nals.now parts
        → IfOk result (λ ranges. parts_at nals.now ranges.items ≡ parts) }
    ensures consecutive { IfOk result (λ ranges. AreConsecutive 0 ranges.items (length nals.now)) }
    ensures in_range { IfOk result
        (λ ranges. All (λ r. (r.start < r.end) × (r.end ≤ length nals.now)) ranges.items) }
{
    let mut ranges = Vec::new(alloc);
    let mut start = 0;
    let mut has_slice = false;
    for (at, nal) in nals.iter().enumerate() {
        if has_boundary(has_slice, nal) {
            ranges.push(start..at)?;
            start = at;
            has_slice = false;
        }
        has_slice |= nal.is_slice();
    }
    if start == nals.len() {
        return Ok(ranges);
    }
    ranges.push(start..nals.len())?;
    Ok(ranges)
}

/// Whether a boundary stands before the unit, where the access unit so far has a slice or hasn't.
fn has_boundary(has_slice: bool, nal: &Nal<'_>) -> bool
    ensures { result ≡ (has_slice && begins_access_unit nal.now) }
{
    has_slice && begins_access_unit(nal.bytes())
}
