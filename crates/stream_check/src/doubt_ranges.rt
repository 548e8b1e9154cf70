//! Ranges of units in doubt.

ghost use Rattle.std.specs.Prelude.{◌≤◌, length};
ghost use Rattle.access_unit.specs.StreamUnits.{most_units};

use h264_types::pictures::AuId;
use std::alloc::{AllocError, Global};
use unit_outcomes::doubts::Doubt;

/// Units in doubt that follow one break, from the first of them up to the last.
#[derive(Clone, Copy)]
pub struct DoubtRange {
    pub first: AuId,
    pub last: AuId,
    pub follows: AuId,
    /// How many units from the first up to the last are in doubt.
    pub in_doubt: usize,
}

/// The doubt_ranges in doubt of a stream whose ids are 1, 2, 3 and so on, of which this is told.
pub(crate) fn doubt_ranges(alloc: Global, told: &[Doubt]) -> Result<Vec<DoubtRange>, AllocError>
    requires { length told.now ≤ most_units }
{
    let mut doubt_ranges = Vec::new(alloc);
    for (place, doubt) in told.iter().enumerate() {
        let unit = AuId::new(place as u32 + 1);
        if let Some(follows) = doubted(doubt) {
            add(&mut doubt_ranges, unit, follows)?;
        }
    }
    Ok(doubt_ranges)
}

/// Adds a unit in doubt that follows this break.
fn add(doubt_ranges: &mut Vec<DoubtRange>, unit: AuId, follows: AuId) -> Result<(), AllocError> {
    match longer(doubt_ranges.as_slice(), unit, follows) {
        Some(longer) => {
            doubt_ranges.pop();
            doubt_ranges.push(longer)?;
        }
        None => doubt_ranges.push(alone(unit, follows))?,
    }
    Ok(())
}

/// The break that a unit in doubt follows.
fn doubted(doubt: &Doubt) -> Option<AuId> {
    if doubt.in_doubt { doubt.follows } else { None }
}

/// The doubt_range of a unit alone.
fn alone(unit: AuId, follows: AuId) -> DoubtRange {
    DoubtRange {
        first: unit,
        last: unit,
        follows,
        in_doubt: 1,
    }
}

/// The last doubt_range with one unit more, if it follows this break too.
fn longer(doubt_ranges: &[DoubtRange], unit: AuId, follows: AuId) -> Option<DoubtRange> {
    match doubt_ranges {
        [.., last] if last.follows.number() == follows.number() => Some(DoubtRange {
            first: last.first,
            last: unit,
            follows,
            in_doubt: last.in_doubt.saturating_add(1),
        }),
        _ => None,
    }
}
