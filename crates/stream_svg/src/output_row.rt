//! The second row of a drawing: its pictures in output order.

ghost use Rattle.std.specs.Prelude.{◌≡◌, IfOk, IsPermutation};
ghost use Rattle.std.specs.List.Sorted.{IsSortedBy};
ghost use Rattle.stream_svg.specs.OutputRow.{is_before, shown_units};

use crate::unit::{DrawnUnit, UnitKind};
use std::alloc::{AllocError, Global};

/// A picture of the second row. They are compared by their fields in turn.
#[derive(Clone, Copy, Debug, PartialEq, Eq, PartialOrd, Ord)]
pub struct OutputUnit {
    /// How many pictures of the stream are output before it.
    pub position: usize,
    /// Its place among the units that are drawn.
    pub place: usize,
    /// How many of the drawn units up to it begin a period.
    pub period: usize,
}

/// The pictures in output order.
pub(crate) fn output_row(alloc: Global, units: &[DrawnUnit]) -> Result<Vec<OutputUnit>, AllocError>
    ensures all { IfOk result (λ row. IsPermutation (shown_units units.now) row.items) }
    ensures order { IfOk result (λ row. IsSortedBy is_before row.items) }
{
    let mut row = shown_units(alloc, units)?;
    row.sort_unstable();
    Ok(row)
}

/// The pictures in stream order.
fn shown_units(alloc: Global, units: &[DrawnUnit]) -> Result<Vec<OutputUnit>, AllocError>
    ensures { IfOk result (λ row. row.items ≡ shown_units units.now) }
{
    let mut row = Vec::new(alloc);
    let mut period = 0;
    for (place, unit) in units.iter().enumerate() {
        let UnitKind::Picture(picture) = unit.kind else {
            continue;
        };
        period += usize::from(picture.begins_period);
        row.push(OutputUnit {
            position: picture.position,
            place,
            period,
        })?;
    }
    Ok(row)
}
