//! The layout of a drawing.

ghost use Rattle.std.specs.Prelude.{◌≡◌, ◌≤◌, IfOk, IsPermutation, length};
ghost use Rattle.std.specs.List.Sorted.{IsSortedBy};
ghost use Rattle.stream_svg.specs.OutputRow.{is_before, shown_units};

use crate::arc::band_of;
use crate::grid::{Grid, MOST_BAND};
use crate::output_row::{OutputUnit, output_row};
use crate::unit::{DrawnUnit, RefList, UnitKind};
use std::alloc::{AllocError, Global};

/// The width that the boxes of a drawing take together, where they needn't be narrower or wider
/// than they may be.
const ROW: usize = 1200;

/// The layout of a drawing.
#[derive(Debug, Drop)]
pub struct Layout {
    pub grid: Grid,
    /// The second row: the pictures in output order.
    pub output: Vec<OutputUnit>,
}

/// Lays out these units, in stream order.
pub fn lay_out(alloc: Global, units: &[DrawnUnit]) -> Result<Layout, AllocError>
    requires { length units.now ≤ 1000 }
    ensures units { IfOk result (λ layout. layout.grid.units ≡ length units.now) }
    // The second row has all pictures, each once, in output order.
    ensures all { IfOk result (λ layout.
        IsPermutation (shown_units units.now) layout.output.items) }
    ensures order { IfOk result (λ layout. IsSortedBy is_before layout.output.items) }
{
    let output = output_row(alloc, units)?;
    Ok(Layout {
        grid: Grid {
            units: units.len(),
            pitch: pitch_of(units.len()),
            above: band_of(units, RefList::One),
            below: below_of(units),
        },
        output,
    })
}

/// From the left edge of a box to that of the next one.
fn pitch_of(units: usize) -> usize
    ensures narrow { 20 ≤ result }
    ensures wide { result ≤ 56 }
{
    if units == 0 {
        return 56;
    }
    (ROW / units).clamp(20, 56)
}

/// The height below the stream's row, in which the names of faults stand too.
fn below_of(units: &[DrawnUnit]) -> usize
    ensures { result ≤ MOST_BAND }
{
    if units
        .iter()
        .all(|unit| matches!(unit.kind, UnitKind::Picture(_)))
    {
        band_of(units, RefList::Zero)
    } else {
        MOST_BAND
    }
}
