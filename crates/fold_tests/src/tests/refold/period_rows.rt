//! Positions by periods under changes of the stream, by positions worked out by hand (C.4.5.3).

use output_order::{Comparisons, Periods, Shown};
use std::alloc::{AllocError, Global};
use std::process::Abort;
use std::test::Fail;

/// Asserts what a row of a table says.
fn row_holds(rt: &impl Abort, row: usize, holds: bool) {
    assert!(rt; holds, "row {row}");
}

/// A valid unit's picture order count and whether it begins a period; `None` for a faulted unit.
type Valid = Option<(i32, bool)>;

/// These units in the place of those between two places, and where all the units stand then.
type Row = (usize, usize, &'static [Valid], &'static [Option<usize>]);

/// One stream, from row to row.
const ROWS: [Row; 12] = [
    // I P I P.
    (
        0,
        0,
        &[
            Some((0, true)),
            Some((2, false)),
            Some((0, true)),
            Some((2, false)),
        ],
        &[Some(0), Some(1), Some(2), Some(3)],
    ),
    // An IDR picture after the first unit: a period of its own.
    (
        1,
        1,
        &[Some((0, true))],
        &[Some(0), Some(1), Some(2), Some(3), Some(4)],
    ),
    // In the place of the third IDR picture a P picture with the next count; the last unit gets a
    // fault.
    (
        3,
        5,
        &[Some((4, false)), None],
        &[Some(0), Some(1), Some(2), Some(3), None],
    ),
    // A B picture between two P pictures moves those after it in its period alone.
    (
        2,
        2,
        &[Some((6, false))],
        &[Some(0), Some(1), Some(4), Some(2), Some(3), None],
    ),
    // Equal units keep their order.
    (
        3,
        3,
        &[Some((6, false))],
        &[Some(0), Some(1), Some(4), Some(5), Some(2), Some(3), None],
    ),
    // Without the second IDR picture its units are of the first period.
    (
        1,
        2,
        &[],
        &[Some(0), Some(3), Some(4), Some(1), Some(2), None],
    ),
    // Nothing begins a period.
    (
        0,
        1,
        &[None],
        &[None, Some(2), Some(3), Some(0), Some(1), None],
    ),
    // No unit is left.
    (0, 6, &[], &[]),
    // I P, with room behind.
    (
        0,
        0,
        &[Some((0, true)), Some((8, false))],
        &[Some(0), Some(1)],
    ),
    // A B picture behind the others of its period is shown between them.
    (2, 2, &[Some((4, false))], &[Some(0), Some(2), Some(1)]),
    // Two more on either side of it.
    (
        3,
        3,
        &[Some((2, false)), Some((6, false))],
        &[Some(0), Some(4), Some(2), Some(1), Some(3)],
    ),
    // A faulted unit in the place of the first two of them: the last has a smaller offset.
    (2, 4, &[None], &[Some(0), Some(2), None, Some(1)]),
];

/// What is shown of a unit.
fn shown(valid: Valid) -> Option<Shown> {
    valid.map(|(order, begins_period)| Shown {
        order,
        begins_period,
    })
}

/// Puts these units in the place of those between two places, where there are so many.
fn put(
    alloc: Global,
    periods: &mut Periods,
    low: usize,
    high: usize,
    valid: &[Valid],
) -> Result<bool, AllocError> {
    let mut units = Vec::new(alloc);
    for unit in valid {
        units.push(shown(*unit))?;
    }
    let few = periods.len() < 10_000 && units.len() < 10_000;
    if !few || low > high || high > periods.len() {
        return Ok(false);
    }
    periods.splice(alloc, low, high, &units)?;
    Ok(true)
}

/// Whether the units stand at just these positions.
fn stand_at(periods: &Periods, positions: &[Option<usize>]) -> bool {
    if periods.len() != positions.len() || periods.len() > 10_000 {
        return false;
    }
    for (place, position) in positions.iter().enumerate() {
        let mut comparisons = Comparisons::new();
        if periods.position_in(place, &mut comparisons) != *position {
            return false;
        }
    }
    true
}

/// Whether a unit stands at its place, as is found with at most so many comparisons.
fn is_found(periods: &Periods, place: usize, most: usize) -> bool {
    if place >= periods.len() || periods.len() > 10_000 {
        return false;
    }
    let mut comparisons = Comparisons::new();
    let position = periods.position_in(place, &mut comparisons);
    position == Some(place) && comparisons.count() <= most
}

#[test]
fn moves_what_a_change_moves(rt: HostRuntime) -> Result<(), Fail> {
    let mut periods = Periods::new(rt.alloc());
    for (row, (low, high, units, positions)) in ROWS.iter().enumerate() {
        let done = put(rt.alloc(), &mut periods, *low, *high, units)?;
        row_holds(&rt, row, done && stand_at(&periods, positions));
    }
    Ok(())
}

#[test]
fn compares_few_units_of_one_period(rt: HostRuntime) -> Result<(), Fail> {
    let mut units = Vec::new(rt.alloc());
    for place in 0..1000i32 {
        units.push(Some((place, place == 0 || place == 600)))?;
    }
    let mut periods = Periods::new(rt.alloc());
    let done = put(rt.alloc(), &mut periods, 0, 0, &units)?;
    row_holds(&rt, 0, done && is_found(&periods, 699, 400));
    row_holds(&rt, 1, done && is_found(&periods, 699, 9));
    row_holds(&rt, 2, done && is_found(&periods, 0, 10));
    Ok(())
}
