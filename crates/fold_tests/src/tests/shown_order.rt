//! Output order, by positions worked out by hand (C.4.5.3).

use super::row_holds;
use h264_types::pictures::Counts;
use output_order::positions;
use std::alloc::{AllocError, Global};
use std::test::Fail;
use unit_outcomes::{Outcome, Plan, Requests, ValidityFault};

/// A valid unit with this picture order count, which begins a period or not; a faulted one for
/// `None`.
fn outcome(alloc: Global, valid: Option<(i32, bool)>) -> Outcome {
    match valid {
        Some((order, begins_period)) => Outcome::Plan(Plan {
            requests: Requests::new(Vec::new(alloc)),
            counts: Counts {
                top: order,
                bottom: order,
            },
            order,
            begins_period,
        }),
        None => Outcome::Fault(ValidityFault::NoIdr),
    }
}

/// Units, and where they stand.
type Row = (&'static [Option<(i32, bool)>], &'static [Option<usize>]);

const ROWS: [Row; 7] = [
    (&[], &[]),
    // I P B B, and the second B before the first.
    (
        &[
            Some((0, true)),
            Some((6, false)),
            Some((4, false)),
            Some((2, false)),
        ],
        &[Some(0), Some(3), Some(2), Some(1)],
    ),
    // Two periods: counts of the second are compared with each other alone.
    (
        &[
            Some((0, true)),
            Some((8, false)),
            Some((4, false)),
            Some((0, true)),
            Some((-2, false)),
            Some((4, false)),
        ],
        &[Some(0), Some(2), Some(1), Some(4), Some(3), Some(5)],
    ),
    // Faulted units are left out.
    (&[None, None], &[None, None]),
    (
        &[
            None,
            Some((0, true)),
            None,
            Some((4, false)),
            Some((2, false)),
            None,
        ],
        &[None, Some(0), None, Some(2), Some(1), None],
    ),
    // Equal units keep their order.
    (&[Some((0, true)), Some((0, true))], &[Some(0), Some(1)]),
    (
        &[
            Some((0, true)),
            Some((2, false)),
            Some((0, false)),
            Some((2, false)),
        ],
        &[Some(0), Some(2), Some(1), Some(3)],
    ),
];

/// The units stand at just these positions.
fn stand_at(
    alloc: Global,
    units: &[Option<(i32, bool)>],
    expected: &[Option<usize>],
) -> Result<bool, AllocError> {
    let mut outcomes = Vec::new(alloc);
    for unit in units {
        outcomes.push(outcome(alloc, *unit))?;
    }
    Ok(positions(alloc, &outcomes)?.as_slice() == expected)
}

#[test]
fn orders_short_streams(rt: HostRuntime) -> Result<(), Fail> {
    for (row, (units, expected)) in ROWS.iter().enumerate() {
        row_holds(&rt, row, stand_at(rt.alloc(), units, expected)?);
    }
    Ok(())
}

/// A permutation of the numbers below 65,536 with no long runs, since the factor is odd.
fn scattered(place: u16) -> u16 {
    place.wrapping_mul(40_503)
}

/// As many units as such numbers, with these counts.
fn scattered_units(alloc: Global) -> Result<Vec<Outcome>, AllocError> {
    let mut outcomes = Vec::new(alloc);
    for place in 0..=u16::MAX {
        let order = i32::from(scattered(place));
        outcomes.push(outcome(alloc, Some((order, false))))?;
    }
    Ok(outcomes)
}

/// The counts are 0 to 65,535, so each is the position of its unit.
fn are_scattered(positions: &[Option<usize>]) -> bool {
    let mut are = positions.len() == 65_536;
    for (place, position) in (0..=u16::MAX).zip(positions) {
        are &= *position == Some(usize::from(scattered(place)));
    }
    are
}

#[test]
fn orders_a_long_stream(rt: HostRuntime) -> Result<(), Fail> {
    let units = scattered_units(rt.alloc())?;
    assert!(rt; are_scattered(&positions(rt.alloc(), &units)?));
    Ok(())
}

#[test]
fn refused_positions(rt: HostRuntime) {
    let mut outcomes = Vec::new(rt.alloc());
    let mut is_stored = true;
    for count in [0, 4, 2] {
        is_stored &= outcomes
            .push(outcome(rt.alloc(), Some((count, count == 0))))
            .is_ok();
    }
    if is_stored && let Ok(found) = positions(rt.alloc(), &outcomes) {
        assert!(rt; found.as_slice() == [Some(0), Some(2), Some(1)].as_slice());
    }
}
