//! Which units a session tells in doubt, after edits.

use super::{A, P1, P2, empty_session, row_holds};
use EditRow::{After, Delete, First};
use session_builders::{EditRow, edits_of};
use stand_in_session::Doubt;
use std::test::Fail;

/// A group of edits, and of each unit after it the number of the one that it follows, 0 where it
/// follows none, and whether it is in doubt.
type Row = (&'static [EditRow], &'static [(u32, bool)]);

const NONE: (u32, bool) = (0, false);

/// Groups on one session, one after the other.
const ROWS: [Row; 4] = [
    (&[First(A), After(1, P1), After(2, P2)], &[NONE, NONE, NONE]),
    // What listed the deleted unit has a fault, and follows none.
    (&[Delete(2)], &[NONE, NONE]),
    // frame_num fits again.
    (&[After(3, P1)], &[NONE, NONE, (3, true)]),
    // An IDR picture ends it.
    (
        &[After(4, A), After(5, P1)],
        &[NONE, NONE, (3, true), NONE, NONE],
    ),
];

/// Just this is told.
fn are_told(told: &[Doubt], expected: &[(u32, bool)]) -> bool {
    told.len() == expected.len()
        && told.iter().zip(expected).all(|(doubt, expected)| {
            doubt.follows.map_or(0, |id| id.number()) == expected.0 && doubt.in_doubt == expected.1
        })
}

#[test]
fn tells_doubt_after_edits(rt: HostRuntime) -> Result<(), Fail> {
    let mut session = empty_session(&rt);
    for (row, (told, expected)) in ROWS.iter().enumerate() {
        let answer = session.edit_group(edits_of(rt.alloc(), told)?);
        let units = session.last().units;
        let doubts = session.doubts(0, units)?;
        row_holds(&rt, row, answer.is_ok() && are_told(&doubts, expected));
    }
    Ok(())
}
