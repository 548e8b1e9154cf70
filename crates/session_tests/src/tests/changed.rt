//! Which units an edit changed, as its receipt tells.

use super::{A, I, P1, P2, empty_session, row_holds};
use EditRow::{After, Delete, First, Replace};
use session_builders::{EditRow, edits_of};
use stand_in_session::Changed;
use std::test::Fail;

/// Groups of edits on one session, one after the other, and of each the first place of the units
/// that it changed, and how many there are.
const ROWS: [(&[EditRow], (u64, u64)); 13] = [
    (&[First(A), After(1, P1), After(2, P2)], (0, 3)),
    // At the end.
    (&[After(3, I)], (3, 1)),
    // The same bytes once more.
    (&[Replace(2, P1)], (0, 0)),
    // A reference in the middle goes: what listed it has a fault then.
    (&[Delete(2)], (1, 1)),
    // It comes back under a new id, and what has a key again is told too.
    (&[After(1, P1)], (1, 2)),
    // The last one goes: the units that are left stay.
    (&[Delete(4)], (0, 0)),
    // The second edit undoes the first.
    (&[Replace(5, P2), Replace(5, P1)], (0, 0)),
    (&[First(I), Delete(6)], (0, 0)),
    // Of a range also what stays between two units that changed is told.
    (&[After(3, I), First(P1)], (0, 5)),
    (&[Delete(8)], (0, 0)),
    (&[First(P2)], (0, 1)),
    // Both texts lack their sets, so that unit 9 has the fault that it had; unit 7 gets one.
    (&[Replace(9, I), Replace(7, P1)], (4, 1)),
    (
        &[Delete(9), Delete(1), Delete(5), Delete(3), Delete(7)],
        (0, 0),
    ),
];

#[test]
fn tells_what_changed(rt: HostRuntime) -> Result<(), Fail> {
    let mut session = empty_session(&rt);
    for (row, (told, (from, count))) in ROWS.iter().enumerate() {
        let answer = session.edit_group(edits_of(rt.alloc(), told)?);
        let wanted = Changed {
            from: *from,
            count: *count,
        };
        let holds = match answer {
            Ok(receipt) => receipt.changed == wanted,
            Err(_) => false,
        };
        row_holds(&rt, row, holds);
    }
    Ok(())
}
