//! Which units are altered since the stream was marked.

use super::{A, P1, P2, empty_session, row_holds};
use EditRow::{After, Delete, First, Replace};
use h264_types::pictures::AuId;
use session_builders::{EditRow, edits_of};
use stand_in_session::Session;
use std::test::Fail;

/// The sets and the picture of `A`, but for the last byte of its slice.
const OTHER: &[u8] = &[
    0, 0, 1, 0x67, 0x42, 0x00, 0x0A, 0xDA, 0x79, 0, 0, 1, 0x68, 0xCE, 0x38, 0x80, 0, 0, 1, 0x65,
    0x88, 0x84, 0xC0,
];

/// Groups of edits on one session, one after the other; of each the units that are altered then,
/// and whether the stream is marked after that, so that none is.
const ROWS: [(&[EditRow], &[u32], bool); 8] = [
    // Before the first mark.
    (&[First(A), After(1, P1), After(2, P2)], &[], true),
    // What listed the unit has a fault, and isn't altered by that.
    (&[Delete(2)], &[], false),
    // The same comes back.
    (&[After(1, P1)], &[], false),
    // All that is made of it is altered with it.
    (&[Replace(1, OTHER)], &[1, 3, 4], false),
    // A second edit undoes the first.
    (&[Replace(1, A)], &[], false),
    // Without the unit between them the last one has a fault.
    (&[Replace(1, OTHER), Delete(4)], &[1], true),
    // Against the new mark the picture of the first one is altered.
    (&[Replace(1, A)], &[1], false),
    (&[Delete(1), First(OTHER)], &[], false),
];

/// Exactly these units are altered, of those that may be there.
fn are_altered(session: &Session, units: &[u32]) -> bool {
    for id in 1..6u32 {
        let is_listed = units.contains(&id);
        let wanted = session.place(AuId::new(id)).map(|_| is_listed);
        if session.is_altered(AuId::new(id)) != wanted {
            return false;
        }
    }
    true
}

/// The stream is marked, and no unit is altered then.
fn marks(session: &mut Session) -> bool {
    session.mark().is_ok() && are_altered(session, &[])
}

#[test]
fn tells_altered_units(rt: HostRuntime) -> Result<(), Fail> {
    let mut session = empty_session(&rt);
    for (row, (told, units, is_marked)) in ROWS.iter().enumerate() {
        let answer = session.edit_group(edits_of(rt.alloc(), told)?);
        let holds = answer.is_ok() && are_altered(&session, units);
        row_holds(&rt, row, holds && (!*is_marked || marks(&mut session)));
    }
    Ok(())
}
