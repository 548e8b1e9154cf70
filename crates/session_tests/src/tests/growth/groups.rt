//! Groups of edits. Where memory runs out nothing is changed and no id is spent, and the call is
//! made again.

use super::seen::seen;
use super::{empty_session, row_holds};
use EditRow::{After, Delete, First, Replace};
use session_builders::{EditRow, edits_of};
use stand_in_session::{Edit, GroupReceipt, GroupRefused, Session};
use std::alloc::{AllocError, AllocGlobal, Global};
use std::process::Abort;
use std::test::Fail;

/// Sets and an IDR picture, of one macroblock, count type 2 and one reference frame.
const A: &[u8] = &[
    0, 0, 1, 0x67, 0x42, 0x00, 0x0A, 0xDA, 0x79, 0, 0, 1, 0x68, 0xCE, 0x38, 0x80, 0, 0, 1, 0x65,
    0x88, 0x84, 0x80,
];

/// The sequence parameter set alone.
const SPS: &[u8] = &[0, 0, 1, 0x67, 0x42, 0x00, 0x0A, 0xDA, 0x79];

/// The P pictures of frame_num 1 and 2.
const P1: &[u8] = &[0, 0, 1, 0x41, 0x9A, 0x23];

const P2: &[u8] = &[0, 0, 1, 0x41, 0x9A, 0x43];

/// Groups on one session, with the ids that each is answered, or the index of the edit that is
/// refused.
const GROUPS: [(&[EditRow], Result<&[u32], usize>); 4] = [
    (&[First(A), After(1, P1), After(2, P2)], Ok(&[1, 2, 3])),
    (&[Delete(2), After(1, SPS), Delete(2)], Err(2)),
    (&[Delete(2), After(1, P1), After(4, SPS)], Ok(&[2, 4, 5])),
    (&[Replace(4, P2), Replace(4, P1)], Ok(&[4, 4])),
];

/// The edits of a row, made again where memory runs out.
fn edits_again(alloc: Global, told: &[EditRow]) -> Result<Vec<Edit>, AllocError> {
    edits_of(alloc, told).or_else(|_: AllocError| edits_of(alloc, told))
}

/// Makes the group, once more where memory runs out.
fn group(
    rt: &(impl Abort + AllocGlobal),
    session: &mut Session,
    told: &[EditRow],
) -> Result<Result<GroupReceipt, GroupRefused>, AllocError> {
    let before = seen(session);
    let edits = edits_again(rt.alloc(), told)?;
    match session.edit_group(edits) {
        Err(GroupRefused::Memory) => {
            assert!(rt; seen(session) == before);
            Ok(session.edit_group(edits_again(rt.alloc(), told)?))
        }
        answer => Ok(answer),
    }
}

/// What a group is answered is this.
fn is_answer(answer: &Result<GroupReceipt, GroupRefused>, wanted: Result<&[u32], usize>) -> bool {
    match (answer, wanted) {
        (Ok(receipt), Ok(ids)) => {
            receipt.ids.len() == ids.len()
                && receipt
                    .ids
                    .iter()
                    .zip(ids)
                    .all(|(id, wanted)| id.number() == *wanted)
        }
        (Err(GroupRefused::Edit { index, .. }), Err(wanted)) => *index == wanted,
        _ => false,
    }
}

#[test]
fn refused_groups(rt: HostRuntime) -> Result<(), Fail> {
    let mut session = empty_session(&rt);
    for (row, (told, wanted)) in GROUPS.iter().enumerate() {
        let answer = group(&rt, &mut session, told)?;
        row_holds(&rt, row, is_answer(&answer, *wanted));
    }
    assert!(rt; session.journal().len() == 3 && session.last().units == 4);
    Ok(())
}
