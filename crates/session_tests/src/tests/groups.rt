//! Groups of edits, each of which is one step.

use super::{A, I, P1, P2, empty_session, row_holds, runner_of};
use EditRow::{After, Delete, First, Replace};
use h264_types::pictures::AuId;
use session_builders::{EditRow, are_ids, edit_of, edits_of};
use stand_in_session::{
    Command, Edit, GroupReceipt, GroupRefused, Reply, Runner, Session, Shown, TakenJob,
};
use std::alloc::{AllocError, Global};
use std::test::Fail;

/// A unit that is none: its parameter set is cut.
const CUT: &[u8] = &[0, 0, 1, 0x67];

/// A receipt's number, its ids and its steps. Or a refusal: the index of an edit, if it names one,
/// and the number.
type Answer = Result<(u64, &'static [u32], u64), (Option<usize>, u8)>;

/// The index of the edit that a refusal names.
fn index_of(refused: GroupRefused) -> Option<usize> {
    match refused {
        GroupRefused::Edit { index, .. } => Some(index),
        _ => None,
    }
}

/// What a group is answered is this.
fn is_answer(answer: &Result<GroupReceipt, GroupRefused>, wanted: Answer) -> bool {
    match (answer, wanted) {
        (Ok(receipt), Ok((number, ids, steps))) => {
            receipt.number == number && are_ids(&receipt.ids, ids) && receipt.steps == steps
        }
        (Err(refused), Err((index, number))) => {
            index_of(*refused) == index && refused.number() == number
        }
        _ => false,
    }
}

/// Groups on one session after the other, and what each is answered. The stream is short, so that a
/// group at its end makes a step for each new unit, any other for each unit of the new stream, but
/// those in front of the one before it where that was in the same place, and one that changes
/// nothing none.
const GROUPS: [(&[EditRow], Answer); 14] = [
    (&[], Err((None, 20))),
    (&[First(A)], Ok((1, &[1], 1))),
    // What an edit before it inserted may be named.
    (&[After(1, P1), After(2, P2)], Ok((2, &[2, 3], 2))),
    (&[After(3, I), Delete(9)], Err((Some(1), 16))),
    (&[Delete(9), After(3, CUT)], Err((Some(0), 16))),
    (&[After(3, CUT), Delete(9)], Err((Some(0), 4))),
    (&[After(3, I), After(4, CUT)], Err((Some(1), 4))),
    (&[Delete(3), Delete(3)], Err((Some(1), 16))),
    // The ids of refused groups weren't given.
    (&[Delete(2), After(1, P1)], Ok((3, &[2, 4], 3))),
    (&[Replace(4, P1), Replace(4, P2)], Ok((4, &[4, 4], 2))),
    (&[Replace(4, P1)], Ok((5, &[4], 2))),
    // What is inserted and deleted again changes nothing.
    (&[First(I), Delete(5)], Ok((6, &[5, 5], 0))),
    (&[After(3, I), First(I), Delete(7)], Ok((7, &[6, 7, 7], 1))),
    (
        &[Delete(1), Delete(4), Delete(3), Delete(6)],
        Ok((8, &[1, 4, 3, 6], 0)),
    ),
];

#[test]
fn answers_groups(rt: HostRuntime) -> Result<(), Fail> {
    let mut session = empty_session(&rt);
    for (row, (told, wanted)) in GROUPS.iter().enumerate() {
        let answer = session.edit_group(edits_of(rt.alloc(), told)?);
        row_holds(&rt, row, is_answer(&answer, *wanted));
    }
    assert!(rt; session.last().units == 0 && session.journal().len() == 8);
    Ok(())
}

/// Deletions of so many units from the first id on.
fn deletions(alloc: Global, count: u32) -> Result<Vec<Edit>, AllocError> {
    let mut edits = Vec::new(alloc);
    for number in 0..count {
        edits.push(Edit::Delete(AuId::new(number + 1)))?;
    }
    Ok(edits)
}

/// Insertions of so many units, each in front of all others.
fn insertions(alloc: Global, count: u32) -> Result<Vec<Edit>, AllocError> {
    let mut edits = Vec::new(alloc);
    for _ in 0..count {
        edits.push(edit_of(First(I)))?;
    }
    Ok(edits)
}

#[test]
fn a_group_has_1_024_edits_at_most(rt: HostRuntime) -> Result<(), Fail> {
    let mut session = empty_session(&rt);
    let refused = session.edit_group(insertions(rt.alloc(), 1_025)?);
    assert!(rt; is_answer(&refused, Err((None, 21))) && session.last().units == 0);
    assert!(rt; session.edit_group(insertions(rt.alloc(), 1_024)?).is_ok());
    assert!(rt; session.last().units == 1_024 && session.journal().len() == 1);
    assert!(rt; session.edit_group(deletions(rt.alloc(), 1_024)?).is_ok());
    assert!(rt; session.last().units == 0 && session.journal().len() == 2);
    Ok(())
}

/// Takes and lands jobs until none is due.
fn settle(runner: &mut Runner) -> Result<(), AllocError> {
    for _ in 0..100_u8 {
        let Reply::Take(Ok(Some(TakenJob { number, .. }))) = runner.step(Command::Take)? else {
            return Ok(());
        };
        runner.step(Command::Land(number))?;
    }
    Ok(())
}

/// Whether the picture of the unit is ready.
fn is_ready(session: &Session, id: u32) -> bool {
    matches!(session.show(AuId::new(id)), Shown::Ready(_))
}

#[test]
fn pictures_change_once_with_a_group(rt: HostRuntime) -> Result<(), Fail> {
    // In the stream between the group's edits no P picture is valid; a cache of one picture has no
    // room for both.
    let mut runner = runner_of(&rt, 1);
    for told in [First(A), After(1, P1), After(2, P2)] {
        runner.step(Command::Edit(edit_of(told)))?;
    }
    settle(&mut runner)?;
    runner.step(Command::Group(edits_of(rt.alloc(), &[Delete(2), After(1, P1)])?))?;
    assert!(rt; is_ready(runner.session(), 3) && is_ready(runner.session(), 4));
    assert!(rt; runner.session().journal().len() == 4);
    Ok(())
}
