//! Groups of edits that seats make, and audits of their receipts.

use super::books::audit_of;
use super::{
    A, P1, P1X, P2, after, edits, empty_session, finished, first, is_ready, opened, opened_for_one,
    replace, row_holds,
};
use decode_pool::{Desk, Seat, Settled, Worked, finish, worker};
use h264_types::pictures::AuId;
use seat_books::{AuditFault, NotedGroup, SeatBook, SeatReceipt};
use session_builders::are_ids;
use stand_in_device::Device;
use stand_in_session::{Edit, EditRefused, GroupReceipt, GroupRefused, Session, Shown};
use std::alloc::{AllocError, AllocGlobal, Global};
use std::process::Abort;
use std::sync::Wait;
use std::test::Fail;
use std::thread;
use std::thread::Threads;

/// A list of two edits.
fn pair(alloc: Global, one: Edit, other: Edit) -> Result<Vec<Edit>, AllocError> {
    let mut pair = Vec::with_capacity(alloc, 2)?;
    pair.push(one)?;
    pair.push(other)?;
    Ok(pair)
}

/// The group is accepted under this number, with these ids.
fn is_made(answer: Result<GroupReceipt, GroupRefused>, number: u64, ids: &[u32]) -> bool {
    match answer {
        Ok(receipt) => receipt.number == number && are_ids(&receipt.ids, ids),
        Err(_) => false,
    }
}

/// How many edits each entry of the journal has.
fn are_lengths(session: &Session, wanted: &[usize]) -> bool {
    let journal = session.journal();
    journal.len() == wanted.len()
        && journal
            .iter()
            .zip(wanted)
            .all(|(entry, wanted)| entry.edits().len() == *wanted)
}

/// The seat inserts a unit and then two together, and waits for all three pictures.
fn edits_and_waits(rt: &impl Wait, alloc: Global, desk: &Desk, seat: &mut Seat) -> bool {
    let Ok(group) = pair(alloc, after(1, P1), after(2, P2)) else {
        return false;
    };
    edits(rt, desk, seat, first(A), 1, 1)
        && is_made(seat.edit_group(rt, desk, group), 2, &[2, 3])
        && seat.settle(rt, desk) == Settled::Done
}

/// A worker decodes while the seat edits and waits.
fn edit_beside<R: AllocGlobal + Threads + Wait + Sync>(
    rt: &R,
    desk: &Desk,
    seat: &mut Seat,
) -> Option<Worked> {
    let alloc = rt.alloc();
    thread::scope(thread::scope_env(), rt, |scope| {
        let spawned = scope.spawn(|| worker(rt, alloc, desk, Device::new(alloc)));
        let is_right = edits_and_waits(rt, alloc, desk, seat);
        desk.close(rt);
        match spawned {
            Ok(handle) if is_right => Some(handle.join(rt)),
            _ => None,
        }
    })
}

#[test]
fn a_group_is_one_entry_of_the_journal(rt: HostRuntime) -> Result<(), Fail> {
    let (desk, mut seat) = opened_for_one(&rt, 1);
    let worked = edit_beside(&rt, &desk, &mut seat);
    assert!(rt; worked.is_some_and(|worked| worked.taken == 3));
    assert!(rt; is_ready(&rt, &desk, &mut seat, 3) && seat.book().receipts.len() == 3);
    assert!(rt; are_lengths(&finished(&rt, desk, seat), &[1, 2]));
    Ok(())
}

/// The group is refused so.
fn is_refused(answer: Result<GroupReceipt, GroupRefused>, wanted: GroupRefused) -> bool {
    match answer {
        Ok(_) => false,
        Err(refused) => refused == wanted,
    }
}

#[test]
fn a_refused_group_is_noted_nowhere(rt: HostRuntime) -> Result<(), Fail> {
    let (desk, mut seat) = opened_for_one(&rt, 1);
    assert!(rt; edits(&rt, &desk, &mut seat, first(A), 1, 1));
    let group = pair(rt.alloc(), after(1, P1), Edit::Delete(AuId::new(9)))?;
    let refused = GroupRefused::Edit {
        index: 1,
        refused: EditRefused::NoSuchUnit,
    };
    assert!(rt; is_refused(seat.edit_group(&rt, &desk, group), refused));
    let none = seat.edit_group(&rt, &desk, Vec::new(rt.alloc()));
    assert!(rt; is_refused(none, GroupRefused::Empty));
    assert!(rt; seat.last(&rt, &desk).units == 1 && seat.book().receipts.len() == 1);
    assert!(rt; edits(&rt, &desk, &mut seat, after(1, P1), 2, 2));
    assert!(rt; are_lengths(&finished(&rt, desk, seat), &[1, 1]));
    Ok(())
}

/// More insertions than a group has.
fn too_many(alloc: Global) -> Result<Vec<Edit>, AllocError> {
    let mut edits = Vec::with_capacity(alloc, 1_025)?;
    for _ in 0..1_025 {
        edits.push(first(A))?;
    }
    Ok(edits)
}

#[test]
fn a_session_that_is_lent_is_edited_and_noted(rt: HostRuntime) -> Result<(), Fail> {
    let mut session = empty_session(&rt);
    let (_, mut seat) = opened_for_one(&rt, 1);
    assert!(rt; seat.edit_in(&mut session, first(A)).is_ok());
    let group = pair(rt.alloc(), after(1, P1), after(2, P2))?;
    assert!(rt; is_made(seat.edit_group_in(&mut session, group), 2, &[2, 3]));
    let refused = seat.edit_group_in(&mut session, too_many(rt.alloc())?);
    assert!(rt; is_refused(refused, GroupRefused::TooLarge));
    assert!(rt; seat.show_in(&session, AuId::new(3)) == Ok(Shown::Pending));
    assert!(rt; seat.book().receipts.len() == 3 && are_lengths(&session, &[1, 2]));
    Ok(())
}

/// How many groups each seat makes.
const EACH: u32 = 10;

/// The seat inserts its pairs of units; it is handed on where each was accepted.
fn insert_pairs(rt: &impl Wait, alloc: Global, desk: &Desk, mut seat: Seat) -> Option<Seat> {
    for _ in 0..EACH {
        let Ok(group) = pair(alloc, first(A), first(A)) else {
            return None;
        };
        if seat.edit_group(rt, desk, group).is_err() {
            return None;
        }
    }
    Some(seat)
}

/// The two seats insert their pairs, each in a thread.
fn insert_in_threads<R: AllocGlobal + Threads + Wait + Sync>(
    rt: &R,
    desk: &Desk,
    one: Seat,
    other: Seat,
) -> Option<(Seat, Seat)> {
    let alloc = rt.alloc();
    thread::scope(thread::scope_env(), rt, move |scope| {
        let one = scope.spawn(move || insert_pairs(rt, alloc, desk, one));
        let other = scope.spawn(move || insert_pairs(rt, alloc, desk, other));
        match (one, other) {
            (Ok(one), Ok(other)) => match (one.join(rt), other.join(rt)) {
                (Some(one), Some(other)) => Some((one, other)),
                _ => None,
            },
            _ => None,
        }
    })
}

/// The session of a desk that is finished with its two seats.
fn ended(rt: &(impl Abort + AllocGlobal), desk: Desk, one: Seat, other: Seat) -> Session {
    let mut seats = Vec::new(rt.alloc());
    if seats.push(one).is_err() || seats.push(other).is_err() {
        panic!(rt; "no memory");
    }
    match finish(rt.alloc(), desk, seats) {
        Ok(session) => session,
        Err(_) => panic!(rt; "the desk isn't finished"),
    }
}

#[test]
fn two_seats_make_groups_in_threads(rt: HostRuntime) -> Result<(), Fail> {
    let (desk, mut seats) = opened(&rt, 1, 2);
    let (Some(one), Some(other)) = (seats.pop(), seats.pop()) else {
        panic!(rt; "there aren't two seats");
    };
    let Some((one, other)) = insert_in_threads(&rt, &desk, one, other) else {
        panic!(rt; "a group isn't made");
    };
    let session = ended(&rt, desk, one, other);
    assert!(rt; session.journal().len() == 20 && session.last().units == 40);
    Ok(())
}

/// The edit of this number.
fn edit_of(number: u32) -> Edit {
    match number {
        1 => first(A),
        2 => after(1, P1),
        3 => replace(2, P1X),
        _ => replace(2, P1),
    }
}

/// The edits of these numbers.
fn edits_of(alloc: Global, numbers: &[u32]) -> Result<Vec<Edit>, AllocError> {
    let mut edits = Vec::with_capacity(alloc, numbers.len())?;
    for number in numbers {
        edits.push(edit_of(*number))?;
    }
    Ok(edits)
}

/// The ids of these numbers.
fn ids_of(alloc: Global, numbers: &[u32]) -> Result<Vec<AuId>, AllocError> {
    let mut ids = Vec::with_capacity(alloc, numbers.len())?;
    for number in numbers {
        ids.push(AuId::new(*number))?;
    }
    Ok(ids)
}

/// A session with edit 1, edits 2 and 3 as a group, and edit 4 as a group.
fn session_of_three(rt: &(impl Abort + AllocGlobal)) -> Result<Session, AllocError> {
    let mut session = empty_session(rt);
    let is_first = session.edit(edit_of(1)).is_ok();
    let is_second = session.edit_group(edits_of(rt.alloc(), &[2, 3])?).is_ok();
    let is_third = session.edit_group(edits_of(rt.alloc(), &[4])?).is_ok();
    if !(is_first && is_second && is_third) {
        panic!(rt; "an edit is refused");
    }
    Ok(session)
}

/// A receipt of a group: its edits, its ids and the length. And whether it agrees, after no other.
type Row = (&'static [u32], &'static [u32], u64, bool);

const ROWS: [Row; 12] = [
    (&[2, 3], &[2, 2], 2, true),
    (&[1], &[1], 1, true),
    (&[4], &[2], 3, true),
    // Other ids, or another number of them.
    (&[2, 3], &[2, 3], 2, false),
    (&[2, 3], &[2], 2, false),
    (&[2, 3], &[2, 2, 2], 2, false),
    // Other edits, fewer, more, or in another order.
    (&[2, 4], &[2, 2], 2, false),
    (&[2], &[2], 2, false),
    (&[2, 3, 4], &[2, 2, 2], 2, false),
    (&[3, 2], &[2, 2], 2, false),
    (&[], &[], 2, false),
    // The entry of another length.
    (&[2, 3], &[2, 2], 3, false),
];

/// The audit of a book with the receipt of a row alone answers as the row says.
fn is_audited(alloc: Global, session: &Session, row: &Row) -> Result<bool, AllocError> {
    let mut receipts = Vec::new(alloc);
    receipts.push(SeatReceipt::Group {
        group: NotedGroup::new(edits_of(alloc, row.0)?, ids_of(alloc, row.1)?),
        length: row.2,
    })?;
    let books = [SeatBook { receipts }];
    let wanted = if row.3 {
        Ok(())
    } else {
        Err(AuditFault::SeatDisagrees { seat: 1, number: 1 })
    };
    Ok(audit_of(alloc, session, &books) == Some(wanted))
}

#[test]
fn audits_receipts_of_groups(rt: HostRuntime) -> Result<(), Fail> {
    let session = session_of_three(&rt)?;
    for (row, receipt) in ROWS.iter().enumerate() {
        row_holds(&rt, row, is_audited(rt.alloc(), &session, receipt)?);
    }
    Ok(())
}
