//! Two workers, of which one decodes for as long as it takes the other one and a seat to do what
//! they have to do.

use super::books::audit_of;
use super::{
    A, I1, P2, PICTURE_OF_A, Sign, after, are_both_given, edits, finished, first, is_ready,
    opened_for_one,
};
use decode_pool::{Desk, Gate, Seat, Settled, Worked, worker};
use h264_types::pictures::AuId;
use seat_books::{AuditFault, SeatBook, SeatReceipt};
use stand_in_device::{Device, Undone};
use stand_in_session::{Finished, Job, Session, Shown};
use std::alloc::{AllocError, Global};
use std::process::Abort;
use std::sync::Wait;
use std::test::Fail;
use std::thread;
use std::thread::Threads;
use std::time::Clock;
use unit_outcomes::ValidityFault;

/// What job 1 waits for: that an edit was answered, and that job 2 was decoded.
#[derive(Drop)]
struct Signs {
    edited: Sign,
    decoded: Sign,
    gave_up: Sign,
}

/// Decodes as a device does, job 1 when both signs were given.
#[derive(Drop)]
struct OneAfterTwo<'a, R> {
    rt: &'a R,
    signs: &'a Signs,
    device: Device,
}

impl<'a, R: Clock> Gate for OneAfterTwo<'a, R> {
    fn decode(&mut self, alloc: Global, job: Job) -> Result<Finished, Undone> {
        let is_first = job.number() == 1;
        if is_first && !are_both_given(self.rt, &self.signs.edited, &self.signs.decoded) {
            self.signs.gave_up.give();
        }
        let answer = Device::decode(&mut self.device, alloc, job);
        if !is_first {
            self.signs.decoded.give();
        }
        answer
    }
}

/// The seat inserts what is a fault there, and is shown that.
fn edits_meanwhile(rt: &impl Wait, desk: &Desk, seat: &mut Seat, signs: &Signs) -> bool {
    let is_edited = edits(rt, desk, seat, after(2, P2), 3, 3);
    let shown = seat.show(rt, desk, AuId::new(3));
    signs.edited.give();
    is_edited && shown == Ok(Shown::Fault(ValidityFault::FrameNumGap))
}

/// All pictures come, and the two that were due are shown.
fn sees_both(rt: &impl Wait, desk: &Desk, seat: &mut Seat) -> bool {
    let is_settled = seat.settle(rt, desk) == Settled::Done;
    let shows_a = match seat.show(rt, desk, AuId::new(1)) {
        Ok(Shown::Ready(picture)) => picture.digest == PICTURE_OF_A,
        _ => false,
    };
    is_settled && shows_a && is_ready(rt, desk, seat, 2)
}

/// Two workers with such gates decode while the seat edits; what they did.
fn work_beside<R: AllocGlobal + Threads + Wait + Clock + Sync>(
    rt: &R,
    desk: &Desk,
    seat: &mut Seat,
    signs: &Signs,
) -> Option<(Worked, Worked)> {
    let alloc = rt.alloc();
    thread::scope(thread::scope_env(), rt, |scope| {
        let one = scope.spawn(|| worker(rt, alloc, desk, gate(rt, alloc, signs)));
        let two = scope.spawn(|| worker(rt, alloc, desk, gate(rt, alloc, signs)));
        let is_right = edits_meanwhile(rt, desk, seat, signs) && sees_both(rt, desk, seat);
        desk.close(rt);
        match (one, two) {
            (Ok(one), Ok(two)) => {
                let worked = (one.join(rt), two.join(rt));
                is_right.then_some(worked)
            }
            _ => None,
        }
    })
}

/// A gate with these signs.
fn gate<'a, R>(rt: &'a R, alloc: Global, signs: &'a Signs) -> OneAfterTwo<'a, R> {
    OneAfterTwo {
        rt,
        signs,
        device: Device::new(alloc),
    }
}

/// A worker did one job, whose result was taken.
fn took_one(worked: Worked) -> bool {
    worked.jobs() == 1 && worked.taken == 1
}

/// A receipt once more, of an edit with the next id.
fn with_next_id(receipt: &SeatReceipt) -> Result<SeatReceipt, AllocError> {
    match receipt {
        SeatReceipt::Edit { edit, id, length } => Ok(SeatReceipt::Edit {
            edit: edit.copy()?,
            id: AuId::new(id.number().wrapping_add(1)),
            length: *length,
        }),
        show => show.copy(),
    }
}

/// A book whose receipt of this number, from 1, has another id.
fn changed(alloc: Global, book: &SeatBook, number: usize) -> Result<SeatBook, AllocError> {
    let mut receipts = Vec::new(alloc);
    for (at, receipt) in book.receipts.iter().enumerate() {
        if at + 1 == number {
            receipts.push(with_next_id(receipt)?)?;
        } else {
            receipts.push(receipt.copy()?)?;
        }
    }
    Ok(SeatBook { receipts })
}

/// The session's journal disagrees with the book first at the receipt of each edit that is changed.
fn disagrees_where_changed(
    alloc: Global,
    session: &Session,
    book: &SeatBook,
) -> Result<bool, AllocError> {
    for number in 1..4 {
        let books = [SeatBook::new(alloc), changed(alloc, book, number)?];
        let wanted = AuditFault::SeatDisagrees { seat: 2, number };
        if audit_of(alloc, session, &books) != Some(Err(wanted)) {
            return Ok(false);
        }
    }
    Ok(true)
}

#[test]
fn one_decodes_while_another_does_and_a_seat_edits(rt: HostRuntime) -> Result<(), Fail> {
    let (desk, mut seat) = opened_for_one(&rt, 2);
    let signs = Signs {
        edited: Sign::new(),
        decoded: Sign::new(),
        gave_up: Sign::new(),
    };
    assert!(rt; edits(&rt, &desk, &mut seat, first(A), 1, 1));
    assert!(rt; edits(&rt, &desk, &mut seat, after(1, I1), 2, 2));
    let worked = work_beside(&rt, &desk, &mut seat, &signs);
    assert!(rt; worked.is_some_and(|worked| took_one(worked.0) && took_one(worked.1)));
    assert!(rt; !signs.gave_up.is_given());
    let book = seat.book().copy(rt.alloc())?;
    let session = finished(&rt, desk, seat);
    assert!(rt; session.journal().len() == 3);
    assert!(rt; disagrees_where_changed(rt.alloc(), &session, &book)?);
    Ok(())
}
