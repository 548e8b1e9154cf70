//! Audits of books in which pictures are dropped, and drops at a desk.

use super::books::Note::{Drops, Edits, Shows};
use super::books::{READY, READY_P1, Row, is_audited, session_of_five};
use super::{A, edits, finished, first, is_pending, opened_for_one, row_holds};
use decode_pool::{Desk, Seat, Settled, worker};
use h264_types::pictures::AuId;
use stand_in_device::Device;
use stand_in_session::Dropping::{self, Dropped, NoSuchUnit, NotHeld};
use stand_in_session::{Session, Shown};
use std::process::Abort;
use std::sync::Wait;
use std::test::Fail;
use std::thread;
use std::thread::Threads;
use stream_session::Shown::Pending;

/// Books of the journal of books.rt: A, P1 after it, P1X in P1's place, P1 again, and a unit
/// without a picture.
const ROWS: [Row; 24] = [
    // A drop between the two lets a picture wait that was shown.
    (
        &[&[
            Edits(1, 1, 1),
            Shows(1, READY, 1),
            Drops(1, Dropped, 1),
            Shows(1, Pending, 1),
        ]],
        None,
    ),
    // One before both doesn't, nor does one of another picture.
    (
        &[&[
            Drops(1, Dropped, 1),
            Shows(1, READY, 1),
            Shows(1, Pending, 1),
        ]],
        Some((1, 3)),
    ),
    (
        &[&[
            Shows(1, READY, 2),
            Drops(2, Dropped, 2),
            Shows(1, Pending, 2),
        ]],
        Some((1, 3)),
    ),
    // A picture that is shown again after its drop stays.
    (
        &[&[
            Shows(1, READY, 1),
            Drops(1, Dropped, 1),
            Shows(1, READY, 1),
            Shows(1, Pending, 1),
        ]],
        Some((1, 4)),
    ),
    // That nothing was held is no drop.
    (&[&[Shows(1, READY, 1), Drops(1, NotHeld, 1)]], Some((1, 2))),
    (
        &[&[
            Shows(1, READY, 1),
            Drops(1, Dropped, 1),
            Drops(1, NotHeld, 2),
            Shows(1, Pending, 4),
        ]],
        None,
    ),
    // A drop of another seat does where its length is from the one to the other.
    (
        &[
            &[Shows(1, READY, 1), Shows(1, Pending, 4)],
            &[Drops(1, Dropped, 2)],
        ],
        None,
    ),
    (
        &[
            &[Drops(1, Dropped, 4)],
            &[Shows(1, READY, 1), Shows(1, Pending, 4)],
        ],
        None,
    ),
    (
        &[
            &[Shows(1, READY, 1), Shows(1, Pending, 1)],
            &[Drops(1, Dropped, 1)],
        ],
        None,
    ),
    (
        &[
            &[Shows(1, READY, 2), Shows(1, Pending, 2)],
            &[Drops(1, Dropped, 1)],
        ],
        Some((1, 2)),
    ),
    (
        &[
            &[Shows(1, READY, 1), Shows(1, Pending, 1)],
            &[Drops(1, Dropped, 2)],
        ],
        Some((1, 2)),
    ),
    // It does so too where it doesn't agree itself, but not where its length is above the
    // journal's.
    (
        &[
            &[Shows(1, READY, 1), Shows(1, Pending, 2)],
            &[Shows(1, READY, 5), Drops(1, Dropped, 2)],
        ],
        Some((2, 2)),
    ),
    (
        &[
            &[Shows(1, READY, 1), Shows(1, Pending, 5)],
            &[Drops(1, Dropped, 6)],
        ],
        Some((1, 2)),
    ),
    // Its key is that of its unit.
    (
        &[
            &[Shows(2, READY_P1, 2), Shows(2, Pending, 2)],
            &[Drops(2, Dropped, 2)],
        ],
        None,
    ),
    (
        &[
            &[Shows(2, READY_P1, 4), Shows(2, Pending, 5)],
            &[Drops(2, Dropped, 2), Drops(2, Dropped, 3)],
        ],
        Some((1, 2)),
    ),
    // Of a unit without a picture nothing is dropped, and of none neither.
    (&[&[Drops(3, NotHeld, 5)]], None),
    (&[&[Drops(3, Dropped, 5)]], Some((1, 1))),
    (&[&[Drops(3, NoSuchUnit, 5)]], Some((1, 1))),
    (&[&[Drops(3, NoSuchUnit, 4)]], None),
    (&[&[Drops(3, NotHeld, 4)]], Some((1, 1))),
    (&[&[Drops(3, Dropped, 4)]], Some((1, 1))),
    (&[&[Drops(1, NoSuchUnit, 1)]], Some((1, 1))),
    // A length that goes back, or that the journal hasn't.
    (&[&[Shows(1, READY, 2), Drops(1, Dropped, 1)]], Some((1, 2))),
    (&[&[Drops(1, NotHeld, 6)]], Some((1, 1))),
];

#[test]
fn audits_drops_as_worked_out_by_hand(rt: HostRuntime) -> Result<(), Fail> {
    let session = session_of_five(&rt);
    for (row, books) in ROWS.iter().enumerate() {
        row_holds(&rt, row, is_audited(rt.alloc(), &session, books)?);
    }
    Ok(())
}

/// The seat drops the picture of the unit of this id, and is answered so.
fn drops(rt: &impl Wait, desk: &Desk, seat: &mut Seat, id: u32, answer: Dropping) -> bool {
    match seat.drop_picture(rt, desk, AuId::new(id)) {
        Ok(given) => given == answer,
        Err(_) => false,
    }
}

/// The seat inserts a picture, waits for it, drops it, and waits for it once more.
fn shows_twice(rt: &impl Wait, desk: &Desk, seat: &mut Seat) -> bool {
    edits(rt, desk, seat, first(A), 1, 1)
        && matches!(seat.settle(rt, desk), Settled::Done)
        && shows_a(rt, desk, seat)
        && drops(rt, desk, seat, 1, Dropped)
        && matches!(seat.settle(rt, desk), Settled::Done)
        && shows_a(rt, desk, seat)
}

/// The seat is shown the picture of A.
fn shows_a(rt: &impl Wait, desk: &Desk, seat: &mut Seat) -> bool {
    match seat.show(rt, desk, AuId::new(1)) {
        Ok(shown) => shown == READY,
        Err(_) => false,
    }
}

/// The same while a worker decodes in a thread of its own; how many results it landed.
fn shows_twice_with_a_worker<R: Threads + Wait + Sync + AllocGlobal>(
    rt: &R,
    desk: &Desk,
    seat: &mut Seat,
) -> Option<u64> {
    let alloc = rt.alloc();
    thread::scope(thread::scope_env(), rt, move |scope| {
        let worker = scope.spawn(move || worker(rt, alloc, desk, Device::new(alloc)));
        let shown = shows_twice(rt, desk, seat);
        desk.close(rt);
        match worker {
            Ok(worker) => {
                let worked = worker.join(rt);
                if shown { Some(worked.taken) } else { None }
            }
            Err(_) => None,
        }
    })
}

#[test]
fn a_dropped_picture_is_made_again(rt: HostRuntime) -> Result<(), Fail> {
    let (desk, mut seat) = opened_for_one(&rt, 1);
    assert!(rt; shows_twice_with_a_worker(&rt, &desk, &mut seat) == Some(2));
    assert!(rt; seat.book().receipts.len() == 4);
    let session: Session = finished(&rt, desk, seat);
    assert!(rt; session.journal().len() == 1);
    Ok(())
}

#[test]
fn what_is_not_held_is_not_dropped(rt: HostRuntime) -> Result<(), Fail> {
    let (desk, mut seat) = opened_for_one(&rt, 1);
    assert!(rt; edits(&rt, &desk, &mut seat, first(A), 1, 1));
    assert!(rt; drops(&rt, &desk, &mut seat, 1, NotHeld));
    assert!(rt; drops(&rt, &desk, &mut seat, 9, NoSuchUnit));
    seat.clear_cache(&rt, &desk);
    assert!(rt; is_pending(&rt, &desk, &mut seat, 1));
    assert!(rt; seat.book().receipts.len() == 4);
    assert!(rt; finished(&rt, desk, seat).journal().len() == 1);
    Ok(())
}
