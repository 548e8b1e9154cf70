//! Workers whose gates hand jobs back, or hold them while the stream changes.

use super::{
    A, P1, P1X, Sign, after, are_both_given, edits, finished, first, is_pending, is_ready,
    opened_for_one, replace, row_holds,
};
use decode_pool::{Desk, Gate, Seat, Settled, Worked, worker};
use stand_in_device::{Device, Undone};
use stand_in_session::{Finished, Job, Session};
use std::alloc::{AllocError, AllocGlobal, Global};
use std::process::Abort;
use std::sync::Wait;
use std::test::Fail;
use std::thread;
use std::thread::Threads;
use std::time::Clock;

/// A gate that hands each job back.
#[derive(Drop)]
pub(super) struct HandsBack;

impl Gate for HandsBack {
    fn decode(&mut self, _alloc: Global, job: Job) -> Result<Finished, Undone> {
        Err(Undone {
            job,
            cause: AllocError,
        })
    }
}

/// What a worker did is this: so many results taken, so many stale, so many jobs returned, and none
/// foreign.
fn did(worked: Worked, taken: u64, stale: u64, returned: u64) -> bool {
    let counts = (worked.taken, worked.stale, worked.returned, worked.foreign);
    counts == (taken, stale, returned, 0) && worked.jobs() == taken + stale + returned
}

/// No picture is due.
fn none_is_due(session: &mut Session) -> bool {
    match session.take() {
        Ok(Some(job)) => {
            session.give_back(job);
            false
        }
        Ok(None) => true,
        Err(_) => false,
    }
}

/// The desk is finished with its one seat, its journal is so long, and no picture is due.
fn is_finished(rt: &(impl Abort + AllocGlobal), desk: Desk, seat: Seat, length: usize) -> bool {
    let mut session = finished(rt, desk, seat);
    session.journal().len() == length && none_is_due(&mut session)
}

#[test]
fn another_worker_does_what_one_hands_back(rt: HostRuntime) -> Result<(), Fail> {
    let alloc = rt.alloc();
    let (desk, mut seat) = opened_for_one(&rt, 2);
    assert!(rt; edits(&rt, &desk, &mut seat, first(A), 1, 1));
    // It ends by itself.
    assert!(rt; did(worker(&rt, alloc, &desk, HandsBack), 0, 0, 1));
    assert!(rt; is_pending(&rt, &desk, &mut seat, 1));
    let worked = settle_beside(&rt, &desk, &mut seat, Settled::Done);
    assert!(rt; worked.is_some_and(|worked| did(worked, 1, 0, 0)));
    assert!(rt; is_ready(&rt, &desk, &mut seat, 1));
    assert!(rt; is_finished(&rt, desk, seat, 1));
    Ok(())
}

/// A worker decodes as a device does until no unit is pending; what it did, where the wait ended
/// so.
pub(super) fn settle_beside<R: AllocGlobal + Threads + Wait + Sync>(
    rt: &R,
    desk: &Desk,
    seat: &mut Seat,
    wanted: Settled,
) -> Option<Worked> {
    let alloc = rt.alloc();
    thread::scope(thread::scope_env(), rt, |scope| {
        let spawned = scope.spawn(|| worker(rt, alloc, desk, Device::new(alloc)));
        let settled = seat.settle(rt, desk);
        desk.close(rt);
        match spawned {
            Ok(handle) if settled == wanted => Some(handle.join(rt)),
            _ => None,
        }
    })
}

/// Two workers hand their jobs back while the seat waits; what they did, and how the wait ended.
fn hand_back_both<R: AllocGlobal + Threads + Wait + Sync>(
    rt: &R,
    desk: &Desk,
    seat: &Seat,
) -> Option<(Worked, Worked, Settled)> {
    let alloc = rt.alloc();
    thread::scope(thread::scope_env(), rt, |scope| {
        let one = scope.spawn(|| worker(rt, alloc, desk, HandsBack));
        let two = scope.spawn(|| worker(rt, alloc, desk, HandsBack));
        let settled = seat.settle(rt, desk);
        match (one, two) {
            (Ok(one), Ok(two)) => Some((one.join(rt), two.join(rt), settled)),
            _ => None,
        }
    })
}

#[test]
fn a_wait_ends_where_all_workers_hand_back(rt: HostRuntime) -> Result<(), Fail> {
    let (desk, mut seat) = opened_for_one(&rt, 2);
    assert!(rt; edits(&rt, &desk, &mut seat, first(A), 1, 1));
    let Some((one, two, settled)) = hand_back_both(&rt, &desk, &seat) else {
        panic!(rt; "no thread starts");
    };
    assert!(rt; settled == Settled::Idle && did(one, 0, 0, 1) && did(two, 0, 0, 1));
    assert!(rt; is_pending(&rt, &desk, &mut seat, 1));
    Ok(())
}

/// That a gate holds a job, and that it may go on.
#[derive(Drop)]
struct Signs {
    holds: Sign,
    let_go: Sign,
}

/// A gate that holds job 2 until it may go on.
#[derive(Drop)]
struct HoldsSecond<'a, R> {
    rt: &'a R,
    signs: &'a Signs,
    device: Device,
}

impl<'a, R: Clock> Gate for HoldsSecond<'a, R> {
    fn decode(&mut self, alloc: Global, job: Job) -> Result<Finished, Undone> {
        if job.number() == 2 {
            self.signs.holds.give();
            are_both_given(self.rt, &self.signs.let_go, &self.signs.let_go);
        }
        Device::decode(&mut self.device, alloc, job)
    }
}

/// A gate with these signs.
fn holding<'a, R>(rt: &'a R, alloc: Global, signs: &'a Signs) -> HoldsSecond<'a, R> {
    HoldsSecond {
        rt,
        signs,
        device: Device::new(alloc),
    }
}

/// What becomes of unit 2 while its job is held: it is replaced by these texts in turn, and the
/// desk is closed or not. And how many results were taken and stale at the end.
type Held = (&'static [&'static [u8]], bool, u64, u64);

const HELD: [Held; 4] = [
    // The result comes late: it's stale, and the new text's picture is decoded.
    (&[P1X], false, 2, 1),
    // The text is there again: the result is taken.
    (&[P1X, P1], false, 2, 0),
    (&[], false, 2, 0),
    // What is held is brought after the desk was closed.
    (&[], true, 2, 0),
];

/// Replaces unit 2 by the texts in turn, while the gate holds its job.
fn replace_meanwhile<R: Wait + Clock>(
    rt: &R,
    desk: &Desk,
    seat: &mut Seat,
    signs: &Signs,
    texts: &[&'static [u8]],
) -> bool {
    if !are_both_given(rt, &signs.holds, &signs.holds) {
        return false;
    }
    for text in texts {
        if seat.edit(rt, desk, replace(2, *text)).is_err() {
            return false;
        }
    }
    true
}

/// A worker holds the job of unit 2 while that becomes of it; what the worker did.
fn work_held<R: AllocGlobal + Threads + Wait + Clock + Sync>(
    rt: &R,
    desk: &Desk,
    seat: &mut Seat,
    held: &Held,
) -> Option<Worked> {
    let alloc = rt.alloc();
    let signs = Signs {
        holds: Sign::new(),
        let_go: Sign::new(),
    };
    let (texts, closes) = (held.0, held.1);
    thread::scope(thread::scope_env(), rt, |scope| {
        let spawned = scope.spawn(|| worker(rt, alloc, desk, holding(rt, alloc, &signs)));
        let mut is_right = replace_meanwhile(rt, desk, seat, &signs, texts);
        if closes {
            desk.close(rt);
        }
        signs.let_go.give();
        if !closes {
            is_right = seat.settle(rt, desk) == Settled::Done && is_right;
        }
        desk.close(rt);
        match spawned {
            Ok(handle) if is_right => Some(handle.join(rt)),
            _ => None,
        }
    })
}

/// The row holds on a desk of its own.
fn held_as(rt: &(impl Abort + AllocGlobal + Threads + Wait + Clock + Sync), held: &Held) -> bool {
    let (desk, mut seat) = opened_for_one(rt, 1);
    if !edits(rt, &desk, &mut seat, first(A), 1, 1)
        || !edits(rt, &desk, &mut seat, after(1, P1), 2, 2)
    {
        return false;
    }
    let Some(worked) = work_held(rt, &desk, &mut seat, held) else {
        return false;
    };
    did(worked, held.2, held.3, 0)
        && is_ready(rt, &desk, &mut seat, 2)
        && is_finished(rt, desk, seat, 2 + held.0.len())
}

#[test]
fn late_results_are_taken_or_stale(rt: HostRuntime) -> Result<(), Fail> {
    for (row, held) in HELD.iter().enumerate() {
        row_holds(&rt, row, held_as(&rt, held));
    }
    Ok(())
}
