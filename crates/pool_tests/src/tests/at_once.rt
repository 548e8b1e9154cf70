//! Several jobs out at once, and a desk that goes on after an end that failed.

ghost use Rattle.std.specs.Prelude.{◌≤◌};

use super::gates::settle_beside;
use super::{A, I1, MOST_TURNS, Sign, after, edits, first, is_ready, opened, opened_for_one};
use decode_pool::{Desk, FinishFault, Gate, Seat, Settled, Unfinished, finish, worker};
use stand_in_device::{Device, Undone};
use stand_in_session::{Edit, Finished, Job};
use std::alloc::{AllocError, AllocGlobal, Global};
use std::process::Abort;
use std::sync::Wait;
use std::sync::atomic::{AtomicU32, Ordering};
use std::test::Fail;
use std::thread;
use std::thread::Threads;
use std::time::{Clock, Duration};

/// IDR pictures with other slice data than A's.
const OTHERS: [&[u8]; 5] = [
    I1,
    &[0, 0, 1, 0x65, 0x88, 0x84, 0x82],
    &[0, 0, 1, 0x65, 0x88, 0x84, 0x83],
    &[0, 0, 1, 0x65, 0x88, 0x84, 0x84],
    &[0, 0, 1, 0x65, 0x88, 0x84, 0x85],
];

/// How many jobs are to be held at once, and how many are.
#[derive(Drop)]
struct Meeting {
    wanted: u32,
    held: AtomicU32,
    gave_up: Sign,
}

impl Meeting {
    /// Looks until so many are held, with 100 microseconds after each look. Whether they were, in a
    /// million looks.
    fn is_met(&self, rt: &impl Clock) -> bool {
        for _turn in 0..MOST_TURNS {
            if self.held.load(Ordering::SeqCst) >= self.wanted {
                return true;
            }
            thread::sleep(rt, Duration::from_micros(100));
        }
        false
    }
}

/// Holds its job until as many are held as are wanted.
#[derive(Drop)]
struct Meets<'a, R> {
    rt: &'a R,
    meeting: &'a Meeting,
    device: Device,
}

impl<'a, R: Clock> Gate for Meets<'a, R> {
    fn decode(&mut self, alloc: Global, job: Job) -> Result<Finished, Undone> {
        self.meeting.held.fetch_add(1, Ordering::SeqCst);
        if !self.meeting.is_met(self.rt) {
            self.meeting.gave_up.give();
        }
        Device::decode(&mut self.device, alloc, job)
    }
}

/// A gate that meets others there.
fn gate_at<'a, R>(rt: &'a R, alloc: Global, meeting: &'a Meeting) -> Meets<'a, R> {
    Meets {
        rt,
        meeting,
        device: Device::new(alloc),
    }
}

/// The insertions of A and of so many of the other pictures, each before those that were inserted
/// before it.
fn insertions(alloc: Global, others: usize) -> Result<Vec<Edit>, AllocError> {
    let mut edits = Vec::new(alloc);
    edits.push(first(A))?;
    for text in &OTHERS[..others.min(OTHERS.len())] {
        edits.push(after(1, *text))?;
    }
    Ok(edits)
}

/// The seat inserts them in one step, by which all are due at once, while so many workers sleep;
/// all are held at once then, and decoded.
fn are_held_at_once<R: AllocGlobal + Threads + Wait + Clock + Sync>(
    rt: &R,
    desk: &Desk,
    seat: &mut Seat,
    meeting: &Meeting,
    group: Vec<Edit>,
) -> bool {
    let alloc = rt.alloc();
    let count = group.len();
    thread::scope(thread::scope_env(), rt, |scope| {
        for _worker in 0..count {
            if scope
                .spawn(|| worker(rt, alloc, desk, gate_at(rt, alloc, meeting)))
                .is_err()
            {
                desk.close(rt);
                return false;
            }
        }
        thread::sleep(rt, Duration::from_millis(20));
        let is_edited = seat.edit_group(rt, desk, group).is_ok();
        let is_settled = seat.settle(rt, desk) == Settled::Done;
        desk.close(rt);
        is_edited && is_settled
    })
}

/// Whether so many jobs are held at once.
fn meet(
    rt: &(impl Abort + AllocGlobal + Threads + Wait + Clock + Sync),
    workers: usize,
) -> Result<bool, AllocError>
    requires { (1 ≤ workers) × (workers ≤ 64) }
{
    let (desk, mut seat) = opened_for_one(rt, workers);
    let meeting = Meeting {
        wanted: workers as u32,
        held: AtomicU32::new(0),
        gave_up: Sign::new(),
    };
    let group = insertions(rt.alloc(), workers - 1)?;
    let is_right = are_held_at_once(rt, &desk, &mut seat, &meeting, group);
    Ok(is_right && !meeting.gave_up.is_given() && is_ready(rt, &desk, &mut seat, 1))
}

/// One who takes a job wakes another for the next that is due, until each of those that sleep has
/// one.
#[test]
fn as_many_jobs_are_out_as_workers_sleep(rt: HostRuntime) -> Result<(), Fail> {
    assert!(rt; meet(&rt, 2)?);
    assert!(rt; meet(&rt, 6)?);
    Ok(())
}

/// The desk isn't finished with one of its seats; what is handed back.
fn misses_one(rt: &(impl Abort + AllocGlobal), desk: Desk, seat: Seat) -> Unfinished {
    let mut seats = Vec::new(rt.alloc());
    if seats.push(seat).is_err() {
        panic!(rt; "no memory");
    }
    match finish(rt.alloc(), desk, seats) {
        Ok(_) => panic!(rt; "a seat isn't missed"),
        Err(unfinished) => unfinished,
    }
}

/// The desk and the first of the seats that are handed back.
fn handed_back(rt: &impl Abort, unfinished: Unfinished) -> (Desk, Seat) {
    let Unfinished {
        desk,
        mut seats,
        cause,
        ..
    } = unfinished;
    assert!(rt; cause == FinishFault::SeatMissing);
    match seats.pop() {
        Some(seat) => (desk, seat),
        None => panic!(rt; "no seat is handed back"),
    }
}

#[test]
fn a_desk_goes_on_after_an_end_that_failed(rt: HostRuntime) -> Result<(), Fail> {
    let (desk, mut seats) = opened(&rt, 1, 2);
    let (Some(second), Some(mut seat)) = (seats.pop(), seats.pop()) else {
        panic!(rt; "there aren't two seats");
    };
    assert!(rt; edits(&rt, &desk, &mut seat, first(A), 1, 1));
    let (desk, mut seat) = handed_back(&rt, misses_one(&rt, desk, seat));
    assert!(rt; edits(&rt, &desk, &mut seat, after(1, I1), 2, 2));
    let worked = settle_beside(&rt, &desk, &mut seat, Settled::Done);
    assert!(rt; worked.is_some_and(|worked| worked.taken == 2 && worked.jobs() == 2));
    assert!(rt; is_ready(&rt, &desk, &mut seat, 1) && is_ready(&rt, &desk, &mut seat, 2));
    let mut seats = Vec::new(rt.alloc());
    seats.push(seat)?;
    seats.push(second)?;
    match finish(rt.alloc(), desk, seats) {
        Ok(session) => assert!(rt; session.journal().len() == 2),
        Err(_) => panic!(rt; "the desk isn't finished"),
    }
    Ok(())
}
