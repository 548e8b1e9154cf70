//! What is decoded first, on a stream of eight periods of twenty pictures, each of which refers to
//! the one before it.

use super::gates::HandsBack;
use super::{A, after, finished, first, is_pending, is_ready, opened, opened_for_one, row_holds};
use decode_pool::{Desk, Gate, Seat, Settled, TooManyWanted, worker};
use h264_types::pictures::AuId;
use stand_in_device::{Device, Undone};
use stand_in_session::{Edit, Finished, Job};
use std::alloc::{AllocError, AllocGlobal, Global};
use std::process::Abort;
use std::sync::{Mutex, Wait};
use std::test::Fail;
use std::thread;
use std::thread::Threads;

/// The IDR pictures of the periods, each with slice data of its own.
const HEADS: [&[u8]; 8] = [
    A,
    &[0, 0, 1, 0x65, 0x88, 0x84, 0x81],
    &[0, 0, 1, 0x65, 0x88, 0x84, 0x82],
    &[0, 0, 1, 0x65, 0x88, 0x84, 0x83],
    &[0, 0, 1, 0x65, 0x88, 0x84, 0x84],
    &[0, 0, 1, 0x65, 0x88, 0x84, 0x85],
    &[0, 0, 1, 0x65, 0x88, 0x84, 0x86],
    &[0, 0, 1, 0x65, 0x88, 0x84, 0x87],
];

/// P pictures with frame_num 0 to 15: the last bit of the fifth byte and the first three of the
/// sixth.
const P: [&[u8]; 16] = [
    &[0, 0, 1, 0x41, 0x9A, 0x03],
    &[0, 0, 1, 0x41, 0x9A, 0x23],
    &[0, 0, 1, 0x41, 0x9A, 0x43],
    &[0, 0, 1, 0x41, 0x9A, 0x63],
    &[0, 0, 1, 0x41, 0x9A, 0x83],
    &[0, 0, 1, 0x41, 0x9A, 0xA3],
    &[0, 0, 1, 0x41, 0x9A, 0xC3],
    &[0, 0, 1, 0x41, 0x9A, 0xE3],
    &[0, 0, 1, 0x41, 0x9B, 0x03],
    &[0, 0, 1, 0x41, 0x9B, 0x23],
    &[0, 0, 1, 0x41, 0x9B, 0x43],
    &[0, 0, 1, 0x41, 0x9B, 0x63],
    &[0, 0, 1, 0x41, 0x9B, 0x83],
    &[0, 0, 1, 0x41, 0x9B, 0xA3],
    &[0, 0, 1, 0x41, 0x9B, 0xC3],
    &[0, 0, 1, 0x41, 0x9B, 0xE3],
];

/// How many pictures a period has.
const EACH: u32 = 20;

/// How many the stream has.
const ALL: u32 = 160;

/// The insertions of the stream, whose units have the ids from 1 to 160.
fn insertions(alloc: Global) -> Result<Vec<Edit>, AllocError> {
    let mut edits = Vec::new(alloc);
    for id in 0..ALL {
        let text = match id % EACH {
            0 => HEADS[(id / EACH) as usize % 8],
            at => P[at as usize % 16],
        };
        edits.push(if id == 0 {
            first(text)
        } else {
            after(id, text)
        })?;
    }
    Ok(edits)
}

/// The units of the jobs that gates were given, in their order.
#[derive(Drop)]
struct Log {
    units: Mutex<Vec<u64>>,
}

/// A gate that notes the unit of each job and decodes it.
#[derive(Drop)]
struct Notes<'a, R> {
    rt: &'a R,
    log: &'a Log,
    device: Device,
}

impl<'a, R: Wait> Gate for Notes<'a, R> {
    fn decode(&mut self, alloc: Global, job: Job) -> Result<Finished, Undone> {
        let timestamp = match job.input().requests().first() {
            Some(request) => request.timestamp,
            None => 0,
        };
        if self.log.units.lock(self.rt).push(timestamp / 1000).is_err() {
            return Err(Undone {
                job,
                cause: AllocError,
            });
        }
        Device::decode(&mut self.device, alloc, job)
    }
}

/// A gate with this log.
fn noting<'a, R>(rt: &'a R, alloc: Global, log: &'a Log) -> Notes<'a, R> {
    Notes {
        rt,
        log,
        device: Device::new(alloc),
    }
}

/// What a seat does.
#[derive(Clone, Copy)]
enum Step {
    /// It inserts the stream, as one group.
    Inserts,
    Wants(&'static [u32]),
    /// It wants 65 ids.
    WantsTooMany,
    Rest(bool),
    /// It waits, and is answered so.
    Settles(Settled),
    SettlesFor(u32, Settled),
}

/// The seat wants the units of these ids first.
fn wants<R: Wait>(
    rt: &R,
    alloc: Global,
    desk: &Desk,
    seat: &Seat,
    numbers: &[u32],
) -> Result<Result<(), TooManyWanted>, AllocError> {
    let mut ids = Vec::with_capacity(alloc, numbers.len())?;
    for number in numbers {
        ids.push(AuId::new(*number))?;
    }
    Ok(seat.want(rt, desk, &ids))
}

/// The seat does that, and is answered as it should be.
fn does<R: Wait>(rt: &R, alloc: Global, desk: &Desk, seat: &mut Seat, step: Step) -> bool {
    match step {
        Step::Inserts => match insertions(alloc) {
            Ok(group) => seat.edit_group(rt, desk, group).is_ok(),
            Err(_) => false,
        },
        Step::Wants(ids) => wants(rt, alloc, desk, seat, ids) == Ok(Ok(())),
        Step::WantsTooMany => wants(rt, alloc, desk, seat, &[1; 65]) == Ok(Err(TooManyWanted)),
        Step::Rest(rest) => {
            seat.rest(rt, desk, rest);
            true
        }
        Step::Settles(settled) => seat.settle(rt, desk) == settled,
        Step::SettlesFor(id, settled) => seat.settle_for(rt, desk, AuId::new(id)) == settled,
    }
}

/// What a seat does beside one worker; the units whose jobs that is given first, by ranges; and how
/// many jobs in all.
type Row = (&'static [Step], &'static [(u64, u64)], usize);

const ROWS: [Row; 9] = [
    // The rest is done too, behind what is wanted.
    (
        &[
            Step::Wants(&[100]),
            Step::Inserts,
            Step::Settles(Settled::Done),
        ],
        &[(81, 101)],
        160,
    ),
    (
        &[
            Step::Wants(&[160]),
            Step::Rest(false),
            Step::Inserts,
            Step::Settles(Settled::Rested),
        ],
        &[(141, 161)],
        20,
    ),
    // A cursor that jumps.
    (
        &[
            Step::Rest(false),
            Step::Inserts,
            Step::Wants(&[10]),
            Step::Settles(Settled::Rested),
            Step::Wants(&[160]),
            Step::Settles(Settled::Rested),
            Step::Wants(&[12, 11]),
            Step::Settles(Settled::Rested),
        ],
        &[(1, 11), (141, 161), (11, 13)],
        32,
    ),
    // One after the other, and an id that is there twice and one that isn't.
    (
        &[
            Step::Wants(&[999, 105, 3, 105]),
            Step::Rest(false),
            Step::Inserts,
            Step::Settles(Settled::Rested),
        ],
        &[(101, 106), (1, 4)],
        8,
    ),
    // Too many change nothing.
    (
        &[
            Step::Wants(&[22]),
            Step::WantsTooMany,
            Step::Rest(false),
            Step::Inserts,
            Step::Settles(Settled::Rested),
        ],
        &[(21, 23)],
        2,
    ),
    // Nothing is wanted, and then all.
    (
        &[
            Step::Rest(false),
            Step::Inserts,
            Step::Settles(Settled::Rested),
            Step::Rest(true),
            Step::Settles(Settled::Done),
        ],
        &[],
        160,
    ),
    // What is waited for is wanted meanwhile, and no longer.
    (
        &[
            Step::Rest(false),
            Step::Inserts,
            Step::SettlesFor(62, Settled::Done),
            Step::Settles(Settled::Rested),
            Step::SettlesFor(62, Settled::Done),
            Step::SettlesFor(23, Settled::Done),
        ],
        &[(61, 63), (21, 24)],
        5,
    ),
    // What isn't there isn't pending.
    (
        &[
            Step::SettlesFor(1, Settled::Done),
            Step::Settles(Settled::Done),
        ],
        &[],
        0,
    ),
    // A list that is wanted no more.
    (
        &[
            Step::Wants(&[160]),
            Step::Rest(false),
            Step::Wants(&[]),
            Step::Inserts,
            Step::Settles(Settled::Rested),
        ],
        &[],
        0,
    ),
];

/// A seat does that beside one worker; whether it is answered as it should be.
fn run_beside<R: AllocGlobal + Threads + Wait + Sync>(
    rt: &R,
    desk: &Desk,
    seat: &mut Seat,
    log: &Log,
    steps: &[Step],
) -> bool {
    let alloc = rt.alloc();
    thread::scope(thread::scope_env(), rt, |scope| {
        let spawned = scope.spawn(|| worker(rt, alloc, desk, noting(rt, alloc, log)));
        let mut is_right = spawned.is_ok();
        for step in steps {
            is_right = is_right && does(rt, alloc, desk, seat, *step);
        }
        desk.close(rt);
        is_right
    })
}

/// The units are first those of the ranges, in their order.
fn begin_with(units: &[u64], ranges: &[(u64, u64)]) -> bool {
    let mut units = units.iter();
    for (from, to) in ranges {
        for unit in *from..*to {
            if units.next() != Some(&unit) {
                return false;
            }
        }
    }
    true
}

/// The row holds on a desk of its own.
fn holds(rt: &(impl Abort + AllocGlobal + Threads + Wait + Sync), row: &Row) -> bool {
    let (desk, mut seat) = opened_for_one(rt, 1);
    let log = Log {
        units: Mutex::new(Vec::new(rt.alloc())),
    };
    let is_right = run_beside(rt, &desk, &mut seat, &log, row.0);
    let units = log.units.into_inner();
    is_right && begin_with(&units, row.1) && units.len() == row.2
}

#[test]
fn what_is_wanted_is_decoded_first(rt: HostRuntime) -> Result<(), Fail> {
    for (number, row) in ROWS.iter().enumerate() {
        row_holds(&rt, number, holds(&rt, row));
    }
    Ok(())
}

/// Two seats wait for a unit each, in threads of their own; how that ended.
fn wait_for_both<R: AllocGlobal + Threads + Wait + Sync>(
    rt: &R,
    desk: &Desk,
    one: &Seat,
    other: &Seat,
    log: &Log,
) -> Option<(Settled, Settled)> {
    let alloc = rt.alloc();
    thread::scope(thread::scope_env(), rt, |scope| {
        let first = scope.spawn(|| one.settle_for(rt, desk, AuId::new(60)));
        let second = scope.spawn(|| other.settle_for(rt, desk, AuId::new(120)));
        let starts = scope
            .spawn(|| worker(rt, alloc, desk, noting(rt, alloc, log)))
            .is_ok();
        let answers = match (first, second) {
            (Ok(first), Ok(second)) if starts => Some((first.join(rt), second.join(rt))),
            _ => None,
        };
        desk.close(rt);
        answers
    })
}

#[test]
fn two_seats_wait_for_a_unit_each(rt: HostRuntime) -> Result<(), Fail> {
    let alloc = rt.alloc();
    let (desk, mut seats) = opened(&rt, 1, 2);
    let (Some(other), Some(mut one)) = (seats.pop(), seats.pop()) else {
        panic!(rt; "there aren't two seats");
    };
    assert!(rt; does(&rt, alloc, &desk, &mut one, Step::Rest(false)));
    assert!(rt; does(&rt, alloc, &desk, &mut one, Step::Inserts));
    let log = Log {
        units: Mutex::new(Vec::new(alloc)),
    };
    let ended = wait_for_both(&rt, &desk, &one, &other, &log);
    assert!(rt; ended == Some((Settled::Done, Settled::Done)));
    assert!(rt; is_ready(&rt, &desk, &mut one, 60) && is_ready(&rt, &desk, &mut one, 120));
    assert!(rt; is_pending(&rt, &desk, &mut one, 20) && is_pending(&rt, &desk, &mut one, 61));
    assert!(rt; log.units.into_inner().len() == 40);
    Ok(())
}

/// A wait for a unit ends where no worker is left, and the unit is wanted no more then.
#[test]
fn a_wait_for_a_unit_ends_where_no_worker_is_left(rt: HostRuntime) -> Result<(), Fail> {
    let alloc = rt.alloc();
    let (desk, mut seat) = opened_for_one(&rt, 1);
    assert!(rt; does(&rt, alloc, &desk, &mut seat, Step::Rest(false)));
    assert!(rt; does(&rt, alloc, &desk, &mut seat, Step::Inserts));
    let is_right = thread::scope(thread::scope_env(), &rt, |scope| {
        let starts = scope.spawn(|| worker(&rt, alloc, &desk, HandsBack)).is_ok();
        starts && seat.settle_for(&rt, &desk, AuId::new(9)) == Settled::Idle
    });
    assert!(rt; is_right && is_pending(&rt, &desk, &mut seat, 1));
    assert!(rt; does(&rt, alloc, &desk, &mut seat, Step::Settles(Settled::Rested)));
    let _session = finished(&rt, desk, seat);
    Ok(())
}
