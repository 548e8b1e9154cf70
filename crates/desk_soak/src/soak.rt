//! Seats and workers in threads at one desk, which is finished at the end.

use crate::load::Load;
use crate::seats::Drawing;
use decode_pool::{Desk, FinishFault, Seat, Settled, finish, worker};
use stand_in_device::Device;
use stand_in_session::Config;
use std::alloc::{AllocError, Global};
use std::sync::Wait;
use std::thread;
use std::thread::{Scope, Threads};

/// What is said where the desk is finished.
pub(crate) const AGREED: &str = "agreed";

/// For how many pictures out of use there is room.
const CACHE: u16 = 16;

/// What is said of a desk under this load.
pub(crate) fn soak<R: Threads + Wait + Sync>(
    rt: &R,
    alloc: Global,
    load: Load,
) -> Result<&'static str, AllocError> {
    let (desk, seats) = Desk::open(alloc, Config { cache: CACHE }, load.workers, load.seats)?;
    let seats = run_beside(rt, alloc, &desk, seats, load)?;
    match finish(alloc, desk, seats) {
        Ok(_) => Ok(AGREED),
        Err(unfinished) => said_of(unfinished.cause),
    }
}

/// What is said of a desk that isn't finished.
fn said_of(fault: FinishFault) -> Result<&'static str, AllocError> {
    match fault {
        FinishFault::SeatMissing => Ok("an edit of the journal stands in no book"),
        FinishFault::SeatDisagrees { .. } => Ok("a receipt disagrees with the journal"),
        FinishFault::NotAudited => Ok("the session began from a snapshot"),
        FinishFault::Memory => Err(AllocError),
    }
}

/// Runs each seat in a thread beside the workers, until all pictures are there, and hands the seats
/// back. The threads have ended then.
fn run_beside<R: Threads + Wait + Sync>(
    rt: &R,
    alloc: Global,
    desk: &Desk,
    seats: Vec<Seat>,
    load: Load,
) -> Result<Vec<Seat>, AllocError> {
    thread::scope(thread::scope_env(), rt, move |scope| {
        let seats = run_among(scope, rt, alloc, desk, seats, load);
        desk.close(rt);
        seats
    })
}

/// Starts the workers and the seats, and waits for the seats and for the last picture.
fn run_among<'s, E, R: Threads + Wait + Sync>(
    scope: &Scope<'s, E>,
    rt: &'s R,
    alloc: Global,
    desk: &'s Desk,
    seats: Vec<Seat>,
    load: Load,
) -> Result<Vec<Seat>, AllocError> {
    start_workers(scope, rt, alloc, desk, load.workers)?;
    let seats = run_seats(scope, rt, alloc, desk, seats, load)?;
    match seats.first() {
        Some(seat) if seat.settle(rt, desk) == Settled::Done => Ok(seats),
        _ => Err(AllocError),
    }
}

/// Starts so many workers, each with a device.
fn start_workers<'s, E, R: Threads + Wait + Sync>(
    scope: &Scope<'s, E>,
    rt: &'s R,
    alloc: Global,
    desk: &'s Desk,
    workers: usize,
) -> Result<(), AllocError> {
    for _ in 0..workers {
        if scope
            .spawn(move || worker(rt, alloc, desk, Device::new(alloc)))
            .is_err()
        {
            return Err(AllocError);
        }
    }
    Ok(())
}

/// Runs each seat in a thread of its own, and waits for all of them.
fn run_seats<'s, E, R: Threads + Wait + Sync>(
    scope: &Scope<'s, E>,
    rt: &'s R,
    alloc: Global,
    desk: &'s Desk,
    seats: Vec<Seat>,
    load: Load,
) -> Result<Vec<Seat>, AllocError> {
    let mut running = Vec::with_capacity(alloc, seats.len())?;
    let mut seed = load.seed;
    for seat in seats {
        let drawing = Drawing::new(seat, seed);
        let Ok(handle) = scope.spawn(move || drawing.run(rt, desk, load.commands)) else {
            return Err(AllocError);
        };
        running.push(handle)?;
        seed = seed.wrapping_add(1);
    }
    let mut back = Vec::with_capacity(alloc, running.len())?;
    for handle in running {
        back.push(handle.join(rt))?;
    }
    Ok(back)
}
