//! A desk at the stand-in, with seats.

ghost use Rattle.std.specs.Prelude.{◌≡◌, ◌≤◌, IfOk};
ghost use Rattle.std.specs.Fn.{FnOnceReturnsAt};
ghost use Rattle.decode_pool.specs.Seats.{AreNew};
ghost use Rattle.decode_pool.specs.Visits.{AsksOne, DropsOne};

use crate::desk::DeskOf;
use crate::seat::Seat;
use h264_types::pictures::AuId;
use stand_in_device::Picture;
use stand_in_session::{Config, Dropping, Session};
use std::alloc::{AllocError, Global};
use std::sync::Wait;
use stream_session::Dropped;

/// A session that threads share, with the pictures of the stand-in: seats edit it and ask, workers
/// decode.
pub type Desk = DeskOf<Picture>;

impl DeskOf<Picture> {
    /// A desk with an empty stream for so many workers, and its seats, of which there are so many.
    pub fn open(
        alloc: Global,
        config: Config,
        workers: usize,
        seats: usize,
    ) -> Result<(Desk, Vec<Seat>), AllocError>
        requires cache { (1 ≤ config.cache) × (config.cache ≤ 4096) }
        requires workers { (1 ≤ workers) × (workers ≤ 64) }
        requires seats { (1 ≤ seats) × (seats ≤ 64) }
        ensures capacity { IfOk result (λ opened. opened.0.cache ≡ config.cache) }
        ensures workers { IfOk result (λ opened. opened.0.workers ≡ workers) }
        ensures seats { IfOk result (λ opened. opened.0.seats ≡ seats) }
        ensures books { IfOk result (λ opened. AreNew seats opened.1.items) }
    {
        let mut desk = DeskOf::new(alloc, config, workers)?;
        desk.seats = seats;
        Ok((desk, new_seats(alloc, seats)?))
    }

    /// Lends the session to one who asks it, while no one edits it.
    pub fn look<R: Wait, T, F: FnOnce(&Session) -> T>(&self, rt: &R, ask: F) -> T
        requires { F.IsAlwaysCallable ask }
        ensures { AsksOne (λ session. FnOnceReturnsAt F.FnOnce ask session result) }
    {
        let state = self.state.lock(rt);
        ask(state.visited())
    }
}

/// Drops the picture of the unit that has the id, of a desk's session. A worker may make it again.
pub fn drop_picture<R: Wait>(rt: &R, desk: &Desk, id: AuId) -> Dropping
    ensures { DropsOne id result }
{
    match desk.drop_picture(rt, id) {
        Dropped::Picture(_) => Dropping::Dropped,
        Dropped::NotHeld => Dropping::NotHeld,
        Dropped::NoSuchUnit => Dropping::NoSuchUnit,
    }
}

/// So many seats, with the numbers from 1 on.
fn new_seats(alloc: Global, seats: usize) -> Result<Vec<Seat>, AllocError>
    requires { seats ≤ 64 }
    ensures { IfOk result (λ made. AreNew seats made.items) }
{
    let mut made = Vec::with_capacity(alloc, seats)?;
    for at in 0..seats {
        made.push(Seat::new(alloc, at + 1))?;
    }
    Ok(made)
}
