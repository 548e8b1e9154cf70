//! What a seat wants first of a desk, and its waits for pictures.

ghost use Rattle.std.specs.Prelude.{◌<◌, ◌↔◌, length, IsErr};
ghost use Rattle.decode_pool.specs.Seats.{WaitsForUnit};

use crate::seat::Seat;
use crate::stand_in::Desk;
use crate::state::Settled;
use h264_types::pictures::AuId;
use std::sync::Wait;
use worker_jobs::TooManyWanted;

impl Seat {
    /// Makes these the ids of the units whose pictures the desk's workers decode first, with what
    /// those need, in order of urgency, in place of what any seat wanted before. An id may stand
    /// there more than once, and be of no unit yet. It takes no memory. More than 64 ids are too
    /// many: then nothing changes.
    pub fn want<R: Wait>(&self, rt: &R, desk: &Desk, ids: &[AuId]) -> Result<(), TooManyWanted>
        ensures { IsErr result ↔ (64 < length ids.now) }
    {
        desk.want(rt, ids)
    }

    /// Makes the desk's workers decode the rest of the stream too or not, where nothing is due that
    /// is wanted first. At first they do.
    pub fn rest<R: Wait>(&self, rt: &R, desk: &Desk, rest: bool) {
        desk.rest(rt, rest);
    }

    /// Waits until the unit of the id isn't pending, or until no worker is left though it is: as
    /// many have ended as the desk was opened for. Meanwhile its id is the most urgent of those
    /// that are wanted, but for those that other threads have waited for longer; at most 64 at once
    /// are wanted so, and further ones wait until there is room.
    pub fn settle_for<R: Wait>(&self, rt: &R, desk: &Desk, id: AuId) -> Settled
        ensures { WaitsForUnit id result }
    {
        desk.settle_for(rt, id)
    }
}
