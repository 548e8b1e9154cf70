//! Workers.

ghost use Rattle.std.specs.Prelude.{◌≡◌, ◌≢◌, ◌<◌, ◌≤◌, MatchBool, []};
ghost use Rattle.worker_jobs.specs.JobCounts.{IsFaithful};

use crate::desk::DeskOf;
use crate::state::{DeskState, Next};
use decode_jobs::Decoded;
use std::alloc::Global;
use std::sync::{MutexGuard, Wait};
use worker_jobs::{Decoder, Worked, WorkerQueue};

/// How often a worker goes to the session at most: each time it takes a job or more, and never more
/// than 2^63 in all.
const MOST_ROUNDS: u64 = 1 << 63;

/// How many jobs a worker takes at once at most.
const MOST_AT_ONCE: usize = 8;

/// Takes jobs of a desk, decodes them by the decoder and brings what comes of them, until the desk
/// is closed. It ends too where the decoder hands a job back, which it then gives back, where a job
/// is due and none can be taken or memory runs out, and after 2^63 jobs. No one has the lock while it
/// decodes. A picture that comes too late goes back to the decoder.
///
/// It takes a job for the first wanted id for which one is due, alone. Where there is none such, it
/// takes of the rest, if that is wanted: one job at a time while another worker has none, and else
/// up to twice as many as the time before, at most eight. Where it ends with jobs that it hasn't
/// decoded, it gives them back.
pub fn work_with<P: Decoded, D: Decoder<P> + Drop, R: Wait>(
    rt: &R,
    alloc: Global,
    desk: &DeskOf<P>,
    decoder: D,
) -> Worked
    requires { IsFaithful P.IsDecoded D.Makes }
{
    let mut decoder = decoder;
    let mut queue = WorkerQueue::new(alloc);
    let mut most = 1;
    for _round in 0..MOST_ROUNDS {
        let has_jobs = exchange(rt, desk, &mut queue, &mut decoder, most);
        queue.give_back_late(&mut decoder);
        if !has_jobs || !queue.decode(alloc, &mut decoder) {
            break;
        }
        most = (2 * most).min(MOST_AT_ONCE);
    }
    desk.end_worker(rt, &mut queue);
    queue.give_back_late(&mut decoder);
    queue.worked()
}

/// Brings the results that a worker has in hand and takes its next jobs, or sleeps until some are
/// due; whether it has jobs then. While it has the lock it may so make several steps of the
/// session, one after the other. One who may have left jobs that are due wakes another worker for
/// them; one who finds none when it comes may have brought the last picture, which the seats that
/// wait for it are told. Results are told to those who wait for news.
fn exchange<P: Decoded, D: Decoder<P>, R: Wait>(
    rt: &R,
    desk: &DeskOf<P>,
    queue: &mut WorkerQueue<P>,
    decoder: &mut D,
    most: usize,
) -> bool
    requires none { queue.old.jobs.items ≡ [] }
    requires some { 0 < most }
    ensures results { queue.new.results.items ≡ [] }
    ensures jobs { MatchBool result (queue.new.jobs.items ≢ []) (queue.new.jobs.items ≡ []) }
{
    let mut state = desk.state.lock(rt);
    desk.come_back(&mut state, queue);
    let mut is_first_look = true;
    for _ in rt.forever() {
        match state.take_next(queue, most, desk.workers) {
            Next::Ends => return false,
            Next::Sleeps => {
                if is_first_look && state.status.seats.wake_all() {
                    desk.settled.notify_all();
                }
                is_first_look = false;
                state.status.workers.fall_asleep();
                state = wait_for_job(rt, desk, state, queue, decoder);
                state.status.workers.awake();
            }
            next => {
                let wakes = next == Next::Decodes && state.status.workers.wake_one();
                drop(state);
                if wakes {
                    desk.job_due.notify_one();
                }
                return true;
            }
        }
    }
    unreachable!()
}

/// Waits until a job may be due. The wait of a worker that has pictures which came too late ends by
/// itself: it gives them back to its decoder, while no one has the lock.
fn wait_for_job<'a, P: Decoded, D: Decoder<P>, R: Wait>(
    rt: &R,
    desk: &'a DeskOf<P>,
    state: MutexGuard<'a, DeskState<P>>,
    queue: &mut WorkerQueue<P>,
    decoder: &mut D,
) -> MutexGuard<'a, DeskState<P>>
    ensures late { queue.new.late.items ≡ [] }
    ensures jobs { queue.new.jobs.items ≡ queue.old.jobs.items }
    ensures results { queue.new.results.items ≡ queue.old.results.items }
{
    if queue.late() == 0 {
        return desk.job_due.wait(rt, state);
    }
    drop(state);
    queue.give_back_late(decoder);
    desk.state.lock(rt)
}
