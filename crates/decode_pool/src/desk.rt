//! A desk: a session under a lock.

ghost use Rattle.std.specs.Prelude.{◌≡◌, ◌<◌, ◌≤◌, ◌↔◌, [], length, IfOk, IsErr};
ghost use Rattle.decode_pool.specs.Batches.{LandsAll};
ghost use Rattle.decode_pool.specs.Jobs.{JobsDiffer};
ghost use Rattle.decode_pool.specs.Waits.{WaitsForOne, WaitsForUnit};

use crate::state::{DeskState, Settled};
use decode_jobs::Decoded;
use h264_types::pictures::AuId;
use std::alloc::{AllocError, Global};
use std::sync::{Condvar, Mutex, MutexGuard, Wait};
use stream_session::{Config, Session};
use worker_jobs::{TooManyWanted, WorkerQueue};

/// A session that threads share, over the pictures of any decoder: some edit it and ask, workers
/// decode. One lock is round all of it, which is held for a call of the session and no longer. At
/// the stand-in it has seats.
#[derive(Drop)]
pub struct DeskOf<P: Decoded> {
    pub(crate) state: Mutex<DeskState<P>>,
    /// Told where a job may be due, of which one worker is woken. A worker that takes one tells it
    /// on.
    pub(crate) job_due: Condvar,
    /// Told where no unit may be pending any more, or not one that is waited for or wanted, or a
    /// worker has ended.
    pub(crate) settled: Condvar,
    /// Told where the session may have another picture to show.
    pub(crate) changed: Condvar,
    pub(crate) cache: u16,
    pub(crate) workers: usize,
    pub(crate) seats: usize,
}

impl<P: Decoded> DeskOf<P> {
    /// A desk with an empty stream for so many workers, and without seats.
    pub fn new(alloc: Global, config: Config, workers: usize) -> Result<DeskOf<P>, AllocError>
        requires cache { (1 ≤ config.cache) × (config.cache ≤ 4096) }
        requires workers { (1 ≤ workers) × (workers ≤ 64) }
        ensures capacity { IfOk result (λ desk. desk.cache ≡ config.cache) }
        ensures workers { IfOk result (λ desk. desk.workers ≡ workers) }
        ensures seats { IfOk result (λ desk. desk.seats ≡ 0) }
    {
        Ok(DeskOf {
            state: Mutex::new(DeskState::open(alloc, config)?),
            job_due: Condvar::new(),
            settled: Condvar::new(),
            changed: Condvar::new(),
            cache: config.cache,
            workers,
            seats: 0,
        })
    }

    /// The session, once no thread has it any more. Its pictures are still in it.
    pub fn into_session(self) -> Session<P>
        ensures { JobsDiffer result }
    {
        self.state.into_inner().into_session()
    }

    /// Closes the desk: each worker brings the jobs that it has, if it has some, and ends, and
    /// nobody waits for news. Seats may go on.
    pub fn close<R: Wait>(&self, rt: &R) {
        let wakes = self.state.lock(rt).close();
        if wakes.workers {
            self.job_due.notify_all();
        }
        if wakes.watchers {
            self.changed.notify_all();
        }
    }

    /// Waits until no unit is pending; or all that is wanted is done, where the rest isn't wanted;
    /// or until no worker is left though one is pending. Units are looked at from the first one
    /// that was pending before, and from the first of all once none is left.
    pub fn settle<R: Wait>(&self, rt: &R) -> Settled
        ensures { WaitsForOne P.IsOf result }
    {
        let mut from = 0;
        let mut state = self.state.lock(rt);
        for _ in rt.forever() {
            match state.settled(from, self.workers) {
                Ok(settled) => return settled,
                Err(at) => {
                    from = at;
                    state.status.seats.fall_asleep();
                    state = self.settled.wait(rt, state);
                    state.status.seats.awake();
                }
            }
        }
        unreachable!()
    }

    /// Waits until the unit of the id isn't pending, or until no worker is left though it is.
    /// Meanwhile the unit is wanted before all others, but for those that other threads have waited
    /// for longer. Where there is no room for one more that waits, it waits for room too.
    pub fn settle_for<R: Wait>(&self, rt: &R, id: AuId) -> Settled
        ensures { WaitsForUnit P.IsOf id result }
    {
        let mut is_wanted = false;
        let mut state = self.state.lock(rt);
        for _ in rt.forever() {
            if let Some(settled) = state.settled_for(id, self.workers) {
                if is_wanted {
                    self.want_no_more(state, id);
                }
                return settled;
            }
            if !is_wanted {
                is_wanted = state.status.wanted.wait_for(id);
                if state.status.workers.wake_one() {
                    self.job_due.notify_one();
                }
            }
            state.status.seats.fall_asleep();
            state = self.settled.wait(rt, state);
            state.status.seats.awake();
        }
        unreachable!()
    }

    /// A thread waits no more for the unit of the id. It wakes those for which there was no room.
    fn want_no_more(&self, state: MutexGuard<'_, DeskState<P>>, id: AuId) {
        let mut state = state;
        let wakes = state.status.wait_no_more(id);
        drop(state);
        if wakes {
            self.settled.notify_all();
        }
    }

    /// Makes these the ids that are wanted first, in order of urgency. Where they are too many,
    /// nothing changes.
    pub fn want<R: Wait>(&self, rt: &R, ids: &[AuId]) -> Result<(), TooManyWanted>
        ensures { IsErr result ↔ (64 < length ids.now) }
    {
        let mut state = self.state.lock(rt);
        state.want(ids)?;
        self.wake(state);
        Ok(())
    }

    /// Makes the rest of the stream wanted or not.
    pub fn rest<R: Wait>(&self, rt: &R, rest: bool) {
        let mut state = self.state.lock(rt);
        state.set_rest(rest);
        self.wake(state);
    }

    /// Wakes whom a change of the stream or of what is wanted, or the end of a worker may concern:
    /// a worker that sleeps, as a job may be due; each seat that waits, as what it waits for may be
    /// there; and who waits for news. It lets the lock go first.
    pub(crate) fn wake(&self, state: MutexGuard<'_, DeskState<P>>) {
        let mut state = state;
        let wakes = state.status.wake();
        drop(state);
        if wakes.workers {
            self.job_due.notify_one();
        }
        if wakes.seats {
            self.settled.notify_all();
        }
        if wakes.watchers {
            self.changed.notify_all();
        }
    }

    /// A worker comes back, and brings all results that it has in hand. It wakes the seats that
    /// wait for single units, of which one may be there, and who waits for news.
    pub(crate) fn come_back(&self, state: &mut DeskState<P>, queue: &mut WorkerQueue<P>)
        ensures landed { LandsAll P.IsDecoded state.old.session queue.old.results.items
            queue.old.counts queue.old.late.items state.new.session queue.new.counts
            queue.new.late.items }
        ensures results { queue.new.results.items ≡ [] }
        ensures jobs { queue.new.jobs.items ≡ queue.old.jobs.items }
    {
        let brings = queue.results() > 0;
        state.come_back(queue);
        if brings && state.status.wanted.is_any_waited_for() && state.status.seats.wake_all() {
            self.settled.notify_all();
        }
        if brings && state.status.wake_for_news() {
            self.changed.notify_all();
        }
    }

    /// A worker ends: it brings the results that it has in hand, gives back the jobs, and is
    /// counted.
    pub(crate) fn end_worker<R: Wait>(&self, rt: &R, queue: &mut WorkerQueue<P>)
        ensures jobs { queue.new.jobs.items ≡ [] }
        ensures results { queue.new.results.items ≡ [] }
    {
        let mut state = self.state.lock(rt);
        state.end_worker(queue);
        self.wake(state);
    }
}
