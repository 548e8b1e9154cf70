//! What a worker has in hand, and what it counts.

ghost use Rattle.std.specs.Prelude.{◌≡◌, ◌≢◌, ◌+◌, ◌<◌, ◌≤◌, ◌++◌, ◌^◌, [], length, true, OnOk};
ghost use Rattle.std.specs.Vec.{vec_capacity};
ghost use Rattle.std.specs.VecDeque.{deque_capacity, deque_len};

use crate::decoder::{Decoder, Made};
use crate::wanted::Wanted;
use decode_jobs::{Decoded, Finished, Job, Undone};
use picture_store::{Landing, Returning, TakeRefused};
use std::alloc::{AllocError, Global};
use std::collections::VecDeque;
use stream_session::Session;

/// What became of the jobs that a worker took. Each of them is counted here once: there was none
/// that was neither brought nor given back.
#[derive(Clone, Copy, Debug, PartialEq, Eq)]
pub struct Worked {
    /// Results that landed, and whose pictures are held from then on.
    pub taken: u64,
    /// Results that came too late: their pictures were no longer wanted.
    pub stale: u64,
    /// Results, and jobs given back, of no job that was out.
    pub foreign: u64,
    /// Jobs that were given back.
    pub returned: u64,
    jobs: u64,
    ghost all_brought: { jobs ≡ taken + stale + foreign + returned },
}

impl Worked {
    /// How many jobs the worker took.
    pub fn jobs(&self) -> u64
        ensures { result ≡ self.now.taken + self.now.stale + self.now.foreign + self.now.returned }
    {
        self.jobs
    }
}

/// What became of the jobs that a worker brought so far.
#[derive(Clone, Copy, Debug)]
pub struct JobCounts {
    taken: u64,
    stale: u64,
    foreign: u64,
    returned: u64,
}

/// The jobs that a worker has in hand and the results that it has of others, both in the order in
/// which it took them, and what became of those that it brought. Nothing gets out of it but into a
/// session, and the pictures of results that came too late, which go back to the decoder; it isn't
/// let go: it ends by `worked`, once nothing is in hand. So no job and no picture is lost on the
/// way.
pub struct WorkerQueue<P: Decoded> {
    jobs: VecDeque<Job<P>>,
    results: VecDeque<Finished<P>>,
    late: Vec<P>,
    counts: JobCounts,
    count: u64,
    ghost counted: { count ≡ counts.taken + counts.stale + counts.foreign + counts.returned
        + length jobs.items + length results.items },
    ghost capacity: { length results.items + length late.items ≤ vec_capacity late },
}

impl<P: Decoded> WorkerQueue<P> {
    ghost use Rattle.worker_jobs.specs.Wanted.{urgent};
    ghost use Rattle.worker_jobs.specs.JobCounts.{GivesBackIn, IsFaithful, IsSame, Keeps, LandsIn, TakesFirstIn, TakesIn, none_brought};

    /// Before the first job.
    pub fn new(alloc: Global) -> WorkerQueue<P>
        ensures count { result.count ≡ 0 }
        ensures counts { result.counts ≡ none_brought }
        ensures jobs { result.jobs.items ≡ [] }
        ensures results { result.results.items ≡ [] }
        ensures late { result.late.items ≡ [] }
    {
        WorkerQueue {
            jobs: VecDeque::new(alloc),
            results: VecDeque::new(alloc),
            late: Vec::new(alloc),
            counts: JobCounts {
                taken: 0,
                stale: 0,
                foreign: 0,
                returned: 0,
            },
            count: 0,
        }
    }

    /// How many jobs were taken.
    pub fn count(&self) -> u64
        ensures { result ≡ self.now.count }
    {
        self.count
    }

    /// How many jobs are in hand that aren't decoded.
    pub fn jobs(&self) -> usize
        ensures { result ≡ length self.now.jobs.items }
    {
        self.jobs.len()
    }

    /// How many results are in hand.
    pub fn results(&self) -> usize
        ensures { result ≡ length self.now.results.items }
    {
        self.results.len()
    }

    /// How many pictures came too late and weren't given back yet.
    pub fn late(&self) -> usize
        ensures { result ≡ length self.now.late.items }
    {
        self.late.len()
    }

    /// Takes a job of a session; whether there was one.
    pub fn take_in(&mut self, session: &mut Session<P>) -> Result<bool, TakeRefused>
        requires { self.old.count < 2 ^ 63 }
        ensures { TakesIn session.old self.old result session.new self.new }
    {
        self.reserve()?;
        let answer = session.take();
        self.keep(answer)
    }

    /// Takes a job of a session for the first wanted id for which a needed unit is due; whether
    /// there was one.
    pub fn take_first_in(
        &mut self,
        wanted: &Wanted,
        session: &mut Session<P>,
    ) -> Result<bool, TakeRefused>
        requires { self.old.count < 2 ^ 63 }
        ensures { TakesFirstIn session.old (urgent wanted.now) self.old result session.new
            self.new }
    {
        self.reserve()?;
        let answer = wanted.take_first(session);
        self.keep(answer)
    }

    /// Makes room in hand for one job more.
    fn reserve(&mut self) -> Result<(), AllocError>
        ensures capacity { OnOk result (deque_len self.new.jobs < deque_capacity self.new.jobs) }
        ensures same { IsSame self.old self.new }
        ensures count { self.new.count ≡ self.old.count }
    {
        self.jobs.reserve(1)
    }

    /// Has the job in hand that a session answered, for which there is room; whether it answered
    /// one.
    fn keep(&mut self, answer: Result<Option<Job<P>>, TakeRefused>) -> Result<bool, TakeRefused>
        requires capacity { deque_len self.old.jobs < deque_capacity self.old.jobs }
        requires few { self.old.count < 2 ^ 63 }
        ensures { Keeps self.old answer result self.new }
    {
        match answer {
            Ok(Some(job)) => {
                self.jobs.push_back_reserved(job);
                self.count += 1;
                Ok(true)
            }
            Ok(None) => Ok(false),
            Err(refused) => Err(refused),
        }
    }

    /// Decodes the jobs in hand, in their order; whether the decoder gave a result for each. One
    /// that it hands back stays in hand, and so do those behind it.
    pub fn decode<D: Decoder<P>>(&mut self, alloc: Global, decoder: &mut D) -> bool
        requires { IsFaithful P.IsDecoded D.Makes }
        ensures all { result ≡ true → self.new.jobs.items ≡ [] }
        ensures order { self.new.results.items ++ self.new.jobs.items
            ≡ self.old.results.items ++ self.old.jobs.items }
        ensures late { self.new.late.items ≡ self.old.late.items }
        ensures count { self.new.count ≡ self.old.count }
    {
        for _at in 0..self.jobs.len() {
            if !self.decode_next(alloc, decoder) {
                return false;
            }
        }
        true
    }

    /// Decodes the first job in hand; whether the decoder gave a result.
    fn decode_next<D: Decoder<P>>(&mut self, alloc: Global, decoder: &mut D) -> bool
        requires { IsFaithful P.IsDecoded D.Makes }
        ensures one { result ≡ true → length self.new.jobs.items + 1 ≡ length self.old.jobs.items }
        ensures order { self.new.results.items ++ self.new.jobs.items
            ≡ self.old.results.items ++ self.old.jobs.items }
        ensures late { self.new.late.items ≡ self.old.late.items }
        ensures count { self.new.count ≡ self.old.count }
    {
        if self.reserve_result().is_err() {
            return false;
        }
        let Some(job) = self.jobs.pop_front() else {
            return false;
        };
        match decoder.decode(alloc, job) {
            Ok(Made { job, picture }) => {
                self.results.push_back_reserved(Finished::new(job, picture));
                true
            }
            Err(Undone { job, cause: _ }) => {
                self.jobs.push_front_reserved(job);
                false
            }
        }
    }

    /// Makes room for one result more, for its picture where that comes too late, and for the job
    /// where it is handed back.
    fn reserve_result(&mut self) -> Result<(), AllocError>
        ensures jobs { OnOk result (deque_len self.new.jobs < deque_capacity self.new.jobs) }
        ensures results { OnOk result
            (deque_len self.new.results < deque_capacity self.new.results) }
        ensures capacity { OnOk result (length self.new.results.items + length self.new.late.items
            < vec_capacity self.new.late) }
        ensures same { IsSame self.old self.new }
        ensures count { self.new.count ≡ self.old.count }
    {
        self.results.reserve(1)?;
        self.jobs.reserve(1)?;
        self.late.reserve(self.results.len() + 1)
    }

    /// Brings the first result in hand to a session, and counts its outcome. A picture that isn't
    /// taken is kept until it is given back.
    pub fn land_in(&mut self, session: &mut Session<P>) -> Landing
        requires { self.old.results.items ≢ [] }
        ensures session { LandsIn session.old self.old result session.new self.new }
        ensures count { self.new.count ≡ self.old.count }
    {
        let Some(finished) = self.results.pop_front() else {
            unreachable!()
        };
        let picture = finished.picture();
        let landing = session.land(finished);
        match landing {
            Landing::Taken => self.counts.taken += 1,
            Landing::Stale => {
                self.counts.stale += 1;
                self.late.push_reserved(picture);
            }
            Landing::Foreign => {
                self.counts.foreign += 1;
                self.late.push_reserved(picture);
            }
        }
        landing
    }

    /// Gives the pictures that came too late back to the decoder.
    pub fn give_back_late<D: Decoder<P>>(&mut self, decoder: &mut D)
        ensures late { self.new.late.items ≡ [] }
        ensures jobs { self.new.jobs.items ≡ self.old.jobs.items }
        ensures results { self.new.results.items ≡ self.old.results.items }
        ensures counts { self.new.counts ≡ self.old.counts }
        ensures count { self.new.count ≡ self.old.count }
    {
        for _at in 0..self.late.len() {
            if let Some(picture) = self.late.pop() {
                decoder.take_back(picture);
            }
        }
    }

    /// Gives the first job in hand back to a session, and counts it.
    pub fn give_back_in(&mut self, session: &mut Session<P>) -> Returning
        requires { self.old.jobs.items ≢ [] }
        ensures session { GivesBackIn session.old self.old result session.new self.new }
        ensures count { self.new.count ≡ self.old.count }
    {
        let Some(job) = self.jobs.pop_front() else {
            unreachable!()
        };
        let returning = session.give_back(job);
        match returning {
            Returning::Returned => self.counts.returned += 1,
            Returning::Foreign => self.counts.foreign += 1,
        }
        returning
    }

    /// What became of all jobs, where none is in hand and no picture waits to be given back.
    pub fn worked(self) -> Worked
        requires jobs { self.jobs.items ≡ [] }
        requires results { self.results.items ≡ [] }
        requires late { self.late.items ≡ [] }
        ensures taken { result.taken ≡ self.counts.taken }
        ensures stale { result.stale ≡ self.counts.stale }
        ensures foreign { result.foreign ≡ self.counts.foreign }
        ensures returned { result.returned ≡ self.counts.returned }
    {
        let WorkerQueue {
            jobs,
            results,
            late: _,
            counts,
            count,
        } = self;
        jobs.destroy_empty();
        results.destroy_empty();
        Worked {
            taken: counts.taken,
            stale: counts.stale,
            foreign: counts.foreign,
            returned: counts.returned,
            jobs: count,
        }
    }
}
