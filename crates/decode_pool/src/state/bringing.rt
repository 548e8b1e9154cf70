//! What a worker does with a session while it has the lock: several steps, one after the other.

ghost use Rattle.std.specs.Prelude.{◌≡◌, ◌≢◌, ◌+◌, ◌-◌, ◌<◌, ◌^◌, [], length, min};
ghost use Rattle.decode_pool.specs.declared.state.bringing.Next.TheVariants.{DecodesLast};
ghost use Rattle.decode_pool.specs.Batches.{GivesBackAll, LandsAll, TakesNext, TakesSome};

use super::DeskState;
use decode_jobs::Decoded;
use worker_jobs::WorkerQueue;

/// How many jobs a worker takes at most before it ends.
const MOST_JOBS: u64 = 1 << 63;

/// What a worker does next.
#[derive(Clone, Copy, Debug, PartialEq, Eq)]
pub(crate) enum Next {
    /// It has as many jobs in hand as it may take at once, or one that is wanted first: more may be
    /// due.
    Decodes,
    /// It has all jobs in hand that it could take.
    DecodesLast,
    /// No job is due for what is wanted first, and none of the rest either or that isn't wanted.
    Sleeps,
    /// The desk is closed, a job is due and can't be taken or memory runs out, or 2^63 jobs were
    /// taken.
    Ends,
}

impl<P: Decoded> DeskState<P> {
    /// A worker comes back, and brings all results that it has in hand.
    pub(crate) fn come_back(&mut self, queue: &mut WorkerQueue<P>)
        ensures landed { LandsAll P.IsDecoded self.old.session queue.old.results.items
            queue.old.counts queue.old.late.items self.new.session queue.new.counts
            queue.new.late.items }
        ensures results { queue.new.results.items ≡ [] }
        ensures jobs { queue.new.jobs.items ≡ queue.old.jobs.items }
        ensures busy { 0 < length queue.old.jobs.items + length queue.old.results.items
            → self.new.status ≡ record self.old.status { at_work = self.old.status.at_work - 1 } }
        ensures idle { length queue.old.jobs.items + length queue.old.results.items ≡ 0
            → self.new.status ≡ self.old.status }
    {
        if queue.jobs() + queue.results() > 0 {
            self.status.at_work = self.status.at_work.saturating_sub(1);
        }
        self.land_all(queue);
    }

    /// A worker ends: it brings the results that it has in hand, gives back the jobs, and is
    /// counted.
    pub(crate) fn end_worker(&mut self, queue: &mut WorkerQueue<P>)
        ensures jobs { queue.new.jobs.items ≡ [] }
        ensures results { queue.new.results.items ≡ [] }
        ensures ended { self.new.status.ended ≡ min (self.old.status.ended + 1) (2 ^ 64 - 1) }
        ensures rest { self.new.status ≡ record self.old.status {
          ended = self.new.status.ended;
          at_work = self.new.status.at_work;
        } }
    {
        self.come_back(queue);
        self.give_back_all(queue);
        self.status.ended = self.status.ended.saturating_add(1);
    }

    /// A worker that has no job in hand takes its next one for what is wanted first. Where no job
    /// is due for that, it takes of the rest, if that is wanted: one, where others of so many
    /// workers have none, else up to so many.
    pub(crate) fn take_next(
        &mut self,
        queue: &mut WorkerQueue<P>,
        most: usize,
        workers: usize,
    ) -> Next
        requires none { queue.old.jobs.items ≡ [] }
        requires some { 0 < most }
        ensures taken { TakesNext P.IsOf self.old.session self.old.status.wanted
            queue.new.jobs.items result self.new.session }
        ensures results { queue.new.results.items ≡ queue.old.results.items }
        ensures counts { queue.new.counts ≡ queue.old.counts }
        ensures late { queue.new.late.items ≡ queue.old.late.items }
        ensures busy { 0 < length queue.new.jobs.items
            → self.new.status ≡ record self.old.status {
              at_work = min (self.old.status.at_work + 1) (2 ^ 64 - 1);
            } }
        ensures idle { length queue.new.jobs.items ≡ 0
            → self.new.status ≡ self.old.status }
    {
        let are_busy = self.status.are_others_at_work(workers);
        let next = self.take_urgent(queue, if are_busy { most } else { 1 });
        if queue.jobs() > 0 {
            self.status.at_work = self.status.at_work.saturating_add(1);
        }
        next
    }

    /// A worker that has no job in hand takes one for the first wanted id for which a needed unit
    /// is due, by a step of the session. Where there is none such, it takes up to so many of the
    /// rest, if that is wanted.
    fn take_urgent(&mut self, queue: &mut WorkerQueue<P>, most: usize) -> Next
        requires none { queue.old.jobs.items ≡ [] }
        requires some { 0 < most }
        ensures taken { TakesNext P.IsOf self.old.session self.old.status.wanted
            queue.new.jobs.items result self.new.session }
        ensures results { queue.new.results.items ≡ queue.old.results.items }
        ensures counts { queue.new.counts ≡ queue.old.counts }
        ensures late { queue.new.late.items ≡ queue.old.late.items }
        ensures status { self.new.status ≡ self.old.status }
    {
        if self.status.closed || queue.count() >= MOST_JOBS {
            return Next::Ends;
        }
        match self.take_first(queue) {
            Ok(true) => Next::Decodes,
            Ok(false) if self.status.wanted.is_rest_wanted() => self.take_some(queue, most),
            Ok(false) => Next::Sleeps,
            Err(_) => Next::Ends,
        }
    }

    /// A worker that has no job in hand takes so many, or as many as are due, each by a step of the
    /// session.
    pub(crate) fn take_some(&mut self, queue: &mut WorkerQueue<P>, most: usize) -> Next
        requires none { queue.old.jobs.items ≡ [] }
        requires some { 0 < most }
        ensures taken { TakesSome P.IsOf self.old.session queue.new.jobs.items result self.new.session }
        ensures results { queue.new.results.items ≡ queue.old.results.items }
        ensures counts { queue.new.counts ≡ queue.old.counts }
        ensures late { queue.new.late.items ≡ queue.old.late.items }
        ensures status { self.new.status ≡ self.old.status }
    {
        for _at in 0..most {
            if queue.count() >= MOST_JOBS {
                return unless_in_hand(queue, Next::Ends);
            }
            match self.take(queue) {
                Ok(true) => {}
                Ok(false) => return unless_in_hand(queue, Next::Sleeps),
                Err(_) => return unless_in_hand(queue, Next::Ends),
            }
        }
        Next::Decodes
    }

    /// A worker brings all results that it has in hand, in the order in which it took their jobs,
    /// each by a step of the session.
    pub(crate) fn land_all(&mut self, queue: &mut WorkerQueue<P>)
        ensures landed { LandsAll P.IsDecoded self.old.session queue.old.results.items
            queue.old.counts queue.old.late.items self.new.session queue.new.counts
            queue.new.late.items }
        ensures results { queue.new.results.items ≡ [] }
        ensures jobs { queue.new.jobs.items ≡ queue.old.jobs.items }
        ensures status { self.new.status ≡ self.old.status }
    {
        for _at in 0..queue.results() {
            let _ = self.land(queue);
        }
    }

    /// A worker gives all jobs back that it has in hand, in the order in which it took them, each
    /// by a step of the session.
    pub(crate) fn give_back_all(&mut self, queue: &mut WorkerQueue<P>)
        ensures given { GivesBackAll self.old.session queue.old.jobs.items queue.old.counts
            self.new.session queue.new.counts }
        ensures jobs { queue.new.jobs.items ≡ [] }
        ensures results { queue.new.results.items ≡ queue.old.results.items }
        ensures late { queue.new.late.items ≡ queue.old.late.items }
        ensures status { self.new.status ≡ self.old.status }
    {
        for _at in 0..queue.jobs() {
            let _ = self.give_back(queue);
        }
    }
}

/// What a worker does next that took no more: this, or it decodes what it has in hand.
fn unless_in_hand<P: Decoded>(queue: &WorkerQueue<P>, next: Next) -> Next
    ensures none { queue.now.jobs.items ≡ [] → result ≡ next }
    ensures some { queue.now.jobs.items ≢ [] → result ≡ DecodesLast }
{
    if queue.jobs() == 0 {
        next
    } else {
        Next::DecodesLast
    }
}
