//! What lies under the lock of a desk.

ghost use Rattle.std.specs.Prelude.{◌≡◌, ◌≢◌, ◌<◌, ◌≤◌, ◌↔◌, ◌++◌, ◌^◌, [], false, length, IfOk, IsErr, OnErr, OnOk};
ghost use Rattle.stream_edits.specs.Streams.{last_of};
ghost use Rattle.stream_session.specs.Altered.{with_mark};
ghost use Rattle.stream_session.specs.Machines.{empty, uncached};
ghost use Rattle.stream_session.specs.Needing.{AnswersReleased, AnswersUncache};
ghost use Rattle.decode_pool.specs.Jobs.{JobsDiffer};
ghost use Rattle.decode_pool.specs.Threads.{Closes};
ghost use Rattle.worker_jobs.specs.Wanted.{urgent};
ghost use Rattle.worker_jobs.specs.JobCounts.{GivesBackIn, LandsIn, TakesFirstIn, TakesIn};
ghost use Rattle.decode_pool.specs.Waits.{IsReached};

mod bringing;
mod seating;
mod settling;
mod visiting;

use crate::status::{DeskStatus, Wakes};
pub(crate) use bringing::Next;
use decode_jobs::Decoded;
use h264_types::pictures::AuId;
use picture_store::{Landing, Returning, TakeRefused};
pub use settling::Settled;
use std::alloc::{AllocError, Global};
use stream_edits::Last;
use stream_session::{Config, Session};
use worker_jobs::{TooManyWanted, WorkerQueue};

/// What lies under the lock of a desk: the session, and what its threads do. Jobs that
/// are out have different numbers and keys. The session is this module's alone: what a thread does
/// with it is one of the calls below, each of which is one of the session's own.
#[derive(Debug, Drop)]
pub(crate) struct DeskState<P: Decoded> {
    session: Session<P>,
    pub(crate) status: DeskStatus,
    ghost jobs: { JobsDiffer session },
}

impl<P: Decoded> DeskState<P> {
    /// An open desk's, before the first edit: its session has an empty stream, and no worker has
    /// ended.
    pub(crate) fn open(alloc: Global, config: Config) -> Result<DeskState<P>, AllocError>
        requires { (1 ≤ config.cache) × (config.cache ≤ 4096) }
        ensures session { IfOk result (λ state. state.session ≡ empty config.cache) }
        ensures open { IfOk result (λ state. state.status.closed ≡ false) }
        ensures ended { IfOk result (λ state. state.status.ended ≡ 0) }
    {
        match Session::new(alloc, config) {
            Ok(session) => Ok(DeskState {
                session,
                status: DeskStatus::new(),
            }),
            Err(_) => Err(AllocError),
        }
    }

    /// The session.
    pub(crate) fn session(&self) -> &Session<P>
        ensures session { result.now ≡ self.now.session }
        ensures jobs { JobsDiffer result.now }
    {
        &self.session
    }

    /// The session, at the end.
    pub(crate) fn into_session(self) -> Session<P>
        ensures session { result ≡ self.session }
        ensures jobs { JobsDiffer result }
    {
        self.session
    }

    /// Closes the desk: whom that is to wake.
    pub(crate) fn close(&mut self) -> Wakes
        ensures session { self.new.session ≡ self.old.session }
        ensures status { Closes self.old.status result self.new.status }
    {
        self.status.close()
    }

    /// Makes these the ids that are wanted first, in order of urgency, behind those of the units
    /// that threads wait for. Where they are too many, nothing changes.
    pub(crate) fn want(&mut self, ids: &[AuId]) -> Result<(), TooManyWanted>
        ensures ok { OnOk result (self.new.status ≡ record self.old.status {
          wanted = record self.old.status.wanted { listed = ids.now };
        }) }
        ensures order { OnOk result
            (urgent self.new.status.wanted ≡ self.old.status.wanted.waited ++ ids.now) }
        ensures err { OnErr result (self.new.status ≡ self.old.status) }
        ensures too_many { IsErr result ↔ (64 < length ids.now) }
        ensures session { self.new.session ≡ self.old.session }
    {
        self.status.wanted.list(ids)
    }

    /// Makes the rest of the stream wanted or not.
    pub(crate) fn set_rest(&mut self, rest: bool)
        ensures status { self.new.status ≡ record self.old.status {
          wanted = record self.old.status.wanted { rest = rest };
        } }
        ensures session { self.new.session ≡ self.old.session }
    {
        self.status.wanted.set_rest(rest);
    }

    /// Drops the pictures that are cached.
    pub(crate) fn clear_cache(&mut self)
        ensures session { self.new.session ≡ uncached self.old.session }
        ensures status { self.new.status ≡ self.old.status }
    {
        self.session.clear_cache();
    }

    /// Begins anew with this session, of which no job is out.
    pub(crate) fn begin_anew(&mut self, session: Session<P>)
        requires { session.jobs_out ≡ [] }
        ensures session { self.new.session ≡ session }
        ensures status { self.new.status ≡ self.old.status }
    {
        self.session = session;
    }

    /// Marks the stream as it is.
    pub(crate) fn mark(&mut self) -> Result<(), AllocError>
        ensures ok { OnOk result (self.new.session ≡ with_mark self.old.session) }
        ensures err { OnErr result (self.new.session ≡ self.old.session) }
        ensures status { self.new.status ≡ self.old.status }
    {
        self.session.mark()
    }

    /// Gives back the picture that was cached first.
    pub(crate) fn uncache(&mut self) -> Option<P>
        ensures reached { IsReached self.old.session }
        ensures session { AnswersUncache P.IsOf self.old.session result self.new.session }
        ensures status { self.new.status ≡ self.old.status }
    {
        self.session.reached();
        self.session.uncache()
    }

    /// Gives back one of the pictures that were let go.
    pub(crate) fn take_released(&mut self) -> Option<P>
        ensures reached { IsReached self.old.session }
        ensures session { AnswersReleased self.old.session result self.new.session }
        ensures status { self.new.status ≡ self.old.status }
    {
        self.session.reached();
        self.session.take_released()
    }

    /// The end of the stream.
    pub(crate) fn last(&self) -> Last
        ensures reached { IsReached self.now.session }
        ensures last { result ≡ last_of self.now.session.register.stream }
    {
        self.session.reached();
        self.session.last()
    }

    /// A worker takes a job, if one is due: whether it has one more in hand.
    pub(crate) fn take(&mut self, queue: &mut WorkerQueue<P>) -> Result<bool, TakeRefused>
        requires { queue.old.count < 2 ^ 63 }
        ensures session { TakesIn self.old.session queue.old result self.new.session queue.new }
        ensures status { self.new.status ≡ self.old.status }
    {
        queue.take_in(&mut self.session)
    }

    /// A worker takes a job for the first wanted id for which a needed unit is due, if there is
    /// one: whether it has one more in hand.
    pub(crate) fn take_first(&mut self, queue: &mut WorkerQueue<P>) -> Result<bool, TakeRefused>
        requires { queue.old.count < 2 ^ 63 }
        ensures session { TakesFirstIn self.old.session (urgent self.old.status.wanted)
            queue.old result self.new.session queue.new }
        ensures status { self.new.status ≡ self.old.status }
    {
        queue.take_first_in(&self.status.wanted, &mut self.session)
    }

    /// A worker brings the first result that it has in hand.
    pub(crate) fn land(&mut self, queue: &mut WorkerQueue<P>) -> Landing
        requires { queue.old.results.items ≢ [] }
        ensures session { LandsIn self.old.session queue.old result self.new.session queue.new }
        ensures count { queue.new.count ≡ queue.old.count }
        ensures status { self.new.status ≡ self.old.status }
    {
        queue.land_in(&mut self.session)
    }

    /// A worker gives the first job back that it has in hand.
    pub(crate) fn give_back(&mut self, queue: &mut WorkerQueue<P>) -> Returning
        requires { queue.old.jobs.items ≢ [] }
        ensures session { GivesBackIn self.old.session queue.old result self.new.session queue.new }
        ensures count { queue.new.count ≡ queue.old.count }
        ensures status { self.new.status ≡ self.old.status }
    {
        queue.give_back_in(&mut self.session)
    }
}
