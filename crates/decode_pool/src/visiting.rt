//! One who edits a desk and asks it without a seat, and keeps no book.

ghost use Rattle.std.specs.Prelude.{◌≡◌, ◌≢◌, [], IfOk, IfSome};
ghost use Rattle.stream_session.specs.Machines.{IsBegun, empty};
ghost use Rattle.decode_pool.specs.Visits.{DropsSome, EditsGroupSome, EditsSome, ReleasesSome, ShowsSome, UncachesSome};

use crate::desk::DeskOf;
use decode_jobs::Decoded;
use h264_types::pictures::AuId;
use std::alloc::{AllocError, Global};
use std::sync::Wait;
use stream_edits::snapshots::ReadSnapshot;
use stream_edits::{EditRefused, GroupReceipt, GroupRefused, ReadEdit, ReadGroup, Receipt};
use stream_session::{Config, Dropped, Session, Shown};

impl<P: Decoded> DeskOf<P> {
    /// Edits the session by an edit whose text is read, while no one else edits it or asks.
    pub fn edit_read<R: Wait>(&self, rt: &R, read: ReadEdit) -> Result<Receipt, EditRefused>
        ensures { EditsSome P P.GoesBack read result }
    {
        let mut state = self.state.lock(rt);
        let answer = state.visit_edit(read);
        self.wake(state);
        answer
    }

    /// Makes the edits of a group whose texts are read, as one step, while no one else edits the
    /// session or asks.
    pub fn edit_group_read<R: Wait>(
        &self,
        rt: &R,
        group: ReadGroup,
    ) -> Result<GroupReceipt, GroupRefused>
        ensures { EditsGroupSome P P.GoesBack group result }
    {
        let mut state = self.state.lock(rt);
        let answer = state.visit_group(group);
        self.wake(state);
        answer
    }

    /// What is shown of the unit that has the id.
    pub fn show<R: Wait>(&self, rt: &R, id: AuId) -> Shown<P>
        ensures { ShowsSome P.IsOf id result }
    {
        self.state.lock(rt).visit_show(id)
    }

    /// Gives back the picture of the unit that has the id, as `Session::drop_picture` does. A worker
    /// may make it again.
    pub fn drop_picture<R: Wait>(&self, rt: &R, id: AuId) -> Dropped<P>
        ensures { DropsSome P.IsOf id result }
    {
        let mut state = self.state.lock(rt);
        let answer = state.visit_drop(id);
        self.wake(state);
        answer
    }

    /// Gives back the picture that was cached first, if one is cached.
    pub fn uncache<R: Wait>(&self, rt: &R) -> Option<P>
        ensures { UncachesSome P.IsOf result }
    {
        self.state.lock(rt).uncache()
    }

    /// Gives back one of the pictures that edits let go and to which no job that is out refers, if
    /// there is one.
    pub fn take_released<R: Wait>(&self, rt: &R) -> Option<P>
        ensures { ReleasesSome result }
    {
        self.state.lock(rt).take_released()
    }

    /// Forgets the pictures that are cached, for a host that doesn't want them back.
    pub fn clear_cache<R: Wait>(&self, rt: &R) {
        self.state.lock(rt).clear_cache();
    }

    /// Marks the stream of the desk's session as it is, as `Session::mark` does; where memory runs
    /// out, the mark before stays.
    pub fn mark<R: Wait>(&self, rt: &R) -> Result<(), AllocError> {
        self.state.lock(rt).mark()
    }

    /// A session to begin anew with: of an empty stream, and with the desk's room for pictures that
    /// no unit has.
    pub fn fresh(&self, alloc: Global) -> Result<Session<P>, AllocError>
        ensures { IfOk result (λ session. session ≡ empty self.now.cache) }
    {
        match Session::new(alloc, Config { cache: self.cache }) {
            Ok(session) => Ok(session),
            Err(_) => Err(AllocError),
        }
    }

    /// A session to begin anew with, from a snapshot, with the desk's room for pictures that no unit
    /// has.
    pub fn begun(&self, alloc: Global, snapshot: ReadSnapshot) -> Result<Session<P>, AllocError>
        ensures { IfOk result (IsBegun self.now.cache snapshot) }
    {
        match Session::begun(alloc, Config { cache: self.cache }, snapshot) {
            Ok(session) => Ok(session),
            Err(_) => Err(AllocError),
        }
    }

    /// Begins anew with this session, of which no job is out, as a desk that is opened does, but for
    /// its threads and what is wanted. What a worker brings of a job from before lands nowhere,
    /// unless a job of its number and its input is out again.
    pub fn begin_anew<R: Wait>(&self, rt: &R, session: Session<P>)
        requires { session.jobs_out ≡ [] }
    {
        let mut state = self.state.lock(rt);
        state.begin_anew(session);
        self.wake(state);
    }

    /// Waits until the session may show another picture of some unit than it did when `seen` was
    /// answered, 0 being the beginning, and answers what to wait from next. None once the desk is
    /// closed.
    pub fn news<R: Wait>(&self, rt: &R, seen: u64) -> Option<u64>
        ensures { IfSome result (λ news. news ≢ seen) }
    {
        let mut state = self.state.lock(rt);
        for _ in rt.forever() {
            if state.status.closed {
                return None;
            }
            if state.status.news != seen {
                return Some(state.status.news);
            }
            state.status.watchers.fall_asleep();
            state = self.changed.wait(rt, state);
            state.status.watchers.awake();
        }
        unreachable!()
    }
}
