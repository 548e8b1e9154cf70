//! Whether units of a session are pending.

ghost use Rattle.std.specs.Prelude.{◌≡◌, IfOk, MatchOption};
ghost use Rattle.decode_pool.specs.Waits.{AreSettledFrom, IsPendingAt, IsReached, IsSettledBy, IsSettledForBy, WaitsForOne};

use super::DeskState;
use decode_jobs::Decoded;
use h264_types::pictures::AuId;
use stream_session::Shown;

/// What a seat that waits for a desk's pictures is answered.
#[derive(Clone, Copy, Debug, PartialEq, Eq)]
pub enum Settled {
    /// No unit is pending, or not the one that was waited for.
    Done,
    /// A unit is pending, or the one that was waited for, and as many workers have ended as the
    /// desk was opened for.
    Idle,
    /// A unit is pending, but the rest of the stream isn't wanted, no wanted unit is pending and no
    /// job is out. A wait for one unit doesn't end so.
    Rested,
}

impl<P: Decoded> DeskState<P> {
    /// How a wait ends that began to look at the units from a place on, or found none pending
    /// there: no unit is pending; or one is, but all that is wanted is done; or as many workers
    /// have ended. Else the place of a pending unit, from which on is looked next.
    pub(crate) fn settled(&self, from: usize, workers: usize) -> Result<Settled, usize>
        ensures reached { IsReached self.now.session }
        ensures settled { IsSettledBy P.IsOf self.now.session self.now.status workers result }
        ensures woken { IfOk result (WaitsForOne P.IsOf) }
    {
        let pending = match self.first_pending(from) {
            None if from > 0 => self.first_pending(0),
            found => found,
        };
        match pending {
            None => Ok(Settled::Done),
            Some(_) if self.status.wanted.is_at_rest(&self.session) => Ok(Settled::Rested),
            Some(_) if self.status.ended >= workers => Ok(Settled::Idle),
            Some(at) => Err(at),
        }
    }

    /// How a wait for the unit of an id ends: it isn't pending, or as many workers have ended. None
    /// while it goes on.
    pub(crate) fn settled_for(&self, id: AuId, workers: usize) -> Option<Settled>
        ensures reached { IsReached self.now.session }
        ensures settled { IsSettledForBy P.IsOf self.now.session id self.now.status.ended workers result }
    {
        self.session.reached();
        match self.session.show(id) {
            Shown::Pending => (self.status.ended >= workers).then_some(Settled::Idle),
            _ => Some(Settled::Done),
        }
    }

    /// The place of the first pending unit, from a place on.
    fn first_pending(&self, from: usize) -> Option<usize>
        ensures reached { IsReached self.now.session }
        ensures place { MatchOption result
            (AreSettledFrom P.IsOf self.now.session from)
            (λ at. IsPendingAt P.IsOf self.now.session at) }
    {
        self.session.reached();
        let units = self.session.ids().len();
        for at in from..units {
            if let Shown::Pending = self.session.show_at(at) {
                return Some(at);
            }
        }
        None
    }
}
