//! What is done for what is wanted, on a session that is lent.

ghost use Rattle.std.specs.Prelude.{MatchBool};
ghost use Rattle.worker_jobs.specs.Taking.{AnswersTakeFirst};
ghost use Rattle.worker_jobs.specs.Rests.{IsAnyPending, IsAtRest, AreSettled, MayNotRest};
ghost use Rattle.worker_jobs.specs.Wanted.{urgent};

use crate::wanted::Wanted;
use decode_jobs::{Decoded, Job};
use h264_types::pictures::AuId;
use picture_store::TakeRefused;
use stream_session::{Session, Shown};

impl Wanted {
    /// Takes a job of a session for the first wanted id for which a needed unit is due. None where
    /// there is none such, whether the rest of the stream is wanted or not.
    pub fn take_first<P: Decoded>(
        &self,
        session: &mut Session<P>,
    ) -> Result<Option<Job<P>>, TakeRefused>
        ensures { AnswersTakeFirst P.IsOf session.old (urgent self.now) result session.new }
    {
        let (waited, listed) = self.numbers();
        match take_first_of(waited, session) {
            Ok(Some(job)) => Ok(Some(job)),
            Ok(None) => take_first_of(listed, session),
            Err(refused) => Err(refused),
        }
    }

    /// Whether a session has nothing to do but the rest, which isn't wanted: no wanted unit is
    /// pending, and no job is out.
    pub fn is_at_rest<P: Decoded>(&self, session: &Session<P>) -> bool
        ensures { MatchBool result (IsAtRest P.IsOf session.now self.now)
            (MayNotRest P.IsOf session.now self.now) }
    {
        if self.is_rest_wanted() || session.jobs_out() > 0 {
            return false;
        }
        let (waited, listed) = self.numbers();
        are_settled(waited, session) && are_settled(listed, session)
    }
}

/// Takes a job of a session for the first of the ids for which a needed unit is due.
fn take_first_of<P: Decoded>(
    numbers: &[u32],
    session: &mut Session<P>,
) -> Result<Option<Job<P>>, TakeRefused>
    ensures { AnswersTakeFirst P.IsOf session.old numbers.now result session.new }
{
    for number in numbers {
        match session.take_for(AuId::new(*number)) {
            Ok(Some(job)) => return Ok(Some(job)),
            Ok(None) => {}
            Err(refused) => return Err(refused),
        }
    }
    Ok(None)
}

/// Whether none of the units of the ids is pending.
fn are_settled<P: Decoded>(numbers: &[u32], session: &Session<P>) -> bool
    ensures { MatchBool result (AreSettled P.IsOf session.now numbers.now)
        (IsAnyPending P.IsOf session.now numbers.now) }
{
    for number in numbers {
        if let Shown::Pending = session.show(AuId::new(*number)) {
            return false;
        }
    }
    true
}
