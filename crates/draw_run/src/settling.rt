//! All pictures of a stream, decoded one after the other.

ghost use Rattle.std.specs.Prelude.{◌≡◌, ◌+◌, ◌≤◌, [], IfOk, IsErrOf, OnOk, false, true};
ghost use Rattle.picture_store.specs.Jobs.{most_jobs};
ghost use Rattle.picture_store.specs.declared.answers.TakeRefused.TheVariants.{JobsSpent};
ghost use Rattle.draw_run.specs.Loading.{KeepsRest};
ghost use Rattle.draw_run.specs.Marks.{HoldsAll};

use stand_in_device::{Device, Finished, Undone};
use stand_in_session::{Job, Session, TakeRefused};
use std::alloc::{AllocError, Global};

/// Takes jobs and lands their results, one after the other, until no picture is due; or why none is
/// given though one is, or that there was no memory to decode one.
pub(crate) fn settle(alloc: Global, session: &mut Session) -> Result<(), TakeRefused>
    requires { session.old.jobs_out ≡ [] }
    ensures held { OnOk result (HoldsAll session.new) }
    ensures keeps { OnOk result (KeepsRest session.old session.new) }
    ensures spent { IsErrOf result JobsSpent → most_jobs ≤ session.new.jobs }
{
    let mut device = Device::new(alloc);
    for _ in 0..u64::MAX {
        if !land_next(alloc, session, &mut device)? {
            return Ok(());
        }
    }
    // As many jobs were given as there are numbers.
    Err(TakeRefused::JobsSpent)
}

/// Takes the job of the picture that is due, if one is, and lands its result. Whether one was due.
fn land_next(alloc: Global, session: &mut Session, device: &mut Device) -> Result<bool, TakeRefused>
    requires { session.old.jobs_out ≡ [] }
    ensures keeps { OnOk result (KeepsRest session.old session.new) }
    ensures held { IfOk result (λ was_due. was_due ≡ false → HoldsAll session.new) }
    ensures given { IfOk result (λ was_due. was_due ≡ true
        → session.new.jobs ≡ session.old.jobs + 1) }
    ensures spent { IsErrOf result JobsSpent → session.new.jobs ≡ most_jobs }
{
    match session.take() {
        Ok(Some(job)) => {
            let finished = decode(alloc, device, job)?;
            let _ = session.land(finished);
            Ok(true)
        }
        Ok(None) => Ok(false),
        Err(refused) => Err(refused),
    }
}

/// Decodes a job.
fn decode(alloc: Global, device: &mut Device, job: Job) -> Result<Finished, AllocError>
    ensures { IfOk result (λ finished. finished ≡ job) }
{
    match device.decode(alloc, job) {
        Ok(finished) => Ok(finished),
        Err(undone) => Err(cause_of(undone)),
    }
}

/// Why a job is undone; the job is spent.
fn cause_of(undone: Undone) -> AllocError {
    let Undone { job, cause } = undone;
    let (_, input) = job.into_parts();
    drop(input);
    cause
}
