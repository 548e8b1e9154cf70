//! `settle`: jobs taken and landed one after the other, all that are due or those that a unit
//! needs.

ghost use Rattle.std.specs.Prelude.{◌≡◌, ◌≤◌, List, Some, IfOk, IsErrOf, OnOk, string_bytes};
ghost use Rattle.picture_store.specs.Jobs.{most_jobs};
ghost use Rattle.stream_session.specs.Needing.{IsAnyOutFor, IsPendingIn};
ghost use Rattle.stand_in_session.specs.declared.replies.TakenJob.{TakenJob};
ghost use Rattle.script_run.specs.JobLines.{settled_line};
ghost use Rattle.script_run.specs.Settling.{LandsNext, Settles, Takes};
ghost use Rattle.script_run.specs.declared.settling.SettleFault.TheVariants.{Memory};

use h264_types::pictures::AuId;
use stand_in_session::{Command as Call, Reply, Runner, TakeRefused, TakenJob};
use std::alloc::{AllocError, Global};

/// Why jobs aren't taken and landed to the end.
#[derive(Clone, Copy, Debug, PartialEq, Eq)]
pub enum SettleFault {
    /// A growth was refused.
    Memory,
    /// A picture is due, and all numbers of jobs were given.
    JobsSpent,
}

impl From<AllocError> for SettleFault {
    ghost from_gives = { λ _ stopped. stopped ≡ Memory };

    fn from(_error: AllocError) -> SettleFault {
        SettleFault::Memory
    }
}

/// Takes jobs for the unit that has the id and lands their results, one after the other, until none
/// of the pictures that it needs is due. Jobs that are out stay out; where none of them is of a
/// picture that the unit needs, its own is there at the end.
pub fn settle_for(runner: &mut Runner, id: AuId) -> Result<(), SettleFault>
    ensures settles { OnOk result ((jobs : List TakenJob)
        × Settles (Some id) runner.old jobs runner.new) }
    ensures there { OnOk result ((IsAnyOutFor runner.old id → ⊥)
        → IsPendingIn runner.new id → ⊥) }
    ensures spent { IsErrOf result SettleFault.JobsSpent → most_jobs ≤ runner.new.jobs }
{
    settle_jobs(runner, Some(id))
}

/// Takes and lands all jobs, or those for the unit that has the id, and gives the line that says
/// so.
pub(crate) fn settle(
    alloc: Global,
    runner: &mut Runner,
    unit: Option<AuId>,
) -> Result<String, AllocError>
    ensures { IfOk result (λ line. (jobs : List TakenJob) × Settles unit runner.old jobs runner.new
        × (string_bytes line ≡ settled_line)) }
{
    let settled = match unit {
        Some(id) => settle_for(runner, id),
        None => settle_jobs(runner, None),
    };
    match settled {
        Ok(()) => String::from_str(alloc, "settled\n"),
        Err(_) => Err(AllocError),
    }
}

/// Takes jobs, all or those for the unit that has the id, and lands their results, one after the
/// other, until no picture is due.
fn settle_jobs(runner: &mut Runner, unit: Option<AuId>) -> Result<(), SettleFault>
    ensures settles { OnOk result ((jobs : List TakenJob)
        × Settles unit runner.old jobs runner.new) }
    ensures spent { IsErrOf result SettleFault.JobsSpent → most_jobs ≤ runner.new.jobs }
{
    for _ in 0..u64::MAX {
        if !land_next(runner, unit)? {
            return Ok(());
        }
    }
    // As many jobs were given as there are numbers.
    Err(SettleFault::JobsSpent)
}

/// Takes the job of the picture that is due, if one is, and lands its result. Whether one was due.
fn land_next(runner: &mut Runner, unit: Option<AuId>) -> Result<bool, SettleFault>
    ensures lands { IfOk result (λ was_due. LandsNext unit runner.old was_due runner.new) }
    ensures spent { IsErrOf result SettleFault.JobsSpent → runner.new.jobs ≡ most_jobs }
{
    let Some(job) = take_next(runner, unit)? else {
        return Ok(false);
    };
    drop(runner.step(Call::Land(job.number))?);
    match runner.input(job.number) {
        None => Ok(true),
        // No number is given twice.
        Some(_) => Err(SettleFault::Memory),
    }
}

/// Takes the job of the picture that is due, if one is.
fn take_next(runner: &mut Runner, unit: Option<AuId>) -> Result<Option<TakenJob>, SettleFault>
    ensures takes { IfOk result (λ job. Takes unit runner.old job runner.new) }
    ensures spent { IsErrOf result SettleFault.JobsSpent → runner.new.jobs ≡ most_jobs }
{
    let told = match unit {
        Some(id) => Call::TakeFor(id),
        None => Call::Take,
    };
    let reply = runner.step(told)?;
    match &reply {
        Reply::Take(Ok(job)) | Reply::TakeFor(Ok(job)) => Ok(*job),
        Reply::Take(Err(TakeRefused::JobsSpent)) | Reply::TakeFor(Err(TakeRefused::JobsSpent)) => {
            Err(SettleFault::JobsSpent)
        }
        // There is no other reply.
        _ => Err(SettleFault::Memory),
    }
}
