//! Jobs that a runner takes, lands and gives back, each by its number.

ghost use Rattle.std.specs.Prelude.{◌≡◌, IfOk, OnErr};
ghost use Rattle.stand_in_session.specs.Runs.{GivesJobBack, LandsJob, TakesJob, TakesJobFor};
ghost use Rattle.stand_in_session.specs.Needing.{AnswersDrop};

use crate::replies::{NotOut, TakenJob};
use crate::session::Session;
use h264_types::pictures::AuId;
use picture_store::{Landing, Returning, TakeRefused};
use stand_in_device::{Device, Finished, Job, Undone};
use std::alloc::{AllocError, Global};
use stream_session::Dropped;

/// What comes of dropping a unit's picture.
#[derive(Clone, Copy, Debug, PartialEq, Eq)]
pub enum Dropping {
    /// It was held, and is no more.
    Dropped,
    /// It wasn't held, or the unit isn't valid.
    NotHeld,
    /// No unit has the id.
    NoSuchUnit,
}

/// Takes a job, and tells its number and its unit.
pub(crate) fn take(
    session: &mut Session,
) -> Result<Result<Option<TakenJob>, TakeRefused>, AllocError>
    ensures ok { IfOk result (λ answer. TakesJob session.old answer session.new) }
    ensures err { OnErr result (session.new ≡ session.old) }
{
    match session.take_with_unit() {
        Ok(Some((unit, job))) => Ok(Ok(Some(taken(unit, job)))),
        Ok(None) => Ok(Ok(None)),
        Err(TakeRefused::JobsSpent) => Ok(Err(TakeRefused::JobsSpent)),
        Err(TakeRefused::Memory) => Err(AllocError),
    }
}

/// Takes a job for the unit that has the id, and tells its number and its unit.
pub(crate) fn take_for(
    session: &mut Session,
    id: AuId,
) -> Result<Result<Option<TakenJob>, TakeRefused>, AllocError>
    ensures ok { IfOk result (λ answer. TakesJobFor session.old id answer session.new) }
    ensures err { OnErr result (session.new ≡ session.old) }
{
    match session.take_with_unit_for(id) {
        Ok(Some((unit, job))) => Ok(Ok(Some(taken(unit, job)))),
        Ok(None) => Ok(Ok(None)),
        Err(TakeRefused::JobsSpent) => Ok(Err(TakeRefused::JobsSpent)),
        Err(TakeRefused::Memory) => Err(AllocError),
    }
}

/// The number of a job of a unit. The job itself is spent: the session knows it by its number.
fn taken(unit: AuId, job: Job) -> TakenJob
    ensures { result ≡ record { number = job.number; unit = unit } }
{
    let (number, input) = job.into_parts();
    drop(input);
    TakenJob { number, unit }
}

/// Decodes the job of this number, if it is out, and lands its result.
pub(crate) fn land(
    alloc: Global,
    session: &mut Session,
    device: &mut Device,
    number: u64,
) -> Result<Result<Landing, NotOut>, AllocError>
    ensures ok { IfOk result (λ answer. LandsJob session.old number answer session.new) }
    ensures err { OnErr result (session.new ≡ session.old) }
{
    let Some(input) = session.job_input(number) else {
        return Ok(Err(NotOut));
    };
    let job = Job::new(number, input.copy(alloc)?);
    let finished = decode(alloc, device, job)?;
    Ok(Ok(session.land(finished)))
}

/// Gives the job of this number back, if it is out.
pub(crate) fn give_back(session: &mut Session, number: u64) -> Result<Returning, NotOut>
    ensures { GivesJobBack session.old number result session.new }
{
    match session.give_back_number(number) {
        Returning::Returned => Ok(Returning::Returned),
        Returning::Foreign => Err(NotOut),
    }
}

/// Decodes a job.
fn decode(alloc: Global, device: &mut Device, job: Job) -> Result<Finished, AllocError>
    ensures { IfOk result (λ finished. finished ≡ job) }
{
    match device.decode(alloc, job) {
        Ok(finished) => Ok(finished),
        Err(undone) => Err(cause_of(undone)),
    }
}

/// Why a job is undone; the job is spent.
fn cause_of(undone: Undone) -> AllocError {
    let Undone { job, cause } = undone;
    let (_, input) = job.into_parts();
    drop(input);
    cause
}

/// Drops the picture of the unit that has the id, and with it that of each unit that has the same
/// key. It isn't cached by that: a job has to make it again. It takes no memory.
pub fn drop_picture(session: &mut Session, id: AuId) -> Dropping
    ensures { AnswersDrop session.old id result session.new }
{
    match session.drop_picture(id) {
        Dropped::Picture(_) => Dropping::Dropped,
        Dropped::NotHeld => Dropping::NotHeld,
        Dropped::NoSuchUnit => Dropping::NoSuchUnit,
    }
}
