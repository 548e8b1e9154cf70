//! Jobs: pictures to decode.

ghost use Rattle.std.specs.Prelude.{◌≡◌};
ghost use Rattle.c_calls.specs.Jobs.{GivesBackTo, IsMadeFor, LandsTo, TakesForTo, TakesTo, landing_status, returning_status, as_taken};

use crate::statuses::{DONE, JOBS_SPENT, MEMORY, NO_SUCH_JOB, NOTHING_DUE, STALE};
use crate::surface_session::SurfaceSession;
use crate::telling::tell;
use decode_jobs::Job;
use decode_jobs::surfaces::Surface;
use h264_types::pictures::AuId;
use picture_store::{Landing, Returning, TakeRefused};

/// A job that was taken: its number, and the unit whose picture it makes.
#[repr(C)]
#[derive(Clone, Copy, Debug, PartialEq, Eq)]
pub struct JobTaken {
    pub number: u64,
    pub unit: u32,
}

/// Takes a job: the earliest picture of the stream that isn't held and isn't out, and whose
/// references are all held.
pub fn take(session: &mut SurfaceSession, taken: &mut JobTaken) -> u32
    ensures { TakesTo session.old result taken.old taken.new session.new }
{
    let answer = session.inner.take_with_unit();
    tell(as_taken(answer), taken)
}

/// Takes a job that the unit of the id needs: the earliest of those whose references are all held.
pub fn take_for(session: &mut SurfaceSession, id: u32, taken: &mut JobTaken) -> u32
    ensures { TakesForTo session.old id result taken.old taken.new session.new }
{
    let answer = session.inner.take_with_unit_for(AuId::new(id));
    tell(as_taken(answer), taken)
}

/// An answer to one who asks for a job, as it is told. The job itself is spent: the session knows it
/// by its number.
fn as_taken(answer: Result<Option<(AuId, Job<Surface>)>, TakeRefused>) -> Result<JobTaken, u32>
    ensures { result ≡ as_taken answer }
{
    match answer {
        Ok(Some((unit, job))) => Ok(as_job_taken(unit, job)),
        Ok(None) => Err(NOTHING_DUE),
        Err(TakeRefused::JobsSpent) => Err(JOBS_SPENT),
        Err(TakeRefused::Memory) => Err(MEMORY),
    }
}

/// A job of a unit, as it is told.
fn as_job_taken(unit: AuId, job: Job<Surface>) -> JobTaken
    ensures { result ≡ record { number = job.number; unit = unit } }
{
    let (number, input) = job.into_parts();
    drop(input);
    JobTaken {
        number,
        unit: unit.number(),
    }
}

/// Lands the job of the number: its surface is held from then on, where its picture is wanted. Else
/// the surface is still the host's. That the host's decoder made the picture of what the job has is
/// what whoever calls this owes.
pub fn land(session: &mut SurfaceSession, job: u64, surface: u64) -> u32
    requires { IsMadeFor session.old job surface }
    ensures { LandsTo session.old job surface result session.new }
{
    let surface = Surface { handle: surface };
    landing_status(session.inner.land_number(job, surface))
}

/// What became of a picture of a job, as it is told.
fn landing_status(answer: Landing) -> u32
    ensures { result ≡ landing_status answer }
{
    match answer {
        Landing::Taken => DONE,
        Landing::Stale => STALE,
        Landing::Foreign => NO_SUCH_JOB,
    }
}

/// Gives the job of the number back, so that its picture is given to decode again.
pub fn give_back(session: &mut SurfaceSession, job: u64) -> u32
    ensures { GivesBackTo session.old job result session.new }
{
    returning_status(session.inner.give_back_number(job))
}

/// What became of a job that is given back, as it is told.
fn returning_status(answer: Returning) -> u32
    ensures { result ≡ returning_status answer }
{
    match answer {
        Returning::Returned => DONE,
        Returning::Foreign => NO_SUCH_JOB,
    }
}
