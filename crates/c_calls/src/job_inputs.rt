//! What a job that is out is made of.

ghost use Rattle.std.specs.Prelude.{◌≡◌, Some};
ghost use Rattle.stream_session.specs.Taken.{input_of};
ghost use Rattle.c_calls.specs.JobInputs.{input_answer, reference_answer, as_job_input, as_job_reference, unit_of};
ghost use Rattle.c_calls.specs.Telling.{Tells};

use crate::statuses::{DONE, NO_SUCH_JOB, NO_SUCH_PLACE};
use crate::surface_session::SurfaceSession;
use decode_jobs::surfaces::Surface;
use decode_jobs::{Input, Reference};
use h264_controls::Request;

/// What a job is made of.
#[repr(C)]
#[derive(Clone, Copy, Debug, PartialEq, Eq)]
pub struct JobInput {
    /// The unit whose requests it has, by their timestamp.
    pub unit: u64,
    /// How many slices it has, each with its request.
    pub slices: u64,
    /// How many references it has.
    pub references: u64,
}

/// A picture that the requests of a job may refer to: the timestamp of its unit in nanoseconds, and
/// its surface.
#[repr(C)]
#[derive(Clone, Copy, Debug, PartialEq, Eq)]
pub struct JobReference {
    pub timestamp: u64,
    pub surface: u64,
}

/// What the job of the number is made of.
pub fn job_input(session: &SurfaceSession, job: u64, input: &mut JobInput) -> u32
    ensures { Tells (input_answer (input_of session.now job)) result input.old input.new }
{
    match session.inner.job_input(job) {
        Some(found) => {
            *input = as_job_input(found);
            DONE
        }
        None => NO_SUCH_JOB,
    }
}

/// What a job is made of, as it is told.
fn as_job_input(input: &Input<Surface>) -> JobInput
    ensures { result ≡ as_job_input input.now }
{
    JobInput {
        unit: unit_of(input.requests()),
        slices: input.requests().len() as u64,
        references: input.references().len() as u64,
    }
}

/// The unit of requests.
fn unit_of(requests: &[Request]) -> u64
    ensures { result ≡ unit_of requests.now }
{
    match requests {
        [request, ..] => request.timestamp / 1000,
        [] => 0,
    }
}

/// A reference of the job of the number.
pub fn job_reference(
    session: &SurfaceSession,
    job: u64,
    index: usize,
    reference: &mut JobReference,
) -> u32
    ensures { Tells (reference_answer (input_of session.now job) index)
        result reference.old reference.new }
{
    match session.inner.job_input(job) {
        Some(input) => tell_reference(input, index, reference),
        None => NO_SUCH_JOB,
    }
}

/// Tells a reference of what a job is made of.
fn tell_reference(input: &Input<Surface>, index: usize, reference: &mut JobReference) -> u32
    ensures { Tells (reference_answer (Some input.now) index) result reference.old reference.new }
{
    match input.references().get(index) {
        Some(found) => {
            *reference = as_job_reference(*found);
            DONE
        }
        None => NO_SUCH_PLACE,
    }
}

/// A reference, as it is told.
fn as_job_reference(reference: Reference<Surface>) -> JobReference
    ensures { result ≡ as_job_reference reference }
{
    JobReference {
        timestamp: reference.timestamp,
        surface: reference.picture.handle,
    }
}
