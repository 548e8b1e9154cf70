//! Jobs: pictures to decode.

ghost use Rattle.std.specs.Prelude.{IfSome};
ghost use Rattle.c_calls.specs.Jobs.{GivesBackTo, IsMadeFor, LandsTo, TakesForTo, TakesTo};
ghost use Rattle.c_calls.specs.JobInputs.{input_answer, reference_answer};
ghost use Rattle.c_calls.specs.Telling.{Tells};
ghost use Rattle.stream_session.specs.Taken.{input_of};
ghost use Rattle.cupdaisy.specs.Calls.{Asks, Changes, Does};

use crate::Handle;
use c_calls::{JobInput, JobReference, JobTaken, NO_SESSION};
use std::alloc::Global;

/// Takes a job.
#[unsafe(no_mangle)]
pub extern "C" fn cupdaisy_take(alloc: Global, session: &mut Handle, job: &mut JobTaken) -> u32
    ensures { Does session.old.held.state result job.old job.new session.new.held.state
        (λ old new. TakesTo old result job.old job.new new) }
{
    let Some(mut inner) = session.take(alloc) else {
        return NO_SESSION;
    };
    let status = c_calls::take(&mut inner, job);
    session.put(inner);
    status
}

/// Takes a job that the unit of the id needs.
#[unsafe(no_mangle)]
pub extern "C" fn cupdaisy_take_for(
    alloc: Global,
    session: &mut Handle,
    id: u32,
    job: &mut JobTaken,
) -> u32
    ensures { Does session.old.held.state result job.old job.new session.new.held.state
        (λ old new. TakesForTo old id result job.old job.new new) }
{
    let Some(mut inner) = session.take(alloc) else {
        return NO_SESSION;
    };
    let status = c_calls::take_for(&mut inner, id, job);
    session.put(inner);
    status
}

/// Lands the job of the number: its surface is held from then on, where its picture is wanted. Else
/// the surface is still the host's.
#[unsafe(no_mangle)]
pub extern "C" fn cupdaisy_land(alloc: Global, session: &mut Handle, job: u64, surface: u64) -> u32
    requires { IfSome session.old.held.state (λ machine. IsMadeFor machine job surface) }
    ensures { Changes session.old.held.state result session.new.held.state
        (λ old new. LandsTo old job surface result new) }
{
    let Some(mut inner) = session.take(alloc) else {
        return NO_SESSION;
    };
    let status = c_calls::land(&mut inner, job, surface);
    session.put(inner);
    status
}

/// Gives the job of the number back.
#[unsafe(no_mangle)]
pub extern "C" fn cupdaisy_give_back(alloc: Global, session: &mut Handle, job: u64) -> u32
    ensures { Changes session.old.held.state result session.new.held.state
        (λ old new. GivesBackTo old job result new) }
{
    let Some(mut inner) = session.take(alloc) else {
        return NO_SESSION;
    };
    let status = c_calls::give_back(&mut inner, job);
    session.put(inner);
    status
}

/// What the job of the number is made of.
#[unsafe(no_mangle)]
pub extern "C" fn cupdaisy_job_input_of(
    alloc: Global,
    session: &mut Handle,
    job: u64,
    input: &mut JobInput,
) -> u32
    ensures { Asks session.old.held.state result input.old input.new session.new.held.state
        (λ machine. Tells (input_answer (input_of machine job)) result input.old input.new) }
{
    let Some(inner) = session.take(alloc) else {
        return NO_SESSION;
    };
    let status = c_calls::job_input(&inner, job, input);
    session.put(inner);
    status
}

/// A reference of the job of the number.
#[unsafe(no_mangle)]
pub extern "C" fn cupdaisy_job_reference(
    alloc: Global,
    session: &mut Handle,
    job: u64,
    index: usize,
    reference: &mut JobReference,
) -> u32
    ensures { Asks session.old.held.state result reference.old reference.new session.new.held.state
        (λ machine. Tells (reference_answer (input_of machine job) index) result reference.old
        reference.new) }
{
    let Some(inner) = session.take(alloc) else {
        return NO_SESSION;
    };
    let status = c_calls::job_reference(&inner, job, index, reference);
    session.put(inner);
    status
}
