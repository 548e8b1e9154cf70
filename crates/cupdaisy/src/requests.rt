//! The requests of units and of jobs.

ghost use Rattle.c_calls.specs.Requests.{FillsFrom, request_layout, request_of_job, request_of_unit, laid_out, weights_of};
ghost use Rattle.c_calls.specs.Telling.{Tells};
ghost use Rattle.cupdaisy.specs.Calls.{Asks, AsksTwo};

use crate::Handle;
use c_calls::{NO_SESSION, SliceRequest};
use frame_requests::layouts::PredWeightsLayout;
use std::alloc::Global;

/// The request of a slice of the unit of the id, as the stream is now.
#[unsafe(no_mangle)]
pub extern "C" fn cupdaisy_unit_request(
    alloc: Global,
    session: &mut Handle,
    id: u32,
    slice: usize,
    request: &mut SliceRequest,
) -> u32
    ensures { Asks session.old.held.state result request.old request.new session.new.held.state
        (λ machine. Tells (laid_out request_layout (request_of_unit machine id slice)) result
        request.old request.new) }
{
    let Some(inner) = session.take(alloc) else {
        return NO_SESSION;
    };
    let status = c_calls::unit_request(&inner, id, slice, request);
    session.put(inner);
    status
}

/// The weight table of a slice of the unit of the id, as the stream is now.
#[unsafe(no_mangle)]
pub extern "C" fn cupdaisy_unit_weights(
    alloc: Global,
    session: &mut Handle,
    id: u32,
    slice: usize,
    weights: &mut PredWeightsLayout,
) -> u32
    ensures { Asks session.old.held.state result weights.old weights.new session.new.held.state
        (λ machine. Tells (weights_of (request_of_unit machine id slice)) result weights.old
        weights.new) }
{
    let Some(inner) = session.take(alloc) else {
        return NO_SESSION;
    };
    let status = c_calls::unit_weights(&inner, id, slice, weights);
    session.put(inner);
    status
}

/// The bytes of a slice of the unit of the id, as the stream is now.
#[unsafe(no_mangle)]
pub extern "C" fn cupdaisy_unit_bytes(
    alloc: Global,
    session: &mut Handle,
    id: u32,
    slice: usize,
    bytes: &mut [u8],
    needed: &mut usize,
) -> u32
    ensures { AsksTwo session.old.held.state result bytes.old bytes.new needed.old needed.new
        session.new.held.state
        (λ machine. FillsFrom (request_of_unit machine id slice) result bytes.old bytes.new
        needed.old needed.new) }
{
    let Some(inner) = session.take(alloc) else {
        return NO_SESSION;
    };
    let status = c_calls::unit_bytes(&inner, id, slice, bytes, needed);
    session.put(inner);
    status
}

/// The request of a slice of the job of the number, as it was when the job was taken.
#[unsafe(no_mangle)]
pub extern "C" fn cupdaisy_job_request(
    alloc: Global,
    session: &mut Handle,
    job: u64,
    slice: usize,
    request: &mut SliceRequest,
) -> u32
    ensures { Asks session.old.held.state result request.old request.new session.new.held.state
        (λ machine. Tells (laid_out request_layout (request_of_job machine job slice)) result
        request.old request.new) }
{
    let Some(inner) = session.take(alloc) else {
        return NO_SESSION;
    };
    let status = c_calls::job_request(&inner, job, slice, request);
    session.put(inner);
    status
}

/// The weight table of a slice of the job of the number, as it was when the job was taken.
#[unsafe(no_mangle)]
pub extern "C" fn cupdaisy_job_weights(
    alloc: Global,
    session: &mut Handle,
    job: u64,
    slice: usize,
    weights: &mut PredWeightsLayout,
) -> u32
    ensures { Asks session.old.held.state result weights.old weights.new session.new.held.state
        (λ machine. Tells (weights_of (request_of_job machine job slice)) result weights.old
        weights.new) }
{
    let Some(inner) = session.take(alloc) else {
        return NO_SESSION;
    };
    let status = c_calls::job_weights(&inner, job, slice, weights);
    session.put(inner);
    status
}

/// The bytes of a slice of the job of the number, as it was when the job was taken.
#[unsafe(no_mangle)]
pub extern "C" fn cupdaisy_job_bytes(
    alloc: Global,
    session: &mut Handle,
    job: u64,
    slice: usize,
    bytes: &mut [u8],
    needed: &mut usize,
) -> u32
    ensures { AsksTwo session.old.held.state result bytes.old bytes.new needed.old needed.new
        session.new.held.state
        (λ machine. FillsFrom (request_of_job machine job slice) result bytes.old bytes.new
        needed.old needed.new) }
{
    let Some(inner) = session.take(alloc) else {
        return NO_SESSION;
    };
    let status = c_calls::job_bytes(&inner, job, slice, bytes, needed);
    session.put(inner);
    status
}
