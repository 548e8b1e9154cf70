//! The requests of units and of jobs.

ghost use Rattle.std.specs.Prelude.{◌≡◌, Some, Ok, Err, MatchResult};
ghost use Rattle.c_calls.specs.Requests.{FillsFrom, request_layout, request_of_job, request_of_unit, request_in, laid_out, weights_of};
ghost use Rattle.c_calls.specs.Telling.{Tells};

use crate::statuses::{DONE, NO_SUCH_JOB, NO_SUCH_SLICE, NO_SUCH_UNIT, NO_WEIGHTS, NOT_VALID};
use crate::surface_session::SurfaceSession;
use crate::telling::fill;
use frame_requests::layouts::{
    DecodeParamsLayout, PpsLayout, PredWeightsLayout, ScalingMatrixLayout, SliceParamsLayout,
    SpsLayout,
};
use h264_controls::Request;
use h264_types::pictures::AuId;
use unit_outcomes::Outcome;

/// The request of a slice: its controls but the weights, ready for the Request API, and what else a
/// decoder is told.
#[repr(C)]
#[derive(Clone, Copy)]
pub struct SliceRequest {
    /// The timestamp of the unit, in nanoseconds.
    pub timestamp: u64,
    /// How many bytes the slice has, with a start code of three bytes.
    pub bytes: u64,
    /// Where the NAL unit begins among the bytes: past the start code.
    pub unit_begins: u32,
    /// 1 where the capture buffer is held, as more slices of the picture follow; else 0.
    pub hold: u32,
    /// 1 where the slice has a weight table, else 0.
    pub has_weights: u32,
    pub pps: PpsLayout,
    pub sps: SpsLayout,
    pub scaling_matrix: ScalingMatrixLayout,
    pub slice_params: SliceParamsLayout,
    pub decode_params: DecodeParamsLayout,
}

impl SliceRequest {
    /// The request, as it is told.
    fn of(request: &Request) -> SliceRequest
        ensures { result ≡ request_layout request.now }
    {
        let controls = request.controls();
        SliceRequest {
            timestamp: request.timestamp,
            bytes: request.bytes().len() as u64,
            unit_begins: 3,
            hold: u32::from(request.hold),
            has_weights: u32::from(controls.pred_weights.is_some()),
            pps: PpsLayout::of(&controls.sets.pps),
            sps: SpsLayout::of(&controls.sets.sps),
            scaling_matrix: ScalingMatrixLayout::of(&controls.sets.scaling_matrix),
            slice_params: SliceParamsLayout::of(&controls.slice_params),
            decode_params: DecodeParamsLayout::of(&controls.decode_params, &request.references),
        }
    }
}

/// The request of a slice of the unit of the id, as the stream is now.
pub fn unit_request(
    session: &SurfaceSession,
    id: u32,
    slice: usize,
    request: &mut SliceRequest,
) -> u32
    ensures { Tells (laid_out request_layout (request_of_unit session.now id slice))
        result request.old request.new }
{
    match request_of_unit(session, id, slice) {
        Ok(found) => tell_request(found, request),
        Err(why) => why,
    }
}

/// The request of a slice of the job of the number, as it was when the job was taken.
pub fn job_request(
    session: &SurfaceSession,
    job: u64,
    slice: usize,
    request: &mut SliceRequest,
) -> u32
    ensures { Tells (laid_out request_layout (request_of_job session.now job slice))
        result request.old request.new }
{
    match request_of_job(session, job, slice) {
        Ok(found) => tell_request(found, request),
        Err(why) => why,
    }
}

/// Tells a request.
fn tell_request(found: &Request, request: &mut SliceRequest) -> u32
    ensures { Tells (Ok (request_layout found.now)) result request.old request.new }
{
    *request = SliceRequest::of(found);
    DONE
}

/// The weight table of a slice of the unit of the id.
pub fn unit_weights(
    session: &SurfaceSession,
    id: u32,
    slice: usize,
    weights: &mut PredWeightsLayout,
) -> u32
    ensures { Tells (weights_of (request_of_unit session.now id slice))
        result weights.old weights.new }
{
    match request_of_unit(session, id, slice) {
        Ok(found) => tell_weights(found, weights),
        Err(why) => why,
    }
}

/// The weight table of a slice of the job of the number.
pub fn job_weights(
    session: &SurfaceSession,
    job: u64,
    slice: usize,
    weights: &mut PredWeightsLayout,
) -> u32
    ensures { Tells (weights_of (request_of_job session.now job slice))
        result weights.old weights.new }
{
    match request_of_job(session, job, slice) {
        Ok(found) => tell_weights(found, weights),
        Err(why) => why,
    }
}

/// Tells the weight table of a request.
fn tell_weights(found: &Request, weights: &mut PredWeightsLayout) -> u32
    ensures { Tells (weights_of (Ok found.now)) result weights.old weights.new }
{
    match &found.controls().pred_weights {
        Some(table) => {
            *weights = PredWeightsLayout::of(table);
            DONE
        }
        None => NO_WEIGHTS,
    }
}

/// The bytes of a slice of the unit of the id: its NAL unit after a start code of three bytes.
pub fn unit_bytes(
    session: &SurfaceSession,
    id: u32,
    slice: usize,
    bytes: &mut [u8],
    needed: &mut usize,
) -> u32
    ensures { FillsFrom (request_of_unit session.now id slice)
        result bytes.old bytes.new needed.old needed.new }
{
    match request_of_unit(session, id, slice) {
        Ok(found) => fill(found.bytes().as_slice(), bytes, needed),
        Err(why) => why,
    }
}

/// The bytes of a slice of the job of the number.
pub fn job_bytes(
    session: &SurfaceSession,
    job: u64,
    slice: usize,
    bytes: &mut [u8],
    needed: &mut usize,
) -> u32
    ensures { FillsFrom (request_of_job session.now job slice)
        result bytes.old bytes.new needed.old needed.new }
{
    match request_of_job(session, job, slice) {
        Ok(found) => fill(found.bytes().as_slice(), bytes, needed),
        Err(why) => why,
    }
}

/// The request of a slice of the unit of the id, or the status that says why there is none.
fn request_of_unit(session: &SurfaceSession, id: u32, slice: usize) -> Result<&Request, u32>
    ensures { MatchResult result
        (λ request. request_of_unit session.now id slice ≡ Ok request.now)
        (λ why. request_of_unit session.now id slice ≡ Err why) }
{
    match session.inner.outcome(AuId::new(id)) {
        Ok(outcome) => request_in(outcome, slice),
        Err(_) => Err(NO_SUCH_UNIT),
    }
}

/// The request of a slice of a unit's outcome.
fn request_in(outcome: &Outcome, slice: usize) -> Result<&Request, u32>
    ensures { MatchResult result
        (λ request. request_in (Some outcome.now) slice ≡ Ok request.now)
        (λ why. request_in (Some outcome.now) slice ≡ Err why) }
{
    match outcome {
        Outcome::Plan(plan) => match plan.requests.as_slice().get(slice) {
            Some(request) => Ok(request),
            None => Err(NO_SUCH_SLICE),
        },
        Outcome::Fault(_) => Err(NOT_VALID),
        Outcome::Empty => Err(NOT_VALID),
    }
}

/// The request of a slice of the job of the number, or the status that says why there is none.
fn request_of_job(session: &SurfaceSession, job: u64, slice: usize) -> Result<&Request, u32>
    ensures { MatchResult result
        (λ request. request_of_job session.now job slice ≡ Ok request.now)
        (λ why. request_of_job session.now job slice ≡ Err why) }
{
    match session.inner.job_input(job) {
        Some(input) => match input.requests().get(slice) {
            Some(request) => Ok(request),
            None => Err(NO_SUCH_SLICE),
        },
        None => Err(NO_SUCH_JOB),
    }
}
