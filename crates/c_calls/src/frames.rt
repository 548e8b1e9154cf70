//! The requests of whole pictures, of units and of jobs.

ghost use Rattle.std.specs.Prelude.{◌≡◌, Ok, Err, IfOk, MatchResult};
ghost use Rattle.std.specs.Option.{option_map};
ghost use Rattle.frame_requests.specs.FrameBytes.{frame_bytes};
ghost use Rattle.frame_requests.specs.FrameRequests.{frame_request};
ghost use Rattle.c_calls.specs.Frames.{FillsFrame, TellsFrame, slices_in, slices_of_job, slices_of_unit, start_code_of, as_picture_request};

use crate::statuses::{
    DONE, MEMORY, NO_SUCH_JOB, NO_SUCH_SLICE, NO_SUCH_UNIT, NOT_VALID, SEVERAL_SLICES,
};
use crate::surface_session::SurfaceSession;
use crate::telling::fill;
use bytes::Bytes;
use frame_requests::layouts::{
    DecodeParamsLayout, FrameControlsLayout, PpsLayout, ScalingMatrixLayout, SpsLayout,
};
use frame_requests::{FrameRequest, StartCode, frame_bytes, frame_size};
use h264_controls::Request;
use h264_types::pictures::AuId;
use std::alloc::{AllocError, Global};
use unit_outcomes::Outcome;

/// The request of a whole picture, for a decoder that takes no slices: its four controls, ready for
/// the Request API, and what else a decoder is told.
#[repr(C)]
#[derive(Clone, Copy)]
pub struct PictureRequest {
    /// The timestamp of the unit, in nanoseconds.
    pub timestamp: u64,
    /// How many bytes the slices have together, each with a start code of three bytes.
    pub bytes: u64,
    /// How many slices the picture has.
    pub slices: u64,
    pub sps: SpsLayout,
    pub pps: PpsLayout,
    pub scaling_matrix: ScalingMatrixLayout,
    pub decode_params: DecodeParamsLayout,
}

/// The request of the picture of the unit of the id, as the stream is now.
pub fn unit_frame(session: &SurfaceSession, id: u32, frame: &mut PictureRequest) -> u32
    ensures { TellsFrame (slices_of_unit session.now id) result frame.old frame.new }
{
    match slices_of_unit(session, id) {
        Ok(slices) => tell_frame(slices, frame),
        Err(why) => why,
    }
}

/// The request of the picture of the job of the number, as it was when the job was taken.
pub fn job_frame(session: &SurfaceSession, job: u64, frame: &mut PictureRequest) -> u32
    ensures { TellsFrame (slices_of_job session.now job) result frame.old frame.new }
{
    match slices_of_job(session, job) {
        Ok(slices) => tell_frame(slices, frame),
        Err(why) => why,
    }
}

/// Tells the request of the picture of these slices.
fn tell_frame(slices: &[Request], frame: &mut PictureRequest) -> u32
    ensures { TellsFrame (Ok slices.now) result frame.old frame.new }
{
    match as_picture_request(slices) {
        Ok(Some(request)) => {
            *frame = request;
            DONE
        }
        Ok(None) => NO_SUCH_SLICE,
        Err(_) => MEMORY,
    }
}

/// The request of the picture of these slices, as it is told.
fn as_picture_request(slices: &[Request]) -> Result<Option<PictureRequest>, AllocError>
    ensures { IfOk result (λ request.
        request ≡ option_map (as_picture_request slices.now) (frame_request slices.now)) }
{
    let bytes = frame_size(slices).ok_or(AllocError)?;
    match FrameRequest::of(slices)? {
        Some(frame) => {
            let controls = FrameControlsLayout::of(&frame);
            Ok(Some(PictureRequest {
                timestamp: frame.timestamp,
                bytes: bytes as u64,
                slices: slices.len() as u64,
                sps: controls.sps,
                pps: controls.pps,
                scaling_matrix: controls.scaling_matrix,
                decode_params: controls.decode_params,
            }))
        }
        None => Ok(None),
    }
}

/// The bytes of the picture of the unit of the id: those of its slices, one after the other, each
/// after a start code of three bytes; without start codes the NAL unit of the only slice.
pub fn unit_frame_bytes(
    alloc: Global,
    session: &SurfaceSession,
    id: u32,
    start_codes: bool,
    bytes: &mut [u8],
    needed: &mut usize,
) -> u32
    ensures { FillsFrame (slices_of_unit session.now id) start_codes
        result bytes.old bytes.new needed.old needed.new }
{
    match slices_of_unit(session, id) {
        Ok(slices) => fill_frame(alloc, slices, start_codes, bytes, needed),
        Err(why) => why,
    }
}

/// The bytes of the picture of the job of the number.
pub fn job_frame_bytes(
    alloc: Global,
    session: &SurfaceSession,
    job: u64,
    start_codes: bool,
    bytes: &mut [u8],
    needed: &mut usize,
) -> u32
    ensures { FillsFrame (slices_of_job session.now job) start_codes
        result bytes.old bytes.new needed.old needed.new }
{
    match slices_of_job(session, job) {
        Ok(slices) => fill_frame(alloc, slices, start_codes, bytes, needed),
        Err(why) => why,
    }
}

/// Writes the bytes of the picture of these slices.
fn fill_frame(
    alloc: Global,
    slices: &[Request],
    start_codes: bool,
    bytes: &mut [u8],
    needed: &mut usize,
) -> u32
    ensures { FillsFrame (Ok slices.now) start_codes
        result bytes.old bytes.new needed.old needed.new }
{
    match bytes_of_frame(alloc, slices, start_codes) {
        Ok(Some(found)) => fill(found.as_slice(), bytes, needed),
        Ok(None) => SEVERAL_SLICES,
        Err(_) => MEMORY,
    }
}

/// The bytes of the picture of these slices, if it has any without start codes.
fn bytes_of_frame(
    alloc: Global,
    slices: &[Request],
    start_codes: bool,
) -> Result<Option<Bytes>, AllocError>
    ensures { IfOk result (λ bytes. bytes ≡ frame_bytes (start_code_of start_codes) slices.now) }
{
    let start_code = if start_codes {
        StartCode::AnnexB
    } else {
        StartCode::Without
    };
    frame_bytes(alloc, slices, start_code)
}

/// The requests of the slices of the unit of the id, or the status that says why there are none.
fn slices_of_unit(session: &SurfaceSession, id: u32) -> Result<&[Request], u32>
    ensures { MatchResult result
        (λ slices. slices_of_unit session.now id ≡ Ok slices.now)
        (λ why. slices_of_unit session.now id ≡ Err why) }
{
    match session.inner.outcome(AuId::new(id)) {
        Ok(Outcome::Plan(plan)) => Ok(plan.requests.as_slice()),
        Ok(Outcome::Fault(_)) | Ok(Outcome::Empty) => Err(NOT_VALID),
        Err(_) => Err(NO_SUCH_UNIT),
    }
}

/// The requests of the slices of the job of the number, or the status that says why there are none.
fn slices_of_job(session: &SurfaceSession, job: u64) -> Result<&[Request], u32>
    ensures { MatchResult result
        (λ slices. slices_of_job session.now job ≡ Ok slices.now)
        (λ why. slices_of_job session.now job ≡ Err why) }
{
    match session.inner.job_input(job) {
        Some(input) => Ok(input.requests()),
        None => Err(NO_SUCH_JOB),
    }
}
