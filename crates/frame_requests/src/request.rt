//! What a decoder that takes whole pictures is asked for.

ghost use Rattle.std.specs.Prelude.{◌≡◌, IfOk};
ghost use Rattle.frame_requests.specs.FrameRequests.{frame_of, frame_request};

use crate::flags::FrameFlags;
use h264_controls::{References, Request, SetControls, V4l2CtrlH264DecodeParams};
use h264_types::base::Shared;
use std::alloc::AllocError;

/// The request of a picture: three controls of its parameter sets, and its decode parameters. There
/// are no slice parameters, no weights, and nothing is held. Its bytes are `frame_bytes` of the
/// slices' requests.
#[derive(Debug)]
pub struct FrameRequest {
    /// The timestamp of the unit, in nanoseconds.
    pub timestamp: u64,
    /// The units of the frames of the decoded picture buffer.
    pub references: Shared<References>,
    /// SPS, PPS and scaling matrix of the first slice.
    pub sets: Shared<SetControls>,
    /// The decode parameters of the first slice, but for their flags.
    pub decode_params: Shared<V4l2CtrlH264DecodeParams>,
    /// The flags of the decode parameters.
    pub flags: FrameFlags,
}

// By hand, so that whoever drops one is proved over one call.
impl Drop for FrameRequest {
    fn drop(self) {
        let FrameRequest {
            timestamp: _,
            references: _,
            sets: _,
            decode_params: _,
            flags: _,
        } = self;
    }
}

impl FrameRequest {
    /// The request of the picture of these slices; none of no slices. It shares all of the first
    /// slice's request that it has.
    pub fn of(slices: &[Request]) -> Result<Option<FrameRequest>, AllocError>
        ensures { IfOk result (λ frame. frame ≡ frame_request slices.now) }
    {
        match slices.first() {
            Some(first) => Ok(Some(FrameRequest::from_first(slices, first)?)),
            None => Ok(None),
        }
    }

    fn from_first(slices: &[Request], first: &Request) -> Result<FrameRequest, AllocError>
        ensures { IfOk result (λ frame. frame ≡ frame_of slices.now first.now) }
    {
        Ok(FrameRequest {
            timestamp: first.timestamp,
            references: first.references.clone()?,
            sets: first.controls().sets.clone()?,
            decode_params: first.controls().decode_params.clone()?,
            flags: FrameFlags::of(slices, first),
        })
    }
}
