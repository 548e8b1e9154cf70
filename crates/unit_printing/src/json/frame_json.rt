//! The request of a whole picture as a JSON object.

ghost use Rattle.std.specs.Prelude.{◌≡◌, option_map, IfOk};
ghost use Rattle.frame_requests.specs.FrameRequests.{frame_request};
ghost use Rattle.unit_printing.specs.FramesJson.{frame_json};

use frame_requests::layouts::{
    DecodeParamsLayout, FrameControlsLayout, PpsLayout, ScalingMatrixLayout, SpsLayout,
};
use frame_requests::{FrameRequest, frame_size};
use h264_controls::Request;
use serde::Serialize;
use std::alloc::AllocError;

/// A frame request: what a decoder is asked to do for a picture.
#[derive(Clone, Copy, Debug, Serialize)]
pub struct FrameJson {
    /// In nanoseconds.
    pub timestamp: u64,
    /// How many bytes the slices have, a start code of three bytes before each among them.
    pub bytes: usize,
    pub v4l2_ctrl_h264_sps: SpsLayout,
    pub v4l2_ctrl_h264_pps: PpsLayout,
    pub v4l2_ctrl_h264_scaling_matrix: ScalingMatrixLayout,
    pub v4l2_ctrl_h264_decode_params: DecodeParamsLayout,
}

impl FrameJson {
    /// The object of the picture of these slices; none of no slices.
    pub fn of(slices: &[Request]) -> Result<Option<FrameJson>, AllocError>
        ensures { IfOk result (λ object. object
            ≡ option_map (frame_json slices.now) (frame_request slices.now)) }
    {
        match FrameRequest::of(slices)? {
            Some(frame) => Ok(Some(FrameJson::of_frame(slices, &frame)?)),
            None => Ok(None),
        }
    }

    /// The object of the frame request of these slices.
    fn of_frame(slices: &[Request], frame: &FrameRequest) -> Result<FrameJson, AllocError>
        ensures { IfOk result (λ object. object ≡ frame_json slices.now frame.now) }
    {
        let bytes = frame_size(slices).ok_or(AllocError)?;
        let controls = FrameControlsLayout::of(frame);
        Ok(FrameJson {
            timestamp: frame.timestamp,
            bytes,
            v4l2_ctrl_h264_sps: controls.sps,
            v4l2_ctrl_h264_pps: controls.pps,
            v4l2_ctrl_h264_scaling_matrix: controls.scaling_matrix,
            v4l2_ctrl_h264_decode_params: controls.decode_params,
        })
    }
}
