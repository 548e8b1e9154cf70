//! The controls of a whole picture.

ghost use Rattle.std.specs.Prelude.{◌≡◌};
ghost use Rattle.frame_requests.specs.FrameControlsLayout.{frame_controls_layout, frame_decode_params};

use crate::FrameRequest;
use crate::layouts::decode_params::DecodeParamsLayout;
use crate::layouts::pps::PpsLayout;
use crate::layouts::scaling_matrix::ScalingMatrixLayout;
use crate::layouts::sps::SpsLayout;
use std::mem::size_of;

/// The four controls of a picture's frame request: 2,104 bytes, with four of no meaning before the
/// last one.
#[repr(C)]
#[derive(Clone, Copy, Debug, PartialEq, Eq)]
pub struct FrameControlsLayout {
    pub sps: SpsLayout,
    pub pps: PpsLayout,
    pub scaling_matrix: ScalingMatrixLayout,
    pub decode_params: DecodeParamsLayout,
}

const _: () = prove!(size_of::<FrameControlsLayout>() == 2104);

impl FrameControlsLayout {
    /// The structs of the request's controls.
    pub fn of(frame: &FrameRequest) -> FrameControlsLayout
        ensures { result ≡ frame_controls_layout frame.now }
    {
        FrameControlsLayout {
            sps: SpsLayout::of(&frame.sets.sps),
            pps: PpsLayout::of(&frame.sets.pps),
            scaling_matrix: ScalingMatrixLayout::of(&frame.sets.scaling_matrix),
            decode_params: decode_params(frame),
        }
    }
}

/// The decode parameters of the first slice, with the picture's flags.
fn decode_params(frame: &FrameRequest) -> DecodeParamsLayout
    ensures { result ≡ frame_decode_params frame.now }
{
    DecodeParamsLayout {
        flags: frame.flags.number(),
        ..DecodeParamsLayout::of(&frame.decode_params, &frame.references)
    }
}
