//! struct v4l2_ctrl_h264_scaling_matrix.

ghost use Rattle.std.specs.Prelude.{◌≡◌};
ghost use Rattle.frame_requests.specs.ScalingMatrixLayout.{scaling_matrix_layout};

use h264_controls::V4l2CtrlH264ScalingMatrix;
use serde::Serialize;
use std::mem::size_of;

/// struct v4l2_ctrl_h264_scaling_matrix, of V4L2_CID_STATELESS_H264_SCALING_MATRIX: 480 bytes.
#[repr(C)]
#[derive(Clone, Copy, Debug, PartialEq, Eq, Serialize)]
pub struct ScalingMatrixLayout {
    pub scaling_list_4x4: [[u8; 16]; 6],
    pub scaling_list_8x8: [[u8; 64]; 6],
}

const _: () = prove!(size_of::<ScalingMatrixLayout>() == 480);

impl ScalingMatrixLayout {
    /// The struct of the control.
    pub fn of(control: &V4l2CtrlH264ScalingMatrix) -> ScalingMatrixLayout
        ensures { result ≡ scaling_matrix_layout control.now }
    {
        ScalingMatrixLayout {
            scaling_list_4x4: control.scaling_list_4x4,
            scaling_list_8x8: control.scaling_list_8x8,
        }
    }
}
