//! struct v4l2_ctrl_h264_pred_weights.

ghost use Rattle.std.specs.Prelude.{◌≡◌, map};
ghost use Rattle.frame_requests.specs.PredWeightsLayout.{pred_weights_layout, weight_factors_layout};

use h264_controls::{V4l2CtrlH264PredWeights, V4l2H264WeightFactors};
use serde::Serialize;
use std::mem::size_of;

/// struct v4l2_ctrl_h264_pred_weights, of V4L2_CID_STATELESS_H264_PRED_WEIGHTS: 772 bytes.
#[repr(C)]
#[derive(Clone, Copy, Debug, PartialEq, Eq, Serialize)]
pub struct PredWeightsLayout {
    pub luma_log2_weight_denom: u16,
    pub chroma_log2_weight_denom: u16,
    pub weight_factors: [WeightFactorsLayout; 2],
}

/// struct v4l2_h264_weight_factors.
#[repr(C)]
#[derive(Clone, Copy, Debug, PartialEq, Eq, Serialize)]
pub struct WeightFactorsLayout {
    pub luma_weight: [i16; 32],
    pub luma_offset: [i16; 32],
    pub chroma_weight: [[i16; 2]; 32],
    pub chroma_offset: [[i16; 2]; 32],
}

const _: () = prove!(size_of::<PredWeightsLayout>() == 772);

impl PredWeightsLayout {
    /// The struct of the control.
    pub fn of(control: &V4l2CtrlH264PredWeights) -> PredWeightsLayout
        ensures { result ≡ pred_weights_layout control.now }
    {
        PredWeightsLayout {
            luma_log2_weight_denom: control.luma_log2_weight_denom,
            chroma_log2_weight_denom: control.chroma_log2_weight_denom,
            weight_factors: both(&control.weight_factors),
        }
    }
}

/// Those of list 0 and of list 1.
fn both(factors: &[V4l2H264WeightFactors; 2]) -> [WeightFactorsLayout; 2]
    ensures { result ≡ map weight_factors_layout factors.now }
{
    [
        WeightFactorsLayout::of(&factors[0]),
        WeightFactorsLayout::of(&factors[1]),
    ]
}

impl WeightFactorsLayout {
    fn of(factors: &V4l2H264WeightFactors) -> WeightFactorsLayout
        ensures { result ≡ weight_factors_layout factors.now }
    {
        WeightFactorsLayout {
            luma_weight: factors.luma_weight,
            luma_offset: factors.luma_offset,
            chroma_weight: factors.chroma_weight,
            chroma_offset: factors.chroma_offset,
        }
    }
}
