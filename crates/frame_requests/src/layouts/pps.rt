//! struct v4l2_ctrl_h264_pps.

ghost use Rattle.std.specs.Prelude.{◌≡◌};
ghost use Rattle.param_set_controls.specs.PpsForm.{weighted_bipred_number};
ghost use Rattle.frame_requests.specs.PpsLayout.{pps_layout};

use crate::layouts::flag_names::FlagNames;
use h264_controls::V4l2CtrlH264Pps;
use h264_types::param_sets::WeightedBipred;
use serde::{Serialize, Serializer};
use std::mem::size_of;

/// struct v4l2_ctrl_h264_pps, of V4L2_CID_STATELESS_H264_PPS: 12 bytes.
#[repr(C)]
#[derive(Clone, Copy, Debug, PartialEq, Eq, Serialize)]
pub struct PpsLayout {
    pub pic_parameter_set_id: u8,
    pub seq_parameter_set_id: u8,
    pub num_slice_groups_minus1: u8,
    pub num_ref_idx_l0_default_active_minus1: u8,
    pub num_ref_idx_l1_default_active_minus1: u8,
    pub weighted_bipred_idc: u8,
    pub pic_init_qp_minus26: i8,
    pub pic_init_qs_minus26: i8,
    pub chroma_qp_index_offset: i8,
    pub second_chroma_qp_index_offset: i8,
    /// V4L2_H264_PPS_FLAG_*.
    #[serde(serialize_with = "pps_flag_names")]
    pub flags: u16,
}

const _: () = prove!(size_of::<PpsLayout>() == 12);

/// V4L2_H264_PPS_FLAG_*.
const PPS_FLAGS: [&str; 8] = [
    "V4L2_H264_PPS_FLAG_ENTROPY_CODING_MODE",
    "V4L2_H264_PPS_FLAG_BOTTOM_FIELD_PIC_ORDER_IN_FRAME_PRESENT",
    "V4L2_H264_PPS_FLAG_WEIGHTED_PRED",
    "V4L2_H264_PPS_FLAG_DEBLOCKING_FILTER_CONTROL_PRESENT",
    "V4L2_H264_PPS_FLAG_CONSTRAINED_INTRA_PRED",
    "V4L2_H264_PPS_FLAG_REDUNDANT_PIC_CNT_PRESENT",
    "V4L2_H264_PPS_FLAG_TRANSFORM_8X8_MODE",
    "V4L2_H264_PPS_FLAG_SCALING_MATRIX_PRESENT",
];

impl PpsLayout {
    /// The struct of the control.
    pub fn of(control: &V4l2CtrlH264Pps) -> PpsLayout
        ensures { result ≡ pps_layout control.now }
    {
        PpsLayout {
            pic_parameter_set_id: control.pic_parameter_set_id,
            seq_parameter_set_id: control.seq_parameter_set_id,
            num_slice_groups_minus1: control.num_slice_groups_minus1,
            num_ref_idx_l0_default_active_minus1: control.num_ref_idx_l0_default_active_minus1,
            num_ref_idx_l1_default_active_minus1: control.num_ref_idx_l1_default_active_minus1,
            weighted_bipred_idc: weighted_bipred_number(control.weighted_bipred_idc),
            pic_init_qp_minus26: control.pic_init_qp_minus26,
            pic_init_qs_minus26: control.pic_init_qs_minus26,
            chroma_qp_index_offset: control.chroma_qp_index_offset,
            second_chroma_qp_index_offset: control.second_chroma_qp_index_offset,
            flags: control.flags.number(),
        }
    }
}

fn weighted_bipred_number(weighted_bipred_idc: WeightedBipred) -> u8
    ensures { result ≡ weighted_bipred_number weighted_bipred_idc }
{
    weighted_bipred_idc as u8
}

fn pps_flag_names<S: Serializer>(flags: &u16, out: &mut S) -> Result<(), S::Error> {
    out.collect_str(&FlagNames {
        flags: u32::from(*flags),
        names: &PPS_FLAGS,
    })
}
