//! Controls of the parameter sets of small pictures.

ghost use Rattle.std.specs.Prelude.{◌≡◌, IfOk};

use crate::requests::shared;
use h264_controls::{
    PpsFlags, SetControls, SpsFlags, V4l2CtrlH264Pps, V4l2CtrlH264ScalingMatrix, V4l2CtrlH264Sps,
};
use h264_types::param_sets::{ChromaFormat, PicOrderCntType, WeightedBipred};
use std::alloc::{AllocError, Global};

/// The sequence parameter set 67 42 00 0A DA 79, but for the width; of two macroblocks it is 67 42
/// 00 0A DA 2E 40.
pub fn small_sps_control(pic_width_in_mbs_minus1: u16) -> V4l2CtrlH264Sps
    ensures { result.pic_width_in_mbs_minus1 ≡ pic_width_in_mbs_minus1 }
{
    V4l2CtrlH264Sps {
        profile_idc: 66,
        constraint_set_flags: [false; 6],
        level_idc: 10,
        seq_parameter_set_id: 0,
        chroma_format_idc: ChromaFormat::Yuv420,
        bit_depth_luma_minus8: 0,
        bit_depth_chroma_minus8: 0,
        log2_max_frame_num_minus4: 0,
        pic_order_cnt_type: PicOrderCntType::Two,
        log2_max_pic_order_cnt_lsb_minus4: 0,
        max_num_ref_frames: 1,
        num_ref_frames_in_pic_order_cnt_cycle: 0,
        offset_for_ref_frame: [0; 255],
        offset_for_non_ref_pic: 0,
        offset_for_top_to_bottom_field: 0,
        pic_width_in_mbs_minus1,
        pic_height_in_map_units_minus1: 0,
        flags: SpsFlags {
            separate_colour_plane: false,
            qpprime_y_zero_transform_bypass: false,
            delta_pic_order_always_zero: false,
            gaps_in_frame_num_value_allowed: false,
            frame_mbs_only: true,
            mb_adaptive_frame_field: false,
            direct_8x8_inference: true,
        },
    }
}

/// The picture parameter set 68 CE 38 80.
pub fn small_pps_control() -> V4l2CtrlH264Pps
    ensures { result.weighted_bipred_idc ≡ WeightedBipred.Default }
{
    V4l2CtrlH264Pps {
        pic_parameter_set_id: 0,
        seq_parameter_set_id: 0,
        num_slice_groups_minus1: 0,
        num_ref_idx_l0_default_active_minus1: 0,
        num_ref_idx_l1_default_active_minus1: 0,
        weighted_bipred_idc: WeightedBipred::Default,
        pic_init_qp_minus26: 0,
        pic_init_qs_minus26: 0,
        chroma_qp_index_offset: 0,
        second_chroma_qp_index_offset: 0,
        flags: PpsFlags {
            entropy_coding_mode: false,
            bottom_field_pic_order_in_frame_present: false,
            weighted_pred: false,
            deblocking_filter_control_present: false,
            constrained_intra_pred: false,
            redundant_pic_cnt_present: false,
            transform_8x8_mode: false,
            scaling_matrix_present: false,
        },
    }
}

/// The controls of both sets, with flat lists.
pub fn small_set_controls(
    alloc: Global,
    pic_width_in_mbs_minus1: u16,
) -> Result<SetControls, AllocError>
    ensures { IfOk result (λ sets. sets.sps.pic_width_in_mbs_minus1 ≡ pic_width_in_mbs_minus1) }
{
    Ok(SetControls {
        sps: shared(alloc, small_sps_control(pic_width_in_mbs_minus1))?,
        pps: small_pps_control(),
        scaling_matrix: V4l2CtrlH264ScalingMatrix {
            scaling_list_4x4: [[16; 16]; 6],
            scaling_list_8x8: [[16; 64]; 6],
        },
    })
}
