//! Parameter sets of small pictures.

ghost use Rattle.std.specs.Prelude.{◌≡◌, [], false};

use h264_types::base::AtMost;
use h264_types::param_sets::{
    ChromaFormat, Offsets, PicOrderCntType, Pps, ScalingLists, Sps, WeightedBipred,
};
use std::alloc::Global;

/// The sequence parameter set 67 42 00 0A DA 79: one macroblock, MaxFrameNum 16, count type 2, one
/// reference frame.
pub fn small_sps(alloc: Global) -> Sps
    ensures frames { result.max_num_ref_frames ≡ 1 }
    ensures order { result.pic_order_cnt_type ≡ PicOrderCntType.Two }
{
    Sps {
        profile_idc: 66,
        constraint_set_flags: [false; 6],
        level_idc: 10,
        seq_parameter_set_id: AtMost::new(0),
        chroma_format_idc: ChromaFormat::Yuv420,
        bit_depth_luma_minus8: AtMost::new(0),
        bit_depth_chroma_minus8: AtMost::new(0),
        qpprime_y_zero_transform_bypass_flag: false,
        seq_scaling_matrix_present_flag: false,
        scaling_lists: ScalingLists::new(alloc),
        log2_max_frame_num_minus4: AtMost::new(0),
        pic_order_cnt_type: PicOrderCntType::Two,
        log2_max_pic_order_cnt_lsb_minus4: AtMost::new(0),
        delta_pic_order_always_zero_flag: false,
        offset_for_non_ref_pic: 0,
        offset_for_top_to_bottom_field: 0,
        num_ref_frames_in_pic_order_cnt_cycle: 0,
        offset_for_ref_frame: Offsets::new(alloc),
        max_num_ref_frames: AtMost::new(1),
        gaps_in_frame_num_value_allowed_flag: false,
        pic_width_in_mbs_minus1: 0,
        pic_height_in_map_units_minus1: 0,
        direct_8x8_inference_flag: true,
    }
}

/// The picture parameter set 68 CE 38 80: no flag set, each number 0.
pub fn small_pps(alloc: Global) -> Pps
    ensures { result.weighted_pred_flag ≡ false }
{
    Pps {
        pic_parameter_set_id: 0,
        seq_parameter_set_id: AtMost::new(0),
        entropy_coding_mode_flag: false,
        bottom_field_pic_order_in_frame_present_flag: false,
        num_ref_idx_l0_default_active_minus1: AtMost::new(0),
        num_ref_idx_l1_default_active_minus1: AtMost::new(0),
        weighted_pred_flag: false,
        weighted_bipred_idc: WeightedBipred::Default,
        pic_init_qp_minus26: 0,
        pic_init_qs_minus26: 0,
        chroma_qp_index_offset: 0,
        deblocking_filter_control_present_flag: false,
        constrained_intra_pred_flag: false,
        redundant_pic_cnt_present_flag: false,
        transform_8x8_mode_flag: false,
        pic_scaling_matrix_present_flag: false,
        scaling_lists: ScalingLists::new(alloc),
        second_chroma_qp_index_offset: 0,
    }
}
