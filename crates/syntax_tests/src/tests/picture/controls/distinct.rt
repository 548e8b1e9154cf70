//! Controls with a value of its own in each member.

use h264_controls::{
    Controls, DecodeFlags, Dpb, DpbEntryFlags, PpsFlags, RefPicList, SetControls, SliceFlags,
    SpsFlags, V4l2CtrlH264DecodeParams, V4l2CtrlH264Pps, V4l2CtrlH264PredWeights,
    V4l2CtrlH264ScalingMatrix, V4l2CtrlH264SliceParams, V4l2CtrlH264Sps, V4l2H264DpbEntry,
    V4l2H264FieldReference, V4l2H264WeightFactors,
};
use h264_types::param_sets::{ChromaFormat, PicOrderCntType, WeightedBipred};
use h264_types::slice_headers::SliceType;
use std::alloc::{AllocError, Global};
use test_builders::{controls_of, list_of, shared};

fn sps() -> V4l2CtrlH264Sps {
    let mut offset_for_ref_frame = [0; 255];
    offset_for_ref_frame[0] = -2;
    offset_for_ref_frame[1] = 0x0102_0304;
    offset_for_ref_frame[254] = 5;
    V4l2CtrlH264Sps {
        profile_idc: 100,
        constraint_set_flags: [false, true, false, false, true, false],
        level_idc: 31,
        seq_parameter_set_id: 5,
        chroma_format_idc: ChromaFormat::Yuv422,
        bit_depth_luma_minus8: 3,
        bit_depth_chroma_minus8: 4,
        log2_max_frame_num_minus4: 6,
        pic_order_cnt_type: PicOrderCntType::One,
        log2_max_pic_order_cnt_lsb_minus4: 7,
        max_num_ref_frames: 8,
        num_ref_frames_in_pic_order_cnt_cycle: 255,
        offset_for_ref_frame,
        offset_for_non_ref_pic: -300,
        offset_for_top_to_bottom_field: i32::MIN,
        pic_width_in_mbs_minus1: 0x1234,
        pic_height_in_map_units_minus1: 0xABCD,
        flags: SpsFlags {
            separate_colour_plane: false,
            qpprime_y_zero_transform_bypass: true,
            delta_pic_order_always_zero: false,
            gaps_in_frame_num_value_allowed: true,
            frame_mbs_only: false,
            mb_adaptive_frame_field: false,
            direct_8x8_inference: true,
        },
    }
}

fn pps() -> V4l2CtrlH264Pps {
    V4l2CtrlH264Pps {
        pic_parameter_set_id: 0xF1,
        seq_parameter_set_id: 0x12,
        num_slice_groups_minus1: 7,
        num_ref_idx_l0_default_active_minus1: 11,
        num_ref_idx_l1_default_active_minus1: 29,
        weighted_bipred_idc: WeightedBipred::Implicit,
        pic_init_qp_minus26: -26,
        pic_init_qs_minus26: 25,
        chroma_qp_index_offset: -12,
        second_chroma_qp_index_offset: 12,
        flags: PpsFlags {
            entropy_coding_mode: true,
            bottom_field_pic_order_in_frame_present: false,
            weighted_pred: true,
            deblocking_filter_control_present: false,
            constrained_intra_pred: false,
            redundant_pic_cnt_present: false,
            transform_8x8_mode: false,
            scaling_matrix_present: true,
        },
    }
}

fn scaling_matrix() -> V4l2CtrlH264ScalingMatrix {
    let rising = [
        32, 33, 34, 35, 36, 37, 38, 39, 40, 41, 42, 43, 44, 45, 46, 47,
    ];
    V4l2CtrlH264ScalingMatrix {
        scaling_list_4x4: [rising, [2; 16], [3; 16], [4; 16], [5; 16], [6; 16]],
        scaling_list_8x8: [[7; 64], [8; 64], [9; 64], [10; 64], [11; 64], [12; 64]],
    }
}

pub(super) fn pred_weights() -> V4l2CtrlH264PredWeights {
    let mut luma_weight = [1; 32];
    luma_weight[0] = -128;
    let mut luma_offset = [2; 32];
    luma_offset[31] = -3;
    let list_0 = V4l2H264WeightFactors {
        luma_weight,
        luma_offset,
        chroma_weight: [[4, 5]; 32],
        chroma_offset: [[6, -7]; 32],
    };
    let list_1 = V4l2H264WeightFactors {
        luma_weight: [8; 32],
        luma_offset: [9; 32],
        chroma_weight: [[10, 11]; 32],
        chroma_offset: [[12, 0x0D0E]; 32],
    };
    V4l2CtrlH264PredWeights {
        luma_log2_weight_denom: 5,
        chroma_log2_weight_denom: 6,
        weight_factors: [list_0, list_1],
    }
}

/// List 0 has the frames 1 and 0 and a missing entry, list 1 the frame 0.
fn slice_params(alloc: Global) -> Result<V4l2CtrlH264SliceParams, AllocError> {
    let ref_pic_list0 = RefPicList::of(alloc, &list_of(&[Some(1), Some(0), None]))?;
    let ref_pic_list1 = RefPicList::of(alloc, &list_of(&[Some(0)]))?;
    Ok(V4l2CtrlH264SliceParams {
        header_bit_size: 0x0102_0304,
        first_mb_in_slice: 0x0A0B_0C0D,
        slice_type: SliceType::B,
        colour_plane_id: 2,
        redundant_pic_cnt: 3,
        cabac_init_idc: 4,
        slice_qp_delta: -5,
        slice_qs_delta: 6,
        disable_deblocking_filter_idc: 7,
        slice_alpha_c0_offset_div2: -6,
        slice_beta_offset_div2: 8,
        num_ref_idx_l0_active_minus1: 9,
        num_ref_idx_l1_active_minus1: 10,
        ref_pic_list0,
        ref_pic_list1,
        flags: SliceFlags {
            direct_spatial_mv_pred: true,
            sp_for_switch: false,
        },
    })
}

fn dpb(alloc: Global) -> Result<Dpb, AllocError> {
    let short_term = V4l2H264DpbEntry {
        pic_num: 0xFFFF_FFFD,
        frame_num: 0x0D0E,
        fields: V4l2H264FieldReference::Frame,
        top_field_order_cnt: -1,
        bottom_field_order_cnt: 258,
        flags: DpbEntryFlags {
            valid: true,
            active: true,
            long_term: false,
        },
    };
    let long_term = V4l2H264DpbEntry {
        pic_num: 7,
        frame_num: 15,
        fields: V4l2H264FieldReference::BottomField,
        top_field_order_cnt: 16,
        bottom_field_order_cnt: -17,
        flags: DpbEntryFlags {
            valid: true,
            active: true,
            long_term: true,
        },
    };
    let mut dpb = Dpb::with_capacity(alloc, 2)?;
    dpb.push(short_term)?;
    dpb.push(long_term)?;
    Ok(dpb)
}

fn decode_params(alloc: Global) -> Result<V4l2CtrlH264DecodeParams, AllocError> {
    Ok(V4l2CtrlH264DecodeParams {
        dpb: dpb(alloc)?,
        nal_ref_idc: 2,
        frame_num: 0x1112,
        top_field_order_cnt: 19,
        bottom_field_order_cnt: -20,
        idr_pic_id: 0x1516,
        pic_order_cnt_lsb: 0x1718,
        delta_pic_order_cnt_bottom: -25,
        delta_pic_order_cnt0: 26,
        delta_pic_order_cnt1: 27,
        dec_ref_pic_marking_bit_size: 28,
        pic_order_cnt_bit_size: 29,
        slice_group_change_cycle: 30,
        flags: DecodeFlags { idr_pic: true },
    })
}

fn set_controls(alloc: Global) -> Result<SetControls, AllocError> {
    Ok(SetControls {
        sps: shared(alloc, sps())?,
        pps: pps(),
        scaling_matrix: scaling_matrix(),
    })
}

pub(super) fn distinct_controls(alloc: Global) -> Result<Controls, AllocError> {
    let sets = set_controls(alloc)?;
    let slice_params = slice_params(alloc)?;
    let decode_params = decode_params(alloc)?;
    controls_of(
        alloc,
        sets,
        Some(pred_weights()),
        slice_params,
        decode_params,
    )
}
