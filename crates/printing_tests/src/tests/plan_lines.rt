//! Whole lines of `plan --json`: each member was worked out by hand from the stream's bits, ITU-T
//! H.264 and the kernel's header `linux/v4l2-controls.h`.

use super::{joined, new_console, row_holds};
use Status::Success;
use console_io::Status;
use std::alloc::{AllocError, Global};
use std::process::Abort;
use std::test::Fail;
use std::thread::Threads;
use unit_printing::json::{DecodeMode, Json, JsonForm, plan_json_for};

/// A part of a line: a text that stands so often, with commas between.
type Part = (&'static str, usize);

/// The parts of a stream, and those of its last unit's line, in several lists.
type Row = (&'static [&'static [u8]], &'static [&'static [Part]]);

/// A sequence parameter set of one macroblock with frame_num of four bits, a picture parameter set
/// and an IDR picture.
const A: &[u8] = &[
    0, 0, 1, 0x67, 0x42, 0x00, 0x0A, 0xDA, 0x79, 0, 0, 1, 0x68, 0xCE, 0x38, 0x80, 0, 0, 1, 0x65,
    0x88, 0x84, 0x80,
];

/// A B picture of frame_num 1 that isn't a reference, predicted in direct spatial mode.
const B1: &[u8] = &[0, 0, 1, 0x01, 0x9E, 0x31, 0x80];

/// The same as A with every flag that a frame's sets can have, all lists of the scaling matrix being
/// those of table 7-2's fall-back rule A.
const FLAGGED: &[u8] = &[
    0, 0, 1, 0x67, 0x64, 0xFC, 0x0A, 0xAE, 0xAF, 0x5F, 0x20, 0, 0, 1, 0x68, 0xFF, 0x3F, 0xC0, 0x30,
    0, 0, 1, 0x65, 0x88, 0x86, 0x7F, 0x80,
];

/// A flat list of 4x4 and one of 8x8, and the default ones of tables 7-3 and 7-4 in raster order.
const FLAT4: &str = "[16,16,16,16,16,16,16,16,16,16,16,16,16,16,16,16]";

const FLAT8: &str =
    "[16,16,16,16,16,16,16,16,16,16,16,16,16,16,16,16,16,16,16,16,16,16,16,16,16,16,16,\
16,16,16,16,16,16,16,16,16,16,16,16,16,16,16,16,16,16,16,16,16,16,16,16,16,16,16,16,\
16,16,16,16,16,16,16,16,16]";

const INTRA4: &str = "[6,13,20,28,13,20,28,32,20,28,32,37,28,32,37,42]";

const INTER4: &str = "[10,14,20,24,14,20,24,27,20,24,27,30,24,27,30,34]";

const INTRA8: &str =
    "[6,10,13,16,18,23,25,27,10,11,16,18,23,25,27,29,13,16,18,23,25,27,29,31,16,18,23,25,\
27,29,31,33,18,23,25,27,29,31,33,36,23,25,27,29,31,33,36,38,25,27,29,31,33,36,38,40,\
27,29,31,33,36,38,40,42]";

const INTER8: &str =
    "[9,13,15,17,19,21,22,24,13,13,17,19,21,22,24,25,15,17,19,21,22,24,25,27,17,19,21,22,\
24,25,27,28,19,21,22,24,25,27,28,30,21,22,24,25,27,28,30,32,22,24,25,27,28,30,32,33,\
24,25,27,28,30,32,33,35]";

/// An entry of a reference list that names nothing, and one of the decoded picture buffer.
const NO_REFERENCE: &str = "{\"fields\":0,\"index\":0}";

const NO_ENTRY: &str = "{\"reference_ts\":0,\"pic_num\":0,\"frame_num\":0,\"fields\":0,\
\"top_field_order_cnt\":0,\"bottom_field_order_cnt\":0,\"flags\":\"\"}";

/// The controls of the sets of A.
const SETS_OF_A: &[Part] = &[
    (
        "\"v4l2_ctrl_h264_sps\":{\"profile_idc\":66,\"constraint_set_flags\":\"\",\
\"level_idc\":10,\"seq_parameter_set_id\":0,\"chroma_format_idc\":1,\
\"bit_depth_luma_minus8\":0,\"bit_depth_chroma_minus8\":0,\
\"log2_max_frame_num_minus4\":0,\"pic_order_cnt_type\":2,\
\"log2_max_pic_order_cnt_lsb_minus4\":0,\"max_num_ref_frames\":1,\
\"num_ref_frames_in_pic_order_cnt_cycle\":0,\"offset_for_ref_frame\":[",
        1,
    ),
    ("0", 255),
    (
        "],\"offset_for_non_ref_pic\":0,\"offset_for_top_to_bottom_field\":0,\
\"pic_width_in_mbs_minus1\":0,\"pic_height_in_map_units_minus1\":0,\
\"flags\":\"V4L2_H264_SPS_FLAG_FRAME_MBS_ONLY|\
V4L2_H264_SPS_FLAG_DIRECT_8X8_INFERENCE\"},\
\"v4l2_ctrl_h264_pps\":{\"pic_parameter_set_id\":0,\"seq_parameter_set_id\":0,\
\"num_slice_groups_minus1\":0,\"num_ref_idx_l0_default_active_minus1\":0,\
\"num_ref_idx_l1_default_active_minus1\":0,\"weighted_bipred_idc\":0,\
\"pic_init_qp_minus26\":0,\"pic_init_qs_minus26\":0,\"chroma_qp_index_offset\":0,\
\"second_chroma_qp_index_offset\":0,\"flags\":\"\"},\
\"v4l2_ctrl_h264_scaling_matrix\":{\"scaling_list_4x4\":[",
        1,
    ),
    (FLAT4, 6),
    ("],\"scaling_list_8x8\":[", 1),
    (FLAT8, 6),
    ("]},", 1),
];

/// What stands before them in the line of A, and behind them.
const HEAD_OF_A: &[Part] = &[(
    "{\"unit\":1,\"position\":0,\"begins_period\":true,\"counts\":{\"top\":0,\
\"bottom\":0},\"requests\":[{\"timestamp\":1000,\"hold_capture_buf\":false,\
\"bytes\":7,",
    1,
)];

const REST_OF_A: &[Part] = &[
    (
        "\"v4l2_ctrl_h264_slice_params\":{\"header_bit_size\":25,\"first_mb_in_slice\":0,\
\"slice_type\":2,\"colour_plane_id\":0,\"redundant_pic_cnt\":0,\"cabac_init_idc\":0,\
\"slice_qp_delta\":0,\"slice_qs_delta\":0,\"disable_deblocking_filter_idc\":0,\
\"slice_alpha_c0_offset_div2\":0,\"slice_beta_offset_div2\":0,\
\"num_ref_idx_l0_active_minus1\":0,\"num_ref_idx_l1_active_minus1\":0,\
\"ref_pic_list0\":[",
        1,
    ),
    (NO_REFERENCE, 32),
    ("],\"ref_pic_list1\":[", 1),
    (NO_REFERENCE, 32),
    (
        "],\"flags\":\"\"},\"v4l2_ctrl_h264_decode_params\":{\"dpb\":[",
        1,
    ),
    (NO_ENTRY, 16),
    (
        "],\"nal_ref_idc\":3,\"frame_num\":0,\"top_field_order_cnt\":0,\
\"bottom_field_order_cnt\":0,\"idr_pic_id\":0,\"pic_order_cnt_lsb\":0,\
\"delta_pic_order_cnt_bottom\":0,\"delta_pic_order_cnt0\":0,\
\"delta_pic_order_cnt1\":0,\"dec_ref_pic_marking_bit_size\":2,\
\"pic_order_cnt_bit_size\":0,\"slice_group_change_cycle\":0,\
\"flags\":\"V4L2_H264_DECODE_PARAM_FLAG_IDR_PIC\"}}]}\n",
        1,
    ),
];

/// What stands before and behind them in the line of the B picture.
const HEAD_OF_B1: &[Part] = &[(
    "{\"unit\":2,\"position\":1,\"begins_period\":false,\"counts\":{\"top\":1,\
\"bottom\":1},\"requests\":[{\"timestamp\":2000,\"hold_capture_buf\":false,\
\"bytes\":7,",
    1,
)];

const REST_OF_B1: &[Part] = &[
    (
        "\"v4l2_ctrl_h264_slice_params\":{\"header_bit_size\":24,\"first_mb_in_slice\":0,\
\"slice_type\":1,\"colour_plane_id\":0,\"redundant_pic_cnt\":0,\"cabac_init_idc\":0,\
\"slice_qp_delta\":0,\"slice_qs_delta\":0,\"disable_deblocking_filter_idc\":0,\
\"slice_alpha_c0_offset_div2\":0,\"slice_beta_offset_div2\":0,\
\"num_ref_idx_l0_active_minus1\":0,\"num_ref_idx_l1_active_minus1\":0,\
\"ref_pic_list0\":[{\"fields\":3,\"index\":0},",
        1,
    ),
    (NO_REFERENCE, 31),
    ("],\"ref_pic_list1\":[{\"fields\":3,\"index\":0},", 1),
    (NO_REFERENCE, 31),
    (
        "],\"flags\":\"V4L2_H264_SLICE_FLAG_DIRECT_SPATIAL_MV_PRED\"},\
\"v4l2_ctrl_h264_decode_params\":{\"dpb\":[{\"reference_ts\":1000,\"pic_num\":0,\
\"frame_num\":0,\"fields\":3,\"top_field_order_cnt\":0,\"bottom_field_order_cnt\":0,\
\"flags\":\"V4L2_H264_DPB_ENTRY_FLAG_VALID|V4L2_H264_DPB_ENTRY_FLAG_ACTIVE\"},",
        1,
    ),
    (NO_ENTRY, 15),
    (
        "],\"nal_ref_idc\":0,\"frame_num\":1,\"top_field_order_cnt\":1,\
\"bottom_field_order_cnt\":1,\"idr_pic_id\":0,\"pic_order_cnt_lsb\":0,\
\"delta_pic_order_cnt_bottom\":0,\"delta_pic_order_cnt0\":0,\
\"delta_pic_order_cnt1\":0,\"dec_ref_pic_marking_bit_size\":0,\
\"pic_order_cnt_bit_size\":0,\"slice_group_change_cycle\":0,\"flags\":\"\"}}]}\n",
        1,
    ),
];

/// The line of the picture whose sets have all flags.
const FLAGGED_LINE: &[Part] = &[
    (
        "{\"unit\":1,\"position\":0,\"begins_period\":true,\"counts\":{\"top\":0,\
\"bottom\":0},\"requests\":[{\"timestamp\":1000,\"hold_capture_buf\":false,\
\"bytes\":8,\"v4l2_ctrl_h264_sps\":{\"profile_idc\":100,\
\"constraint_set_flags\":\"V4L2_H264_SPS_CONSTRAINT_SET0_FLAG|\
V4L2_H264_SPS_CONSTRAINT_SET1_FLAG|V4L2_H264_SPS_CONSTRAINT_SET2_FLAG|\
V4L2_H264_SPS_CONSTRAINT_SET3_FLAG|V4L2_H264_SPS_CONSTRAINT_SET4_FLAG|\
V4L2_H264_SPS_CONSTRAINT_SET5_FLAG\",\"level_idc\":10,\"seq_parameter_set_id\":0,\
\"chroma_format_idc\":1,\"bit_depth_luma_minus8\":0,\"bit_depth_chroma_minus8\":0,\
\"log2_max_frame_num_minus4\":0,\"pic_order_cnt_type\":1,\
\"log2_max_pic_order_cnt_lsb_minus4\":0,\"max_num_ref_frames\":1,\
\"num_ref_frames_in_pic_order_cnt_cycle\":0,\"offset_for_ref_frame\":[",
        1,
    ),
    ("0", 255),
    (
        "],\"offset_for_non_ref_pic\":0,\"offset_for_top_to_bottom_field\":0,\
\"pic_width_in_mbs_minus1\":0,\"pic_height_in_map_units_minus1\":0,\
\"flags\":\"V4L2_H264_SPS_FLAG_QPPRIME_Y_ZERO_TRANSFORM_BYPASS|\
V4L2_H264_SPS_FLAG_DELTA_PIC_ORDER_ALWAYS_ZERO|\
V4L2_H264_SPS_FLAG_GAPS_IN_FRAME_NUM_VALUE_ALLOWED|\
V4L2_H264_SPS_FLAG_FRAME_MBS_ONLY|V4L2_H264_SPS_FLAG_DIRECT_8X8_INFERENCE\"},\
\"v4l2_ctrl_h264_pps\":{\"pic_parameter_set_id\":0,\"seq_parameter_set_id\":0,\
\"num_slice_groups_minus1\":0,\"num_ref_idx_l0_default_active_minus1\":0,\
\"num_ref_idx_l1_default_active_minus1\":0,\"weighted_bipred_idc\":0,\
\"pic_init_qp_minus26\":0,\"pic_init_qs_minus26\":0,\"chroma_qp_index_offset\":0,\
\"second_chroma_qp_index_offset\":0,\
\"flags\":\"V4L2_H264_PPS_FLAG_ENTROPY_CODING_MODE|\
V4L2_H264_PPS_FLAG_BOTTOM_FIELD_PIC_ORDER_IN_FRAME_PRESENT|\
V4L2_H264_PPS_FLAG_WEIGHTED_PRED|\
V4L2_H264_PPS_FLAG_DEBLOCKING_FILTER_CONTROL_PRESENT|\
V4L2_H264_PPS_FLAG_CONSTRAINED_INTRA_PRED|\
V4L2_H264_PPS_FLAG_REDUNDANT_PIC_CNT_PRESENT|V4L2_H264_PPS_FLAG_TRANSFORM_8X8_MODE|\
V4L2_H264_PPS_FLAG_SCALING_MATRIX_PRESENT\"},\
\"v4l2_ctrl_h264_scaling_matrix\":{\"scaling_list_4x4\":[",
        1,
    ),
    (INTRA4, 3),
    (",", 1),
    (INTER4, 3),
    ("],\"scaling_list_8x8\":[", 1),
    (INTRA8, 1),
    (",", 1),
    (INTER8, 1),
    (",", 1),
    (FLAT8, 4),
    (
        "]},\"v4l2_ctrl_h264_slice_params\":{\"header_bit_size\":29,\"first_mb_in_slice\":0,\
\"slice_type\":2,\"colour_plane_id\":0,\"redundant_pic_cnt\":0,\"cabac_init_idc\":0,\
\"slice_qp_delta\":0,\"slice_qs_delta\":0,\"disable_deblocking_filter_idc\":0,\
\"slice_alpha_c0_offset_div2\":0,\"slice_beta_offset_div2\":0,\
\"num_ref_idx_l0_active_minus1\":0,\"num_ref_idx_l1_active_minus1\":0,\
\"ref_pic_list0\":[",
        1,
    ),
    (NO_REFERENCE, 32),
    ("],\"ref_pic_list1\":[", 1),
    (NO_REFERENCE, 32),
    (
        "],\"flags\":\"\"},\"v4l2_ctrl_h264_decode_params\":{\"dpb\":[",
        1,
    ),
    (NO_ENTRY, 16),
    (
        "],\"nal_ref_idc\":3,\"frame_num\":0,\"top_field_order_cnt\":0,\
\"bottom_field_order_cnt\":0,\"idr_pic_id\":0,\"pic_order_cnt_lsb\":0,\
\"delta_pic_order_cnt_bottom\":0,\"delta_pic_order_cnt0\":0,\
\"delta_pic_order_cnt1\":0,\"dec_ref_pic_marking_bit_size\":2,\
\"pic_order_cnt_bit_size\":0,\"slice_group_change_cycle\":0,\
\"flags\":\"V4L2_H264_DECODE_PARAM_FLAG_IDR_PIC\"}}]}\n",
        1,
    ),
];

const ROWS: [Row; 3] = [
    (&[A], &[HEAD_OF_A, SETS_OF_A, REST_OF_A]),
    (&[FLAGGED], &[FLAGGED_LINE]),
    (&[A, B1], &[HEAD_OF_B1, SETS_OF_A, REST_OF_B1]),
];

/// Adds a text so often, with commas between.
fn push_times(text: &mut String, part: &str, times: usize) -> Result<(), AllocError> {
    for turn in 0..times {
        if turn > 0 {
            text.push(',')?;
        }
        text.push_str(part)?;
    }
    Ok(())
}

/// Adds the texts of parts.
fn push_parts(text: &mut String, parts: &[Part]) -> Result<(), AllocError> {
    for (part, times) in parts {
        push_times(text, *part, *times)?;
    }
    Ok(())
}

/// The text of the parts of these lists.
fn text_of(alloc: Global, lists: &[&[Part]]) -> Result<String, AllocError> {
    let mut text = String::new(alloc);
    for parts in lists {
        push_parts(&mut text, *parts)?;
    }
    Ok(text)
}

/// Whether the plan of the stream of these parts is made, and ends with this line.
fn ends_with(
    rt: &(impl Abort + AllocGlobal + Threads + Sync),
    parts: &[&[u8]],
    line: &str,
) -> Result<bool, AllocError> {
    let text = joined(rt.alloc(), parts)?;
    let mut console = new_console(rt.alloc());
    let mut reader = text.as_slice();
    let form = JsonForm {
        encoder: &Json,
        mode: DecodeMode::SliceBased,
    };
    let ended = plan_json_for(rt, rt.alloc(), form, "-", &mut reader, &mut console);
    Ok(ended.status == Success && console.output.as_slice().ends_with(line.as_bytes()))
}

#[test]
fn lines_have_every_member(rt: HostRuntime) -> Result<(), Fail> {
    for (row, (parts, line)) in ROWS.iter().enumerate() {
        let line = text_of(rt.alloc(), *line)?;
        row_holds(&rt, row, ends_with(&rt, *parts, line.as_str())?);
    }
    Ok(())
}
