//! What a job is told with: each member was worked out by hand from the stream's bits, ITU-T H.264,
//! the kernel's header `linux/v4l2-controls.h` and the definition of a picture.

use super::{Row, answers_so};

/// An IDR picture, a P picture, and a P picture of two entries whose list names the later frame
/// first, while the references stand in the order of the decoded picture buffer.
const TAKEN: [Row; 7] = [
    Row {
        message: "{\"jsonrpc\":\"2.0\",\"id\":1,\"method\":\"load\",\"params\":{\"bytes\":\"AAABZ0IACtt5AAABaM44gAAAAWWIhIAAAAFBmiMAAAFBmlRg\"}}",
        lines: "{\"jsonrpc\":\"2.0\",\"id\":1,\"result\":{\"units\":3,\"first\":1,\"last\":3,\"changed\":{\"from\":0,\"count\":3}}}\n",
    },
    Row {
        message: "{\"jsonrpc\":\"2.0\",\"method\":\"take\"}",
        lines: "",
    },
    Row {
        message: "{\"jsonrpc\":\"2.0\",\"id\":3,\"method\":\"land\",\"params\":{\"job\":1}}",
        lines: "{\"jsonrpc\":\"2.0\",\"id\":3,\"result\":\"taken\"}\n",
    },
    Row {
        message: "{\"jsonrpc\":\"2.0\",\"method\":\"take\"}",
        lines: "",
    },
    Row {
        message: "{\"jsonrpc\":\"2.0\",\"id\":5,\"method\":\"land\",\"params\":{\"job\":2}}",
        lines: "{\"jsonrpc\":\"2.0\",\"id\":5,\"result\":\"taken\"}\n",
    },
    Row {
        message: "{\"jsonrpc\":\"2.0\",\"id\":7,\"method\":\"take\"}",
        lines: TOLD,
    },
    Row {
        message: "{\"jsonrpc\":\"2.0\",\"id\":8,\"method\":\"take\"}",
        lines: "{\"jsonrpc\":\"2.0\",\"id\":8,\"result\":null}\n",
    },
];

/// The job of the last picture.
const TOLD: &str = "{\"jsonrpc\":\"2.0\",\"id\":7,\"result\":{\"job\":3,\"unit\":3,\
\"requests\":[{\"timestamp\":3000,\"hold_capture_buf\":false,\"bytes\":7,\
\"v4l2_ctrl_h264_sps\":{\"profile_idc\":66,\"constraint_set_flags\":\"\",\"level_idc\":10,\
\"seq_parameter_set_id\":0,\"chroma_format_idc\":1,\"bit_depth_luma_minus8\":0,\
\"bit_depth_chroma_minus8\":0,\"log2_max_frame_num_minus4\":0,\"pic_order_cnt_type\":2,\
\"log2_max_pic_order_cnt_lsb_minus4\":0,\"max_num_ref_frames\":2,\
\"num_ref_frames_in_pic_order_cnt_cycle\":0,\"offset_for_ref_frame\":[0,0,0,0,0,0,0,0,0,0,0,0,\
0,0,0,0,0,0,0,0,0,0,0,0,0,0,0,0,0,0,0,0,0,0,0,0,0,0,0,0,0,0,0,0,0,0,0,0,0,0,0,0,0,0,0,0,0,0,0,\
0,0,0,0,0,0,0,0,0,0,0,0,0,0,0,0,0,0,0,0,0,0,0,0,0,0,0,0,0,0,0,0,0,0,0,0,0,0,0,0,0,0,0,0,0,0,0,\
0,0,0,0,0,0,0,0,0,0,0,0,0,0,0,0,0,0,0,0,0,0,0,0,0,0,0,0,0,0,0,0,0,0,0,0,0,0,0,0,0,0,0,0,0,0,0,\
0,0,0,0,0,0,0,0,0,0,0,0,0,0,0,0,0,0,0,0,0,0,0,0,0,0,0,0,0,0,0,0,0,0,0,0,0,0,0,0,0,0,0,0,0,0,0,\
0,0,0,0,0,0,0,0,0,0,0,0,0,0,0,0,0,0,0,0,0,0,0,0,0,0,0,0,0,0,0,0,0,0,0,0,0,0,0,0,0,0,0,0,0,0,0,\
0,0,0,0,0,0,0,0],\"offset_for_non_ref_pic\":0,\"offset_for_top_to_bottom_field\":0,\
\"pic_width_in_mbs_minus1\":0,\"pic_height_in_map_units_minus1\":0,\
\"flags\":\"V4L2_H264_SPS_FLAG_FRAME_MBS_ONLY|V4L2_H264_SPS_FLAG_DIRECT_8X8_INFERENCE\"},\
\"v4l2_ctrl_h264_pps\":{\"pic_parameter_set_id\":0,\"seq_parameter_set_id\":0,\
\"num_slice_groups_minus1\":0,\"num_ref_idx_l0_default_active_minus1\":0,\
\"num_ref_idx_l1_default_active_minus1\":0,\"weighted_bipred_idc\":0,\
\"pic_init_qp_minus26\":0,\"pic_init_qs_minus26\":0,\"chroma_qp_index_offset\":0,\
\"second_chroma_qp_index_offset\":0,\"flags\":\"\"},\
\"v4l2_ctrl_h264_scaling_matrix\":{\"scaling_list_4x4\":[[16,16,16,16,16,16,16,16,16,16,16,16,\
16,16,16,16],[16,16,16,16,16,16,16,16,16,16,16,16,16,16,16,16],[16,16,16,16,16,16,16,16,16,16,\
16,16,16,16,16,16],[16,16,16,16,16,16,16,16,16,16,16,16,16,16,16,16],[16,16,16,16,16,16,16,16,\
16,16,16,16,16,16,16,16],[16,16,16,16,16,16,16,16,16,16,16,16,16,16,16,16]],\
\"scaling_list_8x8\":[[16,16,16,16,16,16,16,16,16,16,16,16,16,16,16,16,16,16,16,16,16,16,16,\
16,16,16,16,16,16,16,16,16,16,16,16,16,16,16,16,16,16,16,16,16,16,16,16,16,16,16,16,16,16,16,\
16,16,16,16,16,16,16,16,16,16],[16,16,16,16,16,16,16,16,16,16,16,16,16,16,16,16,16,16,16,16,\
16,16,16,16,16,16,16,16,16,16,16,16,16,16,16,16,16,16,16,16,16,16,16,16,16,16,16,16,16,16,16,\
16,16,16,16,16,16,16,16,16,16,16,16,16],[16,16,16,16,16,16,16,16,16,16,16,16,16,16,16,16,16,\
16,16,16,16,16,16,16,16,16,16,16,16,16,16,16,16,16,16,16,16,16,16,16,16,16,16,16,16,16,16,16,\
16,16,16,16,16,16,16,16,16,16,16,16,16,16,16,16],[16,16,16,16,16,16,16,16,16,16,16,16,16,16,\
16,16,16,16,16,16,16,16,16,16,16,16,16,16,16,16,16,16,16,16,16,16,16,16,16,16,16,16,16,16,16,\
16,16,16,16,16,16,16,16,16,16,16,16,16,16,16,16,16,16,16],[16,16,16,16,16,16,16,16,16,16,16,\
16,16,16,16,16,16,16,16,16,16,16,16,16,16,16,16,16,16,16,16,16,16,16,16,16,16,16,16,16,16,16,\
16,16,16,16,16,16,16,16,16,16,16,16,16,16,16,16,16,16,16,16,16,16],[16,16,16,16,16,16,16,16,\
16,16,16,16,16,16,16,16,16,16,16,16,16,16,16,16,16,16,16,16,16,16,16,16,16,16,16,16,16,16,16,\
16,16,16,16,16,16,16,16,16,16,16,16,16,16,16,16,16,16,16,16,16,16,16,16,16]]},\
\"v4l2_ctrl_h264_slice_params\":{\"header_bit_size\":26,\"first_mb_in_slice\":0,\
\"slice_type\":0,\"colour_plane_id\":0,\"redundant_pic_cnt\":0,\"cabac_init_idc\":0,\
\"slice_qp_delta\":0,\"slice_qs_delta\":0,\"disable_deblocking_filter_idc\":0,\
\"slice_alpha_c0_offset_div2\":0,\"slice_beta_offset_div2\":0,\
\"num_ref_idx_l0_active_minus1\":1,\"num_ref_idx_l1_active_minus1\":0,\
\"ref_pic_list0\":[{\"fields\":3,\"index\":1},{\"fields\":3,\"index\":0},{\"fields\":0,\
\"index\":0},{\"fields\":0,\"index\":0},{\"fields\":0,\"index\":0},{\"fields\":0,\"index\":0},\
{\"fields\":0,\"index\":0},{\"fields\":0,\"index\":0},{\"fields\":0,\"index\":0},\
{\"fields\":0,\"index\":0},{\"fields\":0,\"index\":0},{\"fields\":0,\"index\":0},\
{\"fields\":0,\"index\":0},{\"fields\":0,\"index\":0},{\"fields\":0,\"index\":0},\
{\"fields\":0,\"index\":0},{\"fields\":0,\"index\":0},{\"fields\":0,\"index\":0},\
{\"fields\":0,\"index\":0},{\"fields\":0,\"index\":0},{\"fields\":0,\"index\":0},\
{\"fields\":0,\"index\":0},{\"fields\":0,\"index\":0},{\"fields\":0,\"index\":0},\
{\"fields\":0,\"index\":0},{\"fields\":0,\"index\":0},{\"fields\":0,\"index\":0},\
{\"fields\":0,\"index\":0},{\"fields\":0,\"index\":0},{\"fields\":0,\"index\":0},\
{\"fields\":0,\"index\":0},{\"fields\":0,\"index\":0}],\"ref_pic_list1\":[{\"fields\":0,\
\"index\":0},{\"fields\":0,\"index\":0},{\"fields\":0,\"index\":0},{\"fields\":0,\"index\":0},\
{\"fields\":0,\"index\":0},{\"fields\":0,\"index\":0},{\"fields\":0,\"index\":0},\
{\"fields\":0,\"index\":0},{\"fields\":0,\"index\":0},{\"fields\":0,\"index\":0},\
{\"fields\":0,\"index\":0},{\"fields\":0,\"index\":0},{\"fields\":0,\"index\":0},\
{\"fields\":0,\"index\":0},{\"fields\":0,\"index\":0},{\"fields\":0,\"index\":0},\
{\"fields\":0,\"index\":0},{\"fields\":0,\"index\":0},{\"fields\":0,\"index\":0},\
{\"fields\":0,\"index\":0},{\"fields\":0,\"index\":0},{\"fields\":0,\"index\":0},\
{\"fields\":0,\"index\":0},{\"fields\":0,\"index\":0},{\"fields\":0,\"index\":0},\
{\"fields\":0,\"index\":0},{\"fields\":0,\"index\":0},{\"fields\":0,\"index\":0},\
{\"fields\":0,\"index\":0},{\"fields\":0,\"index\":0},{\"fields\":0,\"index\":0},\
{\"fields\":0,\"index\":0}],\"flags\":\"\"},\
\"v4l2_ctrl_h264_decode_params\":{\"dpb\":[{\"reference_ts\":1000,\"pic_num\":0,\
\"frame_num\":0,\"fields\":3,\"top_field_order_cnt\":0,\"bottom_field_order_cnt\":0,\
\"flags\":\"V4L2_H264_DPB_ENTRY_FLAG_VALID|V4L2_H264_DPB_ENTRY_FLAG_ACTIVE\"},\
{\"reference_ts\":2000,\"pic_num\":1,\"frame_num\":1,\"fields\":3,\"top_field_order_cnt\":2,\
\"bottom_field_order_cnt\":2,\"flags\":\"V4L2_H264_DPB_ENTRY_FLAG_VALID|\
V4L2_H264_DPB_ENTRY_FLAG_ACTIVE\"},{\"reference_ts\":0,\"pic_num\":0,\"frame_num\":0,\
\"fields\":0,\"top_field_order_cnt\":0,\"bottom_field_order_cnt\":0,\"flags\":\"\"},\
{\"reference_ts\":0,\"pic_num\":0,\"frame_num\":0,\"fields\":0,\"top_field_order_cnt\":0,\
\"bottom_field_order_cnt\":0,\"flags\":\"\"},{\"reference_ts\":0,\"pic_num\":0,\
\"frame_num\":0,\"fields\":0,\"top_field_order_cnt\":0,\"bottom_field_order_cnt\":0,\
\"flags\":\"\"},{\"reference_ts\":0,\"pic_num\":0,\"frame_num\":0,\"fields\":0,\
\"top_field_order_cnt\":0,\"bottom_field_order_cnt\":0,\"flags\":\"\"},{\"reference_ts\":0,\
\"pic_num\":0,\"frame_num\":0,\"fields\":0,\"top_field_order_cnt\":0,\
\"bottom_field_order_cnt\":0,\"flags\":\"\"},{\"reference_ts\":0,\"pic_num\":0,\
\"frame_num\":0,\"fields\":0,\"top_field_order_cnt\":0,\"bottom_field_order_cnt\":0,\
\"flags\":\"\"},{\"reference_ts\":0,\"pic_num\":0,\"frame_num\":0,\"fields\":0,\
\"top_field_order_cnt\":0,\"bottom_field_order_cnt\":0,\"flags\":\"\"},{\"reference_ts\":0,\
\"pic_num\":0,\"frame_num\":0,\"fields\":0,\"top_field_order_cnt\":0,\
\"bottom_field_order_cnt\":0,\"flags\":\"\"},{\"reference_ts\":0,\"pic_num\":0,\
\"frame_num\":0,\"fields\":0,\"top_field_order_cnt\":0,\"bottom_field_order_cnt\":0,\
\"flags\":\"\"},{\"reference_ts\":0,\"pic_num\":0,\"frame_num\":0,\"fields\":0,\
\"top_field_order_cnt\":0,\"bottom_field_order_cnt\":0,\"flags\":\"\"},{\"reference_ts\":0,\
\"pic_num\":0,\"frame_num\":0,\"fields\":0,\"top_field_order_cnt\":0,\
\"bottom_field_order_cnt\":0,\"flags\":\"\"},{\"reference_ts\":0,\"pic_num\":0,\
\"frame_num\":0,\"fields\":0,\"top_field_order_cnt\":0,\"bottom_field_order_cnt\":0,\
\"flags\":\"\"},{\"reference_ts\":0,\"pic_num\":0,\"frame_num\":0,\"fields\":0,\
\"top_field_order_cnt\":0,\"bottom_field_order_cnt\":0,\"flags\":\"\"},{\"reference_ts\":0,\
\"pic_num\":0,\"frame_num\":0,\"fields\":0,\"top_field_order_cnt\":0,\
\"bottom_field_order_cnt\":0,\"flags\":\"\"}],\"nal_ref_idc\":2,\"frame_num\":2,\
\"top_field_order_cnt\":4,\"bottom_field_order_cnt\":4,\"idr_pic_id\":0,\
\"pic_order_cnt_lsb\":0,\"delta_pic_order_cnt_bottom\":0,\"delta_pic_order_cnt0\":0,\
\"delta_pic_order_cnt1\":0,\"dec_ref_pic_marking_bit_size\":1,\"pic_order_cnt_bit_size\":0,\
\"slice_group_change_cycle\":0,\"flags\":\"\"},\"data\":\"AAABQZpUYA==\"}],\
\"references\":[{\"timestamp\":1000,\
\"picture\":\"0dcebbce668685719c50ab88e662c0e68de43eb8f57f2f3f27fed0cbebc73466\"},\
{\"timestamp\":2000,\
\"picture\":\"2c8ccf9deec3243a69b7a6d8f01003ea79a58f534dfe9dd2c446954c58c1d701\"}]}}\n";

#[test]
fn a_job_is_told_whole(rt: HostRuntime) {
    assert!(rt; answers_so(&rt, &TAKEN));
}
