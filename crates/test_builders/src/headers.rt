//! Slice headers.

ghost use Rattle.std.specs.Prelude.{◌≡◌};

use h264_types::base::AtMost;
use h264_types::slice_headers::{
    DecRefPicMarking, RefPicListModifications, SliceHeader, SliceType,
};
use std::alloc::Global;

/// The header of a P slice of this frame_num, of a reference picture with the sliding window: each
/// other field has the value that stands for an absent one, and each list one entry.
pub fn p_header(alloc: Global, frame_num: u16) -> SliceHeader
    ensures { result.frame_num ≡ frame_num }
{
    p_header_with(
        frame_num,
        RefPicListModifications::new(alloc),
        RefPicListModifications::new(alloc),
        DecRefPicMarking::SlidingWindow,
    )
}

/// The same with these commands of both lists and this marking.
pub fn p_header_with(
    frame_num: u16,
    ref_pic_list_modification_l0: RefPicListModifications,
    ref_pic_list_modification_l1: RefPicListModifications,
    dec_ref_pic_marking: DecRefPicMarking,
) -> SliceHeader
    ensures { result.frame_num ≡ frame_num }
{
    SliceHeader {
        nal_ref_idc: 1,
        nal_unit_type: 1,
        first_mb_in_slice: 0,
        slice_type: SliceType::P,
        pic_parameter_set_id: 0,
        frame_num,
        idr_pic_id: 0,
        pic_order_cnt_lsb: 0,
        delta_pic_order_cnt_bottom: 0,
        delta_pic_order_cnt0: 0,
        delta_pic_order_cnt1: 0,
        redundant_pic_cnt: 0,
        direct_spatial_mv_pred_flag: false,
        num_ref_idx_l0_active_minus1: AtMost::new(0),
        num_ref_idx_l1_active_minus1: AtMost::new(0),
        ref_pic_list_modification_l0,
        ref_pic_list_modification_l1,
        pred_weight_table: None,
        dec_ref_pic_marking,
        cabac_init_idc: 0,
        slice_qp_delta: 0,
        disable_deblocking_filter_idc: 0,
        slice_alpha_c0_offset_div2: 0,
        slice_beta_offset_div2: 0,
        header_bit_size: 0,
        dec_ref_pic_marking_bit_size: 0,
        pic_order_cnt_bit_size: 0,
    }
}
