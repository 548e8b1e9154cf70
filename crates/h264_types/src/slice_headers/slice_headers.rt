//! The header of a slice (7.3.3, 7.4.3).

ghost use Rattle.std.specs.Prelude.{◌≡◌, ◌==◌, ◌↔◌, false};

use crate::base::AtMost;
use crate::slice_headers::dec_ref_pic_marking::DecRefPicMarking;
use crate::slice_headers::pred_weight_table::PredWeightTable;
use crate::slice_headers::ref_pic_list_modification::RefPicListModifications;
use crate::slice_headers::slice_types::SliceType;

/// A slice header, each field under its name in the standard, with those of the unit's first byte.
///
/// What the header doesn't send has its inferred value: 0, no commands, no table; an absent active
/// count is the picture parameter set's where the list exists.
#[derive(Debug)]
pub struct SliceHeader {
    pub nal_ref_idc: u8,
    /// 5 for a slice of an IDR picture, else 1.
    pub nal_unit_type: u8,
    pub first_mb_in_slice: u32,
    pub slice_type: SliceType,
    pub pic_parameter_set_id: u8,
    pub frame_num: u16,
    pub idr_pic_id: u16,
    pub pic_order_cnt_lsb: u16,
    pub delta_pic_order_cnt_bottom: i32,
    pub delta_pic_order_cnt0: i32,
    pub delta_pic_order_cnt1: i32,
    pub redundant_pic_cnt: u8,
    pub direct_spatial_mv_pred_flag: bool,
    pub num_ref_idx_l0_active_minus1: AtMost<31>,
    pub num_ref_idx_l1_active_minus1: AtMost<31>,
    pub ref_pic_list_modification_l0: RefPicListModifications,
    pub ref_pic_list_modification_l1: RefPicListModifications,
    pub pred_weight_table: Option<PredWeightTable>,
    pub dec_ref_pic_marking: DecRefPicMarking,
    pub cabac_init_idc: u8,
    pub slice_qp_delta: i8,
    pub disable_deblocking_filter_idc: u8,
    pub slice_alpha_c0_offset_div2: i8,
    pub slice_beta_offset_div2: i8,
    /// The place after the header in the payload, in bits, with the unit's first byte.
    pub header_bit_size: u32,
    /// The size of dec_ref_pic_marking in bits.
    pub dec_ref_pic_marking_bit_size: u32,
    /// The size in bits of pic_order_cnt_lsb and of the deltas of the picture order count.
    pub pic_order_cnt_bit_size: u32,
}

// By hand, so that whoever drops one is proved over one call.
impl Drop for SliceHeader {
    fn drop(self) {
        let SliceHeader {
            nal_ref_idc: _,
            nal_unit_type: _,
            first_mb_in_slice: _,
            slice_type: _,
            pic_parameter_set_id: _,
            frame_num: _,
            idr_pic_id: _,
            pic_order_cnt_lsb: _,
            delta_pic_order_cnt_bottom: _,
            delta_pic_order_cnt0: _,
            delta_pic_order_cnt1: _,
            redundant_pic_cnt: _,
            direct_spatial_mv_pred_flag: _,
            num_ref_idx_l0_active_minus1: _,
            num_ref_idx_l1_active_minus1: _,
            ref_pic_list_modification_l0: _,
            ref_pic_list_modification_l1: _,
            pred_weight_table: _,
            dec_ref_pic_marking: _,
            cabac_init_idc: _,
            slice_qp_delta: _,
            disable_deblocking_filter_idc: _,
            slice_alpha_c0_offset_div2: _,
            slice_beta_offset_div2: _,
            header_bit_size: _,
            dec_ref_pic_marking_bit_size: _,
            pic_order_cnt_bit_size: _,
        } = self;
    }
}

impl SliceHeader {
    /// Whether the slice belongs to an IDR picture.
    pub fn is_idr(&self) -> bool
        ensures { result ≡ (self.now.nal_unit_type == 5) }
    {
        self.nal_unit_type == 5
    }

    /// Whether the picture becomes a reference.
    pub fn is_reference(&self) -> bool
        ensures { (result ≡ false) ↔ (self.now.nal_ref_idc ≡ 0) }
    {
        self.nal_ref_idc != 0
    }
}
