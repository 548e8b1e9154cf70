//! A picture parameter set (7.3.2.2, 7.4.2.2).

use crate::base::AtMost;
use crate::param_sets::scaling_lists::ScalingLists;

/// weighted_bipred_idc: how B slices are weighted.
#[derive(Clone, Copy, Debug, PartialEq, Eq, Hash)]
pub enum WeightedBipred {
    Default = 0,
    Explicit = 1,
    Implicit = 2,
}

/// A picture parameter set (7.3.2.2), each field under its name there.
///
/// num_slice_groups_minus1 is 0, so it is no field. What the set doesn't send has its inferred
/// value: flags are 0, no scaling lists, and the second chroma offset is the first.
#[derive(Debug)]
pub struct Pps {
    pub pic_parameter_set_id: u8,
    pub seq_parameter_set_id: AtMost<31>,
    pub entropy_coding_mode_flag: bool,
    pub bottom_field_pic_order_in_frame_present_flag: bool,
    pub num_ref_idx_l0_default_active_minus1: AtMost<31>,
    pub num_ref_idx_l1_default_active_minus1: AtMost<31>,
    pub weighted_pred_flag: bool,
    pub weighted_bipred_idc: WeightedBipred,
    pub pic_init_qp_minus26: i8,
    pub pic_init_qs_minus26: i8,
    pub chroma_qp_index_offset: i8,
    pub deblocking_filter_control_present_flag: bool,
    pub constrained_intra_pred_flag: bool,
    pub redundant_pic_cnt_present_flag: bool,
    pub transform_8x8_mode_flag: bool,
    pub pic_scaling_matrix_present_flag: bool,
    pub scaling_lists: ScalingLists,
    pub second_chroma_qp_index_offset: i8,
}

// By hand, so that whoever drops one is proved over one call.
impl Drop for Pps {
    fn drop(self) {
        let Pps {
            pic_parameter_set_id: _,
            seq_parameter_set_id: _,
            entropy_coding_mode_flag: _,
            bottom_field_pic_order_in_frame_present_flag: _,
            num_ref_idx_l0_default_active_minus1: _,
            num_ref_idx_l1_default_active_minus1: _,
            weighted_pred_flag: _,
            weighted_bipred_idc: _,
            pic_init_qp_minus26: _,
            pic_init_qs_minus26: _,
            chroma_qp_index_offset: _,
            deblocking_filter_control_present_flag: _,
            constrained_intra_pred_flag: _,
            redundant_pic_cnt_present_flag: _,
            transform_8x8_mode_flag: _,
            pic_scaling_matrix_present_flag: _,
            scaling_lists: _,
            second_chroma_qp_index_offset: _,
        } = self;
    }
}
