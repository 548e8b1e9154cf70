//! Parameter sets that agree.

ghost use Rattle.std.specs.Prelude.{◌≡◌, ◌↔◌, IsTrue};
ghost use Rattle.h264_types.specs.SameSets.{same_profile, same_matrix, same_counting, same_cycle, same_frames, same_sps};

use crate::param_sets::pps::Pps;
use crate::param_sets::scaling_lists::ScalingList;
use crate::param_sets::sps::Sps;

impl Sps {
    /// Whether the sets agree in each field that is read, scaling lists as they were sent
    /// (7.4.1.2.1).
    #[tactic(auto, unfolding(crate::specs::SameSets::same_sps), using(crate::proofs::SameSets::sps_same))]
    pub fn is_same(&self, other: &Sps) -> bool
        ensures same { IsTrue result ↔ (self.now ≡ other.now) }
        ensures by_field { result ≡ same_sps self.now other.now }
    {
        same_profile(self, other)
            && same_matrix(self, other)
            && same_counting(self, other)
            && same_cycle(self, other)
            && same_frames(self, other)
    }
}

/// Whether profile, level and format agree.
fn same_profile(a: &Sps, b: &Sps) -> bool
    ensures { result ≡ same_profile a.now b.now }
{
    a.profile_idc == b.profile_idc
        && a.constraint_set_flags == b.constraint_set_flags
        && a.level_idc == b.level_idc
        && a.seq_parameter_set_id == b.seq_parameter_set_id
        && a.chroma_format_idc == b.chroma_format_idc
        && a.bit_depth_luma_minus8 == b.bit_depth_luma_minus8
        && a.bit_depth_chroma_minus8 == b.bit_depth_chroma_minus8
        && a.qpprime_y_zero_transform_bypass_flag == b.qpprime_y_zero_transform_bypass_flag
}

/// Whether the scaling lists agree.
fn same_matrix(a: &Sps, b: &Sps) -> bool
    ensures { result ≡ same_matrix a.now b.now }
{
    a.seq_scaling_matrix_present_flag == b.seq_scaling_matrix_present_flag
        && a.scaling_lists.as_slice() == b.scaling_lists.as_slice()
}

/// Whether frame numbers and picture order counts are counted alike.
fn same_counting(a: &Sps, b: &Sps) -> bool
    ensures { result ≡ same_counting a.now b.now }
{
    a.log2_max_frame_num_minus4 == b.log2_max_frame_num_minus4
        && a.pic_order_cnt_type == b.pic_order_cnt_type
        && a.log2_max_pic_order_cnt_lsb_minus4 == b.log2_max_pic_order_cnt_lsb_minus4
        && a.delta_pic_order_always_zero_flag == b.delta_pic_order_always_zero_flag
}

/// Whether the cycles of offsets agree.
fn same_cycle(a: &Sps, b: &Sps) -> bool
    ensures { result ≡ same_cycle a.now b.now }
{
    a.offset_for_non_ref_pic == b.offset_for_non_ref_pic
        && a.offset_for_top_to_bottom_field == b.offset_for_top_to_bottom_field
        && a.num_ref_frames_in_pic_order_cnt_cycle == b.num_ref_frames_in_pic_order_cnt_cycle
        && a.offset_for_ref_frame.as_slice() == b.offset_for_ref_frame.as_slice()
}

/// Whether the frames are alike.
fn same_frames(a: &Sps, b: &Sps) -> bool
    ensures { result ≡ same_frames a.now b.now }
{
    a.max_num_ref_frames == b.max_num_ref_frames
        && a.gaps_in_frame_num_value_allowed_flag == b.gaps_in_frame_num_value_allowed_flag
        && a.pic_width_in_mbs_minus1 == b.pic_width_in_mbs_minus1
        && a.pic_height_in_map_units_minus1 == b.pic_height_in_map_units_minus1
        && a.direct_8x8_inference_flag == b.direct_8x8_inference_flag
}

impl Pps {
    /// Whether the sets agree in each field that is read, scaling lists as they were sent
    /// (7.4.1.2.1).
    pub fn is_same(&self, other: &Pps) -> bool
        ensures { IsTrue result ↔ (self.now ≡ other.now) }
    {
        same_coding(self, other)
            && same_prediction(self, other)
            && same_quantisation(self, other)
            && same_slices(self, other)
            && same_transforms(self, other)
    }
}

/// Whether ids and coding agree.
fn same_coding(a: &Pps, b: &Pps) -> bool
    ensures { IsTrue result ↔ (
        (a.now.pic_parameter_set_id ≡ b.now.pic_parameter_set_id)
        × (a.now.seq_parameter_set_id ≡ b.now.seq_parameter_set_id)
        × (a.now.entropy_coding_mode_flag ≡ b.now.entropy_coding_mode_flag)
        × (a.now.bottom_field_pic_order_in_frame_present_flag
        ≡ b.now.bottom_field_pic_order_in_frame_present_flag)
        ) }
{
    a.pic_parameter_set_id == b.pic_parameter_set_id
        && a.seq_parameter_set_id == b.seq_parameter_set_id
        && a.entropy_coding_mode_flag == b.entropy_coding_mode_flag
        && a.bottom_field_pic_order_in_frame_present_flag
            == b.bottom_field_pic_order_in_frame_present_flag
}

/// Whether pictures are predicted alike.
fn same_prediction(a: &Pps, b: &Pps) -> bool
    ensures { IsTrue result ↔ (
        (a.now.num_ref_idx_l0_default_active_minus1 ≡ b.now.num_ref_idx_l0_default_active_minus1)
        × (a.now.num_ref_idx_l1_default_active_minus1 ≡ b.now.num_ref_idx_l1_default_active_minus1)
        × (a.now.weighted_pred_flag ≡ b.now.weighted_pred_flag)
        × (a.now.weighted_bipred_idc ≡ b.now.weighted_bipred_idc)
        ) }
{
    a.num_ref_idx_l0_default_active_minus1 == b.num_ref_idx_l0_default_active_minus1
        && a.num_ref_idx_l1_default_active_minus1 == b.num_ref_idx_l1_default_active_minus1
        && a.weighted_pred_flag == b.weighted_pred_flag
        && a.weighted_bipred_idc == b.weighted_bipred_idc
}

/// Whether slices start from the same quantisation.
fn same_quantisation(a: &Pps, b: &Pps) -> bool
    ensures { IsTrue result ↔ (
        (a.now.pic_init_qp_minus26 ≡ b.now.pic_init_qp_minus26)
        × (a.now.pic_init_qs_minus26 ≡ b.now.pic_init_qs_minus26)
        × (a.now.chroma_qp_index_offset ≡ b.now.chroma_qp_index_offset)
        × (a.now.second_chroma_qp_index_offset ≡ b.now.second_chroma_qp_index_offset)
        ) }
{
    a.pic_init_qp_minus26 == b.pic_init_qp_minus26
        && a.pic_init_qs_minus26 == b.pic_init_qs_minus26
        && a.chroma_qp_index_offset == b.chroma_qp_index_offset
        && a.second_chroma_qp_index_offset == b.second_chroma_qp_index_offset
}

/// Whether slices have the same parts.
fn same_slices(a: &Pps, b: &Pps) -> bool
    ensures { IsTrue result ↔ (
        (a.now.deblocking_filter_control_present_flag
        ≡ b.now.deblocking_filter_control_present_flag)
        × (a.now.constrained_intra_pred_flag ≡ b.now.constrained_intra_pred_flag)
        × (a.now.redundant_pic_cnt_present_flag ≡ b.now.redundant_pic_cnt_present_flag)
        ) }
{
    a.deblocking_filter_control_present_flag == b.deblocking_filter_control_present_flag
        && a.constrained_intra_pred_flag == b.constrained_intra_pred_flag
        && a.redundant_pic_cnt_present_flag == b.redundant_pic_cnt_present_flag
}

/// Whether transforms and scaling lists agree.
fn same_transforms(a: &Pps, b: &Pps) -> bool
    ensures { IsTrue result ↔ (
        (a.now.transform_8x8_mode_flag ≡ b.now.transform_8x8_mode_flag)
        × (a.now.pic_scaling_matrix_present_flag ≡ b.now.pic_scaling_matrix_present_flag)
        × (a.now.scaling_lists ≡ b.now.scaling_lists)
        ) }
{
    a.transform_8x8_mode_flag == b.transform_8x8_mode_flag
        && a.pic_scaling_matrix_present_flag == b.pic_scaling_matrix_present_flag
        && a.scaling_lists.as_slice() == b.scaling_lists.as_slice()
}

impl PartialEq for ScalingList {
    ghost use lib.Pointwise.{pointwise};
    ghost use Rattle.std.specs.Ordering.{int_eq};
    ghost use Rattle.std.proofs.Common.{rules};
    ghost use Rattle.std.specs.Cmp.Rules.{comparing};

    ghost eq = { pointwise int_eq };

    ghost laws = { Prim.search (comparing, rules) };

    fn eq(&self, other: &ScalingList) -> bool {
        self.deltas() == other.deltas()
    }
}
