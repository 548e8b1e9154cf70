//! V4L2_CID_STATELESS_H264_PPS.

ghost use Rattle.std.specs.Prelude.{◌≡◌, ◌↔◌, ◌+◌, ◌≤◌, ◌++◌, vec_len, IsTrue};
ghost use Rattle.std.specs.Vec.{vec_capacity};
ghost use Rattle.param_set_controls.specs.PpsForm.{pps_flags, pps_form, weighted_bipred_number};
ghost use Rattle.param_set_controls.specs.PpsControl.{pps_control, pps_flags_of};

use crate::words::{flag, put, put_u16};
use h264_types::param_sets::{Pps, Sps, WeightedBipred};

/// struct v4l2_ctrl_h264_pps: the picture parameter set of the slice.
#[derive(Clone, Copy, Debug, PartialEq, Eq)]
pub struct V4l2CtrlH264Pps {
    pub pic_parameter_set_id: u8,
    pub seq_parameter_set_id: u8,
    /// 0 here: a set with several slice groups is refused.
    pub num_slice_groups_minus1: u8,
    pub num_ref_idx_l0_default_active_minus1: u8,
    pub num_ref_idx_l1_default_active_minus1: u8,
    pub weighted_bipred_idc: WeightedBipred,
    pub pic_init_qp_minus26: i8,
    pub pic_init_qs_minus26: i8,
    pub chroma_qp_index_offset: i8,
    pub second_chroma_qp_index_offset: i8,
    pub flags: PpsFlags,
}

/// V4L2_H264_PPS_FLAG_*.
#[derive(Clone, Copy, Debug, PartialEq, Eq)]
pub struct PpsFlags {
    pub entropy_coding_mode: bool,
    pub bottom_field_pic_order_in_frame_present: bool,
    pub weighted_pred: bool,
    pub deblocking_filter_control_present: bool,
    pub constrained_intra_pred: bool,
    pub redundant_pic_cnt_present: bool,
    pub transform_8x8_mode: bool,
    /// Whether the sequence or the picture parameter set has scaling lists.
    pub scaling_matrix_present: bool,
}

impl PpsFlags {
    /// Whether all flags are the same.
    fn is_same(self, other: PpsFlags) -> bool
        ensures { IsTrue result ↔ (self ≡ other) }
    {
        self == other
    }

    /// The flags as Linux numbers them.
    pub fn number(self) -> u16
        ensures { result ≡ pps_flags self }
    {
        flag(1, self.entropy_coding_mode)
            + flag(2, self.bottom_field_pic_order_in_frame_present)
            + flag(4, self.weighted_pred)
            + flag(8, self.deblocking_filter_control_present)
            + flag(16, self.constrained_intra_pred)
            + flag(32, self.redundant_pic_cnt_present)
            + flag(64, self.transform_8x8_mode)
            + flag(128, self.scaling_matrix_present)
    }
}

impl V4l2CtrlH264Pps {
    /// Whether all members are the same.
    pub fn is_same(&self, other: &V4l2CtrlH264Pps) -> bool
        ensures { IsTrue result ↔ (self.now ≡ other.now) }
    {
        same_ids(self, other)
            && same_defaults(self, other)
            && same_quantisation(self, other)
            && self.flags.is_same(other.flags)
    }

    /// Its digest form goes after the form.
    #[tactic(auto, unfolding(crate::specs::PpsForm::pps_form))]
    pub(crate) fn put(&self, form: &mut Vec<u8>)
        requires { vec_len form.old + 12 ≤ vec_capacity form.old }
        ensures items { form.new.items ≡ form.old.items ++ pps_form self.now }
        ensures len { vec_len form.new ≡ vec_len form.old + 12 }
        ensures capacity { vec_capacity form.old ≤ vec_capacity form.new }
    {
        let members = [
            self.pic_parameter_set_id,
            self.seq_parameter_set_id,
            self.num_slice_groups_minus1,
            self.num_ref_idx_l0_default_active_minus1,
            self.num_ref_idx_l1_default_active_minus1,
            weighted_bipred_number(self.weighted_bipred_idc),
            self.pic_init_qp_minus26.cast_unsigned(),
            self.pic_init_qs_minus26.cast_unsigned(),
            self.chroma_qp_index_offset.cast_unsigned(),
            self.second_chroma_qp_index_offset.cast_unsigned(),
        ];
        put(form, &members);
        put_u16(form, self.flags.number());
    }
}

/// Whether ids and slice groups agree.
fn same_ids(a: &V4l2CtrlH264Pps, b: &V4l2CtrlH264Pps) -> bool
    ensures { IsTrue result ↔ (
        (a.now.pic_parameter_set_id ≡ b.now.pic_parameter_set_id)
        × (a.now.seq_parameter_set_id ≡ b.now.seq_parameter_set_id)
        × (a.now.num_slice_groups_minus1 ≡ b.now.num_slice_groups_minus1)
        ) }
{
    a.pic_parameter_set_id == b.pic_parameter_set_id
        && a.seq_parameter_set_id == b.seq_parameter_set_id
        && a.num_slice_groups_minus1 == b.num_slice_groups_minus1
}

/// Whether pictures are predicted alike.
fn same_defaults(a: &V4l2CtrlH264Pps, b: &V4l2CtrlH264Pps) -> bool
    ensures { IsTrue result ↔ (
        (a.now.num_ref_idx_l0_default_active_minus1 ≡ b.now.num_ref_idx_l0_default_active_minus1)
        × (a.now.num_ref_idx_l1_default_active_minus1 ≡ b.now.num_ref_idx_l1_default_active_minus1)
        × (a.now.weighted_bipred_idc ≡ b.now.weighted_bipred_idc)
        ) }
{
    a.num_ref_idx_l0_default_active_minus1 == b.num_ref_idx_l0_default_active_minus1
        && a.num_ref_idx_l1_default_active_minus1 == b.num_ref_idx_l1_default_active_minus1
        && a.weighted_bipred_idc == b.weighted_bipred_idc
}

/// Whether slices start from the same quantisation.
fn same_quantisation(a: &V4l2CtrlH264Pps, b: &V4l2CtrlH264Pps) -> bool
    ensures { IsTrue result ↔ (
        (a.now.pic_init_qp_minus26 ≡ b.now.pic_init_qp_minus26)
        × (a.now.pic_init_qs_minus26 ≡ b.now.pic_init_qs_minus26)
        × (a.now.chroma_qp_index_offset ≡ b.now.chroma_qp_index_offset)
        × (a.now.second_chroma_qp_index_offset ≡ b.now.second_chroma_qp_index_offset)
        ) }
{
    a.pic_init_qp_minus26 == b.pic_init_qp_minus26
        && a.pic_init_qs_minus26 == b.pic_init_qs_minus26
        && a.chroma_qp_index_offset == b.chroma_qp_index_offset
        && a.second_chroma_qp_index_offset == b.second_chroma_qp_index_offset
}

fn weighted_bipred_number(weighted_bipred_idc: WeightedBipred) -> u8
    ensures { result ≡ weighted_bipred_number weighted_bipred_idc }
{
    weighted_bipred_idc as u8
}

impl V4l2CtrlH264Pps {
    /// The control of this set, which stands on that sequence parameter set.
    pub fn of(sps: &Sps, pps: &Pps) -> V4l2CtrlH264Pps
        ensures { result ≡ pps_control sps.now pps.now }
    {
        V4l2CtrlH264Pps {
            pic_parameter_set_id: pps.pic_parameter_set_id,
            seq_parameter_set_id: pps.seq_parameter_set_id.get(),
            num_slice_groups_minus1: 0,
            num_ref_idx_l0_default_active_minus1: pps.num_ref_idx_l0_default_active_minus1.get(),
            num_ref_idx_l1_default_active_minus1: pps.num_ref_idx_l1_default_active_minus1.get(),
            weighted_bipred_idc: pps.weighted_bipred_idc,
            pic_init_qp_minus26: pps.pic_init_qp_minus26,
            pic_init_qs_minus26: pps.pic_init_qs_minus26,
            chroma_qp_index_offset: pps.chroma_qp_index_offset,
            second_chroma_qp_index_offset: pps.second_chroma_qp_index_offset,
            flags: flags_of(sps, pps),
        }
    }
}

fn flags_of(sps: &Sps, pps: &Pps) -> PpsFlags
    ensures { result ≡ pps_flags_of sps.now pps.now }
{
    PpsFlags {
        entropy_coding_mode: pps.entropy_coding_mode_flag,
        bottom_field_pic_order_in_frame_present: pps.bottom_field_pic_order_in_frame_present_flag,
        weighted_pred: pps.weighted_pred_flag,
        deblocking_filter_control_present: pps.deblocking_filter_control_present_flag,
        constrained_intra_pred: pps.constrained_intra_pred_flag,
        redundant_pic_cnt_present: pps.redundant_pic_cnt_present_flag,
        transform_8x8_mode: pps.transform_8x8_mode_flag,
        scaling_matrix_present: sps.seq_scaling_matrix_present_flag
            || pps.pic_scaling_matrix_present_flag,
    }
}
