//! V4L2_CID_STATELESS_H264_SLICE_PARAMS.

ghost use Rattle.std.specs.Prelude.{◌≡◌, ◌↔◌, ◌+◌, ◌*◌, ◌≤◌, ◌++◌, length, vec_len, IfOk, IsTrue};
ghost use Rattle.std.specs.Vec.{vec_capacity};
ghost use Rattle.std.specs.List.{flat_map};
ghost use Rattle.h264_controls.specs.SliceParamsForm.{list_form, reference_form, slice_flags, slice_params_form, slice_type_number};
ghost use Rattle.h264_controls.specs.SliceParamsControl.{slice_params_control};

use crate::ref_pic_list::RefPicList;
use h264_types::pictures::List;
use h264_types::slice_headers::{SliceHeader, SliceType};
use param_set_controls::words::{flag, put, put_u32, put_zeros};
use std::alloc::{AllocError, Global};

/// struct v4l2_ctrl_h264_slice_params: what the slice header says of the slice, and its lists.
#[derive(Debug)]
pub struct V4l2CtrlH264SliceParams {
    /// The size of the slice header in bits, with the first byte of the NAL unit.
    pub header_bit_size: u32,
    pub first_mb_in_slice: u32,
    pub slice_type: SliceType,
    /// 0 here: a sequence with separate colour planes is refused.
    pub colour_plane_id: u8,
    /// 0 here: a unit with a redundant picture has a fault.
    pub redundant_pic_cnt: u8,
    pub cabac_init_idc: u8,
    pub slice_qp_delta: i8,
    /// 0 here: a switching slice is refused.
    pub slice_qs_delta: i8,
    pub disable_deblocking_filter_idc: u8,
    pub slice_alpha_c0_offset_div2: i8,
    pub slice_beta_offset_div2: i8,
    pub num_ref_idx_l0_active_minus1: u8,
    pub num_ref_idx_l1_active_minus1: u8,
    /// Before the lists, after which they would take eight bytes more.
    pub flags: SliceFlags,
    /// The active entries of list 0: each the index of an entry of the decoded picture buffer, or
    /// missing.
    pub ref_pic_list0: RefPicList,
    /// The active entries of list 1.
    pub ref_pic_list1: RefPicList,
}

// By hand, so that whoever drops one is proved over one call.
impl Drop for V4l2CtrlH264SliceParams {
    fn drop(self) {
        let V4l2CtrlH264SliceParams {
            header_bit_size: _,
            first_mb_in_slice: _,
            slice_type: _,
            colour_plane_id: _,
            redundant_pic_cnt: _,
            cabac_init_idc: _,
            slice_qp_delta: _,
            slice_qs_delta: _,
            disable_deblocking_filter_idc: _,
            slice_alpha_c0_offset_div2: _,
            slice_beta_offset_div2: _,
            num_ref_idx_l0_active_minus1: _,
            num_ref_idx_l1_active_minus1: _,
            flags: _,
            ref_pic_list0: _,
            ref_pic_list1: _,
        } = self;
    }
}

/// V4L2_H264_SLICE_FLAG_*.
#[derive(Clone, Copy, Debug, PartialEq, Eq)]
pub struct SliceFlags {
    pub direct_spatial_mv_pred: bool,
    /// Never set here: a switching slice is refused.
    pub sp_for_switch: bool,
}

impl SliceFlags {
    /// The flags as Linux numbers them.
    pub fn number(self) -> u32
        ensures { result ≡ slice_flags self }
    {
        u32::from(flag(1, self.direct_spatial_mv_pred) + flag(2, self.sp_for_switch))
    }
}

impl V4l2CtrlH264SliceParams {
    /// The same control.
    pub fn copy(&self) -> Result<V4l2CtrlH264SliceParams, AllocError>
        ensures { IfOk result (λ copy. copy ≡ self.now) }
    {
        Ok(V4l2CtrlH264SliceParams {
            header_bit_size: self.header_bit_size,
            first_mb_in_slice: self.first_mb_in_slice,
            slice_type: self.slice_type,
            colour_plane_id: self.colour_plane_id,
            redundant_pic_cnt: self.redundant_pic_cnt,
            cabac_init_idc: self.cabac_init_idc,
            slice_qp_delta: self.slice_qp_delta,
            slice_qs_delta: self.slice_qs_delta,
            disable_deblocking_filter_idc: self.disable_deblocking_filter_idc,
            slice_alpha_c0_offset_div2: self.slice_alpha_c0_offset_div2,
            slice_beta_offset_div2: self.slice_beta_offset_div2,
            num_ref_idx_l0_active_minus1: self.num_ref_idx_l0_active_minus1,
            num_ref_idx_l1_active_minus1: self.num_ref_idx_l1_active_minus1,
            ref_pic_list0: self.ref_pic_list0.copy()?,
            ref_pic_list1: self.ref_pic_list1.copy()?,
            flags: self.flags,
        })
    }

    /// Whether all members are the same.
    pub fn is_same(&self, other: &V4l2CtrlH264SliceParams) -> bool
        ensures { IsTrue result ↔ (self.now ≡ other.now) }
    {
        same_place(self, other)
            && same_coding(self, other)
            && same_deblocking(self, other)
            && same_counts(self, other)
            && self.ref_pic_list0.is_same(&other.ref_pic_list0)
            && self.ref_pic_list1.is_same(&other.ref_pic_list1)
    }

    /// Its digest form goes after the form.
    #[tactic(auto, unfolding(crate::specs::SliceParamsForm::slice_params_form))]
    pub(crate) fn put(&self, form: &mut Vec<u8>)
        requires { vec_len form.old + 151 ≤ vec_capacity form.old }
        ensures items { form.new.items ≡ form.old.items ++ slice_params_form self.now }
        ensures len { vec_len form.new ≡ vec_len form.old + 151 }
        ensures capacity { vec_capacity form.old ≤ vec_capacity form.new }
    {
        put_u32(form, self.header_bit_size);
        put_u32(form, self.first_mb_in_slice);
        let members = [
            slice_type_number(self.slice_type),
            self.colour_plane_id,
            self.redundant_pic_cnt,
            self.cabac_init_idc,
            self.slice_qp_delta.cast_unsigned(),
            self.slice_qs_delta.cast_unsigned(),
            self.disable_deblocking_filter_idc,
            self.slice_alpha_c0_offset_div2.cast_unsigned(),
            self.slice_beta_offset_div2.cast_unsigned(),
            self.num_ref_idx_l0_active_minus1,
            self.num_ref_idx_l1_active_minus1,
        ];
        put(form, &members);
        put_list(form, &self.ref_pic_list0);
        put_list(form, &self.ref_pic_list1);
        put_u32(form, self.flags.number());
    }
}

/// Whether size, place and type agree.
fn same_place(a: &V4l2CtrlH264SliceParams, b: &V4l2CtrlH264SliceParams) -> bool
    ensures { IsTrue result ↔ (
        (a.now.header_bit_size ≡ b.now.header_bit_size)
        × (a.now.first_mb_in_slice ≡ b.now.first_mb_in_slice)
        × (a.now.slice_type ≡ b.now.slice_type)
        × (a.now.colour_plane_id ≡ b.now.colour_plane_id)
        × (a.now.redundant_pic_cnt ≡ b.now.redundant_pic_cnt)
        ) }
{
    a.header_bit_size == b.header_bit_size
        && a.first_mb_in_slice == b.first_mb_in_slice
        && a.slice_type == b.slice_type
        && a.colour_plane_id == b.colour_plane_id
        && a.redundant_pic_cnt == b.redundant_pic_cnt
}

/// Whether coding starts alike.
fn same_coding(a: &V4l2CtrlH264SliceParams, b: &V4l2CtrlH264SliceParams) -> bool
    ensures { IsTrue result ↔ (
        (a.now.cabac_init_idc ≡ b.now.cabac_init_idc)
        × (a.now.slice_qp_delta ≡ b.now.slice_qp_delta)
        × (a.now.slice_qs_delta ≡ b.now.slice_qs_delta)
        ) }
{
    a.cabac_init_idc == b.cabac_init_idc
        && a.slice_qp_delta == b.slice_qp_delta
        && a.slice_qs_delta == b.slice_qs_delta
}

/// Whether edges are filtered alike.
fn same_deblocking(a: &V4l2CtrlH264SliceParams, b: &V4l2CtrlH264SliceParams) -> bool
    ensures { IsTrue result ↔ (
        (a.now.disable_deblocking_filter_idc ≡ b.now.disable_deblocking_filter_idc)
        × (a.now.slice_alpha_c0_offset_div2 ≡ b.now.slice_alpha_c0_offset_div2)
        × (a.now.slice_beta_offset_div2 ≡ b.now.slice_beta_offset_div2)
        ) }
{
    a.disable_deblocking_filter_idc == b.disable_deblocking_filter_idc
        && a.slice_alpha_c0_offset_div2 == b.slice_alpha_c0_offset_div2
        && a.slice_beta_offset_div2 == b.slice_beta_offset_div2
}

/// Whether as many entries are active, and the flags agree.
fn same_counts(a: &V4l2CtrlH264SliceParams, b: &V4l2CtrlH264SliceParams) -> bool
    ensures { IsTrue result ↔ (
        (a.now.num_ref_idx_l0_active_minus1 ≡ b.now.num_ref_idx_l0_active_minus1)
        × (a.now.num_ref_idx_l1_active_minus1 ≡ b.now.num_ref_idx_l1_active_minus1)
        × (a.now.flags ≡ b.now.flags)
        ) }
{
    a.num_ref_idx_l0_active_minus1 == b.num_ref_idx_l0_active_minus1
        && a.num_ref_idx_l1_active_minus1 == b.num_ref_idx_l1_active_minus1
        && a.flags == b.flags
}

fn slice_type_number(slice_type: SliceType) -> u8
    ensures { result ≡ slice_type_number slice_type }
{
    slice_type as u8
}

// A list, and zeros up to 32 entries.
fn put_list(form: &mut Vec<u8>, list: &RefPicList)
    requires { vec_len form.old + 64 ≤ vec_capacity form.old }
    ensures items { form.new.items ≡ form.old.items ++ list_form list.now }
    ensures len { vec_len form.new ≡ vec_len form.old + 64 }
    ensures capacity { vec_capacity form.old ≤ vec_capacity form.new }
{
    let entries = list.entries();
    put_entries(form, entries);
    put_zeros(form, 64 - 2 * entries.len());
}

fn put_entries(form: &mut Vec<u8>, entries: &[Option<u8>])
    requires { vec_len form.old + 2 * length entries.now ≤ vec_capacity form.old }
    ensures items { form.new.items ≡ form.old.items ++ flat_map reference_form entries.now }
    ensures len { vec_len form.new ≡ vec_len form.old + 2 * length entries.now }
    ensures capacity { vec_capacity form.old ≤ vec_capacity form.new }
{
    for entry in entries {
        put(form, &reference(*entry));
    }
}

// A frame by its index, or a missing entry.
fn reference(entry: Option<u8>) -> [u8; 2]
    ensures { result ≡ reference_form entry }
{
    match entry {
        Some(index) => [3, index],
        None => [0, 0],
    }
}

impl V4l2CtrlH264SliceParams {
    /// The control of the slice with this header and these lists.
    pub fn of(
        alloc: Global,
        header: &SliceHeader,
        list_0: &List,
        list_1: &List,
    ) -> Result<V4l2CtrlH264SliceParams, AllocError>
        ensures { IfOk result (λ control. control
            ≡ slice_params_control header.now list_0.now list_1.now) }
    {
        Ok(V4l2CtrlH264SliceParams {
            header_bit_size: header.header_bit_size,
            first_mb_in_slice: header.first_mb_in_slice,
            slice_type: header.slice_type,
            colour_plane_id: 0,
            redundant_pic_cnt: 0,
            cabac_init_idc: header.cabac_init_idc,
            slice_qp_delta: header.slice_qp_delta,
            slice_qs_delta: 0,
            disable_deblocking_filter_idc: header.disable_deblocking_filter_idc,
            slice_alpha_c0_offset_div2: header.slice_alpha_c0_offset_div2,
            slice_beta_offset_div2: header.slice_beta_offset_div2,
            num_ref_idx_l0_active_minus1: header.num_ref_idx_l0_active_minus1.get(),
            num_ref_idx_l1_active_minus1: header.num_ref_idx_l1_active_minus1.get(),
            ref_pic_list0: RefPicList::of(alloc, list_0)?,
            ref_pic_list1: RefPicList::of(alloc, list_1)?,
            flags: SliceFlags {
                direct_spatial_mv_pred: header.direct_spatial_mv_pred_flag,
                sp_for_switch: false,
            },
        })
    }
}
