//! struct v4l2_ctrl_h264_slice_params.

ghost use Rattle.std.specs.Prelude.{◌≡◌};
ghost use Rattle.h264_controls.specs.SliceParamsForm.{slice_type_number};
ghost use Rattle.frame_requests.specs.SliceParamsLayout.{reference_at, ref_pic_list, slice_params_layout};

use crate::layouts::flag_names::FlagNames;
use h264_controls::V4l2CtrlH264SliceParams;
use h264_types::slice_headers::SliceType;
use serde::{Serialize, Serializer};
use std::mem::size_of;

/// struct v4l2_ctrl_h264_slice_params, of V4L2_CID_STATELESS_H264_SLICE_PARAMS: 152 bytes.
#[repr(C)]
#[derive(Clone, Copy, Debug, PartialEq, Eq, Serialize)]
pub struct SliceParamsLayout {
    pub header_bit_size: u32,
    pub first_mb_in_slice: u32,
    pub slice_type: u8,
    pub colour_plane_id: u8,
    pub redundant_pic_cnt: u8,
    pub cabac_init_idc: u8,
    pub slice_qp_delta: i8,
    pub slice_qs_delta: i8,
    pub disable_deblocking_filter_idc: u8,
    pub slice_alpha_c0_offset_div2: i8,
    pub slice_beta_offset_div2: i8,
    pub num_ref_idx_l0_active_minus1: u8,
    pub num_ref_idx_l1_active_minus1: u8,
    #[serde(skip)]
    pub reserved: u8,
    pub ref_pic_list0: [ReferenceLayout; 32],
    pub ref_pic_list1: [ReferenceLayout; 32],
    /// V4L2_H264_SLICE_FLAG_*.
    #[serde(serialize_with = "slice_flag_names")]
    pub flags: u32,
}

/// struct v4l2_h264_reference: V4L2_H264_FRAME_REF and the index of an entry of the decoded picture
/// buffer; zeros where the entry is missing or isn't active.
#[repr(C)]
#[derive(Clone, Copy, Debug, PartialEq, Eq, Serialize)]
pub struct ReferenceLayout {
    pub fields: u8,
    pub index: u8,
}

const _: () = prove!(size_of::<SliceParamsLayout>() == 152);

/// V4L2_H264_SLICE_FLAG_*.
const SLICE_FLAGS: [&str; 2] = [
    "V4L2_H264_SLICE_FLAG_DIRECT_SPATIAL_MV_PRED",
    "V4L2_H264_SLICE_FLAG_SP_FOR_SWITCH",
];

/// V4L2_H264_FRAME_REF.
const FRAME_REF: u8 = 3;

const NO_REFERENCE: ReferenceLayout = ReferenceLayout {
    fields: 0,
    index: 0,
};

impl SliceParamsLayout {
    /// The struct of the control.
    pub fn of(control: &V4l2CtrlH264SliceParams) -> SliceParamsLayout
        ensures { result ≡ slice_params_layout control.now }
    {
        SliceParamsLayout {
            header_bit_size: control.header_bit_size,
            first_mb_in_slice: control.first_mb_in_slice,
            slice_type: slice_type_number(control.slice_type),
            colour_plane_id: control.colour_plane_id,
            redundant_pic_cnt: control.redundant_pic_cnt,
            cabac_init_idc: control.cabac_init_idc,
            slice_qp_delta: control.slice_qp_delta,
            slice_qs_delta: control.slice_qs_delta,
            disable_deblocking_filter_idc: control.disable_deblocking_filter_idc,
            slice_alpha_c0_offset_div2: control.slice_alpha_c0_offset_div2,
            slice_beta_offset_div2: control.slice_beta_offset_div2,
            num_ref_idx_l0_active_minus1: control.num_ref_idx_l0_active_minus1,
            num_ref_idx_l1_active_minus1: control.num_ref_idx_l1_active_minus1,
            reserved: 0,
            ref_pic_list0: ref_pic_list(control.ref_pic_list0.entries()),
            ref_pic_list1: ref_pic_list(control.ref_pic_list1.entries()),
            flags: control.flags.number(),
        }
    }
}

fn slice_type_number(slice_type: SliceType) -> u8
    ensures { result ≡ slice_type_number slice_type }
{
    slice_type as u8
}

/// The entries of a list, and zeros up to 32 of them.
fn ref_pic_list(entries: &[Option<u8>]) -> [ReferenceLayout; 32]
    ensures { result ≡ ref_pic_list entries.now }
{
    let mut list = [NO_REFERENCE; 32];
    for place in 0..32 {
        list[place] = reference_at(entries, place);
    }
    list
}

/// The entry at a place of a list.
fn reference_at(entries: &[Option<u8>], place: usize) -> ReferenceLayout
    ensures { result ≡ reference_at entries.now place }
{
    match entries.get(place) {
        Some(Some(index)) => ReferenceLayout {
            fields: FRAME_REF,
            index: *index,
        },
        Some(None) | None => NO_REFERENCE,
    }
}

fn slice_flag_names<S: Serializer>(flags: &u32, out: &mut S) -> Result<(), S::Error> {
    out.collect_str(&FlagNames {
        flags: *flags,
        names: &SLICE_FLAGS,
    })
}
