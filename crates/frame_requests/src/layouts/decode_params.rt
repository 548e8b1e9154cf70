//! struct v4l2_ctrl_h264_decode_params.

ghost use Rattle.std.specs.Prelude.{◌≡◌};
ghost use Rattle.frame_requests.specs.DecodeParamsLayout.{decode_params_layout};
ghost use Rattle.frame_requests.specs.DpbLayout.{dpb_layout};

use crate::layouts::dpb_entry::{DpbEntryLayout, NO_ENTRY};
use crate::layouts::flag_names::FlagNames;
use h264_controls::{References, V4l2CtrlH264DecodeParams, V4l2H264DpbEntry};
use h264_types::pictures::AuId;
use serde::{Serialize, Serializer};
use std::mem::size_of;

/// struct v4l2_ctrl_h264_decode_params, of V4L2_CID_STATELESS_H264_DECODE_PARAMS: 560 bytes.
#[repr(C)]
#[derive(Clone, Copy, Debug, PartialEq, Eq, Serialize)]
pub struct DecodeParamsLayout {
    pub dpb: [DpbEntryLayout; 16],
    pub nal_ref_idc: u16,
    pub frame_num: u16,
    pub top_field_order_cnt: i32,
    pub bottom_field_order_cnt: i32,
    pub idr_pic_id: u16,
    pub pic_order_cnt_lsb: u16,
    pub delta_pic_order_cnt_bottom: i32,
    pub delta_pic_order_cnt0: i32,
    pub delta_pic_order_cnt1: i32,
    pub dec_ref_pic_marking_bit_size: u32,
    pub pic_order_cnt_bit_size: u32,
    pub slice_group_change_cycle: u32,
    #[serde(skip)]
    pub reserved: u32,
    /// V4L2_H264_DECODE_PARAM_FLAG_*.
    #[serde(serialize_with = "decode_param_flag_names")]
    pub flags: u32,
}

const _: () = prove!(size_of::<DecodeParamsLayout>() == 560);

/// V4L2_H264_DECODE_PARAM_FLAG_*.
const DECODE_PARAM_FLAGS: [&str; 5] = [
    "V4L2_H264_DECODE_PARAM_FLAG_IDR_PIC",
    "V4L2_H264_DECODE_PARAM_FLAG_FIELD_PIC",
    "V4L2_H264_DECODE_PARAM_FLAG_BOTTOM_FIELD",
    "V4L2_H264_DECODE_PARAM_FLAG_PFRAME",
    "V4L2_H264_DECODE_PARAM_FLAG_BFRAME",
];

impl DecodeParamsLayout {
    /// The struct of the control, whose frames were decoded from these units: reference_ts of an
    /// entry is the timestamp of its unit.
    pub fn of(control: &V4l2CtrlH264DecodeParams, references: &References) -> DecodeParamsLayout
        ensures { result ≡ decode_params_layout references.now control.now }
    {
        DecodeParamsLayout {
            dpb: dpb(control.dpb.as_slice(), references.as_slice()),
            nal_ref_idc: control.nal_ref_idc,
            frame_num: control.frame_num,
            top_field_order_cnt: control.top_field_order_cnt,
            bottom_field_order_cnt: control.bottom_field_order_cnt,
            idr_pic_id: control.idr_pic_id,
            pic_order_cnt_lsb: control.pic_order_cnt_lsb,
            delta_pic_order_cnt_bottom: control.delta_pic_order_cnt_bottom,
            delta_pic_order_cnt0: control.delta_pic_order_cnt0,
            delta_pic_order_cnt1: control.delta_pic_order_cnt1,
            dec_ref_pic_marking_bit_size: control.dec_ref_pic_marking_bit_size,
            pic_order_cnt_bit_size: control.pic_order_cnt_bit_size,
            slice_group_change_cycle: u32::from(control.slice_group_change_cycle),
            reserved: 0,
            flags: control.flags.number(),
        }
    }
}

/// The entries with their units, and zeros up to 16 of them.
fn dpb(entries: &[V4l2H264DpbEntry], units: &[AuId]) -> [DpbEntryLayout; 16]
    ensures { result ≡ dpb_layout entries.now units.now }
{
    let mut dpb = [NO_ENTRY; 16];
    for place in 0..16 {
        dpb[place] = DpbEntryLayout::at(entries, units, place);
    }
    dpb
}

fn decode_param_flag_names<S: Serializer>(flags: &u32, out: &mut S) -> Result<(), S::Error> {
    out.collect_str(&FlagNames {
        flags: *flags,
        names: &DECODE_PARAM_FLAGS,
    })
}
