//! struct v4l2_ctrl_h264_sps.

ghost use Rattle.std.specs.Prelude.{◌≡◌};
ghost use Rattle.param_set_controls.specs.SpsForm.{chroma_format_number, constraint_set_number, pic_order_cnt_type_number};
ghost use Rattle.frame_requests.specs.SpsLayout.{sps_layout};

use crate::layouts::flag_names::FlagNames;
use h264_controls::V4l2CtrlH264Sps;
use h264_types::param_sets::{ChromaFormat, PicOrderCntType};
use param_set_controls::words::flag;
use serde::{Serialize, Serializer};
use std::mem::size_of;

/// struct v4l2_ctrl_h264_sps, of V4L2_CID_STATELESS_H264_SPS: 1,048 bytes.
#[repr(C)]
#[derive(Clone, Copy, Debug, PartialEq, Eq, Serialize)]
pub struct SpsLayout {
    pub profile_idc: u8,
    /// V4L2_H264_SPS_CONSTRAINT_SET*_FLAG.
    #[serde(serialize_with = "constraint_set_names")]
    pub constraint_set_flags: u8,
    pub level_idc: u8,
    pub seq_parameter_set_id: u8,
    pub chroma_format_idc: u8,
    pub bit_depth_luma_minus8: u8,
    pub bit_depth_chroma_minus8: u8,
    pub log2_max_frame_num_minus4: u8,
    pub pic_order_cnt_type: u8,
    pub log2_max_pic_order_cnt_lsb_minus4: u8,
    pub max_num_ref_frames: u8,
    pub num_ref_frames_in_pic_order_cnt_cycle: u8,
    pub offset_for_ref_frame: [i32; 255],
    pub offset_for_non_ref_pic: i32,
    pub offset_for_top_to_bottom_field: i32,
    pub pic_width_in_mbs_minus1: u16,
    pub pic_height_in_map_units_minus1: u16,
    /// V4L2_H264_SPS_FLAG_*.
    #[serde(serialize_with = "sps_flag_names")]
    pub flags: u32,
}

const _: () = prove!(size_of::<SpsLayout>() == 1048);

/// V4L2_H264_SPS_CONSTRAINT_SET*_FLAG.
const CONSTRAINT_SETS: [&str; 6] = [
    "V4L2_H264_SPS_CONSTRAINT_SET0_FLAG",
    "V4L2_H264_SPS_CONSTRAINT_SET1_FLAG",
    "V4L2_H264_SPS_CONSTRAINT_SET2_FLAG",
    "V4L2_H264_SPS_CONSTRAINT_SET3_FLAG",
    "V4L2_H264_SPS_CONSTRAINT_SET4_FLAG",
    "V4L2_H264_SPS_CONSTRAINT_SET5_FLAG",
];

/// V4L2_H264_SPS_FLAG_*.
const SPS_FLAGS: [&str; 7] = [
    "V4L2_H264_SPS_FLAG_SEPARATE_COLOUR_PLANE",
    "V4L2_H264_SPS_FLAG_QPPRIME_Y_ZERO_TRANSFORM_BYPASS",
    "V4L2_H264_SPS_FLAG_DELTA_PIC_ORDER_ALWAYS_ZERO",
    "V4L2_H264_SPS_FLAG_GAPS_IN_FRAME_NUM_VALUE_ALLOWED",
    "V4L2_H264_SPS_FLAG_FRAME_MBS_ONLY",
    "V4L2_H264_SPS_FLAG_MB_ADAPTIVE_FRAME_FIELD",
    "V4L2_H264_SPS_FLAG_DIRECT_8X8_INFERENCE",
];

impl SpsLayout {
    /// The struct of the control.
    pub fn of(control: &V4l2CtrlH264Sps) -> SpsLayout
        ensures { result ≡ sps_layout control.now }
    {
        SpsLayout {
            profile_idc: control.profile_idc,
            constraint_set_flags: constraint_set_number(&control.constraint_set_flags),
            level_idc: control.level_idc,
            seq_parameter_set_id: control.seq_parameter_set_id,
            chroma_format_idc: chroma_format_number(control.chroma_format_idc),
            bit_depth_luma_minus8: control.bit_depth_luma_minus8,
            bit_depth_chroma_minus8: control.bit_depth_chroma_minus8,
            log2_max_frame_num_minus4: control.log2_max_frame_num_minus4,
            pic_order_cnt_type: pic_order_cnt_type_number(control.pic_order_cnt_type),
            log2_max_pic_order_cnt_lsb_minus4: control.log2_max_pic_order_cnt_lsb_minus4,
            max_num_ref_frames: control.max_num_ref_frames,
            num_ref_frames_in_pic_order_cnt_cycle: control.num_ref_frames_in_pic_order_cnt_cycle,
            offset_for_ref_frame: control.offset_for_ref_frame,
            offset_for_non_ref_pic: control.offset_for_non_ref_pic,
            offset_for_top_to_bottom_field: control.offset_for_top_to_bottom_field,
            pic_width_in_mbs_minus1: control.pic_width_in_mbs_minus1,
            pic_height_in_map_units_minus1: control.pic_height_in_map_units_minus1,
            flags: control.flags.number(),
        }
    }
}

fn constraint_set_number(flags: &[bool; 6]) -> u8
    ensures { result ≡ constraint_set_number flags.now }
{
    let number = flag(1, flags[0])
        + flag(2, flags[1])
        + flag(4, flags[2])
        + flag(8, flags[3])
        + flag(16, flags[4])
        + flag(32, flags[5]);
    number as u8
}

fn chroma_format_number(chroma_format_idc: ChromaFormat) -> u8
    ensures { result ≡ chroma_format_number chroma_format_idc }
{
    chroma_format_idc as u8
}

fn pic_order_cnt_type_number(pic_order_cnt_type: PicOrderCntType) -> u8
    ensures { result ≡ pic_order_cnt_type_number pic_order_cnt_type }
{
    pic_order_cnt_type as u8
}

fn constraint_set_names<S: Serializer>(flags: &u8, out: &mut S) -> Result<(), S::Error> {
    out.collect_str(&FlagNames {
        flags: u32::from(*flags),
        names: &CONSTRAINT_SETS,
    })
}

fn sps_flag_names<S: Serializer>(flags: &u32, out: &mut S) -> Result<(), S::Error> {
    out.collect_str(&FlagNames {
        flags: *flags,
        names: &SPS_FLAGS,
    })
}
