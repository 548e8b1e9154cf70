//! V4L2_CID_STATELESS_H264_SPS.

ghost use Rattle.std.specs.Prelude.{◌≡◌, ◌↔◌, ◌+◌, ◌≤◌, ◌++◌, vec_len, IsTrue, drop, length};
ghost use Rattle.std.specs.Vec.{vec_capacity};
ghost use Rattle.param_set_controls.specs.SpsForm.{chroma_format_number, constraint_set_number, pic_order_cnt_type_number, sps_flags, sps_form};
ghost use Rattle.param_set_controls.specs.SpsControl.{cycle, sps_control, sps_flags_of};

use crate::words::{flag, put, put_s32, put_s32s, put_u16, put_u32};
use h264_types::param_sets::{ChromaFormat, Offsets, PicOrderCntType, Sps};

/// struct v4l2_ctrl_h264_sps: the active sequence parameter set.
#[derive(Debug, Drop)]
pub struct V4l2CtrlH264Sps {
    pub profile_idc: u8,
    /// Flag i is constraint_set`i`_flag.
    pub constraint_set_flags: [bool; 6],
    pub level_idc: u8,
    pub seq_parameter_set_id: u8,
    pub chroma_format_idc: ChromaFormat,
    pub bit_depth_luma_minus8: u8,
    pub bit_depth_chroma_minus8: u8,
    pub log2_max_frame_num_minus4: u8,
    pub pic_order_cnt_type: PicOrderCntType,
    pub log2_max_pic_order_cnt_lsb_minus4: u8,
    pub max_num_ref_frames: u8,
    pub num_ref_frames_in_pic_order_cnt_cycle: u8,
    /// 0 past the cycle.
    pub offset_for_ref_frame: [i32; 255],
    pub offset_for_non_ref_pic: i32,
    pub offset_for_top_to_bottom_field: i32,
    pub pic_width_in_mbs_minus1: u16,
    pub pic_height_in_map_units_minus1: u16,
    pub flags: SpsFlags,
}

/// V4L2_H264_SPS_FLAG_*.
#[derive(Clone, Copy, Debug, PartialEq, Eq)]
pub struct SpsFlags {
    /// Never set here: a sequence with separate colour planes is refused.
    pub separate_colour_plane: bool,
    pub qpprime_y_zero_transform_bypass: bool,
    pub delta_pic_order_always_zero: bool,
    pub gaps_in_frame_num_value_allowed: bool,
    /// Always set here: a sequence with fields is refused.
    pub frame_mbs_only: bool,
    /// Never set here, as no frame has fields.
    pub mb_adaptive_frame_field: bool,
    pub direct_8x8_inference: bool,
}

impl SpsFlags {
    /// Whether all flags are the same.
    fn is_same(self, other: SpsFlags) -> bool
        ensures { IsTrue result ↔ (self ≡ other) }
    {
        self == other
    }

    /// The flags as Linux numbers them.
    pub fn number(self) -> u32
        ensures { result ≡ sps_flags self }
    {
        let number = flag(1, self.separate_colour_plane)
            + flag(2, self.qpprime_y_zero_transform_bypass)
            + flag(4, self.delta_pic_order_always_zero)
            + flag(8, self.gaps_in_frame_num_value_allowed)
            + flag(16, self.frame_mbs_only)
            + flag(32, self.mb_adaptive_frame_field)
            + flag(64, self.direct_8x8_inference);
        u32::from(number)
    }
}

impl V4l2CtrlH264Sps {
    /// Whether all members are the same.
    pub fn is_same(&self, other: &V4l2CtrlH264Sps) -> bool
        ensures { IsTrue result ↔ (self.now ≡ other.now) }
    {
        same_profile(self, other)
            && same_samples(self, other)
            && same_counting(self, other)
            && same_frames(self, other)
            && same_cycle(self, other)
            && self.flags.is_same(other.flags)
    }

    /// Its digest form goes after the form.
    #[tactic(auto, unfolding(crate::specs::SpsForm::sps_form))]
    pub(crate) fn put(&self, form: &mut Vec<u8>)
        requires { vec_len form.old + 1048 ≤ vec_capacity form.old }
        ensures items { form.new.items ≡ form.old.items ++ sps_form self.now }
        ensures len { vec_len form.new ≡ vec_len form.old + 1048 }
        ensures capacity { vec_capacity form.old ≤ vec_capacity form.new }
    {
        let members = [
            self.profile_idc,
            constraint_set_number(&self.constraint_set_flags),
            self.level_idc,
            self.seq_parameter_set_id,
            chroma_format_number(self.chroma_format_idc),
            self.bit_depth_luma_minus8,
            self.bit_depth_chroma_minus8,
            self.log2_max_frame_num_minus4,
            pic_order_cnt_type_number(self.pic_order_cnt_type),
            self.log2_max_pic_order_cnt_lsb_minus4,
            self.max_num_ref_frames,
            self.num_ref_frames_in_pic_order_cnt_cycle,
        ];
        put(form, &members);
        put_s32s(form, &self.offset_for_ref_frame);
        put_s32(form, self.offset_for_non_ref_pic);
        put_s32(form, self.offset_for_top_to_bottom_field);
        put_u16(form, self.pic_width_in_mbs_minus1);
        put_u16(form, self.pic_height_in_map_units_minus1);
        put_u32(form, self.flags.number());
    }
}

/// Whether id, profile and level agree.
fn same_profile(a: &V4l2CtrlH264Sps, b: &V4l2CtrlH264Sps) -> bool
    ensures { IsTrue result ↔ (
        (a.now.profile_idc ≡ b.now.profile_idc)
        × (a.now.level_idc ≡ b.now.level_idc)
        × (a.now.seq_parameter_set_id ≡ b.now.seq_parameter_set_id)
        × (a.now.constraint_set_flags ≡ b.now.constraint_set_flags)
        ) }
{
    a.profile_idc == b.profile_idc
        && a.level_idc == b.level_idc
        && a.seq_parameter_set_id == b.seq_parameter_set_id
        && a.constraint_set_flags == b.constraint_set_flags
}

/// Whether samples are alike.
fn same_samples(a: &V4l2CtrlH264Sps, b: &V4l2CtrlH264Sps) -> bool
    ensures { IsTrue result ↔ (
        (a.now.bit_depth_luma_minus8 ≡ b.now.bit_depth_luma_minus8)
        × (a.now.bit_depth_chroma_minus8 ≡ b.now.bit_depth_chroma_minus8)
        × (a.now.chroma_format_idc ≡ b.now.chroma_format_idc)
        ) }
{
    a.bit_depth_luma_minus8 == b.bit_depth_luma_minus8
        && a.bit_depth_chroma_minus8 == b.bit_depth_chroma_minus8
        && a.chroma_format_idc == b.chroma_format_idc
}

/// Whether frame numbers and picture order counts are counted alike.
fn same_counting(a: &V4l2CtrlH264Sps, b: &V4l2CtrlH264Sps) -> bool
    ensures { IsTrue result ↔ (
        (a.now.log2_max_frame_num_minus4 ≡ b.now.log2_max_frame_num_minus4)
        × (a.now.pic_order_cnt_type ≡ b.now.pic_order_cnt_type)
        × (a.now.log2_max_pic_order_cnt_lsb_minus4 ≡ b.now.log2_max_pic_order_cnt_lsb_minus4)
        ) }
{
    a.log2_max_frame_num_minus4 == b.log2_max_frame_num_minus4
        && a.pic_order_cnt_type == b.pic_order_cnt_type
        && a.log2_max_pic_order_cnt_lsb_minus4 == b.log2_max_pic_order_cnt_lsb_minus4
}

/// Whether frames are as large and as many are kept.
fn same_frames(a: &V4l2CtrlH264Sps, b: &V4l2CtrlH264Sps) -> bool
    ensures { IsTrue result ↔ (
        (a.now.max_num_ref_frames ≡ b.now.max_num_ref_frames)
        × (a.now.pic_width_in_mbs_minus1 ≡ b.now.pic_width_in_mbs_minus1)
        × (a.now.pic_height_in_map_units_minus1 ≡ b.now.pic_height_in_map_units_minus1)
        ) }
{
    a.max_num_ref_frames == b.max_num_ref_frames
        && a.pic_width_in_mbs_minus1 == b.pic_width_in_mbs_minus1
        && a.pic_height_in_map_units_minus1 == b.pic_height_in_map_units_minus1
}

/// Whether the cycles of offsets agree.
fn same_cycle(a: &V4l2CtrlH264Sps, b: &V4l2CtrlH264Sps) -> bool
    ensures { IsTrue result ↔ (
        (a.now.num_ref_frames_in_pic_order_cnt_cycle ≡ b.now.num_ref_frames_in_pic_order_cnt_cycle)
        × (a.now.offset_for_non_ref_pic ≡ b.now.offset_for_non_ref_pic)
        × (a.now.offset_for_top_to_bottom_field ≡ b.now.offset_for_top_to_bottom_field)
        × (a.now.offset_for_ref_frame ≡ b.now.offset_for_ref_frame)
        ) }
{
    a.num_ref_frames_in_pic_order_cnt_cycle == b.num_ref_frames_in_pic_order_cnt_cycle
        && a.offset_for_non_ref_pic == b.offset_for_non_ref_pic
        && a.offset_for_top_to_bottom_field == b.offset_for_top_to_bottom_field
        && a.offset_for_ref_frame == b.offset_for_ref_frame
}

fn constraint_set_number(flags: &[bool; 6]) -> u8
    ensures { result ≡ constraint_set_number flags.now }
{
    let number = flag(1, flags[0])
        + flag(2, flags[1])
        + flag(4, flags[2])
        + flag(8, flags[3])
        + flag(16, flags[4])
        + flag(32, flags[5]);
    number as u8
}

fn chroma_format_number(chroma_format_idc: ChromaFormat) -> u8
    ensures { result ≡ chroma_format_number chroma_format_idc }
{
    chroma_format_idc as u8
}

fn pic_order_cnt_type_number(pic_order_cnt_type: PicOrderCntType) -> u8
    ensures { result ≡ pic_order_cnt_type_number pic_order_cnt_type }
{
    pic_order_cnt_type as u8
}

impl V4l2CtrlH264Sps {
    /// The control of this set.
    pub fn of(sps: &Sps) -> V4l2CtrlH264Sps
        ensures { result ≡ sps_control sps.now }
    {
        V4l2CtrlH264Sps {
            profile_idc: sps.profile_idc,
            constraint_set_flags: sps.constraint_set_flags,
            level_idc: sps.level_idc,
            seq_parameter_set_id: sps.seq_parameter_set_id.get(),
            chroma_format_idc: sps.chroma_format_idc,
            bit_depth_luma_minus8: sps.bit_depth_luma_minus8.get(),
            bit_depth_chroma_minus8: sps.bit_depth_chroma_minus8.get(),
            log2_max_frame_num_minus4: sps.log2_max_frame_num_minus4.get(),
            pic_order_cnt_type: sps.pic_order_cnt_type,
            log2_max_pic_order_cnt_lsb_minus4: sps.log2_max_pic_order_cnt_lsb_minus4.get(),
            max_num_ref_frames: sps.max_num_ref_frames.get(),
            num_ref_frames_in_pic_order_cnt_cycle: sps.num_ref_frames_in_pic_order_cnt_cycle,
            offset_for_ref_frame: cycle(&sps.offset_for_ref_frame),
            offset_for_non_ref_pic: sps.offset_for_non_ref_pic,
            offset_for_top_to_bottom_field: sps.offset_for_top_to_bottom_field,
            pic_width_in_mbs_minus1: sps.pic_width_in_mbs_minus1,
            pic_height_in_map_units_minus1: sps.pic_height_in_map_units_minus1,
            flags: flags_of(sps),
        }
    }
}

fn flags_of(sps: &Sps) -> SpsFlags
    ensures { result ≡ sps_flags_of sps.now }
{
    SpsFlags {
        separate_colour_plane: false,
        qpprime_y_zero_transform_bypass: sps.qpprime_y_zero_transform_bypass_flag,
        delta_pic_order_always_zero: sps.delta_pic_order_always_zero_flag,
        gaps_in_frame_num_value_allowed: sps.gaps_in_frame_num_value_allowed_flag,
        frame_mbs_only: true,
        mb_adaptive_frame_field: false,
        direct_8x8_inference: sps.direct_8x8_inference_flag,
    }
}

/// The offsets of the cycle, and zeros past it.
fn cycle(offsets: &Offsets) -> [i32; 255]
    ensures { result ≡ cycle offsets.now }
{
    let mut places = [0; 255];
    put_first(&mut places, offsets.as_slice());
    places
}

/// Puts the offsets into the first places.
fn put_first(places: &mut [i32], offsets: &[i32])
    requires { length offsets.now ≤ length places.old }
    ensures { places.new ≡ offsets.now ++ drop (length offsets.now) places.old }
{
    places[..offsets.len()].copy_from_slice(offsets);
}
