//! A sequence parameter set (7.3.2.1.1, 7.4.2.1.1).

ghost use Rattle.std.specs.Prelude.{◌≡◌, ◌≤◌, ◌+◌, ◌*◌, ◌^◌};
ghost use Rattle.h264_types.specs.FrameNumbers.{max_frame_num};
ghost use Rattle.h264_types.specs.Profiles.{is_high};

use crate::base::AtMost;
use crate::param_sets::offsets::Offsets;
use crate::param_sets::scaling_lists::ScalingLists;

/// chroma_format_idc, but for 4:4:4.
#[derive(Clone, Copy, Debug, PartialEq, Eq)]
pub enum ChromaFormat {
    Monochrome = 0,
    Yuv420 = 1,
    Yuv422 = 2,
}

/// pic_order_cnt_type.
#[derive(Clone, Copy, Debug, PartialEq, Eq)]
pub enum PicOrderCntType {
    Zero = 0,
    One = 1,
    Two = 2,
}

/// A sequence parameter set.
#[derive(Debug)]
pub struct Sps {
    pub profile_idc: u8,
    pub constraint_set_flags: [bool; 6],
    pub level_idc: u8,
    pub seq_parameter_set_id: AtMost<31>,
    pub chroma_format_idc: ChromaFormat,
    pub bit_depth_luma_minus8: AtMost<6>,
    pub bit_depth_chroma_minus8: AtMost<6>,
    pub qpprime_y_zero_transform_bypass_flag: bool,
    pub seq_scaling_matrix_present_flag: bool,
    pub scaling_lists: ScalingLists,
    pub log2_max_frame_num_minus4: AtMost<12>,
    pub pic_order_cnt_type: PicOrderCntType,
    pub log2_max_pic_order_cnt_lsb_minus4: AtMost<12>,
    pub delta_pic_order_always_zero_flag: bool,
    pub offset_for_non_ref_pic: i32,
    pub offset_for_top_to_bottom_field: i32,
    pub num_ref_frames_in_pic_order_cnt_cycle: u8,
    pub offset_for_ref_frame: Offsets,
    pub max_num_ref_frames: AtMost<16>,
    pub gaps_in_frame_num_value_allowed_flag: bool,
    pub pic_width_in_mbs_minus1: u16,
    pub pic_height_in_map_units_minus1: u16,
    pub direct_8x8_inference_flag: bool,
}

// By hand, so that whoever drops one is proved over one call.
impl Drop for Sps {
    fn drop(self) {
        let Sps {
            profile_idc: _,
            constraint_set_flags: _,
            level_idc: _,
            seq_parameter_set_id: _,
            chroma_format_idc: _,
            bit_depth_luma_minus8: _,
            bit_depth_chroma_minus8: _,
            qpprime_y_zero_transform_bypass_flag: _,
            seq_scaling_matrix_present_flag: _,
            scaling_lists: _,
            log2_max_frame_num_minus4: _,
            pic_order_cnt_type: _,
            log2_max_pic_order_cnt_lsb_minus4: _,
            delta_pic_order_always_zero_flag: _,
            offset_for_non_ref_pic: _,
            offset_for_top_to_bottom_field: _,
            num_ref_frames_in_pic_order_cnt_cycle: _,
            offset_for_ref_frame: _,
            max_num_ref_frames: _,
            gaps_in_frame_num_value_allowed_flag: _,
            pic_width_in_mbs_minus1: _,
            pic_height_in_map_units_minus1: _,
            direct_8x8_inference_flag: _,
        } = self;
    }
}

impl Sps {
    /// Whether the profile is one that sends a chroma format, bit depths and scaling lists.
    pub fn is_high(&self) -> bool
        ensures { result ≡ is_high self.now }
    {
        matches!(self.profile_idc, 100 | 110 | 122)
    }

    /// MaxFrameNum, the modulus of frame_num (7.4.2.1.1).
    pub fn max_frame_num(&self) -> u32
        ensures value { result ≡ max_frame_num self.now }
        ensures least { 16 ≤ result }
        ensures most { result ≤ 2 ^ 16 }
    {
        1 << (self.log2_max_frame_num_minus4.get() + 4)
    }

    /// How many macroblocks a frame has (7.4.2.1.1).
    pub fn pic_size_in_mbs(&self) -> u64
        ensures value { result
            ≡ (self.now.pic_width_in_mbs_minus1 + 1) *
            (self.now.pic_height_in_map_units_minus1 + 1) }
        ensures bound { result ≤ 2 ^ 32 }
    {
        let width_minus1 = self.pic_width_in_mbs_minus1;
        let height_minus1 = self.pic_height_in_map_units_minus1;
        (u64::from(width_minus1) + 1) * (u64::from(height_minus1) + 1)
    }
}
