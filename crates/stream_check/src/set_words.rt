//! Sequence parameter sets in words (7.4.2.1.1, annex A).

ghost use Rattle.std.specs.Prelude.{◌≡◌, Some};
ghost use Rattle.stream_check.specs.SetWords.{chroma_words, is_1b, level_of, level_text, order_count_type, profile_of, profile_words, set_words};

use h264_types::param_sets::{ChromaFormat, PicOrderCntType, Sps};
use param_sets::cropping::Size;
use std::fmt;
use std::fmt::{Display, Formatter, Write};

/// What a sequence parameter set says, for a reader. Printed, it is a line without its end.
#[derive(Clone, Copy, PartialEq, Eq)]
pub struct SetWords {
    pub seq_parameter_set_id: u8,
    /// The profile's name.
    pub profile: Profile,
    pub level: Level,
    /// The size of a frame in luma samples, after cropping.
    pub width: u32,
    pub height: u32,
    pub chroma: ChromaFormat,
    /// How many bits a luma and a chroma sample has.
    pub luma_bits: u8,
    pub chroma_bits: u8,
    /// How many bits frame_num has.
    pub frame_num_bits: u8,
    pub pic_order_cnt_type: u8,
    pub max_num_ref_frames: u8,
}

/// A profile that is read (A.2).
#[derive(Clone, Copy, PartialEq, Eq)]
pub enum Profile {
    Baseline,
    ConstrainedBaseline,
    Main,
    High,
    High10,
    High422,
}

/// A level (A.3): level_idc, and whether it is level 1b.
#[derive(Clone, Copy, PartialEq, Eq)]
pub struct Level {
    pub level_idc: u8,
    pub is_1b: bool,
}

impl SetWords {
    /// What the set says, whose frames have this size after cropping.
    pub fn of(sps: &Sps, size: Size) -> SetWords
        ensures { result ≡ set_words sps.now size }
    {
        SetWords {
            seq_parameter_set_id: sps.seq_parameter_set_id.get(),
            profile: Profile::of(sps),
            level: Level::of(sps),
            width: size.width,
            height: size.height,
            chroma: sps.chroma_format_idc,
            luma_bits: sps.bit_depth_luma_minus8.get() + 8,
            chroma_bits: sps.bit_depth_chroma_minus8.get() + 8,
            frame_num_bits: sps.log2_max_frame_num_minus4.get() + 4,
            pic_order_cnt_type: order_count_type(sps.pic_order_cnt_type),
            max_num_ref_frames: sps.max_num_ref_frames.get(),
        }
    }
}

impl Profile {
    /// The profile of the set.
    fn of(sps: &Sps) -> Profile
        ensures { result ≡ profile_of sps.now }
    {
        match sps.profile_idc {
            66 if sps.constraint_set_flags[1] => Profile::ConstrainedBaseline,
            66 => Profile::Baseline,
            77 => Profile::Main,
            110 => Profile::High10,
            122 => Profile::High422,
            _ => Profile::High,
        }
    }
}

impl Level {
    /// The level of the set.
    fn of(sps: &Sps) -> Level
        ensures { result ≡ level_of sps.now }
    {
        Level {
            level_idc: sps.level_idc,
            is_1b: is_1b(sps),
        }
    }
}

/// Whether the set says level 1b: by constraint_set3_flag in profiles that aren't high.
fn is_1b(sps: &Sps) -> bool
    ensures { result ≡ is_1b sps.now }
{
    if sps.is_high() {
        sps.level_idc == 9
    } else {
        sps.level_idc == 11 && sps.constraint_set_flags[3]
    }
}

/// pic_order_cnt_type as a number.
fn order_count_type(order_count: PicOrderCntType) -> u8
    ensures { result ≡ order_count_type order_count }
{
    match order_count {
        PicOrderCntType::Zero => 0,
        PicOrderCntType::One => 1,
        PicOrderCntType::Two => 2,
    }
}

/// What the chroma format is called.
pub fn chroma_words(chroma: ChromaFormat) -> &'static str
    ensures { result.now ≡ chroma_words chroma }
{
    match chroma {
        ChromaFormat::Monochrome => "monochrome",
        ChromaFormat::Yuv420 => "4:2:0",
        ChromaFormat::Yuv422 => "4:2:2",
    }
}

/// What the profile is called.
pub fn profile_words(profile: Profile) -> &'static str
    ensures { result.now ≡ profile_words profile }
{
    match profile {
        Profile::Baseline => "Baseline",
        Profile::ConstrainedBaseline => "Constrained Baseline",
        Profile::Main => "Main",
        Profile::High => "High",
        Profile::High10 => "High 10",
        Profile::High422 => "High 4:2:2",
    }
}

impl Display for Level {
    ghost output = { λ level. Some (level_text level) };

    fn fmt<W: Write>(&self, f: &mut Formatter<W>) -> fmt::Result {
        if self.is_1b {
            f.write_str("1b")
        } else {
            let (whole, part) = (self.level_idc / 10, self.level_idc % 10);
            write!(f, "{whole}.{part}")
        }
    }
}

impl Display for SetWords {
    fn fmt<W: Write>(&self, f: &mut Formatter<W>) -> fmt::Result {
        let (id, profile, level) = (
            self.seq_parameter_set_id,
            profile_words(self.profile),
            self.level,
        );
        write!(
            f,
            "sequence parameter set {id}: {profile} profile, level {level}, "
        )?;
        let (width, height, chroma) = (self.width, self.height, chroma_words(self.chroma));
        let (luma, chroma_bits) = (self.luma_bits, self.chroma_bits);
        write!(
            f,
            "{width}x{height}, {chroma}, {luma} bits of luma and {chroma_bits} of chroma, "
        )?;
        let (bits, order, frames) = (
            self.frame_num_bits,
            self.pic_order_cnt_type,
            self.max_num_ref_frames,
        );
        write!(
            f,
            "frame_num of {bits} bits, pic_order_cnt_type {order}, max_num_ref_frames {frames}"
        )
    }
}
