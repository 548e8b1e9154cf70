//! The size of a frame (7.4.2.1.1).

ghost use Rattle.std.specs.Prelude.{◌≡◌, ◌≤◌, ◌+◌, ◌-◌, ◌*◌, IfOk};
ghost use Rattle.param_sets.specs.Sizes.{cropped_size, crop_unit_x, crop_unit_y};

use crate::cropping::cropping::cropping_of;
use h264_types::param_sets::{ChromaFormat, Sps};
use std::alloc::{AllocError, Global};

/// The size of a frame in luma samples.
#[derive(Clone, Copy, Debug, PartialEq, Eq)]
pub struct Size {
    pub width: u32,
    pub height: u32,
}

/// The size of a frame after cropping, by the payload of a sequence parameter set, the NAL unit's
/// first byte included, from which this set was read. Where the payload ends before the offsets
/// nothing is cropped.
pub fn cropped_size(alloc: Global, payload: &[u8], sps: &Sps) -> Result<Size, AllocError>
    ensures { IfOk result (λ size. size ≡ cropped_size payload.now sps.now) }
{
    let cropping = cropping_of(alloc, payload, sps)?;
    let (unit_x, unit_y) = (
        crop_unit_x(sps.chroma_format_idc),
        crop_unit_y(sps.chroma_format_idc),
    );
    Ok(Size {
        width: cropped(
            sps.pic_width_in_mbs_minus1,
            unit_x,
            cropping.left,
            cropping.right,
        ),
        height: cropped(
            sps.pic_height_in_map_units_minus1,
            unit_y,
            cropping.top,
            cropping.bottom,
        ),
    })
}

/// The samples of so many macroblocks and one more, without so many units at both ends.
fn cropped(macroblocks_minus1: u16, unit: u32, first: u32, last: u32) -> u32
    requires { unit ≤ 2 }
    ensures { result ≡ (macroblocks_minus1 + 1) * 16 - unit * (first + last) }
{
    let samples = (u64::from(macroblocks_minus1) + 1) * 16;
    let cut = u64::from(unit) * (u64::from(first) + u64::from(last));
    samples.saturating_sub(cut) as u32
}

/// CropUnitX (7-19, 7-21).
fn crop_unit_x(chroma: ChromaFormat) -> u32
    ensures value { result ≡ crop_unit_x chroma }
    ensures bound { result ≤ 2 }
{
    match chroma {
        ChromaFormat::Monochrome => 1,
        ChromaFormat::Yuv420 => 2,
        ChromaFormat::Yuv422 => 2,
    }
}

/// CropUnitY, where frame_mbs_only_flag is 1 (7-20, 7-22).
fn crop_unit_y(chroma: ChromaFormat) -> u32
    ensures value { result ≡ crop_unit_y chroma }
    ensures bound { result ≤ 2 }
{
    match chroma {
        ChromaFormat::Monochrome => 1,
        ChromaFormat::Yuv420 => 2,
        ChromaFormat::Yuv422 => 1,
    }
}
