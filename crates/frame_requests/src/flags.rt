//! The flags of a picture's decode parameters.

ghost use Rattle.std.specs.Prelude.{◌≡◌};
ghost use Rattle.std.specs.List.{list_any};
ghost use Rattle.frame_requests.specs.FrameFlags.{frame_flags, frame_flags_number, is_b, is_p};

use h264_controls::Request;
use h264_types::slice_headers::SliceType;
use param_set_controls::words::flag;

/// V4L2_H264_DECODE_PARAM_FLAG_* of a whole picture, without those that only fields have: FIELD_PIC
/// and BOTTOM_FIELD.
#[derive(Clone, Copy, Debug, PartialEq, Eq)]
pub struct FrameFlags {
    pub idr_pic: bool,
    /// A slice is P, and none is B.
    pub pframe: bool,
    /// A slice is B.
    pub bframe: bool,
}

impl FrameFlags {
    /// Those of a picture of these slices, of which this is the first.
    pub(crate) fn of(slices: &[Request], first: &Request) -> FrameFlags
        ensures { result ≡ frame_flags slices.now first.now }
    {
        let bframe = has_b(slices);
        FrameFlags {
            idr_pic: first.controls().decode_params.flags.idr_pic,
            pframe: has_p(slices) && !bframe,
            bframe,
        }
    }

    /// The flags as Linux numbers them.
    pub fn number(self) -> u32
        ensures { result ≡ frame_flags_number self }
    {
        u32::from(flag(1, self.idr_pic) + flag(8, self.pframe) + flag(16, self.bframe))
    }
}

fn has_p(slices: &[Request]) -> bool
    ensures { result ≡ list_any is_p slices.now }
{
    slices.iter().any(is_p)
}

fn has_b(slices: &[Request]) -> bool
    ensures { result ≡ list_any is_b slices.now }
{
    slices.iter().any(is_b)
}

fn is_p(slice: &Request) -> bool
    ensures { result ≡ is_p slice.now }
{
    matches!(slice.controls().slice_params.slice_type, SliceType::P)
}

fn is_b(slice: &Request) -> bool
    ensures { result ≡ is_b slice.now }
{
    matches!(slice.controls().slice_params.slice_type, SliceType::B)
}
