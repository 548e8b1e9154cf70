//! FrameNumOffset, which counts the rounds of frame_num (8.2.1.2).
ghost use Rattle.std.specs.Prelude.{◌≡◌, ◌<◌, ◌≤◌, ◌^◌, Ok, Err, nat_lt, if◌then◌else◌};
ghost use Rattle.slice_decoding.specs.FrameNumbers.{frame_num_offset};

use crate::order_count::anchors::Anchor;
use crate::order_count::counting::OrderRange;
use h264_types::param_sets::Sps;
use h264_types::slice_headers::SliceHeader;

/// FrameNumOffset of a picture of type 1 or 2 (8-6).
pub(crate) fn frame_num_offset(anchor: &Anchor, sps: &Sps, header: &SliceHeader) -> u64
    ensures value { result ≡ frame_num_offset anchor.now sps.now header.now }
    ensures bound { result < 2 ^ 33 }
{
    let prev_offset = u64::from(anchor.prev_frame_num_offset);
    if header.is_idr() {
        0
    } else if header.frame_num < anchor.prev_frame_num {
        prev_offset + u64::from(sps.max_frame_num())
    } else {
        prev_offset
    }
}

/// FrameNumOffset, where it is below 2^32.
pub(crate) fn small_offset(
    anchor: &Anchor,
    sps: &Sps,
    header: &SliceHeader,
) -> Result<u32, OrderRange>
    ensures { let offset = frame_num_offset anchor.now sps.now header.now in
        result ≡ (if nat_lt offset (2 ^ 32) then Ok offset else Err (record {})) }
{
    match u32::try_from(frame_num_offset(anchor, sps, header)) {
        Ok(offset) => Ok(offset),
        Err(_) => Err(OrderRange),
    }
}
