ghost use Rattle.std.specs.Prelude.{◌≡◌, IsTrue, IfOk, Ok, Err, if◌then◌else◌};
ghost use Rattle.h264_types.specs.PicOrderCnt.{are_in_range};
ghost use Rattle.h264_types.specs.Resetting.{counts_after_reset};
ghost use Rattle.slice_decoding.specs.Counting.{counts_of};
ghost use Rattle.slice_decoding.specs.Width.{plain};

use crate::order_count::anchors::Anchor;
use crate::order_count::frame_numbers::small_offset;
use crate::order_count::type_one::type_one;
use crate::order_count::type_two::type_two;
use crate::order_count::type_zero::type_zero;
use h264_types::param_sets::{PicOrderCntType, Sps};
use h264_types::pictures::{Counts, resets};
use h264_types::slice_headers::SliceHeader;
use thiserror::Error;

/// A count, before or after resetting, that leaves 32 signed bits, or a FrameNumOffset of 2^32 or
/// more.
#[derive(Clone, Copy, Debug, PartialEq, Eq, Hash, Error)]
#[error("a picture order count leaves 32 bits")]
pub struct OrderRange;

// Counts that were not yet tested: their width holds whatever an anchor, a set and a header lead
// to.
#[derive(Clone, Copy)]
pub(crate) struct WideCounts {
    pub(crate) top: i128,
    pub(crate) bottom: i128,
}

impl WideCounts {
    // The counts, where both are in range.
    pub(crate) fn in_range(self) -> Result<Counts, OrderRange>
        ensures { result
            ≡ (if are_in_range (plain self) then Ok (plain self) else Err (record {})) }
    {
        match (i32::try_from(self.top), i32::try_from(self.bottom)) {
            (Ok(top), Ok(bottom)) => Ok(Counts { top, bottom }),
            _ => Err(OrderRange),
        }
    }
}

/// The counts of a picture, before operation 5 resets them.
///
/// OrderRange is refused where one of them, or of what `after_reset` keeps of them, has more than
/// 32 bits, and where the type of counting reads a FrameNumOffset of 2^32 or more.
#[tactic(auto, unfolding(crate::specs::Counting::counts_of))]
pub fn count(anchor: &Anchor, sps: &Sps, header: &SliceHeader) -> Result<Counts, OrderRange>
    ensures exact { result ≡ counts_of anchor.now sps.now header.now }
    ensures kept { IfOk result (λ counts. IsTrue
        (are_in_range (counts_after_reset header.now counts))) }
{
    let counts = match sps.pic_order_cnt_type {
        PicOrderCntType::Zero => type_zero(anchor, sps, header),
        PicOrderCntType::One => type_one(small_offset(anchor, sps, header)?, sps, header),
        PicOrderCntType::Two => type_two(small_offset(anchor, sps, header)?, header),
    };
    let counts = counts.in_range()?;
    if can_be_kept(header, counts) {
        Ok(counts)
    } else {
        Err(OrderRange)
    }
}

// Whether what is kept of the counts is in range.
#[tactic(auto, unfolding(h264_types::specs::Resetting::counts_after_reset))]
fn can_be_kept(header: &SliceHeader, counts: Counts) -> bool
    ensures { result ≡ are_in_range (counts_after_reset header.now counts) }
{
    !resets(header) || counts.top.abs_diff(counts.bottom) < 1 << 31
}
