//! Type 2: pictures are shown in decoding order (8.2.1.3).
ghost use Rattle.std.specs.Prelude.{◌≡◌};
ghost use Rattle.slice_decoding.specs.Width.{plain};
ghost use Rattle.slice_decoding.specs.TypeTwo.{type_two, temp_pic_order_cnt};

use crate::order_count::counting::WideCounts;
use h264_types::slice_headers::SliceHeader;

/// The counts of a picture of type 2, by its FrameNumOffset.
#[tactic(auto, unfolding(crate::specs::TypeTwo::type_two))]
pub(crate) fn type_two(frame_num_offset: u32, header: &SliceHeader) -> WideCounts
    ensures { plain result ≡ type_two frame_num_offset header.now }
{
    let count = temp_pic_order_cnt(frame_num_offset, header);
    WideCounts {
        top: count,
        bottom: count,
    }
}

// tempPicOrderCnt (8-12).
fn temp_pic_order_cnt(frame_num_offset: u32, header: &SliceHeader) -> i128
    ensures { result ≡ temp_pic_order_cnt frame_num_offset header.now }
{
    let doubled = 2 * (i128::from(frame_num_offset) + i128::from(header.frame_num));
    if header.is_idr() {
        0
    } else if header.is_reference() {
        doubled
    } else {
        doubled - 1
    }
}
