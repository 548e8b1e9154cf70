//! Type 0: the counts are sent, without their high bits (8.2.1.1).
ghost use Rattle.std.specs.Prelude.{◌≡◌, ◌<◌, ◌≤◌, ◌^◌, pos, unsigned_abs};
ghost use Rattle.slice_decoding.specs.Width.{plain};
ghost use Rattle.slice_decoding.specs.TypeZero.{type_zero, pic_order_cnt_msb, max_pic_order_cnt_lsb, msb_near};

use crate::order_count::anchors::Anchor;
use crate::order_count::counting::WideCounts;
use h264_types::param_sets::Sps;
use h264_types::slice_headers::SliceHeader;

/// The counts of a picture of type 0.
#[tactic(auto, unfolding(crate::specs::TypeZero::type_zero))]
pub(crate) fn type_zero(anchor: &Anchor, sps: &Sps, header: &SliceHeader) -> WideCounts
    ensures { plain result ≡ type_zero anchor.now sps.now header.now }
{
    let top = pic_order_cnt_msb(anchor, sps, header) + i128::from(header.pic_order_cnt_lsb);
    WideCounts {
        top,
        bottom: top + i128::from(header.delta_pic_order_cnt_bottom),
    }
}

/// PicOrderCntMsb: an IDR picture counts from 0, another one from the previous reference picture.
pub(crate) fn pic_order_cnt_msb(anchor: &Anchor, sps: &Sps, header: &SliceHeader) -> i128
    ensures value { result ≡ pic_order_cnt_msb anchor.now sps.now header.now }
    ensures bound { unsigned_abs result < 2 ^ 64 }
{
    let lsb = header.pic_order_cnt_lsb;
    let max = max_pic_order_cnt_lsb(sps);
    if header.is_idr() {
        msb_near(0, 0, lsb, max)
    } else {
        msb_near(
            anchor.prev_pic_order_cnt_msb,
            anchor.prev_pic_order_cnt_lsb,
            lsb,
            max,
        )
    }
}

// PicOrderCntMsb, one round of pic_order_cnt_lsb further or back where this brings the count nearer
// (8-3).
fn msb_near(prev_msb: i64, prev_lsb: i32, lsb: u16, max: u32) -> i128
    requires { 2 ≤ max }
    ensures value { result ≡ msb_near prev_msb prev_lsb (pos lsb) max }
    ensures bound { unsigned_abs result < 2 ^ 64 }
{
    let prev_msb = i128::from(prev_msb);
    let difference = i64::from(lsb) - i64::from(prev_lsb);
    let half = i64::from(max / 2);
    if difference <= -half {
        prev_msb + i128::from(max)
    } else if difference > half {
        prev_msb - i128::from(max)
    } else {
        prev_msb
    }
}

// MaxPicOrderCntLsb: pic_order_cnt_lsb counts up to it, and then from 0 again (7-11).
fn max_pic_order_cnt_lsb(sps: &Sps) -> u32
    ensures value { result ≡ max_pic_order_cnt_lsb sps.now }
    ensures bound { 2 ≤ result }
{
    1 << (sps.log2_max_pic_order_cnt_lsb_minus4.get() + 4)
}
