//! Type 1: the counts are expected by a cycle of offsets, and differences are sent (8.2.1.2).
ghost use Rattle.std.specs.Prelude.{◌≡◌, ◌+◌, ◌*◌, ◌<◌, ◌≤◌, ◌^◌, length, unsigned_abs, pos, ◌*ℤ◌};
ghost use Rattle.slice_decoding.specs.Width.{plain};
ghost use Rattle.slice_decoding.specs.TypeOne.{type_one, abs_frame_num, total, expected, expected_pic_order_cnt};

use crate::order_count::counting::WideCounts;
use h264_types::param_sets::Sps;
use h264_types::slice_headers::SliceHeader;

/// The counts of a picture of type 1, by its FrameNumOffset.
#[tactic(auto, unfolding(crate::specs::TypeOne::type_one))]
pub(crate) fn type_one(frame_num_offset: u32, sps: &Sps, header: &SliceHeader) -> WideCounts
    ensures { plain result ≡ type_one frame_num_offset sps.now header.now }
{
    let expected = expected_pic_order_cnt(frame_num_offset, sps, header);
    let top = expected + i128::from(header.delta_pic_order_cnt0);
    let top_to_bottom = i128::from(sps.offset_for_top_to_bottom_field);
    WideCounts {
        top,
        bottom: top + top_to_bottom + i128::from(header.delta_pic_order_cnt1),
    }
}

// expectedPicOrderCnt (8-9).
fn expected_pic_order_cnt(frame_num_offset: u32, sps: &Sps, header: &SliceHeader) -> i128
    ensures value { result ≡ expected_pic_order_cnt frame_num_offset sps.now header.now }
    ensures bound { unsigned_abs result < 2 ^ 100 }
{
    let offsets = sps.offset_for_ref_frame.as_slice();
    let frames = expected(offsets, abs_frame_num(frame_num_offset, sps, header));
    if header.is_reference() {
        frames
    } else {
        frames + i128::from(sps.offset_for_non_ref_pic)
    }
}

// absFrameNum (8-7).
fn abs_frame_num(frame_num_offset: u32, sps: &Sps, header: &SliceHeader) -> u64
    ensures value { result ≡ abs_frame_num frame_num_offset sps.now header.now }
    ensures bound { result < 2 ^ 33 }
    ensures cycle { 0 < result → 0 < length sps.now.offset_for_ref_frame }
{
    let frames = u64::from(frame_num_offset) + u64::from(header.frame_num);
    if sps.offset_for_ref_frame.as_slice().is_empty() {
        0
    } else if header.is_reference() {
        frames
    } else {
        frames.saturating_sub(1)
    }
}

// The whole cycles before a frame, and its own cycle up to it (8-8, 8-9).
fn expected(offsets: &[i32], abs_frame_num: u64) -> i128
    requires few { length offsets.now ≤ 255 }
    requires small { abs_frame_num < 2 ^ 33 }
    requires cycle { 0 < abs_frame_num → 0 < length offsets.now }
    ensures value { result ≡ expected offsets.now abs_frame_num }
    ensures bound { unsigned_abs result < 2 ^ 99 }
{
    if abs_frame_num == 0 {
        return 0;
    }
    let before = abs_frame_num - 1;
    let cycle = offsets.len() as u64;
    let (own, _) = offsets.split_at((before % cycle) as usize + 1);
    whole_cycles(offsets, before / cycle) + total(own)
}

// The sum of the offsets of as many cycles: ExpectedDeltaPerPicOrderCntCycle for each.
fn whole_cycles(offsets: &[i32], cycles: u64) -> i128
    requires few { length offsets.now ≤ 255 }
    requires small { cycles < 2 ^ 33 }
    ensures value { result ≡ pos cycles *ℤ total offsets.now }
    ensures bound { unsigned_abs result < 2 ^ 98 }
{
    i128::from(cycles) * total(offsets)
}

// The sum of offsets.
fn total(offsets: &[i32]) -> i128
    ensures value { result ≡ total offsets.now }
    ensures bound { unsigned_abs result ≤ length offsets.now * 2 ^ 31 }
{
    let mut sum = 0;
    for offset in offsets {
        sum += i128::from(*offset);
    }
    sum
}
