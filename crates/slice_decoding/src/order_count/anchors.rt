//! What counting keeps of the pictures before (8.2.1).

ghost use Rattle.std.specs.Prelude.{◌≡◌, Ok, ◌<◌, ◌^◌};
ghost use Rattle.slice_decoding.specs.FrameNumbers.{frame_num_offset};
ghost use Rattle.slice_decoding.specs.Counting.{counts_of};
ghost use Rattle.slice_decoding.specs.Anchors.{no_pictures, of_reference_picture, of_picture, anchor_after_of};

use crate::order_count::frame_numbers::frame_num_offset;
use crate::order_count::type_zero::pic_order_cnt_msb;
use h264_types::param_sets::{PicOrderCntType, Sps};
use h264_types::pictures::{Counts, after_reset, resets};
use h264_types::slice_headers::SliceHeader;

/// What counting keeps of the pictures before. What the type of counting doesn't read is 0.
#[derive(Clone, Copy, Debug, PartialEq, Eq)]
pub struct Anchor {
    /// prevPicOrderCntMsb of type 0: of the previous reference picture.
    pub prev_pic_order_cnt_msb: i64,
    /// prevPicOrderCntLsb of type 0; its top count where operation 5 stood.
    pub prev_pic_order_cnt_lsb: i32,
    /// prevFrameNumOffset of types 1 and 2: of the previous picture.
    pub prev_frame_num_offset: u32,
    /// prevFrameNum of types 1 and 2.
    pub prev_frame_num: u16,
}

impl Anchor {
    /// The anchor of the first picture.
    pub fn new() -> Anchor
        ensures { result ≡ no_pictures }
    {
        Anchor {
            prev_pic_order_cnt_msb: 0,
            prev_pic_order_cnt_lsb: 0,
            prev_frame_num_offset: 0,
            prev_frame_num: 0,
        }
    }
}

/// The anchor of the next picture, after this one, whose counts `count` answered.
#[tactic(auto, unfolding(crate::specs::Anchors::anchor_after_of))]
pub fn anchor_after(anchor: &Anchor, sps: &Sps, header: &SliceHeader, counts: Counts) -> Anchor
    requires { counts_of anchor.now sps.now header.now ≡ Ok counts }
    ensures { result ≡ anchor_after_of anchor.now sps.now header.now counts }
{
    match sps.pic_order_cnt_type {
        PicOrderCntType::Zero if !header.is_reference() => *anchor,
        PicOrderCntType::Zero => of_reference_picture(anchor, sps, header, counts),
        PicOrderCntType::One | PicOrderCntType::Two => of_picture(anchor, sps, header),
    }
}

// What is kept of a reference picture of type 0.
fn of_reference_picture(anchor: &Anchor, sps: &Sps, header: &SliceHeader, counts: Counts) -> Anchor
    requires zero { sps.now.pic_order_cnt_type ≡ PicOrderCntType.Zero }
    requires counted { counts_of anchor.now sps.now header.now ≡ Ok counts }
    ensures { result ≡ of_reference_picture anchor.now sps.now header.now counts }
{
    if resets(header) {
        Anchor {
            prev_pic_order_cnt_lsb: after_reset(header, counts).top,
            ..Anchor::new()
        }
    } else {
        let lsb = i32::from(header.pic_order_cnt_lsb);
        Anchor {
            prev_pic_order_cnt_msb: pic_order_cnt_msb(anchor, sps, header) as i64,
            prev_pic_order_cnt_lsb: lsb,
            ..Anchor::new()
        }
    }
}

// What is kept of a picture of type 1 or 2.
fn of_picture(anchor: &Anchor, sps: &Sps, header: &SliceHeader) -> Anchor
    requires { frame_num_offset anchor.now sps.now header.now < 2 ^ 32 }
    ensures { result ≡ of_picture anchor.now sps.now header.now }
{
    if resets(header) {
        return Anchor::new();
    }
    Anchor {
        prev_frame_num_offset: frame_num_offset(anchor, sps, header) as u32,
        prev_frame_num: header.frame_num,
        ..Anchor::new()
    }
}
