//! Picture order counts, by values worked out by hand from the standard (8.2.1).

use super::row_holds;
use Kind::{Idr, NoReference, Reference, Resetting};
use h264_types::param_sets::{PicOrderCntType, Sps};
use h264_types::pictures::{Counts, after_reset, resets};
use h264_types::slice_headers::{
    DecRefPicMarking, MemoryManagementControlOperation, MemoryManagementControlOperations,
    RefPicListModifications, SliceHeader,
};
use param_sets::read_sps;
use slice_decoding::order_count::{Anchor, OrderRange, anchor_after, count};
use std::alloc::{AllocError, Global};
use std::process::Abort;
use std::test::Fail;
use test_builders::{p_header_with, small_sps};

// Sets with MaxFrameNum 16: type 0 with MaxPicOrderCntLsb 16; type 1 with -1, 1 and a cycle of 2
// and 4; type 2.
const TYPE_ZERO: &[u8] = &[0x67, 0x42, 0x00, 0x0A, 0xF4, 0xF8];

const TYPE_ONE: &[u8] = &[0x67, 0x42, 0x00, 0x0A, 0xD5, 0xA6, 0x41, 0x09, 0xE4];

const TYPE_TWO: &[u8] = &[0x67, 0x42, 0x00, 0x0A, 0xDA, 0x79];

/// What a picture is.
#[derive(Clone, Copy)]
enum Kind {
    Idr,
    Reference,
    NoReference,
    /// A reference picture with operations 4 and 5, of which these counts are kept.
    Resetting(i32, i32),
}

/// A picture: what it is; its number, as its frame_num and its pic_order_cnt_lsb;
/// delta_pic_order_cnt_bottom and both values of delta_pic_order_cnt; its counts.
type Picture = (Kind, u16, [i32; 3], (i32, i32));

/// No difference.
const NONE: [i32; 3] = [0, 0, 0];

/// How a picture is marked: with operations 4 and 5 where it resets.
fn marking_of(alloc: Global, kind: Kind) -> Result<DecRefPicMarking, AllocError> {
    if !matches!(kind, Kind::Resetting(_, _)) {
        return Ok(DecRefPicMarking::SlidingWindow);
    }
    let mut operations = MemoryManagementControlOperations::new(alloc);
    operations.push(MemoryManagementControlOperation::LimitLongTerm {
        max_long_term_frame_idx_plus1: 0,
    })?;
    operations.push(MemoryManagementControlOperation::FreeAll)?;
    Ok(DecRefPicMarking::Adaptive { operations })
}

/// The header of a slice of a picture.
fn header_of(alloc: Global, picture: &Picture) -> Result<SliceHeader, AllocError> {
    let (kind, number, [bottom, first, second], _) = *picture;
    let marking = marking_of(alloc, kind)?;
    let none_0 = RefPicListModifications::new(alloc);
    let none_1 = RefPicListModifications::new(alloc);
    let mut header = p_header_with(number, none_0, none_1, marking);
    header.nal_unit_type = if matches!(kind, Kind::Idr) { 5 } else { 1 };
    header.nal_ref_idc = u8::from(!matches!(kind, Kind::NoReference));
    header.pic_order_cnt_lsb = number;
    header.delta_pic_order_cnt_bottom = bottom;
    header.delta_pic_order_cnt0 = first;
    header.delta_pic_order_cnt1 = second;
    Ok(header)
}

/// The counts of a picture, and those that are kept of it.
fn counts_of(picture: &Picture) -> (Counts, Counts) {
    let (kind, _, _, (top, bottom)) = *picture;
    let counts = Counts { top, bottom };
    match kind {
        Kind::Resetting(top, bottom) => (counts, Counts { top, bottom }),
        _ => (counts, counts),
    }
}

/// The anchor after a picture that has its counts.
fn counted(anchor: &Anchor, sps: &Sps, header: &SliceHeader, picture: &Picture) -> Option<Anchor> {
    let (counts, kept) = counts_of(picture);
    match count(anchor, sps, header) {
        Ok(answered) if answered == counts && after_reset(header, answered) == kept => {
            Some(anchor_after(anchor, sps, header, answered))
        }
        _ => None,
    }
}

/// The same, by the picture alone.
fn counted_after(
    alloc: Global,
    anchor: &Anchor,
    sps: &Sps,
    picture: &Picture,
) -> Result<Option<Anchor>, AllocError> {
    let header = header_of(alloc, picture)?;
    Ok(counted(anchor, sps, &header, picture))
}

/// The anchor after pictures that have their counts.
fn counted_along(
    alloc: Global,
    anchor: Anchor,
    sps: &Sps,
    pictures: &[Picture],
) -> Result<Option<Anchor>, AllocError> {
    let mut anchor = anchor;
    for picture in pictures {
        match counted_after(alloc, &anchor, sps, picture)? {
            Some(next) => anchor = next,
            None => return Ok(None),
        }
    }
    Ok(Some(anchor))
}

/// The pictures of a stream in decoding order, with a set, and whether counting begins anew after
/// the last one.
type Stream = (&'static [u8], &'static [Picture], bool);

const NEAR_THE_LAST_COUNT: [Stream; 5] = [
    (
        TYPE_ZERO,
        &[
            (Reference, 7, NONE, (7, 7)),
            (Reference, 14, NONE, (14, 14)),
            (Reference, 2, NONE, (18, 18)),
        ],
        false,
    ),
    (
        TYPE_ZERO,
        &[
            (Reference, 0, NONE, (0, 0)),
            (Reference, 8, NONE, (8, 8)),
            (Reference, 0, NONE, (16, 16)),
        ],
        false,
    ),
    (
        TYPE_ZERO,
        &[(Reference, 0, NONE, (0, 0)), (Reference, 9, NONE, (-7, -7))],
        false,
    ),
    // Not from a picture that is no reference, and an IDR picture from 0.
    (
        TYPE_ZERO,
        &[
            (Reference, 7, NONE, (7, 7)),
            (NoReference, 14, NONE, (14, 14)),
            (Reference, 2, NONE, (2, 2)),
        ],
        false,
    ),
    (
        TYPE_ZERO,
        &[
            (Reference, 9, NONE, (-7, -7)),
            (Idr, 8, NONE, (8, 8)),
            (Reference, 0, NONE, (16, 16)),
            (Idr, 9, NONE, (-7, -7)),
        ],
        false,
    ),
];

const BY_A_CYCLE: [Stream; 2] = [
    // The seventeenth frame: eight cycles and the first offset, and the differences.
    (
        TYPE_ONE,
        &[
            (Reference, 3, NONE, (8, 9)),
            (Reference, 1, [0, 10, -20], (60, 41)),
        ],
        false,
    ),
    (TYPE_ONE, &[(NoReference, 3, NONE, (5, 6))], false),
];

const IN_DECODING_ORDER: [Stream; 1] = [
    // frame_num begins again from 0 twice.
    (
        TYPE_TWO,
        &[
            (Idr, 0, NONE, (0, 0)),
            (Reference, 15, NONE, (30, 30)),
            (NoReference, 0, NONE, (31, 31)),
            (Reference, 2, NONE, (36, 36)),
            (Reference, 1, NONE, (66, 66)),
            (Idr, 0, NONE, (0, 0)),
        ],
        true,
    ),
];

const AFTER_OPERATION_FIVE: [Stream; 2] = [
    (TYPE_TWO, &[(Resetting(0, 0), 9, NONE, (18, 18))], true),
    // Of type 0 the picture stands as its top count above the bottom one: 0 is nearer to 9 as 16.
    (
        TYPE_ZERO,
        &[
            (Resetting(9, 0), 6, [-9, 0, 0], (6, -3)),
            (Reference, 0, NONE, (16, 16)),
        ],
        false,
    ),
];

/// Whether the pictures of a stream have their counts.
fn stream_is_right(alloc: Global, stream: &Stream) -> Result<bool, Fail> {
    let (set, pictures, begins_anew) = stream;
    let sps = read_sps(alloc, set)?;
    Ok(match counted_along(alloc, Anchor::new(), &sps, pictures)? {
        Some(anchor) => anchor == Anchor::new() || !*begins_anew,
        None => false,
    })
}

fn are_right(rt: &(impl Abort + AllocGlobal), streams: &[Stream]) -> Result<(), Fail> {
    for (row, stream) in streams.iter().enumerate() {
        row_holds(rt, row, stream_is_right(rt.alloc(), stream)?);
    }
    Ok(())
}

#[test]
fn type_zero_near_the_last_count(rt: HostRuntime) -> Result<(), Fail> {
    are_right(&rt, &NEAR_THE_LAST_COUNT)
}

#[test]
fn type_one_by_a_cycle(rt: HostRuntime) -> Result<(), Fail> {
    are_right(&rt, &BY_A_CYCLE)
}

#[test]
fn type_two_in_decoding_order(rt: HostRuntime) -> Result<(), Fail> {
    are_right(&rt, &IN_DECODING_ORDER)
}

#[test]
fn counting_begins_anew_after_operation_five(rt: HostRuntime) -> Result<(), Fail> {
    are_right(&rt, &AFTER_OPERATION_FIVE)
}

#[test]
fn operation_five_resets(rt: HostRuntime) -> Result<(), Fail> {
    let header = header_of(rt.alloc(), &(Resetting(0, 0), 6, NONE, (0, 0)))?;
    let counts = Counts { top: 6, bottom: -3 };
    assert!(rt; resets(&header) && counts.pic_order_cnt() == -3);
    Ok(())
}

/// A set with this count type, MaxFrameNum 16 and MaxPicOrderCntLsb 16.
fn sps_of(alloc: Global, pic_order_cnt_type: PicOrderCntType) -> Sps {
    let mut sps = small_sps(alloc);
    sps.pic_order_cnt_type = pic_order_cnt_type;
    sps
}

/// Whether a picture is refused after an anchor.
fn is_refused(
    alloc: Global,
    anchor: &Anchor,
    sps: &Sps,
    picture: &Picture,
) -> Result<bool, AllocError> {
    let header = header_of(alloc, picture)?;
    Ok(count(anchor, sps, &header) == Err(OrderRange))
}

/// PicOrderCntMsb of the last reference picture, what a picture of type 0 is after it, and its
/// differences from top to bottom: one that is taken and one that is refused.
const RANGES: [(i64, Kind, i32, i32); 3] = [
    (0x7FFF_FFF0, Reference, 15, 16),
    (-0x8000_0000, Reference, 0, -1),
    // Kept as 2^31 and 0.
    (0, Resetting(0, 0), -0x7FFF_FFFF, -0x8000_0000),
];

/// Whether the one difference is taken and the other one refused.
fn begins_to_refuse(
    alloc: Global,
    sps: &Sps,
    range: &(i64, Kind, i32, i32),
) -> Result<bool, AllocError> {
    let (prev_pic_order_cnt_msb, kind, taken, refused) = *range;
    let anchor = Anchor {
        prev_pic_order_cnt_msb,
        ..Anchor::new()
    };
    let is_taken = !is_refused(alloc, &anchor, sps, &(kind, 0, [taken, 0, 0], (0, 0)))?;
    Ok(is_taken && is_refused(alloc, &anchor, sps, &(kind, 0, [refused, 0, 0], (0, 0)))?)
}

#[test]
fn counts_out_of_range(rt: HostRuntime) -> Result<(), Fail> {
    let sps = sps_of(rt.alloc(), PicOrderCntType::Zero);
    for (row, range) in RANGES.iter().enumerate() {
        row_holds(&rt, row, begins_to_refuse(rt.alloc(), &sps, range)?);
    }
    Ok(())
}

#[test]
fn tells_the_fault(rt: HostRuntime) -> Result<(), Fail> {
    let told = format!(in rt.alloc(); "{OrderRange}")?;
    assert!(rt; told.as_str() == "a picture order count leaves 32 bits");
    Ok(())
}

/// Whether a frame_num that doesn't fall is counted where FrameNumOffset is the last that there is,
/// and one that falls is refused. Of type 1 with an empty cycle, frame numbers don't show in the
/// counts.
fn refuses_the_next_offset(alloc: Global, sps: &Sps) -> Result<bool, AllocError> {
    let anchor = Anchor {
        prev_frame_num_offset: u32::MAX - 15,
        prev_frame_num: 15,
        ..Anchor::new()
    };
    let stays = counted_after(alloc, &anchor, sps, &(Reference, 15, NONE, (0, 0)))?;
    let falls = is_refused(alloc, &anchor, sps, &(Reference, 0, NONE, (0, 0)))?;
    Ok(stays.is_some() && falls && sps.max_frame_num() == 16)
}

#[test]
fn frame_num_offset_out_of_range(rt: HostRuntime) -> Result<(), Fail> {
    let sps = sps_of(rt.alloc(), PicOrderCntType::One);
    assert!(rt; refuses_the_next_offset(rt.alloc(), &sps)?);
    Ok(())
}
