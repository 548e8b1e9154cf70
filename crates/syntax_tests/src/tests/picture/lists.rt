//! Reference lists, by values worked out by hand from the standard (8.2.4).

mod rows;

use super::row_holds;
use h264_types::base::AtMost;
use h264_types::param_sets::{PicOrderCntType, Sps};
use h264_types::pictures::{AuId, Counts, List, Marks};
use h264_types::slice_headers::{
    DecRefPicMarking, MemoryManagementControlOperation, MemoryManagementControlOperations,
    RefPicListModification as Command, RefPicListModifications, SliceHeader, SliceType,
};
use slice_decoding::order_count::{Anchor, count};
use slice_decoding::ref_lists::{ListFault, lists};
use slice_decoding::ref_marking::mark;
use std::alloc::{AllocError, Global};
use std::process::Abort;
use std::test::Fail;
use test_builders::{p_header_with, small_sps};

/// A set with MaxFrameNum 16, MaxPicOrderCntLsb 65536 and 16 reference frames.
fn sps_of_sixteen(alloc: Global) -> Sps {
    let mut sps = small_sps(alloc);
    sps.pic_order_cnt_type = PicOrderCntType::Zero;
    sps.log2_max_pic_order_cnt_lsb_minus4 = AtMost::new(12);
    sps.max_num_ref_frames = AtMost::new(16);
    sps
}

/// A frame to be marked: its frame_num, its count, and its LongTermFrameIdx, if it is to be a
/// long-term frame.
type Picture = (u16, u16, Option<u32>);

/// A slice: its type, frame_num, PicOrderCnt, how many entries are active in both lists, and the
/// commands of both.
type Slice = (
    SliceType,
    u16,
    i32,
    u8,
    &'static [Command],
    &'static [Command],
);

/// The entries of a list.
type Entries = &'static [Option<u8>];

/// Pictures, a slice after them, and its lists, or why it has none.
type Row = (
    &'static [Picture],
    Slice,
    Result<(Entries, Entries), ListFault>,
);

fn commands(alloc: Global, slice: &[Command]) -> Result<RefPicListModifications, AllocError> {
    let mut commands = RefPicListModifications::new(alloc);
    for command in slice {
        commands.push(*command)?;
    }
    Ok(commands)
}

fn header_of(alloc: Global, slice: &Slice) -> Result<SliceHeader, AllocError> {
    let (slice_type, frame_num, _, active, commands_0, commands_1) = slice;
    let commands_0 = commands(alloc, commands_0)?;
    let commands_1 = commands(alloc, commands_1)?;
    let window = DecRefPicMarking::SlidingWindow;
    let mut header = p_header_with(*frame_num, commands_0, commands_1, window);
    let active_minus1 = active.saturating_sub(1).min(31);
    header.slice_type = *slice_type;
    header.num_ref_idx_l0_active_minus1 = AtMost::new(active_minus1);
    header.num_ref_idx_l1_active_minus1 = AtMost::new(active_minus1);
    Ok(header)
}

/// How a picture is marked: as a long-term frame where it has an index.
fn marking(alloc: Global, index: Option<u32>) -> Result<DecRefPicMarking, AllocError> {
    let Some(long_term_frame_idx) = index else {
        return Ok(DecRefPicMarking::SlidingWindow);
    };
    let mut operations = MemoryManagementControlOperations::new(alloc);
    operations.push(MemoryManagementControlOperation::LimitLongTerm {
        max_long_term_frame_idx_plus1: 16,
    })?;
    operations.push(MemoryManagementControlOperation::CurrentLongTerm {
        long_term_frame_idx,
    })?;
    Ok(DecRefPicMarking::Adaptive { operations })
}

/// The header of a picture to be marked.
fn picture_header(alloc: Global, picture: &Picture) -> Result<SliceHeader, AllocError> {
    let marking = marking(alloc, picture.2)?;
    let none_0 = RefPicListModifications::new(alloc);
    let none_1 = RefPicListModifications::new(alloc);
    let mut header = p_header_with(picture.0, none_0, none_1, marking);
    header.pic_order_cnt_lsb = picture.1;
    Ok(header)
}

/// The marks after a picture with this header.
fn marked_by(sps: &Sps, marks: &Marks, header: &SliceHeader) -> Option<Marks> {
    match count(&Anchor::new(), sps, header) {
        Ok(counts) => mark(marks, AuId::new(1), sps, header, counts).ok(),
        Err(_) => None,
    }
}

/// The marks after one picture more.
fn marked_after(
    alloc: Global,
    sps: &Sps,
    marks: &Marks,
    picture: &Picture,
) -> Result<Option<Marks>, AllocError> {
    let header = picture_header(alloc, picture)?;
    Ok(marked_by(sps, marks, &header))
}

/// The marks after these pictures.
fn marked(alloc: Global, sps: &Sps, pictures: &[Picture]) -> Result<Option<Marks>, AllocError> {
    let mut marks = Marks::new();
    for picture in pictures {
        match marked_after(alloc, sps, &marks, picture)? {
            Some(after) => marks = after,
            None => return Ok(None),
        }
    }
    Ok(Some(marks))
}

/// The lists of a slice.
fn lists_of(
    alloc: Global,
    sps: &Sps,
    marks: &Marks,
    slice: &Slice,
) -> Result<Result<(List, List), ListFault>, AllocError> {
    let header = header_of(alloc, slice)?;
    let counts = Counts {
        top: slice.2,
        bottom: slice.2,
    };
    Ok(lists(marks, sps, &header, counts))
}

/// Whether these are the lists, or this is why there are none.
fn are_lists(
    found: &Result<(List, List), ListFault>,
    wanted: &Result<(Entries, Entries), ListFault>,
) -> bool {
    match (found, wanted) {
        (Ok((list_0, list_1)), Ok((entries_0, entries_1))) => {
            list_0.entries() == *entries_0 && list_1.entries() == *entries_1
        }
        (Err(fault), Err(wanted)) => *fault == *wanted,
        _ => false,
    }
}

fn is_copied(list: &List) -> bool {
    list.copy() == *list
}

/// Whether the lists are their copies.
fn are_copied(found: &Result<(List, List), ListFault>) -> bool {
    match found {
        Ok((list_0, list_1)) => is_copied(list_0) && is_copied(list_1),
        Err(_) => true,
    }
}

fn row_is_right(alloc: Global, sps: &Sps, row: &Row) -> Result<bool, AllocError> {
    let Some(marks) = marked(alloc, sps, row.0)? else {
        return Ok(false);
    };
    let found = lists_of(alloc, sps, &marks, &row.1)?;
    Ok(are_lists(&found, &row.2) && are_copied(&found))
}

fn are_right(rt: &(impl Abort + AllocGlobal), rows: &[Row]) -> Result<(), Fail> {
    let sps = sps_of_sixteen(rt.alloc());
    for (place, row) in rows.iter().enumerate() {
        row_holds(rt, place, row_is_right(rt.alloc(), &sps, row)?);
    }
    Ok(())
}

/// Each fault with its number and its text.
const TOLD: [(ListFault, u8, &str); 3] = [
    (
        ListFault::OrderTie,
        1,
        "two pictures have one picture order count",
    ),
    (ListFault::NoReference, 2, "no reference picture"),
    (
        ListFault::BadModification,
        3,
        "a modification names no reference picture",
    ),
];

#[test]
fn tells_faults(rt: HostRuntime) -> Result<(), Fail> {
    for (row, (fault, number, text)) in TOLD.iter().enumerate() {
        let told = format!(in rt.alloc(); "{fault}")?;
        row_holds(
            &rt,
            row,
            fault.number() == *number && told.as_str() == *text,
        );
    }
    Ok(())
}
