//! Reference marking, by values worked out by hand from the standard (8.2.5).

mod pairs;
mod rows;

use super::row_holds;
use h264_types::base::AtMost;
use h264_types::param_sets::Sps;
use h264_types::pictures::{AuId, Counts, Frame, Marks, Term, frame_num_wrap};
use h264_types::slice_headers::{
    DecRefPicMarking, MemoryManagementControlOperation as Operation,
    MemoryManagementControlOperations, RefPicListModifications, SliceHeader,
};
use slice_decoding::ref_marking::{MarkFault, mark};
use std::alloc::{AllocError, Global};
use std::process::Abort;
use std::test::Fail;
use test_builders::{p_header_with, small_sps};

/// A set with MaxFrameNum 16.
fn sps_of(alloc: Global, max_num_ref_frames: AtMost<16>) -> Sps {
    let mut sps = small_sps(alloc);
    sps.max_num_ref_frames = max_num_ref_frames;
    sps
}

/// How a picture is marked.
#[derive(Clone, Copy)]
enum Marking<'a> {
    /// As an IDR picture, with this long_term_reference_flag.
    Idr(bool),
    Window,
    Adaptive(&'a [Operation]),
    /// Not at all: nal_ref_idc is 0.
    NoReference,
}

/// A picture: its frame_num, and how it is marked.
type Picture<'a> = (u16, Marking<'a>);

/// The frames that are marked: the numbers of their units, and the indices of long-term frames.
type Frames<'a> = &'a [(u32, Option<u8>)];

/// Pictures under the ids 1, 2 and so on, and what is marked after the last one.
type Row<'a> = (&'a [Picture<'a>], Result<Frames<'a>, MarkFault>);

fn dec_ref_pic_marking(
    alloc: Global,
    marking: &Marking<'_>,
) -> Result<DecRefPicMarking, AllocError> {
    match marking {
        Marking::Idr(long_term_reference_flag) => Ok(DecRefPicMarking::Idr {
            no_output_of_prior_pics_flag: false,
            long_term_reference_flag: *long_term_reference_flag,
        }),
        Marking::Window | Marking::NoReference => Ok(DecRefPicMarking::SlidingWindow),
        Marking::Adaptive(list) => adaptive(alloc, list),
    }
}

fn adaptive(alloc: Global, list: &[Operation]) -> Result<DecRefPicMarking, AllocError> {
    let mut operations = MemoryManagementControlOperations::new(alloc);
    for operation in list {
        put(&mut operations, *operation)?;
    }
    Ok(DecRefPicMarking::Adaptive { operations })
}

/// Puts an operation after the others, where there is room.
fn put(
    operations: &mut MemoryManagementControlOperations,
    operation: Operation,
) -> Result<(), AllocError> {
    if operations.as_slice().len() < 64 {
        operations.push(operation)?;
    }
    Ok(())
}

/// The marks after a picture with counts 10 and 7.
#[tactic(auto, unfolding(h264_types::specs::Resetting::counts_after_reset))]
fn decode(marks: &Marks, id: u32, sps: &Sps, header: &SliceHeader) -> Result<Marks, MarkFault> {
    let counts = Counts { top: 10, bottom: 7 };
    mark(marks, AuId::new(id), sps, header, counts)
}

/// The header of a picture.
fn header_of(alloc: Global, picture: &Picture<'_>) -> Result<SliceHeader, AllocError> {
    let dec_ref_pic_marking = dec_ref_pic_marking(alloc, &picture.1)?;
    let none_0 = RefPicListModifications::new(alloc);
    let none_1 = RefPicListModifications::new(alloc);
    let mut header = p_header_with(picture.0, none_0, none_1, dec_ref_pic_marking);
    header.nal_ref_idc = u8::from(!matches!(picture.1, Marking::NoReference));
    Ok(header)
}

/// The marks after one picture more.
fn marked_after(
    alloc: Global,
    marks: &Marks,
    id: u32,
    sps: &Sps,
    picture: &Picture<'_>,
) -> Result<Result<Marks, MarkFault>, AllocError> {
    let header = header_of(alloc, picture)?;
    Ok(decode(marks, id, sps, &header))
}

/// The marks after these pictures, or the first fault.
fn marked(
    alloc: Global,
    sps: &Sps,
    pictures: &[Picture<'_>],
) -> Result<Result<Marks, MarkFault>, AllocError> {
    let mut marked = Ok(Marks::new());
    let mut id = 0u32;
    for picture in pictures {
        id = id.saturating_add(1);
        marked = match marked {
            Ok(marks) => marked_after(alloc, &marks, id, sps, picture)?,
            fault => return Ok(fault),
        };
    }
    Ok(marked)
}

/// Whether these frames are marked.
fn are_marked(marks: &Marks, expected: Frames<'_>) -> bool {
    let frames = marks.frames();
    frames.len() == expected.len()
        && frames.iter().zip(expected).all(|(frame, (id, idx))| {
            frame.id.number() == *id && frame.long_term_pic_num() == *idx
        })
}

/// Whether the answer is what the row says.
fn is_as(marked: &Result<Marks, MarkFault>, expected: &Result<Frames<'_>, MarkFault>) -> bool {
    match (marked, expected) {
        (Ok(marks), Ok(frames)) => are_marked(marks, frames),
        (Err(fault), Err(expected)) => *fault == *expected,
        _ => false,
    }
}

fn row_is_right(alloc: Global, sps: &Sps, row: &Row<'_>) -> Result<bool, AllocError> {
    let marked = marked(alloc, sps, row.0)?;
    Ok(is_as(&marked, &row.1))
}

/// Asserts what the rows say, with this set.
fn rows_hold(
    rt: &(impl Abort + AllocGlobal),
    sps: &Sps,
    rows: &[Row<'_>],
) -> Result<(), AllocError> {
    for (place, row) in rows.iter().enumerate() {
        row_holds(rt, place, row_is_right(rt.alloc(), sps, row)?);
    }
    Ok(())
}

/// Asserts what the rows say, with MaxFrameNum 16 and this max_num_ref_frames.
fn rows_are_right(
    rt: &(impl Abort + AllocGlobal),
    max_num_ref_frames: AtMost<16>,
    rows: &[Row<'_>],
) -> Result<(), Fail> {
    let sps = sps_of(rt.alloc(), max_num_ref_frames);
    Ok(rows_hold(rt, &sps, rows)?)
}

/// Whether the marks are their copy's, and not those before the first picture.
fn are_copied(marked: &Result<Marks, MarkFault>) -> bool {
    match marked {
        Ok(marks) => marks.copy().is_same(marks) && !marks.is_same(&Marks::new()),
        Err(_) => false,
    }
}

fn copies_marks(alloc: Global, sps: &Sps) -> Result<bool, AllocError> {
    Ok(are_copied(&marked(alloc, sps, &[(0, Marking::Idr(true))])?))
}

#[test]
fn marks_are_copied(rt: HostRuntime) -> Result<(), Fail> {
    let sps = sps_of(rt.alloc(), AtMost::new(1));
    assert!(rt; copies_marks(rt.alloc(), &sps)?);
    Ok(())
}

/// Whether this frame alone is marked.
fn is_only(marked: &Result<Marks, MarkFault>, frame: &Frame) -> bool {
    match marked {
        Ok(marks) => marks.frames().len() == 1 && marks.frames().first() == Some(frame),
        Err(_) => false,
    }
}

/// Whether only the picture with operation 5 is marked: frame_num counts as 0, and 7, the smaller
/// count, is taken from both.
fn takes_counts_to_0(alloc: Global, sps: &Sps) -> Result<bool, AllocError> {
    let freed = Marking::Adaptive(&[Operation::FreeAll]);
    let pictures = [(0, Marking::Idr(true)), (1, Marking::Window), (2, freed)];
    let only = Frame {
        id: AuId::new(3),
        frame_num: 0,
        term: Term::ShortTerm,
        counts: Counts { top: 3, bottom: 0 },
    };
    Ok(is_only(&marked(alloc, sps, &pictures)?, &only))
}

#[test]
fn operation_5_takes_the_counts_to_0(rt: HostRuntime) -> Result<(), Fail> {
    let sps = sps_of(rt.alloc(), AtMost::new(4));
    assert!(rt; takes_counts_to_0(rt.alloc(), &sps)?);
    Ok(())
}

#[test]
fn ids(rt: HostRuntime) {
    let id = AuId::new(u32::MAX);
    assert!(rt; id.timestamp() == 4_294_967_295_000);
    assert!(rt; id.number() == 4_294_967_295);
}

#[test]
fn numbers_of_frames(rt: HostRuntime) {
    let sps = sps_of(rt.alloc(), AtMost::new(1));
    let frame = Frame {
        frame_num: 15,
        ..Frame::default()
    };
    let pic_nums = (frame.pic_num(&sps, 15), frame.pic_num(&sps, 14));
    let wrapped = (frame_num_wrap(&sps, 2, 15), frame_num_wrap(&sps, 2, 2));
    assert!(rt; pic_nums == (Some(15), Some(-1)) && wrapped == (-1, 2));
}

/// Each fault with its number and its text.
const TOLD: [(MarkFault, u8, &str); 3] = [
    (
        MarkFault::BadMarking,
        1,
        "a marking operation names what isn't there, or contradicts another",
    ),
    (
        MarkFault::NoShortTerm,
        2,
        "the sliding window has no short-term frame to free",
    ),
    (
        MarkFault::TooManyReferences,
        3,
        "more reference frames than max_num_ref_frames",
    ),
];

#[test]
fn tells_faults(rt: HostRuntime) -> Result<(), Fail> {
    for (row, (fault, number, text)) in TOLD.iter().enumerate() {
        let told = format!(in rt.alloc(); "{fault}")?;
        row_holds(
            &rt,
            row,
            fault.number() == *number && told.as_str() == *text,
        );
    }
    Ok(())
}
