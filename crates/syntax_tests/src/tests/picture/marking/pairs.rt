//! Each operation alone, and each two of them.

use super::Marking::{Adaptive, Idr, Window};
use super::{Frames, row_holds, row_is_right, sps_of};
use h264_types::base::AtMost;
use h264_types::param_sets::Sps;
use h264_types::slice_headers::MemoryManagementControlOperation as Operation;
use slice_decoding::ref_marking::MarkFault::BadMarking;
use std::alloc::{AllocError, Global};
use std::test::Fail;

// After the frames 1, long-term with index 0, and 2 and 3, short-term with FrameNums 1 and 2, frame
// 4 has frame_num 3.
/// Frees frame 3.
const ONE: Operation = Operation::FreeShortTerm {
    difference_of_pic_nums_minus1: 0,
};

/// Frees the long-term frame of index 0.
const TWO: Operation = Operation::FreeLongTerm {
    long_term_pic_num: 0,
};

/// Gives index 0 to frame 2.
const THREE: Operation = Operation::AssignLongTerm {
    difference_of_pic_nums_minus1: 1,
    long_term_frame_idx: 0,
};

/// Leaves no index.
const FOUR: Operation = Operation::LimitLongTerm {
    max_long_term_frame_idx_plus1: 0,
};

const FIVE: Operation = Operation::FreeAll;

/// Gives index 0 to frame 4.
const SIX: Operation = Operation::CurrentLongTerm {
    long_term_frame_idx: 0,
};

const BAD: Frames<'static> = &[];

/// The first operation, what is marked after it alone, and after it and each of the six.
type Pairs = (Operation, Frames<'static>, [Frames<'static>; 6]);

/// What is marked after frame 4 with these operations. No frames are for BadMarking.
fn marks(
    alloc: Global,
    sps: &Sps,
    operations: &[Operation],
    frames: Frames<'_>,
) -> Result<bool, AllocError> {
    let last = (3, Adaptive(operations));
    let pictures = [(0, Idr(true)), (1, Window), (2, Window), last];
    let expected = if frames.is_empty() {
        Err(BadMarking)
    } else {
        Ok(frames)
    };
    row_is_right(alloc, sps, &(&pictures, expected))
}

/// What is marked after the operation and each of the six.
fn marks_pairs(alloc: Global, sps: &Sps, pairs: &Pairs) -> Result<bool, AllocError> {
    let seconds = [ONE, TWO, THREE, FOUR, FIVE, SIX];
    for (second, frames) in seconds.iter().zip(pairs.2) {
        if !marks(alloc, sps, &[pairs.0, *second], frames)? {
            return Ok(false);
        }
    }
    marks(alloc, sps, &[pairs.0], pairs.1)
}

const PAIRS: [Pairs; 6] = [
    (
        ONE,
        &[(1, Some(0)), (2, None), (4, None)],
        [
            BAD,
            &[(2, None), (4, None)],
            &[(2, Some(0)), (4, None)],
            &[(2, None), (4, None)],
            BAD,
            &[(2, None), (4, Some(0))],
        ],
    ),
    (
        TWO,
        &[(2, None), (3, None), (4, None)],
        [
            &[(2, None), (4, None)],
            BAD,
            &[(2, Some(0)), (3, None), (4, None)],
            &[(2, None), (3, None), (4, None)],
            BAD,
            &[(2, None), (3, None), (4, Some(0))],
        ],
    ),
    (
        THREE,
        &[(2, Some(0)), (3, None), (4, None)],
        [
            &[(2, Some(0)), (4, None)],
            &[(3, None), (4, None)],
            BAD,
            &[(3, None), (4, None)],
            BAD,
            &[(3, None), (4, Some(0))],
        ],
    ),
    (
        FOUR,
        &[(2, None), (3, None), (4, None)],
        [&[(2, None), (4, None)], BAD, BAD, BAD, &[(4, None)], BAD],
    ),
    (FIVE, &[(4, None)], [BAD, BAD, BAD, &[(4, None)], BAD, BAD]),
    (
        SIX,
        &[(2, None), (3, None), (4, Some(0))],
        [
            &[(2, None), (4, Some(0))],
            &[(2, None), (3, None), (4, Some(0))],
            &[(3, None), (4, Some(0))],
            BAD,
            BAD,
            BAD,
        ],
    ),
];

#[test]
fn each_operation_and_another(rt: HostRuntime) -> Result<(), Fail> {
    let sps = sps_of(rt.alloc(), AtMost::new(4));
    for (row, pairs) in PAIRS.iter().enumerate() {
        row_holds(&rt, row, marks_pairs(rt.alloc(), &sps, pairs)?);
    }
    Ok(())
}
