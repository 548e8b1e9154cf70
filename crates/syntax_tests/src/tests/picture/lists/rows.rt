//! Lists of slices, worked by hand.

use super::{Picture, Row, are_right};
use h264_types::slice_headers::RefPicListModification as Command;
use h264_types::slice_headers::SliceType::{B, I, P, Si, Sp};
use slice_decoding::ref_lists::ListFault::{BadModification, NoReference, OrderTie};
use std::test::Fail;

// Commands that name the short-term frame whose number is lower than the last by so much, or
// higher.
const LOWER_1: Command = Command::Subtract {
    abs_diff_pic_num_minus1: 0,
};

const LOWER_2: Command = Command::Subtract {
    abs_diff_pic_num_minus1: 1,
};

const LOWER_3: Command = Command::Subtract {
    abs_diff_pic_num_minus1: 2,
};

const LOWER_4: Command = Command::Subtract {
    abs_diff_pic_num_minus1: 3,
};

const LOWER_14: Command = Command::Subtract {
    abs_diff_pic_num_minus1: 13,
};

const LOWER_16: Command = Command::Subtract {
    abs_diff_pic_num_minus1: 15,
};

const HIGHER_1: Command = Command::Add {
    abs_diff_pic_num_minus1: 0,
};

const HIGHER_13: Command = Command::Add {
    abs_diff_pic_num_minus1: 12,
};

// Commands that name a long-term frame.
const LONG_TERM_0: Command = Command::LongTerm {
    long_term_pic_num: 0,
};

const LONG_TERM_3: Command = Command::LongTerm {
    long_term_pic_num: 3,
};

const LONG_TERM_7: Command = Command::LongTerm {
    long_term_pic_num: 7,
};

/// Short-term frames with FrameNums 15, 0 and 1: for frame_num 2 their PicNums are -1, 0 and 1.
const THREE: &[Picture] = &[(15, 0, None), (0, 2, None), (1, 4, None)];

const TIED: &[Picture] = &[(0, 2, None), (1, 2, None)];

const FAULTS: [Row; 8] = [
    // With the picture, with a command beside it that names no frame; and with another frame.
    (THREE, (B, 2, 4, 2, &[], &[LONG_TERM_0]), Err(OrderTie)),
    (TIED, (B, 2, 4, 2, &[], &[]), Err(OrderTie)),
    // Not in a P slice.
    (TIED, (P, 2, 6, 2, &[], &[]), Ok((&[Some(1), Some(0)], &[]))),
    (&[], (P, 2, 6, 2, &[LONG_TERM_0], &[]), Err(NoReference)),
    (&[], (B, 2, 4, 2, &[], &[]), Err(NoReference)),
    // No short-term frame has PicNum -2, no long-term frame the number 0, in list 1 either.
    (THREE, (P, 2, 6, 2, &[LOWER_4], &[]), Err(BadModification)),
    (
        THREE,
        (B, 2, 6, 2, &[], &[LONG_TERM_0]),
        Err(BadModification),
    ),
    // The second command is past the only entry.
    (
        THREE,
        (P, 2, 6, 1, &[LOWER_1, LONG_TERM_0], &[]),
        Ok((&[Some(2)], &[])),
    ),
];

#[test]
fn faults(rt: HostRuntime) -> Result<(), Fail> {
    are_right(&rt, &FAULTS)
}

const P_LISTS: [Row; 8] = [
    (
        THREE,
        (P, 2, 6, 2, &[], &[]),
        Ok((&[Some(2), Some(1)], &[])),
    ),
    (
        THREE,
        (P, 2, 6, 2, &[LOWER_3], &[]),
        Ok((&[Some(0), Some(2)], &[])),
    ),
    // More entries than frames.
    (
        THREE,
        (P, 2, 6, 4, &[], &[]),
        Ok((&[Some(2), Some(1), Some(0), None], &[])),
    ),
    // A slice of a switching picture.
    (
        THREE,
        (Sp, 2, 6, 2, &[], &[]),
        Ok((&[Some(2), Some(1)], &[])),
    ),
    // Picture numbers wrap: each command counts from the number before it: 1, then -1 as 15.
    (
        THREE,
        (P, 2, 6, 3, &[LOWER_1, LOWER_2], &[]),
        Ok((&[Some(2), Some(0), Some(1)], &[])),
    ),
    // 15 is above CurrPicNum and so -1; from there once around to 0.
    (
        THREE,
        (P, 2, 6, 3, &[HIGHER_13, HIGHER_1], &[]),
        Ok((&[Some(0), Some(1), Some(2)], &[])),
    ),
    // A long-term frame between them leaves the number.
    (
        &[(15, 0, None), (0, 2, Some(7)), (1, 4, None)],
        (P, 2, 6, 3, &[LOWER_1, LONG_TERM_7, LOWER_2], &[]),
        Ok((&[Some(2), Some(1), Some(0)], &[])),
    ),
    (
        &[(0, 0, None)],
        (P, 1, 6, 2, &[], &[]),
        Ok((&[Some(0), None], &[])),
    ),
];

#[test]
fn p_lists(rt: HostRuntime) -> Result<(), Fail> {
    are_right(&rt, &P_LISTS)
}

/// Three frames whose counts don't rise with their frame_nums.
const B_FRAMES: &[Picture] = &[(15, 0, None), (0, 8, None), (1, 4, None)];

const B_LISTS: [Row; 5] = [
    (
        B_FRAMES,
        (B, 2, 6, 3, &[], &[]),
        Ok((&[Some(2), Some(0), Some(1)], &[Some(1), Some(2), Some(0)])),
    ),
    // Each list has its own commands.
    (
        B_FRAMES,
        (B, 2, 6, 3, &[], &[LOWER_3]),
        Ok((&[Some(2), Some(0), Some(1)], &[Some(0), Some(1), Some(2)])),
    ),
    // Lists that are alike are exchanged before they are cut.
    (
        &[(0, 4, None), (1, 2, None)],
        (B, 2, 6, 1, &[], &[]),
        Ok((&[Some(0)], &[Some(1)])),
    ),
    // One entry isn't exchanged, and two that differ aren't.
    (
        &[(0, 4, None)],
        (B, 2, 6, 1, &[], &[]),
        Ok((&[Some(0)], &[Some(0)])),
    ),
    (
        &[(0, 4, None), (1, 8, None)],
        (B, 2, 6, 1, &[], &[]),
        Ok((&[Some(0)], &[Some(1)])),
    ),
];

#[test]
fn b_lists(rt: HostRuntime) -> Result<(), Fail> {
    are_right(&rt, &B_LISTS)
}

/// Two long-term frames among short-term ones.
const LONG_TERM: &[Picture] = &[(0, 2, Some(3)), (0, 4, None), (1, 8, Some(1)), (1, 6, None)];

/// Frames that stand alike.
const ALIKE: &[Picture] = &[(15, 0, None), (1, 2, None), (1, 4, None)];

const ORDERS: [Row; 5] = [
    // Long-term frames come last.
    (
        LONG_TERM,
        (P, 2, 6, 4, &[], &[]),
        Ok((&[Some(3), Some(1), Some(2), Some(0)], &[])),
    ),
    // Their counts are no ties, and the frame that is named comes first.
    (
        LONG_TERM,
        (B, 2, 8, 4, &[], &[LONG_TERM_3]),
        Ok((
            &[Some(3), Some(1), Some(2), Some(0)],
            &[Some(0), Some(1), Some(3), Some(2)],
        )),
    ),
    // A frame that is named twice stands twice, before entries that are missing.
    (
        &[(0, 0, None), (1, 2, None)],
        (P, 2, 6, 5, &[LOWER_1, LOWER_1, HIGHER_1], &[]),
        Ok((&[Some(1), Some(0), Some(1), None, None], &[])),
    ),
    // Frames that stand alike stay in decoding order.
    (
        ALIKE,
        (P, 2, 6, 3, &[], &[]),
        Ok((&[Some(1), Some(2), Some(0)], &[])),
    ),
    (
        ALIKE,
        (P, 2, 6, 3, &[LOWER_3, LOWER_14], &[]),
        Ok((&[Some(0), Some(1), Some(2)], &[])),
    ),
];

#[test]
fn orders_of_frames(rt: HostRuntime) -> Result<(), Fail> {
    are_right(&rt, &ORDERS)
}

const SIXTEEN: &[Picture] = &[
    (0, 0, None),
    (1, 2, None),
    (2, 4, None),
    (3, 6, None),
    (4, 8, None),
    (5, 10, None),
    (6, 12, None),
    (7, 14, None),
    (8, 16, None),
    (9, 18, None),
    (10, 20, None),
    (11, 22, None),
    (12, 24, None),
    (13, 26, None),
    (14, 28, None),
    (15, 30, None),
];

const THIRTY_TWO: [Row; 2] = [
    (
        SIXTEEN,
        (P, 15, 6, 32, &[], &[]),
        Ok((
            &[
                Some(15),
                Some(14),
                Some(13),
                Some(12),
                Some(11),
                Some(10),
                Some(9),
                Some(8), //
                Some(7),
                Some(6),
                Some(5),
                Some(4),
                Some(3),
                Some(2),
                Some(1),
                Some(0), //
                None,
                None,
                None,
                None,
                None,
                None,
                None,
                None, //
                None,
                None,
                None,
                None,
                None,
                None,
                None,
                None,
            ],
            &[],
        )),
    ),
    // Once around MaxFrameNum each time: one frame 32 times.
    (
        SIXTEEN,
        (P, 15, 6, 32, &[LOWER_16; 32], &[]),
        Ok((&[Some(15); 32], &[])),
    ),
];

#[test]
fn sixteen_frames_and_thirty_two_entries(rt: HostRuntime) -> Result<(), Fail> {
    are_right(&rt, &THIRTY_TWO)
}

const INTRA: [Row; 3] = [
    (THREE, (I, 2, 6, 2, &[LONG_TERM_0], &[]), Ok((&[], &[]))),
    (&[], (I, 2, 6, 2, &[LONG_TERM_0], &[]), Ok((&[], &[]))),
    (THREE, (Si, 2, 6, 2, &[LONG_TERM_0], &[]), Ok((&[], &[]))),
];

#[test]
fn intra_slices_have_no_lists(rt: HostRuntime) -> Result<(), Fail> {
    are_right(&rt, &INTRA)
}
