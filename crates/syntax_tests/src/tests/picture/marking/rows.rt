//! Streams of pictures with what is marked after them.

use super::Marking::{Adaptive, Idr, NoReference, Window};
use super::{Picture, Row, rows_are_right, rows_hold, sps_of};
use h264_types::base::AtMost;
use h264_types::slice_headers::MemoryManagementControlOperation as Operation;
use slice_decoding::ref_marking::MarkFault::{BadMarking, NoShortTerm, TooManyReferences};
use std::test::Fail;

const FIVE: Operation = Operation::FreeAll;

/// Operation 6 with index 0.
const SIX: Operation = Operation::CurrentLongTerm {
    long_term_frame_idx: 0,
};

const OF_ONE: [Row<'static>; 4] = [
    // A full window needs a short-term frame.
    (&[(0, Idr(true)), (1, Window)], Err(NoShortTerm)),
    (
        &[(0, Idr(true)), (1, Adaptive(&[]))],
        Err(TooManyReferences),
    ),
    (&[(0, Idr(false)), (1, Window)], Ok(&[(2, None)])),
    // A picture that is no reference leaves the marks.
    (&[(0, Idr(true)), (1, NoReference)], Ok(&[(1, Some(0))])),
];

#[test]
fn one_frame(rt: HostRuntime) -> Result<(), Fail> {
    rows_are_right(&rt, AtMost::new(1), &OF_ONE)
}

const OF_TWO: [Row<'static>; 3] = [
    // Operation 6 takes effect last.
    (
        &[
            (0, Idr(false)),
            (
                1,
                Adaptive(&[
                    SIX,
                    Operation::LimitLongTerm {
                        max_long_term_frame_idx_plus1: 0,
                    },
                ]),
            ),
        ],
        Err(BadMarking),
    ),
    (
        &[
            (0, Idr(false)),
            (
                1,
                Adaptive(&[
                    SIX,
                    Operation::LimitLongTerm {
                        max_long_term_frame_idx_plus1: 1,
                    },
                ]),
            ),
        ],
        Ok(&[(1, None), (2, Some(0))]),
    ),
    // The frame that held the index is freed, so there is room for the current one.
    (
        &[
            (0, Idr(false)),
            (
                1,
                Adaptive(&[
                    SIX,
                    Operation::LimitLongTerm {
                        max_long_term_frame_idx_plus1: 1,
                    },
                ]),
            ),
            (2, Adaptive(&[SIX])),
        ],
        Ok(&[(1, None), (3, Some(0))]),
    ),
];

#[test]
fn two_frames(rt: HostRuntime) -> Result<(), Fail> {
    rows_are_right(&rt, AtMost::new(2), &OF_TWO)
}

// MaxFrameNum is 16, so at frame_num 1 the FrameNumWrap of 15 is -1.
const WRAPPED: [Row<'static>; 2] = [
    (
        &[(0, Idr(true)), (0, Window), (15, Window)],
        Ok(&[(1, Some(0)), (2, None), (3, None)]),
    ),
    (
        &[(0, Idr(true)), (0, Window), (15, Window), (1, Window)],
        Ok(&[(1, Some(0)), (2, None), (4, None)]),
    ),
];

#[test]
fn the_window_frees_the_least_frame_num_wrap(rt: HostRuntime) -> Result<(), Fail> {
    rows_are_right(&rt, AtMost::new(3), &WRAPPED)
}

/// Seventeen pictures with the sliding window.
const SEVENTEEN: [Picture<'static>; 17] = [
    (0, Idr(false)),
    (1, Window),
    (2, Window),
    (3, Window),
    (4, Window),
    (5, Window),
    (6, Window),
    (7, Window),
    (8, Window),
    (9, Window),
    (10, Window),
    (11, Window),
    (12, Window),
    (13, Window),
    (14, Window),
    (15, Window),
    (16, Window),
];

/// The units 1 to 17 as short-term frames.
const UNITS: [(u32, Option<u8>); 17] = [
    (1, None),
    (2, None),
    (3, None),
    (4, None),
    (5, None),
    (6, None),
    (7, None),
    (8, None),
    (9, None),
    (10, None),
    (11, None),
    (12, None),
    (13, None),
    (14, None),
    (15, None),
    (16, None),
    (17, None),
];

#[test]
fn sixteen_frames(rt: HostRuntime) -> Result<(), Fail> {
    let mut sps = sps_of(rt.alloc(), AtMost::new(16));
    // MaxFrameNum is 32.
    sps.log2_max_frame_num_minus4 = AtMost::new(1);
    let mut adaptive = SEVENTEEN;
    adaptive[16] = (16, Adaptive(&[]));
    let rows: [Row<'_>; 3] = [
        (&SEVENTEEN[..16], Ok(&UNITS[..16])),
        (&SEVENTEEN, Ok(&UNITS[1..])),
        (&adaptive, Err(TooManyReferences)),
    ];
    Ok(rows_hold(&rt, &sps, &rows)?)
}

// An IDR picture and two with the window: at frame_num 1 their PicNums are 0, -2 and -1.
const FIRST: Picture<'static> = (0, Idr(false));

const SECOND: Picture<'static> = (14, Window);

const THIRD: Picture<'static> = (15, Window);

// picNumX is 1 - (difference_of_pic_nums_minus1 + 1).
const FREED: [Row<'static>; 4] = [
    (
        &[
            FIRST,
            SECOND,
            THIRD,
            (
                1,
                Adaptive(&[Operation::FreeShortTerm {
                    difference_of_pic_nums_minus1: 1,
                }]),
            ),
        ],
        Ok(&[(1, None), (2, None), (4, None)]),
    ),
    (
        &[
            FIRST,
            SECOND,
            THIRD,
            (
                1,
                Adaptive(&[
                    Operation::FreeShortTerm {
                        difference_of_pic_nums_minus1: 2,
                    },
                    Operation::FreeShortTerm {
                        difference_of_pic_nums_minus1: 0,
                    },
                ]),
            ),
        ],
        Ok(&[(3, None), (4, None)]),
    ),
    (
        &[
            FIRST,
            SECOND,
            THIRD,
            (
                1,
                Adaptive(&[Operation::FreeShortTerm {
                    difference_of_pic_nums_minus1: 3,
                }]),
            ),
        ],
        Err(BadMarking),
    ),
    (
        &[
            FIRST,
            SECOND,
            THIRD,
            (
                1,
                Adaptive(&[
                    Operation::FreeShortTerm {
                        difference_of_pic_nums_minus1: 1,
                    },
                    Operation::FreeShortTerm {
                        difference_of_pic_nums_minus1: 1,
                    },
                ]),
            ),
        ],
        Err(BadMarking),
    ),
];

#[test]
fn operation_1_frees_the_frame_of_a_pic_num(rt: HostRuntime) -> Result<(), Fail> {
    rows_are_right(&rt, AtMost::new(4), &FREED)
}

const A: Picture<'static> = (0, Idr(false));

const B: Picture<'static> = (
    1,
    Adaptive(&[
        Operation::LimitLongTerm {
            max_long_term_frame_idx_plus1: 2,
        },
        Operation::AssignLongTerm {
            difference_of_pic_nums_minus1: 0,
            long_term_frame_idx: 1,
        },
    ]),
);

const C: Picture<'static> = (
    2,
    Adaptive(&[Operation::AssignLongTerm {
        difference_of_pic_nums_minus1: 0,
        long_term_frame_idx: 1,
    }]),
);

const LONG_TERM: [Row<'static>; 9] = [
    // Without indices none is allowed.
    (
        &[
            A,
            (
                1,
                Adaptive(&[Operation::AssignLongTerm {
                    difference_of_pic_nums_minus1: 0,
                    long_term_frame_idx: 0,
                }]),
            ),
        ],
        Err(BadMarking),
    ),
    (&[A, B], Ok(&[(1, Some(1)), (2, None)])),
    // Index 1 goes from the first frame to the second, which stays in its place.
    (&[A, B, C], Ok(&[(2, Some(1)), (3, None)])),
    (
        &[
            A,
            B,
            C,
            (
                3,
                Adaptive(&[Operation::LimitLongTerm {
                    max_long_term_frame_idx_plus1: 2,
                }]),
            ),
        ],
        Ok(&[(2, Some(1)), (3, None), (4, None)]),
    ),
    (
        &[
            A,
            B,
            C,
            (
                3,
                Adaptive(&[Operation::LimitLongTerm {
                    max_long_term_frame_idx_plus1: 1,
                }]),
            ),
        ],
        Ok(&[(3, None), (4, None)]),
    ),
    (
        &[
            A,
            B,
            C,
            (
                3,
                Adaptive(&[
                    Operation::FreeLongTerm {
                        long_term_pic_num: 1,
                    },
                    Operation::AssignLongTerm {
                        difference_of_pic_nums_minus1: 0,
                        long_term_frame_idx: 0,
                    },
                ]),
            ),
        ],
        Ok(&[(3, Some(0)), (4, None)]),
    ),
    (
        &[
            A,
            B,
            C,
            (
                3,
                Adaptive(&[Operation::FreeLongTerm {
                    long_term_pic_num: 0,
                }]),
            ),
        ],
        Err(BadMarking),
    ),
    (
        &[
            A,
            B,
            C,
            (
                3,
                Adaptive(&[Operation::AssignLongTerm {
                    difference_of_pic_nums_minus1: 0,
                    long_term_frame_idx: 2,
                }]),
            ),
        ],
        Err(BadMarking),
    ),
    (
        &[
            A,
            B,
            C,
            (
                3,
                Adaptive(&[Operation::LimitLongTerm {
                    max_long_term_frame_idx_plus1: 5,
                }]),
            ),
        ],
        Err(BadMarking),
    ),
];

#[test]
fn operations_2_to_4_on_long_term_frames(rt: HostRuntime) -> Result<(), Fail> {
    rows_are_right(&rt, AtMost::new(4), &LONG_TERM)
}

const LONG: Picture<'static> = (0, Idr(true));

const NEXT: Picture<'static> = (1, Window);

const ALL_FREED: [Row<'static>; 7] = [
    // Operation 5 leaves no index.
    (&[LONG, NEXT, (2, Adaptive(&[FIVE]))], Ok(&[(3, None)])),
    (&[LONG, NEXT, (2, Adaptive(&[FIVE, SIX]))], Err(BadMarking)),
    (
        &[
            LONG,
            NEXT,
            (
                2,
                Adaptive(&[
                    SIX,
                    FIVE,
                    Operation::LimitLongTerm {
                        max_long_term_frame_idx_plus1: 1,
                    },
                ]),
            ),
        ],
        Ok(&[(3, Some(0))]),
    ),
    // An IDR picture, whose greatest index is 0.
    (&[LONG, NEXT, (0, Idr(false))], Ok(&[(3, None)])),
    (&[LONG, NEXT, (0, Idr(true))], Ok(&[(3, Some(0))])),
    (
        &[
            LONG,
            NEXT,
            (0, Idr(true)),
            (
                1,
                Adaptive(&[Operation::CurrentLongTerm {
                    long_term_frame_idx: 1,
                }]),
            ),
        ],
        Err(BadMarking),
    ),
    (
        &[LONG, NEXT, (0, Idr(true)), (1, Adaptive(&[SIX]))],
        Ok(&[(4, Some(0))]),
    ),
];

#[test]
fn all_frames_are_freed(rt: HostRuntime) -> Result<(), Fail> {
    rows_are_right(&rt, AtMost::new(4), &ALL_FREED)
}
