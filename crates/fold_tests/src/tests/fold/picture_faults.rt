//! Faults 8 to 18, which the picture shows.

use super::each_fault::{B, FAR, FIRST, I, P, PPS, SAME_COUNT, SPS, Stream};
use super::writer::{Nal, Order, Slice};
use Order::Zero;
use unit_outcomes::ValidityFault::{
    BadMarking, BadModification, FrameNumGap, FrameNumRepeat, IdrFrameNum, NoIdr, OrderRange,
    OrderTie, SpsChange, TooManyReferences,
};

/// Each alone and beside the next one that the same picture can show; 15 is shown by no stream,
/// since a valid reference picture leaves at least itself marked.
pub(super) const PICTURE_FAULTS: [Stream; 21] = [
    (&[&[SPS, PPS, Nal::Slice(P)]], NoIdr),
    // Beside 11, since an active set is wanted for 9, and an IDR picture for 10.
    (
        &[&[SPS, PPS, Nal::Slice(Slice { frame_num: 5, ..P })]],
        NoIdr,
    ),
    (
        &[FIRST, &[Nal::Sps(0, Zero(0, 0), 3), Nal::Slice(P)]],
        SpsChange,
    ),
    (
        &[
            FIRST,
            &[
                Nal::Sps(0, Zero(0, 0), 3),
                Nal::Slice(Slice { frame_num: 5, ..P }),
            ],
        ],
        SpsChange,
    ),
    (
        &[&[SPS, PPS, Nal::Slice(Slice { frame_num: 1, ..I })]],
        IdrFrameNum,
    ),
    // Beside 13, since an IDR picture shows no 11 and 12.
    (
        &[&[
            SPS,
            PPS,
            Nal::Slice(Slice {
                frame_num: 1,
                order: FAR,
                ..I
            }),
        ]],
        IdrFrameNum,
    ),
    (
        &[FIRST, &[Nal::Slice(Slice { frame_num: 2, ..P })]],
        FrameNumGap,
    ),
    // The frame_num of a short-term frame that isn't the last.
    (
        &[
            FIRST,
            &[Nal::Slice(P)],
            &[Nal::Slice(Slice { frame_num: 0, ..P })],
        ],
        FrameNumGap,
    ),
    (
        &[FIRST, &[Nal::Slice(Slice { frame_num: 0, ..P })]],
        FrameNumRepeat,
    ),
    (
        &[
            FIRST,
            &[Nal::Slice(Slice {
                frame_num: 0,
                order: FAR,
                ..P
            })],
        ],
        FrameNumRepeat,
    ),
    (
        &[FIRST, &[Nal::Slice(Slice { order: FAR, ..P })]],
        OrderRange,
    ),
    (
        &[FIRST, SAME_COUNT, &[Nal::Slice(Slice { order: FAR, ..B })]],
        OrderRange,
    ),
    (&[FIRST, SAME_COUNT, &[Nal::Slice(B)]], OrderTie),
    (
        &[
            FIRST,
            &[Nal::Slice(P)],
            &[Nal::Slice(Slice {
                order: Zero(2, 0),
                ..B
            })],
        ],
        OrderTie,
    ),
    // Beside 16, since frames are marked.
    (
        &[
            FIRST,
            SAME_COUNT,
            &[Nal::Slice(Slice {
                command: Some((0, 9)),
                ..B
            })],
        ],
        OrderTie,
    ),
    // The first slice shows 16, the second 14.
    (
        &[
            FIRST,
            SAME_COUNT,
            &[
                Nal::Slice(Slice {
                    frame_num: 2,
                    command: Some((0, 9)),
                    ..P
                }),
                Nal::Slice(Slice {
                    first_mb: 1,
                    slice_type: 1,
                    frame_num: 2,
                    ..P
                }),
            ],
        ],
        OrderTie,
    ),
    (
        &[
            FIRST,
            &[Nal::Slice(Slice {
                command: Some((0, 3)),
                ..P
            })],
        ],
        BadModification,
    ),
    (
        &[
            FIRST,
            &[Nal::Slice(Slice {
                command: Some((0, 3)),
                operations: Some(&[&[1, 5]]),
                ..P
            })],
        ],
        BadModification,
    ),
    (
        &[
            FIRST,
            &[Nal::Slice(Slice {
                operations: Some(&[&[1, 5]]),
                ..P
            })],
        ],
        BadMarking,
    ),
    // A third frame, with an operation that frees none.
    (
        &[
            FIRST,
            &[Nal::Slice(P)],
            &[Nal::Slice(Slice {
                frame_num: 2,
                operations: Some(&[&[1, 5]]),
                ..P
            })],
        ],
        BadMarking,
    ),
    (
        &[
            FIRST,
            &[Nal::Slice(P)],
            &[Nal::Slice(Slice {
                frame_num: 2,
                operations: Some(&[]),
                ..P
            })],
        ],
        TooManyReferences,
    ),
];
