//! Faults 1 to 7, which the slices show by themselves.

use super::each_fault::{CUT, FIRST, I, P, PAST, PPS, SPS, Stream};
use super::writer::{Nal, Order, Slice};
use Nal::{Bytes, Pps};
use Order::Zero;
use unit_outcomes::ValidityFault::{
    HeaderCut, HeaderValue, MissingPps, MissingSps, Redundant, SliceMismatch, SliceOrder,
};

/// Each alone and beside the next one, in one slice or in two, whichever stands first.
pub(super) const SLICE_FAULTS: [Stream; 26] = [
    (&[&[Nal::Slice(P)]], MissingPps),
    // The least number of two slices, whichever shows it.
    (
        &[&[
            Pps(1, 5),
            Nal::Slice(Slice { pps: 1, ..P }),
            Nal::Slice(Slice { first_mb: 1, ..P }),
        ]],
        MissingPps,
    ),
    (
        &[&[
            Pps(1, 5),
            Nal::Slice(P),
            Nal::Slice(Slice {
                first_mb: 1,
                pps: 1,
                ..P
            }),
        ]],
        MissingPps,
    ),
    (&[&[PPS, Nal::Slice(P)]], MissingSps),
    (&[&[PPS, Nal::Slice(P), CUT]], MissingSps),
    (
        &[&[PPS, CUT, Nal::Slice(Slice { first_mb: 1, ..P })]],
        MissingSps,
    ),
    (&[FIRST, &[CUT]], HeaderCut),
    (&[FIRST, &[Bytes(&[0x41, 0x9A])]], HeaderCut),
    (&[FIRST, &[PAST, CUT]], HeaderCut),
    (&[FIRST, &[CUT, PAST]], HeaderCut),
    (&[FIRST, &[PAST]], HeaderValue),
    (&[FIRST, &[Bytes(&[0x41, 0x8B])]], HeaderValue),
    (
        &[FIRST, &[Nal::Slice(Slice { redundant: 1, ..P }), PAST]],
        HeaderValue,
    ),
    (
        &[FIRST, &[Nal::Slice(Slice { redundant: 1, ..P })]],
        Redundant,
    ),
    (
        &[
            FIRST,
            &[
                Nal::Slice(P),
                Nal::Slice(Slice {
                    first_mb: 1,
                    redundant: 1,
                    ..P
                }),
            ],
        ],
        Redundant,
    ),
    (
        &[
            FIRST,
            &[Nal::Slice(Slice {
                first_mb: 1,
                redundant: 1,
                ..P
            })],
        ],
        Redundant,
    ),
    (
        &[FIRST, &[Nal::Slice(Slice { first_mb: 1, ..P })]],
        SliceOrder,
    ),
    (
        &[
            FIRST,
            &[
                Nal::Slice(P),
                Nal::Slice(Slice { first_mb: 2, ..P }),
                Nal::Slice(Slice { first_mb: 2, ..P }),
            ],
        ],
        SliceOrder,
    ),
    (
        &[
            FIRST,
            &[
                Nal::Slice(Slice { first_mb: 1, ..P }),
                Nal::Slice(Slice {
                    first_mb: 2,
                    frame_num: 2,
                    ..P
                }),
            ],
        ],
        SliceOrder,
    ),
    (
        &[
            FIRST,
            &[
                Nal::Slice(P),
                Nal::Slice(Slice {
                    first_mb: 1,
                    frame_num: 2,
                    ..P
                }),
            ],
        ],
        SliceMismatch,
    ),
    (
        &[
            FIRST,
            &[
                Nal::Slice(P),
                Nal::Slice(Slice {
                    first_mb: 1,
                    order: Zero(3, 0),
                    ..P
                }),
            ],
        ],
        SliceMismatch,
    ),
    (
        &[
            FIRST,
            &[
                Nal::Slice(P),
                Nal::Slice(Slice {
                    first_mb: 1,
                    order: Zero(2, 1),
                    ..P
                }),
            ],
        ],
        SliceMismatch,
    ),
    (
        &[
            FIRST,
            &[
                Nal::Slice(P),
                Nal::Slice(Slice {
                    first_mb: 1,
                    operations: Some(&[]),
                    ..P
                }),
            ],
        ],
        SliceMismatch,
    ),
    (
        &[
            FIRST,
            &[
                Nal::Sps(1, Zero(0, 0), 2),
                Pps(1, 1),
                Nal::Slice(P),
                Nal::Slice(Slice {
                    first_mb: 1,
                    pps: 1,
                    ..P
                }),
            ],
        ],
        SliceMismatch,
    ),
    // The flags of an IDR picture.
    (
        &[&[
            SPS,
            PPS,
            Nal::Slice(I),
            Nal::Slice(Slice {
                first_mb: 1,
                long_term: 0b10,
                ..I
            }),
        ]],
        SliceMismatch,
    ),
    (
        &[&[
            SPS,
            PPS,
            Nal::Slice(P),
            Nal::Slice(Slice {
                first_mb: 1,
                frame_num: 2,
                ..P
            }),
        ]],
        SliceMismatch,
    ),
];
