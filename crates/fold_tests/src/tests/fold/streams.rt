//! Streams with order count type 1 and with long-term frames.

use super::each_fault::{I, P, PPS, outcomes};
use super::writer::{Nal, Order, Slice};
use super::{only_request, row_holds};
use Order::{One, Zero};
use h264_controls::{Request, V4l2H264DpbEntry};
use std::test::Fail;
use unit_outcomes::Outcome;

/// A P slice with order count type 1.
const ONE: Slice = Slice {
    order: One(0, 0),
    ..P
};

/// Count type 1: a cycle of 2 and 4, -1 for a picture that is no reference, and 1 for the bottom
/// field.
const COUNTED: [&[Nal]; 6] = [
    &[
        Nal::Sps(0, One(0, 0), 4),
        PPS,
        Nal::Slice(Slice {
            order: One(0, 0),
            ..I
        }),
    ],
    &[Nal::Slice(ONE)],
    &[Nal::Slice(Slice {
        frame_num: 2,
        ..ONE
    })],
    &[Nal::Slice(Slice {
        first: 0x01,
        frame_num: 3,
        ..ONE
    })],
    &[Nal::Slice(Slice {
        frame_num: 3,
        ..ONE
    })],
    // abs 4, and so 2, 4, 2 and 4, with both deltas.
    &[Nal::Slice(Slice {
        frame_num: 4,
        order: One(7, -3),
        ..P
    })],
];

/// Their counts.
const COUNTS: [(i32, i32); 6] = [(0, 1), (2, 3), (6, 7), (5, 6), (8, 9), (19, 17)];

/// The unit is valid and has these counts.
fn has_counts(outcome: &Outcome, counts: (i32, i32)) -> bool {
    match outcome {
        Outcome::Plan(plan) => (plan.counts.top, plan.counts.bottom) == counts,
        Outcome::Fault(_) | Outcome::Empty => false,
    }
}

#[test]
fn counts_of_type_1(rt: HostRuntime) -> Result<(), Fail> {
    let outcomes = outcomes(&rt, &COUNTED)?;
    assert!(rt; outcomes.len() == COUNTS.len());
    for (row, (outcome, counts)) in outcomes.iter().zip(&COUNTS).enumerate() {
        row_holds(&rt, row, has_counts(outcome, *counts));
    }
    Ok(())
}

/// An entry of a dpb: its timestamp, its number, and whether it is a long-term frame.
type Entry = (u64, i32, bool);

/// Pictures with long-term frames.
const LONG_TERM: [&[Nal]; 6] = [
    &[
        Nal::Sps(0, Zero(0, 0), 3),
        PPS,
        Nal::Slice(Slice { long_term: 1, ..I }),
    ],
    &[Nal::Slice(P)],
    &[Nal::Slice(Slice {
        frame_num: 2,
        order: Zero(4, 0),
        command: Some((2, 0)),
        ..P
    })],
    // Two indices; the frame before becomes long-term with index 1, the one before that is freed.
    &[Nal::Slice(Slice {
        frame_num: 3,
        order: Zero(6, 0),
        operations: Some(&[&[4, 2], &[3, 0, 1], &[1, 1]]),
        ..P
    })],
    // This one takes index 1, and index 0 is freed.
    &[Nal::Slice(Slice {
        frame_num: 4,
        order: Zero(8, 0),
        operations: Some(&[&[6, 1], &[2, 0]]),
        ..P
    })],
    &[Nal::Slice(Slice {
        first: 0x01,
        frame_num: 5,
        order: Zero(10, 0),
        ..P
    })],
];

/// The dpb and list 0 of their requests.
const REFERENCES: [(&[Entry], &[Option<u8>]); 6] = [
    (&[], &[]),
    (&[(1000, 0, true)], &[Some(0)]),
    (&[(1000, 0, true), (2000, 1, false)], &[Some(0)]),
    (
        &[(1000, 0, true), (2000, 1, false), (3000, 2, false)],
        &[Some(2)],
    ),
    (
        &[(1000, 0, true), (3000, 1, true), (4000, 3, false)],
        &[Some(2)],
    ),
    (&[(4000, 3, false), (5000, 1, true)], &[Some(0)]),
];

/// The entry at this index of the request's dpb is this.
fn is_entry(request: &Request, index: u8, entry: &V4l2H264DpbEntry, wanted: Entry) -> bool {
    request.reference_ts(index) == Some(wanted.0)
        && entry.pic_num.cast_signed() == wanted.1
        && entry.flags.long_term == wanted.2
}

/// The request has these entries.
fn has_dpb(request: &Request, wanted: &[Entry]) -> bool {
    let entries = request.controls().decode_params.dpb.as_slice();
    let mut has = entries.len() == wanted.len();
    for (index, (entry, wanted)) in (0..=u8::MAX).zip(entries.iter().zip(wanted)) {
        has &= is_entry(request, index, entry, *wanted);
    }
    has
}

/// The one request of the picture has these entries and this list 0.
fn refers_to(outcome: &Outcome, dpb: &[Entry], list: &[Option<u8>]) -> bool {
    match only_request(outcome) {
        Some(request) => {
            has_dpb(request, dpb) && request.controls().slice_params.ref_pic_list0.entries() == list
        }
        None => false,
    }
}

#[test]
fn long_term_frames(rt: HostRuntime) -> Result<(), Fail> {
    let outcomes = outcomes(&rt, &LONG_TERM)?;
    assert!(rt; outcomes.len() == REFERENCES.len());
    for (row, (outcome, (dpb, list))) in outcomes.iter().zip(&REFERENCES).enumerate() {
        row_holds(&rt, row, refers_to(outcome, dpb, list));
    }
    Ok(())
}
