//! Breaks, and what is in doubt behind them, by streams made by hand: MaxFrameNum 16, order count
//! type 2, one reference frame, one macroblock.

use super::fold::unit;
use super::row_holds;
use access_unit::Unit;
use h264_types::pictures::AuId;
use request_core::scratch;
use std::alloc::{AllocError, AllocGlobal, Global};
use std::process::Abort;
use std::test::Fail;
use unit_outcomes::Outcome;
use unit_outcomes::doubts::{Doubt, doubts};

/// Sets and an IDR picture.
const A: &[u8] = &[
    0, 0, 1, 0x67, 0x42, 0x00, 0x0A, 0xDA, 0x79, 0, 0, 1, 0x68, 0xCE, 0x38, 0x80, 0, 0, 1, 0x65,
    0x88, 0x84, 0x80,
];

/// The sequence parameter set alone.
const SPS: &[u8] = &[0, 0, 1, 0x67, 0x42, 0x00, 0x0A, 0xDA, 0x79];

/// P pictures with one active entry, by their frame_num.
const P0: &[u8] = &[0, 0, 1, 0x41, 0x9A, 0x03];

const P1: &[u8] = &[0, 0, 1, 0x41, 0x9A, 0x23];

const P2: &[u8] = &[0, 0, 1, 0x41, 0x9A, 0x43];

const P3: &[u8] = &[0, 0, 1, 0x41, 0x9A, 0x63];

const P4: &[u8] = &[0, 0, 1, 0x41, 0x9A, 0x83];

const P5: &[u8] = &[0, 0, 1, 0x41, 0x9A, 0xA3];

const P6: &[u8] = &[0, 0, 1, 0x41, 0x9A, 0xC3];

const P7: &[u8] = &[0, 0, 1, 0x41, 0x9A, 0xE3];

const P8: &[u8] = &[0, 0, 1, 0x41, 0x9B, 0x03];

const P9: &[u8] = &[0, 0, 1, 0x41, 0x9B, 0x23];

const P10: &[u8] = &[0, 0, 1, 0x41, 0x9B, 0x43];

const P11: &[u8] = &[0, 0, 1, 0x41, 0x9B, 0x63];

const P12: &[u8] = &[0, 0, 1, 0x41, 0x9B, 0x83];

const P13: &[u8] = &[0, 0, 1, 0x41, 0x9B, 0xA3];

const P14: &[u8] = &[0, 0, 1, 0x41, 0x9B, 0xC3];

const P15: &[u8] = &[0, 0, 1, 0x41, 0x9B, 0xE3];

/// I pictures that aren't IDR, of frame_num 1 and 2.
const I1: &[u8] = &[0, 0, 1, 0x41, 0x88, 0x8B];

const I2: &[u8] = &[0, 0, 1, 0x41, 0x88, 0x93];

/// P pictures of frame_num 1 and 2 with two active entries, where there is one frame.
const MISSES1: &[u8] = &[0, 0, 1, 0x41, 0x9A, 0x34, 0x60];

const MISSES2: &[u8] = &[0, 0, 1, 0x41, 0x9A, 0x54, 0x60];

/// A P picture of frame_num 2 with memory_management_control_operation 5.
const RESETS2: &[u8] = &[0, 0, 1, 0x41, 0x9A, 0x44, 0xDF];

/// A P picture of frame_num 2 that is no reference picture.
const NO_REFERENCE2: &[u8] = &[0, 0, 1, 0x01, 0x9A, 0x47];

/// Slices whose headers are cut, of a picture that is no reference and of one that is.
const CUT: &[u8] = &[0, 0, 1, 0x01, 0x9A];

const CUT_REFERENCE: &[u8] = &[0, 0, 1, 0x41, 0x9A];

/// Texts of units, and of each the number of the unit that it follows, 0 where it follows none, and
/// whether it is in doubt.
type Row = (&'static [&'static [u8]], &'static [(u32, bool)]);

const NONE: (u32, bool) = (0, false);

const ROWS: [Row; 9] = [
    // A gap, and nothing behind it.
    (&[A, P1, P2, P1], &[NONE, NONE, NONE, NONE]),
    // frame_num wraps, and fits again; an I picture behind that, and what lists it alone.
    (
        &[
            A, P2, P3, P4, P5, P6, P7, P8, P9, P10, P11, P12, P13, P14, P15, P0, P1, I2, P3,
        ],
        &[
            NONE,
            NONE,
            (2, false),
            (2, false),
            (2, false),
            (2, false),
            (2, false),
            (2, false),
            (2, false),
            (2, false),
            (2, false),
            (2, false),
            (2, false),
            (2, false),
            (2, false),
            (2, false),
            (2, true),
            (2, false),
            (2, false),
        ],
    ),
    // Operation 5 ends no doubt.
    (
        &[A, P2, P1, RESETS2, P1],
        &[NONE, NONE, (2, true), (2, true), (2, true)],
    ),
    // An IDR picture does; a break behind it is another one.
    (
        &[A, P2, P1, A, P1, P3, P2],
        &[NONE, NONE, (2, true), NONE, NONE, NONE, (6, true)],
    ),
    // A missing entry is doubted behind a break alone.
    (&[A, P2, I1, MISSES2], &[NONE, NONE, (2, false), (2, true)]),
    (&[A, MISSES1], &[NONE, NONE]),
    // A fault of a picture that is no reference is a break where pictures are missing.
    (&[A, CUT, P1], &[NONE, NONE, NONE]),
    (
        &[A, NO_REFERENCE2, SPS, P1],
        &[NONE, NONE, (2, false), (2, true)],
    ),
    (&[A, CUT_REFERENCE, P1], &[NONE, NONE, (2, true)]),
];

/// Whether the first slice of a unit is of a reference picture.
fn is_reference(unit: &Unit) -> bool {
    match unit.slices() {
        [] => false,
        [slice, ..] => slice.nal().nal_ref_idc() != 0,
    }
}

/// A stream in columns.
#[derive(Drop)]
struct Stream {
    ids: Vec<AuId>,
    references: Vec<bool>,
    outcomes: Vec<Outcome>,
}

/// The stream of these texts, with ids from 1 on.
fn stream_of(rt: &(impl Abort + AllocGlobal), texts: &[&[u8]]) -> Result<Stream, AllocError> {
    let (mut units, mut ids) = (Vec::new(rt.alloc()), Vec::new(rt.alloc()));
    let mut references = Vec::new(rt.alloc());
    let mut number = 0u32;
    for text in texts {
        number = number.saturating_add(1);
        let unit = unit(rt, *text)?;
        ids.push(AuId::new(number))?;
        references.push(is_reference(&unit))?;
        units.push((AuId::new(number), unit))?;
    }
    Ok(Stream {
        ids,
        references,
        outcomes: scratch(rt.alloc(), &units)?,
    })
}

/// What is told of units from a place on, up to the end.
fn doubts_from(alloc: Global, stream: &Stream, from: usize) -> Result<Vec<Doubt>, AllocError> {
    let (ids, references, outcomes) = (&stream.ids, &stream.references, &stream.outcomes);
    let units = ids.len();
    if references.len() != units || outcomes.len() != units || units < from {
        return Ok(Vec::new(alloc));
    }
    doubts(alloc, ids, references, outcomes, from, units - from)
}

/// Just this is told.
fn are_told(told: &[Doubt], expected: &[(u32, bool)]) -> bool {
    told.len() == expected.len()
        && told.iter().zip(expected).all(|(doubt, expected)| {
            doubt.follows.map_or(0, |id| id.number()) == expected.0 && doubt.in_doubt == expected.1
        })
}

#[test]
fn tells_what_is_in_doubt(rt: HostRuntime) -> Result<(), Fail> {
    for (row, (texts, expected)) in ROWS.iter().enumerate() {
        let stream = stream_of(&rt, texts)?;
        let told = doubts_from(rt.alloc(), &stream, 0)?;
        row_holds(&rt, row, are_told(&told, expected));
    }
    Ok(())
}

#[test]
fn tells_ranges_as_the_whole(rt: HostRuntime) -> Result<(), Fail> {
    for (row, (texts, expected)) in ROWS.iter().enumerate() {
        let stream = stream_of(&rt, texts)?;
        for from in 0..expected.len() {
            let told = doubts_from(rt.alloc(), &stream, from)?;
            row_holds(&rt, row, are_told(&told, &expected[from..]));
        }
    }
    Ok(())
}
