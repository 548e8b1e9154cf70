//! The texts that are drawn.

use bytes::Bytes;
use std::alloc::{AllocError, Global};

/// Texts, each with the places of two texts that may follow it.
const POOL: [(&[u8], usize, usize); 19] = [
    // Sets and an IDR picture, of one macroblock, count type 2 and one reference frame.
    (
        &[
            0, 0, 1, 0x67, 0x42, 0x00, 0x0A, 0xDA, 0x79, 0, 0, 1, 0x68, 0xCE, 0x38, 0x80, 0, 0, 1,
            0x65, 0x88, 0x84, 0x80,
        ],
        4,
        10,
    ),
    // The picture alone.
    (&[0, 0, 1, 0x65, 0x88, 0x84, 0x80], 4, 14),
    // P pictures with frame_num 1, 2 and 3.
    (&[0, 0, 1, 0x41, 0x9A, 0x23], 6, 16),
    (&[0, 0, 1, 0x41, 0x9A, 0x43], 8, 12),
    (&[0, 0, 1, 0x41, 0x9A, 0x63], 2, 0),
    // The first and the third of them as no references.
    (&[0, 0, 1, 0x01, 0x9A, 0x27], 4, 11),
    (&[0, 0, 1, 0x01, 0x9A, 0x67], 8, 9),
    // The first of them with a zero after it.
    (&[0, 0, 1, 0x41, 0x9A, 0x23, 0x00], 6, 16),
    // A P picture with frame_num 2 after which all counting begins anew.
    (&[0, 0, 1, 0x41, 0x9A, 0x44, 0xDF], 4, 10),
    // Sets and an IDR picture, of one macroblock, count type 0 and two reference frames.
    (
        &[
            0, 0, 1, 0x67, 0x4D, 0x00, 0x0A, 0xF6, 0xF2, 0, 0, 1, 0x68, 0xCE, 0x38, 0x80, 0, 0, 1,
            0x65, 0x88, 0x84, 0x0C,
        ],
        22,
        22,
    ),
    // The picture alone.
    (&[0, 0, 1, 0x65, 0x88, 0x84, 0x0C], 22, 23),
    // A P picture with frame_num 1.
    (&[0, 0, 1, 0x41, 0x9A, 0x28, 0x30], 24, 26),
    // With frame_num 2, a B picture that is shown before it and a P picture of two entries.
    (&[0, 0, 1, 0x01, 0x9E, 0x45, 0x18], 26, 25),
    (&[0, 0, 1, 0x41, 0x9A, 0x51, 0x46], 28, 30),
    // The same with frame_num 3.
    (&[0, 0, 1, 0x01, 0x9E, 0x6D, 0x18], 30, 29),
    (&[0, 0, 1, 0x41, 0x9A, 0x79, 0x46], 20, 18),
    // Sets and an IDR picture of two slices, of two macroblocks.
    (
        &[
            0, 0, 1, 0x67, 0x42, 0x00, 0x0A, 0xDA, 0x2E, 0x40, 0, 0, 1, 0x68, 0xCE, 0x38, 0x80, 0,
            0, 1, 0x65, 0x88, 0x84, 0x80, 0, 0, 1, 0x65, 0x42, 0x21, 0x30,
        ],
        4,
        10,
    ),
    // Units without a slice: the first sequence parameter set, and another one under its id.
    (&[0, 0, 1, 0x67, 0x42, 0x00, 0x0A, 0xDA, 0x79], 4, 36),
    (&[0, 0, 1, 0x67, 0x42, 0x00, 0x0A, 0xDB, 0x79], 34, 4),
];

/// Texts that are no unit: one that doesn't split, and a unit of type 14.
const REFUSED: [&[u8]; 2] = [&[0, 0, 1], &[0, 0, 1, 0x6E, 0x40]];

/// How many texts there are: each of the pool's, the same with a byte more, and those that are no
/// unit with that byte.
pub(super) const TEXTS: usize = 2 * POOL.len() + 2 * REFUSED.len();

/// The text at a place.
pub(super) fn text_at(alloc: Global, place: usize) -> Result<Bytes, AllocError> {
    let text = match POOL.get(place / 2) {
        Some(row) => row.0,
        None => REFUSED
            .get((place / 2).saturating_sub(POOL.len()))
            .copied()
            .unwrap_or(&[]),
    };
    let mut bytes = Vec::from_slice(alloc, text)?;
    if place % 2 == 1 {
        bytes.push(0x80)?;
    }
    Ok(Bytes::from_vec(bytes)?)
}

/// The place of the one or the other text that may follow that at a place.
pub(super) fn next_of(place: usize, is_other: bool) -> usize {
    match POOL.get(place / 2) {
        Some(row) if is_other => row.2,
        Some(row) => row.1,
        None => 0,
    }
}
