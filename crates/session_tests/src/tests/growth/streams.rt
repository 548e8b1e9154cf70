//! Streams, with what is read of them and the outcomes of their units, as the standard has it and a
//! hand worked it out. The pictures are hashes that tools/model-script prints, which has nothing of
//! the program.

use stand_in_session::Picture;
use std::alloc::{AllocError, Global};
use unit_outcomes::Outcome;

/// A stream whose units are all valid or have no picture.
#[derive(Clone, Copy)]
pub(super) struct Stream {
    /// The texts of the units.
    pub(super) texts: &'static [&'static [u8]],
    /// The first byte and the length of each NAL unit.
    pub(super) nals: &'static [(u8, usize)],
    /// How many NAL units, parameter sets and slices each unit has.
    pub(super) parts: &'static [(usize, usize, usize)],
    /// What is planned for each unit, nothing where it has no picture.
    pub(super) plans: &'static [Option<Planned>],
    /// The picture of each unit, if it has one.
    pub(super) pictures: &'static [Option<Picture>],
}

/// The picture order counts of both fields of a unit's frame, and how many requests the unit has.
pub(super) type Planned = (i32, i32, usize);

/// What is planned for a unit, nothing where it isn't valid.
pub(super) fn planned(outcome: &Outcome) -> Option<Planned> {
    match outcome {
        Outcome::Plan(plan) => Some((
            plan.counts.top,
            plan.counts.bottom,
            plan.requests.as_slice().len(),
        )),
        Outcome::Fault(_) | Outcome::Empty => None,
    }
}

/// Sets and an IDR picture, of one macroblock, count type 2 and one reference frame; and the same
/// with other slice data.
pub(super) const A: &[u8] = &[
    0, 0, 1, 0x67, 0x42, 0x00, 0x0A, 0xDA, 0x79, 0, 0, 1, 0x68, 0xCE, 0x38, 0x80, 0, 0, 1, 0x65,
    0x88, 0x84, 0x80,
];

pub(super) const OTHER_A: &[u8] = &[
    0, 0, 1, 0x67, 0x42, 0x00, 0x0A, 0xDA, 0x79, 0, 0, 1, 0x68, 0xCE, 0x38, 0x80, 0, 0, 1, 0x65,
    0x88, 0x84, 0x81,
];

/// The sequence parameter set of A alone, and another one under its id.
pub(super) const SPS: &[u8] = &[0, 0, 1, 0x67, 0x42, 0x00, 0x0A, 0xDA, 0x79];

pub(super) const OTHER_SPS: &[u8] = &[0, 0, 1, 0x67, 0x42, 0x00, 0x0A, 0xDB, 0x79];

/// P pictures with frame_num 1 and 2.
pub(super) const P1: &[u8] = &[0, 0, 1, 0x41, 0x9A, 0x23];

pub(super) const P2: &[u8] = &[0, 0, 1, 0x41, 0x9A, 0x43];

/// Sets and an IDR picture, of one macroblock, count type 0 and two reference frames; a P picture;
/// a B picture that is shown between them; and a B picture with the P picture's count.
pub(super) const IDR: &[u8] = &[
    0, 0, 1, 0x67, 0x4D, 0x00, 0x0A, 0xF6, 0xF2, 0, 0, 1, 0x68, 0xCE, 0x38, 0x80, 0, 0, 1, 0x65,
    0x88, 0x84, 0x0C,
];

pub(super) const P: &[u8] = &[0, 0, 1, 0x41, 0x9A, 0x28, 0x30];

pub(super) const B: &[u8] = &[0, 0, 1, 0x01, 0x9E, 0x45, 0x18];

pub(super) const TIED_B: &[u8] = &[0, 0, 1, 0x01, 0x9E, 0x49, 0x18];

/// Sets and an IDR picture of two macroblocks in two slices.
pub(super) const SLICES: &[u8] = &[
    0, 0, 1, 0x67, 0x42, 0x00, 0x0A, 0xDA, 0x2E, 0x40, 0, 0, 1, 0x68, 0xCE, 0x38, 0x80, 0, 0, 1,
    0x65, 0x88, 0x84, 0x80, 0, 0, 1, 0x65, 0x42, 0x21, 0x30,
];

/// The pictures of A, of P1 after it, and of P2 after both.
pub(super) const PICTURE_OF_A: Picture = Picture {
    digest: [
        0x0A, 0xC6, 0xF5, 0xC6, 0xBC, 0x06, 0x4C, 0x43, 0x63, 0x09, 0xC1, 0x8B, 0x3D, 0x1B, 0x60,
        0x5A, 0xD6, 0x0F, 0x7D, 0xE3, 0x72, 0x40, 0x81, 0xB8, 0x4F, 0xF0, 0x1A, 0xAC, 0x2C, 0x39,
        0x54, 0xCF,
    ],
};

pub(super) const PICTURE_OF_P1: Picture = Picture {
    digest: [
        0x6B, 0xC6, 0xC0, 0x8C, 0xF1, 0xBA, 0xA8, 0x6F, 0x62, 0x95, 0x0D, 0xB2, 0xC1, 0xAC, 0xFA,
        0xAC, 0x24, 0x91, 0x2A, 0x0B, 0x56, 0xA8, 0xE0, 0xE6, 0xAC, 0x08, 0xD3, 0x02, 0xE2, 0xB4,
        0x9D, 0x88,
    ],
};

pub(super) const PICTURE_OF_P2: Picture = Picture {
    digest: [
        0x0C, 0x70, 0xD3, 0xA9, 0x22, 0x99, 0x05, 0x0A, 0xFD, 0xFA, 0x67, 0x10, 0x73, 0x98, 0x92,
        0xDA, 0x5E, 0x22, 0xD1, 0xDE, 0x0B, 0x70, 0xAA, 0x22, 0x6A, 0x5B, 0xFF, 0x99, 0xCD, 0x63,
        0x70, 0x46,
    ],
};

/// The pictures of the stream with a B picture.
pub(super) const PICTURE_OF_IDR: Picture = Picture {
    digest: [
        0x58, 0x17, 0xFF, 0xA4, 0x04, 0x92, 0x95, 0x1F, 0xBF, 0x97, 0x99, 0x29, 0xE9, 0x41, 0x67,
        0x54, 0x15, 0x39, 0xFF, 0xEB, 0x65, 0xDD, 0x1F, 0x5E, 0x4E, 0xCF, 0x50, 0xB8, 0x37, 0x04,
        0x2E, 0x1C,
    ],
};

pub(super) const PICTURE_OF_P: Picture = Picture {
    digest: [
        0xB5, 0x05, 0x78, 0xCB, 0x01, 0x24, 0x8B, 0x63, 0x3A, 0xC6, 0x72, 0x25, 0x45, 0x24, 0x07,
        0xC0, 0x70, 0x0E, 0x6C, 0x1A, 0x27, 0x5E, 0xC8, 0x6B, 0x6B, 0x3B, 0xD4, 0x50, 0x85, 0xC6,
        0xF5, 0x0E,
    ],
};

pub(super) const PICTURE_OF_B: Picture = Picture {
    digest: [
        0x6A, 0xC5, 0x5E, 0xF8, 0x4A, 0xF3, 0x26, 0xBD, 0xD3, 0x93, 0x14, 0x81, 0x70, 0x75, 0x62,
        0x89, 0x5B, 0x2C, 0x3E, 0x47, 0x3E, 0xA6, 0x72, 0xBC, 0xBD, 0x39, 0xF0, 0xB8, 0xD5, 0x75,
        0xBF, 0x8E,
    ],
};

/// The picture of the two slices.
pub(super) const PICTURE_OF_SLICES: Picture = Picture {
    digest: [
        0x54, 0x17, 0x61, 0x10, 0x96, 0x8C, 0x2F, 0xC8, 0xE6, 0x41, 0x64, 0xE9, 0xF1, 0xC2, 0xD3,
        0x48, 0xCF, 0x30, 0xC9, 0x20, 0x0C, 0x0E, 0xCE, 0xCA, 0x9B, 0xF6, 0xA3, 0x78, 0x61, 0x02,
        0x18, 0xCF,
    ],
};

pub(super) const STREAMS: [Stream; 4] = [
    Stream {
        texts: &[A, P1, P2],
        nals: &[(0x67, 6), (0x68, 4), (0x65, 4), (0x41, 3), (0x41, 3)],
        parts: &[(3, 2, 1), (1, 0, 1), (1, 0, 1)],
        plans: &[Some((0, 0, 1)), Some((2, 2, 1)), Some((4, 4, 1))],
        pictures: &[Some(PICTURE_OF_A), Some(PICTURE_OF_P1), Some(PICTURE_OF_P2)],
    },
    Stream {
        texts: &[IDR, P, B],
        nals: &[(0x67, 6), (0x68, 4), (0x65, 4), (0x41, 4), (0x01, 4)],
        parts: &[(3, 2, 1), (1, 0, 1), (1, 0, 1)],
        plans: &[Some((0, 0, 1)), Some((4, 4, 1)), Some((2, 2, 1))],
        pictures: &[Some(PICTURE_OF_IDR), Some(PICTURE_OF_P), Some(PICTURE_OF_B)],
    },
    Stream {
        texts: &[SLICES],
        nals: &[(0x67, 7), (0x68, 4), (0x65, 4), (0x65, 4)],
        parts: &[(4, 2, 2)],
        plans: &[Some((0, 0, 2))],
        pictures: &[Some(PICTURE_OF_SLICES)],
    },
    // The last unit has no slice.
    Stream {
        texts: &[A, P1, SPS],
        nals: &[(0x67, 6), (0x68, 4), (0x65, 4), (0x41, 3), (0x67, 6)],
        parts: &[(3, 2, 1), (1, 0, 1), (1, 1, 0)],
        plans: &[Some((0, 0, 1)), Some((2, 2, 1)), None],
        pictures: &[Some(PICTURE_OF_A), Some(PICTURE_OF_P1), None],
    },
];

/// The text of a stream.
pub(super) fn text_of(alloc: Global, stream: &Stream) -> Result<Vec<u8>, AllocError> {
    let mut text = Vec::new(alloc);
    for unit in stream.texts {
        text.extend_from_slice(*unit)?;
    }
    Ok(text)
}
