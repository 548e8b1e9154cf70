//! What each refusal is shown by.

use super::{IDR, MOST, NEXT_IDR, Nals, P, PPS, SPS, append, repeated, row_holds, sizes, text_of};
use access_unit::{Refused, StreamRefused, Unit, read_shared, read_unit};
use bytes::Bytes;
use std::alloc::{AllocError, Global};
use std::test::Fail;

/// The number of the refusal, 0 where there is none.
fn number(read: &Result<Unit, Refused>) -> u8 {
    match read {
        Ok(_) => 0,
        Err(refused) => refused.number(),
    }
}

/// The text is refused by this number, also where it is shared.
fn is_text_refused(alloc: Global, text: &[u8], wanted: u8) -> Result<bool, AllocError> {
    let shared = Bytes::copy_from_slice(alloc, text)?;
    Ok(number(&read_unit(alloc, text)) == wanted && number(&read_shared(alloc, &shared)) == wanted)
}

/// The NAL units are refused by this number.
fn are_refused(alloc: Global, nals: &[&[u8]], wanted: u8) -> Result<bool, AllocError> {
    is_text_refused(alloc, &text_of(alloc, nals)?, wanted)
}

/// NAL units that are no access unit, each with the number of its refusal.
const REFUSED: [(Nals, u8); 39] = [
    // No NAL unit; a type for partitioned data; the top bit of a set; sets that are cut.
    (&[], 1),
    (&[&[0x62, 0x40, 0x80]], 2),
    (&[&[0xE7, 0x42, 0x00, 0x0A, 0xDA, 0x79]], 3),
    (&[&[0x67, 0x42]], 4),
    (&[SPS, &[0x68, 0xCE]], 5),
    // An SP slice; a slice of another picture; a P slice and no reference in an IDR picture.
    (&[&[0x41, 0x90, 0x80]], 6),
    (&[IDR, &[0x41, 0x42, 0x21]], 7),
    (&[&[0x65, 0xC0, 0x80]], 8),
    (&[&[0x05, 0x88, 0x84, 0x80]], 9),
    // A slice that is no reference; a set after a slice; a second picture.
    (&[P, &[0x01, 0x42, 0x21]], 10),
    (&[IDR, SPS], 11),
    (&[IDR, IDR], 13),
    // A profile that isn't known.
    (&[&[0x67, 0x58, 0x00, 0x0A, 0xDA, 0x79]], 4),
    // slice_type 8, and 3 in an IDR picture.
    (&[&[0x41, 0x89, 0x80]], 6),
    (&[&[0x65, 0x90, 0x80]], 6),
    // slice_type 5 and 6 in an IDR picture.
    (&[&[0x65, 0x9A, 0x23]], 8),
    (&[&[0x65, 0x9E, 0x23]], 8),
    (&[IDR, PPS], 11),
    (&[IDR, &[6, 1]], 11),
    (&[IDR, &[9, 0x10]], 11),
    (&[IDR, &[16, 1]], 11),
    (&[IDR, &[18, 1]], 11),
    // The least of the first: a refused type with the forbidden bit, and one after a slice.
    (&[&[0xEE, 0x40]], 2),
    (&[IDR, &[14, 1]], 2),
    // The forbidden bit of a set that is cut.
    (&[&[0xE7, 0x42]], 3),
    // A set that is cut after a slice.
    (&[IDR, &[0x67, 0x42]], 4),
    // A P slice of an IDR picture that isn't a reference.
    (&[&[0x05, 0x9A, 0x23]], 8),
    // The first unit's, though it's the greater one.
    (&[IDR, PPS, &[0x6E, 0x40]], 11),
    (&[&[0x05, 0x88, 0x84, 0x80], &[0xE7, 0x42]], 9),
    // A unit without a slice is refused for what it shows.
    (&[SPS, &[0xEC, 0x80]], 3),
    // Slices by those before them.
    (&[IDR, &[0x41, 0x42, 0x21]], 7),
    (&[P, NEXT_IDR], 7),
    (&[P, &[0x01, 0x42, 0x21]], 10),
    (&[&[0x01, 0x9A, 0x23], &[0x41, 0x42, 0x21]], 10),
    // The least: an SP slice, a slice of another kind, an IDR slice that isn't a reference.
    (&[IDR, &[0x41, 0x90, 0x80]], 6),
    (&[IDR, P], 7),
    (&[IDR, &[0x05, 0x88, 0x84, 0x80]], 9),
    (&[P, &[0x01, 0x9A, 0x23]], 10),
    // A second picture, which isn't refused before its first slice.
    (&[IDR, NEXT_IDR, IDR], 13),
];

#[test]
fn refuses_by_number(rt: HostRuntime) -> Result<(), Fail> {
    for (row, (nals, number)) in REFUSED.iter().enumerate() {
        row_holds(&rt, row, are_refused(rt.alloc(), nals, *number)?);
    }
    Ok(())
}

/// Types of units that are refused.
const TYPES: [u8; 9] = [2, 3, 4, 13, 14, 15, 19, 20, 21];

#[test]
fn refuses_types(rt: HostRuntime) -> Result<(), Fail> {
    for (row, unit_type) in TYPES.iter().enumerate() {
        let nal = [0x60 | *unit_type, 0x40, 0x80];
        row_holds(&rt, row, are_refused(rt.alloc(), &[&nal], 2)?);
    }
    Ok(())
}

/// A picture of 256 slices, and a NAL unit after them.
fn after_256_slices(alloc: Global, nal: &[u8]) -> Result<Vec<u8>, AllocError> {
    let mut text = repeated(alloc, IDR, NEXT_IDR, 255)?;
    append(&mut text, 1, nal)?;
    Ok(text)
}

#[test]
fn refuses_a_slice_too_many(rt: HostRuntime) -> Result<(), Fail> {
    let text = repeated(rt.alloc(), IDR, NEXT_IDR, 255)?;
    assert!(rt; sizes(rt.alloc(), &text)? == (256, 256, 0));
    let text = after_256_slices(rt.alloc(), NEXT_IDR)?;
    assert!(rt; is_text_refused(rt.alloc(), &text, 14)?);
    // One that begins a picture too.
    let text = after_256_slices(rt.alloc(), IDR)?;
    assert!(rt; is_text_refused(rt.alloc(), &text, 13)?);
    Ok(())
}

/// A front, and after it so many bytes of this value that the text has this length.
fn filled(alloc: Global, front: &[u8], byte: u8, len: usize) -> Result<Vec<u8>, AllocError> {
    let mut text = Vec::from_slice(alloc, front)?;
    text.resize(len, byte)?;
    Ok(text)
}

/// The front of a text whose one unit is a slice.
const SLICE: [u8; 7] = [0, 0, 1, 0x65, 0x88, 0x84, 0x80];

#[test]
fn refuses_long_texts(rt: HostRuntime) -> Result<(), Fail> {
    let alloc = rt.alloc();
    assert!(rt; is_text_refused(alloc, &filled(alloc, &[], 0, MOST)?, 1)?);
    assert!(rt; is_text_refused(alloc, &filled(alloc, &[], 0, MOST + 1)?, 14)?);
    assert!(rt; sizes(alloc, &filled(alloc, &SLICE, 0x11, MOST)?)? == (1, 1, 0));
    assert!(rt; is_text_refused(alloc, &filled(alloc, &SLICE, 0x11, MOST + 1)?, 14)?);
    Ok(())
}

#[test]
fn tells_refusals(rt: HostRuntime) -> Result<(), Fail> {
    let split = Refused::Split;
    let told = format!(in rt.alloc(); "{split}")?;
    assert!(rt; told.as_str() == "the text doesn't split into units");
    assert!(rt; split.name() == "Split" && Refused::Memory.number() == 15);
    let index = 3;
    let refused = Refused::UnitType;
    let stream = StreamRefused::Unit { index, refused };
    let told = format!(in rt.alloc(); "{stream}")?;
    assert!(rt; told.as_str() == "unit 3: a unit's type isn't read" && stream.number() == 2);
    assert!(rt; StreamRefused::Split.number() == 1 && StreamRefused::Memory.number() == 3);
    Ok(())
}
