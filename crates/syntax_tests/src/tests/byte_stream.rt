//! Texts split into units, joined and cut, and payloads (B.1, 7.3.1, 7.4.1).

mod growth;
mod units;

use super::row_holds;
use annexb::{Nal, SplitFault, join, payload, payload_front, split};
use std::alloc::{AllocError, Global};
use std::test::Fail;

/// These units have just these bytes.
fn are_units(nals: &[Nal<'_>], units: &[&[u8]]) -> bool {
    nals.len() == units.len()
        && nals
            .iter()
            .zip(units)
            .all(|(nal, unit)| nal.bytes() == *unit)
}

/// The text has just these units.
fn splits_into(alloc: Global, text: &[u8], units: &[&[u8]]) -> Result<bool, SplitFault> {
    Ok(are_units(&split(alloc, text)?, units))
}

/// Texts with their units.
const TEXTS: [(&[u8], &[&[u8]]); 6] = [
    (&[0, 0, 1, 0x0C, 0xFF, 0, 0, 3], &[&[0x0C, 0xFF, 0, 0, 3]]),
    // Start codes of four bytes, and zeros at the end.
    (
        &[0, 0, 0, 1, 0x41, 0x9A, 0x23, 0, 0],
        &[&[0x41, 0x9A, 0x23]],
    ),
    (
        &[0, 0, 0, 1, 0x67, 1, 0, 0, 0, 1, 0x68, 2],
        &[&[0x67, 1], &[0x68, 2]],
    ),
    (&[0, 0, 0, 0, 0, 0, 1, 9, 0], &[&[9]]),
    // Zeros and escaped zeros within a unit, at its front too.
    (&[0, 0, 1, 0, 0, 5, 0, 7], &[&[0, 0, 5, 0, 7]]),
    (
        &[0, 0, 1, 9, 0, 0, 3, 0, 0, 3, 3, 0, 0, 0, 0, 1, 8],
        &[&[9, 0, 0, 3, 0, 0, 3, 3], &[8]],
    ),
];

#[test]
fn splits_texts(rt: HostRuntime) -> Result<(), Fail> {
    for (row, (text, units)) in TEXTS.iter().enumerate() {
        row_holds(&rt, row, splits_into(rt.alloc(), text, units)?);
    }
    Ok(())
}

/// Texts with their first fault.
const FAULTS: [(&[u8], SplitFault); 16] = [
    (&[], SplitFault::NoStartCode),
    (&[0, 0], SplitFault::NoStartCode),
    (&[0, 1, 9], SplitFault::NoStartCode),
    (&[5, 0, 0, 1, 9], SplitFault::NoStartCode),
    (&[0, 0, 2, 0, 0, 1, 9], SplitFault::NoStartCode),
    (&[0, 0, 1], SplitFault::EmptyUnit { at: 3 }),
    (&[0, 0, 1, 0], SplitFault::EmptyUnit { at: 3 }),
    (&[0, 0, 1, 0, 0, 1, 9], SplitFault::EmptyUnit { at: 3 }),
    (
        &[0, 0, 1, 9, 0, 0, 0, 1, 0],
        SplitFault::EmptyUnit { at: 8 },
    ),
    (
        &[0, 0, 1, 0x0C, 0, 0, 3, 4],
        SplitFault::ForbiddenBytes { at: 4 },
    ),
    (
        &[0, 0, 1, 0x0C, 0, 0, 2],
        SplitFault::ForbiddenBytes { at: 4 },
    ),
    (
        &[0, 0, 1, 9, 0, 0, 0, 2],
        SplitFault::ForbiddenBytes { at: 4 },
    ),
    (&[0, 0, 1, 0, 0, 0, 5], SplitFault::ForbiddenBytes { at: 3 }),
    (
        &[0, 0, 1, 9, 0, 0, 3, 0, 0, 3, 4],
        SplitFault::ForbiddenBytes { at: 7 },
    ),
    (
        &[0, 0, 1, 9, 0, 0, 2, 0, 0, 1],
        SplitFault::ForbiddenBytes { at: 4 },
    ),
    (
        &[0, 0, 1, 0, 0, 1, 9, 0, 0, 2],
        SplitFault::EmptyUnit { at: 3 },
    ),
];

#[test]
fn names_the_first_fault(rt: HostRuntime) {
    for (row, (text, fault)) in FAULTS.iter().enumerate() {
        row_holds(&rt, row, split(rt.alloc(), text).err() == Some(*fault));
    }
}

/// Each fault with its number and its text.
const TOLD: [(SplitFault, u8, &str); 4] = [
    (SplitFault::NoStartCode, 1, "no start code"),
    (
        SplitFault::ForbiddenBytes { at: 4_194_303 },
        2,
        "forbidden bytes at 4194303",
    ),
    (SplitFault::EmptyUnit { at: 12 }, 3, "no unit at 12"),
    (SplitFault::Memory, 4, "out of memory"),
];

#[test]
fn tells_faults_of_a_text(rt: HostRuntime) -> Result<(), Fail> {
    for (row, (fault, number, text)) in TOLD.iter().enumerate() {
        let told = format!(in rt.alloc(); "{fault}")?;
        row_holds(
            &rt,
            row,
            fault.number() == *number && told.as_str() == *text,
        );
    }
    Ok(())
}

/// Texts of one unit with its payload.
const PAYLOADS: [(&[u8], &[u8]); 5] = [
    (&[0, 0, 1, 0x0C, 0xFF, 0, 0, 3], &[0x0C, 0xFF, 0, 0]),
    (
        &[0, 0, 1, 9, 0, 0, 3, 0, 0, 3, 1, 3],
        &[9, 0, 0, 0, 0, 1, 3],
    ),
    (&[0, 0, 1, 9, 0, 0, 3, 3, 0, 3], &[9, 0, 0, 3, 0, 3]),
    (&[0, 0, 1, 0, 0, 3, 0, 0, 4], &[0, 0, 0, 0, 4]),
    (&[0, 0, 1, 3], &[3]),
];

/// The front of the payload, for a prefix of four bytes and of none.
fn has_front(nal: &Nal<'_>, payload: &[u8]) -> bool {
    let mut front = [7; 4];
    let count = payload_front(nal, &mut front);
    count == payload.len().min(4)
        && front[..count] == payload[..count]
        && payload_front(nal, &mut []) == 0
}

/// The one unit of the text has this payload.
fn has_payload(alloc: Global, text: &[u8], wanted: &[u8]) -> Result<bool, Fail> {
    let nals = split(alloc, text)?;
    let Some(nal) = nals.first() else {
        return Ok(false);
    };
    Ok(has_front(nal, wanted) && payload(alloc, nal)?.as_slice() == wanted)
}

#[test]
fn takes_payloads(rt: HostRuntime) -> Result<(), Fail> {
    for (row, (text, wanted)) in PAYLOADS.iter().enumerate() {
        row_holds(&rt, row, has_payload(rt.alloc(), text, wanted)?);
    }
    Ok(())
}

/// The units of the text, joined.
fn joined(alloc: Global, text: &[u8]) -> Result<Vec<u8>, Fail> {
    Ok(join(alloc, &split(alloc, text)?)?)
}

#[test]
fn joins_units(rt: HostRuntime) -> Result<(), Fail> {
    let text = [0, 0, 0, 1, 0x67, 1, 0, 0, 0, 0, 1, 0x65, 0, 0, 3, 0, 0];
    let plain = [0, 0, 1, 0x67, 1, 0, 0, 1, 0x65, 0, 0, 3];
    assert!(rt; joined(rt.alloc(), &text)?.as_slice() == plain.as_slice());
    assert!(rt; splits_into(rt.alloc(), &plain, &[&[0x67, 1], &[0x65, 0, 0, 3]])?);
    Ok(())
}

/// A text, and after it a piece so many times.
fn repeated(alloc: Global, front: &[u8], piece: &[u8], times: u32) -> Result<Vec<u8>, AllocError> {
    let mut text = Vec::from_slice(alloc, front)?;
    for _ in 0..times {
        text.extend_from_slice(piece)?;
    }
    Ok(text)
}

/// How many units a text has.
fn count_of(alloc: Global, text: &[u8]) -> Result<usize, SplitFault> {
    Ok(split(alloc, text)?.len())
}

/// The one unit of the text has a payload of so many zeros.
fn has_zeros(alloc: Global, text: &[u8], count: usize) -> Result<bool, Fail> {
    let nals = split(alloc, text)?;
    let Some(nal) = nals.first() else {
        return Ok(false);
    };
    let mut front = [1; 64];
    let written = payload_front(nal, &mut front);
    Ok(written == 64 && front == [0; 64] && payload(alloc, nal)?.len() == count)
}

#[test]
fn goes_over_a_long_text_once(rt: HostRuntime) -> Result<(), Fail> {
    let alloc = rt.alloc();
    // As many units as four mebibytes can have.
    let units = repeated(alloc, &[], &[0, 0, 1, 0x41], 1 << 20)?;
    assert!(rt; count_of(alloc, &units)? == 1 << 20);
    assert!(rt; joined(alloc, &units)?.as_slice() == units.as_slice());
    assert!(rt; units::cuts_of(alloc, &units)?.len() == 1);
    // Zeros alone round one unit.
    let zeros = repeated(alloc, &[], &[0; 64], 1 << 16)?;
    let unit = repeated(alloc, &zeros, &[1, 9], 1)?;
    assert!(rt; count_of(alloc, &repeated(alloc, &unit, &[0; 64], 1 << 16)?)? == 1);
    // One unit of nothing but escaped zeros.
    let escaped = repeated(alloc, &[0, 0, 1], &[0, 0, 3], 1 << 20)?;
    assert!(rt; has_zeros(alloc, &escaped, 2 << 20)?);
    Ok(())
}
