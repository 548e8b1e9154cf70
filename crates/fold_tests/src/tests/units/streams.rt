//! Streams of access units.

use super::{IDR, MOST, Nals, P, PPS, SPS, append, has_nals, row_holds, text_of};
use access_unit::{Refused, StreamRefused, Unit, read_stream};
use std::alloc::{AllocError, Global};
use std::test::Fail;

/// Access units, as NAL units.
const UNITS: [Nals; 5] = [
    &[SPS, PPS, IDR],
    &[P],
    &[&[0x41, 0x9A, 0x43]],
    &[&[9, 0x10], IDR],
    // Sets at the end are a unit without a slice.
    &[SPS, PPS],
];

/// The units have just these NAL units.
fn are_units(units: &[Unit], wanted: &[Nals]) -> bool {
    units.len() == wanted.len()
        && units
            .iter()
            .zip(wanted)
            .all(|(unit, nals)| has_nals(unit, nals))
}

#[test]
fn reads_streams(rt: HostRuntime) -> Result<(), Fail> {
    let text = text_of(
        rt.alloc(),
        &[
            SPS,
            PPS,
            IDR,
            P,
            &[0x41, 0x9A, 0x43],
            &[9, 0x10],
            IDR,
            SPS,
            PPS,
        ],
    )?;
    assert!(rt; are_units(&read_stream(&rt, rt.alloc(), &text)?, &UNITS));
    Ok(())
}

/// NAL units that are no stream of access units, with the index and the refusal of the first that
/// is none.
const REFUSED: [(Nals, usize, Refused); 2] = [
    // Two refused units: the first one's index.
    (
        &[IDR, &[0x6E, 0x40], P, &[0xE7, 0x42], P, SPS],
        1,
        Refused::UnitType,
    ),
    (&[IDR, P, SPS, &[0x68, 0xCE]], 2, Refused::Pps),
];

#[test]
fn refuses_units_of_streams(rt: HostRuntime) -> Result<(), Fail> {
    for (row, (nals, index, refused)) in REFUSED.iter().enumerate() {
        let wanted = StreamRefused::Unit {
            index: *index,
            refused: *refused,
        };
        let text = text_of(rt.alloc(), nals)?;
        row_holds(
            &rt,
            row,
            read_stream(&rt, rt.alloc(), &text).err() == Some(wanted),
        );
    }
    Ok(())
}

/// Texts that don't split into NAL units.
const UNSPLIT: [&[u8]; 2] = [&[], &[0, 0, 1, 0x65, 0, 0, 2]];

#[test]
fn refuses_texts_that_do_not_split(rt: HostRuntime) {
    for (row, text) in UNSPLIT.iter().enumerate() {
        row_holds(
            &rt,
            row,
            read_stream(&rt, rt.alloc(), text).err() == Some(StreamRefused::Split),
        );
    }
}

/// An IDR picture, and then a P picture whose text, with its start code, has this length.
fn with_a_long_unit(alloc: Global, len: usize) -> Result<Vec<u8>, AllocError> {
    let mut text = text_of(alloc, &[IDR, P])?;
    text.resize(len.saturating_add(7), 0x11)?;
    Ok(text)
}

/// A unit's length counts its start codes of three bytes, and no zeros.
#[test]
fn reads_long_units_of_streams(rt: HostRuntime) -> Result<(), Fail> {
    let mut text = with_a_long_unit(rt.alloc(), MOST)?;
    append(&mut text, 1, P)?;
    text.extend_from_slice(&[0; 9])?;
    assert!(rt; read_stream(&rt, rt.alloc(), &text)?.len() == 3);
    let text = with_a_long_unit(rt.alloc(), MOST + 1)?;
    let index = 1;
    let refused = Refused::TooLarge;
    assert!(rt;
        read_stream(&rt, rt.alloc(), &text).err() == Some(StreamRefused::Unit { index, refused })
    );
    Ok(())
}
