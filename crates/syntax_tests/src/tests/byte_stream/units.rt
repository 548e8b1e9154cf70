//! The first bytes of units, and units cut into access units (7.4.1.2.3).

use super::super::row_holds;
use annexb::{Nal, cut_units, split};
use std::alloc::{AllocError, Global};
use std::ops::Range;
use std::test::Fail;

/// The access units of a text.
pub(super) fn cuts_of(alloc: Global, text: &[u8]) -> Result<Vec<Range<usize>>, Fail> {
    Ok(cut_units(alloc, &split(alloc, text)?)?)
}

/// The text of units of two bytes.
fn text_of(alloc: Global, units: &[[u8; 2]]) -> Result<Vec<u8>, AllocError> {
    let mut text = Vec::new(alloc);
    for unit in units {
        text.extend_from_slice(&[0, 0, 1])?;
        text.extend_from_slice(unit)?;
    }
    Ok(text)
}

/// The ranges end at just these places, each beginning where the one before ends.
fn end_at(ranges: &[Range<usize>], places: &[usize]) -> bool {
    let mut start = 0;
    for (range, place) in ranges.iter().zip(places) {
        if range.start != start || range.end != *place {
            return false;
        }
        start = *place;
    }
    ranges.len() == places.len()
}

/// The units of two bytes are cut before just these places, the end being the last one.
fn cuts_before(alloc: Global, units: &[[u8; 2]], places: &[usize]) -> Result<bool, Fail> {
    let text = text_of(alloc, units)?;
    let ranges = cuts_of(alloc, &text)?;
    Ok(end_at(&ranges, places))
}

/// Units with the places of their cuts.
const CUTS: [(&[[u8; 2]], &[usize]); 4] = [
    (&[[0x67, 1], [0x68, 1]], &[2]),
    // Delimiter, sets and SEI before the slices, the second of which begins at another macroblock.
    (
        &[
            [9, 1],
            [0x67, 1],
            [0x68, 1],
            [6, 1],
            [0x65, 0x88],
            [0x65, 0x42],
        ],
        &[6],
    ),
    (
        &[
            [0x67, 1],
            [0x68, 1],
            [0x65, 0x88],
            [0x41, 0x9A],
            [0x41, 0x9A],
        ],
        &[3, 4, 5],
    ),
    // Two units that begin an access unit, one after the other.
    (
        &[
            [0x65, 0x88],
            [9, 1],
            [0x67, 1],
            [0x41, 0x9A],
            [0x41, 0x23],
            [12, 1],
        ],
        &[1, 6],
    ),
];

#[test]
fn cuts_access_units(rt: HostRuntime) -> Result<(), Fail> {
    assert!(rt; cut_units(rt.alloc(), &[])?.is_empty());
    for (row, (units, places)) in CUTS.iter().enumerate() {
        row_holds(&rt, row, cuts_before(rt.alloc(), units, places)?);
    }
    Ok(())
}

/// Whether a unit of this type, after a slice, begins an access unit.
fn begins(unit_type: u8) -> bool {
    matches!(unit_type, 6 | 7 | 8 | 9 | 14 | 15 | 16 | 17 | 18)
}

#[test]
fn cuts_by_type(rt: HostRuntime) -> Result<(), Fail> {
    for unit_type in 0..32u8 {
        let units = [[0x65, 0x88], [unit_type, 1], [0x65, 0x42]];
        let places: &[usize] = if begins(unit_type) { &[1, 3] } else { &[3] };
        let row = usize::from(unit_type);
        row_holds(&rt, row, cuts_before(rt.alloc(), &units, places)?);
    }
    Ok(())
}

/// forbidden_zero_bit, nal_ref_idc, nal_unit_type, and whether it is a slice, and one that begins
/// at macroblock 0.
type Fields = (bool, u8, u8, bool, bool);

fn fields(nal: &Nal<'_>) -> Fields {
    (
        nal.forbidden_zero_bit(),
        nal.nal_ref_idc(),
        nal.nal_unit_type(),
        nal.is_slice(),
        nal.begins_at_macroblock_zero(),
    )
}

/// Texts of one unit with what its first bytes say. The last is a slice of one byte.
const HEADERS: [(&[u8], Fields); 4] = [
    (&[0, 0, 1, 0x65, 0x88], (false, 3, 5, true, true)),
    (&[0, 0, 1, 0x01, 0x7F], (false, 0, 1, true, false)),
    (&[0, 0, 1, 0xE7, 0xFF], (true, 3, 7, false, false)),
    (&[0, 0, 1, 0x65], (false, 3, 5, true, false)),
];

#[test]
fn reads_headers(rt: HostRuntime) -> Result<(), Fail> {
    for (row, (text, wanted)) in HEADERS.iter().enumerate() {
        let nals = split(rt.alloc(), text)?;
        row_holds(&rt, row, nals.first().map(fields) == Some(*wanted));
    }
    Ok(())
}
