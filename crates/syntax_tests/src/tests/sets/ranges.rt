//! Each field at both ends of its range and one past them, in sets that no encoder writes.

use super::writer::{Code, filled, put};
use super::{pps_fault, row_holds, sps_fault};
use Code::{Fixed, Signed, TooLong, Unsigned};
use SetField::{
    ActiveCount, BipredIdc, BitDepth, ChromaFormat, ChromaOffset, CountBits, CountType,
    CycleLength, Delta, FrameNumBits, Height, InitQp, InitQs, Offset, PpsId, SpsId, Width,
};
use Wanted::{OutOf, Shows, Taken};
use param_sets::{SetFault, SetField};
use std::alloc::{AllocError, AllocGlobal, Global};
use std::process::Abort;
use std::test::Fail;
use test_builders::BitWriter;

/// The payload of these elements, but for one.
fn payload(alloc: Global, codes: &[Code], at: usize, other: Code) -> Result<Vec<u8>, AllocError> {
    let mut writer = BitWriter::new(alloc);
    for (i, code) in codes.iter().enumerate() {
        put(&mut writer, if i == at { other } else { *code })?;
    }
    filled(alloc, &mut writer)
}

/// What reading says of a set.
#[derive(Clone, Copy)]
enum Wanted {
    Taken,
    OutOf(SetField),
    Shows(SetFault),
}

/// The fault that is wanted.
fn fault_of(wanted: Wanted) -> Option<SetFault> {
    match wanted {
        Taken => None,
        OutOf(field) => Some(SetFault::Range { field }),
        Shows(fault) => Some(fault),
    }
}

/// The place of an element, the code that stands there, and what is said of the set.
type Row = (usize, Code, Wanted);

/// Whether a sequence parameter set of these elements shows the row's fault.
fn sps_is_right(alloc: Global, codes: &[Code], row: &Row) -> Result<bool, AllocError> {
    let payload = payload(alloc, codes, row.0, row.1)?;
    Ok(sps_fault(alloc, &payload) == fault_of(row.2))
}

fn sps_are_right(
    rt: &(impl Abort + AllocGlobal),
    codes: &[Code],
    rows: &[Row],
) -> Result<(), Fail> {
    for (place, row) in rows.iter().enumerate() {
        row_holds(rt, place, sps_is_right(rt.alloc(), codes, row)?);
    }
    Ok(())
}

/// The same for a picture parameter set.
fn pps_is_right(alloc: Global, codes: &[Code], row: &Row) -> Result<bool, AllocError> {
    let payload = payload(alloc, codes, row.0, row.1)?;
    Ok(pps_fault(alloc, &payload) == fault_of(row.2))
}

fn pps_are_right(
    rt: &(impl Abort + AllocGlobal),
    codes: &[Code],
    rows: &[Row],
) -> Result<(), Fail> {
    for (place, row) in rows.iter().enumerate() {
        row_holds(rt, place, pps_is_right(rt.alloc(), codes, row)?);
    }
    Ok(())
}

/// A set of profile 100 with counts of type 0.
const HIGH_SPS: [Code; 19] = [
    Fixed(8, 0x67),
    Fixed(8, 100),
    Fixed(8, 0),
    Fixed(8, 10),
    Unsigned(0),
    Unsigned(1),
    Unsigned(0),
    Unsigned(0),
    Fixed(1, 0),
    Fixed(1, 0),
    Unsigned(0),
    Unsigned(0),
    Unsigned(0),
    Unsigned(1),
    Fixed(1, 0),
    Unsigned(0),
    Unsigned(0),
    Fixed(1, 1),
    Fixed(1, 1),
];

const OF_HIGH: [Row; 37] = [
    (4, Unsigned(0), Taken),
    (4, Unsigned(31), Taken),
    (4, Unsigned(32), OutOf(SpsId)),
    (4, TooLong, OutOf(SpsId)),
    (5, Unsigned(0), Taken),
    (5, Unsigned(2), Taken),
    (5, Unsigned(3), Shows(SetFault::Chroma444)),
    (5, Unsigned(4), OutOf(ChromaFormat)),
    (5, TooLong, OutOf(ChromaFormat)),
    (6, Unsigned(6), Taken),
    (6, Unsigned(7), OutOf(BitDepth)),
    (6, TooLong, OutOf(BitDepth)),
    (7, Unsigned(6), Taken),
    (7, Unsigned(7), OutOf(BitDepth)),
    (7, TooLong, OutOf(BitDepth)),
    (8, Fixed(1, 1), Taken),
    (10, Unsigned(12), Taken),
    (10, Unsigned(13), OutOf(FrameNumBits)),
    (10, TooLong, OutOf(FrameNumBits)),
    (11, Unsigned(2), Taken),
    (11, Unsigned(3), OutOf(CountType)),
    (11, TooLong, OutOf(CountType)),
    (12, Unsigned(12), Taken),
    (12, Unsigned(13), OutOf(CountBits)),
    (12, TooLong, OutOf(CountBits)),
    (13, Unsigned(0), Taken),
    (13, Unsigned(16), Taken),
    (13, Unsigned(17), Shows(SetFault::RefFrames)),
    (13, TooLong, Shows(SetFault::RefFrames)),
    (15, Unsigned(65_535), Taken),
    (15, Unsigned(65_536), OutOf(Width)),
    (15, TooLong, OutOf(Width)),
    (16, Unsigned(65_535), Taken),
    (16, Unsigned(65_536), OutOf(Height)),
    (16, TooLong, OutOf(Height)),
    (17, Fixed(1, 0), Shows(SetFault::Interlaced)),
    (18, Fixed(1, 0), Taken),
];

#[test]
fn ranges_of_a_high_set(rt: HostRuntime) -> Result<(), Fail> {
    sps_are_right(&rt, &HIGH_SPS, &OF_HIGH)
}

/// A set of profile 66 with a cycle of one offset.
const CYCLE_SPS: [Code; 18] = [
    Fixed(8, 0x67),
    Fixed(8, 66),
    Fixed(8, 0),
    Fixed(8, 10),
    Unsigned(0),
    Unsigned(0),
    Unsigned(1),
    Fixed(1, 0),
    Signed(0),
    Signed(0),
    Unsigned(1),
    Signed(0),
    Unsigned(1),
    Fixed(1, 0),
    Unsigned(0),
    Unsigned(0),
    Fixed(1, 1),
    Fixed(1, 1),
];

const OF_CYCLE: [Row; 16] = [
    (1, Fixed(8, 65), Shows(SetFault::Profile)),
    (1, Fixed(8, 77), Taken),
    (1, Fixed(8, 78), Shows(SetFault::Profile)),
    (8, Signed(i32::MAX), Taken),
    (8, Signed(-i32::MAX), Taken),
    (8, TooLong, OutOf(Offset)),
    (9, Signed(i32::MAX), Taken),
    (9, Signed(-i32::MAX), Taken),
    (9, TooLong, OutOf(Offset)),
    (10, Unsigned(0), Taken),
    (10, Unsigned(255), Taken),
    (10, Unsigned(256), OutOf(CycleLength)),
    (10, TooLong, OutOf(CycleLength)),
    (11, Signed(i32::MAX), Taken),
    (11, Signed(-i32::MAX), Taken),
    (11, TooLong, OutOf(Offset)),
];

#[test]
fn ranges_of_a_set_with_a_cycle(rt: HostRuntime) -> Result<(), Fail> {
    sps_are_right(&rt, &CYCLE_SPS, &OF_CYCLE)
}

/// A set of profile 100 with lists, up to the first delta; ones are deltas of 0 then.
const LISTS_SPS: [Code; 12] = [
    Fixed(8, 0x67),
    Fixed(8, 100),
    Fixed(8, 0),
    Fixed(8, 10),
    Unsigned(0),
    Unsigned(1),
    Unsigned(0),
    Unsigned(0),
    Fixed(1, 0),
    Fixed(1, 1),
    Fixed(1, 1),
    Signed(0),
];

const OF_DELTA: [Row; 6] = [
    (11, Signed(0), Taken),
    (11, Signed(127), Taken),
    (11, Signed(128), OutOf(Delta)),
    (11, Signed(-128), Taken),
    (11, Signed(-129), OutOf(Delta)),
    (11, TooLong, OutOf(Delta)),
];

#[test]
fn ranges_of_a_delta(rt: HostRuntime) -> Result<(), Fail> {
    sps_are_right(&rt, &LISTS_SPS, &OF_DELTA)
}

/// A picture parameter set with a second chroma offset.
const PPS: [Code; 17] = [
    Fixed(8, 0x68),
    Unsigned(0),
    Unsigned(0),
    Fixed(1, 0),
    Fixed(1, 0),
    Unsigned(0),
    Unsigned(0),
    Unsigned(0),
    Fixed(1, 0),
    Fixed(2, 0),
    Signed(0),
    Signed(0),
    Signed(0),
    Fixed(3, 0),
    Fixed(1, 0),
    Fixed(1, 0),
    Signed(0),
];

const OF_PPS: [Row; 37] = [
    (1, Unsigned(255), Taken),
    (1, Unsigned(256), OutOf(PpsId)),
    (1, TooLong, OutOf(PpsId)),
    (2, Unsigned(31), Taken),
    (2, Unsigned(32), OutOf(SpsId)),
    (2, TooLong, OutOf(SpsId)),
    (5, Unsigned(1), Shows(SetFault::SliceGroups)),
    (5, TooLong, Shows(SetFault::SliceGroups)),
    (6, Unsigned(31), Taken),
    (6, Unsigned(32), OutOf(ActiveCount)),
    (6, TooLong, OutOf(ActiveCount)),
    (7, Unsigned(31), Taken),
    (7, Unsigned(32), OutOf(ActiveCount)),
    (7, TooLong, OutOf(ActiveCount)),
    (9, Fixed(2, 0), Taken),
    (9, Fixed(2, 2), Taken),
    (9, Fixed(2, 3), OutOf(BipredIdc)),
    (10, Signed(-62), Taken),
    (10, Signed(-63), OutOf(InitQp)),
    (10, Signed(25), Taken),
    (10, Signed(26), OutOf(InitQp)),
    (10, TooLong, OutOf(InitQp)),
    (11, Signed(-26), Taken),
    (11, Signed(-27), OutOf(InitQs)),
    (11, Signed(25), Taken),
    (11, Signed(26), OutOf(InitQs)),
    (11, TooLong, OutOf(InitQs)),
    (12, Signed(-12), Taken),
    (12, Signed(-13), OutOf(ChromaOffset)),
    (12, Signed(12), Taken),
    (12, Signed(13), OutOf(ChromaOffset)),
    (12, TooLong, OutOf(ChromaOffset)),
    (16, Signed(-12), Taken),
    (16, Signed(-13), OutOf(ChromaOffset)),
    (16, Signed(12), Taken),
    (16, Signed(13), OutOf(ChromaOffset)),
    (16, TooLong, OutOf(ChromaOffset)),
];

#[test]
fn ranges_of_a_picture_set(rt: HostRuntime) -> Result<(), Fail> {
    pps_are_right(&rt, &PPS, &OF_PPS)
}
