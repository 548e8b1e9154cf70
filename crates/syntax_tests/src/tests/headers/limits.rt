//! Headers about as long as the prefix of 64 bytes that is read first, and as many commands and
//! operations as there can be (7.3.3.1, 7.3.3.3). None of them is answered by lack of memory.

use super::{row_holds, summary_of};
use annexb::{Nal, split};
use h264_types::param_sets::{Pps, Sps};
use slice_header::HeaderFault;
use std::alloc::{AllocError, Global};
use std::process::Abort;
use std::test::Fail;
use test_builders::{small_pps, small_sps};

/// A unit: its first bytes with a start code, one byte more so many times, and its last bytes; and
/// how many bits its header and its marking have.
type Row = (
    &'static [u8],
    (u8, usize),
    &'static [u8],
    Result<(u32, u32), HeaderFault>,
);

/// 1 00110 1 0001, 0 and 0, 1, and then operations 010 00100 of eight bits, with which each byte
/// 0x11 goes on. The end of the last one is 000100, the operations' end 1, and 1 a slice_qp_delta
/// of 0: the payload of n operations has n bytes and three.
const OPERATIONS: &[u8] = &[0, 0, 1, 0x41, 0x9A, 0x25];

const LONG: [Row; 15] = [
    (OPERATIONS, (0x11, 3), &[0x13], Ok((56, 34))),
    (OPERATIONS, (0x11, 4), &[0x13], Ok((64, 42))),
    (OPERATIONS, (0x11, 14), &[0x13], Ok((144, 122))),
    (OPERATIONS, (0x11, 15), &[0x13], Ok((152, 130))),
    (OPERATIONS, (0x11, 16), &[0x13], Ok((160, 138))),
    // 64 bytes, 65, and 67 with 64 operations; 65 operations.
    (OPERATIONS, (0x11, 60), &[0x13], Ok((512, 490))),
    (OPERATIONS, (0x11, 61), &[0x13], Ok((520, 498))),
    (OPERATIONS, (0x11, 63), &[0x13], Ok((536, 514))),
    (OPERATIONS, (0x11, 64), &[0x13], Err(HeaderFault::Value)),
    // Payloads of 63, 64 and 65 bytes that end in an operation.
    (OPERATIONS, (0x11, 60), &[], Err(HeaderFault::Cut)),
    (OPERATIONS, (0x11, 61), &[], Err(HeaderFault::Cut)),
    (OPERATIONS, (0x11, 62), &[], Err(HeaderFault::Cut)),
    // A code 0001000, for no operation, that ends in the byte 63, 64 or 65.
    (
        OPERATIONS,
        (0x11, 58),
        &[0x10, 0x40],
        Err(HeaderFault::Value),
    ),
    (
        OPERATIONS,
        (0x11, 59),
        &[0x10, 0x40],
        Err(HeaderFault::Value),
    ),
    (
        OPERATIONS,
        (0x11, 60),
        &[0x10, 0x40],
        Err(HeaderFault::Value),
    ),
];

/// 1 00110 1 0001, 1 and 00000100000: 32 entries, 1, and then commands 1 0001000 of eight bits.
/// Their end is 00100, 0 the flag of the marking, and 1 a slice_qp_delta of 0.
const COMMANDS: &[u8] = &[0, 0, 1, 0x41, 0x9A, 0x30, 0x41];

const MANY: [Row; 8] = [
    (COMMANDS, (0x88, 4), &[0x23], Ok((71, 1))),
    (COMMANDS, (0x88, 5), &[0x23], Ok((79, 1))),
    (COMMANDS, (0x88, 15), &[0x23], Ok((159, 1))),
    (COMMANDS, (0x88, 16), &[0x23], Ok((167, 1))),
    (COMMANDS, (0x88, 17), &[0x23], Ok((175, 1))),
    (COMMANDS, (0x88, 31), &[0x23], Ok((287, 1))),
    (COMMANDS, (0x88, 32), &[0x23], Ok((295, 1))),
    (COMMANDS, (0x88, 33), &[0x23], Err(HeaderFault::Value)),
];

fn text_of(alloc: Global, row: &Row) -> Result<Vec<u8>, AllocError> {
    let (front, (byte, times), end, _) = row;
    let mut text = Vec::from_slice(alloc, front)?;
    for _ in 0..*times {
        text.push(*byte)?;
    }
    text.extend_from_slice(end)?;
    Ok(text)
}

/// Whether the one unit has a header of so many bits, or shows this fault.
fn is_read_as(
    alloc: Global,
    nals: &[Nal<'_>],
    sps: &Sps,
    pps: &Pps,
    wanted: &Result<(u32, u32), HeaderFault>,
) -> bool {
    let [nal] = nals else {
        return false;
    };
    match (summary_of(alloc, nal, sps, pps), wanted) {
        (Ok((_, _, bits, marking_bits, _)), Ok(wanted)) => (bits, marking_bits) == *wanted,
        (Err(fault), Err(wanted)) => fault == *wanted,
        _ => false,
    }
}

fn row_is_right(alloc: Global, sps: &Sps, pps: &Pps, row: &Row) -> Result<bool, Fail> {
    let text = text_of(alloc, row)?;
    let nals = split(alloc, &text)?;
    Ok(is_read_as(alloc, &nals, sps, pps, &row.3))
}

fn rows_are_right(
    rt: &(impl Abort + AllocGlobal),
    sps: &Sps,
    pps: &Pps,
    rows: &[Row],
) -> Result<(), Fail> {
    for (place, row) in rows.iter().enumerate() {
        row_holds(rt, place, row_is_right(rt.alloc(), sps, pps, row)?);
    }
    Ok(())
}

#[test]
fn long_headers(rt: HostRuntime) -> Result<(), Fail> {
    rows_are_right(&rt, &small_sps(rt.alloc()), &small_pps(rt.alloc()), &LONG)
}

#[test]
fn many_commands(rt: HostRuntime) -> Result<(), Fail> {
    rows_are_right(&rt, &small_sps(rt.alloc()), &small_pps(rt.alloc()), &MANY)
}
