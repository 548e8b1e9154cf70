//! Streams that are mended: what is written, and what is told of what isn't. Each row was worked out
//! by hand.

use crate::mend_on;
use Status::Success;
use console_io::{Console, Status};
use std::alloc::{AllocError, Global};
use std::process::Abort;
use std::test::Fail;

/// The sequence parameter set, the picture parameter set and the IDR picture of one unit, A.
const A: [u8; 23] = [
    0, 0, 1, 0x67, 0x42, 0x00, 0x0A, 0xDA, 0x79, 0, 0, 1, 0x68, 0xCE, 0x38, 0x80, 0, 0, 1, 0x65,
    0x88, 0x84, 0x80,
];

/// The picture after it, with frame_num 1.
const P1: [u8; 6] = [0, 0, 1, 0x41, 0x9A, 0x23];

/// The parts, one after the other.
fn joined(alloc: Global, parts: &[&[u8]]) -> Result<Vec<u8>, AllocError> {
    let mut text = Vec::new(alloc);
    for part in parts {
        text.extend_from_slice(*part)?;
    }
    Ok(text)
}

/// The bytes so many times.
fn repeated(alloc: Global, bytes: &[u8], times: u32) -> Result<Vec<u8>, AllocError> {
    let mut text = Vec::new(alloc);
    for _ in 0..times {
        text.extend_from_slice(bytes)?;
    }
    Ok(text)
}

/// The parts of a stream, those of what is written, and what is told.
type Mend = (
    &'static [&'static [u8]],
    &'static [&'static [u8]],
    &'static str,
);

/// Whether the text is mended so.
fn is_mended(rt: &(impl Abort + AllocGlobal), mut text: &[u8], written: &[u8], told: &str) -> bool {
    let mut console = Console {
        output: Vec::new(rt.alloc()),
        errors: Vec::new(rt.alloc()),
    };
    let ended = mend_on(rt.alloc(), "-", &mut text, &mut console);
    ended.status == Success
        && console.output.as_slice() == written
        && console.errors.as_slice() == told.as_bytes()
}

/// Whether the row's stream is mended so.
fn mend_holds(rt: &(impl Abort + AllocGlobal), row: &Mend) -> Result<bool, AllocError> {
    let (text, written) = (joined(rt.alloc(), row.0)?, joined(rt.alloc(), row.1)?);
    Ok(is_mended(rt, &text, &written, row.2))
}

/// The NAL unit of a type for scalable coding (14).
const PREFIX: [u8; 6] = [0, 0, 1, 0x6E, 0x40, 0x80];

/// The delimiter that is put.
const DELIMITER: [u8; 5] = [0, 0, 1, 0x09, 0xF0];

/// A P slice from macroblock 1 on, of a reference picture and of another.
const LATER: [u8; 5] = [0, 0, 1, 0x41, 0x5A];

const LATER_UNUSED: [u8; 5] = [0, 0, 1, 0x01, 0x5A];

const MENDS: [Mend; 23] = [
    // What isn't refused stays, zeros too.
    (
        &[&[0, 0], &A, &[0], &P1, &[0, 0]],
        &[&[0, 0], &A, &[0], &P1, &[0, 0]],
        "",
    ),
    (&[], &[], ""),
    // No start code, and bytes in front of the first one.
    (
        &[b"no stream"],
        &[],
        "byte 0: left out 9 bytes: not a NAL unit\n",
    ),
    (
        &[&[0, 0]],
        &[],
        "byte 0: left out 2 bytes: not a NAL unit\n",
    ),
    (
        &[&[0, 0xAB, 0, 0xCD, 0], &A],
        &[&[0, 0], &A],
        "byte 1: left out 3 bytes: not a NAL unit\n",
    ),
    // NAL units that are left out by themselves; zeros after them stay.
    (
        &[&A, &[0, 0, 1], &P1],
        &[&A, &P1],
        "byte 23: left out 3 bytes: empty\n",
    ),
    (
        &[&A, &[0, 0, 1, 0x0C, 0, 0, 3, 4], &P1],
        &[&A, &P1],
        "byte 23: left out 8 bytes: forbidden bytes\n",
    ),
    (
        &[&A, &[0, 0, 1, 0x0C, 0, 0, 0, 4], &P1],
        &[&A, &P1],
        "byte 23: left out 8 bytes: forbidden bytes\n",
    ),
    (
        &[&A, &[0, 0, 1, 0xC1, 0x9A, 0x23], &P1],
        &[&A, &P1],
        "byte 23: left out 6 bytes: forbidden bit\n",
    ),
    (
        &[&A, &PREFIX, &[0, 0], &P1],
        &[&A, &[0, 0], &P1],
        "byte 23: left out 6 bytes: type 14\n",
    ),
    (
        &[&[0, 0, 1, 0x67], &A],
        &[&A],
        "byte 0: left out 4 bytes: unread SPS\n",
    ),
    (
        &[&[0, 0, 1, 0x68], &A],
        &[&A],
        "byte 0: left out 4 bytes: unread PPS\n",
    ),
    (
        &[&A, &[0, 0, 1, 0x41, 0x90, 0x80]],
        &[&A],
        "byte 23: left out 6 bytes: switching\n",
    ),
    (
        &[&A, &[0, 0, 1, 0x65, 0x9A, 0x23]],
        &[&A],
        "byte 23: left out 6 bytes: IDR slice that isn't intra\n",
    ),
    (
        &[&A, &[0, 0, 1, 0x05, 0x88, 0x84, 0x80]],
        &[&A],
        "byte 23: left out 7 bytes: IDR slice that isn't a reference\n",
    ),
    // The first reason in their order is told.
    (
        &[&A, &[0, 0, 1, 0x85, 0x9A, 0, 0, 2]],
        &[&A],
        "byte 23: left out 8 bytes: forbidden bytes\n",
    ),
    (
        &[&A, &[0, 0, 1, 0x8E]],
        &[&A],
        "byte 23: left out 4 bytes: forbidden bit\n",
    ),
    // Slices of two pictures, which nothing but a delimiter tells from one.
    (&[&A, &LATER], &[&A, &DELIMITER, &LATER], ""),
    (&[&A, &[0], &LATER], &[&A, &[0], &DELIMITER, &LATER], ""),
    (
        &[&P1, &LATER, &LATER_UNUSED, &LATER_UNUSED],
        &[&P1, &LATER, &DELIMITER, &LATER_UNUSED, &LATER_UNUSED],
        "",
    ),
    (&[&A, &DELIMITER, &LATER], &[&A, &DELIMITER, &LATER], ""),
    // Where no NAL unit stays no zero does.
    (
        &[&[0], &PREFIX, &[0, 0]],
        &[],
        "byte 1: left out 6 bytes: type 14\n",
    ),
    (
        &[&[1], &[0, 0, 1], &[0, 0, 1]],
        &[],
        "byte 0: left out 1 bytes: not a NAL unit\nbyte 1: left out 3 bytes: empty\n\
byte 4: left out 3 bytes: empty\n",
    ),
];

#[test]
fn mends_streams(rt: HostRuntime) -> Result<(), Fail> {
    for (row, mend) in MENDS.iter().enumerate() {
        assert!(rt; mend_holds(&rt, mend)?, "row {row}");
    }
    Ok(())
}

/// An I slice of A's picture from macroblock 1 on.
const MORE: [u8; 6] = [0, 0, 1, 0x65, 0x42, 0x20];

#[test]
fn leaves_out_a_257th_slice_with_its_picture(rt: HostRuntime) -> Result<(), Fail> {
    let alloc = rt.alloc();
    let fewer = repeated(alloc, &MORE, 255)?;
    let most = joined(alloc, &[&A, &fewer, &P1])?;
    assert!(rt; is_mended(&rt, &most, &most, ""));
    let more = joined(alloc, &[&A, &PREFIX, &[0], &MORE, &fewer, &P1])?;
    let told = "byte 23: left out 6 bytes: type 14\nbyte 0: left out 1559 bytes: too large\n";
    let written = joined(alloc, &[&[0], &P1])?;
    assert!(rt; is_mended(&rt, &more, &written, told));
    Ok(())
}

#[test]
fn leaves_out_more_than_4194304_bytes(rt: HostRuntime) -> Result<(), Fail> {
    let alloc = rt.alloc();
    let filler = repeated(alloc, &[0xFF], 4_194_277)?;
    let most = joined(alloc, &[&[0, 0, 1, 0x0C], &filler, &A])?;
    assert!(rt; is_mended(&rt, &most, &most, ""));
    let more = joined(alloc, &[&[0, 0, 1, 0x0C, 0xFF], &filler, &A])?;
    let told = "byte 0: left out 4194305 bytes: too large\n";
    assert!(rt; is_mended(&rt, &more, b"", told));
    Ok(())
}
