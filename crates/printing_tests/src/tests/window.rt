//! Each table's rows were worked out by hand from docs/OUTPUT.md and the standard.

use super::{joined, new_console, row_holds};
use Status::{Failure, Success};
use console_io::Status;
use plan_stream::plan_on;
use std::alloc::{AllocError, Global};
use std::io;
use std::io::{ErrorKind, Read};
use std::process::Abort;
use std::test::Fail;

/// The sequence parameter set, the picture parameter set and the IDR picture of one unit, A.
const A: [u8; 23] = [
    0, 0, 1, 0x67, 0x42, 0x00, 0x0A, 0xDA, 0x79, 0, 0, 1, 0x68, 0xCE, 0x38, 0x80, 0, 0, 1, 0x65,
    0x88, 0x84, 0x80,
];

/// The sets of A alone.
const SETS: [u8; 16] = [
    0, 0, 1, 0x67, 0x42, 0x00, 0x0A, 0xDA, 0x79, 0, 0, 1, 0x68, 0xCE, 0x38, 0x80,
];

/// The picture after it, with frame_num 1.
const P1: [u8; 6] = [0, 0, 1, 0x41, 0x9A, 0x23];

/// The IDR picture of A alone.
const I: [u8; 7] = [0, 0, 1, 0x65, 0x88, 0x84, 0x80];

/// The same with the forbidden bit, and a slice of a type that isn't read.
const FORBIDDEN: [u8; 7] = [0, 0, 1, 0xE5, 0x88, 0x84, 0x80];

const PARTITION: [u8; 5] = [0, 0, 1, 0x62, 0x80];

/// A unit of a type that isn't read.
const WRONG: [u8; 6] = [0, 0, 1, 0x6E, 0x40, 0x80];

/// The start code and the first byte of a NAL unit that is passed over.
const FILLER: [u8; 4] = [0, 0, 1, 0x0C];

const LINES_OF_A: &str = "unit 1 position 0 counts 0 0 requests 1\n\
request 1.0 ts 1000 bits 25 type 2 frame 0 dpb - l0 - l1 - hold 0\n";

const LINES_OF_BOTH: &str = "unit 1 position 0 counts 0 0 requests 1\n\
request 1.0 ts 1000 bits 25 type 2 frame 0 dpb - l0 - l1 - hold 0\n\
unit 2 position 1 counts 2 2 requests 1\n\
request 2.0 ts 2000 bits 23 type 0 frame 1 dpb 1000:0:3 l0 0 l1 - hold 0\n";

const LINES_OF_THREE: &str = "unit 1 position 0 counts 0 0 requests 1\n\
request 1.0 ts 1000 bits 25 type 2 frame 0 dpb - l0 - l1 - hold 0\n\
unit 2 position 1 counts 2 2 requests 1\n\
request 2.0 ts 2000 bits 23 type 0 frame 1 dpb 1000:0:3 l0 0 l1 - hold 0\n\
unit 3 no picture\n";

/// A reader that gives so many bytes at a time, and at its end nothing more, or this failure.
#[derive(Drop)]
struct Pieces<'a> {
    rest: &'a [u8],
    at_a_time: usize,
    end: Option<ErrorKind>,
}

impl<'a> Read for Pieces<'a> {
    fn read(&mut self, buf: &mut [u8]) -> io::Result<usize> {
        match self.end {
            Some(kind) if self.rest.is_empty() => Err(io::Error::from(kind)),
            _ => {
                let count = buf.len().min(self.at_a_time);
                self.rest.read(&mut buf[..count])
            }
        }
    }
}

/// Whether what the reader gives is planned with this status, just these lines are printed, and
/// just this is told.
fn is_planned(
    alloc: Global,
    mut reader: impl Read + Drop,
    status: Status,
    lines: &str,
    told: &str,
) -> bool {
    let mut console = new_console(alloc);
    let ended = plan_on(alloc, "-", &mut reader, &mut console);
    ended.status == status
        && console.output.as_slice() == lines.as_bytes()
        && console.errors.as_slice() == told.as_bytes()
}

/// Whether the whole text is planned so, where a reader gives so many bytes at a time.
fn is_planned_by(
    alloc: Global,
    text: &[u8],
    at_a_time: usize,
    status: Status,
    lines: &str,
) -> bool {
    let reader = Pieces {
        rest: text,
        at_a_time,
        end: None,
    };
    is_planned(alloc, reader, status, lines, "")
}

/// The parts of a stream, how its plan ends, and the lines that are printed.
type Plan = (&'static [&'static [u8]], Status, &'static str);

const PLANS: [Plan; 12] = [
    (&[&A, &P1], Success, LINES_OF_BOTH),
    // Zeros before a start code, after a unit and at the end, and a unit with an emulation
    // prevention byte.
    (
        &[
            &[0, 0],
            &A,
            &[0, 0, 0, 0],
            &FILLER,
            &[0, 0, 3, 1],
            &[0],
            &P1,
            &[0, 0, 0],
        ],
        Success,
        LINES_OF_BOTH,
    ),
    (&[], Failure, "refused 1 Split\n"),
    (&[&[0, 0, 0]], Failure, "refused 1 Split\n"),
    (
        &[&A, &P1, &FILLER, &[0, 0, 2]],
        Failure,
        "refused 1 Split\n",
    ),
    (&[&A, &WRONG, &P1], Failure, "unit 1 refused 2 UnitType\n"),
    (
        &[&A, &FORBIDDEN, &I, &PARTITION],
        Failure,
        "unit 1 refused 3 ForbiddenBit\n",
    ),
    // The first of two, and a text that doesn't split for all that is refused before.
    (
        &[&WRONG, &A, &WRONG, &P1],
        Failure,
        "unit 0 refused 2 UnitType\n",
    ),
    (
        &[&A, &WRONG, &P1, &SETS],
        Failure,
        "unit 1 refused 2 UnitType\n",
    ),
    (&[&A, &P1, &SETS], Success, LINES_OF_THREE),
    (&[&SETS], Success, "unit 1 no picture\n"),
    (&[&A, &WRONG, &P1, &[0, 0, 1]], Failure, "refused 1 Split\n"),
];

const SIZES: [usize; 9] = [1, 2, 3, 7, 4_095, 4_096, 4_097, 262_144, 1_000_000];

/// Whether the row's stream is planned so in pieces of each size.
fn plan_holds(alloc: Global, row: &Plan) -> Result<bool, AllocError> {
    let text = joined(alloc, row.0)?;
    for at_a_time in &SIZES {
        if !is_planned_by(alloc, &text, *at_a_time, row.1, row.2) {
            return Ok(false);
        }
    }
    Ok(true)
}

#[test]
fn plans_streams_in_pieces(rt: HostRuntime) -> Result<(), Fail> {
    for (row, plan) in PLANS.iter().enumerate() {
        row_holds(&rt, row, plan_holds(rt.alloc(), plan)?);
    }
    Ok(())
}

/// A reader that is interrupted before each read that gives something.
#[derive(Drop)]
struct Interrupted<'a> {
    reader: Pieces<'a>,
    is_next: bool,
}

impl<'a> Read for Interrupted<'a> {
    fn read(&mut self, buf: &mut [u8]) -> io::Result<usize> {
        self.is_next = !self.is_next;
        if self.is_next {
            return Err(io::Error::from(ErrorKind::Interrupted));
        }
        self.reader.read(buf)
    }
}

/// An interrupted read is made again.
#[test]
fn plans_what_an_interrupted_reader_gives(rt: HostRuntime) -> Result<(), Fail> {
    let text = joined(rt.alloc(), &[&A, &P1])?;
    for at_a_time in &SIZES {
        let reader = Pieces {
            rest: &text,
            at_a_time: *at_a_time,
            end: None,
        };
        let interrupted = Interrupted {
            reader,
            is_next: false,
        };
        row_holds(
            &rt,
            *at_a_time,
            is_planned(rt.alloc(), interrupted, Success, LINES_OF_BOTH, ""),
        );
    }
    Ok(())
}

/// A, with a NAL unit in it that is passed over and makes it so long, and then these bytes.
fn filled(alloc: Global, len: usize, end: &[u8]) -> Result<Vec<u8>, AllocError> {
    let mut text = joined(alloc, &[&A, &FILLER])?;
    text.resize(len, 0xFF)?;
    text.extend_from_slice(end)?;
    Ok(text)
}

/// What stands across a border of the window, how the plan ends, and the lines that are printed.
const ACROSS: [(&[u8], Status, &str); 6] = [
    (&P1, Success, LINES_OF_BOTH),
    (&[0, 0, 0, 0, 1, 0x41, 0x9A, 0x23], Success, LINES_OF_BOTH),
    (
        &[0, 0, 3, 1, 0x80, 0, 0, 1, 0x41, 0x9A, 0x23, 0],
        Success,
        LINES_OF_BOTH,
    ),
    // A slice that isn't the first of a picture belongs to the unit before it, of which it isn't in
    // the picture.
    (
        &[0, 0, 1, 0x65, 0x42, 0x21, 0x30],
        Success,
        "unit 1 fault 4 HeaderValue\n",
    ),
    (&[0, 0, 3, 4, 0x80], Failure, "refused 1 Split\n"),
    (&[0, 0, 2, 0x80], Failure, "refused 1 Split\n"),
];

/// Whether the row's bytes are planned so wherever they stand across the first border.
fn across_holds(alloc: Global, row: &(&[u8], Status, &str)) -> Result<bool, AllocError> {
    for len in 262_132..262_146 {
        let text = filled(alloc, len, row.0)?;
        if !is_planned_by(alloc, &text, 512, row.1, row.2) {
            return Ok(false);
        }
    }
    Ok(true)
}

#[test]
fn plans_what_stands_across_a_border(rt: HostRuntime) -> Result<(), Fail> {
    for (row, across) in ACROSS.iter().enumerate() {
        row_holds(&rt, row, across_holds(rt.alloc(), across)?);
    }
    Ok(())
}

/// How long a unit is, what stands after it, how the plan ends, and the lines that are printed.
const LONG: [(usize, &[u8], Status, &str); 6] = [
    (4_194_304, &[], Success, LINES_OF_A),
    (4_194_305, &[], Failure, "unit 0 refused 14 TooLarge\n"),
    (4_194_304, &P1, Success, LINES_OF_BOTH),
    // Zeros after a unit don't count for its length.
    (
        4_194_304,
        &[0, 0, 0, 0, 0, 0, 1, 0x41, 0x9A, 0x23],
        Success,
        LINES_OF_BOTH,
    ),
    (4_194_305, &P1, Failure, "unit 0 refused 14 TooLarge\n"),
    (5_000_000, &[0, 0, 1], Failure, "refused 1 Split\n"),
];

#[test]
fn plans_units_of_4_mib(rt: HostRuntime) -> Result<(), Fail> {
    for (row, (len, end, status, lines)) in LONG.iter().enumerate() {
        let text = filled(rt.alloc(), *len, *end)?;
        row_holds(
            &rt,
            row,
            is_planned_by(rt.alloc(), &text, 65_536, *status, *lines),
        );
    }
    Ok(())
}

/// Whether a reader that fails after these bytes is told, and nothing is printed.
fn is_told(alloc: Global, text: &[u8], at_a_time: usize) -> bool {
    let reader = Pieces {
        rest: text,
        at_a_time,
        end: Some(ErrorKind::Other),
    };
    is_planned(alloc, reader, Failure, "", "cannot read -\n")
}

/// Whether that is so at each place of the text.
fn fails_at_each(alloc: Global, text: &[u8]) -> bool {
    for place in 0..=text.len() {
        if !is_told(alloc, text.split_at(place).0, 1)
            || !is_told(alloc, text.split_at(place).0, 7)
        {
            return false;
        }
    }
    true
}

/// Streams that are planned or refused where no reader fails.
const FAILING: [&[&[u8]]; 3] = [&[&A, &P1], &[&WRONG, &A], &[&A, &[0, 0, 2], &P1]];

#[test]
fn tells_of_a_reader_that_fails_at_each_place(rt: HostRuntime) -> Result<(), Fail> {
    for (row, parts) in FAILING.iter().enumerate() {
        let text = joined(rt.alloc(), *parts)?;
        row_holds(&rt, row, fails_at_each(rt.alloc(), &text));
    }
    Ok(())
}
