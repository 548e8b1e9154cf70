//! Streams that are planned, and streams that are refused.

use super::{
    A, FAILURES, FailingReader, LINES_OF_A, LINES_OF_P1, P1, P2, SETS, empty_console, joined,
    row_holds, texts,
};
use crate::sample::{CLOCK, CLOCK_LINES};
use Status::{Failure, Success};
use console_io::Status;
use plan_stream::plan_on;
use std::alloc::AllocError;
use std::process::Abort;
use std::test::Fail;
use std::thread::Threads;

/// The parts of a stream, how its plan ends, and the lines that are printed.
pub(super) type Plan = (&'static [&'static [u8]], Status, &'static [&'static str]);

/// Whether the text is planned with this status, just these lines are printed, and nothing is told.
pub(super) fn is_planned(
    rt: &(impl Abort + AllocGlobal + Threads + Sync),
    text: &[u8],
    status: Status,
    lines: &[u8],
) -> bool {
    let (mut reader, mut console) = (text, empty_console(rt.alloc()));
    let ended = plan_on(rt.alloc(), "-", &mut reader, &mut console);
    ended.status == status && console.output.as_slice() == lines && console.errors.is_empty()
}

/// Whether the row's stream is planned so.
pub(super) fn plan_holds(
    rt: &(impl Abort + AllocGlobal + Threads + Sync),
    row: &Plan,
) -> Result<bool, AllocError> {
    let (text, lines) = (joined(rt.alloc(), row.0)?, texts(rt.alloc(), row.2)?);
    Ok(is_planned(rt, &text, row.1, lines.as_bytes()))
}

const PLANS: [Plan; 16] = [
    (&[&A], Success, &[LINES_OF_A]),
    (&[&A, &P1], Success, &[LINES_OF_A, LINES_OF_P1]),
    (&[&CLOCK], Success, &CLOCK_LINES),
    (&[&P1], Success, &["unit 1 fault 1 MissingPps\n"]),
    (&[SETS, &P1], Success, &["unit 1 fault 8 NoIdr\n"]),
    (
        &[&A, &[0, 0, 1, 0x41, 0x9A]],
        Success,
        &[LINES_OF_A, "unit 2 fault 3 HeaderCut\n"],
    ),
    (
        &[&A, &P2],
        Success,
        &[LINES_OF_A, "unit 2 fault 11 FrameNumGap\n"],
    ),
    // No text, a text without a start code, and ones with bytes that stand in no unit.
    (&[], Failure, &["refused 1 Split\n"]),
    (&[b"no stream"], Failure, &["refused 1 Split\n"]),
    (
        &[&A, &[0, 0, 1, 0x0C, 0, 0, 3, 4]],
        Failure,
        &["refused 1 Split\n"],
    ),
    (
        &[&A, &[0, 0, 1, 0x0C, 0, 0, 2]],
        Failure,
        &["refused 1 Split\n"],
    ),
    // Parameter sets alone, one of them alone, and both at the end.
    (&[SETS], Success, &["unit 1 no picture\n"]),
    (
        &[&[0, 0, 1, 0x67, 0x42, 0x00, 0x0A, 0xDA, 0x79]],
        Success,
        &["unit 1 no picture\n"],
    ),
    (&[&A, SETS], Success, &[LINES_OF_A, "unit 2 no picture\n"]),
    // A type that isn't read, in the second unit.
    (
        &[&A, &[0, 0, 1, 0x6E, 0x40, 0x80]],
        Failure,
        &["unit 1 refused 2 UnitType\n"],
    ),
    // Zeros before a start code and at the end, and a unit that is passed over.
    (
        &[&[0, 0], &A, &[0, 0, 1, 0x0C, 0xFF, 0, 0, 3], &[0, 0]],
        Success,
        &[LINES_OF_A],
    ),
];

#[test]
fn plans_streams(rt: HostRuntime) -> Result<(), Fail> {
    for (row, plan) in PLANS.iter().enumerate() {
        row_holds(&rt, row, plan_holds(&rt, plan)?);
    }
    Ok(())
}

/// Whether just this is told of a reader that fails, and nothing is printed.
fn is_told(
    rt: &(impl Abort + AllocGlobal + Threads + Sync),
    mut reader: FailingReader<'_>,
    message: &str,
) -> bool {
    let mut console = empty_console(rt.alloc());
    let ended = plan_on(rt.alloc(), "-", &mut reader, &mut console);
    ended.status == Failure
        && console.output.is_empty()
        && console.errors.as_slice() == message.as_bytes()
}

#[test]
fn tells_of_a_reader_that_fails_midway(rt: HostRuntime) {
    for (row, (text, kind, message)) in FAILURES.iter().enumerate() {
        let reader = FailingReader(*text, *kind);
        row_holds(&rt, row, is_told(&rt, reader, *message));
    }
}
