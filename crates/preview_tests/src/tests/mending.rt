//! `mend`, `check` and `plan --json --frames`, by the words of a command line.

use super::command_lines::{Answer, answer_holds, run_with};
use super::{A, P1, joined, row_holds};
use Status::{Failure, Success, Usage};
use console_io::Status;
use std::alloc::AllocError;
use std::process::Abort;
use std::sync::Wait;
use std::test::Fail;
use std::thread::Threads;

/// A byte that no NAL unit has, A, a prefix of scalable coding, a zero, and a P picture.
const DAMAGED: &[u8] = &[
    0x0A, 0, 0, 1, 0x67, 0x42, 0x00, 0x0A, 0xDA, 0x79, 0, 0, 1, 0x68, 0xCE, 0x38, 0x80, 0, 0, 1,
    0x65, 0x88, 0x84, 0x80, 0, 0, 1, 0x6E, 0x40, 0x80, 0, 0, 0, 1, 0x41, 0x9A, 0x23,
];

/// The words after the program's name, the standard input, the status, the parts of what the output
/// gets, and what standard error has.
type Mend = (
    &'static [&'static str],
    &'static [u8],
    Status,
    &'static [&'static [u8]],
    &'static str,
);

const MENDS: [Mend; 5] = [
    (
        &["mend", "-"],
        DAMAGED,
        Success,
        &[&A, &[0], &P1],
        "byte 0: left out 1 bytes: not a NAL unit\nbyte 24: left out 6 bytes: type 14\n",
    ),
    (&["mend", "-"], &A, Success, &[&A], ""),
    (&["mend", "a.264"], &[], Success, &[&A], ""),
    (&["mend", "no"], &[], Failure, &[], "cannot read no\n"),
    (&["mend", "memory"], &[], Failure, &[], "out of memory\n"),
];

/// Whether the row's words do what it says.
fn mend_holds(
    rt: &(impl Abort + AllocGlobal + Threads + Wait + Sync),
    row: &Mend,
) -> Result<bool, AllocError> {
    let got = run_with(rt, row.0, row.1)?;
    let expected = joined(rt.alloc(), row.3)?;
    Ok(
        got.ended.status == row.2
            && got.output.as_slice() == expected.as_slice()
            && got.errors.as_slice() == row.4.as_bytes(),
    )
}

#[test]
fn mends_what_is_named(rt: HostRuntime) -> Result<(), Fail> {
    for (row, mend) in MENDS.iter().enumerate() {
        row_holds(&rt, row, mend_holds(&rt, mend)?);
    }
    Ok(())
}

const ANSWERS: [Answer; 11] = [
    (&["plan", "--frames", "a.264"], Usage, "--frames"),
    (
        &["plan", "--frames", "--json", "a.264"],
        Success,
        "\"counts\":{\"top\":0,\"bottom\":0},\"request\":{\"timestamp\":1000,\"bytes\":7,",
    ),
    (
        &["plan", "a.264", "--json"],
        Success,
        "\"counts\":{\"top\":0,\"bottom\":0},\"requests\":[{\"timestamp\":1000,",
    ),
    (
        &["plan", "--frames", "no", "--json"],
        Failure,
        "cannot read no\n",
    ),
    (&["mend"], Usage, "<FILE>"),
    (&["mend", "--help"], Success, "Usage: preview mend <FILE>"),
    (
        &["check", "a.264"],
        Success,
        "a.264: a byte stream of H.264 (Annex B)\n",
    ),
    (
        &["check", "--json", "a.264"],
        Success,
        "{\"kind\":\"H264AnnexB\",",
    ),
    (&["check", "no"], Failure, "cannot read no\n"),
    (&["check"], Usage, "<FILE>"),
    (
        &["check", "--help"],
        Success,
        "Usage: preview check [OPTIONS] <FILE>",
    ),
];

#[test]
fn answers_words_of_frames_mend_and_check(rt: HostRuntime) -> Result<(), Fail> {
    for (row, answer) in ANSWERS.iter().enumerate() {
        row_holds(&rt, row, answer_holds(&rt, answer)?);
    }
    Ok(())
}
