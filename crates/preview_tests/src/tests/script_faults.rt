//! Scripts that are wrong, or whose parts can't be read.

use super::scripts::{INSERT_A, TestFiles, ends_as};
use super::{FAILURES, FailingReader, joined, row_holds};
use Status::{Failure, Success};
use console_io::{Console, Status};
use script_run::{Options, Script, script_on};
use std::alloc::AllocError;
use std::process::Abort;
use std::test::Fail;
use std::thread::Threads;
use unit_printing::json::Json;

/// Lines that are no command.
const WRONG: [&str; 69] = [
    // No word, or one that is no command.
    " ",
    "   ",
    " # no comment",
    "Unit 1",
    "units 1",
    "Take",
    "settled",
    "ready 1",
    "groups",
    "end",
    // Numbers.
    "unit",
    "unit 1 2",
    "unit x",
    "unit +1",
    "unit -1",
    "unit 1x",
    "unit 12345678901",
    "unit 00000000001",
    "unit 1\t",
    "\tunit 1",
    "unit 1\r",
    "unit\t1",
    "unit \u{661}",
    // Words too few or too many.
    "insert",
    "insert before 1 00",
    "insert after",
    "insert after x",
    "insert 1 00",
    "delete",
    "delete 1 2",
    "delete x",
    "replace",
    "replace x 00",
    "load",
    "load a b",
    "take 1 2",
    "take x",
    "settle 1 2",
    "settle -1",
    "drop",
    "drop 1 2",
    "drop x",
    "clear 1",
    "mark 1",
    "altered",
    "altered 1 2",
    "altered x",
    // No worker is there to be told.
    "want",
    "want 1",
    "want 1 2",
    "want x",
    "rest",
    "rest on",
    "rest off",
    "show",
    "show 1 2",
    "show x",
    "land",
    "land 1 2",
    "land -1",
    "give",
    "give 12345678901",
    // Digits that are no pairs.
    "insert first 0",
    "insert first 0g",
    "insert first 0 0",
    "insert first 000",
    "insert first 00,00",
    "insert after 1 0x00",
    "replace 1 00 0",
];

/// Whether the script is wrong at the line that is told so, and nothing is run.
fn is_wrong(
    rt: &(impl Abort + AllocGlobal + Threads + Sync),
    script: &[u8],
    message: &str,
) -> bool {
    ends_as(rt, script, &[], Failure, b"", message.as_bytes())
}

/// Whether a script of the line alone is wrong there, and one that has it after right lines and
/// before another wrong one.
fn is_first_wrong(
    rt: &(impl Abort + AllocGlobal + Threads + Sync),
    line: &[u8],
) -> Result<bool, AllocError> {
    let parts: [&[u8]; 4] = [
        b"\n# comment\n",
        INSERT_A.as_bytes(),
        line,
        b"\nunit 1\nwrong\n",
    ];
    let script = joined(rt.alloc(), &parts)?;
    Ok(
        is_wrong(rt, line, "script fault at line 1\n")
            && is_wrong(rt, &script, "script fault at line 4\n"),
    )
}

#[test]
fn finds_the_first_wrong_line(rt: HostRuntime) -> Result<(), Fail> {
    for (row, line) in WRONG.iter().enumerate() {
        row_holds(&rt, row, is_first_wrong(&rt, line.as_bytes())?);
    }
    Ok(())
}

/// Scripts with bytes that are no text, which comments alone may have, and what is told.
const BYTES: [(&[u8], &str); 3] = [
    (b"unit \xFF", "script fault at line 1\n"),
    (b"unit 1\n\nload a\xC3\n", "script fault at line 3\n"),
    (b"# \xFF\nunit 1 \xC3\xA9", "script fault at line 2\n"),
];

#[test]
fn takes_text_alone_but_in_comments(rt: HostRuntime) {
    for (row, (script, message)) in BYTES.iter().enumerate() {
        row_holds(&rt, row, is_wrong(&rt, *script, *message));
    }
    let script = b"#\xFF\x00\xC3\nunit 1\n";
    assert!(rt; ends_as(&rt, script, &[], Success, b"unit 1 none\n", b""));
}

/// Whether just this is told of a reader that fails, and nothing is run.
fn is_told(
    rt: &(impl Abort + AllocGlobal + Threads + Sync),
    reader: FailingReader<'_>,
    message: &str,
) -> bool {
    let options = Options {
        name: "-",
        cache: 4096,
        hex: true,
    };
    let files = TestFiles {
        files: &[],
        asked: 0,
    };
    let script = Script {
        text: reader,
        files,
    };
    let mut console = Console {
        output: Vec::new(rt.alloc()),
        errors: Vec::new(rt.alloc()),
    };
    let ended = script_on(rt, rt.alloc(), &Json, options, script, &mut console);
    ended.status == Failure
        && console.output.is_empty()
        && console.errors.as_slice() == message.as_bytes()
}

#[test]
fn tells_of_a_script_that_is_not_read(rt: HostRuntime) {
    for (row, (text, kind, message)) in FAILURES.iter().enumerate() {
        let reader = FailingReader(*text, *kind);
        row_holds(&rt, row, is_told(&rt, reader, *message));
    }
}
