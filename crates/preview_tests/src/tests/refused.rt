//! Runs of which any growth of memory may be refused. What they write and read is in memory that
//! isn't.

use super::command_lines::Folder;
use super::scripts::TestFiles;
use super::{P1, SETS};
use Status::{Failure, Success};
use cli::run_on;
use console_io::{Console, Inputs, Status};
use plan_stream::plan_on;
use script_run::{Options, Script, script_on};
use std::process::Abort;
use std::sync::Wait;
use std::thread::Threads;
use unit_printing::json::Json;

/// A stream of A and P1, and its lines.
const STREAM: &[u8] = &[
    0, 0, 1, 0x67, 0x42, 0x00, 0x0A, 0xDA, 0x79, 0, 0, 1, 0x68, 0xCE, 0x38, 0x80, 0, 0, 1, 0x65,
    0x88, 0x84, 0x80, 0, 0, 1, 0x41, 0x9A, 0x23,
];

const LINES: &str = "unit 1 position 0 counts 0 0 requests 1\n\
request 1.0 ts 1000 bits 25 type 2 frame 0 dpb - l0 - l1 - hold 0\n\
unit 2 position 1 counts 2 2 requests 1\n\
request 2.0 ts 2000 bits 23 type 0 frame 1 dpb 1000:0:3 l0 0 l1 - hold 0\n";

/// The bytes of a room that a writer has written, where so many are left.
fn front(capacity: &[u8], left: usize) -> &[u8] {
    capacity.split_at(capacity.len().saturating_sub(left)).0
}

/// Whether it ended so and wrote this, or memory ran out, told of, and nothing printed.
fn is_told_or_out_of_memory(
    status: Status,
    output: &[u8],
    errors: &[u8],
    wanted: (Status, &str),
) -> bool {
    if errors == b"out of memory\n".as_slice() {
        status == Failure && output.is_empty()
    } else {
        status == wanted.0 && output == wanted.1.as_bytes() && errors.is_empty()
    }
}

/// Whether the stream is planned so, or memory ran out.
fn plans_or_wants_memory(
    rt: &(impl Abort + AllocGlobal + Threads + Sync),
    text: &[u8],
    wanted: (Status, &str),
) -> bool {
    let (mut output, mut errors) = ([0u8; 512], [0u8; 64]);
    let mut console = Console {
        output: output.as_mut_slice(),
        errors: errors.as_mut_slice(),
    };
    let ended = plan_on(rt.alloc(), "-", &mut &*text, &mut console);
    let (left, quiet) = (console.output.len(), console.errors.len());
    let (output, errors) = (front(&output, left), front(&errors, quiet));
    is_told_or_out_of_memory(ended.status, output, errors, wanted)
}

#[test]
fn refused_plan(rt: HostRuntime) {
    assert!(rt; plans_or_wants_memory(&rt, STREAM, (Success, LINES)));
}

#[test]
fn refused_refusal(rt: HostRuntime) {
    let wanted = (Failure, "unit 0 refused 2 UnitType\n");
    assert!(rt; plans_or_wants_memory(&rt, &[0, 0, 1, 0x6E, 0x40, 0x80], wanted));
}

#[test]
fn refused_empty_unit(rt: HostRuntime) {
    let wanted = (Success, "unit 1 no picture\n");
    assert!(rt; plans_or_wants_memory(&rt, SETS, wanted));
}

/// Whether a command line that names no file ends so, or memory ran out.
fn is_unread_or_wants_memory(rt: &(impl Abort + AllocGlobal + Threads + Wait + Sync)) -> bool {
    let (mut output, mut errors) = ([0u8; 512], [0u8; 64]);
    let mut console = Console {
        output: output.as_mut_slice(),
        errors: errors.as_mut_slice(),
    };
    let standard: &[u8] = &[];
    let inputs = Inputs {
        directory: &Folder,
        standard,
    };
    let words = &["preview", "plan", "no/such.264"];
    let ended = run_on(rt, rt.alloc(), words, inputs, &mut console);
    let (left, quiet) = (console.output.len(), console.errors.len());
    let errors = front(&errors, quiet);
    ended.status == Failure
        && left == 512
        && (errors == b"out of memory\n".as_slice()
            || errors == b"cannot read no/such.264\n".as_slice())
}

#[test]
fn refused_command_line(rt: HostRuntime) {
    assert!(rt; is_unread_or_wants_memory(&rt));
}

/// Whether what a script wrote is its lines, or an edit ran out of memory, or the run did.
fn is_run_or_out_of_memory(status: Status, output: &[u8], errors: &[u8]) -> bool {
    let lines = b"loaded 1\nedit 2 id 2\nedit 3 id 1\nunit 2 fault 1 MissingPps\n".as_slice();
    if errors == b"out of memory\n".as_slice() {
        return status == Failure;
    }
    let text = std::str::from_utf8(output).unwrap_or_default();
    status == Success
        && errors.is_empty()
        && (output == lines || text.contains("refused 15 Memory\n"))
}

/// Whether a script is run, or memory ran out.
fn runs_or_wants_memory(rt: &(impl Abort + AllocGlobal + Threads + Sync)) -> bool {
    let (mut output, mut errors) = ([0u8; 512], [0u8; 64]);
    let mut console = Console {
        output: output.as_mut_slice(),
        errors: errors.as_mut_slice(),
    };
    let text = b"load p\ninsert after 1 00 00 01 41 9A 43\ndelete 1\nunit 2\n";
    let options = Options {
        name: "-",
        cache: 64,
        hex: true,
    };
    let files: [(&str, &[u8]); 1] = [("p", P1.as_slice())];
    let script = Script {
        text: text.as_slice(),
        files: TestFiles {
            files: files.as_slice(),
            asked: 0,
        },
    };
    let ended = script_on(rt, rt.alloc(), &Json, options, script, &mut console);
    let (left, quiet) = (console.output.len(), console.errors.len());
    is_run_or_out_of_memory(ended.status, front(&output, left), front(&errors, quiet))
}

#[test]
fn refused_script(rt: HostRuntime) {
    assert!(rt; runs_or_wants_memory(&rt));
}
