//! Runs over memory: texts in, lines out. Each table's rows were worked out by hand from
//! docs/OUTPUT.md and the standard.

mod command_lines;
mod controls;
mod doubt_lines;
mod drawn_edits;
mod examples;
mod groups;
mod jobs;
mod limits;
mod loads;
mod marked;
mod mending;
mod needed;
mod plans;
mod reasons;
mod refused;
mod script_faults;
mod scripts;
mod writers;

use console_io::Console;
use std::alloc::{AllocError, Global};
use std::io;
use std::io::{ErrorKind, Read};
use std::process::Abort;

/// The sequence parameter set, the picture parameter set and the IDR picture of one unit, A.
const A: [u8; 23] = [
    0, 0, 1, 0x67, 0x42, 0x00, 0x0A, 0xDA, 0x79, 0, 0, 1, 0x68, 0xCE, 0x38, 0x80, 0, 0, 1, 0x65,
    0x88, 0x84, 0x80,
];

/// The sets of A alone.
const SETS: &[u8] = &[
    0, 0, 1, 0x67, 0x42, 0x00, 0x0A, 0xDA, 0x79, 0, 0, 1, 0x68, 0xCE, 0x38, 0x80,
];

/// The picture after it, with frame_num 1.
const P1: [u8; 6] = [0, 0, 1, 0x41, 0x9A, 0x23];

/// A picture with frame_num 2.
const P2: [u8; 6] = [0, 0, 1, 0x41, 0x9A, 0x43];

const LINES_OF_A: &str = "unit 1 position 0 counts 0 0 requests 1\n\
request 1.0 ts 1000 bits 25 type 2 frame 0 dpb - l0 - l1 - hold 0\n";

const LINES_OF_P1: &str = "unit 2 position 1 counts 2 2 requests 1\n\
request 2.0 ts 2000 bits 23 type 0 frame 1 dpb 1000:0:3 l0 0 l1 - hold 0\n";

/// Asserts what a row of a table says.
fn row_holds(rt: &impl Abort, row: usize, holds: bool) {
    assert!(rt; holds, "row {row}");
}

/// The parts, one after the other.
fn joined(alloc: Global, parts: &[&[u8]]) -> Result<Vec<u8>, AllocError> {
    let mut text = Vec::new(alloc);
    for part in parts {
        text.extend_from_slice(*part)?;
    }
    Ok(text)
}

/// The texts, one after the other.
fn texts(alloc: Global, parts: &[&str]) -> Result<String, AllocError> {
    let mut text = String::new(alloc);
    for part in parts {
        text.push_str(*part)?;
    }
    Ok(text)
}

/// A console in memory, on which nothing is written.
fn empty_console(alloc: Global) -> Console<Vec<u8>, Vec<u8>> {
    Console {
        output: Vec::new(alloc),
        errors: Vec::new(alloc),
    }
}

/// The bytes so many times.
fn repeated(alloc: Global, bytes: &[u8], times: u32) -> Result<Vec<u8>, AllocError> {
    let mut text = Vec::new(alloc);
    for _ in 0..times {
        text.extend_from_slice(bytes)?;
    }
    Ok(text)
}

/// A reader that fails after its text, for this reason.
#[derive(Drop)]
struct FailingReader<'a>(&'a [u8], ErrorKind);

impl<'a> Read for FailingReader<'a> {
    fn read(&mut self, buf: &mut [u8]) -> io::Result<usize> {
        if self.0.is_empty() {
            return Err(io::Error::from(self.1));
        }
        self.0.read(buf)
    }
}

/// Texts before which a reader fails, why it does, and what is told of the input `-`.
const FAILURES: [(&[u8], ErrorKind, &str); 6] = [
    (&A, ErrorKind::Other, "cannot read -\n"),
    (&[0, 0, 1, 0x67], ErrorKind::BrokenPipe, "cannot read -\n"),
    (b"no stream", ErrorKind::InvalidData, "cannot read -\n"),
    (b"unit 1\n", ErrorKind::PermissionDenied, "cannot read -\n"),
    (b"", ErrorKind::Other, "cannot read -\n"),
    (b"", ErrorKind::OutOfMemory, "out of memory\n"),
];
