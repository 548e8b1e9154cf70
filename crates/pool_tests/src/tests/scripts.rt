//! Scripts over memory, with two workers. Each row was worked out by hand from docs/OUTPUT.md and
//! the standard.

mod audits;
mod gates;
mod runs;
mod writers;

use console_io::{Console, InputFault, Source, Status};
use script_run::{Options, Script};
use std::alloc::{AllocError, Global};

/// How a script ends: its lines, its status, what it writes and what it tells.
#[derive(Clone, Copy)]
struct Row {
    script: &'static str,
    status: Status,
    lines: &'static str,
    message: &'static str,
}

/// The sets and the IDR picture of one unit.
const A: &[u8] = &[
    0, 0, 1, 0x67, 0x42, 0x00, 0x0A, 0xDA, 0x79, 0, 0, 1, 0x68, 0xCE, 0x38, 0x80, 0, 0, 1, 0x65,
    0x88, 0x84, 0x80,
];

/// With what the scripts are run.
const OPTIONS: Options<'static> = Options {
    name: "a script",
    cache: 64,
    hex: false,
};

/// A unit that is deleted and inserted again has the pictures that it had.
const REPAIRED: Row = Row {
    script: "insert first 000001 6742000ADA79 000001 68CE3880 000001 65888480\n\
    insert after 1 000001 419A23\n\
    insert after 2 000001 419A43\n\
    settle\n\
    delete 2\n\
    insert after 1 000001 419A23\n\
    show 3\n\
    show 4\n",
    status: Status::Success,
    lines: "edit 1 id 1\nedit 2 id 2\nedit 3 id 3\nsettled\nedit 4 id 2\nedit 5 id 4\n\
    show 3 ready\nshow 4 ready\n",
    message: "",
};

/// Two files: one of one unit, and one of so many that no handful holds them.
#[derive(Drop)]
struct Files;

impl Source for Files {
    fn whole_file(&mut self, alloc: Global, name: &str) -> Result<Vec<u8>, InputFault> {
        match name {
            "one" => units(alloc, 1),
            "seventy" => units(alloc, 70),
            _ => Err(InputFault::Unread),
        }
    }
}

/// The bytes of that unit, so often.
fn units(alloc: Global, count: usize) -> Result<Vec<u8>, InputFault> {
    let mut bytes = Vec::new(alloc);
    for _ in 0..count {
        bytes
            .extend_from_slice(A)
            .map_err(|_: AllocError| InputFault::Memory)?;
    }
    Ok(bytes)
}

/// The script of this text, on these files.
fn script_of(text: &str) -> Script<&[u8], Files> {
    Script {
        text: text.as_bytes(),
        files: Files,
    }
}

/// A console that keeps what is written.
fn console(alloc: Global) -> Console<Vec<u8>, Vec<u8>> {
    Console {
        output: Vec::new(alloc),
        errors: Vec::new(alloc),
    }
}

/// Whether a run ended so, and wrote and told what the row says.
fn is_as(row: &Row, status: Status, console: &Console<Vec<u8>, Vec<u8>>) -> bool {
    status == row.status
        && console.output.as_slice() == row.lines.as_bytes()
        && console.errors.as_slice() == row.message.as_bytes()
}
