//! Messages and their answers, worked out by hand from docs/SERVER.md.

ghost use Rattle.std.specs.Prelude.{◌≡◌};

mod alone;
mod anew;
mod beside;
mod changed;
mod ends;
mod errors;
mod recorded;
mod saving;
mod taken;
mod undoing;

use bytes::Bytes;
use console_io::file_saving::{Saver, Unsaved};
use console_io::{InputFault, Source};
use failure_reasons::Explain;
use recorded::Few;
use serve_run::{ServeEnd, Service, serve_alone};
use session_journal::RecordedStep;
use std::alloc::{AllocError, Global};
use std::process::Abort;
use std::thread::Threads;

/// A message and the lines that come of it.
#[derive(Clone, Copy)]
struct Row {
    message: &'static str,
    lines: &'static str,
}

/// The sets and the IDR picture of one unit.
const A: &[u8] = &[
    0, 0, 1, 0x67, 0x42, 0x00, 0x0A, 0xDA, 0x79, 0, 0, 1, 0x68, 0xCE, 0x38, 0x80, 0, 0, 1, 0x65,
    0x88, 0x84, 0x80,
];

/// The one file that there is.
#[derive(Drop)]
struct OneFile;

impl Source for OneFile {
    fn whole_file(&mut self, alloc: Global, name: &str) -> Result<Vec<u8>, InputFault> {
        if name == "one" {
            return Vec::from_slice(alloc, A).map_err(|_: AllocError| InputFault::Memory);
        }
        Err(InputFault::Unread)
    }
}

impl Saver for OneFile {
    // One that has the file's bytes is saved.
    fn save(&mut self, _alloc: Global, name: &str, texts: &[Bytes]) -> Result<(), Unsaved> {
        match (name, texts) {
            ("memory", _) => Err(Unsaved::Memory),
            ("one", [text]) if text.as_slice() == A => Ok(()),
            _ => Err(Unsaved::Unwritten),
        }
    }
}

impl Explain for OneFile {
    // Nobody is told.
    fn explain(&self, _alloc: Global, _name: &str) {}
}

/// The messages of rows, each on a line.
fn messages_of(alloc: Global, rows: &[Row]) -> Result<String, AllocError> {
    let mut text = String::new(alloc);
    for row in rows {
        text.push_str(row.message)?;
        text.push('\n')?;
    }
    Ok(text)
}

/// The lines of rows.
fn lines_of(alloc: Global, rows: &[Row]) -> Result<String, AllocError> {
    let mut text = String::new(alloc);
    for row in rows {
        text.push_str(row.lines)?;
    }
    Ok(text)
}

/// No journal.
fn unrecorded() -> Option<(Few, Vec<RecordedStep>)> {
    None
}

/// What a server serves with over this journal, if there is one, and this input.
fn service<I>(journal: Option<(Few, Vec<RecordedStep>)>, input: I) -> Service<Few, I, OneFile>
    ensures { result.cache ≡ 64 }
{
    Service {
        cache: 64,
        journal,
        input,
        files: OneFile,
    }
}

/// What a session alone writes for these bytes, and how it ends.
fn served<R: AllocGlobal + Threads + Sync>(rt: &R, input: &[u8]) -> (ServeEnd, Vec<u8>) {
    served_by(rt, unrecorded(), input)
}

/// The same, with this journal and its steps, if there is one.
fn served_by<R: AllocGlobal + Threads + Sync>(
    rt: &R,
    journal: Option<(Few, Vec<RecordedStep>)>,
    input: &[u8],
) -> (ServeEnd, Vec<u8>) {
    let mut output = Vec::new(rt.alloc());
    let end = serve_alone(rt, rt.alloc(), service(journal, input), &mut output);
    (end, output)
}

/// Whether a session alone answers the messages of the rows by their lines, to the end of its
/// input.
fn answers_so<R: Abort + AllocGlobal + Threads + Sync>(rt: &R, rows: &[Row]) -> bool {
    let Ok(messages) = messages_of(rt.alloc(), rows) else {
        return false;
    };
    let Ok(lines) = lines_of(rt.alloc(), rows) else {
        return false;
    };
    let (end, output) = served(rt, messages.as_bytes());
    end == ServeEnd::Done && output.as_slice() == lines.as_bytes()
}
