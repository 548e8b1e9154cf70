//! Writers that take some bytes and then no more: what is written is the front that they take, and
//! the run ends.

use super::{OPTIONS, REPAIRED, Row, script_of};
use console_io::{Console, Sink, Status};
use script_run::shared::{audit_with_workers, script_with_workers};
use std::alloc::{AllocError, Global};
use std::io;
use std::io::{ErrorKind, Write};
use std::process::Abort;
use std::sync::Wait;
use std::thread::Threads;

/// A writer that takes a number of bytes in all.
#[derive(Drop)]
struct ShortWriter {
    got: Vec<u8>,
    capacity: usize,
}

impl ShortWriter {
    /// A writer with this room, which has got nothing.
    fn new(alloc: Global, capacity: usize) -> ShortWriter {
        ShortWriter {
            got: Vec::new(alloc),
            capacity,
        }
    }
}

impl Write for ShortWriter {
    fn write(&mut self, buf: &[u8]) -> io::Result<usize> {
        let count = buf.len().min(self.capacity);
        if count == 0 {
            return Err(io::Error::from(ErrorKind::BrokenPipe));
        }
        self.got.extend_from_slice(&buf[..count])?;
        self.capacity -= count;
        Ok(count)
    }

    fn flush(&mut self) -> io::Result<()> {
        Ok(())
    }
}

impl Sink for ShortWriter {
    fn write_some(&mut self, bytes: &[u8]) -> io::Result<usize> {
        self.write(bytes)
    }
}

/// A console whose output has this room.
fn short(alloc: Global, capacity: usize) -> Console<ShortWriter, Vec<u8>> {
    Console {
        output: ShortWriter::new(alloc, capacity),
        errors: Vec::new(alloc),
    }
}

/// Whether just that front of the text was written, and nothing was told.
fn has_front(console: &Console<ShortWriter, Vec<u8>>, text: &str, capacity: usize) -> bool {
    let got = console.output.got.as_slice();
    console.errors.is_empty() && got.len() == capacity && text.as_bytes().starts_with(got)
}

/// Whether a writer of this room gets just that front of the lines of a script, and the run fails
/// by it without a word.
fn writes_front<R: Abort + AllocGlobal + Threads + Wait + Sync>(
    rt: &R,
    row: &Row,
    capacity: usize,
) -> bool {
    let (script, mut console) = (script_of(row.script), short(rt.alloc(), capacity));
    let ended = script_with_workers(rt, rt.alloc(), OPTIONS, 2, script, &mut console);
    ended.status == Status::Failure && has_front(&console, row.lines, capacity)
}

/// The same of the line of its audit.
fn audits_to_front<R: Abort + AllocGlobal + Threads + Wait + Sync>(
    rt: &R,
    script: &str,
    line: &str,
    capacity: usize,
) -> bool {
    let (script, mut console) = (script_of(script), short(rt.alloc(), capacity));
    let ended = audit_with_workers(rt, rt.alloc(), OPTIONS, 2, script, &mut console);
    ended.status == Status::Failure && has_front(&console, line, capacity)
}

#[test]
fn writes_the_front_that_a_writer_takes(rt: HostRuntime) {
    for capacity in 0..REPAIRED.lines.len() {
        assert!(rt; writes_front(&rt, &REPAIRED, capacity), "{capacity} bytes");
    }
}

#[test]
fn writes_the_front_of_an_audit_that_a_writer_takes(rt: HostRuntime) {
    let line = "agreed 5 edits 2 shows\n";
    for capacity in 0..line.len() {
        assert!(rt;
            audits_to_front(&rt, REPAIRED.script, line, capacity),
            "{capacity} bytes"
        );
    }
}
