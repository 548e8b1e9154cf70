//! The lines of a server's input.

ghost use Rattle.std.specs.Prelude.{◌≤◌, length};

use std::alloc::Global;
use std::io;
use std::io::{BufRead, BufReader, ErrorKind, Read};

/// How many bytes a line has at most.
pub(crate) const MOST_BYTES: u64 = 64 * 1024 * 1024;

/// What is read of an input.
#[derive(Debug, Drop)]
pub(crate) enum InputLine {
    /// A line without its end.
    Text(Vec<u8>),
    /// A line over `MOST_BYTES`, which was skipped.
    TooLong,
    /// A line for which there is no memory, which was skipped.
    Memory,
    /// The end.
    End,
}

/// The lines of a reader.
#[derive(Drop)]
pub(crate) struct InputLines<I> {
    alloc: Global,
    reader: BufReader<I, Global>,
    most: u64,
}

impl<I: Read + Drop> InputLines<I> {
    /// The lines of a reader, of so many bytes at most.
    pub(crate) fn of(alloc: Global, input: I, most: u64) -> io::Result<InputLines<I>> {
        let reader = BufReader::new(alloc, input)?;
        Ok(InputLines {
            alloc,
            reader,
            most,
        })
    }

    /// The next line.
    pub(crate) fn next(&mut self) -> io::Result<InputLine> {
        let mut text = Vec::new(self.alloc);
        let mut front = self.reader.by_ref().take(self.most.saturating_add(1));
        match front.read_until(b'\n', &mut text) {
            Ok(count) => self.ended(text, count as u64),
            Err(error) if error.kind() == ErrorKind::OutOfMemory => self.skipped(InputLine::Memory),
            Err(error) => Err(error),
        }
    }

    /// The line of a text that was read to its end, to the input's or as far as a line may go, so
    /// many bytes.
    fn ended(&mut self, text: Vec<u8>, count: u64) -> io::Result<InputLine> {
        let mut text = text;
        if count == 0 {
            return Ok(InputLine::End);
        }
        if text.last() == Some(&b'\n') {
            let _ = text.pop();
            return Ok(InputLine::Text(text));
        }
        if count <= self.most {
            return Ok(InputLine::Text(text));
        }
        self.skipped(InputLine::TooLong)
    }

    /// This, after what is left of the line is skipped.
    fn skipped(&mut self, line: InputLine) -> io::Result<InputLine> {
        self.reader.skip_until(b'\n')?;
        Ok(line)
    }
}
