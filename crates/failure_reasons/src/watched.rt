//! A writer that notes whether a refusal was written to it.

ghost use Rattle.std.specs.Prelude.{◌≡◌};

use console_io::Sink;
use std::io;
use std::io::Write;

/// The most bytes of a line that refuses a stream or an edit.
const LONGEST: usize = 64;

/// A writer, and whether a line that refuses something was written to it alone.
#[derive(Drop)]
pub struct Watched<W> {
    writer: W,
    has_refusal: bool,
}

impl<W> Watched<W> {
    /// A writer to which nothing was written yet.
    pub fn new(writer: W) -> Watched<W>
        ensures { result.writer ≡ writer }
    {
        Watched {
            writer,
            has_refusal: false,
        }
    }

    /// Whether a line was written that refuses a stream or an edit.
    pub fn has_refusal(&self) -> bool
        ensures { result ≡ self.now.has_refusal }
    {
        self.has_refusal
    }

    /// Notes what is to be written.
    fn note(&mut self, bytes: &[u8])
        ensures { self.new.writer ≡ self.old.writer }
    {
        if bytes.len() <= LONGEST && is_refusal(bytes) {
            self.has_refusal = true;
        }
    }
}

/// Whether a text refuses a stream or an edit.
fn is_refusal(text: &[u8]) -> bool {
    match std::str::from_utf8(text) {
        Ok(line) => {
            line.starts_with("refused ") || line.starts_with("unit ") && line.contains(" refused ")
        }
        Err(_) => false,
    }
}

impl<W: Write> Write for Watched<W> {
    ghost contents = { λ watched. W.contents watched.writer };

    fn write(&mut self, buf: &[u8]) -> io::Result<usize> {
        self.note(buf);
        self.writer.write(buf)
    }

    fn flush(&mut self) -> io::Result<()> {
        self.writer.flush()
    }
}

impl<W: Sink> Sink for Watched<W> {
    ghost refuses = { λ watched. W.refuses watched.writer };

    fn write_some(&mut self, bytes: &[u8]) -> io::Result<usize> {
        self.note(bytes);
        self.writer.write_some(bytes)
    }
}
