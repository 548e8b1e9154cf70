//! A writer for lines that nobody reads.

use console_io::Sink;
use std::io;
use std::io::Write;

/// Takes all bytes, and keeps none.
#[derive(Drop)]
pub(crate) struct Nowhere;

impl Write for Nowhere {
    fn write(&mut self, buf: &[u8]) -> io::Result<usize> {
        Ok(buf.len())
    }

    fn flush(&mut self) -> io::Result<()> {
        Ok(())
    }
}

impl Sink for Nowhere {
    ghost refuses = { λ _. ⊥ };

    fn write_some(&mut self, bytes: &[u8]) -> io::Result<usize> {
        Ok(bytes.len())
    }
}
