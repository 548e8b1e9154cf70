//! What bytes are written to.

ghost use Rattle.std.specs.Prelude.{List, ℕ};
ghost use Rattle.std.specs.Io.{WritesAtMost};
ghost use Rattle.std.specs.Io.KnownBytes.{WriteAppends};
ghost use Rattle.console_io.specs.Sinks.{WriteRefuses};

use std::alloc::Allocator;
use std::io;
use std::io::{Stderr, Stdout, Write};

/// A writer that may declare that it took nothing, by which contracts say that it is the writer
/// that failed.
pub trait Sink: Write {
    // Its last write failed or took none of the bytes; by default nothing is known of that.
    ghost refuses: { Self → Type 0 } = { λ _. Unit {0} };

    /// Writes a prefix of the bytes, as `write` does.
    fn write_some(&mut self, bytes: &[u8]) -> io::Result<usize>
        ensures bound { WritesAtMost result bytes.now }
        ensures bytes { WriteAppends (Self.contents self.old) (Self.contents self.new)
            result bytes.now }
        ensures refused { WriteRefuses result bytes.now (refuses self.new) };
}

impl Sink for Stdout {
    fn write_some(&mut self, bytes: &[u8]) -> io::Result<usize> {
        self.write(bytes)
    }
}

impl Sink for Stderr {
    fn write_some(&mut self, bytes: &[u8]) -> io::Result<usize> {
        self.write(bytes)
    }
}

impl<A: Allocator> Sink for Vec<u8, A> {
    fn write_some(&mut self, bytes: &[u8]) -> io::Result<usize> {
        self.write(bytes)
    }
}

impl Sink for &mut [u8] {
    fn write_some(&mut self, bytes: &[u8]) -> io::Result<usize> {
        self.write(bytes)
    }
}
