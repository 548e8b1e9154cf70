//! A reader that notes why it failed.

ghost use Rattle.std.specs.Prelude.{◌≡◌};

use std::io;
use std::io::{Error, ErrorKind, Read};

/// A reader, and the error by which it failed, if it did.
#[derive(Drop)]
pub(crate) struct Noted<R> {
    pub(crate) reader: R,
    pub(crate) error: Option<Error>,
}

impl<R: Read> Read for Noted<R> {
    ghost remaining = { λ noted. R.remaining noted.reader };

    fn read(&mut self, buf: &mut [u8]) -> io::Result<usize> {
        let answer = self.reader.read(buf);
        if let Err(error) = answer {
            self.note(error);
        }
        answer
    }
}

impl<R> Noted<R> {
    /// Notes why a read failed. One that was interrupted is made again.
    fn note(&mut self, error: Error)
        ensures { self.new.reader ≡ self.old.reader }
    {
        if error.kind() != ErrorKind::Interrupted {
            self.error = Some(error);
        }
    }
}
