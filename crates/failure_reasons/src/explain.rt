//! Why a file isn't taken as a stream, said while a command goes on.

ghost use Rattle.std.specs.Prelude.{◌≡◌, ℕ, List, Option, None, IfOk, IfSome};

use crate::streams::stream_lines;
use console_io::{Files, write_bytes};
use std::alloc::Global;
use std::fs::File;
use std::io::Read;
use std::{fs, io};

/// What files are opened in once more, by their names.
pub trait Again {
    type File: Read + Drop;

    // The bytes of the file of a name, where they are known.
    ghost bytes: { Self → List ℕ → Option (List ℕ) } = { λ _ _. None };

    /// The file or the folder of this name, of which nothing is read yet; nothing where it is another
    /// thing, as a pipe, which can't be read twice.
    fn open_again(&self, name: &str) -> io::Result<Option<Self::File>>
        ensures { IfOk result (λ opened. IfSome opened (λ file.
            Self.File.Read.remaining file ≡ bytes self.now name.now)) };
}

impl Again for HostRuntime {
    type File = File;

    fn open_again(&self, name: &str) -> io::Result<Option<File>> {
        let found = fs::metadata(self, name)?;
        if !found.is_file() && !found.is_dir() {
            return Ok(None);
        }
        let file = File::open(self, name)?;
        Ok(Some(file))
    }
}

/// Who says why files aren't taken as streams, beside what a command answers.
pub trait Explain {
    /// Says why the file of this name isn't taken, where that is known and there is memory for it.
    fn explain(&self, alloc: Global, name: &str);
}

impl Explain for HostRuntime {
    // A line on standard error. One that isn't taken there is let go.
    fn explain(&self, alloc: Global, name: &str) {
        if let Ok(line) = stream_lines(alloc, self, name) {
            let _told = write_bytes(&mut self.stderr(), line.as_slice());
        }
    }
}

impl<'a, D: Explain> Explain for Files<'a, D> {
    fn explain(&self, alloc: Global, name: &str) {
        self.directory.explain(alloc, name);
    }
}
