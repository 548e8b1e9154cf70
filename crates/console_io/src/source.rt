//! The files that a script names.

ghost use Rattle.std.specs.Prelude.{◌≡◌, ℕ, List, Option, None, IfOk, IfSome};

use crate::input::{InputFault, whole_input};
use std::alloc::Global;
use std::fs::File;
use std::io::{ErrorKind, Read};

/// What a script's files are read from.
pub trait Source {
    // The bytes of the file of a name, where they are known.
    ghost file: { Self → List ℕ → Option (List ℕ) } = { λ _ _. None };

    /// The whole bytes of the file of this name.
    fn whole_file(&mut self, alloc: Global, name: &str) -> Result<Vec<u8>, InputFault>
        ensures known { IfOk result (λ text. IfSome (file self.old name.now) (λ bytes. text.items
            ≡ bytes)) }
        ensures kept { (other : List ℕ) → file self.new other ≡ file self.old other };
}

/// What files are opened in, by their names.
pub trait Directory {
    type File: Read + Drop;

    // The bytes of the file of a name, where they are known.
    ghost bytes: { Self → List ℕ → Option (List ℕ) } = { λ _ _. None };

    /// The file of this name, of which nothing is read yet.
    fn open(&self, name: &str) -> Result<Self::File, ErrorKind>
        ensures { IfOk result (λ file. Self.File.Read.remaining file ≡ bytes self.now name.now) };
}

impl Directory for HostRuntime {
    type File = File;

    fn open(&self, name: &str) -> Result<File, ErrorKind> {
        match File::open(self, name) {
            Ok(file) => Ok(file),
            Err(error) => Err(error.kind()),
        }
    }
}

/// The files of a directory.
#[derive(Drop)]
pub struct Files<'a, D> {
    pub directory: &'a D,
}

impl<'a, D: Directory> Source for Files<'a, D> {
    ghost file = { λ files name. D.bytes files.directory.now name };

    fn whole_file(&mut self, alloc: Global, name: &str) -> Result<Vec<u8>, InputFault> {
        let mut file = self.directory.open(name)?;
        whole_input(alloc, &mut file)
    }
}
