//! What a run reads and writes, each as one value.

ghost use Rattle.std.specs.Prelude.{◌≡◌, IfOk, IsErr, codes, false};
ghost use Rattle.std.specs.Str.{bytes_eq};
ghost use Rattle.console_io.specs.Inputs.{is_standard, remaining_of, text_named};

use crate::input::{InputFault, NamedInput};
use crate::source::Directory;
use std::io::Read;

/// What a run writes: its output, and what it tells beside that.
#[derive(Drop)]
pub struct Console<W, E> {
    pub output: W,
    pub errors: E,
}

/// What a run reads: files by their names, and a standard input.
#[derive(Drop)]
pub struct Inputs<'a, D, I> {
    pub directory: &'a D,
    pub standard: I,
}

impl<'a, D: Directory, I: Read + Drop> Inputs<'a, D, I> {
    /// The standard input for `-`, else the file of that name.
    pub fn open(self, name: &str) -> Result<NamedInput<I, D::File>, InputFault>
        ensures standard { IfOk result (λ input. is_standard input ≡ bytes_eq name.now (codes "-")) }
        ensures gives { IfOk result (λ input. remaining_of I.remaining D.File.remaining input
            ≡ text_named (D.bytes self.entry.directory.now) (I.remaining self.entry.standard) name.now) }
        ensures opened { IsErr result → bytes_eq name.now (codes "-") ≡ false }
    {
        if name == "-" {
            return Ok(NamedInput::StandardInput(self.standard));
        }
        Ok(NamedInput::File(self.directory.open(name)?))
    }
}
