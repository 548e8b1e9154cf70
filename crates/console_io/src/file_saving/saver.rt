//! What files are saved to.

ghost use Rattle.std.specs.Prelude.{◌≡◌, ℕ, List, None};
ghost use Rattle.console_io.specs.Saved.{Saves, joined};

use crate::file_saving::folder::{Unsaved, save_in};
use crate::file_saving::host::Host;
use crate::{Directory, Files, Source};
use bytes::Bytes;
use std::alloc::Global;

/// A directory in which files are saved. Nothing is known of its files, as others write them too.
pub trait Saving: Directory {
    /// Saves texts one after the other as the file of this name; or leaves what stood there, and
    /// nothing beside it.
    fn save(&self, alloc: Global, name: &str, texts: &[Bytes]) -> Result<(), Unsaved>
        ensures { (other : List ℕ) → Self.bytes self.now other ≡ None };
}

impl Saving for HostRuntime {
    fn save(&self, alloc: Global, name: &str, texts: &[Bytes]) -> Result<(), Unsaved> {
        save_in(&mut Host::of(self), alloc, name, texts)
    }
}

/// A source whose files are saved too.
pub trait Saver: Source {
    /// Saves texts one after the other as the file of this name; or leaves what stood there, and
    /// nothing beside it.
    fn save(&mut self, alloc: Global, name: &str, texts: &[Bytes]) -> Result<(), Unsaved>
        ensures { Saves (Self.file self.old) name.now (joined texts.now) result
            (Self.file self.new) };
}

impl<'a, D: Saving> Saver for Files<'a, D> {
    fn save(&mut self, alloc: Global, name: &str, texts: &[Bytes]) -> Result<(), Unsaved> {
        self.directory.save(alloc, name, texts)
    }
}
