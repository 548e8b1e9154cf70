//! Where a file is written beside the one that it replaces.

ghost use Rattle.std.specs.Prelude.{◌≡◌, ◌++◌, ℕ, List, [], Option, None, OnErr, OnOk};
ghost use Rattle.console_io.specs.Saved.{AreKept, IsSaved, Saves, joined};
ghost use Rattle.console_io.specs.declared.file_saving.folder.Unsaved.TheVariants.{Memory};

use bytes::Bytes;
use std::alloc::{AllocError, Global};

/// Why a file isn't saved.
#[derive(Clone, Copy, Debug, PartialEq, Eq)]
pub enum Unsaved {
    /// The operating system refused to write it.
    Unwritten,
    /// A growth was refused.
    Memory,
}

impl From<AllocError> for Unsaved {
    ghost from_gives = { λ _ unsaved. unsaved ≡ Memory };

    fn from(_error: AllocError) -> Unsaved {
        Unsaved::Memory
    }
}

/// Where a file is written beside the one that it replaces.
pub trait Folder {
    // The bytes of the file of a name, where they are known.
    ghost file: { Self → List ℕ → Option (List ℕ) } = { λ _ _. None };

    // The draft has these bytes; by default nothing is known of that.
    ghost has_draft: { Self → List ℕ → Type 0 } = { λ _ _. Unit {0} };

    // No draft stands there; by default nothing is known of that.
    ghost is_clean: { Self → Type 0 } = { λ _. Unit {0} };

    /// Begins a draft beside the file of this name.
    fn begin(&mut self, alloc: Global, name: &str) -> Result<(), Unsaved>
        ensures begun { OnOk result (has_draft self.new []) }
        ensures kept { AreKept (file self.old) (file self.new) }
        ensures clean { OnErr result (is_clean self.old → is_clean self.new) };

    /// Adds bytes to the draft.
    fn add(&mut self, bytes: &[u8]) -> Result<(), Unsaved>
        ensures added { OnOk result ((before : List ℕ) → has_draft self.old before
            → has_draft self.new (before ++ bytes.now)) }
        ensures kept { AreKept (file self.old) (file self.new) };

    /// Puts the draft in the place of the file of this name, or discards it.
    fn put(&mut self, name: &str) -> Result<(), Unsaved>
        ensures saved { OnOk result ((bytes : List ℕ) → has_draft self.old bytes
            → IsSaved (file self.old) name.now bytes (file self.new)) }
        ensures kept { OnErr result (AreKept (file self.old) (file self.new)) }
        ensures clean { is_clean self.new };

    /// Discards the draft.
    fn discard(&mut self)
        ensures kept { AreKept (file self.old) (file self.new) }
        ensures clean { is_clean self.new };
}

/// Saves texts one after the other as the file of a name: as a draft beside it, which is put in its
/// place once it is whole. Where that fails, each file has what it had. No draft is left.
pub fn save_in<F: Folder>(
    folder: &mut F,
    alloc: Global,
    name: &str,
    texts: &[Bytes],
) -> Result<(), Unsaved>
    ensures saves { Saves (F.file folder.old) name.now (joined texts.now) result
        (F.file folder.new) }
    ensures clean { F.is_clean folder.old → F.is_clean folder.new }
{
    folder.begin(alloc, name)?;
    match add_all(folder, texts) {
        Ok(()) => folder.put(name),
        Err(unsaved) => {
            folder.discard();
            Err(unsaved)
        }
    }
}

/// Adds texts one after the other to the draft.
fn add_all<F: Folder>(folder: &mut F, texts: &[Bytes]) -> Result<(), Unsaved>
    ensures added { OnOk result (F.has_draft folder.old []
        → F.has_draft folder.new (joined texts.now)) }
    ensures kept { AreKept (F.file folder.old) (F.file folder.new) }
{
    for text in texts {
        folder.add(text)?;
    }
    Ok(())
}
