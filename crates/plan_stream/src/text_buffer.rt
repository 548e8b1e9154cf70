//! Room for the texts of access units, which are read one after the other.

ghost use Rattle.std.specs.Prelude.{◌≡◌, IfOk};

use bytes::{Bytes, BytesMut};
use std::alloc::{AllocError, Global};
use std::mem::replace;

/// The memory of the text that was read last, for the next one.
#[derive(Drop)]
pub(crate) struct TextBuffer {
    spare: BytesMut,
}

impl TextBuffer {
    /// Of no text.
    pub(crate) fn new(alloc: Global) -> TextBuffer {
        TextBuffer {
            spare: BytesMut::new(alloc),
        }
    }

    /// The text once more, in bytes that can be shared.
    pub(crate) fn hold(&mut self, alloc: Global, text: &[u8]) -> Result<Bytes, AllocError>
        ensures { IfOk result (λ held. held ≡ text.now) }
    {
        let mut spare = replace(&mut self.spare, BytesMut::new(alloc));
        spare.clear();
        spare.extend_from_slice(text)?;
        Ok(spare.freeze()?)
    }

    /// Keeps the memory of a text that was read, where nothing shares it any more.
    pub(crate) fn take_back(&mut self, held: Bytes) {
        if let Some(spare) = held.reclaim() {
            self.spare = spare;
        }
    }
}
