//! Marks of the stream, and the units that are altered since.

ghost use Rattle.std.specs.Prelude.{◌≡◌, ◌<◌, ◌↔◌, length, IsTrue, OnErr, OnOk};
ghost use Rattle.picture_store.specs.Altered.{IsAltered, with_mark};

use super::PictureStore;
use crate::mark::Mark;
use decode_jobs::Decoded;
use std::alloc::AllocError;

impl<P: Decoded> PictureStore<P> {
    /// Remembers the keys of the valid units, in use or not, until the next mark.
    pub fn mark(&mut self) -> Result<(), AllocError>
        ensures ok { OnOk result (self.new ≡ with_mark self.old) }
        ensures err { OnErr result (self.new ≡ self.old) }
    {
        let mark = Mark::new(self.alloc, &self.numbers)?;
        self.mark = Some(mark);
        Ok(())
    }

    /// Whether the unit at a place is valid and has a key that none had when the stream was marked.
    /// Before the first mark none is.
    pub fn is_altered(&self, at: usize) -> bool
        requires { at < length self.now.ids }
        ensures { IsTrue result ↔ IsAltered self.now at }
    {
        let Some(key) = self.numbers[at] else {
            return false;
        };
        match &self.mark {
            Some(mark) => !mark.has(key),
            None => false,
        }
    }
}
