//! Marks of the stream, and the units that are altered since.

ghost use Rattle.std.specs.Prelude.{◌≡◌, OnErr, OnOk};
ghost use Rattle.stream_session.specs.Altered.{AnswersAltered, NoneAltered, with_mark};

use super::Session;
use decode_jobs::Decoded;
use h264_types::pictures::AuId;
use std::alloc::AllocError;

impl<P: Decoded> Session<P> {
    /// Marks the stream as it is: the keys of its valid units are remembered, in use or not, until
    /// the next mark. Edits leave the mark as it is.
    pub fn mark(&mut self) -> Result<(), AllocError>
        ensures ok { OnOk result (self.new ≡ with_mark self.old) }
        ensures unaltered { OnOk result (NoneAltered self.new) }
        ensures err { OnErr result (self.new ≡ self.old) }
    {
        self.store.mark()
    }

    /// Whether the unit that has the id is altered: whether it is valid and made of something of
    /// which no unit was when the stream was marked. Before the first mark none is. `None` where
    /// there is no such unit. It takes no memory.
    pub fn is_altered(&self, id: AuId) -> Option<bool>
        ensures { AnswersAltered self.now id result }
    {
        match self.find(id) {
            Some(place) => Some(self.store.is_altered(place)),
            None => None,
        }
    }
}
