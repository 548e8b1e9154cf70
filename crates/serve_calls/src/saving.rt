//! `save`: the stream as it is, as a file.

ghost use Rattle.std.specs.Prelude.{◌≡◌};
ghost use Rattle.serve_calls.specs.Saving.{SavesAs, bytes_in};
ghost use Rattle.serve_calls.specs.Compacting.{CompactsAs, compact_answer};
ghost use Rattle.serve_calls.specs.RecordingCalls.{RecordsSnapshot};

use crate::backend::Backend;
use crate::server::Server;
use crate::unmade::{OUT_OF_MEMORY, unkept_failure};
use bytes::Bytes;
use console_io::file_saving::{Saver, Unsaved};
use serve_answers::{Answer, Word};
use serve_requests::{CallRefusal, Failure, Name};
use session_journal::Unkept;

impl<B: Backend, S: Saver> Server<B, S> {
    /// Saves the texts of the stream's units, one after the other, as the file of this name.
    pub(crate) fn save(&mut self, name: Name) -> Result<Answer, Failure>
        ensures { SavesAs S.file self.old name result self.new }
    {
        let texts = self.history.texts();
        let (units, bytes) = (texts.len(), bytes_in(texts));
        match self.source.save(self.alloc, name.as_str(), texts) {
            Ok(()) => Ok(Answer::Saved { units, bytes }),
            Err(Unsaved::Unwritten) => Err(Failure::Refused(CallRefusal::CannotWrite)),
            Err(Unsaved::Memory) => Err(OUT_OF_MEMORY),
        }
    }
}

/// How many bytes the texts have.
fn bytes_in(texts: &[Bytes]) -> u64
    ensures { result ≡ bytes_in texts.now }
{
    let mut bytes: u64 = 0;
    for text in texts {
        bytes = bytes.saturating_add(text.len() as u64);
    }
    bytes
}

impl<B: Backend, S> Server<B, S> {
    /// Writes the journal's file anew, as the stream is: nothing is left of how it became so.
    pub(crate) fn compact(&mut self) -> Result<Answer, Failure>
        ensures answers { CompactsAs B.is_session B.offers self.old result self.new }
        ensures recorded { RecordsSnapshot (B.records self.old.backend) self.old.history result
            (B.records self.new.backend) }
    {
        if !self.backend.has_journal() {
            return Err(Failure::NoMethod);
        }
        match self.history.snapshot(self.alloc) {
            Ok(snapshot) => of_compact(self.backend.compact(&snapshot)),
            Err(_) => Err(OUT_OF_MEMORY),
        }
    }
}

/// The result where the file is written anew, or isn't.
fn of_compact(answer: Result<(), Unkept>) -> Result<Answer, Failure>
    ensures { result ≡ compact_answer answer }
{
    match answer {
        Ok(()) => Ok(Answer::Word(Word::Compacted)),
        Err(why) => Err(unkept_failure(why)),
    }
}
