//! `text` and `journal`: texts as they were given.

ghost use Rattle.std.specs.Prelude.{◌≡◌, IfOk, Some, drop, map, take};
ghost use Rattle.serve_calls.specs.Failing.{IsUnlessMemory};
ghost use Rattle.serve_answers.specs.JournalAnswers.{entry_answer};
ghost use Rattle.serve_calls.specs.Texts.{TellsJournal, TellsText, journal_answer, text_answer};

use crate::backend::Backend;
use crate::server::Server;
use crate::unmade::OUT_OF_MEMORY;
use bytes::Bytes;
use edit_script::id_of_number;
use serve_answers::{Answer, Digits, EntryAnswer};
use serve_requests::{CallRefusal, Failure, Listed};
use stand_in_session::Session;
use std::alloc::{AllocError, Global};
use stream_edits::JournalEntry;

/// So many entries of the journal, from one on.
fn range(journal: &[JournalEntry], from: u64, count: u64) -> &[JournalEntry]
    ensures { result.now ≡ take count (drop from journal.now) }
{
    let (_, rest) = journal.split_at((from as usize).min(journal.len()));
    let (range, _) = rest.split_at((count as usize).min(rest.len()));
    range
}

/// Entries of the journal, as they are told.
fn entries(alloc: Global, journal: &[JournalEntry]) -> Result<Listed<EntryAnswer>, AllocError>
    ensures { IfOk result (λ answers. answers ≡ map entry_answer journal.now) }
{
    let mut answers = Vec::with_capacity(alloc, journal.len())?;
    for entry in journal {
        answers.push(EntryAnswer::of(alloc, entry)?)?;
    }
    Ok(Listed::new(answers))
}

/// The result of a unit's text.
fn text_answer(alloc: Global, text: &Bytes) -> Result<Answer, Failure>
    ensures { IsUnlessMemory (text_answer (Some text.now)) result }
{
    match Digits::of_bytes(alloc, text.as_slice()) {
        Ok(bytes) => Ok(Answer::Text { bytes }),
        Err(_) => Err(OUT_OF_MEMORY),
    }
}

/// The result of a question for so many entries of the journal, from one on.
fn journal_answer(
    alloc: Global,
    session: &Session,
    from: u64,
    count: u64,
) -> Result<Answer, Failure>
    ensures { IsUnlessMemory (journal_answer (take count (drop from session.now.journal))) result }
{
    match entries(alloc, range(session.journal(), from, count)) {
        Ok(entries) => Ok(Answer::Journal(entries)),
        Err(_) => Err(OUT_OF_MEMORY),
    }
}

impl<B: Backend, S> Server<B, S> {
    /// The text of the unit of a number.
    pub(crate) fn text(&self, number: u64) -> Result<Answer, Failure>
        ensures { TellsText self.now.history number result }
    {
        match self.history.text(id_of_number(number)) {
            Some(text) => text_answer(self.alloc, text),
            None => Err(Failure::Refused(CallRefusal::NoSuchUnit)),
        }
    }

    /// So many of the edits that were accepted, from one on, those of a group as one.
    pub(crate) fn journal(&self, from: u64, count: u64) -> Result<Answer, Failure>
        ensures { TellsJournal (B.is_session self.now.backend) from count result }
    {
        let alloc = self.alloc;
        self.backend
            .look(|session| journal_answer(alloc, session, from, count))
    }
}
