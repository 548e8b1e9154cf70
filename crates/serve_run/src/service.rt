//! What a server serves with.

use crate::lines::{InputLines, MOST_BYTES};
use session_journal::RecordedStep;
use std::alloc::Global;
use std::io;
use std::io::Read;

/// What a server serves with.
#[derive(Drop)]
pub struct Service<K, I, S> {
    /// How many pictures of keys that no unit has the session has room for.
    pub cache: u16,
    /// The journal in which edits are recorded, if there is one, with its steps, which are made
    /// again first.
    pub journal: Option<(K, Vec<RecordedStep>)>,
    /// What the messages are read from.
    pub input: I,
    /// The files that messages name.
    pub files: S,
}

/// What the thread of the reader has: the journal and its steps, if there is one, the lines of the
/// input, and the files.
#[derive(Drop)]
pub(crate) struct Reading<K, I, S> {
    pub(crate) journal: Option<(K, Vec<RecordedStep>)>,
    pub(crate) lines: InputLines<I>,
    pub(crate) files: S,
}

impl<K: Drop, I: Read + Drop, S: Drop> Service<K, I, S> {
    /// What the thread of the reader has of it.
    pub(crate) fn reading(self, alloc: Global) -> io::Result<Reading<K, I, S>> {
        let lines = InputLines::of(alloc, self.input, MOST_BYTES)?;
        Ok(Reading {
            journal: self.journal,
            lines,
            files: self.files,
        })
    }
}
