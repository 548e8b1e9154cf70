//! The writer of a server's lines.

use crate::answers::Answers;
use edit_script::id_of_number;
use serde::Serialize;
use serve_answers::{ChangedUnit, notification_text};
use serve_calls::{LendsSession, WantedUnit, picked};
use stand_in_session::{Picture, Shown};
use std::alloc::{AllocError, Global};
use std::io::Write;

/// Why a line isn't written.
#[derive(Clone, Copy, Debug, PartialEq, Eq)]
pub(crate) enum Fault {
    /// The output takes no more.
    Unwritten,
    /// There is no memory for the line.
    Memory,
}

impl From<AllocError> for Fault {
    fn from(_error: AllocError) -> Fault {
        Fault::Memory
    }
}

/// The writer of a server's lines, with the units that are wanted and what was told of each.
#[derive(Drop)]
pub(crate) struct LineWriter<W> {
    alloc: Global,
    output: W,
    /// Whether a write failed: then nothing more is written.
    has_failed: bool,
    pub(crate) wanted: Vec<WantedUnit>,
    /// How many edits there were when the wanted units were looked at last.
    edits: usize,
}

impl<W: Write> LineWriter<W> {
    /// A writer of lines. No unit is wanted yet.
    pub(crate) fn new(alloc: Global, output: W) -> LineWriter<W> {
        LineWriter {
            alloc,
            output,
            has_failed: false,
            wanted: Vec::new(alloc),
            edits: 0,
        }
    }

    /// Writes the answers to the messages of a line, if there are any.
    pub(crate) fn answer(&mut self, answers: Answers) -> Result<(), Fault> {
        match answers.into_text()? {
            Some(text) => self.write(text),
            None => Ok(()),
        }
    }

    /// Writes of each wanted unit that is ready with another picture than was told of it last, or
    /// that edits changed since it was looked at last.
    pub(crate) fn tell<B: LendsSession>(&mut self, backend: &B) -> Result<(), Fault> {
        let edits = backend.look(|session| session.journal().len());
        let has_edits = edits != self.edits;
        for at in 0..self.wanted.len() {
            self.tell_one(backend, at, has_edits)?;
        }
        self.edits = edits;
        Ok(())
    }

    /// Writes of a wanted unit if it is ready with another picture than was told of it last, or if
    /// edits changed it.
    fn tell_one<B: LendsSession>(
        &mut self,
        backend: &B,
        at: usize,
        has_edits: bool,
    ) -> Result<(), Fault> {
        let Some(unit) = self.wanted.get(at) else {
            return Ok(());
        };
        let unit = *unit;
        let shown = backend.look(|session| session.show(id_of_number(unit.number)));
        let told = self.report(unit, has_edits, shown)?;
        if let Some(place) = self.wanted.get_mut(at) {
            *place = WantedUnit {
                number: unit.number,
                told,
                seen: Some(shown),
            };
        }
        Ok(())
    }

    /// Writes what is to be told of a wanted unit where this is shown of it: the picture that was
    /// told of it last then.
    fn report(
        &mut self,
        unit: WantedUnit,
        has_edits: bool,
        shown: Shown,
    ) -> Result<Option<Picture>, Fault> {
        let id = unit.number;
        if let Some(state) = unit.change(has_edits, shown) {
            self.notify("changed", &ChangedUnit { id, state })?;
            return Ok(None);
        }
        let Some(picture) = unit.news(shown) else {
            return Ok(unit.told);
        };
        self.notify("ready", &picked(self.alloc, id, picture)?)?;
        Ok(Some(picture))
    }

    /// Writes a notification of this method.
    fn notify<P: Serialize>(&mut self, method: &'static str, params: &P) -> Result<(), Fault> {
        let text = notification_text(self.alloc, method, params)?;
        self.write(text)
    }

    /// Writes a text as a line at once.
    fn write(&mut self, text: String) -> Result<(), Fault> {
        let mut line = text;
        line.push('\n')?;
        self.has_failed = self.has_failed
            || self.output.write_all(line.as_bytes()).is_err()
            || self.output.flush().is_err();
        if self.has_failed {
            return Err(Fault::Unwritten);
        }
        Ok(())
    }
}
