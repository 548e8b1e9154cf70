//! `load`: the units of a stream inserted one after the other.

ghost use Rattle.std.specs.Prelude.{◌≡◌, ◌+◌, ◌<◌, ◌≤◌, ℕ, List, [], IfErr, IfOk, MatchResult, vec_len};
ghost use Rattle.std.specs.Vec.{vec_capacity};
ghost use Rattle.serve_calls.specs.Failing.{out_of_memory};
ghost use Rattle.edit_history.specs.Histories.{HasCapacity as HasStepCapacity};
ghost use Rattle.stream_edits.specs.declared.edits.Edit.{Edit as EditValue};
ghost use Rattle.session_journal.specs.declared.steps.step.RecordedStep.{RecordedStep as StepValue};
ghost use Rattle.serve_calls.specs.Loading.{InsertsAll, InsertsBegun, InsertsLast, InsertsStep, IsLast, IsTextOf, IsTextless, LoadsAs, LoadsStream, load_answer, loaded_answer, none_inserted, uninserted, with_unit};
ghost use Rattle.serve_calls.specs.Preparing.{prepared};
ghost use Rattle.serve_calls.specs.Recording.{AreInserted, CountsOn, RecordsInserted, RecordsStream};
ghost use Rattle.serve_calls.specs.RecordingCalls.{RecordsLoaded};

use crate::backend::{Backend, LendsSession};
use crate::preparing::Prepared;
use crate::server::Server;
use crate::unmade::{EditFault, OUT_OF_MEMORY, unkept_failure};
use access_unit::{MOST_UNITS, ReadFault, read_units};
use bytes::Bytes;
use console_io::{InputFault, Source};
use edit_history::undo_redo::OpenStep;
use h264_types::pictures::AuId;
use picture_keys::{HashedUnit, hash_units};
use serve_answers::{Answer, LeftOutAnswer, UnitRange};
use serve_requests::{CallRefusal, Failure, Listed, Loaded};
use stand_in_session::{Last, ReadEdit, Receipt};
use std::alloc::Global;
use std::thread::Threads;

/// How many units were inserted, from which place on, and the ids of the first and the last of them.
#[derive(Clone, Copy, Debug, PartialEq, Eq)]
pub(crate) struct Inserted {
    pub(crate) from: usize,
    pub(crate) units: usize,
    pub(crate) first: Option<u32>,
    pub(crate) last: Option<u32>,
}

impl Inserted {
    /// Before the first unit, which will stand at a place.
    fn none(from: usize) -> Inserted
        ensures { result ≡ none_inserted from }
    {
        Inserted {
            from,
            units: 0,
            first: None,
            last: None,
        }
    }

    /// After a unit more, with this id.
    fn with_unit(self, id: AuId) -> Inserted
        ensures { result ≡ with_unit self id }
    {
        Inserted {
            from: self.from,
            units: self.units.saturating_add(1),
            first: self.first.or(Some(id.number())),
            last: Some(id.number()),
        }
    }

    /// The result where all were inserted, with what was left out if the stream was mended.
    fn answer(self, left_out: Option<Listed<LeftOutAnswer>>) -> Answer
        ensures { result ≡ loaded_answer left_out self }
    {
        Answer::Loaded {
            units: self.units,
            first: self.first,
            last: self.last,
            changed: UnitRange {
                from: self.from as u64,
                count: self.units as u64,
            },
            left_out,
        }
    }
}

impl<B: Backend, S: Source> Server<B, S> {
    /// Inserts the units of a stream after the last one, as it came or mended.
    pub(crate) fn load<R: Threads + Sync>(
        &mut self,
        rt: &R,
        loaded: Loaded,
        mend: bool,
    ) -> Result<Answer, Failure>
        ensures answers { LoadsAs B.is_session S.file self.old loaded mend result self.new }
        ensures recorded { RecordsLoaded (B.is_session self.old.backend) S.file
            (B.records self.old.backend) self.old.source loaded mend result
            (B.records self.new.backend) }
    {
        match text_of(self.alloc, &mut self.source, loaded) {
            Ok(text) => self.load_text(rt, text, mend),
            Err(failure) => Err(failure),
        }
    }

    /// Inserts the units of a text, as it came or mended.
    fn load_text<R: Threads + Sync>(
        &mut self,
        rt: &R,
        text: Bytes,
        mend: bool,
    ) -> Result<Answer, Failure>
        ensures loads { LoadsStream B.is_session self.old (prepared mend text) result self.new }
        ensures recorded { RecordsStream (B.is_session self.old.backend)
            (B.records self.old.backend) (prepared mend text).text result
            (B.records self.new.backend) }
    {
        match Prepared::of(self.alloc, text, mend) {
            Ok(stream) => self.load_stream(rt, stream),
            Err(failure) => Err(failure),
        }
    }

    /// Inserts the units of a stream, for which there has to be room.
    fn load_stream<R: Threads + Sync>(
        &mut self,
        rt: &R,
        stream: Prepared,
    ) -> Result<Answer, Failure>
        ensures loads { LoadsStream B.is_session self.old stream result self.new }
        ensures recorded { RecordsStream (B.is_session self.old.backend)
            (B.records self.old.backend) stream.text result (B.records self.new.backend) }
    {
        let Prepared { text, left_out } = stream;
        let from = self.last().units;
        match read_units(rt, self.alloc, &text, MOST_UNITS.saturating_sub(from)) {
            Ok(units) => match hash_units(rt, self.alloc, units) {
                Ok(units) => of_load(left_out, self.insert_step(from, units)),
                Err(_) => Err(OUT_OF_MEMORY),
            },
            Err(ReadFault::Refused(refusal)) => Err(Failure::Refused(CallRefusal::Stream(refusal))),
            Err(ReadFault::Memory) => Err(OUT_OF_MEMORY),
        }
    }

    /// Inserts the units after the last one, the first of them at a place, as one step.
    fn insert_step(&mut self, from: usize, units: Vec<HashedUnit>) -> Result<Inserted, Failure>
        ensures inserts { InsertsStep B.is_session self.old units.items (none_inserted from)
            result self.new }
        ensures recorded { RecordsInserted (B.is_session self.old.backend)
            (B.records self.old.backend) units.items result (B.records self.new.backend) }
    {
        match self.history.begin(self.alloc, units.len()) {
            Ok(step) => self.insert_begun(step, from, units),
            Err(_) => Err(OUT_OF_MEMORY),
        }
    }

    /// Inserts the units after the last one, the first of them at a place, as the step that has
    /// begun, unless they aren't recorded.
    fn insert_begun(
        &mut self,
        step: OpenStep,
        from: usize,
        units: Vec<HashedUnit>,
    ) -> Result<Inserted, Failure>
        requires fits { vec_len units ≤ vec_capacity step.changes }
        requires empty { step.changes.items ≡ [] }
        requires capacity { HasStepCapacity self.old.history.history }
        ensures inserts { InsertsBegun B.is_session self.old step units.items
            (none_inserted from) result self.new }
        ensures recorded { RecordsInserted (B.is_session self.old.backend)
            (B.records self.old.backend) units.items result (B.records self.new.backend) }
    {
        if let Err(why) = self.backend.begin_load(self.alloc, &units) {
            return Err(unkept_failure(why));
        }
        let mut step = step;
        let inserted = self.insert_all(&mut step, from, units);
        self.backend.end_load();
        self.history.end(step);
        inserted
    }

    /// Inserts the units after the last one, the first of them at a place, in a step that is under
    /// way. One that is refused ends that, and those before it stay.
    fn insert_all(
        &mut self,
        step: &mut OpenStep,
        from: usize,
        units: Vec<HashedUnit>,
    ) -> Result<Inserted, Failure>
        requires { vec_len step.old.changes + vec_len units ≤ vec_capacity step.old.changes }
        ensures inserts { InsertsAll B.is_session self.old step.old units.items
            (none_inserted from) result self.new step.new }
        ensures history { self.new.history.history ≡ self.old.history.history }
        ensures loading { (made : ℕ) × AreInserted result made
            × ((steps : List StepValue) (edits : List EditValue)
            → B.loads self.old.backend steps edits 0
            → B.loads self.new.backend steps edits made) }
    {
        let mut inserted = Inserted::none(from);
        for unit in units {
            match self.insert_last(step, unit) {
                Ok(receipt) => inserted = inserted.with_unit(receipt.id),
                Err(fault) => return Err(uninserted(fault, inserted.units)),
            }
        }
        Ok(inserted)
    }

    /// Inserts a unit after the last one, in a step that is under way.
    fn insert_last(&mut self, step: &mut OpenStep, unit: HashedUnit) -> Result<Receipt, EditFault>
        requires { vec_len step.old.changes < vec_capacity step.old.changes }
        ensures inserts { InsertsLast B.is_session self.old step.old unit result self.new
            step.new }
        ensures loading { CountsOn (B.loads self.old.backend) result (B.loads self.new.backend) }
        ensures history { self.new.history.history ≡ self.old.history.history }
        ensures capacity { vec_capacity step.new.changes ≡ vec_capacity step.old.changes }
        ensures more { vec_len step.new.changes ≤ vec_len step.old.changes + 1 }
    {
        let place = self.last().end();
        let read = ReadEdit::insertion(self.alloc, place, unit)?;
        self.edit_in(step, read)
    }

    /// The end of the stream.
    fn last(&self) -> Last
        ensures { IsLast B.is_session self.now result }
    {
        self.backend.look(|session| session.last())
    }
}

/// Why a unit isn't inserted, once so many were.
fn uninserted(fault: EditFault, units: usize) -> Failure
    ensures { result ≡ uninserted fault units }
{
    match fault {
        EditFault::Refused(refused) => Failure::Refused(CallRefusal::Loading { refused, units }),
        EditFault::Unkept(why) => unkept_failure(why),
    }
}

/// The result of a load, with what was left out if the stream was mended.
fn of_load(
    left_out: Option<Listed<LeftOutAnswer>>,
    inserted: Result<Inserted, Failure>,
) -> Result<Answer, Failure>
    ensures { result ≡ load_answer left_out inserted }
{
    match inserted {
        Ok(inserted) => Ok(inserted.answer(left_out)),
        Err(failure) => Err(failure),
    }
}

/// The text that is loaded.
fn text_of<S: Source>(alloc: Global, source: &mut S, loaded: Loaded) -> Result<Bytes, Failure>
    ensures ok { IfOk result (IsTextOf S.file source.old loaded) }
    ensures err { IfErr result (IsTextless loaded) }
    ensures kept { (name : List ℕ) → S.file source.new name ≡ S.file source.old name }
{
    match loaded {
        Loaded::Text(text) => Ok(text),
        Loaded::File(name) => match source.whole_file(alloc, name.as_str()) {
            Ok(text) => bytes_of(text),
            Err(InputFault::Memory) => Err(OUT_OF_MEMORY),
            Err(InputFault::Unread) => Err(Failure::Refused(CallRefusal::CannotRead)),
        },
    }
}

/// The bytes of a file, to be shared.
fn bytes_of(text: Vec<u8>) -> Result<Bytes, Failure>
    ensures { MatchResult result (λ bytes. bytes ≡ text.items)
        (λ failure. failure ≡ out_of_memory) }
{
    match Bytes::from_vec(text) {
        Ok(bytes) => Ok(bytes),
        Err(_) => Err(OUT_OF_MEMORY),
    }
}
