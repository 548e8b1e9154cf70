//! Edits that are recorded before they are made, and recorded steps that are made again.

use super::{A, ServeEnd, served_by};
use bytes::Bytes;
use h264_types::pictures::AuId;
use session_journal::{EditList, RecordedStep, Records, Snapshot, Unkept};
use std::alloc::{AllocError, Global};
use std::thread::Threads;
use stream_edits::{Edit, InsertionPoint};

/// One who records so many steps, and then can't write.
#[derive(Drop)]
pub(super) struct Few {
    pub(super) left: u32,
    pub(super) ids: u32,
}

impl Few {
    /// Records a step, if that may be.
    fn keep(&mut self) -> Result<(), Unkept> {
        if self.left == 0 {
            return Err(Unkept::Unwritten);
        }
        self.left -= 1;
        Ok(())
    }
}

impl Records for Few {
    // It says of no steps that they stand, as what it is given it forgets.
    ghost stands = { λ _ _. ⊥ };

    ghost ends = { λ _ _ _. ⊥ };

    fn ids_given(&self) -> u32 {
        self.ids
    }

    fn keep_edit(&mut self, _edit: &Edit) -> Result<(), Unkept> {
        self.keep()
    }

    fn keep_group(&mut self, _edits: &[Edit]) -> Result<(), Unkept> {
        self.keep()
    }

    fn keep_load(&mut self, _edits: Vec<Edit>) -> Result<(), Unkept> {
        self.keep()
    }

    fn shorten(&mut self, _made: usize) {}

    fn clear(&mut self) -> Result<(), Unkept> {
        self.keep()
    }

    fn compact(&mut self, _snapshot: &Snapshot) -> Result<(), Unkept> {
        self.keep()
    }
}

/// The text of the unit of A.
fn text(alloc: Global) -> Result<Bytes, AllocError> {
    Bytes::copy_from_slice(alloc, A)
}

/// A load of two units, a deletion of the first, and another insertion.
fn steps(alloc: Global) -> Result<Vec<RecordedStep>, AllocError> {
    let mut loaded = Vec::new(alloc);
    loaded.push(Edit::Insert(InsertionPoint::First, text(alloc)?))?;
    loaded.push(Edit::Insert(InsertionPoint::After(AuId::new(1)), text(alloc)?))?;
    let mut group = Vec::new(alloc);
    group.push(Edit::Delete(AuId::new(1)))?;
    group.push(Edit::Replace(AuId::new(2), text(alloc)?))?;
    let mut one = Vec::new(alloc);
    one.push(Edit::Insert(InsertionPoint::After(AuId::new(2)), text(alloc)?))?;
    let mut steps = Vec::new(alloc);
    steps.push(RecordedStep::Load(EditList::new(loaded)))?;
    steps.push(RecordedStep::Edits(EditList::new(group)))?;
    steps.push(RecordedStep::Edits(EditList::new(one)))?;
    Ok(steps)
}

/// A deletion of a unit that isn't there.
fn refused(alloc: Global) -> Result<RecordedStep, AllocError> {
    let mut edits = Vec::new(alloc);
    edits.push(Edit::Delete(AuId::new(9)))?;
    Ok(RecordedStep::Edits(EditList::new(edits)))
}

/// Questions after the steps, of which two are edits.
const ASKED: &str = "{\"jsonrpc\":\"2.0\",\"id\":1,\"method\":\"undo\"}\n\
    {\"jsonrpc\":\"2.0\",\"id\":2,\"method\":\"find\",\"params\":{\"position\":1}}\n\
    {\"jsonrpc\":\"2.0\",\"method\":\"delete\",\"params\":{\"id\":3}}\n\
    {\"jsonrpc\":\"2.0\",\"id\":3,\"method\":\"find\",\"params\":{\"position\":1}}\n\
    {\"jsonrpc\":\"2.0\",\"id\":4,\"method\":\"reset\"}\n\
    {\"jsonrpc\":\"2.0\",\"id\":5,\"method\":\"delete\",\"params\":{\"id\":2}}\n\
    {\"jsonrpc\":\"2.0\",\"id\":6,\"method\":\"load\",\"params\":{\"path\":\"one\"}}\n\
    {\"jsonrpc\":\"2.0\",\"id\":7,\"method\":\"group\",\"params\":{\"edits\":[{\"delete\":{\"id\":2}}]}}\n\
    {\"jsonrpc\":\"2.0\",\"id\":8,\"method\":\"undo\"}\n\
    {\"jsonrpc\":\"2.0\",\"id\":9,\"method\":\"find\",\"params\":{\"position\":0}}\n";

/// The answer of what can't be recorded, behind its id.
const UNWRITTEN: &str =
    ",\"error\":{\"code\":25,\"message\":\"CannotWrite\",\"data\":{\"reason\":\"the file can't be written\"}}}\n";

/// The answers where one step more can be recorded: ids are as they were, and nothing can be undone
/// of the steps. What can't be recorded changes nothing.
fn answers(alloc: Global) -> Result<String, AllocError> {
    let mut text = String::new(alloc);
    text.push_str(
        "{\"jsonrpc\":\"2.0\",\"id\":1,\"error\":{\"code\":26,\"message\":\"NothingToUndo\",\"data\":{\"reason\":\"there is nothing to undo\"}}}\n",
    )?;
    text.push_str("{\"jsonrpc\":\"2.0\",\"id\":2,\"result\":{\"id\":3,\"place\":1}}\n")?;
    text.push_str("{\"jsonrpc\":\"2.0\",\"id\":3,\"result\":null}\n")?;
    for id in ["4", "5", "6", "7", "8"] {
        text.push_str("{\"jsonrpc\":\"2.0\",\"id\":")?;
        text.push_str(id)?;
        text.push_str(UNWRITTEN)?;
    }
    text.push_str("{\"jsonrpc\":\"2.0\",\"id\":9,\"result\":{\"id\":2,\"place\":0}}\n")?;
    Ok(text)
}

/// Whether the questions after these steps are answered so, where one step more can be recorded.
fn answers_after<R: AllocGlobal + Threads + Sync>(
    rt: &R,
    steps: Vec<RecordedStep>,
) -> Result<bool, AllocError> {
    let lines = answers(rt.alloc())?;
    let journal = Few { left: 1, ids: 3 };
    let (end, output) = served_by(rt, Some((journal, steps)), ASKED.as_bytes());
    Ok(end == ServeEnd::Done && output.as_slice() == lines.as_bytes())
}

/// The same of the steps above, and of a last one that the stream refuses.
fn all_answered<R: AllocGlobal + Threads + Sync>(rt: &R) -> Result<bool, AllocError> {
    let mut with_refused = steps(rt.alloc())?;
    with_refused.push(refused(rt.alloc())?)?;
    Ok(answers_after(rt, steps(rt.alloc())?)? && answers_after(rt, with_refused)?)
}

/// How a server ends whose stream refuses the first of its steps.
fn ends_unreplayed<R: AllocGlobal + Threads + Sync>(rt: &R) -> Result<bool, AllocError> {
    let mut from_refused = Vec::new(rt.alloc());
    from_refused.push(refused(rt.alloc())?)?;
    for step in steps(rt.alloc())? {
        from_refused.push(step)?;
    }
    let journal = Few { left: 1, ids: 3 };
    let (end, output) = served_by(rt, Some((journal, from_refused)), ASKED.as_bytes());
    Ok(end == ServeEnd::Unreplayed && output.is_empty())
}

/// The units of the ids 5 and 9, where twelve were given, and a deletion of the first.
fn from_snapshot(alloc: Global) -> Result<Vec<RecordedStep>, AllocError> {
    let mut units = Vec::new(alloc);
    units.push((AuId::new(5), text(alloc)?))?;
    units.push((AuId::new(9), text(alloc)?))?;
    let mut edits = Vec::new(alloc);
    edits.push(Edit::Delete(AuId::new(5)))?;
    let mut steps = Vec::new(alloc);
    steps.push(RecordedStep::Snapshot(Snapshot::new(units, 12)))?;
    steps.push(RecordedStep::Edits(EditList::new(edits)))?;
    Ok(steps)
}

/// Questions after these, of which the second can't be recorded.
const ASKED_OF_SNAPSHOT: &str = "{\"jsonrpc\":\"2.0\",\"id\":1,\"method\":\"compact\"}\n\
    {\"jsonrpc\":\"2.0\",\"id\":2,\"method\":\"compact\"}\n\
    {\"jsonrpc\":\"2.0\",\"id\":3,\"method\":\"find\",\"params\":{\"position\":0}}\n\
    {\"jsonrpc\":\"2.0\",\"id\":4,\"method\":\"journal\",\"params\":{\"from\":0,\"count\":9}}\n";

const ANSWERS_OF_SNAPSHOT: &str = "{\"jsonrpc\":\"2.0\",\"id\":1,\"result\":\"compacted\"}\n\
    {\"jsonrpc\":\"2.0\",\"id\":2,\"error\":{\"code\":25,\"message\":\"CannotWrite\",\"data\":{\"reason\":\"the file can't be written\"}}}\n\
    {\"jsonrpc\":\"2.0\",\"id\":3,\"result\":{\"id\":9,\"place\":0}}\n\
    {\"jsonrpc\":\"2.0\",\"id\":4,\"result\":[{\"edits\":[{\"delete\":{\"id\":5}}]}]}\n";

/// Whether a server that begins from a snapshot answers so.
fn begins_from_snapshot<R: AllocGlobal + Threads + Sync>(rt: &R) -> Result<bool, AllocError> {
    let journal = Few { left: 1, ids: 12 };
    let steps = from_snapshot(rt.alloc())?;
    let (end, output) = served_by(rt, Some((journal, steps)), ASKED_OF_SNAPSHOT.as_bytes());
    Ok(end == ServeEnd::Done && output.as_slice() == ANSWERS_OF_SNAPSHOT.as_bytes())
}

#[test]
fn a_server_begins_from_a_snapshot(rt: HostRuntime) {
    assert!(rt; begins_from_snapshot(&rt) == Ok(true));
}

#[test]
fn recorded_steps_are_made_again(rt: HostRuntime) {
    assert!(rt; all_answered(&rt) == Ok(true));
}

#[test]
fn a_refused_record_ends_a_server(rt: HostRuntime) {
    assert!(rt; ends_unreplayed(&rt) == Ok(true));
}
