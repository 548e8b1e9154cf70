//! Journals that are written anew with a snapshot.

use super::row_holds;
use bytes::Bytes;
use edit_journal::{FileJournal, JournalFault, Kind, RowStep, Wary, open};
use h264_types::pictures::AuId;
use session_journal::{Journals, RecordedStep, Records, SessionFile, Snapshot, Unkept};
use std::alloc::{AllocError, Global};
use std::fs;
use std::test::Fail;
use stream_edits::{Edit, InsertionPoint};

/// An id and the text of its unit.
type Unit = (u32, &'static [u8]);

/// Units whose ids have gaps, and aren't in order.
const UNITS: [Unit; 3] = [(7, &[1, 2]), (3, &[3]), (4, &[])];

/// How many ids were given: more than there are units, and more than the ids of these say.
const GIVEN: u32 = 9;

/// The snapshot of these units.
fn snapshot(alloc: Global, units: &[Unit]) -> Result<Snapshot, AllocError> {
    let mut texts = Vec::new(alloc);
    for unit in units {
        texts.push((AuId::new(unit.0), Bytes::from_static(unit.1)))?;
    }
    Ok(Snapshot::new(texts, GIVEN))
}

fn insertion() -> Edit {
    Edit::Insert(InsertionPoint::First, Bytes::from_static(&[5]))
}

/// Records an edit, puts the snapshot in its place, which nothing takes off, and records another one.
fn compact(journal: &mut SessionFile, snapshot: &Snapshot) -> Result<(), Unkept> {
    journal.keep_edit(&insertion())?;
    journal.compact(snapshot)?;
    journal.shorten(0);
    journal.keep_edit(&insertion())
}

/// The same in the file.
fn compact_in(rt: &HostRuntime, path: &str, units: &[Unit]) -> bool {
    let Ok(snapshot) = snapshot(rt.alloc(), units) else {
        return false;
    };
    match rt.open_journal(rt.alloc(), path) {
        Ok((mut journal, _steps)) => compact(&mut journal, &snapshot).is_ok(),
        Err(_) => false,
    }
}

fn are(units: &[(AuId, Bytes)], wanted: &[Unit]) -> bool {
    if units.len() != wanted.len() {
        return false;
    }
    for (unit, wanted) in units.iter().zip(wanted) {
        if unit.0.number() != wanted.0 || unit.1.as_slice() != wanted.1 {
            return false;
        }
    }
    true
}

/// Whether the step is the snapshot of these units.
fn is_snapshot(step: &RecordedStep, wanted: &[Unit]) -> bool {
    match step {
        RecordedStep::Snapshot(snapshot) => {
            are(snapshot.units(), wanted) && snapshot.ids_given() == GIVEN
        }
        _ => false,
    }
}

/// Whether the file is opened with the snapshot of these units and one step behind it.
fn holds(rt: &HostRuntime, path: &str, wanted: &[Unit]) -> bool {
    match rt.open_journal(rt.alloc(), path) {
        Ok((journal, steps)) => match steps.split_first() {
            Some((first, more)) => {
                is_snapshot(first, wanted) && more.len() == 1 && journal.ids_given() == GIVEN + 1
            }
            None => false,
        },
        Err(_) => false,
    }
}

#[test]
fn a_snapshot_is_read_back(rt: HostRuntime) -> Result<(), Fail> {
    for (row, units) in [&UNITS[..], &UNITS[..0]].iter().enumerate() {
        row_holds(&rt, row, compact_in(&rt, "compact.db", units));
        row_holds(&rt, row, holds(&rt, "compact.db", units));
    }
    fs::remove_file(&rt, "compact.db")?;
    fs::remove_file(&rt, "compact.db-wal")?;
    Ok(())
}

/// A row without a text.
fn row(kind: Kind, id: u32) -> RowStep {
    RowStep {
        kind,
        id,
        named: 0,
        text: Bytes::new(),
    }
}

/// Adds the record of a deletion, and behind it one of a stream without units.
fn append(journal: &mut FileJournal<Wary>) -> Result<(), JournalFault> {
    journal.append(&[row(Kind::Delete, 1)])?;
    journal.append(&[row(Kind::Given, 1)])
}

/// The same in the file.
fn append_to(rt: &HostRuntime, path: &str) -> bool {
    match open(rt, path, Wary) {
        Ok((mut journal, _lines)) => append(&mut journal).is_ok(),
        Err(_) => false,
    }
}

/// Why the file isn't opened as the journal of a session.
fn refusal(rt: &HostRuntime, path: &str) -> Option<JournalFault> {
    rt.open_journal(rt.alloc(), path).err()
}

#[test]
fn a_snapshot_behind_another_record_is_refused(rt: HostRuntime) -> Result<(), Fail> {
    assert!(rt; append_to(&rt, "behind.db"));
    assert!(rt; refusal(&rt, "behind.db") == Some(JournalFault::NotAJournal));
    fs::remove_file(&rt, "behind.db")?;
    fs::remove_file(&rt, "behind.db-wal")?;
    Ok(())
}
