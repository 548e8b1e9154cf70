//! Records of a journal in a file, read back.

use super::{Row, holds};
use bytes::Bytes;
use edit_journal::{FileJournal, JournalFault, Kind, RowStep, Wary, open};
use std::fs::{self, File};
use std::io;
use std::test::Fail;

const GROUP: [Row; 2] = [
    (1, 0, Kind::InsertFirst, 1, 0, 2),
    (1, 1, Kind::Insert, 2, 1, 1),
];

const GROUP_AND_LOAD: [Row; 4] = [
    (1, 0, Kind::InsertFirst, 1, 0, 2),
    (1, 1, Kind::Insert, 2, 1, 1),
    (2, 0, Kind::Load, 0, 0, 0),
    (2, 1, Kind::Delete, 1, 0, 0),
];

const GROUP_AND_DELETION: [Row; 3] = [
    (1, 0, Kind::InsertFirst, 1, 0, 2),
    (1, 1, Kind::Insert, 2, 1, 1),
    (2, 0, Kind::Delete, 2, 0, 0),
];

const SHORTENED: [Row; 4] = [
    (1, 0, Kind::InsertFirst, 1, 0, 2),
    (1, 1, Kind::Insert, 2, 1, 1),
    (2, 0, Kind::Load, 0, 0, 0),
    (3, 0, Kind::Delete, 2, 0, 0),
];

const REWRITTEN: [Row; 2] = [(1, 0, Kind::Unit, 2, 0, 1), (1, 1, Kind::Given, 2, 0, 0)];

fn step(kind: Kind, id: u32, named: u32, text: &'static [u8]) -> RowStep {
    RowStep {
        kind,
        id,
        named,
        text: Bytes::from_static(text),
    }
}

fn append(journal: &mut FileJournal<Wary>) -> Result<(), JournalFault> {
    journal.append(&[
        step(Kind::InsertFirst, 1, 0, &[1, 2]),
        step(Kind::Insert, 2, 1, &[3]),
    ])?;
    journal.append(&[step(Kind::Load, 0, 0, &[]), step(Kind::Delete, 1, 0, &[])])
}

/// Appends a group and a load to the journal in the file.
fn append_to(rt: &HostRuntime, path: &str) -> bool {
    match open(rt, path, Wary) {
        Ok((mut journal, _lines)) => append(&mut journal).is_ok(),
        Err(_) => false,
    }
}

fn rewrite(journal: &mut FileJournal<Wary>) -> Result<(), JournalFault> {
    journal.rewrite(&[step(Kind::Unit, 2, 0, &[3]), step(Kind::Given, 2, 0, &[])])
}

/// Puts the record of a stream in the place of what the file has.
fn rewrite_in(rt: &HostRuntime, path: &str) -> bool {
    match open(rt, path, Wary) {
        Ok((mut journal, _lines)) => rewrite(&mut journal).is_ok(),
        Err(_) => false,
    }
}

#[test]
fn records_are_read_back(rt: HostRuntime) -> Result<(), Fail> {
    assert!(rt; append_to(&rt, "back.db"));
    assert!(rt; holds(&rt, "back.db", &GROUP_AND_LOAD));
    assert!(rt; rewrite_in(&rt, "back.db"));
    assert!(rt; holds(&rt, "back.db", &REWRITTEN));
    fs::remove_file(&rt, "back.db")?;
    fs::remove_file(&rt, "back.db-wal")?;
    Ok(())
}

/// Leaves the first `kept` of the two steps of the file's last record, and appends a deletion.
fn shorten_in(rt: &HostRuntime, path: &str, kept: u32) -> Result<(), JournalFault> {
    let (mut journal, _lines) = open(rt, path, Wary)?;
    journal.shorten(2, kept)?;
    journal.append(&[step(Kind::Delete, 2, 0, &[])])
}

#[test]
fn a_record_that_is_taken_off_frees_its_number(rt: HostRuntime) -> Result<(), Fail> {
    assert!(rt; append_to(&rt, "off.db"));
    shorten_in(&rt, "off.db", 0)?;
    assert!(rt; holds(&rt, "off.db", &GROUP_AND_DELETION));
    fs::remove_file(&rt, "off.db")?;
    fs::remove_file(&rt, "off.db-wal")?;
    Ok(())
}

/// Whether taking five rows off the file's four is refused.
fn refuses_five(rt: &HostRuntime, path: &str) -> Result<bool, JournalFault> {
    let (mut journal, _lines) = open(rt, path, Wary)?;
    Ok(journal.shorten(6, 1) == Err(JournalFault::TooLarge))
}

#[test]
fn a_shortened_record_has_its_first_steps(rt: HostRuntime) -> Result<(), Fail> {
    assert!(rt; append_to(&rt, "short.db"));
    shorten_in(&rt, "short.db", 1)?;
    assert!(rt; refuses_five(&rt, "short.db")?);
    assert!(rt; holds(&rt, "short.db", &SHORTENED));
    fs::remove_file(&rt, "short.db")?;
    fs::remove_file(&rt, "short.db-wal")?;
    Ok(())
}

/// Cuts the last thousand bytes off the file.
fn cut(rt: &HostRuntime, path: &str) -> io::Result<()> {
    let file = File::options().write(true).open(rt, path)?;
    let length = file.metadata()?.len();
    file.set_len(length.saturating_sub(1000))
}

#[test]
fn a_torn_record_is_not_read(rt: HostRuntime) -> Result<(), Fail> {
    assert!(rt; append_to(&rt, "torn.db"));
    cut(&rt, "torn.db-wal")?;
    assert!(rt; holds(&rt, "torn.db", &GROUP));
    fs::remove_file(&rt, "torn.db")?;
    fs::remove_file(&rt, "torn.db-wal")?;
    Ok(())
}
