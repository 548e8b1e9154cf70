//! Which files are opened as journals.

use super::{holds, refusal, row_holds};
use edit_journal::{JournalFault, Wary, open};
use std::test::Fail;
use std::{fs, io};

/// What the first page of a new journal begins with.
const BEGUN: [&[u8]; 2] = [b"", b"SQLite format 3\0"];

/// What a journal of version 1 begins with.
const EARLIER: [u8; 72] = [
    83, 81, 76, 105, 116, 101, 32, 102, 111, 114, 109, 97, 116, 32, 51, 0, 16, 0, 2, 2, 8, 64, 32,
    32, 0, 0, 0, 1, 0, 0, 0, 1, 0, 0, 0, 0, 0, 0, 0, 0, 0, 0, 0, 0, 0, 0, 0, 4, 0, 0, 0, 0, 0, 0,
    0, 0, 0, 0, 0, 1, 0, 0, 0, 1, 0, 0, 0, 0, 67, 80, 74, 76,
];

/// A text, a database of other pages that has no mark of a journal, and a journal of another version.
const OTHERS: [&[u8]; 3] = [b"no journal", b"SQLite format 3\0\x04\0\x01\x01", &EARLIER];

/// Whether the file with this text is opened as a journal without lines.
fn is_new(rt: &HostRuntime, text: &[u8]) -> io::Result<bool> {
    fs::write(rt, "begun.db", text)?;
    let is_new = holds(rt, "begun.db", &[]);
    fs::remove_file(rt, "begun.db")?;
    fs::remove_file(rt, "begun.db-wal")?;
    Ok(is_new)
}

#[test]
fn a_file_that_ends_within_the_first_page_is_new(rt: HostRuntime) -> Result<(), Fail> {
    for (row, text) in BEGUN.iter().enumerate() {
        row_holds(&rt, row, is_new(&rt, text)?);
    }
    Ok(())
}

/// Whether the file with this text is refused, and left as it is.
fn is_refused(rt: &HostRuntime, text: &[u8]) -> io::Result<bool> {
    fs::write(rt, "other.db", text)?;
    let refused = refusal(rt, "other.db");
    let left = fs::read(rt, "other.db")?;
    fs::remove_file(rt, "other.db")?;
    Ok(refused == Some(JournalFault::NotAJournal) && left.as_slice() == text)
}

#[test]
fn another_file_is_refused_and_left(rt: HostRuntime) -> Result<(), Fail> {
    for (row, text) in OTHERS.iter().enumerate() {
        row_holds(&rt, row, is_refused(&rt, text)?);
    }
    Ok(())
}

/// Why a second opening is refused while the first one stands.
fn second_refusal(rt: &HostRuntime, path: &str) -> Option<JournalFault> {
    match open(rt, path, Wary) {
        Ok((_journal, _lines)) => refusal(rt, path),
        Err(_) => None,
    }
}

#[test]
fn a_second_opening_is_refused(rt: HostRuntime) -> Result<(), Fail> {
    assert!(rt; second_refusal(&rt, "second.db") == Some(JournalFault::Locked));
    assert!(rt; holds(&rt, "second.db", &[]));
    fs::remove_file(&rt, "second.db")?;
    fs::remove_file(&rt, "second.db-wal")?;
    Ok(())
}
