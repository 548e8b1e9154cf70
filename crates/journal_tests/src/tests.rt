mod compacted;
mod files;
mod records;
mod sessions;

use edit_journal::{JournalFault, Kind, Line, Wary, open};
use std::process::Abort;

/// A line: its record, the place there, what it does, the two ids, and how long its text is.
type Row = (u32, u32, Kind, u32, u32, usize);

/// Asserts what a row of a table says.
fn row_holds(rt: &impl Abort, row: usize, holds: bool) {
    assert!(rt; holds, "row {row}");
}

fn is_row(line: &Line, wanted: &Row) -> bool {
    let step = &line.step;
    let row = (
        line.entry,
        line.place,
        step.kind,
        step.id,
        step.named,
        step.text.len(),
    );
    row == *wanted
}

fn are(lines: &[Line], wanted: &[Row]) -> bool {
    if lines.len() != wanted.len() {
        return false;
    }
    for (line, wanted) in lines.iter().zip(wanted) {
        if !is_row(line, wanted) {
            return false;
        }
    }
    true
}

/// Whether the file is opened as a journal with these lines.
fn holds(rt: &HostRuntime, path: &str, wanted: &[Row]) -> bool {
    match open(rt, path, Wary) {
        Ok((_journal, lines)) => are(&lines, wanted),
        Err(_) => false,
    }
}

/// Why the file isn't opened.
fn refusal(rt: &HostRuntime, path: &str) -> Option<JournalFault> {
    open(rt, path, Wary).err()
}
