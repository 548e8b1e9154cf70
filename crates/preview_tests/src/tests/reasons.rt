//! What standard error says behind a failure, on files over memory.

use super::{A, row_holds};
use cli::explain;
use failure_reasons::Again;
use std::alloc::AllocError;
use std::io;
use std::io::{Error, ErrorKind, Read};
use std::process::Abort;
use std::test::Fail;

/// A file: its bytes, and why it fails behind them, if it does.
#[derive(Drop)]
struct Page {
    left: &'static [u8],
    end: Option<ErrorKind>,
}

impl Read for Page {
    fn read(&mut self, buf: &mut [u8]) -> io::Result<usize> {
        match self.end {
            Some(kind) if self.left.is_empty() => Err(Error::from(kind)),
            _ => self.left.read(buf),
        }
    }
}

/// Files by name.
#[derive(Drop)]
struct Shelf;

impl Again for Shelf {
    type File = Page;

    fn open_again(&self, name: &str) -> io::Result<Option<Page>> {
        let (left, end): (&'static [u8], Option<ErrorKind>) = match name {
            "a.264" => (&A, None),
            "cut.264" => (CUT, None),
            "text" => (b"no stream", None),
            "folder" => (b"", Some(ErrorKind::IsADirectory)),
            "half.264" => (&A, Some(ErrorKind::Other)),
            "half.script" => (b"undo\n", Some(ErrorKind::Other)),
            "mark.script" => (b"mark\nload a.264\n", None),
            "undo.script" => (b"load a.264\nundo\n", None),
            "loads.script" => (LOADS, None),
            "pipe" => return Ok(None),
            _ => return Err(Error::from(ErrorKind::NotFound)),
        };
        Ok(Some(Page { left, end }))
    }
}

/// A, and a sequence parameter set whose forbidden_zero_bit is 1.
const CUT: &[u8] = &[
    0, 0, 1, 0x67, 0x42, 0x00, 0x0A, 0xDA, 0x79, 0, 0, 1, 0x68, 0xCE, 0x38, 0x80, 0, 0, 1, 0x65,
    0x88, 0x84, 0x80, 0, 0, 1, 0xE7, 0x42, 0x00, 0x0A, 0xDA, 0x79,
];

/// A script that loads a text, a stream, a file that isn't there, and the text once more.
const LOADS: &[u8] = b"load text\nload a.264\nshow 1\nload nowhere\nload text\n";

const OF_TEXT: &str =
    "text: a text file, not a byte stream of H.264 (Annex B); see: preview check text\n";

const OF_MARK: &str = "line 1: mark takes nothing, and is for run without workers\n";

/// Words after the program's name, and what is said behind their failure. The system's words are
/// those of the kinds of errors.
const ROWS: [(&[&str], &str); 25] = [
    (&["plan", "text"], OF_TEXT),
    (&["plan", "--json", "text"], OF_TEXT),
    (&["draw", "text"], OF_TEXT),
    (
        &["plan", "cut.264"],
        "cut.264: access unit at index 1: forbidden_zero_bit of a NAL unit is 1: it is damaged (7.4.1); \
see: preview check cut.264\n",
    ),
    // A file that can't be read, of which none is there or a read fails.
    (
        &["plan", "nowhere"],
        "nowhere: entity not found; see: preview check nowhere\n",
    ),
    (
        &["draw", "folder"],
        "folder: is a directory; see: preview check folder\n",
    ),
    (
        &["plan", "half.264"],
        "half.264: other error; see: preview check half.264\n",
    ),
    // What is right, and what can't be read twice.
    (&["plan", "a.264"], ""),
    (&["plan", "pipe"], ""),
    (&["plan", "-"], ""),
    (&["run", "-"], ""),
    (&["run", "pipe"], ""),
    (&["run", "mark.script"], ""),
    // Commands whose failures have reasons of their own, or no file.
    (&["mend", "text"], ""),
    (&["check", "text"], ""),
    (&["serve"], ""),
    (&["bogus"], ""),
    // Scripts.
    (&["run", "nowhere"], "nowhere: entity not found\n"),
    (&["run", "half.script"], "half.script: other error\n"),
    (&["run", "undo.script"], "line 2: no command \"undo\"\n"),
    (&["run", "--workers", "1", "mark.script"], OF_MARK),
    (&["audit", "mark.script"], OF_MARK),
    (
        &["run", "loads.script"],
        "text: a text file, not a byte stream of H.264 (Annex B); see: preview check text\n\
nowhere: entity not found; relative paths in a script start at the working directory; \
see: preview check nowhere\n",
    ),
    (&["draw", "a.264", "--edits", "mark.script"], OF_MARK),
    (&["draw", "text", "--edits", "mark.script"], OF_TEXT),
];

/// Whether just this is said behind a failure of the words after the program's name.
fn is_said(
    rt: &(impl Abort + AllocGlobal),
    words: &[&str],
    told: &str,
) -> Result<bool, AllocError> {
    let mut all = Vec::new(rt.alloc());
    all.push("preview")?;
    all.extend_from_slice(words)?;
    let mut errors = Vec::new(rt.alloc());
    let answer = explain(rt.alloc(), all.as_slice(), &Shelf, &mut errors);
    Ok(answer == Ok(()) && errors.as_slice() == told.as_bytes())
}

#[test]
fn says_why_files_and_scripts_are_not_taken(rt: HostRuntime) -> Result<(), Fail> {
    for (row, (words, told)) in ROWS.iter().enumerate() {
        row_holds(&rt, row, is_said(&rt, *words, *told)?);
    }
    Ok(())
}
