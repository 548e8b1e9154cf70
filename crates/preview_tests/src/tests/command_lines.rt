//! Command lines on files and a standard input over memory: the status, and what each stream gets.

use super::writers::{End, ShortWriter};
use super::{A, LINES_OF_A, P1, empty_console, row_holds};
use Status::{Failure, Success, Usage};
use bytes::Bytes;
use cli::{run, run_on};
use console_io::file_saving::{Saving, Unsaved};
use console_io::{Console, Directory, Ended, Inputs, PrintFault, Status};
use failure_reasons::Explain;
use session_journal::{JournalFault, Journals, RecordedStep, SessionFile};
use std::alloc::{AllocError, Global};
use std::io;
use std::io::{ErrorKind, Read};
use std::process::Abort;
use std::sync::Wait;
use std::test::Fail;
use std::thread::Threads;

/// A file that, as those of the system, doesn't declare what it holds.
#[derive(Drop)]
pub(super) struct Text {
    left: &'static [u8],
}

impl Read for Text {
    fn read(&mut self, buf: &mut [u8]) -> io::Result<usize> {
        self.left.read(buf)
    }
}

/// Files by name.
#[derive(Drop)]
pub(super) struct Folder;

impl Directory for Folder {
    type File = Text;

    fn open(&self, name: &str) -> Result<Text, ErrorKind> {
        let left: &'static [u8] = match name {
            "a.264" => &A,
            "-" => b"no stream",
            "a.script" => b"load a.264\nunit 1\n",
            "b.script" => b"load b.264\n",
            "c.script" => b"\nunit 1 2\n",
            "repair" => REPAIR,
            "edited" => EDITED,
            "grouped" => GROUPED,
            "memory" => return Err(ErrorKind::OutOfMemory),
            "forbidden" => return Err(ErrorKind::PermissionDenied),
            "folder" => return Err(ErrorKind::IsADirectory),
            _ => return Err(ErrorKind::NotFound),
        };
        Ok(Text { left })
    }
}

impl Saving for Folder {
    // Nothing is saved.
    fn save(&self, _alloc: Global, _name: &str, _texts: &[Bytes]) -> Result<(), Unsaved> {
        Err(Unsaved::Unwritten)
    }
}

impl Journals for Folder {
    type Journal = SessionFile;

    // One can't be read, and the other isn't one.
    fn open_journal(
        &self,
        _alloc: Global,
        name: &str,
    ) -> Result<(SessionFile, Vec<RecordedStep>), JournalFault> {
        if name == "a.264" {
            return Err(JournalFault::NotAJournal);
        }
        Err(JournalFault::Failed)
    }
}

impl Explain for Folder {
    // Nobody is told.
    fn explain(&self, _alloc: Global, _name: &str) {}
}

/// What a run on the words after the program's name writes on its output and on standard error.
#[derive(Drop)]
pub(super) struct Written {
    pub(super) ended: Ended,
    pub(super) output: Vec<u8>,
    pub(super) errors: Vec<u8>,
}

/// The program's name and these words after it.
fn named<'a>(alloc: Global, words: &[&'a str]) -> Result<Vec<&'a str>, AllocError> {
    let mut all = Vec::new(alloc);
    all.push("preview")?;
    all.extend_from_slice(words)?;
    Ok(all)
}

/// A run on the words after the program's name.
pub(super) fn run_with(
    rt: &(impl Abort + AllocGlobal + Threads + Wait + Sync),
    words: &[&str],
    standard: &'static [u8],
) -> Result<Written, AllocError> {
    let all = named(rt.alloc(), words)?;
    let inputs = Inputs {
        directory: &Folder,
        standard,
    };
    let mut console = empty_console(rt.alloc());
    let ended = run_on(rt, rt.alloc(), all.as_slice(), inputs, &mut console);
    let Console { output, errors } = console;
    Ok(Written {
        ended,
        output,
        errors,
    })
}

/// The words after the program's name, the standard input, the status and what is written on both
/// streams.
type Ran = (
    &'static [&'static str],
    &'static [u8],
    Status,
    &'static str,
    &'static str,
);

const RUNS: [Ran; 42] = [
    (&["plan", "a.264"], &P1, Success, LINES_OF_A, ""),
    (
        &["plan", "-"],
        &P1,
        Success,
        "unit 1 fault 1 MissingPps\n",
        "",
    ),
    (
        &["plan", "-"],
        b"no stream",
        Failure,
        "refused 1 Split\n",
        "",
    ),
    (&["plan", "b.264"], &A, Failure, "", "cannot read b.264\n"),
    (
        &["plan", "forbidden"],
        &A,
        Failure,
        "",
        "cannot read forbidden\n",
    ),
    (&["plan", "folder"], &A, Failure, "", "cannot read folder\n"),
    (&["plan", "memory"], &A, Failure, "", "out of memory\n"),
    (
        &["draw", "-"],
        b"no stream",
        Failure,
        "refused 1 Split\n",
        "",
    ),
    (&["draw", "b.264"], &A, Failure, "", "cannot read b.264\n"),
    (&["draw", "memory"], &A, Failure, "", "out of memory\n"),
    (
        &["run", "-"],
        b"json 4294967297\n",
        Success,
        "{\"unit\":4294967297,\"none\":true}\n",
        "",
    ),
    (
        &["run", "--workers", "1", "-"],
        b"show 1\njson 1\n",
        Failure,
        "",
        "script fault at line 2\n",
    ),
    (&["run", "a.script"], &P1, Success, LOADED_A, ""),
    (&["run", "-"], b"unit 7\n", Success, "unit 7 none\n", ""),
    (&["run", "b.script"], &A, Failure, "", "cannot read b.264\n"),
    (
        &["run", "c.script"],
        &A,
        Failure,
        "",
        "script fault at line 2\n",
    ),
    (
        &["run", "d.script"],
        &A,
        Failure,
        "",
        "cannot read d.script\n",
    ),
    (&["run", "memory"], &A, Failure, "", "out of memory\n"),
    (
        &["run", "-"],
        b"load memory\n",
        Failure,
        "",
        "out of memory\n",
    ),
    (&["run", "-"], b"load -\n", Success, "refused 1 Split\n", ""),
    (&["run", "-"], SHOW_A, Success, SHOWN_A, ""),
    (&["run", "--hex", "-"], SHOW_A, Success, HASHED_A, ""),
    (&["--version"], &A, Success, "preview 0.3.0\n", ""),
    (&["-V"], &A, Success, "preview 0.3.0\n", ""),
    // Beside workers: the same, but of jobs and of a unit's lines nothing can be asked.
    (
        &["run", "repair", "--workers", "2"],
        &A,
        Success,
        REPAIRED,
        "",
    ),
    (&["run", "repair"], &A, Success, REPAIRED, ""),
    (
        &["run", "--hex", "--workers", "64", "-"],
        SHOW_A,
        Success,
        HASHED_A,
        "",
    ),
    (
        &["run", "--workers", "1", "a.script"],
        &A,
        Failure,
        "",
        "script fault at line 2\n",
    ),
    // What is wanted first. Where the rest isn't decoded, nothing else is.
    (
        &["run", "--workers", "2", "-"],
        WANTED,
        Success,
        DECODED,
        "",
    ),
    (
        &["audit", "-"],
        WANTED,
        Success,
        "agreed 4 edits 6 shows\n",
        "",
    ),
    (
        &["run", "--workers", "1", "-"],
        MANY,
        Success,
        "refused 22 TooManyWanted\nwanted 64\n",
        "",
    ),
    (
        &["run", "--workers", "1", "-"],
        b"settle 1\ntake 1\n",
        Failure,
        "",
        "script fault at line 2\n",
    ),
    (
        &["run", "--workers", "1", "-"],
        b"want 1 2 x\n",
        Failure,
        "",
        "script fault at line 1\n",
    ),
    (
        &["audit", "edited"],
        &A,
        Success,
        "agreed 3 edits 2 shows\n",
        "",
    ),
    // A file that is no journal, and one that can't be read.
    (
        &["serve", "--journal", "a.264"],
        &A,
        Failure,
        "",
        "not a journal: a.264\n",
    ),
    (
        &["serve", "--workers", "0", "--journal", "b.journal"],
        &A,
        Failure,
        "",
        "cannot read or write the journal: b.journal\n",
    ),
    // A group counts as one edit.
    (
        &["audit", "grouped", "--workers", "2"],
        &A,
        Success,
        "agreed 4 edits 2 shows\n",
        "",
    ),
    (
        &["run", "grouped", "--workers", "2"],
        &A,
        Success,
        ANSWERED,
        "",
    ),
    (
        &["audit", "--workers", "1", "--cache", "1", "-"],
        SHOW_A,
        Success,
        "agreed 1 edits 1 shows\n",
        "",
    ),
    (
        &["audit", "b.script"],
        &A,
        Failure,
        "",
        "cannot read b.264\n",
    ),
    (
        &["audit", "d.script"],
        &A,
        Failure,
        "",
        "cannot read d.script\n",
    ),
    (
        &["audit", "c.script"],
        &A,
        Failure,
        "",
        "script fault at line 2\n",
    ),
];

/// A unit that is deleted and inserted again, and what answers that.
const REPAIR: &[u8] = b"insert first 000001 6742000ADA79 000001 68CE3880 000001 65888480\n\
insert after 1 000001 419A23\n\
insert after 2 000001 419A43\n\
settle\n\
delete 2\n\
insert after 1 000001 419A23\n\
show 3\n\
show 4\n";

const REPAIRED: &str = "edit 1 id 1\nedit 2 id 2\nedit 3 id 3\nsettled\nedit 4 id 2\nedit 5 id 4\n\
show 3 ready\nshow 4 ready\n";

/// Three edits, and two shows: of a picture, and of a unit with a fault.
const EDITED: &[u8] = b"insert first 000001 6742000ADA79 000001 68CE3880 000001 65888480\n\
insert after 1 000001 419A23\n\
settle\n\
show 2\n\
delete 1\n\
show 2\n";

/// Two IDR pictures with one that refers to each, of which a part is wanted. Then a picture is
/// dropped, and made again where it is wanted.
const WANTED: &[u8] = b"rest off\n\
insert first 000001 6742000ADA79 000001 68CE3880 000001 65888480\n\
insert after 1 000001 419A23\n\
insert after 2 000001 65888481\n\
insert after 3 000001 419A23\n\
want 4 9\n\
settle\n\
show 4\n\
show 3\n\
show 2\n\
want\n\
drop 4\n\
drop 4\n\
drop 9\n\
clear\n\
settle\n\
show 4\n\
settle 4\n\
show 4\n\
rest on\n\
settle\n\
show 2\n";

const DECODED: &str =
    "rest off\nedit 1 id 1\nedit 2 id 2\nedit 3 id 3\nedit 4 id 4\nwanted 2\nsettled\n\
show 4 ready\nshow 3 ready\nshow 2 pending\nwanted 0\ndrop 4 dropped\ndrop 4 not held\ndrop 9 none\n\
cleared\nsettled\nshow 4 pending\nsettled\nshow 4 ready\nrest on\nsettled\nshow 2 ready\n";

/// 65 ids that are wanted, and 64.
const MANY: &[u8] =
    b"want 1 2 3 4 5 6 7 8 9 10 11 12 13 14 15 16 17 18 19 20 21 22 23 24 25 26 27 28 29 30 31 32 \
33 34 35 36 37 38 39 40 41 42 43 44 45 46 47 48 49 50 51 52 53 54 55 56 57 58 59 60 61 62 63 64 65\n\
want 1 1 1 1 1 1 1 1 1 1 1 1 1 1 1 1 1 1 1 1 1 1 1 1 1 1 1 1 1 1 1 1 \
1 1 1 1 1 1 1 1 1 1 1 1 1 1 1 1 1 1 1 1 1 1 1 1 1 1 1 1 1 1 1 1\n";

/// Three edits, and a group that deletes a unit and inserts it again.
const GROUPED: &[u8] = b"insert first 000001 6742000ADA79 000001 68CE3880 000001 65888480\n\
insert after 1 000001 419A23\n\
insert after 2 000001 419A43\n\
settle\n\
group\n\
delete 2\n\
insert after 1 000001 419A23\n\
end\n\
show 3\n\
show 4\n";

const ANSWERED: &str = "edit 1 id 1\nedit 2 id 2\nedit 3 id 3\nsettled\ngroup 4 ids 2 4\n\
show 3 ready\nshow 4 ready\n";

/// A script that shows the picture of A, and its lines without and with the hash, which is one of
/// stand_in_device's tests.
const SHOW_A: &[u8] = b"load a.264\nsettle\nshow 1\n";

const SHOWN_A: &str = "loaded 1\nsettled\nshow 1 ready\n";

const HASHED_A: &str = "loaded 1\nsettled\n\
show 1 ready 0ac6f5c6bc064c436309c18b3d1b605ad60f7de3724081b84ff01aac2c3954cf\n";

const LOADED_A: &str = "loaded 1\nunit 1 position 0 counts 0 0 requests 1\n\
request 1.0 ts 1000 bits 25 type 2 frame 0 dpb - l0 - l1 - hold 0\n";

/// Whether the row's run ends so and writes just that.
fn run_holds(
    rt: &(impl Abort + AllocGlobal + Threads + Wait + Sync),
    row: &Ran,
) -> Result<bool, AllocError> {
    let got = run_with(rt, row.0, row.1)?;
    let (status, told) = (row.2, Ok(()));
    Ok(
        got.ended == Ended { status, told }
            && got.output.as_slice() == row.3.as_bytes()
            && got.errors.as_slice() == row.4.as_bytes(),
    )
}

#[test]
fn does_what_the_words_name(rt: HostRuntime) -> Result<(), Fail> {
    for (row, it) in RUNS.iter().enumerate() {
        row_holds(&rt, row, run_holds(&rt, it)?);
    }
    Ok(())
}

/// The words after the program's name, the status, and a part of the text: at success that of the
/// output, else of standard error, where the other one is empty.
pub(super) type Answer = (&'static [&'static str], Status, &'static str);

const ANSWERS: [Answer; 38] = [
    (&[], Usage, "Usage: preview <COMMAND>"),
    (&["plan"], Usage, "<FILE>"),
    (&["plan", "a", "b"], Usage, "'b'"),
    (&["paint", "a"], Usage, "'paint'"),
    (&["plan", "--hex", "a"], Usage, "'--hex'"),
    (&["--help"], Success, "Usage: preview <COMMAND>"),
    (
        &["plan", "--help"],
        Success,
        "Usage: preview plan [OPTIONS] <FILE>",
    ),
    (
        &["help", "plan"],
        Success,
        "Usage: preview plan [OPTIONS] <FILE>",
    ),
    (
        &["draw", "a.264"],
        Success,
        "<title>unit 1 position 0 counts 0 0 requests 1\n",
    ),
    (
        &["draw", "a.264", "--from", "2", "--units", "1000"],
        Success,
        "H.264 stream of 1 units: none is shown",
    ),
    (&["draw"], Usage, "<FILE>"),
    (&["draw", "--units", "0", "a.264"], Usage, "'0'"),
    (&["draw", "--units", "1001", "a.264"], Usage, "'1001'"),
    (&["draw", "--from", "-1", "a.264"], Usage, "'-1'"),
    (
        &["draw", "--from", "4294967296", "a.264"],
        Usage,
        "'4294967296'",
    ),
    (
        &["draw", "--help"],
        Success,
        "Usage: preview draw [OPTIONS] <FILE>",
    ),
    (&["run"], Usage, "<SCRIPT>"),
    (&["run", "--hex", "a", "--hex"], Usage, "'--hex'"),
    (&["run", "--workers", "65", "a"], Usage, "'65'"),
    (&["run", "--workers", "x", "a"], Usage, "'x'"),
    (&["audit"], Usage, "<SCRIPT>"),
    (&["audit", "--workers", "0", "a"], Usage, "'0'"),
    (&["audit", "--workers", "65", "a"], Usage, "'65'"),
    (&["audit", "--cache", "4097", "a"], Usage, "'4097'"),
    (&["audit", "--hex", "a"], Usage, "'--hex'"),
    (
        &["audit", "--help"],
        Success,
        "Usage: preview audit [OPTIONS] <SCRIPT>",
    ),
    (
        &["audit", "--workers", "64", "no"],
        Failure,
        "cannot read no\n",
    ),
    (
        &["run", "no", "--workers", "64"],
        Failure,
        "cannot read no\n",
    ),
    (&["run", "--cache", "0", "a"], Usage, "'0'"),
    (&["run", "--cache", "4097", "a"], Usage, "'4097'"),
    (
        &["run", "--help"],
        Success,
        "Usage: preview run [OPTIONS] <SCRIPT>",
    ),
    (
        &["run", "--cache", "1", "--workers", "0", "no/such"],
        Failure,
        "cannot read no/such\n",
    ),
    (&["run", "--hex", "no"], Failure, "cannot read no\n"),
    (&["plan", "no", "--json"], Failure, "cannot read no\n"),
    // Each of many words is looked at.
    (
        &["run", "--cache", "5", "--workers", "2", "--hex", "no"],
        Failure,
        "cannot read no\n",
    ),
    (
        &["run", "--cache", "5", "no", "--workers", "2", "--hexa"],
        Usage,
        "'--hexa'",
    ),
    (
        &["audit", "--cache", "5", "no", "--workers", "65"],
        Usage,
        "'65'",
    ),
    (
        &["run", "no", "--cache", "4096"],
        Failure,
        "cannot read no\n",
    ),
];

/// Whether the row's words are answered so, on one stream alone.
pub(super) fn answer_holds(
    rt: &(impl Abort + AllocGlobal + Threads + Wait + Sync),
    row: &Answer,
) -> Result<bool, Fail> {
    let got = run_with(rt, row.0, &[])?;
    let (said, other) = match row.1 {
        Success => (&got.output, &got.errors),
        Failure | Usage => (&got.errors, &got.output),
    };
    let text = std::str::from_utf8(said.as_slice())?;
    Ok(got.ended.status == row.1 && other.is_empty() && text.contains(row.2))
}

#[test]
fn answers_command_lines(rt: HostRuntime) -> Result<(), Fail> {
    for (row, answer) in ANSWERS.iter().enumerate() {
        row_holds(&rt, row, answer_holds(&rt, answer)?);
    }
    Ok(())
}

/// Words that can't be read for this: how it ended, and what standard error has got, where the
/// output has nothing.
fn run_without_words(
    rt: &(impl Abort + AllocGlobal + Threads + Wait + Sync),
    kind: ErrorKind,
    status: Status,
    message: &[u8],
) -> bool {
    let words = Err(io::Error::from(kind));
    let standard: &[u8] = &[];
    let inputs = Inputs {
        directory: &Folder,
        standard,
    };
    let mut console = empty_console(rt.alloc());
    let ended = run(rt, rt.alloc(), words, inputs, &mut console);
    ended.status == status && console.output.is_empty() && console.errors.as_slice() == message
}

#[test]
fn tells_of_words_that_are_not_read(rt: HostRuntime) {
    let message = b"error: invalid UTF-8 was detected in one or more arguments\n";
    assert!(rt; run_without_words(&rt, ErrorKind::InvalidData, Usage, message));
    assert!(rt; run_without_words(&rt, ErrorKind::OutOfMemory, Failure, b"out of memory\n"));
}

/// Whether what is told is cut where standard error takes no more, and the status is the same.
fn cuts_errors(
    rt: &(impl Abort + AllocGlobal + Threads + Wait + Sync),
    words: &[&str],
    status: Status,
    message: &[u8],
    capacity: usize,
) -> bool {
    let standard: &[u8] = b"unit 1\nunit\n";
    let inputs = Inputs {
        directory: &Folder,
        standard,
    };
    let mut console = Console {
        output: Vec::new(rt.alloc()),
        errors: ShortWriter::new(rt.alloc(), 5, capacity, End::Fails),
    };
    let ended = run_on(rt, rt.alloc(), words, inputs, &mut console);
    let told = Err(PrintFault::Unwritten);
    ended == Ended { status, told }
        && console.output.is_empty()
        && console.errors.got.as_slice() == message.split_at(capacity.min(message.len())).0
}

/// The words of a run that fails, and what is told of it.
const MESSAGES: [(&[&str], &str); 5] = [
    (&["preview", "plan", "b.264"], "cannot read b.264\n"),
    (&["preview", "plan", "memory"], "out of memory\n"),
    (&["preview", "draw", "b.264"], "cannot read b.264\n"),
    (&["preview", "run", "b.script"], "cannot read b.264\n"),
    (&["preview", "run", "-"], "script fault at line 2\n"),
];

#[test]
fn cuts_what_is_told(rt: HostRuntime) {
    for (words, message) in MESSAGES {
        for capacity in 0..message.len() {
            let cuts = cuts_errors(&rt, words, Failure, message.as_bytes(), capacity);
            row_holds(&rt, capacity, cuts);
        }
    }
}

/// Whether help or the version, which is this text, fails on an output that takes so many bytes,
/// and nothing is told.
fn fails_cut(
    rt: &(impl Abort + AllocGlobal + Threads + Wait + Sync),
    words: &[&str],
    text: &[u8],
    capacity: usize,
    end: End,
) -> bool {
    let standard: &[u8] = &[];
    let inputs = Inputs {
        directory: &Folder,
        standard,
    };
    let mut console = Console {
        output: ShortWriter::new(rt.alloc(), usize::MAX, capacity, end),
        errors: Vec::new(rt.alloc()),
    };
    let ended = run_on(rt, rt.alloc(), words, inputs, &mut console);
    let (status, told) = (Failure, Ok(()));
    ended == Ended { status, told }
        && console.errors.is_empty()
        && console.output.got.as_slice() == text.split_at(capacity.min(text.len())).0
}

/// Whether the words' answer fails on each output that takes less than all of it.
fn fails_where_cut(
    rt: &(impl Abort + AllocGlobal + Threads + Wait + Sync),
    words: &[&str],
) -> Result<bool, AllocError> {
    let got = run_with(rt, words, &[])?;
    let (all, text) = (named(rt.alloc(), words)?, got.output.as_slice());
    for capacity in 0..text.len() {
        let is_failure = fails_cut(rt, all.as_slice(), text, capacity, End::Fails)
            && fails_cut(rt, all.as_slice(), text, capacity, End::TakesNone);
        if !is_failure {
            return Ok(false);
        }
    }
    Ok(got.ended.status == Success && text.len() > 10)
}

/// The words after the program's name that ask for help or the version.
const REQUESTS: [&[&str]; 6] = [
    &["--version"],
    &["-V"],
    &["--help"],
    &["help"],
    &["plan", "--help"],
    &["help", "run"],
];

#[test]
fn help_that_is_cut_is_a_failure(rt: HostRuntime) -> Result<(), Fail> {
    for (row, words) in REQUESTS.iter().enumerate() {
        row_holds(&rt, row, fails_where_cut(&rt, *words)?);
    }
    Ok(())
}
