//! Scripts run over memory: lines in, lines out.

use super::writers::{End, ShortWriter};
use super::{A, LINES_OF_A, P1, joined, repeated, row_holds, texts};
use Status::{Failure, Success};
use bytes::Bytes;
use console_io::{Console, Ended, InputFault, Source, Status};
use script_run::{Options, script_on};
use stand_in_session::{Config, Edit, InsertionPoint, Session};
use std::alloc::{AllocError, Global};
use std::process::Abort;
use std::test::Fail;
use std::thread::Threads;
use unit_outcomes::Outcome;
use unit_printing::json::Json;

/// The insertion of A as the first unit.
pub(super) const INSERT_A: &str =
    "insert first 00 00 01 6742000ADA79 000001 68CE3880 000001 65888480\n";

/// A, and the pictures with frame_num 1 and 2 after it.
pub(super) const INSERT_THREE: &str =
    "insert first 000001 6742000ada79 000001 68ce3880 000001 65888480\n\
insert after 1 00 00 01 41 9A 23\n\
insert after 2 00 00 01 41 9A 43\n";

/// What the edits of these three answer.
pub(super) const THREE: &str = "edit 1 id 1\nedit 2 id 2\nedit 3 id 3\n";

/// Unit 3 after the unit 4.
pub(super) const LINES_OF_3: &str = "unit 3 position 2 counts 4 4 requests 1\n\
request 3.0 ts 3000 bits 23 type 0 frame 2 dpb 4000:1:3 l0 0 l1 - hold 0\n";

/// Unit 2 of a stream with a B picture.
const LINE_OF_2: &str =
    "request 2.0 ts 2000 bits 27 type 0 frame 1 dpb 1000:0:3 l0 0 l1 - hold 0\n";

/// Files by name, and how many were asked for.
#[derive(Drop)]
pub(super) struct TestFiles<'a> {
    pub(super) files: &'a [(&'a str, &'a [u8])],
    pub(super) asked: usize,
}

impl<'a> Source for TestFiles<'a> {
    fn whole_file(&mut self, alloc: Global, name: &str) -> Result<Vec<u8>, InputFault> {
        self.asked = self.asked.saturating_add(1);
        for (known, text) in self.files {
            if *known == name {
                return Vec::from_slice(alloc, *text).map_err(|_: AllocError| InputFault::Memory);
            }
        }
        Err(InputFault::Unread)
    }
}

/// Files that are lent to a run, so that what it asked for is known after it.
#[derive(Drop)]
struct LentFiles<'a, 'b>(&'a mut TestFiles<'b>);

impl<'a, 'b> Source for LentFiles<'a, 'b> {
    fn whole_file(&mut self, alloc: Global, name: &str) -> Result<Vec<u8>, InputFault> {
        self.0.whole_file(alloc, name)
    }
}

/// Whether a script on these files ends so, and writes just these texts on both streams.
pub(super) fn ends_as(
    rt: &(impl Abort + AllocGlobal + Threads + Sync),
    script: &[u8],
    files: &[(&str, &[u8])],
    status: Status,
    lines: &[u8],
    message: &[u8],
) -> bool {
    let options = Options {
        name: "a script",
        cache: 64,
        hex: false,
    };
    ends_with(rt, options, script, files, status, lines, message)
}

/// Whether a script with these options ends so, and writes just these texts on both streams.
fn ends_with(
    rt: &(impl Abort + AllocGlobal + Threads + Sync),
    options: Options<'_>,
    script: &[u8],
    files: &[(&str, &[u8])],
    status: Status,
    lines: &[u8],
    message: &[u8],
) -> bool {
    let files = TestFiles { files, asked: 0 };
    let script = script_run::Script {
        text: script,
        files,
    };
    let mut console = Console {
        output: Vec::new(rt.alloc()),
        errors: Vec::new(rt.alloc()),
    };
    let ended = script_on(rt, rt.alloc(), &Json, options, script, &mut console);
    ended.status == status
        && console.output.as_slice() == lines
        && console.errors.as_slice() == message
}

/// Whether the script of these parts runs to its end and prints these lines.
pub(super) fn answers(
    rt: &(impl Abort + AllocGlobal + Threads + Sync),
    parts: &[&str],
    lines: &[&str],
) -> Result<bool, AllocError> {
    let (script, lines) = (texts(rt.alloc(), parts)?, texts(rt.alloc(), lines)?);
    Ok(ends_as(rt, script.as_bytes(), &[], Success, lines.as_bytes(), b""))
}

/// Whether the script of these parts, with these options, runs to its end and prints these lines.
pub(super) fn answers_with(
    rt: &(impl Abort + AllocGlobal + Threads + Sync),
    options: Options<'_>,
    parts: &[&str],
    lines: &[&str],
) -> Result<bool, AllocError> {
    let (script, lines) = (texts(rt.alloc(), parts)?, texts(rt.alloc(), lines)?);
    let (script, lines) = (script.as_bytes(), lines.as_bytes());
    Ok(ends_with(rt, options, script, &[], Success, lines, b""))
}

/// The parts of a script, and the lines that it prints.
pub(super) type Script = (&'static [&'static str], &'static [&'static str]);

const SCRIPTS: [Script; 13] = [
    (
        &[
            "insert first 00 00 01 67 42 00 0A DA 79\n",
            "insert first\n",
            INSERT_A,
            "insert after 1 00 00 01 6E 40 80\n",
            // profile_idc is 88.
            "insert first 00 00 01 67 58 00 0A DA 79\n",
            // A text is looked at before the id.
            "replace 7 000001\n",
            "insert after 7 00 00 01 41 9A 23",
        ],
        &[
            "edit 1 id 1\n",
            "refused 1 Split\n",
            "edit 2 id 2\n",
            "refused 2 UnitType\n",
            "refused 4 Sps\n",
            "refused 1 Split\n",
            "refused 16 NoSuchUnit\n",
        ],
    ),
    // A unit of a parameter set alone, which the pictures after it go by.
    (
        &[
            INSERT_A,
            "insert after 1 00 00 01 67 42 00 0A DB 79\n",
            "insert after 2 00 00 01 41 9A 23\n",
            "unit 2\njson 2\nshow 2\nunit 3\njson 3\njson 4\nsettle\nshow 2\nshow 3\n",
            "replace 2 00 00 01 67 42 00 0A DA 79\n",
            "unit 3\nunit 2\ntake\ntake\nsettle\nshow 2\n",
        ],
        &[
            "edit 1 id 1\nedit 2 id 2\nedit 3 id 3\n",
            "unit 2 no picture\n{\"unit\":2,\"no_picture\":true}\nshow 2 empty\n",
            "unit 3 fault 9 SpsChange\n",
            "{\"unit\":3,\"fault\":{\"number\":9,\"name\":\"SpsChange\"}}\n",
            "{\"unit\":4,\"none\":true}\n",
            "settled\nshow 2 empty\nshow 3 fault 9 SpsChange\n",
            "edit 4 id 2\n",
            "unit 3 position 1 counts 2 2 requests 1\n",
            "request 3.0 ts 3000 bits 23 type 0 frame 1 dpb 1000:0:3 l0 0 l1 - hold 0\n",
            "unit 2 no picture\njob 2 unit 3\njob none\nsettled\nshow 2 empty\n",
        ],
    ),
    (
        &[
            INSERT_THREE,
            "delete 2\n",
            "unit 3\n",
            "insert after 1 00 00 01 41 9A 23\n",
            "unit 3\n",
            "unit 2\n",
        ],
        &[
            THREE,
            "edit 4 id 2\n",
            "unit 3 fault 11 FrameNumGap\n",
            "edit 5 id 4\n",
            LINES_OF_3,
            "unit 2 none\n",
        ],
    ),
    (
        &[
            INSERT_THREE,
            "replace 2 00 00 01 41 9A 43\n",
            "unit 2\nunit 3\n",
            "insert first 00 00 01 65 88 84 80\n",
            "unit 4\nunit 1\n",
            "delete 9\n",
            "replace 9\n",
        ],
        &[
            THREE,
            "edit 4 id 2\n",
            "unit 2 fault 11 FrameNumGap\nunit 3 fault 11 FrameNumGap\n",
            "edit 5 id 4\n",
            "unit 4 fault 1 MissingPps\n",
            LINES_OF_A,
            "refused 16 NoSuchUnit\n",
            "refused 1 Split\n",
        ],
    ),
    (
        &["insert first 000001419A23\n", "unit 1\n"],
        &["edit 1 id 1\n", "unit 1 fault 1 MissingPps\n"],
    ),
    (
        &[
            "insert first 000001 6742000ADA79 000001 68CE3880 000001 419A23\n",
            "unit 1\n",
        ],
        &["edit 1 id 1\n", "unit 1 fault 8 NoIdr\n"],
    ),
    (
        &[INSERT_A, "insert after 1 000001419A\n", "unit 2\n"],
        &[
            "edit 1 id 1\n",
            "edit 2 id 2\n",
            "unit 2 fault 3 HeaderCut\n",
        ],
    ),
    // A P picture that is shown after the B picture after it moves up where that is deleted.
    (
        &[
            "insert first 000001674D000AF6F2 00000168CE3880 000001658884 0C\n",
            "insert after 1 00 00 01 41 9A 28 30\n",
            "insert after 2 00 00 01 01 9E 45 18\n",
            "unit 2\ndelete 3\nunit 2\n",
        ],
        &[
            "edit 1 id 1\nedit 2 id 2\nedit 3 id 3\n",
            "unit 2 position 2 counts 4 4 requests 1\n",
            LINE_OF_2,
            "edit 4 id 3\n",
            "unit 2 position 1 counts 4 4 requests 1\n",
            LINE_OF_2,
        ],
    ),
    // A period more stands before the others, and then a picture leaves its period to go on with
    // the one before.
    (
        &[
            INSERT_A,
            "insert after 1 000001419A23\ninsert after 2 00000165888480\n",
            "insert after 3 000001419A23\ninsert after 1 00000165888480\n",
            "unit 1\nunit 5\nunit 2\nunit 3\nunit 4\nreplace 3 000001419A43\nunit 3\nunit 4\n",
        ],
        &[
            "edit 1 id 1\nedit 2 id 2\nedit 3 id 3\nedit 4 id 4\nedit 5 id 5\n",
            LINES_OF_A,
            "unit 5 position 1 counts 0 0 requests 1\n",
            "request 5.0 ts 5000 bits 25 type 2 frame 0 dpb - l0 - l1 - hold 0\n",
            "unit 2 position 2 counts 2 2 requests 1\n",
            "request 2.0 ts 2000 bits 23 type 0 frame 1 dpb 5000:0:3 l0 0 l1 - hold 0\n",
            "unit 3 position 3 counts 0 0 requests 1\n",
            "request 3.0 ts 3000 bits 25 type 2 frame 0 dpb - l0 - l1 - hold 0\n",
            "unit 4 position 4 counts 2 2 requests 1\n",
            "request 4.0 ts 4000 bits 23 type 0 frame 1 dpb 3000:0:3 l0 0 l1 - hold 0\n",
            "edit 6 id 3\nunit 3 position 3 counts 4 4 requests 1\n",
            "request 3.0 ts 3000 bits 23 type 0 frame 2 dpb 2000:1:3 l0 0 l1 - hold 0\n",
            "unit 4 fault 11 FrameNumGap\n",
        ],
    ),
    // Numbers are printed as values, and one that no id reaches is one of no unit.
    (
        &[
            "\n# A comment, and an empty line before it\n",
            INSERT_A,
            "  unit   007  \n",
            "unit 0\nunit 4294967295\nunit 4294967296\nunit 4294967297\nunit 9999999999\n",
            "delete 4294967297\n",
            "replace 4294967296 000001419A23\n",
            "insert after 4294967297 000001419A23\n",
            "unit 0000000001\n",
        ],
        &[
            "edit 1 id 1\n",
            "unit 7 none\n",
            "unit 0 none\nunit 4294967295 none\nunit 4294967296 none\nunit 4294967297 none\n",
            "unit 9999999999 none\n",
            "refused 16 NoSuchUnit\n",
            "refused 16 NoSuchUnit\n",
            "refused 16 NoSuchUnit\n",
            LINES_OF_A,
        ],
    ),
    (&[], &[]),
    (&["# a comment alone"], &[]),
    (&["# \u{e9}\n"], &[]),
];

#[test]
fn answers_scripts(rt: HostRuntime) -> Result<(), Fail> {
    for (row, (script, lines)) in SCRIPTS.iter().enumerate() {
        row_holds(&rt, row, answers(&rt, *script, *lines)?);
    }
    Ok(())
}

#[test]
fn refuses_more_than_4_194_304_bytes(rt: HostRuntime) -> Result<(), Fail> {
    let zeros = repeated(rt.alloc(), b"00", 4_194_305)?;
    let script = joined(rt.alloc(), &[b"insert first ", &zeros])?;
    let lines = b"refused 14 TooLarge\n";
    assert!(rt; ends_as(&rt, &script, &[], Success, lines, b""));
    Ok(())
}

/// How the run of a script to this console ends, and how many files it asks for.
fn run_to(
    rt: &(impl Abort + AllocGlobal + Threads + Sync),
    script: &[u8],
    console: &mut Console<ShortWriter, Vec<u8>>,
) -> (Ended, usize) {
    let options = Options {
        name: "-",
        cache: 64,
        hex: false,
    };
    let files: [(&str, &[u8]); 1] = [("p", P1.as_slice())];
    let mut files = TestFiles {
        files: files.as_slice(),
        asked: 0,
    };
    let script = script_run::Script {
        text: script,
        files: LentFiles(&mut files),
    };
    let ended = script_on(rt, rt.alloc(), &Json, options, script, console);
    (ended, files.asked)
}

/// Whether a writer of this room gets just that many bytes, the run ends so, so many files are
/// asked for, and nothing is told.
fn gets(
    rt: &(impl Abort + AllocGlobal + Threads + Sync),
    script: &[u8],
    lines: &[u8],
    capacity: usize,
    status: Status,
    asked: usize,
) -> bool {
    let mut console = Console {
        output: ShortWriter::new(rt.alloc(), usize::MAX, capacity, End::Fails),
        errors: Vec::new(rt.alloc()),
    };
    let told = Ok(());
    run_to(rt, script, &mut console) == (Ended { status, told }, asked)
        && console.errors.is_empty()
        && console.output.got.as_slice() == lines.split_at(capacity.min(lines.len())).0
}

/// A unit is deleted and repaired, and the last command loads a file; and the lines of that.
const LOADED_LAST: Script = (
    &[
        INSERT_THREE,
        "settle\ndelete 2\nunit 3\ninsert after 1 00 00 01 41 9A 23\nunit 3\nshow 3\nshow 4\nload p\n",
    ],
    &[
        THREE,
        "settled\nedit 4 id 2\nunit 3 fault 11 FrameNumGap\nedit 5 id 4\n",
        LINES_OF_3,
        "show 3 ready\nshow 4 ready\nloaded 1\n",
    ],
);

/// A writer that fails after some bytes has just these, and no later line runs: the last one is of
/// 9 bytes.
#[test]
fn ends_where_the_writer_fails(rt: HostRuntime) -> Result<(), Fail> {
    let (script, lines) = (
        texts(rt.alloc(), LOADED_LAST.0)?,
        texts(rt.alloc(), LOADED_LAST.1)?,
    );
    let (script, lines) = (script.as_bytes(), lines.as_bytes());
    assert!(rt; gets(&rt, script, lines, lines.len(), Success, 1));
    for capacity in 0..lines.len() {
        let asked = if capacity.saturating_add(9) >= lines.len() {
            1
        } else {
            0
        };
        row_holds(
            &rt,
            capacity,
            gets(&rt, script, lines, capacity, Failure, asked),
        );
    }
    Ok(())
}

/// The library by itself: an edit, and then the unit's outcome.
#[test]
fn edits_by_the_library(rt: HostRuntime) -> Result<(), Fail> {
    let mut session = Session::new(rt.alloc(), Config { cache: 64 })?;
    let text = Bytes::from_vec(Vec::from_slice(rt.alloc(), &A)?)?;
    let receipt = session.edit(Edit::Insert(InsertionPoint::First, text))?;
    match session.outcome(receipt.id)? {
        Outcome::Plan(plan) => assert_eq!(rt; plan.requests.as_slice().len(), 1),
        Outcome::Fault(fault) => panic!(rt; "unit {} shows {fault}", receipt.id.number()),
        Outcome::Empty => panic!(rt; "unit {} has no picture", receipt.id.number()),
    }
    Ok(())
}
