//! Drawings after edits, on files and a standard input over memory. What each row has to say was
//! worked out by hand from docs/OUTPUT.md: a.264 is A alone, and the picture of a unit that edits
//! bring or change has to be decoded.

use super::command_lines::run_with;
use super::row_holds;
use Status::{Failure, Success};
use console_io::Status;
use std::process::Abort;
use std::sync::Wait;
use std::test::Fail;
use std::thread::Threads;

/// The words after the program's name, the standard input, the status, a part of the output, and
/// all of standard error.
type Drawn = (
    &'static [&'static str],
    &'static [u8],
    Status,
    &'static str,
    &'static str,
);

/// The words by which a.264 is drawn after the edits of the standard input.
const EDITED: &[&str] = &["draw", "a.264", "--edits", "-"];

/// A unit more, and a refused deletion.
const ONE_MORE: &[u8] = b"insert after 1 000001 419A23\ndelete 9\n";

/// A, and a unit more before it.
const A_FIRST: &[u8] = b"insert first 000001 6742000ADA79 000001 68CE3880 000001 65888481\n";

const DRAWN: [Drawn; 15] = [
    (
        EDITED,
        ONE_MORE,
        Success,
        "<g class=\"u stayed\"><title>unit 1 position 0 counts 0 0 requests 1\n",
        "line 2: refused 16 NoSuchUnit\n",
    ),
    (
        EDITED,
        ONE_MORE,
        Success,
        "<g class=\"u altered pending\"><title>unit 2 position 1 counts 2 2 requests 1\n",
        "line 2: refused 16 NoSuchUnit\n",
    ),
    (
        EDITED,
        b"replace 1 000001 6742000ADA79 000001 68CE3880 000001 65888481\n",
        Success,
        "<g class=\"u altered pending\"><title>unit 1 position 0",
        "",
    ),
    (
        EDITED,
        b"insert after 1 000001 419A43\n",
        Success,
        "<g class=\"u\"><title>unit 2 fault",
        "",
    ),
    (
        EDITED,
        b"group\ndelete 1\nend\n",
        Success,
        "H.264 stream of 0 units: none is shown",
        "",
    ),
    (
        EDITED,
        b"\ngroup\ninsert first 000001 419A23\ndelete 7\nend\n",
        Success,
        "<g class=\"u stayed\"><title>unit 1 ",
        "line 2: group refused at 1 16 NoSuchUnit\n",
    ),
    (EDITED, b"# Nothing.\n", Success, "picture stayed", ""),
    (EDITED, A_FIRST, Success, "2 from unit 2 on", ""),
    (
        &["draw", "a.264", "--edits", "-", "--from", "1"],
        A_FIRST,
        Success,
        "1 from unit 1 on",
        "",
    ),
    (
        EDITED,
        b"delete 1\nshow 1\n",
        Failure,
        "",
        "script fault at line 2\n",
    ),
    (
        &["draw", "-", "--edits", "a.script"],
        &super::A,
        Failure,
        "",
        "script fault at line 1\n",
    ),
    (
        &["draw", "-", "--edits", "-"],
        b"delete 1\n",
        Failure,
        "refused 1 Split\n",
        "",
    ),
    (
        &["draw", "b.264", "--edits", "-"],
        b"delete 1\n",
        Failure,
        "",
        "cannot read b.264\n",
    ),
    (
        &["draw", "a.264", "--edits", "d.script", "--units", "9"],
        b"",
        Failure,
        "",
        "cannot read d.script\n",
    ),
    (
        &["draw", "a.264", "--edits", "memory"],
        b"",
        Failure,
        "",
        "out of memory\n",
    ),
];

/// Whether the row's run ends so, its output has the part, and standard error has just that.
fn drawing_holds(
    rt: &(impl Abort + AllocGlobal + Threads + Wait + Sync),
    row: &Drawn,
) -> Result<bool, Fail> {
    let got = run_with(rt, row.0, row.1)?;
    let text = std::str::from_utf8(got.output.as_slice())?;
    Ok(
        got.ended.status == row.2
            && text.contains(row.3)
            && text.is_empty() == row.3.is_empty()
            && got.errors.as_slice() == row.4.as_bytes(),
    )
}

#[test]
fn draws_edits(rt: HostRuntime) -> Result<(), Fail> {
    for (row, drawn) in DRAWN.iter().enumerate() {
        row_holds(&rt, row, drawing_holds(&rt, drawn)?);
    }
    Ok(())
}
