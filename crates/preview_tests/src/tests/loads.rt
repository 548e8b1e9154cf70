//! Files that scripts load.

use super::scripts::{INSERT_A, ends_as};
use super::{A, LINES_OF_A, LINES_OF_P1, P1, P2, SETS, joined, repeated, row_holds, texts};
use crate::sample::{CLOCK, CLOCK_LINES};
use Status::{Failure, Success};
use console_io::Status;
use std::alloc::{AllocError, Global};
use std::process::Abort;
use std::test::Fail;
use std::thread::Threads;

/// Whether the script, where this text is in the file `stream` and A in the file `-`, ends so and
/// writes these texts.
fn loads(
    rt: &(impl Abort + AllocGlobal + Threads + Sync),
    script: &[u8],
    stream: &[u8],
    wanted: (Status, &[u8], &[u8]),
) -> bool {
    let files: [(&str, &[u8]); 2] = [("stream", stream), ("-", &A)];
    ends_as(rt, script, files.as_slice(), wanted.0, wanted.1, wanted.2)
}

/// The parts of a script and of a stream, how it ends, the lines and what is told.
type Load = (
    &'static [&'static str],
    &'static [&'static [u8]],
    Status,
    &'static [&'static str],
    &'static str,
);

const LOADS: [Load; 6] = [
    (
        &["load stream\nunit 1\nunit 2\nunit 3\nload stream\nunit 5\ndelete 1\nunit 7"],
        &[&A, &P1, &[0, 0, 0], &P2],
        Success,
        &[
            "loaded 3\n",
            LINES_OF_A,
            LINES_OF_P1,
            "unit 3 position 2 counts 4 4 requests 1\n",
            "request 3.0 ts 3000 bits 23 type 0 frame 2 dpb 2000:1:3 l0 0 l1 - hold 0\n",
            "loaded 3\nunit 5 position 4 counts 2 2 requests 1\n",
            "request 5.0 ts 5000 bits 23 type 0 frame 1 dpb 4000:0:3 l0 0 l1 - hold 0\n",
            "edit 7 id 1\nunit 7 none\n",
        ],
        "",
    ),
    (
        &[INSERT_A, "load stream\nunit 2\nunit 1\n"],
        &[],
        Success,
        &["edit 1 id 1\nrefused 1 Split\nunit 2 none\n", LINES_OF_A],
        "",
    ),
    (
        &[INSERT_A, "load stream\nunit 2\nunit 1\n"],
        &[b"no stream"],
        Success,
        &["edit 1 id 1\nrefused 1 Split\nunit 2 none\n", LINES_OF_A],
        "",
    ),
    (
        &[INSERT_A, "load stream\nunit 2\nunit 1\n"],
        &[SETS],
        Success,
        &["edit 1 id 1\nloaded 1\nunit 2 no picture\n", LINES_OF_A],
        "",
    ),
    (
        &[INSERT_A, "load stream\nunit 2\nunit 1\n"],
        &[&P1, &[0, 0, 1, 0x6E]],
        Success,
        &[
            "edit 1 id 1\nunit 1 refused 2 UnitType\nunit 2 none\n",
            LINES_OF_A,
        ],
        "",
    ),
    // A file that can't be read ends the run after the lines before it; `-` is the name of a file.
    (
        &["unit 1\nload -\nload no-such-file\nunit 1\n"],
        &[&P2],
        Failure,
        &["unit 1 none\nloaded 1\n"],
        "cannot read no-such-file\n",
    ),
];

/// Whether the row's script ends so and writes just that.
fn load_holds(
    rt: &(impl Abort + AllocGlobal + Threads + Sync),
    row: &Load,
) -> Result<bool, AllocError> {
    let (script, stream) = (texts(rt.alloc(), row.0)?, joined(rt.alloc(), row.1)?);
    let lines = texts(rt.alloc(), row.3)?;
    let wanted = (row.2, lines.as_bytes(), row.4.as_bytes());
    Ok(loads(rt, script.as_bytes(), &stream, wanted))
}

#[test]
fn loads_files(rt: HostRuntime) -> Result<(), Fail> {
    for (row, load) in LOADS.iter().enumerate() {
        row_holds(&rt, row, load_holds(&rt, load)?);
    }
    Ok(())
}

/// A sample's units, each of which has its lines.
#[test]
fn loads_a_sample(rt: HostRuntime) -> Result<(), Fail> {
    let lines = texts(rt.alloc(), &CLOCK_LINES)?;
    let lines = texts(rt.alloc(), &["loaded 12\n", lines.as_str()])?;
    let script = b"load stream\nunit 1\nunit 2\nunit 3\nunit 4\nunit 5\nunit 6\nunit 7\nunit 8\n\
unit 9\nunit 10\nunit 11\nunit 12\n";
    assert!(rt; loads(&rt, script, &CLOCK, (Success, lines.as_bytes(), b"")));
    Ok(())
}

/// A, and so many IDR pictures after it, each with other slice data.
fn with_pictures(alloc: Global, count: u16) -> Result<Vec<u8>, AllocError> {
    let mut stream = Vec::from_slice(alloc, &A)?;
    for number in 0..count {
        let [low, high] = number.to_le_bytes();
        stream.extend_from_slice(&[0, 0, 1, 0x65, 0x88, 0x84, 0x81, low, 0x80 | high, 0x80])?;
    }
    Ok(stream)
}

/// One `settle` decodes several hundred pictures.
#[test]
fn settles_several_hundred_pictures(rt: HostRuntime) -> Result<(), Fail> {
    let stream = with_pictures(rt.alloc(), 400)?;
    let script = b"load stream\nshow 401\nsettle\nshow 1\nshow 400\nshow 401\n";
    let lines =
        b"loaded 401\nshow 401 pending\nsettled\nshow 1 ready\nshow 400 ready\nshow 401 ready\n";
    assert!(rt; loads(&rt, script, &stream, (Success, lines, b"")));
    Ok(())
}

/// A unit far from both ends goes: those before it and after it stay, and positions after it are
/// one less.
#[test]
fn deletes_the_unit_at_place_2_000(rt: HostRuntime) -> Result<(), Fail> {
    let stream = with_pictures(rt.alloc(), 2_100)?;
    let script = b"load stream\ndelete 2001\nunit 2000\nunit 2001\nunit 2002\nunit 2101\n";
    let lines = texts(rt.alloc(), &FAR_LINES)?;
    assert!(rt; loads(&rt, script, &stream, (Success, lines.as_bytes(), b"")));
    Ok(())
}

const FAR_LINES: [&str; 5] = [
    "loaded 2101\nedit 2102 id 2001\n",
    "unit 2000 position 1999 counts 0 0 requests 1\n\
request 2000.0 ts 2000000 bits 25 type 2 frame 0 dpb - l0 - l1 - hold 0\n",
    "unit 2001 none\n",
    "unit 2002 position 2000 counts 0 0 requests 1\n\
request 2002.0 ts 2002000 bits 25 type 2 frame 0 dpb - l0 - l1 - hold 0\n",
    "unit 2101 position 2099 counts 0 0 requests 1\n\
request 2101.0 ts 2101000 bits 25 type 2 frame 0 dpb - l0 - l1 - hold 0\n",
];

/// 65,536 units after one that is there are too many.
#[test]
fn refuses_more_units_than_there_is_capacity_for(rt: HostRuntime) -> Result<(), Fail> {
    let stream = repeated(rt.alloc(), &P1, 65_536)?;
    let script = texts(rt.alloc(), &[INSERT_A, "load stream\nunit 2\n"])?;
    let lines = b"edit 1 id 1\nrefused 17 StreamFull\nunit 2 none\n";
    assert!(rt; loads(&rt, script.as_bytes(), &stream, (Success, lines, b"")));
    Ok(())
}
