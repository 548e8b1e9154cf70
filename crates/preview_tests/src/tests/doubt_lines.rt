//! Units of a session as JSON, behind a damage: what is told of their doubt. Lines were worked out by
//! hand from docs/OUTPUT.md.

use super::scripts::TestFiles;
use super::{A, P1, P2, joined};
use Status::Success;
use console_io::{Console, Status};
use script_run::{Options, Script, script_on};
use std::process::Abort;
use std::test::Fail;
use unit_printing::json::Json;

/// P pictures of frame_num 3 to 15.
const P3_TO_15: &[u8] = &[
    0, 0, 1, 0x41, 0x9A, 0x63, 0, 0, 1, 0x41, 0x9A, 0x83, 0, 0, 1, 0x41, 0x9A, 0xA3, 0, 0, 1, 0x41,
    0x9A, 0xC3, 0, 0, 1, 0x41, 0x9A, 0xE3, 0, 0, 1, 0x41, 0x9B, 0x03, 0, 0, 1, 0x41, 0x9B, 0x23, 0,
    0, 1, 0x41, 0x9B, 0x43, 0, 0, 1, 0x41, 0x9B, 0x63, 0, 0, 1, 0x41, 0x9B, 0x83, 0, 0, 1, 0x41,
    0x9B, 0xA3, 0, 0, 1, 0x41, 0x9B, 0xC3, 0, 0, 1, 0x41, 0x9B, 0xE3,
];

/// That of frame_num 0.
const P0: &[u8] = &[0, 0, 1, 0x41, 0x9A, 0x03];

/// An I picture of frame_num 2 that isn't IDR.
const I2: &[u8] = &[0, 0, 1, 0x41, 0x88, 0x93];

/// A P picture of frame_num 3.
const P3: &[u8] = &[0, 0, 1, 0x41, 0x9A, 0x63];

/// A script on that stream without its picture of frame_num 1, which then gets it back.
const SCRIPT: &[u8] = b"load stream\njson 1\njson 2\njson 3\njson 15\njson 16\njson 17\n\
json 18\njson 19\njson 20\ninsert after 1 000001419A23\njson 2\njson 17\njson 20\n";

/// How the lines begin that answer it.
const LINES: [&str; 14] = [
    "loaded 19",
    "{\"unit\":1,\"position\":0,\"begins_period\":true,\"counts\":{\"top\":0,\"bottom\":0},\"requests\":[{",
    "{\"unit\":2,\"fault\":{\"number\":11,\"name\":\"FrameNumGap\"}}",
    "{\"unit\":3,\"fault\":{\"number\":11,\"name\":\"FrameNumGap\"},\"follows\":2}",
    "{\"unit\":15,\"fault\":{\"number\":11,\"name\":\"FrameNumGap\"},\"follows\":2}",
    "{\"unit\":16,\"fault\":{\"number\":12,\"name\":\"FrameNumRepeat\"},\"follows\":2}",
    "{\"unit\":17,\"position\":1,\"begins_period\":false,\"counts\":{\"top\":2,\"bottom\":2},\"follows\":2,\"in_doubt\":true,\"requests\":[{",
    "{\"unit\":18,\"position\":2,\"begins_period\":false,\"counts\":{\"top\":4,\"bottom\":4},\"follows\":2,\"requests\":[{",
    "{\"unit\":19,\"position\":3,\"begins_period\":false,\"counts\":{\"top\":6,\"bottom\":6},\"follows\":2,\"requests\":[{",
    "{\"unit\":20,\"none\":true}",
    "edit 20 id 20",
    "{\"unit\":2,\"position\":2,\"begins_period\":false,\"counts\":{\"top\":4,\"bottom\":4},\"requests\":[{",
    "{\"unit\":17,\"position\":17,\"begins_period\":false,\"counts\":{\"top\":34,\"bottom\":34},\"requests\":[{",
    "{\"unit\":20,\"position\":1,\"begins_period\":false,\"counts\":{\"top\":2,\"bottom\":2},\"requests\":[{",
];

/// Asserts that there are just these lines, each of which begins so.
fn lines_begin(rt: &impl Abort, text: &str, fronts: &[&str]) {
    let mut rest = text;
    for (row, front) in fronts.iter().enumerate() {
        let (line, more) = rest.split_once('\n').unwrap_or((rest, ""));
        assert!(rt; line.starts_with(*front), "row {row}: {line}");
        rest = more;
    }
    assert!(rt; rest.is_empty());
}

#[test]
fn pictures_of_a_session_that_fit_again_are_in_doubt(rt: HostRuntime) -> Result<(), Fail> {
    let parts: [&[u8]; 7] = [&A, &P2, P3_TO_15, P0, &P1, I2, P3];
    let stream = joined(rt.alloc(), &parts)?;
    let files = TestFiles {
        files: &[("stream", stream.as_slice())],
        asked: 0,
    };
    let options = Options {
        name: "a script",
        cache: 64,
        hex: false,
    };
    let script = Script {
        text: SCRIPT,
        files,
    };
    let mut console = Console {
        output: Vec::new(rt.alloc()),
        errors: Vec::new(rt.alloc()),
    };
    let ended = script_on(&rt, rt.alloc(), &Json, options, script, &mut console);
    assert!(rt; ended.status == Success && console.errors.is_empty());
    lines_begin(&rt, std::str::from_utf8(&console.output)?, &LINES);
    Ok(())
}
