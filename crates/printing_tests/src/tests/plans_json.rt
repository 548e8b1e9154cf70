//! Plans as JSON: what is told of doubt, and the requests of whole pictures. Lines were worked out
//! by hand from docs/OUTPUT.md and the standard; the controls of a picture are those of its first
//! slice.

use super::{joined, new_console};
use Status::Success;
use console_io::{Console, Status};
use std::alloc::{AllocError, Global};
use std::process::Abort;
use std::test::Fail;
use std::thread::Threads;
use unit_printing::json::{DecodeMode, Json, JsonForm, plan_json_for};

/// A sequence parameter set of one macroblock with frame_num of four bits, a picture parameter set
/// and an IDR picture.
const A: &[u8] = &[
    0, 0, 1, 0x67, 0x42, 0x00, 0x0A, 0xDA, 0x79, 0, 0, 1, 0x68, 0xCE, 0x38, 0x80, 0, 0, 1, 0x65,
    0x88, 0x84, 0x80,
];

/// The sets of A alone.
const SETS: &[u8] = &[
    0, 0, 1, 0x67, 0x42, 0x00, 0x0A, 0xDA, 0x79, 0, 0, 1, 0x68, 0xCE, 0x38, 0x80,
];

/// The picture of A alone.
const IDR: &[u8] = &[0, 0, 1, 0x65, 0x88, 0x84, 0x80];

/// A P picture of frame_num 1.
const P1: &[u8] = &[0, 0, 1, 0x41, 0x9A, 0x23];

/// Those of frame_num 2 to 15.
const P2: &[u8] = &[0, 0, 1, 0x41, 0x9A, 0x43];

const P3: &[u8] = &[0, 0, 1, 0x41, 0x9A, 0x63];

const P4_TO_15: &[u8] = &[
    0, 0, 1, 0x41, 0x9A, 0x83, 0, 0, 1, 0x41, 0x9A, 0xA3, 0, 0, 1, 0x41, 0x9A, 0xC3, 0, 0, 1, 0x41,
    0x9A, 0xE3, 0, 0, 1, 0x41, 0x9B, 0x03, 0, 0, 1, 0x41, 0x9B, 0x23, 0, 0, 1, 0x41, 0x9B, 0x43, 0,
    0, 1, 0x41, 0x9B, 0x63, 0, 0, 1, 0x41, 0x9B, 0x83, 0, 0, 1, 0x41, 0x9B, 0xA3, 0, 0, 1, 0x41,
    0x9B, 0xC3, 0, 0, 1, 0x41, 0x9B, 0xE3,
];

/// That of frame_num 0.
const P0: &[u8] = &[0, 0, 1, 0x41, 0x9A, 0x03];

/// An I picture of frame_num 2 that isn't IDR.
const I2: &[u8] = &[0, 0, 1, 0x41, 0x88, 0x93];

/// The plan of the stream of these parts.
fn planned(
    rt: &(impl Abort + AllocGlobal + Threads + Sync),
    mode: DecodeMode,
    parts: &[&[u8]],
) -> Result<Vec<u8>, AllocError> {
    let text = joined(rt.alloc(), parts)?;
    let mut console = new_console(rt.alloc());
    let mut reader = text.as_slice();
    let form = JsonForm {
        encoder: &Json,
        mode,
    };
    let ended = plan_json_for(rt, rt.alloc(), form, "-", &mut reader, &mut console);
    let Console { output, errors } = console;
    assert!(rt; ended.status == Success && errors.is_empty());
    Ok(output)
}

/// Asserts that there are just these lines, each of which begins so.
fn lines_begin(rt: &impl Abort, text: &str, fronts: &[&str]) {
    let mut rest = text;
    for (row, front) in fronts.iter().enumerate() {
        let (line, more) = rest.split_once('\n').unwrap_or((rest, ""));
        assert!(rt; line.starts_with(*front), "row {row}: {line}");
        rest = more;
    }
    assert!(rt; rest.is_empty());
}

/// A loses its picture of frame_num 1, and numbers fit again after they wrapped.
const WRAPPED: [&str; 21] = [
    "{\"unit\":1,\"position\":0,\"begins_period\":true,\"counts\":{\"top\":0,\"bottom\":0},\"requests\":[",
    "{\"unit\":2,\"fault\":{\"number\":11,\"name\":\"FrameNumGap\"}}",
    "{\"unit\":3,\"fault\":{\"number\":11,\"name\":\"FrameNumGap\"},\"follows\":2}",
    "{\"unit\":4,\"fault\":{\"number\":11,\"name\":\"FrameNumGap\"},\"follows\":2}",
    "{\"unit\":5,\"fault\":{\"number\":11,\"name\":\"FrameNumGap\"},\"follows\":2}",
    "{\"unit\":6,\"fault\":{\"number\":11,\"name\":\"FrameNumGap\"},\"follows\":2}",
    "{\"unit\":7,\"fault\":{\"number\":11,\"name\":\"FrameNumGap\"},\"follows\":2}",
    "{\"unit\":8,\"fault\":{\"number\":11,\"name\":\"FrameNumGap\"},\"follows\":2}",
    "{\"unit\":9,\"fault\":{\"number\":11,\"name\":\"FrameNumGap\"},\"follows\":2}",
    "{\"unit\":10,\"fault\":{\"number\":11,\"name\":\"FrameNumGap\"},\"follows\":2}",
    "{\"unit\":11,\"fault\":{\"number\":11,\"name\":\"FrameNumGap\"},\"follows\":2}",
    "{\"unit\":12,\"fault\":{\"number\":11,\"name\":\"FrameNumGap\"},\"follows\":2}",
    "{\"unit\":13,\"fault\":{\"number\":11,\"name\":\"FrameNumGap\"},\"follows\":2}",
    "{\"unit\":14,\"fault\":{\"number\":11,\"name\":\"FrameNumGap\"},\"follows\":2}",
    "{\"unit\":15,\"fault\":{\"number\":11,\"name\":\"FrameNumGap\"},\"follows\":2}",
    "{\"unit\":16,\"fault\":{\"number\":12,\"name\":\"FrameNumRepeat\"},\"follows\":2}",
    "{\"unit\":17,\"position\":1,\"begins_period\":false,\"counts\":{\"top\":2,\"bottom\":2},\"follows\":2,\"in_doubt\":true,\"requests\":[",
    "{\"unit\":18,\"position\":2,\"begins_period\":false,\"counts\":{\"top\":4,\"bottom\":4},\"follows\":2,\"requests\":[",
    "{\"unit\":19,\"position\":3,\"begins_period\":false,\"counts\":{\"top\":6,\"bottom\":6},\"follows\":2,\"requests\":[",
    "{\"unit\":20,\"position\":4,\"begins_period\":true,\"counts\":{\"top\":0,\"bottom\":0},\"requests\":[",
    "{\"unit\":21,\"position\":5,\"begins_period\":false,\"counts\":{\"top\":2,\"bottom\":2},\"requests\":[",
];

#[test]
fn pictures_that_fit_again_are_in_doubt(rt: HostRuntime) -> Result<(), Fail> {
    let parts = [A, P2, P3, P4_TO_15, P0, P1, I2, P3, IDR, P1];
    let lines = planned(&rt, DecodeMode::SliceBased, &parts)?;
    lines_begin(&rt, std::str::from_utf8(&lines)?, &WRAPPED);
    Ok(())
}

#[test]
fn units_without_a_picture_follow_a_break(rt: HostRuntime) -> Result<(), Fail> {
    let lines = planned(&rt, DecodeMode::SliceBased, &[A, P2, SETS])?;
    lines_begin(
        &rt,
        std::str::from_utf8(&lines)?,
        &[
            "{\"unit\":1,",
            "{\"unit\":2,\"fault\":{\"number\":11,\"name\":\"FrameNumGap\"}}",
            "{\"unit\":3,\"no_picture\":true,\"follows\":2}",
        ],
    );
    Ok(())
}

/// A as a picture of two macroblocks.
const WIDE: &[u8] = &[
    0, 0, 1, 0x67, 0x42, 0x00, 0x0A, 0xDA, 0x2E, 0x40, 0, 0, 1, 0x68, 0xCE, 0x38, 0x80, 0, 0, 1,
    0x65, 0x88, 0x84, 0x80,
];

/// A picture of frame_num 1 of an I slice and a P slice.
const I1_AND_P1: &[u8] = &[0, 0, 1, 0x41, 0x88, 0x8B, 0, 0, 1, 0x41, 0x46, 0x88, 0xC0];

/// The parts of a stream, and of its last picture the timestamp, how many bytes its slices have, and
/// its flags.
type Frame = (&'static [&'static [u8]], &'static str, &'static str);

const FRAMES: [Frame; 3] = [
    (
        &[A],
        "\"timestamp\":1000,\"bytes\":7,",
        "V4L2_H264_DECODE_PARAM_FLAG_IDR_PIC",
    ),
    (
        &[A, P1],
        "\"timestamp\":2000,\"bytes\":6,",
        "V4L2_H264_DECODE_PARAM_FLAG_PFRAME",
    ),
    (
        &[WIDE, I1_AND_P1],
        "\"timestamp\":2000,\"bytes\":13,",
        "V4L2_H264_DECODE_PARAM_FLAG_PFRAME",
    ),
];

/// The last line of a text.
fn last_line(text: &str) -> &str {
    let text = text.trim_end();
    match text.rsplit_once('\n') {
        Some((_, line)) => line,
        None => text,
    }
}

/// What stands between these in a text.
fn between<'a>(text: &'a str, front: &str, end: &str) -> &'a str {
    match text.split_once(front) {
        Some((_, rest)) => match rest.split_once(end) {
            Some((found, _)) => found,
            None => "",
        },
        None => "",
    }
}

/// The line of a picture, by that of its slices: it has the controls of the first slice, with the
/// picture's flags.
fn line_of_frame(alloc: Global, slices: &str, frame: &Frame) -> Result<String, AllocError> {
    let head = between(slices, "", "\"requests\"");
    let sets = between(
        slices,
        "\"v4l2_ctrl_h264_sps\"",
        "\"v4l2_ctrl_h264_slice_params\"",
    );
    let decoding = between(slices, "\"v4l2_ctrl_h264_decode_params\"", "}}");
    let (members, _) = decoding.rsplit_once("\"flags\"").unwrap_or(("", ""));
    let (numbers, flags) = (frame.1, frame.2);
    format!(in alloc;
        "{head}\"request\":{{{numbers}\"v4l2_ctrl_h264_sps\"{sets}\"v4l2_ctrl_h264_decode_params\"{members}\"flags\":\"{flags}\"}}}}}}"
    )
}

#[test]
fn a_picture_has_the_controls_of_its_first_slice(rt: HostRuntime) -> Result<(), Fail> {
    for (row, frame) in FRAMES.iter().enumerate() {
        let slices = planned(&rt, DecodeMode::SliceBased, frame.0)?;
        let frames = planned(&rt, DecodeMode::FrameBased, frame.0)?;
        let expected = line_of_frame(rt.alloc(), last_line(std::str::from_utf8(&slices)?), frame)?;
        let line = last_line(std::str::from_utf8(&frames)?);
        assert!(rt; line == expected.as_str(), "row {row}: {line}");
    }
    Ok(())
}
