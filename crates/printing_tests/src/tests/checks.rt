//! What `check` says of files. Lines were worked out by hand from docs/OUTPUT.md and the standard.

use super::{joined, new_console, row_holds};
use Status::{Failure, Success};
use check_report::{Form, check_on};
use console_io::Status;
use std::alloc::AllocError;
use std::process::Abort;
use std::test::Fail;
use std::thread::Threads;

/// A sequence parameter set of one macroblock with frame_num of four bits, a picture parameter set
/// and an IDR picture.
const A: &[u8] = &[
    0, 0, 1, 0x67, 0x42, 0x00, 0x0A, 0xDA, 0x79, 0, 0, 1, 0x68, 0xCE, 0x38, 0x80, 0, 0, 1, 0x65,
    0x88, 0x84, 0x80,
];

/// P pictures of frame_num 1 and 2.
const P1: &[u8] = &[0, 0, 1, 0x41, 0x9A, 0x23];

const P2: &[u8] = &[0, 0, 1, 0x41, 0x9A, 0x43];

/// The parts of a file, how its check ends, and the lines that are printed.
type Check = (&'static [&'static [u8]], Status, &'static str);

const CHECKS: [Check; 6] = [
    (
        &[A, P1],
        Success,
        "-: a byte stream of H.264 (Annex B)\n\
sequence parameter set 0: Baseline profile, level 1.0, 16x16, 4:2:0, \
8 bits of luma and 8 of chroma, frame_num of 4 bits, pic_order_cnt_type 2, max_num_ref_frames 1\n\
access units: 2, of which 0 can't be decoded and 0 have no picture\n\
pictures that can be decoded: 1 I, 1 P and 0 B, of which 1 are IDR, in 2 slices\n\
output order begins anew at 1 of them; the most pictures from one such on: 2\n\
most reference frames before a picture: 1\n\
surfaces that a decoder needs to show pictures in output order: 2\n\
largest access unit: 23 bytes\n\
problems, access units that can't be decoded: 0\n\
pictures in doubt, which may be made of other frames than was meant: 0\n",
    ),
    (
        &[A, P2, P1],
        Failure,
        "-: a byte stream of H.264 (Annex B)\n\
sequence parameter set 0: Baseline profile, level 1.0, 16x16, 4:2:0, \
8 bits of luma and 8 of chroma, frame_num of 4 bits, pic_order_cnt_type 2, max_num_ref_frames 1\n\
access units: 3, of which 1 can't be decoded and 0 have no picture\n\
pictures that can be decoded: 1 I, 1 P and 0 B, of which 1 are IDR, in 2 slices\n\
output order begins anew at 1 of them; the most pictures from one such on: 2\n\
most reference frames before a picture: 1\n\
surfaces that a decoder needs to show pictures in output order: 2\n\
largest access unit: 23 bytes\n\
problems, access units that can't be decoded: 1\n  \
unit 2 at byte 23: frame_num is 2 and 0 or 1 was expected: pictures are missing (7.4.3) \
[fault 11, FrameNumGap]\n\
pictures in doubt, which may be made of other frames than was meant: 1\n  \
1 of units 3 to 3, after the fault of unit 2\n",
    ),
    (&[b"load a.264\n"], Failure, "-: not H.264: a text file\n"),
    (
        &[b"\x1A\x45\xDF\xA3\xA3\x42\x86\x81\x01\x42\xF7\x81\x01\x42\x82\x88matroska"],
        Failure,
        "-: not a byte stream of H.264 (Annex B): a Matroska or WebM file, a container\n\
this makes a byte stream of it: ffmpeg -i FILE -map 0:v:0 -c copy -f h264 OUT.264\n",
    ),
    // The same stream with frame_mbs_only_flag 0.
    (
        &[b"\x00\x00\x01\x67\x42\x00\x0A\xDA\x69", P1],
        Failure,
        "-: a byte stream of H.264 (Annex B) that is refused\n\
first problem: in the access unit at index 0, a sequence parameter set can't be read (7.3.2.1.1)\n\
preview mend writes a stream of what can be read, and leaves this out:\n  \
byte 0: left out 9 bytes: unread SPS: frame_mbs_only_flag is 0: interlaced coding isn't supported \
(7.4.2.1.1)\n",
    ),
    // A slice behind a slice of an IDR picture that isn't of it.
    (
        &[A, &[0, 0, 1, 0x41, 0x5A]],
        Failure,
        "-: a byte stream of H.264 (Annex B) that is refused\n\
first problem: in the access unit at index 0, slices of an IDR picture and of another one stand in \
one access unit (7.4.1.2.4)\n\
preview mend leaves nothing out, and puts a delimiter where two pictures are taken for one\n",
    ),
];

/// Whether a file of these parts is checked so.
fn is_checked(
    rt: &(impl Abort + AllocGlobal + Threads + Sync),
    form: Form,
    row: &Check,
) -> Result<bool, AllocError> {
    let text = joined(rt.alloc(), row.0)?;
    let mut console = new_console(rt.alloc());
    let mut reader = text.as_slice();
    let ended = check_on(rt, rt.alloc(), form, "-", &mut reader, &mut console);
    Ok(
        ended.status == row.1
            && console.output.as_slice() == row.2.as_bytes()
            && console.errors.is_empty(),
    )
}

#[test]
fn checks_say_what_is_the_matter(rt: HostRuntime) -> Result<(), Fail> {
    for (row, check) in CHECKS.iter().enumerate() {
        row_holds(&rt, row, is_checked(&rt, Form::Text, check)?);
    }
    Ok(())
}

const OBJECTS: [Check; 3] = [
    (
        &[A, P2, P1],
        Failure,
        "{\"kind\":\"H264AnnexB\",\"sets\":[{\"seq_parameter_set_id\":0,\"profile\":\"Baseline\",\
\"level\":\"1.0\",\"width\":16,\"height\":16,\"chroma\":\"4:2:0\",\"luma_bits\":8,\"chroma_bits\":8,\
\"frame_num_bits\":4,\"pic_order_cnt_type\":2,\"max_num_ref_frames\":1}],\
\"counts\":{\"units\":3,\"intra\":1,\"predicted\":1,\"bipredicted\":0,\"idr\":1,\"slices\":2,\
\"faults\":1,\"without_picture\":0,\"periods\":1,\"longest_period\":2,\"most_frames\":1,\
\"in_doubt\":1},\"surfaces\":2,\"longest_unit\":23,\"problems\":[{\"unit\":2,\"byte\":23,\"bytes\":6,\"number\":11,\
\"name\":\"FrameNumGap\",\"reason\":\"frame_num is 2 and 0 or 1 was expected: pictures are \
missing (7.4.3)\"}],\"doubts\":[{\"first\":3,\"last\":3,\"follows\":2,\"in_doubt\":1}],\
\"units\":[{\"byte\":0,\"bytes\":23},{\"byte\":23,\"bytes\":6},{\"byte\":29,\"bytes\":6}]}\n",
    ),
    (
        &[b"load a.264\n"],
        Failure,
        "{\"kind\":\"Text\",\"sentence\":\"a text file\"}\n",
    ),
    (
        &[b"\x00\x00\x01\x67\x42\x00\x0A\xDA\x69", P1],
        Failure,
        "{\"kind\":\"H264AnnexB\",\"index\":0,\"number\":4,\"name\":\"Sps\",\
\"reason\":\"a sequence parameter set can't be read (7.3.2.1.1)\",\
\"left_out\":[{\"byte\":0,\"bytes\":9,\"why\":\"unread SPS\",\
\"reason\":\"frame_mbs_only_flag is 0: interlaced coding isn't supported (7.4.2.1.1)\"}]}\n",
    ),
];

#[test]
fn checks_are_objects(rt: HostRuntime) -> Result<(), Fail> {
    for (row, object) in OBJECTS.iter().enumerate() {
        row_holds(&rt, row, is_checked(&rt, Form::Json, object)?);
    }
    Ok(())
}
