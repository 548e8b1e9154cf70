//! Marked frames in a line: the decoded picture buffer of a picture.

ghost use Rattle.std.specs.Prelude.{◌≡◌, ◌++◌, map, string_bytes, OnOk};
ghost use Rattle.std.specs.List.{zip};
ghost use Rattle.h264_controls.specs.DecodeParamsControl.{dpb, number_in};
ghost use Rattle.h264_controls.specs.References.{references};
ghost use Rattle.h264_types.specs.PicNums.{frame_num_wrap};
ghost use Rattle.unit_printing.specs.Frames.{frame_text};
ghost use Rattle.unit_printing.specs.Growing.{Grows};
ghost use Rattle.unit_printing.specs.Lines.{entry_text, list_text};

use crate::lines::numbers::put_text;
use crate::lines::references::put_entry;
use h264_controls::DpbEntryFlags;
use h264_types::param_sets::Sps;
use h264_types::pictures::{Frame, Term, frame_num_wrap};
use h264_types::slice_headers::SliceHeader;
use std::alloc::AllocError;

/// Adds the decoded picture buffer of a slice with this header, before the marking of its picture.
#[tactic(auto, using(crate::proofs::FrameTexts::same_frames))]
pub(crate) fn put_frames(
    text: &mut String,
    frames: &[Frame],
    sps: &Sps,
    header: &SliceHeader,
) -> Result<(), AllocError>
    ensures { OnOk result (Grows (string_bytes text.old) (string_bytes text.new)
        (list_text entry_text
        (zip (references frames.now header.now) (dpb frames.now sps.now header.now)))) }
{
    if header.is_idr() {
        put_text(text, "-")
    } else {
        put_marked(text, sps, header.frame_num, frames)
    }
}

/// Adds marked frames, as a picture of this frame_num sees them.
fn put_marked(
    text: &mut String,
    sps: &Sps,
    frame_num: u16,
    frames: &[Frame],
) -> Result<(), AllocError>
    ensures { OnOk result (Grows (string_bytes text.old) (string_bytes text.new)
        (list_text (frame_text sps.now frame_num) frames.now)) }
{
    let Some((first, others)) = frames.split_first() else {
        return put_text(text, "-");
    };
    put_frame(text, sps, frame_num, first)?;
    for frame in others {
        put_text(text, ",")?;
        put_frame(text, sps, frame_num, frame)?;
    }
    Ok(())
}

/// Adds a marked frame, as a picture of this frame_num sees it.
fn put_frame(text: &mut String, sps: &Sps, frame_num: u16, frame: &Frame) -> Result<(), AllocError>
    ensures { OnOk result (Grows (string_bytes text.old) (string_bytes text.new)
        (frame_text sps.now frame_num frame.now)) }
{
    let flags = DpbEntryFlags {
        valid: true,
        active: true,
        long_term: matches!(frame.term, Term::LongTerm { .. }),
    };
    let number = number_of(sps, frame_num, frame);
    put_entry(text, frame.id, number.cast_unsigned(), flags)
}

/// The number by which a picture of this frame_num refers to the frame.
fn number_of(sps: &Sps, frame_num: u16, frame: &Frame) -> i32
    ensures { result
        ≡ number_in (frame_num_wrap sps.now frame_num frame.now.frame_num) frame.now.term }
{
    match frame.term {
        Term::ShortTerm => frame_num_wrap(sps, frame_num, frame.frame_num) as i32,
        Term::LongTerm {
            long_term_frame_idx,
        } => i32::from(long_term_frame_idx),
    }
}
