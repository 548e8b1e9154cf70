//! What keeps a picture from being decoded after those before it (7.4.1.2.1, 7.4.3).

ghost use Rattle.std.specs.Prelude.{◌≡◌, ◌==◌, ◌∷◌, ◌&&◌, Bool, not, IsTrue, ◌↔◌, map};
ghost use Rattle.std.specs.List.{list_any};
ghost use Rattle.h264_types.specs.FrameNumbers.{max_frame_num};
ghost use Rattle.h264_types.specs.SameSets.{same_sps};
ghost use Rattle.slice_reading.specs.Faults.{first_shown};
ghost use Rattle.request_core.specs.Faults.{is_active, is_none, is_short_term, follows, repeats, picture_rows};

use crate::state::State;
use h264_types::param_sets::Sps;
use h264_types::pictures::{Frame, Term};
use h264_types::slice_headers::SliceHeader;
use unit_outcomes::ValidityFault;

/// The first fault that the picture shows after those before it.
pub(crate) fn picture_fault(state: &State, sps: &Sps, header: &SliceHeader) -> Option<ValidityFault>
    ensures { result ≡ first_shown (picture_rows state.now sps.now header.now) }
{
    if header.is_idr() {
        (header.frame_num != 0).then_some(ValidityFault::IdrFrameNum)
    } else if state.active.is_none() {
        Some(ValidityFault::NoIdr)
    } else if !is_active(state, sps) {
        Some(ValidityFault::SpsChange)
    } else if !follows(state, sps, header) {
        Some(ValidityFault::FrameNumGap)
    } else if header.is_reference() && repeats(state, header) {
        Some(ValidityFault::FrameNumRepeat)
    } else {
        None
    }
}

/// Whether the set agrees with that of the last IDR picture.
fn is_active(state: &State, sps: &Sps) -> bool
    ensures { result ≡ is_active sps.now state.now.active }
{
    match &state.active {
        Some(active) => active.is_same(sps),
        None => false,
    }
}

/// Whether frame_num is that of the last reference picture, or the next one.
fn follows(state: &State, sps: &Sps, header: &SliceHeader) -> bool
    ensures { result ≡ follows state.now sps.now header.now }
{
    let next = (u32::from(state.prev_ref_frame_num) + 1) % sps.max_frame_num();
    header.frame_num == state.prev_ref_frame_num || u32::from(header.frame_num) == next
}

/// Whether frame_num is that of the last reference picture, or of a short-term frame.
fn repeats(state: &State, header: &SliceHeader) -> bool
    ensures { result ≡ repeats state.now header.now }
{
    header.frame_num == state.prev_ref_frame_num
        || has_short_term(header.frame_num, state.marks.frames())
}

/// Whether any short-term frame has this frame_num.
fn has_short_term(frame_num: u16, frames: &[Frame]) -> bool
    ensures { result ≡ list_any (is_short_term frame_num) frames.now }
{
    frames.iter().any(
        |frame| -> bool
            ensures { result ≡ is_short_term frame_num frame.now }
        { is_short_term(frame_num, frame) },
    )
}

/// Whether the frame is a short-term frame with this frame_num.
fn is_short_term(frame_num: u16, frame: &Frame) -> bool
    ensures { result ≡ is_short_term frame_num frame.now }
{
    matches!(frame.term, Term::ShortTerm) && frame.frame_num == frame_num
}
