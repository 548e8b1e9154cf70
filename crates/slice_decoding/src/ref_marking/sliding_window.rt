//! Sliding window marking (8.2.5.3).

ghost use Rattle.std.specs.Prelude.{◌≡◌, ◌≤◌, max, filter_map};
ghost use Rattle.std.specs.Int.{int_min};
ghost use Rattle.std.specs.List.{reduce};
ghost use Rattle.h264_types.specs.MarkedFrames.{most_frames};
ghost use Rattle.h264_types.specs.PicNums.{pic_num};
ghost use Rattle.slice_decoding.specs.SlidingWindow.{SlidesWindow};
ghost use Rattle.slice_decoding.specs.MarksAfter.{leaves, window_slid};

use crate::ref_marking::fault::MarkFault;
use crate::ref_marking::freeing::{short_term_place, take_out};
use h264_types::param_sets::Sps;
use h264_types::pictures::Marks;

// How many frames may be marked.
pub(crate) fn most_frames(sps: &Sps) -> usize
    ensures value { result ≡ most_frames sps.now }
    ensures bound { result ≤ 16 }
{
    usize::from(sps.max_num_ref_frames.get().max(1))
}

// The least FrameNumWrap of a short-term frame.
fn least_frame_num_wrap(marks: &Marks, sps: &Sps, frame_num: u16) -> Option<i64>
    ensures { result ≡ reduce int_min (filter_map (pic_num sps.now frame_num) marks.now.frames) }
{
    marks
        .frames()
        .iter()
        .filter_map(|frame| frame.pic_num(sps, frame_num))
        .min()
}

// Frees the short-term frame of the least FrameNumWrap, where as many frames are marked as may be.
#[tactic(auto, using(crate::proofs::StepLaws::slides_window), unfolding(crate::specs::MarksAfter::window_slid))]
pub(crate) fn slide_window(marks: &mut Marks, sps: &Sps, frame_num: u16) -> Result<(), MarkFault>
    ensures step { SlidesWindow sps.now frame_num marks.old (leaves result marks.new) }
    ensures exact { leaves result marks.new ≡ window_slid sps.now frame_num marks.old }
{
    if marks.frames.len() != most_frames(sps) {
        return Ok(());
    }
    let least = least_frame_num_wrap(marks, sps, frame_num).ok_or(MarkFault::NoShortTerm)?;
    let place = short_term_place(marks, sps, frame_num, least);
    take_out(marks, place, MarkFault::NoShortTerm)
}
