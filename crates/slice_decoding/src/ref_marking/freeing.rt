//! Frames that leave the set, found by their numbers.

ghost use Rattle.std.specs.Prelude.{◌≡◌, ◌<◌, ◌≤◌, ℕ, length, position, IfSome};
ghost use Rattle.h264_types.specs.MarkedFrames.{without_idx};
ghost use Rattle.slice_decoding.specs.MarksAfter.{has_pic_num, has_long_term_pic_num, leaves, without_at};
ghost use Rattle.slice_decoding.specs.Operations.{pic_num_x};

use crate::ref_marking::fault::MarkFault;
use h264_types::param_sets::Sps;
use h264_types::pictures::Marks;

// The place of the first short-term frame with this PicNum.
pub(crate) fn short_term_place(
    marks: &Marks,
    sps: &Sps,
    frame_num: u16,
    pic_num: i64,
) -> Option<usize>
    ensures { result ≡ position (has_pic_num sps.now frame_num pic_num) marks.now.frames }
{
    marks
        .frames()
        .iter()
        .position(|frame| frame.pic_num(sps, frame_num) == Some(pic_num))
}

// The place of the first long-term frame with this LongTermPicNum.
pub(crate) fn long_term_place(marks: &Marks, long_term_pic_num: u32) -> Option<usize>
    ensures { result ≡ position (has_long_term_pic_num long_term_pic_num) marks.now.frames }
{
    marks.frames().iter().position(|frame| frame.long_term_pic_num().map(u32::from)
        == Some(long_term_pic_num))
}

// Takes the frame at the place out, or answers the fault where there is none.
pub(crate) fn take_out(
    marks: &mut Marks,
    place: Option<usize>,
    fault: MarkFault,
) -> Result<(), MarkFault>
    requires { IfSome place (λ at. at < length marks.old.frames) }
    ensures { leaves result marks.new ≡ without_at fault marks.old place }
{
    let at = place.ok_or(fault)?;
    marks.frames.remove(at);
    Ok(())
}

// Takes the long-term frames of this index out.
pub(crate) fn take_out_long_term(marks: &mut Marks, long_term_frame_idx: u8)
    ensures { marks.new
        ≡ record marks.old { frames = without_idx long_term_frame_idx marks.old.frames } }
{
    marks
        .frames
        .retain(|frame| !frame.term.holds(long_term_frame_idx));
}

// picNumX, which operations 1 and 3 name.
pub(crate) fn pic_num_x(frame_num: u16, difference_of_pic_nums_minus1: u32) -> i64
    ensures { result ≡ pic_num_x frame_num difference_of_pic_nums_minus1 }
{
    i64::from(frame_num) - (i64::from(difference_of_pic_nums_minus1) + 1)
}
