//! Decoded reference picture marking of a picture (8.2.5.1).

ghost use Rattle.std.specs.Prelude.{◌≡◌, IsTrue, Result};
ghost use Rattle.slice_decoding.specs.declared.ref_marking.fault.MarkFault.{MarkFault};
ghost use Rattle.h264_types.specs.MarkedFrames.{Marked, with_term};
ghost use Rattle.h264_types.specs.PicOrderCnt.{are_in_range};
ghost use Rattle.h264_types.specs.Resetting.{counts_after_reset};
ghost use Rattle.h264_types.specs.declared.pictures.frames.Term.TheVariants.{ShortTerm};
ghost use Rattle.slice_decoding.specs.Marking.{current_frame, idr_marked, Joins, JoinsAs, MarksPicture};
ghost use Rattle.slice_decoding.specs.MarksAfter.{leaves, marks_after, adaptively_marked, joined, joined_as};

use crate::ref_marking::contradictions::{contradict, current_idx};
use crate::ref_marking::fault::MarkFault;
use crate::ref_marking::freeing::take_out_long_term;
use crate::ref_marking::operations::{allowed, operate_all};
use crate::ref_marking::sliding_window::{most_frames, slide_window};
use h264_types::param_sets::Sps;
use h264_types::pictures::{AuId, Counts, Frame, Marks, Term, after_reset, resets};
use h264_types::slice_headers::{
    DecRefPicMarking, MemoryManagementControlOperation as Operation, SliceHeader,
};

/// The frames that are marked after a picture: the set before it, its access unit's id, its
/// sequence parameter set, its slice header, and its counts before resetting.
///
/// A picture that is no reference leaves the set. Frames that stay keep their order, and the
/// current one is last. Where several frames of the set have the number that an operation names,
/// the first in decode order is meant.
///
/// - `BadMarking`: an operation names a frame that isn't there or an index above the greatest;
///   operation 4 is above max_num_ref_frames; 4, 5 or 6 stands twice; 5 stands with 1, 2 or 3.
/// - `NoShortTerm`: the sliding window is full and has no short-term frame.
/// - `TooManyReferences`: as many frames are marked already as may be. It is looked for last.
#[tactic(auto, using(crate::proofs::MarkingLaws::marks, crate::proofs::MarkingLaws::marks_only))]
pub fn mark(
    marks: &Marks,
    id: AuId,
    sps: &Sps,
    header: &SliceHeader,
    counts: Counts,
) -> Result<Marks, MarkFault>
    requires { IsTrue (are_in_range (counts_after_reset header.now counts)) }
    ensures marked { MarksPicture id sps.now header.now counts marks.now result }
    ensures only { (other : Result Marked MarkFault) →
        MarksPicture id sps.now header.now counts marks.now other → other ≡ result }
    ensures exact { result ≡ marks_after marks.now id sps.now header.now counts }
{
    let mut after = marks.copy();
    mark_in_place(&mut after, id, sps, header, counts)?;
    Ok(after)
}

/// Changes the set of the frames that are marked before a picture into that after it, which `mark`
/// answers. Where the marking can't be done, nothing is said of what is left of the set.
#[tactic(auto, unfolding(crate::specs::MarksAfter::marks_after))]
pub fn mark_in_place(
    marks: &mut Marks,
    id: AuId,
    sps: &Sps,
    header: &SliceHeader,
    counts: Counts,
) -> Result<(), MarkFault>
    requires { IsTrue (are_in_range (counts_after_reset header.now counts)) }
    ensures { leaves result marks.new ≡ marks_after marks.old id sps.now header.now counts }
{
    if !header.is_reference() {
        return Ok(());
    }
    let current = current_frame(id, header, counts);
    match &header.dec_ref_pic_marking {
        DecRefPicMarking::Idr {
            long_term_reference_flag,
            ..
        } => {
            mark_idr(marks, *long_term_reference_flag, current);
            Ok(())
        }
        DecRefPicMarking::SlidingWindow => {
            slide_window(marks, sps, header.frame_num)?;
            join(marks, sps, current)
        }
        DecRefPicMarking::Adaptive { operations } => mark_adaptively(
            marks,
            sps,
            header.frame_num,
            operations.as_slice(),
            current,
        ),
    }
}

// The frame of the current picture as a short-term frame.
fn current_frame(id: AuId, header: &SliceHeader, counts: Counts) -> Frame
    requires { IsTrue (are_in_range (counts_after_reset header.now counts)) }
    ensures { result ≡ current_frame id header.now counts ShortTerm }
{
    Frame {
        id,
        frame_num: if resets(header) { 0 } else { header.frame_num },
        term: Term::ShortTerm,
        counts: after_reset(header, counts),
    }
}

// The only frame that is marked after an IDR picture.
fn mark_idr(marks: &mut Marks, long_term_reference_flag: bool, current: Frame)
    ensures { marks.new ≡ idr_marked long_term_reference_flag (with_term current) }
{
    *marks = Marks::new();
    if long_term_reference_flag {
        marks.max_long_term_frame_idx = Some(0);
        let term = Term::LongTerm {
            long_term_frame_idx: 0,
        };
        marks.frames.push(current.with_term(term));
    } else {
        marks.frames.push(current.with_term(Term::ShortTerm));
    }
}

// The current frame joins the others, where there is room for it.
#[tactic(auto, using(crate::proofs::StepLaws::joins), unfolding(crate::specs::MarksAfter::joined))]
fn join(marks: &mut Marks, sps: &Sps, current: Frame) -> Result<(), MarkFault>
    ensures step { Joins sps.now current marks.old (leaves result marks.new) }
    ensures exact { leaves result marks.new ≡ joined sps.now current marks.old }
{
    if marks.frames.len() >= most_frames(sps) {
        return Err(MarkFault::TooManyReferences);
    }
    marks.frames.push(current);
    Ok(())
}

// Adaptive memory control marking (8.2.5.4).
#[tactic(auto, unfolding(crate::specs::MarksAfter::adaptively_marked))]
fn mark_adaptively(
    marks: &mut Marks,
    sps: &Sps,
    frame_num: u16,
    operations: &[Operation],
    current: Frame,
) -> Result<(), MarkFault>
    ensures { leaves result marks.new
        ≡ adaptively_marked sps.now frame_num operations.now (with_term current) marks.old }
{
    if contradict(operations) {
        return Err(MarkFault::BadMarking);
    }
    operate_all(marks, sps, frame_num, operations)?;
    join_as(marks, sps, current, current_idx(operations))
}

// The current frame joins the others: with an index as a long-term frame, and another frame that
// holds the index is freed (8.2.5.4.6).
#[tactic(auto, using(crate::proofs::StepLaws::joins_as), unfolding(crate::specs::MarksAfter::holder_freed))]
fn join_as(
    marks: &mut Marks,
    sps: &Sps,
    current: Frame,
    long_term_frame_idx: Option<u32>,
) -> Result<(), MarkFault>
    ensures step { JoinsAs long_term_frame_idx sps.now (with_term current) marks.old
        (leaves result marks.new) }
    ensures exact { leaves result marks.new
        ≡ joined_as long_term_frame_idx sps.now (with_term current) marks.old }
{
    let Some(idx) = long_term_frame_idx else {
        return join(marks, sps, current.with_term(Term::ShortTerm));
    };
    let long_term_frame_idx = allowed(marks, idx)?;
    let current = current.with_term(Term::LongTerm {
        long_term_frame_idx,
    });
    take_out_long_term(marks, long_term_frame_idx);
    join(marks, sps, current)
}
