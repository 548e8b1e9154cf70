//! Adaptive memory control marking: the operations (8.2.5.4).

ghost use Rattle.std.specs.Prelude.{◌≡◌, ◌<◌, length, slice_set, slice_index_or, IfSome, IsNone, Ok, Err, if◌then◌else◌};
ghost use Rattle.h264_types.specs.declared.pictures.frames.Frame.{Frame};
ghost use Rattle.h264_types.specs.MarkedFrames.{as_long_term};
ghost use Rattle.slice_decoding.specs.declared.ref_marking.fault.MarkFault.TheVariants.{BadMarking};
ghost use Rattle.slice_decoding.specs.Operations.{FreesShortTerm, FreesLongTerm, AssignsLongTerm, LimitsLongTerm, Operates, OperatesAll, is_below};
ghost use Rattle.slice_decoding.specs.MarksAfter.{leaves, allows_idx, short_term_freed, long_term_freed, long_term_assigned, long_term_limited, operated, all_operated};

use crate::ref_marking::fault::MarkFault;
use crate::ref_marking::freeing::{
    long_term_place, pic_num_x, short_term_place, take_out, take_out_long_term,
};
use h264_types::param_sets::Sps;
use h264_types::pictures::{Marks, Term};
use h264_types::slice_headers::MemoryManagementControlOperation as Operation;

// 1: a short-term frame is freed (8.2.5.4.1).
fn free_short_term(
    marks: &mut Marks,
    sps: &Sps,
    frame_num: u16,
    difference_of_pic_nums_minus1: u32,
) -> Result<(), MarkFault>
    ensures step { FreesShortTerm sps.now frame_num difference_of_pic_nums_minus1 marks.old
        (leaves result marks.new) }
    ensures exact { leaves result marks.new
        ≡ short_term_freed sps.now frame_num difference_of_pic_nums_minus1 marks.old }
{
    let number = pic_num_x(frame_num, difference_of_pic_nums_minus1);
    let place = short_term_place(marks, sps, frame_num, number);
    take_out(marks, place, MarkFault::BadMarking)
}

// 2: a long-term frame is freed (8.2.5.4.2).
fn free_long_term(marks: &mut Marks, long_term_pic_num: u32) -> Result<(), MarkFault>
    ensures step { FreesLongTerm long_term_pic_num marks.old (leaves result marks.new) }
    ensures exact { leaves result marks.new ≡ long_term_freed long_term_pic_num marks.old }
{
    let place = long_term_place(marks, long_term_pic_num);
    take_out(marks, place, MarkFault::BadMarking)
}

// 3: a short-term frame becomes long-term, and another frame that holds the index is freed
// (8.2.5.4.3).
#[tactic(auto, using(crate::proofs::StepLaws::assigns_long_term), unfolding(crate::specs::MarksAfter::long_term_assigned))]
fn assign_long_term(
    marks: &mut Marks,
    sps: &Sps,
    frame_num: u16,
    difference_of_pic_nums_minus1: u32,
    long_term_frame_idx: u32,
) -> Result<(), MarkFault>
    ensures step { AssignsLongTerm sps.now frame_num
        difference_of_pic_nums_minus1 long_term_frame_idx marks.old (leaves result marks.new) }
    ensures exact { leaves result marks.new ≡ long_term_assigned sps.now frame_num
        difference_of_pic_nums_minus1 long_term_frame_idx marks.old }
{
    let long_term_frame_idx = allowed(marks, long_term_frame_idx)?;
    let number = pic_num_x(frame_num, difference_of_pic_nums_minus1);
    take_out_long_term(marks, long_term_frame_idx);
    let place = short_term_place(marks, sps, frame_num, number);
    with_long_term(marks, place, long_term_frame_idx)
}

// Makes the frame at the place long-term.
fn with_long_term(
    marks: &mut Marks,
    place: Option<usize>,
    long_term_frame_idx: u8,
) -> Result<(), MarkFault>
    requires { IfSome place (λ at. at < length marks.old.frames) }
    ensures none { IsNone place → leaves result marks.new ≡ Err BadMarking }
    ensures some { (other : Frame) → IfSome place (λ at.
        leaves result marks.new ≡ Ok (record marks.old {
          frames = slice_set marks.old.frames at
              (as_long_term long_term_frame_idx (slice_index_or marks.old.frames at other));
        })) }
{
    let at = place.ok_or(MarkFault::BadMarking)?;
    let frame = &mut marks.frames.as_mut_slice()[at];
    frame.term = Term::LongTerm {
        long_term_frame_idx,
    };
    Ok(())
}

// 4: the greatest index is set, and long-term frames above it are freed (8.2.5.4.4).
#[tactic(auto, using(crate::proofs::StepLaws::limits_long_term), unfolding(crate::specs::MarksAfter::long_term_limited))]
fn limit_long_term(
    marks: &mut Marks,
    sps: &Sps,
    max_long_term_frame_idx_plus1: u32,
) -> Result<(), MarkFault>
    ensures step { LimitsLongTerm sps.now max_long_term_frame_idx_plus1 marks.old
        (leaves result marks.new) }
    ensures exact { leaves result marks.new
        ≡ long_term_limited sps.now max_long_term_frame_idx_plus1 marks.old }
{
    if max_long_term_frame_idx_plus1 > u32::from(sps.max_num_ref_frames.get()) {
        return Err(MarkFault::BadMarking);
    }
    let plus1 = max_long_term_frame_idx_plus1 as u8;
    marks.frames.retain(|frame| is_below(frame.term, plus1));
    marks.max_long_term_frame_idx = plus1.checked_sub(1);
    Ok(())
}

// Whether it is a short-term frame, or its index is below the number.
fn is_below(term: Term, plus1: u8) -> bool
    ensures { result ≡ is_below plus1 term }
{
    match term {
        Term::ShortTerm => true,
        Term::LongTerm {
            long_term_frame_idx,
        } => long_term_frame_idx < plus1,
    }
}

// An index that isn't above the greatest.
pub(crate) fn allowed(marks: &Marks, long_term_frame_idx: u32) -> Result<u8, MarkFault>
    ensures { result ≡ (if allows_idx marks.now.max_long_term_frame_idx long_term_frame_idx
        then Ok long_term_frame_idx else Err BadMarking) }
{
    match marks.max_long_term_frame_idx {
        Some(greatest) if long_term_frame_idx <= u32::from(greatest) => {
            Ok(long_term_frame_idx as u8)
        }
        _ => Err(MarkFault::BadMarking),
    }
}

// An operation, but for the current frame.
#[tactic(auto, using(crate::proofs::StepLaws::operates), unfolding(crate::specs::MarksAfter::operated))]
fn operate(
    marks: &mut Marks,
    sps: &Sps,
    frame_num: u16,
    operation: Operation,
) -> Result<(), MarkFault>
    ensures step { Operates sps.now frame_num operation marks.old (leaves result marks.new) }
    ensures exact { leaves result marks.new ≡ operated sps.now frame_num operation marks.old }
{
    match operation {
        Operation::FreeShortTerm {
            difference_of_pic_nums_minus1,
        } => free_short_term(marks, sps, frame_num, difference_of_pic_nums_minus1),
        Operation::FreeLongTerm { long_term_pic_num } => {
            free_long_term(marks, long_term_pic_num)
        }
        Operation::AssignLongTerm {
            difference_of_pic_nums_minus1,
            long_term_frame_idx,
        } => assign_long_term(
            marks,
            sps,
            frame_num,
            difference_of_pic_nums_minus1,
            long_term_frame_idx,
        ),
        Operation::LimitLongTerm {
            max_long_term_frame_idx_plus1,
        } => limit_long_term(marks, sps, max_long_term_frame_idx_plus1),
        Operation::FreeAll => {
            *marks = Marks::new();
            Ok(())
        }
        Operation::CurrentLongTerm { .. } => Ok(()),
    }
}

// The operations, one after the other.
#[tactic(auto, using(crate::proofs::StepLaws::operates_all))]
pub(crate) fn operate_all(
    marks: &mut Marks,
    sps: &Sps,
    frame_num: u16,
    operations: &[Operation],
) -> Result<(), MarkFault>
    ensures step { OperatesAll sps.now frame_num operations.now marks.old
        (leaves result marks.new) }
    ensures exact { leaves result marks.new
        ≡ all_operated sps.now frame_num operations.now marks.old }
{
    for operation in operations {
        operate(marks, sps, frame_num, *operation)?;
    }
    Ok(())
}
