//! What a picture stands on: its counts, the lists of its slices, and the frames that are marked
//! after it.

ghost use Rattle.std.specs.Prelude.{◌≡◌, ◌∷◌, ◌++◌, map, Ok, Err, IfOk, IsTrue};
ghost use Rattle.slice_decoding.specs.Counting.{counts_of};
ghost use Rattle.h264_types.specs.PicOrderCnt.{are_in_range};
ghost use Rattle.h264_types.specs.Resetting.{counts_after_reset};
ghost use Rattle.slice_decoding.specs.MarksAfter.{marks_after};
ghost use Rattle.slice_reading.specs.Numbers.{gathered};
ghost use Rattle.request_core.specs.Fold.{counted, list_fault, listed, marked};
ghost use Rattle.slice_reading.specs.Answers.{Answers, AnswersAs};

use crate::picture::Listed;
use crate::state::State;
use h264_types::base::Shared;
use h264_types::pictures::{AuId, Counts, Marks};
use slice_decoding::order_count::count;
use slice_decoding::ref_lists::{ListFault, lists};
use slice_decoding::ref_marking::{MarkFault, mark_in_place};
use slice_reading::{Gathered, Slice, Unplanned};
use std::alloc::Global;
use unit_outcomes::ValidityFault;

/// The counts of the picture.
pub(crate) fn count_picture(state: &State, slice: &Slice) -> Result<Counts, Unplanned>
    ensures value { Answers result
        (counted (counts_of state.now.anchor slice.now.sps slice.now.header)) }
    ensures counted { IfOk result
        (λ counts. counts_of state.now.anchor slice.now.sps slice.now.header ≡ Ok counts) }
    ensures reset { IfOk result (λ counts. IsTrue
        (are_in_range (counts_after_reset slice.now.header counts))) }
{
    match count(&state.anchor, slice.sps(), slice.header()) {
        Ok(counts) => Ok(counts),
        Err(_) => Err(Unplanned::Fault(ValidityFault::OrderRange)),
    }
}

/// The frames that are marked after the picture; one that is no reference shares those before it.
#[tactic(auto, unfolding(slice_decoding::specs::MarksAfter::marks_after))]
pub(crate) fn mark_picture(
    alloc: Global,
    state: &State,
    id: AuId,
    slice: &Slice,
    counts: Counts,
) -> Result<Shared<Marks>, Unplanned>
    requires { IsTrue (are_in_range (counts_after_reset slice.now.header counts)) }
    ensures { Answers result
        (marked (marks_after state.now.marks id slice.now.sps slice.now.header counts)) }
{
    if !slice.header().is_reference() {
        return Ok(state.marks.clone()?);
    }
    let mut marks = state.marks.copy();
    mark_reference(&mut marks, id, slice, counts)?;
    Ok(Shared::new(alloc, marks)?)
}

/// Makes of the marked frames those after the picture.
fn mark_reference(
    marks: &mut Marks,
    id: AuId,
    slice: &Slice,
    counts: Counts,
) -> Result<(), Unplanned>
    requires { IsTrue (are_in_range (counts_after_reset slice.now.header counts)) }
    ensures { AnswersAs (λ done. marks.new) result
        (marked (marks_after marks.old id slice.now.sps slice.now.header counts)) }
{
    match mark_in_place(marks, id, slice.sps(), slice.header(), counts) {
        Ok(()) => Ok(()),
        Err(MarkFault::TooManyReferences) => Err(Unplanned::Fault(
            ValidityFault::TooManyReferences,
        )),
        Err(MarkFault::BadMarking | MarkFault::NoShortTerm) => Err(Unplanned::Fault(
            ValidityFault::BadMarking,
        )),
    }
}

/// The slice with its lists.
fn list_slice<'a>(marks: &Marks, counts: Counts, slice: &'a Slice) -> Result<Listed<'a>, Unplanned>
    ensures { Answers result (listed marks.now counts slice.now) }
{
    match lists(marks, slice.sps(), slice.header(), counts) {
        Ok((list_0, list_1)) => Ok(Listed {
            slice,
            list_0,
            list_1,
        }),
        Err(fault) => Err(Unplanned::Fault(list_fault(fault))),
    }
}

/// The fault of having no lists.
fn list_fault(fault: ListFault) -> ValidityFault
    ensures { result ≡ list_fault fault }
{
    match fault {
        ListFault::OrderTie => ValidityFault::OrderTie,
        ListFault::NoReference => ValidityFault::NoReference,
        ListFault::BadModification => ValidityFault::BadModification,
    }
}

/// The slices of the picture with their lists, or the least fault that any shows.
pub(crate) fn list_picture<'a>(
    alloc: Global,
    state: &State,
    counts: Counts,
    slices: &'a [Slice],
) -> Result<Vec<Listed<'a>>, Unplanned>
    ensures { AnswersAs (λ listed. listed.items) result
        (gathered (map (listed state.now.marks counts) slices.now)) }
{
    list_slices(alloc, &state.marks, counts, slices)
}

/// The lists of the slices, or the least fault that any shows.
fn list_slices<'a>(
    alloc: Global,
    marks: &Marks,
    counts: Counts,
    slices: &'a [Slice],
) -> Result<Vec<Listed<'a>>, Unplanned>
    ensures { AnswersAs (λ listed. listed.items) result
        (gathered (map (listed marks.now counts) slices.now)) }
{
    let mut gathered = Gathered::with_capacity(alloc, slices.len())?;
    for slice in slices {
        gathered.add(list_slice(marks, counts, slice))?;
    }
    gathered.finish()
}
