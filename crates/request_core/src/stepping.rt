//! One step of the fold over a stream.

ghost use Rattle.std.specs.Prelude.{◌≡◌, ◌<◌, ◌∷◌, ◌++◌, ◌+◌, ◌^◌, Ok, Some, IsTrue, IfOk, OnOk, OnErr, if◌then◌else◌};
ghost use Rattle.slice_decoding.specs.Counting.{counts_of};
ghost use Rattle.h264_types.specs.Pictures.{is_idr};
ghost use Rattle.h264_types.specs.PicOrderCnt.{are_in_range};
ghost use Rattle.h264_types.specs.Resetting.{counts_after_reset};
ghost use Rattle.slice_reading.specs.Faults.{first_shown};
ghost use Rattle.request_core.specs.Faults.{picture_rows};
ghost use Rattle.request_core.specs.StepResults.{step_in};
ghost use Rattle.request_core.specs.Fold.{passes, picture_after, picture_of, fold_step, state_after, plan_of, next_ref_frame_num, outcomes_of, outcomes_from};
ghost use Rattle.request_core.specs.Pictures.{plan_in};
ghost use Rattle.slice_reading.specs.Answers.{AnswersAs};

use crate::checks::picture_fault;
use crate::picture::{Listed, PlannedPicture, StepResult};
use crate::planning::{count_picture, list_picture, mark_picture};
use crate::reading::UnitRead;
use crate::state::State;
use crate::steps::Steps;
use access_unit::Unit;
use h264_types::base::Shared;
use h264_types::param_sets::Sps;
use h264_types::pictures::{AuId, Counts, Marks, after_reset, resets};
use slice_decoding::order_count::anchor_after;
use slice_reading::{Slice, Unplanned, slice_fault};
use std::alloc::{AllocError, Global};
use unit_outcomes::{Outcome, ValidityFault};

/// One step of the fold: the state after the unit, and the unit's outcome.
///
/// It counts one step where it answers. Where memory runs out nothing is changed, and nothing
/// counted.
pub fn step(
    alloc: Global,
    state: &State,
    id: AuId,
    unit: &Unit,
    steps: &mut Steps,
) -> Result<(State, Outcome), AllocError>
    requires { steps.old + 1 < 2 ^ 64 }
    ensures value { IfOk result (λ answer. answer ≡ fold_step state.now id unit.now) }
    ensures counted { OnOk result (steps.new ≡ steps.old + 1) }
    ensures kept { OnErr result (steps.new ≡ steps.old) }
{
    let read = UnitRead::of(alloc, state, unit)?;
    let (after, finding) = read.step(alloc, id)?;
    let outcome = finding.outcome(alloc)?;
    steps.raise();
    Ok((after, outcome))
}

/// What the slices of a unit lead to; without any there is no picture.
pub(crate) fn plan_picture<'a>(
    alloc: Global,
    state: &'a State,
    id: AuId,
    slices: &'a [Slice],
) -> Result<(State, StepResult<'a>), Unplanned>
    ensures { AnswersAs step_in result (picture_of state.now id slices.now) }
{
    match slices {
        [first, others @ ..] => {
            pass(slice_fault(first, others))?;
            plan_first(alloc, state, id, first, slices)
        }
        [] => Ok((state.copy()?, StepResult::Empty)),
    }
}

/// What the slices of a picture lead to, whose first slice is this one, where they agree.
fn plan_first<'a>(
    alloc: Global,
    state: &'a State,
    id: AuId,
    first: &Slice,
    slices: &'a [Slice],
) -> Result<(State, StepResult<'a>), Unplanned>
    ensures { AnswersAs step_in result (picture_after state.now id first.now slices.now) }
{
    follow(state, first)?;
    let counts = count_picture(state, first)?;
    let listed = list_picture(alloc, state, counts, slices)?;
    let marks = mark_picture(alloc, state, id, first, counts)?;
    let after = state_after(state, first, counts, marks)?;
    let picture = make_picture(state, id, first, counts, listed);
    Ok((after, StepResult::Picture(picture)))
}

/// The picture, of which requests can be made.
fn make_picture<'a>(
    state: &'a State,
    id: AuId,
    first: &Slice,
    counts: Counts,
    slices: Vec<Listed<'a>>,
) -> PlannedPicture<'a>
    requires { IsTrue (are_in_range (counts_after_reset first.now.header counts)) }
    ensures { plan_in result ≡ plan_of state.now id first.now counts slices.entry.items }
{
    PlannedPicture {
        id,
        marks: &state.marks,
        counts,
        order: after_reset(first.header(), counts).pic_order_cnt(),
        begins_period: first.header().is_idr() || resets(first.header()),
        slices,
    }
}

/// Ends the planning at the first fault that the picture shows after those before it.
fn follow(state: &State, first: &Slice) -> Result<(), Unplanned>
    ensures { AnswersAs (λ passed. record {}) result
        (passes (first_shown (picture_rows state.now first.now.sps first.now.header))) }
{
    pass(picture_fault(state, first.sps(), first.header()))
}

/// Ends the planning at a fault.
pub(crate) fn pass(fault: Option<ValidityFault>) -> Result<(), Unplanned>
    ensures { AnswersAs (λ passed. record {}) result (passes fault) }
{
    match fault {
        Some(fault) => Err(Unplanned::Fault(fault)),
        None => Ok(()),
    }
}

/// The state after a picture.
fn state_after(
    state: &State,
    slice: &Slice,
    counts: Counts,
    marks: Shared<Marks>,
) -> Result<State, AllocError>
    requires { counts_of state.now.anchor slice.now.sps slice.now.header ≡ Ok counts }
    ensures { IfOk result (λ after. after ≡ state_after state.now slice.now counts marks) }
{
    Ok(State {
        tables: state.tables.clone()?,
        active: next_active(state, slice)?,
        anchor: anchor_after(&state.anchor, slice.sps(), slice.header(), counts),
        prev_ref_frame_num: next_ref_frame_num(state, slice),
        marks,
    })
}

/// The set of the last IDR picture after this one.
fn next_active(state: &State, slice: &Slice) -> Result<Option<Shared<Sps>>, AllocError>
    ensures { IfOk result (λ active. active
        ≡ (if is_idr slice.now.header then Some slice.now.sps else state.now.active)) }
{
    if slice.header().is_idr() {
        Ok(Some(slice.sps().clone()?))
    } else {
        state.active()
    }
}

/// The frame_num that the next picture has to follow.
fn next_ref_frame_num(state: &State, slice: &Slice) -> u16
    ensures { result ≡ next_ref_frame_num state.now slice.now }
{
    if !slice.header().is_reference() {
        state.prev_ref_frame_num
    } else if resets(slice.header()) {
        0
    } else {
        slice.header().frame_num
    }
}

/// Each unit's outcome of a stream, in order: the plain fold that other ways are compared with.
///
/// The units stand with their ids, which differ.
pub fn scratch(alloc: Global, units: &[(AuId, Unit)]) -> Result<Vec<Outcome>, AllocError>
    ensures { IfOk result (λ outcomes. outcomes.items ≡ outcomes_of units.now) }
{
    let mut state = State::new(alloc)?;
    let mut steps = Steps::new();
    let mut outcomes = Vec::with_capacity(alloc, units.len())?;
    for unit in units {
        let (after, outcome) = step(alloc, &state, unit.0, &unit.1, &mut steps)?;
        state = after;
        outcomes.push(outcome)?;
    }
    Ok(outcomes)
}
