//! What is counted of a stream's units.

ghost use Rattle.std.specs.Prelude.{◌≡◌, ◌+◌, count_by, IfOk, if◌then◌else◌};
ghost use Rattle.std.specs.List.{list_any};
ghost use Rattle.unit_outcomes.specs.SeenUnits.{is_idr_picture};
ghost use Rattle.frame_requests.specs.FrameFlags.{is_b, is_p};
ghost use Rattle.stream_check.specs.StreamCounts.{begins_period, counted, counts_of, frames_of, has_fault, has_no_picture, is_bipredicted, is_intra, is_predicted, is_so, is_valid, longest_period, most_frames, slices_in, slices_of};

use h264_controls::Request;
use h264_types::slice_headers::SliceType;
use serde::Serialize;
use std::alloc::AllocError;
use unit_outcomes::Outcome;
use unit_outcomes::doubts::{Doubt, is_idr_picture};

/// What is counted of a stream.
#[derive(Clone, Copy, Serialize)]
pub struct StreamCounts {
    /// The access units.
    pub units: usize,
    /// Valid pictures of I slices alone, those with a P slice and none of type B, and those with a
    /// B slice.
    pub intra: usize,
    pub predicted: usize,
    pub bipredicted: usize,
    /// Valid IDR pictures.
    pub idr: usize,
    /// The slices of valid pictures.
    pub slices: usize,
    /// Units with a fault, and those without a slice.
    pub faults: usize,
    pub without_picture: usize,
    /// How often output order begins anew, and the most valid pictures from one such on.
    pub periods: usize,
    pub longest_period: usize,
    /// How many frames are in the decoded picture buffer at most, before a picture.
    pub most_frames: usize,
    /// Valid pictures that are in doubt.
    pub in_doubt: usize,
}

/// Which units are counted.
#[derive(Clone, Copy)]
pub(crate) enum Which {
    Intra,
    Predicted,
    Bipredicted,
    Idr,
    Fault,
    NoPicture,
    Period,
}

impl StreamCounts {
    /// What is counted of units with these outcomes, of which this is told.
    pub fn of(outcomes: &[Outcome], told: &[Doubt]) -> Result<StreamCounts, AllocError>
        ensures { IfOk result (λ counts. counts ≡ counts_of outcomes.now told.now) }
    {
        Ok(StreamCounts {
            units: outcomes.len(),
            intra: counted(outcomes, Which::Intra),
            predicted: counted(outcomes, Which::Predicted),
            bipredicted: counted(outcomes, Which::Bipredicted),
            idr: counted(outcomes, Which::Idr),
            slices: slices_in(outcomes)?,
            faults: counted(outcomes, Which::Fault),
            without_picture: counted(outcomes, Which::NoPicture),
            periods: counted(outcomes, Which::Period),
            longest_period: longest_period(outcomes)?,
            most_frames: most_frames(outcomes),
            in_doubt: in_doubt(told),
        })
    }
}

/// How many units are so.
fn counted(outcomes: &[Outcome], which: Which) -> usize
    ensures { result ≡ counted which outcomes.now }
{
    outcomes
        .iter()
        .filter(|outcome| is_so(which, outcome))
        .count()
}

/// Whether the unit is so.
fn is_so(which: Which, outcome: &Outcome) -> bool
    ensures { result ≡ is_so which outcome.now }
{
    match which {
        Which::Intra => is_intra(outcome),
        Which::Predicted => is_predicted(outcome),
        Which::Bipredicted => is_bipredicted(outcome),
        Which::Idr => is_idr_picture(outcome),
        Which::Fault => has_fault(outcome),
        Which::NoPicture => has_no_picture(outcome),
        Which::Period => begins_period(outcome),
    }
}

/// How many units are in doubt.
fn in_doubt(told: &[Doubt]) -> usize
    ensures { result ≡ count_by (λ doubt. doubt.in_doubt) told.now }
{
    told.iter().filter(|doubt| doubt.in_doubt).count()
}

/// Whether the unit is valid and has a B slice.
fn is_bipredicted(outcome: &Outcome) -> bool
    ensures { result ≡ is_bipredicted outcome.now }
{
    match outcome {
        Outcome::Plan(plan) => has_b(plan.requests.as_slice()),
        Outcome::Fault(_) => false,
        Outcome::Empty => false,
    }
}

/// Whether the unit is valid and has a P slice and no B slice.
fn is_predicted(outcome: &Outcome) -> bool
    ensures { result ≡ is_predicted outcome.now }
{
    match outcome {
        Outcome::Plan(plan) => {
            has_p(plan.requests.as_slice()) && !has_b(plan.requests.as_slice())
        }
        Outcome::Fault(_) => false,
        Outcome::Empty => false,
    }
}

/// Whether the unit is valid and has neither.
fn is_intra(outcome: &Outcome) -> bool
    ensures { result ≡ is_intra outcome.now }
{
    match outcome {
        Outcome::Plan(plan) => {
            !has_p(plan.requests.as_slice()) && !has_b(plan.requests.as_slice())
        }
        Outcome::Fault(_) => false,
        Outcome::Empty => false,
    }
}

/// Whether a slice is a P slice.
fn has_p(requests: &[Request]) -> bool
    ensures { result ≡ list_any is_p requests.now }
{
    requests.iter().any(is_p)
}

/// Whether a slice is a B slice.
fn has_b(requests: &[Request]) -> bool
    ensures { result ≡ list_any is_b requests.now }
{
    requests.iter().any(is_b)
}

/// Whether it is a P slice.
fn is_p(request: &Request) -> bool
    ensures { result ≡ is_p request.now }
{
    matches!(request.controls().slice_params.slice_type, SliceType::P)
}

/// Whether it is a B slice.
fn is_b(request: &Request) -> bool
    ensures { result ≡ is_b request.now }
{
    matches!(request.controls().slice_params.slice_type, SliceType::B)
}

/// Whether the unit has a fault.
fn has_fault(outcome: &Outcome) -> bool
    ensures { result ≡ has_fault outcome.now }
{
    match outcome {
        Outcome::Fault(_) => true,
        Outcome::Plan(_) => false,
        Outcome::Empty => false,
    }
}

/// Whether the unit has no slice.
fn has_no_picture(outcome: &Outcome) -> bool
    ensures { result ≡ has_no_picture outcome.now }
{
    match outcome {
        Outcome::Empty => true,
        Outcome::Plan(_) => false,
        Outcome::Fault(_) => false,
    }
}

/// Whether output order begins anew with the unit.
fn begins_period(outcome: &Outcome) -> bool
    ensures { result ≡ begins_period outcome.now }
{
    match outcome {
        Outcome::Plan(plan) => plan.begins_period,
        Outcome::Fault(_) => false,
        Outcome::Empty => false,
    }
}

/// How many slices a valid picture has.
fn slices_of(outcome: &Outcome) -> usize
    ensures { result ≡ slices_of outcome.now }
{
    match outcome {
        Outcome::Plan(plan) => plan.requests.as_slice().len(),
        Outcome::Fault(_) => 0,
        Outcome::Empty => 0,
    }
}

/// How many frames stand in the decoded picture buffer before the picture.
fn frames_of(outcome: &Outcome) -> usize
    ensures { result ≡ frames_of outcome.now }
{
    match outcome {
        Outcome::Plan(plan) => match plan.requests.as_slice() {
            [request, ..] => request.references.as_slice().len(),
            [] => 0,
        },
        Outcome::Fault(_) => 0,
        Outcome::Empty => 0,
    }
}

/// How many slices the valid pictures have together.
fn slices_in(outcomes: &[Outcome]) -> Result<usize, AllocError>
    ensures { IfOk result (λ slices. slices ≡ slices_in outcomes.now) }
{
    let mut slices: usize = 0;
    for outcome in outcomes {
        slices = slices.checked_add(slices_of(outcome)).ok_or(AllocError)?;
    }
    Ok(slices)
}

/// The most frames in the decoded picture buffer.
fn most_frames(outcomes: &[Outcome]) -> usize
    ensures { result ≡ most_frames outcomes.now }
{
    let mut most = 0;
    for outcome in outcomes {
        most = most.max(frames_of(outcome));
    }
    most
}

/// The most valid pictures from one with which output order begins anew up to the next.
fn longest_period(outcomes: &[Outcome]) -> Result<usize, AllocError>
    ensures { IfOk result (λ longest. longest ≡ longest_period outcomes.now) }
{
    let mut longest: usize = 0;
    let mut len: usize = 0;
    for outcome in outcomes {
        len = period_len(len, outcome)?;
        longest = longest.max(len);
    }
    Ok(longest)
}

/// How long the period is with the unit, which was so long before it.
fn period_len(len: usize, outcome: &Outcome) -> Result<usize, AllocError>
    ensures { IfOk result (λ after. after ≡ (if begins_period outcome.now then 1
        else if is_valid outcome.now then len + 1 else len)) }
{
    match outcome {
        Outcome::Plan(plan) if plan.begins_period => Ok(1),
        Outcome::Plan(_) => len.checked_add(1).ok_or(AllocError),
        Outcome::Fault(_) => Ok(len),
        Outcome::Empty => Ok(len),
    }
}
