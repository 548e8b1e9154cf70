//! The fold over streams made by hand.

mod each_fault;
mod limits;
mod picture_faults;
mod slice_faults;
mod steps;
mod streams;
mod writer;

use super::row_holds;
use access_unit::{Refused, Unit, read_unit};
use h264_controls::Request;
use h264_types::pictures::AuId;
use h264_types::slice_headers::SliceType;
use request_core::{State, Steps, scratch, step};
use std::alloc::{AllocError, AllocGlobal, Global};
use std::process::Abort;
use std::test::Fail;
use unit_outcomes::{Outcome, Plan, ValidityFault};

/// Sets and an IDR picture, of one macroblock, count type 2 and one reference frame.
const A: [u8; 23] = [
    0, 0, 1, 0x67, 0x42, 0x00, 0x0A, 0xDA, 0x79, 0, 0, 1, 0x68, 0xCE, 0x38, 0x80, 0, 0, 1, 0x65,
    0x88, 0x84, 0x80,
];

/// The slice of that picture.
const IDR: &[u8] = &[0, 0, 1, 0x65, 0x88, 0x84, 0x80];

/// A P picture with frame_num 1.
const P1: [u8; 6] = [0, 0, 1, 0x41, 0x9A, 0x23];

/// A P picture with frame_num 2.
const P2: [u8; 6] = [0, 0, 1, 0x41, 0x9A, 0x43];

/// The access unit of a text that is one, unless memory runs out.
pub(super) fn unit(rt: &(impl Abort + AllocGlobal), text: &[u8]) -> Result<Unit, AllocError> {
    match read_unit(rt.alloc(), text) {
        Ok(unit) => Ok(unit),
        Err(Refused::Memory) => Err(AllocError),
        Err(_) => panic!(rt; "the text is no unit"),
    }
}

/// The units under the ids 1, 2 and so on.
fn stream(
    rt: &(impl Abort + AllocGlobal),
    texts: &[&[u8]],
) -> Result<Vec<(AuId, Unit)>, AllocError> {
    let mut stream = Vec::new(rt.alloc());
    let mut id = 0u32;
    for text in texts {
        id = id.saturating_add(1);
        stream.push((AuId::new(id), unit(rt, *text)?))?;
    }
    Ok(stream)
}

/// The outcomes of the units of these texts.
fn outcomes_of(
    rt: &(impl Abort + AllocGlobal),
    texts: &[&[u8]],
) -> Result<Vec<Outcome>, AllocError> {
    let stream = stream(rt, texts)?;
    scratch(rt.alloc(), &stream)
}

/// The unit's fault, nothing where it has none.
fn fault_of(outcome: &Outcome) -> Option<ValidityFault> {
    match outcome {
        Outcome::Plan(_) | Outcome::Empty => None,
        Outcome::Fault(fault) => Some(*fault),
    }
}

/// The units have these faults, nothing standing for one that has none.
fn have_faults(outcomes: &[Outcome], faults: &[Option<ValidityFault>]) -> bool {
    outcomes.len() == faults.len()
        && outcomes
            .iter()
            .zip(faults)
            .all(|(outcome, fault)| fault_of(outcome) == *fault)
}

/// The one request of a valid unit of one slice.
fn only_request(outcome: &Outcome) -> Option<&Request> {
    match outcome {
        Outcome::Plan(plan) => match plan.requests.as_slice() {
            [request] => Some(request),
            _ => None,
        },
        Outcome::Fault(_) | Outcome::Empty => None,
    }
}

/// The request of the IDR picture.
fn is_intra_request(request: &Request) -> bool {
    let slice = &request.controls().slice_params;
    request.bytes().as_slice() == IDR
        && request.timestamp == 1000
        && slice.header_bit_size == 25
        && slice.slice_type == SliceType::I
        && slice.ref_pic_list0.entries().is_empty()
        && request.controls().decode_params.dpb.as_slice().is_empty()
        && request.reference(0).is_none()
        && !request.hold
}

/// The plan of the IDR picture.
fn is_intra_plan(plan: &Plan) -> bool {
    plan.begins_period && (plan.counts.top, plan.counts.bottom, plan.order) == (0, 0, 0)
}

/// The outcome of the IDR picture.
fn is_intra(outcome: &Outcome) -> bool {
    match (outcome, only_request(outcome)) {
        (Outcome::Plan(plan), Some(request)) => is_intra_plan(plan) && is_intra_request(request),
        _ => false,
    }
}

/// The IDR picture's first step, counted once.
fn steps_to_the_picture(alloc: Global, state: &State, unit: &Unit) -> Result<bool, AllocError> {
    let mut steps = Steps::new();
    let (_, outcome) = step(alloc, state, AuId::new(1), unit, &mut steps)?;
    Ok(is_intra(&outcome) && steps.count() == 1)
}

#[test]
fn plans_an_idr_picture(rt: HostRuntime) -> Result<(), Fail> {
    let state = State::new(rt.alloc())?;
    let unit = unit(&rt, &A)?;
    assert!(rt; steps_to_the_picture(rt.alloc(), &state, &unit)?);
    Ok(())
}

/// The request of the P picture after the IDR picture.
fn is_inter_request(request: &Request) -> bool {
    let [entry] = request.controls().decode_params.dpb.as_slice() else {
        return false;
    };
    request.reference_ts(0) == Some(1000)
        && entry.pic_num == 0
        && !entry.flags.long_term
        && request.controls().slice_params.ref_pic_list0.entries() == [Some(0)].as_slice()
}

/// The outcome of the P picture after the IDR picture.
fn is_inter(outcome: &Outcome) -> bool {
    match (outcome, only_request(outcome)) {
        (Outcome::Plan(plan), Some(request)) => {
            (plan.counts.top, plan.counts.bottom) == (2, 2) && is_inter_request(request)
        }
        _ => false,
    }
}

#[test]
fn plans_a_picture_that_refers(rt: HostRuntime) -> Result<(), Fail> {
    let outcomes = outcomes_of(&rt, &[&A, &P1])?;
    assert!(rt; outcomes.len() == 2 && is_inter(&outcomes[1]));
    Ok(())
}

/// Texts of units, and the faults of these.
type Row = (&'static [&'static [u8]], &'static [Option<ValidityFault>]);

const FAULTS: [Row; 2] = [
    // P2 skips frame_num 1; P1 after it follows A: a fault changes nothing but sets.
    (
        &[&A, &P2, &P1, &P2],
        &[None, Some(ValidityFault::FrameNumGap), None, None],
    ),
    (
        &[&P1, &A, &[0, 0, 1, 0x41, 0x9A], &P1, &P1],
        &[
            Some(ValidityFault::MissingPps),
            None,
            Some(ValidityFault::HeaderCut),
            None,
            Some(ValidityFault::FrameNumRepeat),
        ],
    ),
];

#[test]
fn names_the_first_fault(rt: HostRuntime) -> Result<(), Fail> {
    for (row, (texts, faults)) in FAULTS.iter().enumerate() {
        row_holds(&rt, row, have_faults(&outcomes_of(&rt, texts)?, faults));
    }
    assert!(rt; ValidityFault::FrameNumRepeat.number() == 12);
    Ok(())
}

/// The sequence parameter set of A alone, and another one under its id.
const SPS: &[u8] = &[0, 0, 1, 0x67, 0x42, 0x00, 0x0A, 0xDA, 0x79];

const OTHER_SPS: &[u8] = &[0, 0, 1, 0x67, 0x42, 0x00, 0x0A, 0xDB, 0x79];

/// Sets alone among pictures: P1 names the set that was sent last, and refers to A, whose set is
/// the active one.
const SETS_ALONE: [&[u8]; 5] = [&A, OTHER_SPS, &P1, SPS, &P1];

/// The outcomes of these units: the second and the fourth have no picture.
const AFTER_SETS: [Option<ValidityFault>; 5] = [
    None,
    None,
    Some(ValidityFault::SpsChange),
    None,
    None,
];

/// The unit has no picture.
fn is_empty(outcome: Option<&Outcome>) -> bool {
    matches!(outcome, Some(Outcome::Empty))
}

#[test]
fn puts_sets_of_a_unit_without_a_slice(rt: HostRuntime) -> Result<(), Fail> {
    let outcomes = outcomes_of(&rt, &SETS_ALONE)?;
    assert!(rt; have_faults(&outcomes, &AFTER_SETS));
    assert!(rt; is_empty(outcomes.get(1)) && is_empty(outcomes.get(3)));
    assert!(rt; outcomes.len() == 5 && is_inter(&outcomes[4]));
    Ok(())
}

#[test]
fn tells_faults(rt: HostRuntime) -> Result<(), Fail> {
    let fault = ValidityFault::FrameNumGap;
    let told = format!(in rt.alloc(); "{fault}")?;
    assert!(rt; fault.name() == "FrameNumGap");
    assert!(rt; told.as_str() == "frame_num is neither the last one nor the next");
    Ok(())
}

#[test]
fn refused_scratch(rt: HostRuntime) {
    // The units take memory too.
    if let Ok(stream) = stream(&rt, &[&A, &P1]) {
        if let Ok(outcomes) = scratch(rt.alloc(), &stream) {
            assert!(rt; outcomes.len() == 2);
        }
    }
}
