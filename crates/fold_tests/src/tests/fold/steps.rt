//! Each fault by `step` itself, one unit after the other.

use super::each_fault::{I, P, PPS, Stream, written};
use super::picture_faults::PICTURE_FAULTS;
use super::row_holds;
use super::slice_faults::SLICE_FAULTS;
use super::writer::{Nal, Order, Slice};
use Order::Zero;
use access_unit::Unit;
use h264_types::pictures::AuId;
use request_core::{State, Steps, step};
use std::alloc::{AllocError, AllocGlobal, Global};
use std::process::Abort;
use std::test::Fail;
use unit_outcomes::{Outcome, ValidityFault};

/// A long-term frame fills the window, which has no short-term frame to free.
const NO_SHORT_TERM: [Stream; 1] = [(
    &[
        &[
            Nal::Sps(0, Zero(0, 0), 1),
            PPS,
            Nal::Slice(Slice { long_term: 1, ..I }),
        ],
        &[Nal::Slice(P)],
    ],
    ValidityFault::BadMarking,
)];

/// One step after the state.
pub(super) fn step_once(
    alloc: Global,
    state: &State,
    unit: &Unit,
) -> Result<(State, Outcome), AllocError> {
    step(alloc, state, AuId::new(1), unit, &mut Steps::new())
}

/// The state after one unit more, and the unit's fault.
fn after(
    rt: &(impl Abort + AllocGlobal),
    state: &State,
    nals: &[Nal],
) -> Result<(State, Option<ValidityFault>), Fail> {
    let unit = written(rt, nals)?;
    let (after, outcome) = step_once(rt.alloc(), state, &unit)?;
    Ok((after, fault_of(&outcome)))
}

/// The fault of the last unit.
fn last_fault(
    rt: &(impl Abort + AllocGlobal),
    units: &[&[Nal]],
) -> Result<Option<ValidityFault>, Fail> {
    let mut state = State::new(rt.alloc())?;
    let mut last = None;
    for nals in units {
        let (after, fault) = after(rt, &state, *nals)?;
        state = after;
        last = fault;
    }
    Ok(last)
}

fn fault_of(outcome: &Outcome) -> Option<ValidityFault> {
    match outcome {
        Outcome::Plan(_) | Outcome::Empty => None,
        Outcome::Fault(fault) => Some(*fault),
    }
}

/// The last unit of each stream has its fault.
fn are_shown(rt: &(impl Abort + AllocGlobal), streams: &[Stream]) -> Result<(), Fail> {
    for (row, (units, fault)) in streams.iter().enumerate() {
        row_holds(rt, row, last_fault(rt, *units)? == Some(*fault));
    }
    Ok(())
}

#[test]
fn steps_show_faults(rt: HostRuntime) -> Result<(), Fail> {
    are_shown(&rt, &SLICE_FAULTS)?;
    are_shown(&rt, &PICTURE_FAULTS)?;
    are_shown(&rt, &NO_SHORT_TERM)
}
