//! Steps of the fold over streams, and keys of their pictures. Where memory runs out, each call is
//! made again, and has its answer then.

use super::row_holds;
use super::streams::{Planned, STREAMS, Stream, planned};
use access_unit::{Unit, read_unit};
use decode_jobs::dep_keys::{KeyId, Keys, Sha256Fingerprint};
use h264_types::pictures::AuId;
use picture_keys::{KeyNumbers, RequestBodies, SlicesDigest, node_of};
use request_core::{State, Steps, step};
use std::alloc::{AllocError, Global};
use unit_outcomes::{Outcome, Requests};

/// Makes a step of the fold; where memory runs out none is counted.
fn step_again(
    alloc: Global,
    state: &State,
    id: AuId,
    unit: &Unit,
) -> Result<(State, Outcome), AllocError> {
    let mut steps = Steps::new();
    match step(alloc, state, id, unit, &mut steps) {
        Err(AllocError) if steps.count() == 0 => step(alloc, state, id, unit, &mut steps),
        answer => answer,
    }
}

/// Interns the key of requests.
fn intern(
    alloc: Global,
    keys: &mut Keys<RequestBodies, Sha256Fingerprint>,
    numbers: &mut KeyNumbers<'_>,
    requests: &Requests,
) -> Result<KeyId, AllocError> {
    let digest = SlicesDigest::of_requests(requests.as_slice());
    let node = node_of(alloc, numbers, requests, digest)?;
    if keys.are_live(node.entries()) {
        keys.intern(node)
    } else {
        Err(AllocError)
    }
}

/// Interns the key of requests; where memory runs out, the keys are as they were.
fn intern_again(
    alloc: Global,
    keys: &mut Keys<RequestBodies, Sha256Fingerprint>,
    numbers: &mut KeyNumbers<'_>,
    requests: &Requests,
) -> Result<KeyId, AllocError> {
    let before = keys.len();
    match intern(alloc, keys, numbers, requests) {
        Err(AllocError) if keys.len() == before => intern(alloc, keys, numbers, requests),
        answer => answer,
    }
}

/// Gives a unit the number of its key.
fn put_again(numbers: &mut KeyNumbers<'_>, id: AuId, key: KeyId) -> Result<(), AllocError> {
    match numbers.put(id, key) {
        Err(AllocError) => numbers.put(id, key),
        answer => answer,
    }
}

/// The key of a unit's requests is a new one, and the same once more.
fn has_new_key(
    alloc: Global,
    keys: &mut Keys<RequestBodies, Sha256Fingerprint>,
    numbers: &mut KeyNumbers<'_>,
    id: AuId,
    requests: &Requests,
) -> Result<bool, AllocError> {
    let before = keys.len();
    let key = intern_again(alloc, keys, numbers, requests)?;
    let same = intern_again(alloc, keys, numbers, requests)?;
    put_again(numbers, id, key)?;
    Ok(same == key && keys.len() == before.saturating_add(1))
}

/// The unit's outcome is valid with a new key, or that it has no picture.
fn is_valid_or_empty(
    alloc: Global,
    keys: &mut Keys<RequestBodies, Sha256Fingerprint>,
    numbers: &mut KeyNumbers<'_>,
    id: AuId,
    outcome: &Outcome,
) -> Result<bool, AllocError> {
    match outcome {
        Outcome::Plan(plan) => has_new_key(alloc, keys, numbers, id, &plan.requests),
        Outcome::Empty => Ok(true),
        Outcome::Fault(_) => Ok(false),
    }
}

/// The stream's units, whose texts are read first, where there is memory for them.
fn units_of(alloc: Global, stream: &Stream) -> Option<Vec<Unit>> {
    let mut units = Vec::new(alloc);
    for text in stream.texts {
        let unit = read_unit(alloc, *text).ok()?;
        units.push(unit).ok()?;
    }
    Some(units)
}

/// The units have these plans in turn, each with a key of its own, or no picture.
fn have_plans(
    alloc: Global,
    first: State,
    units: &[Unit],
    plans: &[Option<Planned>],
) -> Result<bool, AllocError> {
    let (mut keys, mut numbers) = (Keys::new(alloc), KeyNumbers::new(alloc));
    let (mut state, mut id) = (first, 0u32);
    for (unit, plan) in units.iter().zip(plans) {
        id = id.saturating_add(1);
        let (after, outcome) = step_again(alloc, &state, AuId::new(id), unit)?;
        let is_right = is_valid_or_empty(alloc, &mut keys, &mut numbers, AuId::new(id), &outcome)?;
        if !is_right || planned(&outcome) != *plan {
            return Ok(false);
        }
        state = after;
    }
    Ok(units.len() == plans.len())
}

/// The fold over the stream, for which there may be no memory at first, makes its plans.
fn folds(alloc: Global, stream: &Stream) -> bool {
    match (units_of(alloc, stream), State::new(alloc)) {
        (Some(units), Ok(state)) => have_plans(alloc, state, &units, stream.plans) == Ok(true),
        _ => true,
    }
}

#[test]
fn refused_growth_of_step_and_intern(rt: HostRuntime) {
    for (row, stream) in STREAMS.iter().enumerate() {
        row_holds(&rt, row, folds(rt.alloc(), stream));
    }
}
