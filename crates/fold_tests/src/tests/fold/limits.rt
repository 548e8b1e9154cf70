//! As many slices and parameter sets as a unit and a stream can have.

use super::each_fault::{I, PPS};
use super::steps::step_once;
use super::writer::{Nal, Order, Slice, Writer};
use super::{row_holds, unit};
use Nal::{Bytes, Pps, Sps};
use Order::{Two, Zero};
use access_unit::Unit;
use request_core::State;
use std::alloc::AllocGlobal;
use std::process::Abort;
use std::test::Fail;
use unit_outcomes::Outcome;

/// A sequence parameter set for 16 by 16 macroblocks, of count type 2 and one reference frame.
const LARGE: Nal = Bytes(&[0x67, 0x42, 0x00, 0x0A, 0xDA, 0x04, 0x02, 0x1A]);

/// An IDR picture of so many slices.
fn sliced(rt: &(impl Abort + AllocGlobal), count: u32) -> Result<Unit, Fail> {
    let mut writer = Writer::new(rt.alloc());
    writer.put(&LARGE)?;
    writer.put(&PPS)?;
    for first_mb in 0..count {
        let order = Two;
        writer.put(&Nal::Slice(Slice {
            first_mb,
            order,
            ..I
        }))?;
    }
    Ok(unit(rt, writer.text())?)
}

/// Whether there are so many requests, of which the last alone doesn't hold the buffer.
fn has_requests(outcome: &Outcome, count: usize) -> bool {
    let Outcome::Plan(plan) = outcome else {
        return false;
    };
    let Some((last, others)) = plan.requests.as_slice().split_last() else {
        return false;
    };
    for request in others {
        if !request.hold {
            return false;
        }
    }
    others.len().saturating_add(1) == count && !last.hold
}

/// Whether a picture of so many slices is planned.
fn plans_slices(rt: &(impl Abort + AllocGlobal), count: u32) -> Result<bool, Fail> {
    let state = State::new(rt.alloc())?;
    let (_, outcome) = step_once(rt.alloc(), &state, &sliced(rt, count)?)?;
    Ok(has_requests(&outcome, count as usize))
}

/// How many slices a picture has; a 257th is refused where the unit is read.
const SLICES: [u32; 8] = [1, 2, 15, 16, 17, 32, 255, 256];

#[test]
fn slices_of_a_picture(rt: HostRuntime) -> Result<(), Fail> {
    for (row, count) in SLICES.iter().enumerate() {
        row_holds(&rt, row, plans_slices(&rt, *count)?);
    }
    Ok(())
}

/// An IDR picture after 32 sequence parameter sets and 256 picture parameter sets.
fn with_all_sets(rt: &(impl Abort + AllocGlobal)) -> Result<Unit, Fail> {
    let mut writer = Writer::new(rt.alloc());
    for id in 0..32u32 {
        writer.put(&Sps(id, Zero(0, 0), 2))?;
    }
    put_picture_sets(&mut writer)?;
    writer.put(&Nal::Slice(I))?;
    Ok(unit(rt, writer.text())?)
}

/// 256 sets, which name the 32 others in turn.
fn put_picture_sets(writer: &mut Writer) -> Result<(), Fail> {
    for id in 0..256u32 {
        writer.put(&Pps(id, id % 32))?;
    }
    Ok(())
}

/// An IDR picture by the picture parameter set of this id.
fn picture_by(rt: &(impl Abort + AllocGlobal), pps: u32) -> Result<Unit, Fail> {
    let mut writer = Writer::new(rt.alloc());
    writer.put(&Nal::Slice(Slice { pps, ..I }))?;
    Ok(unit(rt, writer.text())?)
}

/// Whether the picture by the set of this id is planned after the state.
fn plans_by(rt: &(impl Abort + AllocGlobal), state: &State, pps: u32) -> Result<bool, Fail> {
    let (_, outcome) = step_once(rt.alloc(), state, &picture_by(rt, pps)?)?;
    Ok(has_requests(&outcome, 1))
}

#[test]
fn sets_of_a_stream(rt: HostRuntime) -> Result<(), Fail> {
    let none = State::new(rt.alloc())?;
    row_holds(&rt, 0, !plans_by(&rt, &none, 255)?);
    let (state, _) = step_once(rt.alloc(), &none, &with_all_sets(&rt)?)?;
    for pps in 0..256u32 {
        row_holds(&rt, pps as usize, plans_by(&rt, &state, pps)?);
    }
    Ok(())
}
