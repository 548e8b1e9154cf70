//! Questions about the stream.

ghost use Rattle.std.specs.Prelude.{◌≡◌, length};
ghost use Rattle.c_calls.specs.Asking.{id_at, outcome_answer, place_answer, position_answer, as_unit_outcome, without_plan};
ghost use Rattle.c_calls.specs.Statuses.{done};
ghost use Rattle.c_calls.specs.Telling.{Tells};
ghost use Rattle.c_calls.specs.Showing.{ShowsTo};

use crate::statuses::{
    DONE, HAS_FAULT, NO_PICTURE, NO_SUCH_PLACE, NO_SUCH_UNIT, NOT_VALID, PENDING,
};
use crate::surface_session::SurfaceSession;
use crate::telling::tell;
use h264_types::pictures::AuId;
use stream_session::Shown;
use unit_outcomes::Outcome;

/// The kind of a unit that has a plan.
pub const KIND_PLAN: u32 = 0;
/// The kind of a unit that has a fault.
pub const KIND_FAULT: u32 = 1;
/// The kind of a unit without a slice, which has no picture.
pub const KIND_EMPTY: u32 = 2;

/// A unit's outcome: a plan, a fault, or that it has no picture. What isn't of its kind is 0.
#[repr(C)]
#[derive(Clone, Copy, Debug, PartialEq, Eq)]
pub struct UnitOutcome {
    pub kind: u32,
    /// The number of the fault.
    pub fault: u32,
    /// TopFieldOrderCnt, before operation 5 resets it.
    pub top: i32,
    /// BottomFieldOrderCnt, before operation 5 resets it.
    pub bottom: i32,
    /// The picture order count that the picture has from then on.
    pub order: i32,
    /// 1 where output order begins anew at the picture, else 0.
    pub begins_period: u32,
    /// How many slices the picture has, each with its request.
    pub slices: u64,
}

/// How many units the stream has.
pub fn units(session: &SurfaceSession, units: &mut usize) -> u32
    ensures { (result ≡ done) × (units.new ≡ length session.now.register.stream) }
{
    *units = session.inner.last().units;
    DONE
}

/// The id of the unit at a place, from 0 on in decoding order.
pub fn id_at(session: &SurfaceSession, place: usize, id: &mut u32) -> u32
    ensures { Tells (id_at session.now.register.stream place) result id.old id.new }
{
    match session.inner.ids().get(place) {
        Some(found) => tell(Ok(found.number()), id),
        None => NO_SUCH_PLACE,
    }
}

/// The place of the unit of the id.
pub fn place(session: &SurfaceSession, id: u32, place: &mut usize) -> u32
    ensures { Tells (place_answer session.now.register.stream id) result place.old place.new }
{
    match session.inner.place(AuId::new(id)) {
        Some(found) => tell(Ok(found), place),
        None => NO_SUCH_UNIT,
    }
}

/// The position of the unit of the id in output order, from 0 on.
pub fn position(session: &SurfaceSession, id: u32, position: &mut usize) -> u32
    ensures { Tells (position_answer session.now.register.stream id) result position.old
        position.new }
{
    match session.inner.position(AuId::new(id)) {
        Ok(Some(found)) => tell(Ok(found), position),
        Ok(None) => NOT_VALID,
        Err(_) => NO_SUCH_UNIT,
    }
}

/// The outcome of the unit of the id.
pub fn outcome(session: &SurfaceSession, id: u32, outcome: &mut UnitOutcome) -> u32
    ensures { Tells (outcome_answer session.now.register.stream id) result outcome.old outcome.new }
{
    match session.inner.outcome(AuId::new(id)) {
        Ok(found) => tell(Ok(as_unit_outcome(found)), outcome),
        Err(_) => NO_SUCH_UNIT,
    }
}

/// A unit's outcome, as it is told.
fn as_unit_outcome(outcome: &Outcome) -> UnitOutcome
    ensures { result ≡ as_unit_outcome outcome.now }
{
    match outcome {
        Outcome::Plan(plan) => UnitOutcome {
            kind: KIND_PLAN,
            fault: 0,
            top: plan.counts.top,
            bottom: plan.counts.bottom,
            order: plan.order,
            begins_period: u32::from(plan.begins_period),
            slices: plan.requests.as_slice().len() as u64,
        },
        Outcome::Fault(fault) => without_plan(KIND_FAULT, u32::from(fault.number())),
        Outcome::Empty => without_plan(KIND_EMPTY, 0),
    }
}

/// What is told of a unit that has no plan.
fn without_plan(kind: u32, fault: u32) -> UnitOutcome
    ensures { result ≡ without_plan kind fault }
{
    UnitOutcome {
        kind,
        fault,
        top: 0,
        bottom: 0,
        order: 0,
        begins_period: 0,
        slices: 0,
    }
}

/// The surface of the unit of the id, as the stream is now.
pub fn show(session: &SurfaceSession, id: u32, surface: &mut u64) -> u32
    ensures { ShowsTo session.now id result surface.old surface.new }
{
    match session.inner.show(AuId::new(id)) {
        Shown::Ready(found) => tell(Ok(found.handle), surface),
        Shown::Pending => PENDING,
        Shown::Fault(_) => HAS_FAULT,
        Shown::Empty => NO_PICTURE,
        Shown::NoSuchUnit => NO_SUCH_UNIT,
    }
}
