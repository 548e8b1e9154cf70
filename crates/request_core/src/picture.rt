//! A picture, and what is found of a unit, before requests are made.

ghost use Rattle.std.specs.Prelude.{◌≡◌, IfOk};
ghost use Rattle.request_core.specs.Pictures.{plan_in};
ghost use Rattle.request_core.specs.StepResults.{outcome_in};

use crate::requesting::requests_of;
use h264_types::pictures::{AuId, Counts, Frame, List, Marks};
use slice_reading::Slice;
use std::alloc::{AllocError, Global};
use std::marker::Model;
use unit_outcomes::{Outcome, Plan, ValidityFault};

/// A slice with its reference lists.
#[derive(Debug, Drop)]
pub struct Listed<'a> {
    pub(crate) slice: &'a Slice,
    pub(crate) list_0: List,
    pub(crate) list_1: List,
}

impl<'a> Model for Listed<'a> {
    ghost use Rattle.request_core.specs.Requests.{ListedSlice};

    ghost Value = { ListedSlice };

    ghost view = { λ listed. record {
      slice = listed.slice.now;
      list_0 = listed.list_0;
      list_1 = listed.list_1;
    } };
}

impl<'a> Listed<'a> {
    /// The slice.
    pub fn slice(&self) -> &Slice
        ensures { result.now ≡ self.now.slice }
    {
        self.slice
    }

    /// RefPicList0.
    pub fn list_0(&self) -> &List
        ensures { result.now ≡ self.now.list_0 }
    {
        &self.list_0
    }

    /// RefPicList1.
    pub fn list_1(&self) -> &List
        ensures { result.now ≡ self.now.list_1 }
    {
        &self.list_1
    }
}

/// A picture that can be decoded after those before it. All that its requests say follows from it.
#[derive(Debug, Drop)]
pub struct PlannedPicture<'a> {
    /// Its unit.
    pub(crate) id: AuId,
    /// The frames that were marked before it.
    pub(crate) marks: &'a Marks,
    /// The picture order counts before operation 5 resets them.
    pub(crate) counts: Counts,
    /// The picture order count after resetting.
    pub(crate) order: i32,
    /// Whether output order begins anew.
    pub(crate) begins_period: bool,
    pub(crate) slices: Vec<Listed<'a>>,
}

impl<'a> Model for PlannedPicture<'a> {
    ghost use Rattle.request_core.specs.Pictures.{Pictured};

    ghost Value = { Pictured };

    ghost view = { λ picture. record {
      id = picture.id;
      frames = picture.marks.now.frames;
      counts = picture.counts;
      order = picture.order;
      begins_period = picture.begins_period;
      slices = picture.slices.items;
    } };
}

impl<'a> PlannedPicture<'a> {
    /// Its unit.
    pub fn id(&self) -> AuId
        ensures { result ≡ self.now.id }
    {
        self.id
    }

    /// The frames that were marked before it, in decode order.
    pub fn frames(&self) -> &[Frame]
        ensures { result.now ≡ self.now.frames }
    {
        self.marks.frames()
    }

    /// The picture order counts before operation 5 resets them.
    pub fn counts(&self) -> Counts
        ensures { result ≡ self.now.counts }
    {
        self.counts
    }

    /// The picture order count after resetting.
    pub fn order(&self) -> i32
        ensures { result ≡ self.now.order }
    {
        self.order
    }

    /// Whether output order begins anew: an IDR picture, or one with operation 5.
    pub fn begins_period(&self) -> bool
        ensures { result ≡ self.now.begins_period }
    {
        self.begins_period
    }

    /// Its slices with their lists.
    pub fn slices(&self) -> &[Listed<'a>]
        ensures { result.now ≡ self.now.slices }
    {
        self.slices.as_slice()
    }

    /// Its plan, for which requests are made.
    pub fn plan(&self, alloc: Global) -> Result<Plan, AllocError>
        ensures { IfOk result (λ plan. plan ≡ plan_in self.now) }
    {
        Ok(Plan {
            requests: requests_of(
                alloc,
                self.marks,
                self.counts,
                self.id,
                self.slices.as_slice(),
            )?,
            counts: self.counts,
            order: self.order,
            begins_period: self.begins_period,
        })
    }
}

/// What is found of a unit: a picture, or a fault, or nothing where it has no slice.
#[derive(Debug, Drop)]
pub enum StepResult<'a> {
    Picture(PlannedPicture<'a>),
    Fault(ValidityFault),
    /// The unit has no slice.
    Empty,
}

impl<'a> StepResult<'a> {
    /// The unit's outcome, for which requests are made.
    pub fn outcome(&self, alloc: Global) -> Result<Outcome, AllocError>
        ensures { IfOk result (λ outcome. outcome ≡ outcome_in self.now) }
    {
        match self {
            StepResult::Picture(picture) => Ok(Outcome::Plan(picture.plan(alloc)?)),
            StepResult::Fault(fault) => Ok(Outcome::Fault(*fault)),
            StepResult::Empty => Ok(Outcome::Empty),
        }
    }
}
