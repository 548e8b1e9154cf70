//! A unit's outcome.

ghost use Rattle.std.specs.Prelude.{◌≡◌, IfOk};

use crate::ValidityFault;
use crate::requests::Requests;
use h264_types::pictures::Counts;
use std::alloc::{AllocError, Global};

/// The plan of a valid unit.
#[derive(Debug)]
pub struct Plan {
    pub requests: Requests,
    /// The picture order counts before operation 5 resets them.
    pub counts: Counts,
    /// The picture order count that the picture has from then on: that after resetting.
    pub order: i32,
    /// Whether output order begins anew: an IDR picture, or one with operation 5.
    pub begins_period: bool,
}

// By hand, so that whoever drops one is proved over one call.
impl Drop for Plan {
    fn drop(self) {
        let Plan {
            requests: _,
            counts: _,
            order: _,
            begins_period: _,
        } = self;
    }
}

/// What a unit leads to: requests, or a fault, or nothing where it has no picture.
#[derive(Debug, Drop)]
pub enum Outcome {
    Plan(Plan),
    Fault(ValidityFault),
    /// The unit has no slice: no picture, and neither a plan nor a fault.
    Empty,
}

impl Plan {
    /// The same plan.
    pub fn copy(&self, alloc: Global) -> Result<Plan, AllocError>
        ensures { IfOk result (λ copy. copy ≡ self.now) }
    {
        Ok(Plan {
            requests: self.requests.copy(alloc)?,
            counts: self.counts,
            order: self.order,
            begins_period: self.begins_period,
        })
    }
}

impl Outcome {
    /// The same outcome.
    pub fn copy(&self, alloc: Global) -> Result<Outcome, AllocError>
        ensures { IfOk result (λ copy. copy ≡ self.now) }
    {
        match self {
            Outcome::Plan(plan) => Ok(Outcome::Plan(plan.copy(alloc)?)),
            Outcome::Fault(fault) => Ok(Outcome::Fault(*fault)),
            Outcome::Empty => Ok(Outcome::Empty),
        }
    }
}
