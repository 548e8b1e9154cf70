//! What is kept of a unit's outcome.

ghost use Rattle.std.specs.Prelude.{◌≡◌, []};
ghost use Rattle.plan_stream.specs.Shown.{shown_of};
ghost use Rattle.request_core.specs.StepResults.{outcome_in};

use h264_types::pictures::Counts;
use request_core::StepResult;
use std::alloc::Global;
use unit_outcomes::{Outcome, Plan, Requests};

/// The unit's outcome, without its requests.
pub fn shown_of(alloc: Global, outcome: &Outcome) -> Outcome
    ensures { result ≡ shown_of outcome.now }
{
    match outcome {
        Outcome::Plan(plan) => shown_plan(alloc, plan.counts, plan.order, plan.begins_period),
        Outcome::Fault(fault) => Outcome::Fault(*fault),
        Outcome::Empty => Outcome::Empty,
    }
}

/// The outcome of a unit of which this is found, without its requests.
pub(crate) fn shown_in(alloc: Global, finding: &StepResult<'_>) -> Outcome
    ensures { result ≡ shown_of (outcome_in finding.now) }
{
    match finding {
        StepResult::Picture(picture) => shown_plan(
            alloc,
            picture.counts(),
            picture.order(),
            picture.begins_period(),
        ),
        StepResult::Fault(fault) => Outcome::Fault(*fault),
        StepResult::Empty => Outcome::Empty,
    }
}

/// The plan of a picture, without its requests.
fn shown_plan(alloc: Global, counts: Counts, order: i32, begins_period: bool) -> Outcome
    ensures { result ≡ Outcome.Plan (record {
      requests = [];
      counts = counts;
      order = order;
      begins_period = begins_period;
    }) }
{
    Outcome::Plan(Plan {
        requests: Requests::new(Vec::new(alloc)),
        counts,
        order,
        begins_period,
    })
}
