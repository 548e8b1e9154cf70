//! A unit's outcome, as `plan --json` prints it, with its controls or without, and whether the unit
//! is altered.

ghost use Rattle.std.specs.Prelude.{◌≡◌, IfOk};
ghost use Rattle.serve_answers.specs.UnitAnswers.{plan_answer, requests_if, unit_answer};

use h264_types::pictures::AuId;
use serde::Serialize;
use stand_in_session::Doubt;
use std::alloc::{AllocError, Global};
use unit_outcomes::{Outcome, Plan};
use unit_printing::json::{DecodeMode, HeadJson, JsonLine, RequestsJson};

/// A unit's outcome.
#[derive(Debug, Drop, Serialize)]
#[serde(untagged)]
pub enum UnitAnswer {
    /// Of a valid unit.
    Plan(PlanAnswer),
    /// Of another one, as `plan --json` prints it.
    Line(JsonLine),
}

/// The plan of a valid unit.
#[derive(Debug, Drop, Serialize)]
pub struct PlanAnswer {
    #[serde(flatten)]
    pub head: HeadJson,
    /// Whether it isn't what any unit was at the mark.
    #[serde(skip_serializing_if = "is_false")]
    pub altered: bool,
    /// What its decoder is asked, if that is told.
    #[serde(skip_serializing_if = "Option::is_none")]
    pub requests: Option<RequestsJson>,
}

/// What is told of a unit beside its outcome.
#[derive(Clone, Copy, Debug, PartialEq, Eq)]
pub struct UnitFlags {
    /// The break that it follows, and whether it is in doubt.
    pub doubt: Doubt,
    /// Whether it isn't what any unit was at the mark.
    pub altered: bool,
}

impl UnitAnswer {
    /// A unit's outcome, which has a position where it is valid, with what is told of it, and with
    /// its controls or without.
    pub fn of(
        alloc: Global,
        id: AuId,
        position: Option<usize>,
        outcome: &Outcome,
        told: UnitFlags,
        controls: bool,
    ) -> Result<UnitAnswer, AllocError>
        ensures { IfOk result (λ answer. answer
            ≡ unit_answer id position outcome.now told controls) }
    {
        match outcome {
            Outcome::Plan(plan) => {
                let position = position.unwrap_or_default();
                let answer = PlanAnswer::of(alloc, id, position, plan, told, controls)?;
                Ok(UnitAnswer::Plan(answer))
            }
            _ => {
                let mode = DecodeMode::SliceBased;
                let line = JsonLine::of_unit(alloc, mode, id, position, outcome, told.doubt)?;
                Ok(UnitAnswer::Line(line))
            }
        }
    }
}

impl PlanAnswer {
    /// The plan of a unit at a position.
    fn of(
        alloc: Global,
        id: AuId,
        position: usize,
        plan: &Plan,
        told: UnitFlags,
        controls: bool,
    ) -> Result<PlanAnswer, AllocError>
        ensures { IfOk result (λ answer. answer
            ≡ plan_answer id position plan.now told controls) }
    {
        Ok(PlanAnswer {
            head: HeadJson::of(id, position, plan, told.doubt),
            altered: told.altered,
            requests: requests_if(alloc, plan, controls)?,
        })
    }
}

/// The requests of a plan, if they are told.
fn requests_if(
    alloc: Global,
    plan: &Plan,
    controls: bool,
) -> Result<Option<RequestsJson>, AllocError>
    ensures { IfOk result (λ requests. requests ≡ requests_if controls plan.now) }
{
    if !controls {
        return Ok(None);
    }
    let requests = RequestsJson::of(alloc, plan.requests.as_slice())?;
    Ok(Some(requests))
}

fn is_false(value: &bool) -> bool {
    !*value
}
