//! A line of JSON.

ghost use Rattle.std.specs.Prelude.{◌≡◌, IfOk};
ghost use Rattle.unit_printing.specs.JsonLines.{counts_json, head_json, no_unit_line, plan_line, refused_line, unit_line};

use crate::json::encoding::DecodeMode;
use crate::json::frame_json::FrameJson;
use crate::json::numbered::{write_fault, write_refusal};
use crate::json::request_json::RequestsJson;
use access_unit::Refusal;
use h264_types::pictures::{AuId, Counts};
use serde::Serialize;
use std::alloc::{AllocError, Global};
use unit_outcomes::doubts::Doubt;
use unit_outcomes::{Outcome, Plan, ValidityFault};

/// A line: one object.
#[derive(Debug, Drop, Serialize)]
#[serde(untagged)]
pub enum JsonLine {
    /// A valid unit, with the requests of its slices.
    Plan(PlanJson),
    /// A valid unit, with the request of its picture.
    Frame(FramePlanJson),
    /// A unit with a fault, which is an object of number and name, and the id of the break that it
    /// follows.
    Fault {
        unit: u32,
        #[serde(serialize_with = "write_fault")]
        fault: ValidityFault,
        #[serde(skip_serializing_if = "Option::is_none")]
        follows: Option<u32>,
    },
    /// A unit without a slice; the member is true.
    NoPicture {
        unit: u32,
        no_picture: bool,
        #[serde(skip_serializing_if = "Option::is_none")]
        follows: Option<u32>,
    },
    /// A unit that isn't there, by the number that was asked for; the member is true.
    NoUnit {
        unit: u64,
        none: bool,
    },
    /// A stream that is refused: an object of number and name, before which stands the index of the
    /// access unit that is refused, if it is one, as `unit`.
    Refused {
        #[serde(serialize_with = "write_refusal")]
        refused: Refusal,
    },
}

/// The plan of a valid unit, with the requests of its slices.
#[derive(Debug, Drop, Serialize)]
pub struct PlanJson {
    #[serde(flatten)]
    pub head: HeadJson,
    pub requests: RequestsJson,
}

/// The plan of a valid unit, with the request of its picture, which each has.
#[derive(Debug, Drop, Serialize)]
pub struct FramePlanJson {
    #[serde(flatten)]
    pub head: HeadJson,
    #[serde(skip_serializing_if = "Option::is_none")]
    pub request: Option<FrameJson>,
}

/// What the plan of a valid unit has before its requests.
#[derive(Clone, Copy, Debug, PartialEq, Eq, Serialize)]
pub struct HeadJson {
    /// The unit's id.
    pub unit: u32,
    /// The place of its picture in output order.
    pub position: usize,
    /// Whether output order begins anew with it.
    pub begins_period: bool,
    /// Its picture order counts, before operation 5 resets them.
    pub counts: CountsJson,
    /// The id of the break that it follows.
    #[serde(skip_serializing_if = "Option::is_none")]
    pub follows: Option<u32>,
    /// Whether it is in doubt.
    #[serde(skip_serializing_if = "is_false")]
    pub in_doubt: bool,
}

/// Picture order counts.
#[derive(Clone, Copy, Debug, PartialEq, Eq, Serialize)]
pub struct CountsJson {
    pub top: i32,
    pub bottom: i32,
}

impl JsonLine {
    /// The line of a unit, with the requests that a decoder of this mode takes, by its outcome, its
    /// place in output order, which each plan has, and what is told of its doubt.
    pub fn of_unit(
        alloc: Global,
        mode: DecodeMode,
        id: AuId,
        position: Option<usize>,
        outcome: &Outcome,
        doubt: Doubt,
    ) -> Result<JsonLine, AllocError>
        ensures { IfOk result (λ line. line ≡ unit_line mode id position outcome.now doubt) }
    {
        match outcome {
            Outcome::Plan(plan) => {
                let position = position.unwrap_or_default();
                JsonLine::of_plan(alloc, mode, HeadJson::of(id, position, plan, doubt), plan)
            }
            Outcome::Fault(fault) => Ok(JsonLine::Fault {
                unit: id.number(),
                fault: *fault,
                follows: number_of(doubt.follows),
            }),
            Outcome::Empty => Ok(JsonLine::NoPicture {
                unit: id.number(),
                no_picture: true,
                follows: number_of(doubt.follows),
            }),
        }
    }

    /// The line of a plan, after what stands before its requests.
    fn of_plan(
        alloc: Global,
        mode: DecodeMode,
        head: HeadJson,
        plan: &Plan,
    ) -> Result<JsonLine, AllocError>
        ensures { IfOk result (λ line. line ≡ plan_line mode head plan.now) }
    {
        let requests = plan.requests.as_slice();
        match mode {
            DecodeMode::SliceBased => Ok(JsonLine::Plan(PlanJson {
                head,
                requests: RequestsJson::of(alloc, requests)?,
            })),
            DecodeMode::FrameBased => Ok(JsonLine::Frame(FramePlanJson {
                head,
                request: FrameJson::of(requests)?,
            })),
        }
    }

    /// The line of a unit that isn't there, by its number.
    pub fn of_no_unit(number: u64) -> JsonLine
        ensures { result ≡ no_unit_line number }
    {
        JsonLine::NoUnit {
            unit: number,
            none: true,
        }
    }

    /// The line of a stream that is refused.
    pub fn of_refusal(refusal: Refusal) -> JsonLine
        ensures { result ≡ refused_line refusal }
    {
        JsonLine::Refused { refused: refusal }
    }
}

impl HeadJson {
    /// What stands before the requests of the plan of a unit.
    pub fn of(id: AuId, position: usize, plan: &Plan, doubt: Doubt) -> HeadJson
        ensures { result ≡ head_json id position plan.now doubt }
    {
        HeadJson {
            unit: id.number(),
            position,
            begins_period: plan.begins_period,
            counts: CountsJson::of(plan.counts),
            follows: number_of(doubt.follows),
            in_doubt: doubt.in_doubt,
        }
    }
}

impl CountsJson {
    fn of(counts: Counts) -> CountsJson
        ensures { result ≡ counts_json counts }
    {
        CountsJson {
            top: counts.top,
            bottom: counts.bottom,
        }
    }
}

/// The number of an id.
fn number_of(id: Option<AuId>) -> Option<u32>
    ensures { result ≡ id }
{
    match id {
        Some(id) => Some(id.number()),
        None => None,
    }
}

fn is_false(value: &bool) -> bool {
    !*value
}
