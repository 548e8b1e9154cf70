//! A unit as it is drawn.

ghost use Rattle.std.specs.Prelude.{◌≡◌, IfOk};
ghost use Rattle.draw_run.specs.Lists.{AreEachOnce, named_in, named_of};
ghost use Rattle.draw_run.specs.Kinds.{kind_of, picture_of};
ghost use Rattle.draw_run.specs.Units.{IsUnitOf};

use crate::unit_drawing::lists::references_of;
use crate::unit_drawing::types::types_of;
use h264_types::pictures::AuId;
use std::alloc::{AllocError, Global};
use stream_svg::{DrawnPicture, DrawnReference, DrawnUnit, EditMark, UnitKind};
use unit_outcomes::{Outcome, Plan};

/// What is drawn of a unit with this position in output order: whether it is in doubt, and what edits
/// did to it.
pub fn drawn_unit(
    alloc: Global,
    id: AuId,
    outcome: &Outcome,
    position: Option<usize>,
    in_doubt: bool,
    mark: Option<EditMark>,
) -> Result<DrawnUnit, AllocError>
    ensures { IfOk result (IsUnitOf id outcome.now position in_doubt mark) }
{
    Ok(DrawnUnit {
        id,
        kind: kind_of(outcome, position),
        references: named_in(alloc, outcome)?,
        in_doubt,
        mark,
    })
}

/// What a unit is drawn as.
fn kind_of(outcome: &Outcome, position: Option<usize>) -> UnitKind
    ensures { result ≡ kind_of outcome.now position }
{
    match outcome {
        Outcome::Plan(plan) => UnitKind::Picture(picture_of(plan, position)),
        Outcome::Fault(fault) => UnitKind::Fault(*fault),
        Outcome::Empty => UnitKind::Empty,
    }
}

/// What is drawn of a valid unit.
fn picture_of(plan: &Plan, position: Option<usize>) -> DrawnPicture
    ensures { result ≡ picture_of plan.now position }
{
    DrawnPicture {
        types: types_of(plan.requests.as_slice()),
        position: position.unwrap_or(0),
        begins_period: plan.begins_period,
    }
}

/// The frames that the lists of a unit name, each once for each list.
fn named_in(alloc: Global, outcome: &Outcome) -> Result<Vec<DrawnReference>, AllocError>
    ensures { IfOk result (λ references. AreEachOnce (named_in outcome.now) references.items) }
{
    match outcome {
        Outcome::Plan(plan) => references_of(alloc, plan.requests.as_slice()),
        Outcome::Fault(_) | Outcome::Empty => Ok(Vec::new(alloc)),
    }
}
