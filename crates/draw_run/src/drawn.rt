//! Units as they are drawn, each with what is said of it.

ghost use Rattle.std.specs.Prelude.{◌≡◌, ◌≤◌, IfOk, length, None};
ghost use Rattle.draw_run.specs.Chosen.{position_in};
ghost use Rattle.draw_run.specs.Doubts.{doubt_in};
ghost use Rattle.draw_run.specs.Shown.{AreShown, IsShownBy};

use crate::doubt_line::{add_doubt, doubt_in};
use crate::drawn_fold::KeptUnit;
use crate::unit_drawing::drawn_unit;
use h264_types::pictures::AuId;
use std::alloc::{AllocError, Global};
use stream_svg::{Caption, DrawnUnit, EditMark};
use unit_outcomes::Outcome;
use unit_outcomes::doubts::Doubt;
use unit_printing::lines::UnitLines;

/// Units that are drawn, each with what is said of it.
#[derive(Drop)]
pub(crate) struct ShownUnits {
    pub(crate) units: Vec<DrawnUnit>,
    pub(crate) captions: Vec<Caption>,
}

/// What is drawn of units, of which these are all positions of their stream, and all that is told of
/// doubt there.
pub(crate) fn kept_units(
    alloc: Global,
    kept: &[KeptUnit],
    positions: &[Option<usize>],
    doubts: &[Doubt],
) -> Result<ShownUnits, AllocError>
    ensures { IfOk result (λ shown. AreShown positions.now doubts.now kept.now
        shown.units.items shown.captions.items) }
{
    let mut shown = ShownUnits {
        units: Vec::new(alloc),
        captions: Vec::new(alloc),
    };
    for one in kept {
        let position = position_of(positions, one.id);
        let doubt = doubt_in(doubts, one.id);
        let (unit, caption) = shown_by(alloc, one.id, &one.outcome, position, &doubt, None)?;
        shown.units.push(unit)?;
        shown.captions.push(caption)?;
    }
    Ok(shown)
}

/// What is drawn of a unit, and what is said of it.
pub(crate) fn shown_by(
    alloc: Global,
    id: AuId,
    outcome: &Outcome,
    position: Option<usize>,
    doubt: &Doubt,
    mark: Option<EditMark>,
) -> Result<(DrawnUnit, Caption), AllocError>
    ensures { IfOk result (λ shown.
        IsShownBy id outcome.now position doubt.now mark shown.0 shown.1) }
{
    let lines = UnitLines {
        id,
        outcome,
        position,
    };
    let mut lines = lines.to_string(alloc)?;
    add_doubt(&mut lines, doubt)?;
    let unit = drawn_unit(alloc, id, outcome, position, doubt.in_doubt, mark)?;
    Ok((unit, Caption { lines }))
}

/// The position of the unit with an id, in a stream whose ids are 1, 2, 3 and so on.
fn position_of(positions: &[Option<usize>], id: AuId) -> Option<usize>
    ensures { result ≡ position_in positions.now id }
{
    let place = id.number().checked_sub(1)?;
    match positions.get(place as usize) {
        Some(position) => *position,
        None => None,
    }
}
