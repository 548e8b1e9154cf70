//! Commands that are drawn. Few texts fit at most places, and pictures come back only where an
//! earlier text does: so most insertions are of texts that may follow, and many edits undo an
//! earlier one.

use super::plain::Plain;
use super::pool::{TEXTS, next_of};
use super::told::{Change, EditGroup, MOST_TOGETHER, Told};
use test_builders::Draws;

/// Draws a command.
pub(super) fn draw(draws: &mut Draws, plain: &Plain) -> Told {
    match draws.below(20) {
        0..=3 => Told::Edit(draw_change(draws, plain)),
        4 => Told::Group(draw_group(draws, plain)),
        5..=6 => Told::Take,
        7..=10 => Told::TakeFor(draw_id(draws, plain)),
        11..=12 => Told::Drop(draw_id(draws, plain)),
        13 if draws.below(4) == 0 => Told::ClearCache,
        // Where no job is out, mostly one is taken.
        13..=18 if plain.out.is_empty() && draws.below(8) > 0 => draw_taking(draws, plain),
        13..=18 => {
            let (number, of) = draw_job(draws, plain);
            Told::Land(number, of)
        }
        _ => {
            let (number, of) = draw_job(draws, plain);
            Told::Give(number, of)
        }
    }
}

/// Draws a taking, mostly for a unit.
fn draw_taking(draws: &mut Draws, plain: &Plain) -> Told {
    match draws.below(3) {
        0 => Told::Take,
        _ => Told::TakeFor(draw_id(draws, plain)),
    }
}

/// Draws a job's number, mostly one that is out, and the number of the job whose input is brought,
/// mostly the same one.
fn draw_job(draws: &mut Draws, plain: &Plain) -> (u64, u64) {
    let number = match draw_of(draws, &plain.out) {
        Some(number) if draws.below(12) > 0 => number,
        _ => draws.below(plain.jobs().saturating_add(2)),
    };
    match draws.below(12) {
        0 => (number, draws.below(plain.jobs()).saturating_add(1)),
        _ => (number, number),
    }
}

/// Draws one of these.
fn draw_of<T: Copy>(draws: &mut Draws, items: &[T]) -> Option<T> {
    let place = draws.below(items.len() as u64) as usize;
    items.get(place).copied()
}

/// Draws an id: mostly that of a unit.
fn draw_id(draws: &mut Draws, plain: &Plain) -> u32 {
    let place = draws.below(plain.units.len() as u64) as usize;
    match plain.units.get(place) {
        Some(unit) if draws.below(16) > 0 => unit.0.number(),
        _ => draws.below(u64::from(plain.next_id()).saturating_add(1)) as u32,
    }
}

/// Draws any text.
fn draw_text(draws: &mut Draws) -> usize {
    draws.below(TEXTS as u64) as usize
}

/// Draws an edit. A stream begins with one of three texts with sets.
fn draw_change(draws: &mut Draws, plain: &Plain) -> Change {
    let (Some(last), id) = (plain.units.last(), draw_id(draws, plain)) else {
        return Change::First([0, 0, 18, 32][draws.below(4) as usize]);
    };
    match draws.below(24) {
        0..=6 => draw_following(draws, plain, last.0.number()),
        7 => draw_following(draws, plain, id),
        8..=12 => Change::Replace(id, plain.text_of(id).unwrap_or(0) ^ 1),
        13..=19 => draw_undoing(draws, plain),
        20 => Change::Delete(id),
        21 => Change::Replace(id, draw_text(draws)),
        22 => Change::After(id, draw_text(draws)),
        _ => Change::First(draw_text(draws)),
    }
}

/// Draws edits that are made together, some of which name the id that one before them is given.
fn draw_group(draws: &mut Draws, plain: &Plain) -> EditGroup {
    let mut changes = [Change::Delete(0); MOST_TOGETHER];
    let mut given = None;
    let mut next = plain.next_id();
    for place in changes.iter_mut() {
        *place = match given {
            Some((id, text)) if draws.below(2) == 0 => draw_naming(draws, id, text),
            _ => draw_change(draws, plain),
        };
        if let Some(text) = place.inserted() {
            given = Some((next, text));
            next = next.saturating_add(1);
        }
    }
    let count = draws.below(MOST_TOGETHER as u64).saturating_add(1);
    EditGroup::new(changes, count as usize)
}

/// Draws an edit that names the id that one before it is given, whose text this is.
fn draw_naming(draws: &mut Draws, id: u32, text: usize) -> Change {
    match draws.below(4) {
        0 => Change::Delete(id),
        1 => Change::Replace(id, text ^ 1),
        _ => Change::After(id, next_of(text, draws.below(4) == 0)),
    }
}

/// Draws the insertion of a text that may follow that of the unit of an id.
fn draw_following(draws: &mut Draws, plain: &Plain, id: u32) -> Change {
    let text = plain.text_of(id).unwrap_or(0);
    Change::After(id, next_of(text, draws.below(4) == 0))
}

/// Draws an edit that undoes one of the last eight.
fn draw_undoing(draws: &mut Draws, plain: &Plain) -> Change {
    let from = plain.undoing.len().saturating_sub(8);
    let undoing = plain.undoing.get(from..).unwrap_or(&[]);
    draw_of(draws, undoing).unwrap_or(Change::Delete(1))
}
