//! A thousand edits, after each of which the session says what the plain fold over its units says.

ghost use Rattle.std.specs.Prelude.{◌<◌, ◌≤◌, length, vec_len, IfSome};

use super::{A, I, P1, P2, empty_session, row_holds};
use access_unit::{Unit, read_unit};
use h264_types::pictures::AuId;
use session_builders::{EditRow, edit_of, tells_each};
use stand_in_session::{Last, Receipt, Session};
use std::alloc::{AllocError, Global};
use std::test::Fail;
use test_builders::Draws;
use unit_outcomes::Outcome;

/// Texts: an IDR picture with sets and one without, P pictures with frame_num 1, 2 and 3, one with
/// adaptive marking, a picture that is no reference, the sequence parameter set alone, another one
/// under its id, and a text that is no unit.
static TEXTS: [&[u8]; 10] = [
    A,
    I,
    P1,
    P2,
    &[0, 0, 1, 0x41, 0x9A, 0x63],
    &[0, 0, 1, 0x41, 0x9A, 0x44, 0xDF],
    &[0, 0, 1, 0x01, 0x9A, 0x47],
    &[0, 0, 1, 0x67, 0x42, 0x00, 0x0A, 0xDA, 0x79],
    &[0, 0, 1, 0x67, 0x42, 0x00, 0x0A, 0xDB, 0x79],
    &[0, 0, 1],
];

/// Draws a text, and says whether it is a unit.
fn draw_text(draws: &mut Draws) -> (&'static [u8], bool) {
    let place = draws.below(10) as usize;
    (TEXTS.get(place).copied().unwrap_or(&[]), place < 9)
}

/// A unit of the mirror: its id and its text.
type Kept = (u32, &'static [u8]);

/// The place of an id in the mirror.
fn place_of(mirror: &[Kept], id: u32) -> Option<usize>
    ensures { IfSome result (λ place. place < length mirror.now) }
{
    mirror.iter().position(|unit| unit.0 == id)
}

/// Draws an id: mostly one of the mirror.
fn draw_id(draws: &mut Draws, mirror: &[Kept], next: u32) -> u32 {
    let place = draws.below(mirror.len() as u64) as usize;
    match mirror.get(place) {
        Some(unit) if draws.below(8) > 0 => unit.0,
        _ => draws.below(u64::from(next).saturating_add(1)) as u32,
    }
}

/// Draws an edit, and says whether its text is a unit.
fn draw(draws: &mut Draws, mirror: &[Kept], next: u32) -> (EditRow, bool) {
    let (text, is_unit) = draw_text(draws);
    let id = draw_id(draws, mirror, next);
    match draws.below(if mirror.len() > 24 { 4 } else { 8 }) {
        0 | 1 => (EditRow::Delete(id), true),
        2 | 3 => (EditRow::Replace(id, text), is_unit),
        4 => (EditRow::First(text), is_unit),
        _ => (EditRow::After(id, text), is_unit),
    }
}

/// Makes an edit whose text is a unit in the mirror, where the one that is inserted gets this id,
/// and says whether it is accepted.
fn make(mirror: &mut Vec<Kept>, told: EditRow, next: u32) -> Result<bool, AllocError> {
    match told {
        EditRow::First(text) => insert(mirror, 0, (next, text)),
        EditRow::After(id, text) => match place_of(mirror, id) {
            Some(place) => insert(mirror, place + 1, (next, text)),
            None => Ok(false),
        },
        EditRow::Delete(id) => Ok(delete(mirror, id)),
        EditRow::Replace(id, text) => Ok(replace(mirror, id, text)),
    }
}

/// Inserts a unit at the place.
fn insert(mirror: &mut Vec<Kept>, place: usize, unit: Kept) -> Result<bool, AllocError>
    requires { place ≤ vec_len mirror.old }
{
    mirror.insert(place, unit)?;
    Ok(true)
}

/// Takes the unit of the id out.
fn delete(mirror: &mut Vec<Kept>, id: u32) -> bool {
    match place_of(mirror, id) {
        Some(place) => {
            mirror.remove(place);
            true
        }
        None => false,
    }
}

/// Puts a text in the place of the one of the id.
fn replace(mirror: &mut Vec<Kept>, id: u32, text: &'static [u8]) -> bool {
    match place_of(mirror, id) {
        Some(place) => {
            mirror[place] = (id, text);
            true
        }
        None => false,
    }
}

/// The units of the mirror, nothing where one of its texts isn't a unit.
fn units(alloc: Global, mirror: &[Kept]) -> Result<Option<Vec<(AuId, Unit)>>, AllocError> {
    let mut units = Vec::new(alloc);
    for unit in mirror {
        match read_unit(alloc, unit.1) {
            Ok(read) => units.push((AuId::new(unit.0), read))?,
            Err(_) => return Ok(None),
        }
    }
    Ok(Some(units))
}

/// The session has the mirror's units, and says of each what the plain fold says.
fn is_as_folded(alloc: Global, session: &Session, mirror: &[Kept]) -> Result<bool, Fail> {
    let last = Last {
        units: mirror.len(),
        id: mirror.last().map(|unit| AuId::new(unit.0)),
    };
    match units(alloc, mirror)? {
        Some(units) => Ok(session.last() == last && tells_each(alloc, session, &units)?),
        None => Ok(false),
    }
}

/// How many edits were accepted, and the next id.
#[derive(Drop)]
struct Tally {
    accepted: u64,
    next: u32,
}

impl Tally {
    /// Counts an accepted edit, and says whether this is its receipt.
    fn counts(&mut self, receipt: Receipt, told: EditRow, units: usize) -> bool {
        self.accepted = self.accepted.saturating_add(1);
        let is_next = receipt.id == AuId::new(self.next);
        let is_insertion = matches!(told, EditRow::First(_) | EditRow::After(_, _));
        if is_insertion {
            self.next = self.next.saturating_add(1);
        }
        receipt.number == self.accepted
            && receipt.steps <= (units as u64).saturating_add(64)
            && (is_next || !is_insertion)
    }
}

/// Draws an edit and makes it, and says whether it is answered as by the mirror.
fn edits(
    session: &mut Session,
    mirror: &mut Vec<Kept>,
    draws: &mut Draws,
    tally: &mut Tally,
) -> Result<bool, AllocError> {
    let (told, is_unit) = draw(draws, mirror, tally.next);
    let is_accepted = is_unit && make(mirror, told, tally.next)?;
    match session.edit(edit_of(told)) {
        Ok(receipt) => Ok(tally.counts(receipt, told, mirror.len()) && is_accepted),
        Err(_) => Ok(!is_accepted),
    }
}

/// How many units of the mirror are valid.
fn valid_units(session: &Session, mirror: &[Kept]) -> usize {
    let mut valid = 0usize;
    for unit in mirror {
        if let Ok(Outcome::Plan(_)) = session.outcome(AuId::new(unit.0)) {
            valid = valid.saturating_add(1);
        }
    }
    valid
}

#[test]
fn a_thousand_edits_equal_the_plain_fold(rt: HostRuntime) -> Result<(), Fail> {
    let mut session = empty_session(&rt);
    let mut mirror = Vec::new(rt.alloc());
    let mut draws = Draws::new(0x2545_F491_4F6C_DD1D);
    let mut tally = Tally {
        accepted: 0,
        next: 1,
    };
    for row in 0..1000 {
        let is_answered = edits(&mut session, &mut mirror, &mut draws, &mut tally)?;
        let is_folded = is_as_folded(rt.alloc(), &session, &mirror)?;
        row_holds(&rt, row, is_answered && is_folded);
    }
    let valid = valid_units(&session, &mirror);
    assert!(rt; tally.accepted > 600 && valid > 3);
    Ok(())
}
