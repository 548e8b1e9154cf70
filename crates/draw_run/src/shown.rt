//! The units of a stream that are drawn after edits.

ghost use Rattle.std.specs.Prelude.{◌≡◌, ◌↔◌, IfOk, IsTrue, length};
ghost use Rattle.stream_session.specs.Altered.{IsAltered};
ghost use Rattle.draw_run.specs.Marks.{AreShownAs, IsShownAs, IsStateOf};

use crate::drawn::{ShownUnits, shown_by};
use h264_types::pictures::AuId;
use stand_in_session::{Doubt, Session, Shown};
use std::alloc::{AllocError, Global};
use stream_svg::{Caption, DrawnUnit, EditMark, PictureState};

/// What is drawn of the units that have these ids, of which this is told of doubt.
pub(crate) fn shown_units(
    alloc: Global,
    session: &Session,
    ids: &[AuId],
    doubts: &[Doubt],
) -> Result<ShownUnits, AllocError>
    requires { length doubts.now ≡ length ids.now }
    ensures units { IfOk result (λ shown. length shown.units.items ≡ length ids.now) }
    ensures captions { IfOk result (λ shown. length shown.captions.items ≡ length ids.now) }
    ensures shown { IfOk result (λ shown. AreShownAs session.now ids.now doubts.now
        shown.units.items shown.captions.items) }
{
    let mut shown = ShownUnits {
        units: Vec::new(alloc),
        captions: Vec::new(alloc),
    };
    for place in 0..ids.len() {
        let (unit, caption) = shown_unit(alloc, session, ids[place], &doubts[place])?;
        shown.units.push(unit)?;
        shown.captions.push(caption)?;
    }
    Ok(shown)
}

/// What is drawn of the unit that has the id, and what is said of it.
fn shown_unit(
    alloc: Global,
    session: &Session,
    id: AuId,
    doubt: &Doubt,
) -> Result<(DrawnUnit, Caption), AllocError>
    ensures { IfOk result (λ shown. IsShownAs session.now id doubt.now shown.0 shown.1) }
{
    let (Ok(outcome), Ok(position)) = (session.outcome(id), session.position(id)) else {
        return Err(AllocError);
    };
    let mark = EditMark {
        altered: is_altered(session, id),
        picture: state_of(session, id),
    };
    shown_by(alloc, id, outcome, position, doubt, Some(mark))
}

/// Whether the unit that has the id is altered since the stream was marked.
fn is_altered(session: &Session, id: AuId) -> bool
    ensures { IsTrue result ↔ IsAltered session.now id }
{
    match session.is_altered(id) {
        Some(altered) => altered,
        None => false,
    }
}

/// What became of the picture of the unit that has the id.
fn state_of(session: &Session, id: AuId) -> Option<PictureState>
    ensures { IsStateOf session.now id result }
{
    match session.show(id) {
        Shown::Ready(_) => Some(PictureState::Stayed),
        Shown::Pending => Some(PictureState::Pending),
        Shown::Fault(_) => None,
        Shown::Empty => None,
        Shown::NoSuchUnit => None,
    }
}
