//! The unit at a position in output order.

ghost use Rattle.std.specs.Prelude.{◌≡◌, ◌↔◌, ℕ, All, IsTrue, MatchOption, Result};
ghost use Rattle.c_calls.specs.Finding.{HasPosition, IsAtPosition};
ghost use Rattle.c_calls.specs.Telling.{Tells};

use crate::statuses::NO_SUCH_PLACE;
use crate::surface_session::SurfaceSession;
use crate::telling::tell;
use decode_jobs::surfaces::Surface;
use h264_types::pictures::AuId;
use stream_session::Session;

/// How far a unit may stand before the place of its position, where it is looked for first.
const MOST_REORDERED: usize = 64;

/// The id of the unit at a position in output order, from 0 on.
pub fn unit_at(session: &SurfaceSession, position: usize, id: &mut u32) -> u32
    ensures { (answer : Result ℕ ℕ) × IsAtPosition session.now.register.stream position answer
        × Tells answer result id.old id.new }
{
    tell(id_at_position(&session.inner, position), id)
}

/// The id of the unit at a position. It is looked for a little before the place of the same number
/// and after it, and then further before it.
fn id_at_position(session: &Session<Surface>, position: usize) -> Result<u32, u32>
    ensures { IsAtPosition session.now.register.stream position result }
{
    let ids = session.ids();
    let near = position.saturating_sub(MOST_REORDERED).min(ids.len());
    let (before, from) = ids.split_at(near);
    match find_among(session, from, position) {
        Some(id) => Ok(id.number()),
        None => match find_among(session, before, position) {
            Some(id) => Ok(id.number()),
            None => Err(NO_SUCH_PLACE),
        },
    }
}

/// The first of these ids whose unit has the position.
fn find_among(session: &Session<Surface>, ids: &[AuId], position: usize) -> Option<AuId>
    ensures { MatchOption result
        (All (λ id. HasPosition session.now.register.stream position id → ⊥) ids.now)
        (HasPosition session.now.register.stream position) }
{
    for index in 0..ids.len() {
        if has_position(session, ids[index], position) {
            return Some(ids[index]);
        }
    }
    None
}

/// Whether the unit of the id has the position.
fn has_position(session: &Session<Surface>, id: AuId, position: usize) -> bool
    ensures { IsTrue result ↔ HasPosition session.now.register.stream position id }
{
    match session.position(id) {
        Ok(Some(found)) => found == position,
        Ok(None) | Err(_) => false,
    }
}
