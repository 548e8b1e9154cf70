//! Places of units in a stream.

ghost use Rattle.std.specs.Prelude.{◌≡◌, ◌<◌, ◌≤◌, length, IfSome, Some};
ghost use Rattle.picture_keys.specs.Units.{AreDifferent};
ghost use Rattle.stream_edits.specs.Streams.{place_among, start_among};

use crate::edits::InsertionPoint;
use h264_types::pictures::AuId;

/// How far from the place of its number an id is looked for first.
const NEAR: usize = 64;

/// The place of the id among ids that differ, if it is one of them. The last one is found at once,
/// and so is one that stands near the place of its number, as in a stream that was loaded and
/// edited little. Takes no memory.
pub fn place_of(ids: &[AuId], id: AuId) -> Option<usize>
    requires { AreDifferent ids.now }
    ensures value { result ≡ place_among ids.now id }
    ensures inside { IfSome result (λ place. place < length ids.now) }
{
    match ids.split_last() {
        Some((last, others)) if *last == id => Some(others.len()),
        _ => match find_near(ids, id) {
            Some(place) => Some(place),
            None => search(ids, id),
        },
    }
}

/// The place of the id among ids that differ, if it stands near the place of its number.
fn find_near(ids: &[AuId], id: AuId) -> Option<usize>
    requires { AreDifferent ids.now }
    ensures value { IfSome result (λ place. Some place ≡ place_among ids.now id) }
    ensures inside { IfSome result (λ place. place < length ids.now) }
{
    let number = id.number() as usize;
    let to = ids.len().min(number.saturating_add(NEAR));
    for at in number.saturating_sub(NEAR)..to {
        if ids[at] == id {
            return Some(at);
        }
    }
    None
}

/// The place of the id among ids, looked for from the first one on.
#[tactic(auto, unfolding(crate::specs::Streams::place_among))]
fn search(ids: &[AuId], id: AuId) -> Option<usize>
    ensures value { result ≡ place_among ids.now id }
    ensures inside { IfSome result (λ place. place < length ids.now) }
{
    ids.iter().position(|other| *other == id)
}

/// The place at which a unit is inserted, among units of these ids.
pub(crate) fn start_of(ids: &[AuId], place: InsertionPoint) -> Option<usize>
    requires { AreDifferent ids.now }
    ensures value { result ≡ start_among ids.now place }
    ensures inside { IfSome result (λ at. at ≤ length ids.now) }
{
    match place {
        InsertionPoint::First => Some(0),
        InsertionPoint::After(id) => Some(place_of(ids, id)? + 1),
    }
}
