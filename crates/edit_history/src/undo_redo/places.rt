//! Places of units among ids.

ghost use Rattle.std.specs.Prelude.{◌≡◌, ◌<◌, ◌≤◌, length, IfSome};
ghost use Rattle.picture_keys.specs.Units.{AreDifferent};
ghost use Rattle.stream_edits.specs.Streams.{place_among, start_among};

use h264_types::pictures::AuId;
use stream_edits::InsertionPoint;

/// The place of the id, if it is one of these, which differ. The last one is found at once.
pub(crate) fn place_of(ids: &[AuId], id: AuId) -> Option<usize>
    ensures value { AreDifferent ids.now → result ≡ place_among ids.now id }
    ensures inside { IfSome result (λ place. place < length ids.now) }
{
    match ids.split_last() {
        Some((last, others)) if *last == id => Some(others.len()),
        _ => search(ids, id),
    }
}

/// The place of the id, looked for from the first one on.
#[tactic(auto, unfolding(stream_edits::specs::Streams::place_among))]
fn search(ids: &[AuId], id: AuId) -> Option<usize>
    ensures value { result ≡ place_among ids.now id }
    ensures inside { IfSome result (λ place. place < length ids.now) }
{
    ids.iter().position(|other| *other == id)
}

/// The place at which a unit is inserted, among units of these ids, which differ.
pub(crate) fn start_of(ids: &[AuId], place: InsertionPoint) -> Option<usize>
    ensures value { AreDifferent ids.now → result ≡ start_among ids.now place }
    ensures inside { IfSome result (λ at. at ≤ length ids.now) }
{
    match place {
        InsertionPoint::First => Some(0),
        InsertionPoint::After(id) => Some(place_of(ids, id)? + 1),
    }
}
