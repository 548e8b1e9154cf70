//! Where a unit stood before.

ghost use Rattle.std.specs.Prelude.{◌≡◌, ℕ, ◌<◌, ◌≤◌, Some, length, MatchOption, slice_get};

use h264_types::pictures::AuId;

/// The greatest number of an id among these.
pub(crate) fn greatest(ids: &[AuId]) -> u32
    ensures { (at id : ℕ) → slice_get ids.now at ≡ Some id → id ≤ result }
{
    let mut most = 0;
    for id in ids {
        if id.number() > most {
            most = id.number();
        }
    }
    most
}

/// The place of an id, if it is one of these, which are none above the greatest. It is looked for
/// from a place on at first, and an id above the greatest nowhere.
pub(crate) fn find(ids: &[AuId], greatest: u32, near: usize, id: AuId) -> Option<usize>
    requires { (at other : ℕ) → slice_get ids.now at ≡ Some other → other ≤ greatest }
    ensures { MatchOption result ((at : ℕ) → slice_get ids.now at ≡ Some id → ⊥)
        (λ at. slice_get ids.now at ≡ Some id) }
{
    if id.number() > greatest {
        return None;
    }
    let near = near.min(ids.len());
    match find_within(ids, near, ids.len(), id) {
        Some(place) => Some(place),
        None => find_within(ids, 0, near, id),
    }
}

/// The place of an id from one place on and below another, if it is one of these.
fn find_within(ids: &[AuId], from: usize, to: usize, id: AuId) -> Option<usize>
    requires { to ≤ length ids.now }
    ensures { MatchOption result
        ((at : ℕ) → from ≤ at → at < to → slice_get ids.now at ≡ Some id → ⊥)
        (λ at. slice_get ids.now at ≡ Some id) }
{
    for at in from..to {
        if ids[at] == id {
            return Some(at);
        }
    }
    None
}
