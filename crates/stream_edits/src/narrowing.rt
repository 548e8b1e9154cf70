//! What two streams have in common at their fronts and at their ends.

ghost use Rattle.std.specs.Prelude.{◌≡◌, ◌↔◌, ◌≤◌, length, IsTrue};
ghost use Rattle.stream_edits.specs.Common.{IsFront, IsLongestFront, IsLongestRest, IsRest};

use h264_types::base::Shared;
use h264_types::pictures::AuId;
use picture_keys::HashedUnit;

/// How many units at the start of both are the same, where so many are known to be.
pub(crate) fn common_front(
    old: &[(AuId, Shared<HashedUnit>)],
    new: &[(AuId, Shared<HashedUnit>)],
    known: usize,
) -> usize
    requires { IsFront old.now new.now known }
    ensures { IsLongestFront old.now new.now result }
{
    let most = old.len().min(new.len());
    for count in known..most {
        if !is_same(&old[count], &new[count]) {
            return count;
        }
    }
    most
}

/// How many units at the end of both are the same, behind so many at the front, where so many are
/// known to be.
pub(crate) fn common_rest(
    old: &[(AuId, Shared<HashedUnit>)],
    new: &[(AuId, Shared<HashedUnit>)],
    front: usize,
    known: usize,
) -> usize
    requires rest { IsRest old.now new.now known }
    requires in_old { front ≤ length old.now }
    requires in_new { front ≤ length new.now }
    ensures { IsLongestRest front old.now new.now result }
{
    let most = old.len().min(new.len()) - front;
    for count in known.min(most)..most {
        if !is_same(&old[old.len() - 1 - count], &new[new.len() - 1 - count]) {
            return count;
        }
    }
    most
}

/// Whether both are the same unit under the same id.
fn is_same(a: &(AuId, Shared<HashedUnit>), b: &(AuId, Shared<HashedUnit>)) -> bool
    ensures { IsTrue result ↔ (a.now ≡ b.now) }
{
    a.0 == b.0 && same_nals(&a.1, &b.1)
}

/// Whether both have the same NAL units.
fn same_nals(a: &HashedUnit, b: &HashedUnit) -> bool
    ensures { IsTrue result ↔ (a.now ≡ b.now) }
{
    let (a, b) = (a.unit().nals(), b.unit().nals());
    if a.len() != b.len() {
        return false;
    }
    for (nal, other) in a.iter().zip(b) {
        if nal.nal().bytes() != other.nal().bytes() {
            return false;
        }
    }
    true
}
