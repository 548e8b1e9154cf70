//! Where an access unit ends among NAL units, and where a delimiter has to be put (7.4.1.2.3).

ghost use Rattle.std.specs.Prelude.{◌≡◌, ◌∷◌, ◌||◌, ℕ, List, not};
ghost use Rattle.access_unit.specs.Refusals.{is_not_reference, mixes_idr, mixes_reference};
ghost use Rattle.stream_mending.specs.Portions.{joint_of};
ghost use Rattle.stream_mending.specs.OpenPortions.{IsFirstOf, first_slice};

use annexb::{begins_access_unit, is_slice, nal_unit_type};

/// How a NAL unit stands to the access unit before it.
#[derive(Clone, Copy)]
pub(crate) enum Joint {
    /// It is one of its NAL units.
    Joins,
    /// It begins the next one.
    Begins,
    /// It is a slice of another picture, and nothing shows that: a delimiter has to.
    NeedsDelimiter,
}

/// What the slices of a picture have in common.
#[derive(Clone, Copy)]
pub(crate) struct FirstSlice {
    /// 1, or 5 where the picture is an IDR picture.
    pub(crate) nal_unit_type: u8,
    pub(crate) is_reference: bool,
}

/// What the slice says of its picture.
pub(crate) fn first_slice(unit: &[u8]) -> FirstSlice
    ensures { result ≡ first_slice unit.now }
{
    FirstSlice {
        nal_unit_type: nal_unit_type(unit),
        is_reference: is_reference(unit),
    }
}

/// Whether nal_ref_idc isn't 0.
fn is_reference(unit: &[u8]) -> bool
    ensures { result ≡ not (is_not_reference unit.now) }
{
    match unit {
        [header, ..] => *header / 32 % 4 != 0,
        [] => false,
    }
}

/// How the NAL unit stands to the access unit whose first slice is this one, if it has any.
pub(crate) fn joint_of(first: Option<FirstSlice>, unit: &[u8]) -> Joint
    ensures { (slices : List (List ℕ)) → IsFirstOf slices first
        → result ≡ joint_of slices unit.now }
{
    match first {
        None => Joint::Joins,
        Some(first) => joint_after(first, unit),
    }
}

/// How the NAL unit stands to the access unit whose first slice is this one.
#[tactic(auto, unfolding(crate::specs::Portions::joint_of))]
fn joint_after(first: FirstSlice, unit: &[u8]) -> Joint
    ensures { (slice : List ℕ) (slices : List (List ℕ)) → first ≡ first_slice slice
        → result ≡ joint_of (slice ∷ slices) unit.now }
{
    if begins_access_unit(unit) {
        Joint::Begins
    } else if is_slice(unit) && is_of_other(first, unit) {
        Joint::NeedsDelimiter
    } else {
        Joint::Joins
    }
}

/// Whether the slice isn't of the picture of this one, by what pictures' slices have in common.
#[tactic(auto, unfolding(access_unit::specs::Refusals::mixes_idr, access_unit::specs::Refusals::mixes_reference))]
fn is_of_other(first: FirstSlice, unit: &[u8]) -> bool
    ensures { (slice : List ℕ) (slices : List (List ℕ)) → first ≡ first_slice slice
        → result ≡ (mixes_idr (slice ∷ slices) unit.now || mixes_reference (slice ∷ slices) unit.now) }
{
    first.nal_unit_type != nal_unit_type(unit) || first.is_reference != is_reference(unit)
}
