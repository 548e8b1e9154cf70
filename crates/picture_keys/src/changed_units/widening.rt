//! The range of units that changed, found by going over units.

ghost use Rattle.std.specs.Prelude.{◌≡◌, ◌↔◌, ℕ, ◌+◌, ◌<◌, ◌≤◌, ◌^◌, List, ◌++◌, Some, length, Contains, IsTrue, MatchOption, slice_get};
ghost use Rattle.picture_keys.specs.Units.{AreAligned, AreDifferent, ComparedUnit, units_in};
ghost use Rattle.picture_keys.specs.Ranges.{IsLeast};

use crate::changed_units::changed::Changed;
use crate::changed_units::columns::{UnitColumns, are_alike};
use crate::changed_units::finding::{find, greatest};

/// Goes over units that stand from a place on, behind a range, and widens it by those that
/// weren't there before. Ids that were there are found at once while they keep their order, and no
/// new one is looked for, as it is greater than all that were. Takes no memory.
pub fn widen(
    changed: Changed,
    before: &UnitColumns<'_>,
    after: &UnitColumns<'_>,
    at: usize,
) -> Changed
    requires before { AreAligned before.now }
    requires different { AreDifferent before.now.ids.now }
    requires after { AreAligned after.now }
    requires behind { changed.from + changed.count ≤ at }
    requires fits { at + length after.now.ids.now < 2 ^ 64 }
    ensures behind { result.from + result.count ≤ at + length after.now.ids.now }
    ensures least { (all front : List (ComparedUnit ℕ)) → length front ≡ at
        → ((unit : ComparedUnit ℕ) → Contains (units_in after.now) unit
        → Contains all unit ↔ Contains (units_in before.now) unit)
        → IsLeast all front changed → IsLeast all (front ++ units_in after.now) result }
{
    let greatest = greatest(before.ids);
    let mut changed = changed;
    let mut near = 0;
    for index in 0..after.ids.len() {
        let place = find(before.ids, greatest, near, after.ids[index]);
        near = next(place, near);
        if !was_there(before, place, after, index) {
            changed = changed.with_unit((at + index) as u64);
        }
    }
    changed
}

/// Where the next unit is looked for at first.
fn next(place: Option<usize>, near: usize) -> usize {
    match place {
        Some(place) => place.saturating_add(1),
        None => near,
    }
}

/// Whether a unit was there before, as it is: at the place where its id stood, if it did.
fn was_there(
    before: &UnitColumns<'_>,
    place: Option<usize>,
    after: &UnitColumns<'_>,
    index: usize,
) -> bool
    requires before { AreAligned before.now }
    requires different { AreDifferent before.now.ids.now }
    requires after { AreAligned after.now }
    requires index { index < length after.now.ids.now }
    requires place { (id : ℕ) → slice_get after.now.ids.now index ≡ Some id
        → MatchOption place ((at : ℕ) → slice_get before.now.ids.now at ≡ Some id → ⊥)
        (λ at. slice_get before.now.ids.now at ≡ Some id) }
    ensures { (unit : ComparedUnit ℕ) → slice_get (units_in after.now) index ≡ Some unit
        → IsTrue result ↔ Contains (units_in before.now) unit }
{
    match place {
        Some(place) => is_same(before, place, after, index),
        None => false,
    }
}

/// Whether two units of one id are the same.
fn is_same(units: &UnitColumns<'_>, place: usize, others: &UnitColumns<'_>, index: usize) -> bool
    requires units { AreAligned units.now }
    requires others { AreAligned others.now }
    requires place { place < length units.now.ids.now }
    requires index { index < length others.now.ids.now }
    ensures { (unit other : ComparedUnit ℕ) → slice_get (units_in units.now) place ≡ Some unit
        → slice_get (units_in others.now) index ≡ Some other → unit.id ≡ other.id
        → IsTrue result ↔ (unit ≡ other) }
{
    are_alike(
        &units.outcomes[place],
        units.numbers[place],
        &others.outcomes[index],
        others.numbers[index],
    )
}
