//! The units that are wanted, and what was told of each.

ghost use Rattle.std.specs.Prelude.{◌≡◌, ◌≢◌, All, IfOk, MatchBool, MatchOption, OnOk, Some};
ghost use Rattle.serve_answers.specs.Replies.{state_of};
ghost use Rattle.stream_session.specs.declared.showing.Shown.TheVariants.{Ready};
ghost use Rattle.stand_in_device.specs.declared.picture.Picture.{Picture};
ghost use Rattle.serve_calls.specs.WantedUnits.{AddsOne, AreWanted, IsAmong, IsChanged};

use serve_answers::{UnitState, state_of};
use stand_in_session::{Picture, Shown};
use std::alloc::{AllocError, Global};

/// A unit that is wanted, by its number.
#[derive(Clone, Copy, Debug, PartialEq, Eq, Drop)]
pub struct WantedUnit {
    pub number: u64,
    /// The picture that was told of it last, if no change was told since.
    pub told: Option<Picture>,
    /// What was shown of it when that was asked last, if it was.
    pub seen: Option<Shown>,
}

impl WantedUnit {
    /// The picture that is to be told of the unit, where this is shown of it.
    pub fn news(&self, shown: Shown) -> Option<Picture>
        ensures { MatchOption result
            ((picture : Picture) → shown ≡ Ready picture → self.now.told ≡ Some picture)
            (λ picture. (shown ≡ Ready picture) × (self.now.told ≢ Some picture)) }
    {
        match shown {
            Shown::Ready(picture) if self.told != Some(picture) => Some(picture),
            _ => None,
        }
    }

    /// What is to be told of the unit that edits changed, where this is shown of it now. Of a picture
    /// `news` tells.
    pub fn change(&self, has_edits: bool, shown: Shown) -> Option<UnitState>
        ensures { MatchOption result (IsChanged self.now has_edits shown → ⊥)
            (λ state. IsChanged self.now has_edits shown × (state_of shown ≡ Some state)) }
    {
        match self.seen {
            Some(seen) if has_edits && seen != shown => state_of(shown),
            _ => None,
        }
    }
}

/// The units of these numbers, each once, of which nothing was told.
pub(crate) fn wanted_units(alloc: Global, numbers: &[u64]) -> Result<Vec<WantedUnit>, AllocError>
    ensures { IfOk result (λ units. AreWanted numbers.now units.items) }
{
    let mut units: Vec<WantedUnit> = Vec::with_capacity(alloc, numbers.len())?;
    for number in numbers {
        add(&mut units, *number)?;
    }
    Ok(units)
}

/// Adds the unit of a number, unless it is there.
fn add(units: &mut Vec<WantedUnit>, number: u64) -> Result<(), AllocError>
    ensures { OnOk result (AddsOne units.old.items number units.new.items) }
{
    if has_number(units, number) {
        return Ok(());
    }
    units.push(WantedUnit {
        number,
        told: None,
        seen: None,
    })?;
    Ok(())
}

/// Whether one of the units has the number.
fn has_number(units: &[WantedUnit], number: u64) -> bool
    ensures { MatchBool result (IsAmong units.now number)
        (All (λ unit. unit.number ≢ number) units.now) }
{
    for unit in units {
        if unit.number == number {
            return true;
        }
    }
    false
}
