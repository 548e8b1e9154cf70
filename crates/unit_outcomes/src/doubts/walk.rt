//! A walk over the units of a stream.

ghost use Rattle.std.specs.Prelude.{◌≡◌, ◌⊎◌, ℕ, ◌+◌, Bool, List, Some, IfOk, slice_get, [], All};
ghost use Rattle.unit_outcomes.specs.SeenUnits.{IsIdrAt, SeenUnit, is_break};
ghost use Rattle.unit_outcomes.specs.InDoubt.{IdsDiffer, IsDoubt, InDoubt};
ghost use Rattle.unit_outcomes.specs.Sets.{has};
ghost use Rattle.unit_outcomes.specs.Walks.{IsBefore, doubt_of, first_after, followed, sound_after};
ghost use Rattle.unit_outcomes.specs.declared.outcome.Outcome.TheVariants as outcomes;
ghost use Rattle.unit_outcomes.specs.declared.outcome.Plan.{Plan};
ghost use Rattle.unit_outcomes.specs.Breaks.{Follows, Lasts};
ghost use Rattle.unit_outcomes.specs.Entries.{HasNoEntries, IsPlan};

use crate::Outcome;
use crate::doubts::breaks::{is_break, is_idr_picture};
use crate::doubts::entries::names_sound;
use crate::doubts::id_set::IdSet;
use h264_types::pictures::AuId;
use std::alloc::{AllocError, Global};

/// The break that a unit follows, and whether its picture is in doubt.
#[derive(Clone, Copy, Debug, PartialEq, Eq, Drop)]
pub struct Doubt {
    /// The id of the break that the unit follows, if there is one.
    pub follows: Option<AuId>,
    /// Whether the unit is valid and its picture may be made of other frames than were meant.
    pub in_doubt: bool,
}

/// What was found of the units that were gone over, since the last valid IDR picture.
#[derive(Debug, Drop)]
pub struct DoubtWalk {
    /// The first break.
    first: Option<AuId>,
    /// The units behind the last break that aren't in doubt. Kept once there is a break.
    sound: IdSet,
}

impl DoubtWalk {
    /// A walk that begins at the first unit, or at a valid IDR picture.
    pub fn new(alloc: Global) -> DoubtWalk
        ensures { (units : List SeenUnit) (at : ℕ) → (at ≡ 0) ⊎ IsIdrAt units at
            → IsBefore units at result }
    {
        DoubtWalk {
            first: None,
            sound: IdSet::new(alloc),
        }
    }

    /// Goes over the next unit, by its id, whether nal_ref_idc of its first slice isn't 0, and its
    /// outcome. It takes a time that grows with the entries of the unit's lists, and with the
    /// logarithm of how many units there were.
    pub fn pass(
        self,
        alloc: Global,
        id: AuId,
        is_reference: bool,
        outcome: &Outcome,
    ) -> Result<(DoubtWalk, Doubt), AllocError>
        ensures { IfOk result (λ passed. (units : List SeenUnit) (at : ℕ) → IdsDiffer units
            → slice_get units at ≡ Some (record {
              id = id;
              is_reference = is_reference;
              outcome = outcome.now;
            })
            → IsBefore units at self
            → IsDoubt units at passed.1 × IsBefore units (at + 1) passed.0) }
    {
        let breaks = is_break(is_reference, outcome);
        let passed = self.pass_by(alloc, id, breaks, outcome)?;
        Ok(passed)
    }

    /// The same of a unit of which it is known whether it is a break: a valid one never is, so its
    /// slices needn't be looked at.
    pub fn pass_by(
        self,
        alloc: Global,
        id: AuId,
        breaks: bool,
        outcome: &Outcome,
    ) -> Result<(DoubtWalk, Doubt), AllocError>
        ensures { IfOk result (λ passed. (units : List SeenUnit) (at : ℕ) (is_reference : Bool)
            → IdsDiffer units
            → slice_get units at ≡ Some (record {
              id = id;
              is_reference = is_reference;
              outcome = outcome.now;
            })
            → breaks ≡ is_break is_reference outcome.now
            → IsBefore units at self
            → IsDoubt units at passed.1 × IsBefore units (at + 1) passed.0) }
    {
        let doubt = self.doubt(outcome);
        let walk = self.after(alloc, id, breaks, &doubt)?;
        Ok((walk, doubt))
    }

    /// What is told of a unit.
    fn doubt(&self, outcome: &Outcome) -> Doubt
        ensures { result ≡ doubt_of self.now.first (has self.now.sound) outcome.now }
    {
        let follows = self.follows(outcome);
        Doubt {
            follows,
            in_doubt: follows.is_some() && !names_sound(outcome, &self.sound),
        }
    }

    /// The break that a unit follows.
    fn follows(&self, outcome: &Outcome) -> Option<AuId>
        ensures { result ≡ followed self.now.first outcome.now }
    {
        if is_idr_picture(outcome) {
            None
        } else {
            self.first
        }
    }

    /// The walk after a unit of which this is told.
    fn after(
        self,
        alloc: Global,
        id: AuId,
        breaks: bool,
        doubt: &Doubt,
    ) -> Result<DoubtWalk, AllocError>
        ensures first { IfOk result (λ walk. walk.first ≡ first_after id breaks doubt.now.follows) }
        ensures sound { IfOk result (λ walk. (other : ℕ) → has walk.sound other
            ≡ sound_after id breaks doubt.now (has self.sound) other) }
    {
        let first = first_after(id, breaks, doubt.follows);
        let DoubtWalk { first: _, sound } = self;
        let mut sound = if breaks { IdSet::new(alloc) } else { sound };
        if first.is_some() && !doubt.in_doubt {
            sound.add(id)?;
        }
        Ok(DoubtWalk { first, sound })
    }
}

/// The first break after a unit that follows this one.
fn first_after(id: AuId, breaks: bool, follows: Option<AuId>) -> Option<AuId>
    ensures { result ≡ first_after id breaks follows }
{
    match follows {
        Some(first) => Some(first),
        None if breaks => Some(id),
        None => None,
    }
}

/// A unit in doubt has a break before it that lasts up to it: a unit that follows none isn't in
/// doubt.
pub fn doubt_follows()
    ensures { (units : List SeenUnit) (at : ℕ) → InDoubt units at → (broken : ℕ) × Lasts units broken at }
{}

/// A unit whose lists have no entries, as one of I slices alone, isn't in doubt.
pub fn intra_is_sound()
    ensures { (units : List SeenUnit) (at : ℕ) (plan : Plan) → IsPlan units at plan
        → All HasNoEntries plan.requests → InDoubt units at → ⊥ }
{}
