//! The fold over the units of a stream, with what is kept of those that are drawn.

ghost use Rattle.std.specs.Prelude.{◌≡◌, ◌≢◌, ◌⊎◌, ◌+◌, ◌<◌, ◌≤◌, ◌++◌, [], ◌∷◌, List, length, IfOk, OnOk, true, false, vec_len};
ghost use Rattle.access_unit.specs.StreamUnits.{most_units};
ghost use Rattle.unit_outcomes.specs.References.{is_of_reference};
ghost use Rattle.draw_run.specs.Chosen.{chosen};
ghost use Rattle.draw_run.specs.declared.drawn_fold.KeptUnit.{KeptUnit as KeptUnitValue};

use crate::choice::Choice;
use access_unit::Unit;
use h264_types::pictures::AuId;
use plan_stream::{UnitFold, shown_of};
use request_core::{State, Steps, step};
use std::alloc::{AllocError, Global};
use std::mem::replace;
use unit_outcomes::Outcome;
use unit_outcomes::doubts::{Doubt, DoubtWalk};

/// The fold over the units so far, with what is kept of those that are drawn.
#[derive(Drop)]
pub(crate) struct DrawnFold {
    pub(crate) state: State,
    /// Each unit's outcome, without its requests.
    pub(crate) outcomes: Vec<Outcome>,
    /// What was found of breaks so far.
    pub(crate) walk: DoubtWalk,
    /// What is told of each unit's doubt.
    pub(crate) doubts: Vec<Doubt>,
    pub(crate) choice: Choice,
    /// The units that are drawn.
    pub(crate) kept: Vec<KeptUnit>,
    ghost few: { vec_len outcomes ≤ most_units },
    ghost kept_few: { vec_len kept ≤ 1000 },
}

/// A unit that is drawn.
#[derive(Drop)]
pub(crate) struct KeptUnit {
    pub(crate) id: AuId,
    pub(crate) outcome: Outcome,
}

impl DrawnFold {
    ghost use Rattle.draw_run.specs.Folds.{IsFoldOf};

    /// Before the first unit.
    pub(crate) fn new(alloc: Global, choice: Choice) -> Result<DrawnFold, AllocError>
        ensures folded { IfOk result (λ fold. IsFoldOf fold [] fold) }
        ensures choice { IfOk result (λ fold. fold.choice ≡ choice) }
    {
        let walk = DoubtWalk::new(alloc);
        let doubts = Vec::new(alloc);
        Ok(DrawnFold {
            state: State::new(alloc)?,
            outcomes: Vec::new(alloc),
            walk,
            doubts,
            choice,
            kept: Vec::new(alloc),
        })
    }
}

impl UnitFold for DrawnFold {
    ghost use Rattle.draw_run.specs.Folds.{IsFoldOf};

    ghost folds = { IsFoldOf };

    ghost count = { λ fold. vec_len fold.outcomes };

    fn len(&self) -> usize {
        self.outcomes.len()
    }

    fn add(&mut self, alloc: Global, unit: &Unit) -> Result<(), AllocError> {
        let id = AuId::new(self.outcomes.len() as u32 + 1);
        let mut steps = Steps::new();
        let (state, outcome) = step(alloc, &self.state, id, unit, &mut steps)?;
        let walk = replace(&mut self.walk, DoubtWalk::new(alloc));
        let (walk, doubt) = walk.pass(alloc, id, is_reference(unit), &outcome)?;
        self.walk = walk;
        self.doubts.push(doubt)?;
        self.outcomes.push(shown_of(alloc, &outcome))?;
        self.state = state;
        keep(&mut self.kept, self.choice, KeptUnit { id, outcome })?;
        Ok(())
    }
}

/// Whether nal_ref_idc of a unit's first slice isn't 0.
fn is_reference(unit: &Unit) -> bool
    ensures { result ≡ is_of_reference unit.now }
{
    match unit.slices() {
        [] => false,
        [slice, ..] => slice.nal().nal_ref_idc() != 0,
    }
}

/// Keeps the unit where it is drawn.
fn keep(kept: &mut Vec<KeptUnit>, choice: Choice, unit: KeptUnit) -> Result<(), AllocError>
    requires { vec_len kept.old ≤ 1000 }
    ensures few { vec_len kept.new ≤ 1000 }
    ensures kept { (all : List KeptUnitValue) → kept.old.items ≡ chosen choice.from choice.units all
        → unit.id ≡ length all + 1
        → OnOk result (kept.new.items ≡ chosen choice.from choice.units (all ++ unit ∷ [])) }
{
    if !is_shown(choice, unit.id, kept.len()) {
        return Ok(());
    }
    kept.push(unit)?;
    Ok(())
}

/// Whether the unit with this id is drawn, after so many that are.
fn is_shown(choice: Choice, id: AuId, count: usize) -> bool
    ensures yes { result ≡ true → (choice.from ≢ 0) × (choice.from ≤ id) × (count < choice.units) }
    ensures no { result ≡ false → (choice.from ≡ 0)
        ⊎ ((id < choice.from) ⊎ ((choice.from ≤ id) × (choice.units ≤ count))) }
{
    choice.from != 0 && choice.from <= id.number() && count < choice.units
}
