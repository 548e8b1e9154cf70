//! A unit as it is read over the state before it, and what it leads to.

ghost use Rattle.std.specs.Prelude.{◌≡◌, ◌∷◌, ◌++◌, ℕ, List, Result, Ok, Some, None, IfOk};
ghost use Rattle.unit_outcomes.specs.declared.validity_fault.ValidityFault.{ValidityFault};
ghost use Rattle.slice_reading.specs.Answers.{AnswersAs};
ghost use Rattle.slice_reading.specs.Slices.{SliceRead};
ghost use Rattle.request_core.specs.States.{FoldState};
ghost use Rattle.request_core.specs.StepResults.{step_in};
ghost use Rattle.request_core.specs.Fold.{fold_step, with_sets};
ghost use Rattle.request_core.specs.Readings.{ReadUnit, leads_to, read_of};

use crate::picture::StepResult;
use crate::state::State;
use crate::stepping::{pass, plan_picture};
use access_unit::Unit;
use h264_types::pictures::AuId;
use slice_reading::{Slice, Unplanned, read_slices, tables_with};
use std::alloc::{AllocError, Global};
use std::marker::Model;
use unit_outcomes::ValidityFault;

/// A unit that was read over the state before it: what is found of it stands on its slices.
#[derive(Debug, Drop)]
pub struct UnitRead {
    /// The state in which its parameter sets are put.
    state: State,
    /// Its slices, where no header shows a fault.
    slices: Vec<Slice>,
    /// The least fault that a header shows.
    fault: Option<ValidityFault>,
}

impl Model for UnitRead {
    ghost use Rattle.request_core.specs.Readings.{ReadUnit};
    ghost use Rattle.slice_reading.specs.Gathering.{found};

    ghost Value = { ReadUnit };

    ghost view = { λ read. record {
      state = read.state;
      slices = found read.slices.items read.fault;
    } };
}

impl UnitRead {
    /// The unit, read over this state.
    pub fn of(alloc: Global, state: &State, unit: &Unit) -> Result<UnitRead, AllocError>
        ensures { IfOk result (λ read. read ≡ read_of state.now unit.now) }
    {
        let state = with_sets(alloc, state, unit)?;
        let slices = read_slices(alloc, &state.tables, unit.slices());
        with_slices(alloc, state, slices)
    }

    /// The state after the unit, and what is found of it: one step of the fold, which makes no
    /// requests.
    pub fn step<'a>(
        &'a self,
        alloc: Global,
        id: AuId,
    ) -> Result<(State, StepResult<'a>), AllocError>
        ensures { (before : FoldState) (unit : List (List ℕ)) → self.now ≡ read_of before unit
            → IfOk result (λ step. step_in step ≡ fold_step before id unit) }
    {
        match self.planned(alloc, id) {
            Ok(step) => Ok(step),
            Err(Unplanned::Fault(fault)) => Ok((self.state.copy()?, StepResult::Fault(fault))),
            Err(Unplanned::Memory) => Err(AllocError),
        }
    }

    /// What the unit leads to.
    fn planned<'a>(&'a self, alloc: Global, id: AuId) -> Result<(State, StepResult<'a>), Unplanned>
        ensures { AnswersAs step_in result (leads_to self.now id) }
    {
        pass(self.fault)?;
        plan_picture(alloc, &self.state, id, &self.slices)
    }
}

/// The state in which the unit's parameter sets are put.
fn with_sets(alloc: Global, state: &State, unit: &Unit) -> Result<State, AllocError>
    ensures { IfOk result (λ after. after ≡ with_sets state.now unit.now) }
{
    Ok(State {
        tables: tables_with(alloc, &state.tables, unit.sets())?,
        active: state.active()?,
        anchor: state.anchor,
        prev_ref_frame_num: state.prev_ref_frame_num,
        marks: state.marks.clone()?,
    })
}

/// The unit whose sets are put into this state, with its slices.
fn with_slices(
    alloc: Global,
    state: State,
    slices: Result<Vec<Slice>, Unplanned>,
) -> Result<UnitRead, AllocError>
    ensures { (says : Result (List SliceRead) ValidityFault)
        → AnswersAs (λ slices. slices.items) slices says
        → IfOk result (λ read. read ≡ record { state = state; slices = says }) }
{
    match slices {
        Ok(slices) => Ok(UnitRead {
            state,
            slices,
            fault: None,
        }),
        Err(Unplanned::Fault(fault)) => Ok(UnitRead {
            state,
            slices: Vec::new(alloc),
            fault: Some(fault),
        }),
        Err(Unplanned::Memory) => Err(AllocError),
    }
}
