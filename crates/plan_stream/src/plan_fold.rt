//! The fold over the units of a stream, with what is kept of each for its lines.

ghost use Rattle.std.specs.Prelude.{◌≤◌, [], IfOk, length, vec_len};
ghost use Rattle.access_unit.specs.StreamUnits.{most_units};

use crate::gathering::UnitFold;
use crate::shown::shown_in;
use crate::tails::Tails;
use access_unit::Unit;
use h264_types::pictures::AuId;
use request_core::{State, UnitRead};
use std::alloc::{AllocError, Global};
use unit_outcomes::Outcome;
use unit_printing::lines::write_tail;

/// The fold over the units so far, with what their lines need.
#[derive(Drop)]
pub(crate) struct PlanFold {
    pub(crate) state: State,
    /// Each unit's outcome, without its requests.
    pub(crate) outcomes: Vec<Outcome>,
    pub(crate) tails: Tails,
    /// Where the lines of a unit are written before they are kept.
    text: String,
    ghost kept: { vec_len outcomes ≤ length tails },
    ghost few: { length tails ≤ most_units },
}

impl PlanFold {
    ghost use Rattle.plan_stream.specs.Folds.{IsFoldOf};

    /// Before the first unit.
    pub(crate) fn new(alloc: Global) -> Result<PlanFold, AllocError>
        ensures { IfOk result (IsFoldOf []) }
    {
        Ok(PlanFold {
            state: State::new(alloc)?,
            outcomes: Vec::new(alloc),
            tails: Tails::new(alloc),
            text: String::new(alloc),
        })
    }
}

impl UnitFold for PlanFold {
    ghost use Rattle.plan_stream.specs.Folds.{IsFoldOf};

    ghost folds = { λ _. IsFoldOf };

    ghost count = { λ fold. length fold.tails };

    fn len(&self) -> usize {
        self.tails.len()
    }

    fn add(&mut self, alloc: Global, unit: &Unit) -> Result<(), AllocError> {
        let id = AuId::new(self.tails.len() as u32 + 1);
        let read = UnitRead::of(alloc, &self.state, unit)?;
        let (state, finding) = read.step(alloc, id)?;
        write_tail(&mut self.text, id, &finding)?;
        self.tails.push(self.text.as_bytes())?;
        self.outcomes.push(shown_in(alloc, &finding))?;
        self.state = state;
        Ok(())
    }
}
