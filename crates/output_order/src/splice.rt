//! A change of periods that was prepared.

ghost use Rattle.std.specs.Prelude.{◌≡◌, length};

use crate::period::Period;
use crate::shown::Shown;
use std::marker::Model;

/// Units that are to stand between two places of a period.
#[derive(Debug, Drop)]
pub(crate) struct Inside {
    pub(crate) low: usize,
    pub(crate) high: usize,
    pub(crate) units: Vec<Option<Shown>>,
}

impl Model for Inside {
    ghost use Rattle.output_order.specs.PeriodLists.{InsideValue};

    ghost Value = { InsideValue };

    ghost view = { λ inside. record {
      low = inside.low;
      high = inside.high;
      units = inside.units.items;
    } };
}

/// Periods that are to take the place of others, and units that are to stand inside the one before
/// those. They were made where memory could still be refused.
#[derive(Debug, Drop)]
pub struct Splice {
    pub(crate) inside: Option<Inside>,
    pub(crate) first: usize,
    pub(crate) past: usize,
    pub(crate) periods: Vec<Period>,
}

impl Model for Splice {
    ghost use Rattle.output_order.specs.PeriodLists.{Change};

    ghost Value = { Change };

    ghost view = { λ splice. record {
      inside = splice.inside;
      first = splice.first;
      past = splice.past;
      periods = splice.periods.items;
    } };
}

impl Splice {
    /// How many periods it puts: for so many there has to be room.
    pub fn len(&self) -> usize
        ensures { result ≡ length self.now.periods }
    {
        self.periods.len()
    }
}
