//! One period of output order.

ghost use Rattle.std.specs.Prelude.{◌≡◌, ◌+◌, ◌<◌, ◌≤◌, ◌^◌, None, length, count_by, slice_index_or, IfOk};
ghost use Rattle.output_order.specs.Bounds.{IsSearched};
ghost use Rattle.output_order.specs.PeriodLists.{FitsInside, changed_inside};
ghost use Rattle.output_order.specs.OrderKeys.{order_keys, is_first};
ghost use Rattle.output_order.specs.Periods.{valid_in};

use crate::comparisons::Comparisons;
use crate::in_place::{keep, put_in};
use crate::order_key::{OrderKey, order_keys, rank};
use crate::shown::Shown;
use crate::splice::Inside;
use h264_types::base::replace_range;
use std::alloc::{AllocError, Global};
use std::marker::Model;

/// The units of a period, with the keys of the valid ones in output order, and room for more.
#[derive(Debug, Drop)]
pub(crate) struct Period {
    units: Vec<Option<Shown>>,
    sorted: Vec<OrderKey>,
    spare: usize,
}

impl Model for Period {
    ghost use Rattle.output_order.specs.PeriodLists.{IsPeriodSound};
    ghost use Rattle.output_order.specs.Periods.{PeriodValue};

    ghost Value = { PeriodValue };

    ghost view = { λ period. record { units = period.units.items; spare = period.spare } };

    ghost invariant = { λ period. IsPeriodSound period.units period.sorted period.spare };
}

impl Period {
    /// The period of these units, with room for so many more.
    pub(crate) fn new(
        alloc: Global,
        units: &[Option<Shown>],
        spare: usize,
    ) -> Result<Period, AllocError>
        requires { length units.now + spare < 2 ^ 64 }
        ensures { IfOk result (λ period. period ≡ record { units = units.now; spare = spare }) }
    {
        let all = units.len() + spare;
        let mut sorted = order_keys(alloc, units, all)?;
        sorted.sort_unstable();
        let mut own = Vec::with_capacity(alloc, all)?;
        own.extend_from_slice(units)?;
        Ok(Period {
            units: own,
            sorted,
            spare,
        })
    }

    /// Its units, in decoding order.
    pub(crate) fn units(&self) -> &[Option<Shown>]
        ensures { result.now ≡ self.now.units }
    {
        &self.units
    }

    /// For how many more units there is room.
    pub(crate) fn spare(&self) -> usize
        ensures { result ≡ self.now.spare }
    {
        self.spare
    }

    /// What is shown of the unit at an offset.
    pub(crate) fn shown(&self, offset: usize) -> Option<Shown>
        requires { offset < length self.now.units }
        ensures { result ≡ slice_index_or self.now.units offset None }
    {
        self.units[offset]
    }

    /// How many of its units are valid.
    pub(crate) fn valid(&self) -> usize
        ensures { result ≡ valid_in self.now.units }
    {
        self.sorted.len()
    }

    /// How many of its valid units are shown before one with this key.
    pub(crate) fn rank(&self, key: OrderKey, comparisons: &mut Comparisons) -> usize
        requires { comparisons.old + valid_in self.now.units < 2 ^ 64 }
        ensures rank { result ≡ count_by (λ other. is_first other key) (order_keys self.now.units) }
        ensures few { comparisons.new ≤ comparisons.old + valid_in self.now.units }
        ensures searched { IsSearched (valid_in self.now.units) comparisons.old comparisons.new }
    {
        rank(&self.sorted, key, comparisons)
    }

    /// Makes a change inside it. The keys of the units that stay keep their order. Takes no memory.
    pub(crate) fn change(&mut self, inside: Inside)
        requires { FitsInside inside self.old }
        ensures { self.new ≡ changed_inside inside self.old }
    {
        let Inside { low, high, units } = inside;
        let count = units.len();
        keep(&mut self.sorted, self.units.len(), low, high, count);
        put_in(&mut self.sorted, low, &units);
        replace_range(&mut self.units, low, high, units);
        self.spare = self.spare + (high - low) - count;
    }
}
