//! The periods of a stream under changes.

ghost use Rattle.std.specs.Prelude.{◌≡◌, ℕ, ◌+◌, ◌-◌, ◌<◌, ◌≤◌, ◌^◌, ◌↔◌, ◌++◌, List, [], length, map, max, take, drop, vec_len, IsTrue, IfOk, IfNone, IfSome, OnOk, OnErr, IsOk};
ghost use Rattle.std.specs.Vec.{vec_capacity};
ghost use Rattle.unit_outcomes.specs.declared.outcome.Outcome.{Outcome};
ghost use Rattle.output_order.specs.OutputOrder.{position_at};
ghost use Rattle.output_order.specs.Shown.{shown_of};
ghost use Rattle.output_order.specs.Periods.{units_of, spliced, ArePeriods};
ghost use Rattle.output_order.specs.PeriodLists.{changed, last_changed, FitsLast, IsChange, IsSplice};
ghost use Rattle.output_order.specs.Bounds.{IsSearched, period_size};
ghost use Rattle.output_order.specs.Places.{IsFound, IsTouched, IsInside, IsTouchedInside, change_inside};

use crate::comparisons::Comparisons;
use crate::counting::{Count, count_on, start_of, started_before};
use crate::cutting::periods_of;
use crate::order_key::OrderKey;
use crate::period::Period;
use crate::shown::Shown;
use crate::splice::{Inside, Splice};
use crate::touching::{Touched, none_begins, units_after};
use h264_types::base::replace_range;
use std::alloc::{AllocError, Global};
use std::marker::Model;

/// The most units that are put inside a period one by one: the keys behind each of them move.
const MOST_INSIDE: usize = 32;

/// A stream's units by periods, with what decides about their positions.
///
/// A look-up takes time that grows with the logarithms of the number of periods and of the size of
/// one. A change of a few units inside one period searches for their places in it and moves the
/// keys behind them. Any other change makes the periods that it touches anew. Those after them are
/// counted again.
#[derive(Debug)]
pub struct Periods {
    periods: Vec<Period>,
    counts: Vec<Count>,
    spare: usize,
}

// By hand, so that whoever drops one is proved over one call.
impl Drop for Periods {
    fn drop(self) {
        let Periods {
            periods: _,
            counts: _,
            spare: _,
        } = self;
    }
}

impl Model for Periods {
    ghost use Rattle.output_order.specs.PeriodLists.{PeriodsValue, IsSound};

    ghost Value = { PeriodsValue };

    ghost view = { λ p. record { periods = p.periods.items; spare = p.spare } };

    ghost invariant = { λ p. IsSound p.periods p.counts p.spare };
}

impl Periods {
    /// Those of a stream without a unit.
    pub fn new(alloc: Global) -> Periods
        ensures { result ≡ record { periods = []; spare = 0 } }
    {
        Periods {
            periods: Vec::new(alloc),
            counts: Vec::new(alloc),
            spare: 0,
        }
    }

    /// How many units the stream has.
    pub fn len(&self) -> usize
        ensures { result ≡ length (units_of self.now.periods) }
    {
        match (self.counts.last(), self.periods.last()) {
            (Some(count), Some(period)) => count.start + period.units().len(),
            _ => 0,
        }
    }

    /// The position of the unit at a place, by the outcomes of the stream's units; `None` where it
    /// isn't valid. Each pair of units that is compared is counted. Takes no memory.
    pub fn position_in(&self, place: usize, comparisons: &mut Comparisons) -> Option<usize>
        requires within { place < length (units_of self.now.periods) }
        requires spare { comparisons.old + length (units_of self.now.periods) < 2 ^ 64 }
        ensures position { (outcomes : List Outcome)
            → map shown_of outcomes ≡ units_of self.now.periods
            → result ≡ position_at outcomes place }
        ensures few { (outcomes : List Outcome)
            → map shown_of outcomes ≡ units_of self.now.periods
            → comparisons.new ≤ comparisons.old + period_size outcomes place }
        ensures searched { (outcomes : List Outcome)
            → map shown_of outcomes ≡ units_of self.now.periods
            → IfSome result
            (λ _. IsSearched (period_size outcomes place) comparisons.old comparisons.new) }
        ensures none { IfNone result (comparisons.new ≡ comparisons.old) }
    {
        let at = self.period_at(place);
        let count = self.counts[at];
        let period = &self.periods[at];
        let offset = place - count.start;
        let Some(shown) = period.shown(offset) else {
            return None;
        };
        let key = OrderKey {
            order: shown.order,
            offset,
        };
        Some(count.earlier + period.rank(key, comparisons))
    }

    /// Prepares that these units take the place of those between two places. All that the change
    /// takes but room is made here. No period is made anew for a few units inside one period that
    /// has room for them.
    pub fn prepare_splice(
        &self,
        alloc: Global,
        low: usize,
        high: usize,
        units: &[Option<Shown>],
    ) -> Result<Splice, AllocError>
        requires ordered { low ≤ high }
        requires within { high ≤ length (units_of self.now.periods) }
        requires fits { length (spliced low high units.now (units_of self.now.periods)) < 2 ^ 64 }
        ensures splice { IfOk result
            (λ splice. IsSplice splice self.now.periods low high units.now) }
        ensures inside { (at : ℕ) → IsInside self.now.periods at low high units.now
            → IfOk result (λ splice. splice.periods ≡ []) }
    {
        let touched = self.touched(low, high);
        if self.is_inside(touched, low, high, units) {
            splice_inside(alloc, touched, low, high, units)
        } else {
            self.splice_anew(alloc, touched, low, high, units)
        }
    }

    /// Makes room for this many more periods.
    pub fn reserve(&mut self, n: usize) -> Result<(), AllocError>
        ensures ok { OnOk result (self.new ≡ record self.old { spare = max self.old.spare n }) }
        ensures err { OnErr result (self.new ≡ self.old) }
        ensures there { n ≤ self.old.spare → IsOk result }
    {
        if n <= self.spare {
            return Ok(());
        }
        self.periods.reserve(n)?;
        self.counts.reserve(n)?;
        self.spare = n;
        Ok(())
    }

    /// Makes a change that was prepared, for which there is room. Takes no memory.
    pub fn commit(&mut self, splice: Splice)
        requires can { IsChange splice self.old.periods }
        requires spare { length splice.periods ≤ self.old.spare }
        ensures { self.new ≡ record {
          periods = changed splice self.old.periods;
          spare = self.old.spare - length splice.periods;
        } }
    {
        let first = splice.first;
        let count = splice.len();
        put(&mut self.periods, splice);
        self.counts.truncate(first);
        count_on(&self.periods, &mut self.counts);
        self.spare -= count;
    }

    /// Puts these units in the place of those between two places.
    pub fn splice(
        &mut self,
        alloc: Global,
        low: usize,
        high: usize,
        units: &[Option<Shown>],
    ) -> Result<(), AllocError>
        requires ordered { low ≤ high }
        requires within { high ≤ length (units_of self.old.periods) }
        requires fits { length (units_of self.old.periods) + length units.now < 2 ^ 64 }
        ensures ok { OnOk result (units_of self.new.periods
            ≡ spliced low high units.now (units_of self.old.periods)) }
        ensures err { OnErr result (self.new ≡ self.old) }
    {
        let splice = self.prepare_splice(alloc, low, high, units)?;
        self.reserve(splice.len())?;
        self.commit(splice);
        Ok(())
    }

    /// The period in which the unit at a place stands.
    fn period_at(&self, place: usize) -> usize
        requires { place < length (units_of self.now.periods) }
        ensures { IsFound self.now.periods place result }
    {
        started_before(&self.counts, place + 1) - 1
    }

    /// The periods that a change between two places touches.
    fn touched(&self, low: usize, high: usize) -> Touched
        requires ordered { low ≤ high }
        requires within { high ≤ length (units_of self.now.periods) }
        ensures touched { IsTouched self.now.periods low high result }
        ensures periods { ArePeriods self.now.periods }
    {
        let first = started_before(&self.counts, low).saturating_sub(1);
        let past = started_before(&self.counts, high)
            .max(1)
            .min(self.counts.len());
        Touched {
            first,
            past,
            start: start_of(&self.counts, first),
        }
    }
    /// Whether these units can take the place of others inside the one period that is touched: it
    /// keeps its first unit, none of them begins a period, they are few, and it has room.
    fn is_inside(&self, touched: Touched, low: usize, high: usize, units: &[Option<Shown>]) -> bool
        requires ordered { low ≤ high }
        requires touched { IsTouched self.now.periods low high touched }
        ensures { IsTrue result ↔ IsTouchedInside self.now.periods touched low high units.now }
    {
        touched.past - touched.first == 1
            && touched.start < low
            && units.len() <= MOST_INSIDE
            && units.len().saturating_sub(high - low) <= self.periods[touched.first].spare()
            && none_begins(units)
    }

    /// The periods that are touched, made anew with these units between two places.
    fn splice_anew(
        &self,
        alloc: Global,
        touched: Touched,
        low: usize,
        high: usize,
        units: &[Option<Shown>],
    ) -> Result<Splice, AllocError>
        requires ordered { low ≤ high }
        requires touched { IsTouched self.now.periods low high touched }
        requires fits { length (spliced low high units.now (units_of self.now.periods)) < 2 ^ 64 }
        ensures { IfOk result (λ splice. IsSplice splice self.now.periods low high units.now) }
    {
        let Touched { first, past, start } = touched;
        let after = units_after(
            alloc,
            &self.periods[first..past],
            low - start,
            high - start,
            units,
        )?;
        Ok(Splice {
            inside: None,
            first,
            past,
            periods: periods_of(alloc, &after)?,
        })
    }
}

/// These units between two places of the one period that is touched.
fn splice_inside(
    alloc: Global,
    touched: Touched,
    low: usize,
    high: usize,
    units: &[Option<Shown>],
) -> Result<Splice, AllocError>
    requires from { touched.start ≤ low }
    requires ordered { low ≤ high }
    requires inside { touched.past ≡ touched.first + 1 }
    ensures { IfOk result (λ splice. splice ≡ change_inside touched low high units.now) }
{
    let Touched {
        first: _,
        past,
        start,
    } = touched;
    Ok(Splice {
        inside: Some(Inside {
            low: low - start,
            high: high - start,
            units: Vec::from_slice(alloc, units)?,
        }),
        first: past,
        past,
        periods: Vec::new(alloc),
    })
}

/// Makes a change of periods, for which there is room.
fn put(periods: &mut Vec<Period>, splice: Splice)
    requires can { IsChange splice periods.old.items }
    requires spare { vec_len periods.old + length splice.periods ≤ vec_capacity periods.old }
    ensures items { periods.new.items ≡ changed splice periods.old.items }
    ensures capacity { vec_capacity periods.old ≤ vec_capacity periods.new }
{
    let Splice {
        inside,
        first,
        past,
        periods: new,
    } = splice;
    change_last(periods, first, inside);
    replace_range(periods, first, past, new);
}

/// Makes a change, if there is one, inside the last of the first periods.
fn change_last(periods: &mut Vec<Period>, count: usize, inside: Option<Inside>)
    requires within { count ≤ vec_len periods.old }
    requires fits { FitsLast inside (take count periods.old.items) }
    ensures items { periods.new.items
        ≡ last_changed inside (take count periods.old.items) ++ drop count periods.old.items }
    ensures capacity { vec_capacity periods.new ≡ vec_capacity periods.old }
{
    if let Some(inside) = inside {
        periods[count - 1].change(inside);
    }
}
