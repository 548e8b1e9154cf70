//! The units of the periods that a change touches.

ghost use Rattle.std.specs.Prelude.{◌≡◌, ◌≤◌, ◌↔◌, IsTrue, false, All, length, IfOk};
ghost use Rattle.output_order.specs.Periods.{units_of, spliced};
ghost use Rattle.output_order.specs.Shown.{begins_period};

use crate::period::Period;
use crate::shown::Shown;
use std::alloc::{AllocError, Global};

/// The periods that a change touches.
#[derive(Clone, Copy, Debug)]
pub(crate) struct Touched {
    /// Which is the first of them.
    pub(crate) first: usize,
    /// Which is the one past them.
    pub(crate) past: usize,
    /// The place at which the first one starts.
    pub(crate) start: usize,
}

/// The units of the periods.
fn units_in(alloc: Global, periods: &[Period]) -> Result<Vec<Option<Shown>>, AllocError>
    ensures { IfOk result (λ units. units.items ≡ units_of periods.now) }
{
    let mut units = Vec::new(alloc);
    for period in periods {
        units.extend_from_slice(period.units())?;
    }
    Ok(units)
}

/// The units of the periods, with those between two places replaced by these.
pub(crate) fn units_after(
    alloc: Global,
    periods: &[Period],
    low: usize,
    high: usize,
    between: &[Option<Shown>],
) -> Result<Vec<Option<Shown>>, AllocError>
    requires ordered { low ≤ high }
    requires within { high ≤ length (units_of periods.now) }
    ensures { IfOk result
        (λ units. units.items ≡ spliced low high between.now (units_of periods.now)) }
{
    let touched = units_in(alloc, periods)?;
    let mut units = Vec::from_slice(alloc, &touched[..low])?;
    units.extend_from_slice(between)?;
    units.extend_from_slice(&touched[high..])?;
    Ok(units)
}

/// Whether none of the units begins a period.
pub(crate) fn none_begins(units: &[Option<Shown>]) -> bool
    ensures { IsTrue result ↔ All (λ unit. begins_period unit ≡ false) units.now }
{
    units
        .iter()
        .all(|unit| !unit.is_some_and(|shown| shown.begins_period))
}
