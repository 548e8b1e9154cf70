//! Units cut into periods.

ghost use Rattle.std.specs.Prelude.{◌≡◌, ◌+◌, ◌/◌, ◌&&◌, nat_lt, IfOk};
ghost use Rattle.output_order.specs.Shown.{begins_period};
ghost use Rattle.output_order.specs.Periods.{ArePeriods, units_of};

use crate::period::Period;
use crate::shown::Shown;
use std::alloc::{AllocError, Global};

/// Whether a new period is to begin at a place with this unit, where the last one began at `start`.
fn is_cut(start: usize, at: usize, unit: Option<Shown>) -> bool
    ensures { result ≡ (nat_lt start at && begins_period unit) }
{
    start < at && unit.is_some_and(|shown| shown.begins_period)
}

/// For how many more units the last of the periods made has room: half as many as it has, and some.
fn spare_behind(units: usize) -> usize
    ensures { result ≡ units / 2 + 8 }
{
    units / 2 + 8
}

/// The periods of these units: one begins with the first, and with each unit that begins one. The
/// last has room for more.
pub(crate) fn periods_of(alloc: Global, units: &[Option<Shown>]) -> Result<Vec<Period>, AllocError>
    ensures periods { IfOk result (λ periods. ArePeriods periods.items) }
    ensures units { IfOk result (λ periods. units_of periods.items ≡ units.now) }
{
    let mut periods = Vec::new(alloc);
    let mut start = 0;
    for (at, unit) in units.iter().enumerate() {
        if !is_cut(start, at, *unit) {
            continue;
        }
        periods.push(Period::new(alloc, &units[start..at], 0)?)?;
        start = at;
    }
    if start < units.len() {
        let last = &units[start..];
        periods.push(Period::new(alloc, last, spare_behind(last.len()))?)?;
    }
    Ok(periods)
}
