//! How many units stand before each period.

ghost use Rattle.std.specs.Prelude.{◌≡◌, ◌<◌, ◌≤◌, ◌^◌, length, vec_len, slice_get, option_map, unwrap_or};
ghost use Rattle.std.specs.Vec.{vec_capacity};
ghost use Rattle.std.specs.List.{AllWithin};
ghost use Rattle.std.specs.List.Sorted.{IsNonDecreasingBy};
ghost use Rattle.output_order.specs.Periods.{units_of};
ghost use Rattle.output_order.specs.PeriodLists.{AreCounted, count_at};

use crate::period::Period;

/// What stands before a period.
#[derive(Clone, Copy, Debug)]
pub(crate) struct Count {
    /// How many units: the place of the period's first one.
    pub(crate) start: usize,
    /// How many valid units.
    pub(crate) earlier: usize,
}

/// The count of the period after those that are counted.
fn next_count(periods: &[Period], counts: &[Count]) -> Count
    requires counted { AreCounted periods.now (length counts.now) counts.now }
    requires within { length counts.now < length periods.now }
    requires fits { length (units_of periods.now) < 2 ^ 64 }
    ensures { result ≡ count_at periods.now (length counts.now) }
{
    let at = counts.len();
    if at == 0 {
        return Count {
            start: 0,
            earlier: 0,
        };
    }
    let last = counts[at - 1];
    let period = &periods[at - 1];
    Count {
        start: last.start + period.units().len(),
        earlier: last.earlier + period.valid(),
    }
}

/// Counts the periods from one on, for which there is room.
pub(crate) fn count_on(periods: &[Period], counts: &mut Vec<Count>)
    requires counted { AreCounted periods.now (vec_len counts.old) counts.old.items }
    requires within { vec_len counts.old ≤ length periods.now }
    requires fits { length (units_of periods.now) < 2 ^ 64 }
    requires spare { length periods.now ≤ vec_capacity counts.old }
    ensures counted { AreCounted periods.now (length periods.now) counts.new.items }
    ensures capacity { vec_capacity counts.new ≡ vec_capacity counts.old }
{
    for _ in counts.len()..periods.len() {
        let count = next_count(periods, counts);
        counts.push_reserved(count);
    }
}

/// How many of the periods start before a place.
pub(crate) fn started_before(counts: &[Count], place: usize) -> usize
    requires { IsNonDecreasingBy (λ count. count.start) counts.now }
    ensures bound { result ≤ length counts.now }
    ensures before { AllWithin (λ count. count.start < place) counts.now 0 result }
    ensures after { AllWithin (λ count. place ≤ count.start) counts.now result (length counts.now) }
{
    counts.partition_point(|count| count.start < place)
}

/// The place at which a period starts; 0 where there is none.
pub(crate) fn start_of(counts: &[Count], at: usize) -> usize
    ensures { result ≡ unwrap_or (option_map (λ count. count.start) (slice_get counts.now at)) 0 }
{
    match counts.get(at) {
        Some(count) => count.start,
        None => 0,
    }
}
