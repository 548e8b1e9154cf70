//! The keys by which the units of a period are shown.

ghost use Rattle.std.specs.Prelude.{◌≡◌, ◌≤◌, length, IfOk, ◌+◌, ◌<◌, ◌^◌, count_by};
ghost use Rattle.std.specs.Vec.{vec_capacity};
ghost use Rattle.output_order.specs.OrderKeys.{order_keys, is_first};
ghost use Rattle.std.specs.List.Sorted.{IsSortedBy};
ghost use Rattle.output_order.specs.Bounds.{IsSearched};

use crate::comparisons::Comparisons;
use crate::shown::Shown;
use std::alloc::{AllocError, Global};

/// What a valid unit is shown by in its period: keys are compared by their fields in turn.
#[derive(Clone, Copy, Debug, PartialEq, Eq, PartialOrd, Ord)]
pub(crate) struct OrderKey {
    /// The picture order count.
    pub(crate) order: i32,
    /// How many units of the period stand before it, valid or not.
    pub(crate) offset: usize,
}

/// The keys of the valid units of a period, in decoding order, with room for so many keys in all.
pub(crate) fn order_keys(
    alloc: Global,
    units: &[Option<Shown>],
    spare: usize,
) -> Result<Vec<OrderKey>, AllocError>
    ensures keys { IfOk result (λ keys. keys.items ≡ order_keys units.now) }
    ensures spare { IfOk result (λ keys. spare ≤ vec_capacity keys) }
{
    let mut keys = Vec::with_capacity(alloc, spare)?;
    for (offset, unit) in units.iter().enumerate() {
        let Some(shown) = unit else {
            continue;
        };
        keys.push(OrderKey {
            order: shown.order,
            offset,
        })?;
    }
    Ok(keys)
}

/// Whether the first of two units is shown first.
fn is_shown_first(one: OrderKey, other: OrderKey, comparisons: &mut Comparisons) -> bool
    requires { comparisons.old + 1 < 2 ^ 64 }
    ensures answer { result ≡ is_first one other }
    ensures counted { comparisons.new ≡ comparisons.old + 1 }
{
    comparisons.raise();
    one < other
}

/// How many of the keys, which stand in output order, are shown before one.
pub(crate) fn rank(sorted: &[OrderKey], key: OrderKey, comparisons: &mut Comparisons) -> usize
    requires sorted { IsSortedBy is_first sorted.now }
    requires spare { comparisons.old + length sorted.now < 2 ^ 64 }
    ensures rank { result ≡ count_by (λ other. is_first other key) sorted.now }
    ensures few { comparisons.new ≤ comparisons.old + length sorted.now }
    ensures searched { IsSearched (length sorted.now) comparisons.old comparisons.new }
{
    let mut low = 0;
    let mut high = sorted.len();
    while low < high {
        let middle = low + (high - low) / 2;
        if is_shown_first(sorted[middle], key, comparisons) {
            low = middle + 1;
        } else {
            high = middle;
        }
    }
    low
}
