//! A period's keys under a change inside it.

ghost use Rattle.std.specs.Prelude.{◌≡◌, ◌+◌, ◌<◌, ◌≤◌, ◌^◌, ◌∷◌, ◌++◌, map, All, filter, length, vec_len};
ghost use Rattle.std.specs.List.Sorted.{IsPermutation, IsSortedBy};
ghost use Rattle.std.specs.Vec.{vec_capacity};
ghost use Rattle.output_order.specs.OrderKeys.{is_first, order_keys_from};
ghost use Rattle.output_order.specs.InPlace.{stays, moved};

use crate::order_key::OrderKey;
use crate::shown::Shown;

/// Takes the keys of the units between two places out, if a unit stands there.
fn take_out(keys: &mut Vec<OrderKey>, low: usize, high: usize)
    requires { low ≤ high }
    ensures items { keys.new.items ≡ filter (stays low high) keys.old.items }
    ensures capacity { vec_capacity keys.new ≡ vec_capacity keys.old }
{
    if low < high {
        keys.retain(|key| key.offset < low || high <= key.offset);
    }
}

/// The key of a unit after those before it up to `from` have become those up to `to`.
fn moved(key: OrderKey, from: usize, to: usize) -> OrderKey
    requires { key.offset + to < 2 ^ 64 }
    ensures { result ≡ moved from to key }
{
    if key.offset < from {
        key
    } else {
        OrderKey {
            offset: key.offset - from + to,
            ..key
        }
    }
}

/// Moves each key so.
fn move_each(keys: &mut [OrderKey], from: usize, to: usize)
    requires { All (λ key. key.offset + to < 2 ^ 64) keys.old }
    ensures { keys.new ≡ map (moved from to) keys.old }
{
    for key in keys.iter_mut() {
        *key = moved(*key, from, to);
    }
}

/// Moves the keys of a period of so many units, if one of them has to.
fn shift(keys: &mut Vec<OrderKey>, units: usize, from: usize, to: usize)
    requires fits { units + to < 2 ^ 64 }
    requires below { All (λ key. key.offset < units) keys.old.items }
    ensures items { keys.new.items ≡ map (moved from to) keys.old.items }
    ensures capacity { vec_capacity keys.new ≡ vec_capacity keys.old }
{
    if from < units && from != to {
        move_each(keys, from, to);
    }
}

/// Keeps the keys of the units that stay, of `units` in all, where `count` others come between two
/// places.
pub(crate) fn keep(keys: &mut Vec<OrderKey>, units: usize, low: usize, high: usize, count: usize)
    requires ordered { low ≤ high }
    requires fits { units + low + count < 2 ^ 64 }
    requires below { All (λ key. key.offset < units) keys.old.items }
    ensures items { keys.new.items
        ≡ map (moved high (low + count)) (filter (stays low high) keys.old.items) }
    ensures capacity { vec_capacity keys.new ≡ vec_capacity keys.old }
{
    take_out(keys, low, high);
    shift(keys, units, high, low + count);
}

/// Puts a key among others, which stand in output order.
fn insert(keys: &mut Vec<OrderKey>, key: OrderKey)
    requires sorted { IsSortedBy is_first keys.old.items }
    requires spare { vec_len keys.old < vec_capacity keys.old }
    ensures sorted { IsSortedBy is_first keys.new.items }
    ensures permutation { IsPermutation (key ∷ keys.old.items) keys.new.items }
    ensures capacity { vec_capacity keys.old ≤ vec_capacity keys.new }
    ensures len { vec_len keys.new ≡ vec_len keys.old + 1 }
{
    let at = keys.partition_point(|other| *other < key);
    let Ok(()) = keys.insert(at, key) else {
        unreachable!()
    };
}

/// Puts the keys of these units, of which the first is at a place, among others, which stand in
/// output order.
pub(crate) fn put_in(keys: &mut Vec<OrderKey>, place: usize, units: &[Option<Shown>])
    requires sorted { IsSortedBy is_first keys.old.items }
    requires spare { vec_len keys.old + length units.now ≤ vec_capacity keys.old }
    requires fits { place + length units.now < 2 ^ 64 }
    ensures sorted { IsSortedBy is_first keys.new.items }
    ensures permutation { IsPermutation
        (order_keys_from place units.now ++ keys.old.items) keys.new.items }
    ensures capacity { vec_capacity keys.old ≤ vec_capacity keys.new }
{
    for (index, unit) in units.iter().enumerate() {
        let Some(shown) = unit else {
            continue;
        };
        insert(
            keys,
            OrderKey {
                order: shown.order,
                offset: place + index,
            },
        );
    }
}
