//! Output order: the place of each picture among those that are shown (C.4.5.3).
ghost use Rattle.std.specs.Prelude.{◌≡◌, IfOk};
ghost use Rattle.output_order.specs.OutputOrder.{keys, positions_of};

use std::alloc::{AllocError, Global};
use unit_outcomes::Outcome;

/// What a valid unit is shown by: keys are compared by their fields in turn.
#[derive(Clone, Copy, PartialEq, Eq, PartialOrd, Ord)]
pub struct Key {
    /// How many units up to this one have begun a period.
    pub period: usize,
    /// The picture order count.
    pub order: i32,
    /// How many units stand before this one, valid or not.
    pub place: usize,
}

/// The position of each unit in output order, by the unit's place in the stream; `None` where the
/// unit isn't valid.
///
/// Units are shown period after period; within a period by picture order count; and with equal
/// counts in decoding order. The position of a unit is the number of valid units that are shown
/// before it.
pub fn positions(alloc: Global, outcomes: &[Outcome]) -> Result<Vec<Option<usize>>, AllocError>
    ensures { IfOk result (λ found. found.items ≡ positions_of outcomes.now) }
{
    let mut keys = valid_keys(alloc, outcomes)?;
    keys.sort_unstable();
    let mut positions = vec![in alloc; None; outcomes.len()]?;
    for (position, key) in keys.iter().enumerate() {
        positions[key.place] = Some(position);
    }
    Ok(positions)
}

/// The keys of the valid units, in decoding order.
fn valid_keys(alloc: Global, outcomes: &[Outcome]) -> Result<Vec<Key>, AllocError>
    ensures { IfOk result (λ found. found.items ≡ keys outcomes.now) }
{
    let mut keys = Vec::new(alloc);
    let mut period = 0;
    for (place, outcome) in outcomes.iter().enumerate() {
        let Outcome::Plan(plan) = outcome else {
            continue;
        };
        period += usize::from(plan.begins_period);
        keys.push(Key {
            period,
            order: plan.order,
            place,
        })?;
    }
    Ok(keys)
}
