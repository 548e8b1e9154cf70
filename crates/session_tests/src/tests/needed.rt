//! Jobs that are taken for a unit, and pictures that are dropped, through a runner.

use super::jobs::{A1, Act, I1, all_hold, runs};
use super::{A, I, P1, P2, row_holds, runner_of};
use session_builders::EditRow;
use stand_in_session::{Dropping, Landing};
use std::test::Fail;

/// Three pictures, each of which needs those before it: taken for the last one, they come one after
/// the other. One that is dropped then is pending, but what was made of it is not.
const ONE_AFTER_THE_OTHER: &[Act] = &[
    Act::Edit(EditRow::First(A)),
    Act::Edit(EditRow::After(1, P1)),
    Act::Edit(EditRow::After(2, P2)),
    Act::TakeFor(3, 1, 1),
    Act::TakesNoneFor(3),
    Act::Land(1, Landing::Taken),
    Act::TakeFor(3, 2, 2),
    Act::Land(2, Landing::Taken),
    Act::TakeFor(3, 3, 3),
    Act::Land(3, Landing::Taken),
    Act::TakesNoneFor(3),
    Act::Ready(3),
    Act::Drop(2, Dropping::Dropped),
    Act::Pending(2),
    Act::Ready(3),
    Act::TakesNoneFor(3),
    Act::Take(4, 2),
];

/// The second of two periods is made, and nothing of the first.
const SECOND_PERIOD: &[Act] = &[
    Act::Edit(EditRow::First(A)),
    Act::Edit(EditRow::After(1, P1)),
    Act::Edit(EditRow::After(2, I1)),
    Act::Edit(EditRow::After(3, P1)),
    Act::SettleFor(4),
    Act::Ready(4),
    Act::Ready(3),
    Act::Pending(1),
    Act::Pending(2),
];

/// Nothing is taken for a unit that isn't there, that has a fault, or whose picture is held.
const NOTHING_NEEDED: &[Act] = &[
    Act::TakesNoneFor(9),
    Act::Edit(EditRow::First(A)),
    Act::Edit(EditRow::After(1, P2)),
    Act::Fault(2, 11),
    Act::TakesNoneFor(2),
    Act::TakeFor(1, 1, 1),
    Act::TakesNoneFor(1),
    Act::Land(1, Landing::Taken),
    Act::TakesNoneFor(1),
    Act::TakesNone,
];

/// A job is told with the unit that is needed, of which an earlier one has the key too.
const LATER_UNIT: &[Act] = &[
    Act::Edit(EditRow::First(A)),
    Act::Edit(EditRow::After(1, I)),
    Act::TakeFor(2, 1, 2),
    Act::TakesNone,
    Act::Land(1, Landing::Taken),
    Act::Ready(1),
    Act::Ready(2),
];

/// What was dropped below a unit is made anew with it, and given back jobs are given again.
const MADE_ANEW: &[Act] = &[
    Act::Edit(EditRow::First(A)),
    Act::Edit(EditRow::After(1, P1)),
    Act::Edit(EditRow::After(2, P2)),
    Act::Settle,
    Act::Drop(1, Dropping::Dropped),
    Act::Drop(3, Dropping::Dropped),
    Act::TakeFor(3, 4, 3),
    Act::Give(4),
    Act::Drop(2, Dropping::Dropped),
    Act::TakeFor(3, 5, 1),
    Act::Give(5),
    Act::SettleFor(3),
    Act::Ready(1),
    Act::Ready(2),
    Act::Ready(3),
];

/// A reference is dropped while a job that was made of it is out.
const DROPPED_MEANWHILE: &[Act] = &[
    Act::Edit(EditRow::First(A)),
    Act::Edit(EditRow::After(1, P1)),
    Act::Edit(EditRow::After(2, P2)),
    Act::TakeFor(3, 1, 1),
    Act::Land(1, Landing::Taken),
    Act::TakeFor(3, 2, 2),
    Act::Drop(1, Dropping::Dropped),
    Act::TakeFor(3, 3, 1),
    Act::Land(2, Landing::Taken),
    Act::TakeFor(3, 4, 3),
    Act::TakesNoneFor(3),
    Act::Land(4, Landing::Taken),
    Act::TakesNoneFor(3),
    Act::Pending(1),
    Act::Land(3, Landing::Taken),
    Act::Ready(1),
];

/// What is dropped, and what isn't held.
const DROPS: &[Act] = &[
    Act::Drop(9, Dropping::NoSuchUnit),
    Act::Edit(EditRow::First(A)),
    Act::Drop(1, Dropping::NotHeld),
    Act::Edit(EditRow::After(1, I)),
    Act::Settle,
    Act::Drop(1, Dropping::Dropped),
    Act::Drop(1, Dropping::NotHeld),
    Act::Pending(2),
    Act::Edit(EditRow::After(2, P2)),
    Act::Fault(3, 11),
    Act::Drop(3, Dropping::NotHeld),
];

/// A picture that is dropped isn't cached, and one that is cached isn't held again once the cache
/// was cleared.
const CACHED: &[Act] = &[
    Act::Edit(EditRow::First(A)),
    Act::Settle,
    Act::Drop(1, Dropping::Dropped),
    Act::Edit(EditRow::Replace(1, A1)),
    Act::Edit(EditRow::Replace(1, A)),
    Act::Pending(1),
    Act::Settle,
    Act::Edit(EditRow::Replace(1, A1)),
    Act::ClearCache,
    Act::Edit(EditRow::Replace(1, A)),
    Act::Pending(1),
];

/// What runners are told.
const ROWS: [&[Act]; 8] = [
    ONE_AFTER_THE_OTHER,
    SECOND_PERIOD,
    NOTHING_NEEDED,
    LATER_UNIT,
    MADE_ANEW,
    DROPPED_MEANWHILE,
    DROPS,
    CACHED,
];

#[test]
fn what_is_needed_comes_first(rt: HostRuntime) -> Result<(), Fail> {
    for (row, acts) in ROWS.iter().enumerate() {
        let runner = runner_of(&rt, 64);
        row_holds(&rt, row, all_hold(runner, acts)?);
    }
    Ok(())
}

#[test]
fn a_run_replies_about_needed_units(rt: HostRuntime) -> Result<(), Fail> {
    for (row, acts) in [ONE_AFTER_THE_OTHER, LATER_UNIT, DROPPED_MEANWHILE]
        .iter()
        .enumerate()
    {
        row_holds(&rt, row, runs(rt.alloc(), acts)?);
    }
    Ok(())
}
