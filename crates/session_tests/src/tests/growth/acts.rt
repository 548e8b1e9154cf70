//! Commands of a runner. Where memory runs out nothing is changed, and the command is followed
//! again.

use super::seen::seen;
use super::streams::{
    A, B, IDR, OTHER_SPS, P, P1, P2, PICTURE_OF_A, PICTURE_OF_B, PICTURE_OF_IDR, PICTURE_OF_P,
    PICTURE_OF_P1, PICTURE_OF_P2, PICTURE_OF_SLICES, Planned, SLICES, SPS, TIED_B, planned,
};
use super::{empty_runner, row_holds};
use EditRow::{After, Delete, First, Replace};
use h264_types::pictures::AuId;
use session_builders::{EditRow, edit_of};
use stand_in_session::{
    Command, EditRefused, Landing, NotOut, Picture, Receipt, Reply, Returning, Runner, Shown,
    UnitReport,
};
use std::alloc::{AllocError, AllocGlobal};
use std::process::Abort;
use stream_session::Shown::{NoSuchUnit, Pending, Ready};
use unit_outcomes::{Outcome, ValidityFault};

/// A command, and what it has to be answered.
#[derive(Clone, Copy)]
pub(super) enum Act {
    /// An edit, accepted as the one of this number, with this id.
    Edit(EditRow, u64, u32),
    /// A unit's position, and what is planned for it.
    Unit(u32, usize, Planned),
    Fault(u32, ValidityFault),
    /// A unit without a picture.
    Empty(u32),
    /// The job of this number, for this unit.
    Take(u64, u32),
    TakesNone,
    Lands(u64),
    LandsNone(u64),
    Gives(u64),
    GivesNone(u64),
    Show(u32, Shown),
    /// Ready with this picture, which was put into the cache; pending where that ran out of memory.
    Cached(u32, Picture),
}

/// Commands, and what is shown of units at last, when no picture is due any more.
#[derive(Clone, Copy)]
pub(super) struct Script {
    pub(super) acts: &'static [Act],
    at_last: &'static [(u32, Shown)],
}

/// A unit is deleted and repaired. Edits are made while jobs are out.
const REPAIR: Script = Script {
    acts: &[
        Act::TakesNone,
        Act::Edit(First(A), 1, 1),
        Act::Take(1, 1),
        Act::Edit(After(1, P1), 2, 2),
        Act::Edit(After(2, P2), 3, 3),
        Act::TakesNone,
        Act::Lands(1),
        Act::Take(2, 2),
        Act::Lands(2),
        Act::LandsNone(2),
        Act::Take(3, 3),
        Act::Lands(3),
        Act::Show(3, Ready(PICTURE_OF_P2)),
        Act::Edit(Delete(2), 4, 2),
        Act::Fault(3, ValidityFault::FrameNumGap),
        Act::Show(2, NoSuchUnit),
        Act::Edit(After(1, P1), 5, 4),
        Act::Unit(3, 2, (4, 4, 1)),
        Act::Unit(4, 1, (2, 2, 1)),
        Act::Show(1, Ready(PICTURE_OF_A)),
        Act::Cached(3, PICTURE_OF_P2),
        Act::Cached(4, PICTURE_OF_P1),
    ],
    at_last: &[
        (1, Ready(PICTURE_OF_A)),
        (3, Ready(PICTURE_OF_P2)),
        (4, Ready(PICTURE_OF_P1)),
    ],
};

/// A picture refers to two others, its job is given back once, and it becomes one that can't be
/// decoded.
const B_PICTURES: Script = Script {
    acts: &[
        Act::Edit(First(IDR), 1, 1),
        Act::Edit(After(1, P), 2, 2),
        Act::Edit(After(2, B), 3, 3),
        Act::Unit(1, 0, (0, 0, 1)),
        Act::Unit(2, 2, (4, 4, 1)),
        Act::Unit(3, 1, (2, 2, 1)),
        Act::Take(1, 1),
        Act::Lands(1),
        Act::Take(2, 2),
        Act::Lands(2),
        Act::Take(3, 3),
        Act::Gives(3),
        Act::Show(3, Pending),
        Act::Take(4, 3),
        Act::GivesNone(3),
        Act::LandsNone(3),
        Act::Lands(4),
        Act::Show(3, Ready(PICTURE_OF_B)),
        Act::Edit(Replace(3, TIED_B), 4, 3),
        Act::Fault(3, ValidityFault::OrderTie),
        Act::Unit(2, 1, (4, 4, 1)),
    ],
    at_last: &[
        (1, Ready(PICTURE_OF_IDR)),
        (2, Ready(PICTURE_OF_P)),
        (3, Shown::Fault(ValidityFault::OrderTie)),
    ],
};

/// A picture of two slices.
const TWO_SLICES: Script = Script {
    acts: &[
        Act::Edit(First(SLICES), 1, 1),
        Act::Unit(1, 0, (0, 0, 2)),
        Act::Take(1, 1),
        Act::Lands(1),
        Act::Show(1, Ready(PICTURE_OF_SLICES)),
    ],
    at_last: &[(1, Ready(PICTURE_OF_SLICES))],
};

/// A unit without a slice sends another set, then the first one's once more; and a picture becomes
/// such a unit.
const WITHOUT_A_SLICE: Script = Script {
    acts: &[
        Act::Edit(First(A), 1, 1),
        Act::Edit(After(1, OTHER_SPS), 2, 2),
        Act::Empty(2),
        Act::Edit(After(2, P1), 3, 3),
        Act::Fault(3, ValidityFault::SpsChange),
        Act::Edit(Replace(2, SPS), 4, 2),
        Act::Unit(3, 1, (2, 2, 1)),
        Act::Take(1, 1),
        Act::Lands(1),
        Act::Take(2, 3),
        Act::Lands(2),
        Act::Show(2, Shown::Empty),
        Act::Show(3, Ready(PICTURE_OF_P1)),
        Act::Edit(Replace(3, SPS), 5, 3),
        Act::Empty(3),
        Act::TakesNone,
    ],
    at_last: &[
        (1, Ready(PICTURE_OF_A)),
        (2, Shown::Empty),
        (3, Shown::Empty),
    ],
};

pub(super) const SCRIPTS: [Script; 4] = [REPAIR, B_PICTURES, TWO_SLICES, WITHOUT_A_SLICE];

/// The command of an act.
pub(super) fn command_of(act: Act) -> Command {
    match act {
        Act::Edit(told, _, _) => Command::Edit(edit_of(told)),
        Act::Unit(id, _, _) | Act::Fault(id, _) | Act::Empty(id) => Command::Unit(AuId::new(id)),
        Act::Take(..) | Act::TakesNone => Command::Take,
        Act::Lands(number) | Act::LandsNone(number) => Command::Land(number),
        Act::Gives(number) | Act::GivesNone(number) => Command::GiveBack(number),
        Act::Show(id, _) | Act::Cached(id, _) => Command::Show(AuId::new(id)),
    }
}

/// The edit was accepted as the one of this number, with this id.
fn is_receipt(answer: &Result<Receipt, EditRefused>, number: u64, id: u32) -> bool {
    match answer {
        Ok(receipt) => (receipt.number, receipt.id.number()) == (number, id),
        Err(_) => false,
    }
}

/// The unit has this position and this plan.
fn is_report(report: &UnitReport, position: usize, plan: Planned) -> bool {
    report.position == Some(position) && planned(&report.outcome) == Some(plan)
}

/// The unit has this fault, and no position.
fn is_fault(report: &UnitReport, wanted: ValidityFault) -> bool {
    match report.outcome {
        Outcome::Fault(fault) => fault == wanted && report.position.is_none(),
        Outcome::Plan(_) | Outcome::Empty => false,
    }
}

/// The unit has no picture, and no position.
fn is_empty(report: &UnitReport) -> bool {
    match report.outcome {
        Outcome::Empty => report.position.is_none(),
        Outcome::Plan(_) | Outcome::Fault(_) => false,
    }
}

/// The reply is the one that the act has to have.
pub(super) fn is_reply(reply: &Reply, act: Act) -> bool {
    match (reply, act) {
        (Reply::Edit(answer), Act::Edit(_, number, id)) => is_receipt(answer, number, id),
        (Reply::Unit(Ok(report)), Act::Unit(_, position, plan)) => {
            is_report(report, position, plan)
        }
        (Reply::Unit(Ok(report)), Act::Fault(_, fault)) => is_fault(report, fault),
        (Reply::Unit(Ok(report)), Act::Empty(_)) => is_empty(report),
        (Reply::Take(Ok(Some(taken))), Act::Take(number, unit)) => {
            (taken.number, taken.unit.number()) == (number, unit)
        }
        (Reply::Take(Ok(None)), Act::TakesNone) => true,
        (Reply::Land(Ok(landing)), Act::Lands(_)) => *landing == Landing::Taken,
        (Reply::Land(Err(NotOut)), Act::LandsNone(_)) => true,
        (Reply::GiveBack(Ok(returning)), Act::Gives(_)) => *returning == Returning::Returned,
        (Reply::GiveBack(Err(NotOut)), Act::GivesNone(_)) => true,
        (Reply::Show(shown), Act::Show(_, wanted)) => *shown == wanted,
        (Reply::Show(shown), Act::Cached(_, picture)) => {
            *shown == Ready(picture) || *shown == Pending
        }
        _ => false,
    }
}

/// Follows the command, once more where memory runs out.
fn step(
    rt: &(impl Abort + AllocGlobal),
    runner: &mut Runner,
    command: Command,
) -> Result<Reply, AllocError> {
    let copy = command.copy(rt.alloc())?;
    let before = seen(runner.session());
    match runner.step(command) {
        Err(_) | Ok(Reply::Edit(Err(EditRefused::Memory))) => {
            assert!(rt; seen(runner.session()) == before);
            runner.step(copy)
        }
        reply => reply,
    }
}

/// The runner answers all acts so.
fn answers(
    rt: &(impl Abort + AllocGlobal),
    runner: &mut Runner,
    acts: &[Act],
) -> Result<bool, AllocError> {
    for act in acts {
        if !is_reply(&step(rt, runner, command_of(*act))?, *act) {
            return Ok(false);
        }
    }
    Ok(true)
}

/// The number of the job of a reply, if it has one.
fn number_taken(reply: &Reply) -> Option<u64> {
    match reply {
        Reply::Take(Ok(Some(taken))) => Some(taken.number),
        _ => None,
    }
}

/// Takes and lands jobs until none is due, at most ten; whether that came to its end.
fn settles(rt: &(impl Abort + AllocGlobal), runner: &mut Runner) -> Result<bool, AllocError> {
    for _ in 0..10 {
        let Some(number) = number_taken(&step(rt, runner, Command::Take)?) else {
            return Ok(true);
        };
        step(rt, runner, Command::Land(number))?;
    }
    Ok(false)
}

/// This is shown of the units.
fn shows(runner: &Runner, units: &[(u32, Shown)]) -> bool {
    for (id, shown) in units {
        if runner.session().show(AuId::new(*id)) != *shown {
            return false;
        }
    }
    true
}

/// The runner answers the script, and shows its pictures at last.
fn follows(
    rt: &(impl Abort + AllocGlobal),
    runner: &mut Runner,
    script: &Script,
) -> Result<bool, AllocError> {
    Ok(answers(rt, runner, script.acts)? && settles(rt, runner)? && shows(runner, script.at_last))
}

#[test]
fn refused_growth_of_commands(rt: HostRuntime) {
    for (row, script) in SCRIPTS.iter().enumerate() {
        let mut runner = empty_runner(&rt);
        let followed = follows(&rt, &mut runner, script);
        row_holds(&rt, row, followed == Ok(true));
    }
}
