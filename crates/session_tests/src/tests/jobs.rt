//! Jobs, results and pictures, through a runner.

use super::{A, I, P1, P2, row_holds, runner_of};
use h264_types::pictures::AuId;
use session_builders::{EditRow, edit_of};
use stand_in_session::{
    Command, Config, Dropping, Landing, NotOut, Picture, Reply, Returning, Runner, Shown, run,
};
use std::alloc::{AllocError, Global};
use std::test::Fail;

/// P1 with one byte more of slice data.
const P1X: &[u8] = &[0, 0, 1, 0x41, 0x9A, 0x23, 0x80];

/// The sequence parameter set of A alone.
const SPS: &[u8] = &[0, 0, 1, 0x67, 0x42, 0x00, 0x0A, 0xDA, 0x79];

/// A P picture with frame_num 2 that is no reference, and the same with other slice data.
const NON_REFERENCE: &[u8] = &[0, 0, 1, 0x01, 0x9A, 0x47];

const OTHER_NON_REFERENCE: &[u8] = &[0, 0, 1, 0x01, 0x9A, 0x46];

/// The IDR picture alone, with other slice data.
pub(super) const I1: &[u8] = &[0, 0, 1, 0x65, 0x88, 0x84, 0x81];

/// A with other slice data, twice.
pub(super) const A1: &[u8] = &[
    0, 0, 1, 0x67, 0x42, 0x00, 0x0A, 0xDA, 0x79, 0, 0, 1, 0x68, 0xCE, 0x38, 0x80, 0, 0, 1, 0x65,
    0x88, 0x84, 0x81,
];

const A2: &[u8] = &[
    0, 0, 1, 0x67, 0x42, 0x00, 0x0A, 0xDA, 0x79, 0, 0, 1, 0x68, 0xCE, 0x38, 0x80, 0, 0, 1, 0x65,
    0x88, 0x84, 0x82,
];

/// The picture of A alone: the SHA-256 of 2,055 bytes put together by hand, by Python's hashlib.
const PICTURE_OF_A: [u8; 32] = [
    0x0A, 0xC6, 0xF5, 0xC6, 0xBC, 0x06, 0x4C, 0x43, 0x63, 0x09, 0xC1, 0x8B, 0x3D, 0x1B, 0x60, 0x5A,
    0xD6, 0x0F, 0x7D, 0xE3, 0x72, 0x40, 0x81, 0xB8, 0x4F, 0xF0, 0x1A, 0xAC, 0x2C, 0x39, 0x54, 0xCF,
];

/// What a runner is told, and what it has to answer.
#[derive(Clone, Copy)]
pub(super) enum Act {
    /// An edit that is accepted.
    Edit(EditRow),
    /// The job of this number, with this unit.
    Take(u64, u32),
    TakesNone,
    /// For the unit of this id the job of this number, with this unit.
    TakeFor(u32, u64, u32),
    TakesNoneFor(u32),
    Land(u64, Landing),
    LandsNone(u64),
    Give(u64),
    GivesNone(u64),
    Ready(u32),
    Pending(u32),
    Fault(u32, u8),
    Empty(u32),
    Gone(u32),
    Drop(u32, Dropping),
    ClearCache,
    /// Jobs are taken and landed until none is due.
    Settle,
    /// Jobs are taken for the unit of this id and landed until none is due.
    SettleFor(u32),
}

/// A unit in the middle is deleted, and inserted again: what comes after it has its picture again.
const DELETE_AND_REPAIR: &[Act] = &[
    Act::Edit(EditRow::First(A)),
    Act::Edit(EditRow::After(1, P1)),
    Act::Edit(EditRow::After(2, P2)),
    Act::Settle,
    Act::Ready(1),
    Act::Ready(2),
    Act::Ready(3),
    Act::Edit(EditRow::Delete(2)),
    Act::Gone(2),
    Act::Fault(3, 11),
    Act::Edit(EditRow::After(1, P1)),
    Act::Ready(3),
    Act::Ready(4),
];

/// A unit with other slice data, and what refers to it.
const REPLACE: &[Act] = &[
    Act::Edit(EditRow::First(A)),
    Act::Edit(EditRow::After(1, P1)),
    Act::Edit(EditRow::After(2, P2)),
    Act::Settle,
    Act::Edit(EditRow::Replace(2, P1X)),
    Act::Ready(1),
    Act::Pending(2),
    Act::Pending(3),
    Act::Settle,
    Act::Ready(3),
];

/// A picture that nothing refers to changes alone.
const NON_REFERENCES: &[Act] = &[
    Act::Edit(EditRow::First(A)),
    Act::Edit(EditRow::After(1, P1)),
    Act::Edit(EditRow::After(2, NON_REFERENCE)),
    Act::Edit(EditRow::After(3, P2)),
    Act::Settle,
    Act::Edit(EditRow::Replace(3, OTHER_NON_REFERENCE)),
    Act::Ready(1),
    Act::Ready(2),
    Act::Pending(3),
    Act::Ready(4),
];

/// Results that come late, for what is no longer there and for what is there again.
const STALE_AND_LATE: &[Act] = &[
    Act::Edit(EditRow::First(A)),
    Act::Edit(EditRow::After(1, P1)),
    Act::Take(1, 1),
    Act::TakesNone,
    Act::Land(1, Landing::Taken),
    Act::Take(2, 2),
    Act::Edit(EditRow::Replace(2, P1X)),
    Act::Land(2, Landing::Stale),
    Act::Pending(2),
    Act::Take(3, 2),
    Act::Edit(EditRow::Replace(2, P1)),
    Act::Edit(EditRow::Replace(2, P1X)),
    Act::Land(3, Landing::Taken),
    Act::Ready(2),
    Act::LandsNone(3),
];

/// Two units with one picture.
const EQUAL_UNITS: &[Act] = &[
    Act::Edit(EditRow::First(A)),
    Act::Edit(EditRow::After(1, I)),
    Act::Take(1, 1),
    Act::TakesNone,
    Act::Pending(1),
    Act::Pending(2),
    Act::Land(1, Landing::Taken),
    Act::Ready(1),
    Act::Ready(2),
    Act::TakesNone,
];

/// A picture of two units stays where one of them goes, and a third one has it at once.
const SHARED_PICTURE: &[Act] = &[
    Act::Edit(EditRow::First(A)),
    Act::Edit(EditRow::After(1, I)),
    Act::Edit(EditRow::After(2, I)),
    Act::Settle,
    Act::Edit(EditRow::Delete(2)),
    Act::Ready(3),
    Act::Edit(EditRow::After(1, I)),
    Act::Ready(4),
    Act::TakesNone,
];

/// A result lands where its picture is wanted, and not at the unit that it was taken for.
const ANOTHER_UNIT: &[Act] = &[
    Act::Edit(EditRow::First(A)),
    Act::Edit(EditRow::After(1, I)),
    Act::Take(1, 1),
    Act::Edit(EditRow::Replace(1, A1)),
    Act::Land(1, Landing::Taken),
    Act::Pending(1),
    Act::Ready(2),
    Act::Take(2, 1),
];

/// Two jobs are out, and the later one lands first.
const OUT_OF_ORDER: &[Act] = &[
    Act::Edit(EditRow::First(A)),
    Act::Edit(EditRow::After(1, I1)),
    Act::Take(1, 1),
    Act::Take(2, 2),
    Act::TakesNone,
    Act::Land(2, Landing::Taken),
    Act::Pending(1),
    Act::Ready(2),
    Act::Land(1, Landing::Taken),
    Act::Ready(1),
];

/// Two jobs are out at the end.
const LEFT_OUT: &[Act] = &[
    Act::Edit(EditRow::First(A)),
    Act::Edit(EditRow::After(1, I1)),
    Act::Take(1, 1),
    Act::Take(2, 2),
];

/// A job that is given back is given again, under another number.
const GIVEN_BACK: &[Act] = &[
    Act::TakesNone,
    Act::Gone(1),
    Act::Edit(EditRow::First(A)),
    Act::Take(1, 1),
    Act::Give(1),
    Act::Take(2, 1),
    Act::GivesNone(1),
    Act::LandsNone(1),
    Act::Land(2, Landing::Taken),
    Act::Ready(1),
];

/// With room for one picture in the cache, the one that went last is still there.
const CACHE_OF_ONE: &[Act] = &[
    Act::Edit(EditRow::First(A)),
    Act::Settle,
    Act::Edit(EditRow::Replace(1, A1)),
    Act::Settle,
    Act::Edit(EditRow::Replace(1, A2)),
    Act::Settle,
    Act::Edit(EditRow::Replace(1, A)),
    Act::Pending(1),
    Act::Edit(EditRow::Replace(1, A1)),
    Act::Pending(1),
    Act::Edit(EditRow::Replace(1, A2)),
    Act::Ready(1),
];

/// A unit without a slice has no job, and a result for the picture that it was comes too late.
const WITHOUT_A_SLICE: &[Act] = &[
    Act::Edit(EditRow::First(A)),
    Act::Edit(EditRow::After(1, SPS)),
    Act::Empty(2),
    Act::Take(1, 1),
    Act::TakesNone,
    Act::Land(1, Landing::Taken),
    Act::Edit(EditRow::Replace(2, P1)),
    Act::Pending(2),
    Act::Take(2, 2),
    Act::Edit(EditRow::Replace(2, SPS)),
    Act::Empty(2),
    Act::Land(2, Landing::Stale),
    Act::TakesNone,
    Act::Ready(1),
    Act::Empty(2),
];

/// What runners are told, and for how many pictures their caches have room.
const ROWS: [(u16, &[Act]); 12] = [
    (64, DELETE_AND_REPAIR),
    (64, REPLACE),
    (64, NON_REFERENCES),
    (64, STALE_AND_LATE),
    (64, EQUAL_UNITS),
    (64, SHARED_PICTURE),
    (64, ANOTHER_UNIT),
    (64, OUT_OF_ORDER),
    (64, LEFT_OUT),
    (64, GIVEN_BACK),
    (64, WITHOUT_A_SLICE),
    (1, CACHE_OF_ONE),
];

/// The command of an act that is one command.
fn command_of(act: Act) -> Command {
    match act {
        Act::Edit(told) => Command::Edit(edit_of(told)),
        Act::Take(..) | Act::TakesNone | Act::Settle => Command::Take,
        Act::TakeFor(id, _, _) | Act::TakesNoneFor(id) | Act::SettleFor(id) => {
            Command::TakeFor(AuId::new(id))
        }
        Act::Land(number, _) | Act::LandsNone(number) => Command::Land(number),
        Act::Give(number) | Act::GivesNone(number) => Command::GiveBack(number),
        Act::Ready(id) | Act::Pending(id) | Act::Fault(id, _) => Command::Show(AuId::new(id)),
        Act::Empty(id) | Act::Gone(id) => Command::Show(AuId::new(id)),
        Act::Drop(id, _) => Command::Drop(AuId::new(id)),
        Act::ClearCache => Command::ClearCache,
    }
}

/// The reply is the one that the act has to have.
fn is_reply(reply: &Reply, act: Act) -> bool {
    match (reply, act) {
        (Reply::Edit(answer), Act::Edit(_)) => answer.is_ok(),
        (Reply::Take(Ok(Some(taken))), Act::Take(number, unit)) => {
            taken.number == number && taken.unit.number() == unit
        }
        (Reply::Take(Ok(taken)), Act::TakesNone) => taken.is_none(),
        (Reply::TakeFor(Ok(Some(taken))), Act::TakeFor(_, number, unit)) => {
            taken.number == number && taken.unit.number() == unit
        }
        (Reply::TakeFor(Ok(taken)), Act::TakesNoneFor(_)) => taken.is_none(),
        (Reply::Dropped(dropping), Act::Drop(_, wanted)) => *dropping == wanted,
        (Reply::Cleared, Act::ClearCache) => true,
        (Reply::Land(Ok(landing)), Act::Land(_, wanted)) => *landing == wanted,
        (Reply::Land(Err(NotOut)), Act::LandsNone(_)) => true,
        (Reply::GiveBack(Ok(returning)), Act::Give(_)) => *returning == Returning::Returned,
        (Reply::GiveBack(Err(NotOut)), Act::GivesNone(_)) => true,
        (Reply::Show(shown), act) => is_shown(*shown, act),
        _ => false,
    }
}

/// What is shown is what the act has to have.
fn is_shown(shown: Shown, act: Act) -> bool {
    match (shown, act) {
        (Shown::Ready(_), Act::Ready(_)) => true,
        (Shown::Pending, Act::Pending(_)) => true,
        (Shown::Fault(fault), Act::Fault(_, number)) => fault.number() == number,
        (Shown::Empty, Act::Empty(_)) => true,
        (Shown::NoSuchUnit, Act::Gone(_)) => true,
        _ => false,
    }
}

/// Takes jobs by an act's command and lands them until none is due, at most a hundred; whether that
/// came to its end.
fn settle(runner: &mut Runner, act: Act) -> Result<bool, AllocError> {
    for _ in 0..100 {
        let Some(number) = number_taken(&runner.step(command_of(act))?) else {
            return Ok(true);
        };
        runner.step(Command::Land(number))?;
    }
    Ok(false)
}

/// The number of the job of a reply, if it has one.
fn number_taken(reply: &Reply) -> Option<u64> {
    match reply {
        Reply::Take(Ok(Some(taken))) | Reply::TakeFor(Ok(Some(taken))) => Some(taken.number),
        _ => None,
    }
}

/// The runner answers the act so.
pub(super) fn holds(runner: &mut Runner, act: Act) -> Result<bool, AllocError> {
    match act {
        Act::Settle | Act::SettleFor(_) => settle(runner, act),
        _ => Ok(is_reply(&runner.step(command_of(act))?, act)),
    }
}

/// The runner answers all acts so.
pub(super) fn all_hold(mut runner: Runner, acts: &[Act]) -> Result<bool, AllocError> {
    for act in acts {
        if !holds(&mut runner, *act)? {
            return Ok(false);
        }
    }
    Ok(true)
}

#[test]
fn jobs_and_pictures(rt: HostRuntime) -> Result<(), Fail> {
    for (row, (capacity, acts)) in ROWS.iter().enumerate() {
        let runner = runner_of(&rt, *capacity);
        row_holds(&rt, row, all_hold(runner, acts)?);
    }
    Ok(())
}

/// What a run of commands is told, an act a command.
const RUNS: [&[Act]; 7] = [
    STALE_AND_LATE,
    EQUAL_UNITS,
    ANOTHER_UNIT,
    OUT_OF_ORDER,
    LEFT_OUT,
    GIVEN_BACK,
    WITHOUT_A_SLICE,
];

/// The commands of the acts.
fn commands_of(alloc: Global, acts: &[Act]) -> Result<Vec<Command>, AllocError> {
    let mut commands = Vec::new(alloc);
    for act in acts {
        commands.push(command_of(*act))?;
    }
    Ok(commands)
}

/// The replies are those that the acts have to have.
fn are_replies(replies: &[Reply], acts: &[Act]) -> bool {
    for (reply, act) in replies.iter().zip(acts) {
        if !is_reply(reply, *act) {
            return false;
        }
    }
    replies.len() == acts.len()
}

/// A run of the acts' commands replies so to each, whatever is out at the end.
pub(super) fn runs(alloc: Global, acts: &[Act]) -> Result<bool, AllocError> {
    let commands = commands_of(alloc, acts)?;
    let replies = run(alloc, Config { cache: 64 }, &commands)?;
    Ok(are_replies(&replies, acts))
}

#[test]
fn a_run_replies_about_jobs(rt: HostRuntime) -> Result<(), Fail> {
    for (row, acts) in RUNS.iter().enumerate() {
        row_holds(&rt, row, runs(rt.alloc(), acts)?);
    }
    Ok(())
}

/// Whether the picture of A, decoded, is this one.
fn shows_a(mut runner: Runner, picture: Picture) -> Result<bool, AllocError> {
    runner.step(Command::Edit(edit_of(EditRow::First(A))))?;
    settle(&mut runner, Act::Settle)?;
    match runner.step(Command::Show(AuId::new(1)))? {
        Reply::Show(shown) => Ok(shown == Shown::Ready(picture)),
        _ => Ok(false),
    }
}

#[test]
fn shows_the_picture_of_an_idr_picture(rt: HostRuntime) -> Result<(), Fail> {
    let runner = runner_of(&rt, 64);
    let picture = Picture {
        digest: PICTURE_OF_A,
    };
    assert!(rt; shows_a(runner, picture)?);
    Ok(())
}
