//! Commands followed one after the other, and runs of many.

use super::{A, Answer, P1, Shown, Step, is_answer, row_holds, runner_of, shows};
use EditRow::{After, Delete, First};
use Shown::{At, Fault, Gone};
use Step::Unit;
use h264_types::pictures::AuId;
use session_builders::{EditRow, edit_of};
use stand_in_session::{Command, Config, NoSuchUnit, Reply, Runner, UnitReport, run};
use std::alloc::{AllocError, Global};
use std::test::Fail;
use unit_outcomes::{Outcome, ValidityFault};

/// What is reported of a unit is this.
fn is_report(report: &Result<UnitReport, NoSuchUnit>, shown: Shown) -> bool {
    match (report, shown) {
        (Err(NoSuchUnit), Gone) => true,
        (Ok(report), At(place)) => {
            matches!(report.outcome, Outcome::Plan(_)) && report.position == Some(place)
        }
        (Ok(report), Fault(wanted)) => match report.outcome {
            Outcome::Fault(fault) => fault == wanted && report.position.is_none(),
            Outcome::Plan(_) | Outcome::Empty => false,
        },
        _ => false,
    }
}

/// The reply is that to the step.
fn is_reply(reply: &Reply, step: &Step) -> bool {
    match (reply, step) {
        (Reply::Edit(answer), Step::Edit(_, wanted)) => is_answer(*answer, *wanted),
        (Reply::Unit(report), Unit(_, shown)) => is_report(report, *shown),
        _ => false,
    }
}

/// The command of a step.
fn command_of(step: &Step) -> Command {
    match step {
        Step::Edit(told, _) => Command::Edit(edit_of(*told)),
        Unit(id, _) => Command::Unit(AuId::new(*id)),
    }
}

/// The runner replies so to the step.
fn replies(runner: &mut Runner, step: &Step) -> Result<bool, AllocError> {
    let reply = runner.step(command_of(step))?;
    Ok(is_reply(&reply, step))
}

/// A unit loses its parameter sets, which go with the first one.
const STEPS: [Step; 8] = [
    Step::Edit(Delete(1), Err(16)),
    Unit(1, Gone),
    Step::Edit(First(A), Ok((1, 1, 1))),
    Step::Edit(After(1, P1), Ok((2, 2, 1))),
    Unit(2, At(1)),
    Step::Edit(Delete(1), Ok((3, 1, 1))),
    Unit(2, Fault(ValidityFault::MissingPps)),
    Unit(1, Gone),
];

#[test]
fn steps_answer_for_the_stream_as_it_is(rt: HostRuntime) -> Result<(), Fail> {
    let mut runner = runner_of(&rt, 64);
    for (row, step) in STEPS.iter().enumerate() {
        row_holds(&rt, row, replies(&mut runner, step)?);
    }
    assert!(rt; shows(runner.session(), 2, Fault(ValidityFault::MissingPps)));
    assert!(rt; runner.session().last().units == 1);
    Ok(())
}

/// The commands of the steps.
fn commands_of(alloc: Global, steps: &[Step]) -> Result<Vec<Command>, AllocError> {
    let mut commands = Vec::new(alloc);
    for step in steps {
        commands.push(command_of(step))?;
    }
    Ok(commands)
}

#[test]
fn a_run_replies_as_the_steps_do(rt: HostRuntime) -> Result<(), Fail> {
    let commands = commands_of(rt.alloc(), &STEPS)?;
    let replies = run(rt.alloc(), Config { cache: 4096 }, &commands)?;
    assert!(rt; replies.len() == STEPS.len());
    for (row, (reply, step)) in replies.iter().zip(&STEPS).enumerate() {
        row_holds(&rt, row, is_reply(reply, step));
    }
    Ok(())
}

/// So many commands: an insertion, a unit, its deletion, the unit again, and so on.
fn many_commands(alloc: Global, count: u32) -> Result<Vec<Command>, AllocError> {
    let mut commands = Vec::new(alloc);
    for place in 0..count {
        let id = place / 4 + 1;
        commands.push(match place % 4 {
            0 => Command::Edit(edit_of(First(A))),
            2 => Command::Edit(edit_of(Delete(id))),
            _ => Command::Unit(AuId::new(id)),
        })?;
    }
    Ok(commands)
}

/// What such a command is answered: of `round`, which is from 0.
fn is_reply_at(reply: &Reply, place: u32) -> bool {
    let (round, id) = (u64::from(place / 4), place / 4 + 1);
    let (inserted, deleted): (Answer, Answer) = (
        Ok((2 * round + 1, id, 1)),
        Ok((2 * round + 2, id, 0)),
    );
    match (reply, place % 4) {
        (Reply::Edit(answer), 0) => is_answer(*answer, inserted),
        (Reply::Unit(report), 1) => is_report(report, At(0)),
        (Reply::Edit(answer), 2) => is_answer(*answer, deleted),
        (Reply::Unit(report), 3) => is_report(report, Gone),
        _ => false,
    }
}

/// The replies are those to so many commands.
fn are_replies(replies: &[Reply], count: u32) -> bool {
    let mut place = 0u32;
    for reply in replies {
        if !is_reply_at(reply, place) {
            return false;
        }
        place = place.saturating_add(1);
    }
    place == count
}

/// A run of so many commands replies to each.
fn runs(alloc: Global, count: u32) -> Result<bool, AllocError> {
    let commands = many_commands(alloc, count)?;
    let replies = run(alloc, Config { cache: 1 }, &commands)?;
    Ok(are_replies(&replies, count))
}

/// How many commands are run; none is the least.
const COUNTS: [u32; 5] = [0, 1, 15, 1_024, 1_025];

#[test]
fn runs_as_many_commands_as_there_are(rt: HostRuntime) -> Result<(), Fail> {
    for (row, count) in COUNTS.iter().enumerate() {
        row_holds(&rt, row, runs(rt.alloc(), *count)?);
    }
    Ok(())
}
