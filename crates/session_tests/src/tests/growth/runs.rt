//! Runs of commands. An edit that runs out of memory is answered so, and is as if it weren't among
//! the commands; any other lack of memory ends the run, and the run is made again.

use super::acts::{Act, SCRIPTS, command_of, is_reply};
use super::row_holds;
use stand_in_session::{Command, Config, EditRefused, Reply, run};
use std::alloc::{AllocError, Global};
use std::test::Fail;

/// The commands of the acts, but for the one at this place.
fn commands_but(
    alloc: Global,
    acts: &[Act],
    left: Option<usize>,
) -> Result<Vec<Command>, AllocError> {
    let mut commands = Vec::new(alloc);
    for (place, act) in acts.iter().enumerate() {
        if left != Some(place) {
            commands.push(command_of(*act))?;
        }
    }
    Ok(commands)
}

/// The replies to the commands in a run of their own.
fn replies_to(alloc: Global, commands: &[Command]) -> Result<Vec<Reply>, AllocError> {
    run(alloc, Config { cache: 64 }, commands)
}

/// The replies are those that the acts have to have.
fn are_replies(replies: &[Reply], acts: &[Act]) -> bool {
    for (reply, act) in replies.iter().zip(acts) {
        if !is_reply(reply, *act) {
            return false;
        }
    }
    replies.len() == acts.len()
}

/// An edit ran out of memory.
fn is_memory(reply: &Reply) -> bool {
    matches!(reply, Reply::Edit(Err(EditRefused::Memory)))
}

/// Which of the replies says that memory ran out.
fn place_of_memory(replies: &[Reply]) -> Option<usize> {
    for (place, reply) in replies.iter().enumerate() {
        if is_memory(reply) {
            return Some(place);
        }
    }
    None
}

/// Both replies are written alike.
fn is_same(alloc: Global, reply: &Reply, other: &Reply) -> Result<bool, Fail> {
    let reply = format!(in alloc; "{reply:?}")?;
    let other = format!(in alloc; "{other:?}")?;
    Ok(reply.as_str() == other.as_str())
}

/// The replies, but for the one at this place, are the others.
fn are_others(
    alloc: Global,
    replies: &[Reply],
    left: usize,
    others: &[Reply],
) -> Result<bool, Fail> {
    let mut others_left = others.iter();
    for (place, reply) in replies.iter().enumerate() {
        if place == left {
            continue;
        }
        let Some(other) = others_left.next() else {
            return Ok(false);
        };
        if !is_same(alloc, reply, other)? {
            return Ok(false);
        }
    }
    Ok(others_left.next().is_none())
}

/// The replies are those to the acts; where one says that memory ran out, the others are those of a
/// run without its command.
fn answer(alloc: Global, acts: &[Act], replies: &[Reply]) -> Result<bool, Fail> {
    let Some(left) = place_of_memory(replies) else {
        return Ok(are_replies(replies, acts));
    };
    let commands = commands_but(alloc, acts, Some(left))?;
    let others = replies_to(alloc, &commands)?;
    are_others(alloc, replies, left, &others)
}

/// A run of the acts' commands, once more where it ends for lack of memory, replies so.
fn runs(alloc: Global, acts: &[Act], commands: &[Command]) -> Result<bool, Fail> {
    let replies = match replies_to(alloc, commands) {
        Ok(replies) => replies,
        Err(AllocError) => replies_to(alloc, commands)?,
    };
    answer(alloc, acts, &replies)
}

#[test]
fn refused_growth_of_runs(rt: HostRuntime) -> Result<(), Fail> {
    for (row, script) in SCRIPTS.iter().enumerate() {
        // There may be no memory for the commands.
        if let Ok(commands) = commands_but(rt.alloc(), script.acts, None) {
            row_holds(&rt, row, runs(rt.alloc(), script.acts, &commands)?);
        }
    }
    Ok(())
}
