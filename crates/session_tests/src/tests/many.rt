//! Many units that refer to two before them, and many edits while a job is out.

use super::jobs::{Act, holds};
use super::{A, runner_of};
use bytes::Bytes;
use h264_types::pictures::AuId;
use session_builders::EditRow;
use stand_in_session::{Command, Edit, Landing, Reply, Runner};
use std::alloc::{AllocError, Global};
use std::test::Fail;

/// Sets and an IDR picture, of one macroblock, count type 0 and two reference frames.
const FIRST: &[u8] = &[
    0, 0, 1, 0x67, 0x4D, 0x00, 0x0A, 0xF6, 0xF2, 0, 0, 1, 0x68, 0xCE, 0x38, 0x80, 0, 0, 1, 0x65,
    0x88, 0x84, 0x0C,
];

/// P pictures of two active entries, by their place modulo 16: frame_num is the place,
/// pic_order_cnt_lsb twice the place.
const TWO_ENTRIES: [&[u8]; 16] = [
    &[0, 0, 1, 0x41, 0x9A, 0x01, 0x46],
    &[0, 0, 1, 0x41, 0x9A, 0x25, 0x46],
    &[0, 0, 1, 0x41, 0x9A, 0x49, 0x46],
    &[0, 0, 1, 0x41, 0x9A, 0x6D, 0x46],
    &[0, 0, 1, 0x41, 0x9A, 0x91, 0x46],
    &[0, 0, 1, 0x41, 0x9A, 0xB5, 0x46],
    &[0, 0, 1, 0x41, 0x9A, 0xD9, 0x46],
    &[0, 0, 1, 0x41, 0x9A, 0xFD, 0x46],
    &[0, 0, 1, 0x41, 0x9B, 0x01, 0x46],
    &[0, 0, 1, 0x41, 0x9B, 0x25, 0x46],
    &[0, 0, 1, 0x41, 0x9B, 0x49, 0x46],
    &[0, 0, 1, 0x41, 0x9B, 0x6D, 0x46],
    &[0, 0, 1, 0x41, 0x9B, 0x91, 0x46],
    &[0, 0, 1, 0x41, 0x9B, 0xB5, 0x46],
    &[0, 0, 1, 0x41, 0x9B, 0xD9, 0x46],
    &[0, 0, 1, 0x41, 0x9B, 0xFD, 0x46],
];

/// The first unit and so many P pictures after it are inserted, each edit being accepted.
fn are_inserted(runner: &mut Runner, count: u32) -> Result<bool, AllocError> {
    if !holds(runner, Act::Edit(EditRow::First(FIRST)))? {
        return Ok(false);
    }
    for id in 1..=count {
        let text = TWO_ENTRIES.get(id as usize % 16).copied().unwrap_or(&[]);
        if !holds(runner, Act::Edit(EditRow::After(id, text)))? {
            return Ok(false);
        }
    }
    Ok(true)
}

/// The units of the ids up to this one are shown.
fn are_ready(runner: &mut Runner, last: u32) -> Result<bool, AllocError> {
    for id in 1..=last {
        if !holds(runner, Act::Ready(id))? {
            return Ok(false);
        }
    }
    Ok(true)
}

/// The keys are trees that have more than 10^12 nodes where each is written out.
#[test]
fn keys_of_many_pictures_are_kept_once(rt: HostRuntime) -> Result<(), Fail> {
    let mut runner = runner_of(&rt, 64);
    assert!(rt; are_inserted(&mut runner, 64)?);
    assert!(rt; holds(&mut runner, Act::Settle)? && are_ready(&mut runner, 65)?);
    Ok(())
}

/// A with two bytes more of slice data, of which no number below 16,384 has those of another.
fn longer(alloc: Global, number: u32) -> Result<Bytes, AllocError> {
    let mut text = Vec::from_slice(alloc, A)?;
    text.push((number % 128) as u8 | 0x80)?;
    text.push((number / 128 % 128) as u8 | 0x80)?;
    Ok(Bytes::from_vec(text)?)
}

/// Whether the reply is that of an accepted edit.
fn is_accepted(reply: &Reply) -> bool {
    matches!(reply, Reply::Edit(Ok(_)))
}

/// Unit 1 is replaced by so many texts in turn.
fn is_replaced(alloc: Global, runner: &mut Runner, count: u32) -> Result<bool, AllocError> {
    for number in 0..count {
        let edit = Edit::Replace(AuId::new(1), longer(alloc, number)?);
        if !is_accepted(&runner.step(Command::Edit(edit))?) {
            return Ok(false);
        }
    }
    Ok(true)
}

/// Whether the number of the first unit's key is small: those of keys that aren't needed any more
/// are given again.
fn has_small_number(runner: &Runner) -> bool {
    match runner.session().key(AuId::new(1)) {
        Ok(Some(key)) => key.number() < 200,
        _ => false,
    }
}

/// What comes before the replacements, and after them.
const BEFORE: [Act; 2] = [Act::Edit(EditRow::First(A)), Act::Take(1, 1)];

const AFTER: [Act; 5] = [
    Act::Pending(1),
    Act::Edit(EditRow::Replace(1, A)),
    Act::TakesNone,
    Act::Land(1, Landing::Taken),
    Act::Ready(1),
];

/// The runner answers all acts so.
fn all_hold(runner: &mut Runner, acts: &[Act]) -> Result<bool, AllocError> {
    for act in acts {
        if !holds(runner, *act)? {
            return Ok(false);
        }
    }
    Ok(true)
}

#[test]
fn a_result_is_taken_after_10_000_other_texts(rt: HostRuntime) -> Result<(), Fail> {
    let mut runner = runner_of(&rt, 1);
    assert!(rt; all_hold(&mut runner, &BEFORE)?);
    assert!(rt; is_replaced(rt.alloc(), &mut runner, 10_000)?);
    assert!(rt; has_small_number(&runner));
    assert!(rt; all_hold(&mut runner, &AFTER)?);
    Ok(())
}
