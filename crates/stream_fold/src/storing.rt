//! States stored along a changed stream.

ghost use Rattle.std.specs.Prelude.{◌≡◌, ℕ, ◌<◌, ◌≤◌, length, None, Some, ◌+◌, ◌^◌, IfOk};
ghost use Rattle.std.specs.Map.{keys_of};
ghost use Rattle.checkpoints.specs.Changes.{CanShift, cut};
ghost use Rattle.stream_fold.specs.Storing.{IsThinned, put_all, stored_after};
ghost use Rattle.stream_fold.specs.Changes.{brought_to, length_change};

use crate::refold::SPACING;
use checkpoints::{Checkpoints, LengthChange};
use h264_types::base::Shared;
use picture_keys::HashedOutcome;
use request_core::State;
use std::alloc::{AllocError, Global};
use stream_edits::Change;

/// Keeps the states up to one place and those from another place on, which move by the change, and
/// stores these states between. There is room for them.
pub(crate) fn store_anew(
    stored: &mut Checkpoints<State>,
    kept: usize,
    stays: usize,
    change: LengthChange,
    states: Vec<(usize, State)>,
)
    requires above { 0 < stays }
    requires apart { CanShift stays change (keys_of (cut kept stays stored.old.states)) }
    requires spare { length states.items ≤ stored.old.spare }
    ensures { stored.new.states ≡ stored_after kept stays change states.items stored.old.states }
{
    stored.cut(kept, stays);
    stored.shift(stays, change);
    put_all(stored, states);
}

/// Stores these states, for which there is room, one after the other.
fn put_all(stored: &mut Checkpoints<State>, mut states: Vec<(usize, State)>)
    requires { length states.items ≤ stored.old.spare }
    ensures { stored.new.states ≡ put_all states.items stored.old.states }
{
    states.reverse();
    while let Some((place, state)) = states.pop() {
        stored.put(place, state);
    }
}

/// Forgets the state that is stored at a place, where the stored ones before it and past it are
/// near enough to each other.
pub(crate) fn thin(stored: &mut Checkpoints<State>, place: usize)
    ensures { IsThinned place stored.old.states stored.new.states }
{
    if place == 0 {
        return;
    }
    let past = match stored.after(place) {
        Some(next) => next.place,
        None => return,
    };
    let before = stored.before(place - 1).place;
    if past - before <= SPACING {
        stored.cut(before, past);
    }
}

/// Keeps the state at the end of the stream where a stored state was met, and else puts this one
/// there.
pub(crate) fn keep_end(end: &mut State, met: Option<usize>, state: State)
    ensures none { met ≡ None → end.new ≡ state }
    ensures some { (place : ℕ) → met ≡ Some place → end.new ≡ end.old }
{
    match met {
        None => *end = state,
        Some(_) => {}
    }
}

/// How a change changes the stream's length.
pub(crate) fn length_change(change: &Change) -> LengthChange
    requires { brought_to change.now < 2 ^ 64 }
    ensures { result ≡ length_change change.now }
{
    let (end, rest) = (change.at() + change.units().len(), change.rest_from());
    if end < rest {
        LengthChange::Shorter(rest - end)
    } else {
        LengthChange::Longer(end - rest)
    }
}

/// The outcomes, with one owner more of each.
pub fn shares_of(
    alloc: Global,
    outcomes: &[Shared<HashedOutcome>],
) -> Result<Vec<Shared<HashedOutcome>>, AllocError>
    ensures { IfOk result (λ shares. shares.items ≡ outcomes.now) }
{
    let mut shares = Vec::with_capacity(alloc, outcomes.len())?;
    for outcome in outcomes {
        shares.push(outcome.clone()?)?;
    }
    Ok(shares)
}
