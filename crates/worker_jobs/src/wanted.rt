//! The ids that are wanted.

ghost use Rattle.std.specs.Prelude.{◌≡◌, ◌<◌, ◌≤◌, ◌↔◌, ℕ, [], ◌∷◌, ◌++◌, length, slice_get, Some, IsErr, MatchBool, MatchOption, OnErr, OnOk};
ghost use Rattle.std.specs.Bool.{Decides};

use arrayvec::ArrayVec;
use h264_types::pictures::AuId;
use std::marker::Model;
use thiserror::Error;

/// How many ids a list has at most, and for how many units threads wait at once.
pub const MOST_WANTED: usize = 64;

/// More ids are wanted than a list may have.
#[derive(Clone, Copy, Debug, PartialEq, Eq, Hash, Error)]
#[error("more than 64 ids are wanted")]
pub struct TooManyWanted;

/// The ids of the units that are wanted, in order of urgency: those that threads wait for, and
/// behind them those of a list. And whether the rest of the stream is wanted too. An id may stand
/// there more than once, and be of no unit.
#[derive(Debug)]
pub struct Wanted {
    /// The numbers of the ids, from the thread on that has waited longest.
    waited: ArrayVec<u32, MOST_WANTED>,
    listed: ArrayVec<u32, MOST_WANTED>,
    rest: bool,
}

// By hand, so that whoever drops one is proved over one call.
impl Drop for Wanted {
    fn drop(self) {
        let Wanted {
            waited: _,
            listed: _,
            rest: _,
        } = self;
    }
}

impl Model for Wanted {
    ghost use Rattle.worker_jobs.specs.Wanted.{Wants};

    ghost Value = { Wants };

    ghost view = { λ wanted. record {
      waited = wanted.waited.items;
      listed = wanted.listed.items;
      rest = wanted.rest;
    } };

    ghost inverse = { λ wants. record {
      waited = record { items = wants.waited };
      listed = record { items = wants.listed };
      rest = wants.rest;
    } };
}

impl Wanted {
    ghost use Rattle.worker_jobs.specs.Wanted.{IsOneLess, all_units};

    /// No id is wanted before others, and the whole stream is.
    pub fn new() -> Wanted
        ensures { result ≡ all_units }
    {
        Wanted {
            waited: ArrayVec::new(),
            listed: ArrayVec::new(),
            rest: true,
        }
    }

    /// Makes these the list's ids, in order of urgency, in place of those that it had. It takes no
    /// memory. Where they are too many, nothing changes.
    pub fn list(&mut self, ids: &[AuId]) -> Result<(), TooManyWanted>
        ensures ok { OnOk result (self.new ≡ record self.old { listed = ids.now }) }
        ensures err { OnErr result (self.new ≡ self.old) }
        ensures too_many { IsErr result ↔ (64 < length ids.now) }
    {
        if ids.len() > MOST_WANTED {
            return Err(TooManyWanted);
        }
        self.listed = numbers_of(ids);
        Ok(())
    }

    /// Makes the rest of the stream wanted or not.
    pub fn set_rest(&mut self, rest: bool)
        ensures { self.new ≡ record self.old { rest = rest } }
    {
        self.rest = rest;
    }

    /// Whether the rest of the stream is wanted.
    pub fn is_rest_wanted(&self) -> bool
        ensures { result ≡ self.now.rest }
    {
        self.rest
    }

    /// Whether a thread waits for a unit.
    pub fn is_any_waited_for(&self) -> bool
        ensures { Decides result (0 < length self.now.waited) }
    {
        !self.waited.is_empty()
    }

    /// Whether there is no room for one more thread that waits.
    pub fn is_full(&self) -> bool
        ensures { Decides result (length self.now.waited ≡ 64) }
    {
        self.waited.is_full()
    }

    /// A thread waits for the unit of the id, which is wanted behind those that others wait for;
    /// whether there was room.
    pub fn wait_for(&mut self, id: AuId) -> bool
        ensures { MatchBool result
            (self.new ≡ record self.old { waited = self.old.waited ++ id ∷ [] })
            ((length self.old.waited ≡ 64) × (self.new ≡ self.old)) }
    {
        self.waited.try_push(id.number()).is_ok()
    }

    /// A thread that waited for the unit of the id waits no more.
    pub fn wait_no_more(&mut self, id: AuId)
        ensures { IsOneLess self.old id self.new }
    {
        if let Some(at) = first_place(self.waited.as_slice(), id.number()) {
            self.waited.remove(at);
        }
    }

    /// The numbers of the ids that threads wait for, and those of the list.
    pub(crate) fn numbers(&self) -> (&[u32], &[u32])
        ensures waited { result.0.now ≡ self.now.waited }
        ensures listed { result.1.now ≡ self.now.listed }
    {
        (self.waited.as_slice(), self.listed.as_slice())
    }
}

/// The numbers of ids.
fn numbers_of(ids: &[AuId]) -> ArrayVec<u32, MOST_WANTED>
    requires { length ids.now ≤ 64 }
    ensures { result.items ≡ ids.now }
{
    let mut numbers = ArrayVec::new();
    for id in ids {
        numbers.push(id.number());
    }
    numbers
}

/// The first place of a number among these.
fn first_place(numbers: &[u32], number: u32) -> Option<usize>
    ensures { MatchOption result
        ((at : ℕ) → slice_get numbers.now at ≡ Some number → ⊥)
        (λ at. slice_get numbers.now at ≡ Some number) }
{
    for (at, other) in numbers.iter().enumerate() {
        if *other == number {
            return Some(at);
        }
    }
    None
}
