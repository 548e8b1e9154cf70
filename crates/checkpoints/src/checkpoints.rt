ghost use Rattle.std.specs.Prelude.{◌≡◌, ◌<◌, ◌≤◌, [], ◌∷◌, All, length, max, nat_eq, option_copied, IfOk, OnOk, OnErr, IsOk, MatchOption};
ghost use Rattle.std.specs.Map.{lookup, keys_of};
ghost use Rattle.std.specs.Ordering.{nat_cmp};
ghost use Rattle.std.specs.BTreeMap.{insert_entry};
ghost use Rattle.checkpoints.specs.Stored.{IsInOrder, IsBefore, IsAfter, IsLast, spare_after_put};
ghost use Rattle.checkpoints.specs.Changes.{CanShift, shifted, cut};
ghost use Rattle.checkpoints.specs.Places.{AreRising};
ghost use Rattle.checkpoints.specs.Search.{places_up_to, places_below};

use crate::shifting::{LengthChange, move_places, remove_range};
use std::alloc::{AllocError, Global};
use std::marker::Model;

/// A stored state, and the place at which it is stored.
#[derive_where(Clone, Copy)]
#[derive(Debug)]
pub struct Checkpoint<'a, S> {
    /// How many units of the stream are before it.
    pub place: usize,
    /// What the fold had come to there.
    pub state: &'a S,
}

/// States stored along a stream. Place p is the one past the first p units; place 0 is always
/// stored.
///
/// A look-up takes time that grows with the logarithm of the number of states. To put a state at a
/// new place or to cut moves the places and the states after it, to shift the places alone. To put
/// one in the place of another moves none.
#[derive(Debug, Drop)]
pub struct Checkpoints<S> {
    places: Vec<usize>,
    states: Vec<S>,
    spare: usize,
}

impl<S> Model for Checkpoints<S> {
    ghost use Rattle.std.specs.List.{zip};
    ghost use Rattle.checkpoints.specs.Stored.{Stored, stored_code};
    ghost use Rattle.checkpoints.specs.Invariants.{IsSound};

    ghost Value = { Stored S };

    ghost coded = { stored_code S.code };

    ghost view = { λ c. record { states = zip c.places.items c.states.items; spare = c.spare } };

    ghost invariant = { λ c. IsSound c.places c.states c.spare };
}

impl<S: Drop> Checkpoints<S> {
    /// Stores the state at place 0, before any unit.
    pub fn new(alloc: Global, first: S) -> Result<Self, AllocError>
        ensures { IfOk result (λ c. c ≡ record { states = (0, first) ∷ []; spare = 0 }) }
    {
        let mut places = Vec::new(alloc);
        places.push(0)?;
        let mut states = Vec::new(alloc);
        states.push(first)?;
        Ok(Checkpoints {
            places,
            states,
            spare: 0,
        })
    }

    /// The state stored at the greatest place not above `place`. Takes no memory.
    pub fn before(&self, place: usize) -> Checkpoint<'_, S>
        ensures { IsBefore self.now.states place result.place result.state.now }
    {
        let count = places_up_to(&self.places, place);
        let at = count - 1;
        Checkpoint {
            place: self.places[at],
            state: &self.states[at],
        }
    }

    /// The state stored at the least place above `place`, if there is one. Takes no memory.
    pub fn after(&self, place: usize) -> Option<Checkpoint<'_, S>>
        ensures { MatchOption result
            (All (λ e. e.0 ≤ place) self.now.states)
            (λ found. IsAfter self.now.states place found.place found.state.now) }
    {
        let next = places_up_to(&self.places, place);
        if next == self.places.len() {
            return None;
        }
        Some(Checkpoint {
            place: self.places[next],
            state: &self.states[next],
        })
    }

    /// The state stored at the greatest place. Takes no memory.
    pub fn last(&self) -> Checkpoint<'_, S>
        ensures { IsLast self.now.states result.place result.state.now }
    {
        let at = self.places.len() - 1;
        Checkpoint {
            place: self.places[at],
            state: &self.states[at],
        }
    }

    /// The state stored at just this place, if there is one. Takes no memory.
    pub fn get(&self, place: usize) -> Option<&S>
        ensures { option_copied result ≡ lookup (nat_eq place) self.now.states }
    {
        let found = places_up_to(&self.places, place) - 1;
        if self.places[found] == place {
            Some(&self.states[found])
        } else {
            None
        }
    }

    /// How many states are stored.
    pub fn len(&self) -> usize
        ensures len { result ≡ length self.now.states }
        ensures in_order { IsInOrder self.now.states }
    {
        self.states.len()
    }

    /// For how many more places there is room.
    pub fn spare(&self) -> usize
        ensures { result ≡ self.now.spare }
    {
        self.spare
    }

    /// Makes room for this many more places, so that so many calls of `put` take no memory.
    pub fn reserve(&mut self, n: usize) -> Result<(), AllocError>
        ensures ok { OnOk result (self.new ≡ record self.old { spare = max self.old.spare n }) }
        ensures err { OnErr result (self.new ≡ self.old) }
        ensures there { n ≤ self.old.spare → IsOk result }
    {
        if n <= self.spare {
            return Ok(());
        }
        self.places.reserve(n)?;
        self.states.reserve(n)?;
        self.spare = n;
        Ok(())
    }

    /// Stores the state at the place, in the place of one that is stored there; at a new place it
    /// takes up room. Takes no memory.
    pub fn put(&mut self, place: usize, state: S)
        requires { lookup (nat_eq place) self.old.states ≡ None → 0 < self.old.spare }
        ensures states { self.new.states ≡ insert_entry nat_cmp self.old.states place state }
        ensures spare { self.new.spare ≡ spare_after_put self.old place }
        ensures in_order { IsInOrder self.new.states }
    {
        let past = places_up_to(&self.places, place);
        if self.places[past - 1] == place {
            self.states[past - 1] = state;
        } else {
            self.places.insert(past, place).unwrap();
            self.states.insert(past, state).unwrap();
            self.spare -= 1;
        }
    }

    /// Moves the places not below `from` by the change in length of what is before them. No two of
    /// them may meet. Takes no memory.
    pub fn shift(&mut self, from: usize, change: LengthChange)
        requires above { 0 < from }
        requires apart { CanShift from change (keys_of self.old.states) }
        ensures after { self.new
            ≡ record self.old { states = shifted from change self.old.states } }
        ensures in_order { IsInOrder self.new.states }
    {
        move_places(&mut self.places, from, change);
    }

    /// Drops the states at places above `low` and below `high`. Takes no memory.
    pub fn cut(&mut self, low: usize, high: usize)
        ensures after { self.new ≡ record self.old { states = cut low high self.old.states } }
        ensures in_order { IsInOrder self.new.states }
    {
        let first = places_up_to(&self.places, low);
        let past = places_below(&self.places, high).max(first);
        remove_range(&mut self.places, first, past);
        remove_range(&mut self.states, first, past);
    }
}

/// How many places aren't above this one.
pub(crate) fn places_up_to(places: &[usize], place: usize) -> usize
    requires { AreRising places.now }
    ensures value { result ≡ places_up_to places.now place }
    ensures bound { result ≤ length places.now }
{
    places.partition_point(|other| *other <= place)
}

/// How many places are below this one.
pub(crate) fn places_below(places: &[usize], place: usize) -> usize
    requires { AreRising places.now }
    ensures value { result ≡ places_below places.now place }
    ensures bound { result ≤ length places.now }
{
    places.partition_point(|other| *other < place)
}
