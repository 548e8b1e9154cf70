//! The numbers of live keys.

ghost use Rattle.std.specs.Prelude.{◌≡◌, ℕ, suc, ◌+◌, [], ◌∷◌, ◌++◌, ◌≤◌, length, slice_index, ◌<◌, IfOk, OnOk, OnErr};
ghost use Rattle.std.specs.List.{filter};
ghost use Rattle.std.specs.Vec.{vec_capacity, vec_len};
ghost use Rattle.decode_jobs.specs.Marks.{is_marked};
ghost use Rattle.decode_jobs.specs.Placed.{ArePlaced, IsLeastUnused, IsPlace, unused_below};

use crate::dep_keys::index::Index;
use crate::dep_keys::marks::is_marked;
use std::alloc::{AllocError, Global};
use std::marker::Model;

/// Numbers that are live, in the order in which they were given. A number that is live no more may
/// be given again.
#[derive(Debug, Drop)]
pub(crate) struct Numbers {
    live: Vec<usize>,
    // Where each number stands in `live`; left as it was where the number is live no more.
    places: Vec<usize>,
    // The numbers that have a place and aren't live, the greatest first.
    spare: Vec<usize>,
}

impl Model for Numbers {
    ghost use Rattle.std.specs.Prelude.{List, ℕ};

    ghost Value = { List ℕ };

    ghost use Rattle.decode_jobs.specs.Placed.{AreNumbered};

    ghost view = { λ numbers. numbers.live.items };

    ghost invariant = { λ numbers.
        AreNumbered numbers.live.items numbers.places.items numbers.spare.items };
}

impl Numbers {
    /// No number.
    pub(crate) fn new(alloc: Global) -> Numbers
        ensures { result ≡ [] }
    {
        Numbers {
            live: Vec::new(alloc),
            places: Vec::new(alloc),
            spare: Vec::new(alloc),
        }
    }

    /// Where a number stands among the live ones.
    pub(crate) fn place(&self, number: usize) -> Option<usize>
        ensures { IsPlace self.now number result }
    {
        place_of(&self.live, &self.places, number)
    }

    /// Gives the least number that is not live, and adds a fingerprint to an index.
    pub(crate) fn give(
        &mut self,
        index: &mut Index,
        fingerprint: [u8; 32],
    ) -> Result<usize, AllocError>
        ensures least { IfOk result (IsLeastUnused self.old) }
        ensures given { IfOk result (λ number. self.new ≡ self.old ++ number ∷ []) }
        ensures index { IfOk result (λ _. index.new ≡ index.old ++ fingerprint ∷ []) }
        ensures err { OnErr result ((self.new ≡ self.old) × (index.new ≡ index.old)) }
    {
        self.live.reserve(1)?;
        self.places.reserve(1)?;
        index.add(fingerprint)?;
        let place = self.live.len();
        match self.spare.pop() {
            Some(number) => {
                self.places[number] = place;
                self.live.push_reserved(number);
                Ok(number)
            }
            None => {
                let number = self.places.len();
                self.places.push_reserved(place);
                self.live.push_reserved(number);
                Ok(number)
            }
        }
    }

    /// A number above each live one.
    pub(crate) fn bound(&self) -> usize
        ensures { (i : ℕ) → i < length self.now → slice_index self.now i < result }
    {
        self.places.len()
    }

    /// Keeps the numbers that are marked; the others are live no more.
    pub(crate) fn keep(&mut self, marks: &[bool]) -> Result<(), AllocError>
        ensures ok { OnOk result (self.new ≡ filter (is_marked marks.now) self.old) }
        ensures err { OnErr result (self.new ≡ self.old) }
    {
        self.spare.reserve(self.places.len())?;
        self.spare.clear();
        keep_marked(&mut self.live, marks);
        place_all(&self.live, &mut self.places);
        add_unused(&self.live, &self.places, &mut self.spare);
        Ok(())
    }
}

/// Where a number stands among the live ones.
fn place_of(live: &[usize], places: &[usize], number: usize) -> Option<usize>
    requires { ArePlaced live.now places.now }
    ensures { IsPlace live.now number result }
{
    let place = *places.get(number)?;
    if live.get(place).copied() == Some(number) {
        Some(place)
    } else {
        None
    }
}

/// Adds the numbers that have a place and aren't live, the greatest first. There is room for as
/// many as have a place.
fn add_unused(live: &[usize], places: &[usize], unused: &mut Vec<usize>)
    requires placed { ArePlaced live.now places.now }
    requires none { unused.old.items ≡ [] }
    requires bound { length places.now ≤ vec_capacity unused.old }
    ensures { unused.new.items ≡ unused_below live.now (length places.now) }
{
    let mut number = places.len();
    while number > 0 {
        number -= 1;
        add_if_unused(live, places, number, unused);
    }
}

/// Adds a number if it isn't live. There is room for it.
fn add_if_unused(live: &[usize], places: &[usize], number: usize, unused: &mut Vec<usize>)
    requires placed { ArePlaced live.now places.now }
    requires bound { vec_len unused.old < vec_capacity unused.old }
    ensures items { unused.new.items ++ unused_below live.now number
        ≡ unused.old.items ++ unused_below live.now (suc number) }
    ensures few { vec_len unused.new ≤ vec_len unused.old + 1 }
    ensures capacity { vec_capacity unused.new ≡ vec_capacity unused.old }
{
    match place_of(live, places, number) {
        Some(_) => {}
        None => unused.push_reserved(number),
    }
}

/// Keeps the numbers that are marked.
fn keep_marked(live: &mut Vec<usize>, marks: &[bool])
    ensures { live.new.items ≡ filter (is_marked marks.now) live.old.items }
{
    live.retain(|number| is_marked(marks, *number));
}

/// Writes the place of each number.
fn place_all(live: &[usize], places: &mut [usize])
    requires below { (i : ℕ) → i < length live.now → slice_index live.now i < length places.old }
    requires apart { (i : ℕ) (j : ℕ) → i < j → j < length live.now
        → slice_index live.now i ≡ slice_index live.now j → ⊥ }
    ensures { ArePlaced live.now places.new }
{
    for (place, number) in live.iter().enumerate() {
        places[*number] = place;
    }
}
