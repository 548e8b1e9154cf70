//! Moves places, and takes a range out of a list.

ghost use Rattle.std.specs.Prelude.{◌≡◌, ◌≤◌, ◌++◌, All, map, take, drop, vec_len, ◌<◌, ◌-◌};
ghost use Rattle.std.specs.Vec.{vec_capacity};
ghost use Rattle.checkpoints.specs.Changes.{moved, IsMovable, changed};

/// How the length of a range of the stream changes, in units.
#[derive(Clone, Copy, Debug, PartialEq, Eq)]
pub enum LengthChange {
    /// It has this many units more.
    Longer(usize),
    /// It has this many units less.
    Shorter(usize),
}

impl LengthChange {
    /// The change of a range that ended at the place `old` and ends at `new`.
    pub fn between(old: usize, new: usize) -> LengthChange
        ensures { changed result old ≡ new }
    {
        if old <= new {
            LengthChange::Longer(new - old)
        } else {
            LengthChange::Shorter(old - new)
        }
    }
}

/// Where a place is after a change that ends at `from`.
fn moved(from: usize, change: LengthChange, place: usize) -> usize
    requires { IsMovable from change place }
    ensures { result ≡ moved from change place }
{
    if place < from {
        return place;
    }
    match change {
        LengthChange::Longer(by) => place + by,
        LengthChange::Shorter(by) => place - by,
    }
}

/// Moves each place to where it is after a change that ends at `from`.
pub(crate) fn move_places(places: &mut Vec<usize>, from: usize, change: LengthChange)
    requires { All (IsMovable from change) places.old.items }
    ensures items { places.new.items ≡ map (moved from change) places.old.items }
    ensures len { vec_len places.new ≡ vec_len places.old }
    ensures capacity { vec_capacity places.new ≡ vec_capacity places.old }
{
    for at in 0..places.len() {
        places[at] = moved(from, change, places[at]);
    }
}

/// Drops the items from `low` on and below `high`.
pub(crate) fn remove_range<T: Drop>(items: &mut Vec<T>, low: usize, high: usize)
    requires ordered { low ≤ high }
    requires inside { high ≤ vec_len items.old }
    ensures items { items.new.items ≡ take low items.old.items ++ drop high items.old.items }
    ensures capacity { vec_capacity items.new ≡ vec_capacity items.old }
{
    drop(items.drain(low..high));
}
