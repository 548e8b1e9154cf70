//! Changes of a stream in one range.

ghost use Rattle.std.specs.Prelude.{◌≡◌, ◌+◌, ◌≤◌, length, vec_len};
ghost use Rattle.std.specs.Vec.{vec_capacity};
ghost use Rattle.stream_edits.specs.Changes.{IsInside, at_of, rest_from, stream_after, units_of};

use h264_types::base::{Shared, replace_range};
use h264_types::pictures::AuId;
use picture_keys::HashedUnit;

/// A change of a stream in one range: these units stand in the place of those of the range, and
/// all others stay. A place is that past so many units.
#[derive(Debug)]
pub struct Change {
    pub(crate) at: usize,
    pub(crate) rest: usize,
    pub(crate) units: Vec<(AuId, Shared<HashedUnit>)>,
}

// By hand, so that whoever drops one is proved over one call.
impl Drop for Change {
    fn drop(self) {
        let Change {
            at: _,
            rest: _,
            units: _,
        } = self;
    }
}

impl Change {
    /// The change that puts these units in place of those from `at` on and below `rest`.
    pub fn new(at: usize, rest: usize, units: Vec<(AuId, Shared<HashedUnit>)>) -> Change
        ensures at { at_of result ≡ at }
        ensures rest { rest_from result ≡ rest }
        ensures units { units_of result ≡ units.items }
    {
        Change { at, rest, units }
    }

    /// The place at which the range begins, before the change and after it.
    pub fn at(&self) -> usize
        ensures { result ≡ at_of self.now }
    {
        self.at
    }

    /// The place of the stream as it was at which the units begin that stay behind the range.
    pub fn rest_from(&self) -> usize
        ensures { result ≡ rest_from self.now }
    {
        self.rest
    }

    /// The units that it brings.
    pub fn units(&self) -> &[(AuId, Shared<HashedUnit>)]
        ensures { result.now ≡ units_of self.now }
    {
        self.units.as_slice()
    }

    /// Makes the change, for which there is room. Takes no memory.
    pub fn make(self, units: &mut Vec<(AuId, Shared<HashedUnit>)>)
        requires inside { IsInside self units.old.items }
        requires room { vec_len units.old + length (units_of self) ≤ vec_capacity units.old }
        ensures { units.new.items ≡ stream_after self units.old.items }
    {
        let Change {
            at,
            rest,
            units: brought,
        } = self;
        replace_range(units, at, rest, brought);
    }
}
