//! The lines of units after their positions, in one buffer.

ghost use Rattle.std.specs.Prelude.{◌≡◌, ◌<◌, ◌≤◌, ◌++◌, [], ◌∷◌, length, slice_index_or, OnErr, OnOk};
ghost use Rattle.plan_stream.specs.Pieces.{AreEnds, pieces, starts};

use std::alloc::{AllocError, Global};
use std::marker::Model;

/// The lines of each unit after its position.
#[derive(Drop)]
pub(crate) struct Tails {
    bytes: Vec<u8>,
    /// Where those of each unit end.
    ends: Vec<usize>,
}

impl Model for Tails {
    ghost use Rattle.std.specs.Prelude.{ℕ, List};
    ghost use Rattle.plan_stream.specs.Pieces.{AreEnds, pieces};

    ghost Value = { List (List ℕ) };

    ghost view = { λ tails. pieces 0 tails.ends.items tails.bytes.items };

    ghost invariant = { λ tails. AreEnds 0 tails.ends.items tails.bytes.items };
}

impl Tails {
    /// Those of no units.
    pub(crate) fn new(alloc: Global) -> Tails
        ensures { result ≡ [] }
    {
        Tails {
            bytes: Vec::new(alloc),
            ends: Vec::new(alloc),
        }
    }

    /// Keeps those of one unit more. Where memory runs out, nothing is changed.
    pub(crate) fn push(&mut self, tail: &[u8]) -> Result<(), AllocError>
        ensures ok { OnOk result (self.new ≡ self.old ++ tail.now ∷ []) }
        ensures err { OnErr result (self.new ≡ self.old) }
    {
        self.ends.reserve(1)?;
        self.bytes.extend_from_slice(tail)?;
        self.ends.push_reserved(self.bytes.len());
        Ok(())
    }

    /// How many units they are of.
    pub(crate) fn len(&self) -> usize
        ensures { result ≡ length self.now }
    {
        self.ends.len()
    }

    /// Those of the unit at a place.
    pub(crate) fn at(&self, place: usize) -> &[u8]
        requires { place < length self.now }
        ensures { result.now ≡ slice_index_or self.now place [] }
    {
        piece(&self.bytes, &self.ends, place)
    }
}

/// The piece at a place.
fn piece<'a>(text: &'a [u8], ends: &[usize], place: usize) -> &'a [u8]
    requires ends { AreEnds 0 ends.now text.now }
    requires within { place < length ends.now }
    ensures { result.now ≡ slice_index_or (pieces 0 ends.now text.now) place [] }
{
    let (start, end) = (start_of(ends, place), ends[place]);
    let rest = text.split_at(start).1;
    rest.split_at(end - start).0
}

/// Where the piece at a place begins.
fn start_of(ends: &[usize], place: usize) -> usize
    requires { place ≤ length ends.now }
    ensures { result ≡ starts 0 ends.now place }
{
    if place == 0 { 0 } else { ends[place - 1] }
}
