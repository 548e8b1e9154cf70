//! Units with the digest of their slices' bytes.

ghost use Rattle.std.specs.Prelude.{◌≡◌};
ghost use Rattle.picture_keys.specs.Digests.{IsHashed, slice_bytes, unit_digest};

use crate::digest::SlicesDigest;
use crate::hashed_bytes::HashedBytes;
use access_unit::Unit;
use std::marker::Model;

/// An access unit whose slices' bytes are hashed. Clauses see the unit.
#[derive(Debug)]
pub struct HashedUnit {
    unit: Unit,
    hash: UnitHash,
}

/// The digest of a unit's slices, and how many bytes were hashed for it.
#[derive(Clone, Copy, Debug, Drop)]
pub(crate) struct UnitHash {
    digest: SlicesDigest,
    hashed: usize,
}

impl UnitHash {
    /// That of this unit, whose slices' bytes are hashed here.
    pub(crate) fn of(unit: &Unit) -> UnitHash
        ensures { IsHashed unit.now result.digest.bytes result.hashed }
    {
        let _ = unit.nals();
        let mut hashed = HashedBytes::new();
        let digest = SlicesDigest::of(unit.slices(), &mut hashed);
        UnitHash {
            digest,
            hashed: hashed.count(),
        }
    }
}

// By hand, so that whoever drops one is proved over one call.
impl Drop for HashedUnit {
    fn drop(self) {
        let HashedUnit { unit: _, hash: _ } = self;
    }
}

impl Model for HashedUnit {
    ghost use Rattle.std.specs.Prelude.{ℕ, List};
    ghost use Rattle.picture_keys.specs.Digests.{IsHashed};

    ghost Value = { List (List ℕ) };

    ghost view = { λ hashed. hashed.unit };

    ghost invariant = { λ hashed.
        IsHashed hashed.unit hashed.hash.digest.bytes hashed.hash.hashed };
}

impl HashedUnit {
    /// The unit, whose slices' bytes are hashed here.
    pub fn of(unit: Unit) -> HashedUnit
        ensures { result ≡ unit }
    {
        let hash = UnitHash::of(&unit);
        HashedUnit { unit, hash }
    }

    /// The unit, whose slices were hashed so.
    pub(crate) fn with(unit: Unit, hash: UnitHash) -> HashedUnit
        requires { IsHashed unit hash.digest.bytes hash.hashed }
        ensures { result ≡ unit }
    {
        HashedUnit { unit, hash }
    }

    /// The unit.
    pub fn unit(&self) -> &Unit
        ensures { result.now ≡ self.now }
    {
        &self.unit
    }

    /// The digest of its slices.
    pub fn digest(&self) -> SlicesDigest
        ensures { result.bytes ≡ unit_digest self.now }
    {
        self.hash.digest
    }

    /// How many bytes were hashed for it: those of its slices, once.
    pub fn hashed(&self) -> usize
        ensures { result ≡ slice_bytes self.now }
    {
        self.hash.hashed
    }
}
