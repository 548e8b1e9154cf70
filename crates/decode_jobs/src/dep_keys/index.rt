//! Fingerprints at places, by which nodes that may be equal are found.

ghost use Rattle.std.specs.Prelude.{◌≡◌, ◌<◌, [], ◌∷◌, ◌++◌, length, OnOk, OnErr};
ghost use Rattle.decode_jobs.specs.Indexed.{at, IsLast};

use std::alloc::{AllocError, Global};
use std::collections::BTreeMap;
use std::marker::Model;

/// Fingerprints, each at a place. Clauses see the list of them.
#[derive(Debug, Drop)]
pub(crate) struct Index {
    fingerprints: Vec<[u8; 32]>,
    // The last place of each fingerprint.
    newest: BTreeMap<[u8; 32], usize>,
    // For each place the one before it of the same fingerprint.
    older: Vec<Option<usize>>,
}

impl Model for Index {
    ghost use Rattle.std.specs.Prelude.{List, ℕ};

    ghost Value = { List (List ℕ) };

    ghost use Rattle.decode_jobs.specs.Indexed.{AreIndexed};

    ghost view = { λ index. index.fingerprints.items };

    ghost invariant = { λ index.
        AreIndexed index.fingerprints.items index.newest index.older.items };
}

impl Index {
    /// No fingerprint.
    pub(crate) fn new(alloc: Global) -> Index
        ensures { result ≡ [] }
    {
        Index {
            fingerprints: Vec::new(alloc),
            newest: BTreeMap::new(alloc),
            older: Vec::new(alloc),
        }
    }

    /// Adds a fingerprint at the next place.
    pub(crate) fn add(&mut self, fingerprint: [u8; 32]) -> Result<(), AllocError>
        ensures ok { OnOk result (self.new ≡ self.old ++ fingerprint ∷ []) }
        ensures err { OnErr result (self.new ≡ self.old) }
    {
        self.fingerprints.reserve(1)?;
        self.older.reserve(1)?;
        let place = self.fingerprints.len();
        let older = self.newest.insert(fingerprint, place)?;
        self.older.push_reserved(older);
        self.fingerprints.push_reserved(fingerprint);
        Ok(())
    }

    /// The fingerprint at a place.
    pub(crate) fn fingerprint(&self, place: usize) -> [u8; 32]
        requires { place < length self.now }
        ensures { result ≡ at self.now place }
    {
        self.fingerprints[place]
    }

    /// The last place of a fingerprint.
    pub(crate) fn newest(&self, fingerprint: &[u8; 32]) -> Option<usize>
        ensures { IsLast self.now (length self.now) fingerprint.now result }
    {
        self.newest.get(fingerprint).copied()
    }

    /// The last place before this one of its fingerprint.
    pub(crate) fn older(&self, place: usize) -> Option<usize>
        requires { place < length self.now }
        ensures { IsLast self.now place (at self.now place) result }
    {
        self.older[place]
    }
}
