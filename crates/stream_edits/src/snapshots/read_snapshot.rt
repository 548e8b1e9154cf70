//! Snapshots whose texts are read.

ghost use Rattle.std.specs.Prelude.{◌≡◌, ◌↔◌, true, IfErr, IfOk};
ghost use Rattle.stream_edits.specs.Edits.{no_units};
ghost use Rattle.stream_edits.specs.Snapshots.{IsAnyOf, IsOf};
ghost use Rattle.stream_edits.specs.declared.snapshots.read_snapshot.SnapshotRefused.TheVariants.{Memory};
ghost use Rattle.stream_edits.specs.SnapshotsRefusals.{IsSnapshotRefused, refusal_of_text};

use crate::snapshots::ids::are_ids;
use crate::snapshots::snapshot::Snapshot;
use crate::snapshots::texts::read_texts;
use access_unit::{MOST_UNITS, Refused};
use h264_types::base::Shared;
use h264_types::pictures::AuId;
use picture_keys::HashedUnit;
use std::alloc::{AllocError, AllocFailed, Global};
use std::marker::Model;
use thiserror::Error;

/// Why a snapshot is refused.
#[derive(Debug, PartialEq, Eq, Drop, Error)]
pub enum SnapshotRefused {
    /// Out of memory.
    #[error("out of memory")]
    Memory,
    /// No stream has these units and ids: there are more than 65,536, an id stands twice or was never
    /// given, or a text isn't one access unit.
    #[error("no stream has these units and ids")]
    NoStream,
}

impl From<Refused> for SnapshotRefused {
    ghost from_gives = { λ refused e. e ≡ refusal_of_text refused };

    fn from(refused: Refused) -> SnapshotRefused {
        match refused {
            Refused::Memory => SnapshotRefused::Memory,
            _ => SnapshotRefused::NoStream,
        }
    }
}

impl From<AllocError> for SnapshotRefused {
    ghost from_gives = { λ _ e. e ≡ Memory };

    fn from(_e: AllocError) -> SnapshotRefused {
        SnapshotRefused::Memory
    }
}

impl<T: Drop> From<AllocFailed<T>> for SnapshotRefused {
    ghost from_gives = { λ _ e. e ≡ Memory };

    fn from(_e: AllocFailed<T>) -> SnapshotRefused {
        SnapshotRefused::Memory
    }
}

/// The units of a snapshot, read. Clauses see the stream and how many ids were given.
#[derive(Debug)]
pub struct ReadSnapshot {
    units: Vec<(AuId, Shared<HashedUnit>)>,
    ids_given: u32,
}

// By hand, so that whoever drops one is proved over one call.
impl Drop for ReadSnapshot {
    fn drop(self) {
        let ReadSnapshot {
            units: _,
            ids_given: _,
        } = self;
    }
}

impl Model for ReadSnapshot {
    ghost use Rattle.stream_edits.specs.Edits.{Register};
    ghost use Rattle.stream_edits.specs.Snapshots.{IsAnyOf};

    ghost Value = { Register };

    ghost view = { λ it. record { ids_given = it.ids_given; stream = it.units.items } };

    ghost invariant = { λ it. IsAnyOf (record { ids_given = it.ids_given; stream = it.units.items }) };
}

impl Snapshot {
    /// The snapshot with its texts read. No byte is copied.
    pub fn read(&self, alloc: Global) -> Result<ReadSnapshot, SnapshotRefused>
        ensures ok { IfOk result (IsOf self.now) }
        ensures err { IfErr result (IsSnapshotRefused self.now) }
    {
        let texts = self.units();
        let ids_given = self.ids_given();
        if texts.len() > MOST_UNITS {
            return Err(SnapshotRefused::NoStream);
        }
        if !are_ids(alloc, texts, ids_given)? {
            return Err(SnapshotRefused::NoStream);
        }
        let units = read_texts(alloc, texts)?;
        Ok(ReadSnapshot { units, ids_given })
    }
}

impl ReadSnapshot {
    /// The snapshot of no units, before an id is given. It takes no memory.
    pub fn none(alloc: Global) -> ReadSnapshot
        ensures { result ≡ no_units }
    {
        ReadSnapshot {
            units: Vec::new(alloc),
            ids_given: 0,
        }
    }

    /// Whether it has no units, and no id was given.
    pub fn is_none(&self) -> bool
        ensures { (result ≡ true) ↔ (self.now ≡ no_units) }
    {
        self.units.is_empty() && self.ids_given == 0
    }

    /// How many ids were given.
    pub fn ids_given(&self) -> u32
        ensures { result ≡ self.now.ids_given }
    {
        self.ids_given
    }

    /// The units under their ids, in decoding order.
    pub fn units(&self) -> &[(AuId, Shared<HashedUnit>)]
        ensures value { result.now ≡ self.now.stream }
        ensures differ { IsAnyOf self.now }
    {
        self.units.as_slice()
    }

    /// Shares of the units under their ids, in decoding order. No byte is copied.
    pub fn shares(&self, alloc: Global) -> Result<Vec<(AuId, Shared<HashedUnit>)>, AllocError>
        ensures value { IfOk result (λ units. units.items ≡ self.now.stream) }
        ensures is { IsAnyOf self.now }
    {
        let mut units = Vec::with_capacity(alloc, self.units.len())?;
        for unit in &self.units {
            units.push((unit.0, unit.1.clone()?))?;
        }
        Ok(units)
    }
}
