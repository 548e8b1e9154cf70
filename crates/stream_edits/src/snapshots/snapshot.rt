//! Snapshots of streams.

ghost use Rattle.std.specs.Prelude.{◌≡◌};

use bytes::Bytes;
use h264_types::pictures::AuId;
use std::marker::Model;

/// The texts of a stream's units under their ids, in decoding order, and how many ids were given.
/// Nothing is read yet: the texts may be no units, and the ids no stream's.
#[derive(Debug)]
pub struct Snapshot {
    units: Vec<(AuId, Bytes)>,
    ids_given: u32,
}

// By hand, so that whoever drops one is proved over one call.
impl Drop for Snapshot {
    fn drop(self) {
        let Snapshot {
            units: _,
            ids_given: _,
        } = self;
    }
}

impl Model for Snapshot {
    ghost use Rattle.stream_edits.specs.Snapshots.{SnapshotValue};

    ghost Value = { SnapshotValue };

    ghost view = { λ it. record { units = it.units.items; ids_given = it.ids_given } };
}

impl Snapshot {
    /// The snapshot with these units and so many ids given. It takes no memory.
    pub fn new(units: Vec<(AuId, Bytes)>, ids_given: u32) -> Snapshot
        ensures { result ≡ record { units = units.items; ids_given = ids_given } }
    {
        Snapshot { units, ids_given }
    }

    /// The ids and texts of the units, in decoding order.
    pub fn units(&self) -> &[(AuId, Bytes)]
        ensures { result.now ≡ self.now.units }
    {
        self.units.as_slice()
    }

    /// How many ids were given.
    pub fn ids_given(&self) -> u32
        ensures { result ≡ self.now.ids_given }
    {
        self.ids_given
    }
}
