//! What an edit answers, and the end of a stream.

ghost use Rattle.std.specs.Prelude.{◌≡◌};
ghost use Rattle.stream_edits.specs.Streams.{place_after};

use crate::edits::InsertionPoint;
use h264_types::pictures::AuId;
use picture_keys::changed_units::Changed;

/// What an accepted edit answers.
#[derive(Clone, Copy, Debug, PartialEq, Eq)]
pub struct Receipt {
    /// How many edits and groups were accepted, with this one.
    pub number: u64,
    /// The id of the unit that was inserted, deleted or replaced.
    pub id: AuId,
    /// How many steps of the fold the edit made.
    pub steps: u64,
    /// How many bytes were hashed for it: those of the slices of the unit that it brings, once.
    pub hashed: u64,
    /// How many pictures are lost: their keys went out of use, and no memory was found to cache
    /// them.
    pub lost_pictures: u64,
    /// The least range of places of the stream after the edit that has every unit that is new, or
    /// whose outcome is of another kind, another fault or another key than before.
    pub changed: Changed,
}

/// What an accepted group of edits answers.
#[derive(Debug, Drop)]
pub struct GroupReceipt {
    /// How many edits and groups were accepted, with this one.
    pub number: u64,
    /// The id of the unit that each edit inserted, deleted or replaced, in order.
    pub ids: Vec<AuId>,
    /// How many steps of the fold the group made.
    pub steps: u64,
    /// How many bytes were hashed for its edits.
    pub hashed: u64,
    /// How many pictures are lost, as of an edit.
    pub lost_pictures: u64,
    /// The least range of places of the stream after the group that has every unit that is new,
    /// or whose outcome is another one, as of an edit, than before its first edit.
    pub changed: Changed,
}

/// The end of a stream.
#[derive(Clone, Copy, Debug, PartialEq, Eq)]
pub struct Last {
    /// How many units the stream has.
    pub units: usize,
    /// The id of the last one, if there is one.
    pub id: Option<AuId>,
}

impl Last {
    /// The place after all units.
    pub fn end(self) -> InsertionPoint
        ensures { result ≡ place_after self.id }
    {
        match self.id {
            Some(id) => InsertionPoint::After(id),
            None => InsertionPoint::First,
        }
    }
}
