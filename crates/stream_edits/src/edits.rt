//! Edits of a stream.

ghost use Rattle.std.specs.Prelude.{◌≡◌, IfOk};

use bytes::Bytes;
use h264_types::pictures::AuId;
use std::alloc::AllocError;

/// Where a unit is inserted.
#[derive(Clone, Copy, Debug, PartialEq, Eq)]
pub enum InsertionPoint {
    /// Before all units.
    First,
    /// Directly after the unit of this id.
    After(AuId),
}

/// An edit of a stream. A unit is given as the bytes of its text; clauses see them as a list.
#[derive(Debug, Drop)]
pub enum Edit {
    /// A unit more, which gets the next id.
    Insert(InsertionPoint, Bytes),
    /// The unit of this id is taken out.
    Delete(AuId),
    /// Another unit stands in the place of the one of this id, and keeps the id.
    Replace(AuId, Bytes),
}

impl Edit {
    /// The edit once more; it shares the bytes.
    pub fn copy(&self) -> Result<Edit, AllocError>
        ensures { IfOk result (λ copy. copy ≡ self.now) }
    {
        match self {
            Edit::Insert(place, text) => Ok(Edit::Insert(*place, text.clone()?)),
            Edit::Delete(id) => Ok(Edit::Delete(*id)),
            Edit::Replace(id, text) => Ok(Edit::Replace(*id, text.clone()?)),
        }
    }
}
