//! What a book has of a group of edits.

ghost use Rattle.std.specs.Prelude.{◌≡◌, IfOk};

use crate::copying::copy_of_edits;
use h264_types::pictures::AuId;
use stand_in_session::Edit;
use std::alloc::{AllocError, Global};
use std::marker::Model;

/// The edits of a group that was accepted, and the ids that it was answered.
#[derive(Debug)]
pub struct NotedGroup {
    edits: Vec<Edit>,
    ids: Vec<AuId>,
}

// By hand, so that whoever drops one is proved over one call.
impl Drop for NotedGroup {
    fn drop(self) {
        let NotedGroup { edits: _, ids: _ } = self;
    }
}

impl Model for NotedGroup {
    ghost use Rattle.seat_books.specs.Noted.{Noted};

    ghost Value = { Noted };

    ghost view = { λ group. record { edits = group.edits.items; ids = group.ids.items } };
}

impl NotedGroup {
    /// These edits with these ids.
    pub fn new(edits: Vec<Edit>, ids: Vec<AuId>) -> NotedGroup
        ensures { result ≡ record { edits = edits.items; ids = ids.items } }
    {
        NotedGroup { edits, ids }
    }

    /// The edits, in order.
    pub fn edits(&self) -> &[Edit]
        ensures { result.now ≡ self.now.edits }
    {
        self.edits.as_slice()
    }

    /// The id of the unit that each edit inserted, deleted or replaced, in order.
    pub fn ids(&self) -> &[AuId]
        ensures { result.now ≡ self.now.ids }
    {
        self.ids.as_slice()
    }

    /// The group once more; it shares the bytes of its edits.
    pub fn copy(&self) -> Result<NotedGroup, AllocError>
        ensures { IfOk result (λ copy. copy ≡ self.now) }
    {
        let alloc = *self.edits.allocator();
        let edits = copy_of_edits(alloc, &self.edits)?;
        let ids = copy_of_ids(alloc, &self.ids)?;
        Ok(NotedGroup { edits, ids })
    }
}

/// The ids once more.
fn copy_of_ids(alloc: Global, ids: &[AuId]) -> Result<Vec<AuId>, AllocError>
    ensures { IfOk result (λ copy. copy.items ≡ ids.now) }
{
    let mut copy = Vec::new(alloc);
    copy.extend_from_slice(ids)?;
    Ok(copy)
}
