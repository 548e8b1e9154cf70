//! What a seat notes of a group, before the group has ids.

ghost use Rattle.std.specs.Prelude.{◌≡◌, ◌≤◌, [], length, IfOk};
ghost use Rattle.std.specs.Vec.{vec_capacity};

use h264_types::pictures::AuId;
use seat_books::{NotedGroup, copy_of_edits};
use stand_in_session::Edit;
use std::alloc::{AllocError, Global};

/// A group's edits, and room for as many ids.
#[derive(Drop)]
pub(crate) struct GroupNote {
    pub(crate) edits: Vec<Edit>,
    ids: Vec<AuId>,
    ghost none: { ids.items ≡ [] },
    ghost fits: { length edits.items ≤ vec_capacity ids },
}

impl GroupNote {
    /// The note of these edits, which shares their bytes.
    pub(crate) fn of(alloc: Global, edits: &[Edit]) -> Result<GroupNote, AllocError>
        ensures { IfOk result (λ note. note.edits.items ≡ edits.now) }
    {
        let copy = copy_of_edits(alloc, edits)?;
        let ids = Vec::with_capacity(alloc, edits.len())?;
        Ok(GroupNote { edits: copy, ids })
    }

    /// What a book has of the group, which was answered these ids. It takes no memory.
    pub(crate) fn with_ids(self, ids: &[AuId]) -> NotedGroup
        requires { length ids.now ≤ length self.edits.items }
        ensures { result ≡ record { edits = self.edits.items; ids = ids.now } }
    {
        let GroupNote {
            edits,
            ids: mut spare,
        } = self;
        match spare.extend_from_slice(ids) {
            Ok(()) => NotedGroup::new(edits, spare),
            Err(AllocError) => unreachable!(),
        }
    }
}
