//! What a seat notes of a call.

ghost use Rattle.std.specs.Prelude.{◌≡◌, IfOk};
ghost use Rattle.seat_books.specs.Books.{length_in};

use crate::noted_group::NotedGroup;
use h264_types::pictures::AuId;
use stand_in_session::{Dropping, Edit, Shown};
use std::alloc::AllocError;

/// What a seat notes of a call, with the journal's length after it.
#[derive(Debug, Drop)]
pub enum SeatReceipt {
    /// An edit of its own that was accepted, and the id that it was answered.
    Edit {
        edit: Edit,
        id: AuId,
        length: u64,
    },
    /// A group of edits of its own that was accepted, and the ids that it was answered.
    Group {
        group: NotedGroup,
        length: u64,
    },
    /// What it was shown of the unit of the id.
    Show {
        id: AuId,
        shown: Shown,
        length: u64,
    },
    /// What came of dropping the picture of the unit of the id.
    Drop {
        id: AuId,
        answer: Dropping,
        length: u64,
    },
}

impl SeatReceipt {
    /// The journal's length.
    pub fn length(&self) -> u64
        ensures { result ≡ length_in self.now }
    {
        match self {
            SeatReceipt::Edit { length, .. }
            | SeatReceipt::Group { length, .. }
            | SeatReceipt::Show { length, .. }
            | SeatReceipt::Drop { length, .. } => *length,
        }
    }

    /// The receipt once more; it shares the bytes of its edits.
    pub fn copy(&self) -> Result<SeatReceipt, AllocError>
        ensures { IfOk result (λ copy. copy ≡ self.now) }
    {
        match self {
            SeatReceipt::Edit { edit, id, length } => Ok(SeatReceipt::Edit {
                edit: edit.copy()?,
                id: *id,
                length: *length,
            }),
            SeatReceipt::Group { group, length } => Ok(SeatReceipt::Group {
                group: group.copy()?,
                length: *length,
            }),
            SeatReceipt::Show { id, shown, length } => Ok(SeatReceipt::Show {
                id: *id,
                shown: *shown,
                length: *length,
            }),
            SeatReceipt::Drop { id, answer, length } => Ok(SeatReceipt::Drop {
                id: *id,
                answer: *answer,
                length: *length,
            }),
        }
    }
}
