//! What a session is told, and what it answers.

use super::pool::text_at;
use h264_types::pictures::AuId;
use stand_in_session::{Changed, Dropping, Edit, InsertionPoint, Landing, Returning};
use std::alloc::{AllocError, Global};

/// An edit, whose texts are places of the pool.
#[derive(Clone, Copy)]
pub(super) enum Change {
    First(usize),
    After(u32, usize),
    Delete(u32),
    Replace(u32, usize),
}

impl Change {
    /// The edit.
    pub(super) fn edit(self, alloc: Global) -> Result<Edit, AllocError> {
        Ok(match self {
            Change::First(text) => Edit::Insert(InsertionPoint::First, text_at(alloc, text)?),
            Change::After(id, text) => {
                Edit::Insert(InsertionPoint::After(AuId::new(id)), text_at(alloc, text)?)
            }
            Change::Delete(id) => Edit::Delete(AuId::new(id)),
            Change::Replace(id, text) => Edit::Replace(AuId::new(id), text_at(alloc, text)?),
        })
    }

    /// The text that is inserted, if one is.
    pub(super) fn inserted(self) -> Option<usize> {
        match self {
            Change::First(text) | Change::After(_, text) => Some(text),
            Change::Delete(_) | Change::Replace(..) => None,
        }
    }
}

/// How many edits a group that is drawn has at most.
pub(super) const MOST_TOGETHER: usize = 4;

/// Edits that are made together.
#[derive(Clone, Copy)]
pub(super) struct EditGroup {
    changes: [Change; MOST_TOGETHER],
    count: usize,
}

impl EditGroup {
    /// The first of these, so many.
    pub(super) fn new(changes: [Change; MOST_TOGETHER], count: usize) -> EditGroup {
        EditGroup { changes, count }
    }

    /// The edits that are made.
    pub(super) fn changes(&self) -> &[Change] {
        self.changes.get(..self.count).unwrap_or(&[])
    }

    /// The edits, as a session takes them.
    pub(super) fn edits(&self, alloc: Global) -> Result<Vec<Edit>, AllocError> {
        let mut edits = Vec::new(alloc);
        for change in self.changes() {
            edits.push(change.edit(alloc)?)?;
        }
        Ok(edits)
    }
}

/// A command. What lands or is given back has a number, and is what was given to decode under a
/// number, mostly the same.
#[derive(Clone, Copy)]
pub(super) enum Told {
    Edit(Change),
    Group(EditGroup),
    Take,
    TakeFor(u32),
    Land(u64, u64),
    Give(u64, u64),
    Drop(u32),
    ClearCache,
}

/// What a command is answered.
#[derive(Clone, Copy, PartialEq, Eq)]
pub(super) enum Answer {
    /// The receipt's number and id and the units that changed, where it has no more steps than the
    /// stream has units.
    Accepted(u64, AuId, Changed),
    Refused(u8),
    /// The number of a group's receipt, the ids of its edits, with zeros after them, and the units
    /// that changed, where it has no more steps than the stream has units.
    Grouped(u64, [u32; MOST_TOGETHER], Changed),
    /// The index of the edit that a group is refused for, and the refusal's number.
    GroupRefused(usize, u8),
    /// A job's number, and the timestamp of its unit.
    Taken(u64, u64),
    NotTaken,
    Landed(Landing),
    GivenBack(Returning),
    Dropped(Dropping),
    Cleared,
    /// What no model answers.
    Wrong,
}
