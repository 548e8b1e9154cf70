//! What a picture needs, in the plain model, and pictures that are dropped.

use super::plain::Plain;
use super::told::Answer;
use super::trees::{Key, key_at, named};
use h264_types::pictures::AuId;
use stand_in_session::Dropping;
use std::alloc::{AllocError, Global};

impl Plain {
    /// Gives the job of the earliest due one of the units that the unit of an id needs, under the
    /// next number.
    pub(super) fn take_for(&mut self, alloc: Global, id: AuId) -> Result<Answer, AllocError> {
        let needed = self.needed(alloc, id)?;
        let due = self.first_due(alloc, &needed)?;
        let first = self.first_due(alloc, &self.keys)?;
        if let (Some(due), Some(first)) = (due, first)
            && due.id != first.id
        {
            self.jumped = self.jumped.saturating_add(1);
        }
        self.give(alloc, due)
    }

    /// The keys of the needed units, in stream order: rounds over the stream add what those that
    /// are there name, until a round adds nothing.
    fn needed(&self, alloc: Global, id: AuId) -> Result<Vec<Key>, AllocError> {
        let mut needed = self.waiting(alloc, &[Some(id)])?;
        for _ in &self.keys {
            let more = self.with_named(alloc, &needed)?;
            if more.len() == needed.len() {
                break;
            }
            needed = more;
        }
        Ok(needed)
    }

    /// The keys of these units and of those that they name whose keys aren't held, in stream order.
    fn with_named(&self, alloc: Global, needed: &[Key]) -> Result<Vec<Key>, AllocError> {
        let mut units = Vec::new(alloc);
        for key in needed {
            units.push(Some(key.id))?;
            for request in self.requests_of(key.id) {
                units.extend_from_slice(&named(alloc, request)?)?;
            }
        }
        self.waiting(alloc, &units)
    }

    /// The keys of those of these units that are valid and whose keys aren't held, in stream order.
    fn waiting(&self, alloc: Global, units: &[Option<AuId>]) -> Result<Vec<Key>, AllocError> {
        let mut waiting = Vec::new(alloc);
        for key in &self.keys {
            if units.contains(&Some(key.id)) && !self.held.contains(&key.tree) {
                waiting.push(*key)?;
            }
        }
        Ok(waiting)
    }

    /// Drops the picture of the unit of an id, which isn't cached by that.
    pub(super) fn drop_picture(&mut self, id: AuId) -> Dropping {
        match (self.place_of(id), key_at(&self.keys, Some(id))) {
            (None, _) => Dropping::NoSuchUnit,
            (Some(_), Some(key)) if self.held.contains(&key.tree) => {
                self.held.retain(|tree| *tree != key.tree);
                Dropping::Dropped
            }
            (Some(_), _) => Dropping::NotHeld,
        }
    }
}
