//! Edits of the plain model.

use super::changes::{changed, rows_of};
use super::plain::Plain;
use super::pool::text_at;
use super::told::{Answer, Change};
use super::trees::key_with;
use access_unit::{Unit, read_unit};
use h264_types::pictures::AuId;
use output_order::positions;
use request_core::scratch;
use stand_in_session::Session;
use std::alloc::{AllocError, Global};
use std::mem;

/// The number of the refusal of an id that no unit has.
const NO_SUCH_UNIT: u8 = 16;

impl Plain {
    /// Edits the stream as the session did.
    pub(super) fn edit(
        &mut self,
        alloc: Global,
        session: &Session,
        change: Change,
    ) -> Result<Answer, AllocError> {
        match self.make(alloc, change)? {
            Ok(id) => {
                self.journaled = self.journaled.saturating_add(1);
                self.fold(alloc, session)?;
                Ok(Answer::Accepted(self.journaled, AuId::new(id), self.changed))
            }
            Err(number) => Ok(Answer::Refused(number)),
        }
    }

    /// Makes an edit, and folds nothing: the id of its unit, or the number of the refusal.
    pub(super) fn make(
        &mut self,
        alloc: Global,
        change: Change,
    ) -> Result<Result<u32, u8>, AllocError> {
        match change {
            Change::First(text) => self.insert(alloc, Some(0), text),
            Change::After(id, text) => self.insert(alloc, self.place_after(id), text),
            Change::Delete(id) => self.delete(id),
            Change::Replace(id, text) => self.replace(alloc, id, text),
        }
    }

    /// The place after the unit of an id.
    fn place_after(&self, id: u32) -> Option<usize> {
        Some(self.place_of(AuId::new(id))?.saturating_add(1))
    }

    /// Inserts a unit at a place: its id, or the number of the refusal.
    fn insert(
        &mut self,
        alloc: Global,
        place: Option<usize>,
        text: usize,
    ) -> Result<Result<u32, u8>, AllocError> {
        let (unit, place) = match (read(alloc, text)?, place) {
            (Ok(unit), Some(place)) => (unit, place.min(self.units.len())),
            (Ok(_), None) => return Ok(Err(NO_SUCH_UNIT)),
            (Err(number), _) => return Ok(Err(number)),
        };
        let id = self.next_id();
        self.texts.push(text)?;
        self.units.insert(place, (AuId::new(id), unit))?;
        self.undoing.push(Change::Delete(id))?;
        Ok(Ok(id))
    }

    /// Deletes a unit.
    fn delete(&mut self, id: u32) -> Result<Result<u32, u8>, AllocError> {
        let (Some(place), Some(text)) = (self.place_of(AuId::new(id)), self.text_of(id)) else {
            return Ok(Err(NO_SUCH_UNIT));
        };
        let insertion = self.insertion(place, text);
        self.undoing.push(insertion)?;
        self.units.retain(|unit| unit.0.number() != id);
        Ok(Ok(id))
    }

    /// The insertion of a text in the place of the unit at a place.
    fn insertion(&self, place: usize, text: usize) -> Change {
        let mut insertion = Change::First(text);
        for (other, unit) in self.units.iter().enumerate() {
            if other < place {
                insertion = Change::After(unit.0.number(), text);
            }
        }
        insertion
    }

    /// Puts another unit in the place of one.
    fn replace(
        &mut self,
        alloc: Global,
        id: u32,
        text: usize,
    ) -> Result<Result<u32, u8>, AllocError> {
        let (unit, place, old) = match (
            read(alloc, text)?,
            self.place_of(AuId::new(id)),
            self.text_of(id),
        ) {
            (Ok(unit), Some(place), Some(old)) => (unit, place, old),
            (Ok(_), _, _) => return Ok(Err(NO_SUCH_UNIT)),
            (Err(number), _, _) => return Ok(Err(number)),
        };
        if let Some(kept) = self.units.get_mut(place) {
            *kept = (AuId::new(id), unit);
        }
        if let Some(kept) = self.texts.get_mut(id.saturating_sub(1) as usize) {
            *kept = text;
        }
        self.undoing.push(Change::Replace(id, old))?;
        Ok(Ok(id))
    }

    /// Folds the stream anew. Held are then the keys in use that were held or cached; those leave
    /// the cache, and then the keys that were held and went out of use are put into it.
    pub(super) fn fold(&mut self, alloc: Global, session: &Session) -> Result<(), AllocError> {
        self.outcomes = scratch(alloc, &self.units)?;
        self.positions = positions(alloc, &self.outcomes)?;
        self.keys = self.seen.keys_of(alloc, &self.units, &self.outcomes)?;
        let rows = rows_of(alloc, &self.units, &self.outcomes, &self.keys)?;
        self.changed = changed(&self.rows, &rows);
        self.rows = rows;
        let mut gone = Vec::new(alloc);
        for tree in mem::replace(&mut self.held, Vec::new(alloc)) {
            match key_with(&self.keys, tree) {
                Some(_) => self.held.push(tree)?,
                None => gone.push(tree)?,
            }
        }
        self.cached
            .leave(alloc, session, &self.keys, &mut self.held)?;
        self.cached.put(alloc, gone)
    }
}

/// The unit of a text, or the number of its refusal.
pub(super) fn read(alloc: Global, text: usize) -> Result<Result<Unit, u8>, AllocError> {
    match read_unit(alloc, text_at(alloc, text)?.as_slice()) {
        Ok(unit) => Ok(Ok(unit)),
        Err(refused) => Ok(Err(refused.number())),
    }
}
