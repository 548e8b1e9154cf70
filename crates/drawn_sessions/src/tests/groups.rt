//! Groups of edits of the plain model.

use super::edits::read;
use super::plain::Plain;
use super::told::{Answer, Change, EditGroup, MOST_TOGETHER};
use access_unit::Unit;
use h264_types::pictures::AuId;
use stand_in_session::Session;
use std::alloc::{AllocError, Global};

/// What edits change, with the ids of the stream's units in the units' stead.
#[derive(Drop)]
struct Before {
    ids: Vec<AuId>,
    texts: Vec<usize>,
    undoing: Vec<Change>,
}

impl Plain {
    /// Makes edits one after the other and folds the stream once, as the session did. Where one is
    /// refused, all is as it was.
    pub(super) fn edit_group(
        &mut self,
        alloc: Global,
        session: &Session,
        group: EditGroup,
    ) -> Result<Answer, AllocError> {
        let before = self.before(alloc)?;
        match self.make_all(alloc, group)? {
            Ok(ids) => {
                self.journaled = self.journaled.saturating_add(1);
                self.fold(alloc, session)?;
                Ok(Answer::Grouped(self.journaled, ids, self.changed))
            }
            Err((index, number)) => {
                self.go_back(alloc, before)?;
                Ok(Answer::GroupRefused(index, number))
            }
        }
    }

    /// Makes the edits: their ids, or the index of the first that is refused, and the number of the
    /// refusal.
    fn make_all(
        &mut self,
        alloc: Global,
        group: EditGroup,
    ) -> Result<Result<[u32; MOST_TOGETHER], (usize, u8)>, AllocError> {
        let mut ids = [0; MOST_TOGETHER];
        for (index, change) in group.changes().iter().enumerate() {
            match self.make(alloc, *change)? {
                Ok(id) => {
                    if let Some(place) = ids.get_mut(index) {
                        *place = id;
                    }
                }
                Err(number) => return Ok(Err((index, number))),
            }
        }
        Ok(Ok(ids))
    }

    /// What edits change, as it is.
    fn before(&self, alloc: Global) -> Result<Before, AllocError> {
        let mut ids = Vec::new(alloc);
        for unit in &self.units {
            ids.push(unit.0)?;
        }
        Ok(Before {
            ids,
            texts: Vec::from_slice(alloc, &self.texts)?,
            undoing: Vec::from_slice(alloc, &self.undoing)?,
        })
    }

    /// Has all as it was again: the units are read anew.
    fn go_back(&mut self, alloc: Global, before: Before) -> Result<(), AllocError> {
        let Before {
            ids,
            texts,
            undoing,
        } = before;
        self.texts = texts;
        self.undoing = undoing;
        self.units = self.units_of(alloc, &ids)?;
        Ok(())
    }

    /// The units of these ids, each read from its text.
    fn units_of(&self, alloc: Global, ids: &[AuId]) -> Result<Vec<(AuId, Unit)>, AllocError> {
        let mut units = Vec::new(alloc);
        for id in ids {
            if let Some(text) = self.text_of(id.number())
                && let Ok(unit) = read(alloc, text)?
            {
                units.push((*id, unit))?;
            }
        }
        Ok(units)
    }
}
