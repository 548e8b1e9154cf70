//! The plain model of a session: lists, and whole trees.

use super::cached::Cached;
use super::changes::Row;
use super::jobs::Given;
use super::told::{Answer, Change, Told};
use super::trees::{Key, Seen, Tree, key_at};
use access_unit::Unit;
use h264_types::pictures::AuId;
use stand_in_session::{Changed, Session, Shown};
use std::alloc::{AllocError, Global};
use unit_outcomes::Outcome;

/// A stream under edits, the outcomes of its units, and of their pictures.
#[derive(Drop)]
pub(super) struct Plain {
    pub(super) units: Vec<(AuId, Unit)>,
    /// The outcomes of the units, folded anew after each edit, with the keys of the valid ones.
    pub(super) outcomes: Vec<Outcome>,
    pub(super) positions: Vec<Option<usize>>,
    pub(super) seen: Seen,
    pub(super) keys: Vec<Key>,
    pub(super) held: Vec<Tree>,
    pub(super) cached: Cached,
    /// All jobs that were given, and the numbers of those that are out.
    pub(super) given: Vec<Given>,
    pub(super) out: Vec<u64>,
    /// How many jobs were taken for a unit while an earlier one of the stream was due.
    pub(super) jumped: u32,
    /// The text of each id that was given, as a place of the pool.
    pub(super) texts: Vec<usize>,
    /// For each accepted edit, also of a group, the one that undoes it.
    pub(super) undoing: Vec<Change>,
    /// How many entries the journal has: an accepted group is one.
    pub(super) journaled: u64,
    /// The units as they are compared, and those that the last accepted edit or group changed.
    pub(super) rows: Vec<Row>,
    pub(super) changed: Changed,
}

impl Plain {
    /// An empty stream, with room for so many pictures in the cache.
    pub(super) fn new(alloc: Global, capacity: u16) -> Plain {
        Plain {
            units: Vec::new(alloc),
            outcomes: Vec::new(alloc),
            positions: Vec::new(alloc),
            seen: Seen {
                bodies: Vec::new(alloc),
                trees: Vec::new(alloc),
            },
            keys: Vec::new(alloc),
            held: Vec::new(alloc),
            cached: Cached::new(alloc, usize::from(capacity)),
            given: Vec::new(alloc),
            out: Vec::new(alloc),
            jumped: 0,
            texts: Vec::new(alloc),
            undoing: Vec::new(alloc),
            journaled: 0,
            rows: Vec::new(alloc),
            changed: Changed { from: 0, count: 0 },
        }
    }

    /// Follows a command that the session has followed.
    pub(super) fn follow(
        &mut self,
        alloc: Global,
        session: &Session,
        told: Told,
    ) -> Result<Answer, AllocError> {
        match told {
            Told::Edit(change) => self.edit(alloc, session, change),
            Told::Group(group) => self.edit_group(alloc, session, group),
            Told::Take => self.take(alloc),
            Told::TakeFor(id) => self.take_for(alloc, AuId::new(id)),
            Told::Land(number, of) => Ok(Answer::Landed(self.land(number, of)?)),
            Told::Give(number, of) => Ok(Answer::GivenBack(self.give_back(number, of))),
            Told::Drop(id) => Ok(Answer::Dropped(self.drop_picture(AuId::new(id)))),
            Told::ClearCache => {
                self.cached.clear();
                Ok(Answer::Cleared)
            }
        }
    }

    /// The place of the unit of an id.
    pub(super) fn place_of(&self, id: AuId) -> Option<usize> {
        self.units.iter().position(|unit| unit.0 == id)
    }

    /// The outcome of the unit of an id.
    pub(super) fn outcome(&self, id: AuId) -> Option<&Outcome> {
        self.outcomes.get(self.place_of(id)?)
    }

    /// Whether a unit has no picture.
    pub(super) fn has_empty(&self) -> bool {
        for outcome in &self.outcomes {
            if matches!(outcome, Outcome::Empty) {
                return true;
            }
        }
        false
    }

    /// The position of the unit of an id.
    pub(super) fn position(&self, id: AuId) -> Option<usize> {
        *self.positions.get(self.place_of(id)?)?
    }

    /// What is shown of the unit of an id.
    pub(super) fn show(&self, id: AuId) -> Shown {
        match (self.outcome(id), key_at(&self.keys, Some(id))) {
            (Some(Outcome::Fault(fault)), _) => Shown::Fault(*fault),
            (Some(Outcome::Empty), _) => Shown::Empty,
            (Some(Outcome::Plan(_)), Some(key)) => self.show_key(key.tree),
            (Some(Outcome::Plan(_)), None) => Shown::Pending,
            (None, _) => Shown::NoSuchUnit,
        }
    }

    /// What is shown of a unit with this key.
    fn show_key(&self, tree: Tree) -> Shown {
        match self.picture(tree) {
            Some(picture) if self.held.contains(&tree) => Shown::Ready(picture),
            _ => Shown::Pending,
        }
    }

    /// The number of the next id.
    pub(super) fn next_id(&self) -> u32 {
        u32::try_from(self.texts.len())
            .unwrap_or(u32::MAX)
            .saturating_add(1)
    }

    /// The text that the unit of an id has or had last.
    pub(super) fn text_of(&self, id: u32) -> Option<usize> {
        self.texts.get(id.checked_sub(1)? as usize).copied()
    }
}
