//! What can be seen of a session, compared with the plain model.

use super::plain::Plain;
use super::trees::{Key, Tree, key_at};
use decode_jobs::dep_keys::KeyId;
use h264_types::pictures::AuId;
use stand_in_session::{Last, NoSuchUnit, Session};
use std::alloc::{AllocError, Global};
use unit_outcomes::Outcome;

/// The numbers of the keys in use, and all that were ever seen.
#[derive(Drop)]
pub(super) struct Names {
    pub(super) now: Vec<(Tree, KeyId)>,
    pub(super) seen: Vec<KeyId>,
}

impl Names {
    /// Whether valid units have numbers, equal ones exactly where their keys are equal, each key
    /// that was in use before has its number still, and exactly those numbers are in use.
    pub(super) fn fit(
        &mut self,
        alloc: Global,
        session: &Session,
        keys: &[Key],
    ) -> Result<bool, AllocError> {
        let mut now = Vec::new(alloc);
        for key in keys {
            let Ok(Some(number)) = session.key(key.id) else {
                return Ok(false);
            };
            if !agrees(&now, key.tree, number) || !stays(&self.now, key.tree, number) {
                return Ok(false);
            }
            now.push((key.tree, number))?;
            if !self.seen.contains(&number) {
                self.seen.push(number)?;
            }
        }
        self.now = now;
        Ok(self.are_in_use(session))
    }

    /// Whether of the numbers that were seen exactly those of the keys in use are in use.
    fn are_in_use(&self, session: &Session) -> bool {
        for number in &self.seen {
            if session.in_use(*number) != has_number(&self.now, *number) {
                return false;
            }
        }
        true
    }
}

/// Whether the number is that of the same key, and of no other one.
fn agrees(named: &[(Tree, KeyId)], tree: Tree, number: KeyId) -> bool {
    for (other, given) in named {
        if (*other == tree) != (*given == number) {
            return false;
        }
    }
    true
}

/// Whether the key has the number, if it has one.
fn stays(named: &[(Tree, KeyId)], tree: Tree, number: KeyId) -> bool {
    for (other, given) in named {
        if *other == tree && *given != number {
            return false;
        }
    }
    true
}

/// Whether a key has the number.
fn has_number(named: &[(Tree, KeyId)], number: KeyId) -> bool {
    for (_, given) in named {
        if *given == number {
            return true;
        }
    }
    false
}

/// Whether the session has the model's stream and as long a journal, and tells and shows of each id
/// what the model does, also of 0 and of the next one.
pub(super) fn agree(session: &Session, plain: &Plain) -> bool {
    for number in 0..=plain.next_id() {
        let id = AuId::new(number);
        if !is_told(session, plain, id) || session.show(id) != plain.show(id) {
            return false;
        }
    }
    let last = Last {
        units: plain.units.len(),
        id: plain.units.last().map(|unit| unit.0),
    };
    session.last() == last && session.journal().len() as u64 == plain.journaled
}

/// Whether the session tells of an id what the model does.
fn is_told(session: &Session, plain: &Plain, id: AuId) -> bool {
    let is_placed = session.place(id) == plain.place_of(id);
    match (session.outcome(id), plain.outcome(id)) {
        (Ok(outcome), Some(plan)) => {
            is_placed
                && is_same(outcome, plan)
                && session.position(id) == Ok(plain.position(id))
                && has_key(session, id) == Some(key_at(&plain.keys, Some(id)).is_some())
        }
        (Err(NoSuchUnit), None) => {
            is_placed && session.position(id).is_err() && has_key(session, id).is_none()
        }
        _ => false,
    }
}

/// Whether a unit has a key; nothing where there is no unit.
fn has_key(session: &Session, id: AuId) -> Option<bool> {
    match session.key(id) {
        Ok(key) => Some(key.is_some()),
        Err(NoSuchUnit) => None,
    }
}

/// Whether outcomes are of one kind, with the same counts and as many requests, or with the same
/// fault, or without a picture.
fn is_same(outcome: &Outcome, other: &Outcome) -> bool {
    match (outcome, other) {
        (Outcome::Plan(plan), Outcome::Plan(other)) => {
            plan.counts == other.counts
                && plan.requests.as_slice().len() == other.requests.as_slice().len()
        }
        (Outcome::Fault(fault), Outcome::Fault(other)) => *fault == *other,
        (Outcome::Empty, Outcome::Empty) => true,
        _ => false,
    }
}
