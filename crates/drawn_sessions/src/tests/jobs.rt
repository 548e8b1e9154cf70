//! Jobs of the plain model.

use super::plain::Plain;
use super::told::Answer;
use super::trees::{Key, Tree, key_at, key_with, named};
use h264_controls::{Request, digest_form};
use h264_types::pictures::AuId;
use sha2::{Digest, Sha256};
use stand_in_device::{Input, Reference};
use stand_in_session::{Landing, Picture, Returning};
use std::alloc::{AllocError, Global};
use unit_outcomes::Outcome;

/// A job that was given: its key, what it was given to decode, and the picture of that.
#[derive(Drop)]
pub(super) struct Given {
    tree: Tree,
    pub(super) input: Input,
    picture: Picture,
}

impl Plain {
    /// Gives the job of the earliest unit whose key is due, under the next number.
    pub(super) fn take(&mut self, alloc: Global) -> Result<Answer, AllocError> {
        let due = self.first_due(alloc, &self.keys)?;
        self.give(alloc, due)
    }

    /// Gives the job of a unit with this key under the next number, if there is one.
    pub(super) fn give(&mut self, alloc: Global, due: Option<Key>) -> Result<Answer, AllocError> {
        let Some(Key { id, tree }) = due else {
            return Ok(Answer::NotTaken);
        };
        let given = self.given_of(alloc, id, tree)?;
        self.given.push(given)?;
        let number = self.jobs();
        self.out.push(number)?;
        Ok(Answer::Taken(number, id.timestamp()))
    }

    /// The job of a unit with this key.
    fn given_of(&self, alloc: Global, id: AuId, tree: Tree) -> Result<Given, AllocError> {
        let requests = self.requests_of(id);
        Ok(Given {
            tree,
            input: self.input_of(alloc, requests)?,
            picture: self.made(alloc, tree, requests)?,
        })
    }

    /// The picture of a key: that which was made before, or that of its requests.
    fn made(&self, alloc: Global, tree: Tree, requests: &[Request]) -> Result<Picture, AllocError> {
        match self.picture(tree) {
            Some(picture) => Ok(picture),
            None => self.picture_of(alloc, requests),
        }
    }

    /// The first of these keys that is due.
    pub(super) fn first_due(&self, alloc: Global, keys: &[Key]) -> Result<Option<Key>, AllocError> {
        for key in keys {
            if self.is_due(alloc, *key)? {
                return Ok(Some(*key));
            }
        }
        Ok(None)
    }

    /// Whether a key isn't held and isn't out, and each key at its entries is held.
    fn is_due(&self, alloc: Global, key: Key) -> Result<bool, AllocError> {
        if self.held.contains(&key.tree) || self.is_out(key.tree) {
            return Ok(false);
        }
        for request in self.requests_of(key.id) {
            if !self.are_held(&named(alloc, request)?) {
                return Ok(false);
            }
        }
        Ok(true)
    }

    /// The requests of the unit of an id.
    pub(super) fn requests_of(&self, id: AuId) -> &[Request] {
        match self.outcome(id) {
            Some(Outcome::Plan(plan)) => plan.requests.as_slice(),
            _ => &[],
        }
    }

    /// Whether the key is that of a job that is out.
    fn is_out(&self, tree: Tree) -> bool {
        for number in &self.out {
            if let Some(given) = self.given(*number)
                && given.tree == tree
            {
                return true;
            }
        }
        false
    }

    /// Whether the keys of the units that are named are held.
    fn are_held(&self, units: &[Option<AuId>]) -> bool {
        for unit in units {
            if let Some(key) = key_at(&self.keys, *unit)
                && !self.held.contains(&key.tree)
            {
                return false;
            }
        }
        true
    }

    /// The requests, with the pictures of the units that they name, each once, in the order of the
    /// decoded picture buffer.
    fn input_of(&self, alloc: Global, requests: &[Request]) -> Result<Input, AllocError> {
        let (mut copies, mut names) = (Vec::new(alloc), Vec::new(alloc));
        for request in requests {
            copies.push(request.copy()?)?;
            names.extend_from_slice(&named(alloc, request)?)?;
        }
        let mut references = Vec::new(alloc);
        for request in requests {
            self.add(&mut references, request.references.as_slice(), &names)?;
        }
        Ok(Input::new(copies, references))
    }

    /// Adds the pictures of those frames of a decoded picture buffer that are named.
    fn add(
        &self,
        references: &mut Vec<Reference>,
        frames: &[AuId],
        names: &[Option<AuId>],
    ) -> Result<(), AllocError> {
        for frame in frames {
            if names.contains(&Some(*frame))
                && let Some(reference) = self.reference(Some(*frame))
                && !references.iter().any(|there| is_same(there, &reference))
            {
                references.push(reference)?;
            }
        }
        Ok(())
    }

    /// The picture of the unit that is named, as a reference.
    fn reference(&self, unit: Option<AuId>) -> Option<Reference> {
        let timestamp = unit?.timestamp();
        let picture = self.picture_at(unit)?;
        Some(Reference { timestamp, picture })
    }

    /// The picture of the unit that is named, if it was given to decode.
    fn picture_at(&self, unit: Option<AuId>) -> Option<Picture> {
        self.picture(key_at(&self.keys, unit)?.tree)
    }

    /// The picture of a key, if it was given to decode.
    pub(super) fn picture(&self, tree: Tree) -> Option<Picture> {
        for given in &self.given {
            if given.tree == tree {
                return Some(given.picture);
            }
        }
        None
    }

    /// The SHA-256 of the records of requests: of each the digest form of its controls, the number
    /// of its bytes, the bytes, and the pictures of the units that it names, zeros for none.
    fn picture_of(&self, alloc: Global, requests: &[Request]) -> Result<Picture, AllocError> {
        let mut records = Sha256::new();
        for request in requests {
            let mut form = Vec::new(alloc);
            digest_form(request.controls(), &mut form)?;
            records.update(form.as_slice());
            records.update((request.bytes().len() as u64).to_le_bytes());
            records.update(request.bytes().as_slice());
            self.feed(&mut records, &named(alloc, request)?);
        }
        Ok(Picture {
            digest: records.finalize(),
        })
    }

    /// Feeds the pictures of units.
    fn feed(&self, records: &mut Sha256, units: &[Option<AuId>]) {
        for unit in units {
            records.update(match self.picture_at(*unit) {
                Some(picture) => picture.digest,
                None => [0; 32],
            });
        }
    }

    /// How many jobs were given.
    pub(super) fn jobs(&self) -> u64 {
        self.given.len() as u64
    }

    /// The job that was given under a number.
    pub(super) fn given(&self, number: u64) -> Option<&Given> {
        self.given.get(number.checked_sub(1)? as usize)
    }

    /// Takes the result of what a job was given to decode under a number.
    pub(super) fn land(&mut self, number: u64, of: u64) -> Result<Landing, AllocError> {
        let Some(tree) = self.leave(number, of) else {
            return Ok(Landing::Foreign);
        };
        if key_with(&self.keys, tree).is_none() || self.held.contains(&tree) {
            return Ok(Landing::Stale);
        }
        self.held.push(tree)?;
        Ok(Landing::Taken)
    }

    /// Takes back what a job was given to decode under a number.
    pub(super) fn give_back(&mut self, number: u64, of: u64) -> Returning {
        match self.leave(number, of) {
            Some(_) => Returning::Returned,
            None => Returning::Foreign,
        }
    }

    /// Where a job of this number is out that was given the same as that one, it's out no more: its
    /// key.
    fn leave(&mut self, number: u64, of: u64) -> Option<Tree> {
        let (job, brought) = (self.given(number)?, self.given(of)?);
        if !self.out.contains(&number) || !job.input.is_same(&brought.input) {
            return None;
        }
        let tree = job.tree;
        self.out.retain(|out| *out != number);
        Some(tree)
    }
}

/// Whether these refer to the same picture.
fn is_same(one: &Reference, other: &Reference) -> bool {
    one.timestamp == other.timestamp && one.picture == other.picture
}
