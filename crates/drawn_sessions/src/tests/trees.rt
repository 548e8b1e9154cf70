//! Keys as whole trees, each written out once.

use access_unit::Unit;
use h264_controls::{Request, RequestBody};
use h264_types::base::Shared;
use h264_types::pictures::AuId;
use std::alloc::{AllocError, Global};
use unit_outcomes::Outcome;

/// A tree, by its place among those that were seen: equal trees have one place.
#[derive(Clone, Copy, PartialEq, Eq)]
pub(super) struct Tree {
    place: usize,
}

/// The key of a valid unit.
#[derive(Clone, Copy)]
pub(super) struct Key {
    pub(super) id: AuId,
    pub(super) tree: Tree,
}

/// The bodies and the trees that were seen, each once. A body's number is its place. A tree is
/// written out whole: for each slice the number of its body, and for each entry of its lists a 0,
/// or a 1 and the whole tree of the frame that is named.
#[derive(Drop)]
pub(super) struct Seen {
    pub(super) bodies: Vec<Shared<RequestBody>>,
    pub(super) trees: Vec<Vec<u8>>,
}

impl Seen {
    /// The keys of the valid ones of these units, in order.
    pub(super) fn keys_of(
        &mut self,
        alloc: Global,
        units: &[(AuId, Unit)],
        outcomes: &[Outcome],
    ) -> Result<Vec<Key>, AllocError> {
        let mut keys = Vec::new(alloc);
        for (unit, outcome) in units.iter().zip(outcomes) {
            if let Outcome::Plan(plan) = outcome {
                let tree = self.tree_of(alloc, &keys, plan.requests.as_slice())?;
                keys.push(Key { id: unit.0, tree })?;
            }
        }
        Ok(keys)
    }

    /// The tree of the unit with these requests, after those with these keys.
    fn tree_of(
        &mut self,
        alloc: Global,
        before: &[Key],
        requests: &[Request],
    ) -> Result<Tree, AllocError> {
        let mut text = Vec::new(alloc);
        for request in requests {
            text.extend_from_slice(&self.number_of(&request.body)?.to_le_bytes())?;
            self.write_entries(&mut text, before, &named(alloc, request)?)?;
        }
        self.tree_with(text)
    }

    /// Writes the trees of the units that are named.
    fn write_entries(
        &self,
        text: &mut Vec<u8>,
        before: &[Key],
        units: &[Option<AuId>],
    ) -> Result<(), AllocError> {
        for unit in units {
            match key_at(before, *unit) {
                Some(key) => {
                    text.push(1)?;
                    text.extend_from_slice(self.text_of(key.tree))?;
                }
                None => text.push(0)?,
            }
        }
        Ok(())
    }

    /// How a tree is written.
    fn text_of(&self, tree: Tree) -> &[u8] {
        match self.trees.get(tree.place) {
            Some(text) => text.as_slice(),
            None => &[],
        }
    }

    /// The tree that is written so.
    fn tree_with(&mut self, text: Vec<u8>) -> Result<Tree, AllocError> {
        for (place, other) in self.trees.iter().enumerate() {
            if other.as_slice() == text.as_slice() {
                return Ok(Tree { place });
            }
        }
        let place = self.trees.len();
        self.trees.push(text)?;
        Ok(Tree { place })
    }

    /// The number of a body.
    fn number_of(&mut self, body: &Shared<RequestBody>) -> Result<u64, AllocError> {
        for (number, other) in self.bodies.iter().enumerate() {
            if other.is_same(body) {
                return Ok(number as u64);
            }
        }
        self.bodies.push(body.clone()?)?;
        Ok((self.bodies.len() as u64).saturating_sub(1))
    }
}

/// The units that the entries of both lists of a slice name.
pub(super) fn named(alloc: Global, request: &Request) -> Result<Vec<Option<AuId>>, AllocError> {
    let mut units = Vec::new(alloc);
    let params = &request.controls().slice_params;
    for list in [&params.ref_pic_list0, &params.ref_pic_list1] {
        for entry in list.entries() {
            units.push(unit_of(request, *entry))?;
        }
    }
    Ok(units)
}

/// The unit that an entry names.
fn unit_of(request: &Request, entry: Option<u8>) -> Option<AuId> {
    request.reference(entry?)
}

/// The key of the unit of an id.
pub(super) fn key_at(keys: &[Key], id: Option<AuId>) -> Option<Key> {
    for key in keys {
        if Some(key.id) == id {
            return Some(*key);
        }
    }
    None
}

/// The first key with the tree.
pub(super) fn key_with(keys: &[Key], tree: Tree) -> Option<Key> {
    for key in keys {
        if key.tree == tree {
            return Some(*key);
        }
    }
    None
}
