//! Nodes under their numbers, one after the other.

ghost use Rattle.std.specs.Prelude.{◌≡◌, ℕ, ◌≤◌, [], ◌∷◌, ◌++◌, length, map, IfOk, OnErr};
ghost use Rattle.std.specs.List.{filter};
ghost use Rattle.decode_jobs.specs.Marks.{is_marked};
ghost use Rattle.decode_jobs.specs.Built.{IsFound};
ghost use Rattle.decode_jobs.specs.Placed.{IsLeastUnused};

use crate::dep_keys::fingerprint::Fingerprint;
use crate::dep_keys::index::Index;
use crate::dep_keys::key_id::KeyId;
use crate::dep_keys::marks::is_marked;
use crate::dep_keys::node::{Content, Node};
use crate::dep_keys::numbers::Numbers;
use std::alloc::{AllocError, Global};

/// The number of a node, looked for among those of its fingerprint.
pub(crate) fn find<W: Content>(
    slots: &[(KeyId, Node<W>)],
    index: &Index,
    fingerprint: &[u8; 32],
    node: &Node<W>,
) -> Option<KeyId>
    requires { length index.now ≡ length slots.now }
    ensures { IsFound slots.now index.now fingerprint.now node.now result }
{
    let mut candidate = index.newest(fingerprint);
    while let Some(place) = candidate {
        let slot = &slots[place];
        if slot.1.is_same(node) {
            return Some(slot.0);
        }
        candidate = index.older(place);
    }
    None
}

/// Adds a node under the least number that is not live.
pub(crate) fn add<W: Drop>(
    slots: &mut Vec<(KeyId, Node<W>)>,
    numbers: &mut Numbers,
    index: &mut Index,
    fingerprint: [u8; 32],
    node: Node<W>,
) -> Result<KeyId, AllocError>
    ensures least { IfOk result (IsLeastUnused numbers.old) }
    ensures slots { IfOk result (λ key. slots.new.items ≡ slots.old.items ++ (key, node) ∷ []) }
    ensures numbers { IfOk result (λ key. numbers.new ≡ numbers.old ++ key ∷ []) }
    ensures index { IfOk result (λ _. index.new ≡ index.old ++ fingerprint ∷ []) }
    ensures err { OnErr result ((slots.new.items ≡ slots.old.items)
        × (numbers.new ≡ numbers.old) × (index.new ≡ index.old)) }
{
    slots.reserve(1)?;
    let number = numbers.give(index, fingerprint)?;
    let key = KeyId::new(number as u64);
    slots.push_reserved((key, node));
    Ok(key)
}

/// The fingerprints of the nodes whose numbers are marked.
pub(crate) fn index_of<W, F: Fingerprint<W>>(
    alloc: Global,
    slots: &[(KeyId, Node<W>)],
    index: &Index,
    marks: &[bool],
) -> Result<Index, AllocError>
    requires { index.now ≡ map (λ slot. F.digest slot.1) slots.now }
    ensures { IfOk result (λ left. left
        ≡ map (λ slot. F.digest slot.1) (filter (λ slot. is_marked marks.now slot.0) slots.now)) }
{
    let mut left = Index::new(alloc);
    for (place, slot) in slots.iter().enumerate() {
        if is_marked(marks, slot.0.number() as usize) {
            left.add(index.fingerprint(place))?;
        }
    }
    Ok(left)
}

/// Keeps the nodes whose numbers are marked.
pub(crate) fn keep_marked<W: Drop>(slots: &mut Vec<(KeyId, Node<W>)>, marks: &[bool])
    ensures { slots.new.items ≡ filter (λ slot. is_marked marks.now slot.0) slots.old.items }
{
    slots.retain(|slot| is_marked(marks, slot.0.number() as usize));
}
