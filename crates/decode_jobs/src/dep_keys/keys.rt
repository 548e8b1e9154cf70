//! Keys under numbers.

ghost use Rattle.std.specs.Prelude.{◌≡◌, ◌↔◌, ℕ, [], ◌∷◌, ◌++◌, length, ◌==◌, Some, None, IsTrue, IsSome, IfOk, OnOk, OnErr, MatchOption};
ghost use Rattle.decode_jobs.specs.KeyMaps.{tree_at, tree_of, AreLive, AreLiveBelow, Extends, IsKeyMap, IsNew, IsNodeOf};
ghost use Rattle.decode_jobs.specs.Interning.{IsInterned};
ghost use Rattle.decode_jobs.specs.Sweeping.{IsSwept};

use crate::dep_keys::fingerprint::{Fingerprint, Sha256Fingerprint};
use crate::dep_keys::index::Index;
use crate::dep_keys::key_id::KeyId;
use crate::dep_keys::marks::needed;
use crate::dep_keys::node::{Content, Node};
use crate::dep_keys::numbers::Numbers;
use crate::dep_keys::slots::{add, find, index_of, keep_marked};
use std::alloc::{AllocError, Global};
use std::marker::Model;

/// Keys of pictures under numbers: equal numbers exactly for equal keys.
///
/// A key is the tree of a picture's own content and, at each of its list entries, the key of the
/// picture named. It is kept as one node, which names the keys of its entries by their numbers.
/// Clauses see the live numbers with their trees.
#[derive(Debug)]
pub struct Keys<W, F: Fingerprint<W>> {
    alloc: Global,
    slots: Vec<(KeyId, Node<W>)>,
    numbers: Numbers,
    index: Index,
    fingerprint: F,
}

// By hand, so that whoever drops one is proved over one call.
impl<W: Drop, F: Fingerprint<W> + Drop> Drop for Keys<W, F> {
    fn drop(self) {
        let Keys {
            alloc: _,
            slots: _,
            numbers: _,
            index: _,
            fingerprint: _,
        } = self;
    }
}

impl<W, F: Fingerprint<W>> Model for Keys<W, F> {
    ghost use Rattle.decode_jobs.specs.KeyMaps.{KeyMap, map_code};

    ghost Value = { KeyMap W };

    ghost coded = { map_code W.code };

    ghost use Rattle.std.specs.Prelude.{[]};
    ghost use Rattle.decode_jobs.specs.Built.{grown_by, AreKept};

    ghost view = { λ keys. grown_by [] keys.slots.items };

    ghost invariant = { λ keys. AreKept F.digest keys.slots.items keys.numbers keys.index };
}

impl<W: Content + Drop> Keys<W, Sha256Fingerprint> {
    /// No key, with nodes found by their SHA-256.
    pub fn new(alloc: Global) -> Keys<W, Sha256Fingerprint>
        ensures { result ≡ [] }
    {
        Keys::with(alloc, Sha256Fingerprint)
    }
}

impl<W: Content + Drop, F: Fingerprint<W>> Keys<W, F> {
    /// No key, with nodes found by this fingerprint.
    pub fn with(alloc: Global, fingerprint: F) -> Keys<W, F>
        ensures { result ≡ [] }
    {
        Keys {
            alloc,
            slots: Vec::new(alloc),
            numbers: Numbers::new(alloc),
            index: Index::new(alloc),
            fingerprint,
        }
    }

    /// How many keys are live.
    pub fn len(&self) -> usize
        ensures { result ≡ length self.now }
    {
        self.slots.len()
    }

    /// Whether no key is live.
    pub fn is_empty(&self) -> bool
        ensures { result ≡ (length self.now == 0) }
    {
        self.len() == 0
    }

    /// Whether a number is a live key's.
    pub fn is_live(&self, key: KeyId) -> bool
        ensures { IsTrue result ↔ IsSome (tree_at self.now key) }
    {
        self.node(key).is_some()
    }

    /// The node of a live key.
    pub fn node(&self, key: KeyId) -> Option<&Node<W>>
        ensures { MatchOption result (tree_at self.now key ≡ None)
            (λ node. IsNodeOf self.now key node.now) }
    {
        match self.numbers.place(key.number() as usize) {
            Some(place) => Some(&self.slots[place].1),
            None => None,
        }
    }

    /// Whether each of the entries names a live key or nothing.
    pub fn are_live(&self, entries: &[Option<KeyId>]) -> bool
        ensures { IsTrue result ↔ AreLive self.now entries.now }
    {
        for entry in entries {
            if let Some(key) = entry
                && !self.is_live(*key)
            {
                return false;
            }
        }
        true
    }

    /// The number of a node's key: where the key has none yet, the least one that isn't live.
    pub fn intern(&mut self, node: Node<W>) -> Result<KeyId, AllocError>
        requires { AreLive self.old node.entries }
        ensures stay { Extends self.old self.new }
        ensures ok { IfOk result (λ key. IsInterned self.old (tree_of self.old node) key self.new) }
        ensures least { IfOk result (λ key. IsNew self.old (tree_of self.old node)
            → AreLiveBelow self.old key) }
        ensures map { IsKeyMap self.new }
        ensures err { OnErr result (self.new ≡ self.old) }
    {
        let fingerprint = self.fingerprint.of(&node)?;
        match find(&self.slots, &self.index, &fingerprint, &node) {
            Some(key) => Ok(key),
            None => {
                let key = add(
                    &mut self.slots,
                    &mut self.numbers,
                    &mut self.index,
                    fingerprint,
                    node,
                )?;
                Ok(key)
            }
        }
    }

    /// Keeps the keys of the roots that are live and of all below them. The numbers of the others
    /// may be given again.
    pub fn sweep(&mut self, roots: &[KeyId]) -> Result<(), AllocError>
        ensures ok { OnOk result (IsSwept self.old roots.now self.new) }
        ensures map { IsKeyMap self.new }
        ensures err { OnErr result (self.new ≡ self.old) }
    {
        let marks = needed(self.alloc, &self.slots, self.numbers.bound(), roots)?;
        let index = index_of::<W, F>(self.alloc, &self.slots, &self.index, &marks)?;
        self.numbers.keep(&marks)?;
        self.index = index;
        keep_marked(&mut self.slots, &marks);
        Ok(())
    }
}
