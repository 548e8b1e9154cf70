//! Nodes: a picture's own work, and the keys of the pictures that it is made from.

ghost use Rattle.std.specs.Prelude.{◌≡◌, ◌↔◌, IsTrue, ℕ, List, ◌++◌};
ghost use Rattle.std.specs.Bool.{Decides};
ghost use Rattle.sha2.specs.Hashers.{Holds256};

use crate::dep_keys::key_id::KeyId;
use sha2::Sha256;
use std::marker::Model;

/// A picture's own content.
pub trait Content {
    // The bytes that stand for this content in a fingerprint.
    ghost bytes: { Self → List ℕ };

    /// Whether this is the same content as `other`.
    fn is_same(&self, other: &Self) -> bool
        ensures { IsTrue result ↔ (self.now ≡ other.now) };

    /// Adds the bytes of this content to a hasher. Different content may have the same bytes: then it
    /// shares a fingerprint, which costs time alone.
    fn feed(&self, hasher: &mut Sha256)
        ensures { (message : List ℕ) → Holds256 hasher.old message
            → Holds256 hasher.new (message ++ bytes self.now) };
}

/// A picture's own content, and at each of its list entries, in their order, the key of the picture
/// named or nothing.
#[derive(Debug, Drop)]
pub struct Node<W> {
    content: W,
    entries: Vec<Option<KeyId>>,
}

impl<W> Model for Node<W> {
    ghost use Rattle.decode_jobs.specs.Nodes.{NodeOf, node_code};

    ghost Value = { NodeOf W };

    ghost coded = { node_code W.code };

    ghost view = { λ node. record { content = node.content; entries = node.entries.items } };
}

impl<W> Node<W> {
    /// The node of this content with these entries.
    pub fn new(content: W, entries: Vec<Option<KeyId>>) -> Node<W>
        ensures { result ≡ record { content = content; entries = entries.items } }
    {
        Node { content, entries }
    }

    /// The content.
    pub fn content(&self) -> &W
        ensures { result.now ≡ self.now.content }
    {
        &self.content
    }

    /// The entries, in their order.
    pub fn entries(&self) -> &[Option<KeyId>]
        ensures { result.now ≡ self.now.entries }
    {
        self.entries.as_slice()
    }
}

impl<W: Content> Node<W> {
    /// Whether the two have the same content and the same numbers at their entries.
    pub fn is_same(&self, other: &Node<W>) -> bool
        ensures { IsTrue result ↔ (self.now ≡ other.now) }
    {
        self.content.is_same(&other.content) && are_same(&self.entries, &other.entries)
    }
}

/// Whether the entries are the same, in the same order.
fn are_same(entries: &[Option<KeyId>], others: &[Option<KeyId>]) -> bool
    ensures { Decides result (entries.now ≡ others.now) }
{
    entries == others
}
