//! Fingerprints, by which nodes that may be equal are found.

ghost use Rattle.std.specs.Prelude.{◌≡◌, ℕ, List, ◌++◌, IfOk};
ghost use Rattle.decode_jobs.specs.Nodes.{NodeOf};
ghost use Rattle.decode_jobs.specs.Messages.{entry_bytes, message};
ghost use Rattle.sha2.specs.Hashers.{Holds256};
ghost use Rattle.sha2.specs.Sha256.{sha256};

use crate::dep_keys::key_id::KeyId;
use crate::dep_keys::node::{Content, Node};
use sha2::{Digest, Sha256};
use std::alloc::AllocError;

/// 32 bytes that are one function of a node's value. Nodes of one fingerprint are compared; others
/// are not.
pub trait Fingerprint<W> {
    // The fingerprint of a node: one function for the type.
    ghost digest: { NodeOf W → List ℕ };

    /// The node's fingerprint, or lack of memory.
    fn of(&mut self, node: &Node<W>) -> Result<[u8; 32], AllocError>
        ensures { IfOk result (λ fingerprint. fingerprint ≡ digest node.now) };
}

/// The SHA-256 of the entries and of the bytes of the content.
#[derive(Clone, Copy, Debug, Drop)]
pub struct Sha256Fingerprint;

impl<W: Content> Fingerprint<W> for Sha256Fingerprint {
    ghost digest = { λ node. sha256 (message node.entries (W.bytes node.content)) };

    fn of(&mut self, node: &Node<W>) -> Result<[u8; 32], AllocError> {
        let mut hasher = Sha256::new();
        for entry in node.entries() {
            feed_entry(&mut hasher, *entry);
        }
        node.content().feed(&mut hasher);
        Ok(hasher.finalize())
    }
}

/// Adds the bytes of an entry to a hasher.
fn feed_entry(hasher: &mut Sha256, entry: Option<KeyId>)
    ensures { (before : List ℕ) → Holds256 hasher.old before
        → Holds256 hasher.new (before ++ entry_bytes entry) }
{
    match entry {
        None => hasher.update([0]),
        Some(key) => {
            let mut bytes = [1; 9];
            bytes[1..].copy_from_slice(&key.number().to_le_bytes());
            hasher.update(bytes);
        }
    }
}
