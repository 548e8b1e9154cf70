//! The digest of the bytes of a picture's slices.

ghost use Rattle.std.specs.Prelude.{◌≡◌, ◌↔◌, ◌+◌, ◌<◌, ◌^◌, ◌++◌, ℕ, List, length, map, IsTrue};
ghost use Rattle.annexb.specs.ByteStream.{joined};
ghost use Rattle.sha2.specs.Hashers.{Holds256};
ghost use Rattle.picture_keys.specs.Digests.{bytes_of};
ghost use Rattle.picture_keys.specs.SliceBytes.{coded, sized, slices_digest};

use crate::hashed_bytes::HashedBytes;
use access_unit::SharedNal;
use h264_controls::Request;
use sha2::{Digest, Sha256};

/// The SHA-256 of the slices of a picture: of each its bytes, from the start code on, after their
/// number.
#[derive(Clone, Copy, Debug, Drop)]
pub struct SlicesDigest {
    bytes: [u8; 32],
}

impl SlicesDigest {
    /// The digest of these slices, whose bytes are counted as they are hashed, each with its start
    /// code.
    pub fn of(slices: &[SharedNal], hashed: &mut HashedBytes) -> SlicesDigest
        requires { hashed.old + length (joined slices.now) < 2 ^ 64 }
        ensures value { result.bytes ≡ slices_digest (map coded slices.now) }
        ensures counted { hashed.new ≡ hashed.old + length (joined slices.now) }
    {
        let mut hasher = Sha256::new();
        for slice in slices {
            feed(&mut hasher, slice, hashed);
        }
        SlicesDigest {
            bytes: hasher.finalize(),
        }
    }

    /// The digest of the slices of these requests, for keys that aren't those of a stream's units.
    pub fn of_requests(requests: &[Request]) -> SlicesDigest
        ensures { result.bytes ≡ slices_digest (bytes_of requests.now) }
    {
        let mut hasher = Sha256::new();
        for request in requests {
            feed_bytes(&mut hasher, request.bytes().as_slice());
        }
        SlicesDigest {
            bytes: hasher.finalize(),
        }
    }

    /// Its bytes.
    pub fn bytes(&self) -> &[u8; 32]
        ensures { result.now ≡ self.now.bytes }
    {
        &self.bytes
    }

    /// Whether both are the same.
    pub fn is_same(&self, other: &SlicesDigest) -> bool
        ensures { IsTrue result ↔ (self.now.bytes ≡ other.now.bytes) }
    {
        self.bytes == other.bytes
    }
}

/// Adds the bytes of a slice to a hasher, and counts them.
#[tactic(auto, unfolding(crate::specs::SliceBytes::sized))]
fn feed(hasher: &mut Sha256, slice: &SharedNal, hashed: &mut HashedBytes)
    requires { hashed.old + (3 + length slice.now) < 2 ^ 64 }
    ensures fed { (message : List ℕ) → Holds256 hasher.old message
        → Holds256 hasher.new (message ++ sized (coded slice.now)) }
    ensures counted { hashed.new ≡ hashed.old + (3 + length slice.now) }
{
    let nal = slice.nal();
    let bytes = nal.bytes();
    hasher.update((bytes.len() as u64 + 3).to_le_bytes());
    hasher.update([0, 0, 1]);
    hasher.update(bytes);
    hashed.raise(3 + bytes.len());
}

/// Adds the bytes of a slice, from the start code on, to a hasher.
#[tactic(auto, unfolding(crate::specs::SliceBytes::sized))]
fn feed_bytes(hasher: &mut Sha256, bytes: &[u8])
    ensures { (message : List ℕ) → Holds256 hasher.old message
        → Holds256 hasher.new (message ++ sized bytes.now) }
{
    hasher.update((bytes.len() as u64).to_le_bytes());
    hasher.update(bytes);
}
