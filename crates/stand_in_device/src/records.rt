//! The records of which a picture is the digest.

ghost use Rattle.std.specs.Prelude.{◌≡◌, ◌++◌, ℕ, List, replicate, slice_get};
ghost use Rattle.std.specs.List.{flat_map};
ghost use Rattle.sha2.specs.Hashers.{Holds256};
ghost use Rattle.decode_jobs.specs.Inputs.{entries_of};
ghost use Rattle.stand_in_device.specs.Pictures.{entry_bytes, picture_bytes, size_bytes};

use crate::job::Reference;
use crate::picture::Picture;
use decode_jobs::picture_of_frame;
use h264_controls::{Controls, References};
use sha2::{Digest, Sha256};

/// Feeds the bytes of a slice after their number.
#[tactic(auto, unfolding(crate::specs::Pictures::size_bytes))]
pub(crate) fn feed_bytes(hasher: &mut Sha256, bytes: &[u8])
    ensures { (m : List ℕ) → Holds256 hasher.old m
        → Holds256 hasher.new (m ++ size_bytes bytes.now ++ bytes.now) }
{
    hasher.update((bytes.len() as u64).to_le_bytes());
    hasher.update(bytes);
}

/// Feeds the pictures of the frames that both lists of a slice name.
pub(crate) fn feed_references(
    hasher: &mut Sha256,
    references: &[Reference],
    units: &References,
    controls: &Controls,
)
    ensures { (m : List ℕ) → Holds256 hasher.old m
        → Holds256 hasher.new (m ++ flat_map (entry_bytes references.now units.now)
        (entries_of controls.now)) }
{
    feed_list(
        hasher,
        references,
        units,
        controls.slice_params.ref_pic_list0.entries(),
    );
    feed_list(
        hasher,
        references,
        units,
        controls.slice_params.ref_pic_list1.entries(),
    );
}

/// Feeds the pictures of the frames that a list names.
fn feed_list(
    hasher: &mut Sha256,
    references: &[Reference],
    units: &References,
    entries: &[Option<u8>],
)
    ensures { (m : List ℕ) → Holds256 hasher.old m
        → Holds256 hasher.new (m ++ flat_map (entry_bytes references.now units.now) entries.now) }
{
    for entry in entries {
        feed_entry(hasher, references, units, *entry);
    }
}

/// Feeds the picture of the frame that an entry names, or zeros.
fn feed_entry(hasher: &mut Sha256, references: &[Reference], units: &References, entry: Option<u8>)
    ensures { (m : List ℕ) → Holds256 hasher.old m
        → Holds256 hasher.new (m ++ entry_bytes references.now units.now entry) }
{
    hasher.update(entry_bytes(references, units, entry));
}

/// The picture of the frame that an entry names; zeros for a missing entry.
fn entry_bytes(references: &[Reference], units: &References, entry: Option<u8>) -> [u8; 32]
    ensures { result ≡ entry_bytes references.now units.now entry }
{
    match entry {
        None => [0; 32],
        Some(index) => picture_bytes(picture_of_frame(references, units.get(index))),
    }
}

/// The bytes of a picture, or as many zeros where there is none.
fn picture_bytes(picture: Option<Picture>) -> [u8; 32]
    ensures { result ≡ picture_bytes picture }
{
    match picture {
        None => [0; 32],
        Some(picture) => picture.digest,
    }
}
