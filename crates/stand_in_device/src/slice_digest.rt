//! The work on a slice: its record is added to the digest of its frame.
//!
//! The front of a record is what the parameter sets decide. What a hasher holds goes on from all
//! that was fed before, so only the prefix of a frame's first record is the prefix of a message:
//! while the sets stay the same its hasher is copied. For the other records its bytes are.

ghost use Rattle.std.specs.Prelude.{◌≡◌, ◌++◌, ℕ, List, [], IfOk, OnOk};
ghost use Rattle.std.specs.List.{flat_map};
ghost use Rattle.sha2.specs.Hashers.{Holds256};
ghost use Rattle.sha2.specs.Sha256.{sha256};
ghost use Rattle.param_set_controls.specs.SetsForm.{sets_form};
ghost use Rattle.decode_jobs.specs.Inputs.{entries_of};
ghost use Rattle.stand_in_device.specs.Pictures.{entry_bytes, size_bytes, slice_record};
ghost use Rattle.stand_in_device.specs.SliceDigests.{Adds};

use crate::job::Reference;
use crate::m2m_queues::{SliceDecoder, Target};
use crate::picture::Picture;
use crate::records::{feed_bytes, feed_references};
use crate::sets_digest::SetsDigest;
use h264_controls::{
    References, RequestBody, SetControls, digest_in_two_parts, sets_form, slice_form,
};
use h264_types::base::Shared;
use sha2::{Digest, Sha256};
use std::alloc::{AllocError, Global};

/// The controls of a slice, as they are bound to a request of the queues, with the units of its
/// decoded picture buffer: these are its reference_ts.
#[derive(Debug, Drop)]
pub(crate) struct SliceControls {
    pub(crate) body: Shared<RequestBody>,
    pub(crate) references: Shared<References>,
}

/// The finished frames, and the digest of the frame that is being decoded.
#[derive(Drop)]
pub(crate) struct SliceDigest {
    /// The frames that were placed, the first found by its timestamp.
    pub(crate) frames: Vec<Reference>,
    hasher: Sha256,
    /// The front of the last frame that was begun.
    front: Option<SetsDigest>,
    // Room for a digest form, which is used again.
    form: Vec<u8>,
}

impl SliceDigest {
    /// No frames.
    pub(crate) fn new(alloc: Global) -> SliceDigest
        ensures { result.frames.items ≡ [] }
    {
        SliceDigest {
            frames: Vec::new(alloc),
            hasher: Sha256::new(),
            front: None,
            form: Vec::new(alloc),
        }
    }

    /// The digest of the frame that was decoded.
    pub(crate) fn finish(&mut self) -> Picture
        ensures { (m : List ℕ) → Holds256 self.old.hasher m → result.digest ≡ sha256 m }
    {
        Picture {
            digest: self.hasher.finalize_reset(),
        }
    }

    /// A hasher that took the controls that the parameter sets decide.
    fn front_of(&mut self, sets: &Shared<SetControls>) -> Result<Sha256, AllocError>
        ensures hashed { IfOk result (λ hasher. Holds256 hasher (sets_form sets.now)) }
        ensures frames { self.new.frames.items ≡ self.old.frames.items }
    {
        if let Some(front) = &self.front {
            if front.is_of(sets) {
                return front.hasher();
            }
        }
        let front = SetsDigest::of(sets, &mut self.form)?;
        let hasher = front.hasher();
        self.front = Some(front);
        hasher
    }

    /// Appends the form of the controls that the parameter sets decide.
    fn put_sets(&mut self, sets: &SetControls) -> Result<(), AllocError>
        ensures written { OnOk result (self.new.form.items
            ≡ self.old.form.items ++ sets_form sets.now) }
        ensures hasher { self.new.hasher ≡ self.old.hasher }
        ensures frames { self.new.frames.items ≡ self.old.frames.items }
    {
        match &self.front {
            Some(front) if front.is_of(sets) => front.put(&mut self.form),
            _ => sets_form(sets, &mut self.form),
        }
    }

    /// Begins a frame with the record of a slice.
    #[tactic(auto, unfolding(crate::specs::Pictures::slice_record))]
    fn begin(&mut self, controls: &SliceControls, bytes: &[u8]) -> Result<(), AllocError>
        ensures hashed { OnOk result (Holds256 self.new.hasher
            (slice_record self.old.frames.items controls.now.body.controls controls.now.references
            bytes.now)) }
        ensures frames { self.new.frames.items ≡ self.old.frames.items }
    {
        digest_in_two_parts();
        let mut hasher = self.front_of(&controls.body.controls.sets)?;
        self.form.clear();
        slice_form(&controls.body.controls, &mut self.form)?;
        feed_slice(
            &mut hasher,
            self.frames.as_slice(),
            controls,
            self.form.as_slice(),
            bytes,
        );
        self.hasher = hasher;
        Ok(())
    }

    /// Goes on with the record of a slice.
    #[tactic(auto, unfolding(crate::specs::Pictures::slice_record))]
    fn go_on(&mut self, controls: &SliceControls, bytes: &[u8]) -> Result<(), AllocError>
        ensures hashed { OnOk result ((m : List ℕ) → Holds256 self.old.hasher m
            → Holds256 self.new.hasher
            (m ++ slice_record self.old.frames.items controls.now.body.controls
            controls.now.references bytes.now)) }
        ensures frames { self.new.frames.items ≡ self.old.frames.items }
    {
        digest_in_two_parts();
        self.form.clear();
        self.put_sets(&controls.body.controls.sets)?;
        slice_form(&controls.body.controls, &mut self.form)?;
        feed_slice(
            &mut self.hasher,
            self.frames.as_slice(),
            controls,
            self.form.as_slice(),
            bytes,
        );
        Ok(())
    }
}

impl SliceDecoder<SliceControls> for SliceDigest {
    ghost decodes = { Adds };

    fn slice(
        &mut self,
        controls: &SliceControls,
        bytes: &[u8],
        _timestamp: u64,
        target: Target,
    ) -> Result<(), AllocError> {
        if target.begins {
            self.begin(controls, bytes)
        } else {
            self.go_on(controls, bytes)
        }
    }
}

/// Feeds the form of a slice's controls, or the rest of it, and all that follows in its record.
fn feed_slice(
    hasher: &mut Sha256,
    frames: &[Reference],
    controls: &SliceControls,
    form: &[u8],
    bytes: &[u8],
)
    ensures { (m : List ℕ) → Holds256 hasher.old m
        → Holds256 hasher.new (m ++ form.now ++ size_bytes bytes.now ++ bytes.now
        ++ flat_map (entry_bytes frames.now controls.now.references)
        (entries_of controls.now.body.controls)) }
{
    hasher.update(form);
    feed_bytes(hasher, bytes);
    feed_references(
        hasher,
        frames,
        &controls.references,
        &controls.body.controls,
    );
}
