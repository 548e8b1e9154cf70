//! The device.

ghost use Rattle.std.specs.Prelude.{◌≡◌, ◌∷◌, ◌++◌, [], IfErr, IfOk, IsTrue, OnErr, OnOk};
ghost use Rattle.decode_jobs.specs.Inputs.{is_whole};
ghost use Rattle.stand_in_device.specs.Pictures.{picture_of};
ghost use Rattle.decode_jobs.specs.Keys.{Key};
ghost use Rattle.decode_jobs.specs.Made.{IsPictureOf};
ghost use Rattle.stand_in_device.specs.KeyPictures.{IsMade, picture_of_key};
ghost use Rattle.stand_in_device.specs.declared.picture.Picture.{Picture as Made};

use crate::decoding::Decoding;
use crate::job::{Finished, Input, Job, Reference, Undone};
use crate::picture::Picture;
use crate::slice_digest::SliceDigest;
use std::alloc::{AllocError, Global};
use std::marker::Model;

/// A stateless decoder whose pictures are digests, with the finished frames that slices may refer
/// to.
pub struct Device {
    slice_digest: SliceDigest,
}

// By hand, so that whoever drops one is proved over one call.
impl Drop for Device {
    fn drop(self) {
        let Device { slice_digest: _ } = self;
    }
}

impl Model for Device {
    ghost use Rattle.std.specs.Prelude.{List};
    ghost use Rattle.decode_jobs.specs.declared.input.Reference.{Reference};
    ghost use Rattle.stand_in_device.specs.declared.picture.Picture.{Picture};

    ghost Value = { List (Reference Picture) };

    ghost view = { λ device. device.slice_digest.frames.items };
}

impl Device {
    /// A device without frames. It takes no memory.
    pub fn new(alloc: Global) -> Device
        ensures { result ≡ [] }
    {
        Device {
            slice_digest: SliceDigest::new(alloc),
        }
    }

    /// Adds a finished frame after those that are there, as a CAPTURE buffer that was dequeued with
    /// this timestamp in nanoseconds. Of two frames with one timestamp the first is referred to.
    pub fn place(&mut self, timestamp: u64, picture: Picture) -> Result<(), AllocError>
        ensures ok { OnOk result
            (self.new ≡ self.old ++ record { timestamp = timestamp; picture = picture } ∷ []) }
        ensures err { OnErr result (self.new ≡ self.old) }
    {
        self.slice_digest
            .frames
            .push(Reference { timestamp, picture })?;
        Ok(())
    }

    /// Decodes a job: a device without frames but the job's references runs its requests through
    /// the queues, one after the other, and the picture is that of the done CAPTURE buffer. Where
    /// memory runs out, the job is handed back. The device has no frames afterwards.
    pub fn decode(&mut self, alloc: Global, job: Job) -> Result<Finished, Undone>
        ensures done { IfOk result (λ finished. finished ≡ job) }
        ensures undone { IfErr result (λ undone. undone.job ≡ job) }
        ensures emptied { self.new ≡ [] }
    {
        let answer = self.picture_of(alloc, job.input());
        self.slice_digest.frames.clear();
        match answer {
            Ok(picture) => Ok(Finished::new(job, picture)),
            Err(cause) => Err(Undone { job, cause }),
        }
    }

    /// The picture of an input that is whole.
    fn picture_of(&mut self, alloc: Global, input: &Input) -> Result<Picture, AllocError>
        requires { IsTrue (is_whole input.now) }
        ensures { IfOk result (λ picture. picture ≡ picture_of input.now) }
    {
        self.slice_digest.frames.clear();
        self.place_all(input.references())?;
        let [first, ..] = input.requests() else {
            unreachable!()
        };
        let decoding = Decoding::open(alloc)?;
        let decoding = decoding.decode_slices(
            input.requests(),
            first.timestamp,
            &mut self.slice_digest,
        )?;
        decoding.finish(first.timestamp);
        Ok(self.slice_digest.finish())
    }

    /// Adds finished frames.
    fn place_all(&mut self, references: &[Reference]) -> Result<(), AllocError>
        ensures { OnOk result (self.new ≡ self.old ++ references.now) }
    {
        for reference in references {
            self.place(reference.timestamp, reference.picture)?;
        }
        Ok(())
    }
}

/// The device is a function, so that it makes one picture of a key, whatever inputs that is made
/// of: the digest of the key.
pub fn picture_of_a_key_is_its_digest()
    ensures { (key : Key) (picture : Made) → IsPictureOf IsMade key picture
        → picture ≡ picture_of_key key }
{}
