//! Workers at the stand-in, each with a gate.

ghost use Rattle.std.specs.Prelude.{◌≡◌, IfErr, IfOk};
ghost use Rattle.stand_in_device.specs.KeyPictures.{IsMade};

use crate::stand_in::Desk;
use crate::working::work_with;
use stand_in_device::{Device, Picture, Undone};
use stand_in_session::{Finished, Job};
use std::alloc::Global;
use std::sync::Wait;
use worker_jobs::{Decoder, Made, Worked};

/// What a worker decodes by at the stand-in. It may take as long as it likes.
pub trait Gate {
    /// Decodes a job, or hands it back.
    fn decode(&mut self, alloc: Global, job: Job) -> Result<Finished, Undone>
        ensures done { IfOk result (λ finished. finished ≡ job) }
        ensures undone { IfErr result (λ undone. undone.job ≡ job) };
}

impl Gate for Device {
    fn decode(&mut self, alloc: Global, job: Job) -> Result<Finished, Undone> {
        Device::decode(self, alloc, job)
    }
}

/// A gate as a decoder of the stand-in's pictures, of which it wants none back.
#[derive(Drop)]
struct GateDecoder<D> {
    gate: D,
}

impl<D: Gate> Decoder<Picture> for GateDecoder<D> {
    ghost Makes = { IsMade };

    fn decode(&mut self, alloc: Global, job: Job) -> Result<Made<Picture>, Undone>
        ensures made { IfOk result (λ made. (made.job ≡ job) × IsMade job.input made.picture) }
        ensures undone { IfErr result (λ undone. undone.job ≡ job) }
    {
        match self.gate.decode(alloc, job) {
            Ok(finished) => {
                let (number, input, picture) = finished.into_parts();
                let job = Job::new(number, input);
                Ok(Made { job, picture })
            }
            Err(undone) => Err(undone),
        }
    }

    fn take_back(&mut self, _picture: Picture) {}
}

/// Takes jobs of a desk, decodes them by the gate and brings what comes of them, as `work_with`
/// does.
pub fn worker<D: Gate + Drop, R: Wait>(rt: &R, alloc: Global, desk: &Desk, gate: D) -> Worked {
    work_with(rt, alloc, desk, GateDecoder { gate })
}
