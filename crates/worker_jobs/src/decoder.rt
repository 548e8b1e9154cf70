//! What a worker decodes by.

ghost use Rattle.std.specs.Prelude.{◌≡◌, IfErr, IfOk};

use decode_jobs::{Job, Undone};
use std::alloc::Global;

/// A job with the picture that was made of it.
#[derive(Debug)]
pub struct Made<P> {
    pub job: Job<P>,
    pub picture: P,
}

/// What a worker decodes by: a decoder of such pictures. It may take as long as it likes.
pub trait Decoder<P> {
    ghost use Rattle.decode_jobs.specs.Inputs.{InputValue};

    // It makes the picture of the input.
    ghost Makes: { InputValue P → P → Type 0 };

    /// Decodes a job, or hands it back.
    fn decode(&mut self, alloc: Global, job: Job<P>) -> Result<Made<P>, Undone<P>>
        ensures made { IfOk result (λ made. (made.job ≡ job) × Makes job.input made.picture) }
        ensures undone { IfErr result (λ undone. undone.job ≡ job) };

    /// Has a picture back that it made of a job and that came too late: no session took it.
    fn take_back(&mut self, picture: P);
}
