//! Which pictures the jobs that are out refer to.

ghost use Rattle.std.specs.Prelude.{◌≡◌, ◌<◌, ◌↔◌, length, All, IsTrue, MatchOption, slice_index_or};
ghost use Rattle.picture_store.specs.Unreferred.{AreOthers, IsFree};

use crate::job_out::JobOut;
use decode_jobs::{Decoded, Reference};

/// The place of the first of these pictures to which no job refers.
pub(crate) fn first_free<P: Decoded>(pictures: &[P], jobs: &[JobOut<P>]) -> Option<usize>
    ensures { MatchOption result (All (λ picture. IsFree jobs.now picture → ⊥) pictures.now)
        (λ at. (at < length pictures.now)
        × ((other : P) → IsFree jobs.now (slice_index_or pictures.now at other))) }
{
    for (at, picture) in pictures.iter().enumerate() {
        if is_free(jobs, picture) {
            return Some(at);
        }
    }
    None
}

/// Whether no job refers to a picture.
fn is_free<P: Decoded>(jobs: &[JobOut<P>], picture: &P) -> bool
    ensures { IsTrue result ↔ IsFree jobs.now picture.now }
{
    for job in jobs {
        if !are_others(job.input.references(), picture) {
            return false;
        }
    }
    true
}

/// Whether no reference has a picture.
fn are_others<P: Decoded>(references: &[Reference<P>], picture: &P) -> bool
    ensures { IsTrue result ↔ AreOthers references.now picture.now }
{
    for reference in references {
        if reference.picture.is_same(picture) {
            return false;
        }
    }
    true
}
