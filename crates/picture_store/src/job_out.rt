//! Jobs that are out.

ghost use Rattle.std.specs.Prelude.{◌≡◌, ◌<◌, ◌==◌, ◌↔◌, length, map, position, All, Contains, IfSome, IsTrue, MatchOption, slice_index_or};
ghost use Rattle.picture_store.specs.declared.job_out.JobOut.{JobOut as Out};
ghost use Rattle.picture_store.specs.Stored.{numbers_out};
ghost use Rattle.picture_store.specs.Looked.{lowered};

use decode_jobs::dep_keys::KeyId;
use decode_jobs::{Decoded, Input};

/// A job that is out: its number, the number of its key, what it was given to decode, and a place
/// before which no unit has the key.
#[derive(Debug)]
pub(crate) struct JobOut<P> {
    pub(crate) number: u64,
    pub(crate) key: KeyId,
    pub(crate) input: Input<P>,
    pub(crate) first_place: usize,
}

// By hand, so that whoever drops one is proved over one call.
impl<P: Drop> Drop for JobOut<P> {
    fn drop(self) {
        let JobOut {
            number: _,
            key: _,
            input: _,
            first_place: _,
        } = self;
    }
}

/// Whether a job of this key is out.
pub(crate) fn is_out<P: Decoded>(jobs: &[JobOut<P>], key: KeyId) -> bool
    ensures { IsTrue result ↔ Contains (numbers_out jobs.now) key }
{
    jobs.iter().any(
        |job| -> bool
            ensures { result ≡ (job.now.key == key) }
        { job.key == key },
    )
}

/// The place of the first job of this number that was given this to decode.
pub(crate) fn place_of<P: Decoded>(
    jobs: &[JobOut<P>],
    number: u64,
    input: &Input<P>,
) -> Option<usize>
    ensures { MatchOption result
        (All (λ job. (job.number ≡ number) × (job.input ≡ input.now) → ⊥) jobs.now)
        (λ at. (at < length jobs.now)
        × ((other : Out P) → (slice_index_or jobs.now at other).number ≡ number)
        × ((other : Out P) → (slice_index_or jobs.now at other).input ≡ input.now)) }
{
    for (at, job) in jobs.iter().enumerate() {
        if job.number == number && job.input.is_same(input) {
            return Some(at);
        }
    }
    None
}

/// The place of the first job of this number.
pub(crate) fn first_numbered<P: Decoded>(jobs: &[JobOut<P>], number: u64) -> Option<usize>
    ensures value { result ≡ position (λ job. job.number == number) jobs.now }
    ensures inside { IfSome result (λ at. at < length jobs.now) }
{
    jobs.iter().position(
        |job: &JobOut<P>| -> bool
            ensures { result ≡ (job.now.number == number) }
        { job.number == number },
    )
}

/// Moves the places of jobs down to one, from which on units have other keys than before.
// The loop has a function of its own, over a slice: there its contract names each job before and
// after.
pub(crate) fn lower_all<P: Decoded>(jobs: &mut Vec<JobOut<P>>, from: usize)
    ensures { jobs.new.items ≡ map (lowered from) jobs.old.items }
{
    lower_each(jobs, from);
}

/// Moves each of these places so.
fn lower_each<P: Decoded>(jobs: &mut [JobOut<P>], from: usize)
    ensures { jobs.new ≡ map (lowered from) jobs.old }
{
    for job in jobs.iter_mut() {
        job.first_place = job.first_place.min(from);
    }
}
