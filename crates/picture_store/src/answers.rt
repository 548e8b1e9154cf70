//! What a store answers about jobs.

ghost use Rattle.std.specs.Prelude.{◌≡◌};
ghost use Rattle.picture_store.specs.declared.answers.TakeRefused.TheVariants.{Memory};
ghost use Rattle.picture_store.specs.Numbers.{number_of};

use decode_jobs::{Decoded, Job};
use picture_keys::changed_units::Changed;
use std::alloc::{AllocError, AllocFailed};
use thiserror::Error;

/// What a splice came to: how many pictures are lost, and which units changed.
#[derive(Clone, Copy, Debug, PartialEq, Eq)]
pub struct SpliceTaken {
    pub lost: usize,
    pub changed: Changed,
}

/// A job that is taken, and the place of its unit: the first of the stream that has its key.
#[derive(Debug)]
pub struct JobAt<P> {
    pub at: usize,
    pub job: Job<P>,
}

/// What becomes of a result.
#[derive(Clone, Copy, Debug, PartialEq, Eq, Hash)]
pub enum Landing {
    /// Its picture is held from now on.
    Taken,
    /// Its key is no longer in use, or its picture is held already.
    Stale,
    /// It is of no job that is out.
    Foreign,
}

/// What becomes of a job that is given back.
#[derive(Clone, Copy, Debug, PartialEq, Eq, Hash)]
pub enum Returning {
    /// It is out no more.
    Returned,
    /// It isn't out.
    Foreign,
}

/// Why no job is given though one is due.
#[derive(Clone, Copy, Debug, PartialEq, Eq, Hash, Error)]
pub enum TakeRefused {
    /// 18,446,744,073,709,551,615 numbers of jobs were given.
    #[error("all numbers of jobs were given")]
    JobsSpent,
    /// A growth was refused.
    #[error("out of memory")]
    Memory,
}

impl TakeRefused {
    /// The refusal's number, from 1 in the order above.
    pub fn number(self) -> u8
        ensures { result ≡ number_of self }
    {
        match self {
            TakeRefused::JobsSpent => 1,
            TakeRefused::Memory => 2,
        }
    }
}

impl From<AllocError> for TakeRefused {
    ghost from_gives = { λ error refused. refused ≡ Memory };

    fn from(_: AllocError) -> TakeRefused {
        TakeRefused::Memory
    }
}
