//! What is shown of a unit, and what comes of dropping its picture.

use thiserror::Error;
use unit_outcomes::ValidityFault;

/// What is shown of a unit.
#[derive(Clone, Copy, Debug, PartialEq, Eq)]
pub enum Shown<P> {
    /// Its picture: that of the unit as the stream is now, whatever was decoded before.
    Ready(P),
    /// It is valid, and its picture isn't held: no result of a job for it has landed.
    Pending,
    /// It has this fault, so that it has no picture.
    Fault(ValidityFault),
    /// It is a unit without a slice, so that it has no picture.
    Empty,
    /// No unit has the id.
    NoSuchUnit,
}

/// What comes of dropping a unit's picture.
#[derive(Clone, Copy, Debug, PartialEq, Eq)]
pub enum Dropped<P> {
    /// It was held, and is the host's again.
    Picture(P),
    /// It wasn't held, or the unit isn't valid.
    NotHeld,
    /// No unit has the id.
    NoSuchUnit,
}

/// No unit of the stream has the id.
#[derive(Clone, Copy, Debug, PartialEq, Eq, Hash, Error)]
#[error("no unit has the id")]
pub struct NoSuchUnit;
