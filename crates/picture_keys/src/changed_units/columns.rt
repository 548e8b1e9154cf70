//! Units as they are compared.

ghost use Rattle.std.specs.Prelude.{◌≡◌, ◌↔◌, ℕ, IsTrue};
ghost use Rattle.picture_keys.specs.Units.{compared, fault_of};

use crate::HashedOutcome;
use decode_jobs::dep_keys::KeyId;
use h264_types::base::Shared;
use h264_types::pictures::AuId;
use std::ops::Deref;
use unit_outcomes::Outcome;

/// Units of a stream, column by column: their ids, their outcomes, and the numbers of their keys,
/// nothing for one that isn't valid.
#[derive(Clone, Copy, Debug)]
pub struct UnitColumns<'a> {
    pub ids: &'a [AuId],
    pub outcomes: &'a [Shared<HashedOutcome>],
    pub numbers: &'a [Option<KeyId>],
}

/// Whether two units are the same but for their ids: they have one key, or one fault, or neither.
pub(crate) fn are_alike(
    outcome: &HashedOutcome,
    number: Option<KeyId>,
    other: &HashedOutcome,
    another: Option<KeyId>,
) -> bool
    ensures { (id : ℕ) → IsTrue result
        ↔ (compared id outcome.now number ≡ compared id other.now another) }
{
    match (number, another) {
        (None, None) => fault_of(outcome.deref()) == fault_of(other.deref()),
        _ => number == another,
    }
}

/// The number of the fault of an outcome, if it has one.
fn fault_of(outcome: &Outcome) -> Option<u8>
    ensures { result ≡ fault_of outcome.now }
{
    match outcome {
        Outcome::Plan(_) => None,
        Outcome::Fault(fault) => Some(fault.number()),
        Outcome::Empty => None,
    }
}
