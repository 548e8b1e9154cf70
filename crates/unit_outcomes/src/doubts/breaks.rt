//! Breaks, and the pictures that end them.

ghost use Rattle.std.specs.Prelude.{◌≡◌};
ghost use Rattle.unit_outcomes.specs.SeenUnits.{are_of_idr, is_break, is_idr_picture};

use crate::{Outcome, ValidityFault};
use h264_controls::Request;

/// Whether a unit is a break: it has a fault, and nal_ref_idc of its first slice isn't 0, or
/// pictures are missing before it.
pub fn is_break(is_reference: bool, outcome: &Outcome) -> bool
    ensures { result ≡ is_break is_reference outcome.now }
{
    match outcome {
        Outcome::Plan(_) => false,
        Outcome::Fault(fault) => {
            is_reference || fault.number() == ValidityFault::FrameNumGap.number()
        }
        Outcome::Empty => false,
    }
}

/// Whether a unit is a valid IDR picture.
pub fn is_idr_picture(outcome: &Outcome) -> bool
    ensures { result ≡ is_idr_picture outcome.now }
{
    match outcome {
        Outcome::Plan(plan) => are_of_idr(plan.requests.as_slice()),
        Outcome::Fault(_) => false,
        Outcome::Empty => false,
    }
}

/// Whether requests are those of an IDR picture.
fn are_of_idr(requests: &[Request]) -> bool
    ensures { result ≡ are_of_idr requests.now }
{
    match requests {
        [] => false,
        [request, ..] => request.controls().decode_params.flags.idr_pic,
    }
}
