//! What `mend` leaves out, with the reason why a parameter set can't be read.

ghost use Rattle.std.specs.Prelude.{◌≡◌, IfOk, map};
ghost use Rattle.stream_mending.specs.Mended.{told};
ghost use Rattle.stream_check.specs.Unread.{left_out_of};

use annexb::{Nal, payload, split};
use param_sets::{SetFault, read_pps, read_sps};
use std::alloc::{AllocError, Global};
use stream_mending::{LeftOut, Why, mend};
use stream_reasons::Reason;

/// What is left out of a stream, and why, where a parameter set can't be read.
#[derive(Clone, Copy)]
pub struct Unread {
    pub left_out: LeftOut,
    pub reason: Option<Reason>,
}

/// What `mend` leaves out of the text, in its order.
pub fn left_out(alloc: Global, text: &[u8]) -> Result<Vec<Unread>, AllocError>
    ensures { IfOk result (λ unread. map left_out_of unread.items ≡ told text.now) }
{
    let mended = mend(alloc, text)?;
    reasons(alloc, text, &mended.left_out)
}

/// The same with reasons.
fn reasons(alloc: Global, text: &[u8], told: &[LeftOut]) -> Result<Vec<Unread>, AllocError>
    ensures { IfOk result (λ unread. map left_out_of unread.items ≡ told.now) }
{
    let mut unread = Vec::with_capacity(alloc, told.len())?;
    for left_out in told {
        unread.push(Unread {
            left_out: *left_out,
            reason: reason_of(alloc, text, left_out)?,
        })?;
    }
    Ok(unread)
}

/// Why the parameter set can't be read, if it is one.
fn reason_of(alloc: Global, text: &[u8], left_out: &LeftOut) -> Result<Option<Reason>, AllocError> {
    match left_out.why {
        Why::UnreadSps => sps_reason(alloc, bytes_of(text, left_out)),
        Why::UnreadPps => pps_reason(alloc, bytes_of(text, left_out)),
        _ => Ok(None),
    }
}

/// The bytes that are left out.
fn bytes_of<'a>(text: &'a [u8], left_out: &LeftOut) -> &'a [u8] {
    let rest = text.get(left_out.byte..).unwrap_or_default();
    rest.get(..left_out.bytes).unwrap_or_default()
}

/// Why the first NAL unit of the bytes can't be read as a sequence parameter set.
fn sps_reason(alloc: Global, bytes: &[u8]) -> Result<Option<Reason>, AllocError> {
    let Ok(nals) = split(alloc, bytes) else {
        return Ok(None);
    };
    match nals.as_slice() {
        [nal, ..] => sps_fault(alloc, nal),
        [] => Ok(None),
    }
}

/// Why the NAL unit can't be read as a sequence parameter set.
fn sps_fault(alloc: Global, nal: &Nal<'_>) -> Result<Option<Reason>, AllocError> {
    match read_sps(alloc, &payload(alloc, nal)?) {
        Ok(_) => Ok(None),
        Err(fault) => Ok(Some(reason_with(fault))),
    }
}

/// Why the first NAL unit of the bytes can't be read as a picture parameter set.
fn pps_reason(alloc: Global, bytes: &[u8]) -> Result<Option<Reason>, AllocError> {
    let Ok(nals) = split(alloc, bytes) else {
        return Ok(None);
    };
    match nals.as_slice() {
        [nal, ..] => pps_fault(alloc, nal),
        [] => Ok(None),
    }
}

/// Why the NAL unit can't be read as a picture parameter set.
fn pps_fault(alloc: Global, nal: &Nal<'_>) -> Result<Option<Reason>, AllocError> {
    match read_pps(alloc, &payload(alloc, nal)?) {
        Ok(_) => Ok(None),
        Err(fault) => Ok(Some(reason_with(fault))),
    }
}

/// The reason of a fault of a parameter set.
fn reason_with(fault: SetFault) -> Reason {
    match fault {
        SetFault::Range { field } => Reason::Field(field),
        fault => Reason::Set(fault),
    }
}
