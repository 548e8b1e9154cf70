//! Reads the header of a unit.

ghost use Rattle.std.specs.Prelude.{◌≡◌, ◌⊎◌, IfOk, IfErr, Ok, Err, IsTrue, ◌↔◌, length};
ghost use Rattle.expgolomb.specs.Payloads.{after_first};
ghost use Rattle.slice_header.specs.SliceHeaders.{IsSliceHeader, HeaderHasFault, Answers, header_at, syntax_of};
ghost use Rattle.slice_header.specs.Fronts.{read_value};
ghost use Rattle.slice_header.specs.Starts.{start_of};
ghost use Rattle.expgolomb.specs.Structures.{syntax_at};
ghost use Rattle.slice_header.specs.declared.fault.HeaderFault.{HeaderFault};
ghost use Rattle.h264_types.specs.declared.slice_headers.slice_headers.SliceHeader.{SliceHeader};

use crate::fields::after_first;
use crate::headers::{header_fields, header_from};
use crate::{HeaderFault, Start};
use annexb::{Nal, payload};
use h264_types::param_sets::{Pps, Sps};
use h264_types::slice_headers::SliceHeader;
use std::alloc::Global;

/// Reads the header of a slice with the parameter sets that it names: the first field that can't be
/// read is what is refused. Memory is taken where the header is long or has many commands.
pub fn read(alloc: Global, nal: &Nal<'_>, sps: &Sps, pps: &Pps) -> Result<SliceHeader, HeaderFault>
    // What is read is the unit's header, and where it has one that is read.
    ensures found { IfOk result (λ header. IsSliceHeader nal.now sps.now pps.now header) }
    ensures only { (header : SliceHeader) → IsSliceHeader nal.now sps.now pps.now header
        → Answers result (Ok header) }
    // A refusal is that of the first field that shows one, and where there is such a field it is
    // refused.
    ensures fault { IfErr result (λ fault. (fault ≡ HeaderFault.Memory)
        ⊎ HeaderHasFault nal.now sps.now pps.now fault) }
    ensures refused { (fault : HeaderFault) → HeaderHasFault nal.now sps.now pps.now fault
        → Answers result (Err fault) }
    ensures exact { Answers result (header_at nal.now sps.now pps.now) }
{
    read_from(alloc, &Start::of(nal), sps, pps)
}

/// Reads the header from the start of the unit, as `read` does. One that is longer is read from the
/// whole payload.
pub fn read_from(
    alloc: Global,
    start: &Start<'_>,
    sps: &Sps,
    pps: &Pps,
) -> Result<SliceHeader, HeaderFault>
    ensures { Answers result (header_at start.now sps.now pps.now) }
{
    let answer = header_of(alloc, start.nal(), start.bytes(), sps, pps);
    if is_cut_short(&answer, start) {
        whole(alloc, start.nal(), sps, pps)
    } else {
        answer
    }
}

// Whether a full start was cut, so that more bytes may follow it.
fn is_cut_short(answer: &Result<SliceHeader, HeaderFault>, start: &Start<'_>) -> bool
    ensures { IsTrue result
        ↔ ((answer.now ≡ Err HeaderFault.Cut) × (length (start_of start.now) ≡ 64)) }
{
    match answer {
        Err(HeaderFault::Cut) => start.is_full(),
        _ => false,
    }
}

// The header from the whole payload.
#[cold]
fn whole(alloc: Global, nal: &Nal<'_>, sps: &Sps, pps: &Pps) -> Result<SliceHeader, HeaderFault>
    ensures { Answers result (header_at nal.now sps.now pps.now) }
{
    let payload = payload(alloc, nal)?;
    header_of(alloc, nal, &payload, sps, pps)
}

// The header that these bytes of the unit's payload have.
fn header_of(
    alloc: Global,
    nal: &Nal<'_>,
    payload: &[u8],
    sps: &Sps,
    pps: &Pps,
) -> Result<SliceHeader, HeaderFault>
    ensures { Answers result (read_value
        (syntax_at (syntax_of nal.now sps.now pps.now) (after_first payload.now))) }
{
    let mut bits = after_first(payload)?;
    let fields = header_fields(alloc, nal, &mut bits, sps, pps)?;
    Ok(header_from(nal, fields))
}
