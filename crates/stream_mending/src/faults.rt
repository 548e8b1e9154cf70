//! Why a NAL unit is left out by itself (7.3.1, 7.3.3, 7.4.1).

ghost use Rattle.std.specs.Prelude.{◌≡◌, ◌≢◌, ◌+◌, ℕ, length, slice_index, IfOk, IsTrue};
ghost use Rattle.annexb.specs.NalUnit.{is_slice, begins_forbidden};
ghost use Rattle.access_unit.specs.Refusals.{is_switching, is_inter};
ghost use Rattle.access_unit.specs.Sets.{sps_of, pps_of, is_unreadable};
ghost use Rattle.stream_mending.specs.Faults.{fault_of, coded_fault, slice_fault, has_forbidden};

use crate::why::Why;
use annexb::{Nal, payload};
use h264_types::slice_headers::SliceType;
use memchr::memmem;
use param_sets::{SetFault, read_pps, read_sps};
use slice_header::slice_type;
use std::alloc::{AllocError, Global};

/// Why the NAL unit of these bytes is left out, if it is. They don't end with a zero.
pub(crate) fn fault_of(alloc: Global, unit: &[u8]) -> Result<Option<Why>, AllocError>
    requires { (last : ℕ) → last + 1 ≡ length unit.now → slice_index unit.now last ≢ 0 }
    ensures { IfOk result (λ fault. fault ≡ fault_of unit.now) }
{
    if unit.is_empty() {
        Ok(Some(Why::Empty))
    } else if has_forbidden(unit) {
        Ok(Some(Why::ForbiddenBytes))
    } else {
        coded_fault(alloc, &Nal::new(unit))
    }
}

/// What is wrong with its header, or with what follows that.
#[tactic(auto, unfolding(crate::specs::Faults::coded_fault, crate::specs::Faults::slice_fault))]
fn coded_fault(alloc: Global, nal: &Nal<'_>) -> Result<Option<Why>, AllocError>
    ensures { IfOk result (λ fault. fault ≡ coded_fault nal.now) }
{
    let unit_type = nal.nal_unit_type();
    match unit_type {
        _ if nal.forbidden_zero_bit() => Ok(Some(Why::ForbiddenBit)),
        2..=4 | 13..=15 | 19..=21 => Ok(Some(Why::UnitType(unit_type))),
        7 => Ok(is_unread_sps(alloc, nal)?.then_some(Why::UnreadSps)),
        8 => Ok(is_unread_pps(alloc, nal)?.then_some(Why::UnreadPps)),
        1 | 5 => Ok(slice_fault(nal)),
        _ => Ok(None),
    }
}

/// Whether it can't be read as a sequence parameter set.
#[tactic(auto, unfolding(access_unit::specs::Sets::sps_of))]
fn is_unread_sps(alloc: Global, nal: &Nal<'_>) -> Result<bool, AllocError>
    ensures { IfOk result (λ is_unread. is_unread ≡ is_unreadable (sps_of nal.now)) }
{
    match read_sps(alloc, &payload(alloc, nal)?) {
        Ok(_) => Ok(false),
        Err(SetFault::Memory) => Err(AllocError),
        Err(_) => Ok(true),
    }
}

/// Whether it can't be read as a picture parameter set.
#[tactic(auto, unfolding(access_unit::specs::Sets::pps_of))]
fn is_unread_pps(alloc: Global, nal: &Nal<'_>) -> Result<bool, AllocError>
    ensures { IfOk result (λ is_unread. is_unread ≡ is_unreadable (pps_of nal.now)) }
{
    match read_pps(alloc, &payload(alloc, nal)?) {
        Ok(_) => Ok(false),
        Err(SetFault::Memory) => Err(AllocError),
        Err(_) => Ok(true),
    }
}

/// What is wrong with it as a slice.
#[tactic(auto, unfolding(crate::specs::Faults::slice_fault))]
fn slice_fault(nal: &Nal<'_>) -> Option<Why>
    requires { IsTrue (is_slice nal.now) }
    ensures { result ≡ slice_fault nal.now }
{
    let slice_type = slice_type(nal);
    let is_idr = nal.nal_unit_type() == 5;
    if is_switching(slice_type) {
        Some(Why::Switching)
    } else if is_idr && is_inter(slice_type) {
        Some(Why::IdrNotIntra)
    } else if is_idr && nal.nal_ref_idc() == 0 {
        Some(Why::IdrNotReference)
    } else {
        None
    }
}

/// Whether the type, if it can be read, is SP or SI.
fn is_switching(slice_type: Option<SliceType>) -> bool
    ensures { result ≡ is_switching slice_type }
{
    matches!(slice_type, Some(SliceType::Sp | SliceType::Si))
}

/// Whether the type, if it can be read, is P or B.
fn is_inter(slice_type: Option<SliceType>) -> bool
    ensures { result ≡ is_inter slice_type }
{
    matches!(slice_type, Some(SliceType::P | SliceType::B))
}

/// Whether the bytes hold one.
pub(crate) fn has_forbidden(bytes: &[u8]) -> bool
    ensures { result ≡ has_forbidden bytes.now }
{
    let mut at = 0;
    while let Some(ahead) = memmem::find(bytes.split_at(at).1, &[0, 0]) {
        if begins_forbidden(bytes.split_at(at + ahead).1) {
            return true;
        }
        at += ahead + 1;
    }
    false
}

/// Whether the bytes begin with one.
fn begins_forbidden(bytes: &[u8]) -> bool
    ensures { result ≡ begins_forbidden bytes.now }
{
    match bytes {
        [0, 0, 3, next, ..] => *next > 3,
        [0, 0, third, ..] => *third < 3,
        _ => false,
    }
}
