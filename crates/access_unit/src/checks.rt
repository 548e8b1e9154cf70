//! What keeps NAL units from being an access unit (7.4.1.2.3, 7.4.1.2.4).
ghost use Rattle.std.specs.Prelude.{◌≡◌, IsTrue};
ghost use Rattle.annexb.specs.NalUnit.{is_slice};
ghost use Rattle.access_unit.specs.Refusals.{first_shown, header_rows, order_rows, mixes_idr, mixes_reference, is_switching, is_inter, is_not_reference};
ghost use Rattle.access_unit.specs.Stored.{refusal_in};

use crate::refused::Refused;
use crate::shared_nal::SharedNal;
use annexb::{Nal, precedes_slices};
use h264_types::slice_headers::SliceType;
use slice_header::slice_type;

/// How many slices an access unit has at most.
const MOST_SLICES: usize = 256;

/// Refuses a NAL unit for its header.
#[tactic(auto, unfolding(crate::specs::Refusals::header_rows))]
pub(crate) fn check_header(nal: &Nal<'_>) -> Result<(), Refused>
    ensures { refusal_in result ≡ first_shown (header_rows nal.now) }
{
    match nal.nal_unit_type() {
        2..=4 | 13..=15 | 19..=21 => Err(Refused::UnitType),
        _ if nal.forbidden_zero_bit() => Err(Refused::ForbiddenBit),
        _ => Ok(()),
    }
}

/// Refuses a NAL unit for the slices before it.
#[tactic(auto, unfolding(crate::specs::Refusals::order_rows))]
pub(crate) fn check_order(slices: &[SharedNal], nal: &Nal<'_>) -> Result<(), Refused>
    ensures { refusal_in result ≡ first_shown (order_rows slices.now nal.now) }
{
    if nal.is_slice() {
        check_slice(slices, nal)
    } else if precedes_slices(nal.nal_unit_type()) && !slices.is_empty() {
        Err(Refused::UnitOrder)
    } else {
        Ok(())
    }
}

/// Refuses a slice for the slices before it.
#[tactic(auto, unfolding(crate::specs::Refusals::order_rows))]
fn check_slice(slices: &[SharedNal], nal: &Nal<'_>) -> Result<(), Refused>
    requires { IsTrue (is_slice nal.now) }
    ensures { refusal_in result ≡ first_shown (order_rows slices.now nal.now) }
{
    let slice_type = slice_type(nal);
    let is_idr = nal.nal_unit_type() == 5;
    if is_switching(slice_type) {
        Err(Refused::Switching)
    } else if mixes_idr(slices, nal) {
        Err(Refused::MixedIdr)
    } else if is_idr && is_inter(slice_type) {
        Err(Refused::IdrNotIntra)
    } else if is_idr && nal.nal_ref_idc() == 0 {
        Err(Refused::IdrNotReference)
    } else if mixes_reference(slices, nal) {
        Err(Refused::MixedReference)
    } else if nal.begins_at_macroblock_zero() && !slices.is_empty() {
        Err(Refused::TwoPictures)
    } else if slices.len() >= MOST_SLICES {
        Err(Refused::TooLarge)
    } else {
        Ok(())
    }
}

/// Whether the type, if it can be read, is SP or SI.
fn is_switching(slice_type: Option<SliceType>) -> bool
    ensures { result ≡ is_switching slice_type }
{
    matches!(slice_type, Some(SliceType::Sp | SliceType::Si))
}

/// Whether the type, if it can be read, is P or B.
fn is_inter(slice_type: Option<SliceType>) -> bool
    ensures { result ≡ is_inter slice_type }
{
    matches!(slice_type, Some(SliceType::P | SliceType::B))
}

/// Whether one of the NAL unit and the first slice is of an IDR picture and the other isn't.
#[tactic(auto, unfolding(crate::specs::Refusals::mixes_idr))]
fn mixes_idr(slices: &[SharedNal], nal: &Nal<'_>) -> bool
    ensures { result ≡ mixes_idr slices.now nal.now }
{
    match slices {
        [first, ..] => first.nal().nal_unit_type() != nal.nal_unit_type(),
        [] => false,
    }
}

/// Whether one of the NAL unit and the first slice is a reference and the other isn't.
#[tactic(auto, unfolding(crate::specs::Refusals::mixes_reference))]
fn mixes_reference(slices: &[SharedNal], nal: &Nal<'_>) -> bool
    ensures { result ≡ mixes_reference slices.now nal.now }
{
    match slices {
        [first, ..] => (first.nal().nal_ref_idc() == 0) != (nal.nal_ref_idc() == 0),
        [] => false,
    }
}
