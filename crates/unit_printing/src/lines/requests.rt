//! The line of a request.

ghost use Rattle.std.specs.Prelude.{◌≡◌, ◌++◌, string_bytes, OnOk};
ghost use Rattle.h264_controls.specs.SliceParamsForm.{slice_type_number};
ghost use Rattle.unit_printing.specs.Growing.{Grows};
ghost use Rattle.unit_printing.specs.Lines.{hold_text, lists_text, request_text, slice_text};

use crate::lines::numbers::{put_field, put_text};
use crate::lines::references::{put_dpb, put_list};
use h264_controls::Request;
use h264_types::pictures::AuId;
use h264_types::slice_headers::SliceType;
use std::alloc::AllocError;

/// Adds the line of the request of the slice at a place of its unit, from 0.
pub(crate) fn put_request(
    text: &mut String,
    id: AuId,
    slice: usize,
    request: &Request,
) -> Result<(), AllocError>
    ensures { OnOk result (Grows (string_bytes text.old) (string_bytes text.new)
        (request_text id slice request.now)) }
{
    let controls = request.controls();
    let (params, picture) = (&controls.slice_params, &controls.decode_params);
    let (units, entries) = (request.references.as_slice(), picture.dpb.as_slice());
    put_field(text, "request ", u64::from(id.number()))?;
    put_slice(
        text,
        slice,
        request.timestamp,
        params.header_bit_size,
        params.slice_type,
        picture.frame_num,
    )?;
    put_text(text, " dpb ")?;
    put_dpb(text, units, entries)?;
    put_lists(
        text,
        params.ref_pic_list0.entries(),
        params.ref_pic_list1.entries(),
    )?;
    put_hold(text, request.hold)?;
    Ok(())
}

/// Adds the place of the slice, its timestamp, and what its header says.
pub(crate) fn put_slice(
    text: &mut String,
    slice: usize,
    timestamp: u64,
    header_bit_size: u32,
    slice_type: SliceType,
    frame_num: u16,
) -> Result<(), AllocError>
    ensures { OnOk result (Grows (string_bytes text.old) (string_bytes text.new)
        (slice_text slice timestamp header_bit_size slice_type frame_num)) }
{
    put_field(text, ".", slice as u64)?;
    put_field(text, " ts ", timestamp)?;
    put_field(text, " bits ", u64::from(header_bit_size))?;
    put_field(text, " type ", type_number(slice_type))?;
    put_field(text, " frame ", u64::from(frame_num))?;
    Ok(())
}

/// slice_type as a number.
fn type_number(slice_type: SliceType) -> u64
    ensures { result ≡ slice_type_number slice_type }
{
    slice_type as u64
}

/// Adds the lists.
pub(crate) fn put_lists(
    text: &mut String,
    list_0: &[Option<u8>],
    list_1: &[Option<u8>],
) -> Result<(), AllocError>
    ensures { OnOk result (Grows (string_bytes text.old) (string_bytes text.new)
        (lists_text list_0.now list_1.now)) }
{
    put_text(text, " l0 ")?;
    put_list(text, list_0)?;
    put_text(text, " l1 ")?;
    put_list(text, list_1)?;
    Ok(())
}

/// Adds whether more slices of the picture follow, and ends the line.
pub(crate) fn put_hold(text: &mut String, hold: bool) -> Result<(), AllocError>
    ensures { OnOk result (Grows (string_bytes text.old) (string_bytes text.new)
        (hold_text hold)) }
{
    put_field(text, " hold ", u64::from(hold))?;
    put_text(text, "\n")?;
    Ok(())
}
