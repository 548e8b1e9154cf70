//! The controls of requests by their digest form, at places that were worked out from the Linux
//! media documentation.

use super::{A, P1, joined, row_holds};
use access_unit::read_stream;
use h264_controls::{Request, digest_form};
use h264_types::pictures::AuId;
use request_core::scratch;
use std::alloc::{AllocError, Global};
use std::process::Abort;
use std::test::Fail;
use std::thread::Threads;
use unit_outcomes::Outcome;

/// A place in the form, and the bytes that stand there.
type Row = (usize, &'static [u8]);

/// The parts of a stream, how many bytes the form of its last picture's one slice has, and some of
/// them.
type Form = (&'static [&'static [u8]], usize, &'static [Row]);

const FORMS: [Form; 3] = [
    // The sequence parameter set's first members and its flags; the scaling matrix, which is flat;
    // no weights; header_bit_size, slice_type, nal_ref_idc, dec_ref_pic_marking_bit_size and the
    // flag of an IDR picture.
    (
        &[&A],
        2040,
        &[
            (0, &[0x42, 0, 0x0A, 0, 1, 0, 0, 0, 2, 0, 1, 0]),
            (1044, &[0x50, 0, 0, 0]),
            (1060, &[0x10; 480]),
            (1540, &[0]),
            (1541, &[0x19, 0, 0, 0]),
            (1549, &[2]),
            (1996, &[3, 0]),
            (2024, &[2, 0, 0, 0]),
            (2036, &[1, 0, 0, 0]),
        ],
    ),
    // The first entry of list 0 is a frame at index 0, fields and flags of the first entry of the
    // decoded picture buffer.
    (
        &[&A, &P1],
        2040,
        &[(1560, &[3, 0]), (1698, &[3]), (1707, &[3, 0, 0, 0])],
    ),
    // A table of one luma weight and both chroma weights of 1, with denominators of 1: its flag,
    // the denominators' powers of 0, and the first luma weight.
    (
        &[
            &[
                0, 0, 1, 0x67, 0x42, 0x00, 0x0A, 0xDA, 0x79, 0, 0, 1, 0x68, 0xCF, 0x38, 0x80, 0, 0,
                1, 0x65, 0x88, 0x84, 0x80,
            ],
            &[0, 0, 1, 0x41, 0x9A, 0x26, 0x30],
        ],
        2812,
        &[
            (1540, &[1, 0, 0, 0, 0, 1, 0, 0, 0]),
            (1673, &[1, 0, 1, 0, 0, 0]),
            (1801, &[0; 512]),
        ],
    ),
];

/// Whether the form has these bytes at their places.
fn has_rows(form: &[u8], rows: &[Row]) -> bool {
    for (place, bytes) in rows {
        if form.len() < *place || !form.split_at(*place).1.starts_with(*bytes) {
            return false;
        }
    }
    true
}

/// Whether the form of the request's controls has this size and these bytes.
fn has_form(
    alloc: Global,
    request: &Request,
    size: usize,
    rows: &[Row],
) -> Result<bool, AllocError> {
    let mut form = Vec::new(alloc);
    digest_form(request.controls(), &mut form)?;
    Ok(form.len() == size && has_rows(&form, rows))
}

/// Whether the last picture has one slice, whose form is that of the row.
fn last_has_form(alloc: Global, outcomes: &[Outcome], row: &Form) -> Result<bool, AllocError> {
    match outcomes.last() {
        Some(Outcome::Plan(plan)) => match plan.requests.as_slice() {
            [request] => has_form(alloc, request, row.1, row.2),
            _ => Ok(false),
        },
        _ => Ok(false),
    }
}

/// The outcomes of the units of a stream of these parts; all have one id, of which the form says
/// nothing.
fn outcomes_of(
    rt: &(impl Abort + AllocGlobal + Threads + Sync),
    parts: &[&[u8]],
) -> Result<Vec<Outcome>, Fail> {
    let text = joined(rt.alloc(), parts)?;
    let mut stream = Vec::new(rt.alloc());
    for unit in read_stream(rt, rt.alloc(), text.as_slice())? {
        stream.push((AuId::new(1), unit))?;
    }
    Ok(scratch(rt.alloc(), &stream)?)
}

#[test]
fn controls_have_these_forms(rt: HostRuntime) -> Result<(), Fail> {
    for (row, form) in FORMS.iter().enumerate() {
        let outcomes = outcomes_of(&rt, form.0)?;
        row_holds(&rt, row, last_has_form(rt.alloc(), &outcomes, form)?);
    }
    Ok(())
}
