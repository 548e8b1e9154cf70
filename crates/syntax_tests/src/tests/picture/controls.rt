//! Forms are compared with bytes that are written by hand, a piece with its place in the form on a
//! line.

mod distinct;
mod flags;
mod frames;
mod growth;

use self::distinct::distinct_controls;
use super::row_holds;
use h264_controls::{Controls, Request, digest_form, sets_form, slice_form};
use h264_types::pictures::AuId;
use std::alloc::{AllocError, Global};
use std::test::Fail;
use test_builders::{idr_controls, p_controls, request_of};

/// The request of a slice of which more follow, whose references are the units 3 and 9.
fn request(
    alloc: Global,
    controls: Controls,
    bytes: &[u8],
    id: u32,
) -> Result<Request, AllocError> {
    request_of(
        alloc,
        id,
        controls,
        bytes,
        &[AuId::new(3), AuId::new(9)],
        true,
    )
}

/// How many times, and the bytes.
type Piece<'a> = (usize, &'a [u8]);

/// The access unit 67 42 00 0A DA 79, 68 CE 38 80, 65 88 84 80.
const IDR: [Piece<'static>; 14] = [
    (
        1,
        &[
            0x42, 0x00, 0x0A, 0x00, 0x01, 0x00, 0x00, 0x00, 0x02, 0x00, 0x01, 0x00,
        ],
    ), // 0
    (1032, &[0]), // 12
    (1, &[0x50, 0x00, 0x00, 0x00]), // 1044: frame_mbs_only, direct_8x8_inference
    (12, &[0]), // 1048: the picture parameter set
    (480, &[0x10]), // 1060: flat lists
    (1, &[0]), // 1540: no weights
    (1, &[0x19, 0x00, 0x00, 0x00]), // 1541: header_bit_size
    (4, &[0]), // 1545
    (1, &[2]), // 1549: an I slice
    (446, &[0]), // 1550
    (1, &[0x03, 0x00]), // 1996: nal_ref_idc
    (26, &[0]), // 1998
    (1, &[0x02, 0x00, 0x00, 0x00]), // 2024: dec_ref_pic_marking_bit_size
    (1, &[0, 0, 0, 0, 0, 0, 0, 0, 1, 0, 0, 0]), // 2028: IDR_PIC at 2036
];

/// The access unit 41 9A 23 after it.
const P: [Piece<'static>; 19] = [
    (
        1,
        &[
            0x42, 0x00, 0x0A, 0x00, 0x01, 0x00, 0x00, 0x00, 0x02, 0x00, 0x01, 0x00,
        ],
    ), // 0
    (1032, &[0]), // 12
    (1, &[0x50, 0x00, 0x00, 0x00]), // 1044
    (12, &[0]), // 1048
    (480, &[0x10]), // 1060
    (1, &[0]), // 1540
    (1, &[0x17, 0x00, 0x00, 0x00]), // 1541: header_bit_size
    (15, &[0]), // 1545: a P slice
    (1, &[0x03, 0x00]), // 1560: list 0 has the frame 0
    (136, &[0]), // 1562
    (1, &[0x03]), // 1698: V4L2_H264_FRAME_REF
    (8, &[0]), // 1699
    (1, &[0x03, 0x00, 0x00, 0x00]), // 1707: VALID, ACTIVE
    (285, &[0]), // 1711
    (1, &[0x02, 0x00, 0x01, 0x00]), // 1996: nal_ref_idc, frame_num
    (2, &[0x02, 0x00, 0x00, 0x00]), // 2000: both counts
    (16, &[0]), // 2008
    (1, &[0x01, 0x00, 0x00, 0x00]), // 2024: dec_ref_pic_marking_bit_size
    (12, &[0]), // 2028
];

/// The controls of `distinct`.
const DISTINCT: [Piece<'static>; 71] = [
    // The sequence parameter set.
    (1, &[0x64, 0x12, 0x1F, 5, 2, 3, 4, 6, 1, 7, 8, 0xFF]), // 0
    (1, &[0xFE, 0xFF, 0xFF, 0xFF]), // 12: offset_for_ref_frame
    (1, &[0x04, 0x03, 0x02, 0x01]), // 16
    (1008, &[0]), // 20
    (1, &[0x05, 0x00, 0x00, 0x00]), // 1028
    (1, &[0xD4, 0xFE, 0xFF, 0xFF]), // 1032: offset_for_non_ref_pic
    (1, &[0x00, 0x00, 0x00, 0x80]), // 1036: offset_for_top_to_bottom_field
    (1, &[0x34, 0x12]), // 1040: pic_width_in_mbs_minus1
    (1, &[0xCD, 0xAB]), // 1042: pic_height_in_map_units_minus1
    (1, &[0x4A, 0x00, 0x00, 0x00]), // 1044: the flags 2, 8 and 64
    // The picture parameter set.
    (1, &[0xF1, 0x12, 7, 11, 29, 2]), // 1048
    (1, &[0xE6, 0x19, 0xF4, 0x0C]), // 1054: -26, 25, -12, 12
    (1, &[0x85, 0x00]), // 1058: the flags 1, 4 and 128
    // The scaling matrix.
    (
        1,
        &[
            32, 33, 34, 35, 36, 37, 38, 39, 40, 41, 42, 43, 44, 45, 46, 47,
        ],
    ), // 1060
    (16, &[2]), // 1076
    (16, &[3]), // 1092
    (16, &[4]), // 1108
    (16, &[5]), // 1124
    (16, &[6]), // 1140
    (64, &[7]), // 1156
    (64, &[8]), // 1220
    (64, &[9]), // 1284
    (64, &[10]), // 1348
    (64, &[11]), // 1412
    (64, &[12]), // 1476
    // The weights.
    (1, &[1]), // 1540
    (1, &[0x05, 0x00, 0x06, 0x00]), // 1541: the denominators
    (1, &[0x80, 0xFF]), // 1545: luma_weight of list 0
    (31, &[0x01, 0x00]), // 1547
    (31, &[0x02, 0x00]), // 1609: luma_offset
    (1, &[0xFD, 0xFF]), // 1671
    (32, &[0x04, 0x00, 0x05, 0x00]), // 1673: chroma_weight
    (32, &[0x06, 0x00, 0xF9, 0xFF]), // 1801: chroma_offset
    (32, &[0x08, 0x00]), // 1929: luma_weight of list 1
    (32, &[0x09, 0x00]), // 1993: luma_offset
    (32, &[0x0A, 0x00, 0x0B, 0x00]), // 2057: chroma_weight
    (32, &[0x0C, 0x00, 0x0E, 0x0D]), // 2185: chroma_offset
    // The slice.
    (1, &[0x04, 0x03, 0x02, 0x01]), // 2313: header_bit_size
    (1, &[0x0D, 0x0C, 0x0B, 0x0A]), // 2317: first_mb_in_slice
    (1, &[1, 2, 3, 4]), // 2321: slice_type to cabac_init_idc
    (1, &[0xFB, 6, 7, 0xFA, 8]), // 2325: -5, 6, 7, -6, 8
    (1, &[9, 10]), // 2330: the active counts
    (1, &[3, 1, 3, 0, 0, 0]), // 2332: list 0
    (58, &[0]), // 2338
    (1, &[3, 0]), // 2396: list 1
    (62, &[0]), // 2398
    (1, &[0x01, 0x00, 0x00, 0x00]), // 2460: the flags
    // The decoded picture buffer.
    (1, &[0xFD, 0xFF, 0xFF, 0xFF]), // 2464: PicNum -3
    (1, &[0x0E, 0x0D, 0x03]), // 2468: frame_num, fields
    (1, &[0xFF, 0xFF, 0xFF, 0xFF]), // 2471: top_field_order_cnt
    (1, &[0x02, 0x01, 0x00, 0x00]), // 2475: bottom_field_order_cnt
    (1, &[0x03, 0x00, 0x00, 0x00]), // 2479: VALID, ACTIVE
    (1, &[0x07, 0x00, 0x00, 0x00]), // 2483: LongTermPicNum
    (1, &[0x0F, 0x00, 0x02]), // 2487: LongTermFrameIdx, fields
    (1, &[0x10, 0x00, 0x00, 0x00]), // 2490
    (1, &[0xEF, 0xFF, 0xFF, 0xFF]), // 2494
    (1, &[0x07, 0x00, 0x00, 0x00]), // 2498: VALID, ACTIVE, LONG_TERM
    (266, &[0]), // 2502
    // The picture.
    (1, &[0x02, 0x00]), // 2768: nal_ref_idc
    (1, &[0x12, 0x11]), // 2770: frame_num
    (1, &[0x13, 0x00, 0x00, 0x00]), // 2772: top_field_order_cnt
    (1, &[0xEC, 0xFF, 0xFF, 0xFF]), // 2776: bottom_field_order_cnt
    (1, &[0x16, 0x15, 0x18, 0x17]), // 2780: idr_pic_id, pic_order_cnt_lsb
    (1, &[0xE7, 0xFF, 0xFF, 0xFF]), // 2784: delta_pic_order_cnt_bottom
    (1, &[0x1A, 0x00, 0x00, 0x00]), // 2788: delta_pic_order_cnt0
    (1, &[0x1B, 0x00, 0x00, 0x00]), // 2792: delta_pic_order_cnt1
    (1, &[0x1C, 0x00, 0x00, 0x00]), // 2796: dec_ref_pic_marking_bit_size
    (1, &[0x1D, 0x00, 0x00, 0x00]), // 2800: pic_order_cnt_bit_size
    (1, &[0x1E, 0x00, 0x00, 0x00]), // 2804: slice_group_change_cycle
    (1, &[0x01, 0x00, 0x00, 0x00]), // 2808: IDR_PIC
    (0, &[]), // 2812
];

/// Controls that are put together by hand.
#[derive(Clone, Copy)]
enum Made {
    Idr,
    P,
    Distinct,
}

fn build(alloc: Global, which: Made) -> Result<Controls, AllocError> {
    match which {
        Made::Idr => idr_controls(alloc),
        Made::P => p_controls(alloc, Some(0)),
        Made::Distinct => distinct_controls(alloc),
    }
}

/// A byte and the pieces after it.
fn joined(alloc: Global, pieces: &[Piece<'_>]) -> Result<Vec<u8>, AllocError> {
    let mut joined = Vec::new(alloc);
    joined.push(0xAA)?;
    for (times, bytes) in pieces {
        for _ in 0..*times {
            joined.extend_from_slice(*bytes)?;
        }
    }
    Ok(joined)
}

/// A byte and the controls' form after it.
fn form_of(alloc: Global, controls: &Controls) -> Result<Vec<u8>, AllocError> {
    let mut form = Vec::new(alloc);
    form.push(0xAA)?;
    digest_form(controls, &mut form)?;
    Ok(form)
}

/// Whether the controls have this form, after what was there.
fn has_form(alloc: Global, controls: &Controls, pieces: &[Piece<'_>]) -> Result<bool, AllocError> {
    let wanted = joined(alloc, pieces)?;
    Ok(form_of(alloc, controls)? == wanted)
}

/// Controls with their form and its length.
type Form = (Made, &'static [Piece<'static>], usize);

const FORMS: [Form; 3] = [
    (Made::Idr, &IDR, 2040),
    (Made::P, &P, 2040),
    (Made::Distinct, &DISTINCT, 2812),
];

/// Whether the controls, and a copy of them, have the form, and it has its length.
fn form_is_right(alloc: Global, controls: &Controls, form: &Form) -> Result<bool, AllocError> {
    let copy = controls.copy()?;
    Ok(
        form_of(alloc, controls)?.len().checked_sub(1) == Some(form.2)
            && has_form(alloc, controls, form.1)?
            && has_form(alloc, &copy, form.1)?,
    )
}

fn row_is_right(alloc: Global, form: &Form) -> Result<bool, AllocError> {
    let controls = build(alloc, form.0)?;
    form_is_right(alloc, &controls, form)
}

#[test]
fn forms(rt: HostRuntime) -> Result<(), Fail> {
    for (row, form) in FORMS.iter().enumerate() {
        row_holds(&rt, row, row_is_right(rt.alloc(), form)?);
    }
    Ok(())
}

/// Whether a copy of the request that `copies` makes has its body, its timestamp, its references
/// and that it is held.
fn is_copy(request: &Request, copy: &Request) -> bool {
    copy.body.is_same(&request.body)
        && copy.bytes().len() == 6
        && copy.timestamp == 2000
        && copy.hold
        && copy.reference_ts(1) == Some(9000)
        && copy.reference(2) == None
}

/// Whether the copy is one, and its controls have their form.
fn has_a_copy(alloc: Global, request: &Request) -> Result<bool, AllocError> {
    let copy = request.copy()?;
    Ok(is_copy(request, &copy) && has_form(alloc, copy.controls(), &DISTINCT)?)
}

#[test]
fn copies(rt: HostRuntime) -> Result<(), Fail> {
    let bytes = [0, 0, 1, 0x41, 0x9A, 0x23];
    let request = request(rt.alloc(), distinct_controls(rt.alloc())?, &bytes, 2)?;
    assert!(rt; has_a_copy(rt.alloc(), &request)?);
    Ok(())
}

/// Controls, others, and whether they are the same.
const PAIRS: [(Made, Made, bool); 4] = [
    (Made::Idr, Made::Idr, true),
    (Made::Idr, Made::P, false),
    (Made::Distinct, Made::Distinct, true),
    (Made::Distinct, Made::Idr, false),
];

fn are_same(alloc: Global, one: Made, other: Made) -> Result<bool, AllocError> {
    let one = build(alloc, one)?;
    let other = build(alloc, other)?;
    Ok(one.is_same(&other))
}

#[test]
fn work_that_differs(rt: HostRuntime) -> Result<(), Fail> {
    for (row, (one, other, wanted)) in PAIRS.iter().enumerate() {
        row_holds(&rt, row, are_same(rt.alloc(), *one, *other)? == *wanted);
    }
    Ok(())
}

/// Whether the form is that of the sets, of 1540 bytes, and that of the slice after it.
fn has_two_parts(alloc: Global, controls: &Controls) -> Result<bool, AllocError> {
    let whole = form_of(alloc, controls)?;
    let mut parts = Vec::new(alloc);
    parts.push(0xAA)?;
    sets_form(&controls.sets, &mut parts)?;
    let front = parts.len();
    slice_form(controls, &mut parts)?;
    Ok(front == 1541 && parts == whole)
}

#[test]
fn form_in_two_parts(rt: HostRuntime) -> Result<(), Fail> {
    let controls = distinct_controls(rt.alloc())?;
    assert!(rt; has_two_parts(rt.alloc(), &controls)?);
    Ok(())
}
