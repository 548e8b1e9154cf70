//! Texts made by hand, read as access units (7.4.1.2.3).

mod growth;
mod refusals;
mod streams;

use super::row_holds;
use access_unit::{ParameterSet, SharedNal, Unit, one_answer, read_shared, read_stream, read_unit};
use bytes::Bytes;
use h264_types::param_sets::{PicOrderCntType, Pps, Sps};
use std::alloc::{AllocError, Global};
use std::test::Fail;

/// Profile 66, level 10, log2_max_frame_num_minus4 0, count type 2, one reference frame, one
/// macroblock.
const SPS: &[u8] = &[0x67, 0x42, 0x00, 0x0A, 0xDA, 0x79];
/// Both ids 0, and all else 0 but for the two deltas of quantization, which are 0 too.
const PPS: &[u8] = &[0x68, 0xCE, 0x38, 0x80];
/// A slice of an IDR picture: first_mb_in_slice 0, slice_type 7 (I).
const IDR: &[u8] = &[0x65, 0x88, 0x84, 0x80];
/// A slice of an IDR picture after its first: first_mb_in_slice 1, slice_type 7 (I).
const NEXT_IDR: &[u8] = &[0x65, 0x42, 0x21, 0x30];
/// A slice of a picture that refers to others: first_mb_in_slice 0, slice_type 5 (P).
const P: &[u8] = &[0x41, 0x9A, 0x23];

/// How many bytes the text of an access unit has at most.
const MOST: usize = 4_194_304;

/// NAL units.
type Nals = &'static [&'static [u8]];

/// The text with the NAL unit once more, as often as this.
fn append(text: &mut Vec<u8>, count: usize, nal: &[u8]) -> Result<(), AllocError> {
    for _ in 0..count {
        text.extend_from_slice(&[0, 0, 1])?;
        text.extend_from_slice(nal)?;
    }
    Ok(())
}

/// The text of the NAL units, with start codes of three bytes.
fn text_of(alloc: Global, nals: &[&[u8]]) -> Result<Vec<u8>, AllocError> {
    let mut text = Vec::new(alloc);
    for nal in nals {
        append(&mut text, 1, nal)?;
    }
    Ok(text)
}

/// The access unit has just these NAL units.
fn has_nals(unit: &Unit, nals: &[&[u8]]) -> bool {
    unit.nals().len() == nals.len()
        && unit
            .nals()
            .iter()
            .zip(nals)
            .all(|(stored, nal)| stored.nal().bytes() == *nal)
}

/// The text is an access unit of just these NAL units, also where it is shared.
fn reads_as(alloc: Global, text: &[u8], nals: &[&[u8]]) -> Result<bool, Fail> {
    let shared = Bytes::copy_from_slice(alloc, text)?;
    Ok(has_nals(&read_unit(alloc, text)?, nals) && has_nals(&read_shared(alloc, &shared)?, nals))
}

/// The slice of an IDR picture after a start code.
const CODED: &[u8] = &[0, 0, 1, 0x65, 0x88, 0x84, 0x80];

/// The slice is that of the sets' picture, and its bytes have a start code before them.
fn is_the_slice(slice: &SharedNal) -> Result<bool, AllocError> {
    let coded = slice.clone()?.coded()?;
    Ok(slice.nal().bytes() == IDR && coded.as_slice() == CODED)
}

fn is_the_sps(sps: &Sps) -> bool {
    sps.profile_idc == 66
        && sps.level_idc == 10
        && sps.pic_order_cnt_type == PicOrderCntType::Two
        && sps.max_num_ref_frames.get() == 1
}

fn is_the_pps(pps: &Pps) -> bool {
    pps.pic_parameter_set_id == 0
        && pps.seq_parameter_set_id.get() == 0
        && pps.num_ref_idx_l0_default_active_minus1.get() == 0
        && !pps.entropy_coding_mode_flag
        && !pps.redundant_pic_cnt_present_flag
}

/// The unit has the two sets and then the slice.
fn has_the_picture(unit: &Unit) -> Result<bool, AllocError> {
    let ([ParameterSet::Sps(sps), ParameterSet::Pps(pps)], [slice]) = (unit.sets(), unit.slices())
    else {
        return Ok(false);
    };
    let copy = pps.clone()?;
    Ok(unit.nals().len() == 3 && is_the_slice(slice)? && is_the_sps(sps) && is_the_pps(&copy))
}

/// The text is a unit of the two sets and the slice.
fn reads_the_picture(alloc: Global, text: &[u8]) -> Result<bool, Fail> {
    let unit = read_unit(alloc, text)?;
    Ok(has_the_picture(&unit)?)
}

#[test]
fn reads_a_unit(rt: HostRuntime) -> Result<(), Fail> {
    let text = text_of(rt.alloc(), &[SPS, PPS, IDR])?;
    assert!(rt; reads_the_picture(rt.alloc(), &text)?);
    one_answer();
    Ok(())
}

/// Texts that show no refusal, with their NAL units.
const ACCEPTED: [(&[u8], Nals); 7] = [
    // A slice of one byte, and one that doesn't begin at macroblock 0.
    (&[0, 0, 1, 0x65], &[&[0x65]]),
    (&[0, 0, 1, 0x41, 0x42, 0x21], &[&[0x41, 0x42, 0x21]]),
    // Start codes of four bytes and zeros at the end; a delimiter, SEI and filler.
    (
        &[
            0, 0, 0, 1, 9, 0x10, 0, 0, 0, 1, 6, 1, 0, 0, 1, 0x41, 0x9A, 0x23, 0, 0, 1, 12, 0x80, 0,
            0,
        ],
        &[&[9, 0x10], &[6, 1], P, &[12, 0x80]],
    ),
    // Several slices.
    (
        &[
            0, 0, 1, 0x65, 0x88, 0x84, 0x80, 0, 0, 1, 0x65, 0x42, 0x21, 0x30, 0, 0, 1, 12, 0x80, 0,
            0, 1, 0x25, 0x42, 0x21, 0x30,
        ],
        &[IDR, NEXT_IDR, &[12, 0x80], &[0x25, 0x42, 0x21, 0x30]],
    ),
    // No slice: sets, one set, and a delimiter.
    (
        &[
            0, 0, 1, 0x67, 0x42, 0x00, 0x0A, 0xDA, 0x79, 0, 0, 1, 0x68, 0xCE, 0x38, 0x80,
        ],
        &[SPS, PPS],
    ),
    (&[0, 0, 1, 0x67, 0x42, 0x00, 0x0A, 0xDA, 0x79], &[SPS]),
    (&[0, 0, 1, 9, 0x10], &[&[9, 0x10]]),
];

#[test]
fn accepts_what_shows_no_refusal(rt: HostRuntime) -> Result<(), Fail> {
    for (row, (text, nals)) in ACCEPTED.iter().enumerate() {
        row_holds(&rt, row, reads_as(rt.alloc(), text, nals)?);
    }
    Ok(())
}

/// Types that are passed over after a slice.
const PASSED_OVER: [u8; 14] = [0, 10, 11, 12, 22, 23, 24, 25, 26, 27, 28, 29, 30, 31];

#[test]
fn passes_over_types(rt: HostRuntime) -> Result<(), Fail> {
    for (row, unit_type) in PASSED_OVER.iter().enumerate() {
        let text = [0, 0, 1, 0x65, 0, 0, 1, *unit_type, 1];
        row_holds(
            &rt,
            row,
            reads_as(rt.alloc(), &text, &[&[0x65], &[*unit_type, 1]])?,
        );
    }
    Ok(())
}

/// The unit has a delimiter and the slice, and the slice's bytes can be had.
fn has_delimiter_and_slice(unit: &Unit) -> Result<bool, AllocError> {
    let [slice] = unit.slices() else {
        return Ok(false);
    };
    Ok(has_nals(unit, &[&[9, 0x10], IDR]) && is_the_slice(slice)?)
}

/// The NAL units are shares of the text for as long as the access unit is there.
fn shares(alloc: Global, text: &Bytes) -> Result<bool, Fail> {
    let unit = read_shared(alloc, text)?;
    Ok(has_delimiter_and_slice(&unit)? && !text.is_unique())
}

/// A copy of the text is the unit's own.
fn copies(alloc: Global, text: &Bytes) -> Result<bool, Fail> {
    let unit = read_unit(alloc, text.as_slice())?;
    Ok(has_delimiter_and_slice(&unit)? && text.is_unique())
}

#[test]
fn shares_a_text(rt: HostRuntime) -> Result<(), Fail> {
    // Zeros before each start code, and at the end.
    let text = [
        0, 0, 0, 0, 1, 9, 0x10, 0, 0, 0, 1, 0x65, 0x88, 0x84, 0x80, 0, 0,
    ];
    let shared = Bytes::copy_from_slice(rt.alloc(), &text)?;
    assert!(rt; shares(rt.alloc(), &shared)?);
    assert!(rt; shared.is_unique());
    assert!(rt; copies(rt.alloc(), &shared)?);
    Ok(())
}

/// How many NAL units, slices and sets the access unit of a text has.
fn sizes(alloc: Global, text: &[u8]) -> Result<(usize, usize, usize), Fail> {
    let unit = read_unit(alloc, text)?;
    Ok((unit.nals().len(), unit.slices().len(), unit.sets().len()))
}

/// A NAL unit, and another one so many times after it.
fn repeated(alloc: Global, nal: &[u8], other: &[u8], count: usize) -> Result<Vec<u8>, AllocError> {
    let mut text = text_of(alloc, &[nal])?;
    append(&mut text, count, other)?;
    Ok(text)
}

#[test]
fn reads_as_many_nal_units_as_fit(rt: HostRuntime) -> Result<(), Fail> {
    // One slice, and as many units of one byte as four mebibytes have room for.
    let text = repeated(rt.alloc(), &[0x65], &[12], (1 << 20) - 1)?;
    assert!(rt; text.len() == MOST);
    assert!(rt; sizes(rt.alloc(), &text)? == (1 << 20, 1, 0));
    assert!(rt; read_stream(&rt, rt.alloc(), &text)?.len() == 1);
    // As many picture parameter sets, and a slice.
    let mut text = repeated(rt.alloc(), PPS, PPS, 598_999)?;
    append(&mut text, 1, IDR)?;
    assert!(rt; sizes(rt.alloc(), &text)? == (599_001, 1, 599_000));
    Ok(())
}
