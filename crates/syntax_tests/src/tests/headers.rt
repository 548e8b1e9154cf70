mod faults;
mod fields;
mod limits;
mod tables;
mod writer;

use super::row_holds;
use SliceType::{B, I, P};
use annexb::{Nal, SplitFault, split};
use h264_types::param_sets::{PicOrderCntType, Pps, Sps};
use h264_types::slice_headers::{
    DecRefPicMarking, MemoryManagementControlOperation, PredWeight, RefPicListModification,
    SliceHeader, SliceType,
};
use slice_header::{HeaderFault, HeaderFront, peek, read, slice_type};
use std::alloc::Global;
use std::process::Abort;
use std::test::Fail;
use test_builders::{small_pps, small_sps};

/// A text of one unit, the prefix of its header and its slice type.
type Front = (
    &'static [u8],
    Result<(u32, SliceType, u8), HeaderFault>,
    Option<SliceType>,
);

/// Whether the one unit of the text has this front and this slice type.
fn has_front(alloc: Global, row: &Front) -> Result<bool, SplitFault> {
    let nals = split(alloc, row.0)?;
    let [nal] = nals.as_slice() else {
        return Ok(false);
    };
    Ok(slice_type(nal) == row.2 && is_front(&peek(nal), &row.1))
}

fn is_front(
    front: &Result<HeaderFront, HeaderFault>,
    wanted: &Result<(u32, SliceType, u8), HeaderFault>,
) -> bool {
    match (front, wanted) {
        (Ok(front), Ok((first_mb_in_slice, slice_type, pic_parameter_set_id))) => {
            front.first_mb_in_slice == *first_mb_in_slice
                && front.slice_type == *slice_type
                && front.pic_parameter_set_id == *pic_parameter_set_id
        }
        (Err(fault), Err(wanted)) => *fault == *wanted,
        _ => false,
    }
}

const FRONTS: [Front; 9] = [
    // 1, 0001000 and 1: 0, 7 and 0; 1, 00110 and 1: 0, 5 and 0.
    (&[0, 0, 1, 0x65, 0x88, 0x84, 0x80], Ok((0, I, 0)), Some(I)),
    (&[0, 0, 1, 0x41, 0x9A], Ok((0, P, 0)), Some(P)),
    // 010, 010, and 100000000 after eight zeros: 1, 1 and 255.
    (
        &[0, 0, 1, 0x01, 0x48, 0x02, 0, 0x80],
        Ok((1, B, 255)),
        Some(B),
    ),
    // 2^23 + 1 in binary after 23 zeros, 011 and 1: 2^23, 2 and 0, with two bytes 03 put in.
    (
        &[0, 0, 1, 0x41, 0, 0, 3, 1, 0, 0, 3, 2, 0xE0],
        Ok((8_388_608, I, 0)),
        Some(I),
    ),
    // No bit; 1 and 00110, and then 00.
    (&[0, 0, 1, 0x41], Err(HeaderFault::Cut), None),
    (&[0, 0, 1, 0x41, 0x98], Err(HeaderFault::Cut), Some(P)),
    // 1 and 0001011: a slice_type of 10.
    (&[0, 0, 1, 0x41, 0x8B], Err(HeaderFault::Value), None),
    // 1, 1, and 100000001 after eight zeros: a pic_parameter_set_id of 256.
    (
        &[0, 0, 1, 0x41, 0xC0, 0x20, 0x20],
        Err(HeaderFault::Value),
        Some(P),
    ),
    // 32 zeros.
    (
        &[0, 0, 1, 0x41, 0, 0, 3, 0, 0, 0x80],
        Err(HeaderFault::Value),
        None,
    ),
];

#[test]
fn fronts(rt: HostRuntime) -> Result<(), Fail> {
    for (row, front) in FRONTS.iter().enumerate() {
        row_holds(&rt, row, has_front(rt.alloc(), front)?);
    }
    Ok(())
}

/// What is compared of a header: its type, frame_num and three sizes in bits.
type Summary = (SliceType, u16, u32, u32, u32);

fn summary(header: &SliceHeader) -> Summary {
    (
        header.slice_type,
        header.frame_num,
        header.header_bit_size,
        header.dec_ref_pic_marking_bit_size,
        header.pic_order_cnt_bit_size,
    )
}

/// What is compared of the header of a unit.
fn summary_of(alloc: Global, nal: &Nal<'_>, sps: &Sps, pps: &Pps) -> Result<Summary, HeaderFault> {
    match read(alloc, nal, sps, pps) {
        Ok(header) => Ok(summary(&header)),
        Err(fault) => Err(fault),
    }
}

/// A text of one unit, and its header.
type Row = (&'static [u8], Result<Summary, HeaderFault>);

/// Whether the one unit of the text has this header.
fn has_header(alloc: Global, sps: &Sps, pps: &Pps, row: &Row) -> Result<bool, SplitFault> {
    let nals = split(alloc, row.0)?;
    let [nal] = nals.as_slice() else {
        return Ok(false);
    };
    Ok(summary_of(alloc, nal, sps, pps) == row.1)
}

fn have_headers(
    rt: &(impl Abort + AllocGlobal),
    sps: &Sps,
    pps: &Pps,
    rows: &[Row],
) -> Result<(), SplitFault> {
    for (place, row) in rows.iter().enumerate() {
        row_holds(rt, place, has_header(rt.alloc(), sps, pps, row)?);
    }
    Ok(())
}

const HEADERS: [Row; 11] = [
    (&[0, 0, 1, 0x65, 0x88, 0x84, 0x80], Ok((I, 0, 25, 2, 0))),
    (&[0, 0, 1, 0x41, 0x9A, 0x23], Ok((P, 1, 23, 1, 0))),
    (&[0, 0, 1, 0x41, 0x9A, 0x43], Ok((P, 2, 23, 1, 0))),
    // A frame that is no reference: no marking.
    (&[0, 0, 1, 0x01, 0x9A, 0x47], Ok((P, 2, 22, 0, 0))),
    // Cut in frame_num; first_mb_in_slice 1.
    (&[0, 0, 1, 0x41, 0x9A], Err(HeaderFault::Cut)),
    (&[0, 0, 1, 0x41, 0x4C, 0xD1], Err(HeaderFault::Value)),
    // A slice_qp_delta of -88: 10110000 after seven zeros.
    (
        &[0, 0, 1, 0x41, 0x9A, 0x20, 0x05, 0x80],
        Err(HeaderFault::Value),
    ),
    // A second command for one entry; its code cut; a difference of 16; a command 4.
    (&[0, 0, 1, 0x41, 0x9A, 0x2F], Err(HeaderFault::Value)),
    (&[0, 0, 1, 0x41, 0x9A, 0x2E], Err(HeaderFault::Cut)),
    (&[0, 0, 1, 0x41, 0x9A, 0x2C, 0x22], Err(HeaderFault::Value)),
    (&[0, 0, 1, 0x41, 0x9A, 0x29, 0x40], Err(HeaderFault::Value)),
];

#[test]
fn headers(rt: HostRuntime) -> Result<(), Fail> {
    let (sps, pps) = (small_sps(rt.alloc()), small_pps(rt.alloc()));
    Ok(have_headers(&rt, &sps, &pps, &HEADERS)?)
}

const B_PICTURES: [Row; 3] = [
    (&[0, 0, 1, 0x65, 0x88, 0x84, 0x0C], Ok((I, 0, 29, 2, 4))),
    (&[0, 0, 1, 0x41, 0x9A, 0x28, 0x30], Ok((P, 1, 27, 1, 4))),
    (&[0, 0, 1, 0x01, 0x9E, 0x45, 0x18], Ok((B, 2, 28, 0, 4))),
];

#[test]
fn b_pictures(rt: HostRuntime) -> Result<(), Fail> {
    let (mut sps, pps) = (small_sps(rt.alloc()), small_pps(rt.alloc()));
    sps.pic_order_cnt_type = PicOrderCntType::Zero;
    Ok(have_headers(&rt, &sps, &pps, &B_PICTURES)?)
}

/// The header of the one unit.
fn one_header(alloc: Global, nals: &[Nal<'_>], sps: &Sps, pps: &Pps) -> Option<SliceHeader> {
    match nals {
        [nal] => read(alloc, nal, sps, pps).ok(),
        _ => None,
    }
}

/// The header of the one unit of a text.
fn header_of(
    alloc: Global,
    sps: &Sps,
    pps: &Pps,
    text: &[u8],
) -> Result<Option<SliceHeader>, SplitFault> {
    let nals = split(alloc, text)?;
    Ok(one_header(alloc, &nals, sps, pps))
}

/// The weights of one entry that are no weights.
const ONE: PredWeight = PredWeight {
    luma_weight: 1,
    luma_offset: 0,
    cb_weight: 1,
    cb_offset: 0,
    cr_weight: 1,
    cr_offset: 0,
};

/// Whether the header has a table of the weights of one entry of list 0.
fn is_weighted(header: &SliceHeader) -> bool {
    match &header.pred_weight_table {
        Some(table) => {
            summary(header) == (P, 1, 27, 1, 0)
                && table.luma_log2_weight_denom == 0
                && table.weights_l1.as_slice().is_empty()
                && table.weights_l0.as_slice() == [ONE].as_slice()
        }
        None => false,
    }
}

fn reads_weights(alloc: Global, sps: &Sps, pps: &Pps) -> Result<bool, SplitFault> {
    let header = header_of(alloc, sps, pps, &[0, 0, 1, 0x41, 0x9A, 0x26, 0x30])?;
    Ok(match &header {
        Some(header) => is_weighted(header),
        None => false,
    })
}

#[test]
fn weights(rt: HostRuntime) -> Result<(), Fail> {
    let (sps, mut pps) = (small_sps(rt.alloc()), small_pps(rt.alloc()));
    pps.weighted_pred_flag = true;
    assert!(rt; reads_weights(rt.alloc(), &sps, &pps)?);
    Ok(())
}

const COMMANDS: [RefPicListModification; 2] = [
    RefPicListModification::Subtract {
        abs_diff_pic_num_minus1: 2,
    },
    RefPicListModification::LongTerm {
        long_term_pic_num: 0,
    },
];

const OPERATIONS: [MemoryManagementControlOperation; 3] = [
    MemoryManagementControlOperation::AssignLongTerm {
        difference_of_pic_nums_minus1: 1,
        long_term_frame_idx: 0,
    },
    MemoryManagementControlOperation::FreeShortTerm {
        difference_of_pic_nums_minus1: 0,
    },
    MemoryManagementControlOperation::CurrentLongTerm {
        long_term_frame_idx: 1,
    },
];

/// Whether the header has the commands and the operations.
fn has_commands(header: &SliceHeader) -> bool {
    match &header.dec_ref_pic_marking {
        DecRefPicMarking::Adaptive { operations } => {
            summary(header) == (P, 1, 61, 23, 0)
                && header.num_ref_idx_l0_active_minus1.get() == 1
                && header.ref_pic_list_modification_l0.as_slice() == COMMANDS.as_slice()
                && operations.as_slice() == OPERATIONS.as_slice()
        }
        _ => false,
    }
}

/// 1 00110 1 0001, 1 and 010: two entries, 1: commands 1 011, 011 1 and the end 00100, 1:
/// operations 00100 010 1, 010 1, 00111 010 and the end 1, and 1: a slice_qp_delta of 0.
fn reads_commands(alloc: Global, sps: &Sps, pps: &Pps) -> Result<bool, SplitFault> {
    let text = [0, 0, 1, 0x41, 0x9A, 0x35, 0xB7, 0x24, 0x8A, 0xA7, 0x58];
    let header = header_of(alloc, sps, pps, &text)?;
    Ok(match &header {
        Some(header) => has_commands(header),
        None => false,
    })
}

#[test]
fn commands_and_operations(rt: HostRuntime) -> Result<(), Fail> {
    let (sps, pps) = (small_sps(rt.alloc()), small_pps(rt.alloc()));
    assert!(rt; reads_commands(rt.alloc(), &sps, &pps)?);
    Ok(())
}

/// The header of the first unit, or lack of memory.
fn is_long_header(alloc: Global, nals: &[Nal<'_>], sps: &Sps, pps: &Pps) -> bool {
    match nals.first() {
        Some(nal) => match summary_of(alloc, nal, sps, pps) {
            Ok(summary) => summary == (P, 1, 538, 514, 0),
            Err(fault) => fault == HeaderFault::Memory,
        },
        None => false,
    }
}

#[test]
fn refused_growth_is_memory(rt: HostRuntime) {
    let (sps, pps) = (small_sps(rt.alloc()), small_pps(rt.alloc()));
    // 32 operations 011 with 0000001000000, each of two bytes, in a header of 538 bits.
    let mut text = [0x40; 71];
    text[..6].copy_from_slice(&[0, 0, 1, 0x41, 0x99, 0x09]);
    for i in 0..32usize {
        text[6 + 2 * i] = 0x60;
    }
    text[70] = 0xC0;
    if let Ok(nals) = split(rt.alloc(), &text) {
        assert!(rt; is_long_header(rt.alloc(), &nals, &sps, &pps));
    }
}
