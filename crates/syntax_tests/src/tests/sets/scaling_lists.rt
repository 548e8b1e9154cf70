use super::writer::{Code, filled, put};
use super::*;

/// Whether the list has these deltas.
fn has_deltas(lists: &ScalingLists, j: usize, deltas: &[i8]) -> bool {
    match lists.as_slice().get(j) {
        Some(Some(list)) => list.deltas() == deltas,
        _ => false,
    }
}

/// Whether these lists aren't sent.
fn are_absent(lists: &ScalingLists, places: &[usize]) -> bool {
    for j in places {
        if !matches!(lists.as_slice().get(*j), Some(None)) {
            return false;
        }
    }
    true
}

/// Whether list 0 is sent by its first delta -8, list 3 by deltas 2 and -10, and the others aren't.
fn has_lists(sps: &Sps) -> bool {
    sps.seq_scaling_matrix_present_flag
        && sps.scaling_lists.as_slice().len() == 8
        && has_deltas(&sps.scaling_lists, 0, &[-8])
        && has_deltas(&sps.scaling_lists, 3, &[2, -10])
        && are_absent(&sps.scaling_lists, &[1, 2, 4, 5, 6, 7])
        && sps.pic_order_cnt_type == PicOrderCntType::Two
        && sps.max_num_ref_frames.get() == 1
}

/// Whether the set has its lists, or there is no memory for them.
fn reads_lists(alloc: Global) -> bool {
    match read_sps(alloc, &SPS_LISTS) {
        Ok(sps) => has_lists(&sps),
        Err(fault) => fault == SetFault::Memory,
    }
}

#[test]
fn refused_scaling_lists(rt: HostRuntime) {
    assert!(rt; reads_lists(rt.alloc()));
}

/// Whether the set has six lists, without 8x8 transforms, the last by delta -8, and a second offset
/// of 3.
fn has_six_lists(pps: &Pps) -> bool {
    !pps.transform_8x8_mode_flag
        && pps.scaling_lists.as_slice().len() == 6
        && are_absent(&pps.scaling_lists, &[4])
        && has_deltas(&pps.scaling_lists, 5, &[-8])
        && pps.second_chroma_qp_index_offset == 3
}

/// Whether it has eight with them, of which list 6 has 64 deltas of 1, and a second offset of -2.
fn has_eight_lists(pps: &Pps) -> bool {
    pps.transform_8x8_mode_flag
        && pps.scaling_lists.as_slice().len() == 8
        && are_absent(&pps.scaling_lists, &[5, 7])
        && has_deltas(&pps.scaling_lists, 6, &[1; 64])
        && pps.second_chroma_qp_index_offset == -2
}

/// Whether the set of this payload has six lists or eight, as is said; no set hasn't.
fn reads_picture_lists(alloc: Global, payload: &[u8], count: usize) -> bool {
    match read_pps(alloc, payload) {
        Ok(pps) if count == 6 => has_six_lists(&pps),
        Ok(pps) => has_eight_lists(&pps),
        Err(_) => false,
    }
}

/// 010 for each of 64 deltas of 1, after the flags, of which the seventh is 1.
const EIGHT: [u8; 29] = [
    0x68, 0xCE, 0x38, 0xC0, 0xA4, 0x92, 0x49, 0x24, 0x92, 0x49, 0x24, 0x92, 0x49, 0x24, 0x92, 0x49,
    0x24, 0x92, 0x49, 0x24, 0x92, 0x49, 0x24, 0x92, 0x49, 0x24, 0x92, 0x49, 0x0B,
];

#[test]
fn reads_the_lists_of_a_picture_set(rt: HostRuntime) {
    assert!(rt; reads_picture_lists(rt.alloc(), &PPS_LISTS, 6));
    assert!(rt; reads_picture_lists(rt.alloc(), &EIGHT, 8));
}

/// The plain sets, without lists.
const SPS: [u8; 6] = [0x67, 0x42, 0x00, 0x0A, 0xDA, 0x79];

const PPS: [u8; 4] = [0x68, 0xCE, 0x38, 0x80];

/// List 0 by its first delta -8 the default, list 3 by deltas 2 and -10, the others not sent.
const SPS_LISTS: [u8; 11] = [
    0x67, 0x64, 0x00, 0x0A, 0xAD, 0x84, 0x49, 0x02, 0xA1, 0x69, 0xE4,
];

/// Six lists, of which the last is the default by its first delta -8.
const PPS_LISTS: [u8; 6] = [0x68, 0xCE, 0x38, 0x41, 0x08, 0x9A];

/// The default lists in raster order, as ffmpeg has them (h264_ps.c, default_scaling4 and
/// default_scaling8).
const INTRA_4X4: [u8; 16] = [
    6, 13, 20, 28, 13, 20, 28, 32, 20, 28, 32, 37, 28, 32, 37, 42,
];

const INTER_4X4: [u8; 16] = [
    10, 14, 20, 24, 14, 20, 24, 27, 20, 24, 27, 30, 24, 27, 30, 34,
];

const INTRA_8X8: [u8; 64] = [
    6, 10, 13, 16, 18, 23, 25, 27, //
    10, 11, 16, 18, 23, 25, 27, 29, //
    13, 16, 18, 23, 25, 27, 29, 31, //
    16, 18, 23, 25, 27, 29, 31, 33, //
    18, 23, 25, 27, 29, 31, 33, 36, //
    23, 25, 27, 29, 31, 33, 36, 38, //
    25, 27, 29, 31, 33, 36, 38, 40, //
    27, 29, 31, 33, 36, 38, 40, 42,
];

const INTER_8X8: [u8; 64] = [
    9, 13, 15, 17, 19, 21, 22, 24, //
    13, 13, 17, 19, 21, 22, 24, 25, //
    15, 17, 19, 21, 22, 24, 25, 27, //
    17, 19, 21, 22, 24, 25, 27, 28, //
    19, 21, 22, 24, 25, 27, 28, 30, //
    21, 22, 24, 25, 27, 28, 30, 32, //
    22, 24, 25, 27, 28, 30, 32, 33, //
    24, 25, 27, 28, 30, 32, 33, 35,
];

/// Both payloads, and the lists of the matrix that they give.
type Row = (&'static [u8], &'static [u8], [[u8; 16]; 6], [[u8; 64]; 2]);

const MATRICES: [Row; 4] = [
    // Neither set has lists.
    (&SPS, &PPS, [[16; 16]; 6], [[16; 64]; 2]),
    // The lists of the sequence parameter set, by rule A.
    (
        &SPS_LISTS,
        &PPS,
        [
            INTRA_4X4, INTRA_4X4, INTRA_4X4, [10; 16], [10; 16], [10; 16],
        ],
        [INTRA_8X8, INTER_8X8],
    ),
    // Those of the picture parameter set by rule A, and by rule B.
    (
        &SPS,
        &PPS_LISTS,
        [
            INTRA_4X4, INTRA_4X4, INTRA_4X4, INTER_4X4, INTER_4X4, INTER_4X4,
        ],
        [[16; 64]; 2],
    ),
    (
        &SPS_LISTS,
        &PPS_LISTS,
        [
            INTRA_4X4, INTRA_4X4, INTRA_4X4, [10; 16], [10; 16], INTER_4X4,
        ],
        [INTRA_8X8, INTER_8X8],
    ),
];

/// Whether the sets give these lists; no set doesn't.
fn resolves(
    alloc: Global,
    sps: &[u8],
    pps: &[u8],
    lists_4x4: &[[u8; 16]; 6],
    lists_8x8: &[[u8; 64]; 2],
) -> bool {
    match (read_sps(alloc, sps), read_pps(alloc, pps)) {
        (Ok(sps), Ok(pps)) => {
            let matrix = resolve_matrix(&sps, &pps);
            matrix.lists_4x4 == *lists_4x4 && matrix.lists_8x8 == *lists_8x8
        }
        _ => false,
    }
}

#[test]
fn resolves_lists_by_their_sets(rt: HostRuntime) {
    for (row, (sps, pps, lists_4x4, lists_8x8)) in MATRICES.iter().enumerate() {
        row_holds(
            &rt,
            row,
            resolves(rt.alloc(), sps, pps, lists_4x4, lists_8x8),
        );
    }
}

/// For each list how many deltas it has, if it is sent.
const ENTRIES: [u8; 8] = [16, 0, 0, 0, 0, 0, 64, 0];

/// List 0 and list 6 with deltas of 1 alone, so that entry k is 9 + k, the others not sent.
fn rising_lists(alloc: Global) -> Result<Vec<u8>, AllocError> {
    let mut writer = BitWriter::new(alloc);
    // The set's first bytes, 8x8 transforms, and a matrix.
    for code in [Code::Fixed(24, 0x68CE38), Code::Fixed(2, 3)] {
        put(&mut writer, code)?;
    }
    for entries in ENTRIES {
        put(&mut writer, Code::Fixed(1, u64::from(entries > 0)))?;
        for _ in 0..entries {
            put(&mut writer, Code::Signed(1))?;
        }
    }
    filled(alloc, &mut writer)
}

const RISING_4X4: [u8; 16] = [
    9, 10, 14, 15, 11, 13, 16, 21, 12, 17, 20, 22, 18, 19, 23, 24,
];

const RISING_8X8: [u8; 64] = [
    9, 10, 14, 15, 23, 24, 36, 37, //
    11, 13, 16, 22, 25, 35, 38, 51, //
    12, 17, 21, 26, 34, 39, 50, 52, //
    18, 20, 27, 33, 40, 49, 53, 62, //
    19, 28, 32, 41, 48, 54, 61, 63, //
    29, 31, 42, 47, 55, 60, 64, 69, //
    30, 43, 46, 56, 59, 65, 68, 70, //
    44, 45, 57, 58, 66, 67, 71, 72,
];

const RISING: ([[u8; 16]; 6], [[u8; 64]; 2]) = (
    [
        RISING_4X4, RISING_4X4, RISING_4X4, INTER_4X4, INTER_4X4, INTER_4X4,
    ],
    [RISING_8X8, INTER_8X8],
);

#[test]
fn puts_entries_in_raster_order(rt: HostRuntime) -> Result<(), Fail> {
    let payload = rising_lists(rt.alloc())?;
    assert!(rt; resolves(rt.alloc(), &SPS, &payload, &RISING.0, &RISING.1));
    Ok(())
}
