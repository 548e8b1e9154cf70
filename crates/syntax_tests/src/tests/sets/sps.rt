use super::*;

/// Whether the set of this payload is as said; no set isn't.
fn reads(alloc: Global, payload: &[u8], said: Said) -> bool {
    match read_sps(alloc, payload) {
        Ok(sps) => said_of(said, &sps),
        Err(_) => false,
    }
}

/// What is said of a set.
#[derive(Clone, Copy)]
enum Said {
    Baseline,
    High,
    Monochrome,
    Greatest,
}

fn said_of(said: Said, sps: &Sps) -> bool {
    match said {
        Said::Baseline => is_baseline(sps),
        Said::High => is_high(sps),
        Said::Monochrome => {
            sps.chroma_format_idc == ChromaFormat::Monochrome && sps.max_num_ref_frames.get() == 1
        }
        Said::Greatest => is_greatest(sps),
    }
}

/// Profile 66, level 10; then 1 1 011 010 0 1 1 1 1.
fn is_baseline(sps: &Sps) -> bool {
    sps.profile_idc == 66
        && sps.constraint_set_flags == [false; 6]
        && sps.level_idc == 10
        && sps.seq_parameter_set_id.get() == 0
        && sps.chroma_format_idc == ChromaFormat::Yuv420
        && sps.pic_order_cnt_type == PicOrderCntType::Two
        && sps.max_frame_num() == 16
        && sps.max_num_ref_frames.get() == 1
        && sps.pic_size_in_mbs() == 1
        && sps.direct_8x8_inference_flag
}

/// 4:2:2, depths of 14 and 13 bits, the bypass flag, no scaling lists.
fn is_high(sps: &Sps) -> bool {
    sps.profile_idc == 100
        && sps.is_high()
        && sps.chroma_format_idc == ChromaFormat::Yuv422
        && sps.bit_depth_luma_minus8.get() == 6
        && sps.bit_depth_chroma_minus8.get() == 5
        && sps.qpprime_y_zero_transform_bypass_flag
        && !sps.seq_scaling_matrix_present_flag
        && sps.pic_order_cnt_type == PicOrderCntType::Two
}

/// Id 31, log2_max_frame_num_minus4 12, type 0 with 12, 16 frames with gaps, 65,536 by 65,536
/// macroblocks.
fn is_greatest(sps: &Sps) -> bool {
    sps.profile_idc == 77
        && sps.constraint_set_flags == [true, false, true, false, true, false]
        && sps.level_idc == 255
        && sps.seq_parameter_set_id.get() == 31
        && sps.pic_order_cnt_type == PicOrderCntType::Zero
        && sps.log2_max_pic_order_cnt_lsb_minus4.get() == 12
        && sps.max_frame_num() == 65_536
        && sps.max_num_ref_frames.get() == 16
        && sps.gaps_in_frame_num_value_allowed_flag
        && sps.pic_size_in_mbs() == 1 << 32
        && !sps.direct_8x8_inference_flag
}

/// Payloads with what is said of their sets.
const SETS: [(&[u8], Said); 4] = [
    (&[0x67, 0x42, 0x00, 0x0A, 0xDA, 0x79], Said::Baseline),
    (
        &[0x67, 0x64, 0x00, 0x0A, 0xB3, 0x9A, 0xB4, 0xF2],
        Said::High,
    ),
    (
        &[0x67, 0x7A, 0x00, 0x0A, 0xF2, 0xD3, 0xC8],
        Said::Monochrome,
    ),
    (
        &[
            0x67, 0x4D, 0xA8, 0xFF, 0x04, 0x03, 0x63, 0x42, 0x30, 0x00, 0x08, 0x00, 0x00, 0x00,
            0x04, 0x00, 0x02, 0x20,
        ],
        Said::Greatest,
    ),
];

#[test]
fn reads_sequence_sets(rt: HostRuntime) {
    for (row, (payload, said)) in SETS.iter().enumerate() {
        row_holds(&rt, row, reads(rt.alloc(), payload, *said));
    }
}

/// Type 1: always zero, -1, 1, and a cycle of 2 and 4.
fn has_cycle(sps: &Sps) -> bool {
    sps.pic_order_cnt_type == PicOrderCntType::One
        && sps.delta_pic_order_always_zero_flag
        && sps.offset_for_non_ref_pic == -1
        && sps.offset_for_top_to_bottom_field == 1
        && sps.num_ref_frames_in_pic_order_cnt_cycle == 2
        && sps.offset_for_ref_frame.as_slice() == [2, 4].as_slice()
}

/// Whether the set has the cycle, or there is no memory for it.
fn reads_cycle(alloc: Global) -> bool {
    match read_sps(
        alloc,
        &[0x67, 0x42, 0x00, 0x0A, 0xD5, 0xA6, 0x41, 0x09, 0xE4],
    ) {
        Ok(sps) => has_cycle(&sps),
        Err(fault) => fault == SetFault::Memory,
    }
}

#[test]
fn refused_cycle_of_offsets(rt: HostRuntime) {
    assert!(rt; reads_cycle(rt.alloc()));
}

const FAULTS: [(&[u8], SetFault); 25] = [
    (&[], SetFault::Cut),
    (&[0x67], SetFault::Cut),
    (&[0x67, 66, 0], SetFault::Cut),
    (&[0x67, 66, 0, 10, 0xDA], SetFault::Cut),
    (&[0x67, 88, 0], SetFault::Profile),
    (&[0x67, 65], SetFault::Profile),
    (&[0x67, 244, 0], SetFault::Profile),
    (&[0x67, 100, 0, 10, 0x93], SetFault::Chroma444),
    (
        &[0x67, 100, 0, 10, 0x97],
        SetFault::Range {
            field: SetField::ChromaFormat,
        },
    ),
    (
        &[0x67, 110, 0, 10, 0xA1, 0x10],
        SetFault::Range {
            field: SetField::BitDepth,
        },
    ),
    (
        &[0x67, 122, 0, 10, 0xA8, 0x80],
        SetFault::Range {
            field: SetField::BitDepth,
        },
    ),
    (&[0x67, 100, 0, 10, 0xAD], SetFault::Cut),
    // Deltas of 128 and of -129.
    (
        &[0x67, 100, 0, 10, 0xAD, 0x80, 0x40, 0x00],
        SetFault::Range {
            field: SetField::Delta,
        },
    ),
    (
        &[0x67, 100, 0, 10, 0xAD, 0x80, 0x40, 0xC0],
        SetFault::Range {
            field: SetField::Delta,
        },
    ),
    // Id 32, and an id with 32 zeros.
    (
        &[0x67, 66, 0, 10, 0x04, 0x20],
        SetFault::Range {
            field: SetField::SpsId,
        },
    ),
    (
        &[0x67, 66, 0, 10, 0, 0, 0, 0, 0x80],
        SetFault::Range {
            field: SetField::SpsId,
        },
    ),
    (
        &[0x67, 66, 0, 10, 0x8E],
        SetFault::Range {
            field: SetField::FrameNumBits,
        },
    ),
    (
        &[0x67, 66, 0, 10, 0xC8],
        SetFault::Range {
            field: SetField::CountType,
        },
    ),
    (
        &[0x67, 66, 0, 10, 0xE3, 0x80],
        SetFault::Range {
            field: SetField::CountBits,
        },
    ),
    (
        &[0x67, 66, 0, 10, 0xD7, 0x00, 0x80, 0x80],
        SetFault::Range {
            field: SetField::CycleLength,
        },
    ),
    (
        &[0x67, 66, 0, 10, 0xD4, 0, 0, 0, 0, 0],
        SetFault::Range {
            field: SetField::Offset,
        },
    ),
    (&[0x67, 66, 0, 10, 0xD8, 0x48], SetFault::RefFrames),
    (
        &[0x67, 66, 0, 10, 0xDA, 0, 0, 0x40, 0, 0x40],
        SetFault::Range {
            field: SetField::Width,
        },
    ),
    (
        &[0x67, 66, 0, 10, 0xDA, 0x40, 0, 0x20, 0, 0x20],
        SetFault::Range {
            field: SetField::Height,
        },
    ),
    (&[0x67, 66, 0, 10, 0xDA, 0x69], SetFault::Interlaced),
];

#[test]
fn names_the_first_fault_of_an_sps(rt: HostRuntime) {
    for (row, (payload, fault)) in FAULTS.iter().enumerate() {
        row_holds(&rt, row, sps_fault(rt.alloc(), payload) == Some(*fault));
    }
}

const BASELINE: &[u8] = &[0x67, 0x42, 0x00, 0x0A, 0xDA, 0x79];

/// At level 1.1.
const OTHER_LEVEL: &[u8] = &[0x67, 0x42, 0x00, 0x0B, 0xDA, 0x79];

/// Whether the sets of two payloads are the same; nothing where one is none.
fn are_same(alloc: Global, one: &[u8], other: &[u8]) -> Option<bool> {
    match (read_sps(alloc, one), read_sps(alloc, other)) {
        (Ok(one), Ok(other)) => Some(one.is_same(&other)),
        _ => None,
    }
}

#[test]
fn sets_are_same_by_each_field(rt: HostRuntime) {
    assert!(rt; are_same(rt.alloc(), BASELINE, BASELINE) == Some(true));
    assert!(rt; are_same(rt.alloc(), BASELINE, OTHER_LEVEL) == Some(false));
}
