use super::*;

/// What is said of a set.
#[derive(Clone, Copy)]
enum Said {
    Plain,
    Weighted,
    Ends,
    Greatest,
}

fn said_of(said: Said, pps: &Pps) -> bool {
    match said {
        Said::Plain => is_plain(pps),
        Said::Weighted => pps.weighted_pred_flag,
        Said::Ends => has_ends(pps),
        Said::Greatest => has_greatest(pps),
    }
}

/// 1 1 0 0 1 1 1 0 00 1 1 1 0 0 0, and the stop bit.
fn is_plain(pps: &Pps) -> bool {
    pps.pic_parameter_set_id == 0
        && pps.seq_parameter_set_id.get() == 0
        && !pps.entropy_coding_mode_flag
        && !pps.weighted_pred_flag
        && pps.weighted_bipred_idc == WeightedBipred::Default
        && pps.second_chroma_qp_index_offset == 0
}

/// Ids 255 and 31, all flags, 32 entries, implicit weights, the least offsets; a second offset of
/// 12.
fn has_ends(pps: &Pps) -> bool {
    pps.pic_parameter_set_id == 255
        && pps.seq_parameter_set_id.get() == 31
        && pps.entropy_coding_mode_flag
        && pps.bottom_field_pic_order_in_frame_present_flag
        && pps.num_ref_idx_l0_default_active_minus1.get() == 31
        && pps.num_ref_idx_l1_default_active_minus1.get() == 31
        && pps.weighted_bipred_idc == WeightedBipred::Implicit
        && pps.pic_init_qp_minus26 == -62
        && pps.pic_init_qs_minus26 == -26
        && pps.chroma_qp_index_offset == -12
        && pps.deblocking_filter_control_present_flag
        && pps.constrained_intra_pred_flag
        && pps.redundant_pic_cnt_present_flag
        && pps.transform_8x8_mode_flag
        && pps.second_chroma_qp_index_offset == 12
}

/// The greatest offsets, the second one inferred.
fn has_greatest(pps: &Pps) -> bool {
    pps.weighted_bipred_idc == WeightedBipred::Explicit
        && pps.pic_init_qp_minus26 == 25
        && pps.pic_init_qs_minus26 == 25
        && pps.second_chroma_qp_index_offset == 12
}

/// Whether the set of this payload is as said; no set isn't.
fn reads(alloc: Global, payload: &[u8], said: Said) -> bool {
    match read_pps(alloc, payload) {
        Ok(pps) => said_of(said, &pps),
        Err(_) => false,
    }
}

/// Payloads with what is said of their sets.
const SETS: [(&[u8], Said); 4] = [
    (&[0x68, 0xCE, 0x38, 0x80], Said::Plain),
    (&[0x68, 0xCF, 0x38, 0x80], Said::Weighted),
    (
        &[
            0x68, 0x00, 0x80, 0x02, 0x0E, 0x08, 0x01, 0x06, 0x03, 0xE8, 0x35, 0x0C, 0xF8, 0x31,
        ],
        Said::Ends,
    ),
    (&[0x68, 0xCE, 0x41, 0x90, 0x32, 0x0C, 0x08], Said::Greatest),
];

#[test]
fn reads_picture_sets(rt: HostRuntime) {
    for (row, (payload, said)) in SETS.iter().enumerate() {
        row_holds(&rt, row, reads(rt.alloc(), payload, *said));
    }
}

const FAULTS: [(&[u8], SetFault); 19] = [
    (&[], SetFault::Cut),
    (&[0x68], SetFault::Cut),
    (&[0x68, 0xCE], SetFault::Cut),
    (&[0x68, 0xCE, 0x38, 0x01], SetFault::Cut),
    (
        &[0x68, 0x00, 0x80, 0xCE, 0x38, 0x80],
        SetFault::Range {
            field: SetField::PpsId,
        },
    ),
    (
        &[0x68, 0x82, 0x13, 0x8E, 0x20],
        SetFault::Range {
            field: SetField::SpsId,
        },
    ),
    (&[0x68, 0xC4, 0x80], SetFault::SliceGroups),
    (&[0x68, 0xC0, 0, 0, 0, 0, 0x80], SetFault::SliceGroups),
    (
        &[0x68, 0xC8, 0x21, 0x8E, 0x20],
        SetFault::Range {
            field: SetField::ActiveCount,
        },
    ),
    (
        &[0x68, 0xCC, 0x10, 0x8E, 0x20],
        SetFault::Range {
            field: SetField::ActiveCount,
        },
    ),
    (
        &[0x68, 0xCE, 0xF8, 0x80],
        SetFault::Range {
            field: SetField::BipredIdc,
        },
    ),
    (
        &[0x68, 0xCE, 0x00, 0xFF, 0x88],
        SetFault::Range {
            field: SetField::InitQp,
        },
    ),
    (
        &[0x68, 0xCE, 0x01, 0xA6, 0x20],
        SetFault::Range {
            field: SetField::InitQp,
        },
    ),
    (
        &[0x68, 0xCE, 0x20, 0xDE, 0x20],
        SetFault::Range {
            field: SetField::InitQs,
        },
    ),
    (
        &[0x68, 0xCE, 0x20, 0xD2, 0x20],
        SetFault::Range {
            field: SetField::InitQs,
        },
    ),
    (
        &[0x68, 0xCE, 0x30, 0xD0, 0x80],
        SetFault::Range {
            field: SetField::ChromaOffset,
        },
    ),
    (
        &[0x68, 0xCE, 0x30, 0xD8, 0x80],
        SetFault::Range {
            field: SetField::ChromaOffset,
        },
    ),
    (
        &[0x68, 0xCE, 0x38, 0x03, 0x50],
        SetFault::Range {
            field: SetField::ChromaOffset,
        },
    ),
    (&[0x68, 0xCE, 0x38, 0x60], SetFault::Cut),
];

#[test]
fn names_the_first_fault_of_a_pps(rt: HostRuntime) {
    for (row, (payload, fault)) in FAULTS.iter().enumerate() {
        row_holds(&rt, row, pps_fault(rt.alloc(), payload) == Some(*fault));
    }
}

// 1 1 0 0 1 1 1 0 00 1 1 1 0 0 0, and the stop bit.
const PLAIN: &[u8] = &[0x68, 0xCE, 0x38, 0x80];

// Of six lists only the last by delta -8.
const LAST: &[u8] = &[0x68, 0xCE, 0x38, 0x41, 0x08, 0x9A];

/// Two payloads, and whether their sets are the same.
const PAIRS: [(&[u8], &[u8], bool); 5] = [
    (PLAIN, PLAIN, true),
    // weighted_pred_flag is 1.
    (PLAIN, &[0x68, 0xCF, 0x38, 0x80], false),
    // transform_8x8_mode_flag is 1.
    (PLAIN, &[0x68, 0xCE, 0x38, 0xB0], false),
    (LAST, LAST, true),
    // Only the list before the last.
    (LAST, &[0x68, 0xCE, 0x38, 0x42, 0x11, 0x1A], false),
];

/// Whether the sets of two payloads are the same; nothing where one is none.
fn are_same(alloc: Global, one: &[u8], other: &[u8]) -> Option<bool> {
    match (read_pps(alloc, one), read_pps(alloc, other)) {
        (Ok(one), Ok(other)) => Some(one.is_same(&other)),
        _ => None,
    }
}

#[test]
fn picture_sets_are_same_by_each_field(rt: HostRuntime) {
    for (row, (one, other, wanted)) in PAIRS.iter().enumerate() {
        row_holds(&rt, row, are_same(rt.alloc(), one, other) == Some(*wanted));
    }
}
