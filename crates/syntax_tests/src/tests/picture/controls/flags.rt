//! Each flag alone has its number.

use super::super::row_holds;
use h264_controls::{DecodeFlags, DpbEntryFlags, PpsFlags, SliceFlags, SpsFlags};

fn sps_flags(set: u8) -> SpsFlags {
    SpsFlags {
        separate_colour_plane: set == 0,
        qpprime_y_zero_transform_bypass: set == 1,
        delta_pic_order_always_zero: set == 2,
        gaps_in_frame_num_value_allowed: set == 3,
        frame_mbs_only: set == 4,
        mb_adaptive_frame_field: set == 5,
        direct_8x8_inference: set == 6,
    }
}

fn pps_flags(set: u8) -> PpsFlags {
    PpsFlags {
        entropy_coding_mode: set == 0,
        bottom_field_pic_order_in_frame_present: set == 1,
        weighted_pred: set == 2,
        deblocking_filter_control_present: set == 3,
        constrained_intra_pred: set == 4,
        redundant_pic_cnt_present: set == 5,
        transform_8x8_mode: set == 6,
        scaling_matrix_present: set == 7,
    }
}

fn slice_flags(set: u8) -> SliceFlags {
    SliceFlags {
        direct_spatial_mv_pred: set == 0,
        sp_for_switch: set == 1,
    }
}

fn dpb_entry_flags(set: u8) -> DpbEntryFlags {
    DpbEntryFlags {
        valid: set == 0,
        active: set == 1,
        long_term: set == 2,
    }
}

/// The flag that is set, and the numbers of the flags of a PPS, an SPS, an entry of the buffer and
/// a slice.
const NUMBERS: [(u8, u32, u32, u32, u32); 8] = [
    (0, 1, 1, 1, 1),
    (1, 2, 2, 2, 2),
    (2, 4, 4, 4, 0),
    (3, 8, 8, 0, 0),
    (4, 16, 16, 0, 0),
    (5, 32, 32, 0, 0),
    (6, 64, 64, 0, 0),
    (7, 128, 0, 0, 0),
];

/// The numbers of the flags where this one is set.
fn numbers_of(set: u8) -> (u8, u32, u32, u32, u32) {
    (
        set,
        u32::from(pps_flags(set).number()),
        sps_flags(set).number(),
        dpb_entry_flags(set).number(),
        slice_flags(set).number(),
    )
}

#[test]
fn numbers_of_flags(rt: HostRuntime) {
    for (row, numbers) in NUMBERS.iter().enumerate() {
        row_holds(&rt, row, numbers_of(numbers.0) == *numbers);
    }
    let idr = DecodeFlags { idr_pic: true };
    let other = DecodeFlags { idr_pic: false };
    assert!(rt; idr.number() == 1 && other.number() == 0);
}
