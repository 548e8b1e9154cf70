//! Headers with the fields of 7.3.3, and the ranges of the fields.

use super::writer::Code;
use Code::{FrameNum, LastFrameNum, Lsb, MaxFrameNum, Operations, Se, TooLong, U, Ue};
use h264_types::param_sets::{ChromaFormat, PicOrderCntType};

/// A field: its place among the codes, codes that are read there, and codes that are out of its
/// range.
pub(super) type Field = (usize, &'static [Code], &'static [Code]);

/// A header: the unit's first byte, the count type, the codes in order, and fields that stand for
/// others of theirs.
#[derive(Clone, Copy)]
pub(super) struct Header {
    pub(super) first: u8,
    pub(super) count_type: PicOrderCntType,
    pub(super) chroma_format_idc: ChromaFormat,
    pub(super) codes: &'static [Code],
    pub(super) fields: &'static [Field],
}

/// A slice of an IDR picture.
pub(super) const IDR: Header = Header {
    first: 0x65,
    count_type: PicOrderCntType::Two,
    chroma_format_idc: ChromaFormat::Yuv420,
    codes: &[
        Ue(7),
        Ue(7),
        Ue(0),
        FrameNum(false),
        Ue(0), // idr_pic_id
        Ue(0), // redundant_pic_cnt
        U(1, 1),
        U(1, 0),
        Se(1), // slice_qp_delta
        Ue(1), // disable_deblocking_filter_idc
    ],
    fields: &[
        (0, &[Ue(0), Ue(255)], &[Ue(256), TooLong]),
        (1, &[Ue(2), Ue(7)], &[Ue(10), TooLong]),
        (2, &[Ue(0), Ue(255)], &[Ue(256), TooLong]),
        (3, &[FrameNum(false), FrameNum(true)], &[]),
        (4, &[Ue(0), Ue(65_535)], &[Ue(65_536), TooLong]),
        (5, &[Ue(0), Ue(127)], &[Ue(128), TooLong]),
        (6, &[U(1, 0), U(1, 1)], &[]),
        (7, &[U(1, 0), U(1, 1)], &[]),
        (8, &[Se(-87), Se(87)], &[Se(-88), Se(88), TooLong]),
        (9, &[Ue(1)], &[Ue(3), TooLong]),
    ],
};

/// A P slice with commands, weights and operations.
pub(super) const P: Header = Header {
    first: 0x41,
    count_type: PicOrderCntType::Zero,
    chroma_format_idc: ChromaFormat::Yuv420,
    codes: &[
        Ue(7),
        Ue(5),
        Ue(0),
        FrameNum(true),
        Lsb(true),
        Se(1), // delta_pic_order_cnt_bottom
        Ue(0), // redundant_pic_cnt
        U(1, 1), // num_ref_idx_active_override_flag
        Ue(1),
        U(1, 1), // ref_pic_list_modification_flag_l0
        Ue(0),
        Ue(0), // abs_diff_pic_num_minus1
        Ue(2),
        Ue(0), // long_term_pic_num
        Ue(3),
        Ue(0), // luma_log2_weight_denom
        Ue(0),
        U(1, 1), // luma_weight_l0_flag
        Se(1),
        Se(1),
        U(1, 1), // chroma_weight_l0_flag
        Se(1),
        Se(1),
        Se(1),
        Se(1),
        U(1, 0),
        U(1, 0),
        U(1, 1), // adaptive_ref_pic_marking_mode_flag
        Ue(1),
        Ue(0), // difference_of_pic_nums_minus1
        Ue(3),
        Ue(0),
        Ue(0), // long_term_frame_idx
        Ue(2),
        Ue(0), // long_term_pic_num
        Ue(4),
        Ue(0), // max_long_term_frame_idx_plus1
        Ue(6),
        Ue(0), // long_term_frame_idx
        Ue(0),
        Ue(0), // cabac_init_idc
        Se(1), // slice_qp_delta
        Ue(0), // disable_deblocking_filter_idc
        Se(1),
        Se(1),
    ],
    fields: &[
        (1, &[Ue(0), Ue(5)], &[Ue(10), TooLong]),
        (4, &[Lsb(false), Lsb(true)], &[]),
        (5, &[Se(-2_147_483_647), Se(2_147_483_647)], &[TooLong]),
        (6, &[Ue(0), Ue(127)], &[Ue(128), TooLong]),
        (7, &[U(1, 1)], &[]),
        (8, &[Ue(1)], &[Ue(32), TooLong]),
        (9, &[U(1, 1)], &[]),
        (10, &[Ue(0), Ue(1), Ue(2)], &[Ue(4), TooLong]),
        (11, &[Ue(0), LastFrameNum], &[MaxFrameNum, TooLong]),
        (13, &[Ue(0), Ue(4_294_967_294)], &[TooLong]),
        // No third command for two entries.
        (14, &[Ue(3)], &[Ue(0), Ue(1), Ue(2), Ue(4), TooLong]),
        (15, &[Ue(0), Ue(7)], &[Ue(8), TooLong]),
        (16, &[Ue(0), Ue(7)], &[Ue(8), TooLong]),
        (17, &[U(1, 1)], &[]),
        (18, &[Se(-128), Se(127)], &[Se(-129), Se(128), TooLong]),
        (19, &[Se(-128), Se(127)], &[Se(-129), Se(128), TooLong]),
        (20, &[U(1, 1)], &[]),
        (21, &[Se(-128), Se(127)], &[Se(-129), Se(128), TooLong]),
        (22, &[Se(-128), Se(127)], &[Se(-129), Se(128), TooLong]),
        (23, &[Se(-128), Se(127)], &[Se(-129), Se(128), TooLong]),
        (24, &[Se(-128), Se(127)], &[Se(-129), Se(128), TooLong]),
        (25, &[U(1, 0)], &[]),
        (26, &[U(1, 0)], &[]),
        (27, &[U(1, 1)], &[]),
        (28, &[Ue(1), Ue(6)], &[Ue(7), TooLong]),
        (29, &[Ue(0), Ue(4_294_967_294)], &[TooLong]),
        (31, &[Ue(0), Ue(4_294_967_294)], &[TooLong]),
        (32, &[Ue(0), Ue(4_294_967_294)], &[TooLong]),
        (34, &[Ue(0), Ue(4_294_967_294)], &[TooLong]),
        (36, &[Ue(0), Ue(4_294_967_294)], &[TooLong]),
        (38, &[Ue(0), Ue(4_294_967_294)], &[TooLong]),
        (39, &[Ue(0)], &[Ue(7), TooLong]),
        (40, &[Ue(0), Ue(2)], &[Ue(3), TooLong]),
        (41, &[Se(-87), Se(87)], &[Se(-88), Se(88), TooLong]),
        (42, &[Ue(0), Ue(2)], &[Ue(3), TooLong]),
        (43, &[Se(-6), Se(6)], &[Se(-7), Se(7), TooLong]),
        (44, &[Se(-6), Se(6)], &[Se(-7), Se(7), TooLong]),
    ],
};

/// A B slice of no reference, which ends the commands of list 0 at once, and has weights in list 1.
pub(super) const B: Header = Header {
    first: 0x01,
    count_type: PicOrderCntType::One,
    chroma_format_idc: ChromaFormat::Yuv422,
    codes: &[
        Ue(7),
        Ue(6),
        Ue(0),
        FrameNum(true),
        Se(1), // delta_pic_order_cnt[0]
        Se(1),
        Ue(0), // redundant_pic_cnt
        U(1, 0), // direct_spatial_mv_pred_flag
        U(1, 1), // num_ref_idx_active_override_flag
        Ue(0),
        Ue(0),
        U(1, 1), // ref_pic_list_modification_flag_l0
        Ue(3),
        U(1, 1), // ref_pic_list_modification_flag_l1
        Ue(1),
        Ue(0), // abs_diff_pic_num_minus1
        Ue(3),
        Ue(0), // luma_log2_weight_denom
        Ue(0),
        U(2, 0),
        U(1, 1), // luma_weight_l1_flag
        Se(1),
        Se(1),
        U(1, 1), // chroma_weight_l1_flag
        Se(1),
        Se(1),
        Se(1),
        Se(1),
        Ue(0), // cabac_init_idc
        Se(1), // slice_qp_delta
        Ue(1), // disable_deblocking_filter_idc
    ],
    fields: &[
        (1, &[Ue(1), Ue(6)], &[Ue(10), TooLong]),
        (4, &[Se(-2_147_483_647), Se(2_147_483_647)], &[TooLong]),
        (5, &[Se(-2_147_483_647), Se(2_147_483_647)], &[TooLong]),
        (7, &[U(1, 0), U(1, 1)], &[]),
        (8, &[U(1, 1)], &[]),
        (9, &[Ue(0)], &[Ue(32), TooLong]),
        (10, &[Ue(0)], &[Ue(32), TooLong]),
        (12, &[Ue(3)], &[Ue(4), TooLong]),
        (13, &[U(1, 1)], &[]),
        (14, &[Ue(0), Ue(1), Ue(2)], &[Ue(4), TooLong]),
        (15, &[Ue(0), LastFrameNum], &[MaxFrameNum, TooLong]),
        // No second command for one entry.
        (16, &[Ue(3)], &[Ue(0), Ue(1), Ue(2), Ue(4), TooLong]),
        (20, &[U(1, 1)], &[]),
        (21, &[Se(-128), Se(127)], &[Se(-129), Se(128), TooLong]),
        (22, &[Se(-128), Se(127)], &[Se(-129), Se(128), TooLong]),
        (23, &[U(1, 1)], &[]),
        (24, &[Se(-128), Se(127)], &[Se(-129), Se(128), TooLong]),
        (25, &[Se(-128), Se(127)], &[Se(-129), Se(128), TooLong]),
        (26, &[Se(-128), Se(127)], &[Se(-129), Se(128), TooLong]),
        (27, &[Se(-128), Se(127)], &[Se(-129), Se(128), TooLong]),
        (28, &[Ue(0), Ue(2)], &[Ue(3), TooLong]),
    ],
};

/// A monochrome B slice with as many entries and operations as there can be.
pub(super) const LONG: Header = Header {
    first: 0x21,
    count_type: PicOrderCntType::Two,
    chroma_format_idc: ChromaFormat::Monochrome,
    codes: &[
        Ue(0),
        Ue(1),
        Ue(0),
        FrameNum(true),
        Ue(0), // redundant_pic_cnt
        U(1, 1),
        U(1, 1), // num_ref_idx_active_override_flag
        Ue(31),
        Ue(31),
        U(1, 0), // ref_pic_list_modification_flag_l0
        U(1, 0),
        Ue(7), // luma_log2_weight_denom
        U(32, 0),
        U(32, 0),
        U(1, 1), // adaptive_ref_pic_marking_mode_flag
        Operations,
        Ue(0),
        Ue(0), // cabac_init_idc
        Se(0), // slice_qp_delta
        Ue(1), // disable_deblocking_filter_idc
    ],
    fields: &[
        (7, &[Ue(31)], &[Ue(32), TooLong]),
        (8, &[Ue(31)], &[Ue(32), TooLong]),
        (9, &[U(1, 0)], &[]),
        (10, &[U(1, 0)], &[]),
        // No 65th operation.
        (16, &[Ue(0)], &[Ue(1), Ue(2), Ue(3), Ue(4), Ue(5), Ue(6)]),
    ],
};

/// A slice of a switching picture, without lists but with cabac_init_idc.
pub(super) const SWITCHING: Header = Header {
    first: 0x41,
    count_type: PicOrderCntType::Two,
    chroma_format_idc: ChromaFormat::Yuv420,
    codes: &[
        Ue(7),
        Ue(9),
        Ue(0),
        FrameNum(true),
        Ue(0), // redundant_pic_cnt
        U(1, 0), // adaptive_ref_pic_marking_mode_flag
        Ue(0), // cabac_init_idc
        Se(1), // slice_qp_delta
        Ue(1), // disable_deblocking_filter_idc
    ],
    fields: &[
        (1, &[Ue(3), Ue(4), Ue(8), Ue(9)], &[Ue(10), TooLong]),
        (5, &[U(1, 0)], &[]),
        (6, &[Ue(0), Ue(2)], &[Ue(3), TooLong]),
    ],
};
